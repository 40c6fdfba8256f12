//! Plays of a local end: what is asked of it in turn, and what comes of it.
//!
//! A row is a line: a word, a blank, what the word needs, ` -> `, and what comes of it. A part that comes many times
//! stands once: `«3 [»` is `[[[`.
ghost use Rattle.std.specs.Prelude.{IfOk};

use crate::told::tell;
use bidi_local::{LocalEnd, LocalFault, Received};
use bidi_messages::{CommandData, Method, Named, Payload, data_of, read_message};
use bidi_tree::JsUint;
use std::alloc::Global;
use std::process::Abort;
use std::test::Fail;
use testing::repeats::repeated;
use testing::texts::tree_of;

// ---- what texts mean

/// Plays, with an empty line between them.
const ANSWERS: &str = r#"
send session.status {} -> 1 {"id":1,"method":"session.status","params":{}}
take [1 -> NotJson
take  -> NotJson
take «128 [»«128 ]» -> NotJson
take «127 [»«127 ]» -> NotInProfile
take {} -> NotInProfile
take {"id":1,"method":"session.status","params":{}} -> NotInProfile
take {"method":"browsingContext.navigationCommitted","params":{"context":"c","navigation":null,"timestamp":0,"url":"about:blank"},"type":"event"} -> NotInProfile
take {"id":"1","result":{"message":"ready","ready":true},"type":"success"} -> NotInProfile
take {"id":9007199254740992,"result":{},"type":"success"} -> NotInProfile
take {"error":"no such error","id":1,"message":"","type":"error"} -> NotInProfile
take {"type":"success","id":2,"result":{}} -> Stray
take {"type":"success","id":0,"result":{}} -> Stray
take {"error":"invalid argument","id":2,"message":"invalid argument","type":"error"} -> Stray
take {"error":"invalid argument","id":null,"message":"invalid argument","type":"error"} -> Stray
take {"method":"script.realmDestroyed","params":{"realm":"r"},"type":"event"} -> Event script.realmDestroyed {"realm":"r"}
lose -> 1
lose ->
take {"id":1,"result":{"message":"ready","ready":true},"type":"success"} -> Stray

send session.status {} -> 1 {"id":1,"method":"session.status","params":{}}
take {"id":1,"result":{"message":"ready","ready":true},"type":"success"} -> Answer 1 session.status {"message":"ready","ready":true}
take {"id":1,"result":{"message":"ready","ready":true},"type":"success"} -> Stray
lose ->

send session.status {} -> 1 {"id":1,"method":"session.status","params":{}}
take {"type":"success","id":1,"result":{}} -> BadResult 1
take {"type":"success","id":1,"result":{}} -> Stray
lose ->

send session.status {} -> 1 {"id":1,"method":"session.status","params":{}}
take {"error":"invalid session id","id":1,"message":"invalid session id","type":"error"} -> Refusal 1 invalid session id
take {"error":"invalid session id","id":1,"message":"invalid session id","type":"error"} -> Stray
lose ->

take {"method":"script.realmDestroyed","params":{"realm":"r"},"type":"event"} -> Event script.realmDestroyed {"realm":"r"}
take {"error":"unknown error","id":null,"message":"","stacktrace":"s","type":"error","x":[null]} -> Stray
"#;

/// Plays in which several commands wait: each is settled by its id, and its method says which results fit.
const ORDERS: &str = r#"
send session.status {} -> 1 {"id":1,"method":"session.status","params":{}}
send browsingContext.getTree {"maxDepth":0} -> 2 {"id":2,"method":"browsingContext.getTree","params":{"maxDepth":0}}
send session.end {} -> 3 {"id":3,"method":"session.end","params":{}}
send script.disown {"handles":[],"target":{"realm":"r"}} -> 4 {"id":4,"method":"script.disown","params":{"handles":[],"target":{"realm":"r"}}}
take {"id":2,"result":{"contexts":[]},"type":"success"} -> Answer 2 browsingContext.getTree {"contexts":[]}
take {"id":1,"result":{"contexts":[]},"type":"success"} -> BadResult 1
lose -> 3 4
send session.end {} -> 5 {"id":5,"method":"session.end","params":{}}
take {"id":3,"result":{},"type":"success"} -> Stray
take {"id":5,"result":{"x":{"y":1}},"type":"success"} -> Answer 5 session.end {"x":{"y":1}}
lose ->
"#;

#[test]
fn each_text_means_one_of_seven_things(rt: HostRuntime) -> Result<(), Fail> {
    check_plays(&rt, rt.alloc(), ANSWERS)?;
    check_plays(&rt, rt.alloc(), ORDERS)
}

// ---- commands that others sent

/// Plays in which commands are noted, and messages that were read are taken: what is settled has its method in front.
const NOTES: &str = r#"
waiting ->
note 7 session.status -> noted
note 3 session.end -> noted
note 7 session.end -> IdWaits
waiting -> 7 session.status, 3 session.end
send session.status {} -> 8 {"id":8,"method":"session.status","params":{}}
message {"method":"script.realmDestroyed","params":{"realm":"r"},"type":"event"} -> Event script.realmDestroyed {"realm":"r"}
message {"id":3,"result":{},"type":"success"} -> session.end: Answer 3 session.end {}
message {"id":7,"result":{},"type":"success"} -> session.status: BadResult 7
message {"error":"unknown error","id":8,"message":"","type":"error"} -> session.status: Refusal 8 unknown error
message {"id":7,"result":{},"type":"success"} -> Stray
message {"error":"invalid argument","id":null,"message":"","type":"error"} -> Stray
waiting ->
note 7 script.evaluate -> noted
send session.end {} -> 9 {"id":9,"method":"session.end","params":{}}
take {"id":7,"result":{},"type":"success"} -> BadResult 7
lose -> 9

note 9007199254740991 session.end -> noted
send session.status {} -> IdsUsedUp
note 0 session.status -> noted
waiting -> 9007199254740991 session.end, 0 session.status
take {"id":0,"result":{"message":"ready","ready":true},"type":"success"} -> Answer 0 session.status {"message":"ready","ready":true}

fill 1023 -> 1023
note 2000 session.end -> noted
note 2001 session.end -> TooManyPending
note 2000 session.end -> IdWaits
send session.status {} -> TooManyPending
message {"error":"unknown error","id":7,"message":"","type":"error"} -> session.status: Refusal 7 unknown error
note 7 session.end -> noted
note 2001 session.end -> TooManyPending
"#;

#[test]
fn commands_that_others_sent_are_noted(rt: HostRuntime) -> Result<(), Fail> {
    check_plays(&rt, rt.alloc(), NOTES)
}

// ---- limits

/// The most commands that wait, the most bytes of a command, and a long text of the remote end.
const LIMITS: &str = r#"
fill 1024 -> 1024
send session.status {} -> TooManyPending
send-long browsingContext.activate {"context":"«1048576 a»"} -> TooManyPending
take {"error":"unknown error","id":7,"message":"","type":"error"} -> Refusal 7 unknown error
send session.status {} -> 1025 {"id":1025,"method":"session.status","params":{}}
send session.status {} -> TooManyPending
take {"error":"unknown error","id":7,"message":"","type":"error"} -> Stray

send-long browsingContext.activate {"context":"«1048509 a»"} -> TooLong
lose ->
send-long browsingContext.activate {"context":"«1048508 a»"} -> 1 1048576
send-long browsingContext.activate {"context":"«1048508 a»"} -> 2 1048576
lose -> 1 2

send session.status {} -> 1 {"id":1,"method":"session.status","params":{}}
take-long {"method":"log.entryAdded","params":{"level":"info","source":{"realm":"r"},"text":"«2000000 a»","timestamp":0,"type":"javascript"},"type":"event"} -> Event
take-long "«2000000 a»" -> NotInProfile
lose -> 1
"#;

#[test]
fn limits_are_those_of_what_is_sent(rt: HostRuntime) -> Result<(), Fail> {
    check_plays(&rt, rt.alloc(), LIMITS)
}

// ---- plays

fn check_plays(rt: &impl Abort, alloc: Global, plays: &str) -> Result<(), Fail> {
    for play in plays.trim().split("\n\n") {
        check_play(rt, alloc, play)?;
    }
    Ok(())
}

/// That each row comes of a local end as it says.
fn check_play(rt: &impl Abort, alloc: Global, play: &str) -> Result<(), Fail> {
    let mut end = LocalEnd::new(alloc);
    for row in play.lines() {
        check_row(rt, alloc, &mut end, row)?;
    }
    Ok(())
}

/// That this row comes of a local end as it says.
fn check_row(rt: &impl Abort, alloc: Global, end: &mut LocalEnd, row: &str) -> Result<(), Fail> {
    let (asked, wanted) = row.split_once(" ->").ok_or("no outcome")?;
    let found = found(alloc, end, asked)?;
    let is_wanted = found.as_str() == wanted.trim();
    assert!(rt; is_wanted, "{found} comes of {row}");
    Ok(())
}

/// What comes of a row.
fn found(alloc: Global, end: &mut LocalEnd, asked: &str) -> Result<String, Fail> {
    let (word, rest) = asked.split_once(' ').unwrap_or((asked, ""));
    let spelled = repeated(alloc, rest)?;
    match word {
        "send" => sent(alloc, end, spelled.as_str()),
        "send-long" => sent_long(alloc, end, spelled.as_str()),
        "fill" => filled(alloc, end, spelled.as_str()),
        "take" => taken(alloc, end, spelled.as_str()),
        "take-long" => taken_long(alloc, end, spelled.as_str()),
        "lose" => lost(alloc, end),
        "note" => noted(alloc, end, spelled.as_str()),
        "message" => message_taken(alloc, end, spelled.as_str()),
        "waiting" => waiting(alloc, end),
        _ => Err(Fail::from("no such word")),
    }
}

// ---- sending

/// The command of a method and its params.
fn command(alloc: Global, asked: &str) -> Result<CommandData, Fail>
    ensures { IfOk result (λ d. ⟦<CommandData as Payload<Method>>⟧.payload.well d) }
{
    let (method, params) = asked.split_once(' ').ok_or("no params")?;
    let method = Method::named(method).ok_or("no such method")?;
    Ok(data_of(alloc, method, &tree_of(alloc, params)?)?)
}

/// The id and the text of what is sent, or the fault.
fn sent(alloc: Global, end: &mut LocalEnd, asked: &str) -> Result<String, Fail> {
    match send(alloc, end, asked)? {
        Ok((id, text)) => Ok(format!(in alloc; "{id} {text}", id = id.value)?),
        Err(fault) => Ok(format!(in alloc; "{fault:?}")?),
    }
}

/// The id and the length of what is sent, or the fault.
fn sent_long(alloc: Global, end: &mut LocalEnd, asked: &str) -> Result<String, Fail> {
    match send(alloc, end, asked)? {
        Ok((id, text)) => { Ok(format!(in alloc; "{id} {len}", id = id.value, len = text.len())?) }
        Err(fault) => Ok(format!(in alloc; "{fault:?}")?),
    }
}

/// The last id of so many commands.
fn filled(alloc: Global, end: &mut LocalEnd, count: &str) -> Result<String, Fail> {
    let mut last = 0;
    for _ in 0..count.parse::<u32>()? {
        let (id, _) = send(alloc, end, "session.status {}")??;
        last = id.value;
    }
    Ok(last.to_string(alloc)?)
}

fn send(
    alloc: Global,
    end: &mut LocalEnd,
    asked: &str,
) -> Result<Result<(JsUint, String), LocalFault>, Fail> {
    let asked = command(alloc, asked)?;
    Ok(end.send(asked))
}

/// The ids of the commands that are lost.
fn lost(alloc: Global, end: &mut LocalEnd) -> Result<String, Fail> {
    let mut ids = String::new(alloc);
    for id in &end.lose()? {
        write!(&mut ids, " {id}", id = id.value)?;
    }
    Ok(String::from_str(alloc, ids.as_str().trim())?)
}

/// That a command is noted, or the fault.
fn noted(alloc: Global, end: &mut LocalEnd, asked: &str) -> Result<String, Fail> {
    let (id, method) = asked.split_once(' ').ok_or("no method")?;
    let id = JsUint::new(id.parse::<u64>()?).ok_or("no id")?;
    let method = Method::named(method).ok_or("no such method")?;
    match end.note(id, method) {
        Ok(()) => Ok(String::from_str(alloc, "noted")?),
        Err(fault) => Ok(format!(in alloc; "{fault:?}")?),
    }
}

/// The commands that wait.
fn waiting(alloc: Global, end: &LocalEnd) -> Result<String, Fail> {
    let mut commands = String::new(alloc);
    for (id, method) in &end.waiting()? {
        let gap = if commands.is_empty() { "" } else { ", " };
        write!(
            &mut commands,
            "{gap}{id} {method}",
            id = id.value,
            method = method.name()
        )?;
    }
    Ok(commands)
}

// ---- receiving

/// The name of what a text means, and its parts.
fn taken(alloc: Global, end: &mut LocalEnd, text: &str) -> Result<String, Fail> {
    shown(alloc, end.take(text)?)
}

/// The name alone.
fn taken_long(alloc: Global, end: &mut LocalEnd, text: &str) -> Result<String, Fail> {
    let taken = taken(alloc, end, text)?;
    let (name, _) = taken.split_once(' ').unwrap_or((taken.as_str(), ""));
    Ok(String::from_str(alloc, name)?)
}

/// The method of the command that a message settles, and what it means.
fn message_taken(alloc: Global, end: &mut LocalEnd, text: &str) -> Result<String, Fail> {
    let taken = end.take_message(read_message(alloc, text)?)?;
    let received = shown(alloc, taken.received)?;
    match taken.method {
        Some(method) => Ok(format!(in alloc; "{method}: {received}", method = method.name())?),
        None => Ok(received),
    }
}

fn shown(alloc: Global, received: Received) -> Result<String, Fail> {
    match received {
        Received::Answer(id, result_data) => {
            let told = tell(alloc, result_data)?;
            Ok(format!(in alloc; "Answer {id} {told}", id = id.value)?)
        }
        Received::BadResult(id) => Ok(format!(in alloc; "BadResult {id}", id = id.value)?),
        Received::Refusal(id, code) => {
            Ok(format!(in alloc; "Refusal {id} {code}", id = id.value, code = code.name())?)
        }
        Received::Event(event) => {
            let told = tell(alloc, event)?;
            Ok(format!(in alloc; "Event {told}")?)
        }
        Received::Stray => Ok(String::from_str(alloc, "Stray")?),
        Received::NotInProfile => Ok(String::from_str(alloc, "NotInProfile")?),
        Received::NotJson => Ok(String::from_str(alloc, "NotJson")?),
    }
}
