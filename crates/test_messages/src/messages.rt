//! Commands, results, events and errors: what texts are judged to be or read as, and the texts that are sent.
ghost use Rattle.std.specs.Prelude.{IfOk};
ghost use Rattle.bidi_messages.specs.View.{IsWell};

use crate::told::{tell, tell_read};
use bidi_messages::{
    Command, CommandData, ErrorCode, EventData, EventName, Message, Method, Named, Payload,
    Sendable, SessionCommand, Verdict, data_of, error_text, event_text, judge, judge_value,
    read_message, response_around, response_id, response_text, result_of, text_of,
};
use bidi_params::UnsubscribeParameters;
use bidi_shape::{Shape, ShapeFault};
use bidi_tree::{JsUint, Members, Tree, are_whole, parse};
use json::{Scratch, Value};
use std::alloc::Global;
use std::test::Fail;
use testing::rows::{Asked, check_rows};
use testing::texts::{members_of, owned, tree_of, with_further, written};

struct Messages;

impl Asked for Messages {
    fn found(alloc: Global, word: &str, text: &str) -> Result<String, Fail> {
        match word {
            "command" => command(alloc, text),
            "verdict" => judged_twice(alloc, text),
            "length" => Ok(text.len().to_string(alloc)?),
            "unsubscribe" => unsubscribe(alloc, text),
            "result" => result(alloc, text),
            "message" => message(alloc, text),
            "known" => known(alloc, text),
            "event" => event(alloc, text),
            "further" => further(alloc, text),
            "response" => response(alloc, text),
            "around" => around(alloc, text),
            "error" => error(alloc, text),
            "event-again" => event_again(alloc, text),
            "method" => name_of::<Method>(alloc, text),
            "event-name" => name_of::<EventName>(alloc, text),
            "code" => name_of::<ErrorCode>(alloc, text),
            _ => Err(Fail::from("no such word")),
        }
    }
}

// ---- commands

/// Methods with their params.
const COMMANDS: &str = r#"
command session.status {} -> 1 session.status same
command session.new {"capabilities":{}} -> 1 session.new same
command session.end {"x":[null]} -> 1 session.end same
command session.subscribe {"contexts":["c"],"events":["log.entryAdded"]} -> 1 session.subscribe same
command session.unsubscribe {"subscriptions":["u"]} -> 1 session.unsubscribe same
command session.unsubscribe {"events":["log"]} -> 1 session.unsubscribe same
command browsingContext.activate {"context":"c"} -> 1 browsingContext.activate same
command browsingContext.close {"context":"c","promptUnload":true} -> 1 browsingContext.close same
command browsingContext.create {"type":"tab"} -> 1 browsingContext.create same
command browsingContext.getTree {"maxDepth":0} -> 1 browsingContext.getTree same
command browsingContext.getTree {"x":{"y":[]}} -> 1 browsingContext.getTree same
command browsingContext.navigate {"context":"c","url":"about:blank","wait":"complete"} -> 1 browsingContext.navigate same
command browsingContext.reload {"context":"c","ignoreCache":true} -> 1 browsingContext.reload same
command browsingContext.traverseHistory {"context":"c","delta":-1} -> 1 browsingContext.traverseHistory same
command script.evaluate {"awaitPromise":false,"expression":"1","target":{"context":"c"}} -> 1 script.evaluate same
command script.callFunction {"arguments":[{"type":"undefined"}],"awaitPromise":false,"functionDeclaration":"f","target":{"realm":"r"}} -> 1 script.callFunction same
command script.evaluate {"awaitPromise":false,"expression":"1","serializationOptions":{"maxObjectDepth":1},"target":{"context":"c"}} -> 1 script.evaluate same
command script.callFunction {"awaitPromise":false,"functionDeclaration":"f","serializationOptions":{"maxObjectDepth":null},"target":{"realm":"r"}} -> 1 script.callFunction same
command script.disown {"handles":[],"target":{"context":"c"}} -> 1 script.disown same
command script.getRealms {"type":"window"} -> 1 script.getRealms same
command browser.createUserContext {"x":{}} -> 1 browser.createUserContext same
command browser.getUserContexts {} -> 1 browser.getUserContexts same
command browser.removeUserContext {"userContext":"default"} -> 1 browser.removeUserContext same
command session.status [] -> 1 invalid argument
command session.new {} -> 1 invalid argument
command session.new {"capabilities":{"alwaysMatch":{"acceptInsecureCerts":1}}} -> 1 invalid argument
command session.end null -> 1 invalid argument
command session.subscribe {"events":[]} -> 1 invalid argument
command session.subscribe {"contexts":[],"events":["log"]} -> 1 invalid argument
command session.unsubscribe {"subscriptions":[]} -> 1 invalid argument
command session.unsubscribe {} -> 1 invalid argument
command browsingContext.activate {} -> 1 invalid argument
command browsingContext.close {"context":5} -> 1 invalid argument
command browsingContext.create {"type":"popup"} -> 1 invalid argument
command browsingContext.getTree {"maxDepth":null} -> 1 invalid argument
command browsingContext.getTree {"maxDepth":-1} -> 1 invalid argument
command browsingContext.navigate {"context":"c","url":"about:blank","wait":5} -> 1 invalid argument
command browsingContext.reload {"context":"c","wait":"never"} -> 1 invalid argument
command browsingContext.traverseHistory {"context":"c","delta":1.5} -> 1 invalid argument
command script.evaluate {"awaitPromise":false,"expression":"1"} -> 1 invalid argument
command script.callFunction {"arguments":[{"type":"array"}],"awaitPromise":false,"functionDeclaration":"f","target":{"realm":"r"}} -> 1 invalid argument
command script.evaluate {"awaitPromise":false,"expression":"1","serializationOptions":{"maxObjectDepth":-1},"target":{"context":"c"}} -> 1 invalid argument
command script.callFunction {"awaitPromise":false,"functionDeclaration":"f","serializationOptions":5,"target":{"realm":"r"}} -> 1 invalid argument
command script.disown {"handles":"h","target":{"context":"c"}} -> 1 invalid argument
command script.getRealms {"type":"page"} -> 1 invalid argument
command browser.createUserContext [] -> 1 invalid argument
command browser.getUserContexts {"x":1.5} -> 1 invalid argument
command browser.removeUserContext {"userContexts":["u"]} -> 1 invalid argument
"#;

const VERDICTS: &str = r#"
verdict  { "params" : {}, "method":"session.status", "id":0 }  -> 0 session.status {"id":0,"method":"session.status","params":{}}
verdict {"id":9007199254740991,"method":"session.end","params":{}} -> 9007199254740991 session.end same
verdict {"z":null,"id":2,"method":"session.status","params":{"x":{"y":[]}}} -> 2 session.status {"id":2,"method":"session.status","params":{"x":{"y":[]}},"z":null}
verdict {"id":1 -> null invalid argument
verdict  -> null invalid argument
verdict {"id":1,"method":"session.status","params":{}}x -> null invalid argument
verdict {"id":9007199254740991,"method":"session.fly","params":{}} -> 9007199254740991 unknown command
verdict {"method":"session.fly"} -> null unknown command
verdict {"id":3,"method":""} -> 3 unknown command
verdict {"id":3,"method":7,"params":{}} -> 3 invalid argument
verdict {"id":3,"params":{}} -> 3 invalid argument
verdict {"id":9007199254740992,"method":"session.status","params":{}} -> null invalid argument
verdict {"id":1.5,"method":"session.status","params":{}} -> null invalid argument
verdict {"id":"1","method":"session.status","params":{}} -> null invalid argument
verdict {"id":-1,"method":"session.status","params":{}} -> null invalid argument
verdict {"id":5,"method":"session.status","params":{"x":1.5}} -> 5 invalid argument
verdict {"id":5,"method":"session.status","params":{},"x":1e2} -> 5 invalid argument
verdict {"id":5,"method":"session.status"} -> 5 invalid argument
verdict {} -> null invalid argument
verdict [{"id":1}] -> null invalid argument
length {"id":1,"method":"session.end","params":{}}«1048533  » -> 1048576
at the limit | verdict {"id":1,"method":"session.end","params":{}}«1048533  » -> 1 session.end {"id":1,"method":"session.end","params":{}}
past the limit | verdict {"id":1,"method":"session.end","params":{}}«1048534  » -> null invalid argument
verdict {"id":1,"method":"session.end","params":{"x":«60 [»«60 ]»}} -> 1 session.end same
verdict {"id":1,"method":"session.end","params":{"x":«61 [»«61 ]»}} -> 1 invalid argument
verdict {"id":1,"method":"session.end","params":{"x":«125 [»«125 ]»}} -> 1 invalid argument
verdict {"id":1,"method":"session.end","params":{"x":«126 [»«126 ]»}} -> null invalid argument
verdict {"id":1,"method":"session.end","params":{"x":«200 [»«200 ]»}} -> null invalid argument
verdict {"id":1,"method":"session.end","params":{"x":1e400}} -> null invalid argument
"#;

/// An unsubscribe is by id where it can be. Its further members stand behind.
const UNSUBSCRIBES: &str = r#"
unsubscribe {"subscriptions":["a"],"events":["b"]} -> by id {"events":["b"]}
unsubscribe {"subscriptions":[],"events":["b"]} -> by events {"subscriptions":[]}
unsubscribe {"events":[]} -> NoFit
"#;

#[test]
fn commands_are_judged(rt: HostRuntime) -> Result<(), Fail> {
    check_rows::<Messages>(rt.alloc(), COMMANDS)?;
    check_rows::<Messages>(rt.alloc(), VERDICTS)?;
    check_rows::<Messages>(rt.alloc(), UNSUBSCRIBES)
}

fn command(alloc: Global, text: &str) -> Result<String, Fail> {
    let (method, params) = text.split_once(' ').ok_or("no params")?;
    let text = format!(in alloc; "{{\"id\":1,\"method\":\"{method}\",\"params\":{params}}}")?;
    judged(alloc, text.as_str())
}

/// The verdict on a text, which is the same if the JSON value of the text is at hand.
fn judged_twice(alloc: Global, text: &str) -> Result<String, Fail> {
    let found = judged(alloc, text)?;
    let mut at_hand = Scratch::new(alloc);
    let Ok(value) = Value::parse(alloc, text, &mut at_hand) else {
        return Ok(found);
    };
    let mut scratch = Scratch::new(alloc);
    let again = shown(alloc, judge_value(alloc, text, &value, &mut scratch)?, text)?;
    if again.as_str() != found.as_str() {
        return Err(Fail::from("another verdict on the value"));
    }
    Ok(found)
}

fn judged(alloc: Global, text: &str) -> Result<String, Fail> {
    shown(alloc, judge(alloc, text)?, text)
}

/// The id, the method and the text of a command, or the id and the code of a refusal.
fn shown(alloc: Global, verdict: Verdict, text: &str) -> Result<String, Fail>
    requires { IsWell ⟦<Command as Shape>⟧.shape verdict }
{
    match verdict {
        Verdict::Accepted(command) => {
            let id = command.id.value;
            let method = command.data.method().name();
            accepted(alloc, id, method, again(alloc, command), text)
        }
        Verdict::Refused { id, code } => refused(alloc, id, code),
    }
}

fn accepted(
    alloc: Global,
    id: u64,
    method: &str,
    again: Result<String, Fail>,
    text: &str,
) -> Result<String, Fail> {
    let again = again?;
    let shown = if again.as_str() == text {
        "same"
    } else {
        again.as_str()
    };
    Ok(format!(in alloc; "{id} {method} {shown}")?)
}

fn refused(alloc: Global, id: Option<JsUint>, code: ErrorCode) -> Result<String, Fail> {
    match id {
        Some(id) => Ok(format!(in alloc; "{} {}", id.value, code.name())?),
        None => Ok(format!(in alloc; "null {}", code.name())?),
    }
}

/// The text of what was read.
fn again<M: Sendable>(alloc: Global, value: M) -> Result<String, Fail>
    requires { M.shape.well value }
{
    Ok(text_of(alloc, &value)?)
}

fn unsubscribe(alloc: Global, text: &str) -> Result<String, Fail> {
    let read = data_of(alloc, Method::SessionUnsubscribe, &tree_of(alloc, text)?);
    let found = unsubscribe_in(alloc, &read);
    drop(read);
    found
}

fn unsubscribe_in(alloc: Global, read: &Result<CommandData, ShapeFault>) -> Result<String, Fail> {
    match read {
        Ok(CommandData::Session(SessionCommand::Unsubscribe(UnsubscribeParameters::ById(by_id)))) =>
            { with_further(alloc, "by id", &by_id.ext) }
        Ok(
            CommandData::Session(
                SessionCommand::Unsubscribe(UnsubscribeParameters::ByEvents(by_events)),
            ),
        ) => { with_further(alloc, "by events", &by_events.ext) }
        Ok(_) => Err(Fail::from("another command")),
        Err(fault) => Ok(format!(in alloc; "{fault:?}")?),
    }
}

// ---- results

/// Methods with their results.
const RESULTS: &str = r#"
result session.status {"message":"ready","ready":true} -> same
result session.new {"capabilities":{"acceptInsecureCerts":false,"browserName":"b","browserVersion":"1","platformName":"p","setWindowRect":false,"userAgent":"u"},"sessionId":"s"} -> same
result session.end {} -> same
result session.subscribe {"subscription":"u"} -> same
result session.unsubscribe {"x":1} -> same
result browsingContext.activate {} -> same
result browsingContext.close {} -> same
result browsingContext.create {"context":"c"} -> same
result browsingContext.getTree {"contexts":[{"children":null,"clientWindow":"w","context":"c","originalOpener":null,"parent":null,"url":"about:blank","userContext":"default"}]} -> same
result browsingContext.navigate {"navigation":"n","url":"about:blank"} -> same
result browsingContext.reload {"navigation":null,"url":"about:blank"} -> same
result browsingContext.traverseHistory {} -> same
result script.evaluate {"realm":"r","result":{"type":"undefined"},"type":"success"} -> same
result script.callFunction {"exceptionDetails":{"columnNumber":0,"exception":{"type":"error"},"lineNumber":0,"stackTrace":{"callFrames":[]},"text":"thrown"},"realm":"r","type":"exception"} -> same
result script.disown {} -> same
result script.getRealms {"realms":[{"context":"c","origin":"null","realm":"r","type":"window"}]} -> same
result browser.createUserContext {"userContext":"u"} -> same
result browser.getUserContexts {"userContexts":[{"userContext":"default"},{"userContext":"u"}]} -> same
result browser.removeUserContext {} -> same
result session.status {"ready":true} -> NoFit
result session.new {"sessionId":"s"} -> NoFit
result session.subscribe {"subscription":1} -> NoFit
result browsingContext.create {} -> NoFit
result browsingContext.getTree {"contexts":null} -> NoFit
result browsingContext.navigate {"url":"about:blank"} -> NoFit
result browsingContext.reload {"navigation":1,"url":"about:blank"} -> NoFit
result script.evaluate {"realm":"r","result":{"type":"undefined"},"type":"success","x":1} -> NoFit
result script.callFunction {"realm":"r","type":"exception"} -> NoFit
result script.getRealms {"realms":[{"context":"c","origin":"null","realm":"r","type":"worker"}]} -> NoFit
result browser.createUserContext {} -> NoFit
result browser.getUserContexts {"userContexts":[]} -> NoFit
result session.end {"x":1.5} -> NoFit
result session.unsubscribe {"x":1.5} -> NoFit
result browsingContext.activate {"x":1.5} -> NoFit
result browsingContext.close {"x":1.5} -> NoFit
result browsingContext.traverseHistory {"x":1.5} -> NoFit
result script.disown {"x":1.5} -> NoFit
result browser.removeUserContext {"x":1.5} -> NoFit
"#;

#[test]
fn each_method_has_its_result(rt: HostRuntime) -> Result<(), Fail> {
    check_rows::<Messages>(rt.alloc(), RESULTS)
}

fn result(alloc: Global, text: &str) -> Result<String, Fail> {
    let (method, members) = text.split_once(' ').ok_or("no result")?;
    let method = Method::named(method).ok_or("no method")?;
    tell_read(
        alloc,
        result_of(alloc, method, &members_of(alloc, members)?),
    )
}

// ---- messages

const MESSAGES: &str = r#"
message {"id":2,"result":{},"type":"success"} -> same
message {"id":0,"result":{"a":[1]},"type":"success","x":null} -> same
message {"error":"no such frame","id":1,"message":"m","stacktrace":"s","type":"error"} -> same
message {"error":"invalid argument","id":null,"message":"invalid argument","type":"error"} -> same
message {"method":"browsingContext.contextCreated","params":{"children":null,"clientWindow":"w","context":"c","originalOpener":null,"parent":null,"url":"about:blank","userContext":"default"},"type":"event"} -> same
message {"method":"browsingContext.contextDestroyed","params":{"children":[],"clientWindow":"w","context":"c","originalOpener":null,"parent":"p","url":"about:blank","userContext":"default"},"type":"event"} -> same
message {"method":"browsingContext.navigationStarted","params":{"context":"c","navigation":"n","timestamp":5,"url":"about:blank"},"type":"event"} -> same
message {"method":"browsingContext.domContentLoaded","params":{"context":"c","navigation":null,"timestamp":0,"url":"about:blank"},"type":"event"} -> same
message {"method":"browsingContext.load","params":{"context":"c","navigation":"n","timestamp":5,"url":"about:blank"},"type":"event","x":{}} -> same
message {"method":"script.realmCreated","params":{"context":"c","origin":"null","realm":"r","type":"window"},"type":"event"} -> same
message {"method":"script.realmDestroyed","params":{"realm":"r","x":1},"type":"event"} -> same
message {"method":"log.entryAdded","params":{"args":[{"type":"string","value":"hi"}],"level":"info","method":"info","source":{"context":"c","realm":"r"},"text":"hi","timestamp":7,"type":"console"},"type":"event"} -> same
message [1 -> not JSON
message  -> not JSON
message {} -> no message of the profile
message {"id":2,"result":[],"type":"success"} -> no message of the profile
message {"result":{},"type":"success"} -> no message of the profile
message {"id":2,"result":{},"type":"failure"} -> no message of the profile
message {"error":"timeout","id":1,"message":"m","type":"error"} -> no message of the profile
message {"error":"no such frame","message":"m","type":"error"} -> no message of the profile
message {"error":"no such frame","id":1,"message":"m","stacktrace":null,"type":"error"} -> no message of the profile
message {"method":"browsingContext.contextCreated","params":{},"type":"event"} -> no message of the profile
message {"method":"browsingContext.contextDestroyed","params":{"context":"c"},"type":"event"} -> no message of the profile
message {"method":"browsingContext.navigationStarted","params":{"context":"c","navigation":"n","timestamp":-1,"url":"u"},"type":"event"} -> no message of the profile
message {"method":"browsingContext.domContentLoaded","params":{"context":"c","timestamp":0,"url":"u"},"type":"event"} -> no message of the profile
message {"method":"browsingContext.load","params":{"realm":"r"},"type":"event"} -> no message of the profile
message {"method":"script.realmCreated","params":{"context":"c","origin":"null","realm":"r","type":"worker"},"type":"event"} -> no message of the profile
message {"method":"script.realmDestroyed","params":{"realm":1},"type":"event"} -> no message of the profile
message {"method":"log.entryAdded","params":{"level":"fatal","source":{"realm":"r"},"text":null,"timestamp":7,"type":"javascript"},"type":"event"} -> no message of the profile
message {"method":"browsingContext.fragmentNavigated","params":{"context":"c","navigation":"n","timestamp":5,"url":"u"},"type":"event"} -> no message of the profile
"#;

/// An event keeps its further members.
const EVENTS: &str = r#"
event {"type":"event","method":"script.realmDestroyed","params":{"realm":"r","x":1}} -> script.realmDestroyed {"realm":"r","x":1}
further {"type":"event","method":"script.realmDestroyed","params":{"realm":"r","x":1}} -> {"x":1}
"#;

/// The ids of responses that are known as such where they stand.
const KNOWN: &str = r#"
known {"id":3,"result":{},"type":"success"} -> Some(3)
known { "type":"success", "x":null, "result":{"a":[{"b":1}]}, "id":0 } -> Some(0)
known {"id":3,"id":4,"result":{},"type":"success"} -> Some(4)
known {"id":3,"result":{"x":«59 [»«59 ]»},"type":"success"} -> Some(3)
known {"id":3,"result":{},"type":"error"} -> None
known {"id":3,"result":[],"type":"success"} -> None
known {"id":-1,"result":{},"type":"success"} -> None
known {"id":9007199254740992,"result":{},"type":"success"} -> None
known {"id":3,"result":{"x":1.5},"type":"success"} -> None
known {"result":{},"type":"success"} -> None
known [] -> None
"#;

#[test]
fn messages_read_back(rt: HostRuntime) -> Result<(), Fail> {
    check_rows::<Messages>(rt.alloc(), MESSAGES)?;
    check_rows::<Messages>(rt.alloc(), KNOWN)?;
    check_rows::<Messages>(rt.alloc(), EVENTS)
}

fn known(alloc: Global, text: &str) -> Result<String, Fail> {
    let mut scratch = Scratch::new(alloc);
    let Ok(value) = parse(alloc, text, None, &mut scratch) else {
        return Err(Fail::from("not JSON"));
    };
    let id = response_id(&value).map(|id| id.value);
    Ok(format!(in alloc; "{id:?}")?)
}

fn message(alloc: Global, text: &str) -> Result<String, Fail> {
    match read_message(alloc, text) {
        Ok(message) => again(alloc, message),
        Err(fault) => Ok(fault.to_string(alloc)?),
    }
}

/// What the event of a text tells.
fn event_in(alloc: Global, text: &str) -> Result<EventData, Fail>
    ensures well { IfOk result (λ d. ⟦<EventData as Payload<EventName>>⟧.payload.well d) }
{
    match read_message(alloc, text) {
        Ok(Message::Event(event)) => Ok(event.data),
        _ => Err(Fail::from("no event")),
    }
}

fn event(alloc: Global, text: &str) -> Result<String, Fail> {
    tell(alloc, event_in(alloc, text)?)
}

fn further(alloc: Global, text: &str) -> Result<String, Fail> {
    let data = event_in(alloc, text)?;
    let further = further_in(alloc, &data);
    drop(data);
    further
}

fn further_in(alloc: Global, data: &EventData) -> Result<String, Fail> {
    match data {
        EventData::RealmDestroyed(params) => {
            written(alloc, Tree::Map(params.ext.copy_members()?))
        }
        _ => Err(Fail::from("another event")),
    }
}

// ---- what a remote end sends

const SENT: &str = r#"
response session.status {"message":"full","ready":false} -> {"id":1,"result":{"message":"full","ready":false},"type":"success"}
response script.evaluate {"exceptionDetails":{"columnNumber":0,"exception":{"type":"array","value":[{"type":"array","value":[{"type":"array","value":[{"type":"array","value":[{"type":"array","value":[{"type":"array","value":[{"type":"array","value":[{"type":"array","value":[{"type":"array","value":[{"type":"array","value":[{"type":"array","value":[{"type":"array","value":[{"type":"array","value":[{"type":"array","value":[{"type":"array","value":[{"type":"array","value":[{"type":"array","value":[{"type":"array","value":[{"type":"array","value":[{"type":"array","value":[{"type":"array","value":[{"type":"array","value":[{"type":"array","value":[{"type":"array","value":[{"type":"array","value":[{"type":"array","value":[{"type":"array","value":[{"type":"array","value":[{"type":"array","value":[{"type":"array"}]}]}]}]}]}]}]}]}]}]}]}]}]}]}]}]}]}]}]}]}]}]}]}]}]}]}]}]}]},"lineNumber":0,"stackTrace":{"callFrames":[]},"text":"thrown"},"realm":"r","type":"exception"} -> {"id":1,"result":{"exceptionDetails":{"columnNumber":0,"exception":{"type":"array","value":[{"type":"array","value":[{"type":"array","value":[{"type":"array","value":[{"type":"array","value":[{"type":"array","value":[{"type":"array","value":[{"type":"array","value":[{"type":"array","value":[{"type":"array","value":[{"type":"array","value":[{"type":"array","value":[{"type":"array","value":[{"type":"array","value":[{"type":"array","value":[{"type":"array","value":[{"type":"array","value":[{"type":"array","value":[{"type":"array","value":[{"type":"array","value":[{"type":"array","value":[{"type":"array","value":[{"type":"array","value":[{"type":"array","value":[{"type":"array","value":[{"type":"array","value":[{"type":"array","value":[{"type":"array","value":[{"type":"array","value":[{"type":"array"}]}]}]}]}]}]}]}]}]}]}]}]}]}]}]}]}]}]}]}]}]}]}]}]}]}]}]}]}]},"lineNumber":0,"stackTrace":{"callFrames":[]},"text":"thrown"},"realm":"r","type":"exception"},"type":"success"}
response script.evaluate {"exceptionDetails":{"columnNumber":0,"exception":{"type":"array","value":[{"type":"array","value":[{"type":"array","value":[{"type":"array","value":[{"type":"array","value":[{"type":"array","value":[{"type":"array","value":[{"type":"array","value":[{"type":"array","value":[{"type":"array","value":[{"type":"array","value":[{"type":"array","value":[{"type":"array","value":[{"type":"array","value":[{"type":"array","value":[{"type":"array","value":[{"type":"array","value":[{"type":"array","value":[{"type":"array","value":[{"type":"array","value":[{"type":"array","value":[{"type":"array","value":[{"type":"array","value":[{"type":"array","value":[{"type":"array","value":[{"type":"array","value":[{"type":"array","value":[{"type":"array","value":[{"type":"array","value":[{"type":"array","value":[]}]}]}]}]}]}]}]}]}]}]}]}]}]}]}]}]}]}]}]}]}]}]}]}]}]}]}]}]}]},"lineNumber":0,"stackTrace":{"callFrames":[]},"text":"thrown"},"realm":"r","type":"exception"} -> too deep
around {"context":"c"} -> {"id":1,"result":{"context":"c"},"type":"success"}
error null invalid argument -> {"error":"invalid argument","id":null,"message":"invalid argument","type":"error"}
error 1 unknown command -> {"error":"unknown command","id":1,"message":"unknown command","type":"error"}
event-again {"method":"script.realmDestroyed","params":{"realm":"r"},"type":"event"} -> same
"#;

const NAMES: &str = "
method session.status -> same
method session.new -> same
method session.end -> same
method session.subscribe -> same
method session.unsubscribe -> same
method browsingContext.activate -> same
method browsingContext.close -> same
method browsingContext.create -> same
method browsingContext.getTree -> same
method browsingContext.navigate -> same
method browsingContext.reload -> same
method browsingContext.traverseHistory -> same
method script.evaluate -> same
method script.callFunction -> same
method script.disown -> same
method script.getRealms -> same
method browser.createUserContext -> same
method browser.getUserContexts -> same
method browser.removeUserContext -> same
event-name browsingContext.contextCreated -> same
event-name browsingContext.contextDestroyed -> same
event-name browsingContext.navigationStarted -> same
event-name browsingContext.domContentLoaded -> same
event-name browsingContext.load -> same
event-name script.realmCreated -> same
event-name script.realmDestroyed -> same
event-name log.entryAdded -> same
code invalid argument -> same
code invalid selector -> same
code invalid session id -> same
code move target out of bounds -> same
code no such alert -> same
code no such element -> same
code no such frame -> same
code no such handle -> same
code no such history entry -> same
code no such intercept -> same
code no such node -> same
code no such request -> same
code no such script -> same
code no such storage partition -> same
code no such user context -> same
code session not created -> same
code unable to capture screen -> same
code unable to close browser -> same
code unable to set cookie -> same
code unable to set file input -> same
code unknown command -> same
code unknown error -> same
code unsupported operation -> same
method session.fly -> none
event-name session -> none
code timeout -> none
";

#[test]
fn sent_texts_and_names(rt: HostRuntime) -> Result<(), Fail> {
    check_rows::<Messages>(rt.alloc(), SENT)?;
    check_rows::<Messages>(rt.alloc(), NAMES)?;
    assert_eq!(rt; ErrorCode::NoSuchFrame.name(), "no such frame");
    assert_eq!(rt; Method::ScriptDisown.name(), "script.disown");
    assert_eq!(rt; EventName::Load.name(), "browsingContext.load");
    Ok(())
}

/// The response with id 1 to a method, with its result.
fn response(alloc: Global, text: &str) -> Result<String, Fail> {
    let (method, members) = text.split_once(' ').ok_or("no result")?;
    let method = Method::named(method).ok_or("no method")?;
    response_with(alloc, method, &members_of(alloc, members)?)
}

fn response_with(alloc: Global, method: Method, members: &Members) -> Result<String, Fail> {
    let id = JsUint::new(1).ok_or("no number")?;
    if !are_whole(members, 60) {
        return owned(alloc, "too deep");
    }
    let answer = result_of(alloc, method, members)?;
    Ok(response_text(alloc, id, answer)?)
}

/// The response with id 1 around the text of its result.
fn around(alloc: Global, text: &str) -> Result<String, Fail> {
    let id = JsUint::new(1).ok_or("no number")?;
    Ok(response_around(alloc, id, text)?)
}

/// The error with an id, or none, and a code.
fn error(alloc: Global, text: &str) -> Result<String, Fail> {
    let (id, code) = text.split_once(' ').ok_or("no code")?;
    let id = id.parse::<u64>().ok().and_then(JsUint::new);
    let code = ErrorCode::named(code).ok_or("no such code")?;
    Ok(error_text(alloc, id, code)?)
}

fn event_again(alloc: Global, text: &str) -> Result<String, Fail> {
    let data = event_in(alloc, text)?;
    let again = event_text(alloc, &data);
    drop(data);
    Ok(again?)
}

fn name_of<N: Named>(alloc: Global, text: &str) -> Result<String, Fail> {
    match N::named(text) {
        Some(named) => owned(alloc, named.name()),
        None => owned(alloc, "none"),
    }
}
