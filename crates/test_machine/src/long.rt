//! Long plays: an end keeps tables, and not the steps that it has taken.
use bidi_remote::{RemoteEnd, Sent, Step};
use bidi_tree::JsUint;
use std::alloc::Global;
use std::test::Fail;

/// How many moments and statuses come by turns.
const TURNS: u64 = 300_000;

/// How many contexts are live at most.
const MOST_CONTEXTS: u64 = 1024;

/// The connection of the client.
const CLIENT: JsUint = JsUint { value: 1 };

const NEW: &str = r#"{"id":1,"method":"session.new","params":{"capabilities":{}}}"#;

const STATUS: &str = r#"{"id":1,"method":"session.status","params":{}}"#;

const READY: &str = r#"{"id":1,"result":{"message":"ready","ready":true},"type":"success"}"#;

const CREATE: &str = r#"{"id":1,"method":"browsingContext.create","params":{"type":"tab"}}"#;

const TREE: &str = r#"{"id":1,"method":"browsingContext.getTree","params":{}}"#;

const NO_TREE: &str = r#"{"id":1,"result":{"contexts":[]},"type":"success"}"#;

const DONE: &str = r#"{"id":1,"result":{},"type":"success"}"#;

#[test]
fn each_of_many_statuses_is_answered(rt: HostRuntime) -> Result<(), Fail> {
    let mut end = with_session(rt.alloc())?;
    for moment in 0..TURNS {
        end.step(Step::At(JsUint { value: moment }))?;
        is_answered(rt.alloc(), &mut end, STATUS, READY)?;
    }
    Ok(())
}

#[test]
fn as_many_contexts_as_may_come_and_go(rt: HostRuntime) -> Result<(), Fail> {
    let alloc = rt.alloc();
    let mut end = with_session(alloc)?;
    for number in 2..=MOST_CONTEXTS {
        let id = context(alloc, number)?;
        let made = format!(in alloc;
            r#"{{"id":1,"result":{{"context":"{id}"}},"type":"success"}}"#
        )?;
        is_answered(alloc, &mut end, CREATE, made.as_str())?;
    }
    for number in 1..=MOST_CONTEXTS {
        is_shown(alloc, &mut end, context(alloc, number)?.as_str())?;
    }
    for number in 1..=MOST_CONTEXTS {
        is_closed(alloc, &mut end, context(alloc, number)?.as_str())?;
    }
    is_answered(alloc, &mut end, TREE, NO_TREE)
}

/// A remote end with a client that has a session.
fn with_session(alloc: Global) -> Result<RemoteEnd, Fail> {
    let mut end = RemoteEnd::new(alloc)?;
    end.step(Step::Open(CLIENT, String::from_str(alloc, "/session")?))?;
    end.step(Step::Text(CLIENT, String::from_str(alloc, NEW)?))?;
    Ok(end)
}

/// The id of the context of a number.
fn context(alloc: Global, number: u64) -> Result<String, Fail> {
    Ok(format!(in alloc; "00000000-0002-8000-8000-{number:012x}")?)
}

/// A look at a context, without its children, shows it alone.
fn is_shown(alloc: Global, end: &mut RemoteEnd, id: &str) -> Result<(), Fail> {
    let look = format!(in alloc;
        r#"{{"id":1,"method":"browsingContext.getTree","params":{{"maxDepth":0,"root":"{id}"}}}}"#
    )?;
    let shown = format!(in alloc;
        r#"{{"id":1,"result":{{"contexts":[{{"children":null,"clientWindow":"00000000-0007-8000-8000-000000000001","context":"{id}","originalOpener":null,"parent":null,"url":"about:blank","userContext":"default"}}]}},"type":"success"}}"#
    )?;
    is_answered(alloc, end, look.as_str(), shown.as_str())
}

/// A context is closed.
fn is_closed(alloc: Global, end: &mut RemoteEnd, id: &str) -> Result<(), Fail> {
    let close = format!(in alloc;
        r#"{{"id":1,"method":"browsingContext.close","params":{{"context":"{id}"}}}}"#
    )?;
    is_answered(alloc, end, close.as_str(), DONE)
}

/// That the one text that is sent for a command is this.
fn is_answered(
    alloc: Global,
    end: &mut RemoteEnd,
    command: &str,
    answer: &str,
) -> Result<(), Fail> {
    let sent = end.step(Step::Text(CLIENT, String::from_str(alloc, command)?))?;
    match sent.as_slice() {
        [Sent::Text(_, text)] if text.as_str() == answer => Ok(()),
        [Sent::Text(_, text)] => {
            let text = text.as_str();
            Err(Fail::new(format_args!("{command} is answered by {text}")))
        }
        _ => Err(Fail::new(format_args!("{command} has no single answer"))),
    }
}
