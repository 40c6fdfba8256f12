//! How many subscriptions a session can have, and how many names of a test in them.
use crate::scenes::found_by;
use bidi_scripted::ScriptedEnd;
use std::alloc::{AllocError, Global};
use std::test::Fail;

/// How many live subscriptions a session can have.
const MOST_SUBSCRIPTIONS: u32 = 256;

/// How many names of a test its subscriptions can have.
const MOST_NAMES: u32 = 1_024;

// The limit counts the subscriptions of the remote end, and those that only the test keeps. One that ends makes room for another of
// either kind.
#[test]
fn a_session_has_256_subscriptions_of_both_kinds(rt: HostRuntime) -> Result<(), Fail> {
    let alloc = rt.alloc();
    let mut end = session(alloc)?;
    subscribe(alloc, &mut end, r#""log""#, "000000000001")?;
    for number in 1..MOST_SUBSCRIPTIONS {
        let id = format!(in alloc; "800000000{number:03x}")?;
        subscribe(alloc, &mut end, r#""x""#, id.as_str())?;
    }
    refused(alloc, &mut end, r#""x""#)?;
    refused(alloc, &mut end, r#""log""#)?;
    refused(alloc, &mut end, r#""log","x""#)?;
    unsubscribe(alloc, &mut end, "800000000007")?;
    subscribe(alloc, &mut end, r#""log""#, "000000000002")?;
    refused(alloc, &mut end, r#""x""#)?;
    unsubscribe(alloc, &mut end, "000000000001")?;
    subscribe(alloc, &mut end, r#""x""#, "800000000100")?;
    refused(alloc, &mut end, r#""log""#)
}

// Names of the profile do not count among them, even if the test has further events in their modules.
#[test]
fn the_subscriptions_of_a_session_have_1024_names_of_the_test(rt: HostRuntime) -> Result<(), Fail> {
    let alloc = rt.alloc();
    let mut end = session(alloc)?;
    check(alloc, &mut end, "names log", "ok")?;
    let names = many_names(alloc, MOST_NAMES - 1)?;
    subscribe(alloc, &mut end, names.as_str(), "800000000001")?;
    refused(alloc, &mut end, r#""x.a","x.b""#)?;
    subscribe(alloc, &mut end, r#""x.a","log""#, "000000000001")?;
    refused(alloc, &mut end, r#""x.b""#)?;
    subscribe(alloc, &mut end, r#""log""#, "000000000002")?;
    unsubscribe(alloc, &mut end, "000000000001")?;
    subscribe(alloc, &mut end, r#""x.b""#, "800000000002")
}

/// A scripted end with a session on connection 1, and `x` as a name of the test.
fn session(alloc: Global) -> Result<ScriptedEnd, Fail> {
    let mut end = ScriptedEnd::new(alloc)?;
    check(alloc, &mut end, "open 1 /session", "opened 1")?;
    let new = r#"> 1 {"id":0,"method":"session.new","params":{"capabilities":{}}}"#;
    found_by(alloc, &mut end, new)?;
    check(alloc, &mut end, "names x", "ok")?;
    Ok(end)
}

/// So many names in the module `x`, as the strings of a JSON array.
fn many_names(alloc: Global, count: u32) -> Result<String, AllocError> {
    let mut all = String::from_str(alloc, r#""x.0""#)?;
    for name in 1..count {
        all.push_str(format!(in alloc; ",\"x.{name}\"")?.as_str())?;
    }
    Ok(all)
}

/// Subscribes to these names, and checks the end of the id.
fn subscribe(alloc: Global, end: &mut ScriptedEnd, names: &str, id: &str) -> Result<(), Fail> {
    let line = format!(in alloc;
        "> 1 {{\"id\":1,\"method\":\"session.subscribe\",\"params\":{{\"events\":[{names}]}}}}"
    )?;
    let wanted = format!(in alloc;
        "< 1 {{\"id\":1,\"result\":{{\"subscription\":\"00000001-0005-8000-8000-{id}\"}},\"type\":\"success\"}}"
    )?;
    check(alloc, end, line.as_str(), wanted.as_str())
}

/// Checks that a subscription to these names has no room.
fn refused(alloc: Global, end: &mut ScriptedEnd, names: &str) -> Result<(), Fail> {
    let line = format!(in alloc;
        "> 1 {{\"id\":1,\"method\":\"session.subscribe\",\"params\":{{\"events\":[{names}]}}}}"
    )?;
    let wanted = r#"< 1 {"error":"unknown error","id":1,"message":"unknown error","type":"error"}"#;
    check(alloc, end, line.as_str(), wanted)
}

/// Ends the subscription whose id ends so.
fn unsubscribe(alloc: Global, end: &mut ScriptedEnd, id: &str) -> Result<(), Fail> {
    let line = format!(in alloc;
        "> 1 {{\"id\":1,\"method\":\"session.unsubscribe\",\"params\":{{\"subscriptions\":[\"00000001-0005-8000-8000-{id}\"]}}}}"
    )?;
    check(
        alloc,
        end,
        line.as_str(),
        r#"< 1 {"id":1,"result":{},"type":"success"}"#,
    )
}

/// Checks what comes of a line.
pub(crate) fn check(
    alloc: Global,
    end: &mut ScriptedEnd,
    line: &str,
    wanted: &str,
) -> Result<(), Fail> {
    let found = found_by(alloc, end, line)?;
    if found.as_str() != wanted {
        return Err(Fail::new(format_args!("{line} gives {found}")));
    }
    Ok(())
}
