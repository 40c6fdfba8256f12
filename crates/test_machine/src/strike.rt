//! What is struck of the steps of a play.
use crate::remote::step;
use bidi_reduce::strike;
use bidi_remote::{RemoteEnd, Step};
use std::alloc::Global;
use std::process::Abort;
use std::test::Fail;

/// A step that is kept for session 1 stands behind `+`, one that is struck behind `-`.
const FOR_THE_FIRST: &str = r#"
+ open 1 /session
+ text 1 {"id":1,"method":"session.new","params":{"capabilities":{}}}
+ text 1 {"id":2,"method":"session.status","params":{}}
+ text 1 {
+ open 2 /session
+ text 2 {
+ text 2 {"id":1,"method":"session.new","params":{"capabilities":{}}}
- text 2 {"id":2,"method":"session.subscribe","params":{"events":["log"]}}
+ text 2 {"id":3,"method":"browsingContext.create","params":{"type":"tab"}}
- text 2 {
- text 2 {"id":4,"method":"browsingContext.close","params":{"context":"x"}}
- text 2 {"id":5,"method":"browsingContext.getTree","params":{}}
+ not-text 2
+ at 7
+ open 3 /session
+ text 3 {
+ drop 2
+ text 2 {
"#;

/// The same play, for session 2.
const FOR_THE_SECOND: &str = r#"
+ open 1 /session
+ text 1 {"id":1,"method":"session.new","params":{"capabilities":{}}}
- text 1 {"id":2,"method":"session.status","params":{}}
- text 1 {
+ open 2 /session
+ text 2 {
+ text 2 {"id":1,"method":"session.new","params":{"capabilities":{}}}
+ text 2 {"id":2,"method":"session.subscribe","params":{"events":["log"]}}
+ text 2 {"id":3,"method":"browsingContext.create","params":{"type":"tab"}}
+ text 2 {
+ text 2 {"id":4,"method":"browsingContext.close","params":{"context":"x"}}
+ text 2 {"id":5,"method":"browsingContext.getTree","params":{}}
+ not-text 2
+ at 7
+ open 3 /session
+ text 3 {
+ drop 2
+ text 2 {
"#;

#[test]
fn a_session_keeps_what_it_would_miss(rt: HostRuntime) -> Result<(), Fail> {
    check_struck(&rt, rt.alloc(), 1, FOR_THE_FIRST.trim())?;
    check_struck(&rt, rt.alloc(), 2, FOR_THE_SECOND.trim())?;
    check_kept(&rt, rt.alloc(), 1, FOR_THE_FIRST.trim())?;
    check_kept(&rt, rt.alloc(), 2, FOR_THE_SECOND.trim())
}

/// That an end which takes what is kept tells of each step whether it is struck.
fn check_struck(rt: &impl Abort, alloc: Global, session: u32, play: &str) -> Result<(), Fail> {
    let mut end = RemoteEnd::new(alloc)?;
    for line in play.lines() {
        let (mark, line) = line.split_once(' ').ok_or("no mark")?;
        let step = step(alloc, line)?;
        let found = end.is_struck(session, &step)?;
        assert_eq!(rt; found, mark == "-");
        if !found {
            let _ = end.step(step)?;
        }
    }
    Ok(())
}

/// That `strike` leaves the steps that are kept, as they were.
fn check_kept(rt: &impl Abort, alloc: Global, session: u32, play: &str) -> Result<(), Fail> {
    let mut steps = Vec::new(alloc);
    let mut wanted = String::new(alloc);
    for line in play.lines() {
        let (mark, line) = line.split_once(' ').ok_or("no mark")?;
        steps.push(step(alloc, line)?)?;
        if mark == "+" {
            write!(wanted, "{line}\n")?;
        }
    }
    let mut left = String::new(alloc);
    for step in &strike(alloc, &steps, session)? {
        push_step(&mut left, step)?;
    }
    assert_eq!(rt; left.as_str(), wanted.as_str());
    Ok(())
}

/// Appends the line of a step.
fn push_step(lines: &mut String, step: &Step) -> Result<(), Fail> {
    match step {
        Step::At(n) => write!(lines, "at {}\n", n.value)?,
        Step::Open(conn, resource) => write!(lines, "open {} {resource}\n", conn.value)?,
        Step::Drop(conn) => write!(lines, "drop {}\n", conn.value)?,
        Step::Text(conn, text) => write!(lines, "text {} {text}\n", conn.value)?,
        Step::NotText(conn) => write!(lines, "not-text {}\n", conn.value)?,
        _ => return Err(Fail::from("a step of a page")),
    }
    Ok(())
}
