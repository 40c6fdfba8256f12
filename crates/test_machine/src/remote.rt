//! Steps, and what is sent at each.
use bidi_remote::{PageStep, RemoteEnd, RemoteFault, Sent, Step};
use bidi_tree::JsUint;
use std::alloc::Global;
use std::process::Abort;
use std::test::Fail;

/// A step is a line: its word, its number and its text. What is sent stands under it, behind two blanks.
const SESSION: &str = r#"
at 7
text 1 {}
  lost 1
open 1 /sessions
  denied 1
open 1 /session
  opened 1
not-text 1
  text 1 {"error":"invalid argument","id":null,"message":"invalid argument","type":"error"}
text 1 {"id":0,"method":"session.end","params":{}}
  text 1 {"error":"invalid session id","id":0,"message":"invalid session id","type":"error"}
text 1 {"id":0,"method":"session.new","params":{"capabilities":{}}}
  text 1 {"id":0,"result":{"capabilities":{"acceptInsecureCerts":false,"browserName":"memory-browser","browserVersion":"1.0","platformName":"none","setWindowRect":false,"userAgent":"memory-browser/1.0"},"sessionId":"00000000-0001-8000-8000-000000000001"},"type":"success"}
open 2 /session/00000000-0001-8000-8000-000000000001
  opened 2
drop 1
drop 1
  lost 1
text 2 {"id":1,"method":"session.end","params":{}}
  text 2 {"id":1,"result":{},"type":"success"}
  close 2
open 1 /session/00000000-0001-8000-8000-000000000001
  denied 1
"#;

#[test]
fn a_session_lives_until_its_end(rt: HostRuntime) -> Result<(), Fail> {
    check_play(&rt, rt.alloc(), SESSION.trim())
}

/// What stands is told at once to both connections, and an event once.
const SUBSCRIPTIONS: &str = r#"
open 1 /session
  opened 1
text 1 {"id":0,"method":"session.new","params":{"capabilities":{}}}
  text 1 {"id":0,"result":{"capabilities":{"acceptInsecureCerts":false,"browserName":"memory-browser","browserVersion":"1.0","platformName":"none","setWindowRect":false,"userAgent":"memory-browser/1.0"},"sessionId":"00000000-0001-8000-8000-000000000001"},"type":"success"}
open 2 /session/00000000-0001-8000-8000-000000000001
  opened 2
text 2 {"id":1,"method":"session.subscribe","params":{"contexts":["00000000-0002-8000-8000-000000000001"],"events":["log","script.realmCreated"]}}
  text 1 {"method":"script.realmCreated","params":{"context":"00000000-0002-8000-8000-000000000001","origin":"null","realm":"00000000-0003-8000-8000-000000000001","type":"window"},"type":"event"}
  text 2 {"method":"script.realmCreated","params":{"context":"00000000-0002-8000-8000-000000000001","origin":"null","realm":"00000000-0003-8000-8000-000000000001","type":"window"},"type":"event"}
  text 2 {"id":1,"result":{"subscription":"00000001-0005-8000-8000-000000000001"},"type":"success"}
text 1 {"id":2,"method":"session.subscribe","params":{"events":["script"]}}
  text 1 {"id":2,"result":{"subscription":"00000001-0005-8000-8000-000000000002"},"type":"success"}
text 1 {"id":3,"method":"session.unsubscribe","params":{"events":["script","log"]}}
  text 1 {"error":"invalid argument","id":3,"message":"invalid argument","type":"error"}
text 1 {"id":4,"method":"session.unsubscribe","params":{"events":["script"]}}
  text 1 {"id":4,"result":{},"type":"success"}
text 1 {"id":5,"method":"session.unsubscribe","params":{"subscriptions":["00000001-0005-8000-8000-000000000002"]}}
  text 1 {"error":"invalid argument","id":5,"message":"invalid argument","type":"error"}
text 1 {"id":6,"method":"session.unsubscribe","params":{"subscriptions":["00000001-0005-8000-8000-000000000001"]}}
  text 1 {"id":6,"result":{},"type":"success"}
"#;

#[test]
fn a_subscription_is_told_what_it_enables(rt: HostRuntime) -> Result<(), Fail> {
    check_play(&rt, rt.alloc(), SUBSCRIPTIONS.trim())
}

/// Contexts come and go by commands and by steps of a page, and those in its scope are told to a subscription.
const CONTEXTS: &str = r#"
open 1 /session
  opened 1
text 1 {"id":0,"method":"session.new","params":{"capabilities":{}}}
  text 1 {"id":0,"result":{"capabilities":{"acceptInsecureCerts":false,"browserName":"memory-browser","browserVersion":"1.0","platformName":"none","setWindowRect":false,"userAgent":"memory-browser/1.0"},"sessionId":"00000000-0001-8000-8000-000000000001"},"type":"success"}
text 1 {"id":1,"method":"session.subscribe","params":{"contexts":["00000000-0002-8000-8000-000000000001"],"events":["browsingContext","script"]}}
  text 1 {"method":"browsingContext.contextCreated","params":{"children":null,"clientWindow":"00000000-0007-8000-8000-000000000001","context":"00000000-0002-8000-8000-000000000001","originalOpener":null,"parent":null,"url":"about:blank","userContext":"default"},"type":"event"}
  text 1 {"method":"script.realmCreated","params":{"context":"00000000-0002-8000-8000-000000000001","origin":"null","realm":"00000000-0003-8000-8000-000000000001","type":"window"},"type":"event"}
  text 1 {"id":1,"result":{"subscription":"00000001-0005-8000-8000-000000000001"},"type":"success"}
frame 00000000-0002-8000-8000-000000000001 http://a.test
  text 1 {"method":"browsingContext.contextCreated","params":{"children":null,"clientWindow":"00000000-0007-8000-8000-000000000001","context":"00000000-0002-8000-8000-000000000002","originalOpener":null,"parent":"00000000-0002-8000-8000-000000000001","url":"http://a.test/","userContext":"default"},"type":"event"}
  text 1 {"method":"script.realmCreated","params":{"context":"00000000-0002-8000-8000-000000000002","origin":"http://a.test","realm":"00000000-0003-8000-8000-000000000002","type":"window"},"type":"event"}
frame 00000000-0002-8000-8000-000000000002 /x
  no effect
text 1 {"id":2,"method":"browsingContext.create","params":{"type":"window"}}
  text 1 {"id":2,"result":{"context":"00000000-0002-8000-8000-000000000003"},"type":"success"}
text 1 {"id":3,"method":"browsingContext.getTree","params":{"maxDepth":0}}
  text 1 {"id":3,"result":{"contexts":[{"children":null,"clientWindow":"00000000-0007-8000-8000-000000000001","context":"00000000-0002-8000-8000-000000000001","originalOpener":null,"parent":null,"url":"about:blank","userContext":"default"},{"children":null,"clientWindow":"00000000-0007-8000-8000-000000000002","context":"00000000-0002-8000-8000-000000000003","originalOpener":null,"parent":null,"url":"about:blank","userContext":"default"}]},"type":"success"}
unframe 00000000-0002-8000-8000-000000000002
  text 1 {"method":"script.realmDestroyed","params":{"realm":"00000000-0003-8000-8000-000000000002"},"type":"event"}
  text 1 {"method":"browsingContext.contextDestroyed","params":{"children":[],"clientWindow":"00000000-0007-8000-8000-000000000001","context":"00000000-0002-8000-8000-000000000002","originalOpener":null,"parent":"00000000-0002-8000-8000-000000000001","url":"http://a.test/","userContext":"default"},"type":"event"}
unframe 00000000-0002-8000-8000-000000000001
  no effect
text 1 {"id":4,"method":"browsingContext.activate","params":{"context":"00000000-0002-8000-8000-000000000003"}}
  text 1 {"id":4,"result":{},"type":"success"}
text 1 {"id":5,"method":"browsingContext.close","params":{"context":"00000000-0002-8000-8000-000000000001"}}
  text 1 {"method":"script.realmDestroyed","params":{"realm":"00000000-0003-8000-8000-000000000001"},"type":"event"}
  text 1 {"method":"browsingContext.contextDestroyed","params":{"children":[],"clientWindow":"00000000-0007-8000-8000-000000000001","context":"00000000-0002-8000-8000-000000000001","originalOpener":null,"parent":null,"url":"about:blank","userContext":"default"},"type":"event"}
  text 1 {"id":5,"result":{},"type":"success"}
text 1 {"id":6,"method":"browsingContext.close","params":{"context":"00000000-0002-8000-8000-000000000001"}}
  text 1 {"error":"no such frame","id":6,"message":"no such frame","type":"error"}
"#;

#[test]
fn contexts_come_and_go(rt: HostRuntime) -> Result<(), Fail> {
    check_play(&rt, rt.alloc(), CONTEXTS.trim())
}

/// That the steps of a play send its other lines.
fn check_play(rt: &impl Abort, alloc: Global, play: &str) -> Result<(), Fail> {
    let played = played(alloc, play)?;
    for (line, wanted) in played.as_str().lines().zip(play.lines()) {
        assert_eq!(rt; line, wanted);
    }
    assert_eq!(rt; played.as_str().trim(), play);
    Ok(())
}

/// The steps of a play, each with what is sent at it.
fn played(alloc: Global, play: &str) -> Result<String, Fail> {
    let mut told = String::new(alloc);
    let mut end = RemoteEnd::new(alloc)?;
    for line in play.lines() {
        if !line.starts_with("  ") {
            let sent = end.step(step(alloc, line)?)?;
            write!(told, "{line}\n")?;
            push_sent(&mut told, &sent)?;
        }
    }
    Ok(told)
}

pub(crate) fn step(alloc: Global, line: &str) -> Result<Step, Fail> {
    let (word, rest) = line.split_once(' ').ok_or("no number")?;
    if let Some(step) = page_step(alloc, word, rest)? {
        return Ok(step);
    }
    let (number, text) = rest.split_once(' ').unwrap_or((rest, ""));
    let number = JsUint::new(number.parse()?).ok_or("no js-uint")?;
    let text = String::from_str(alloc, text)?;
    match word {
        "at" => Ok(Step::At(number)),
        "open" => Ok(Step::Open(number, text)),
        "drop" => Ok(Step::Drop(number)),
        "text" => Ok(Step::Text(number, text)),
        "not-text" => Ok(Step::NotText(number)),
        _ => Err(Fail::from("no word of a step")),
    }
}

/// The step of a page, which begins with the id of a context.
fn page_step(alloc: Global, word: &str, rest: &str) -> Result<Option<Step>, Fail> {
    let (context, url) = rest.split_once(' ').unwrap_or((rest, ""));
    let context = String::from_str(alloc, context)?;
    match word {
        "frame" => Ok(Some(Step::Page(PageStep::Frame(context, String::from_str(alloc, url)?)))),
        "unframe" => Ok(Some(Step::Page(PageStep::Unframe(context)))),
        _ => Ok(None),
    }
}

fn push_sent(told: &mut String, sent: &[Sent]) -> Result<(), Fail> {
    for one in sent {
        match one {
            Sent::Text(conn, text) => write!(told, "  text {} {}\n", conn.value, text.as_str())?,
            Sent::Close(conn) => write!(told, "  close {}\n", conn.value)?,
            Sent::Opened(conn) => write!(told, "  opened {}\n", conn.value)?,
            Sent::Denied(conn) => write!(told, "  denied {}\n", conn.value)?,
            Sent::Lost(conn) => write!(told, "  lost {}\n", conn.value)?,
            Sent::NoEffect => told.push_str("  no effect\n")?,
        }
    }
    Ok(())
}

#[test]
fn faults_have_texts(rt: HostRuntime) -> Result<(), Fail> {
    let no_memory = format!(in rt.alloc(); "{}", RemoteFault::NoMemory)?;
    assert_eq!(rt; no_memory.as_str(), "out of memory");
    let worn_out = format!(in rt.alloc(); "{}", RemoteFault::WornOut)?;
    assert_eq!(rt; worn_out.as_str(), "too many steps");
    Ok(())
}
