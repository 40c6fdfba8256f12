//! What a lenient host makes of commands that ask for more than the profile has, and what it reports.
use crate::lab::Lab;
use crate::steps::{PLAIN, check_scene, run_all};
use crate::words::spelled_out;
use bidi_host_loop::Manners;
use std::test::Fail;

/// A lenient host.
const LENIENT: Manners = Manners {
    ends_sessions: false,
    is_lenient: true,
    ..PLAIN
};

/// Runs a scene over a lenient host, and then holds standard error against these lines, which come after the first one.
fn check_told(rt: &HostRuntime, page: &str, scene: &str, told: &str) -> Result<(), Fail> {
    let scene = spelled_out(rt.alloc(), scene)?;
    let lab = Lab::new(rt, LENIENT, page)?;
    run_and_hear(rt, lab, scene.as_str(), told)
}

/// The same in a lab.
fn run_and_hear(rt: &HostRuntime, lab: Lab, scene: &str, told: &str) -> Result<(), Fail> {
    let mut lab = lab;
    let found = match run_all(rt, &mut lab, scene) {
        Ok(()) => has_told(&lab, told),
        Err(fail) => Err(fail),
    };
    drop(lab);
    found
}

/// Whether these are the lines of standard error after the first one.
fn has_told(lab: &Lab, told: &str) -> Result<(), Fail> {
    let mut found = String::new(lab.alloc);
    for note in lab.world.notes.iter().skip(1) {
        found.push_str(note.as_str())?;
        found.push_str("\n")?;
    }
    if found.as_str() == told {
        Ok(())
    } else {
        Err(Fail::new(format_args!("it reports {found}")))
    }
}

const EASED: &str = r#"1 opens /session
1 says {"id":0,"method":"session.new","params":{"capabilities":{"alwaysMatch":{"webSocketUrl":true,"strictFileInteractability":false}}}}
1 hears {"id":0,"result":{"capabilities":CAPABILITIES,"sessionId":"@s1"},"type":"success"}
record ends > 1 {"id":0,"method":"session.new","params":{"capabilities":{"alwaysMatch":{}}}}
2 opens /session
2 says {"id":0,"method":"session.new","params":{"capabilities":{"alwaysMatch":{"webSocketUrl":true}}}}
2 hears {"id":0,"result":{"capabilities":CAPABILITIES,"sessionId":"@s2"},"type":"success"}"#;

#[test]
fn a_capability_that_the_profile_lacks_is_left_out(rt: HostRuntime) -> Result<(), Fail> {
    check_told(
        &rt,
        "",
        EASED,
        "bidi: left out capability strictFileInteractability\nbidi: left out capability webSocketUrl\n",
    )
}

const OF_ANOTHER_KIND: &str = r#"1 opens /session
1 says {"id":0,"method":"session.new","params":{"capabilities":{"alwaysMatch":{"webSocketUrl":"x"}}}}
1 hears {"error":"invalid argument","id":0,"message":"invalid argument","type":"error"}
record ends > 1 {"id":0,"method":"session.new","params":{"capabilities":{"alwaysMatch":{"webSocketUrl":"x"}}}}"#;

#[test]
fn a_capability_of_another_kind_is_refused(rt: HostRuntime) -> Result<(), Fail> {
    check_told(&rt, "", OF_ANOTHER_KIND, "")
}

const HELD: &str = r#"record ends names *
1 begins @s1
1 says {"id":1,"method":"session.subscribe","params":{"events":["network","log.entryAdded","x.y"]}}
1 hears {"id":1,"result":{"subscription":"@u1"},"type":"success"}
record ends > 1 {"id":1,"method":"session.subscribe","params":{"events":["network","log.entryAdded","x.y"]}}
page opens /page
page says emit {"method":"network.fetchError","params":{}}
page hears ok
1 has {"method":"network.fetchError","params":{},"type":"event"}
page says log @c1 info a
page hears ok
1 has {"method":"log.entryAdded","params":{"args":[{"type":"string","value":"a"}],"level":"info","method":"info","source":{"context":"@c1","realm":"@r1"},"text":"a","timestamp":0,"type":"console"},"type":"event"}
1 says {"id":2,"method":"session.unsubscribe","params":{"events":["network"]}}
1 hears {"id":2,"result":{},"type":"success"}
page says emit {"method":"network.fetchError","params":{}}
page hears ok
page says emit {"method":"x.y","params":{}}
page hears ok
1 hears {"method":"x.y","params":{},"type":"event"}
page says reset
page hears ok
1 is closed 1001
record ends names *
2 begins @s1
2 says {"id":1,"method":"session.subscribe","params":{"events":["network"]}}
2 hears {"id":1,"result":{"subscription":"00000001-0005-8000-8000-800000000001"},"type":"success"}
page says emit {"method":"network.fetchError","params":{}}
page hears ok
2 has {"method":"network.fetchError","params":{},"type":"event"}"#;

#[test]
fn names_that_the_profile_lacks_are_held(rt: HostRuntime) -> Result<(), Fail> {
    check_told(
        &rt,
        "",
        HELD,
        "bidi: held module network\nbidi: held event x.y\n",
    )
}

const AFTER_A_PAGE: &str = r#"record ends log @c1 info a
1 begins @s1
1 says {"id":1,"method":"session.subscribe","params":{"events":["network"]}}
1 hears {"id":1,"result":{"subscription":"00000001-0005-8000-8000-800000000001"},"type":"success"}"#;

#[test]
fn names_are_held_before_the_lines_of_a_page(rt: HostRuntime) -> Result<(), Fail> {
    check_scene(&rt, LENIENT, "at 5\nlog @c1 info a\n", AFTER_A_PAGE)
}

const CLOSED: &str = r#"1 begins @s1
2 opens /session/@s1
3 begins @s2
1 says {"id":5,"method":"browser.close","params":{}}
1 hears {"id":5,"result":{},"type":"success"}
record ends > 1 {"id":5,"method":"session.end","params":{}}
1 is closed 1000
2 is closed 1000
3 is served"#;

#[test]
fn a_close_of_the_browser_ends_its_session(rt: HostRuntime) -> Result<(), Fail> {
    check_told(&rt, "", CLOSED, "bidi: took browser.close as session.end\n")
}

const SANDBOXED: &str = r#"1 begins @s1
page opens /page
page says value {"text":"1 + 1","returns":{"type":"number","value":2}}
page hears ok
1 says {"id":2,"method":"script.evaluate","params":{"awaitPromise":false,"expression":"1 + 1\u000a//# sourceURL=pptr:evaluate\u000a","target":{"context":"@c1","sandbox":"__puppeteer_internal_24.1.0"}}}
1 hears {"id":2,"result":{"realm":"@r1","result":{"type":"number","value":2},"type":"success"},"type":"success"}
record ends > 1 {"id":2,"method":"script.evaluate","params":{"awaitPromise":false,"expression":"1 + 1","target":{"context":"@c1"}}}
page says answer {"method":"script.callFunction","params":{"functionDeclaration":"f"},"result":{"x":1}}
page hears ok
1 says {"id":3,"method":"script.callFunction","params":{"functionDeclaration":"f\u000a//# sourceURL=a"}}
1 hears {"id":3,"result":{"x":1},"type":"success"}
1 says {"id":4,"method":"script.disown","params":{"handles":[],"target":{"context":"@c1","sandbox":5}}}
1 hears {"error":"invalid argument","id":4,"message":"invalid argument","type":"error"}"#;

#[test]
fn a_script_loses_its_sandbox_and_its_source(rt: HostRuntime) -> Result<(), Fail> {
    check_told(
        &rt,
        "",
        SANDBOXED,
        "bidi: left out sourceURL\nbidi: left out sandbox __puppeteer_internal_24.1.0\n",
    )
}

const UNSUBSCRIBED: &str = r#"1 begins @s1
1 says {"id":6,"method":"session.unsubscribe","params":{"contexts":["@c1"],"events":["log.entryAdded"]}}
1 hears {"error":"invalid argument","id":6,"message":"invalid argument","type":"error"}
record ends > 1 {"id":6,"method":"session.unsubscribe","params":{}}"#;

#[test]
fn contexts_of_an_unsubscribe_are_refused(rt: HostRuntime) -> Result<(), Fail> {
    check_told(
        &rt,
        "",
        UNSUBSCRIBED,
        "bidi: refused contexts of session.unsubscribe\n",
    )
}
