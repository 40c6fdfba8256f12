//! A host that ends after its last session.
use crate::steps::{PLAIN, check_scene};
use bidi_host_loop::Manners;
use std::test::Fail;

/// A host that ends after its last session.
const ONCE: Manners = Manners {
    ends_sessions: false,
    ends_after_last: true,
    ..PLAIN
};

const ENDED: &str = r#"page opens /page
1 begins @s1
2 opens /session/@s1
2 says {"id":1,"method":"session.end","params":{}}
2 hears {"id":1,"result":{},"type":"success"}
1 is closed 1000
2 is closed 1000
page is closed 1001
host ends"#;

#[test]
fn it_ends_after_its_session(rt: HostRuntime) -> Result<(), Fail> {
    check_scene(&rt, ONCE, "", ENDED)
}

const AT_ONCE: &str = r#"1 opens /session
1 says {"id":0,"method":"session.new","params":{"capabilities":{}}}
1 says {"id":1,"method":"session.end","params":{}}
1 hears {"id":0,"result":{"capabilities":CAPABILITIES,"sessionId":"@s1"},"type":"success"}
1 hears {"id":1,"result":{},"type":"success"}
1 is closed 1000
host ends"#;

#[test]
fn it_ends_after_a_session_that_ends_at_once(rt: HostRuntime) -> Result<(), Fail> {
    check_scene(&rt, ONCE, "", AT_ONCE)
}

const TWO: &str = r#"1 begins @s1
2 begins @s2
1 says {"id":1,"method":"session.end","params":{}}
1 hears {"id":1,"result":{},"type":"success"}
1 is closed 1000
2 is served
2 says {"id":1,"method":"session.end","params":{}}
2 hears {"id":1,"result":{},"type":"success"}
2 is closed 1000
host ends"#;

#[test]
fn it_ends_after_the_last_of_two_sessions(rt: HostRuntime) -> Result<(), Fail> {
    check_scene(&rt, ONCE, "", TWO)
}

const WITH_ANOTHER: &str = r#"1 begins @s1
2 opens /session
1 says {"id":1,"method":"session.end","params":{}}
1 hears {"id":1,"result":{},"type":"success"}
1 is closed 1000
2 is served
2 leaves
host ends"#;

#[test]
fn it_waits_for_the_last_client(rt: HostRuntime) -> Result<(), Fail> {
    check_scene(&rt, ONCE, "", WITH_ANOTHER)
}

const BEFORE: &str = r#"1 opens /session
1 is served
1 leaves
host rests
page opens /page
page says at 5
page hears ok
2 begins @s1
2 leaves
host rests
3 opens /session/@s1
3 is served"#;

#[test]
fn it_stays_before_a_session_and_while_one_is_active(rt: HostRuntime) -> Result<(), Fail> {
    check_scene(&rt, ONCE, "", BEFORE)
}

const RESET: &str = r#"page opens /page
1 begins @s1
page says reset
page hears ok
1 is closed 1001
host rests
2 begins @s1
2 says {"id":1,"method":"session.end","params":{}}
2 hears {"id":1,"result":{},"type":"success"}
2 is closed 1000
page is closed 1001
host ends"#;

#[test]
fn it_stays_after_a_reset(rt: HostRuntime) -> Result<(), Fail> {
    check_scene(&rt, ONCE, "", RESET)
}

const LEFT: &str = r#"1 begins @s1
2 opens /session/@s1
1 leaves
2 is served
2 leaves
host ends"#;

#[test]
fn it_ends_if_the_last_connection_ends_the_session(rt: HostRuntime) -> Result<(), Fail> {
    let manners = Manners {
        ends_sessions: true,
        ..ONCE
    };
    check_scene(&rt, manners, "", LEFT)
}

const CLOSED: &str = r#"1 begins @s1
1 says {"id":5,"method":"browser.close","params":{}}
1 hears {"id":5,"result":{},"type":"success"}
1 is closed 1000
host ends"#;

#[test]
fn it_ends_after_a_close_of_the_browser(rt: HostRuntime) -> Result<(), Fail> {
    let manners = Manners {
        is_lenient: true,
        ..ONCE
    };
    check_scene(&rt, manners, "", CLOSED)
}

const PLAIN_ENDED: &str = r#"1 begins @s1
1 says {"id":1,"method":"session.end","params":{}}
1 hears {"id":1,"result":{},"type":"success"}
1 is closed 1000
host rests
2 begins @s2
2 is served"#;

#[test]
fn other_hosts_stay(rt: HostRuntime) -> Result<(), Fail> {
    check_scene(&rt, PLAIN, "", PLAIN_ENDED)
}
