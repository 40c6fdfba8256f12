//! Scenes of faults and other commands: what a test answers, holds, sends and cuts. The steps are told in `steps`.
use crate::steps::{PLAIN, check_scene};
use std::test::Fail;

const HELD: &str = r#"1 begins @s1
page opens /page
page says hold {"method":"session.status","times":1}
page hears ok
1 says STATUS
page hears held 1 1 STATUS
page says release 1
page hears ok
1 has READY
record ends release 1
page says release 1
page hears no effect: no command of this number is held
1 is served"#;

#[test]
fn a_command_is_held_and_released(rt: HostRuntime) -> Result<(), Fail> {
    check_scene(&rt, PLAIN, "", HELD)
}

const ANSWERED: &str = r#"1 begins @s1
page opens /page
page says answer {"method":"network.addIntercept","params":{"phases":["a"]},"result":{"intercept":1.50}}
page hears ok
1 says {"id":7,"method":"network.addIntercept","params":{"phases":["a","b"]}}
1 hears {"id":7,"result":{"intercept":1.50},"type":"success"}
1 says {"id":8,"method":"network.addIntercept","params":{"phases":["b"]}}
1 hears {"error":"unknown command","id":8,"message":"unknown command","type":"error"}
page says answer {"result":{}}
page hears no effect: "method" is not a string
page says unanswer network.addIntercept
page hears ok
1 says {"id":9,"method":"network.addIntercept","params":{"phases":["a"]}}
1 hears {"error":"unknown command","id":9,"message":"unknown command","type":"error"}"#;

#[test]
fn a_command_of_another_module_is_answered(rt: HostRuntime) -> Result<(), Fail> {
    check_scene(&rt, PLAIN, "", ANSWERED)
}

const SENT: &str = r#"1 begins @s1
page opens /page
page says send 1 no JSON
page hears ok
1 has no JSON
page says send 2 x
page hears no effect: the connection is not open
page says names weather
page hears ok
1 says {"id":1,"method":"session.subscribe","params":{"events":["weather"]}}
1 hears {"id":1,"result":{"subscription":"00000001-0005-8000-8000-800000000001"},"type":"success"}
page says emit {"method":"weather.changed","params":{"sky":0.5}}
page hears ok
1 has {"method":"weather.changed","params":{"sky":0.5},"type":"event"}
page says cut 1
page hears ok
1 is lost
page says cut 1
page hears no effect: the connection is not open
record ends cut 1"#;

#[test]
fn a_message_is_sent_and_a_connection_cut(rt: HostRuntime) -> Result<(), Fail> {
    check_scene(&rt, PLAIN, "", SENT)
}

const RAW: &str = r#"1 begins @s1
page opens /page
page says raw 1 88020
page hears no effect: the bytes are not pairs of hexadecimal digits
page says raw 2 8802
page hears no effect: the connection is not open
page says raw 1
page hears no line of a page: wants raw C HEX
1 is served
page says raw 1 8802
page hears ok
page says raw 1 0fa1
page hears ok
1 is closed 4001
record ends drop 1"#;

/// The bytes of a close frame come in two parts.
#[test]
fn bytes_are_sent_without_a_frame(rt: HostRuntime) -> Result<(), Fail> {
    check_scene(&rt, PLAIN, "", RAW)
}

const STALLED: &str = r#"1 begins @s1
page opens /page
page says stall 2
page hears no effect: the connection is not open
page says stall
page hears no line of a page: wants stall C
page says stall 1
page hears ok
1 says STATUS
host rests
record ends stall 1
page says send 1 x
page hears ok
1 has x
page says resume 1
page hears ok
1 hears READY
page says stall 1
page hears ok
1 leaves
host rests
record ends stall 1
page says resume 1
page hears ok
record ends drop 1
2 begins @s2
page says stall 2
page hears ok
page says reset
page hears ok
2 is closed 1001"#;

#[test]
fn a_connection_is_not_read_for_a_while(rt: HostRuntime) -> Result<(), Fail> {
    check_scene(&rt, PLAIN, "", STALLED)
}

const REFUSED: &str = r#"page opens /page
page says refuse 1 200
page hears no effect: no status from 400 to 599, or more than 1000000 handshakes
page says refuse 2 429
page hears ok
other opens /page
other asks GET /session HTTP/1.1|FIELDS
other gets 429 refused by a test
other asks GET /nowhere HTTP/1.1|FIELDS
other gets 429 refused by a test
1 begins @s1
record ends > 1 {"id":0,"method":"session.new","params":{"capabilities":{}}}
page says refuse 9 503
page hears ok
page says refuse 0 503
page hears ok
2 opens /session/@s1
page says refuse 9 503
page hears ok
page says reset
page hears ok
1 is closed 1001
2 is closed 1001
1 begins @s1"#;

#[test]
fn handshakes_are_refused(rt: HostRuntime) -> Result<(), Fail> {
    check_scene(&rt, PLAIN, "", REFUSED)
}

const CUT_OFF: &str = r#"1 begins @s1
page opens /page
page says cut 2 5
page hears no effect: the connection is not open
page says cut 1 x
page hears no line of a page: wants cut C or cut C AFTER
page says cut 1 40
page hears ok
page says raw 1 8900
page hears ok
1 says STATUS
1 is lost
record ends drop 1
1 opens /session/@s1
page says cut 2 0
page hears ok
page says bytes 2 00ff
page hears ok
1 is lost
record ends drop 2"#;

#[test]
fn a_connection_ends_in_a_message(rt: HostRuntime) -> Result<(), Fail> {
    check_scene(&rt, PLAIN, "", CUT_OFF)
}

const CLOSED: &str = r#"1 begins @s1
page opens /page
page says close 1 1005
page hears no effect: no close code that a server may send
page says close 1 4001
page hears ok
1 is closed 4001
page says close 1 4001
page hears no effect: the connection is not open
page says close 1
page hears no line of a page: wants close C CODE
2 opens /session/@s1
2 is served"#;

#[test]
fn a_connection_is_closed_with_a_code(rt: HostRuntime) -> Result<(), Fail> {
    check_scene(&rt, PLAIN, "", CLOSED)
}

const FILE: &str = r#"names network
on browsingContext.navigationStarted [{"method":"network.beforeRequestSent","params":{"context":"$context","navigation":"$navigation","url":"$url"}}]
"#;

const FOLLOWED: &str = r#"1 begins @s1
1 says {"id":1,"method":"session.subscribe","params":{"events":["browsingContext.navigationStarted","network"]}}
1 hears {"id":1,"result":{"subscription":"@u1"},"type":"success"}
1 says {"id":2,"method":"browsingContext.navigate","params":{"context":"@c1","url":"http://a.test","wait":"complete"}}
1 hears {"method":"browsingContext.navigationStarted","params":{"context":"@c1","navigation":"@n1","timestamp":0,"url":"http://a.test/"},"type":"event"}
1 hears {"method":"network.beforeRequestSent","params":{"context":"@c1","navigation":"@n1","url":"http://a.test/"},"type":"event"}
1 hears {"id":2,"result":{"navigation":"@n1","url":"http://a.test/"},"type":"success"}
page opens /page
page says reset
page hears ok
1 is closed 1001"#;

#[test]
fn an_event_follows_each_navigation(rt: HostRuntime) -> Result<(), Fail> {
    check_scene(&rt, PLAIN, FILE, FOLLOWED)
}
