//! Calls over HTTP: sessions that begin and end without a WebSocket.
use crate::steps::{PLAIN, check_scene};
use bidi_host_loop::Manners;
use std::test::Fail;

const BEGUN: &str =
    r#"1 calls POST /session HTTP/1.1|Host: x|Content-Length: 19||{"capabilities":{}}
1 is told 200 {"value":{"capabilities":{"webSocketUrl":"ws://127.0.0.1:PORT/session/@s1",WITH},"sessionId":"@s1"}}
record ends drop 1
2 opens /session/@s1
2 is served
3 calls POST /session HTTP/1.1|Origin: http://localhost|Transfer-Encoding: chunked||10|{"capabilities":|3;x|{}}|0||
3 is told 200 {"value":{"capabilities":{"webSocketUrl":"ws://127.0.0.1:PORT/session/@s2",WITH},"sessionId":"@s2"}}
record ends drop 3
4 calls POST http://127.0.0.1:PORT/session HTTP/1.1|Content-Length: 51||{"desiredCapabilities":{"a":1.5},"capabilities":{}}
4 is told 200 {"value":{"capabilities":{"webSocketUrl":"ws://127.0.0.1:PORT/session/@s3",WITH},"sessionId":"@s3"}}
5 calls DELETE /session/@s1 HTTP/1.1|Host: x||
5 is told 200 {"value":null}
2 is closed 1000
6 calls DELETE /session/@s1 HTTP/1.1|Host: x||
6 is told 404 {"value":{"error":"invalid session id","message":"there is no such session","stacktrace":""}}
record ends open 6 /session/@s1
7 opens /session/@s2
7 is served
record ends > 7 STATUS"#;

#[test]
fn a_call_begins_and_ends_a_session(rt: HostRuntime) -> Result<(), Fail> {
    check_scene(&rt, PLAIN, "", BEGUN)
}

const REFUSED: &str =
    r#"1 calls POST /session HTTP/1.1|Content-Length: 33||{"capabilities":{"firstMatch":1}}
1 is told 400 {"value":{"error":"invalid argument","message":"invalid argument","stacktrace":""}}
record ends drop 1
2 calls POST /session HTTP/1.1|Content-Length: 58||{"capabilities":{"alwaysMatch":{"browserName":"another"}}}
2 is told 500 {"value":{"error":"session not created","message":"session not created","stacktrace":""}}
record ends drop 2
a asks POST /session HTTP/1.1|Content-Length: 2||{}
a is told 400 {"value":{"error":"invalid argument","message":"the body must be a JSON object with a property \"capabilities\"","stacktrace":""}}
b asks POST /session HTTP/1.1|Content-Length: 18||{"capabilities":{}
b is told 400 {"value":{"error":"invalid argument","message":"the body must be a JSON object with a property \"capabilities\"","stacktrace":""}}
c asks POST /session HTTP/1.1|Content-Length: 3||[1]
c is told 400 {"value":{"error":"invalid argument","message":"the body must be a JSON object with a property \"capabilities\"","stacktrace":""}}
d asks POST /session HTTP/1.1|Content-Length: 0
d is told 400 {"value":{"error":"invalid argument","message":"the body must be a JSON object with a property \"capabilities\"","stacktrace":""}}
e asks POST /session HTTP/1.1|Content-Length: 65537
e gets 413 content too large
f asks POST /session HTTP/1.1|Transfer-Encoding: chunked||z
f gets 400 bad request
g asks POST /session HTTP/1.1|Host: x
g gets 411 length required
h asks POST /session HTTP/1.1|Origin: http://evil.test|Content-Length: 19||{"capabilities":{}}
h gets 403 forbidden
i asks DELETE /session HTTP/1.1
i is told 405 {"value":{"error":"unknown method","message":"/session has no such method","stacktrace":""}}
j asks POST /session/@s1 HTTP/1.1|Content-Length: 0
j is told 405 {"value":{"error":"unknown method","message":"/session/@s1 has no such method","stacktrace":""}}
k asks POST /status HTTP/1.1|Content-Length: 0
k is told 405 {"value":{"error":"unknown method","message":"/status has no such method","stacktrace":""}}
l asks GET /session/@s1/url HTTP/1.1
l is told 404 {"value":{"error":"unknown command","message":"/session/@s1/url is no command of this host","stacktrace":""}}
m asks POST /session/@s1/url HTTP/1.1|Content-Length: 2||{}
m is told 404 {"value":{"error":"unknown command","message":"/session/@s1/url is no command of this host","stacktrace":""}}
n asks DELETE /page HTTP/1.1
n is told 404 {"value":{"error":"unknown command","message":"/page is no command of this host","stacktrace":""}}
o asks GET http://127.0.0.1:1/status HTTP/1.1
o is told 200 {"value":{"ready":true,"message":"ready"}}
record ends drop 2
3 begins @s1"#;

#[test]
fn a_call_that_is_refused_is_told_why(rt: HostRuntime) -> Result<(), Fail> {
    check_scene(&rt, PLAIN, "", REFUSED)
}

const MANY: &str = r#"«1 to 7 # begins @s#
»8 calls POST /session HTTP/1.1|Content-Length: 19||{"capabilities":{}}
8 is told 200 {"value":{"capabilities":{"webSocketUrl":"ws://127.0.0.1:PORT/session/@s8",WITH},"sessionId":"@s8"}}
9 calls POST /session HTTP/1.1|Content-Length: 19||{"capabilities":{}}
9 is told 500 {"value":{"error":"session not created","message":"session not created","stacktrace":""}}
10 calls DELETE /session/@s8 HTTP/1.1||
10 is told 200 {"value":null}
11 calls POST /session HTTP/1.1|Content-Length: 19||{"capabilities":{}}
11 is told 200 {"value":{"capabilities":{"webSocketUrl":"ws://127.0.0.1:PORT/session/@s9",WITH},"sessionId":"@s9"}}
«12 to 68 # opens /session
»69 calls POST /session HTTP/1.1|Content-Length: 19||{"capabilities":{}}
69 is told 500 {"value":{"error":"session not created","message":"too many connections","stacktrace":""}}
70 calls DELETE /session/@s9 HTTP/1.1||
70 is told 500 {"value":{"error":"unknown error","message":"too many connections","stacktrace":""}}
71 calls DELETE /session/unknown HTTP/1.1||
71 is told 500 {"value":{"error":"unknown error","message":"too many connections","stacktrace":""}}
12 leaves
record ends drop 12
72 calls DELETE /session/@s9 HTTP/1.1||
72 is told 200 {"value":null}
1 is served"#;

#[test]
fn so_many_sessions_and_connections_are_open(rt: HostRuntime) -> Result<(), Fail> {
    check_scene(&rt, PLAIN, "", MANY)
}

const STAYS: &str = r#"1 calls POST /session HTTP/1.1|Content-Length: 19||{"capabilities":{}}
1 is told 200 {"value":{"capabilities":{"webSocketUrl":"ws://127.0.0.1:PORT/session/@s1",WITH},"sessionId":"@s1"}}
record ends drop 1
2 opens /session/@s1
2 is served
2 leaves
host rests
3 is denied 404 /session/@s1
4 calls POST /session HTTP/1.1|Content-Length: 68||{"capabilities":{"alwaysMatch":{"webSocketUrl":true,"timeouts":{}}}}
4 is told 200 {"value":{"capabilities":{"webSocketUrl":"ws://127.0.0.1:PORT/session/@s2",WITH},"sessionId":"@s2"}}
5 opens /session/@s2
6 calls DELETE /session/@s2 HTTP/1.1||
6 is told 200 {"value":null}
5 is closed 1000"#;

#[test]
fn a_session_of_a_call_ends_with_its_last_client(rt: HostRuntime) -> Result<(), Fail> {
    let manners = Manners {
        ends_sessions: true,
        is_lenient: true,
        ..PLAIN
    };
    check_scene(&rt, manners, "", STAYS)
}

const PIECES: &str = r#"1 connects
1 sends 50 4f 53 54 20 2f 73 65 73 73 69 6f 6e 20 48 54 54 50 2f 31 2e 31 0d 0a 43 6f 6e 74 65 6e 74 2d 4c 65 6e 67 74 68 3a 20 33 0d 0a 0d 0a 7b
clock goes 9
1 is there
clock goes 2
1 is cut
2 calls POST /session HTTP/1.1|Content-Length: 19||{"capabilities":{}}DELETE /session/@s1 HTTP/1.1||
2 is told 200 {"value":{"capabilities":{"webSocketUrl":"ws://127.0.0.1:PORT/session/@s1",WITH},"sessionId":"@s1"}}
record ends drop 1
3 opens /session/@s1
3 is served"#;

#[test]
fn a_call_has_its_time_and_is_answered_alone(rt: HostRuntime) -> Result<(), Fail> {
    check_scene(&rt, PLAIN, "", PIECES)
}

const HELD: &str = r#"page opens /page
page says hold {"method":"session.new","times":1}
page hears ok
1 calls POST /session HTTP/1.1|Content-Length: 19||{"capabilities":{}}
1 is told 500 {"value":{"error":"session not created","message":"the remote end did not answer","stacktrace":""}}
page says answer {"method":"session.new","error":"unknown error","message":"no","before":[{"method":"a.b","params":{}}],"times":1}
2 calls POST /session HTTP/1.1|Content-Length: 19||{"capabilities":{}}
2 is told 500 {"value":{"error":"unknown error","message":"no","stacktrace":""}}"#;

const ADDRESSED: &str = r#"page opens /page
page says answer {"method":"session.new","result":{"sessionId":"a","capabilities":{"webSocketUrl":"ws://x","b":1.50,"webSocketUrl":true}},"times":1}
page hears ok
1 calls POST /session HTTP/1.1|Content-Length: 19||{"capabilities":{}}
1 is told 200 {"value":{"capabilities":{"webSocketUrl":"ws://127.0.0.1:PORT/session/a","b":1.50},"sessionId":"a"}}
page says answer {"method":"session.new","result":{"sessionId":"a","capabilities":{"webSocket\u0055rl":"ws://x"}},"times":1}
2 calls POST /session HTTP/1.1|Content-Length: 19||{"capabilities":{}}
2 is told 200 {"value":{"capabilities":{"webSocketUrl":"ws://127.0.0.1:PORT/session/a"},"sessionId":"a"}}
page says answer {"method":"session.new","result":{"sessionId":"a","capabilities":{}},"times":1}
3 calls POST /session HTTP/1.1|Content-Length: 19||{"capabilities":{}}
3 is told 200 {"value":{"capabilities":{"webSocketUrl":"ws://127.0.0.1:PORT/session/a"},"sessionId":"a"}}"#;

#[test]
fn a_new_session_has_one_address(rt: HostRuntime) -> Result<(), Fail> {
    check_scene(&rt, PLAIN, "", ADDRESSED)
}

#[test]
fn a_test_answers_the_command_of_a_call(rt: HostRuntime) -> Result<(), Fail> {
    check_scene(&rt, PLAIN, "", HELD)
}
