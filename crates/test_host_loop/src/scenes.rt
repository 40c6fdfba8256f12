//! Scenes: what clients and pages do, and what they get. The steps are told in `steps`.
use crate::steps::{PLAIN, TYPING, check_scene};
use bidi_host_loop::Manners;
use std::test::Fail;

const TURNS: &str = r#"1 begins @s1
2 begins @s2
2 says {"id":5,"method":"session.status","params":{}}
1 says {"id":6,"method":"session.status","params":{}}
1 hears {"id":6,"result":{"message":"ready","ready":true},"type":"success"}
2 hears {"id":5,"result":{"message":"ready","ready":true},"type":"success"}
1 says nonsense
2 says STATUS
1 hears REFUSED
2 hears READY
1 sends 82 80 00 00 00 00
1 hears REFUSED
record ends binary 1
1 says STATUS
1 says STATUS
1 says STATUS
2 is served
1 hears READY
1 hears READY
1 hears READY
1 sends 89 82 00 00 00 00 68 69
1 is served
2 leaves
record ends drop 2
3 opens /session/@s2
3 is served
4 is denied 404 /session/@s3
1 is served"#;

#[test]
fn two_clients_speak_by_turns(rt: HostRuntime) -> Result<(), Fail> {
    check_scene(&rt, PLAIN, "", TURNS)
}

const SHARED: &str = r#"1 begins @s1
2 opens /session/@s1
3 begins @s2
2 says {"id":1,"method":"session.subscribe","params":{"events":["log.entryAdded"]}}
2 hears {"id":1,"result":{"subscription":"@u1"},"type":"success"}
page opens /page
page says at 5
page hears ok
page says log @c1 info x
page hears ok
1 has {"method":"log.entryAdded","params":{"args":[{"type":"string","value":"x"}],"level":"info","method":"info","source":{"context":"@c1","realm":"@r1"},"text":"x","timestamp":5,"type":"console"},"type":"event"}
2 has {"method":"log.entryAdded","params":{"args":[{"type":"string","value":"x"}],"level":"info","method":"info","source":{"context":"@c1","realm":"@r1"},"text":"x","timestamp":5,"type":"console"},"type":"event"}
3 is served
record ends > 3 STATUS
1 is served
2 is served"#;

#[test]
fn both_connections_of_a_session_hear_an_event(rt: HostRuntime) -> Result<(), Fail> {
    check_scene(&rt, PLAIN, "", SHARED)
}

const LOGGED: &str = r#"1 begins @s1
1 says {"id":1,"method":"session.subscribe","params":{"events":["log.entryAdded"]}}
1 hears {"id":1,"result":{"subscription":"@u1"},"type":"success"}
page opens /page
page says log @c1 warn a
page says log @c1 error b
page hears ok
page hears ok
1 has {"method":"log.entryAdded","params":{"args":[{"type":"string","value":"a"}],"level":"warn","method":"warn","source":{"context":"@c1","realm":"@r1"},"text":"a","timestamp":0,"type":"console"},"type":"event"}
1 has {"method":"log.entryAdded","params":{"args":[{"type":"string","value":"b"}],"level":"error","method":"error","source":{"context":"@c1","realm":"@r1"},"text":"b","timestamp":0,"type":"console"},"type":"event"}
record ends log @c1 error b"#;

#[test]
fn a_page_logs_while_a_client_waits(rt: HostRuntime) -> Result<(), Fail> {
    check_scene(&rt, PLAIN, "", LOGGED)
}

const EVALUATED: &str = r#"1 begins @s1
1 says {"id":1,"method":"script.evaluate","params":{"awaitPromise":false,"expression":"1 + 1","target":{"context":"@c1"}}}
1 hears {"error":"unsupported operation","id":1,"message":"unsupported operation","type":"error"}
page opens /page
page says value {"text":"1 + 1","returns":{"type":"number","value":2}}
page hears ok
1 says {"id":2,"method":"script.evaluate","params":{"awaitPromise":false,"expression":"1 + 1","target":{"context":"@c1"}}}
1 hears {"id":2,"result":{"realm":"@r1","result":{"type":"number","value":2},"type":"success"},"type":"success"}"#;

#[test]
fn a_script_is_set_and_evaluated(rt: HostRuntime) -> Result<(), Fail> {
    check_scene(&rt, PLAIN, "", EVALUATED)
}

const ANSWERS: &str = r#"page opens /page
page says frame @c1 about:blank
page hears ok
page says unframe @c2
page hears ok
page says unframe @c2
page hears no effect: unknown context
page says unframe @c1
page hears no effect: a top-level context
page says frame @c9 about:blank
page hears no effect: unknown context
page says frame @c1 side.html
page hears no effect: not an absolute URL
page says log @c9 info x
page hears no effect: unknown context
page says at 05
page hears no line of a page: "05" is no moment, a whole number from 0 to 9007199254740991
page says open 1 /session
page hears no line of a page: "open" is none of at, frame, unframe, log, value, answer, hold, release, unanswer, emit, on, names, send, bytes, raw, stall, resume, cut, close, refuse, reset and end
page says drop 1
page hears no line of a page: "drop" is none of at, frame, unframe, log, value, answer, hold, release, unanswer, emit, on, names, send, bytes, raw, stall, resume, cut, close, refuse, reset and end
page says > 1 STATUS
page hears no line of a page: ">" is none of at, frame, unframe, log, value, answer, hold, release, unanswer, emit, on, names, send, bytes, raw, stall, resume, cut, close, refuse, reset and end
page says binary 1
page hears no line of a page: "binary" is none of at, frame, unframe, log, value, answer, hold, release, unanswer, emit, on, names, send, bytes, raw, stall, resume, cut, close, refuse, reset and end
page says log @c1 fatal x
page hears no line of a page: "fatal" is no level: debug, info, warn or error
page says log @c1 info
page hears no line of a page: wants log CONTEXT LEVEL TEXT
page says log @c1
page hears no line of a page: wants log CONTEXT LEVEL TEXT
page says frame @c1
page hears no line of a page: wants frame CONTEXT URL
page says unframe @c1 x
page hears no line of a page: wants unframe CONTEXT
page says value
page hears no line of a page: wants value ROW
page says at
page hears no line of a page: wants at N
page says resets
page hears no line of a page: "resets" is none of at, frame, unframe, log, value, answer, hold, release, unanswer, emit, on, names, send, bytes, raw, stall, resume, cut, close, refuse, reset and end
page says reset now
page hears no line of a page: nothing may stand behind `reset` and `end`
page says ‹70 x› y
page hears no line of a page: a word of 70 bytes is none of at, frame, unframe, log, value, answer, hold, release, unanswer, emit, on, names, send, bytes, raw, stall, resume, cut, close, refuse, reset and end
page says
page hears no line of a page: "" is none of at, frame, unframe, log, value, answer, hold, release, unanswer, emit, on, names, send, bytes, raw, stall, resume, cut, close, refuse, reset and end
page says at 5\n
page hears no line of a page: a line feed in it
page says at 5\nat 6
page hears no line of a page: a line feed in it
page sends 82 82 00 00 00 00 61 74
page hears no line of a page: a message of bytes
page says log @c1 info ‹2097106 x›
page hears ok
page says log @c1 info ‹2097107 x›
page hears no line of a page: more than 2097152 bytes
other opens /page
other says at 7
other hears ok
page says at 6
page hears ok
record ends at 6
1 opens /session
1 is served"#;

#[test]
fn each_line_of_a_page_is_answered(rt: HostRuntime) -> Result<(), Fail> {
    check_scene(&rt, PLAIN, "", ANSWERS)
}

const ROWS: &str = r##"page opens /page
page says value {"text":5,"returns":{"type":"undefined"}}
page hears no effect: /text: wants a string, has 5 (TableRow)
page says value {"text":"x","returns":{"type":"string","value":2}}
page hears no effect: /returns/value: wants a string, has 2 (Primitive)
page says value {"text":"x","returns":{"type":"array","value":[{"type":"error","handle":"h"}]}}
page hears no effect: a value of a row has no `handle` and no `internalId`
page says value {"text":"x"
page hears no effect: not json
page says value {"text":"‹1048576 x›","argument":0}
page hears no effect: more than 1048576 bytes
page says value {"text":"x","throws":«29 {"type":"array","value":[»{"type":"array","value":[]}«29 ]}»}
page hears no effect: a value that is thrown has at most 59 levels of nesting
«1 to 1024 page says value {"text":"#","argument":0}
page hears ok
»page says value {"text":"one more","argument":0}
page hears no effect: 1024 scripts have rows
page says value {"text":"1","argument":1}
page hears ok
«1 to 1023 page says frame @c1 about:blank
page hears ok
»page says frame @c1 about:blank
page hears no effect: 1024 contexts are live, or the context is at level 16"##;

#[test]
fn a_row_that_is_refused_says_where_and_why(rt: HostRuntime) -> Result<(), Fail> {
    check_scene(&rt, PLAIN, "", ROWS)
}

/// The lines of a page that each new browser is played.
const PAGE: &str = r#"value {"text":"1 + 1","returns":{"type":"number","value":2}}
frame @c1 about:blank
"#;

const RESET: &str = r#"1 begins @s1
2 begins @s2
page opens /page
other opens /page
page says unframe @c2
page hears ok
page says value {"text":"later","returns":{"type":"null"}}
page hears ok
page says reset
page hears ok
1 is closed 1001
2 is closed 1001
1 opens /session
1 says {"id":0,"method":"session.new","params":{"capabilities":{}}}
1 hears {"id":0,"result":{"capabilities":CAPABILITIES,"sessionId":"@s1"},"type":"success"}
record ends > 1 {"id":0,"method":"session.new","params":{"capabilities":{}}}
1 says {"id":2,"method":"script.evaluate","params":{"awaitPromise":false,"expression":"1 + 1","target":{"context":"@c2"}}}
1 hears {"id":2,"result":{"realm":"@r2","result":{"type":"number","value":2},"type":"success"},"type":"success"}
1 says {"id":3,"method":"script.evaluate","params":{"awaitPromise":false,"expression":"later","target":{"context":"@c1"}}}
1 hears {"error":"unsupported operation","id":3,"message":"unsupported operation","type":"error"}
1 says {"id":4,"method":"browsingContext.create","params":{"type":"tab"}}
1 hears {"id":4,"result":{"context":"@c3"},"type":"success"}
other says reset
other hears ok
1 is closed 1001
page says unframe @c2
page hears ok
1 begins @s1
1 is served"#;

#[test]
fn a_reset_makes_the_browser_new(rt: HostRuntime) -> Result<(), Fail> {
    check_scene(&rt, PLAIN, PAGE, RESET)
}

const END: &str = r#"1 begins @s1
2 opens /session
page opens /page
other opens /page
late connects
page says end
page hears ok
1 is closed 1001
2 is closed 1001
page is closed 1001
other is closed 1001
late is cut
host ends"#;

#[test]
fn an_end_closes_all(rt: HostRuntime) -> Result<(), Fail> {
    check_scene(&rt, PLAIN, "", END)
}

const UNANSWERED_END: &str = r#"1 begins @s1
page opens /page
page says end
page hears ok
clock goes 10
host ends"#;

#[test]
fn an_end_waits_for_nobody(rt: HostRuntime) -> Result<(), Fail> {
    check_scene(&rt, PLAIN, "", UNANSWERED_END)
}

const CLOSES: &str = r#"1 begins @s1
1 says {"id":1,"method":"session.end","params":{}}
1 hears {"id":1,"result":{},"type":"success"}
1 is closed 1000
2 opens /session
2 sends 81 02 7b 7d
2 is closed 1002
record ends drop 2
3 opens /session
3 sends 83 80 00 00 00 00
3 is closed 1002
4 opens /session
4 sends f1 80 00 00 00 00
4 is closed 1002
5 opens /session
5 sends 80 80 00 00 00 00
5 is closed 1002
6 opens /session
6 sends 81 81 00 00 00 00 ff
6 is closed 1007
record ends drop 6
7 opens /session
7 sends 81 ff 00 00 00 00 01 00 00 01 00 00 00 00
7 is closed 1009
record ends drop 7
8 opens /session
8 says STATUS
8 sends 81 02 7b 7d
8 hears READY
8 is closed 1002
9 opens /session
9 sends 88 82 00 00 00 00 03 e8
9 is closed 1000
record ends drop 9
page opens /page
page sends 81 02 7b 7d
page is closed 1002
10 opens /session
10 is served"#;

#[test]
fn each_close_has_its_code(rt: HostRuntime) -> Result<(), Fail> {
    check_scene(&rt, PLAIN, "", CLOSES)
}

const ASKED: &str = r#"1 asks GET /status HTTP/1.1|Host: x
1 gets 200 {"value":{"ready":true,"message":"ready"}}
2 asks GET /session HTTP/1.1|Host: x
2 gets 426 upgrade required
3 asks GET /page HTTP/1.1|Host: x
3 gets 426 upgrade required
4 asks nonsense
4 gets 400 bad request
5 asks POST /session HTTP/1.1|FIELDS
5 gets 411 length required
6 asks GET /session HTTP/1.1|FIELDS|Origin: http://evil.test
6 gets 403 forbidden
7 asks GET /page HTTP/1.1|FIELDS|Origin: http://evil.test
7 gets 403 forbidden
8 asks GET /status HTTP/1.1|Host: x|Origin: http://evil.test
8 gets 403 forbidden
9 asks GET /session HTTP/1.1|Host: x|Upgrade: websocket|Connection: Upgrade|Sec-WebSocket-Version: 13
9 gets 400 bad request
10 is denied 404 /
11 is denied 404 /pages
12 is denied 404 /session/
13 is denied 404 /session?a=b
record ends open 4 /session?a=b
«14 to 77 # opens /session
»78 is denied 503 /session
page opens /page
page says at 5
page hears ok
79 asks GET /status HTTP/1.1|Host: x
79 gets 200 {"value"
81 asks POST /session HTTP/1.1|Host: x||‹1000000 x›
81 gets 411 length required
82 asks GET /status HTTP/1.0
82 gets 200 {"value"
83 asks GET /session HTTP/1.0|FIELDS
83 gets 426 upgrade required
84 asks GET /status HTTP/1.1‹124 |a: b›
84 gets 200 {"value"
85 asks GET /status HTTP/1.1‹125 |a: b›
85 gets 400 bad request: a head has at most 124 header fields
«14 to 77 # is served
»20 leaves
record ends drop 11
80 opens /session
80 is served"#;

#[test]
fn each_request_is_answered(rt: HostRuntime) -> Result<(), Fail> {
    check_scene(&rt, PLAIN, "", ASKED)
}

const PATIENCE: &str = r#"1 connects
2 connects
1 sends 47 45 54
clock goes 5
3 opens /session
3 is served
1 sends 20
1 is there
clock goes 4
3 is served
1 sends 2f
1 is there
2 is there
clock goes 10
1 is cut
2 is cut
3 is served
«1 to 12 slow# connects
»«1 to 12 slow1 sends 47
clock goes 1
3 is served
»slow1 is cut
3 is served"#;

#[test]
fn a_handshake_has_its_time_and_stops_nobody(rt: HostRuntime) -> Result<(), Fail> {
    check_scene(&rt, PLAIN, "", PATIENCE)
}

const FULL: &str = r#"1 begins @s1
page opens /page
early connects
clock goes 1
late connects
2 opens /session/@s1
early is cut
late is there
2 is served
3 opens /session
late is cut
3 is served
1 leaves
record ends drop 1
4 is denied 404 /nowhere
page says at 5
page hears ok"#;

#[test]
fn the_oldest_handshake_gives_way_to_a_new_connection(rt: HostRuntime) -> Result<(), Fail> {
    let manners = Manners {
        most_connections: 4,
        ..PLAIN
    };
    check_scene(&rt, manners, "", FULL)
}

const PAGES: &str = r#"«1 to 64 p# opens /page
»last is denied 503 /page
p64 says at 5
p64 hears ok
p1 leaves
host rests
next opens /page
1 opens /session
1 is served"#;

#[test]
fn so_many_pages_are_open(rt: HostRuntime) -> Result<(), Fail> {
    check_scene(&rt, PLAIN, "", PAGES)
}

const UNFINISHED: &str = r#"1 begins @s1
2 begins @s2
3 begins @s3
1 sends 01 fe 75 30 00 00 00 00 «30000 61 »
2 sends 01 fe 75 30 00 00 00 00 «30000 62 »
3 sends 01 fe 75 30 00 00 00 00 «30000 63 »
host rests
1 is there
2 sends 00 fe 4e 20 00 00 00 00 «20000 62 »
2 is closed 1009
1 sends 80 82 00 00 00 00 61 61
1 hears REFUSED
1 is served
3 sends 80 82 00 00 00 00 63 63
3 hears REFUSED
3 is served"#;

#[test]
fn unfinished_messages_have_a_bound_in_all(rt: HostRuntime) -> Result<(), Fail> {
    let manners = Manners {
        most_held: 100_000,
        ..PLAIN
    };
    check_scene(&rt, manners, "", UNFINISHED)
}

const WAITING: &str = r#"page opens /page
page says value {"text":"long","returns":{"type":"string","value":"‹100000 x›"}}
page hears ok
slow begins @s1
quick begins @s2
«60 slow says {"id":2,"method":"script.evaluate","params":{"awaitPromise":false,"expression":"long","target":{"context":"@c1"}}}
»host rests
record ends drop 1
quick is served
slow leaves"#;

#[test]
fn texts_that_wait_have_a_bound_in_all(rt: HostRuntime) -> Result<(), Fail> {
    let manners = Manners {
        most_held: 300_000,
        ..PLAIN
    };
    check_scene(&rt, manners, "", WAITING)
}

// What lines of standard input send is bounded too, although nobody reads.
const TYPED_WAITING: &str = r#"slow begins @s1
slow says {"id":1,"method":"session.subscribe","params":{"events":["log.entryAdded"]}}
slow hears {"id":1,"result":{"subscription":"@u1"},"type":"success"}
«64 input types log @c1 info ‹100000 x›
input hears ok
»input types send 1 x
input hears no effect: the connection is not open
quick begins @s2
quick is served
slow leaves"#;

#[test]
fn texts_that_wait_for_lines_have_a_bound_in_all(rt: HostRuntime) -> Result<(), Fail> {
    let manners = Manners {
        most_held: 300_000,
        ..TYPING
    };
    check_scene(&rt, manners, "", TYPED_WAITING)
}

const SLOW: &str = r#"page opens /page
page says value {"text":"long","returns":{"type":"string","value":"‹100000 x›"}}
page hears ok
slow begins @s1
quick begins @s2
slow says {"id":1,"method":"script.evaluate","params":{"awaitPromise":false,"expression":"long","target":{"context":"@c1"}}}
quick is served
slow hears {"id":1,"result":{"realm":"@r1","result":{"type":"string","value":"‹100000 x›"},"type":"success"},"type":"success"}
«45 slow says {"id":2,"method":"script.evaluate","params":{"awaitPromise":false,"expression":"long","target":{"context":"@c1"}}}
»quick is served
quick is served
slow is closed 1013
quick is served
record ends > 2 STATUS"#;

#[test]
fn a_slow_reader_stops_nobody(rt: HostRuntime) -> Result<(), Fail> {
    let manners = Manners {
        most_waiting: 300_000,
        ..PLAIN
    };
    check_scene(&rt, manners, "", SLOW)
}

const KEPT: &str = r#"1 begins @s1
1 leaves
record ends drop 1
2 opens /session/@s1
2 is served"#;

#[test]
fn a_session_outlives_its_connections(rt: HostRuntime) -> Result<(), Fail> {
    check_scene(&rt, PLAIN, "", KEPT)
}

const ENDED: &str = r#"«1 to 8 # begins @s#
»9 opens /session
9 says STATUS
9 hears {"id":1,"result":{"message":"full","ready":false},"type":"success"}
«1 to 8 # leaves
»host rests
9 is served
10 is denied 404 /session/@s1
11 begins @s9
12 opens /session/@s9
11 leaves
host rests
13 opens /session/@s9
12 leaves
host rests
13 is served
14 opens /session/@s9
14 leaves
13 sends 81 02 7b 7d
13 is closed 1002
host rests
15 is denied 404 /session/@s9
9 says {"id":7,"method":"session.new","params":{"capabilities":{}}}
9 hears {"id":7,"result":{"capabilities":CAPABILITIES,"sessionId":"00000000-0001-8000-8000-00000000000a"},"type":"success"}
16 opens /session/00000000-0001-8000-8000-00000000000a
16 says {"id":8,"method":"session.end","params":{}}
16 hears {"id":8,"result":{},"type":"success"}
16 is closed 1000
9 is closed 1000
17 opens /session
17 is served"#;

#[test]
fn a_session_ends_with_its_last_connection(rt: HostRuntime) -> Result<(), Fail> {
    let manners = Manners {
        ends_sessions: true,
        ..PLAIN
    };
    check_scene(&rt, manners, "", ENDED)
}

const TYPED: &str = r#"1 begins @s1
1 says {"id":1,"method":"session.subscribe","params":{"events":["log.entryAdded"]}}
1 hears {"id":1,"result":{"subscription":"@u1"},"type":"success"}
input types log @c1 info x
input hears ok
1 has {"method":"log.entryAdded","params":{"args":[{"type":"string","value":"x"}],"level":"info","method":"info","source":{"context":"@c1","realm":"@r1"},"text":"x","timestamp":0,"type":"console"},"type":"event"}
record ends log @c1 info x
input types unframe @c9
input types open 1 /session
input types
input types at 5
input hears no effect: unknown context
input hears no line of a page: "open" is none of at, frame, unframe, log, value, answer, hold, release, unanswer, emit, on, names, send, bytes, raw, stall, resume, cut, close, refuse, reset and end
input hears no line of a page: "" is none of at, frame, unframe, log, value, answer, hold, release, unanswer, emit, on, names, send, bytes, raw, stall, resume, cut, close, refuse, reset and end
input hears ok
page opens /page
input types reset
input hears ok
1 is closed 1001
1 begins @s1
page says at 6
page hears ok
1 is served
input closes
1 is closed 1001
page is closed 1001
host ends"#;

#[test]
fn lines_come_by_standard_input(rt: HostRuntime) -> Result<(), Fail> {
    check_scene(&rt, TYPING, "", TYPED)
}

const TYPED_END: &str = r#"1 begins @s1
input types at 5
input types end
input hears ok
input hears ok
1 is closed 1001
host ends"#;

#[test]
fn an_end_comes_by_standard_input(rt: HostRuntime) -> Result<(), Fail> {
    check_scene(&rt, TYPING, "", TYPED_END)
}

const FEEDS: &str = r#"1 opens /session
1 says {\n"id":1,\n "method":"session.status",\n "params":{}}
1 hears READY
record ends > 1 {\r"id":1,\r "method":"session.status",\r "params":{}}
1 says {\n"id":2
1 hears REFUSED
record ends > 1 {\r"id":2
1 says {"id":3,\n"method":"none","params":{}}
1 hears {"error":"unknown command","id":3,"message":"unknown command","type":"error"}
1 says {"id":4,\n"method":"session.status"}
1 hears {"error":"invalid argument","id":4,"message":"invalid argument","type":"error"}
1 says {"id":5,\n"method":"session.subscribe","params":{"events":["log.entryAdded"]}}
1 hears {"error":"invalid session id","id":5,"message":"invalid session id","type":"error"}
1 says ‹2097200 x›
1 hears REFUSED
record ends > 1 {
1 is served"#;

#[test]
fn a_text_with_line_feeds_is_recorded_as_one_without(rt: HostRuntime) -> Result<(), Fail> {
    check_scene(&rt, PLAIN, "", FEEDS)
}
