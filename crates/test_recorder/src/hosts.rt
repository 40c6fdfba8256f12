//! A host call by call: the line that says each input, and what is sent.
use bidi_recorder::{Host, HostFault, Recorded};
use bidi_remote::Sent;
use bidi_script_lines::Outcome;
use bidi_tree::JsUint;
use std::alloc::{AllocError, Global};
use std::test::Fail;

/// Calls in order, and what each gives: its line, and behind `, ` each thing that is sent. In a text `\n` stands for a line feed,
/// `\r` for a carriage return, and `LONG` for 2,097,152 letters.
const CALLS: &str = r#"is_open 1 -> no
heard 1 STATUS -> > 1 STATUS, lost 1
opened 1 /session -> open 1 /session, opened 1
is_open 1 -> yes
opened 1 /session -> open 1 /session, denied 1
opened 2 /nowhere -> open 2 /nowhere, denied 2
is_open 2 -> no
opened 2  -> open 2 , denied 2
opened 2 /a\nb -> a text cannot be recorded
opened 2 LONG -> a text cannot be recorded
heard 1 STATUS -> > 1 STATUS, < 1 READY
heard 1 {\n"params":{},\n"method":"session.status",\n"id":1} -> > 1 {\r"params":{},\r"method":"session.status",\r"id":1}, < 1 READY
heard 1 nonsense -> > 1 nonsense, < 1 REFUSED
heard 1 nonsense\n -> > 1 nonsense\r, < 1 REFUSED
heard 1 {"id":7,"method":"none\n"} -> > 1 {"id":7,"method":"none\r"}, < 1 REFUSED
heard 1 {"method":"none"\n} -> > 1 {"method":"none"\r}, < 1 {"error":"unknown command","id":null,"message":"unknown command","type":"error"}
heard 1 {"id":7,\n"method":"none"} -> > 1 {"id":7,\r"method":"none"}, < 1 {"error":"unknown command","id":7,"message":"unknown command","type":"error"}
heard 1 {"id":7,"method":\n"session.status"} -> > 1 {"id":7,"method":\r"session.status"}, < 1 {"error":"invalid argument","id":7,"message":"invalid argument","type":"error"}
heard 1 LONG -> > 1 {, < 1 REFUSED
heard_no_text 1 -> binary 1, < 1 REFUSED
heard_no_text 3 -> binary 3, lost 3
page_line at 5 -> at 5
page_line frame C1 about:blank -> frame C1 about:blank
page_line unframe C2 -> unframe C2
page_line unframe C2 -> unframe C2, no effect
page_line log C1 info x -> log C1 info x
page_line log C2 info x -> log C2 info x, no effect
page_line value {"text":"x","argument":0} -> value {"text":"x","argument":0}
page_line value {} -> value {}, no effect
page_line hold {"method":"session.status","times":1} -> hold {"method":"session.status","times":1}
heard 1 STATUS -> > 1 STATUS, held 1
page_line release 1 -> release 1, < 1 READY
page_line release 1 -> release 1, no effect: no command of this number is held
page_line answer {"method":"session.status","result":{},"times":1} -> answer {"method":"session.status","result":{},"times":1}
heard 1 STATUS -> > 1 STATUS, < 1 {"id":1,"result":{},"type":"success"}
page_line answer {"method":"session.status","result":{},"times":1} -> answer {"method":"session.status","result":{},"times":1}
heard 1 {"id":1,\n"method":"session.status","params":{}} -> > 1 {"id":1,\r"method":"session.status","params":{}}, < 1 {"id":1,"result":{},"type":"success"}
page_line send 1 x -> send 1 x, < 1 x
page_line send 7 x -> send 7 x, no effect: the connection is not open
page_line bytes 1 0aF -> bytes 1 0aF, no effect: the bytes are not pairs of hexadecimal digits
page_line bytes 1 00aF -> bytes 1 00aF, bytes 1 00aF
page_line raw 1 B1f -> raw 1 B1f, no effect: the bytes are not pairs of hexadecimal digits
page_line raw 7 B1 -> raw 7 B1, no effect: the connection is not open
page_line raw 1 B1ff -> raw 1 B1ff, raw 1 B1ff
page_line raw 1 -> no line of a page
page_line stall 1 -> stall 1, stall 1
page_line stall 7 -> stall 7, no effect: the connection is not open
page_line resume 1 -> resume 1, resume 1
page_line resume 7 -> resume 7, no effect: the connection is not open
page_line stall 1 2 -> no line of a page
page_line close 1 999 -> close 1 999, no effect: no close code that a server may send
page_line cut 1 0 -> cut 1 0, cut 1 0
page_line cut 7 3 -> cut 7 3, no effect: the connection is not open
page_line cut 1 x -> no line of a page
page_line cut 1 2 3 -> no line of a page
is_open 1 -> yes
page_line refuse 1 503 -> refuse 1 503, refuse 1 503
page_line refuse 0 400 -> refuse 0 400, refuse 0 400
page_line refuse 1000000 599 -> refuse 1000000 599, refuse 1000000 599
page_line refuse 1000001 503 -> refuse 1000001 503, no effect: no status from 400 to 599, or more than 1000000 handshakes
page_line refuse 1 399 -> refuse 1 399, no effect: no status from 400 to 599, or more than 1000000 handshakes
page_line refuse 1 600 -> refuse 1 600, no effect: no status from 400 to 599, or more than 1000000 handshakes
page_line refuse 1 -> no line of a page
page_line release x -> no line of a page
page_line  -> no line of a page
page_line at 05 -> no line of a page
page_line at 5\n -> no line of a page
page_line open 3 /session -> no line of a page
page_line > 1 STATUS -> no line of a page
page_line drop 1 -> no line of a page
page_line binary 1 -> no line of a page
page_line log C1 info LONG -> no line of a page
dropped 1 -> drop 1
dropped 1 -> drop 1, lost 1
is_open 1 -> no
opened 1 /session -> open 1 /session, opened 1
reset -> done
is_open 1 -> no
page_line unframe C2 -> unframe C2, no effect
opened 1 /session -> open 1 /session, opened 1
heard 1 NEW -> > 1 NEW, < 1 MADE
heard 1 {"id":2,"method":"session.end","params":{}} -> > 1 {"id":2,"method":"session.end","params":{}}, < 1 {"id":2,"result":{},"type":"success"}, close 1
is_open 1 -> no"#;

/// What words of the table stand for.
const WORDS: [(&str, &str); 8] = [
    (r"\r", "\r"),
    (
        "STATUS",
        r#"{"id":1,"method":"session.status","params":{}}"#,
    ),
    (
        "READY",
        r#"{"id":1,"result":{"message":"ready","ready":true},"type":"success"}"#,
    ),
    (
        "REFUSED",
        r#"{"error":"invalid argument","id":null,"message":"invalid argument","type":"error"}"#,
    ),
    (
        "NEW",
        r#"{"id":0,"method":"session.new","params":{"capabilities":{}}}"#,
    ),
    (
        "MADE",
        r#"{"id":0,"result":{"capabilities":{"acceptInsecureCerts":false,"browserName":"memory-browser","browserVersion":"1.0","platformName":"none","setWindowRect":false,"userAgent":"memory-browser/1.0"},"sessionId":"00000000-0001-8000-8000-000000000001"},"type":"success"}"#,
    ),
    ("C1", "00000000-0002-8000-8000-000000000001"),
    ("C2", "00000000-0002-8000-8000-000000000002"),
];

#[test]
fn each_input_is_a_line(rt: HostRuntime) -> Result<(), Fail> {
    check_calls(rt.alloc(), Host::new(rt.alloc())?)
}

/// Calls a host.
fn check_calls(alloc: Global, host: Host) -> Result<(), Fail> {
    let mut host = host;
    let found = check_all(alloc, &mut host);
    drop(host);
    found
}

/// Checks each row in order.
fn check_all(alloc: Global, host: &mut Host) -> Result<(), Fail> {
    for row in CALLS.lines() {
        let row = spelled_out(alloc, row)?;
        let (call, wanted) = row.as_str().split_once(" -> ").ok_or("a row")?;
        let found = found_by(alloc, host, call)?;
        if found.as_str() != wanted {
            return Err(Fail::new(format_args!("{call} gives {found}")));
        }
    }
    Ok(())
}

/// A row with what its words stand for.
fn spelled_out(alloc: Global, row: &str) -> Result<String, AllocError> {
    let mut row = String::from_str(alloc, row)?;
    for (word, text) in WORDS {
        row = row.replace(alloc, word, text)?;
    }
    Ok(row)
}

/// What a call gives.
fn found_by(alloc: Global, host: &mut Host, call: &str) -> Result<String, Fail> {
    let (name, rest) = call.split_once(' ').unwrap_or((call, ""));
    let text = argument_of(alloc, rest)?;
    match name {
        "is_open" => Ok(String::from_str(alloc, is_open(host, text.as_str())?)?),
        "reset" => {
            host.reset()?;
            Ok(String::from_str(alloc, "done")?)
        }
        "page_line" => match host.page_line(text.as_str())? {
            Some(taken) => Ok(told(alloc, taken)?),
            None => Ok(String::from_str(alloc, "no line of a page")?),
        },
        _ => {
            let taken = taken_by(alloc, host, name, text.as_str())?;
            outcome_of(alloc, taken)
        }
    }
}

/// The arguments of a call, where `\n` stands for a line feed, and `LONG` for a long text.
fn argument_of(alloc: Global, text: &str) -> Result<String, AllocError> {
    let text = text.replace(alloc, "\\n", "\n")?;
    if !text.as_str().contains("LONG") {
        return Ok(text);
    }
    let long = "x".repeat(alloc, 2_097_152)?;
    text.replace(alloc, "LONG", long.as_str())
}

/// Whether a connection is open.
fn is_open(host: &Host, number: &str) -> Result<&'static str, Fail> {
    if host.is_open(conn_of(number)?) {
        Ok("yes")
    } else {
        Ok("no")
    }
}

/// The connection of a number.
fn conn_of(number: &str) -> Result<JsUint, Fail> {
    match JsUint::new(number.parse::<u64>()?) {
        Some(conn) => Ok(conn),
        None => Err(Fail::from("no number of a connection")),
    }
}

/// What an input of a connection comes to.
fn taken_by(
    alloc: Global,
    host: &mut Host,
    name: &str,
    text: &str,
) -> Result<Result<Recorded, HostFault>, Fail> {
    let (number, text) = text.split_once(' ').unwrap_or((text, ""));
    let conn = conn_of(number)?;
    match name {
        "opened" => Ok(host.opened(conn, text)),
        "heard" => Ok(host.heard(conn, String::from_str(alloc, text)?)),
        "heard_no_text" => Ok(host.heard_no_text(conn)),
        "dropped" => Ok(host.dropped(conn)),
        _ => Err(Fail::from("no call")),
    }
}

/// What an input came to, as the table tells it.
fn outcome_of(alloc: Global, taken: Result<Recorded, HostFault>) -> Result<String, Fail> {
    match taken {
        Ok(taken) => Ok(told(alloc, taken)?),
        Err(fault) => Ok(format!(in alloc; "{fault}")?),
    }
}

/// The line that was taken, and what is sent.
fn told(alloc: Global, taken: Recorded) -> Result<String, AllocError> {
    let Recorded { line, outcome } = taken;
    match outcome {
        Outcome::OfMachine(sent) | Outcome::Sent(sent) => told_sent(alloc, line, sent),
        Outcome::Held(number) => format!(in alloc; "{line}, held {number}"),
        Outcome::Bytes(conn, digits) => format!(in alloc; "{line}, bytes {} {digits}", conn.value),
        Outcome::Raw(conn, digits) => format!(in alloc; "{line}, raw {} {digits}", conn.value),
        Outcome::Stalled(conn) => format!(in alloc; "{line}, stall {}", conn.value),
        Outcome::Resumed(conn) => format!(in alloc; "{line}, resume {}", conn.value),
        Outcome::Cut(conn) => format!(in alloc; "{line}, cut {}", conn.value),
        Outcome::CutAfter(conn, bytes) => {
            format!(in alloc; "{line}, cut {} {}", conn.value, bytes.value)
        }
        Outcome::Closed(conn, code) => format!(in alloc; "{line}, close {} {code}", conn.value),
        Outcome::Refusing(count, status) => {
            format!(in alloc; "{line}, refuse {} {status}", count.value)
        }
        Outcome::NoEffect(reason) => format!(in alloc; "{line}, no effect: {reason}"),
    }
}

/// The line, and each thing that is sent.
fn told_sent(alloc: Global, line: String, sent: Vec<Sent>) -> Result<String, AllocError> {
    let mut told = line;
    for one in sent {
        told.push_str(", ")?;
        told.push_str(sent_text(alloc, one)?.as_str())?;
    }
    Ok(told)
}

/// One thing that is sent.
fn sent_text(alloc: Global, sent: Sent) -> Result<String, AllocError> {
    match sent {
        Sent::Text(conn, text) => format!(in alloc; "< {} {}", conn.value, text.as_str()),
        Sent::Close(conn) => format!(in alloc; "close {}", conn.value),
        Sent::Opened(conn) => format!(in alloc; "opened {}", conn.value),
        Sent::Denied(conn) => format!(in alloc; "denied {}", conn.value),
        Sent::Lost(conn) => format!(in alloc; "lost {}", conn.value),
        Sent::NoEffect => String::from_str(alloc, "no effect"),
    }
}
