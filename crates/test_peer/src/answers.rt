//! The answers to requests that are not opened.

use super::wires::{Script, Wire, number_of};
use bidi_peer::{Came, Peer, RequestRefusal};
use std::alloc::Global;
use std::cell::RefCell;
use std::test::Fail;
use testing::rows::{Asked, check_rows};

/// The lines of a head, with `;` between; found is the status of the answer with the first words of its line of text. A
/// request that asks for a connection is refused as its word says.
struct Answers;

impl Asked for Answers {
    fn found(alloc: Global, word: &str, lines: &str) -> Result<String, Fail> {
        let long = spelled(alloc, lines, "LONG", "x", number_of(word, "long")?)?;
        let written = answered(alloc, word, long.as_str())?;
        told(alloc, str::from_utf8(&written)?)
    }
}

/// The same lines, where `FIELDS` stands for as many header fields as the word says; found is the line of text.
struct Lines;

impl Asked for Lines {
    fn found(alloc: Global, word: &str, lines: &str) -> Result<String, Fail> {
        let long = spelled(alloc, lines, ";FIELDS", ";A: b", number_of(word, "fields")?)?;
        let written = answered(alloc, word, long.as_str())?;
        let (_, body) = str::from_utf8(&written)?
            .split_once("\r\n\r\n")
            .ok_or("no head")?;
        let line = body.strip_suffix("\n").ok_or("no line")?;
        Ok(String::from_str(alloc, line)?)
    }
}

const LINES: &str = "
a status | whole GET /status HTTP/1.1 -> {\"value\":{\"ready\":true,\"message\":\"ready\"}}
by an old HTTP | whole GET /status HTTP/1.0 -> {\"value\":{\"ready\":true,\"message\":\"ready\"}}
no request | whole hello -> bad request: not an HTTP/1.x request with a head of at most 65536 bytes
124 fields | whole+fields124 GET /status HTTP/1.1;FIELDS -> {\"value\":{\"ready\":true,\"message\":\"ready\"}}
125 fields | whole+fields125 GET /status HTTP/1.1;FIELDS -> bad request: a head has at most 124 header fields
125 fields, in single bytes | ones+fields125 GET /status HTTP/1.1;FIELDS -> bad request: a head has at most 124 header fields
no length | whole POST /session HTTP/1.1 -> length required: a POST needs a Content-Length, or chunks
too long | whole POST /session HTTP/1.1;Content-Length: 65537 -> content too large: a body has at most 65536 bytes
no number | whole POST /session HTTP/1.1;Content-Length: 1x -> bad request: a body needs one Content-Length, or chunks as in HTTP/1.1
another host | whole GET /status HTTP/1.1;Origin: http://a.test -> forbidden: an Origin must be http(s)://127.0.0.1 or http(s)://localhost, with any port
no upgrade | whole GET /session HTTP/1.1 -> upgrade required: connect by WebSocket, version 13
no key | whole GET /session HTTP/1.1;UPGRADE;Sec-WebSocket-Version: 13 -> bad request: Sec-WebSocket-Key must be 16 bytes in base64
";

#[test]
fn an_answer_says_what_is_wrong(rt: HostRuntime) -> Result<(), Fail> {
    check_rows::<Lines>(rt.alloc(), LINES)
}

/// What a head has for an upgrade, but its version and its key.
const UPGRADE: &str = "Upgrade: websocket;Connection: keep-alive, Upgrade";

/// The version and the key of an upgrade.
const KEY: &str = "Sec-WebSocket-Version: 13;Sec-WebSocket-Key: dGhlIHNhbXBsZSBub25jZQ==";

const STATUS: &str = "
whole,ones GET /status HTTP/1.1;Host: 127.0.0.1 -> 200 OK, {\"value\"
whole GET /status HTTP/1.0 -> 200 OK, {\"value\"
as long as may be | whole+long65507 GET /status HTTP/1.1;A: LONG -> 200 OK, {\"value\"
one byte longer | whole+long65508 GET /status HTTP/1.1;A: LONG -> 400 Bad Request, bad request
in absolute form | whole GET http://127.0.0.1:9222/status HTTP/1.1 -> 200 OK, {\"value\"
in absolute form | whole GET HTTP://localhost/status HTTP/1.1 -> 200 OK, {\"value\"
with an upgrade | missing GET /status HTTP/1.1;UPGRADE;KEY -> 404 Not Found, no such resource
";

#[test]
fn a_status_is_ready(rt: HostRuntime) -> Result<(), Fail> {
    check_rows::<Answers>(rt.alloc(), STATUS)
}

const ORIGINS: &str = "
whole GET /status HTTP/1.1;Origin: http://127.0.0.1 -> 200 OK, {\"value\"
whole GET /status HTTP/1.1;origin: https://localhost:3000 -> 200 OK, {\"value\"
whole GET /status HTTP/1.1;Origin: https://a.test -> 403 Forbidden, forbidden
whole GET /status HTTP/1.1;Origin: null -> 403 Forbidden, forbidden
whole GET /status HTTP/1.1;Origin: -> 403 Forbidden, forbidden
whole GET /status HTTP/1.1;Origin: http://localhost: -> 403 Forbidden, forbidden
whole GET /status HTTP/1.1;Origin: http://localhost:80a -> 403 Forbidden, forbidden
whole GET /status HTTP/1.1;Origin: http://localhost.a.test -> 403 Forbidden, forbidden
whole GET /status HTTP/1.1;Origin: ftp://localhost -> 403 Forbidden, forbidden
whole GET /status HTTP/1.1;Origin: http://localhost;Origin: http://a.test -> 403 Forbidden, forbidden
full GET /session HTTP/1.1;Origin: http://localhost:80;UPGRADE;KEY -> 503 Service Unavailable, too many connections
full GET /session HTTP/1.1;Origin: http://a.test;UPGRADE;KEY -> 403 Forbidden, forbidden
";

#[test]
fn a_page_of_another_host_is_forbidden(rt: HostRuntime) -> Result<(), Fail> {
    check_rows::<Answers>(rt.alloc(), ORIGINS)
}

const UPGRADES: &str = "
missing GET /x HTTP/1.1;UPGRADE;KEY -> 404 Not Found, no such resource
full GET /session HTTP/1.1;UPGRADE;KEY -> 503 Service Unavailable, too many connections
in other letters | full GET /session HTTP/1.1;upgrade: h2c, WebSocket;connection: keep-alive;connection: upgrade;KEY -> 503 Service Unavailable, too many connections
none | whole,ones GET /session HTTP/1.1;Host: x -> 426 Upgrade Required, upgrade required
to something else | whole GET /session HTTP/1.1;Upgrade: h2c;Connection: Upgrade;KEY -> 426 Upgrade Required, upgrade required
no connection | whole GET /session HTTP/1.1;Upgrade: websocket;KEY -> 426 Upgrade Required, upgrade required
no upgrade | whole GET /session HTTP/1.1;Connection: Upgrade;KEY -> 426 Upgrade Required, upgrade required
an old HTTP | whole GET /session HTTP/1.0;UPGRADE;KEY -> 426 Upgrade Required, upgrade required
another version | whole GET /session HTTP/1.1;UPGRADE;Sec-WebSocket-Version: 8;KEY -> 426 Upgrade Required, upgrade required
no version | whole GET /session HTTP/1.1;UPGRADE;Sec-WebSocket-Key: dGhlIHNhbXBsZSBub25jZQ== -> 426 Upgrade Required, upgrade required
no key | whole GET /session HTTP/1.1;UPGRADE;Sec-WebSocket-Version: 13 -> 400 Bad Request, bad request
a key that is too short | whole GET /session HTTP/1.1;UPGRADE;Sec-WebSocket-Version: 13;Sec-WebSocket-Key: dGhlIHNhbXBsZSBub25j -> 400 Bad Request, bad request
another method | whole POST /session HTTP/1.1;UPGRADE;KEY -> 411 Length Required, length required
a page | whole GET /page HTTP/1.1 -> 426 Upgrade Required, upgrade required
a session | whole GET /session/a HTTP/1.1 -> 426 Upgrade Required, upgrade required
in absolute form | whole GET http://127.0.0.1/session HTTP/1.1 -> 426 Upgrade Required, upgrade required
no request | whole hello -> 400 Bad Request, bad request
TLS | whole \x16\x03\x01 -> 400 Bad Request, bad request
";

#[test]
fn an_upgrade_that_is_refused_is_told_why(rt: HostRuntime) -> Result<(), Fail> {
    check_rows::<Answers>(rt.alloc(), UPGRADES)
}

const REFUSED: &str = "
by a test | status429 GET /session HTTP/1.1;UPGRADE;KEY -> 429 Refused, refused by a test
after what is wrong | status429 GET /session HTTP/1.1;Origin: http://a.test;UPGRADE;KEY -> 403 Forbidden, forbidden
";

#[test]
fn a_test_refuses_a_handshake(rt: HostRuntime) -> Result<(), Fail> {
    check_rows::<Answers>(rt.alloc(), REFUSED)
}

/// The lines, where a word stands for so many of a part.
fn spelled(
    alloc: Global,
    lines: &str,
    word: &str,
    part: &str,
    count: Option<usize>,
) -> Result<String, Fail> {
    let parts = part.repeat(alloc, count.unwrap_or(0))?;
    Ok(lines.replace(alloc, word, parts.as_str())?)
}

/// The head of these lines.
fn head_of(alloc: Global, lines: &str) -> Result<String, Fail> {
    let lines = lines.replace(alloc, "UPGRADE", UPGRADE)?;
    let lines = lines.replace(alloc, "KEY", KEY)?;
    let lines = lines.replace(alloc, ";", "\r\n")?;
    Ok(format!(in alloc; "{lines}\r\n\r\n")?)
}

/// What is written to a client that asks by these lines.
fn answered(alloc: Global, word: &str, lines: &str) -> Result<Vec<u8>, Fail> {
    let script = script_of(alloc, word, lines)?;
    let written = RefCell::new(Vec::new(alloc));
    answer(alloc, word, &script, &written)?;
    Ok(written.into_inner())
}

/// The script of a client that asks by these lines.
fn script_of(alloc: Global, word: &str, lines: &str) -> Result<Script, Fail> {
    let mut pieces = Vec::new(alloc);
    pieces.push(head_of(alloc, lines)?.into_bytes())?;
    Script::new(alloc, word, pieces)
}

/// Answers the client of a script, until the connection is over.
fn answer(
    alloc: Global,
    word: &str,
    script: &Script,
    written: &RefCell<Vec<u8>>,
) -> Result<(), Fail> {
    let wire = Wire::new(alloc, word, script, written)?;
    let mut peer = Peer::new(alloc, wire);
    answer_peer(&mut peer, refusal_of(word)?)
}

/// How a word has a connection refused.
fn refusal_of(word: &str) -> Result<RequestRefusal, Fail> {
    if let Some(status) = word.strip_prefix("status") {
        return Ok(RequestRefusal::OfTest(status.parse::<u16>()?));
    }
    if word == "full" {
        Ok(RequestRefusal::Full)
    } else {
        Ok(RequestRefusal::NotFound)
    }
}

/// Takes until the connection is over, and refuses it where it asks.
fn answer_peer(peer: &mut Peer<Wire<'_>>, refusal: RequestRefusal) -> Result<(), Fail> {
    for _ in 0..10_000u32 {
        if is_told(peer.take()?) {
            peer.refuse(refusal)?;
            break;
        }
    }
    if peer.is_over() {
        Ok(())
    } else {
        Err(Fail::from("it is not over"))
    }
}

/// Whether something came.
fn is_told(came: Came) -> bool {
    !matches!(&came, Came::Nothing)
}

/// The status of an answer, and the first words of its text.
fn told(alloc: Global, answer: &str) -> Result<String, Fail> {
    let (head, body) = answer.split_once("\r\n\r\n").ok_or("no head")?;
    let (status, fields) = head.split_once("\r\n").ok_or("no fields")?;
    has_length(alloc, fields, body)?;
    has_fields(status, fields)?;
    let status = status.strip_prefix("HTTP/1.1 ").ok_or("no HTTP")?;
    let line = body.strip_suffix("\n").ok_or("no line")?;
    let (words, _) = line.split_once(':').unwrap_or((line, ""));
    Ok(format!(in alloc; "{status}, {words}")?)
}

/// That one of the fields says how long the body is.
fn has_length(alloc: Global, fields: &str, body: &str) -> Result<(), Fail> {
    let length = format!(in alloc; "Content-Length: {}", body.len())?;
    has_field(fields, length.as_str())
}

/// That an answer of this status has the other fields that it has to have.
fn has_fields(status: &str, fields: &str) -> Result<(), Fail> {
    has_field(fields, "Connection: close")?;
    if status.contains("200") {
        has_field(fields, "Content-Type: application/json; charset=utf-8")?;
        has_field(fields, "Cache-Control: no-cache")?;
    } else {
        has_field(fields, "Content-Type: text/plain; charset=utf-8")?;
    }
    if status.contains("426") {
        has_field(fields, "Upgrade: websocket")?;
        has_field(fields, "Sec-WebSocket-Version: 13")?;
    }
    Ok(())
}

fn has_field(fields: &str, field: &str) -> Result<(), Fail> {
    if fields.split("\r\n").any(|line| line == field) {
        Ok(())
    } else {
        Err(Fail::new(format_args!("no {field}")))
    }
}
