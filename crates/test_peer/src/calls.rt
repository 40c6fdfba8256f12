//! Calls over HTTP: what is reported, and what is written.

use super::wires::{Script, Wire};
use bidi_peer::{AllowedMethods, Call, Came, Peer, ReplyStatus};
use std::alloc::Global;
use std::cell::RefCell;
use std::test::Fail;
use testing::rows::{Asked, check_rows};

/// What a client writes, with `~` for each line end; found is the call, or the status of the answer. The word says in which
/// pieces it comes.
struct Calls;

impl Asked for Calls {
    fn found(alloc: Global, word: &str, text: &str) -> Result<String, Fail> {
        let text = text.replace(alloc, "~", "\r\n")?;
        let mut pieces = Vec::new(alloc);
        pieces.push(text.into_bytes())?;
        let script = Script::new(alloc, word, pieces)?;
        let written = RefCell::new(Vec::new(alloc));
        let wire = Wire::new(alloc, word, &script, &written)?;
        let told = told_by(alloc, Peer::new(alloc, wire))?;
        let written = written.into_inner();
        let (answer, _) = str::from_utf8(&written)?
            .split_once("\r\n")
            .unwrap_or(("nothing", ""));
        Ok(format!(in alloc; "{told}{answer}")?)
    }
}

/// What a connection reports, which replies to each call, and is taken from until it is over or nothing more comes.
fn told_by(alloc: Global, mut peer: Peer<Wire<'_>>) -> Result<String, Fail> {
    let mut told = String::new(alloc);
    for _ in 0..2_000u32 {
        push_next(&mut told, &mut peer)?;
    }
    if !peer.is_over() {
        told.push_str("waits, ")?;
    }
    Ok(told)
}

/// What comes next, which is replied to where it is a call.
fn push_next(told: &mut String, peer: &mut Peer<Wire<'_>>) -> Result<(), Fail> {
    match peer.take()? {
        Came::Calls(call) => {
            push_call(told, &call)?;
            peer.reply(ReplyStatus::Done, "[]")?;
        }
        Came::Ended => told.push_str("ends, ")?,
        Came::Asks(_) => told.push_str("asks, ")?,
        _ => {}
    }
    Ok(())
}

/// A call, with its body.
fn push_call(told: &mut String, call: &Call) -> Result<(), Fail> {
    let body = str::from_utf8(&call.body)?;
    Ok(write!(told, "{:?} {} [{body}], ", call.method, call.resource)?)
}

const SIZED: &str = "
whole,ones POST /session HTTP/1.1~Host: x~Content-Length: 2~~{} -> Post /session [{}], HTTP/1.1 200 OK
whole POST /session HTTP/1.0~Content-Length: 2~~{} -> Post /session [{}], HTTP/1.1 200 OK
with zeros | whole POST /session HTTP/1.1~Content-Length: 0002~~{} -> Post /session [{}], HTTP/1.1 200 OK
empty | whole POST /session HTTP/1.1~content-length: 0~~ -> Post /session [], HTTP/1.1 200 OK
no body | whole DELETE /session/a HTTP/1.1~~ -> Delete /session/a [], HTTP/1.1 200 OK
no body | whole GET /session/a/url HTTP/1.1~~ -> Get /session/a/url [], HTTP/1.1 200 OK
another method | whole PUT /status HTTP/1.1~~ -> Other /status [], HTTP/1.1 200 OK
by an old HTTP | whole GET /x HTTP/1.0~~ -> Get /x [], HTTP/1.1 200 OK
in absolute form | whole POST http://127.0.0.1:1/session HTTP/1.1~Content-Length: 2~~{} -> Post /session [{}], HTTP/1.1 200 OK
in absolute form | whole DELETE hTTp://a.test/session/a?b/c HTTP/1.1~~ -> Delete /session/a?b/c [], HTTP/1.1 200 OK
no path | whole DELETE http://a.test?b=/session HTTP/1.1~~ -> Delete ?b=/session [], HTTP/1.1 200 OK
two in one packet | whole DELETE /a HTTP/1.1~~DELETE /b HTTP/1.1~~ -> Delete /a [], HTTP/1.1 200 OK
two in one packet | whole POST /a HTTP/1.1~Content-Length: 1~~{POST /b HTTP/1.1~Content-Length: 1~~} -> Post /a [{], HTTP/1.1 200 OK
cut | whole POST /session HTTP/1.1~Content-Length: 3~~{} -> waits, nothing
cut | whole+ends,ones+ends POST /session HTTP/1.1~Content-Length: 3~~{} -> ends, nothing
as long as may be | whole POST /a HTTP/1.1~Content-Length: 65536~~ -> waits, nothing
one byte longer | whole POST /a HTTP/1.1~Content-Length: 65537~~ -> ends, HTTP/1.1 413 Content Too Large
much longer | whole POST /a HTTP/1.1~Content-Length: 99999999999999999999999999~~ -> ends, HTTP/1.1 413 Content Too Large
no length | whole POST /session HTTP/1.1~~{} -> ends, HTTP/1.1 411 Length Required
no number | whole POST /session HTTP/1.1~Content-Length: +2~~{} -> ends, HTTP/1.1 400 Bad Request
no number | whole POST /session HTTP/1.1~Content-Length: ~~{} -> ends, HTTP/1.1 400 Bad Request
two lengths | whole POST /session HTTP/1.1~Content-Length: 2~Content-Length: 2~~{} -> ends, HTTP/1.1 400 Bad Request
from another host | whole POST /session HTTP/1.1~Origin: http://a.test~Content-Length: 2~~{} -> ends, HTTP/1.1 403 Forbidden
from another host | whole DELETE /session/a HTTP/1.1~Origin: null~~ -> ends, HTTP/1.1 403 Forbidden
from this machine | whole DELETE /session/a HTTP/1.1~Origin: http://localhost:8080~~ -> Delete /session/a [], HTTP/1.1 200 OK
";

#[test]
fn a_call_has_its_body(rt: HostRuntime) -> Result<(), Fail> {
    check_rows::<Calls>(rt.alloc(), SIZED)
}

const CHUNKS: &str = "
whole,ones POST /a HTTP/1.1~Transfer-Encoding: chunked~~2~{}~0~~ -> Post /a [{}], HTTP/1.1 200 OK
several | whole,ones POST /a HTTP/1.1~transfer-encoding: Chunked~~1~{~00a~0123456789~1~}~0~~ -> Post /a [{0123456789}], HTTP/1.1 200 OK
an extension | whole,ones POST /a HTTP/1.1~Transfer-Encoding: chunked~~2;a=b~{}~0;c~~ -> Post /a [{}], HTTP/1.1 200 OK
no extension | whole POST /a HTTP/1.1~Transfer-Encoding: chunked~~2 a=b~{}~0~~ -> ends, HTTP/1.1 400 Bad Request
with trailers | whole,ones POST /a HTTP/1.1~Transfer-Encoding: chunked~~2~{}~0~A: b~C: d~~ -> Post /a [{}], HTTP/1.1 200 OK
empty | whole POST /a HTTP/1.1~Transfer-Encoding: chunked~~0~~ -> Post /a [], HTTP/1.1 200 OK
two in one packet | whole POST /a HTTP/1.1~Transfer-Encoding: chunked~~2~{}~0~~DELETE /b HTTP/1.1~~ -> Post /a [{}], HTTP/1.1 200 OK
cut | whole+ends,ones+ends POST /a HTTP/1.1~Transfer-Encoding: chunked~~2~{}~0~ -> ends, nothing
cut in a chunk | whole POST /a HTTP/1.1~Transfer-Encoding: chunked~~3~{} -> waits, nothing
no size | whole POST /a HTTP/1.1~Transfer-Encoding: chunked~~x~{}~0~~ -> ends, HTTP/1.1 400 Bad Request
another size | whole POST /a HTTP/1.1~Transfer-Encoding: chunked~~1~{}~0~~ -> ends, HTTP/1.1 400 Bad Request
bad trailers | whole POST /a HTTP/1.1~Transfer-Encoding: chunked~~0~A b~~ -> ends, HTTP/1.1 400 Bad Request
too many trailers | whole POST /a HTTP/1.1~Transfer-Encoding: chunked~~0~«125 A: b~»~ -> ends, HTTP/1.1 400 Bad Request
as long as may be | whole POST /a HTTP/1.1~Transfer-Encoding: chunked~~10000~ -> waits, nothing
too long | whole POST /a HTTP/1.1~Transfer-Encoding: chunked~~10001~ -> ends, HTTP/1.1 413 Content Too Large
too long in all | whole POST /a HTTP/1.1~Transfer-Encoding: chunked~~2~{}~ffff~ -> ends, HTTP/1.1 413 Content Too Large
another coding | whole POST /a HTTP/1.1~Transfer-Encoding: gzip~~ -> ends, HTTP/1.1 400 Bad Request
two codings | whole POST /a HTTP/1.1~Transfer-Encoding: gzip, chunked~~0~~ -> ends, HTTP/1.1 400 Bad Request
by an old HTTP | whole POST /a HTTP/1.0~Transfer-Encoding: chunked~~0~~ -> ends, HTTP/1.1 400 Bad Request
with a length | whole POST /a HTTP/1.1~Transfer-Encoding: chunked~Content-Length: 2~~0~~ -> ends, HTTP/1.1 400 Bad Request
";

#[test]
fn a_body_comes_in_chunks(rt: HostRuntime) -> Result<(), Fail> {
    check_rows::<Calls>(rt.alloc(), CHUNKS)
}

/// The bytes behind the head of a call whose body comes in chunks.
struct Chunks;

impl Asked for Chunks {
    fn found(alloc: Global, word: &str, text: &str) -> Result<String, Fail> {
        let text = format!(in alloc; "POST /a HTTP/1.1~Transfer-Encoding: chunked~~{text}")?;
        Calls::found(alloc, word, text.as_str())
    }
}

const EXTENSIONS: &str = r##"
no value | whole,ones 2;a~{}~0~~ -> Post /a [{}], HTTP/1.1 200 OK
a token | whole,ones 2;a=b~{}~0;c=1~~ -> Post /a [{}], HTTP/1.1 200 OK
every sign of a token | whole 2;!#$%&'*+-.^_`|09azAZ=!#$%&'*+-.^_`|09azAZ~{}~0~~ -> Post /a [{}], HTTP/1.1 200 OK
a quoted string | whole,ones 2;a="b c"~{}~0~~ -> Post /a [{}], HTTP/1.1 200 OK
an empty string | whole 2;a=""~{}~0~~ -> Post /a [{}], HTTP/1.1 200 OK
other signs in a string | whole 2;a=";=,/[]é"~{}~0~~ -> Post /a [{}], HTTP/1.1 200 OK
quoted pairs | whole,ones 2;a="\"\\\b\ \é"~{}~0~~ -> Post /a [{}], HTTP/1.1 200 OK
several | whole,ones 2;a;b=c;d="e;f";g~{}~0~~ -> Post /a [{}], HTTP/1.1 200 OK
spaces | whole,ones 2 ; a = b ;c= "d" ; e~{}~0~~ -> Post /a [{}], HTTP/1.1 200 OK
of the last chunk | whole,ones 2~{}~0;a="b" ; c~~ -> Post /a [{}], HTTP/1.1 200 OK
no name | whole,ones 2;~{}~0~~ -> ends, HTTP/1.1 400 Bad Request
no name | whole 2; ~{}~0~~ -> ends, HTTP/1.1 400 Bad Request
no name | whole 2;=b~{}~0~~ -> ends, HTTP/1.1 400 Bad Request
no second name | whole 2;a;~{}~0~~ -> ends, HTTP/1.1 400 Bad Request
no second name | whole 2;a;;b~{}~0~~ -> ends, HTTP/1.1 400 Bad Request
no name in the last chunk | whole,ones 2~{}~0;~~ -> ends, HTTP/1.1 400 Bad Request
no value | whole 2;a=~{}~0~~ -> ends, HTTP/1.1 400 Bad Request
no value | whole 2;a=;b~{}~0~~ -> ends, HTTP/1.1 400 Bad Request
two values | whole 2;a=b=c~{}~0~~ -> ends, HTTP/1.1 400 Bad Request
an unfinished string | whole,ones 2;a="x~{}~0~~ -> ends, HTTP/1.1 400 Bad Request
an unfinished string | whole 2;a="x\"~{}~0~~ -> ends, HTTP/1.1 400 Bad Request
an unfinished pair | whole 2;a="x\~{}~0~~ -> ends, HTTP/1.1 400 Bad Request
more after a string | whole 2;a="x"y~{}~0~~ -> ends, HTTP/1.1 400 Bad Request
a string as name | whole 2;"a"~{}~0~~ -> ends, HTTP/1.1 400 Bad Request
no token as name | whole 2;a/b~{}~0~~ -> ends, HTTP/1.1 400 Bad Request
no token as value | whole 2;a=b/c~{}~0~~ -> ends, HTTP/1.1 400 Bad Request
a space in a name | whole 2;a b~{}~0~~ -> ends, HTTP/1.1 400 Bad Request
a space in a value | whole 2;a=b c~{}~0~~ -> ends, HTTP/1.1 400 Bad Request
a space in front of the line end | whole 2 ~{}~0~~ -> ends, HTTP/1.1 400 Bad Request
a space in front of the line end | whole 2;a=b ~{}~0~~ -> ends, HTTP/1.1 400 Bad Request
no size fits | whole 10001;~ -> ends, HTTP/1.1 400 Bad Request
the line is not whole | whole,ones 2;a="x -> waits, nothing
the line is not whole | whole,ones 2; -> waits, nothing
"##;

const CONTROLS: &str = "
tabs | whole,ones 2\t;\ta\t=\tb~{}~0~~ -> Post /a [{}], HTTP/1.1 200 OK
a tab in a string | whole 2;a=\"\t\\\t\"~{}~0~~ -> Post /a [{}], HTTP/1.1 200 OK
a control in a string | whole 2;a=\"\x7f\"~{}~0~~ -> ends, HTTP/1.1 400 Bad Request
a control in a string | whole 2;a=\"\x01\"~{}~0~~ -> ends, HTTP/1.1 400 Bad Request
a control in a pair | whole 2;a=\"\\\x7f\"~{}~0~~ -> ends, HTTP/1.1 400 Bad Request
a control in a name | whole 2;a\x01~{}~0~~ -> ends, HTTP/1.1 400 Bad Request
";

#[test]
fn a_chunk_has_extensions(rt: HostRuntime) -> Result<(), Fail> {
    check_rows::<Chunks>(rt.alloc(), EXTENSIONS)?;
    check_rows::<Chunks>(rt.alloc(), CONTROLS)
}

/// Bodies of 524,288 bytes with their chunks, and of one byte more.
const FRAMED: &str = "
by an extension | whole,by524287 1;«524276 a»~x~0~~ -> Post /a [x], HTTP/1.1 200 OK
by an extension, one longer | whole,by524287 1;«524277 a»~x~0~~ -> ends, HTTP/1.1 413 Content Too Large
by trailers | whole 1~x~0~A: «524272 a»~~ -> Post /a [x], HTTP/1.1 200 OK
by trailers, one longer | whole 1~x~0~A: «524273 a»~~ -> ends, HTTP/1.1 413 Content Too Large
much longer | whole,by530000 1;«599988 a»~x~0~~ -> ends, HTTP/1.1 413 Content Too Large
a fault behind the most bytes | whole,by524287 1;«524281 a»~x~z~ -> ends, HTTP/1.1 413 Content Too Large
a call behind it | whole 1;«524276 a»~x~0~~DELETE /b HTTP/1.1~~ -> Post /a [x], HTTP/1.1 200 OK
";

#[test]
fn a_body_has_so_many_bytes_with_its_chunks(rt: HostRuntime) -> Result<(), Fail> {
    check_rows::<Chunks>(rt.alloc(), FRAMED)
}

/// The reply with a status, and its bytes.
fn reply_of(alloc: Global, status: ReplyStatus) -> Result<String, Fail> {
    let mut pieces = Vec::new(alloc);
    pieces.push(String::from_str(alloc, "DELETE /a HTTP/1.1\r\n\r\n")?.into_bytes())?;
    let script = Script::new(alloc, "whole", pieces)?;
    let written = RefCell::new(Vec::new(alloc));
    let wire = Wire::new(alloc, "whole", &script, &written)?;
    reply_to(&mut Peer::new(alloc, wire), status)?;
    let written = written.into_inner();
    let text = str::from_utf8(&written)?;
    Ok(text.replace(alloc, "\r\n", ";")?)
}

/// Replies to the call of a connection.
fn reply_to(peer: &mut Peer<Wire<'_>>, status: ReplyStatus) -> Result<(), Fail> {
    peer.reply(status, "[1]")?;
    peer.take()?;
    peer.reply(status, "[2]")?;
    peer.reply(status, "[3]")?;
    Ok(())
}

/// The fields that each reply has.
const FIELDS: &str =
    "Cache-Control: no-cache;Connection: close;Content-Type: application/json; charset=utf-8;Content-Length: 4;;[2]\n";

const REPLIES: [(ReplyStatus, &str); 7] = [
    (ReplyStatus::Done, "200 OK;"),
    (ReplyStatus::BadRequest, "400 Bad Request;"),
    (ReplyStatus::NotFound, "404 Not Found;"),
    (
        ReplyStatus::NotAllowed(AllowedMethods::Get),
        "405 Method Not Allowed;Allow: GET;",
    ),
    (
        ReplyStatus::NotAllowed(AllowedMethods::GetAndPost),
        "405 Method Not Allowed;Allow: GET, POST;",
    ),
    (
        ReplyStatus::NotAllowed(AllowedMethods::GetAndDelete),
        "405 Method Not Allowed;Allow: GET, DELETE;",
    ),
    (ReplyStatus::Failed, "500 Internal Server Error;"),
];

#[test]
fn a_reply_has_its_status(rt: HostRuntime) -> Result<(), Fail> {
    for (status, wanted) in REPLIES {
        let found = reply_of(rt.alloc(), status)?;
        let wanted = format!(in rt.alloc(); "HTTP/1.1 {wanted}{FIELDS}")?;
        if found.as_str() != wanted.as_str() {
            return Err(Fail::new(format_args!("it is {found}")));
        }
    }
    Ok(())
}
