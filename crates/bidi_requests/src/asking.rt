//! What the head of a request asks for.
ghost use Rattle.std.specs.Prelude.{◌≡◌, ◌≤◌, ◌<◌, ◌+◌, ◌⊎◌, ◌↔◌, length, All, IsFalse, IsTrue, IfOk, drop, false, min, ◌==◌, option_map};
ghost use Rattle.std.specs.List.{list_any};
ghost use Rattle.httparse.specs.Grammar.{RequestHead};
ghost use Rattle.httparse.specs.Spans.{IsHeaderWithin, IsRequestAt, IsRequestOf, IsRequestWithin};
ghost use Rattle.websocket.specs.Headers.{eq_ignore_case, fields_of, header_value};
ghost use Rattle.bidi_requests.specs.Bodies.{most_body};
ghost use Rattle.bidi_requests.specs.Requests.{AcceptsKey, AreLetIn, AsksUpgrade, HasBody, IsAskedBy, IsCall, IsLetIn, IsOfKind, IsPlain, has_word, is_word, lists, longest_head, spanned_request};

use super::answering::Answer;
use super::calling::{Call, Framing, framing_of, method_of};
use super::chunks::{Chunked, read_chunked};
use super::fields::{MOST_FIELDS, is_same};
use super::origins;
use super::targets::{is_of_sockets, resource_of, resource_text};
use httparse::spans::{EMPTY_HEADER_SPAN, HeaderSpan, RequestSpans, parse_request};
use httparse::{Error, Status};
use std::alloc::{AllocError, Global};
use websocket::handshake::server::accept_key;

/// The longest head, in bytes.
const LONGEST_HEAD: usize = 64 * 1024;

/// What the bytes at the front of a stream are.
#[derive(Drop)]
pub enum Asked {
    /// The beginning of a head.
    Part,
    /// The head of a call, and a part of its body at most. The request is not whole before it has so many bytes.
    Body(usize),
    /// A request for a WebSocket.
    Socket {
        /// The resource that its target names.
        resource: String,
        /// The key of its answer.
        accept: [u8; 28],
        /// How many bytes its head has.
        length: usize,
    },
    /// A call.
    Call {
        /// What it asks for.
        call: Call,
        /// How many bytes it has with its head.
        length: usize,
    },
    /// Anything else, with its answer.
    Other(Answer),
}

/// What a head asks for.
#[derive(Clone, Copy)]
pub(crate) enum Kind {
    /// A WebSocket, with the key of its answer.
    Socket([u8; 28]),
    /// A call.
    Call,
    /// Anything else, with its answer.
    Other(Answer),
}

/// Whether to look at the bytes at the front of a stream, if the first `known` of them were looked at before: when the first come,
/// when a line ends, and when there are too many. So a head that comes in single bytes costs little more than a head that
/// comes whole. If the head is there, they are looked at when `least` bytes have come. Takes no memory.
pub fn is_to_judge(bytes: &[u8], known: usize, least: usize) -> bool
    // False comes only if the rest of a body is missing, or if no line of a head has ended since the last look.
    ensures { IsFalse result → (length bytes.now < least) ⊎ ((least ≡ 0) × (length bytes.now ≤ longest_head) × (list_any (λ b. b == 10) (drop (min known (length bytes.now)) bytes.now) ≡ false)) }
{
    if least > 0 {
        return bytes.len() >= least;
    }
    known == 0 || bytes.len() > LONGEST_HEAD || has_line_end(&bytes[known.min(bytes.len())..])
}

// Whether a line ends in these bytes.
fn has_line_end(bytes: &[u8]) -> bool
    ensures { result ≡ list_any (λ b. b == 10) bytes.now }
{
    bytes.iter().any(|byte| *byte == b'\n')
}

/// What the bytes at the front of a stream ask for. Reads a head once, and copies its resource and its body.
///
/// # Errors
/// No memory: an allocation failed.
pub fn asked_by(alloc: Global, bytes: &[u8]) -> Result<Asked, AllocError>
    // After an Ok, the result is what the bytes ask for.
    ensures { IfOk result (IsAskedBy bytes.now) }
{
    let mut spans = [EMPTY_HEADER_SPAN; MOST_FIELDS];
    match parse_request(bytes, &mut spans) {
        Ok(Status::Partial) if bytes.len() <= LONGEST_HEAD => Ok(Asked::Part),
        Ok(Status::Complete(request)) if request.len <= LONGEST_HEAD => {
            judge_request(alloc, bytes, &request, &spans)
        }
        Err(Error::TooManyHeaders) => Ok(Asked::Other(Answer::TooManyFields)),
        _ => Ok(Asked::Other(Answer::NotHttp)),
    }
}

// Judges a request whose parts were found.
fn judge_request(
    alloc: Global,
    bytes: &[u8],
    request: &RequestSpans,
    spans: &[HeaderSpan],
) -> Result<Asked, AllocError>
    requires within { IsRequestWithin bytes.now spans.now request.now }
    requires head { IsRequestOf bytes.now spans.now request.now }
    requires short { request.now.len ≤ longest_head }
    ensures { IfOk result (IsAskedBy bytes.now) }
{
    match kind_of(bytes, request, spans) {
        Kind::Socket(accept) => Ok(Asked::Socket {
            resource: resource_text(alloc, request.path.of(bytes))?,
            accept,
            length: request.len,
        }),
        Kind::Call => judge_call(alloc, bytes, request, spans),
        Kind::Other(answer) => Ok(Asked::Other(answer)),
    }
}

// Judges a call whose head was found.
fn judge_call(
    alloc: Global,
    bytes: &[u8],
    request: &RequestSpans,
    spans: &[HeaderSpan],
) -> Result<Asked, AllocError>
    requires within { IsRequestWithin bytes.now spans.now request.now }
    requires head { IsRequestOf bytes.now spans.now request.now }
    requires short { request.now.len ≤ longest_head }
    requires call { IsCall (spanned_request bytes.now spans.now request.now) }
    ensures { IfOk result (IsAskedBy bytes.now) }
{
    let (_, rest) = bytes.split_at(request.len);
    match framing_of(bytes, request, spans) {
        Framing::Sized(size) if rest.len() < size => Ok(Asked::Body(request.len + size)),
        Framing::Sized(size) => {
            let (content, _) = rest.split_at(size);
            let mut body = Vec::new(alloc);
            body.extend_from_slice(content)?;
            called(alloc, bytes, request, spans, body, size)
        }
        Framing::Chunked => match read_chunked(alloc, rest)? {
            Chunked::Part => Ok(Asked::Body(1)),
            Chunked::Whole { body, length } => called(alloc, bytes, request, spans, body, length),
            Chunked::Refused(answer) => Ok(Asked::Other(answer)),
        },
        Framing::Refused(answer) => Ok(Asked::Other(answer)),
    }
}

// A call with this body, which has so many bytes with its chunks.
fn called(
    alloc: Global,
    bytes: &[u8],
    request: &RequestSpans,
    spans: &[HeaderSpan],
    body: Vec<u8>,
    count: usize,
) -> Result<Asked, AllocError>
    requires within { IsRequestWithin bytes.now spans.now request.now }
    requires head { IsRequestOf bytes.now spans.now request.now }
    requires short { request.now.len ≤ longest_head }
    requires call { IsCall (spanned_request bytes.now spans.now request.now) }
    requires has { (h : RequestHead) → IsRequestAt bytes.now spans.now request.now h → HasBody bytes.now h body.items count }
    requires few { length body.items ≤ most_body }
    requires fits { request.now.len + count ≤ length bytes.now }
    ensures { IfOk result (IsAskedBy bytes.now) }
{
    let _ = spans;
    let call = Call {
        method: method_of(request.method.of(bytes)),
        resource: resource_text(alloc, request.path.of(bytes))?,
        body,
    };
    Ok(Asked::Call {
        call,
        length: request.len + count,
    })
}

// What a head asks for.
fn kind_of(bytes: &[u8], request: &RequestSpans, spans: &[HeaderSpan]) -> Kind
    requires { IsRequestWithin bytes.now spans.now request.now }
    ensures { IsOfKind (spanned_request bytes.now spans.now request.now) result }
{
    let headers = &spans[..request.headers];
    if !names_only_local(bytes, headers) {
        return Kind::Other(Answer::Foreign);
    }
    if request.method.of(bytes) != b"GET".as_slice() {
        return Kind::Call;
    }
    if request.version == 0 || !asks_upgrade(bytes, headers) {
        return plain_kind(resource_of(request.path.of(bytes)));
    }
    if !has_value(bytes, headers, b"Sec-WebSocket-Version", b"13") {
        return Kind::Other(Answer::NoUpgrade);
    }
    accepted(bytes, headers)
}

// What a GET without an upgrade asks for.
fn plain_kind(resource: &[u8]) -> Kind
    ensures { IsPlain resource.now result }
{
    if resource == b"/status".as_slice() {
        Kind::Other(Answer::Ready)
    } else if is_of_sockets(resource) {
        Kind::Other(Answer::NoUpgrade)
    } else {
        Kind::Call
    }
}

// The key that accepts the key of a request.
fn accepted(bytes: &[u8], headers: &[HeaderSpan]) -> Kind
    requires { All (IsHeaderWithin (length bytes.now)) headers.now }
    ensures { AcceptsKey (fields_of bytes.now headers.now) result }
{
    match value_of(bytes, headers, b"Sec-WebSocket-Key") {
        Some(key) => match accept_key(key) {
            Ok(accept) => Kind::Socket(accept),
            Err(_) => Kind::Other(Answer::BadKey),
        },
        None => Kind::Other(Answer::BadKey),
    }
}

// Whether a request names no origin but this machine.
fn names_only_local(bytes: &[u8], headers: &[HeaderSpan]) -> bool
    requires { All (IsHeaderWithin (length bytes.now)) headers.now }
    ensures { IsTrue result ↔ AreLetIn (fields_of bytes.now headers.now) }
{
    match headers {
        [] => true,
        [first, rest @ ..] => {
            is_let_in(first.name.of(bytes), first.value.of(bytes)) && names_only_local(bytes, rest)
        }
    }
}

// Whether a field is not `Origin`, or names this machine.
fn is_let_in(name: &[u8], value: &[u8]) -> bool
    ensures { IsTrue result ↔ IsLetIn (name.now, value.now) }
{
    !is_same(name, b"Origin") || origins::is_local(value)
}

// Whether a request asks for an upgrade to a WebSocket.
fn asks_upgrade(bytes: &[u8], headers: &[HeaderSpan]) -> bool
    requires { All (IsHeaderWithin (length bytes.now)) headers.now }
    ensures { IsTrue result ↔ AsksUpgrade (fields_of bytes.now headers.now) }
{
    has_token(bytes, headers, b"Connection", b"upgrade")
        && has_token(bytes, headers, b"Upgrade", b"websocket")
}

// Whether a header line of this name lists this word, in any case.
fn has_token(bytes: &[u8], headers: &[HeaderSpan], name: &[u8], word: &[u8]) -> bool
    requires { All (IsHeaderWithin (length bytes.now)) headers.now }
    ensures { result ≡ has_word (fields_of bytes.now headers.now) name.now word.now }
{
    for header in headers {
        let is_named = is_same(header.name.of(bytes), name);
        if is_named && lists(header.value.of(bytes), word) {
            return true;
        }
    }
    false
}

// Whether one of the pieces between commas is this word, in any case.
fn lists(value: &[u8], word: &[u8]) -> bool
    ensures { result ≡ lists value.now word.now }
{
    value
        .split(|byte| *byte == b',')
        .any(|piece| is_word(piece, word))
}

// Whether a piece is this word, in any case and with white space around it.
fn is_word(piece: &[u8], word: &[u8]) -> bool
    ensures { result ≡ is_word word.now piece.now }
{
    is_same(piece.trim_ascii(), word)
}

// Whether the first header of this name has this value.
fn has_value(bytes: &[u8], headers: &[HeaderSpan], name: &[u8], value: &[u8]) -> bool
    requires { All (IsHeaderWithin (length bytes.now)) headers.now }
    ensures { IsTrue result ↔ (header_value (fields_of bytes.now headers.now) name.now ≡ Some value.now) }
{
    match value_of(bytes, headers, name) {
        Some(found) => found == value,
        None => false,
    }
}

// The value of the first header of this name.
fn value_of<'b>(bytes: &'b [u8], headers: &[HeaderSpan], name: &[u8]) -> Option<&'b [u8]>
    requires { All (IsHeaderWithin (length bytes.now)) headers.now }
    ensures { option_map (λ v. v.now) result ≡ header_value (fields_of bytes.now headers.now) name.now }
{
    for header in headers {
        if is_same(header.name.of(bytes), name) {
            return Some(header.value.of(bytes));
        }
    }
    None
}
