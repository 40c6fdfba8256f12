//! Calls: requests over HTTP that ask for no WebSocket.
ghost use Rattle.std.specs.Prelude.{◌≡◌, ◌+◌, All, IsTrue, MatchOption, length, min};
ghost use Rattle.std.specs.Char.{is_ascii_digit};
ghost use Rattle.httparse.specs.Spans.{IsHeaderWithin, IsRequestWithin};
ghost use Rattle.websocket.specs.Headers.{fields_of};
ghost use Rattle.std.specs.Str.Parse.{digits_value};
ghost use Rattle.bidi_requests.specs.Bodies.{AreDigits, most_body};
ghost use Rattle.bidi_requests.specs.Requests.{AreValues, IsFramedBy, IsMethod, IsSizedBy, spanned_request, values_of};

use super::answering::Answer;
use super::fields::is_same;
use httparse::spans::{HeaderSpan, RequestSpans};

/// The most bytes of a body.
pub(crate) const MOST_BODY: usize = 64 * 1024;

/// A request over HTTP that asks for no WebSocket.
#[derive(Drop)]
pub struct Call {
    /// The method.
    pub method: Method,
    /// The resource that its target names, with its query.
    pub resource: String,
    /// The body without its chunks.
    pub body: Vec<u8>,
}

/// The method of a call.
#[derive(Clone, Copy, Debug, PartialEq, Eq)]
pub enum Method {
    /// GET.
    Get,
    /// POST.
    Post,
    /// DELETE.
    Delete,
    /// Any other.
    Other,
}

/// How the body of a call is framed.
#[derive(Clone, Copy, Debug, PartialEq, Eq)]
pub(crate) enum Framing {
    /// It has so many bytes.
    Sized(usize),
    /// It comes in chunks.
    Chunked,
    /// It is not taken, with the answer.
    Refused(Answer),
}

/// The values of the header lines of one name.
#[derive(Clone, Copy)]
pub(crate) enum Values<'b> {
    /// There is no such line.
    None,
    /// There is one.
    One(&'b [u8]),
    /// There are several.
    Several,
}

/// The method that these bytes name.
pub(crate) fn method_of(name: &[u8]) -> Method
    ensures { IsMethod name.now result }
{
    if name == b"GET".as_slice() {
        Method::Get
    } else if name == b"POST".as_slice() {
        Method::Post
    } else if name == b"DELETE".as_slice() {
        Method::Delete
    } else {
        Method::Other
    }
}

/// How the body of a call is framed.
pub(crate) fn framing_of(bytes: &[u8], request: &RequestSpans, spans: &[HeaderSpan]) -> Framing
    requires { IsRequestWithin bytes.now spans.now request.now }
    ensures { IsFramedBy (spanned_request bytes.now spans.now request.now) result }
{
    let headers = &spans[..request.headers];
    let codings = values_of(bytes, headers, b"Transfer-Encoding");
    let lengths = values_of(bytes, headers, b"Content-Length");
    match (codings, lengths) {
        (Values::None, Values::None) if request.method.of(bytes) == b"POST".as_slice() => {
            Framing::Refused(Answer::NoLength)
        }
        (Values::None, Values::None) => Framing::Sized(0),
        (Values::None, Values::One(length)) => sized(length),
        (Values::One(coding), Values::None)
            if request.version == 1 && is_same(coding, b"chunked") => { Framing::Chunked }
        _ => Framing::Refused(Answer::BadBody),
    }
}

// The framing of a body whose length is written so.
fn sized(length: &[u8]) -> Framing
    ensures { IsSizedBy length.now result }
{
    match number_of(length) {
        Some(length) if length <= MOST_BODY => Framing::Sized(length),
        Some(_) => Framing::Refused(Answer::TooLong),
        None => Framing::Refused(Answer::BadBody),
    }
}

// The number that digits write, or a number past the longest body where it is larger.
fn number_of(text: &[u8]) -> Option<usize>
    ensures { MatchOption result (AreDigits text.now → ⊥) (λ n. AreDigits text.now × (n ≡ min (digits_value 10 text.now) (most_body + 1))) }
{
    if text.is_empty() || !text.iter().all(|byte| byte.is_ascii_digit()) {
        return None;
    }
    Some(value_of_digits(text))
}

// The number that these digits write, or a number past the longest body where it is larger.
fn value_of_digits(digits: &[u8]) -> usize
    requires { All (λ b. IsTrue (is_ascii_digit b)) digits.now }
    ensures { result ≡ min (digits_value 10 digits.now) (most_body + 1) }
{
    let mut value: usize = 0;
    for digit in digits {
        value = (value * 10 + (*digit - b'0') as usize).min(MOST_BODY + 1);
    }
    value
}

// The values of the header lines of this name.
fn values_of<'b>(bytes: &'b [u8], headers: &[HeaderSpan], name: &[u8]) -> Values<'b>
    requires { All (IsHeaderWithin (length bytes.now)) headers.now }
    ensures { AreValues (values_of (fields_of bytes.now headers.now) name.now) result }
{
    match headers {
        [] => Values::None,
        [first, rest @ ..] => {
            let others = values_of(bytes, rest, name);
            if !is_same(first.name.of(bytes), name) {
                return others;
            }
            match others {
                Values::None => Values::One(first.value.of(bytes)),
                Values::One(_) | Values::Several => Values::Several,
            }
        }
    }
}
