//! The answers of a server to a request that it does not open, and to a call.
ghost use Rattle.std.specs.Prelude.{◌≡◌, IfOk, string_bytes};
ghost use Rattle.bidi_requests.specs.Answering.{answer_bytes, first_line_of, line_of, own_lines_of, reason_of, reply_bytes, reply_lines_of, reply_reason_of, reply_status_of, response_of, status_of, type_of};

use std::alloc::{AllocError, Global};

/// How a connection is refused at its handshake.
#[derive(Clone, Copy, Debug, PartialEq, Eq)]
pub enum RequestRefusal {
    /// There is no such resource: 404.
    NotFound,
    /// No more connections are taken now: 503.
    Full,
    /// A test refuses it by this status, which has three digits.
    OfTest(u16),
}

/// The methods of a resource that is called by another.
#[derive(Clone, Copy, Debug, PartialEq, Eq)]
pub enum AllowedMethods {
    /// GET.
    Get,
    /// GET and POST.
    GetAndPost,
    /// GET and DELETE.
    GetAndDelete,
}

/// The status of the reply to a call.
#[derive(Clone, Copy, Debug, PartialEq, Eq)]
pub enum ReplyStatus {
    /// The call did what it asks for: 200.
    Done,
    /// The call has an argument that is not valid: 400.
    BadRequest,
    /// There is no such command or session: 404.
    NotFound,
    /// The resource has only these methods: 405.
    NotAllowed(AllowedMethods),
    /// The call failed: 500.
    Failed,
}

/// An answer after which the connection ends.
#[derive(Clone, Copy, Debug, PartialEq, Eq)]
pub enum Answer {
    /// The server is up.
    Ready,
    /// What came is no request, or its head is too long.
    NotHttp,
    /// The head has too many header fields.
    TooManyFields,
    /// The length of the body is not given as HTTP/1.1 has it, or its chunks are not.
    BadBody,
    /// A POST without the length of its body.
    NoLength,
    /// The body is too long.
    TooLong,
    /// A key that is missing, or is not 16 bytes in base64.
    BadKey,
    /// A page of another host asks.
    Foreign,
    /// The request asks for no WebSocket of version 13.
    NoUpgrade,
    /// The caller refuses.
    Refused(RequestRefusal),
}

impl Answer {
    // The status.
    fn status(self) -> u16
        ensures { result ≡ status_of self }
    {
        match self {
            Answer::Ready => 200,
            Answer::NotHttp | Answer::TooManyFields | Answer::BadBody | Answer::BadKey => 400,
            Answer::NoLength => 411,
            Answer::TooLong => 413,
            Answer::Foreign => 403,
            Answer::NoUpgrade => 426,
            Answer::Refused(RequestRefusal::NotFound) => 404,
            Answer::Refused(RequestRefusal::Full) => 503,
            Answer::Refused(RequestRefusal::OfTest(status)) => status,
        }
    }

    // The reason behind the status.
    fn reason(self) -> &'static str
        ensures { result.now ≡ reason_of self }
    {
        match self {
            Answer::Ready => "OK",
            Answer::NotHttp | Answer::TooManyFields | Answer::BadBody | Answer::BadKey => {
                "Bad Request"
            }
            Answer::NoLength => "Length Required",
            Answer::TooLong => "Content Too Large",
            Answer::Foreign => "Forbidden",
            Answer::NoUpgrade => "Upgrade Required",
            Answer::Refused(RequestRefusal::NotFound) => "Not Found",
            Answer::Refused(RequestRefusal::Full) => "Service Unavailable",
            Answer::Refused(RequestRefusal::OfTest(_)) => "Refused",
        }
    }

    // The header lines that this answer alone has.
    fn own_lines(self) -> &'static str
        ensures { result.now ≡ own_lines_of self }
    {
        match self {
            Answer::NoUpgrade => "Upgrade: websocket\r\nSec-WebSocket-Version: 13\r\n",
            Answer::Ready => "Cache-Control: no-cache\r\n",
            _ => "",
        }
    }

    // The media type of the body.
    fn media_type(self) -> &'static str
        ensures { result.now ≡ type_of self }
    {
        match self {
            Answer::Ready => "application/json; charset=utf-8",
            _ => "text/plain; charset=utf-8",
        }
    }

    // The line of text, without its end.
    fn line(self) -> &'static str
        ensures { result.now ≡ line_of self }
    {
        match self {
            Answer::Ready => "{\"value\":{\"ready\":true,\"message\":\"ready\"}}",
            Answer::NotHttp =>
                "bad request: not an HTTP/1.x request with a head of at most 65536 bytes",
            Answer::TooManyFields => "bad request: a head has at most 124 header fields",
            Answer::BadBody =>
                "bad request: a body needs one Content-Length, or chunks as in HTTP/1.1",
            Answer::NoLength => "length required: a POST needs a Content-Length, or chunks",
            Answer::TooLong => "content too large: a body has at most 65536 bytes",
            Answer::BadKey => "bad request: Sec-WebSocket-Key must be 16 bytes in base64",
            Answer::Foreign =>
                "forbidden: an Origin must be http(s)://127.0.0.1 or http(s)://localhost, with any port",
            Answer::NoUpgrade => "upgrade required: connect by WebSocket, version 13",
            Answer::Refused(RequestRefusal::NotFound) =>
                "no such resource: connect to /session, /session/ID or /page",
            Answer::Refused(RequestRefusal::Full) => "too many connections: try again later",
            Answer::Refused(RequestRefusal::OfTest(_)) => "refused by a test",
        }
    }

    /// The whole answer, head and body.
    ///
    /// # Errors
    /// No memory: an allocation failed.
    pub fn text(self, alloc: Global) -> Result<String, AllocError>
        // After an Ok, the result has the bytes of the answer.
        ensures { IfOk result (λ text. string_bytes text ≡ answer_bytes self) }
    {
        let first = first_line(alloc, self.status(), self.reason())?;
        response(
            alloc,
            first.as_str(),
            self.own_lines(),
            self.media_type(),
            self.line(),
        )
    }
}

impl ReplyStatus {
    // The status.
    fn status(self) -> u16
        ensures { result ≡ reply_status_of self }
    {
        match self {
            ReplyStatus::Done => 200,
            ReplyStatus::BadRequest => 400,
            ReplyStatus::NotFound => 404,
            ReplyStatus::NotAllowed(_) => 405,
            ReplyStatus::Failed => 500,
        }
    }

    // The reason behind the status.
    fn reason(self) -> &'static str
        ensures { result.now ≡ reply_reason_of self }
    {
        match self {
            ReplyStatus::Done => "OK",
            ReplyStatus::BadRequest => "Bad Request",
            ReplyStatus::NotFound => "Not Found",
            ReplyStatus::NotAllowed(_) => "Method Not Allowed",
            ReplyStatus::Failed => "Internal Server Error",
        }
    }

    // The header lines of a reply with this status, which no cache keeps.
    fn own_lines(self) -> &'static str
        ensures { result.now ≡ reply_lines_of self }
    {
        match self {
            ReplyStatus::NotAllowed(AllowedMethods::Get) => {
                "Allow: GET\r\nCache-Control: no-cache\r\n"
            }
            ReplyStatus::NotAllowed(AllowedMethods::GetAndPost) => {
                "Allow: GET, POST\r\nCache-Control: no-cache\r\n"
            }
            ReplyStatus::NotAllowed(AllowedMethods::GetAndDelete) => {
                "Allow: GET, DELETE\r\nCache-Control: no-cache\r\n"
            }
            _ => "Cache-Control: no-cache\r\n",
        }
    }

    /// The whole reply with this JSON text, head and body.
    ///
    /// # Errors
    /// No memory: an allocation failed.
    pub fn text(self, alloc: Global, json: &str) -> Result<String, AllocError>
        // After an Ok, the result has the bytes of the reply.
        ensures { IfOk result (λ text. string_bytes text ≡ reply_bytes self json.now) }
    {
        let first = first_line(alloc, self.status(), self.reason())?;
        response(
            alloc,
            first.as_str(),
            self.own_lines(),
            "application/json; charset=utf-8",
            json,
        )
    }
}

// The first line of an answer with this status and its reason, without its end.
fn first_line(alloc: Global, status: u16, reason: &str) -> Result<String, AllocError>
    ensures { IfOk result (λ line. string_bytes line ≡ first_line_of status reason.now) }
{
    format!(in alloc; "HTTP/1.1 {status} {reason}")
}

// An answer with this first line, these own header lines, this media type and this line of text.
fn response(
    alloc: Global,
    first: &str,
    own_lines: &str,
    media_type: &str,
    line: &str,
) -> Result<String, AllocError>
    ensures { IfOk result (λ text. string_bytes text ≡ response_of first.now own_lines.now media_type.now line.now) }
{
    let length = line.len() + 1;
    format!(in alloc;
        "{first}\r\n{own_lines}Connection: close\r\nContent-Type: {media_type}\r\nContent-Length: {length}\r\n\r\n{line}\n"
    )
}
