//! The replies to calls.
ghost use Rattle.std.specs.Prelude.{◌≡◌, IfOk, codes, string_bytes};
ghost use Rattle.json.specs.Tree.{HasNumbers};
ghost use Rattle.json.specs.Value.{value_view};
ghost use Rattle.bidi_classic.specs.Replies.{IsEndReply, IsErrorReply, IsFailedReply, IsNewReply, IsSessionReply, code_of, failed_status, quoted, status_of};
ghost use Rattle.bidi_requests.specs.declared.answering.ReplyStatus.TheVariants.{Done};

use super::capabilities::with_url;
use bidi_requests::{AllowedMethods, ReplyStatus};
use bidi_rows::{compact, object_at, string_at};
use json::{Error, Scratch, Value};
use std::alloc::{AllocError, Global};

/// The reply to a call: a status, and a JSON text.
#[derive(Drop)]
pub struct Reply {
    /// The status.
    pub status: ReplyStatus,
    /// The JSON text.
    pub json: String,
}

/// Why a call is not taken.
#[derive(Clone, Copy, Debug, PartialEq, Eq)]
pub enum CallError {
    /// An argument is not valid: `invalid argument`, 400.
    InvalidArgument,
    /// There is no such session: `invalid session id`, 404.
    InvalidSessionId,
    /// No session can be made: `session not created`, 500.
    SessionNotCreated,
    /// There is no such command: `unknown command`, 404.
    UnknownCommand,
    /// The resource has only these methods: `unknown method`, 405.
    UnknownMethod(AllowedMethods),
    /// Anything else: `unknown error`, 500.
    UnknownError,
}

impl CallError {
    // The error code.
    fn code(self) -> &'static str
        ensures { result.now ≡ code_of self }
    {
        match self {
            CallError::InvalidArgument => "invalid argument",
            CallError::InvalidSessionId => "invalid session id",
            CallError::SessionNotCreated => "session not created",
            CallError::UnknownCommand => "unknown command",
            CallError::UnknownMethod(_) => "unknown method",
            CallError::UnknownError => "unknown error",
        }
    }

    // The status.
    fn status(self) -> ReplyStatus
        ensures { result ≡ status_of self }
    {
        match self {
            CallError::InvalidArgument => ReplyStatus::BadRequest,
            CallError::InvalidSessionId | CallError::UnknownCommand => ReplyStatus::NotFound,
            CallError::UnknownMethod(methods) => ReplyStatus::NotAllowed(methods),
            CallError::SessionNotCreated | CallError::UnknownError => ReplyStatus::Failed,
        }
    }
}

/// The reply to a call that is not taken: `{"value":{"error":CODE,"message":MESSAGE,"stacktrace":""}}`.
///
/// # Errors
/// No memory: an allocation failed.
pub fn error_reply(alloc: Global, error: CallError, message: &str) -> Result<Reply, AllocError>
    // The reply has the status and the code of the error, and the message.
    ensures { IfOk result (IsErrorReply (status_of error) (code_of error) message.now) }
{
    reply_with(alloc, error.status(), error.code(), message)
}

// The reply with a status, an error code and a message.
fn reply_with(
    alloc: Global,
    status: ReplyStatus,
    code: &str,
    message: &str,
) -> Result<Reply, AllocError>
    ensures { IfOk result (IsErrorReply status code.now message.now) }
{
    let code = quoted(alloc, code)?;
    let message = quoted(alloc, message)?;
    let json = format!(in alloc;
        "{{\"value\":{{\"error\":{code},\"message\":{message},\"stacktrace\":\"\"}}}}"
    )?;
    Ok(Reply { status, json })
}

// The JSON text of a string.
fn quoted(alloc: Global, text: &str) -> Result<String, AllocError>
    ensures { IfOk result (λ s. string_bytes s ≡ quoted text.now) }
{
    compact(alloc, &Value::String(text))
}

/// The reply to a call for a session, from the answer of the remote end to `session.new`: the session id, and the
/// capabilities with the address of the session's WebSocket on 127.0.0.1 at this port, which takes the place of any that they
/// have. `None` means that the text is no answer to that command.
///
/// # Errors
/// No memory: an allocation failed.
pub fn new_reply(alloc: Global, answer: &str, port: u16) -> Result<Option<Reply>, AllocError>
    // The result is the reply of the definition, or `None` if the text is no answer to `session.new`.
    ensures { IfOk result (IsNewReply port answer.now) }
{
    let mut scratch = Scratch::new(alloc);
    match Value::parse(alloc, answer, &mut scratch) {
        Ok(value) => match object_at(&value, "result") {
            Some(found) => session_reply(alloc, found, port),
            None => failed_reply(alloc, &value),
        },
        Err(Error::OutOfMemory) => Err(AllocError),
        Err(_) => Ok(None),
    }
}

// The reply with a new session, from the result of `session.new`.
fn session_reply(alloc: Global, found: &Value<'_>, port: u16) -> Result<Option<Reply>, AllocError>
    requires { HasNumbers (value_view found.now) }
    ensures { IfOk result (IsSessionReply port (value_view found.now)) }
{
    let Some(id) = string_at(found, "sessionId") else {
        return Ok(None);
    };
    let Some(capabilities) = object_at(found, "capabilities") else {
        return Ok(None);
    };
    let url = format!(in alloc; "ws://127.0.0.1:{port}/session/{id}")?;
    let capabilities = with_url(alloc, capabilities, url.as_str())?;
    let id = quoted(alloc, id)?;
    let json = format!(in alloc;
        "{{\"value\":{{\"capabilities\":{capabilities},\"sessionId\":{id}}}}}"
    )?;
    Ok(Some(Reply {
        status: ReplyStatus::Done,
        json,
    }))
}

// The reply to a call that failed, from the answer of the remote end.
fn failed_reply(alloc: Global, answer: &Value<'_>) -> Result<Option<Reply>, AllocError>
    ensures { IfOk result (IsFailedReply (value_view answer.now)) }
{
    let Some(code) = string_at(answer, "error") else {
        return Ok(None);
    };
    let message = string_at(answer, "message").unwrap_or("");
    Ok(Some(reply_with(alloc, failed_status(code), code, message)?))
}

// The status of an error that the remote end gives.
fn failed_status(code: &str) -> ReplyStatus
    ensures { result ≡ failed_status code.now }
{
    if code == "invalid argument" {
        ReplyStatus::BadRequest
    } else {
        ReplyStatus::Failed
    }
}

/// The reply to a call for the end of a session, from the answer of the remote end to `session.end`. `None` means that
/// the text is no answer to that command.
///
/// # Errors
/// No memory: an allocation failed.
pub fn end_reply(alloc: Global, answer: &str) -> Result<Option<Reply>, AllocError>
    // The result is the reply of the definition, or `None` if the text is no answer to `session.end`.
    ensures { IfOk result (IsEndReply answer.now) }
{
    let mut scratch = Scratch::new(alloc);
    match Value::parse(alloc, answer, &mut scratch) {
        Ok(value) => match object_at(&value, "result") {
            Some(_) => Ok(Some(done_reply(alloc)?)),
            None => failed_reply(alloc, &value),
        },
        Err(Error::OutOfMemory) => Err(AllocError),
        Err(_) => Ok(None),
    }
}

// The reply to a call that did what it asks for.
fn done_reply(alloc: Global) -> Result<Reply, AllocError>
    ensures { IfOk result (λ reply. (reply.status ≡ Done) × (string_bytes reply.json ≡ codes "{\"value\":null}")) }
{
    Ok(Reply {
        status: ReplyStatus::Done,
        json: String::from_str(alloc, "{\"value\":null}")?,
    })
}
