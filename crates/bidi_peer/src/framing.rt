//! The frame at the front of what came, and why a server fails a connection.
ghost use Rattle.std.specs.Prelude.{◌≡◌, ◌+◌, ◌-◌, ◌^◌, ◌++◌, ℕ, Ok, Some, drop, length, min, IfOk, IfSome, OnErr, OnOk, option_map};
ghost use Rattle.websocket.specs.FrameHeader.{decode_header, extended_len};
ghost use Rattle.websocket.specs.declared.protocol.frame.header.FrameHeader.{FrameHeader};
ghost use Rattle.websocket.specs.declared.protocol.config.Role.TheVariants.{Server};
ghost use Rattle.bidi_peer.specs.Sending.{bytes_frame, close_frame, text_frame};
ghost use Rattle.websocket.specs.declared.protocol.state.WebSocketState.TheVariants.{Active};
ghost use Rattle.websocket.specs.Connection.{read_step};
ghost use Rattle.bidi_peer.specs.Taking.{CountsPart, HasPayload, HasTaken, IsFaultOf, IsTakenFor, Shows, unfinished_after};
ghost use Rattle.bidi_peer.specs.Waiting.{payload_of, untaken};
ghost use Rattle.bidi_peer.specs.Closing.{code_of, reason_of};
ghost use Rattle.websocket.specs.Content.{IsReceivedInside, HasValidText, received_content};

use super::peer::new_context;
use super::waiting::Inbox;
use std::alloc::{AllocError, Global};
use websocket::error::Error as FrameError;
use websocket::protocol::frame::FrameHeader;
use websocket::protocol::{
    CloseCode, CloseFrame, FrameStatus, Message, NoMask, Received, WebSocketContext,
};

/// What is at the front of what came.
#[derive(Drop)]
pub(crate) enum Frame {
    /// No whole frame.
    Part,
    /// A ping or a pong. The caller has nothing to do with it.
    Control,
    /// A part of a message, with so many bytes of payload. More of the message follows.
    Fragment(usize),
    /// The end of a text.
    Text(String),
    /// The end of a binary message.
    NotText,
    /// The peer's close frame.
    Close,
    /// A frame that fails the connection.
    Bad(Fault),
}

impl Frame {
    /// How many bytes of payload there are of an unfinished message after this frame, if there were so many before it.
    pub(crate) fn unfinished(&self, before: usize) -> usize
        ensures { result ≡ unfinished_after self.now before }
    {
        match self {
            Frame::Fragment(length) => before.saturating_add(*length),
            Frame::Text(_) | Frame::NotText | Frame::Bad(_) => 0,
            Frame::Part | Frame::Control | Frame::Close => before,
        }
    }
}

/// Why the server fails a connection.
#[derive(Clone, Copy, Debug, PartialEq, Eq)]
pub(crate) enum Fault {
    /// A frame breaks the protocol.
    Protocol,
    /// A text is not UTF-8.
    NotUtf8,
    /// A frame or a message is past its limit.
    TooLong,
    /// Too much waits to be written.
    Slow,
    /// The host holds too much, and most of this connection's share came from the peer.
    Crowded,
}

impl Fault {
    /// The code of its close frame.
    pub(crate) fn code(self) -> CloseCode
        ensures { result ≡ code_of self }
    {
        match self {
            Fault::Protocol => CloseCode::Protocol,
            Fault::NotUtf8 => CloseCode::Invalid,
            Fault::TooLong | Fault::Crowded => CloseCode::Size,
            Fault::Slow => CloseCode::Again,
        }
    }

    /// The reason in its close frame.
    pub(crate) fn reason(self) -> &'static str
        ensures { result.now ≡ reason_of self }
    {
        match self {
            Fault::Protocol => "a frame breaks the WebSocket protocol",
            Fault::NotUtf8 => "a text is not UTF-8",
            Fault::TooLong => "a message is too long",
            Fault::Slow => "too much waits to be read",
            Fault::Crowded => "too much is held in all",
        }
    }
}

/// Takes the frame at the front of what came. A pong or a close frame that answers it is added to `output`, and the
/// payload that waits for the end of its message is counted. After an error the protocol begins anew.
#[tactic(auto, using(crate::proofs::PartLemmas::frame_counts))]
pub(crate) fn read_frame(
    alloc: Global,
    context: &mut WebSocketContext,
    fragments: &mut usize,
    inbox: &mut Inbox,
    output: &mut Vec<u8>,
) -> Result<Frame, AllocError>
    requires { fragments.old ≡ min (payload_of context.old.fragments) (2 ^ 64 - 1) }
    ensures shows { IfOk result (IsTakenFor (read_step context.old (untaken inbox.old))) }
    ensures takes { context.old.role ≡ Server → OnOk result (HasTaken (read_step context.old (untaken inbox.old)) context.old (untaken inbox.old) output.old.items context.new (untaken inbox.new) output.new.items) }
    ensures role { context.old.role ≡ Server → context.new.role ≡ Server }
    ensures counts { context.old.role ≡ Server → fragments.new ≡ min (payload_of context.new.fragments) (2 ^ 64 - 1) }
    ensures err { OnErr result (context.new.state ≡ Active) }
{
    let input = &mut inbox.bytes[inbox.start..inbox.end];
    let Ok((length, frame)) = frame_at(alloc, context, input, output) else {
        *context = new_context(alloc);
        *fragments = 0;
        return Err(AllocError);
    };
    *fragments = frame.unfinished(*fragments);
    inbox.take(length);
    Ok(frame)
}

// The frame at the front of these bytes, and how many it takes.
#[tactic(auto, using(crate::proofs::PartLemmas::part_counted))]
fn frame_at(
    alloc: Global,
    context: &mut WebSocketContext,
    input: &mut [u8],
    output: &mut Vec<u8>,
) -> Result<(usize, Frame), AllocError>
    ensures shows { IfOk result (λ taken. IsTakenFor (read_step context.old input.old) taken.1) }
    ensures takes { context.old.role ≡ Server → IfOk result (λ taken. HasTaken (read_step context.old input.old) context.old input.old output.old.items context.new (drop taken.0 input.new) output.new.items) }
    ensures role { context.new.role ≡ context.old.role }
    ensures counts { IfOk result (λ taken. CountsPart input.old taken.1) }
{
    let payload = payload_len(input);
    match context.read(input, output, &mut NoMask) {
        Ok(FrameStatus::Partial(_)) => Ok((0, Frame::Part)),
        Ok(FrameStatus::Complete(step)) => {
            let frame = frame_of(alloc, &step.message, payload, input)?;
            Ok((step.consumed, frame))
        }
        Err(error) => Ok((0, Frame::Bad(fault_of(error)?))),
    }
}

// What a frame gave whose payload has so many bytes.
fn frame_of(
    alloc: Global,
    message: &Option<Received>,
    payload: usize,
    input: &[u8],
) -> Result<Frame, AllocError>
    requires inside { IfSome message.now (IsReceivedInside input.now) }
    requires text { IfSome message.now (λ m. HasValidText (received_content input.now m)) }
    ensures shows { IfOk result (Shows (option_map (received_content input.now) message.now)) }
    ensures payload { IfOk result (HasPayload payload) }
{
    let Some(received) = message else {
        return Ok(Frame::Fragment(payload));
    };
    match received.message(input) {
        Message::Text(text) => Ok(Frame::Text(String::from_str(alloc, text)?)),
        Message::Binary(_) => Ok(Frame::NotText),
        Message::Ping(_) | Message::Pong(_) => Ok(Frame::Control),
        Message::Close(_) => Ok(Frame::Close),
    }
}

// How many bytes of payload the frame at the front of these bytes has, if its header is whole.
fn payload_len(input: &[u8]) -> usize
    ensures { (h : FrameHeader) (n : ℕ) → decode_header input.now ≡ Ok (Some (h, n)) → result ≡ n }
{
    match FrameHeader::parse(input) {
        Ok(Some((_, length))) => length as usize,
        Ok(None) | Err(_) => 0,
    }
}

// Why a frame fails the connection.
fn fault_of(error: FrameError) -> Result<Fault, AllocError>
    ensures { IfOk result (IsFaultOf error) }
{
    match error {
        FrameError::OutOfMemory => Err(AllocError),
        FrameError::Utf8 => Ok(Fault::NotUtf8),
        FrameError::Capacity(_) => Ok(Fault::TooLong),
        FrameError::Protocol(_) | FrameError::ConnectionClosed | FrameError::AlreadyClosed => {
            Ok(Fault::Protocol)
        }
    }
}

/// Puts the frame of a text behind what is in `output`.
pub(crate) fn write_text(
    context: &mut WebSocketContext,
    text: &str,
    output: &mut Vec<u8>,
) -> Result<(), AllocError>
    ensures role { context.new.role ≡ context.old.role }
    ensures same { context.new ≡ context.old }
    ensures joins { OnOk result (context.old.role ≡ Server → output.new.items ≡ output.old.items ++ text_frame text.now) }
{
    match context.write(Message::Text(text), output, &mut NoMask) {
        Ok(()) => Ok(()),
        Err(_) => Err(AllocError),
    }
}

/// Puts the frame of a binary message behind what is in `output`.
pub(crate) fn write_bytes(
    context: &mut WebSocketContext,
    bytes: &[u8],
    output: &mut Vec<u8>,
) -> Result<(), AllocError>
    ensures role { context.new.role ≡ context.old.role }
    ensures same { context.new ≡ context.old }
    ensures joins { OnOk result (context.old.role ≡ Server → output.new.items ≡ output.old.items ++ bytes_frame bytes.now) }
{
    match context.write(Message::Binary(bytes), output, &mut NoMask) {
        Ok(()) => Ok(()),
        Err(_) => Err(AllocError),
    }
}

/// Puts a close frame behind what is in `output`, unless one was sent.
pub(crate) fn write_close(
    context: &mut WebSocketContext,
    code: CloseCode,
    reason: &str,
    output: &mut Vec<u8>,
) -> Result<(), AllocError>
    ensures role { context.new.role ≡ context.old.role }
    ensures joins { OnOk result (context.old.role ≡ Server → context.old.state ≡ Active → output.new.items ≡ output.old.items ++ close_frame code reason.now) }
    ensures err { OnErr result (context.new ≡ context.old) }
    ensures part { context.new.fragments ≡ context.old.fragments }
{
    let frame = CloseFrame { code, reason };
    match context.close(Some(frame), output, &mut NoMask) {
        Ok(()) => Ok(()),
        Err(_) => Err(AllocError),
    }
}

/// How many bytes the frame of a text has.
pub(crate) fn frame_len(text: &str) -> usize
    ensures { result ≡ min (length (text_frame text.now)) (2 ^ 64 - 1) }
{
    text.len().saturating_add(header_len(text.len()))
}

/// How many bytes the frame of a binary message has.
pub(crate) fn bytes_frame_len(bytes: &[u8]) -> usize
    ensures { result ≡ min (length (bytes_frame bytes.now)) (2 ^ 64 - 1) }
{
    bytes.len().saturating_add(header_len(bytes.len()))
}

// How many bytes the header of a server's frame has, with a payload of so many.
fn header_len(payload: usize) -> usize
    ensures { result ≡ 2 + extended_len payload }
{
    if payload < 126 {
        2
    } else if payload < 65_536 {
        4
    } else {
        10
    }
}
