//! One end of a WebSocket connection.
ghost use Rattle.std.specs.Prelude.{◌≡◌, ◌⊎◌, [], false, Some, IfOk, IfErr, OnOk, IsOk, Ok, Err, None};
ghost use Rattle.tungstenite.specs.Config.{HasLimitsOf};
ghost use Rattle.tungstenite.specs.Content.{close};
ghost use Rattle.tungstenite.specs.Socket.{Flushed, IsFresh, close_of, content_of};
ghost use Rattle.websocket.specs.declared.protocol.config.Role.TheVariants as role;
ghost use Rattle.bidi_socket.specs.SocketTaking.{BreaksOff, IsTaken, Settles, seen, told, told_fault, code_of, fault_of, is_last, IsFaultOfTaking};
ghost use Rattle.bidi_socket.specs.SocketSending.{SendsText, SendsClose, QueuesText, SendsWaiting, IsFaultOf, closes, normal_closure};

use std::alloc::{AllocError, Global};
use std::io::{Read, Write};
use thiserror::Error;
use tungstenite::{
    CloseCode, CloseFrame, Error as SocketError, MaskKeys, Message, NoMask, Role, Utf8Bytes,
    WebSocket,
};
use websocket::error::ProtocolError;

/// What [`Link::take`] returns: a message of the peer, or the end of the connection.
#[derive(Drop)]
pub enum Incoming {
    /// A whole text, from one frame or from several.
    Text(String),
    /// A binary message, which BiDi does not use.
    NotText,
    /// A ping, which was answered as far as the stream accepted it, or a pong. The caller has nothing to do.
    Control,
    /// The connection is closed: nothing more can be taken or sent.
    Closed,
}

/// Why a call took or sent nothing.
#[derive(Clone, Copy, Debug, PartialEq, Eq, Error)]
pub enum LinkFault {
    /// A read or a write of the stream failed. A take may be tried again; after any other call the link is
    /// closed.
    #[error("the stream failed")]
    Stream,
    /// The peer broke RFC 6455, sent a text that is not UTF-8 or a message past the limits, or its stream
    /// ended without a close frame. A bad frame was answered by a close frame, unless one was sent before.
    /// The link is closed; open a new connection.
    #[error("the peer broke the protocol")]
    Protocol,
    /// Too many bytes are queued for the stream. Nothing has changed; the call may be made again later.
    #[error("too much waits to be sent")]
    Full,
    /// An allocation failed. After a take the link is closed; after any other call nothing has changed, and
    /// the call may be made again.
    #[error("out of memory")]
    NoMemory,
    /// The connection is closed, so nothing can be sent on it any more. Open a new one.
    #[error("the link is closed")]
    Closed,
}

/// One end of a WebSocket connection over a stream whose handshake is done. It takes and sends whole
/// messages.
#[derive(Drop)]
pub struct Link<S, K> {
    alloc: Global,
    socket: WebSocket<S, K>,
    is_closed: bool,
}

impl<S: Read + Write + Drop> Link<S, NoMask> {
    /// Makes the server's end of a link.
    ///
    /// # Errors
    /// No memory: an allocation failed. At present nothing is allocated, so the call always succeeds.
    pub fn server(alloc: Global, stream: S) -> Result<Link<S, NoMask>, AllocError>
        // The socket is over this stream, has the server's role and has read and written nothing;
        // the link is open.
        ensures fresh { IfOk result (λ link. IsFresh link.socket stream role.Server × (link.is_closed ≡ false)) }
        // The limits are the defaults of `tungstenite`: 64 MiB in a message, and 16 MiB in a frame.
        ensures limits { IfOk result (λ link. HasLimitsOf link.socket.conn.config None) }
    {
        Ok(Link::over(
            alloc,
            WebSocket::from_raw_socket(alloc, stream, NoMask, Role::Server, None),
        ))
    }
}

impl<S: Read + Write + Drop, K: MaskKeys + Drop> Link<S, K> {
    /// Makes the client's end of a link, which masks what it sends by these keys. The errors are those of
    /// [`Link::server`].
    pub fn client(alloc: Global, stream: S, keys: K) -> Result<Link<S, K>, AllocError>
        // The socket is over this stream, has the client's role and has read and written nothing;
        // the link is open.
        ensures fresh { IfOk result (λ link. IsFresh link.socket stream role.Client × (link.is_closed ≡ false)) }
        // The limits are the defaults of `tungstenite`: 64 MiB in a message, and 16 MiB in a frame.
        ensures limits { IfOk result (λ link. HasLimitsOf link.socket.conn.config None) }
    {
        Ok(Link::over(
            alloc,
            WebSocket::from_raw_socket(alloc, stream, keys, Role::Client, None),
        ))
    }

    /// Makes a link over the socket that a handshake of `tungstenite` gave. Takes no memory.
    pub fn over(alloc: Global, socket: WebSocket<S, K>) -> Link<S, K>
        // The link is over exactly that socket.
        ensures socket { result.socket ≡ socket }
        // The link is open.
        ensures open { result.is_closed ≡ false }
    {
        Link {
            alloc,
            socket,
            is_closed: false,
        }
    }

    /// Takes the next message of the peer. Reads the stream until a message is whole, and keeps the bytes
    /// after it for the next call. Answers a ping and a close frame at once, as far as the stream accepts the
    /// bytes; the next call sends the rest.
    ///
    /// A frame that breaks the protocol is answered by a close frame without a reason, unless one was sent
    /// before, as far as the stream accepts it. Its code is 1007 if a text is not UTF-8, 1009 if a frame or a
    /// message is past the limits, and 1002 otherwise (RFC 6455, 7.1.7 and 7.4.1). A stream that ends or
    /// fails gets no answer.
    ///
    /// # Errors
    /// - `Stream`: a read or a write of the stream failed. What was read is kept, and the next take continues
    ///   with it.
    /// - `Protocol`, `NoMemory`: the link is closed. If there is no memory to answer a bad frame, the fault
    ///   is `NoMemory`.
    pub fn take(&mut self) -> Result<Incoming, LinkFault>
        // A closed link takes `Closed`. An open one takes the message that ends the next run of
        // frames, and sends the answers that are described above.
        ensures takes { IsTaken S.remaining S.contents self.old self.new (seen result) }
        // The only faults are `Stream`, `Protocol` and `NoMemory`.
        ensures faults { IfErr result IsFaultOfTaking }
    {
        if self.is_closed {
            return Ok(Incoming::Closed);
        }
        match self.socket.read() {
            Ok(message) => self.receive(message),
            Err(error) => match code_of(&error) {
                Some(code) => Err(self.break_off(code)),
                None => self.fail(error),
            },
        }
    }

    // Turns a message into what is taken. The answer to a ping or a close frame is sent at once.
    fn receive(&mut self, message: Message) -> Result<Incoming, LinkFault>
        ensures tells { (seen result ≡ Ok (told message)) ⊎ (seen result ≡ Err LinkFault.NoMemory) }
        ensures ends { self.old.is_closed ≡ false → self.new.is_closed ≡ is_last (seen result) }
        ensures settles { Settles S.contents (seen result) None self.old.socket self.new.socket }
        ensures faults { IfErr result IsFaultOfTaking }
    {
        match message {
            Message::Text(text) => match String::from_str(self.alloc, text.as_str()) {
                Ok(text) => Ok(Incoming::Text(text)),
                Err(_) => {
                    self.is_closed = true;
                    Err(LinkFault::NoMemory)
                }
            },
            Message::Binary(_) => Ok(Incoming::NotText),
            Message::Ping(_) | Message::Pong(_) => {
                self.settle();
                Ok(Incoming::Control)
            }
            Message::Close(_) => {
                self.settle();
                self.is_closed = true;
                Ok(Incoming::Closed)
            }
        }
    }

    // Answers a bad frame by a close frame with this code, and closes the link.
    fn break_off(&mut self, code: CloseCode) -> LinkFault
        ensures answers { BreaksOff S.contents code self.old.socket self.new.socket result }
        ensures ends { self.new.is_closed ≡ is_last (Err result) }
        ensures faults { IsFaultOfTaking result }
    {
        self.is_closed = true;
        let answer = self.socket.close(Some(close_frame(code)));
        match answer {
            Ok(()) | Err(SocketError::Io(_)) => LinkFault::Protocol,
            Err(_) => LinkFault::NoMemory,
        }
    }

    // Turns an error of a read that no frame caused into what is taken.
    fn fail(&mut self, error: SocketError) -> Result<Incoming, LinkFault>
        ensures tells { seen result ≡ told_fault (fault_of error) }
        ensures ends { self.old.is_closed ≡ false → self.new.is_closed ≡ is_last (seen result) }
        ensures settles { Settles S.contents (seen result) None self.old.socket self.new.socket }
    {
        match fault_of(error) {
            LinkFault::Stream => Err(LinkFault::Stream),
            LinkFault::Closed => {
                self.settle();
                self.is_closed = true;
                Ok(Incoming::Closed)
            }
            fault => {
                self.is_closed = true;
                Err(fault)
            }
        }
    }

    // Sends what is queued, as far as the stream accepts the bytes. The next call sends the rest.
    fn settle(&mut self)
        ensures sent { Flushed S.contents self.old.socket self.new.socket }
        ensures same { self.new.is_closed ≡ self.old.is_closed }
    {
        let _ = self.socket.flush();
    }

    /// Sends a text in one frame, together with all that is queued.
    ///
    /// Copies the text once, and writes to the stream.
    ///
    /// # Errors
    /// - `Stream`, `Protocol`: the link is closed.
    /// - `Full`, `NoMemory`: nothing has changed.
    /// - `Closed`: the connection was closed before.
    pub fn send(&mut self, text: &str) -> Result<(), LinkFault>
        // An Ok means that the frame and the queue went to the stream; each fault leaves the link
        // as described above.
        ensures { SendsText S.contents text.now self.old self.new result }
    {
        self.queue(text)?;
        self.flush()
    }

    /// Queues a text in one frame, so that several texts go out in one write. The queue is sent by the next
    /// [`Link::flush`], [`Link::send`], [`Link::take`] or [`Link::close`]. If 128 KiB are queued, they are
    /// written at once, as far as the stream accepts them.
    ///
    /// Copies the text once.
    ///
    /// # Errors
    /// Those of [`Link::send`].
    pub fn queue(&mut self, text: &str) -> Result<(), LinkFault>
        // An Ok means that the frame is the last in the queue; the stream may have taken some of
        // the queue.
        ensures { QueuesText S.contents text.now self.old self.new result }
    {
        if self.is_closed {
            return Err(LinkFault::Closed);
        }
        let Ok(message) = Message::text(self.alloc, text) else {
            return Err(LinkFault::NoMemory);
        };
        let answer = self.socket.write(message);
        self.sent(answer)
    }

    /// Sends all that is queued.
    ///
    /// Writes to the stream only if something is queued. Takes no memory.
    ///
    /// # Errors
    /// - `Stream`: the link is closed.
    /// - `Closed`: the connection was closed before.
    pub fn flush(&mut self) -> Result<(), LinkFault>
        // An Ok means that the whole queue went to the stream; the only faults are `Stream` and
        // `Closed`.
        ensures { SendsWaiting S.contents self.old self.new result }
    {
        if self.is_closed {
            return Err(LinkFault::Closed);
        }
        let answer = self.socket.flush();
        self.sent(answer)
    }

    /// Sends a close frame with code 1000, a normal closure, without a reason (RFC 6455, 7.4.1), unless one
    /// was sent before. What the peer sends before its own close frame can still be taken.
    ///
    /// # Errors
    /// Those of [`Link::send`].
    pub fn close(&mut self) -> Result<(), LinkFault>
        // An Ok means that the close frame and the queue went to the stream, or that a close frame
        // was sent before.
        ensures { SendsClose S.contents self.old self.new result }
    {
        if self.is_closed {
            return Err(LinkFault::Closed);
        }
        if !self.socket.can_write() {
            return Ok(());
        }
        let answer = self.socket.send(normal_closure());
        self.sent(answer)
    }

    // Turns the socket's answer to a sending call into a result, and closes the link if need be.
    fn sent(&mut self, answer: Result<(), SocketError>) -> Result<(), LinkFault>
        ensures ok { OnOk result (IsOk answer × (self.new ≡ self.old)) }
        ensures err { IfErr result (λ fault. IsFaultOf answer fault × (self.new.socket ≡ self.old.socket) × (self.new.is_closed ≡ closes fault)) }
    {
        match answer {
            Ok(()) => Ok(()),
            Err(error) => {
                let fault = fault_of(error);
                self.is_closed = !matches!(fault, LinkFault::Full | LinkFault::NoMemory);
                Err(fault)
            }
        }
    }
}

// The close frame of a normal closure, without a reason. Takes no memory.
fn normal_closure() -> Message
    ensures { content_of result ≡ close normal_closure }
{
    Message::Close(Some(close_frame(CloseCode::Normal)))
}

// A close frame with this code and no reason. Takes no memory.
fn close_frame(code: CloseCode) -> CloseFrame
    ensures { close_of (Some result) ≡ Some (code, []) }
{
    CloseFrame {
        code,
        reason: Utf8Bytes::new(),
    }
}

// The code of the close frame that answers a bad frame.
fn code_of(error: &SocketError) -> Option<CloseCode>
    ensures { result ≡ code_of error.now }
{
    match error {
        SocketError::Capacity(_) => Some(CloseCode::Size),
        SocketError::Utf8 => Some(CloseCode::Invalid),
        SocketError::Protocol(ProtocolError::ResetWithoutClosingHandshake) => None,
        SocketError::Protocol(_) => Some(CloseCode::Protocol),
        _ => None,
    }
}

// The fault for an error of the socket.
fn fault_of(error: SocketError) -> LinkFault
    ensures { result ≡ fault_of error }
{
    match error {
        SocketError::Io(_) => LinkFault::Stream,
        SocketError::WriteBufferFull => LinkFault::Full,
        SocketError::OutOfMemory => LinkFault::NoMemory,
        SocketError::ConnectionClosed | SocketError::AlreadyClosed => LinkFault::Closed,
        _ => LinkFault::Protocol,
    }
}
