//! A connection that is held.
ghost use Rattle.std.specs.Prelude.{◌≡◌, None, OnOk};
ghost use Rattle.bidi_host_loop.specs.Clients.{HandsOn};

use bidi_peer::{Came, ClosingCause, Peer};
use bidi_tree::JsUint;
use mio::net::TcpStream;
use std::alloc::AllocError;
use std::io::{ErrorKind, Read};
use std::net::Shutdown;
use std::time::Instant;

/// How many bytes that nobody takes are read in one call.
const UNREAD: usize = 4096;

/// The most such reads in a turn.
const MOST_READS: u32 = 16;

/// The state of a stream from which nobody takes messages any more.
#[derive(Clone, Copy, Debug, PartialEq, Eq)]
enum Rest {
    /// It has ended, or it failed.
    Ended,
    /// It has no more for now.
    Nothing,
    /// It may have more.
    More,
}

/// The role of a connection.
#[derive(Clone, Copy, Debug, PartialEq, Eq)]
pub(crate) enum Role {
    /// Its handshake is not finished.
    Arriving,
    /// A connection of the remote end, by its number.
    Client(JsUint),
    /// A connection that sends page lines.
    Page,
    /// It is being closed.
    Leaving,
}

/// A connection that is held.
#[derive(Drop)]
pub(crate) struct Slot {
    pub(crate) peer: Peer<TcpStream>,
    pub(crate) role: Role,
    /// When it is dropped, whatever happens.
    pub(crate) deadline: Option<Instant>,
    /// Its stream is read out before it is dropped: its handshake was answered, and opens no connection, or a test cut it off in a message.
    pub(crate) is_read_out: bool,
    /// Something may have come in that was not taken yet.
    pub(crate) is_ready: bool,
    /// Something may be queued that can be written.
    pub(crate) is_due: bool,
    /// A test has nothing taken while the connection is open.
    pub(crate) is_stalled: bool,
    /// A test has the connection end after so many bytes of the frame of its next message.
    pub(crate) cut_after: Option<usize>,
}

impl Slot {
    // Whether the connection has ended, which nobody has noticed yet.
    fn has_failed(&self) -> bool {
        let speaks = matches!(self.role, Role::Client(_) | Role::Page);
        speaks && !self.peer.is_open()
    }

    /// Whether something may have come in that is to be taken.
    pub(crate) fn can_take(&self) -> bool {
        self.is_ready && !(self.is_stalled && self.peer.is_open())
    }

    /// Takes what came in, with the role of the connection.
    pub(crate) fn take(&mut self) -> Result<(Role, Came), AllocError> {
        let came = self.peer.take()?;
        if let Came::Nothing = &came {
            self.is_ready = false;
        }
        Ok((self.role, came))
    }

    /// The port at which the connection was accepted; 0 if the stream does not tell.
    pub(crate) fn port(&self) -> u16 {
        match self.peer.stream().local_addr() {
            Ok(address) => address.port(),
            Err(_) => 0,
        }
    }

    /// Writes what is queued, as far as the stream accepts it.
    pub(crate) fn flush(&mut self) {
        self.peer.flush();
        self.is_due = false;
        if self.has_failed() {
            self.is_ready = true;
        }
    }

    // Writes what is queued, if there may be something. Returns whether the connection can be
    // dropped.
    fn flushed_is_over(&mut self) -> bool {
        let is_due = self.is_due;
        if is_due {
            self.flush();
        }
        self.role == Role::Leaving
            && self.peer.is_over()
            && (!self.is_read_out || is_due && self.read_out())
    }

    // Whether all bytes after an answer were read. A stream that is dropped with unread bytes is
    // reset, and the answer is lost.
    fn read_out(&mut self) -> bool {
        match read_out(self.peer.stream()) {
            Rest::Ended => true,
            Rest::Nothing => false,
            Rest::More => {
                self.is_ready = true;
                self.is_due = true;
                false
            }
        }
    }

    /// Fails the connection, because the host holds too much and this connection holds most of it.
    pub(crate) fn shed(&mut self) -> Result<(), AllocError> {
        self.is_ready = true;
        self.is_due = true;
        self.peer.shed()
    }

    /// Closes the connection after what is queued, and drops it at the deadline.
    pub(crate) fn close(
        &mut self,
        cause: ClosingCause,
        deadline: Option<Instant>,
    ) -> Result<(), AllocError> {
        self.role = Role::Leaving;
        self.deadline = deadline;
        self.is_ready = true;
        self.is_due = true;
        self.peer.close(cause)
    }

    /// Queues a binary message.
    pub(crate) fn send_bytes(&mut self, bytes: &[u8]) -> Result<(), AllocError> {
        self.is_due = true;
        match self.cut_after.take() {
            None => self.peer.send_bytes(bytes)?,
            Some(most) => {
                self.is_read_out = true;
                self.peer.send_part_of_bytes(bytes, most)?;
            }
        }
        if self.has_failed() {
            self.is_ready = true;
        }
        Ok(())
    }

    /// Queues bytes without a frame.
    pub(crate) fn send_raw(&mut self, bytes: &[u8]) -> Result<(), AllocError> {
        self.is_due = true;
        self.peer.send_raw(bytes)?;
        if self.has_failed() {
            self.is_ready = true;
        }
        Ok(())
    }

    /// Queues a text.
    pub(crate) fn send(&mut self, text: &str) -> Result<(), AllocError>
        ensures { OnOk result (self.old.cut_after ≡ None → HandsOn text.now self.old.peer self.new.peer) }
    {
        self.is_due = true;
        match self.cut_after.take() {
            None => self.peer.send(text)?,
            Some(most) => {
                self.is_read_out = true;
                self.peer.send_part(text, most)?;
            }
        }
        if self.has_failed() {
            self.is_ready = true;
        }
        Ok(())
    }
}

/// Whether a connection is that of a page.
pub(crate) fn is_page(slot: &Option<Slot>) -> bool {
    match slot {
        Some(slot) => slot.role == Role::Page,
        None => false,
    }
}

/// Writes what is queued for a connection, if there may be something. Returns whether it can be dropped.
pub(crate) fn flushed_is_over(slot: &mut Option<Slot>) -> bool {
    match slot {
        Some(slot) => slot.flushed_is_over(),
        None => false,
    }
}

// Sends no more on a stream, and discards what came in.
fn read_out(stream: &TcpStream) -> Rest {
    if stream.shutdown(Shutdown::Write).is_err() {
        return Rest::Ended;
    }
    let mut stream = stream;
    let mut unread = [0; UNREAD];
    for _ in 0..MOST_READS {
        match stream.read(&mut unread) {
            Ok(0) => return Rest::Ended,
            Ok(_) => {}
            Err(error) if error.kind() == ErrorKind::WouldBlock => return Rest::Nothing,
            Err(_) => return Rest::Ended,
        }
    }
    Rest::More
}

/// When a connection is dropped.
pub(crate) fn deadline_of(slot: &Option<Slot>) -> Option<Instant> {
    match slot {
        Some(slot) => slot.deadline,
        None => None,
    }
}

/// Whether a connection's deadline has passed.
pub(crate) fn is_past(slot: &Option<Slot>, now: Instant) -> bool {
    match deadline_of(slot) {
        Some(deadline) => deadline <= now,
        None => false,
    }
}
