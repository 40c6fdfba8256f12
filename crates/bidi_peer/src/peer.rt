//! One connection of a client.
ghost use Rattle.std.specs.Prelude.{◌≡◌, ◌≢◌, ◌↔◌, ◌+◌, ◌-◌, ◌^◌, [], min, length, IfOk, IsTrue, Ok, OnErr, OnOk};
ghost use Rattle.websocket.specs.declared.protocol.config.Role.TheVariants.{Server};
ghost use Rattle.bidi_peer.specs.Closing.{closing_code};
ghost use Rattle.bidi_peer.specs.Ends.{IsClosing, IsDry, IsUnread, IsWordless, LearnsEnd};
ghost use Rattle.bidi_peer.specs.Hearing.{IsHeard};
ghost use Rattle.bidi_peer.specs.Messages.{IsFresh, IsTold};
ghost use Rattle.bidi_peer.specs.Telling.{HasEnded, IsCut, IsNew, IsOver, IsTimely, StaysKnown, TellsOnce};
ghost use Rattle.bidi_peer.specs.Waiting.{held_in, held_out, untaken, unwritten};
ghost use Rattle.bidi_peer.specs.declared.peer.Came.TheVariants.{Ended, Nothing};
ghost use Rattle.bidi_peer.specs.declared.standing.End.TheVariants.{Ahead, Due, Known};
ghost use Rattle.bidi_peer.specs.declared.standing.State.TheVariants.{Closing, Done, Open};

use super::standing::{End, Peer, State};
use super::stream::Stream;
use super::waiting::{Inbox, Outbox};
use bidi_requests::Call;
use std::alloc::{AllocError, Global};
use websocket::protocol::{CloseCode, Role, WebSocketConfig, WebSocketContext};

/// How many bytes of frames may wait to be written, unless [`Peer::with_bound`] says otherwise: 64 MiB.
pub const MOST_WAITING: usize = 64 << 20;

/// What came in.
#[derive(Drop)]
pub enum Came {
    /// All that has come was taken. Try again when the stream has more.
    Nothing,
    /// Something came of which nothing is told, as pings and parts of a message. More may be here: take again, when
    /// others had their turn.
    More,
    /// A client asks for a WebSocket at this resource: what follows the authority in the absolute form of a target, else
    /// the target as it was written. Answer by [`Peer::open`] or [`Peer::refuse`].
    Asks(String),
    /// A client calls: a request over HTTP that asks for no WebSocket, with its body. Answer by [`Peer::reply`].
    Calls(Call),
    /// A text message.
    Text(String),
    /// A binary message.
    NotText,
    /// The connection takes no more: the peer closed it, broke the protocol (it is being told by a close frame or
    /// an HTTP answer), reads too slowly, or the stream ended or failed. Told once; later takes give `Nothing`.
    Ended,
}

/// Why the server closes.
#[derive(Clone, Copy, Debug, PartialEq, Eq)]
pub enum ClosingCause {
    /// What the connection was for is done: code 1000.
    Done,
    /// The server stops: code 1001.
    GoingAway,
    /// The caller wants this code, which a close frame may carry.
    Code(u16),
}

impl<S: Stream> Peer<S> {
    /// A connection whose client has asked for nothing yet. At most [`MOST_WAITING`] bytes wait to be written. Takes
    /// no memory.
    pub fn new(alloc: Global, stream: S) -> Peer<S>
        // No request and no end has been reported.
        ensures fresh { IsNew result.state result.end }
        // The connection uses the given stream.
        ensures stream { result.stream ≡ stream }
        // No bytes have come, and none wait to be written.
        ensures empty { (untaken result.inbox ≡ []) × (unwritten result.outbox ≡ []) }
        // No head is there, and no part of a message.
        ensures least { (result.least ≡ 0) × (result.fragments ≡ 0) }
        // At most 64 MiB wait to be written.
        ensures bound { result.most_waiting ≡ 67108864 }
    {
        Peer::with_bound(alloc, stream, MOST_WAITING)
    }

    /// The same, where at most so many bytes wait to be written.
    pub fn with_bound(alloc: Global, stream: S, most_waiting: usize) -> Peer<S>
        // No request and no end has been reported.
        ensures fresh { IsNew result.state result.end }
        // The connection uses the given stream.
        ensures stream { result.stream ≡ stream }
        // No bytes have come, and none wait to be written.
        ensures empty { (untaken result.inbox ≡ []) × (unwritten result.outbox ≡ []) }
        // No head is there, and no part of a message.
        ensures least { (result.least ≡ 0) × (result.fragments ≡ 0) }
        // At most so many bytes wait to be written.
        ensures bound { result.most_waiting ≡ most_waiting }
    {
        Peer {
            alloc,
            stream,
            state: State::Head,
            end: End::Ahead,
            context: new_context(alloc),
            fragments: 0,
            least: 0,
            inbox: Inbox::new(alloc),
            outbox: Outbox::new(alloc),
            most_waiting,
        }
    }

    /// Tells what came in, one thing at a time. It reads the stream only where no whole frame is here, until there is
    /// one or the stream has no more for now; between a request and its answer it reads nothing. Answers to pings, to
    /// a close frame and to a request that is neither for a WebSocket nor a call are written as far as the stream takes
    /// them.
    ///
    /// # Errors
    /// No memory: an allocation failed. The connection is over, and the next take gives `Ended`.
    pub fn take(&mut self) -> Result<Came, AllocError>
        // If the caller already knew of the end, it still does.
        ensures stays_known { StaysKnown self.old.end self.new.end }
        // After an Ok, the end is reported only if the caller did not know it, and the caller knows it then; any other report leaves that as it was.
        ensures tells_once { IfOk result (TellsOnce self.old.end self.new.end) }
        // If nothing more is read, the caller knows it.
        ensures told { OnOk result (HasEnded self.new.state → self.new.end ≡ Known) }
        // A request is reported only while it waits for its answer, and a message only while the connection is open.
        ensures timely { IfOk result (IsTimely self.new.state) }
        // Until a request is reported, the bytes that came are judged: a request for a WebSocket and a call are reported, and any other is answered.
        ensures heard { IsNew self.old.state self.old.end → IfOk result (IsHeard S.remaining S.contents self.old self.new) }
        // An open connection reports the next message of the bytes that came, and `Nothing` only if no whole frame is left.
        ensures messages { self.old.state ≡ Open → self.old.end ≢ Known → IfOk result (IsTold S.remaining S.contents self.old self.new) }
        // An end that is due is reported at once, and nothing is read or written.
        ensures due { self.old.end ≡ Due → (result ≡ Ok Ended) × LearnsEnd self.old self.new }
        // While a request or a call waits for its answer, and once nothing more is read, nothing is reported and nothing changes, unless the end is due.
        ensures rests { IsUnread self.old.state → self.old.end ≢ Due → (result ≡ Ok Nothing) × (self.new ≡ self.old) }
        // A closing connection passes over the messages of the bytes that came, and reports the end only with its cause.
        ensures closing { self.old.state ≡ Closing → self.old.end ≡ Ahead → IfOk result (IsClosing S.remaining S.contents self.old self.new) }
        // A closing connection reports no request and no message.
        ensures wordless { self.old.state ≡ Closing → IfOk result IsWordless }
        // `Nothing` is reported only if the last call of the stream was a read that had nothing for now, or if the connection is not read.
        ensures dry { IfOk result (IsDry S.reads self.new) }
        // After a failed allocation nothing more is read or written.
        ensures err { OnErr result (self.new.state ≡ Done) }
        // The bound of what waits to be written is the same.
        ensures bound { self.new.most_waiting ≡ self.old.most_waiting }
    {
        let came = self.take_in_state();
        if came.is_err() {
            self.cut();
        }
        came
    }

    // Tells what came in.
    #[tactic(auto, using(crate::proofs::DryLemmas::ended_dry, crate::proofs::DryLemmas::resting_dry))]
    fn take_in_state(&mut self) -> Result<Came, AllocError>
        ensures stays_known { StaysKnown self.old.end self.new.end }
        ensures tells_once { IfOk result (TellsOnce self.old.end self.new.end) }
        ensures told { OnOk result (HasEnded self.new.state → self.new.end ≡ Known) }
        ensures timely { IfOk result (IsTimely self.new.state) }
        ensures heard { IsNew self.old.state self.old.end → IfOk result (IsHeard S.remaining S.contents self.old self.new) }
        ensures messages { self.old.state ≡ Open → self.old.end ≢ Known → IfOk result (IsTold S.remaining S.contents self.old self.new) }
        ensures due { self.old.end ≡ Due → (result ≡ Ok Ended) × LearnsEnd self.old self.new }
        ensures rests { IsUnread self.old.state → self.old.end ≢ Due → (result ≡ Ok Nothing) × (self.new ≡ self.old) }
        ensures closing { self.old.state ≡ Closing → self.old.end ≡ Ahead → IfOk result (IsClosing S.remaining S.contents self.old self.new) }
        ensures wordless { self.old.state ≡ Closing → IfOk result IsWordless }
        ensures dry { IfOk result (IsDry S.reads self.new) }
        ensures bound { self.new.most_waiting ≡ self.old.most_waiting }
    {
        if self.end == End::Due {
            return Ok(self.tell_end());
        }
        match self.state {
            State::Head => self.read_request(),
            State::Open | State::Closing => self.read_messages(),
            State::Asked(_) | State::Called | State::Leaving | State::Done | State::Failed(_) => Ok(
                self.or_end(Came::Nothing),
            ),
        }
    }

    /// How many bytes of memory the connection holds: for what came and was not reported yet, also the parts of a message
    /// whose end has not come, and for what waits to be written.
    ///
    /// A block of memory that may be kept for later, of at most 64 KiB, counts by the bytes that wait in it.
    pub fn held(&self) -> usize
        // It adds the memory for the bytes that wait to be taken, the payload of an unfinished message, and the memory for the bytes that wait to be written.
        ensures { result ≡ min (held_in self.now.inbox + self.now.fragments + held_out self.now.outbox) (2 ^ 64 - 1) }
    {
        let came = self.inbox.held().saturating_add(self.fragments);
        came.saturating_add(self.outbox.held())
    }

    /// How many bytes came and were not told yet.
    pub(crate) fn came(&self) -> usize
        ensures { result ≡ min (length (untaken self.now.inbox) + self.now.fragments) (2 ^ 64 - 1) }
    {
        self.inbox.waiting().len().saturating_add(self.fragments)
    }

    /// Whether bytes wait that the stream did not take.
    pub fn waits_to_write(&self) -> bool
        // True exactly if bytes wait to be written.
        ensures { IsTrue result ↔ (unwritten self.now.outbox ≢ []) }
    {
        !self.outbox.is_empty()
    }

    /// Whether texts can be sent.
    pub fn is_open(&self) -> bool
        // True exactly if the connection is open.
        ensures { IsTrue result ↔ (self.now.state ≡ Open) }
    {
        matches!(self.state, State::Open)
    }

    /// Whether nothing more will come or go, and the caller knows it: the stream can be dropped.
    pub fn is_over(&self) -> bool
        // True exactly if nothing more is read or written and the caller knows the end.
        ensures over { IsTrue result ↔ IsOver self.now.state self.now.end (unwritten self.now.outbox) }
        // If it is over, nothing waits to be written.
        ensures written { IsTrue result → unwritten self.now.outbox ≡ [] }
        // If it is over, the caller knows the end.
        ensures known { IsTrue result → self.now.end ≡ Known }
        // A connection that was cut, or whose stream failed, is over once the caller knows the end.
        ensures done { IsCut self.now.state → self.now.end ≡ Known → IsTrue result }
        // If it is over, it is not open.
        ensures open { IsTrue result → self.now.state ≢ Open }
    {
        let is_left = match self.state {
            State::Leaving => self.outbox.is_empty(),
            State::Done | State::Failed(_) => true,
            _ => false,
        };
        is_left && self.end == End::Known
    }

    /// The stream.
    pub fn stream(&self) -> &S
        // The result is the stream of the connection.
        ensures { result.now ≡ self.now.stream }
    {
        &self.stream
    }
}

/// The protocol of a server whose handshake is done.
pub(crate) fn new_context(alloc: Global) -> WebSocketContext
    ensures role { result.role ≡ Server }
    ensures fresh { IsFresh result }
{
    WebSocketContext::new(alloc, Role::Server, WebSocketConfig::default())
}

impl ClosingCause {
    /// The code of its close frame.
    pub(crate) fn code(self) -> CloseCode
        ensures { result ≡ closing_code self }
    {
        match self {
            ClosingCause::Done => CloseCode::Normal,
            ClosingCause::GoingAway => CloseCode::Away,
            ClosingCause::Code(code) => CloseCode::from(code),
        }
    }
}
