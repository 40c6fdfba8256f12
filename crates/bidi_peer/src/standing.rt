//! Where a connection stands.
ghost use Rattle.std.specs.Prelude.{◌≡◌, ◌≢◌, ◌-◌, ◌^◌, [], min};
ghost use Rattle.bidi_peer.specs.Telling.{HasEnded, IsCut, IsUnclosed};
ghost use Rattle.bidi_peer.specs.Waiting.{payload_of, unwritten};
ghost use Rattle.bidi_peer.specs.declared.standing.End.TheVariants.{Ahead};
ghost use Rattle.bidi_peer.specs.declared.standing.State.TheVariants.{Open};
ghost use Rattle.websocket.specs.declared.protocol.config.Role.TheVariants.{Server};
ghost use Rattle.websocket.specs.declared.protocol.state.WebSocketState.TheVariants.{Active};

use super::stream::Failure;
use super::waiting::{Inbox, Outbox};
use std::alloc::Global;
use websocket::protocol::WebSocketContext;

/// Where a connection stands.
#[derive(Clone, Copy, Debug, PartialEq, Eq)]
pub(crate) enum State {
    /// A request is being read.
    Head,
    /// A request for a WebSocket waits for its answer, which has this key.
    Asked([u8; 28]),
    /// A call waits for its reply.
    Called,
    /// Messages go both ways.
    Open,
    /// A close frame was sent, and the peer's is not here yet.
    Closing,
    /// Nothing more is read. It is over once what waits is written.
    Leaving,
    /// Nothing more is read or written.
    Done,
    /// The stream failed, so nothing more is read or written.
    Failed(Failure),
}

/// Whether the caller knows that no more comes.
#[derive(Clone, Copy, Debug, PartialEq, Eq)]
pub(crate) enum End {
    /// It is not so yet.
    Ahead,
    /// The next take tells it.
    Due,
    /// It knows.
    Known,
}

/// One connection of a client: its handshake, its messages, its end.
#[derive(Drop)]
pub struct Peer<S> {
    pub(crate) alloc: Global,
    pub(crate) stream: S,
    pub(crate) state: State,
    pub(crate) end: End,
    pub(crate) context: WebSocketContext,
    /// How many bytes of payload came of a message whose end has not come.
    pub(crate) fragments: usize,
    /// How many bytes the request has at least, if it is a call whose head is here; else 0.
    pub(crate) least: usize,
    pub(crate) inbox: Inbox,
    pub(crate) outbox: Outbox,
    pub(crate) most_waiting: usize,
    // Nothing waits for a stream that is not written any more.
    ghost cut: { IsCut state → unwritten outbox ≡ [] },
    // Until a close frame is sent or received, and until the stream ends, the end is ahead.
    ghost ahead: { IsUnclosed state → end ≡ Ahead },
    // Where nothing more is read, the end was told, or the next take tells it.
    ghost owes: { HasEnded state → end ≢ Ahead },
    // The protocol of an open connection reads and writes.
    ghost active: { state ≡ Open → context.state ≡ Active },
    // The payload that waits for the end of its message is counted.
    ghost part: { fragments ≡ min (payload_of context.fragments) (2 ^ 64 - 1) },
    // The protocol is that of a server, which masks no frame.
    ghost server: { context.role ≡ Server },
}
