//! One connection of a server, over a stream that never waits: its handshake, its messages, its end.
//!
//! A [`Peer`] stands over a stream whose reads and writes answer `WouldBlock` where nothing can be done now, so
//! one thread can serve many of them. It knows nothing of what its texts say, and of no other connection.
//!
//! # Calls
//! - [`Peer::take`] tells what came in, one [`Came`] at a time. Call it until it gives [`Came::Nothing`]; then the
//!   stream has no more for now.
//! - [`Peer::open`] or [`Peer::refuse`] answers a handshake, after [`Came::Asks`]; [`Peer::reply`] answers a call, after
//!   [`Came::Calls`].
//! - [`Peer::send`] sends a text, [`Peer::close`] ends the connection, [`Peer::flush`] writes what the stream did not
//!   take before. [`Peer::send_raw`] and [`Peer::send_part`] break the protocol for a test.
//! - [`Peer::is_open`], [`Peer::waits_to_write`] and [`Peer::is_over`] tell where it stands.
//! - [`Peer::held`] counts the bytes that it holds, and [`Peer::shed`] fails it where the host holds too much.
#![tactic(auto)]

mod counting;
mod ending;
mod framing;
mod handshake;
mod inbox;
mod outbox;
mod peer;
mod receiving;
mod sending;
mod standing;
mod stream;
mod waiting;

pub use bidi_requests::{AllowedMethods, Call, Method, ReplyStatus, RequestRefusal};
pub use peer::{Came, ClosingCause, MOST_WAITING};
pub use standing::Peer;
pub use stream::Stream;
