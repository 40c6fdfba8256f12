//! WebSocket links: one end of a connection, which takes and sends whole messages.
//!
//! A [`Link`] works over any stream whose handshake is done. It does not look into its messages, so it serves
//! either end of the protocol.
//!
//! # Calls
//! - [`Link::server`] and [`Link::client`] make a link over a stream, and [`Link::over`] one over the socket
//!   that a handshake of `tungstenite` gave.
//! - [`Link::take`] waits for the next message of the peer, an [`Incoming`]. It also answers pings, close
//!   frames, and frames that break the protocol.
//! - [`Link::send`] sends a text in one frame. To send several in one write, call [`Link::queue`] for each
//!   and [`Link::flush`] at the end.
//! - [`Link::close`] sends a close frame with code 1000.
//!
//! # Limits
//! 64 MiB in a message and 16 MiB in a frame, the defaults of `tungstenite`.
//!
//! # Faults
//! A [`LinkFault`] says whether it closed the link. A closed link takes [`Incoming::Closed`], and sends
//! nothing more.
//!
//! # Memory and time
//! A link holds the bytes of the message that it is reading, and those that are queued. `send` and `queue`
//! copy their text once. After RFC 6455.
#![tactic(auto)]

mod link;

pub use link::{Incoming, Link, LinkFault};
