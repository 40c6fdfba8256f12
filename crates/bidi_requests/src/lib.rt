//! The requests of a server's connections: what the bytes at the front of a stream ask for, and how they are answered.
//!
//! A request asks for a WebSocket, or it is a call over HTTP with its body, or it is answered at once. Requests are read as
//! RFC 9112 and RFC 6455 have them, and an `Origin` of another machine is refused. This crate reads and writes no stream.
//!
//! # Calls
//! - [`asked_by`] says what bytes are: the beginning of a request, a whole one, or something with an answer of its own.
//!   [`is_to_judge`] says whether bytes that came make another look worth while.
//! - [`Answer::text`] makes the bytes of an answer, and [`ReplyStatus::text`] those of the reply to a [`Call`].
//!
//! # Limits
//! A head has at most 65,536 bytes and 124 fields. A body has at most 65,536 bytes, and 524,288 with its chunks.
//!
//! # Example
//! `bidi_peer` has a connection that asks [`asked_by`] until a request is whole.
#![tactic(auto)]

mod answering;
mod asking;
mod calling;
mod chunks;
mod extensions;
mod fields;
mod origins;
mod targets;

pub use answering::{AllowedMethods, Answer, ReplyStatus, RequestRefusal};
pub use asking::{Asked, asked_by, is_to_judge};
pub use calling::{Call, Method};
pub use targets::is_of_session;
