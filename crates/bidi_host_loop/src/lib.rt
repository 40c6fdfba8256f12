//! Hosting a remote end for many WebSocket connections at once, in one thread.
//!
//! A host waits for all its sockets together, by `mio`, and never for a single one. Each message that a step
//! sends goes to its own connection, whichever connection asked. A connection on the resource `/page` sends
//! page lines and gets an answer to each. A client can also create and end sessions by calls over HTTP. The
//! clock, the record and the standard streams are [`Surroundings`], so that a test can have its own.
//!
//! # Calls, in order
//! 1. [`Door::new`] over a listener, and [`Hosted::new`] with [`Manners`] and the page lines of
//!    [`page_lines`].
//! 2. [`Hosted::begin`], to play the page lines.
//! 3. [`Hosted::serve`], which returns when a page, or the end of standard input, ends the host, or with
//!    [`Manners::ends_after_last`] after the last session. A test can call [`Hosted::listen`] and then
//!    [`Hosted::turn`] instead.
//!
//! # Limits
//! - 64 connections of the remote end are open at once, and as many of pages.
//! - [`Manners::most_connections`] connections are held in all; the program allows [`MOST_CONNECTIONS`], 512.
//! - A handshake, and the end of a connection, take at most 10 seconds.
//! - [`Manners`] bounds the bytes that wait for one connection, and those that all hold.
//!
//! # Faults
//! A connection that fails does not affect the others. A [`HostingFault`] ends the host: the browser is gone,
//! with its sessions.
//!
//! # What is proved
//! A host goes on by whole steps: for each thing that comes, a line is recorded, then what it brings about is done in
//! order, and a page is answered last. Each new browser takes the lines of the page, all and in order. Contracts read
//! this off an account of what came and of what was done, which only `edge.rt` writes. Turns, deadlines, limits and what
//! is answered to handshakes and calls are tested.
#![tactic(auto)]

mod account;
mod arrivals;
mod bounding;
mod calls;
mod clients;
mod clock;
mod closing;
mod console;
mod door;
mod edge;
mod handing;
mod hosting;
mod lifetime;
mod manners;
mod once;
mod outcomes;
mod own;
mod page_file;
mod pages;
mod peers;
mod refusing;
mod registry;
mod sending;
mod sessions;
mod slot;
mod surroundings;
mod taking;

pub use bidi_peer::MOST_WAITING;
pub use door::Door;
pub use hosting::Hosted;
pub use manners::{MOST_CONNECTIONS, Manners};
pub use page_file::page_lines;
pub use surroundings::Surroundings;
