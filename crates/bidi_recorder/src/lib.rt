//! A remote end that records what comes in as the lines of a play.
//!
//! A [`Host`] holds a remote end. Each call takes one input, of a connection or of a page, and returns a
//! [`Recorded`]: what it brings about, and the line of a scripted play for this input. If the caller sends all that and
//! keeps the lines in order, the lines are a record: played by `bidi_script_lines`, they give byte for byte what
//! was sent.
//!
//! # Calls
//! - [`Host::new`], once.
//! - [`Host::opened`], [`Host::heard`], [`Host::heard_no_text`] and [`Host::dropped`] for what happens on
//!   connections.
//! - [`Host::page_line`] for each line of a page, and [`Host::reset`] to start again.
//! - [`Host::is_open`] and [`Host::remote_end`] to ask.
//!
//! # Example
//! For connection 1, `host.opened(conn, "/session")?` gives the line `open 1 /session`.
//!
//! # Limits and faults
//! A host does no input or output. It takes 1,000,000,000 inputs; [`HostFault::WornOut`] after that. A call
//! that fails has changed nothing. Each call copies its text once or twice; the rest of its cost is that of
//! the remote end.
#![tactic(auto)]

mod fault;
mod host;
mod page;
mod saying;

pub use fault::HostingFault;
pub use host::{Host, HostFault, Recorded};
