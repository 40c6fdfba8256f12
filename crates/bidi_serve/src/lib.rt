//! A remote end that serves WebSocket connections, one after another.
//!
//! [`serve`] serves the connections of a listener over one remote end, and [`serve_link`] one connection over
//! a link, so that a client library can talk to the remote end. Tests can do so in their own process. To
//! serve many connections at once, see `bidi_host_loop`.
//!
//! A handshake or a link that fails ends only its own connection. [`ServeFault`] says why serving ended
//! early: the listener failed, an allocation failed, or the remote end has taken 1,000,000,000 steps.
//! Messages and frames have the limits of `bidi_socket`.
#![tactic(auto)]

mod listening;
mod serving;

pub use listening::{ServeFault, serve};
pub use serving::serve_link;
