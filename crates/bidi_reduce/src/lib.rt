//! Reducing a play to what matters to one of its sessions.
//!
//! Several tools may share a remote end, each in a session of its own. [`strike`] leaves of the steps of a play
//! what one session would miss: it strikes the messages of other sessions that are refused, and those that only
//! ask or subscribe. That session is sent the same by what is left. [`take_kept`] does so step by step.
//!
//! [`reduce`] does it for the text of a play: it reads a source by lines, and writes the lines of the steps that
//! [`strike`] keeps, byte for byte.
#![tactic(auto)]

mod reducing;
mod striking;

pub use reducing::reduce;
pub use striking::{strike, take_kept};
