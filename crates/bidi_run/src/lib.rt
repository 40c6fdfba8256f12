//! The programs of the command line, as one call over readers and writers.
//!
//! [`run`] does what a [`Run`](bidi_command_line::Run) asks for: it reads a source, writes to a sink, writes
//! faults to another sink, and returns the status. The work is done by `bidi_play`, `bidi_reduce`,
//! `bidi_show` and `bidi_why`, and here by [`play_pair`], over the lines of `bidi_pair_lines`, and [`reduce_scripted`]. The crate
//! `bidi` runs it over the standard streams, and with a [`Recent`] source says why a run stopped at a line.
//!
//! [`serving_status`] and [`hosting_status`] give the status of `serve` and `host`, which need a listener. A
//! [`RunFault`] is the fault of any of them.
#![tactic(auto)]

mod faults;
mod pairing;
mod recent;
mod reducing;
mod running;

pub use faults::RunFault;
pub use pairing::play_pair;
pub use recent::Recent;
pub use reducing::reduce_scripted;
pub use running::{hosting_status, run, serving_status};
