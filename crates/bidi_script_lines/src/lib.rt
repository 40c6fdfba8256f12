//! Lines of a scripted play: the lines of a play, and those by which a test answers, holds, sends and cuts.
//!
//! [`play_scripted`] reads lines from a source, gives each to a scripted end, and writes what is sent to a sink. The lines are described in
//! docs/FORMATS.md.
//!
//! # Example
//! A scripted play of these three lines
//! ```text
//! open 1 /session
//! hold {"method":"session.status"}
//! > 1 {"id":1,"method":"session.status","params":{}}
//! ```
//! writes these two:
//! ```text
//! opened 1
//! held 1 1 {"id":1,"method":"session.status","params":{}}
//! ```
//!
//! # Parts
//! - [`read_script_line`] reads a line, and [`read_script_text`] one that is known to be UTF-8.
//! - [`perform`] gives a line to a scripted end and returns its [`Outcome`].
//! - [`outcome_lines`] makes the lines that are written for an outcome.
//!
//! # Limits
//! 2,097,152 bytes in a line, and those of `bidi_scripted`.
//!
//! # Faults
//! A line that has no effect is answered by `no effect: REASON`. A play stops at the first fault, [`PlayFault`](bidi_play::PlayFault).
#![tactic(auto)]

mod connections;
mod outcome;
mod performing;
mod reasons;
mod rows;
mod script_line;
mod scripted_play;
mod steps;

pub use outcome::{Outcome, held_line, outcome_lines, with_followers};
pub use performing::perform;
pub use script_line::{ScriptLine, read_script_line, read_script_text};
pub use scripted_play::play_scripted;
