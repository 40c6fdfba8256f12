//! Plays of a remote end: lines of steps in, lines of what it sends out.
//!
//! [`play`] reads lines from a source, gives each step to a remote end over a browser in memory, and writes
//! what it sends to a sink. The lines are described in docs/FORMATS.md.
//!
//! # Example
//! A play of these two lines
//! ```text
//! open 1 /session
//! > 1 {"id":1,"method":"session.status","params":{}}
//! ```
//! writes these two:
//! ```text
//! opened 1
//! < 1 {"id":1,"result":{"message":"ready","ready":true},"type":"success"}
//! ```
//!
//! # Parts
//! - [`read_step`] reads a line of a play as a step, and [`read_step_text`] one that is known to be UTF-8.
//! - [`heard_text`] reads a line `> C TEXT`, and lends its text.
//! - [`read_number`], [`split_at_space`] and [`is_same_text`] help to read lines that are like those of a
//!   play.
//!
//! # Limits
//! 2,097,152 bytes in a line, and 1,000,000,000 lines in a play.
//!
//! # Faults
//! A play stops at the first fault, [`PlayFault`], which says what was played before it.
//!
//! # Memory and time
//! Memory holds one line and what one step sends, in addition to the remote end. Time grows with the bytes
//! that are read and written, and with the work of the steps.
#![tactic(auto)]

mod lines;
mod playing;

pub use lines::{
    heard_text, is_same_text, lines_of, read_number, read_step, read_step_text, split_at_space,
};
pub use playing::{PlayFault, play};
