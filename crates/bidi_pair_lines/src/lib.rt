//! The lines of both ends: reading steps, and writing a ledger.
//!
//! [`read_steps`] reads the lines of a source as steps, and [`ledger_lines`] makes the lines of a ledger. In
//! between, `bidi_link` plays the steps; `bidi_run` does all three. The lines are described in
//! docs/FORMATS.md.
//!
//! These lines of a play
//! ```text
//! open 1 /session
//! send 1 session.status {}
//! up 1
//! down 1
//! ```
//! have the ledger
//! ```text
//! 1 1 session.status answered {"message":"ready","ready":true}
//! ```
//!
//! An input has at most 1,000,000,000 lines of at most 2,097,152 bytes. Reading stops at the first
//! [`LinesFault`](bidi_lines::LinesFault). Memory holds all steps, and then all lines of the ledger.
#![tactic(auto)]

mod pair_lines;
mod reading;
mod writing;

pub use reading::read_steps;
pub use writing::ledger_lines;
