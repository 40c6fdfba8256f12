//! Devices, and the lines of an input, read and answered one by one.
//!
//! A program reads from a [`Source`] and writes to a [`Sink`]. They are like the reader and writer of `std`,
//! but a contract can name their bytes. A [`Device`] is a source over any reader, or a sink over any writer,
//! and [`Nowhere`] is a sink that keeps nothing. [`Side`] says which end sent the messages of an input.
//!
//! # Calls
//! - [`answer_lines`] reads all lines of a source, has an [`Answerer`] answer them, and writes the answers.
//!   Most programs need only this.
//! - [`LineReader::next`] gives the lines of a source one by one. After [`InputFault::BadLine`],
//!   [`LineReader::skip`] goes on with the next line.
//! - [`write_all`] writes all of some bytes.
//!
//! # Example
//! ```rust
//! answer_lines(alloc, &mut player, u64::MAX, source, sink)?;
//! ```
//! `player` is any [`Answerer`]; the `play` of `bidi_play` is this call.
//!
//! # Limits
//! A line has at most [`LONGEST_LINE`] bytes, 2,097,152, without its line feed, and each line has to end in
//! one.
//!
//! # Faults
//! A [`LineReader`] whose read failed, or which ran out of memory, has lost no byte: the same call may be
//! made again, unless its docs say otherwise. [`answer_lines`] stops at the first fault, and [`LinesFault`]
//! says why.
//!
//! # Memory and time
//! Memory holds one line and its answer, and up to 64 KiB that were read ahead. Time grows with the bytes
//! that are read and written.
#![tactic(auto)]

mod answering;
mod device;
mod line_reader;
mod side;
mod tally;

pub use answering::{AnswerFault, Answerer, LinesFault, answer_lines};
pub use device::{Device, DeviceFault, Nowhere, Sink, Source, write_all};
pub use line_reader::{InputFault, LONGEST_LINE, LineReader, MOST_LINES, Skipped};
pub use side::Side;
