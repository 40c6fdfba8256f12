//! Why a text is not read as JSON, and where.
//!
//! - [`fault_of`] says what is wrong with a text: the first byte at which it stops being JSON, with what may stand
//!   there instead, or what JSON allows and a reader here does not.
//! - [`mended`] puts U+FFFD for each surrogate without its other half.
//!
//! After RFC 8259.
#![tactic(auto)]

mod bytes;
mod fault;
mod mending;
mod numbers;
mod place;
mod reading;
mod surrogates;
mod turns;
mod wants;

pub use fault::{Fault, fault_of};
pub use mending::mended;
pub use place::{Container, NumberPart, Place, State, StringPart, WordPart};
pub use wants::Wants;
