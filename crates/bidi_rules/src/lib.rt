//! The rules of the grammar as data.
//!
//! [`Name::term`] gives the [`Term`] of each rule, which is proved equal to the definition of its name; `bidi_shape` and the crates above it read
//! values by the same definitions.
#![tactic(auto)]

mod name;
mod rules;
mod term;

pub use name::Name;
pub use term::{ANY, Need, Openness, Row, Term};
