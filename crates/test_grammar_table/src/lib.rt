//! The tests of judging by a table.
//!
//! `by_hand` has rows whose answers follow from RFC 8610 and, for reasons, from the words of `bidi_grammar`. `by_model` has random grammars
//! and values with the answers of a second implementation, in Python.
#![tactic(auto)]

#[cfg(test)]
mod by_hand;
#[cfg(test)]
mod by_model;
#[cfg(test)]
mod tables;
