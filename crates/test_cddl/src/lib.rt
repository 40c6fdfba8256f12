//! The tests of reading the rules of a text in CDDL.
//!
//! `faults` has texts that are not read, with the line and the column of what is wrong. `texts` has texts that are read, with what they are
//! read as.
#![tactic(auto)]

#[cfg(test)]
mod faults;
#[cfg(test)]
mod shown;
#[cfg(test)]
mod texts;
