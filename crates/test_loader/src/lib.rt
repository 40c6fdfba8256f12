//! The tests of loading grammars.
//!
//! `by_model` has random grammars and the draft of WebDriver BiDi, with the answers of a second implementation, in Python. `faults` has
//! texts that are no grammar, with the line and the column of what is wrong. `forms` has forms of rules, with values.
#![tactic(auto)]

#[cfg(test)]
mod by_model;
#[cfg(test)]
mod draft;
#[cfg(test)]
mod faults;
#[cfg(test)]
mod forms;
#[cfg(test)]
mod tables;
