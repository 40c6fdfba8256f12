//! The tests of reasons: each rule at least once, and each kind of reason.
//!
//! What is expected follows from the rules of `docs/FORMATS.md`, by hand.
#![tactic(auto)]

#[cfg(test)]
mod reasons;
