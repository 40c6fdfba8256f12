//! The tests of texts of clients without what the profile does not have.
#![tactic(auto)]

#[cfg(test)]
mod easing;
