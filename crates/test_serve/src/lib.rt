//! The tests of serving, over loopback.
#![tactic(auto)]

#[cfg(test)]
mod serving;
