//! The tests of the programs over devices that fail. What the programs write is compared by the crate `rows`.
#![tactic(auto)]

#[cfg(test)]
mod failures;
