//! The tests of hosts: what each call takes as a line, and what is sent for it.
#![tactic(auto)]

#[cfg(test)]
mod hosts;
