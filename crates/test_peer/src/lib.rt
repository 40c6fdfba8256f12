//! The tests of connections over streams that never wait.
#![tactic(auto)]

#[cfg(test)]
mod answers;
#[cfg(test)]
mod calls;
#[cfg(test)]
mod peers;
#[cfg(test)]
mod wires;
