//! The tests of the browser, the remote end, what is struck, and both ends together.
#![tactic(auto)]

#[cfg(test)]
mod browser;
#[cfg(test)]
mod link;
#[cfg(test)]
mod long;
#[cfg(test)]
mod remote;
#[cfg(test)]
mod strike;
