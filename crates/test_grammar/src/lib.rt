//! The tests of trees, and of parameters and results.
//!
//! They are apart from `tests`, since they wait for less. What is asked stands in tables, which are texts of rows.
#![tactic(auto)]

#[cfg(test)]
mod browser;
#[cfg(test)]
mod browsing;
#[cfg(test)]
mod info;
#[cfg(test)]
mod session;
#[cfg(test)]
mod tree;
