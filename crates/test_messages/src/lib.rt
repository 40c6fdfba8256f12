//! The tests of values, messages and the local end.
//!
//! A file for each library, or a folder. What is asked stands in tables, which are texts of rows.
#![tactic(auto)]

#[cfg(test)]
mod faults;
#[cfg(test)]
mod local;
#[cfg(test)]
mod messages;
#[cfg(test)]
mod params;
#[cfg(test)]
mod shape;
#[cfg(test)]
mod told;
#[cfg(test)]
mod values;
