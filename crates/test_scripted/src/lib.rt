//! The tests of scripted ends: what each line of a test or of a client brings about.
#![tactic(auto)]

#[cfg(test)]
mod large_rows;
#[cfg(test)]
mod name_limits;
#[cfg(test)]
mod scenes;
