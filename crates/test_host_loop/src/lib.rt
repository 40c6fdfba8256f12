//! The tests of hosting, over loopback.
#![tactic(auto)]

#[cfg(test)]
mod broken;
#[cfg(test)]
mod call_steps;
#[cfg(test)]
mod calls;
#[cfg(test)]
mod clients;
#[cfg(test)]
mod faults;
#[cfg(test)]
mod files;
#[cfg(test)]
mod frames;
#[cfg(test)]
mod lab;
#[cfg(test)]
mod leniency;
#[cfg(test)]
mod once;
#[cfg(test)]
mod records;
#[cfg(test)]
mod scenes;
#[cfg(test)]
mod serving;
#[cfg(test)]
mod steps;
#[cfg(test)]
mod words;
#[cfg(test)]
mod world;
