//! What the test crates share: tables of rows, and texts as trees and values.
#![tactic(auto)]

pub mod repeats;
pub mod rows;
pub mod texts;
