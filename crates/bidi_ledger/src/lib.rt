//! The steps of both ends together, and the ledger of what they did.
//!
//! A [`PairStep`] is one step of a play of both ends: a link is opened or cut, a command is sent, one text is
//! carried up or down, or a page takes a step. A [`Ledger`] has an [`Account`] for each link: the [`Fate`] of
//! each command, and the events that were received.
//!
//! This crate has types and definitions only. `specs/Ledger.antt` says which ledger the steps have;
//! `bidi_link` plays steps, and `bidi_pair_lines` reads steps and writes the ledger, as lines.
#![tactic(auto)]

mod ledger;
mod pair_step;

pub use bidi_remote::PageStep;
pub use ledger::{Account, Entry, Fate, Ledger};
pub use pair_step::PairStep;
