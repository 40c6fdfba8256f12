//! Why a tree does not fit a rule of the grammar.
//!
//! [`blame`] takes a tree and the [`Name`] of a rule. If the tree does not fit, it returns a [`Reason`]: the place, what may be
//! there, and what is there. [`pointer`], [`wanted`] and [`found_words`] put the parts of a reason into words, and [`has_escapes`]
//! says whether JSON needs escapes for a string.
//!
//! The rules are those of `bidi_rules`. A call fails only if an allocation fails.
#![tactic(auto)]

mod blaming;
mod draft;
mod few;
mod quoting;
mod reason;
mod taking;
mod wanting;
mod words;

pub use bidi_rules::{Name, Need, Openness, Row, Term};
pub use blaming::blame;
pub use quoting::has_escapes;
pub use reason::{PathStep, Reason, Want};
pub use wanting::{Alternatives, wanted};
pub use words::{found_words, pointer};
