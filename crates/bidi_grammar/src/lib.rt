//! Any grammar of CDDL, and judging a JSON value by it.
//!
//! A grammar is a table of [`Term`]s, which name one another by their places. [`is_grounded`] says whether a table may be asked.
//!
//! [`judge`] judges a value by the term at a place: it fits, it does not fit for a [`Reason`], or that takes more looks than it may.
//! [`fits`] says only whether it fits. [`pointer`], [`wanted`] and [`found_words`] put the parts of a reason into words.
//! [`judging_ends_with_one_answer`] is the law that a reason is determined.
//!
//! [`table_says_what_is_written`] is the law for whoever makes a table of rules in a text: if each place passes a test of its own, the
//! table says of every value what the rules say.
//!
//! A value is one of `json`, with its numbers as texts. Numbers between bounds are compared as IEEE doubles. If two members have the same
//! name, the last one counts for a term that names it, and each of them has to fit as a further member.
//!
//! A call fails only if an allocation fails.
#![tactic(auto)]

mod draft;
mod few;
mod grounded;
mod judging;
mod laws;
mod number;
mod reason;
mod taking;
mod term;
mod wanting;
mod words;

pub use grounded::is_grounded;
pub use judging::{fits, judge};
pub use laws::{judging_ends_with_one_answer, table_says_what_is_written};
pub use reason::{PathStep, Reason, Verdict};
pub use term::{Bound, Need, Row, Term};
pub use wanting::wanted;
pub use words::{found_words, pointer};
