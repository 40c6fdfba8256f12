//! What `check --why` and `check --both` write: what is told of each line of an input, and the summary behind it.
//!
//! [`explain`] writes it for the refused lines of an input, and [`explain_both`] joins both ends of a conversation. What is told of one line is made
//! in `bidi_remarks`.
#![tactic(auto)]

mod conversation;
mod conversing;
mod counting;
mod explainer;
mod ids;
mod judging;
mod listing;
mod next_line;
mod one_side;
mod sum;
mod unanswered;
mod writing;

pub use bidi_remarks::Form;
pub use conversing::explain_both;
pub use listing::explain;
