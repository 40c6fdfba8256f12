//! What is told of one line by `check --why` and `check --both`: where it goes wrong and why, and how it is counted.
//!
//! [`explain_line`] judges a line of one end. A line of a conversation gets a [`Remark`], by one of the functions that make remarks, and
//! [`tell_remark`] writes it.
#![tactic(auto)]

mod bad_text;
mod beyond;
mod claim;
mod finding;
mod json_lines;
mod misfit;
mod putting;
mod remark;
mod result_misfit;
mod telling;
mod texts;
mod trimming;

pub use bad_text::BadText;
pub use finding::{Trouble, begins_with_mark, has_odd_id, id_in, method_beyond, trouble_in};
pub use misfit::Misfit;
pub use remark::{Remark, bad_line, id_waits, no_message, stray, too_many, unanswered_line};
pub use result_misfit::bad_result;
pub use telling::{CountedAs, Told, explain_line, explain_long, is_remark_beyond, tell_remark};
pub use texts::Form;
