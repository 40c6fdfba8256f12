//! Why a line of a page has no effect, or is not a line of a page.
//!
//! A host answers each line of a page. If the line did nothing, these calls say why, in words for the author
//! of a test:
//!
//! - [`refusal`] asks a remote end why a step of a page has no effect, as a [`Cause`], and [`no_effect`] says
//!   it in words.
//! - [`no_line`] says which word keeps a text from being a line of a page, and [`no_play_line`] from being one of a
//!   scripted play.
//!
//! For the line `at 05`, `no_line` gives `"05" is no moment, a whole number from 0 to 9007199254740991`.
//!
//! The calls change nothing. They are made only after a line did nothing, so a line that has an effect costs
//! nothing extra.
#![tactic(auto)]

mod cause;
mod nearly;
mod row;
mod telling;

pub use cause::{Cause, refusal};
pub use nearly::{no_line, no_play_line};
pub use telling::no_effect;
