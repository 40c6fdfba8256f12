//! The listings of `show` and `check`: a line for each message of an input, or for each refused line.
//!
//! [`list`] writes the listing of all lines of a source to a sink; a [`Listing`] says which lines it has. The
//! other calls are its parts:
//!
//! - [`show_line`] gives the line that is shown for one line of the input, and [`refusal`] only why a line is
//!   refused.
//! - [`value_refusal`] does so for a JSON value that was read already.
//! - [`line_verdict`] and [`refused_line`] give the verdict on a command, and the words of a refusal.
//!
//! For `show --from local`, the line `{"id":1,"method":"session.status","params":{}}` is shown as
//! `accepted 1 session.status {"id":1,"method":"session.status","params":{}}`, and `{}` as
//! `refused null invalid argument`.
//!
//! An input has at most 1,000,000,000 lines of at most 2,097,152 bytes. A listing stops at the first
//! [`LinesFault`](bidi_lines::LinesFault), which says what was listed before it. Memory holds one line, its
//! message and its listing.
#![tactic(auto)]

mod message_lines;
mod showing;

pub use message_lines::{Shown, line_verdict, refusal, refused_line, show_line, value_refusal};
pub use showing::{Listing, list};
