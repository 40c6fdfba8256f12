//! Rows by which a test answers or holds commands: reading them, and asking which commands they are for.
//!
//! A [`Row`] is a JSON object such as `{"method":"browser.close","result":{}}`. It names the method of the commands that it
//! is for, and may name a part that their params have. It answers such a command with a result or an error, with
//! [`Event`]s directly before and after the reply, or it holds the command back.
//!
//! # Calls
//! - [`read_row`] reads a row that answers, [`read_hold`] one that holds, [`read_answer`] an answer without a command, and
//!   [`read_event`] an event.
//! - [`command_in`] is the command that a JSON value is, and [`Row::matches`] says whether a row is for it.
//! - [`reply_text`] is the message of a reply, and [`compact`] the compact JSON text of a value.
//! - [`read_templates`] reads events that follow others; [`Template::fill`] fills their places.
//! - [`string_at`] and [`object_at`] look into a JSON value.
//!
//! # Example
//! `{"method":"script.evaluate","params":{"expression":{"$starts":"alert("}},"result":{}}` is a row for each
//! `script.evaluate` whose expression starts with `alert(`.
//!
//! # Limits
//! - 1,048,576 bytes in the text of a row, an answer or an event.
//! - 60 levels in a part, and 128 in all.
//!
//! Numbers are kept as they are written, also those with a fraction. If an object has two properties of one name, the last
//! one counts.
#![tactic(auto)]

mod command;
mod events;
mod fault;
mod filling;
mod index;
mod looking;
mod matching;
mod part;
mod reading;
mod row;
mod template;
mod writing;

pub use command::{Command, command_in};
pub use fault::RowFault;
pub use filling::{Filling, filling_of};
pub use looking::{object_at, string_at};
pub use part::Part;
pub use reading::{read_answer, read_event, read_hold, read_row, read_templates};
pub use row::{Action, Answer, Event, Reply, Row};
pub use template::Template;
pub use writing::{compact, reply_text};
