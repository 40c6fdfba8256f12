//! Messages: commands, responses, errors and events, and their JSON texts.
//!
//! # Calls of a remote end
//! - [`judge`] accepts a text as a [`Command`], or says which error answers it.
//! - [`response_text`], [`error_text`] and [`event_text`] make the text of what it sends.
//!
//! # Calls of a local end
//! - [`text_of`] makes the text of a command.
//! - [`read_message`] reads a text as a [`Message`], and [`message_of`] does so from a tree. [`result_of`]
//!   then reads the result of a [`Response`], by the method of the command that it answers.
//! - [`response_id`] recognizes a response quickly, without making a message of it.
//!
//! [`judge_with`] and [`read_message_with`] use a scratch that the caller keeps from text to text, and [`judge_value`] takes a value
//! that was read before.
//!
//! # Example
//! `judge(alloc, text)?` accepts `{"id":1,"method":"session.status","params":{}}`. It refuses
//! `{"id":1,"method":"session.fly","params":{}}` with the id 1 and the code `unknown command`.
//!
//! # Limits
//! - 1,048,576 bytes in the text of a command; a longer one is refused. A message may have any length.
//! - 60 levels in a further member or a script value, and 61 in a result.
//! - 127 levels in a text that is read; past that it is not JSON.
//!
//! # Faults
//! A call that fails has changed nothing, except that [`response_text`] uses up its result. All faults but
//! `NoMemory` lie in the text, so the same text fails again.
//!
//! # Memory and time
//! A text is walked once. A message owns its strings, and a text that is sent is compact, with its members in
//! byte order of their names. After WebDriver BiDi, "Protocol" and "Transport".
#![tactic(auto)]

mod command;
mod envelope;
mod event;
mod judging;
mod message;
mod plain;
mod response_reading;
mod sending;
mod straight;
mod straight_entry;
mod text;

pub use bidi_methods::{
    BrowserCommand, CommandData, EventData, EventName, Method, Payload, ResultData, SessionCommand,
    data_of, result_of,
};
pub use bidi_params::ErrorCode;
pub use bidi_shape::Named;
pub use command::Command;
pub use event::Event;
pub use judging::{Verdict, judge, judge_value, judge_with};
pub use message::{ErrorResponse, Message, Response};
pub use response_reading::response_id;
pub use sending::{error_text, event_text, response_around, response_text};
pub use text::{MessageFault, Sendable, message_of, read_message, read_message_with, text_of};
