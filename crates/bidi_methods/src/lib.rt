//! The data of messages: commands, results and events.
//!
//! [`CommandData`], [`ResultData`] and [`EventData`] have a variant for each [`Method`] or [`EventName`],
//! with the params or the result of that kind. A command is a [`SessionCommand`], which the remote end
//! carries out by itself, or a [`BrowserCommand`].
//!
//! # Calls
//! - [`data_of`] reads the params of a method from a tree, and [`result_of`] the result of a method from the
//!   members of a response's result.
//! - [`Payload::read`] reads a value of any kind, from a tree, an outline, or a JSON value that borrows from
//!   its text.
//! - [`Payload::outline`] makes the outline of a value's tree, to be written, and [`Payload::to_tree`] the
//!   tree itself.
//! - [`Payload::kind`] gives the method or the event name of a value.
//!
//! A tree of a payload has at most 70 levels. Reading fails with `NoFit` if the tree does not fit the rule of
//! that kind, and with `NoMemory` if an allocation failed. After WebDriver BiDi, "Protocol".
#![tactic(auto)]

mod command_data;
mod event_data;
mod method;
mod payload;
mod result_data;

pub use command_data::{BrowserCommand, CommandData, SessionCommand, data_of};
pub use event_data::{EventData, EventName};
pub use method::Method;
pub use payload::Payload;
pub use result_data::{ResultData, result_of};
