//! The classic door of a host: what calls over HTTP ask for, and how they are replied to.
//!
//! A client of classic WebDriver creates a session by `POST /session` and ends it by `DELETE /session/ID`. This crate says
//! which of these a call is, makes the text of the `session.new` that it stands for, and makes the reply of the remote
//! end's answer. It uses no socket.
//!
//! # Calls
//! - [`route_of`] says what a call asks for, by its method and its resource.
//! - [`new_command`] makes the command of a body, and [`end_command`] the one that ends a session.
//! - [`new_reply`] makes the reply of the answer to that command, and [`end_reply`] that of the answer to `session.end`.
//! - [`error_reply`] makes the reply to a call that is not taken.
//!
//! After W3C WebDriver, "Routing requests", "Errors" and "New Session", and WebDriver BiDi, "Establishing a connection".
#![tactic(auto)]

mod capabilities;
mod commands;
mod replies;
mod routes;

pub use commands::{end_command, new_command};
pub use replies::{CallError, Reply, end_reply, error_reply, new_reply};
pub use routes::{Route, route_of};
