//! A remote end over which a test answers, holds and sends by itself.
//!
//! A [`ScriptedEnd`] wraps a remote end. Rows of a test answer commands in its place, or hold them back until they are released; the test can
//! also send events. Every step for which there is no row goes to the remote end as it came, and commands that a row answers or holds never
//! reach it.
//!
//! # Calls
//! - [`ScriptedEnd::step`] for each step, as [`RemoteEnd::step`](bidi_remote::RemoteEnd::step).
//! - [`ScriptedEnd::answer`], [`ScriptedEnd::hold`] and [`ScriptedEnd::unanswer`] for rows.
//! - [`ScriptedEnd::release`] and [`ScriptedEnd::release_with`] for commands that are held.
//! - [`ScriptedEnd::emit`] for events, [`ScriptedEnd::on`] for events that follow those of the remote end, and
//!   [`ScriptedEnd::followers_of`] for what follows.
//! - [`ScriptedEnd::names`] for names that sessions may subscribe to.
//!
//! # Limits
//! 1,024 rows, 1,024 held commands, and 268,435,456 bytes in the texts of both; [`ScriptFault`] past that, or the error `unknown error` for
//! a command that cannot be held.
#![tactic(auto)]

mod answering;
mod calls;
mod emitting;
mod fault;
mod finding;
mod following;
mod judging;
mod method_set;
mod naming;
mod row_table;
mod script;
mod scripted_end;
mod subscribing;
mod unsubscribing;

pub use fault::ScriptFault;
pub use script::HeldCommand;
pub use scripted_end::{ScriptedEnd, Taken};
