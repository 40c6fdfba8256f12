//! The remote end: connections, sessions, subscriptions, and who is sent which text.
//!
//! A [`RemoteEnd`] takes one [`Step`] at a time and returns what it sends for it, as a list of [`Sent`]. It
//! does no input or output, and what it sends depends only on the steps that it has taken.
//!
//! Commands of the session module are decided here. All other commands and the steps of pages go to a browser in
//! memory. Each event is sent to the sessions that are subscribed to it. The log entries that a session misses
//! are kept until it subscribes to them.
#![tactic(auto)]

mod asking;
mod deciding;
mod event_texts;
mod hearing;
mod opening;
mod page_steps;
mod refusing;
mod remote_end;
mod rows;
mod session;
mod state;
mod striking;
mod taking;
mod telling;
mod turn;

pub use bidi_browser::Top;
pub use bidi_sessions::{PageStep, Sent, SentText, Step};
pub use remote_end::{RemoteEnd, RemoteFault};
