//! Active sessions: their subscriptions, what a new one enables, and the log entries that they missed.
//!
//! [`Sessions`] is the table of active sessions. A [`Session`] keeps its live subscriptions and a [`LogBuffer`] with the last hundred
//! log entries that were not sent to it. A session that subscribes is sent those that [`is_new`] says are newly enabled, and they wait
//! no longer. An [`EventText`] is made once for all sessions that keep it or are sent it. [`Opening`] is what a resource opens a
//! connection for.
//!
//! The room of a session, a subscription or a buffer is made before it is used ([`Sessions::reserve`], [`Sessions::reserve_in`],
//! [`LogBuffer::new`]), so that changes of the table take no memory.
//!
//! At most eight sessions are active at once.
#![tactic(auto)]

mod announcing;
mod event_text;
mod log_buffer;
mod sessions;

pub use announcing::{is_new, may_be_new, may_tell_what_exists};
pub use event_text::EventText;
pub use log_buffer::LogBuffer;
pub use sessions::{Opening, Session, Sessions};
