//! The local end: sending commands, and reading what comes back.
//!
//! A [`LocalEnd`] serves one connection. It does no input or output: its owner carries texts between it and
//! the remote end, each as one message of the connection.
//!
//! # Calls, in order
//! 1. [`LocalEnd::new`], when the connection is open. Each connection needs a local end of its own, whose ids
//!    start at 1 again.
//! 2. [`LocalEnd::send`] for each command. It returns the command's id and its text, which the caller sends
//!    to the remote end. The command is pending from then on.
//! 3. [`LocalEnd::take`] for each text from the remote end. It returns the meaning of the text, one of the
//!    seven cases of [`Received`], and settles the command that the text answers. Calls of `send` and `take`
//!    may come in any order, and so may the replies.
//! 4. [`LocalEnd::lose`], when the connection is gone. It returns the ids of the commands that have no reply.
//!
//! [`LocalEnd::waiting`] lists the pending commands at any time.
//!
//! # Example
//! ```rust
//! let mut end = LocalEnd::new(alloc);
//! let (id, text) = end.send(data_of(alloc, Method::SessionStatus, &params)?)?;
//! let received = end.take(reply)?;
//! ```
//! The caller sends `text` to the remote end, and `reply` is what comes back. If that is the response to this
//! command, `received` is [`Received::Answer`] with the same id.
//!
//! # Commands of other senders
//! [`LocalEnd::note`] adds a command that someone else sent, such as one of a recorded conversation, under
//! the id that its sender gave it. It is pending from then on, as if it had been sent here, and `send`
//! continues after the greatest id of all. [`LocalEnd::take_message`] takes a message that was read already.
//! It returns a [`Taken`]: the meaning of the message, and the method of the command that it settles.
//!
//! # Texts
//! A text is JSON. One that is sent is compact, with its members in byte order of their names, such as
//! `{"id":1,"method":"session.status","params":{}}`. One that is taken may have blanks, and its members in
//! any order.
//!
//! # Limits
//! - 1,024 pending commands, sent and noted; [`LocalFault::TooManyPending`] and [`NoteFault::TooManyPending`]
//!   after that.
//! - One pending command for each id; [`NoteFault::IdWaits`] for a second.
//! - 1,048,576 bytes in the text of a command; [`LocalFault::TooLong`] past that. A text that is taken has no
//!   such limit.
//! - 9,007,199,254,740,991 is the last id, the greatest js-uint; [`LocalFault::IdsUsedUp`] after that.
//! - 127 levels of arrays and objects in a text that is taken; [`Received::NotJson`] past that.
//!
//! # Faults
//! A call that returns an `Err` has changed nothing: no id is used, and every pending command is still
//! pending. `send` has used up its command and `take_message` its message; the other calls can be repeated
//! with the same arguments. A text never causes a fault: if it is not a message, or answers no pending
//! command, that is a case of [`Received`], and the caller decides what to do.
//!
//! # Memory and time
//! A local end keeps the id and the method of each pending command, but neither params nor texts. Its table
//! grows as commands are sent and noted, and its memory is freed when the end is dropped. The docs of each
//! call say what it costs.
#![tactic(auto)]

mod local_end;
mod outcome;
mod pending;
mod received;
mod receiving;
mod writing;

pub use local_end::{LocalEnd, LocalFault, NoteFault};
pub use outcome::Outcome;
pub use received::{Received, Taken};
