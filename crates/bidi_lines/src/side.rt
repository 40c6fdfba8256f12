//! Which end sent the messages of an input.

/// The end that sends the messages.
#[derive(Clone, Copy, Debug, PartialEq, Eq)]
pub enum Side {
    /// The local end, which sends commands.
    Local,
    /// The remote end, which sends responses, errors and events.
    Remote,
}
