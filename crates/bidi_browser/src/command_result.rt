//! The result of a command, as a plan has it.
use bidi_methods::{Method, ResultData};

/// The result of a command.
#[derive(Drop)]
pub enum CommandResult {
    /// The result as data, which is written when it is sent.
    Data(ResultData),
    /// The result as its text.
    Text(ResultText),
}

/// The result of a command as its compact text, which was made from the text of a value.
#[derive(Drop)]
pub struct ResultText {
    /// The method of the command.
    pub method: Method,
    /// The text.
    pub text: String,
}
