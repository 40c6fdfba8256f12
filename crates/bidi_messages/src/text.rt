//! The texts of commands and messages, and reading a message.
ghost use Rattle.std.specs.Prelude.{◌≡◌, ℕ, Some, None, IfOk, IfErr, string_bytes, nat_le, true, refl};
ghost use Rattle.bidi_tree.specs.Text.{tree_of, tree_of_text, compact_text};
ghost use Rattle.bidi_messages.specs.Reading.{IsCause, IsMessageText, IsMisfit, IsReadAs, ReadsAs};

use crate::command::Command;
use crate::event::Event;
use crate::message::{ErrorResponse, Message, Response};
use bidi_shape::{Parsed, Shape, ShapeFault};
use bidi_tree::{ReadFault, parse, write_outline};
use json::Scratch;
use std::alloc::{AllocError, Global};
use thiserror::Error;

/// What is sent over a connection: a command, or a message of the remote end.
pub trait Sendable: Shape {
    // No tree of it has more than 100 levels, so each may be written.
    ghost writable: { nat_le Self.shape.deepest 100 ≡ true };
}

impl Sendable for Command {
    ghost writable = { refl };
}

impl Sendable for Response {
    ghost writable = { refl };
}

impl Sendable for ErrorResponse {
    ghost writable = { refl };
}

impl Sendable for Event {
    ghost writable = { refl };
}

impl Sendable for Message {
    ghost writable = { refl };
}

/// Makes the text of a command or a message: compact, its members in byte order of their names.
///
/// # Errors
/// No memory: an allocation failed.
pub fn text_of<M: Sendable>(alloc: Global, value: &M) -> Result<String, AllocError>
    // The value is valid.
    requires { M.shape.well value.now }
    // The text is the compact text of the value's tree.
    ensures text { IfOk result (λ s. string_bytes s ≡ compact_text (M.shape.tree_of value.now)) }
    // The text reads back as that tree, which no other valid value has.
    ensures reads_back { IfOk result (λ s. tree_of (string_bytes s) ≡ Some (M.shape.tree_of value.now)) }
{
    let outline = value.outline(alloc)?;
    write_outline(alloc, &outline)
}

/// Why a text is not a message of the remote end.
#[derive(Clone, Copy, Debug, PartialEq, Eq, Error)]
pub enum MessageFault {
    /// The text is not JSON, or nests past 127 levels. It answers no command, and may be ignored.
    #[error("not JSON")]
    NotJson,
    /// The text fits no message of the profile; it may be an event that the profile does not have. It answers
    /// no command, and may be ignored.
    #[error("no message of the profile")]
    NoFit,
    /// An allocation failed. The same text may be read again.
    #[error("out of memory")]
    NoMemory,
}

/// Reads a message of the remote end, from a text of any length.
///
/// # Errors
/// 1. `NotJson`: the text is not JSON.
/// 2. `NoFit`: the text fits no message.
/// 3. `NoMemory`: an allocation failed.
///
/// After WebDriver BiDi, "Transport".
pub fn read_message(alloc: Global, text: &str) -> Result<Message, MessageFault>
    // After an Ok, the message is valid and has the tree of the text.
    ensures ok { IfOk result (λ m. (tree_of_text None text.now ≡ Some (⟦<Message as Shape>⟧.shape.tree_of m)) × ⟦<Message as Shape>⟧.shape.well m) }
    // `NotJson` comes only if the text has no tree, and `NoFit` only if its tree fits no message.
    ensures err { IfErr result (λ e. IsCause e text.now) }
    // The text of a valid message is read as that message.
    ensures again { (m : Message) → ReadsAs ⟦<Message as Shape>⟧.shape text.now m result }
    // A text that a remote end sends is read as a valid message whose text it is.
    ensures sent { IsMessageText ⟦<Message as Shape>⟧.shape text.now → IsReadAs ⟦<Message as Shape>⟧.shape text.now result }
{
    let mut scratch = Scratch::new(alloc);
    read_message_with(alloc, text, &mut scratch)
}

/// Reads a message as [`read_message`] does, with a scratch that the caller keeps from text to text.
///
/// Walks the text once, and reads the message without making a tree of it.
///
/// # Errors
/// As [`read_message`].
pub fn read_message_with<'a>(
    alloc: Global,
    text: &'a str,
    scratch: &'a mut Scratch,
) -> Result<Message, MessageFault>
    // After an Ok, the message is valid and has the tree of the text.
    ensures ok { IfOk result (λ m. (tree_of_text None text.now ≡ Some (⟦<Message as Shape>⟧.shape.tree_of m)) × ⟦<Message as Shape>⟧.shape.well m) }
    // `NotJson` comes only if the text has no tree, and `NoFit` only if its tree fits no message.
    ensures err { IfErr result (λ e. IsCause e text.now) }
    // The text of a valid message is read as that message.
    ensures again { (m : Message) → ReadsAs ⟦<Message as Shape>⟧.shape text.now m result }
    // A text that a remote end sends is read as a valid message whose text it is.
    ensures sent { IsMessageText ⟦<Message as Shape>⟧.shape text.now → IsReadAs ⟦<Message as Shape>⟧.shape text.now result }
{
    match parse(alloc, text, None, scratch) {
        Ok(value) => message_of(alloc, &value),
        Err(ReadFault::NotJson) => Err(MessageFault::NotJson),
        Err(ReadFault::TooLong) => unreachable!(),
        Err(ReadFault::NoMemory) => Err(MessageFault::NoMemory),
    }
}

/// Reads a message from a tree, from an outline, or from a JSON value that borrows from its text.
///
/// # Errors
/// 1. `NoFit`: the tree fits no message.
/// 2. `NoMemory`: an allocation failed.
pub fn message_of<S: Parsed>(alloc: Global, tree: &S) -> Result<Message, MessageFault>
    // After an Ok, the message is valid and has the tree that was read.
    ensures ok { IfOk result (λ m. (⟦<Message as Shape>⟧.shape.tree_of m ≡ S.tree tree.now) × ⟦<Message as Shape>⟧.shape.well m) }
    // `NoFit` comes only if the tree fits no message; `NotJson` never comes.
    ensures err { IfErr result (λ e. IsMisfit e (S.tree tree.now)) }
{
    match Message::from_tree(alloc, tree) {
        Ok(message) => Ok(message),
        Err(ShapeFault::NoFit) => Err(MessageFault::NoFit),
        Err(ShapeFault::NoMemory) => Err(MessageFault::NoMemory),
    }
}
