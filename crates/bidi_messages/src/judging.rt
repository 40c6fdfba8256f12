//! Deciding whether a text is a command.
ghost use Rattle.std.specs.Prelude.{◌≡◌, ◌&&◌, ℕ, List, length, nat_le, Some, IfOk, option_map};
ghost use Rattle.json.specs.Json.{document};
ghost use Rattle.json.specs.Value.{value_view};
ghost use Rattle.bidi_tree.specs.Kind.{text_in};
ghost use Rattle.bidi_tree.specs.Json.{parsed, stands_whole};
ghost use Rattle.bidi_shape.specs.Limits.{most_bytes};
ghost use Rattle.bidi_messages.specs.Verdict as judged;
ghost use Rattle.bidi_messages.specs.View.{verdict_of, IsWell, AcceptsAs};
ghost use Rattle.bidi_messages.specs.declared.command.Command.{Command};

use crate::command::Command;
use bidi_methods::Method;
use bidi_params::ErrorCode;
use bidi_shape::{MAX_BYTES, Named, Parsed, Shape, ShapeFault};
use bidi_tree::{JsUint, ReadFault, is_parsed_whole, parse};
use json::{Scratch, Value};
use std::alloc::{AllocError, Global};

/// The most levels of a text that is read.
const MOST_LEVELS: usize = 127;

/// The verdict on a text: it is a command, or it is refused with the id and the code of an error.
#[derive(Drop)]
pub enum Verdict {
    /// The text is this command, which is to be carried out.
    Accepted(Command),
    /// The text is not a command. Answer it with an error of this code and this id, or null if there is no
    /// id.
    Refused { id: Option<JsUint>, code: ErrorCode },
}

/// Decides whether a text from the local end is a command.
///
/// A text that is not JSON, or is longer than 1,048,576 bytes, is refused as an invalid argument, without an
/// id. A tree that fits no command is refused with its member `id` if that is a js-uint, and otherwise
/// without an id. The code is `unknown command` if its `method` is a string that names no command, and
/// otherwise `invalid argument`.
///
/// # Errors
/// No memory: an allocation failed.
///
/// After WebDriver BiDi, "Transport".
pub fn judge(alloc: Global, text: &str) -> Result<Verdict, AllocError>
    // The verdict is one that the definition allows for this text.
    ensures verdict { IfOk result (λ v. judged.IsVerdict text.now (verdict_of ⟦<Command as Shape>⟧.shape v)) }
    // The definition allows no other verdict for this text.
    ensures no_other { IfOk result (λ v. (w : judged.Verdict) → judged.IsVerdict text.now w → w ≡ verdict_of ⟦<Command as Shape>⟧.shape v) }
    // A command that is accepted is valid, so it has a text.
    ensures well { IfOk result (IsWell ⟦<Command as Shape>⟧.shape) }
    // The text of a valid command is accepted as that command.
    ensures again { (c : Command) → IfOk result (AcceptsAs ⟦<Command as Shape>⟧.shape text.now c) }
{
    let mut scratch = Scratch::new(alloc);
    judge_with(alloc, text, &mut scratch)
}

/// Decides as [`judge`] does, with a scratch that the caller keeps from text to text.
///
/// Walks the text once, and reads the command without making a tree of it.
///
/// # Errors
/// No memory: an allocation failed.
pub fn judge_with<'a>(
    alloc: Global,
    text: &'a str,
    scratch: &'a mut Scratch,
) -> Result<Verdict, AllocError>
    // The verdict is one that the definition allows for this text.
    ensures verdict { IfOk result (λ v. judged.IsVerdict text.now (verdict_of ⟦<Command as Shape>⟧.shape v)) }
    // The definition allows no other verdict for this text.
    ensures no_other { IfOk result (λ v. (w : judged.Verdict) → judged.IsVerdict text.now w → w ≡ verdict_of ⟦<Command as Shape>⟧.shape v) }
    // A command that is accepted is valid, so it has a text.
    ensures well { IfOk result (IsWell ⟦<Command as Shape>⟧.shape) }
    // The text of a valid command is accepted as that command.
    ensures again { (c : Command) → IfOk result (AcceptsAs ⟦<Command as Shape>⟧.shape text.now c) }
{
    let Some(tree) = command_tree(alloc, text, scratch)? else {
        return Ok(Verdict::Refused {
            id: None,
            code: ErrorCode::InvalidArgument,
        });
    };
    verdict_on(alloc, &tree)
}

/// Decides as [`judge`] does on a text whose JSON value is at hand.
///
/// The text is read again, with the scratch, only if it is too long, or if the value has a number that is not a whole number in range
/// or nests past 127 levels.
///
/// # Errors
/// No memory: an allocation failed.
pub fn judge_value<'a>(
    alloc: Global,
    text: &'a str,
    value: &Value<'_>,
    scratch: &'a mut Scratch,
) -> Result<Verdict, AllocError>
    // The value is that of the text.
    requires { document text.now ≡ Some (value_view value.now) }
    // The verdict is one that the definition allows for this text.
    ensures verdict { IfOk result (λ v. judged.IsVerdict text.now (verdict_of ⟦<Command as Shape>⟧.shape v)) }
    // The definition allows no other verdict for this text.
    ensures no_other { IfOk result (λ v. (w : judged.Verdict) → judged.IsVerdict text.now w → w ≡ verdict_of ⟦<Command as Shape>⟧.shape v) }
    // A command that is accepted is valid, so it has a text.
    ensures well { IfOk result (IsWell ⟦<Command as Shape>⟧.shape) }
    // The text of a valid command is accepted as that command.
    ensures again { (c : Command) → IfOk result (AcceptsAs ⟦<Command as Shape>⟧.shape text.now c) }
{
    if !is_read_as(text, value) {
        return judge_with(alloc, text, scratch);
    }
    verdict_on(alloc, value)
}

/// Whether a text is within the limits of a command, if this is its value, and has whole numbers only.
fn is_read_as(text: &str, value: &Value<'_>) -> bool
    ensures { result ≡ (nat_le (length text.now) most_bytes && stands_whole (value_view value.now) 127) }
{
    text.len() <= MAX_BYTES && is_parsed_whole(value, MOST_LEVELS)
}

/// The verdict on each text that has the tree of this value.
fn verdict_on(alloc: Global, tree: &Value<'_>) -> Result<Verdict, AllocError>
    ensures verdict { (s : List ℕ) → judged.command_tree s ≡ Some (parsed tree.now)
        → IfOk result (λ v. judged.IsVerdict s (verdict_of ⟦<Command as Shape>⟧.shape v)) }
    ensures well { IfOk result (IsWell ⟦<Command as Shape>⟧.shape) }
    ensures again { (s : List ℕ) (c : Command) → judged.command_tree s ≡ Some (parsed tree.now)
        → IfOk result (AcceptsAs ⟦<Command as Shape>⟧.shape s c) }
{
    match Command::from_tree(alloc, tree) {
        Ok(command) => Ok(Verdict::Accepted(command)),
        Err(ShapeFault::NoMemory) => Err(AllocError),
        Err(ShapeFault::NoFit) => Ok(Verdict::Refused {
            id: echoed_id(tree),
            code: refusal_code(tree),
        }),
    }
}

/// Reads the text of a command as a JSON value, if it is one.
fn command_tree<'a>(
    alloc: Global,
    text: &'a str,
    scratch: &'a mut Scratch,
) -> Result<Option<Value<'a>>, AllocError>
    ensures { IfOk result (λ o. option_map parsed o ≡ judged.command_tree text.now) }
{
    match parse(alloc, text, Some(MAX_BYTES), scratch) {
        Ok(value) => Ok(Some(value)),
        Err(ReadFault::NotJson) => Ok(None),
        Err(ReadFault::TooLong) => Ok(None),
        Err(ReadFault::NoMemory) => Err(AllocError),
    }
}

/// The id that a refusal of this tree echoes: its member `id`, if that is a js-uint.
pub(crate) fn echoed_id<S: Parsed>(tree: &S) -> Option<JsUint>
    ensures { option_map (λ n. n.value) result ≡ judged.echoed_id (S.tree tree.now) }
{
    match tree.member("id") {
        Some(id) => js_uint_in(id),
        None => None,
    }
}

fn js_uint_in<S: Parsed>(tree: &S) -> Option<JsUint>
    ensures { option_map (λ n. n.value) result ≡ judged.js_uint_in (S.tree tree.now) }
{
    match tree.as_int() {
        Some(n) if n.value >= 0 => JsUint::new(n.value as u64),
        _ => None,
    }
}

/// The error code for a tree that fits no command.
fn refusal_code<S: Parsed>(tree: &S) -> ErrorCode
    ensures { result ≡ judged.refusal_code (S.tree tree.now) }
{
    match tree.member("method") {
        Some(method) => code_for_method(method),
        None => ErrorCode::InvalidArgument,
    }
}

fn code_for_method<S: Parsed>(method: &S) -> ErrorCode
    ensures { result ≡ judged.code_for_method (text_in (S.tree method.now)) }
{
    match method.as_str() {
        Some(name) if Method::named(name).is_none() => ErrorCode::UnknownCommand,
        _ => ErrorCode::InvalidArgument,
    }
}
