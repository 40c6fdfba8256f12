//! From a JSON text to its value, and to its tree.
ghost use Rattle.std.specs.Prelude.{◌≡◌, Some, None, IfOk, IsTrue, false, Err};
ghost use Rattle.json.specs.Value.{value_view, items_view, members_view};
ghost use Rattle.bidi_tree.specs.Node.{IsSound};
ghost use Rattle.bidi_tree.specs.Json.{parsed, is_readable, are_readable, members_are_readable};
ghost use Rattle.bidi_tree.specs.Text.{is_within, tree_of, tree_of_text};
ghost use Rattle.bidi_tree.specs.View.{node};

use crate::number_text::number_tree;
use crate::owning::own;
use crate::tree::Tree;
use json::{Error as JsonError, Reader, Scratch, Value};
use std::alloc::{AllocError, Global};
use thiserror::Error;

/// The most levels that are read.
const MAX_LEVELS: usize = 127;

/// Why a text was not read.
#[derive(Clone, Copy, Debug, Drop, PartialEq, Eq, Error)]
pub enum ReadFault {
    /// The text breaks the grammar of JSON, nests past 127 levels, or has a number too large for a float,
    /// such as `1e400`. Reading it again gives the same fault.
    #[error("the text is not JSON")]
    NotJson,
    /// The text has more bytes than the limit allows, and blanks around the value count. Nothing was read:
    /// raise the limit, or refuse the text.
    #[error("the text is longer than its limit")]
    TooLong,
    /// An allocation failed. The same text may be read again.
    #[error("out of memory")]
    NoMemory,
}

impl From<AllocError> for ReadFault {
    ghost use Rattle.bidi_tree.specs.declared.reading.ReadFault.TheVariants.{NoMemory};

    ghost from_gives = { λ _ e. e ≡ NoMemory };

    fn from(_error: AllocError) -> ReadFault {
        ReadFault::NoMemory
    }
}

/// Reads the JSON value of a text of at most `limit` bytes, or of any length if there is no limit.
///
/// The value borrows its strings from the text, and those with escapes from the scratch. Walks the text once;
/// each array and object takes a block of memory, and the scratch grows to the longest string with escapes.
///
/// # Errors
/// As [`read`]: `TooLong`, `NotJson`, `NoMemory`.
///
/// After RFC 8259.
pub fn parse<'a>(
    alloc: Global,
    text: &'a str,
    limit: Option<usize>,
    scratch: &'a mut Scratch,
) -> Result<Value<'a>, ReadFault>
    // After an Ok the text is within the limit, and the value has the tree of the text.
    ensures ok { IfOk result (λ v. tree_of_text limit text.now ≡ Some (parsed v)) }
    // `NotJson` comes only if the text is within the limit and is not JSON.
    ensures not_json { result ≡ Err ReadFault.NotJson
        → IsTrue (is_within limit text.now) × (tree_of text.now ≡ None) }
    // `TooLong` comes only if the text has more bytes than the limit.
    ensures too_long { result ≡ Err ReadFault.TooLong → is_within limit text.now ≡ false }
{
    if !is_within(limit, text) {
        return Err(ReadFault::TooLong);
    }
    let mut reader = Reader::new(text, scratch)?;
    let value = match Value::read(alloc, &mut reader, MAX_LEVELS) {
        Ok(value) => value,
        Err(JsonError::OutOfMemory) => return Err(ReadFault::NoMemory),
        Err(JsonError::Invalid) => return Err(ReadFault::NotJson),
        Err(JsonError::TooLong | JsonError::DuplicateKey) => unreachable!(),
    };
    if reader.next().is_some() {
        return Err(ReadFault::NotJson);
    }
    if !is_readable(&value) {
        return Err(ReadFault::NotJson);
    }
    Ok(value)
}

/// Reads the tree of a text of at most `limit` bytes, or of any length if there is no limit.
///
/// If two members have the same name, the last one counts. Reads the value by [`parse`] first, and then
/// copies each string.
///
/// # Errors
/// - `TooLong`: the text is longer than the limit.
/// - `NotJson`: the text is within the limit, but is not JSON, nests past 127 levels, or has a number too
///   large for a float.
/// - `NoMemory`: an allocation failed.
///
/// After RFC 8259.
pub fn read(alloc: Global, text: &str, limit: Option<usize>) -> Result<Tree, ReadFault>
    // After an Ok the text is within the limit, and the result is its tree.
    ensures ok { IfOk result (λ t. tree_of_text limit text.now ≡ Some (node t)) }
    // After an Ok, the tree's whole numbers are in range, and the names of each object ascend.
    ensures sound { IfOk result (λ t. IsSound (node t)) }
    // `NotJson` comes only if the text is within the limit and is not JSON.
    ensures not_json { result ≡ Err ReadFault.NotJson
        → IsTrue (is_within limit text.now) × (tree_of text.now ≡ None) }
    // `TooLong` comes only if the text has more bytes than the limit.
    ensures too_long { result ≡ Err ReadFault.TooLong → is_within limit text.now ≡ false }
{
    let mut scratch = Scratch::new(alloc);
    match parse(alloc, text, limit, &mut scratch) {
        Ok(value) => Ok(own(alloc, &value)?),
        Err(fault) => Err(fault),
    }
}

fn is_within(limit: Option<usize>, text: &str) -> bool
    ensures { result ≡ is_within limit text.now }
{
    match limit {
        Some(most) => text.len() <= most,
        None => true,
    }
}

// Whether no number is too large for a float.
#[cycle(readable)]
#[inline(always)]
fn is_readable(value: &Value<'_>) -> bool
    ensures { result ≡ is_readable (value_view value.now) }
{
    match value {
        Value::Null | Value::Bool(_) | Value::String(_) => true,
        Value::Number(text) => number_tree(text).is_some(),
        Value::Array(items) => are_readable(items),
        Value::Object(members) => members_are_readable(members),
    }
}

// A function of its own, so that a string in an object takes no call.
#[cycle(readable)]
#[inline(never)]
fn are_readable(items: &Vec<Value<'_>>) -> bool
    ensures { result ≡ are_readable (items_view items.now.items) }
{
    for item in items {
        if !is_readable(item) {
            return false;
        }
    }
    true
}

#[cycle(readable)]
#[inline(never)]
fn members_are_readable(members: &Vec<(&str, Value<'_>)>) -> bool
    ensures { result ≡ members_are_readable (members_view members.now.items) }
{
    for member in members {
        if !is_readable(&member.1) {
            return false;
        }
    }
    true
}
