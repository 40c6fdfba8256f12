//! Strings of a grammar as they are meant.
ghost use Rattle.std.specs.Prelude.{◌≡◌, ◌<◌, length, IfOk, IfSome, IsTrue, Some, option_map, string_bytes};
ghost use Rattle.json.specs.Find.{as_str};
ghost use Rattle.json.specs.Value.{value_view};
ghost use Rattle.bidi_loader.specs.Plain.{quoted, unescaped};
ghost use Rattle.bidi_loader.specs.Readings.{text_at, text_in};

use crate::fault::fault_at;
use crate::place_at;
use bidi_cddl::{LoadFault, Node, Written};
use json::{Error, Scratch, Value};
use std::alloc::{AllocError, Global};

/// The string of a node, without its escapes; it is empty for a node without a string.
///
/// # Errors
/// No memory, or a string with an escape that JSON does not have.
pub(crate) fn text_of(
    alloc: Global,
    written: &Written<'_>,
    k: usize,
    node: &Node<'_>,
) -> Result<String, LoadFault>
    // It is that string.
    ensures { IfOk result (λ text. unescaped (text_in node.now) ≡ Some (string_bytes text)) }
{
    match meant(alloc, text_in(node))? {
        Some(text) => Ok(text),
        None => Err(fault_at(alloc, place_at(written, k), "no such escape")),
    }
}

// The string of a node as it is written.
fn text_in<'t>(node: &Node<'t>) -> &'t str
    ensures { result.now ≡ text_in node.now }
{
    match node {
        Node::Text(text) => text,
        Node::Member(_, text, _) => text,
        _ => "",
    }
}

// The string without its escapes, which are those of JSON.
fn meant(alloc: Global, text: &str) -> Result<Option<String>, AllocError>
    ensures { IfOk result (λ found. option_map string_bytes found ≡ unescaped text.now) }
{
    let quoted = quoted(alloc, text)?;
    let mut scratch = Scratch::new(alloc);
    match Value::parse(alloc, &quoted, &mut scratch) {
        Ok(value) => string_of(alloc, &value),
        Err(Error::Invalid) => Ok(None),
        Err(_) => Err(AllocError),
    }
}

// The string that a value is.
fn string_of(alloc: Global, value: &Value<'_>) -> Result<Option<String>, AllocError>
    ensures { IfOk result (λ found. option_map string_bytes found ≡ as_str (value_view value.now)) }
{
    match value.as_str() {
        Some(text) => Ok(Some(String::from_str(alloc, text)?)),
        None => Ok(None),
    }
}

// The string between quotation marks.
fn quoted(alloc: Global, text: &str) -> Result<String, AllocError>
    ensures { IfOk result (λ s. string_bytes s ≡ quoted text.now) }
{
    let mut quoted = String::from_str(alloc, "\"")?;
    quoted.push_str(text)?;
    quoted.push_str("\"")?;
    Ok(quoted)
}

/// The string of a node among the strings that were read.
pub(crate) fn text_at(texts: &[String], k: usize) -> Option<&str>
    // It is that string.
    ensures { IfSome result (λ text. (k < length texts.now) × (text.now ≡ text_at texts.now k)) }
{
    if k >= texts.len() {
        return None;
    }
    Some(texts[k].as_str())
}

/// Whether two strings are the same.
pub(crate) fn is_same_text(found: &String, text: &str) -> bool
    // If so, they have the same bytes.
    ensures { IsTrue result → string_bytes found.now ≡ text.now }
{
    found.as_str() == text
}
