//! A reason in words: its place, and what stands there.
ghost use Rattle.std.specs.Prelude.{◌≡◌, ◌++◌, IfOk, OnOk, decimal, map, option_map, string_bytes, encode_utf8};
ghost use Rattle.json.specs.Print.{quoted};
ghost use Rattle.json.specs.Value.{value_view};
ghost use Rattle.bidi_grammar.specs.View.{step_of};
ghost use Rattle.bidi_grammar.specs.Words.{bool_words, count_words, escaped, found_text, number_words, pointer_text, step_text, text_words, value_text};

use crate::reason::PathStep;
use json::{Value, Writer};
use std::alloc::{AllocError, Global};

/// The most bytes of a string or a number that is shown whole.
const LONGEST_SHOWN: usize = 60;

/// The place to which the steps lead, the last one first, as a JSON Pointer.
///
/// # Errors
/// No memory: an allocation failed.
///
/// After RFC 6901, 3 and 4.
pub fn pointer(alloc: Global, steps: &[PathStep<'_>]) -> Result<String, AllocError>
    // The string is the JSON Pointer of the steps.
    ensures { IfOk result (λ s. string_bytes s ≡ pointer_text (map step_of steps.now)) }
{
    let mut text = String::new(alloc);
    for i in (0..steps.len()).rev() {
        text.push_str("/")?;
        push_step(alloc, &mut text, &steps[i])?;
    }
    Ok(text)
}

// Adds the name of a member, or the number of an item.
fn push_step(alloc: Global, text: &mut String, step: &PathStep<'_>) -> Result<(), AllocError>
    ensures { OnOk result (string_bytes text.new ≡ string_bytes text.old ++ step_text (step_of step.now)) }
{
    match step {
        PathStep::Member(name) => push_name(text, name),
        PathStep::Item(i) => text.push_str(format!(in alloc; "{}", *i)?.as_str()),
    }
}

// Adds a name with its escapes.
fn push_name(text: &mut String, name: &str) -> Result<(), AllocError>
    ensures { OnOk result (string_bytes text.new ≡ string_bytes text.old ++ escaped name.now) }
{
    for letter in name.chars() {
        push_letter(text, letter)?;
    }
    Ok(())
}

// Adds a letter of a name, or what stands for it.
fn push_letter(text: &mut String, letter: char) -> Result<(), AllocError>
    ensures { OnOk result (string_bytes text.new ≡ string_bytes text.old ++ escaped (encode_utf8 letter)) }
{
    if letter == '~' {
        text.push_str("~0")
    } else if letter == '/' {
        text.push_str("~1")
    } else {
        text.push(letter)
    }
}

/// What stands at a place, in words; `nothing` where nothing stands.
///
/// A string or a number of more than 60 bytes is told by its length, an array by how many items it has, and an object by how many
/// members.
///
/// # Errors
/// No memory: an allocation failed.
pub fn found_words(alloc: Global, found: Option<&Value<'_>>) -> Result<String, AllocError>
    // The string says what is at the place, in the words of the definition.
    ensures { IfOk result (λ s. string_bytes s ≡ found_text (option_map (λ t. value_view t.now) found.entry)) }
{
    match found {
        None => String::from_str(alloc, "nothing"),
        Some(value) => value_words(alloc, value),
    }
}

// What a value is.
fn value_words(alloc: Global, value: &Value<'_>) -> Result<String, AllocError>
    ensures { IfOk result (λ s. string_bytes s ≡ value_text (value_view value.now)) }
{
    match value {
        Value::Null => String::from_str(alloc, "null"),
        Value::Bool(truth) => String::from_str(alloc, bool_words(*truth)),
        Value::Number(number) => number_words(alloc, number),
        Value::String(text) => text_words(alloc, text),
        Value::Array(items) => count_words(alloc, "array", "item", items.len()),
        Value::Object(members) => count_words(alloc, "object", "member", members.len()),
    }
}

// True or false.
pub(crate) fn bool_words(truth: bool) -> &'static str
    ensures { result.now ≡ bool_words truth }
{
    if truth { "true" } else { "false" }
}

// A number of at most 60 bytes as it is written, or how many bytes it has.
fn number_words(alloc: Global, number: &str) -> Result<String, AllocError>
    ensures { IfOk result (λ s. string_bytes s ≡ number_words number.now) }
{
    if number.len() <= LONGEST_SHOWN {
        String::from_str(alloc, number)
    } else {
        format!(in alloc; "a number of {} bytes", number.len())
    }
}

// A string of at most 60 bytes as JSON writes it, or how many bytes it has.
fn text_words(alloc: Global, text: &str) -> Result<String, AllocError>
    ensures { IfOk result (λ s. string_bytes s ≡ text_words text.now) }
{
    if text.len() <= LONGEST_SHOWN {
        quote(alloc, text)
    } else {
        format!(in alloc; "a string of {} bytes", text.len())
    }
}

// An array or an object by how many parts it has.
pub(crate) fn count_words(
    alloc: Global,
    kind: &str,
    part: &str,
    count: usize,
) -> Result<String, AllocError>
    ensures { IfOk result (λ s. string_bytes s ≡ count_words kind.now part.now count) }
{
    if count == 0 {
        format!(in alloc; "an empty {kind}")
    } else if count == 1 {
        format!(in alloc; "an {kind} of one {part}")
    } else {
        format!(in alloc; "an {kind} of {count} {part}s")
    }
}

// A string as JSON writes it.
pub(crate) fn quote(alloc: Global, text: &str) -> Result<String, AllocError>
    ensures { IfOk result (λ s. string_bytes s ≡ quoted text.now) }
{
    let mut out = Writer::new(Vec::new(alloc));
    out.string(text)?;
    Ok(unsafe { String::from_utf8_unchecked(out.into_inner()) })
}
