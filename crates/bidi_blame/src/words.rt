//! A reason in words: its place, and what stands there.
ghost use Rattle.std.specs.Prelude.{◌≡◌, ◌≢◌, ◌++◌, false, IfOk, OnOk, codes, decimal, map, option_map, string_bytes, encode_utf8, if◌then◌else◌};
ghost use Rattle.bidi_tree.specs.Outline.{outline_node};
ghost use Rattle.bidi_blame.specs.View.{step_of};
ghost use Rattle.bidi_blame.specs.Words.{escaped, count_words, found_text, node_text, pointer_text, step_text, text_words};

use crate::quoting::quote;
use crate::reason::PathStep;
use bidi_tree::Outline;
use itoa::Buffer;
use std::alloc::{AllocError, Global};

/// The most bytes of a text that is told as it stands.
const LONGEST_TEXT: usize = 60;

/// How many bytes of a pointer there is room for, for each step.
const ROOM: usize = 16;

// ---- the place

/// The place to which the steps lead, the last one first, as a JSON Pointer.
///
/// # Errors
/// No memory: an allocation failed.
///
/// After RFC 6901, 3 and 4.
pub fn pointer(alloc: Global, steps: &[PathStep<'_>]) -> Result<String, AllocError>
    // The string is the JSON Pointer of the steps.
    ensures { IfOk result (λ s. string_bytes s ≡ pointer_text (map step_of steps.now)) }
{
    let mut text = String::with_capacity(alloc, steps.len().saturating_mul(ROOM))?;
    for i in (0..steps.len()).rev() {
        text.push_str("/")?;
        push_step(&mut text, &steps[i])?;
    }
    Ok(text)
}

// Adds the name of a member, or the number of an item.
fn push_step(text: &mut String, step: &PathStep<'_>) -> Result<(), AllocError>
    ensures { OnOk result (string_bytes text.new ≡ string_bytes text.old ++ step_text (step_of step.now)) }
{
    match step {
        PathStep::Member(name) => push_name(text, name),
        PathStep::Item(i) => push_number(text, *i),
    }
}

// Adds a name with its escapes. One without any is copied once.
fn push_name(text: &mut String, name: &str) -> Result<(), AllocError>
    ensures { OnOk result (string_bytes text.new ≡ string_bytes text.old ++ escaped name.now) }
{
    if has_marks(name) {
        push_letters(text, name)
    } else {
        text.push_str(name)
    }
}

// Whether `~` or `/` stands in a name. It looks at all bytes, so that it can look at many at once.
fn has_marks(name: &str) -> bool
    ensures { result ≡ false → escaped name.now ≡ name.now }
{
    let mut has_marks = false;
    for byte in name.as_bytes() {
        has_marks |= is_mark(*byte);
    }
    has_marks
}

// Whether an escape stands for a byte.
#[inline(always)]
fn is_mark(byte: u8) -> bool
    ensures { result ≡ false → (byte ≢ 126) × (byte ≢ 47) }
{
    (byte == b'~') | (byte == b'/')
}

// Adds a name letter by letter.
fn push_letters(text: &mut String, name: &str) -> Result<(), AllocError>
    ensures { OnOk result (string_bytes text.new ≡ string_bytes text.old ++ escaped name.now) }
{
    for letter in name.chars() {
        push_letter(text, letter)?;
    }
    Ok(())
}

// Adds a letter of a name, or what stands for it.
fn push_letter(text: &mut String, letter: char) -> Result<(), AllocError>
    ensures { OnOk result (string_bytes text.new ≡ string_bytes text.old ++ escaped (encode_utf8 letter)) }
{
    if letter == '~' {
        text.push_str("~0")
    } else if letter == '/' {
        text.push_str("~1")
    } else {
        text.push(letter)
    }
}

// Adds a number in decimal.
fn push_number(text: &mut String, number: usize) -> Result<(), AllocError>
    ensures { OnOk result (string_bytes text.new ≡ string_bytes text.old ++ decimal number) }
{
    let mut buffer = Buffer::new();
    text.push_str(buffer.format(number))
}

// ---- what stands there

/// What stands at a place, in words; `nothing` where nothing stands.
///
/// A string of more than 60 bytes is told by its length, an array by how many items it has, and an object by how many members.
///
/// # Errors
/// No memory: an allocation failed.
pub fn found_words(alloc: Global, found: Option<&Outline<'_>>) -> Result<String, AllocError>
    // The string says what is at the place, in the words of the definition.
    ensures { IfOk result (λ s. string_bytes s ≡ found_text (option_map (λ t. outline_node t.now) found.entry)) }
{
    match found {
        None => String::from_str(alloc, "nothing"),
        Some(tree) => tree_words(alloc, tree),
    }
}

// What a tree is.
fn tree_words(alloc: Global, tree: &Outline<'_>) -> Result<String, AllocError>
    ensures { IfOk result (λ s. string_bytes s ≡ node_text (outline_node tree.now)) }
{
    match tree {
        Outline::Null => String::from_str(alloc, "null"),
        Outline::Bool(value) => String::from_str(alloc, bool_words(*value)),
        Outline::Int(whole) => format!(in alloc; "{}", whole.value),
        Outline::Odd => String::from_str(alloc, "a number with a fraction or out of range"),
        Outline::Text(text) => text_words(alloc, text),
        Outline::List(items) => count_words(alloc, "array", "item", items.len()),
        Outline::Map(members) => count_words(alloc, "object", "member", members.len()),
    }
}

// A truth value.
fn bool_words(value: bool) -> &'static str
    ensures { result.now ≡ (if value then codes "true" else codes "false") }
{
    if value { "true" } else { "false" }
}

// A string of at most 60 bytes as JSON writes it, or how many bytes it has.
fn text_words(alloc: Global, text: &str) -> Result<String, AllocError>
    ensures { IfOk result (λ s. string_bytes s ≡ text_words text.now) }
{
    if text.len() <= LONGEST_TEXT {
        quote(alloc, text)
    } else {
        format!(in alloc; "a string of {} bytes", text.len())
    }
}

// An array or an object by how many parts it has.
fn count_words(alloc: Global, kind: &str, part: &str, count: usize) -> Result<String, AllocError>
    ensures { IfOk result (λ s. string_bytes s ≡ count_words kind.now part.now count) }
{
    if count == 0 {
        format!(in alloc; "an empty {kind}")
    } else if count == 1 {
        format!(in alloc; "an {kind} of one {part}")
    } else {
        format!(in alloc; "an {kind} of {count} {part}s")
    }
}
