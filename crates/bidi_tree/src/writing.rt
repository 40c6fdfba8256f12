//! From a tree or an outline to its JSON text.
ghost use Rattle.std.specs.Prelude.{◌≡◌, ◌++◌, Some, false, IfOk, OnOk, string_bytes};
ghost use Rattle.bidi_tree.specs.Node.{Node, whole, has_odd, items_have_odd, members_have_odd, IsWritable, IsSound};
ghost use Rattle.bidi_tree.specs.Data.{tokens_of, items_tokens, members_tokens};
ghost use Rattle.bidi_tree.specs.Text.{tree_of, compact_text};
ghost use Rattle.bidi_tree.specs.Outline.{outline_node, outline_items, outline_members};
ghost use Rattle.bidi_tree.specs.View.{node};

use crate::outline::{Outline, OutlineMembers};
use crate::outlining::outline_of;
use crate::tree::Tree;
use json::Writer;
use std::alloc::{AllocError, Global};

/// The room that a text starts with; it grows as needed.
const ROOM: usize = 256;

/// Writes the compact JSON text of a tree.
///
/// Makes an outline first, with one block of memory for each array and object. Strings are copied only into
/// the text.
///
/// # Errors
/// No memory: an allocation failed.
///
/// After RFC 8259.
pub fn write(alloc: Global, tree: &Tree) -> Result<String, AllocError>
    // The tree has no `Odd` and at most 100 levels; `Tree::is_writable` tests that.
    requires { IsWritable (node tree.now) }
    // The text has no blanks, and the members are in byte order of their names.
    ensures text { IfOk result (λ s. string_bytes s ≡ compact_text (node tree.now)) }
    // The text reads back as the same tree.
    ensures reads_back { IfOk result (λ s. tree_of (string_bytes s) ≡ Some (node tree.now)) }
    // The compact text of every tree that may be written, with numbers in range and ascending
    // names, reads back as that tree.
    ensures law { (n : Node) → IsSound n → IsWritable n → tree_of (compact_text n) ≡ Some n }
{
    let outline = outline_of(alloc, tree)?;
    write_outline(alloc, &outline)
}

/// Writes the compact JSON text of an outline. Walks the outline once.
///
/// # Errors
/// No memory: an allocation failed.
///
/// After RFC 8259.
pub fn write_outline(alloc: Global, outline: &Outline<'_>) -> Result<String, AllocError>
    // The outline has no `Odd` and at most 100 levels.
    requires { IsWritable (outline_node outline.now) }
    // The text has no blanks, and the members are in byte order of their names.
    ensures text { IfOk result (λ s. string_bytes s ≡ compact_text (outline_node outline.now)) }
    // The text reads back as the outline's tree.
    ensures reads_back { IfOk result (λ s. tree_of (string_bytes s) ≡ Some (outline_node outline.now)) }
{
    append_outline(String::with_capacity(alloc, ROOM)?, outline)
}

/// Appends the compact JSON text of an outline to a text. Walks the outline once.
///
/// # Errors
/// No memory: an allocation failed. The text is then lost.
///
/// After RFC 8259.
pub fn append_outline(text: String, outline: &Outline<'_>) -> Result<String, AllocError>
    // The outline has no `Odd` and at most 100 levels.
    requires { IsWritable (outline_node outline.now) }
    // The compact text of the outline stands behind what there was.
    ensures { IfOk result (λ s. string_bytes s ≡ string_bytes text ++ compact_text (outline_node outline.now)) }
{
    let mut out = Writer::new(text.into_bytes());
    write_value(&mut out, outline)?;
    Ok(unsafe { String::from_utf8_unchecked(out.into_inner()) })
}

#[cycle(write)]
#[inline(always)]
fn write_value(out: &mut Writer, outline: &Outline<'_>) -> Result<(), AllocError>
    requires { has_odd (outline_node outline.now) ≡ false }
    ensures before { OnOk result (out.new.before ≡ out.old.before) }
    ensures tokens { OnOk result (out.new.tokens ≡ out.old.tokens ++ tokens_of (outline_node outline.now)) }
{
    match outline {
        Outline::Null => out.null(),
        Outline::Bool(b) => out.boolean(*b),
        Outline::Int(whole) => write_whole(out, whole.value),
        Outline::Odd => unreachable!(),
        Outline::Text(text) => out.string(text),
        Outline::List(items) => {
            out.begin_array()?;
            write_items(out, items)
        }
        Outline::Map(members) => {
            out.begin_object()?;
            write_members(out, members)
        }
    }
}

// A function of its own, so that only numbers reserve room for digits.
#[inline(never)]
fn write_whole(out: &mut Writer, value: i64) -> Result<(), AllocError>
    ensures before { OnOk result (out.new.before ≡ out.old.before) }
    ensures tokens { OnOk result (out.new.tokens ≡ out.old.tokens ++ tokens_of (whole value)) }
{
    out.i64(value)
}

/// Writes the items of an array, and the closing bracket.
#[cycle(write)]
#[inline(never)]
fn write_items(out: &mut Writer, items: &Vec<Outline<'_>>) -> Result<(), AllocError>
    requires { items_have_odd (outline_items items.now.items) ≡ false }
    ensures before { OnOk result (out.new.before ≡ out.old.before) }
    ensures tokens { OnOk result (out.new.tokens
        ≡ out.old.tokens ++ items_tokens (outline_items items.now.items)) }
{
    for item in items {
        write_value(out, item)?;
    }
    out.end_array()
}

/// Writes the members of an object, and the closing brace.
#[cycle(write)]
#[inline(never)]
fn write_members(out: &mut Writer, members: &OutlineMembers<'_>) -> Result<(), AllocError>
    requires { members_have_odd (outline_members members.now) ≡ false }
    ensures before { OnOk result (out.new.before ≡ out.old.before) }
    ensures tokens { OnOk result (out.new.tokens
        ≡ out.old.tokens ++ members_tokens (outline_members members.now)) }
{
    for member in members.as_slice() {
        out.key(member.0)?;
        write_value(out, &member.1)?;
    }
    out.end_object()
}
