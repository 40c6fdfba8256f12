//! A value in a reply: its text, cut at the depth that was asked for, with its handle.
ghost use Rattle.std.specs.Prelude.{◌≡◌, ◌≤◌, ◌<◌, ◌^◌, ◌∷◌, ◌++◌, codes, true, Some, None, IfOk, IfSome, option_map, string_bytes};
ghost use Rattle.std.proofs.Common.{String, Global};
ghost use Rattle.bidi_tree.specs.Node.{levels, text, IsSound};
ghost use Rattle.bidi_tree.specs.Text.{compact_text};
ghost use Rattle.bidi_values.specs.Cut.{cut_to};
ghost use Rattle.bidi_handles.specs.Showing.{BeginsWithType, IsRemote};
ghost use Rattle.bidi_handles.specs.Values.{takes_handle, with_member, shown_as};
ghost use Rattle.bidi_values.specs.RemoteView.{remote_tree, RemoteIsWell};
ghost use Rattle.bidi_handles.specs.ValuesInHand.{held_tree};

use crate::handle::HeldValue;
use crate::holding::text_of;
use crate::id::{IdKind, id_text};
use crate::within::is_shown_whole;
use bidi_shape::Shape;
use bidi_tree::{JsUint, Outline, write_outline};
use bidi_values::{Nested, RemotePlain, RemoteValue};
use std::alloc::{AllocError, Global};

/// Whether a value can have a handle.
pub fn takes_handle(value: &RemoteValue) -> bool
    // The result is true exactly if the value is not a primitive one.
    ensures { result ≡ takes_handle (remote_tree value.now) }
{
    !matches!(value, Nested::Plain(RemotePlain::Primitive(_)))
}

/// The text of a value, cut at this depth if there is one, and with this handle if there is one. The held value
/// stays whole.
///
/// A value that is shown whole is not copied: its text is, which was made with it.
///
/// # Errors
/// No memory: an allocation failed.
pub fn shown_text(
    alloc: Global,
    held: &HeldValue,
    depth: Option<JsUint>,
    handle: Option<u64>,
) -> Result<String, AllocError>
    // The number of the handle is below 2^48.
    requires handle { IfSome handle (λ n. n < 2 ^ 48) }
    // A handle is given only for a value that can have one.
    requires takes { IfSome handle (λ n. takes_handle (held_tree held.now) ≡ true) }
    // The text is that of the value, cut at the depth if there is one, and with the id of the handle if there is one.
    ensures text { IfOk result (λ s. string_bytes s ≡ compact_text (shown_as handle (cut_to (option_map (λ d. d.value) depth) (held_tree held.now)))) }
    // What is shown is a remote value, so it can be part of a result, and its text reads back.
    ensures remote { IfOk result (λ _. IsRemote (shown_as handle (cut_to (option_map (λ d. d.value) depth) (held_tree held.now)))) }
{
    if is_shown_whole(&held.value, depth) {
        if let Some(text) = whole_text(alloc, held, handle)? {
            return Ok(text);
        }
    }
    let value = shown(alloc, held, depth, handle)?;
    text_of(alloc, &value)
}

// The text of a whole value with this handle, if it can be made of the value's own text.
fn whole_text(
    alloc: Global,
    held: &HeldValue,
    handle: Option<u64>,
) -> Result<Option<String>, AllocError>
    requires handle { IfSome handle (λ n. n < 2 ^ 48) }
    requires takes { IfSome handle (λ n. takes_handle (held_tree held.now) ≡ true) }
    ensures text { IfOk result (λ found. IfSome found (λ s. string_bytes s ≡ compact_text (shown_as handle (held_tree held.now)))) }
    ensures remote { IfOk result (λ found. IfSome found (λ _. IsRemote (shown_as handle (held_tree held.now)))) }
{
    match handle {
        Some(n) => text_with_handle(alloc, held, n),
        None => Ok(Some(String::from_str(alloc, &held.text)?)),
    }
}

// The text of a value with this handle before its other members, if `type` is the first of these.
fn text_with_handle(alloc: Global, held: &HeldValue, n: u64) -> Result<Option<String>, AllocError>
    requires handle { n < 2 ^ 48 }
    requires takes { takes_handle (held_tree held.now) ≡ true }
    ensures text { IfOk result (λ found. IfSome found (λ s. string_bytes s ≡ compact_text (shown_as (Some n) (held_tree held.now)))) }
    ensures remote { IfOk result (λ found. IfSome found (λ _. IsRemote (shown_as (Some n) (held_tree held.now)))) }
{
    if !is_unnamed(&held.value) {
        return Ok(None);
    }
    let Some(rest) = behind_brace(&held.text) else {
        return Ok(None);
    };
    let id = id_text(alloc, IdKind::Handle, 0, n)?;
    Ok(Some(text_after_handle(alloc, &id, rest)?))
}

// What comes after the brace that opens an object.
fn behind_brace(text: &str) -> Option<&str>
    ensures { IfSome result (λ rest. text.now ≡ 123 ∷ rest.now) }
{
    text.strip_prefix('{')
}

// The room for a handle before the other members of a value.
const HANDLE_ROOM: usize = 64;

// The text of an object whose first member is this handle; its others are the rest, with the closing brace.
fn text_after_handle(alloc: Global, id: &str, rest: &str) -> Result<String, AllocError>
    ensures { IfOk result (λ s. string_bytes s ≡ codes "{\"handle\":" ++ (compact_text (text id.now) ++ 44 ∷ rest.now)) }
{
    let quoted = write_outline(alloc, &Outline::Text(id))?;
    let mut text = String::with_capacity(alloc, rest.len().saturating_add(HANDLE_ROOM))?;
    text.push_str("{\"handle\":")?;
    text.push_str(&quoted)?;
    text.push_str(",")?;
    text.push_str(rest)?;
    Ok(text)
}

// Whether a value has neither a handle nor an internal id, so that `type` is its first member.
fn is_unnamed(value: &RemoteValue) -> bool
    ensures unnamed { result ≡ true → BeginsWithType (remote_tree value.now) }
    ensures handled { (id : String Global) → IsSound (remote_tree value.now) → takes_handle (remote_tree value.now) ≡ true
        → IsRemote (with_member "handle" (text (string_bytes id)) (remote_tree value.now)) }
{
    match value {
        Nested::List(siblings, _) => are_absent(&siblings.handle, &siblings.internal_id),
        Nested::Pairs(siblings, _) => are_absent(&siblings.handle, &siblings.internal_id),
        Nested::Plain(plain) => is_plain_unnamed(plain),
    }
}

// Whether a value that has no others inside has neither a handle nor an internal id.
fn is_plain_unnamed(plain: &RemotePlain) -> bool
    ensures { result ≡ true → BeginsWithType (⟦<RemotePlain as Shape>⟧.shape.tree_of plain.now) }
{
    match plain {
        RemotePlain::List(list) => are_absent(&list.handle, &list.internal_id),
        RemotePlain::Pairs(pairs) => are_absent(&pairs.handle, &pairs.internal_id),
        RemotePlain::RegExp(reg_exp) => are_absent(&reg_exp.handle, &reg_exp.internal_id),
        RemotePlain::Date(date) => are_absent(&date.handle, &date.internal_id),
        RemotePlain::Opaque(opaque) => are_absent(&opaque.handle, &opaque.internal_id),
        RemotePlain::Primitive(_) => false,
    }
}

// Whether neither is there.
fn are_absent(handle: &Option<String>, internal_id: &Option<String>) -> bool
    ensures { result ≡ true → (handle.now ≡ None) × (internal_id.now ≡ None) }
{
    handle.is_none() && internal_id.is_none()
}

// Copies a value, cut at this depth if there is one, and with this handle if there is one.
fn shown(
    alloc: Global,
    held: &HeldValue,
    depth: Option<JsUint>,
    handle: Option<u64>,
) -> Result<RemoteValue, AllocError>
    // The number of the handle is below 2^48.
    requires handle { IfSome handle (λ n. n < 2 ^ 48) }
    // A handle is given only for a value that can have one.
    requires takes { IfSome handle (λ n. takes_handle (held_tree held.now) ≡ true) }
    // The copy has the tree of the value, cut at the depth if there is one, and with the id of the
    // handle if there is one.
    ensures tree { IfOk result (λ v. remote_tree v ≡ shown_as handle (cut_to (option_map (λ d. d.value) depth) (held_tree held.now))) }
    // The copy is valid, so it can be part of a result.
    ensures well { IfOk result (λ v. RemoteIsWell v) }
    // The copy has at most as many levels as the value.
    ensures few { IfOk result (λ v. levels (remote_tree v) ≤ levels (held_tree held.now)) }
{
    let copy = cut_to(held.value.copy(alloc)?, depth);
    match handle {
        Some(n) => {
            let id = id_text(alloc, IdKind::Handle, 0, n)?;
            Ok(with_handle(copy, id))
        }
        None => Ok(copy),
    }
}

// Cuts the value at this depth, if there is one. Takes no memory.
fn cut_to(value: RemoteValue, depth: Option<JsUint>) -> RemoteValue
    ensures { remote_tree result ≡ cut_to (option_map (λ d. d.value) depth) (remote_tree value) }
{
    match depth {
        Some(depth) => value.cut(depth),
        None => value,
    }
}

// Gives the value this handle, in place of any that it has. Takes no memory.
fn with_handle(value: RemoteValue, handle: String) -> RemoteValue
    requires { takes_handle (remote_tree value) ≡ true }
    ensures { remote_tree result ≡ with_member "handle" (text (string_bytes handle)) (remote_tree value) }
{
    match value {
        Nested::List(mut siblings, values) => {
            siblings.handle = Some(handle);
            Nested::List(siblings, values)
        }
        Nested::Pairs(mut siblings, pairs) => {
            siblings.handle = Some(handle);
            Nested::Pairs(siblings, pairs)
        }
        Nested::Plain(plain) => Nested::Plain(plain_with_handle(plain, handle)),
    }
}

// Gives a value that has no others inside this handle. Takes no memory.
fn plain_with_handle(plain: RemotePlain, handle: String) -> RemotePlain
    requires { takes_handle (⟦<RemotePlain as Shape>⟧.shape.tree_of plain) ≡ true }
    ensures { ⟦<RemotePlain as Shape>⟧.shape.tree_of result ≡ with_member "handle" (text (string_bytes handle)) (⟦<RemotePlain as Shape>⟧.shape.tree_of plain) }
{
    match plain {
        RemotePlain::List(mut list) => {
            list.handle = Some(handle);
            RemotePlain::List(list)
        }
        RemotePlain::Pairs(mut pairs) => {
            pairs.handle = Some(handle);
            RemotePlain::Pairs(pairs)
        }
        RemotePlain::RegExp(mut reg_exp) => {
            reg_exp.handle = Some(handle);
            RemotePlain::RegExp(reg_exp)
        }
        RemotePlain::Date(mut date) => {
            date.handle = Some(handle);
            RemotePlain::Date(date)
        }
        RemotePlain::Opaque(mut opaque) => {
            opaque.handle = Some(handle);
            RemotePlain::Opaque(opaque)
        }
        RemotePlain::Primitive(primitive) => RemotePlain::Primitive(primitive),
    }
}
