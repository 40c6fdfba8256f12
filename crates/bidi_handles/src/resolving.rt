//! Resolving local values to remote ones, with the values of their handles in place of references.
//!
//! A value is measured before it is built, and is built only if a script returns it.
ghost use Rattle.std.specs.Prelude.{◌≡◌, Ok, IfOk, IfErr, IfSome, codes, is_some, map, option_map};
ghost use Rattle.bidi_params.specs.declared.error_code.ErrorCode.TheVariants.{NoSuchHandle};
ghost use Rattle.bidi_tree.specs.Node.{get_of};
ghost use Rattle.bidi_tree.specs.View.{items_of};
ghost use Rattle.bidi_handles.specs.declared.refusal.Refusal.TheVariants as Refusal;
ghost use Rattle.bidi_handles.specs.Checks.{found};
ghost use Rattle.bidi_handles.specs.Handles.{values_in};
ghost use Rattle.bidi_handles.specs.Resolves.{Gives, IsSized, Passes, stands_for, this_argument};
ghost use Rattle.bidi_handles.specs.Values.{resolved, resolved_items, argument, arguments};
ghost use Rattle.bidi_values.specs.RemoteView.{remote_tree};
ghost use Rattle.bidi_handles.specs.ValuesInHand.{local_tree, local_pair_tree, local_key_tree, remote_trees};
ghost use Rattle.bidi_values.specs.RemoteView.{remote_pair_tree, remote_key_tree};
ghost use Rattle.bidi_handles.specs.ValuesInHand.{remote_pair_trees, shared_tree};

use crate::argument::Argument;
use crate::handle::HeldValue;
use crate::handles::Handles;
use crate::holding::text_of;
use crate::measuring::measured;
use crate::refusal::Refusal;
use crate::size::Size;
use bidi_params::ErrorCode;
use bidi_shape::{MAX_BYTES, MAX_LEVELS, Shape};
use bidi_tree::find_member;
use bidi_values::{
    LocalKey, LocalPair, LocalPlain, LocalValue, Nested, NestedKey, NestedPair, Reference,
    RemoteDate, RemoteKey, RemoteList, RemoteObjectReference, RemotePair, RemotePairs, RemotePlain,
    RemoteRegExp, RemoteValue,
};
use std::alloc::{AllocError, Global};
use std::rc::Rc;

/// Checks the arguments of a call in the realm of these handles, in order, and measures each.
///
/// Builds no value. Makes an outline of each argument, and looks up each reference. Takes no memory if there
/// are no arguments.
/// no memory.
///
/// # Errors
/// The error of the first argument that fails, and the first of these that applies to it:
/// - `no such node`, `no such handle`: a reference in it has a shared id, or a handle that the realm does not
///   have. The first such reference counts; arrays are read in order, and the key of a pair comes first.
/// - `unknown error`: it has more than 60 levels, or more than 1,048,576 bytes of compact text.
/// - No memory: an allocation failed.
pub fn check_arguments<'a>(
    alloc: Global,
    handles: &'a Handles,
    values: &'a [LocalValue],
) -> Result<Vec<Argument<'a>>, Refusal>
    // Either all arguments resolve to the values that the definition gives, or the error code is
    // the one that it gives.
    ensures { Gives (λ all. map stands_for all.items) result (arguments (values_in handles.now) (map local_tree values.now)) }
{
    let mut all = Vec::with_capacity(alloc, values.len())?;
    for value in values {
        all.push(checked(alloc, handles, value)?)?;
    }
    Ok(all)
}

/// Checks the `this` of a call, if it is given. The errors are those of [`check_arguments`].
pub fn check_this(
    alloc: Global,
    handles: &Handles,
    this: &Option<LocalValue>,
) -> Result<(), Refusal>
    // The check passes exactly if the definition resolves `this`, and an error code is the one that
    // it gives.
    ensures { Passes result (this_argument (values_in handles.now) (option_map local_tree this.now)) }
{
    match this {
        Some(value) => {
            sized(alloc, handles, value)?;
            Ok(())
        }
        None => Ok(()),
    }
}

/// The value that an argument resolves to, in shared memory: that of its handle if it is a reference, and else a new one, which is
/// built and written. Measures nothing.
///
/// # Errors
/// `NoMemory`: an allocation failed.
pub fn given_back(alloc: Global, given: &Argument<'_>) -> Result<Rc<HeldValue>, Refusal>
    // After an Ok, the result has the tree of the value that the argument resolves to.
    ensures ok { IfOk result (λ held. shared_tree held ≡ stands_for given.now) }
    // The only error is `NoMemory`.
    ensures err { IfErr result (λ e. e ≡ Refusal.NoMemory) }
{
    match held_whole(given) {
        Some(held) => Ok(held.clone()?),
        None => built(alloc, given),
    }
}

// The value of the handle that an argument is a reference to, if it is one.
fn held_whole<'a>(given: &Argument<'a>) -> Option<&'a Rc<HeldValue>>
    ensures { IfSome result (λ held. shared_tree held.now ≡ stands_for given.now) }
{
    match given.value {
        Nested::Plain(plain) => held_plain(given.handles, plain),
        _ => None,
    }
}

// The value of the handle that a value that has no others inside is a reference to, if it is one.
fn held_plain<'a>(handles: &'a Handles, plain: &LocalPlain) -> Option<&'a Rc<HeldValue>>
    ensures { IfSome result (λ held. resolved (values_in handles.now) (⟦<LocalPlain as Shape>⟧.shape.tree_of plain.now) ≡ Ok (shared_tree held.now)) }
{
    match plain {
        LocalPlain::Reference(Reference::RemoteObject(object)) => held_object(handles, object),
        _ => None,
    }
}

// The value of the handle of a reference that has no `sharedId`.
fn held_object<'a>(
    handles: &'a Handles,
    object: &RemoteObjectReference,
) -> Option<&'a Rc<HeldValue>>
    ensures { IfSome result (λ held. resolved (values_in handles.now) (⟦<RemoteObjectReference as Shape>⟧.shape.tree_of object.now) ≡ Ok (shared_tree held.now)) }
{
    if has_shared_id(object) {
        return None;
    }
    handles.held(&object.handle)
}

// Builds the value that an argument resolves to, and writes its text.
fn built(alloc: Global, given: &Argument<'_>) -> Result<Rc<HeldValue>, Refusal>
    ensures ok { IfOk result (λ held. shared_tree held ≡ stands_for given.now) }
    ensures err { IfErr result (λ e. e ≡ Refusal.NoMemory) }
{
    let value = resolved(alloc, given.handles, given.value)?;
    let size = given.size;
    let text = text_of(alloc, &value)?;
    Ok(Rc::new(alloc, HeldValue { value, size, text })?)
}

// The argument with the size of the value that it resolves to, or the error of an argument that
// fails.
fn checked<'a>(
    alloc: Global,
    handles: &'a Handles,
    value: &'a LocalValue,
) -> Result<Argument<'a>, Refusal>
    ensures { Gives stands_for result (argument (values_in handles.now) (local_tree value.now)) }
{
    let size = sized(alloc, handles, value)?;
    Ok(Argument {
        handles,
        value,
        size,
    })
}

// The size of the value that an argument resolves to, or the error of an argument that fails.
fn sized(alloc: Global, handles: &Handles, value: &LocalValue) -> Result<Size, Refusal>
    ensures { IsSized result (argument (values_in handles.now) (local_tree value.now)) }
{
    let outline = value.outline(alloc)?;
    let size = measured(Some(handles), &outline)?;
    if size.levels <= MAX_LEVELS as u64 && size.bytes <= MAX_BYTES as u64 {
        Ok(size)
    } else {
        Err(Refusal::Code(ErrorCode::UnknownError))
    }
}

// Builds the remote value of the same type and content, with copies of the values of handles.
#[cycle(resolve)]
fn resolved(alloc: Global, handles: &Handles, value: &LocalValue) -> Result<RemoteValue, Refusal>
    ensures { Gives remote_tree result (resolved (values_in handles.now) (local_tree value.now)) }
{
    match value {
        Nested::Plain(plain) => resolved_plain(alloc, handles, plain),
        Nested::List(kind, values) => {
            let values = resolved_values(alloc, handles, values)?;
            let siblings = RemoteList {
                kind: *kind,
                handle: None,
                internal_id: None,
            };
            Ok(Nested::List(siblings, values))
        }
        Nested::Pairs(kind, pairs) => {
            let pairs = resolved_pairs(alloc, handles, pairs)?;
            let siblings = RemotePairs {
                kind: *kind,
                handle: None,
                internal_id: None,
            };
            Ok(Nested::Pairs(siblings, pairs))
        }
    }
}

// Builds the remote values of an array.
#[cycle(resolve)]
fn resolved_values(
    alloc: Global,
    handles: &Handles,
    values: &Vec<LocalValue>,
) -> Result<Vec<RemoteValue>, Refusal>
    ensures { Gives remote_trees result (resolved_items (values_in handles.now) (items_of (map local_tree values.now.items))) }
{
    let mut all = Vec::with_capacity(alloc, values.len())?;
    for value in values {
        all.push(resolved(alloc, handles, value)?)?;
    }
    Ok(all)
}

// Builds the remote pairs of an object or a map.
#[cycle(resolve)]
fn resolved_pairs(
    alloc: Global,
    handles: &Handles,
    pairs: &Vec<LocalPair>,
) -> Result<Vec<RemotePair>, Refusal>
    ensures { Gives remote_pair_trees result (resolved_items (values_in handles.now) (items_of (map local_pair_tree pairs.now.items))) }
{
    let mut all = Vec::with_capacity(alloc, pairs.len())?;
    for pair in pairs {
        all.push(resolved_pair(alloc, handles, pair)?)?;
    }
    Ok(all)
}

// Builds the remote pair of a local one. The key is resolved before the value.
#[cycle(resolve)]
fn resolved_pair(alloc: Global, handles: &Handles, pair: &LocalPair) -> Result<RemotePair, Refusal>
    ensures { Gives remote_pair_tree result (resolved (values_in handles.now) (local_pair_tree pair.now)) }
{
    let key = resolved_key(alloc, handles, &pair.key)?;
    let value = resolved(alloc, handles, &pair.value)?;
    Ok(NestedPair { key, value })
}

// Builds the remote key of a local one.
#[cycle(resolve)]
fn resolved_key(alloc: Global, handles: &Handles, key: &LocalKey) -> Result<RemoteKey, Refusal>
    ensures { Gives remote_key_tree result (resolved (values_in handles.now) (local_key_tree key.now)) }
{
    match key {
        NestedKey::Value(value) => {
            let value = resolved(alloc, handles, value)?;
            Ok(NestedKey::Value(value))
        }
        NestedKey::Text(text) => Ok(NestedKey::Text(text.clone()?)),
    }
}

// Builds the remote value of a local value that has no others inside.
fn resolved_plain(
    alloc: Global,
    handles: &Handles,
    plain: &LocalPlain,
) -> Result<RemoteValue, Refusal>
    ensures { Gives remote_tree result (resolved (values_in handles.now) (⟦<LocalPlain as Shape>⟧.shape.tree_of plain.now)) }
{
    match plain {
        LocalPlain::Reference(reference) => referred(alloc, handles, reference),
        LocalPlain::Primitive(primitive) => {
            let copy = primitive.copy()?;
            Ok(Nested::Plain(RemotePlain::Primitive(copy)))
        }
        LocalPlain::Date(date) => {
            let date = RemoteDate {
                value: date.clone()?,
                handle: None,
                internal_id: None,
            };
            Ok(Nested::Plain(RemotePlain::Date(date)))
        }
        LocalPlain::RegExp(reg_exp) => {
            let reg_exp = RemoteRegExp {
                value: reg_exp.copy()?,
                handle: None,
                internal_id: None,
            };
            Ok(Nested::Plain(RemotePlain::RegExp(reg_exp)))
        }
    }
}

// Builds the value that a reference resolves to. There are no nodes, so a shared id is `no such
// node`.
fn referred(alloc: Global, handles: &Handles, reference: &Reference) -> Result<RemoteValue, Refusal>
    ensures { Gives remote_tree result (resolved (values_in handles.now) (⟦<Reference as Shape>⟧.shape.tree_of reference.now)) }
{
    match reference {
        Reference::Shared(_) => Err(Refusal::Code(ErrorCode::NoSuchNode)),
        Reference::RemoteObject(object) => held_by(alloc, handles, object),
    }
}

// Builds the value that the handle of a reference holds. A reference that also has a `sharedId` is
// `no such node`.
fn held_by(
    alloc: Global,
    handles: &Handles,
    object: &RemoteObjectReference,
) -> Result<RemoteValue, Refusal>
    ensures { Gives remote_tree result (resolved (values_in handles.now) (⟦<RemoteObjectReference as Shape>⟧.shape.tree_of object.now)) }
{
    if has_shared_id(object) {
        return Err(Refusal::Code(ErrorCode::NoSuchNode));
    }
    copy_held(alloc, handles, &object.handle)
}

// Whether a reference has a member `sharedId`.
fn has_shared_id(object: &RemoteObjectReference) -> bool
    ensures { result ≡ is_some (get_of (codes "sharedId") (⟦<RemoteObjectReference as Shape>⟧.shape.tree_of object.now)) }
{
    object.shared_id.is_some() || find_member(&object.ext.members, "sharedId").is_some()
}

// Copies the value that a handle holds.
fn copy_held(alloc: Global, handles: &Handles, handle: &str) -> Result<RemoteValue, Refusal>
    ensures { Gives remote_tree result (found (values_in handles.now handle.now) NoSuchHandle) }
{
    match handles.held(handle) {
        Some(held) => Ok(held.value.copy(alloc)?),
        None => Err(Refusal::Code(ErrorCode::NoSuchHandle)),
    }
}
