//! The size of the value that an outline resolves to, found without building that value.
ghost use Rattle.std.specs.Prelude.{◌≡◌, Some};
ghost use Rattle.bidi_tree.specs.Node.{map};
ghost use Rattle.bidi_tree.specs.Outline.{outline_node, outline_items, outline_members};
ghost use Rattle.bidi_params.specs.declared.error_code.ErrorCode.TheVariants.{NoSuchHandle};
ghost use Rattle.bidi_handles.specs.Checks.{found};
ghost use Rattle.bidi_handles.specs.Handles.{values_in};
ghost use Rattle.bidi_handles.specs.Measured.{sized, items_sized, members_sized, seen, seen_items, seen_members, in_realm};
ghost use Rattle.bidi_handles.specs.Sizes.{size_of};
ghost use Rattle.bidi_handles.specs.Values.{handle_value};

use crate::handles::Handles;
use crate::size::{Size, decimal_bytes, quoted_bytes};
use bidi_params::ErrorCode;
use bidi_tree::{Outline, OutlineMembers, find_outline};

/// The size of an outline's tree as it is.
pub(crate) fn size_of(outline: &Outline<'_>) -> Size
    ensures { result ≡ size_of (outline_node outline.now) }
{
    match measured(None, outline) {
        Ok(size) => size,
        Err(_) => unreachable!(),
    }
}

/// The size of the value that an outline resolves to. With the handles of a realm, a reference counts as the
/// value of its handle; without a realm the tree counts as it is. Takes no memory.
///
/// # Errors
/// The code of the first reference that fails, which only happens in a realm:
/// - `no such node`: it has a shared id.
/// - `no such handle`: the realm has no such handle.
#[cycle(measure)]
pub(crate) fn measured(realm: Option<&Handles>, outline: &Outline<'_>) -> Result<Size, ErrorCode>
    ensures { result ≡ sized (seen (in_realm realm.entry) (outline_node outline.now)) }
{
    match outline {
        Outline::Null => Ok(Size::flat(4)),
        Outline::Bool(true) => Ok(Size::flat(4)),
        Outline::Bool(false) => Ok(Size::flat(5)),
        Outline::Int(whole) => Ok(Size::flat(decimal_bytes(whole.value))),
        Outline::Odd => Ok(Size::flat(0)),
        Outline::Text(text) => Ok(Size::flat(quoted_bytes(text))),
        Outline::List(items) => measured_items(realm, items),
        Outline::Map(members) => match realm {
            Some(handles) => measured_map(handles, members),
            None => measured_members(realm, members),
        },
    }
}

// The size of an object in a realm. If it has a member `sharedId` or `handle`, it is a reference.
#[cycle(measure)]
fn measured_map(handles: &Handles, members: &OutlineMembers<'_>) -> Result<Size, ErrorCode>
    ensures { result ≡ sized (seen (Some (values_in handles.now)) (map (outline_members members.now))) }
{
    if find_outline(members, "sharedId").is_some() {
        return Err(ErrorCode::NoSuchNode);
    }
    match find_outline(members, "handle") {
        Some(handle) => size_held(handles, handle),
        None => measured_members(Some(handles), members),
    }
}

// The size of the value that a handle holds; the outline is that of its id.
fn size_held(handles: &Handles, handle: &Outline<'_>) -> Result<Size, ErrorCode>
    ensures { result ≡ sized (handle_value (values_in handles.now) (outline_node handle.now)) }
{
    match handle {
        Outline::Text(id) => size_named(handles, id),
        _ => Err(ErrorCode::NoSuchHandle),
    }
}

// The size of the value that the handle of this id holds.
fn size_named(handles: &Handles, id: &str) -> Result<Size, ErrorCode>
    ensures { result ≡ sized (found (values_in handles.now id.now) NoSuchHandle) }
{
    match handles.held(id) {
        Some(held) => Ok(held.size),
        None => Err(ErrorCode::NoSuchHandle),
    }
}

// The size of an array of these items.
#[cycle(measure)]
fn measured_items(realm: Option<&Handles>, items: &Vec<Outline<'_>>) -> Result<Size, ErrorCode>
    ensures { result ≡ items_sized (seen_items (in_realm realm.entry) (outline_items items.now.items)) }
{
    let mut size = Size::flat(0);
    let mut comma = 0;
    for item in items {
        size = size.and(comma, measured(realm, item)?);
        comma = 1;
    }
    Ok(size.in_brackets())
}

// The size of an object of these members.
#[cycle(measure)]
fn measured_members(
    realm: Option<&Handles>,
    members: &OutlineMembers<'_>,
) -> Result<Size, ErrorCode>
    ensures { result ≡ members_sized (seen_members (in_realm realm.entry) (outline_members members.now)) }
{
    let mut size = Size::flat(0);
    let mut comma = 0;
    for member in members.as_slice() {
        let before = quoted_bytes(member.0)
            .saturating_add(comma)
            .saturating_add(1);
        size = size.and(before, measured(realm, &member.1)?);
        comma = 1;
    }
    Ok(size.in_brackets())
}
