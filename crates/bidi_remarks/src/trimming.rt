//! Messages without the members that only the W3C's draft has.
ghost use Rattle.std.specs.Prelude.{◌≡◌, IfOk};
ghost use Rattle.bidi_tree.specs.Node.{no_members};
ghost use Rattle.bidi_tree.specs.Outline.{outline_node, outline_items, outline_members};
ghost use Rattle.bidi_remarks.specs.Trimming.{is_source_name, is_left_out, trimmed, trimmed_items, trimmed_into};

use crate::beyond::is_vendor_name;
use bidi_tree::{Outline, OutlineMembers, Sorted, put_outline};
use std::alloc::{AllocError, Global};

/// The tree without the members that only the draft has: those with a vendor's name, and the user context if the tree is a source.
#[cycle(trimmed)]
pub(crate) fn trimmed<'a>(
    alloc: Global,
    is_source: bool,
    tree: &Outline<'a>,
) -> Result<Outline<'a>, AllocError>
    ensures { IfOk result (λ d. outline_node d ≡ trimmed is_source (outline_node tree.now)) }
{
    match tree {
        Outline::Null => Ok(Outline::Null),
        Outline::Bool(b) => Ok(Outline::Bool(*b)),
        Outline::Int(whole) => Ok(Outline::Int(*whole)),
        Outline::Odd => Ok(Outline::Odd),
        Outline::Text(text) => Ok(Outline::Text(*text)),
        Outline::List(items) => Ok(Outline::List(trimmed_items(alloc, items)?)),
        Outline::Map(members) => Ok(Outline::Map(trimmed_members(alloc, is_source, members)?)),
    }
}

// The same of the items of an array.
#[cycle(trimmed)]
fn trimmed_items<'a>(
    alloc: Global,
    items: &Vec<Outline<'a>>,
) -> Result<Vec<Outline<'a>>, AllocError>
    ensures { IfOk result (λ v. outline_items v.items ≡ trimmed_items (outline_items items.now.items)) }
{
    let mut kept = Vec::with_capacity(alloc, items.len())?;
    for item in items {
        kept.push(trimmed(alloc, false, item)?)?;
    }
    Ok(kept)
}

// The same of the members of an object.
#[cycle(trimmed)]
fn trimmed_members<'a>(
    alloc: Global,
    is_source: bool,
    members: &OutlineMembers<'a>,
) -> Result<OutlineMembers<'a>, AllocError>
    ensures { IfOk result (λ ms. outline_members ms ≡ trimmed_into is_source (outline_members members.now) no_members) }
{
    let mut kept = Sorted::with_capacity(alloc, members.len())?;
    for member in members.as_slice() {
        if is_left_out(is_source, member.0) {
            continue;
        }
        let tree = trimmed(alloc, is_source_name(member.0), &member.1)?;
        put_outline(&mut kept, member.0, tree)?;
    }
    Ok(kept)
}

// Whether only the draft has a member of this name.
fn is_left_out(is_source: bool, name: &str) -> bool
    ensures { result ≡ is_left_out is_source name.now }
{
    is_vendor_name(name) || is_source && name == "userContext"
}

// Whether the member of this name is a source.
fn is_source_name(name: &str) -> bool
    ensures { result ≡ is_source_name name.now }
{
    name == "source"
}
