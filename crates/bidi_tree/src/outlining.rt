//! The outline of a tree.
ghost use Rattle.std.specs.Prelude.{◌≡◌, IfOk};
ghost use Rattle.bidi_tree.specs.Outline.{outline_node, outline_items, outline_members};
ghost use Rattle.bidi_tree.specs.View.{node, items_node, members_node};

use crate::outline::{Outline, OutlineMembers};
use crate::sorted::Sorted;
use crate::tree::{Members, Tree};
use std::alloc::{AllocError, Global};

/// Makes the outline of a tree. No string is copied.
///
/// # Errors
/// No memory: an allocation failed.
#[cycle(outline)]
pub fn outline_of<'a>(alloc: Global, tree: &'a Tree) -> Result<Outline<'a>, AllocError>
    // The outline has the tree that it is made of.
    ensures { IfOk result (λ d. outline_node d ≡ node tree.now) }
{
    match tree {
        Tree::Null => Ok(Outline::Null),
        Tree::Bool(b) => Ok(Outline::Bool(*b)),
        Tree::Int(whole) => Ok(Outline::Int(*whole)),
        Tree::Odd => Ok(Outline::Odd),
        Tree::Text(text) => Ok(Outline::Text(text.as_str())),
        Tree::List(items) => Ok(Outline::List(outlines_of(alloc, items)?)),
        Tree::Map(members) => Ok(Outline::Map(outline_members_of(alloc, members, 0)?)),
    }
}

#[cycle(outline)]
fn outlines_of<'a>(alloc: Global, items: &'a Vec<Tree>) -> Result<Vec<Outline<'a>>, AllocError>
    ensures { IfOk result (λ v. outline_items v.items ≡ items_node items.now.items) }
{
    let mut outlines = Vec::with_capacity(alloc, items.len())?;
    for item in items {
        outlines.push(outline_of(alloc, item)?)?;
    }
    Ok(outlines)
}

/// Makes the outlines of an object's members, with room for `room` more. No string is copied.
///
/// # Errors
/// No memory: an allocation failed.
#[cycle(outline)]
pub fn outline_members_of<'a>(
    alloc: Global,
    members: &'a Members,
    room: usize,
) -> Result<OutlineMembers<'a>, AllocError>
    // The outlines have the same names and trees as the members.
    ensures { IfOk result (λ ms. outline_members ms ≡ members_node members.now.entries) }
{
    let mut outlines = Vec::with_capacity(alloc, members.len().saturating_add(room))?;
    for (name, member) in members.iter() {
        outlines.push((name.as_str(), outline_of(alloc, member)?))?;
    }
    Ok(Sorted { entries: outlines })
}
