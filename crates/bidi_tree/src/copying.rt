//! Copying trees.
ghost use Rattle.std.specs.Prelude.{◌≡◌, IfOk, OnOk};
ghost use Rattle.bidi_tree.specs.Node.{IsSound, ItemsAreSound, MembersAreSound, AreAscending};
ghost use Rattle.bidi_tree.specs.View.{node, items_node, members_node};

use crate::tree::{Members, Tree};
use std::alloc::AllocError;
use std::default::Emptied;

impl Clone for Tree {
    // A copy has the same tree, whose numbers are in range and whose names ascend.
    ghost is_clone = { λ t u. (node u ≡ node t) × IsSound (node u) };

    fn clone(&self) -> Result<Tree, AllocError> {
        copy(self)
    }
}

#[cycle(copy)]
fn copy(tree: &Tree) -> Result<Tree, AllocError>
    ensures same { IfOk result (λ t. node t ≡ node tree.now) }
    ensures sound { OnOk result (IsSound (node tree.now)) }
{
    match tree {
        Tree::Null => Ok(Tree::Null),
        Tree::Bool(b) => Ok(Tree::Bool(*b)),
        Tree::Int(whole) => Ok(Tree::Int(*whole)),
        Tree::Odd => Ok(Tree::Odd),
        Tree::Text(text) => Ok(Tree::Text(text.clone()?)),
        Tree::List(trees) => Ok(Tree::List(copy_trees(trees)?)),
        Tree::Map(members) => Ok(Tree::Map(copy_members(members)?)),
    }
}

#[cycle(copy)]
fn copy_trees(trees: &Vec<Tree>) -> Result<Vec<Tree>, AllocError>
    ensures same { IfOk result (λ v. items_node v.items ≡ items_node trees.now.items) }
    ensures sound { OnOk result (ItemsAreSound (items_node trees.now.items)) }
{
    let mut copies = Vec::with_capacity(*trees.allocator(), trees.len())?;
    for tree in trees {
        copies.push(copy(tree)?)?;
    }
    Ok(copies)
}

/// Copies the members into an object of their own.
///
/// # Errors
/// No memory: an allocation failed.
#[cycle(copy)]
pub fn copy_members(members: &Members) -> Result<Members, AllocError>
    // The copy has the same names and trees as the members.
    ensures same { IfOk result (λ m. members_node m.entries ≡ members_node members.now.entries) }
    // After an Ok, the names of the members ascend in byte order.
    ensures ascending { OnOk result (AreAscending (members_node members.now.entries)) }
    // After an Ok, each member has whole numbers in range, and ascending names in each object.
    ensures sound { OnOk result (MembersAreSound (members_node members.now.entries)) }
{
    let mut copies = Members::emptied(members)?;
    for (key, tree) in members.iter() {
        let name = key.clone()?;
        drop(copies.insert(name, copy(tree)?)?);
    }
    Ok(copies)
}
