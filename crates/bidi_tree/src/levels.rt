//! Whether a tree or an outline has few levels.
ghost use Rattle.std.specs.Prelude.{◌≡◌, nat_le};
ghost use Rattle.bidi_tree.specs.Node.{levels, items_levels, members_levels};
ghost use Rattle.bidi_tree.specs.Outline.{outline_node, outline_items, outline_members};
ghost use Rattle.bidi_tree.specs.View.{node, items_node, members_node};

use crate::outline::{Outline, OutlineMembers};
use crate::tree::{Members, Tree};

#[cycle(levels)]
pub(crate) fn is_within_tree(tree: &Tree, limit: usize) -> bool
    ensures { result ≡ nat_le (levels (node tree.now)) limit }
{
    match tree {
        Tree::Null | Tree::Bool(_) | Tree::Int(_) | Tree::Odd | Tree::Text(_) => true,
        Tree::List(items) => limit > 0 && are_within_items(items, limit - 1),
        Tree::Map(members) => limit > 0 && are_within_members(members, limit - 1),
    }
}

#[cycle(levels)]
fn are_within_items(items: &Vec<Tree>, limit: usize) -> bool
    ensures { result ≡ nat_le (items_levels (items_node items.now.items)) limit }
{
    for item in items {
        if !is_within_tree(item, limit) {
            return false;
        }
    }
    true
}

#[cycle(levels)]
fn are_within_members(members: &Members, limit: usize) -> bool
    ensures { result ≡ nat_le (members_levels (members_node members.now.entries)) limit }
{
    for (_, member) in members.iter() {
        if !is_within_tree(member, limit) {
            return false;
        }
    }
    true
}

#[cycle(outline_levels)]
pub(crate) fn is_within_outline(outline: &Outline<'_>, limit: usize) -> bool
    ensures { result ≡ nat_le (levels (outline_node outline.now)) limit }
{
    match outline {
        Outline::Null | Outline::Bool(_) | Outline::Int(_) | Outline::Odd | Outline::Text(_) =>
            true,
        Outline::List(items) => limit > 0 && are_within_outlines(items, limit - 1),
        Outline::Map(members) => limit > 0 && are_within_outline_members(members, limit - 1),
    }
}

#[cycle(outline_levels)]
fn are_within_outlines(items: &Vec<Outline<'_>>, limit: usize) -> bool
    ensures { result ≡ nat_le (items_levels (outline_items items.now.items)) limit }
{
    for item in items {
        if !is_within_outline(item, limit) {
            return false;
        }
    }
    true
}

#[cycle(outline_levels)]
fn are_within_outline_members(members: &OutlineMembers<'_>, limit: usize) -> bool
    ensures { result ≡ nat_le (members_levels (outline_members members.now)) limit }
{
    for member in members.as_slice() {
        if !is_within_outline(&member.1, limit) {
            return false;
        }
    }
    true
}
