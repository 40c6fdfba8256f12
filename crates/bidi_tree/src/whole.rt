//! Whether a tree has whole numbers only, and few levels.
ghost use Rattle.std.specs.Prelude.{◌≡◌, ◌↔◌, IsTrue};
ghost use Rattle.bidi_tree.specs.Node.{is_whole, items_are_whole, members_are_whole, IsSound, ItemsAreSound, MembersAreSound, AreAscending, MembersAreWhole};
ghost use Rattle.bidi_tree.specs.View.{node, items_node, members_node};

use crate::tree::{Members, Tree};

// Most trees are neither arrays nor objects; this part is inlined for them.
#[cycle(whole)]
#[inline(always)]
pub(crate) fn is_whole_tree(tree: &Tree, limit: usize) -> bool
    ensures value { result ≡ is_whole (node tree.now) limit }
    ensures sound { IsTrue result → IsSound (node tree.now) }
{
    match tree {
        Tree::Null | Tree::Bool(_) | Tree::Int(_) | Tree::Text(_) => true,
        Tree::Odd => false,
        Tree::List(items) => limit > 0 && are_whole_items(items, limit - 1),
        Tree::Map(members) => limit > 0 && are_whole_members(members, limit - 1),
    }
}

#[cycle(whole)]
#[inline(never)]
fn are_whole_items(items: &Vec<Tree>, limit: usize) -> bool
    ensures value { result ≡ items_are_whole (items_node items.now.items) limit }
    ensures sound { IsTrue result → ItemsAreSound (items_node items.now.items) }
{
    for item in items {
        if !is_whole_tree(item, limit) {
            return false;
        }
    }
    true
}

#[cycle(whole)]
#[inline(never)]
fn are_whole_members(members: &Members, limit: usize) -> bool
    ensures value { result ≡ members_are_whole (members_node members.now.entries) limit }
    ensures ascending { IsTrue result → AreAscending (members_node members.now.entries) }
    ensures sound { IsTrue result → MembersAreSound (members_node members.now.entries) }
{
    for (_, member) in members.iter() {
        if !is_whole_tree(member, limit) {
            return false;
        }
    }
    true
}

/// Whether the members have whole numbers only, and at most `limit` levels. Takes no memory.
pub fn are_whole(members: &Members, limit: usize) -> bool
    // The result is true exactly if no member has an `Odd` and none has more than `limit` levels.
    ensures value { IsTrue result ↔ MembersAreWhole (members_node members.now.entries) limit }
    // If the result is true, the names ascend in byte order.
    ensures ascending { IsTrue result → AreAscending (members_node members.now.entries) }
    // If the result is true, each member has whole numbers in range, and ascending names in each
    // object.
    ensures sound { IsTrue result → MembersAreSound (members_node members.now.entries) }
{
    are_whole_members(members, limit)
}
