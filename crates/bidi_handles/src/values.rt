//! Searching a value that a play sets for handles.
ghost use Rattle.std.specs.Prelude.{◌≡◌, ◌∷◌, []};
ghost use Rattle.bidi_tree.specs.Outline.{outline_node, outline_items, outline_members};
ghost use Rattle.bidi_handles.specs.Values.{is_one_of, has_handle, items_have_handle, members_have_handle};

use bidi_tree::{Outline, OutlineMembers};

/// Whether a tree has a handle in it. Takes no memory.
#[cycle(handles)]
pub fn has_handle(outline: &Outline<'_>) -> bool
    // The result is true exactly if the tree has a member `handle` or `internalId`, at any depth.
    ensures { result ≡ has_handle (outline_node outline.now) }
{
    match outline {
        Outline::Null | Outline::Bool(_) | Outline::Int(_) | Outline::Odd | Outline::Text(_) =>
            false,
        Outline::List(items) => items_have_handle(items),
        Outline::Map(members) => members_have_handle(members),
    }
}

// Whether one of the items has such a member.
#[cycle(handles)]
fn items_have_handle(items: &Vec<Outline<'_>>) -> bool
    ensures { result ≡ items_have_handle (outline_items items.now.items) }
{
    for item in items {
        if has_handle(item) {
            return true;
        }
    }
    false
}

// Whether one of the members is such a member, or has one.
#[cycle(handles)]
fn members_have_handle(members: &OutlineMembers<'_>) -> bool
    ensures { result ≡ members_have_handle (outline_members members.now) }
{
    for member in members.as_slice() {
        if names_a_handle(member.0) || has_handle(&member.1) {
            return true;
        }
    }
    false
}

// Whether this is the name of such a member.
fn names_a_handle(name: &str) -> bool
    ensures { result ≡ is_one_of ("handle" ∷ "internalId" ∷ []) name.now }
{
    name == "handle" || name == "internalId"
}
