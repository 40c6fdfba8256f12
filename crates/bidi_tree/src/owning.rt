//! From a JSON value that borrows from its text to a tree of its own, and how deep that tree is.
ghost use Rattle.std.specs.Prelude.{◌≡◌, ◌↔◌, ◌≤◌, IfOk, IsTrue};
ghost use Rattle.json.specs.Tree.{depth, items_depth, members_depth};
ghost use Rattle.json.specs.Value.{value_view, items_view, members_view};
ghost use Rattle.bidi_tree.specs.Node.{levels, no_members};
ghost use Rattle.bidi_tree.specs.Json.{parsed, json_items, put_all};
ghost use Rattle.bidi_tree.specs.View.{node, items_node, members_node};

use crate::number_text::number_tree;
use crate::tree::{Members, Tree, put_member};
use json::Value;
use std::alloc::{AllocError, Global};

/// Makes the tree of a JSON value. Each string is copied; each member is looked up among those before it.
///
/// # Errors
/// No memory: an allocation failed.
#[cycle(own)]
pub fn own(alloc: Global, value: &Value<'_>) -> Result<Tree, AllocError>
    // The result is the value's tree: if two members have the same name, the last one counts.
    ensures { IfOk result (λ t. node t ≡ parsed value.now) }
{
    match value {
        Value::Null => Ok(Tree::Null),
        Value::Bool(b) => Ok(Tree::Bool(*b)),
        Value::Number(text) => Ok(number_tree(text).unwrap_or(Tree::Odd)),
        Value::String(text) => Ok(Tree::Text(String::from_str(alloc, text)?)),
        Value::Array(items) => Ok(Tree::List(own_items(alloc, items)?)),
        Value::Object(members) => Ok(Tree::Map(own_members(alloc, members)?)),
    }
}

#[cycle(own)]
fn own_items(alloc: Global, items: &Vec<Value<'_>>) -> Result<Vec<Tree>, AllocError>
    ensures { IfOk result (λ v. items_node v.items ≡ json_items (items_view items.now.items)) }
{
    let mut trees = Vec::with_capacity(alloc, items.len())?;
    for item in items {
        trees.push(own(alloc, item)?)?;
    }
    Ok(trees)
}

#[cycle(own)]
fn own_members(alloc: Global, members: &Vec<(&str, Value<'_>)>) -> Result<Members, AllocError>
    ensures { IfOk result (λ m. members_node m.entries ≡ put_all (members_view members.now.items) no_members) }
{
    let mut owned = Members::new(alloc);
    for member in members {
        let tree = own(alloc, &member.1)?;
        put_member(&mut owned, String::from_str(alloc, member.0)?, tree)?;
    }
    Ok(owned)
}

/// Whether the value's tree has at most `limit` levels.
///
/// Takes memory only if the value itself nests deeper. Then the tree is made, because a later member of the
/// same name may have replaced the deep part.
///
/// # Errors
/// No memory: an allocation failed.
pub fn is_parsed_within(alloc: Global, value: &Value<'_>, limit: usize) -> Result<bool, AllocError>
    // The result is true exactly if arrays and objects in the tree nest at most `limit` levels
    // deep.
    ensures { IfOk result (λ b. IsTrue b ↔ (levels (parsed value.now) ≤ limit)) }
{
    if is_shallow(value, limit) {
        return Ok(true);
    }
    let tree = own(alloc, value)?;
    Ok(tree.is_within(limit))
}

// Whether the value nests at most that deep. Each member counts, even one that a later member
// replaces.
#[cycle(shallow)]
fn is_shallow(value: &Value<'_>, limit: usize) -> bool
    ensures { IsTrue result → depth (value_view value.now) ≤ limit }
{
    match value {
        Value::Null | Value::Bool(_) | Value::Number(_) | Value::String(_) => true,
        Value::Array(items) => limit > 0 && are_shallow(items, limit - 1),
        Value::Object(members) => limit > 0 && members_are_shallow(members, limit - 1),
    }
}

#[cycle(shallow)]
fn are_shallow(items: &Vec<Value<'_>>, limit: usize) -> bool
    ensures { IsTrue result → items_depth (items_view items.now.items) ≤ limit }
{
    for item in items {
        if !is_shallow(item, limit) {
            return false;
        }
    }
    true
}

#[cycle(shallow)]
fn members_are_shallow(members: &Vec<(&str, Value<'_>)>, limit: usize) -> bool
    ensures { IsTrue result → members_depth (members_view members.now.items) ≤ limit }
{
    for member in members {
        if !is_shallow(&member.1, limit) {
            return false;
        }
    }
    true
}
