//! Trees that borrow their strings, made of values to be written.
ghost use Rattle.std.specs.Prelude.{◌≡◌, IfOk, OnOk, OnErr, option_map};
ghost use Rattle.bidi_tree.specs.Node.{put, get_member};
ghost use Rattle.bidi_tree.specs.Outline.{outline_node, outline_items, outline_members};
ghost use Rattle.bidi_tree.specs.View.{node, items_node, members_node};

use crate::levels::is_within_outline;
use crate::number::JsInt;
use crate::sorted::Sorted;
use crate::tree::{Members, Tree, put_member};
use std::alloc::{AllocError, Global};
use std::cmp::Ordering;

/// A tree of JSON that borrows its strings and names from the value that it is made of.
///
/// It is made to write that value, and dropped afterwards. Each array and each object takes one block of
/// memory.
#[derive(Drop)]
pub enum Outline<'a> {
    /// `null`.
    Null,
    /// `true` or `false`.
    Bool(bool),
    /// A whole number from -(2^53 - 1) to 2^53 - 1.
    Int(JsInt),
    /// Any other number. It cannot be written.
    Odd,
    /// A string of JSON, with its escapes resolved.
    Text(&'a str),
    /// An array of JSON, with its items in order.
    List(Vec<Outline<'a>>),
    /// An object of JSON, with its members in byte order of their names.
    Map(OutlineMembers<'a>),
}

impl<'a> Outline<'a> {
    ghost use Rattle.std.specs.Prelude.{◌↔◌, ◌≤◌, IsTrue};
    ghost use Rattle.bidi_tree.specs.Node.{levels};

    /// Whether the outline has at most `limit` levels. Takes no memory, and looks at each part once.
    pub fn is_within(&self, limit: usize) -> bool
        // The result is true exactly if arrays and objects nest at most `limit` levels deep.
        ensures { IsTrue result ↔ (levels (outline_node self.now) ≤ limit) }
    {
        is_within_outline(self, limit)
    }
}

/// The members of an object's outline, in byte order of their names.
pub type OutlineMembers<'a> = Sorted<&'a str, Outline<'a>>;

/// Puts a member in.
///
/// Compares with the last member first, and moves those that come after the new one: if names come in order,
/// it compares once.
///
/// # Errors
/// No memory: an allocation failed.
pub fn put_outline<'a>(
    members: &mut OutlineMembers<'a>,
    name: &'a str,
    outline: Outline<'a>,
) -> Result<(), AllocError>
    // After an Ok the outline is at the name, in place of one that was there; other members are
    // unchanged.
    ensures ok { OnOk result (outline_members members.new ≡ put name.now (outline_node outline.entry) (outline_members members.old)) }
    // After an error the members are unchanged.
    ensures err { OnErr result (outline_members members.new ≡ outline_members members.old) }
{
    let mut place = members.entries.len();
    while place > 0 {
        match name.cmp(members.entries[place - 1].0) {
            Ordering::Less => place -= 1,
            Ordering::Equal => {
                members.entries[place - 1].1 = outline;
                return Ok(());
            }
            Ordering::Greater => break,
        }
    }
    members.entries.insert(place, (name, outline))?;
    Ok(())
}

/// Finds the member of that name. Takes no memory.
pub fn find_outline<'a, 'b>(members: &'a OutlineMembers<'b>, name: &str) -> Option<&'a Outline<'b>>
    // The result is the member's outline, or `None` if no member has that name.
    ensures { option_map (λ d. outline_node d.now) result ≡ get_member name.now (outline_members members.now) }
{
    for member in members.as_slice() {
        if member.0 == name {
            return Some(&member.1);
        }
    }
    None
}

/// Makes the tree of an outline, with strings of its own.
///
/// # Errors
/// No memory: an allocation failed.
#[cycle(own_outline)]
pub fn own_outline(alloc: Global, outline: &Outline<'_>) -> Result<Tree, AllocError>
    // The result is the tree of the outline.
    ensures { IfOk result (λ t. node t ≡ outline_node outline.now) }
{
    match outline {
        Outline::Null => Ok(Tree::Null),
        Outline::Bool(b) => Ok(Tree::Bool(*b)),
        Outline::Int(whole) => Ok(Tree::Int(*whole)),
        Outline::Odd => Ok(Tree::Odd),
        Outline::Text(text) => Ok(Tree::Text(String::from_str(alloc, text)?)),
        Outline::List(items) => Ok(Tree::List(own_outline_items(alloc, items)?)),
        Outline::Map(members) => Ok(Tree::Map(own_outline_members(alloc, members)?)),
    }
}

#[cycle(own_outline)]
fn own_outline_items(alloc: Global, items: &Vec<Outline<'_>>) -> Result<Vec<Tree>, AllocError>
    ensures { IfOk result (λ v. items_node v.items ≡ outline_items items.now.items) }
{
    let mut trees = Vec::with_capacity(alloc, items.len())?;
    for item in items {
        trees.push(own_outline(alloc, item)?)?;
    }
    Ok(trees)
}

#[cycle(own_outline)]
fn own_outline_members(alloc: Global, members: &OutlineMembers<'_>) -> Result<Members, AllocError>
    ensures { IfOk result (λ m. members_node m.entries ≡ outline_members members.now) }
{
    let mut owned = Members::new(alloc);
    for member in members.as_slice() {
        let tree = own_outline(alloc, &member.1)?;
        put_member(&mut owned, String::from_str(alloc, member.0)?, tree)?;
    }
    Ok(owned)
}
