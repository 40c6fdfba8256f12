//! A tree of JSON.
ghost use Rattle.std.specs.Prelude.{◌≡◌, OnOk, OnErr, option_map, string_bytes};
ghost use Rattle.bidi_tree.specs.Node.{get_member, put};
ghost use Rattle.bidi_tree.specs.View.{node, members_node};

use crate::levels::is_within_tree;
use crate::number::JsInt;
use crate::whole::is_whole_tree;
use std::alloc::AllocError;
use std::collections::BTreeMap;

/// The members of an object, in byte order of their names.
pub type Members = BTreeMap<String, Tree>;

/// A JSON value in memory.
#[derive(Drop, PartialEq, Debug)]
pub enum Tree {
    /// `null`.
    Null,
    /// `true` or `false`.
    Bool(bool),
    /// A whole number from -(2^53 - 1) to 2^53 - 1.
    Int(JsInt),
    /// Any other number: with a fraction or an exponent, `-0`, or out of range. It cannot be written.
    Odd,
    /// A string of JSON, with its escapes resolved.
    Text(String),
    /// An array of JSON, with its items in order.
    List(Vec<Tree>),
    /// An object of JSON. The order of its members in the text is not kept.
    Map(Members),
}

/// The most levels of a tree that is written.
const MAX_LEVELS: usize = 100;

impl Tree {
    ghost use Rattle.std.specs.Prelude.{◌↔◌, ◌≤◌, IsTrue};
    ghost use Rattle.bidi_tree.specs.Node.{get_of, levels, IsSound, IsWhole, IsWritable};
    ghost use Rattle.bidi_tree.specs.Kind.{is_null, bool_in, whole_in, text_in, list_in, map_in};
    ghost use Rattle.bidi_tree.specs.View.{items_node};

    /// Whether the tree may be written.
    ///
    /// An array or an object has one level more than its deepest part, and 1 if it is empty; other values
    /// have none. Takes no memory, and looks at each part once.
    pub fn is_writable(&self) -> bool
        // The result is true exactly if the tree has no `Odd` and at most 100 levels.
        ensures value { IsTrue result ↔ IsWritable (node self.now) }
        // If the result is true, whole numbers are in range and the names of each object ascend.
        ensures sound { IsTrue result → IsSound (node self.now) }
    {
        self.is_whole(MAX_LEVELS)
    }

    /// Whether the tree has whole numbers only, and at most `limit` levels. Takes no memory.
    pub fn is_whole(&self, limit: usize) -> bool
        // The result is true exactly if the tree has no `Odd` and at most `limit` levels.
        ensures value { IsTrue result ↔ IsWhole (node self.now) limit }
        // If the result is true, whole numbers are in range and the names of each object ascend.
        ensures sound { IsTrue result → IsSound (node self.now) }
    {
        is_whole_tree(self, limit)
    }

    /// Whether the tree has at most `limit` levels, be it with or without `Odd`. Takes no memory, and looks
    /// at each part once.
    pub fn is_within(&self, limit: usize) -> bool
        // The result is true exactly if arrays and objects nest at most `limit` levels deep.
        ensures { IsTrue result ↔ (levels (node self.now) ≤ limit) }
    {
        is_within_tree(self, limit)
    }

    /// Finds the member of that name. Takes no memory.
    pub fn get(&self, name: &str) -> Option<&Tree>
        // The result is the member's tree, or `None` if the tree is no object or has no such
        // member.
        ensures { option_map (λ t. node t.now) result ≡ get_of name.now (node self.now) }
    {
        match self {
            Tree::Map(members) => find_member(members, name),
            _ => None,
        }
    }

    /// Whether the tree is null.
    pub fn is_null(&self) -> bool
        // The result is true exactly for null.
        ensures { result ≡ is_null (node self.now) }
    {
        matches!(self, Tree::Null)
    }

    /// The Boolean that the tree is.
    pub fn as_bool(&self) -> Option<bool>
        // If the tree is a Boolean, the result is that Boolean; otherwise it is `None`.
        ensures { result ≡ bool_in (node self.now) }
    {
        if let Tree::Bool(b) = self {
            Some(*b)
        } else {
            None
        }
    }

    /// The whole number that the tree is.
    pub fn as_int(&self) -> Option<JsInt>
        // If the tree is a whole number, the result is that number; otherwise, also for `Odd`, it
        // is `None`.
        ensures { option_map (λ n. n.value) result ≡ whole_in (node self.now) }
    {
        if let Tree::Int(n) = self {
            Some(*n)
        } else {
            None
        }
    }

    /// The string that the tree is.
    pub fn as_text(&self) -> Option<&String>
        // If the tree is a string, the result is that string; otherwise it is `None`.
        ensures { option_map (λ s. string_bytes s.now) result ≡ text_in (node self.now) }
    {
        if let Tree::Text(text) = self {
            Some(text)
        } else {
            None
        }
    }

    /// The items of the array that the tree is.
    pub fn as_list(&self) -> Option<&Vec<Tree>>
        // If the tree is an array, the result has its items; otherwise it is `None`.
        ensures { option_map (λ v. items_node v.now.items) result ≡ list_in (node self.now) }
    {
        if let Tree::List(items) = self {
            Some(items)
        } else {
            None
        }
    }

    /// The members of the object that the tree is.
    pub fn as_map(&self) -> Option<&Members>
        // If the tree is an object, the result has its members; otherwise it is `None`.
        ensures { option_map (λ m. members_node m.now.entries) result ≡ map_in (node self.now) }
    {
        if let Tree::Map(members) = self {
            Some(members)
        } else {
            None
        }
    }
}

/// Finds the member of that name. Takes no memory.
pub fn find_member<'a>(members: &'a Members, name: &str) -> Option<&'a Tree>
    // The result is the member's tree, or `None` if no member has that name.
    ensures { option_map (λ t. node t.now) result ≡ get_member name.now (members_node members.now.entries) }
{
    members.get(name)
}

/// Puts a member in.
///
/// # Errors
/// No memory: an allocation failed.
pub fn put_member(members: &mut Members, name: String, tree: Tree) -> Result<(), AllocError>
    // After an Ok the tree is at the name, in place of one that was there; other members are
    // unchanged.
    ensures ok { OnOk result (members_node members.new.entries
        ≡ put (string_bytes name) (node tree) (members_node members.old.entries)) }
    // After an error the members are unchanged.
    ensures err { OnErr result (members_node members.new.entries
        ≡ members_node members.old.entries) }
{
    drop(members.insert(name, tree)?);
    Ok(())
}
