//! What a typed value is read from: a tree, a JSON value that borrows from its text, or an outline
//! (`parsed_outline.rt`).
ghost use Rattle.std.specs.Prelude.{◌≡◌, ◌≤◌, ◌↔◌, IfOk, OnOk, IsTrue, map, option_map};
ghost use Rattle.bidi_tree.specs.Node as kind;
ghost use Rattle.bidi_tree.specs.Node.{Node, AreAscending, MembersAreWhole, get_member, levels, no_members};
ghost use Rattle.bidi_tree.specs.Kind.{is_null, bool_in, whole_in, text_in, list_in, members_in};
ghost use Rattle.bidi_tree.specs.Json.{parsed, put_all};
ghost use Rattle.bidi_tree.specs.View.{node, items_of, members_node};
ghost use Rattle.json.specs.Value.{members_view};
ghost use Rattle.bidi_shape.specs.Term.{Rows, Openness, map_of};
ghost use Rattle.bidi_shape.specs.Fits.{Fits, without};
ghost use Rattle.bidi_shape.specs.Parts.{texts_in};
ghost use Rattle.bidi_shape.specs.Outcome.{IfNoFit};
ghost use Rattle.bidi_shape.specs.Limits.{most_levels};

use crate::ext::Ext;
use crate::fault::ShapeFault;
use crate::members::{MAX_LEVELS, is_listed, no_others, others};
use bidi_tree::{
    JsInt, Members, Tree, are_whole, find_member, is_parsed_within, own, put_member, whole_number,
};
use json::Value;
use std::alloc::{AllocError, Global};

/// A JSON value that can be asked for its parts: a tree, a JSON value that borrows from its text, or an
/// outline.
pub trait Parsed: Drop {
    /// The tree of the value.
    ghost tree: { Self → Node };

    /// Whether the value is null.
    fn is_null(&self) -> bool
        // The result is true exactly for null.
        ensures { result ≡ is_null (tree self.now) };

    /// The Boolean that the value is.
    fn as_bool(&self) -> Option<bool>
        // If the value is a Boolean, the result is that Boolean; otherwise it is `None`.
        ensures { result ≡ bool_in (tree self.now) };

    /// The whole number that the value is.
    fn as_int(&self) -> Option<JsInt>
        // If the value is a whole number in range, the result is that number; otherwise it is
        // `None`.
        ensures { option_map (λ n. n.value) result ≡ whole_in (tree self.now) };

    /// The string that the value is.
    fn as_str(&self) -> Option<&str>
        // If the value is a string, the result is that string; otherwise it is `None`.
        ensures { option_map (λ s. s.now) result ≡ text_in (tree self.now) };

    /// The items of the array that the value is.
    fn as_items(&self) -> Option<&[Self]>
        // If the value is an array, the result has its items; otherwise it is `None`.
        ensures { option_map (λ v. items_of (map tree v.now)) result ≡ list_in (tree self.now) };

    /// Checks that the value is an object. Takes no memory.
    ///
    /// # Errors
    /// `NoFit`: it is no object.
    fn check_map(&self) -> Result<(), ShapeFault>
        // After an Ok the value is an object.
        ensures ok { OnOk result (kind.map (members_in (tree self.now)) ≡ tree self.now) }
        // `NoFit` comes only if the value fits no rule for objects.
        ensures no_fit { IfNoFit result ((rs : Rows) (o : Openness) → Fits (tree self.now) (map_of rs o) → ⊥) };

    /// Finds the member of that name. Takes no memory.
    fn member(&self, name: &str) -> Option<&Self>
        // The result is the member's value, or `None` if the value is no object or has no such
        // member.
        ensures { option_map (λ v. tree v.now) result ≡ get_member name.now (members_in (tree self.now)) };

    /// Collects the members that are not in `names`.
    ///
    /// # Errors
    /// - `NoFit`: one of them does not fit `any`: it has an `Odd`, or more than 60 levels.
    /// - `NoMemory`: an allocation failed.
    fn others(&self, alloc: Global, names: &[&str]) -> Result<Ext, ShapeFault>
        // After an Ok, the names of the members ascend.
        ensures sorted { OnOk result (AreAscending (members_in (tree self.now))) }
        // After an Ok, the result has exactly the members whose name is not in `names`.
        ensures rest { IfOk result (λ e. members_node e.members.entries ≡ without (texts_in names.now) (members_in (tree self.now))) }
        // After an Ok, no member of the result has an `Odd`, and none has more than 60 levels.
        ensures whole { IfOk result (λ e. MembersAreWhole (members_node e.members.entries) most_levels) }
        // `NoFit` comes only if one of these members has an `Odd` or more than 60 levels.
        ensures no_fit { IfNoFit result (MembersAreWhole (without (texts_in names.now) (members_in (tree self.now))) most_levels → ⊥) };

    /// Checks that all members are in `names`. Takes no memory.
    ///
    /// # Errors
    /// `NoFit`: a member is not in `names`.
    fn no_others(&self, names: &[&str]) -> Result<(), ShapeFault>
        // After an Ok, the names of the members ascend.
        ensures sorted { OnOk result (AreAscending (members_in (tree self.now))) }
        // After an Ok, the name of each member is in `names`.
        ensures rest { OnOk result (without (texts_in names.now) (members_in (tree self.now)) ≡ no_members) }
        // `NoFit` comes only if the name of a member is not in `names`.
        ensures no_fit { IfNoFit result (without (texts_in names.now) (members_in (tree self.now)) ≡ no_members → ⊥) };

    /// Whether the value has at most `limit` levels.
    ///
    /// # Errors
    /// No memory: an allocation failed.
    fn is_within(&self, alloc: Global, limit: usize) -> Result<bool, AllocError>
        // The result is true exactly if arrays and objects nest at most `limit` levels deep.
        ensures { IfOk result (λ b. IsTrue b ↔ (levels (tree self.now) ≤ limit)) };
}

impl Parsed for Tree {
    ghost tree = { node };

    fn is_null(&self) -> bool {
        matches!(self, Tree::Null)
    }

    fn as_bool(&self) -> Option<bool> {
        if let Tree::Bool(b) = self {
            Some(*b)
        } else {
            None
        }
    }

    fn as_int(&self) -> Option<JsInt> {
        if let Tree::Int(n) = self {
            Some(*n)
        } else {
            None
        }
    }

    fn as_str(&self) -> Option<&str> {
        if let Tree::Text(text) = self {
            Some(text.as_str())
        } else {
            None
        }
    }

    fn as_items(&self) -> Option<&[Tree]> {
        if let Tree::List(items) = self {
            Some(items)
        } else {
            None
        }
    }

    fn check_map(&self) -> Result<(), ShapeFault> {
        match self {
            Tree::Map(_) => Ok(()),
            _ => Err(ShapeFault::NoFit),
        }
    }

    fn member(&self, name: &str) -> Option<&Tree> {
        match self {
            Tree::Map(members) => find_member(members, name),
            _ => None,
        }
    }

    fn others(&self, alloc: Global, names: &[&str]) -> Result<Ext, ShapeFault> {
        match self {
            Tree::Map(members) => others(members, names),
            _ => Ok(Ext::empty(alloc)),
        }
    }

    fn no_others(&self, names: &[&str]) -> Result<(), ShapeFault> {
        match self {
            Tree::Map(members) => no_others(members, names),
            _ => Ok(()),
        }
    }

    fn is_within(&self, _alloc: Global, limit: usize) -> Result<bool, AllocError> {
        Ok(Tree::is_within(self, limit))
    }
}

/// Strings are borrowed, and a number is read at each call. If two members have the same name, the last one
/// counts.
impl<'a> Parsed for Value<'a> {
    ghost tree = { parsed };

    fn is_null(&self) -> bool {
        matches!(self, Value::Null)
    }

    fn as_bool(&self) -> Option<bool> {
        if let Value::Bool(b) = self {
            Some(*b)
        } else {
            None
        }
    }

    fn as_int(&self) -> Option<JsInt> {
        if let Value::Number(text) = self {
            whole_number(text)
        } else {
            None
        }
    }

    fn as_str(&self) -> Option<&str> {
        if let Value::String(text) = self {
            Some(*text)
        } else {
            None
        }
    }

    fn as_items(&self) -> Option<&[Value<'a>]> {
        if let Value::Array(items) = self {
            Some(items)
        } else {
            None
        }
    }

    fn check_map(&self) -> Result<(), ShapeFault> {
        match self {
            Value::Object(_) => Ok(()),
            _ => Err(ShapeFault::NoFit),
        }
    }

    fn member(&self, name: &str) -> Option<&Value<'a>> {
        self.get(name)
    }

    fn others(&self, alloc: Global, names: &[&str]) -> Result<Ext, ShapeFault> {
        match self {
            Value::Object(members) => unlisted(alloc, members, names),
            _ => Ok(Ext::empty(alloc)),
        }
    }

    fn no_others(&self, names: &[&str]) -> Result<(), ShapeFault> {
        match self {
            Value::Object(members) => all_listed(members, names),
            _ => Ok(()),
        }
    }

    fn is_within(&self, alloc: Global, limit: usize) -> Result<bool, AllocError> {
        is_parsed_within(alloc, self, limit)
    }
}

/// Collects the members that are not listed, each of which has to fit `any`. Takes memory only if there are
/// some.
fn unlisted(
    alloc: Global,
    members: &Vec<(&str, Value<'_>)>,
    names: &[&str],
) -> Result<Ext, ShapeFault>
    ensures sorted { OnOk result (AreAscending (put_all (members_view members.now.items) no_members)) }
    ensures rest { IfOk result (λ e. members_node e.members.entries ≡ without (texts_in names.now) (put_all (members_view members.now.items) no_members)) }
    ensures whole { IfOk result (λ e. MembersAreWhole (members_node e.members.entries) most_levels) }
    ensures no_fit { IfNoFit result (MembersAreWhole (without (texts_in names.now) (put_all (members_view members.now.items) no_members)) most_levels → ⊥) }
{
    let mut rest = Members::new(alloc);
    for member in members {
        if is_listed(names, member.0) {
            continue;
        }
        let tree = own(alloc, &member.1)?;
        put_member(&mut rest, String::from_str(alloc, member.0)?, tree)?;
    }
    if !rest.is_empty() && !are_whole(&rest, MAX_LEVELS) {
        return Err(ShapeFault::NoFit);
    }
    Ok(Ext::of(rest))
}

/// Checks that all members are listed.
fn all_listed(members: &Vec<(&str, Value<'_>)>, names: &[&str]) -> Result<(), ShapeFault>
    ensures sorted { OnOk result (AreAscending (put_all (members_view members.now.items) no_members)) }
    ensures rest { OnOk result (without (texts_in names.now) (put_all (members_view members.now.items) no_members) ≡ no_members) }
    ensures no_fit { IfNoFit result (without (texts_in names.now) (put_all (members_view members.now.items) no_members) ≡ no_members → ⊥) }
{
    for member in members {
        if !is_listed(names, member.0) {
            return Err(ShapeFault::NoFit);
        }
    }
    Ok(())
}
