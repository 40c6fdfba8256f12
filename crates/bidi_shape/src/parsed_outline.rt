//! Reading a typed value from an outline.
ghost use Rattle.std.specs.Prelude.{◌≡◌, IfOk, OnOk};
ghost use Rattle.bidi_tree.specs.Node.{AreAscending, MembersAreWhole, no_members};
ghost use Rattle.bidi_tree.specs.Outline.{outline_node, outline_members};
ghost use Rattle.bidi_tree.specs.View.{members_node};
ghost use Rattle.bidi_shape.specs.Fits.{without};
ghost use Rattle.bidi_shape.specs.Parts.{texts_in};
ghost use Rattle.bidi_shape.specs.Outcome.{IfNoFit};
ghost use Rattle.bidi_shape.specs.Limits.{most_levels};

use crate::ext::Ext;
use crate::fault::ShapeFault;
use crate::members::{MAX_LEVELS, is_listed};
use crate::parsed::Parsed;
use bidi_tree::{
    JsInt, Members, Outline, OutlineMembers, are_whole, find_outline, own_outline, put_member,
};
use std::alloc::{AllocError, Global};

/// Strings are borrowed from the value that the outline was made of.
impl<'a> Parsed for Outline<'a> {
    ghost tree = { outline_node };

    fn is_null(&self) -> bool {
        matches!(self, Outline::Null)
    }

    fn as_bool(&self) -> Option<bool> {
        if let Outline::Bool(b) = self {
            Some(*b)
        } else {
            None
        }
    }

    fn as_int(&self) -> Option<JsInt> {
        if let Outline::Int(n) = self {
            Some(*n)
        } else {
            None
        }
    }

    fn as_str(&self) -> Option<&str> {
        if let Outline::Text(text) = self {
            Some(*text)
        } else {
            None
        }
    }

    fn as_items(&self) -> Option<&[Outline<'a>]> {
        if let Outline::List(items) = self {
            Some(items)
        } else {
            None
        }
    }

    fn check_map(&self) -> Result<(), ShapeFault> {
        match self {
            Outline::Map(_) => Ok(()),
            _ => Err(ShapeFault::NoFit),
        }
    }

    fn member(&self, name: &str) -> Option<&Outline<'a>> {
        match self {
            Outline::Map(members) => find_outline(members, name),
            _ => None,
        }
    }

    fn others(&self, alloc: Global, names: &[&str]) -> Result<Ext, ShapeFault> {
        match self {
            Outline::Map(members) => unlisted(alloc, members, names),
            _ => Ok(Ext::empty(alloc)),
        }
    }

    fn no_others(&self, names: &[&str]) -> Result<(), ShapeFault> {
        match self {
            Outline::Map(members) => all_listed(members, names),
            _ => Ok(()),
        }
    }

    fn is_within(&self, _alloc: Global, limit: usize) -> Result<bool, AllocError> {
        Ok(Outline::is_within(self, limit))
    }
}

/// Collects the trees of the members that are not listed, each of which has to fit `any`. Takes memory only
/// if there are some.
fn unlisted(alloc: Global, members: &OutlineMembers<'_>, names: &[&str]) -> Result<Ext, ShapeFault>
    ensures sorted { OnOk result (AreAscending (outline_members members.now)) }
    ensures rest { IfOk result (λ e. members_node e.members.entries ≡ without (texts_in names.now) (outline_members members.now)) }
    ensures whole { IfOk result (λ e. MembersAreWhole (members_node e.members.entries) most_levels) }
    ensures no_fit { IfNoFit result (MembersAreWhole (without (texts_in names.now) (outline_members members.now)) most_levels → ⊥) }
{
    let mut rest = Members::new(alloc);
    for member in members.as_slice() {
        if is_listed(names, member.0) {
            continue;
        }
        let tree = own_outline(alloc, &member.1)?;
        put_member(&mut rest, String::from_str(alloc, member.0)?, tree)?;
    }
    if !rest.is_empty() && !are_whole(&rest, MAX_LEVELS) {
        return Err(ShapeFault::NoFit);
    }
    Ok(Ext::of(rest))
}

/// Checks that all members are listed.
fn all_listed(members: &OutlineMembers<'_>, names: &[&str]) -> Result<(), ShapeFault>
    ensures sorted { OnOk result (AreAscending (outline_members members.now)) }
    ensures rest { OnOk result (without (texts_in names.now) (outline_members members.now) ≡ no_members) }
    ensures no_fit { IfNoFit result (without (texts_in names.now) (outline_members members.now) ≡ no_members → ⊥) }
{
    for member in members.as_slice() {
        if !is_listed(names, member.0) {
            return Err(ShapeFault::NoFit);
        }
    }
    Ok(())
}
