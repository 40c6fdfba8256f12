//! The members of an object, one by one.
ghost use Rattle.std.specs.Prelude.{◌≡◌, IfOk, OnOk, OnErr, IsTrue, ◌↔◌, option_map, Some, IfSome};
ghost use Rattle.bidi_tree.specs.Node.{put, get_member, IsWhole, MembersAreWhole, AreAscending, no_members};
ghost use Rattle.bidi_tree.specs.Kind.{members_in};
ghost use Rattle.bidi_tree.specs.Outline.{outline_members};
ghost use Rattle.bidi_tree.specs.View.{node, members_node};
ghost use Rattle.bidi_shape.specs.Term.{required, optional};
ghost use Rattle.bidi_shape.specs.Fits.{without};
ghost use Rattle.bidi_shape.specs.Parts.{PartFits, put_part, has_named, texts_in};
ghost use Rattle.bidi_shape.specs.Outcome.{IfNoFit};
ghost use Rattle.std.specs.List.{list_any};
ghost use Rattle.std.specs.Str.{bytes_eq};
ghost use Rattle.bidi_tree.specs.Node as kind;
ghost use Rattle.bidi_shape.specs.Term.{exactly};
ghost use Rattle.bidi_shape.specs.Fits.{Fits};
ghost use Rattle.bidi_shape.specs.Limits.{most_levels};

use crate::ext::Ext;
use crate::fault::ShapeFault;
use crate::parsed::Parsed;
use crate::shape::Shape;
use bidi_tree::{Members, Outline, OutlineMembers, Tree, put_member, put_outline};
use std::alloc::{AllocError, Global};
use std::default::Emptied;

/// The most levels of a tree that fits `any`, as a further member has to; also of a script value and of an
/// Info.
pub const MAX_LEVELS: usize = 60;

/// The most bytes of a command, of a row of a play's table, and of an argument whose references are resolved.
pub const MAX_BYTES: usize = 1_048_576;

/// Reads the value of a required member.
pub(crate) fn required<X: Shape, S: Parsed>(
    alloc: Global,
    map: &S,
    name: &str,
) -> Result<X, ShapeFault>
    ensures ok { IfOk result (λ v. (get_member name.now (members_in (S.tree map.now)) ≡ Some (X.shape.tree_of v)) × X.shape.well v) }
    ensures no_fit { IfNoFit result (PartFits required X.shape.rule (get_member name.now (members_in (S.tree map.now))) → ⊥) }
{
    match map.member(name) {
        Some(value) => X::from_tree(alloc, value),
        None => Err(ShapeFault::NoFit),
    }
}

/// Reads the value of an optional member, if it is there.
pub(crate) fn optional<X: Shape, S: Parsed>(
    alloc: Global,
    map: &S,
    name: &str,
) -> Result<Option<X>, ShapeFault>
    ensures ok { IfOk result (λ o. (get_member name.now (members_in (S.tree map.now)) ≡ option_map X.shape.tree_of o) × IfSome o X.shape.well) }
    ensures no_fit { IfNoFit result (PartFits optional X.shape.rule (get_member name.now (members_in (S.tree map.now))) → ⊥) }
{
    match map.member(name) {
        Some(value) => Ok(Some(X::from_tree(alloc, value)?)),
        None => Ok(None),
    }
}

/// Puts the outline of a value at a name.
///
/// # Errors
/// No memory: an allocation failed, and the members are as they were.
pub fn add_member<'a, X: Shape>(
    alloc: Global,
    members: &mut OutlineMembers<'a>,
    name: &'a str,
    value: &'a X,
) -> Result<(), AllocError>
    // After an Ok the value's tree is at the name, in place of one that was there; other members
    // are unchanged.
    ensures ok { OnOk result (outline_members members.new ≡ put name.now (X.shape.tree_of value.now) (outline_members members.old)) }
    // After an error the members are unchanged.
    ensures err { OnErr result (outline_members members.new ≡ outline_members members.old) }
{
    let outline = value.outline(alloc)?;
    put_outline(members, name, outline)
}

/// Puts the outline of a value at a name, if there is a value.
///
/// # Errors
/// No memory: an allocation failed, and the members are as they were.
pub fn add_optional<'a, X: Shape>(
    alloc: Global,
    members: &mut OutlineMembers<'a>,
    name: &'a str,
    value: &'a Option<X>,
) -> Result<(), AllocError>
    // After an Ok the value's tree is at the name; if there is no value, the members are unchanged.
    ensures ok { OnOk result (outline_members members.new ≡ put_part name.now (option_map X.shape.tree_of value.now) (outline_members members.old)) }
    // After an error the members are unchanged.
    ensures err { OnErr result (outline_members members.new ≡ outline_members members.old) }
{
    match value {
        Some(value) => add_member(alloc, members, name, value),
        None => Ok(()),
    }
}

/// Puts a string at a name.
///
/// # Errors
/// No memory: an allocation failed, and the members are as they were.
pub fn add_literal<'a>(
    members: &mut OutlineMembers<'a>,
    name: &'a str,
    text: &'a str,
) -> Result<(), AllocError>
    // After an Ok the string is at the name, in place of a value that was there; other members are
    // unchanged.
    ensures ok { OnOk result (outline_members members.new ≡ put name.now (kind.text text.now) (outline_members members.old)) }
    // After an error the members are unchanged.
    ensures err { OnErr result (outline_members members.new ≡ outline_members members.old) }
{
    put_outline(members, name, Outline::Text(text))
}

pub(crate) fn is_listed(names: &[&str], name: &str) -> bool
    ensures { result ≡ list_any (bytes_eq name.now) (texts_in names.now) }
{
    for known in names {
        if name == *known {
            return true;
        }
    }
    false
}

/// Whether a member has one of the names.
pub(crate) fn has_listed(members: &Members, names: &[&str]) -> bool
    ensures { result ≡ has_named (texts_in names.now) (members_node members.now.entries) }
{
    for (name, _) in members.iter() {
        if is_listed(names, name.as_str()) {
            return true;
        }
    }
    false
}

/// Whether a tree fits `any`: it has no `Odd`, and at most 60 levels.
fn fits_any(tree: &Tree) -> bool
    ensures { IsTrue result ↔ IsWhole (node tree.now) most_levels }
{
    tree.is_whole(MAX_LEVELS)
}

/// Collects the members that are not listed, each of which has to fit `any`.
pub(crate) fn others(members: &Members, names: &[&str]) -> Result<Ext, ShapeFault>
    ensures sorted { OnOk result (AreAscending (members_node members.now.entries)) }
    ensures rest { IfOk result (λ e. members_node e.members.entries ≡ without (texts_in names.now) (members_node members.now.entries)) }
    ensures whole { IfOk result (λ e. MembersAreWhole (members_node e.members.entries) most_levels) }
    ensures no_fit { IfNoFit result (MembersAreWhole (without (texts_in names.now) (members_node members.now.entries)) most_levels → ⊥) }
{
    let mut rest = Members::emptied(members)?;
    for (name, member) in members.iter() {
        if is_listed(names, name.as_str()) {
            continue;
        }
        if !fits_any(member) {
            return Err(ShapeFault::NoFit);
        }
        put_member(&mut rest, name.clone()?, member.clone()?)?;
    }
    Ok(Ext::of(rest))
}

/// Checks that all members are listed.
pub(crate) fn no_others(members: &Members, names: &[&str]) -> Result<(), ShapeFault>
    ensures sorted { OnOk result (AreAscending (members_node members.now.entries)) }
    ensures rest { OnOk result (without (texts_in names.now) (members_node members.now.entries) ≡ no_members) }
    ensures no_fit { IfNoFit result (without (texts_in names.now) (members_node members.now.entries) ≡ no_members → ⊥) }
{
    for (name, _) in members.iter() {
        if !is_listed(names, name.as_str()) {
            return Err(ShapeFault::NoFit);
        }
    }
    Ok(())
}

/// Checks that a member is a given string.
pub(crate) fn literal<S: Parsed>(map: &S, name: &str, text: &str) -> Result<(), ShapeFault>
    ensures ok { OnOk result (get_member name.now (members_in (S.tree map.now)) ≡ Some (kind.text text.now)) }
    ensures no_fit { IfNoFit result (PartFits required (exactly text.now) (get_member name.now (members_in (S.tree map.now))) → ⊥) }
{
    match map.member(name) {
        Some(value) => is_literal(value, text),
        None => Err(ShapeFault::NoFit),
    }
}

/// Checks that a tree is a given string.
fn is_literal<S: Parsed>(value: &S, text: &str) -> Result<(), ShapeFault>
    ensures ok { OnOk result (S.tree value.now ≡ kind.text text.now) }
    ensures no_fit { IfNoFit result (Fits (S.tree value.now) (exactly text.now) → ⊥) }
{
    match value.as_str() {
        Some(found) => {
            if found == text {
                Ok(())
            } else {
                Err(ShapeFault::NoFit)
            }
        }
        None => Err(ShapeFault::NoFit),
    }
}
