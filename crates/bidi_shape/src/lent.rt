//! The members of an object that is written, as a list of references.
ghost use Rattle.std.specs.Prelude.{◌≡◌, ℕ, List, IfOk};
ghost use Rattle.bidi_tree.specs.Node as kind;
ghost use Rattle.bidi_tree.specs.Node.{Members as Listed};
ghost use Rattle.bidi_tree.specs.Outline.{outline_node, outline_members};
ghost use Rattle.bidi_shape.specs.Parts.{texts_in};

use crate::ext::Ext;
use crate::fields::next_text;
use crate::members::{add_literal, add_member};
use crate::shape::Shape;
use bidi_tree::{Outline, OutlineMembers, outline_members_of};
use std::alloc::{AllocError, Global};

/// The members of an object, one after the other, each by a reference.
pub trait Lent<'a>: Drop {
    // The members of that object, from their names and the strings of its literal members.
    ghost listed: { List (List ℕ) → List (List ℕ) → Self → Listed };

    /// Makes the outlines of the members, with room for `room` more beside those of a `Rest`.
    ///
    /// # Errors
    /// No memory: an allocation failed.
    fn outline(
        &self,
        alloc: Global,
        names: &'a [&'a str],
        texts: &'a [&'a str],
        room: usize,
    ) -> Result<OutlineMembers<'a>, AllocError>
        // The outlines have the names and trees of these members.
        ensures { IfOk result (λ ms. outline_members ms ≡ listed (texts_in names.now) (texts_in texts.now) self.now) };
}

/// A member that is always there.
#[derive(Drop)]
pub struct One<'a, X: Drop, L: Drop>(pub &'a X, pub L);

impl<'a, X: Shape, L: Lent<'a>> Lent<'a> for One<'a, X, L> {
    ghost use Rattle.bidi_tree.specs.Node.{put};
    ghost use Rattle.bidi_shape.specs.Table.{head, tail};

    // The value's tree at the first name, and the members of the rest.
    ghost listed = { λ ks ws l. put (head ks) (X.shape.tree_of l.0.now) (L.listed (tail ks) ws l.1) };

    fn outline(
        &self,
        alloc: Global,
        names: &'a [&'a str],
        texts: &'a [&'a str],
        room: usize,
    ) -> Result<OutlineMembers<'a>, AllocError> {
        let (name, names) = next_text(names);
        let mut members = self.1.outline(alloc, names, texts, room)?;
        add_member(alloc, &mut members, name, self.0)?;
        Ok(members)
    }
}

/// A member that is there only if the option has a value.
#[derive(Drop)]
pub struct Maybe<'a, X: Drop, L: Drop>(pub &'a Option<X>, pub L);

impl<'a, X: Shape, L: Lent<'a>> Lent<'a> for Maybe<'a, X, L> {
    ghost use Rattle.std.specs.Prelude.{option_map};
    ghost use Rattle.bidi_shape.specs.Parts.{put_part};
    ghost use Rattle.bidi_shape.specs.Table.{head, tail};

    // The value's tree at the first name, if there is a value, and the members of the rest.
    ghost listed = { λ ks ws l. put_part (head ks) (option_map X.shape.tree_of l.0.now) (L.listed (tail ks) ws l.1) };

    fn outline(
        &self,
        alloc: Global,
        names: &'a [&'a str],
        texts: &'a [&'a str],
        room: usize,
    ) -> Result<OutlineMembers<'a>, AllocError> {
        let (name, names) = next_text(names);
        let mut members = self.1.outline(alloc, names, texts, room)?;
        if let Some(value) = self.0 {
            add_member(alloc, &mut members, name, value)?;
        }
        Ok(members)
    }
}

/// A member whose value is one given string.
#[derive(Drop)]
pub struct Exact<L: Drop>(pub L);

impl<'a, L: Lent<'a>> Lent<'a> for Exact<L> {
    ghost use Rattle.bidi_tree.specs.Node.{put};
    ghost use Rattle.bidi_shape.specs.Table.{head, tail};

    // The first text at the first name, and the members of the rest.
    ghost listed = { λ ks ws l. put (head ks) (kind.text (head ws)) (L.listed (tail ks) (tail ws) l.0) };

    fn outline(
        &self,
        alloc: Global,
        names: &'a [&'a str],
        texts: &'a [&'a str],
        room: usize,
    ) -> Result<OutlineMembers<'a>, AllocError> {
        let (name, names) = next_text(names);
        let (text, texts) = next_text(texts);
        let mut members = self.0.outline(alloc, names, texts, room)?;
        add_literal(&mut members, name, text)?;
        Ok(members)
    }
}

/// The further members, which the rule does not name.
#[derive(Drop)]
pub struct Rest<'a>(pub &'a Ext);

impl<'a> Lent<'a> for Rest<'a> {
    ghost use Rattle.bidi_shape.specs.ValueLaws.{others_of};

    // The further members themselves.
    ghost listed = { λ ks ws l. others_of l.0.now };

    fn outline(
        &self,
        alloc: Global,
        _names: &'a [&'a str],
        _texts: &'a [&'a str],
        room: usize,
    ) -> Result<OutlineMembers<'a>, AllocError> {
        outline_members_of(alloc, &self.0.members, room)
    }
}

/// No further members.
#[derive(Drop)]
pub struct End;

impl<'a> Lent<'a> for End {
    ghost use Rattle.bidi_tree.specs.Node.{no_members};

    // No members.
    ghost listed = { λ ks ws l. no_members };

    fn outline(
        &self,
        alloc: Global,
        _names: &'a [&'a str],
        _texts: &'a [&'a str],
        room: usize,
    ) -> Result<OutlineMembers<'a>, AllocError> {
        OutlineMembers::with_capacity(alloc, room)
    }
}

/// Makes the outline of the object with these members, from their names and the strings of its literal
/// members, in order.
///
/// # Errors
/// No memory: an allocation failed.
pub fn outline_fields<'a, L: Lent<'a>>(
    alloc: Global,
    members: &L,
    names: &'a [&'a str],
    texts: &'a [&'a str],
) -> Result<Outline<'a>, AllocError>
    // The outline is that of the object with these members.
    ensures { IfOk result (λ d. outline_node d ≡ kind.map (L.listed (texts_in names.now) (texts_in texts.now) members.now)) }
{
    Ok(Outline::Map(members.outline(alloc, names, texts, names.len())?))
}
