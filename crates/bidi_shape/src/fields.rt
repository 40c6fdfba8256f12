//! The members of an object type as a list of types, and reading a whole object by it.
ghost use Rattle.std.specs.Prelude.{◌≡◌, IfOk, OnOk};
ghost use Rattle.bidi_tree.specs.Node.{AreAscending};
ghost use Rattle.bidi_tree.specs.Kind.{members_in};
ghost use Rattle.bidi_shape.specs.Fits.{Fits, RowsFit, OthersFit, without};
ghost use Rattle.bidi_shape.specs.Parts.{PartsAt, texts_in};
ghost use Rattle.bidi_shape.specs.Outcome.{IfNoFit};
ghost use Rattle.bidi_shape.specs.Table.{head, tail, Table, IsTable, tree_by, good_by, unfolded};
ghost use Rattle.bidi_shape.specs.Term.{Term, map_of};

use crate::ext::Ext;
use crate::fault::ShapeFault;
use crate::members::{literal, optional, required};
use crate::parsed::Parsed;
use crate::shape::Shape;
use bidi_tree::{Outline, outline_members_of};
use std::alloc::{AllocError, Global};

/// The members of an object, one after the other.
pub trait Fields: Drop {
    /// The rows of the members, the parts of a value, and the laws of both.
    ghost table: { Table Self };

    /// Reads each member by its name, and the members that are not in `known`.
    fn read<'a, S: Parsed>(
        alloc: Global,
        map: &S,
        names: &'a [&'a str],
        texts: &'a [&'a str],
        known: &'a [&'a str],
    ) -> Result<Self, ShapeFault>
        // After an Ok, the names of the object's members ascend.
        ensures sorted { OnOk result (AreAscending (members_in (S.tree map.now))) }
        // After an Ok, the parts of the value are those at the names of its rows, and each is
        // valid.
        ensures ok { IfOk result (λ f. PartsAt (table.rows (texts_in names.now) (texts_in texts.now)) (table.parts (texts_in texts.now) f)
            (members_in (S.tree map.now)) × table.well f) }
        // After an Ok, the further members are exactly those that are not in `known`, and each may
        // be there.
        ensures rest { IfOk result (λ f. (table.others f ≡ without (texts_in known.now) (members_in (S.tree map.now)))
            × OthersFit table.openness (table.others f)) }
        // `NoFit` comes only if a row does not fit or a further member may not be there.
        ensures no_fit { IfNoFit result (RowsFit (members_in (S.tree map.now)) (table.rows (texts_in names.now) (texts_in texts.now))
            → OthersFit table.openness (without (texts_in known.now) (members_in (S.tree map.now))) → ⊥) };
}

/// The first string of a list, and the strings after it.
pub(crate) fn next_text<'a>(texts: &'a [&'a str]) -> (&'a str, &'a [&'a str])
    ensures first { result.0.now ≡ head (texts_in texts.now) }
    ensures rest { texts_in result.1.now ≡ tail (texts_in texts.now) }
{
    match texts.split_first() {
        Some((first, rest)) => (*first, rest),
        None => ("", texts),
    }
}

/// A required member.
#[derive(Drop)]
pub struct Required<X: Drop, F: Drop>(pub X, pub F);

impl<X: Shape, F: Fields> Fields for Required<X, F> {
    ghost use Rattle.bidi_shape.specs.FieldTables.{required_table};

    // A row whose member is required, and then the rows of the rest.
    ghost table = { required_table X.shape F.table };

    fn read<'a, S: Parsed>(
        alloc: Global,
        map: &S,
        names: &'a [&'a str],
        texts: &'a [&'a str],
        known: &'a [&'a str],
    ) -> Result<Required<X, F>, ShapeFault> {
        let (name, names) = next_text(names);
        let value = required(alloc, map, name)?;
        let rest = F::read(alloc, map, names, texts, known)?;
        Ok(Required(value, rest))
    }
}

/// An optional member.
#[derive(Drop)]
pub struct Optional<X: Drop, F: Drop>(pub Option<X>, pub F);

impl<X: Shape, F: Fields> Fields for Optional<X, F> {
    ghost use Rattle.bidi_shape.specs.FieldTables.{optional_table};

    // A row whose member is optional, and then the rows of the rest.
    ghost table = { optional_table X.shape F.table };

    fn read<'a, S: Parsed>(
        alloc: Global,
        map: &S,
        names: &'a [&'a str],
        texts: &'a [&'a str],
        known: &'a [&'a str],
    ) -> Result<Optional<X, F>, ShapeFault> {
        let (name, names) = next_text(names);
        let value = optional(alloc, map, name)?;
        let rest = F::read(alloc, map, names, texts, known)?;
        Ok(Optional(value, rest))
    }
}

/// A member whose value is one given string.
#[derive(Drop)]
pub struct Literal<F: Drop>(pub F);

impl<F: Fields> Fields for Literal<F> {
    ghost use Rattle.bidi_shape.specs.FieldTables.{literal_table};

    // A row whose member is one given string, and then the rows of the rest.
    ghost table = { literal_table F.table };

    fn read<'a, S: Parsed>(
        alloc: Global,
        map: &S,
        names: &'a [&'a str],
        texts: &'a [&'a str],
        known: &'a [&'a str],
    ) -> Result<Literal<F>, ShapeFault> {
        let (name, names) = next_text(names);
        let (text, texts) = next_text(texts);
        literal(map, name, text)?;
        let rest = F::read(alloc, map, names, texts, known)?;
        Ok(Literal(rest))
    }
}

/// Any further members may be there.
impl Fields for Ext {
    ghost use Rattle.bidi_shape.specs.FieldTables.{ext_table};

    // No more rows; further members may be there.
    ghost table = { ext_table };

    fn read<'a, S: Parsed>(
        alloc: Global,
        map: &S,
        names: &'a [&'a str],
        texts: &'a [&'a str],
        known: &'a [&'a str],
    ) -> Result<Ext, ShapeFault> {
        map.others(alloc, known)
    }
}

/// No further members may be there.
#[derive(Drop)]
pub struct Closed;

impl Fields for Closed {
    ghost use Rattle.bidi_shape.specs.FieldTables.{closed_table};

    // No more rows; no further members may be there.
    ghost table = { closed_table };

    fn read<'a, S: Parsed>(
        alloc: Global,
        map: &S,
        names: &'a [&'a str],
        texts: &'a [&'a str],
        known: &'a [&'a str],
    ) -> Result<Closed, ShapeFault> {
        map.no_others(known)?;
        Ok(Closed)
    }
}

/// Reads a whole object, from the names of its members and the strings of its literal members, in order.
///
/// # Errors
/// - `NoFit`: the tree does not fit the rule that has these members.
/// - `NoMemory`: an allocation failed.
pub fn read_fields<'a, F: Fields, S: Parsed>(
    alloc: Global,
    tree: &S,
    names: &'a [&'a str],
    texts: &'a [&'a str],
) -> Result<F, ShapeFault>
    // The names are those of the rule's rows, in this order, and each occurs once.
    requires table { IsTable (texts_in names.now) (F.table.rows (texts_in names.now) (texts_in texts.now)) }
    // After an Ok, the value is valid and has the tree that was read.
    ensures ok { IfOk result (λ f. (tree_by F.table (texts_in names.now) (texts_in texts.now) f ≡ S.tree tree.now)
        × good_by F.table (texts_in names.now) (texts_in texts.now) f) }
    // `NoFit` comes only if the tree fits no rule that has these members.
    ensures no_fit { (τ : Term) → unfolded τ ≡ map_of (F.table.rows (texts_in names.now) (texts_in texts.now)) F.table.openness
        → IfNoFit result (Fits (S.tree tree.now) τ → ⊥) }
{
    tree.check_map()?;
    let fields = F::read(alloc, tree, names, texts, names)?;
    Ok(fields)
}

/// Any object: `{ Extensible }`.
impl Shape for Ext {
    ghost use Rattle.std.specs.Prelude.{refl, []};
    ghost use Rattle.bidi_shape.specs.Term.{open_map, no_more};
    ghost use Rattle.bidi_shape.specs.Table.{map_shape};

    // The rule `{ Extensible }`, whose trees are all objects with members that fit `any`.
    ghost shape = { map_shape (open_map no_more) ⟦<Ext as Fields>⟧.table [] (λ e. e) refl refl };

    fn from_tree<S: Parsed>(alloc: Global, tree: &S) -> Result<Ext, ShapeFault> {
        read_fields(alloc, tree, &[], &[])
    }

    fn outline<'a>(&'a self, alloc: Global) -> Result<Outline<'a>, AllocError> {
        Ok(Outline::Map(outline_members_of(alloc, &self.members, 0)?))
    }
}
