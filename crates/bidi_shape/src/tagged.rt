//! Closed objects that their `type` tells apart.
ghost use Rattle.std.specs.Prelude.{◌≡◌, IfOk, ℕ, List};
ghost use Rattle.bidi_tree.specs.Outline.{outline_node};
ghost use Rattle.bidi_shape.specs.TagLaws.{bare_tree, typed_tree};

use crate::fault::ShapeFault;
use crate::fields::{Closed, Literal, Required, read_fields};
use crate::members::{add_literal, add_member};
use crate::parsed::Parsed;
use crate::shape::Shape;
use bidi_tree::{Outline, OutlineMembers};
use std::alloc::{AllocError, Global};
use std::marker::PhantomData;

/// A type that names the string in `type`.
pub trait Tag {
    // The bytes of that string.
    ghost tag: { List ℕ };

    /// The string in `type`. Takes no memory.
    fn tag() -> &'static str
        // The result is the string in `type`.
        ensures { result.now ≡ tag };
}

/// An object that has only a type: `{ type: "T" }`.
#[derive(Drop)]
pub struct Bare<T> {
    of: PhantomData<T>,
}

/// An object with a type and a value: `{ type: "T", value: X }`.
#[derive(Drop)]
pub struct Typed<T, X: Drop> {
    pub value: X,
    of: PhantomData<T>,
}

impl<T: Tag> Shape for Bare<T> {
    ghost use Rattle.std.specs.Prelude.{refl, [], ◌∷◌};
    ghost use Rattle.bidi_shape.specs.TagLaws.{bare_term};
    ghost use Rattle.bidi_shape.specs.Table.{map_shape};

    // The rule `{ type: "T" }`.
    ghost shape = { map_shape (bare_term T.tag) ⟦<Literal<Closed> as crate::Fields>⟧.table (T.tag ∷ []) (λ v. record { 0 = record {} }) refl refl };

    fn from_tree<S: Parsed>(alloc: Global, tree: &S) -> Result<Bare<T>, ShapeFault> {
        let Literal(Closed) = read_fields(alloc, tree, &["type"], &[T::tag()])?;
        Ok(Bare { of: PhantomData })
    }

    fn outline<'a>(&'a self, alloc: Global) -> Result<Outline<'a>, AllocError> {
        let tag: &'a str = T::tag();
        outline_of_type(alloc, tag)
    }
}

impl<T: Tag, X: Shape> Shape for Typed<T, X> {
    ghost use Rattle.std.specs.Prelude.{refl, [], ◌∷◌};
    ghost use Rattle.bidi_shape.specs.TagLaws.{typed_term};
    ghost use Rattle.bidi_shape.specs.Table.{map_shape};

    // The rule `{ type: "T", value: X }`.
    ghost shape = { map_shape (typed_term T.tag X.shape.rule) ⟦<Literal<Required<X, Closed>> as crate::Fields>⟧.table (T.tag ∷ [])
        (λ v. record { 0 = (v.value, record {}) }) refl refl };

    fn from_tree<S: Parsed>(alloc: Global, tree: &S) -> Result<Typed<T, X>, ShapeFault> {
        let Literal(Required(value, Closed)) = read_fields(
            alloc,
            tree,
            &["type", "value"],
            &[T::tag()],
        )?;
        Ok(Typed {
            value,
            of: PhantomData,
        })
    }

    fn outline<'a>(&'a self, alloc: Global) -> Result<Outline<'a>, AllocError> {
        let tag: &'a str = T::tag();
        outline_of_typed(alloc, tag, &self.value)
    }
}

/// Makes the outline of the object that has only this type.
///
/// # Errors
/// No memory: an allocation failed.
pub fn outline_of_type<'a>(alloc: Global, tag: &'a str) -> Result<Outline<'a>, AllocError>
    // The outline has the tree `{ type: tag }`.
    ensures { IfOk result (λ d. outline_node d ≡ bare_tree tag.now) }
{
    let mut members = OutlineMembers::with_capacity(alloc, 1)?;
    add_literal(&mut members, "type", tag)?;
    Ok(Outline::Map(members))
}

/// Makes the outline of the object with this type and this value.
///
/// # Errors
/// No memory: an allocation failed.
pub fn outline_of_typed<'a, X: Shape>(
    alloc: Global,
    tag: &'a str,
    value: &'a X,
) -> Result<Outline<'a>, AllocError>
    // The outline has the tree `{ type: tag, value: .. }` with the value's own tree.
    ensures { IfOk result (λ d. outline_node d ≡ typed_tree tag.now (X.shape.tree_of value.now)) }
{
    let mut members = OutlineMembers::with_capacity(alloc, 2)?;
    add_member(alloc, &mut members, "value", value)?;
    add_literal(&mut members, "type", tag)?;
    Ok(Outline::Map(members))
}
