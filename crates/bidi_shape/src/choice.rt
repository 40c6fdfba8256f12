//! Values that may be null, and choices of two types.
ghost use Rattle.std.specs.Prelude.{◌≡◌, IfOk};
ghost use Rattle.bidi_shape.specs.Term.{Term};
ghost use Rattle.bidi_shape.specs.Fits.{Fits};
ghost use Rattle.bidi_shape.specs.Outcome.{IfNoFit};
ghost use Rattle.bidi_shape.specs.Table.{unfolded};

use crate::fault::ShapeFault;
use crate::parsed::Parsed;
use crate::shape::Shape;
use bidi_tree::Outline;
use std::alloc::{AllocError, Global};

/// A value of the first type if the tree fits its rule, and otherwise of the second: `A / B`.
#[derive(Drop)]
pub enum Either<A: Drop, B: Drop> {
    /// The tree fits the first rule. It may fit the second rule too.
    First(A),
    /// The tree fits only the second rule.
    Second(B),
}

impl<A: Shape, B: Shape> Shape for Either<A, B> {
    ghost use Rattle.bidi_shape.specs.ChoiceLaws.{either_shape};

    // The rule `A / B`, with the trees of both types.
    ghost shape = { either_shape A.shape B.shape };

    fn from_tree<S: Parsed>(alloc: Global, tree: &S) -> Result<Either<A, B>, ShapeFault> {
        match A::from_tree(alloc, tree) {
            Ok(value) => Ok(Either::First(value)),
            Err(ShapeFault::NoMemory) => Err(ShapeFault::NoMemory),
            Err(ShapeFault::NoFit) => {
                let value = B::from_tree(alloc, tree)?;
                Ok(Either::Second(value))
            }
        }
    }

    fn outline<'a>(&'a self, alloc: Global) -> Result<Outline<'a>, AllocError> {
        match self {
            Either::First(value) => value.outline(alloc),
            Either::Second(value) => value.outline(alloc),
        }
    }
}

/// Reads the alternatives of a rule, such as `Either<A, Either<B, C>>`.
///
/// # Errors
/// - `NoFit`: the tree fits none of the alternatives.
/// - `NoMemory`: an allocation failed.
pub fn read_choice<E: Shape, S: Parsed>(alloc: Global, tree: &S) -> Result<E, ShapeFault>
    // After an Ok, the value is valid and has the tree that was read.
    ensures ok { IfOk result (λ e. (E.shape.tree_of e ≡ S.tree tree.now) × E.shape.well e) }
    // `NoFit` comes only if the tree fits no rule that has these alternatives.
    ensures no_fit { (τ : Term) → unfolded τ ≡ E.shape.rule → IfNoFit result (Fits (S.tree tree.now) τ → ⊥) }
{
    E::from_tree(alloc, tree)
}

/// A value or null: `X / null`.
impl<X: Shape> Shape for Option<X> {
    ghost use Rattle.bidi_shape.specs.ChoiceLaws.{nullable_shape};

    // The rule `X / null`; `None` has the tree null.
    ghost shape = { nullable_shape X.shape };

    fn from_tree<S: Parsed>(alloc: Global, tree: &S) -> Result<Option<X>, ShapeFault> {
        match X::from_tree(alloc, tree) {
            Ok(value) => Ok(Some(value)),
            Err(ShapeFault::NoMemory) => Err(ShapeFault::NoMemory),
            Err(ShapeFault::NoFit) => {
                if tree.is_null() {
                    Ok(None)
                } else {
                    Err(ShapeFault::NoFit)
                }
            }
        }
    }

    fn outline<'a>(&'a self, alloc: Global) -> Result<Outline<'a>, AllocError> {
        match self {
            Some(value) => value.outline(alloc),
            None => Ok(Outline::Null),
        }
    }
}
