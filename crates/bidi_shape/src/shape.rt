//! Types whose values are the trees that fit a rule.
ghost use Rattle.std.specs.Prelude.{◌≡◌, IfOk};
ghost use Rattle.bidi_tree.specs.Outline.{outline_node};
ghost use Rattle.bidi_tree.specs.View.{node};
ghost use Rattle.bidi_shape.specs.Value.{ShapeOf};
ghost use Rattle.bidi_shape.specs.Fits.{Fits};
ghost use Rattle.bidi_shape.specs.Outcome.{IfNoFit};

use crate::fault::ShapeFault;
use crate::parsed::Parsed;
use bidi_tree::{Outline, Tree, own_outline};
use std::alloc::{AllocError, Global};

/// A type with a rule, whose values correspond to the trees that fit the rule.
///
/// Its laws: the tree of a valid value fits the rule, and valid values with the same tree are the same.
pub trait Shape: Drop {
    // The rule, the tree of each value, when a value is valid, and the laws.
    ghost shape: { ShapeOf Self };

    /// Reads a value from a tree, from an outline, or from a JSON value that borrows from its text.
    ///
    /// # Errors
    /// - `NoFit`: the tree does not fit the rule.
    /// - `NoMemory`: an allocation failed.
    fn from_tree<S: Parsed>(alloc: Global, tree: &S) -> Result<Self, ShapeFault>
        // After an Ok, the value is valid and has the tree that was read.
        ensures ok { IfOk result (λ v. (shape.tree_of v ≡ S.tree tree.now) × shape.well v) }
        // `NoFit` comes only if the tree does not fit the rule.
        ensures no_fit { IfNoFit result (Fits (S.tree tree.now) shape.rule → ⊥) };

    /// Makes the outline of the value's tree, to be written. No string is copied; each array and object takes
    /// a block.
    ///
    /// # Errors
    /// No memory: an allocation failed.
    fn outline<'a>(&'a self, alloc: Global) -> Result<Outline<'a>, AllocError>
        // The outline has the value's tree.
        ensures { IfOk result (λ d. outline_node d ≡ shape.tree_of self.now) };

    /// Makes the tree of the value. Makes an outline first, and then copies each string.
    ///
    /// # Errors
    /// No memory: an allocation failed.
    final fn to_tree(&self, alloc: Global) -> Result<Tree, AllocError>
        // The result is the value's tree.
        ensures { IfOk result (λ t. node t ≡ shape.tree_of self.now) }
    {
        let outline = self.outline(alloc)?;
        own_outline(alloc, &outline)
    }
}
