//! Payloads: the params of commands and events, and the results of commands.
ghost use Rattle.std.specs.Prelude.{◌≡◌, IfOk};
ghost use Rattle.bidi_tree.specs.Outline.{outline_node};
ghost use Rattle.bidi_tree.specs.View.{node};
ghost use Rattle.bidi_shape.specs.Fits.{Fits};
ghost use Rattle.bidi_shape.specs.Outcome.{IfNoFit};
ghost use Rattle.bidi_methods.specs.Payload.{PayloadOf};

use bidi_shape::{Parsed, ShapeFault};
use bidi_tree::{Outline, Tree, own_outline};
use std::alloc::{AllocError, Global};

/// A value of one of several kinds, each with a rule of its own, as a message of that kind carries.
pub trait Payload<K: Drop>: Drop {
    // The kind of each value, the rule of each kind, the tree of each value, and the laws of these.
    ghost payload: { PayloadOf Self K };

    /// The kind of the value. Takes no memory.
    fn kind(&self) -> K
        // The result is the kind of the value.
        ensures { result ≡ payload.kind self.now };

    /// Reads a value of that kind.
    ///
    /// # Errors
    /// - `NoFit`: the tree does not fit the kind's rule.
    /// - `NoMemory`: an allocation failed.
    fn read<S: Parsed>(alloc: Global, kind: K, tree: &S) -> Result<Self, ShapeFault>
        // After an Ok, the value is valid, of that kind, and has the tree that was read.
        ensures ok { IfOk result (λ v. (payload.kind v ≡ kind) × (payload.tree_of v ≡ S.tree tree.now) × payload.well v) }
        // `NoFit` comes only if the tree does not fit the rule of that kind.
        ensures no_fit { IfNoFit result (Fits (S.tree tree.now) (payload.rule kind) → ⊥) };

    /// Makes the outline of the value's tree, to be written. No string is copied.
    ///
    /// # Errors
    /// No memory: an allocation failed.
    fn outline<'a>(&'a self, alloc: Global) -> Result<Outline<'a>, AllocError>
        // The outline has the value's tree.
        ensures { IfOk result (λ d. outline_node d ≡ payload.tree_of self.now) };

    /// Makes the tree of the value.
    ///
    /// # Errors
    /// No memory: an allocation failed.
    final fn to_tree(&self, alloc: Global) -> Result<Tree, AllocError>
        // The result is the value's tree.
        ensures { IfOk result (λ t. node t ≡ payload.tree_of self.now) }
    {
        let outline = self.outline(alloc)?;
        own_outline(alloc, &outline)
    }
}
