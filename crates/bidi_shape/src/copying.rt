//! Copying values.
ghost use Rattle.std.specs.Prelude.{◌≡◌, IfOk};

use crate::fault::ShapeFault;
use crate::shape::Shape;
use std::alloc::{AllocError, Global};

/// Copies a value. Makes an outline of the value, and reads the copy from that.
///
/// # Errors
/// No memory: an allocation failed.
pub fn copied<X: Shape>(alloc: Global, value: &X) -> Result<X, AllocError>
    // The value is valid, so its tree can be read again.
    requires { X.shape.well value.now }
    // The copy has the tree of the value.
    ensures tree { IfOk result (λ v. X.shape.tree_of v ≡ X.shape.tree_of value.now) }
    // The copy is valid.
    ensures well { IfOk result X.shape.well }
    // The copy is the same as the value, part by part.
    ensures same { IfOk result (λ v. X.shape.same v value.now) }
{
    let outline = value.outline(alloc)?;
    match X::from_tree(alloc, &outline) {
        Ok(copy) => Ok(copy),
        Err(ShapeFault::NoMemory) => Err(AllocError),
        Err(ShapeFault::NoFit) => unreachable!(),
    }
}
