//! Why a tree was not read.
use std::alloc::{AllocError, AllocFailed};
use thiserror::Error;

/// Why a value was not read from a tree.
#[derive(Clone, Copy, Debug, PartialEq, Eq, Drop, Error)]
pub enum ShapeFault {
    /// A part is missing, is of the wrong kind or out of range, or there is one too many. Another rule may
    /// fit the tree; this one never will.
    #[error("the tree does not fit the rule")]
    NoFit,
    /// An allocation failed. The same tree may be read again.
    #[error("out of memory")]
    NoMemory,
}

impl From<AllocError> for ShapeFault {
    ghost use Rattle.std.specs.Prelude.{◌≡◌};
    ghost use Rattle.bidi_shape.specs.declared.fault.ShapeFault.TheVariants.{NoMemory};

    ghost from_gives = { λ _ e. e ≡ NoMemory };

    fn from(_error: AllocError) -> ShapeFault {
        ShapeFault::NoMemory
    }
}

impl<T: Drop> From<AllocFailed<T>> for ShapeFault {
    ghost use Rattle.std.specs.Prelude.{◌≡◌};
    ghost use Rattle.bidi_shape.specs.declared.fault.ShapeFault.TheVariants.{NoMemory};

    ghost from_gives = { λ _ e. e ≡ NoMemory };

    fn from(_error: AllocFailed<T>) -> ShapeFault {
        ShapeFault::NoMemory
    }
}
