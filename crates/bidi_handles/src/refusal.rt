//! Why an action is refused.
ghost use Rattle.std.specs.Prelude.{◌≡◌};

use bidi_params::ErrorCode;
use std::alloc::{AllocError, AllocFailed};

/// Why an action or a command is refused. Nothing has changed.
#[derive(Clone, Copy)]
pub enum Refusal {
    /// A check failed; reply with this error code. A step of a page has no reply, and has no effect.
    Code(ErrorCode),
    /// An allocation failed. The action may be tried again.
    NoMemory,
}

impl From<ErrorCode> for Refusal {
    ghost use Rattle.bidi_handles.specs.declared.refusal.Refusal.TheVariants.{Code};

    ghost from_gives = { λ code refusal. refusal ≡ Code code };

    fn from(code: ErrorCode) -> Refusal {
        Refusal::Code(code)
    }
}

impl From<AllocError> for Refusal {
    ghost use Rattle.bidi_handles.specs.declared.refusal.Refusal.TheVariants.{NoMemory};

    ghost from_gives = { λ _ refusal. refusal ≡ NoMemory };

    fn from(_error: AllocError) -> Refusal {
        Refusal::NoMemory
    }
}

impl<T: Drop> From<AllocFailed<T>> for Refusal {
    ghost use Rattle.bidi_handles.specs.declared.refusal.Refusal.TheVariants.{NoMemory};

    ghost from_gives = { λ _ refusal. refusal ≡ NoMemory };

    fn from(_error: AllocFailed<T>) -> Refusal {
        Refusal::NoMemory
    }
}
