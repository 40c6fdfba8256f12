//! Why a text is not loaded.
ghost use Rattle.std.specs.Prelude.{◌≡◌};
ghost use Rattle.bidi_cddl.specs.Tokens.{IfWrongAt};
ghost use Rattle.bidi_cddl.specs.declared.fault.LoadFault.TheVariants as faults;

use std::alloc::{AllocError, AllocFailed, Global};

/// Why a text is not loaded.
#[derive(Debug, Drop)]
pub enum LoadFault {
    /// No memory: an allocation failed.
    NoMemory,
    /// The text is no grammar that can be loaded.
    Wrong(Wrong),
}

/// A place of a text, and what is wrong there.
#[derive(Debug, Drop)]
pub struct Wrong {
    /// The byte at which it begins.
    pub at: usize,
    /// What is wrong, as `expected =, found :`.
    pub what: String,
}

impl From<AllocError> for LoadFault {
    ghost from_gives = { λ _ fault. fault ≡ faults.NoMemory };

    fn from(_: AllocError) -> LoadFault {
        LoadFault::NoMemory
    }
}

impl<T: Drop> From<AllocFailed<T>> for LoadFault {
    ghost from_gives = { λ _ fault. fault ≡ faults.NoMemory };

    fn from(_: AllocFailed<T>) -> LoadFault {
        LoadFault::NoMemory
    }
}

/// The fault of a text that has something wrong at a byte.
pub(crate) fn fault_at(alloc: Global, at: usize, what: &str) -> LoadFault
    ensures { IfWrongAt result (λ place. place ≡ at) }
{
    match String::from_str(alloc, what) {
        Ok(what) => LoadFault::Wrong(Wrong { at, what }),
        Err(_) => LoadFault::NoMemory,
    }
}
