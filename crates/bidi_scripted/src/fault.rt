//! Why a call of a scripted end had no effect.
ghost use Rattle.std.specs.Prelude.{◌≡◌};
ghost use Rattle.bidi_scripted.specs.Faults.{fault_of, fault_of_row};
ghost use Rattle.bidi_scripted.specs.declared.fault.ScriptFault.TheVariants.{NoMemory};

use bidi_remote::RemoteFault;
use bidi_rows::RowFault;
use std::alloc::{AllocError, AllocFailed};
use thiserror::Error;

/// Why a call had no effect. The scripted end is as it was before.
#[derive(Clone, Copy, Debug, PartialEq, Eq, Drop, Error)]
pub enum ScriptFault {
    /// An allocation failed. The same call may be made again.
    #[error("out of memory")]
    NoMemory,
    /// The remote end has taken 1,000,000,000 steps. Go on with a new one.
    #[error("too many steps")]
    WornOut,
    /// The text is not that of a row, an answer or an event.
    #[error("{0}")]
    BadRow(RowFault),
    /// There are 1,024 rows.
    #[error("there are 1,024 rows")]
    TooManyRows,
    /// Rows and held commands would have more than 268,435,456 bytes.
    #[error("rows and held commands would have more than 268,435,456 bytes")]
    TooMuchKept,
    /// A name is empty, longer than 255 bytes, or has other bytes than letters, digits, `.`, `:`, `-` and `_`.
    #[error("a name has 1 to 255 letters, digits, '.', ':', '-' and '_'")]
    BadName,
    /// 1,024 names would be known.
    #[error("more than 1,024 names would be known")]
    TooManyNames,
    /// No row is for commands of this method.
    #[error("no row is for this method")]
    NoRow,
    /// No command of this number is held: none ever was, or it was released.
    #[error("no command of this number is held")]
    NotHeld,
}

impl From<AllocError> for ScriptFault {
    ghost from_gives = { λ _ fault. fault ≡ NoMemory };

    fn from(_error: AllocError) -> ScriptFault {
        ScriptFault::NoMemory
    }
}

impl<T: Drop> From<AllocFailed<T>> for ScriptFault {
    ghost from_gives = { λ _ fault. fault ≡ NoMemory };

    fn from(_error: AllocFailed<T>) -> ScriptFault {
        ScriptFault::NoMemory
    }
}

impl From<RemoteFault> for ScriptFault {
    ghost from_gives = { λ error fault. fault ≡ fault_of error };

    fn from(error: RemoteFault) -> ScriptFault {
        match error {
            RemoteFault::NoMemory => ScriptFault::NoMemory,
            RemoteFault::WornOut => ScriptFault::WornOut,
        }
    }
}

impl From<RowFault> for ScriptFault {
    ghost from_gives = { λ error fault. fault ≡ fault_of_row error };

    fn from(error: RowFault) -> ScriptFault {
        match error {
            RowFault::NoMemory => ScriptFault::NoMemory,
            fault => ScriptFault::BadRow(fault),
        }
    }
}
