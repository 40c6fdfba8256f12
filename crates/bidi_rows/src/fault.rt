//! Why the text of a row was not read.
ghost use Rattle.std.specs.Prelude.{◌≡◌};
ghost use Rattle.bidi_rows.specs.Refusals.{fault_of};
ghost use Rattle.bidi_rows.specs.declared.fault.RowFault.TheVariants.{NoMemory};

use json::Error as JsonError;
use std::alloc::{AllocError, AllocFailed};
use thiserror::Error;

/// Why the text of a row, an answer or an event was not read.
#[derive(Clone, Copy, Debug, PartialEq, Eq, Drop, Error)]
pub enum RowFault {
    /// An allocation failed. The same text may be read again.
    #[error("out of memory")]
    NoMemory,
    /// The text has more than 1,048,576 bytes.
    #[error("the row is longer than 1,048,576 bytes")]
    TooLong,
    /// The text is not JSON.
    #[error("the row is not JSON")]
    NotJson,
    /// The value is not an object, or it has a property that is not one of a row of this kind.
    #[error("the row is not an object with the properties of a row")]
    Unexpected,
    /// There is no string `method`.
    #[error("\"method\" is not a string")]
    NoMethod,
    /// The params of an event are not an object.
    #[error("\"params\" of an event is not an object")]
    NoParams,
    /// The part nests more than 60 levels deep.
    #[error("\"params\" nests more than 60 levels deep")]
    DeepPart,
    /// The property `times` is not a number from 1 to 2^53 - 1.
    #[error("\"times\" is not a number from 1 to 9007199254740991")]
    BadTimes,
    /// There is not exactly one of an object `result` and a string `error`, or `message` is not a string beside `error`.
    #[error("the row needs an object \"result\" or a string \"error\", which may have a string \"message\"")]
    BadReply,
    /// The property `before` or `after` is not an array.
    #[error("\"before\" and \"after\" are arrays of events")]
    BadEvents,
}

impl From<AllocError> for RowFault {
    ghost from_gives = { λ _ fault. fault ≡ NoMemory };

    fn from(_error: AllocError) -> RowFault {
        RowFault::NoMemory
    }
}

impl<T: Drop> From<AllocFailed<T>> for RowFault {
    ghost from_gives = { λ _ fault. fault ≡ NoMemory };

    fn from(_error: AllocFailed<T>) -> RowFault {
        RowFault::NoMemory
    }
}

impl From<JsonError> for RowFault {
    ghost from_gives = { λ error fault. fault ≡ fault_of error };

    fn from(error: JsonError) -> RowFault {
        match error {
            JsonError::OutOfMemory => RowFault::NoMemory,
            _ => RowFault::NotJson,
        }
    }
}
