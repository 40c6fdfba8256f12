//! Why a run ends before its last call.
use bidi_shape::ShapeFault;
use bidi_tree::ReadFault;
use std::alloc::AllocError;
use std::io;

/// Why a run ends before its last call.
#[derive(Clone, Copy, Debug, PartialEq, Eq)]
pub(crate) enum RowFault {
    /// An allocation failed.
    NoMemory,
    /// The input has a line that says no call, or cannot be read.
    NoRow,
    /// The output cannot be written.
    NoOutput,
}

impl From<AllocError> for RowFault {
    fn from(_error: AllocError) -> RowFault {
        RowFault::NoMemory
    }
}

impl From<io::Error> for RowFault {
    fn from(_error: io::Error) -> RowFault {
        RowFault::NoOutput
    }
}

impl From<ReadFault> for RowFault {
    fn from(error: ReadFault) -> RowFault {
        match error {
            ReadFault::NoMemory => RowFault::NoMemory,
            _ => RowFault::NoRow,
        }
    }
}

impl From<ShapeFault> for RowFault {
    fn from(error: ShapeFault) -> RowFault {
        match error {
            ShapeFault::NoMemory => RowFault::NoMemory,
            _ => RowFault::NoRow,
        }
    }
}
