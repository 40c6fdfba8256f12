//! Why hosting ended.
use crate::host::HostFault;
use std::alloc::AllocError;
use thiserror::Error;

/// Why hosting ended early. The browser is gone, with its sessions.
#[derive(Clone, Copy, Debug, PartialEq, Eq, Error)]
pub enum HostingFault {
    /// The line of this number, counted from 1, in the page file is not a line of a page.
    #[error("line {0} is no line of a page")]
    BadLine(u64),
    /// The page file, or standard input, cannot be read.
    #[error("input cannot be read")]
    Read,
    /// An answer cannot be written to standard output.
    #[error("output cannot be written")]
    Answer,
    /// The record cannot be written. It has whole lines up to the failure.
    #[error("record cannot be written")]
    Write,
    /// No connection can be accepted, or waiting for connections failed. Try another port.
    #[error("cannot listen")]
    Listen,
    /// An allocation failed.
    #[error("out of memory")]
    NoMemory,
    /// The remote end has taken 1,000,000,000 steps. Host again with a new one.
    #[error("too many steps")]
    WornOut,
    /// No line of a play can hold an input.
    #[error("a text cannot be recorded")]
    Unsaid,
}

impl From<AllocError> for HostingFault {
    fn from(_: AllocError) -> HostingFault {
        HostingFault::NoMemory
    }
}

impl From<HostFault> for HostingFault {
    fn from(error: HostFault) -> HostingFault {
        match error {
            HostFault::NoMemory => HostingFault::NoMemory,
            HostFault::WornOut => HostingFault::WornOut,
            HostFault::Unsaid => HostingFault::Unsaid,
        }
    }
}
