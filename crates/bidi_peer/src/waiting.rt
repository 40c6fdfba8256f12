//! What waits in a connection: bytes that came, and bytes that go.
ghost use Rattle.std.specs.Prelude.{◌≤◌, vec_len};

use std::alloc::Global;

/// The bytes from `start` to `end`; those behind are room for a read.
#[derive(Drop)]
pub(crate) struct Inbox {
    pub(crate) alloc: Global,
    pub(crate) bytes: Vec<u8>,
    pub(crate) start: usize,
    pub(crate) end: usize,
    ghost ordered: { start ≤ end },
    ghost inside: { end ≤ vec_len bytes },
}

/// The bytes of `first` from `sent` on, and then those of `second`. What is added goes to `second`, so that a write that
/// takes a part of `first` moves nothing.
#[derive(Drop)]
pub(crate) struct Outbox {
    pub(crate) alloc: Global,
    pub(crate) first: Vec<u8>,
    pub(crate) sent: usize,
    /// Where bytes are added.
    pub(crate) second: Vec<u8>,
    ghost inside: { sent ≤ vec_len first },
}
