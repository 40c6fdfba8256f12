//! Limits of the tables.

/// The numbers in ids are below this one.
pub const NO_ID: u64 = 1 << 48;

/// How many contexts can be live at once.
pub const MOST_CONTEXTS: usize = 1024;

/// The lowest level of a context. A top-level context is at level 1.
pub const LOWEST_LEVEL: u64 = 16;
