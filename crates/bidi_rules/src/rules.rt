//! What the rules say, in the order of `docs/FORMATS.md`.

pub(crate) mod base;
pub(crate) mod browser;
pub(crate) mod browsing_context;
pub(crate) mod log;
pub(crate) mod messages;
pub(crate) mod script;
pub(crate) mod session;
