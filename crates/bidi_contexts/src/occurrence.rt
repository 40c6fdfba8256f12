//! Events with the contexts in which they occurred.
use bidi_methods::EventData;

/// An event that occurred in a context.
#[derive(Drop)]
pub struct Occurrence {
    /// The event, with its params.
    pub event: EventData,
    /// The number of the context.
    pub context: u64,
    /// The context's top-level context, which decides the subscriptions that cover the event.
    pub top: Top,
}

/// A top-level context, as subscriptions cover it.
#[derive(Clone, Copy)]
pub struct Top {
    /// Its number.
    pub number: u64,
    /// The number of its user context; 0 is the default one.
    pub user: u64,
}
