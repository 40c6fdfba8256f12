//! The text of an event.
use bidi_browser::Top;
use std::rc::Rc;

/// The text of an event. It is made once and shared.
#[derive(Drop)]
pub struct EventText {
    /// The top-level context in whose tree the event occurred.
    pub top: Top,
    /// The event as it is sent.
    pub text: Rc<String>,
}
