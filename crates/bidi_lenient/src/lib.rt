//! Commands of current client libraries, without what the profile does not have.
//!
//! [`ease`] reads the text of a command. If the command asks for something that the W3C's working draft of
//! WebDriver BiDi has but the profile does not, the result is an [`Eased`]: a text that the profile takes,
//! and reports on what was done. Every other text is to be passed on unchanged.
//!
//! For example, a `session.new` that asks for `"webSocketUrl":true` loses this capability, and the report is
//! `left out capability webSocketUrl`.
//!
//! The only fault is that an allocation failed. Most texts take no memory; see the docs of [`ease`].
#![tactic(auto)]

mod capabilities;
mod easing;
mod members;
mod method;
mod names;
mod scripts;
mod source;
mod unsubscribing;

pub use easing::{Eased, ease};
