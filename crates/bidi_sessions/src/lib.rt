//! What a remote end keeps of its clients: open connections, and the subscriptions of a session.
//!
//! [`Connections`] is the table of open connections. [`Subscriptions`] holds the live subscriptions of one
//! session, with an index by event, so that [`Subscriptions::hears`] takes two binary searches. The rest are
//! the parts of the session commands that need no browser: [`match_capabilities`], [`all_named`] for names of
//! events, and the results. [`Step`] and [`Sent`] are what a remote end takes and sends.
//!
//! At most 64 connections are open at once.
#![tactic(auto)]

mod capabilities;
mod connections;
mod event_index;
mod event_names;
mod results;
mod step;
mod subscription_table;
mod subscriptions;

pub use capabilities::match_capabilities;
pub use connections::{Attachment, Connections};
pub use event_names::all_named;
pub use results::{end_result, new_result, status_text, subscribe_result, unsubscribe_result};
pub use step::{PageStep, Sent, SentText, Step};
pub use subscription_table::Subscriptions;
pub use subscriptions::{Scope, Subscription, covers, distinct, is_among, numbers_of};
