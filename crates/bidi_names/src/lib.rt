//! Names of events that a test made known: what commands ask of them, and which sessions are subscribed to them.
//!
//! Sessions may subscribe to a name that the profile does not have once a test made it known. The remote end takes the rest of such a
//! command and makes the subscription; the names are kept here.
//!
//! # Calls
//! - [`names_of_line`] reads the names that a test makes known, [`new_words`] tells which of them are new, and [`is_known`] says which
//!   names they make known.
//! - [`names_asked`] is what a command asks of names, with the text without those that only the test has. [`ending_text`] is the text of a
//!   command that ends subscriptions.
//! - [`number_made`] and [`is_success`] read what the remote end replied; [`subscription_numbers`] reads ids, and [`id_result`] makes a
//!   result with one.
//! - [`holds_name`] and [`are_global`] ask the subscriptions of a session; [`unlisted_numbers`] and [`other_ids`] tell which of them only
//!   the test keeps; [`dismiss`], [`cancel`] and [`keep_active`] change them.
//!
//! # Limits
//! A name has 1 to 255 bytes, and the subscriptions of a session have at most 1,024 names of a test ([`has_room_for`]).
#![tactic(auto)]

mod asking;
mod names;
mod replies;
mod subscriptions;

pub use asking::{IdsWanted, NamesAsked, NamesWanted, ending_text, names_asked};
pub use names::{is_known, names_of_line, new_words};
pub use replies::{id_result, is_success, number_made, subscription_numbers};
pub use subscriptions::{
    NamedSubscription, are_global, cancel, dismiss, has_room_for, holds_name, keep_active,
    other_ids, unlisted_numbers,
};
