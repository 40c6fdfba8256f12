//! Ids, the values that handles hold in a realm, and the arguments that refer to them.
//!
//! # Calls
//! - [`id_text`] makes an id, and [`id_number`] reads the number of one.
//! - [`held`] makes a value that handles and rows of the script table share. [`Handles`] has the handles of a
//!   realm: call [`Handles::reserve`] before [`Handles::hold`].
//! - [`check_arguments`] and [`check_this`] check the arguments of a call without building a value.
//!   [`given_back`] then builds the value of one [`Argument`], if the script returns it.
//! - [`shown_text`] gives the text of a value for a reply, cut at a depth and with its handle; [`takes_handle`]
//!   says whether it can have one.
//!
//! # Example
//! `id_text(alloc, IdKind::Context, 0, 1)?` is `00000000-0002-8000-8000-000000000001`.
//!
//! # Limits
//! - 60 levels in a value that is held, and 59 in one that a script throws.
//! - 60 levels and 1,048,576 bytes of compact text in an argument, with the values of its handles counted.
//! - Numbers below 2^48 in ids.
//!
//! # Faults
//! A [`Refusal`] is the error code to reply with, or `NoMemory`. A call that fails has changed nothing.
//!
//! # Memory and time
//! Handles share their values. An argument is measured by its outline, and each handle is found by a binary
//! search. The order of checks is that of `specs/Checks.antt`: the first that fails gives its code.
#![tactic(auto)]

mod argument;
mod handle;
mod handles;
mod holding;
mod id;
mod measuring;
mod refusal;
mod resolving;
mod showing;
mod size;
mod values;
mod within;

pub use argument::Argument;
pub use handle::{Ending, Handle, HeldValue, ThrownValue};
pub use handles::Handles;
pub use holding::held;
pub use id::{IdKind, id_number, id_text};
pub use refusal::Refusal;
pub use resolving::{check_arguments, check_this, given_back};
pub use showing::{shown_text, takes_handle};
pub use values::has_handle;
