//! JSON: whole numbers, trees, and JSON texts.
//!
//! A [`Tree`] is a JSON value in memory: null, a Boolean, a whole number that every reader of JSON holds
//! exactly, `Odd` for any other number, a string, an array, or an object with distinct names. An [`Outline`]
//! is a tree that borrows its strings from the value that it is made of; it is made to be written.
//!
//! # Calls
//! - [`read`] makes the tree of a JSON text. [`parse`] gives a JSON value that borrows from the text instead;
//!   [`own`] makes its tree, [`outline_parsed`] its outline.
//! - [`write`] gives the compact JSON text of a tree, and [`write_outline`] that of an outline. The text
//!   reads back as the same tree.
//! - [`Tree::get`] and the calls named `as_` look into a tree. [`Tree::is_writable`] says whether it may be
//!   written.
//! - [`outline_of`] makes the outline of a tree, [`put_outline`] adds a member to an object's outline, and
//!   [`own_outline`] makes a tree of an outline.
//!
//! # Example
//! ```rust
//! let tree = read(alloc, text, None)?;
//! if tree.is_writable() {
//!     let compact = write(alloc, &tree)?;
//! }
//! ```
//! The text `{ "a": 1, "a": 2 }` is written back as `{"a":2}`.
//!
//! # Limits
//! - 127 levels of arrays and objects in a text that is read; [`ReadFault::NotJson`] past that.
//! - 100 levels, and no `Odd`, in a tree that is written: the caller has to make sure of it.
//! - As many bytes as the caller allows; [`ReadFault::TooLong`] past that.
//!
//! After RFC 8259, as `serde_json` reads it: if an object has two members of one name, the last counts. A
//! number too large for a float is not JSON.
//!
//! # Memory and time
//! Reading and writing walk the text or the tree once. A tree owns its strings; an outline takes one block of
//! memory for each array and object. A call that runs out of memory changes nothing.
#![tactic(auto)]

mod copying;
mod levels;
mod number;
mod number_text;
mod outline;
mod outlining;
mod outlining_parsed;
mod owning;
mod reading;
mod sorted;
mod tree;
mod value_whole;
mod whole;
mod writing;

pub use copying::copy_members;
pub use number::{JsInt, JsUint};
pub use number_text::whole_number;
pub use outline::{Outline, OutlineMembers, find_outline, own_outline, put_outline};
pub use outlining::{outline_members_of, outline_of};
pub use outlining_parsed::outline_parsed;
pub use owning::{is_parsed_within, own};
pub use reading::{ReadFault, parse, read};
pub use sorted::Sorted;
pub use tree::{Members, Tree, find_member, put_member};
pub use value_whole::is_parsed_whole;
pub use whole::are_whole;
pub use writing::{append_outline, write, write_outline};
