//! The grammar: which trees fit which rule, and types that read and write such trees.
//!
//! The rules of the profile are in `specs/Profile.antt`, and `specs/Fits.antt` says which trees fit a rule. A
//! type that is a [`Shape`] has a rule, and its values correspond to the trees that fit it.
//!
//! # Calls
//! - [`Shape::from_tree`] reads a value from a [`Tree`](bidi_tree::Tree), from an outline, or from a JSON
//!   value that borrows from its text ([`Parsed`]).
//! - [`Shape::outline`] makes the outline of a value's tree, to be written, and [`Shape::to_tree`] the tree
//!   itself.
//! - [`copied`] copies a value.
//!
//! # Writing a new type
//! An object type is a list of its members, such as `Required<JsUint, Literal<Required<EmptyParams, Ext>>>`:
//! [`read_fields`] reads the whole object by this list, and [`outline_fields`] makes its outline from
//! references to the members. A choice is an [`Either`] that [`read_choice`] reads. A type whose values are a
//! few strings is [`Named`]. A constructor checks the further members by [`further`], and by [`not_shadowed`]
//! that the value would not be read as an earlier alternative.
//!
//! # Limits
//! A further member, a script value and an Info have at most [`MAX_LEVELS`] levels, 60.
//!
//! # Faults
//! [`ShapeFault`] says why a tree was not read, and [`MakeFault`] why a value was not made. A constructor that
//! fails has used up its parts; a call that reads leaves its tree unchanged.
//!
//! # Memory and time
//! Reading looks up each member of a rule by its name once. A value owns its parts; an outline borrows the
//! strings of the value. After RFC 8610.
#![tactic(auto)]

mod choice;
mod copying;
mod ext;
mod fault;
mod fields;
mod lent;
mod lists;
mod making;
mod members;
mod parsed;
mod parsed_outline;
mod scalars;
mod shape;
mod tagged;
mod words;

pub use choice::{Either, read_choice};
pub use copying::copied;
pub use ext::{Clash, Ext};
pub use fault::ShapeFault;
pub use fields::{Closed, Fields, Literal, Optional, Required, read_fields};
pub use lent::{End, Exact, Lent, Maybe, One, Rest, outline_fields};
pub use lists::OneOrMore;
pub use making::{MakeFault, further, not_shadowed};
pub use members::{MAX_BYTES, MAX_LEVELS, add_literal, add_member, add_optional};
pub use parsed::Parsed;
pub use shape::Shape;
pub use tagged::{Bare, Tag, Typed, outline_of_type, outline_of_typed};
pub use words::{Named, read_word};
