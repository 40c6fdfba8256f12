//! The values of scripts as messages carry them: primitive values, lists, maps and references.
//!
//! # Parts
//! - [`LocalValue`] is a value that a client sends, and [`RemoteValue`] one that the remote end sends. Both are a
//!   [`Nested`], over the plain values of their rule: a [`LocalPlain`] or a [`RemotePlain`].
//! - A plain value is a [`Primitive`], a date, a regular expression, a [`Reference`] that a client sends, or a value of
//!   which a message gives only the type, an [`Opaque`].
//! - [`RemoteList`], [`RemotePairs`] and [`RemoteOpaque`] name a value that the remote end keeps: by a handle, or by an
//!   id within one message.
//!
//! # Calls
//! Each type is a [`Shape`](bidi_shape::Shape): its values are the trees that fit its rule. [`Nested::copy`] copies a
//! value, [`RemoteValue::cut`](Nested::cut) removes what lies deeper than a depth, and [`Nested::checked`] refuses a value
//! that is too deep. A type with further members has a constructor, which refuses the parts that are no value of it.
//!
//! # Limits
//! A value has at most 60 levels of lists and maps.
#![tactic(auto)]

mod copying;
mod cut;
mod held;
mod kinds;
mod local_value;
mod nested;
mod opaque;
mod primitive;
mod reading;
mod reference;
mod reg_exp;
mod remote_value;
mod siblings;
mod writing;

pub use held::{RemoteDate, RemoteList, RemoteOpaque, RemotePairs, RemoteRegExp};
pub use kinds::{ListKind, PairsKind};
pub use local_value::{LocalKey, LocalPair, LocalPlain, LocalValue};
pub use nested::{Nested, NestedKey, NestedPair, Nests};
pub use opaque::Opaque;
pub use primitive::{Number, Primitive, SpecialNumber};
pub use reference::{Reference, RemoteObjectReference, SharedReference};
pub use reg_exp::RegExpValue;
pub use remote_value::{RemoteKey, RemotePair, RemotePlain, RemoteValue};
pub use siblings::Siblings;
