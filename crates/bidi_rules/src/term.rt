//! Terms of CDDL, in which the rules are written.
use crate::name::Name;

/// Whether a member has to be there.
#[derive(Clone, Copy, Debug, PartialEq, Eq)]
pub enum Need {
    /// `name: X`.
    Required,
    /// `? name: X`.
    Optional,
}

/// Whether a map takes other members than those that its rule names.
#[derive(Clone, Copy, Debug, PartialEq, Eq)]
pub enum Openness {
    /// Each of which fits `any`.
    Extensible,
    /// It takes none.
    Closed,
}

/// A member that a rule names: its name, whether it has to be there, and what it has to fit.
pub type Row = (&'static str, Need, Term);

/// What a rule says of a tree. After RFC 8610, 2 and 3.
pub enum Term {
    /// One text, letter for letter.
    Exactly(&'static str),
    /// Any text.
    Text,
    /// A truth value.
    Bool,
    /// `null`.
    Null,
    /// A whole number from 0 to 2^53 - 1.
    JsUint,
    /// A whole number from -(2^53 - 1) to 2^53 - 1.
    JsInt,
    /// Any tree with no Odd and at most 60 levels.
    Any,
    /// A list with so many items at least, each of the term.
    ListOf(usize, &'static Term),
    /// A list of two items.
    PairOf(&'static Term, &'static Term),
    /// A map with these members.
    MapOf(&'static [Row], Openness),
    /// One of these alternatives.
    OneOf(&'static Term, &'static [Term]),
    /// A rule by its name.
    Rule(Name),
    /// The same, of at most 60 levels.
    Capped(&'static Term),
}

/// Any tree with no Odd and at most 60 levels, as the further members of an open map are.
pub static ANY: Term = Term::Any;
