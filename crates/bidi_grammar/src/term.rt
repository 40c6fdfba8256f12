//! A grammar as a table of terms.

/// Whether a member has to be there.
#[derive(Clone, Copy, Debug, PartialEq, Eq, Drop)]
pub enum Need {
    /// `name: X`.
    Required,
    /// `? name: X`.
    Optional,
}

/// A member that a map names.
#[derive(Drop)]
pub struct Row {
    /// Its name.
    pub name: String,
    /// Whether it has to be there.
    pub need: Need,
    /// The place of the term that its value has to fit.
    pub term: usize,
}

/// One end of a range of numbers. A number is the text that the grammar writes, and is compared as the IEEE double nearest to it.
#[derive(Drop)]
pub enum Bound {
    /// No bound.
    Unbounded,
    /// The number itself is in the range.
    Including(String),
    /// The number itself is not in the range.
    Excluding(String),
}

/// What a rule can say of a value. A number names the term at that place of the table.
///
/// After RFC 8610, 2 and 3.
#[derive(Drop)]
pub enum Term {
    /// `"abc"`: exactly this string.
    Exactly(String),
    /// `text`.
    Text,
    /// `bool`.
    Bool,
    /// `true` or `false`.
    Truth(bool),
    /// `null`.
    Null,
    /// `a..b`: a whole number from the first to the second. `1.0` is not a whole number, and a whole number of more than 64 bits fits no
    /// range.
    Whole(i128, i128),
    /// `a..b` or `float .ge a`: any number between two bounds.
    Number(Bound, Bound),
    /// `any`.
    Any,
    /// `[n*X]`: an array of at least so many items, each of the term.
    ListOf(usize, usize),
    /// `[X, Y]`: an array of exactly these items.
    TupleOf(Vec<usize>),
    /// `{ name: X, ? name: Y, * text => Z }`: the named members, and what each further member has to fit. With `None` there are no further
    /// members.
    MapOf(Vec<Row>, Option<usize>),
    /// `X / Y`.
    Either(usize, usize),
    /// A rule by its name, and the place of its term.
    Rule(String, usize),
}
