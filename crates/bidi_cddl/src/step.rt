//! Steps of a reading.
//!
//! The parser notes a step for each part of the text that it reads. [`crate::checking`] checks each step against the tokens, the nodes and
//! the steps before it.

/// What a step reads. A `usize` is the place of the step of a part.
#[derive(Clone, Copy)]
pub(crate) enum Form {
    /// A type that is one token.
    Leaf,
    /// `( X )`
    Parentheses(usize),
    /// `{ A }`
    Braces(usize),
    /// `[ A ]`
    Brackets(usize),
    /// `a..b` or `a...b`
    Range,
    /// `X .ge 0`
    Bounded(usize),
    /// `X .default 0`
    Default(usize),
    /// `X / Y`
    Either(usize, usize),
    /// `name: X` or `"name" => X`
    Member(usize),
    /// `text => X`
    Further(usize),
    /// A type alone.
    Bare(usize),
    /// `( A )`
    Inside(usize),
    /// No entry.
    Empty,
    /// An entry, and maybe a comma, behind which no other entry is.
    Last(usize),
    /// `A, B`
    Both(usize, usize),
    /// `A // B`
    Choice(usize, usize),
}

/// Some tokens that are read as a node.
#[derive(Clone, Copy)]
pub(crate) struct Step {
    /// What it reads.
    pub(crate) form: Form,
    /// The place of the node.
    pub(crate) node: usize,
    /// The place of its first token.
    pub(crate) from: usize,
    /// The place of the token behind its last one.
    pub(crate) to: usize,
}
