//! A loaded grammar.
use bidi_grammar::Term;

/// A rule of a loaded grammar.
#[derive(Drop)]
pub struct Named {
    /// Its name.
    pub name: String,
    /// The place of its term, or `None` for a group.
    pub place: Option<usize>,
}

/// A loaded grammar.
#[derive(Drop)]
pub struct Loaded {
    /// The table.
    pub terms: Vec<Term>,
    /// The rules, in the order of the text.
    pub rules: Vec<Named>,
}
