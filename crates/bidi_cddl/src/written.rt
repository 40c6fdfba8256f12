//! Rules as they are written.
//!
//! Types and groups are nodes of one list. A node names the nodes inside of it by their places, which come before its own.

/// How often an entry may occur.
#[derive(Clone, Copy, PartialEq, Eq, Drop)]
pub enum Occurs {
    /// No sign.
    Once,
    /// `?`.
    Optional,
    /// `n*`; `*` is `0*`, and `+` is `1*`.
    AtLeast(usize),
}

/// A type or a group. A `usize` is the place of a node. A string is a part of the text, with its escapes.
#[derive(Clone, Copy, Drop)]
pub enum Node<'t> {
    /// A type: a string, without its quotation marks.
    Text(&'t str),
    /// A type: a number.
    Number(&'t str),
    /// A type: `a..b`; true for `a...b`, which is without b.
    Range(&'t str, &'t str, bool),
    /// A type: another type, a control operator (`.ge`, `.gt`, `.le` or `.lt`), and its number.
    Bounded(usize, &'t str, &'t str),
    /// A type: a rule, or a type of the prelude.
    Name(&'t str),
    /// A type: `{ A }`.
    Map(usize),
    /// A type: `[ A ]`.
    Array(usize),
    /// A type: `X / Y`.
    Either(usize, usize),
    /// A group: nothing.
    Empty,
    /// A group: `name: X`, `"name": X` or `"name" => X`.
    Member(Occurs, &'t str, usize),
    /// A group: `text => X`.
    Further(Occurs, usize),
    /// A group: a type alone, which is a group by its name, or an item of an array.
    Bare(Occurs, usize),
    /// A group: `( A )`.
    Inside(Occurs, usize),
    /// A group: `A, B`.
    Both(usize, usize),
    /// A group: `A // B`.
    Choice(usize, usize),
}

/// What a rule stands for, by the places of nodes.
#[derive(Clone, Copy, Drop)]
pub enum Body {
    /// A type.
    Type(usize),
    /// A group.
    Group(usize),
    /// `( x )`: this type or this group, as x is a type or a group.
    Either(usize, usize),
}

/// A rule.
#[derive(Clone, Copy, Drop)]
pub struct Rule<'t> {
    /// Its name.
    pub name: &'t str,
    /// What it stands for.
    pub body: Body,
    /// The byte at which it begins.
    pub at: usize,
}

/// The rules of a text.
#[derive(Drop)]
pub struct Written<'t> {
    /// The types and groups.
    pub nodes: Vec<Node<'t>>,
    /// The byte at which each node begins.
    pub places: Vec<usize>,
    /// The rules, in the order of their first definitions.
    pub rules: Vec<Rule<'t>>,
}
