//! Types that name no other type.
ghost use Rattle.std.specs.Prelude.{◌≡◌, IsTrue, option_map};
ghost use Rattle.bidi_grammar.specs.Source.{number};
ghost use Rattle.bidi_grammar.specs.Term.{including};
ghost use Rattle.bidi_grammar.specs.View.{bound_of, term_of};
ghost use Rattle.bidi_loader.specs.Plain.{end_of, numeric, prelude, range};
ghost use Rattle.bidi_loader.specs.Readings.{IsPlainOf, end_view, plain_view};

use crate::number::whole_in;
use bidi_grammar::{Bound, Term};
use std::alloc::{AllocError, Global};

/// One end of a range of numbers.
#[derive(Clone, Copy, PartialEq, Eq)]
pub(crate) enum End<'t> {
    Unbounded,
    Including(&'t str),
    Excluding(&'t str),
}

/// A type that names no other type.
#[derive(Clone, Copy)]
pub(crate) enum Plain<'t> {
    Exactly(&'t str),
    Text,
    Bool,
    Truth(bool),
    Null,
    Whole(i128, i128),
    Number(End<'t>, End<'t>),
    Any,
}

/// A type of the prelude.
///
/// After RFC 8610, appendix D.
pub(crate) fn prelude(name: &str) -> Option<Plain<'static>>
    // It is that type.
    ensures { option_map plain_view result ≡ prelude name.now }
{
    if name == "text" || name == "tstr" {
        return Some(Plain::Text);
    }
    if name == "bool" {
        return Some(Plain::Bool);
    }
    if name == "true" {
        return Some(Plain::Truth(true));
    }
    if name == "false" {
        return Some(Plain::Truth(false));
    }
    if name == "null" || name == "nil" {
        return Some(Plain::Null);
    }
    if name == "any" {
        return Some(Plain::Any);
    }
    numeric(name)
}

// A type of numbers of the prelude.
fn numeric(name: &str) -> Option<Plain<'static>>
    ensures { option_map plain_view result ≡ numeric name.now }
{
    if name == "float" || name == "number" {
        return Some(Plain::Number(End::Unbounded, End::Unbounded));
    }
    if name == "uint" {
        return Some(Plain::Whole(0, 18_446_744_073_709_551_615));
    }
    if name == "nint" {
        return Some(Plain::Whole(-18_446_744_073_709_551_616, -1));
    }
    if name == "int" {
        return Some(Plain::Whole(-18_446_744_073_709_551_616, 18_446_744_073_709_551_615));
    }
    None
}

/// The numbers from one to another.
pub(crate) fn range<'t>(least: &'t str, most: &'t str, is_open: bool) -> Plain<'t>
    // They are that type.
    ensures { plain_view result ≡ range least.now most.now is_open }
{
    let Some(first) = whole_in(least) else {
        return fractions(least, most, is_open);
    };
    let Some(last) = whole_in(most) else {
        return fractions(least, most, is_open);
    };
    if is_open {
        Plain::Whole(first, last - 1)
    } else {
        Plain::Whole(first, last)
    }
}

// The numbers from one to another, of which one is no whole number.
fn fractions<'t>(least: &'t str, most: &'t str, is_open: bool) -> Plain<'t>
    ensures { plain_view result ≡ number (including least.now) (end_of most.now is_open) }
{
    if is_open {
        Plain::Number(End::Including(least), End::Excluding(most))
    } else {
        Plain::Number(End::Including(least), End::Including(most))
    }
}

/// Whether the term is the plain type.
pub(crate) fn is_plain(term: &Term, plain: Plain<'_>) -> bool
    // If so, the term says what the type says.
    ensures { IsTrue result → IsPlainOf (term_of term.now) (plain_view plain.entry) }
{
    match (term, plain) {
        (Term::Exactly(found), Plain::Exactly(text)) => found.as_str() == text,
        (Term::Text, Plain::Text) => true,
        (Term::Bool, Plain::Bool) => true,
        (Term::Truth(found), Plain::Truth(truth)) => *found == truth,
        (Term::Null, Plain::Null) => true,
        (Term::Whole(first, last), Plain::Whole(least, most)) => *first == least && *last == most,
        (Term::Number(first, last), Plain::Number(least, most)) => is_end(first, least)
            && is_end(last, most),
        (Term::Any, Plain::Any) => true,
        _ => false,
    }
}

// Whether the bound is the end.
fn is_end(bound: &Bound, end: End<'_>) -> bool
    ensures { IsTrue result → bound_of bound.now ≡ end_view end.entry }
{
    match (bound, end) {
        (Bound::Unbounded, End::Unbounded) => true,
        (Bound::Including(found), End::Including(text)) => found.as_str() == text,
        (Bound::Excluding(found), End::Excluding(text)) => found.as_str() == text,
        _ => false,
    }
}

/// The term of the plain type.
pub(crate) fn plain_term(alloc: Global, plain: Plain<'_>) -> Result<Term, AllocError> {
    match plain {
        Plain::Exactly(text) => Ok(Term::Exactly(String::from_str(alloc, text)?)),
        Plain::Text => Ok(Term::Text),
        Plain::Bool => Ok(Term::Bool),
        Plain::Truth(truth) => Ok(Term::Truth(truth)),
        Plain::Null => Ok(Term::Null),
        Plain::Whole(least, most) => Ok(Term::Whole(least, most)),
        Plain::Number(least, most) => number_term(alloc, least, most),
        Plain::Any => Ok(Term::Any),
    }
}

// The term of the numbers between two ends.
fn number_term(alloc: Global, least: End<'_>, most: End<'_>) -> Result<Term, AllocError> {
    let least = bound(alloc, least)?;
    let most = bound(alloc, most)?;
    Ok(Term::Number(least, most))
}

fn bound(alloc: Global, end: End<'_>) -> Result<Bound, AllocError> {
    match end {
        End::Unbounded => Ok(Bound::Unbounded),
        End::Including(text) => Ok(Bound::Including(String::from_str(alloc, text)?)),
        End::Excluding(text) => Ok(Bound::Excluding(String::from_str(alloc, text)?)),
    }
}
