//! Places for nodes.
use bidi_grammar::{Row, Term};
use std::alloc::{AllocError, Global};

/// The terms, with the places of the nodes in arrays and maps.
pub(crate) fn settled(
    alloc: Global,
    terms: Vec<Term>,
    places: &[Option<usize>],
) -> Result<Vec<Term>, AllocError> {
    let mut found = Vec::with_capacity(alloc, terms.len())?;
    for term in terms {
        found.push(settle(alloc, term, places)?)?;
    }
    Ok(found)
}

// The term, with the places of the nodes in it.
fn settle(alloc: Global, term: Term, places: &[Option<usize>]) -> Result<Term, AllocError> {
    match term {
        Term::ListOf(least, item) => Ok(Term::ListOf(least, place_in(places, item))),
        Term::TupleOf(parts) => Ok(Term::TupleOf(settle_parts(alloc, &parts, places)?)),
        Term::MapOf(rows, rest) => {
            let rest = match rest {
                Some(other) => Some(place_in(places, other)),
                None => None,
            };
            Ok(Term::MapOf(settle_rows(alloc, rows, places)?, rest))
        }
        other => Ok(other),
    }
}

// The places of some nodes.
fn settle_parts(
    alloc: Global,
    parts: &[usize],
    places: &[Option<usize>],
) -> Result<Vec<usize>, AllocError> {
    let mut found = Vec::with_capacity(alloc, parts.len())?;
    for part in parts {
        found.push(place_in(places, *part))?;
    }
    Ok(found)
}

// The rows, with the places of their nodes.
fn settle_rows(
    alloc: Global,
    rows: Vec<Row>,
    places: &[Option<usize>],
) -> Result<Vec<Row>, AllocError> {
    let mut found = Vec::with_capacity(alloc, rows.len())?;
    for row in rows {
        found.push(settle_row(row, places))?;
    }
    Ok(found)
}

// The row, with the place of its node.
fn settle_row(row: Row, places: &[Option<usize>]) -> Row {
    Row {
        name: row.name,
        need: row.need,
        term: place_in(places, row.term),
    }
}

// The place of a node; a node without one has a place that no table has.
fn place_in(places: &[Option<usize>], node: usize) -> usize {
    match places.get(node) {
        Some(Some(found)) => *found,
        _ => usize::MAX,
    }
}
