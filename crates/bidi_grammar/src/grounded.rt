//! Whether a table of terms may be asked.
ghost use Rattle.std.specs.Prelude.{◌≡◌, ◌↔◌, IsTrue, map};
ghost use Rattle.bidi_grammar.specs.View.{IsGrounded, are_within, is_grounded, rest_is_within, row_of, rows_are_within, table, term_of};

use crate::term::{Row, Term};

/// The most terms of a grammar.
const MAX_TERMS: usize = 65_536;

/// Whether a table may be asked: each number in a term is a place of the table, those of a choice or a rule come before it, and the
/// terms are at most 65,536.
///
/// A rule that is nothing but itself, as `a = b` and `b = a`, has no place in such a table. Takes no memory.
pub fn is_grounded(terms: &[Term]) -> bool
    // The result is true exactly if the table may be asked.
    ensures { IsTrue result ↔ IsGrounded (table terms.now) }
{
    if terms.len() > MAX_TERMS {
        return false;
    }
    'terms: for (n, term) in terms.iter().enumerate() {
        if !is_term_grounded(term, n, terms.len()) {
            return false;
        }
    }
    true
}

// Whether the numbers in the term at a place are places of the table, and those of a choice or a rule come before it.
fn is_term_grounded(term: &Term, n: usize, size: usize) -> bool
    ensures { result ≡ is_grounded size n (term_of term.now) }
{
    match term {
        Term::Exactly(_) => true,
        Term::Text => true,
        Term::Bool => true,
        Term::Truth(_) => true,
        Term::Null => true,
        Term::Whole(_, _) => true,
        Term::Number(_, _) => true,
        Term::Any => true,
        Term::ListOf(_, item) => *item < size,
        Term::TupleOf(parts) => are_within(parts, size),
        Term::MapOf(rows, rest) => is_rest_within(rest, size) && are_rows_within(rows, size),
        Term::Either(first, second) => *first < n && *second < n,
        Term::Rule(_, rule) => *rule < n,
    }
}

// Whether what further members have to fit is a term of the table.
fn is_rest_within(rest: &Option<usize>, size: usize) -> bool
    ensures { result ≡ rest_is_within size rest.now }
{
    match rest {
        None => true,
        Some(n) => *n < size,
    }
}

// Whether some numbers are places of the table.
fn are_within(parts: &[usize], size: usize) -> bool
    ensures { result ≡ are_within size parts.now }
{
    parts.iter().all(|part| *part < size)
}

// Whether the rows name terms of the table.
fn are_rows_within(rows: &[Row], size: usize) -> bool
    ensures { result ≡ rows_are_within size (map row_of rows.now) }
{
    'rows: for row in rows {
        if row.term >= size {
            return false;
        }
    }
    true
}
