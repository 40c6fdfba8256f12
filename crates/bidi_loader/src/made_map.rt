//! The test of a map's place.
ghost use Rattle.std.specs.Prelude.{◌≡◌, ◌∷◌, List, IsTrue, IfSome, None, Some, map, drop, take};
ghost use Rattle.bidi_grammar.specs.Source.{Entry as SourceEntry, RestIs, RowsAre, further_in, of_lists};
ghost use Rattle.bidi_grammar.specs.Source.{Made as IsMadeOf};
ghost use Rattle.bidi_grammar.specs.View.{row_of, table, term_of};
ghost use Rattle.bidi_loader.specs.Meaning.{entries_at, entry_of, group_at, rules_of, type_at, written_trees};
ghost use Rattle.bidi_loader.specs.Readings.{IsMapOf, IsReading, IsRowOf, entry_view, lists_at, source_at};

use crate::draft::Origin;
use crate::entry::{Entry, entry_at};
use crate::placing::{are_lists_of, is_type_of};
use crate::reading::Reading;
use crate::texts::{is_same_text, text_at};
use bidi_cddl::Written;
use bidi_grammar::{Need, Row, Term};

/// Whether a term was made of the lists of entries of the map at a node, from one on.
pub(crate) fn is_made_of_lists(
    written: &Written<'_>,
    reading: &Reading,
    terms: &[Term],
    origins: &[Origin],
    node: usize,
    from: usize,
    term: &Term,
) -> bool
    // If so, the term says what those lists say, if the places that it names do.
    ensures { IsTrue result → IsReading written.now reading.now
        → IsMadeOf (rules_of written.now) (table terms.now) (source_at written.now reading.now origins.now)
        (term_of term.now) (of_lists (drop from (lists_at written.now reading.now node))) }
{
    if node >= reading.lists.len() {
        return false;
    }
    let lists = &reading.lists[node];
    if from >= lists.len() {
        return false;
    }
    if lists.len() - from == 1 {
        return is_alternative(written, reading, origins, term, &lists[from]);
    }
    match term {
        Term::Either(first, rest) => {
            if *first >= terms.len() {
                return false;
            }
            if !is_alternative(written, reading, origins, &terms[*first], &lists[from]) {
                return false;
            }
            are_lists_of(written, reading, origins, *rest, node, from + 1)
        }
        _ => false,
    }
}

/// Whether a term was made of one list of entries of the map at a node.
pub(crate) fn is_made_of_list(
    written: &Written<'_>,
    reading: &Reading,
    terms: &[Term],
    origins: &[Origin],
    node: usize,
    i: usize,
    term: &Term,
) -> bool
    // If so, the term says what that list says, if the places that it names do.
    ensures { IsTrue result → IsReading written.now reading.now
        → IsMadeOf (rules_of written.now) (table terms.now) (source_at written.now reading.now origins.now)
        (term_of term.now) (of_lists (take 1 (drop i (lists_at written.now reading.now node)))) }
{
    if node >= reading.lists.len() {
        return false;
    }
    let lists = &reading.lists[node];
    if i >= lists.len() {
        return false;
    }
    is_alternative(written, reading, origins, term, &lists[i])
}

// Whether a term is a map that was made of one list of entries.
fn is_alternative(
    written: &Written<'_>,
    reading: &Reading,
    origins: &[Origin],
    term: &Term,
    list: &[usize],
) -> bool
    ensures { IsTrue result → IsReading written.now reading.now
        → IsMapOf (source_at written.now reading.now origins.now) (term_of term.now)
        (entries_at (written_trees written.now) list.now) }
{
    match term {
        Term::MapOf(rows, rest) => {
            if !are_rows(written, reading, origins, rows, list) {
                return false;
            }
            is_rest(written, reading, origins, rest, list)
        }
        _ => false,
    }
}

// Whether the rows were made of the entries.
fn are_rows(
    written: &Written<'_>,
    reading: &Reading,
    origins: &[Origin],
    rows: &[Row],
    list: &[usize],
) -> bool
    ensures { IsTrue result → IsReading written.now reading.now
        → RowsAre (source_at written.now reading.now origins.now) (map row_of rows.now)
        (entries_at (written_trees written.now) list.now) }
{
    let mut left = rows;
    'entries: for entry in list {
        match behind_entry(written, reading, origins, left, *entry) {
            Some(rest) => left = rest,
            None => return false,
        }
    }
    if left.len() > 0 {
        return false;
    }
    true
}

// The rows behind the row of an entry, if the first row was made of it.
fn behind_entry<'r>(
    written: &Written<'_>,
    reading: &Reading,
    origins: &[Origin],
    rows: &'r [Row],
    node: usize,
) -> Option<&'r [Row]>
    ensures { IsReading written.now reading.now → IfSome result (λ rest. (xs : List SourceEntry)
        → RowsAre (source_at written.now reading.now origins.now) (map row_of rest.now) xs
        → RowsAre (source_at written.now reading.now origins.now) (map row_of rows.now)
        (entry_of (group_at (written_trees written.now) node) ∷ xs)) }
{
    let entry = entry_at(written, &reading.texts, node)?;
    match entry {
        Entry::Further(_value) => Some(rows),
        Entry::Named(need, value) => {
            let (row, rest) = rows.split_first()?;
            if is_row(written, reading, origins, row, node, need, value) {
                return Some(rest);
            }
            None
        }
    }
}

// Whether a row was made of the member at a node.
fn is_row(
    written: &Written<'_>,
    reading: &Reading,
    origins: &[Origin],
    row: &Row,
    node: usize,
    need: Need,
    value: usize,
) -> bool
    ensures { IsTrue result → IsRowOf (source_at written.now reading.now origins.now) (row_of row.now)
        (entry_view (written_trees written.now) reading.now.texts.items node (Entry.Named need value)) }
{
    let Some(text) = text_at(&reading.texts, node) else {
        return false;
    };
    if !is_same_text(&row.name, text) {
        return false;
    }
    if !is_same_need(row.need, need) {
        return false;
    }
    is_type_of(written, reading, origins, row.term, value)
}

// Whether both are required or both are optional.
fn is_same_need(found: Need, need: Need) -> bool
    ensures { IsTrue result → found ≡ need }
{
    match found {
        Need::Required => match need {
            Need::Required => true,
            Need::Optional => false,
        },
        Need::Optional => match need {
            Need::Required => false,
            Need::Optional => true,
        },
    }
}

// Whether the term of further members was made of the first entry of further members, or there is neither.
fn is_rest(
    written: &Written<'_>,
    reading: &Reading,
    origins: &[Origin],
    rest: &Option<usize>,
    list: &[usize],
) -> bool
    ensures { IsTrue result → IsReading written.now reading.now
        → RestIs (source_at written.now reading.now origins.now) rest.now
        (further_in (entries_at (written_trees written.now) list.now)) }
{
    'entries: for node in list {
        match entry_at(written, &reading.texts, *node) {
            Some(Entry::Named(_, _)) => {}
            Some(Entry::Further(value)) => return is_further(
                written, reading, origins, rest, value,
            ),
            None => return false,
        }
    }
    is_no_rest(rest)
}

// Whether there is no term of further members.
fn is_no_rest(rest: &Option<usize>) -> bool
    ensures { IsTrue result → rest.now ≡ None }
{
    match rest {
        Some(_) => false,
        None => true,
    }
}

// Whether there is a term of further members, and it was made of the type at a node.
fn is_further(
    written: &Written<'_>,
    reading: &Reading,
    origins: &[Origin],
    rest: &Option<usize>,
    value: usize,
) -> bool
    ensures { IsTrue result → RestIs (source_at written.now reading.now origins.now) rest.now
        (Some (type_at (written_trees written.now) value)) }
{
    match rest {
        Some(place) => is_type_of(written, reading, origins, *place, value),
        None => false,
    }
}
