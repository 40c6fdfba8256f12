//! The test of a table.
ghost use Rattle.std.specs.Prelude.{◌≡◌, IsTrue};
ghost use Rattle.bidi_grammar.specs.Source.{Comes, IsMade, Made as IsMadeOf};
ghost use Rattle.bidi_grammar.specs.Term.{Grammar};
ghost use Rattle.bidi_grammar.specs.View.{table, term_of};
ghost use Rattle.bidi_loader.specs.Meaning.{rules_of};
ghost use Rattle.bidi_loader.specs.Readings.{IsReading, named_at, source_at, source_of};

use crate::draft::Origin;
use crate::made_map::{is_made_of_list, is_made_of_lists};
use crate::made_node::{is_made_of_node, is_rule};
use crate::reading::Reading;
use bidi_cddl::Written;
use bidi_grammar::Term;

/// Whether each place of a table passes its test.
pub(crate) fn is_made(
    written: &Written<'_>,
    reading: &Reading,
    terms: &[Term],
    origins: &[Origin],
) -> bool
    // If so, each place comes from its source.
    ensures { IsTrue result → IsReading written.now reading.now
        → IsMade (rules_of written.now) (table terms.now) (source_at written.now reading.now origins.now) }
{
    if terms.len() != origins.len() {
        return false;
    }
    'places: for (n, term) in terms.iter().enumerate() {
        if !is_place_made(written, reading, terms, origins, term, origins[n]) {
            return false;
        }
    }
    true
}

// Whether a term was made of what its place was made of.
fn is_place_made(
    written: &Written<'_>,
    reading: &Reading,
    terms: &[Term],
    origins: &[Origin],
    term: &Term,
    origin: Origin,
) -> bool
    ensures { IsTrue result → IsReading written.now reading.now
        → Comes (rules_of written.now) (table terms.now) (source_at written.now reading.now origins.now)
        (term_of term.now) (source_of written.now reading.now origin) }
{
    match origin {
        Origin::Type(node) => is_made_of_node(written, reading, terms, origins, node, term),
        Origin::Rule(i) => is_made_of_rule(written, reading, origins, i, term),
        Origin::Alternative(node, i) => is_made_of_list(
            written, reading, terms, origins, node, i, term,
        ),
        Origin::Alternatives(node, from) => is_made_of_lists(
            written, reading, terms, origins, node, from, term,
        ),
    }
}

// Whether a term was made of a rule's name.
fn is_made_of_rule(
    written: &Written<'_>,
    reading: &Reading,
    origins: &[Origin],
    i: usize,
    term: &Term,
) -> bool
    ensures { IsTrue result → (g : Grammar) → IsMadeOf (rules_of written.now) g (source_at written.now reading.now origins.now)
        (term_of term.now) (named_at written.now i) }
{
    if i >= written.rules.len() {
        return false;
    }
    is_rule(written, reading, origins, written.rules[i].name, term)
}
