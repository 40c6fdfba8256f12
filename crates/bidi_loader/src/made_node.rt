//! The test of a place that was made of a node.
ghost use Rattle.std.specs.Prelude.{◌≡◌, ℕ, true, IsTrue, IfSome, option_map};
ghost use Rattle.bidi_grammar.specs.Source.{Comes, Made as IsMadeOf, Rules, Source, either, name as by_name, of_type};
ghost use Rattle.bidi_grammar.specs.Term.{Grammar};
ghost use Rattle.bidi_grammar.specs.View.{table, term_of};
ghost use Rattle.bidi_loader.specs.Meaning.{array_type, is_rule, items_at, name_type, rules_of, type_at, written_trees};
ghost use Rattle.bidi_loader.specs.Readings.{AreTexts, IsNode, IsReading, items_view, plain_view, source_at};

use crate::bounds::bounded;
use crate::draft::Origin;
use crate::items::Items;
use crate::made_map::is_made_of_lists;
use crate::placing::{are_types_of, is_type_of};
use crate::plain::{Plain, is_plain, range};
use crate::reading::Reading;
use crate::rules::{prelude_type, rule_named, type_in};
use crate::texts::{is_same_text, text_at};
use bidi_cddl::{Node, Written};
use bidi_grammar::Term;

/// Whether a term was made of the type at a node.
pub(crate) fn is_made_of_node(
    written: &Written<'_>,
    reading: &Reading,
    terms: &[Term],
    origins: &[Origin],
    k: usize,
    term: &Term,
) -> bool
    // If so, the term says what the type says, if the places that it names do.
    ensures { IsTrue result → IsReading written.now reading.now
        → Comes (rules_of written.now) (table terms.now) (source_at written.now reading.now origins.now)
        (term_of term.now) (of_type (type_at (written_trees written.now) k)) }
{
    if k >= written.nodes.len() {
        return false;
    }
    is_made_of(written, reading, terms, origins, k, &written.nodes[k], term)
}

// Whether a term was made of a node that is a type.
fn is_made_of(
    written: &Written<'_>,
    reading: &Reading,
    terms: &[Term],
    origins: &[Origin],
    k: usize,
    node: &Node<'_>,
    term: &Term,
) -> bool
    ensures { IsTrue result → IsReading written.now reading.now → IsNode written.now k node.now
        → Comes (rules_of written.now) (table terms.now) (source_at written.now reading.now origins.now)
        (term_of term.now) (of_type (type_at (written_trees written.now) k)) }
{
    match node {
        Node::Map(group) => {
            if *group >= k {
                return false;
            }
            is_made_of_lists(written, reading, terms, origins, k, 0, term)
        }
        Node::Array(group) => {
            if *group >= k {
                return false;
            }
            is_array(written, reading, origins, k, term)
        }
        Node::Either(first, second) => {
            if *first >= k || *second >= k {
                return false;
            }
            is_either(written, reading, origins, *first, *second, term)
        }
        _ => is_name_or_plain(written, reading, terms, origins, k, node, term),
    }
}

// Whether a term is a choice that was made of the types at two nodes.
fn is_either(
    written: &Written<'_>,
    reading: &Reading,
    origins: &[Origin],
    first: usize,
    second: usize,
    term: &Term,
) -> bool
    ensures { IsTrue result → (ρ : Rules) (g : Grammar) → IsMadeOf ρ g (source_at written.now reading.now origins.now) (term_of term.now)
        (of_type (either (type_at (written_trees written.now) first) (type_at (written_trees written.now) second))) }
{
    match term {
        Term::Either(m, n) => {
            if !is_type_of(written, reading, origins, *m, first) {
                return false;
            }
            is_type_of(written, reading, origins, *n, second)
        }
        _ => false,
    }
}

// Whether a term is an array that was made of the items of a node.
fn is_array(
    written: &Written<'_>,
    reading: &Reading,
    origins: &[Origin],
    k: usize,
    term: &Term,
) -> bool
    ensures { IsTrue result → IsReading written.now reading.now → (group : ℕ) → IsNode written.now k (Node.Array group)
        → (ρ : Rules) (g : Grammar) → IsMadeOf ρ g (source_at written.now reading.now origins.now) (term_of term.now)
        (of_type (array_type (items_at (written_trees written.now) group))) }
{
    if k >= reading.items.len() {
        return false;
    }
    is_array_of(written, reading, origins, &reading.items[k], term)
}

// Whether a term is an array that was made of some items.
fn is_array_of(
    written: &Written<'_>,
    reading: &Reading,
    origins: &[Origin],
    items: &Items,
    term: &Term,
) -> bool
    ensures { IsTrue result → (ρ : Rules) (g : Grammar) → IsMadeOf ρ g (source_at written.now reading.now origins.now) (term_of term.now)
        (of_type (array_type (items_view (written_trees written.now) items.now))) }
{
    match (items, term) {
        (Items::These(nodes), Term::TupleOf(places)) => are_types_of(
            written, reading, origins, places, nodes,
        ),
        (Items::Many(least, node), Term::ListOf(found, place)) => {
            if *least != *found {
                return false;
            }
            is_type_of(written, reading, origins, *place, *node)
        }
        _ => false,
    }
}

// Whether a term is a rule, or a plain type, that was made of a node.
fn is_name_or_plain(
    written: &Written<'_>,
    reading: &Reading,
    terms: &[Term],
    origins: &[Origin],
    k: usize,
    node: &Node<'_>,
    term: &Term,
) -> bool
    ensures { IsTrue result → IsReading written.now reading.now → IsNode written.now k node.now
        → IsMadeOf (rules_of written.now) (table terms.now) (source_at written.now reading.now origins.now)
        (term_of term.now) (of_type (type_at (written_trees written.now) k)) }
{
    match node {
        Node::Name(name) => is_name(written, reading, terms, origins, name, term),
        _ => is_plain_node(written, reading, k, node, term),
    }
}

// Whether a term was made of a name.
fn is_name(
    written: &Written<'_>,
    reading: &Reading,
    terms: &[Term],
    origins: &[Origin],
    name: &str,
    term: &Term,
) -> bool
    ensures { IsTrue result → IsMadeOf (rules_of written.now) (table terms.now) (source_at written.now reading.now origins.now)
        (term_of term.now) (of_type (name_type (is_rule written.now.rules.items name.now) name.now)) }
{
    match prelude_type(written, name) {
        Some(plain) => is_plain(term, plain),
        None => is_rule(written, reading, origins, name, term),
    }
}

// Whether a term was made of a node that names no other type.
fn is_plain_node(
    written: &Written<'_>,
    reading: &Reading,
    k: usize,
    node: &Node<'_>,
    term: &Term,
) -> bool
    ensures { IsTrue result → AreTexts written.now reading.now.texts.items → IsNode written.now k node.now
        → (ρ : Rules) (g : Grammar) (o : ℕ → Source) → IsMadeOf ρ g o (term_of term.now) (of_type (type_at (written_trees written.now) k)) }
{
    match plain_at(written, reading, k, node) {
        Some(plain) => is_plain(term, plain),
        None => false,
    }
}

/// Whether a term is a rule by its name, and its place was made of the rule's type.
pub(crate) fn is_rule(
    written: &Written<'_>,
    reading: &Reading,
    origins: &[Origin],
    name: &str,
    term: &Term,
) -> bool
    // If so, the term says what the rule says, if the place does.
    ensures made { IsTrue result → (g : Grammar) → IsMadeOf (rules_of written.now) g (source_at written.now reading.now origins.now)
        (term_of term.now) (of_type (by_name name.now)) }
    // There is a rule of that name.
    ensures rule { IsTrue result → is_rule written.now.rules.items name.now ≡ true }
{
    match term {
        Term::Rule(found, place) => match type_named(written, name) {
            Some(node) => {
                if !is_same_text(found, name) {
                    return false;
                }
                is_type_of(written, reading, origins, *place, node)
            }
            None => false,
        },
        _ => false,
    }
}

// The node of the type of the rule of a name.
fn type_named(written: &Written<'_>, name: &str) -> Option<usize>
    ensures { option_map (type_at (written_trees written.now)) result ≡ (rules_of written.now).type_of name.now }
{
    type_in(rule_named(&written.rules, name)?.body)
}

// The plain type of a node that is no name.
fn plain_at<'a>(
    written: &'a Written<'_>,
    reading: &'a Reading,
    k: usize,
    node: &'a Node<'_>,
) -> Option<Plain<'a>>
    ensures { IsNode written.now k node.now → AreTexts written.now reading.now.texts.items
        → IfSome result (λ plain. type_at (written_trees written.now) k ≡ plain_view plain) }
{
    match node {
        Node::Text(_) => match text_at(&reading.texts, k) {
            Some(text) => Some(Plain::Exactly(text)),
            None => None,
        },
        Node::Number(number) => Some(range(number, number, false)),
        Node::Range(least, most, is_open) => Some(range(least, most, *is_open)),
        Node::Bounded(base, control, number) => bounded(written, *base, control, number, k),
        _ => None,
    }
}
