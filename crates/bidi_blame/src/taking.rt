//! Whether a tree itself, whatever stands in it, is one that a term takes.
ghost use Rattle.std.specs.Prelude.{◌≡◌};
ghost use Rattle.bidi_tree.specs.Outline.{outline_node};
ghost use Rattle.bidi_blame.specs.Blames.{takes};
ghost use Rattle.bidi_rules.specs.Grammar.{grammar};

use bidi_rules::Term;
use bidi_shape::{MAX_LEVELS, Parsed};
use bidi_tree::Outline;

// Looks at the levels of the tree where they are bounded.
pub(crate) fn takes(tree: &Outline<'_>, term: &Term) -> bool
    ensures { result ≡ takes (outline_node tree.now) (grammar term.now) }
{
    match term {
        Term::Exactly(text) => match tree.as_str() {
            Some(found) => found == *text,
            None => false,
        },
        Term::Text => tree.as_str().is_some(),
        Term::Bool => tree.as_bool().is_some(),
        Term::Null => tree.is_null(),
        Term::JsUint => match tree.as_int() {
            Some(n) => n.value >= 0,
            None => false,
        },
        Term::JsInt => tree.as_int().is_some(),
        Term::Any => !matches!(tree, Outline::Odd) && Outline::is_within(tree, MAX_LEVELS),
        Term::ListOf(least, _) => match tree.as_items() {
            Some(items) => items.len() >= *least,
            None => false,
        },
        Term::PairOf(_, _) => match tree.as_items() {
            Some(items) => items.len() == 2,
            None => false,
        },
        Term::MapOf(_, _) => matches!(tree, Outline::Map(_)),
        Term::OneOf(first, rest) => !rest.is_empty() || takes(tree, first),
        Term::Rule(_) => true,
        Term::Capped(_) => Outline::is_within(tree, MAX_LEVELS),
    }
}
