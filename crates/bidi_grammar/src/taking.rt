//! Whether a value itself, whatever stands in it, is one that a term takes.
ghost use Rattle.std.specs.Prelude.{◌≡◌, option_map};
ghost use Rattle.bidi_grammar.specs.Fits.{same_truth, takes};
ghost use Rattle.bidi_grammar.specs.View.{term_of};
ghost use Rattle.json.specs.Find.{as_array, as_object};
ghost use Rattle.json.specs.Value.{items_view, members_view, value_view};

use crate::number::{is_between, is_whole_from};
use crate::term::Term;
use json::Value;

// Whether the term takes the value.
pub(crate) fn takes(value: &Value<'_>, term: &Term) -> bool
    ensures { result ≡ takes (value_view value.now) (term_of term.now) }
{
    match term {
        Term::Exactly(text) => match value.as_str() {
            Some(found) => found == text.as_str(),
            None => false,
        },
        Term::Text => value.as_str().is_some(),
        Term::Bool => value.as_bool().is_some(),
        Term::Truth(truth) => match value.as_bool() {
            Some(found) => is_same_truth(*truth, found),
            None => false,
        },
        Term::Null => value.is_null(),
        Term::Whole(least, most) => match value.as_number() {
            Some(number) => is_whole_from(number, least, most),
            None => false,
        },
        Term::Number(least, most) => match value.as_number() {
            Some(number) => is_between(number, least, most),
            None => false,
        },
        Term::Any => true,
        Term::ListOf(least, _) => match as_items(value) {
            Some(items) => items.len() >= *least,
            None => false,
        },
        Term::TupleOf(parts) => match as_items(value) {
            Some(items) => items.len() == parts.len(),
            None => false,
        },
        Term::MapOf(_, _) => as_members(value).is_some(),
        Term::Either(_, _) => true,
        Term::Rule(_, _) => true,
    }
}

// Whether both are true or both are false.
fn is_same_truth(truth: bool, found: bool) -> bool
    ensures { result ≡ same_truth truth found }
{
    if truth { found } else { !found }
}

// The items of a value that is an array.
pub(crate) fn as_items<'a, 'b>(value: &'a Value<'b>) -> Option<&'a [Value<'b>]>
    ensures { option_map (λ vs. items_view vs.now) result ≡ as_array (value_view value.now) }
{
    match value {
        Value::Array(items) => Some(items),
        _ => None,
    }
}

// The members of a value that is an object.
pub(crate) fn as_members<'a, 'b>(value: &'a Value<'b>) -> Option<&'a [(&'b str, Value<'b>)]>
    ensures { option_map (λ ms. members_view ms.now) result ≡ as_object (value_view value.now) }
{
    match value {
        Value::Object(members) => Some(members),
        _ => None,
    }
}
