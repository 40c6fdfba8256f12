//! Whether a part is found in a value.
ghost use Rattle.std.specs.Prelude.{◌≡◌, eqb, option_map};
ghost use Rattle.std.specs.List.{starts_with};
ghost use Rattle.json.specs.Value.{value_view, items_view};
ghost use Rattle.json.specs.Find.{as_str};
ghost use Rattle.bidi_rows.specs.Part.{part_of, parts_of, members_of};
ghost use Rattle.bidi_rows.specs.Matching.{is_found, are_first, are_properties, is_property, contains, passes, passes_each, passes_all, is_bool, is_text};

use crate::index::{FEW, index_for, property_at};
use crate::part::Part;
use json::Value;

/// Whether a part is found in a value.
#[cycle(found)]
pub(crate) fn is_found(part: &Part, value: &Value<'_>) -> bool
    ensures { result ≡ is_found (part_of part.now) (value_view value.now) }
{
    match part {
        Part::Null => value.is_null(),
        Part::Bool(wanted) => is_bool(*wanted, value.as_bool()),
        Part::Number(wanted) => is_text(wanted.as_str(), value.as_number()),
        Part::String(wanted) => is_text(wanted.as_str(), value.as_str()),
        Part::Array(parts) => match value {
            Value::Array(items) => are_first(parts, items),
            _ => false,
        },
        Part::Object(parts) => match value {
            Value::Object(_) => are_properties(parts, value),
            Value::String(text) => passes_all(text, parts),
            _ => false,
        },
    }
}

// Whether each of these parts is found in the item at its place.
#[cycle(found)]
fn are_first(parts: &Vec<Part>, items: &Vec<Value<'_>>) -> bool
    ensures { result ≡ are_first (parts_of parts.now.items) (items_view items.now.items) }
{
    for (i, part) in parts.iter().enumerate() {
        if i >= items.len() {
            return false;
        }
        if !is_found(part, &items[i]) {
            return false;
        }
    }
    true
}

// Whether each of these parts is found in the property of its name.
#[cycle(found)]
fn are_properties(parts: &Vec<(String, Part)>, value: &Value<'_>) -> bool
    ensures { result ≡ are_properties (members_of parts.now.items) (value_view value.now) }
{
    let mut index = None;
    for (i, part) in parts.iter().enumerate() {
        if i == FEW {
            index = index_for(*parts.allocator(), value);
        }
        if !is_property(&part.1, property_at(&index, value, part.0.as_str())) {
            return false;
        }
    }
    true
}

// Whether a part is found in a property.
#[cycle(found)]
fn is_property(part: &Part, property: Option<&Value<'_>>) -> bool
    ensures { result ≡ is_property (is_found (part_of part.now)) (option_map (λ v. value_view v.now) property.entry) }
{
    match property {
        Some(value) => is_found(part, value),
        None => false,
    }
}

// Whether there is a Boolean, and it is this one.
fn is_bool(wanted: bool, found: Option<bool>) -> bool
    ensures { result ≡ is_bool wanted found }
{
    match found {
        Some(found) => { if wanted { found } else { !found } }
        None => false,
    }
}

// Whether there is a string, and it is this one.
fn is_text(wanted: &str, found: Option<&str>) -> bool
    ensures { result ≡ is_text wanted.now (option_map (λ s. s.now) found.entry) }
{
    match found {
        Some(found) => wanted == found,
        None => false,
    }
}

// Whether a string passes the tests if there is at least one.
fn passes_all(text: &str, tests: &Vec<(String, Part)>) -> bool
    ensures { result ≡ passes_all text.now (members_of tests.now.items) }
{
    if tests.is_empty() {
        return false;
    }
    passes_each(text, tests)
}

// Whether the string passes each of these tests.
fn passes_each(text: &str, tests: &Vec<(String, Part)>) -> bool
    ensures { result ≡ passes_each text.now (members_of tests.now.items) }
{
    for test in tests {
        if !passes(text, test.0.as_str(), &test.1) {
            return false;
        }
    }
    true
}

// Whether a string passes the test of this name.
fn passes(text: &str, name: &str, test: &Part) -> bool
    ensures { result ≡ passes text.now name.now (as_str (part_of test.now)) }
{
    let Part::String(wanted) = test else {
        return false;
    };
    if name == "$starts" {
        return starts_with(text, wanted);
    }
    if name == "$contains" {
        return contains(text, wanted);
    }
    false
}

// Whether the text starts with the other one.
fn starts_with(text: &str, wanted: &str) -> bool
    ensures { result ≡ starts_with eqb text.now wanted.now }
{
    text.starts_with(wanted)
}

// Whether the text contains the other one.
fn contains(text: &str, wanted: &str) -> bool
    ensures { result ≡ contains text.now wanted.now }
{
    text.contains(wanted)
}
