//! Looking into JSON values.
ghost use Rattle.std.specs.Prelude.{◌≡◌, bytes_eq, map, option_map, option_and_then};
ghost use Rattle.std.specs.List.{list_any};
ghost use Rattle.json.specs.Value.{value_view, items_view, members_view};
ghost use Rattle.json.specs.Find.{as_number, as_array};
ghost use Rattle.bidi_rows.specs.Command.{js_uint};
ghost use Rattle.bidi_rows.specs.Reading.{all_among, has_only, string_at, object_at};

use bidi_tree::{JsUint, whole_number};
use json::Value;

/// Whether the value is an object whose properties have names among these.
pub(crate) fn has_only(value: &Value<'_>, names: &[&str]) -> bool
    ensures { result ≡ has_only (map (λ n. n.now) names.now) (value_view value.now) }
{
    match value {
        Value::Object(members) => all_among(members, names),
        _ => false,
    }
}

// Whether each property has one of these names.
fn all_among(members: &Vec<(&str, Value<'_>)>, names: &[&str]) -> bool
    ensures { result ≡ all_among (map (λ n. n.now) names.now) (members_view members.now.items) }
{
    for member in members {
        if !is_among(names, member.0) {
            return false;
        }
    }
    true
}

// Whether the name is one of these.
fn is_among(names: &[&str], name: &str) -> bool
    ensures { result ≡ list_any (bytes_eq name.now) (map (λ n. n.now) names.now) }
{
    for known in names {
        if name == *known {
            return true;
        }
    }
    false
}

/// The string at a name of an object. Takes no memory.
pub fn string_at<'a>(value: &Value<'a>, name: &str) -> Option<&'a str>
    // The result is the string of the definition, if there is one.
    ensures { option_map (λ s. s.now) result ≡ string_at name.now (value_view value.now) }
{
    value.get(name)?.as_str()
}

/// The object at a name of an object. Takes no memory.
pub fn object_at<'v, 'a>(value: &'v Value<'a>, name: &str) -> Option<&'v Value<'a>>
    // The result is the object of the definition, if there is one.
    ensures { option_map (λ v. value_view v.now) result ≡ object_at name.now (value_view value.now) }
{
    let found = value.get(name)?;
    match found {
        Value::Object(_) => Some(found),
        _ => None,
    }
}

/// The items of a value, if it is an array.
pub(crate) fn items_in<'v, 'a>(value: &'v Value<'a>) -> Option<&'v Vec<Value<'a>>>
    ensures { option_map (λ v. items_view v.now.items) result ≡ as_array (value_view value.now) }
{
    match value {
        Value::Array(items) => Some(items),
        _ => None,
    }
}

/// The js-uint that a value is, if it is one.
pub(crate) fn js_uint_of(value: &Value<'_>) -> Option<JsUint>
    ensures { option_map (λ n. n.value) result ≡ option_and_then js_uint (as_number (value_view value.now)) }
{
    js_uint(value.as_number()?)
}

// The js-uint that the text of a number writes.
fn js_uint(text: &str) -> Option<JsUint>
    ensures { option_map (λ n. n.value) result ≡ js_uint text.now }
{
    match whole_number(text) {
        Some(n) if n.value >= 0 => JsUint::new(n.value as u64),
        _ => None,
    }
}
