//! Whether a JSON value that borrows from its text has whole numbers only, and few levels.
ghost use Rattle.std.specs.Prelude.{◌≡◌, IsTrue};
ghost use Rattle.json.specs.Value.{value_view, items_view, members_view};
ghost use Rattle.bidi_tree.specs.Json.{parsed, json_items, put_all, stands_whole, items_stand_whole, members_stand_whole};
ghost use Rattle.bidi_tree.specs.Node.{Members, IsWhole, ItemsAreWhole, MembersAreWhole};

use crate::number_text::whole_number;
use json::Value;

/// Whether the value has only whole numbers in range, and nests at most `limit` levels deep. Takes no memory.
///
/// Each member counts, even one that a later member of the same name replaces.
#[cycle(parsed_whole)]
pub fn is_parsed_whole(value: &Value<'_>, limit: usize) -> bool
    // The result is true exactly if each number is whole and in range and the value nests at most
    // `limit` levels deep.
    ensures value { result ≡ stands_whole (value_view value.now) limit }
    // If the result is true, the value's tree has no `Odd` and at most `limit` levels.
    ensures whole { IsTrue result → IsWhole (parsed value.now) limit }
{
    match value {
        Value::Null | Value::Bool(_) | Value::String(_) => true,
        Value::Number(text) => whole_number(text).is_some(),
        Value::Array(items) => limit > 0 && are_parsed_whole(items, limit - 1),
        Value::Object(members) => limit > 0 && members_are_parsed_whole(members, limit - 1),
    }
}

#[cycle(parsed_whole)]
fn are_parsed_whole(items: &Vec<Value<'_>>, limit: usize) -> bool
    ensures value { result ≡ items_stand_whole (items_view items.now.items) limit }
    ensures whole { IsTrue result → ItemsAreWhole (json_items (items_view items.now.items)) limit }
{
    for item in items {
        if !is_parsed_whole(item, limit) {
            return false;
        }
    }
    true
}

#[cycle(parsed_whole)]
fn members_are_parsed_whole(members: &Vec<(&str, Value<'_>)>, limit: usize) -> bool
    ensures value { result ≡ members_stand_whole (members_view members.now.items) limit }
    ensures whole { IsTrue result → (found : Members) → MembersAreWhole found limit → MembersAreWhole (put_all (members_view members.now.items) found) limit }
{
    for member in members {
        if !is_parsed_whole(&member.1, limit) {
            return false;
        }
    }
    true
}
