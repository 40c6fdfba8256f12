//! Recognizing a response in a JSON value that borrows from its text, without making a message of it.
ghost use Rattle.std.specs.Prelude.{◌≡◌, ◌↔◌, Some, None, IsTrue, IfSome, codes};
ghost use Rattle.json.specs.Value.{value_view};
ghost use Rattle.bidi_tree.specs.Node as kind;
ghost use Rattle.bidi_tree.specs.Node.{Members, IsWritable, get_member};
ghost use Rattle.bidi_tree.specs.Kind.{members_in};
ghost use Rattle.bidi_tree.specs.Json.{parsed, stands_whole};
ghost use Rattle.bidi_shape.specs.Name.{command_response};
ghost use Rattle.bidi_shape.specs.Term.{rule};
ghost use Rattle.bidi_shape.specs.Fits.{Fits};
ghost use Rattle.bidi_messages.specs.Verdict.{echoed_id};

use crate::judging::echoed_id;
use bidi_shape::{MAX_LEVELS, Parsed};
use bidi_tree::{JsUint, is_parsed_whole};
use json::Value;

/// The most levels of a response that is recognized here: the 60 of its members, and one more.
const MOST_LEVELS: usize = MAX_LEVELS + 1;

/// Reads the id of a response; `None` if the value is not one. Takes no memory.
///
/// `None` also comes for some responses that [`message_of`](crate::message_of) reads: those that nest past 61
/// levels, and those with a number that is not whole in a member that a later one of the same name replaces.
pub fn response_id(value: &Value<'_>) -> Option<JsUint>
    // If there is an id, the value fits the rule of responses.
    ensures fits { IfSome result (λ id. Fits (parsed value.now) (rule command_response)) }
    // If there is an id, it is that of the response.
    ensures id { IfSome result (λ id. echoed_id (parsed value.now) ≡ Some id.value) }
    // If there is an id, the value's tree may be written: it has no `Odd` and at most 100 levels.
    ensures writable { IfSome result (λ id. IsWritable (parsed value.now)) }
    // If all numbers are whole and nothing nests past 61 levels, `None` means that the value is no
    // response.
    ensures none { result ≡ None → IsTrue (stands_whole (value_view value.now) 61) → Fits (parsed value.now) (rule command_response) → ⊥ }
{
    if !is_success(value) || !has_result(value) || !is_parsed_whole(value, MOST_LEVELS) {
        return None;
    }
    echoed_id(value)
}

/// Whether the type is that of a response.
fn is_success(value: &Value<'_>) -> bool
    ensures { IsTrue result ↔ (get_member (codes "type") (members_in (parsed value.now)) ≡ Some (kind.text (codes "success"))) }
{
    match value.member("type") {
        Some(name) => name.as_str() == Some("success"),
        None => false,
    }
}

/// Whether there is a result, and it is an object.
fn has_result(value: &Value<'_>) -> bool
    ensures { IsTrue result ↔ ((ms : Members) × (get_member (codes "result") (members_in (parsed value.now)) ≡ Some (kind.map ms))) }
{
    matches!(value.member("result"), Some(Value::Object(_)))
}
