//! The texts that a remote end sends. They have only the members that their rule names.
ghost use Rattle.std.specs.Prelude.{◌≡◌, ◌≤◌, ◌++◌, Some, IfOk, OnOk, string_bytes, option_map};
ghost use Rattle.bidi_tree.specs.Node.{Node, levels, IsSound, IsWhole, IsWritable};
ghost use Rattle.bidi_tree.specs.Outline.{outline_node};
ghost use Rattle.bidi_tree.specs.Text.{tree_of, compact_text};
ghost use Rattle.bidi_shape.specs.Term.{rule};
ghost use Rattle.bidi_shape.specs.Fits.{Fits};
ghost use Rattle.bidi_methods.specs.Method.{result_of};
ghost use Rattle.bidi_methods.specs.declared.method.Method.{Method};
ghost use Rattle.bidi_messages.specs.Message.{id_tree, response_tree, response_text, error_text, event_text};
ghost use Rattle.bidi_messages.specs.Reading.{IsMessageText};
ghost use Rattle.bidi_messages.specs.Payloads.{EventIsWell, ResultIsWell, event_of, event_params, result_tree};

use crate::message::Message;
use crate::straight::{append_params, append_result};
use bidi_methods::{EventData, Payload, ResultData};
use bidi_params::ErrorCode;
use bidi_shape::{Ext, Named, Shape};
use bidi_tree::JsUint;
use std::alloc::{AllocError, Global};

/// Makes the text of the response to a command: compact, its members in byte order of their names.
///
/// The result is used up. Its strings are copied only into the text.
///
/// # Errors
/// No memory: an allocation failed.
pub fn response_text(
    alloc: Global,
    id: JsUint,
    result_data: ResultData,
) -> Result<String, AllocError>
    // The result is valid.
    requires well { ResultIsWell result_data }
    // A response holds members of at most 60 levels, so the result has at most 61. A deeper one
    // could be written, but nobody could read it.
    requires small { levels (result_tree result_data) ≤ 61 }
    // The text is that of the response with this id and this result.
    ensures text { IfOk result (λ s. string_bytes s
        ≡ response_text id.value (result_tree result_data)) }
    // The text reads back as the tree of the response with this id and this result.
    ensures tree { IfOk result (λ s. tree_of (string_bytes s)
        ≡ Some (response_tree id.value (result_tree result_data))) }
    // The text is that of a message, so `read_message` accepts it.
    ensures reads_back { IfOk result (λ s. IsMessageText ⟦<Message as Shape>⟧.shape (string_bytes s)) }
{
    let text = write_response(alloc, id, &result_data);
    // By a call, in which its variants are not visible.
    drop(result_data);
    text
}

/// The room for the other members of a response.
const RESPONSE_ROOM: usize = 64;

/// Makes the text of the response to a command whose result is there as a text, which is copied once.
///
/// # Errors
/// No memory: an allocation failed.
pub fn response_around(alloc: Global, id: JsUint, result_text: &str) -> Result<String, AllocError>
    // The text is that of the response with this id and the result of this text.
    ensures text { (t : Node) → result_text.now ≡ compact_text t → IfOk result (λ s. string_bytes s ≡ response_text id.value t) }
    // If a response can hold the result, the text reads back as the tree of that response.
    ensures tree { (t : Node) → result_text.now ≡ compact_text t → IsSound t → IsWhole t 61
        → IfOk result (λ s. tree_of (string_bytes s) ≡ Some (response_tree id.value t)) }
    // If the result also fits the rule of a method's results, the text is that of a message.
    ensures reads_back { (t : Node) (method : Method) → result_text.now ≡ compact_text t → IsSound t → IsWhole t 61
        → Fits t (rule (result_of method)) → IfOk result (λ s. IsMessageText ⟦<Message as Shape>⟧.shape (string_bytes s)) }
{
    let mut digits = itoa::Buffer::new();
    let room = result_text.len().saturating_add(RESPONSE_ROOM);
    let mut text = String::with_capacity(alloc, room)?;
    text.push_str("{\"id\":")?;
    text.push_str(digits.format(id.value))?;
    text.push_str(",\"result\":")?;
    text.push_str(result_text)?;
    text.push_str(",\"type\":\"success\"}")?;
    Ok(text)
}

// Makes the text of a response.
fn write_response(alloc: Global, id: JsUint, result_data: &ResultData) -> Result<String, AllocError>
    requires { IsWhole (result_tree result_data.now) 61 }
    ensures text { IfOk result (λ s. string_bytes s ≡ response_text id.value (result_tree result_data.now)) }
    ensures tree { IfOk result (λ s. tree_of (string_bytes s) ≡ Some (response_tree id.value (result_tree result_data.now))) }
{
    let mut digits = itoa::Buffer::new();
    let mut text = String::with_capacity(alloc, ROOM)?;
    text.push_str("{\"id\":")?;
    text.push_str(digits.format(id.value))?;
    text.push_str(",\"result\":")?;
    let mut text = append_result(alloc, text, result_data)?;
    text.push_str(",\"type\":\"success\"}")?;
    Ok(text)
}

/// The room that the text of a response or an event starts with; it grows as needed.
const ROOM: usize = 256;

/// Makes the text of an event: compact, its members in byte order of their names.
///
/// # Errors
/// No memory: an allocation failed.
pub fn event_text(alloc: Global, event: &EventData) -> Result<String, AllocError>
    // The params of the event are valid.
    requires { EventIsWell event.now }
    // The text is that of this event.
    ensures text { IfOk result (λ s. string_bytes s
        ≡ event_text (event_of event.now) (event_params event.now)) }
    // The text is that of a message, so `read_message` accepts it.
    ensures reads_back { IfOk result (λ s. IsMessageText ⟦<Message as Shape>⟧.shape (string_bytes s)) }
{
    // The event has no further members.
    let _ext = Ext::empty(alloc);
    let name = event.kind().name();
    let mut text = String::with_capacity(alloc, ROOM)?;
    text.push_str("{\"method\":\"")?;
    text.push_str(name)?;
    text.push_str("\",\"params\":")?;
    let mut text = append_params(alloc, text, event)?;
    text.push_str(",\"type\":\"event\"}")?;
    Ok(text)
}

/// Makes the text of an error, whose message is the string of the code.
///
/// # Errors
/// No memory: an allocation failed.
pub fn error_text(alloc: Global, id: Option<JsUint>, code: ErrorCode) -> Result<String, AllocError>
    // The text is that of the error with this id, or null, and this code.
    ensures text { IfOk result (λ s. string_bytes s ≡ error_text (option_map (λ n. n.value) id) code) }
    // The text is that of a message, so `read_message` accepts it.
    ensures reads_back { IfOk result (λ s. IsMessageText ⟦<Message as Shape>⟧.shape (string_bytes s)) }
{
    let name = code.name();
    let mut text = String::with_capacity(alloc, ERROR_ROOM)?;
    text.push_str("{\"error\":\"")?;
    text.push_str(name)?;
    text.push_str("\",\"id\":")?;
    push_id(&mut text, id)?;
    text.push_str(",\"message\":\"")?;
    text.push_str(name)?;
    text.push_str("\",\"type\":\"error\"}")?;
    Ok(text)
}

/// The room for an error.
const ERROR_ROOM: usize = 128;

/// Appends the text of an id, or of null.
fn push_id(text: &mut String, id: Option<JsUint>) -> Result<(), AllocError>
    ensures { OnOk result (string_bytes text.new ≡ string_bytes text.old ++ compact_text (id_tree (option_map (λ n. n.value) id))) }
{
    match id {
        Some(id) => {
            let mut digits = itoa::Buffer::new();
            text.push_str(digits.format(id.value))
        }
        None => text.push_str("null"),
    }
}
