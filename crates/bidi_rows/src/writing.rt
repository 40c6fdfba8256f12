//! The texts of messages and of their parts.
ghost use Rattle.std.specs.Prelude.{◌≡◌, IfOk, string_bytes};
ghost use Rattle.json.specs.Tree.{HasNumbers};
ghost use Rattle.json.specs.Print.{quoted};
ghost use Rattle.json.specs.Value.{value_view};
ghost use Rattle.bidi_rows.specs.Rows.{compact, reply_text};
ghost use Rattle.bidi_rows.specs.View.{reply_of};

use crate::row::Reply;
use bidi_tree::JsUint;
use json::{Value, Writer, to_vec};
use std::alloc::{AllocError, Global};

/// The compact JSON text of a value: no blanks, numbers and the order of properties as they are written.
///
/// # Errors
/// No memory: an allocation failed.
pub fn compact(alloc: Global, value: &Value<'_>) -> Result<String, AllocError>
    // Each number in the value is a number of JSON, as in every value that was read.
    requires { HasNumbers (value_view value.now) }
    // After an Ok, the text is that of the definition.
    ensures { IfOk result (λ s. string_bytes s ≡ compact (value_view value.now)) }
{
    let bytes = to_vec(alloc, value)?;
    Ok(unsafe { String::from_utf8_unchecked(bytes) })
}

/// The JSON text of a string.
#[tactic(auto, using(crate::proofs::StringLemmas::printed_string))]
pub(crate) fn quoted(alloc: Global, text: &str) -> Result<String, AllocError>
    ensures { IfOk result (λ s. string_bytes s ≡ quoted text.now) }
{
    let mut out = Writer::new(Vec::new(alloc));
    out.string(text)?;
    Ok(unsafe { String::from_utf8_unchecked(out.into_inner()) })
}

/// The message of a reply to the command of this id.
///
/// # Errors
/// No memory: an allocation failed.
pub fn reply_text(alloc: Global, id: JsUint, reply: &Reply) -> Result<String, AllocError>
    // After an Ok, the text is a response with the result, or an error with the code and its message, as compact JSON.
    ensures { IfOk result (λ s. string_bytes s ≡ reply_text id.value (reply_of reply.now)) }
{
    let id = id.value;
    match reply {
        Reply::Result(found) => {
            format!(in alloc; "{{\"id\":{id},\"result\":{found},\"type\":\"success\"}}")
        }
        Reply::Error(code, message) => {
            format!(in alloc;
                "{{\"error\":{code},\"id\":{id},\"message\":{message},\"type\":\"error\"}}"
            )
        }
    }
}
