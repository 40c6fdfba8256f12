//! The commands that calls stand for.
ghost use Rattle.std.specs.Prelude.{◌≡◌, IfOk, MatchOption, codes, string_bytes};
ghost use Rattle.json.specs.Find.{get};
ghost use Rattle.json.specs.Json.{Json};
ghost use Rattle.json.specs.Tree.{HasNumbers};
ghost use Rattle.json.specs.Value.{value_view};
ghost use Rattle.bidi_classic.specs.Commands.{HasCapabilities, end_text, new_text};

use bidi_rows::compact;
use json::{Error, Scratch, Value};
use std::alloc::{AllocError, Global};

// The command that ends the session of a connection.
const END_COMMAND: &str = "{\"id\":0,\"method\":\"session.end\",\"params\":{}}";

/// The text of the command that ends the session of a connection.
///
/// # Errors
/// No memory: an allocation failed.
pub fn end_command(alloc: Global) -> Result<String, AllocError>
    // The result is the text of `session.end`.
    ensures { IfOk result (λ text. string_bytes text ≡ end_text) }
{
    String::from_str(alloc, END_COMMAND)
}

/// The text of the command that a body asks for, if it is a JSON object with a property `capabilities`. The other
/// properties are left out.
///
/// Reads the body once, and copies the capabilities twice.
///
/// # Errors
/// No memory: an allocation failed.
pub fn new_command(alloc: Global, body: &[u8]) -> Result<Option<String>, AllocError>
    // If there is a result, the body is such an object, and the result is the command with its capabilities; `None` means that the body is not one.
    ensures { IfOk result (λ found. MatchOption found ((c : Json) → HasCapabilities body.now c → ⊥)
        (λ text. (c : Json) × HasCapabilities body.now c × (string_bytes text ≡ new_text c))) }
{
    let Ok(body) = str::from_utf8(body) else {
        return Ok(None);
    };
    let mut scratch = Scratch::new(alloc);
    match Value::parse(alloc, body, &mut scratch) {
        Ok(value) => command_in(alloc, &value),
        Err(Error::OutOfMemory) => Err(AllocError),
        Err(_) => Ok(None),
    }
}

// The text of the command that a value asks for, if it is an object with capabilities.
fn command_in(alloc: Global, body: &Value<'_>) -> Result<Option<String>, AllocError>
    requires { HasNumbers (value_view body.now) }
    ensures { IfOk result (λ found. MatchOption found ((c : Json) → get (codes "capabilities") (value_view body.now) ≡ Some c → ⊥)
        (λ text. (c : Json) × (get (codes "capabilities") (value_view body.now) ≡ Some c) × (string_bytes text ≡ new_text c))) }
{
    let Some(capabilities) = body.get("capabilities") else {
        return Ok(None);
    };
    let capabilities = compact(alloc, capabilities)?;
    Ok(Some(format!(in alloc;
        "{{\"id\":0,\"method\":\"session.new\",\"params\":{{\"capabilities\":{capabilities}}}}}"
    )?))
}
