//! The commands that rows are asked about.
ghost use Rattle.std.specs.Prelude.{◌≡◌, option_map};
ghost use Rattle.json.specs.Value.{value_view};
ghost use Rattle.bidi_rows.specs.Command.{command_in};
ghost use Rattle.bidi_rows.specs.View.{command_seen};

use crate::looking::{js_uint_of, string_at};
use bidi_tree::JsUint;
use json::Value;

/// A command, as rows see it. It borrows from the JSON value of its text.
#[derive(Clone, Copy)]
pub struct Command<'v, 'a> {
    /// Its id.
    pub id: JsUint,
    /// Its method.
    pub method: &'v str,
    /// Its params, if it has any.
    pub params: Option<&'v Value<'a>>,
}

/// The command that a JSON value is: an object with a js-uint `id` and a string `method`. Takes no memory.
pub fn command_in<'v, 'a>(value: &'v Value<'a>) -> Option<Command<'v, 'a>>
    // The result is the command of the definition, or `None` if the value is not one.
    ensures { option_map command_seen result ≡ command_in (value_view value.now) }
{
    let id = js_uint_of(value.get("id")?)?;
    let method = string_at(value, "method")?;
    Some(Command {
        id,
        method,
        params: value.get("params"),
    })
}
