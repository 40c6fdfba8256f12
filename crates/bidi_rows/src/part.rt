//! The parts of params that rows name.
ghost use Rattle.std.specs.Prelude.{◌≡◌, IfOk};
ghost use Rattle.json.specs.Value.{value_view, items_view, members_view};
ghost use Rattle.bidi_rows.specs.Part.{part_of, parts_of, members_of};

use json::Value;
use std::alloc::{AllocError, Global};

/// A part that the params of a command may have: a JSON value of its own. A number stays text.
#[derive(Drop)]
pub enum Part {
    /// `null`.
    Null,
    /// `true` or `false`.
    Bool(bool),
    /// A number, as it is written.
    Number(String),
    /// A string.
    String(String),
    /// An array, whose items are the parts of the first items.
    Array(Vec<Part>),
    /// An object: the parts of the properties of these names, or the tests of a string.
    Object(Vec<(String, Part)>),
}

/// Makes the part of a JSON value. Each string is copied.
///
/// # Errors
/// No memory: an allocation failed.
#[cycle(own)]
pub(crate) fn own(alloc: Global, value: &Value<'_>) -> Result<Part, AllocError>
    ensures { IfOk result (λ p. part_of p ≡ value_view value.now) }
{
    match value {
        Value::Null => Ok(Part::Null),
        Value::Bool(b) => Ok(Part::Bool(*b)),
        Value::Number(text) => Ok(Part::Number(String::from_str(alloc, text)?)),
        Value::String(text) => Ok(Part::String(String::from_str(alloc, text)?)),
        Value::Array(items) => Ok(Part::Array(own_items(alloc, items)?)),
        Value::Object(members) => Ok(Part::Object(own_members(alloc, members)?)),
    }
}

#[cycle(own)]
fn own_items(alloc: Global, items: &Vec<Value<'_>>) -> Result<Vec<Part>, AllocError>
    ensures { IfOk result (λ v. parts_of v.items ≡ items_view items.now.items) }
{
    let mut parts = Vec::with_capacity(alloc, items.len())?;
    for item in items {
        parts.push(own(alloc, item)?)?;
    }
    Ok(parts)
}

#[cycle(own)]
fn own_members(
    alloc: Global,
    members: &Vec<(&str, Value<'_>)>,
) -> Result<Vec<(String, Part)>, AllocError>
    ensures { IfOk result (λ v. members_of v.items ≡ members_view members.now.items) }
{
    let mut parts = Vec::with_capacity(alloc, members.len())?;
    for member in members {
        let part = own(alloc, &member.1)?;
        parts.push((String::from_str(alloc, member.0)?, part))?;
    }
    Ok(parts)
}
