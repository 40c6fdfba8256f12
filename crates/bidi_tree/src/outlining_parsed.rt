//! The outline of a JSON value that borrows from its text.
ghost use Rattle.std.specs.Prelude.{◌≡◌, IfOk};
ghost use Rattle.json.specs.Value.{items_view, members_view};
ghost use Rattle.serde_json.specs.Read.{number_of};
ghost use Rattle.bidi_tree.specs.Node.{no_members};
ghost use Rattle.bidi_tree.specs.Outline.{outline_node, outline_items, outline_members};
ghost use Rattle.bidi_tree.specs.Json.{parsed, json_items, put_all, number_in};

use crate::number_text::whole_number;
use crate::outline::{Outline, OutlineMembers, put_outline};
use crate::sorted::Sorted;
use json::Value;
use std::alloc::{AllocError, Global};
use std::collections::BTreeMap;

/// How many members are put in order without a map.
const FEW: usize = 16;

/// Makes the outline of a JSON value. No string is copied.
///
/// # Errors
/// No memory: an allocation failed.
#[cycle(outline_parsed)]
pub fn outline_parsed<'a>(alloc: Global, value: &Value<'a>) -> Result<Outline<'a>, AllocError>
    // The outline has the value's tree: if two members have the same name, the last one counts.
    ensures { IfOk result (λ d. outline_node d ≡ parsed value.now) }
{
    match value {
        Value::Null => Ok(Outline::Null),
        Value::Bool(b) => Ok(Outline::Bool(*b)),
        Value::Number(text) => Ok(number_outline(text)),
        Value::String(text) => Ok(Outline::Text(*text)),
        Value::Array(items) => Ok(Outline::List(outlines_parsed(alloc, items)?)),
        Value::Object(members) => Ok(Outline::Map(members_parsed(alloc, members)?)),
    }
}

#[cycle(outline_parsed)]
fn outlines_parsed<'a>(
    alloc: Global,
    items: &Vec<Value<'a>>,
) -> Result<Vec<Outline<'a>>, AllocError>
    ensures { IfOk result (λ v. outline_items v.items ≡ json_items (items_view items.now.items)) }
{
    let mut outlines = Vec::with_capacity(alloc, items.len())?;
    for item in items {
        outlines.push(outline_parsed(alloc, item)?)?;
    }
    Ok(outlines)
}

#[cycle(outline_parsed)]
fn members_parsed<'a>(
    alloc: Global,
    members: &Vec<(&'a str, Value<'a>)>,
) -> Result<OutlineMembers<'a>, AllocError>
    ensures { IfOk result (λ ms. outline_members ms ≡ put_all (members_view members.now.items) no_members) }
{
    if members.len() <= FEW {
        few_parsed(alloc, members)
    } else {
        many_parsed(alloc, members)
    }
}

// Each is put into its place, which is looked for from the end.
#[cycle(outline_parsed)]
fn few_parsed<'a>(
    alloc: Global,
    members: &Vec<(&'a str, Value<'a>)>,
) -> Result<OutlineMembers<'a>, AllocError>
    ensures { IfOk result (λ ms. outline_members ms ≡ put_all (members_view members.now.items) no_members) }
{
    let mut sorted = Sorted::with_capacity(alloc, members.len())?;
    for member in members {
        let outline = outline_parsed(alloc, &member.1)?;
        put_outline(&mut sorted, member.0, outline)?;
    }
    Ok(sorted)
}

// A map of its own puts the names in order. It is dropped when its entries have been moved out.
#[cycle(outline_parsed)]
fn many_parsed<'a>(
    alloc: Global,
    members: &Vec<(&'a str, Value<'a>)>,
) -> Result<OutlineMembers<'a>, AllocError>
    ensures { IfOk result (λ ms. outline_members ms ≡ put_all (members_view members.now.items) no_members) }
{
    let mut sorted = BTreeMap::new(alloc);
    for member in members {
        let outline = outline_parsed(alloc, &member.1)?;
        drop(sorted.insert(member.0, outline)?);
    }
    in_order(alloc, sorted)
}

/// The members of a sorted map, in its order.
fn in_order<'a>(
    alloc: Global,
    sorted: BTreeMap<&'a str, Outline<'a>>,
) -> Result<OutlineMembers<'a>, AllocError>
    ensures { IfOk result (λ ms. ms.entries.items ≡ sorted.entry.entries) }
{
    let mut outlines = Vec::with_capacity(alloc, sorted.len())?;
    for member in sorted {
        outlines.push(member)?;
    }
    Ok(Sorted { entries: outlines })
}

fn number_outline<'a>(text: &str) -> Outline<'a>
    ensures { outline_node result ≡ number_in (number_of text.now) }
{
    match whole_number(text) {
        Some(whole) => Outline::Int(whole),
        None => Outline::Odd,
    }
}
