//! The properties of a large object by their names.
ghost use Rattle.std.specs.Prelude.{◌≡◌, IfOk, IfSome, option_map};
ghost use Rattle.json.specs.Find.{get};
ghost use Rattle.json.specs.Json.{object};
ghost use Rattle.json.specs.Value.{value_view, members_view};
ghost use Rattle.bidi_rows.specs.Index.{IsIndexOf};

use json::Value;
use std::alloc::{AllocError, Global};
use std::collections::BTreeMap;

/// An object with at most this many properties gets no index, and a larger one gets it after this many were looked for.
pub(crate) const FEW: usize = 16;

/// Makes the index of an object. `None` if the value has few properties, or if there is no memory for the index.
pub(crate) fn index_for<'v, 'a>(
    alloc: Global,
    value: &'v Value<'a>,
) -> Option<BTreeMap<&'a str, &'v Value<'a>>>
    ensures { IfSome result (λ index. IsIndexOf index (value_view value.now)) }
{
    match value {
        Value::Object(members) if members.len() > FEW => index_of(alloc, members).ok(),
        _ => None,
    }
}

// The last property of each name.
fn index_of<'v, 'a>(
    alloc: Global,
    members: &'v Vec<(&'a str, Value<'a>)>,
) -> Result<BTreeMap<&'a str, &'v Value<'a>>, AllocError>
    ensures { IfOk result (λ index. IsIndexOf index (object (members_view members.now.items))) }
{
    let mut index = BTreeMap::new(alloc);
    for member in members {
        index.insert(member.0, &member.1)?;
    }
    Ok(index)
}

/// The last property of this name, by the index if there is one.
pub(crate) fn property_at<'v, 'a>(
    index: &Option<BTreeMap<&'a str, &'v Value<'a>>>,
    value: &'v Value<'a>,
    name: &str,
) -> Option<&'v Value<'a>>
    requires { IfSome index.now (λ index. IsIndexOf index (value_view value.now)) }
    ensures { option_map (λ v. value_view v.now) result ≡ get name.now (value_view value.now) }
{
    match index {
        Some(index) => index.get(name).copied(),
        None => value.get(name),
    }
}
