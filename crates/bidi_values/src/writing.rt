//! Values that may hold others, as outlines.
ghost use Rattle.std.specs.Prelude.{◌≡◌, IfOk, map};
ghost use Rattle.bidi_tree.specs.Outline.{outline_node};
ghost use Rattle.bidi_values.specs.View.{nested_tree, nested_pair_tree, nested_key_tree};

use crate::nested::{Nested, NestedKey, NestedPair, Nests};
use crate::siblings::{Siblings, outline_around};
use bidi_tree::Outline;
use std::alloc::{AllocError, Global};

/// The outline of a value.
#[cycle(write)]
pub(crate) fn outline_value<'a, P: Nests<L, M>, L: Siblings, M: Siblings>(
    alloc: Global,
    value: &'a Nested<P, L, M>,
) -> Result<Outline<'a>, AllocError>
    ensures { IfOk result (λ d. outline_node d ≡ nested_tree P.nesting value.now) }
{
    match value {
        Nested::Plain(plain) => plain.outline(alloc),
        Nested::List(siblings, values) => {
            let outlines = outline_values(alloc, values)?;
            outline_around(alloc, siblings, outlines)
        }
        Nested::Pairs(siblings, pairs) => {
            let outlines = outline_pairs(alloc, pairs)?;
            outline_around(alloc, siblings, outlines)
        }
    }
}

#[cycle(write)]
fn outline_values<'a, P: Nests<L, M>, L: Siblings, M: Siblings>(
    alloc: Global,
    values: &'a Vec<Nested<P, L, M>>,
) -> Result<Vec<Outline<'a>>, AllocError>
    ensures { IfOk result (λ v. map outline_node v.items ≡ map (nested_tree P.nesting) values.now.items) }
{
    let mut outlines = Vec::with_capacity(alloc, values.len())?;
    for value in values {
        outlines.push(outline_value(alloc, value)?)?;
    }
    Ok(outlines)
}

#[cycle(write)]
fn outline_pairs<'a, P: Nests<L, M>, L: Siblings, M: Siblings>(
    alloc: Global,
    pairs: &'a Vec<NestedPair<P, L, M>>,
) -> Result<Vec<Outline<'a>>, AllocError>
    ensures { IfOk result (λ v. map outline_node v.items ≡ map (nested_pair_tree P.nesting) pairs.now.items) }
{
    let mut outlines = Vec::with_capacity(alloc, pairs.len())?;
    for pair in pairs {
        outlines.push(outline_pair(alloc, pair)?)?;
    }
    Ok(outlines)
}

#[cycle(write)]
fn outline_pair<'a, P: Nests<L, M>, L: Siblings, M: Siblings>(
    alloc: Global,
    pair: &'a NestedPair<P, L, M>,
) -> Result<Outline<'a>, AllocError>
    ensures { IfOk result (λ d. outline_node d ≡ nested_pair_tree P.nesting pair.now) }
{
    let key = outline_key(alloc, &pair.key)?;
    let value = outline_value(alloc, &pair.value)?;
    let mut items = Vec::with_capacity(alloc, 2)?;
    items.push(key)?;
    items.push(value)?;
    Ok(Outline::List(items))
}

#[cycle(write)]
fn outline_key<'a, P: Nests<L, M>, L: Siblings, M: Siblings>(
    alloc: Global,
    key: &'a NestedKey<P, L, M>,
) -> Result<Outline<'a>, AllocError>
    ensures { IfOk result (λ d. outline_node d ≡ nested_key_tree P.nesting key.now) }
{
    match key {
        NestedKey::Value(value) => outline_value(alloc, value),
        NestedKey::Text(text) => Ok(Outline::Text(text.as_str())),
    }
}
