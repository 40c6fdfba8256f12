//! Copies of values: equal, and sharing no memory with them.
ghost use Rattle.std.specs.Prelude.{◌≡◌, IfOk, map, option_map, string_bytes};
ghost use Rattle.std.specs.List.{AllByRecursion};
ghost use Rattle.bidi_values.specs.View.{nested_tree, nested_pair_tree, nested_key_tree, NestedIsWell, NestedPairIsWell, NestedKeyIsWell};

use crate::nested::{Nested, NestedKey, NestedPair, Nests};
use crate::siblings::Siblings;
use std::alloc::{AllocError, Global};

/// A text that may be there.
pub(crate) fn copy_text(text: &Option<String>) -> Result<Option<String>, AllocError>
    ensures { IfOk result (λ copy. option_map string_bytes copy ≡ option_map string_bytes text.now) }
{
    match text {
        Some(text) => Ok(Some(text.clone()?)),
        None => Ok(None),
    }
}

/// An equal value: its tree is the same, and it is well.
#[cycle(copy)]
pub(crate) fn copy_value<P: Nests<L, M>, L: Siblings, M: Siblings>(
    alloc: Global,
    value: &Nested<P, L, M>,
) -> Result<Nested<P, L, M>, AllocError>
    requires { NestedIsWell P.nesting value.now }
    ensures { IfOk result (λ v. (nested_tree P.nesting v ≡ nested_tree P.nesting value.now) × NestedIsWell P.nesting v) }
{
    match value {
        Nested::Plain(plain) => {
            let copy = plain.copy(alloc)?;
            Ok(Nested::Plain(copy))
        }
        Nested::List(siblings, values) => {
            let values = copy_values(alloc, values)?;
            let siblings = siblings.copy(alloc)?;
            Ok(Nested::List(siblings, values))
        }
        Nested::Pairs(siblings, pairs) => {
            let pairs = copy_pairs(alloc, pairs)?;
            let siblings = siblings.copy(alloc)?;
            Ok(Nested::Pairs(siblings, pairs))
        }
    }
}

#[cycle(copy)]
fn copy_values<P: Nests<L, M>, L: Siblings, M: Siblings>(
    alloc: Global,
    values: &Vec<Nested<P, L, M>>,
) -> Result<Vec<Nested<P, L, M>>, AllocError>
    requires { AllByRecursion (NestedIsWell P.nesting) values.now.items }
    ensures { IfOk result (λ v. (map (nested_tree P.nesting) v.items ≡ map (nested_tree P.nesting) values.now.items)
        × AllByRecursion (NestedIsWell P.nesting) v.items) }
{
    let mut copies = Vec::with_capacity(alloc, values.len())?;
    for value in values {
        copies.push(copy_value(alloc, value)?)?;
    }
    Ok(copies)
}

#[cycle(copy)]
fn copy_pairs<P: Nests<L, M>, L: Siblings, M: Siblings>(
    alloc: Global,
    pairs: &Vec<NestedPair<P, L, M>>,
) -> Result<Vec<NestedPair<P, L, M>>, AllocError>
    requires { AllByRecursion (NestedPairIsWell P.nesting) pairs.now.items }
    ensures { IfOk result (λ v. (map (nested_pair_tree P.nesting) v.items ≡ map (nested_pair_tree P.nesting) pairs.now.items)
        × AllByRecursion (NestedPairIsWell P.nesting) v.items) }
{
    let mut copies = Vec::with_capacity(alloc, pairs.len())?;
    for pair in pairs {
        copies.push(copy_pair(alloc, pair)?)?;
    }
    Ok(copies)
}

#[cycle(copy)]
fn copy_pair<P: Nests<L, M>, L: Siblings, M: Siblings>(
    alloc: Global,
    pair: &NestedPair<P, L, M>,
) -> Result<NestedPair<P, L, M>, AllocError>
    requires { NestedPairIsWell P.nesting pair.now }
    ensures { IfOk result (λ p. (nested_pair_tree P.nesting p ≡ nested_pair_tree P.nesting pair.now) × NestedPairIsWell P.nesting p) }
{
    let key = copy_key(alloc, &pair.key)?;
    let value = copy_value(alloc, &pair.value)?;
    Ok(NestedPair { key, value })
}

#[cycle(copy)]
fn copy_key<P: Nests<L, M>, L: Siblings, M: Siblings>(
    alloc: Global,
    key: &NestedKey<P, L, M>,
) -> Result<NestedKey<P, L, M>, AllocError>
    requires { NestedKeyIsWell P.nesting key.now }
    ensures { IfOk result (λ k. (nested_key_tree P.nesting k ≡ nested_key_tree P.nesting key.now) × NestedKeyIsWell P.nesting k) }
{
    match key {
        NestedKey::Value(value) => {
            let copy = copy_value(alloc, value)?;
            Ok(NestedKey::Value(copy))
        }
        NestedKey::Text(text) => Ok(NestedKey::Text(text.clone()?)),
    }
}
