//! Trees as values that may hold others.
ghost use Rattle.std.specs.Prelude.{◌≡◌, IfOk, MatchOption, map, length, [], ◌∷◌};
ghost use Rattle.std.specs.List.{AllByRecursion};
ghost use Rattle.bidi_tree.specs.Node.{Node};
ghost use Rattle.bidi_tree.specs.View.{items_of};
ghost use Rattle.bidi_shape.specs.Term.{either, rule, text};
ghost use Rattle.bidi_shape.specs.Fits.{Fits, AllFit};
ghost use Rattle.bidi_shape.specs.Outcome.{IfNoFit};
ghost use Rattle.bidi_values.specs.NestedLaws.{pair_node};
ghost use Rattle.bidi_values.specs.View.{nested_tree, nested_pair_tree, nested_key_tree, NestedIsWell, NestedPairIsWell, NestedKeyIsWell};

use crate::nested::{Nested, NestedKey, NestedPair, Nests};
use crate::siblings::{Siblings, read_around};
use bidi_shape::{Parsed, ShapeFault};
use std::alloc::Global;

/// The value of a tree.
#[cycle(read)]
pub(crate) fn read_value<P: Nests<L, M>, L: Siblings, M: Siblings, S: Parsed>(
    alloc: Global,
    tree: &S,
) -> Result<Nested<P, L, M>, ShapeFault>
    ensures ok { IfOk result (λ v. (nested_tree P.nesting v ≡ S.tree tree.now)
        × NestedIsWell P.nesting v) }
    ensures no_fit { IfNoFit result (Fits (S.tree tree.now) (rule P.nesting.values) → ⊥) }
{
    match read_around::<L, S>(alloc, tree) {
        Ok((siblings, items)) => {
            let values = read_values(alloc, items)?;
            return Ok(Nested::List(siblings, values));
        }
        Err(ShapeFault::NoMemory) => return Err(ShapeFault::NoMemory),
        Err(ShapeFault::NoFit) => {}
    }
    match read_around::<M, S>(alloc, tree) {
        Ok((siblings, items)) => {
            let pairs = read_pairs(alloc, items)?;
            Ok(Nested::Pairs(siblings, pairs))
        }
        Err(ShapeFault::NoMemory) => Err(ShapeFault::NoMemory),
        Err(ShapeFault::NoFit) => {
            let plain = P::from_tree(alloc, tree)?;
            Ok(Nested::Plain(plain))
        }
    }
}

#[cycle(read)]
fn read_values<P: Nests<L, M>, L: Siblings, M: Siblings, S: Parsed>(
    alloc: Global,
    items: &[S],
) -> Result<Vec<Nested<P, L, M>>, ShapeFault>
    ensures ok { IfOk result (λ v. (map (nested_tree P.nesting) v.items ≡ map S.tree items.now)
        × AllByRecursion (NestedIsWell P.nesting) v.items) }
    ensures no_fit { IfNoFit result (AllFit (items_of (map S.tree items.now)) (rule P.nesting.values) → ⊥) }
{
    let mut values = Vec::with_capacity(alloc, items.len())?;
    for item in items {
        values.push(read_value(alloc, item)?)?;
    }
    Ok(values)
}

#[cycle(read)]
fn read_pairs<P: Nests<L, M>, L: Siblings, M: Siblings, S: Parsed>(
    alloc: Global,
    items: &[S],
) -> Result<Vec<NestedPair<P, L, M>>, ShapeFault>
    ensures ok { IfOk result (λ v. (map (nested_pair_tree P.nesting) v.items ≡ map S.tree items.now)
        × AllByRecursion (NestedPairIsWell P.nesting) v.items) }
    ensures no_fit { IfNoFit result (AllFit (items_of (map S.tree items.now)) (rule P.nesting.pair_rule) → ⊥) }
{
    let mut pairs = Vec::with_capacity(alloc, items.len())?;
    for item in items {
        pairs.push(read_pair(alloc, item)?)?;
    }
    Ok(pairs)
}

#[cycle(read)]
fn read_pair<P: Nests<L, M>, L: Siblings, M: Siblings, S: Parsed>(
    alloc: Global,
    tree: &S,
) -> Result<NestedPair<P, L, M>, ShapeFault>
    ensures ok { IfOk result (λ p. (nested_pair_tree P.nesting p ≡ S.tree tree.now)
        × NestedPairIsWell P.nesting p) }
    ensures no_fit { IfNoFit result (Fits (S.tree tree.now) (rule P.nesting.pair_rule) → ⊥) }
{
    match two_items(tree) {
        Some((key, value)) => {
            let key = read_key(alloc, key)?;
            let value = read_value(alloc, value)?;
            Ok(NestedPair { key, value })
        }
        None => Err(ShapeFault::NoFit),
    }
}

#[cycle(read)]
fn read_key<P: Nests<L, M>, L: Siblings, M: Siblings, S: Parsed>(
    alloc: Global,
    tree: &S,
) -> Result<NestedKey<P, L, M>, ShapeFault>
    ensures ok { IfOk result (λ k. (nested_key_tree P.nesting k ≡ S.tree tree.now)
        × NestedKeyIsWell P.nesting k) }
    ensures no_fit { IfNoFit result (Fits (S.tree tree.now) (either (rule P.nesting.values) text) → ⊥) }
{
    match tree.as_str() {
        Some(text) => Ok(NestedKey::Text(String::from_str(alloc, text)?)),
        None => {
            let value = read_value(alloc, tree)?;
            Ok(NestedKey::Value(value))
        }
    }
}

/// The two items of a list of two.
fn two_items<S: Parsed>(tree: &S) -> Option<(&S, &S)>
    ensures { MatchOption result ((u v : Node) → S.tree tree.now ≡ pair_node u v → ⊥) (λ p. S.tree tree.now ≡ pair_node (S.tree p.0.now) (S.tree p.1.now)) }
{
    match tree.as_items() {
        Some(items) => exactly_two(items),
        None => None,
    }
}

/// The items, where they are two.
fn exactly_two<S: Parsed>(items: &[S]) -> Option<(&S, &S)>
    ensures { MatchOption result (length items.now ≡ 2 → ⊥) (λ p. items.now ≡ p.0.now ∷ p.1.now ∷ []) }
{
    if items.len() == 2 {
        Some((&items[0], &items[1]))
    } else {
        None
    }
}
