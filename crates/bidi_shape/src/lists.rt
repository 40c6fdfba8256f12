//! Arrays of any length, of at least one item, and of two items.
ghost use Rattle.std.proofs.Common.{zero-le};
ghost use Rattle.std.specs.Prelude.{◌≡◌, ◌≤◌, IfOk, length, map, suc, max};
ghost use Rattle.std.specs.List.{AllByRecursion};
ghost use Rattle.bidi_tree.specs.Outline.{outline_node};
ghost use Rattle.bidi_tree.specs.View.{items_of};
ghost use Rattle.bidi_shape.specs.Term.{list_of, pair_of};
ghost use Rattle.bidi_shape.specs.Fits.{AllFit};
ghost use Rattle.bidi_shape.specs.ListLaws.{list_tree, SameEach, list_fits, list_one, pair_tree, pair_fits, first_same, second_same};
ghost use Rattle.bidi_shape.specs.WholeLaws.{list_whole, pair_whole};
ghost use Rattle.bidi_shape.specs.Outcome.{IfNoFit};

use crate::fault::ShapeFault;
use crate::parsed::Parsed;
use crate::shape::Shape;
use bidi_tree::Outline;
use std::alloc::{AllocError, Global};

/// Reads the values of the items.
fn read_items<X: Shape, S: Parsed>(alloc: Global, items: &[S]) -> Result<Vec<X>, ShapeFault>
    ensures ok { IfOk result (λ v. (map X.shape.tree_of v.items ≡ map S.tree items.now) × AllByRecursion X.shape.well v.items) }
    ensures no_fit { IfNoFit result (AllFit (items_of (map S.tree items.now)) X.shape.rule → ⊥) }
{
    let mut values = Vec::with_capacity(alloc, items.len())?;
    for item in items {
        values.push(X::from_tree(alloc, item)?)?;
    }
    Ok(values)
}

/// Makes the outline of the array of the items.
fn outline_list<'a, X: Shape>(alloc: Global, items: &'a [X]) -> Result<Outline<'a>, AllocError>
    ensures { IfOk result (λ d. outline_node d ≡ list_tree X.shape.tree_of items.now) }
{
    let mut outlines = Vec::with_capacity(alloc, items.len())?;
    for item in items {
        outlines.push(item.outline(alloc)?)?;
    }
    Ok(Outline::List(outlines))
}

/// An array of any length: `[*X]`.
impl<X: Shape> Shape for Vec<X> {
    // The rule `[*X]`; a list is valid if each item is.
    ghost shape = { record {
      rule = list_of 0 X.shape.rule;
      tree_of = λ v. list_tree X.shape.tree_of v.items;
      well = λ v. AllByRecursion X.shape.well v.items;
      same = λ v w. SameEach X.shape.same v.items w.items;
      fits = λ v w. list_fits X.shape.tree_of X.shape.well X.shape.rule X.shape.fits 0 v.items zero-le w;
      one_value = λ v w a b e. list_one X.shape.tree_of X.shape.well X.shape.same X.shape.one_value v.items w.items a b e;
      deepest = suc X.shape.deepest;
      whole = λ v w. list_whole X.shape.tree_of X.shape.well X.shape.deepest X.shape.whole v.items w;
    } };

    fn from_tree<S: Parsed>(alloc: Global, tree: &S) -> Result<Vec<X>, ShapeFault> {
        match tree.as_items() {
            Some(items) => read_items(alloc, items),
            None => Err(ShapeFault::NoFit),
        }
    }

    fn outline<'a>(&'a self, alloc: Global) -> Result<Outline<'a>, AllocError> {
        outline_list(alloc, self)
    }
}

/// An array of at least one item: `[+X]`.
#[derive(Drop)]
pub struct OneOrMore<X: Drop> {
    /// The items. A value without items is not valid, and its tree fits no rule.
    pub items: Vec<X>,
}

impl<X: Shape> Shape for OneOrMore<X> {
    // The rule `[+X]`; a list is valid if it has an item and each item is valid.
    ghost shape = { record {
      rule = list_of 1 X.shape.rule;
      tree_of = λ v. list_tree X.shape.tree_of v.items.items;
      well = λ v. (1 ≤ length v.items.items) × AllByRecursion X.shape.well v.items.items;
      same = λ v w. SameEach X.shape.same v.items.items w.items.items;
      fits = λ v w. list_fits X.shape.tree_of X.shape.well X.shape.rule X.shape.fits 1 v.items.items w.0 w.1;
      one_value = λ v w a b e. list_one X.shape.tree_of X.shape.well X.shape.same X.shape.one_value v.items.items w.items.items a.1 b.1 e;
      deepest = suc X.shape.deepest;
      whole = λ v w. list_whole X.shape.tree_of X.shape.well X.shape.deepest X.shape.whole v.items.items w.1;
    } };

    fn from_tree<S: Parsed>(alloc: Global, tree: &S) -> Result<OneOrMore<X>, ShapeFault> {
        match tree.as_items() {
            Some(items) if items.len() > 0 => {
                let items = read_items(alloc, items)?;
                Ok(OneOrMore { items })
            }
            _ => Err(ShapeFault::NoFit),
        }
    }

    fn outline<'a>(&'a self, alloc: Global) -> Result<Outline<'a>, AllocError> {
        outline_list(alloc, &self.items)
    }
}

/// An array of exactly two items: `[X, Y]`.
impl<X: Shape, Y: Shape> Shape for (X, Y) {
    // The rule `[X, Y]`; a pair is valid if both parts are.
    ghost shape = { record {
      rule = pair_of X.shape.rule Y.shape.rule;
      tree_of = λ v. pair_tree (X.shape.tree_of v.0) (Y.shape.tree_of v.1);
      well = λ v. X.shape.well v.0 × Y.shape.well v.1;
      same = λ v w. X.shape.same v.0 w.0 × Y.shape.same v.1 w.1;
      fits = λ v w. pair_fits (X.shape.tree_of v.0) (Y.shape.tree_of v.1) X.shape.rule Y.shape.rule (X.shape.fits v.0 w.0) (Y.shape.fits v.1 w.1);
      one_value = λ v w a b e. (X.shape.one_value v.0 w.0 a.0 b.0 (first_same _ _ _ _ e), Y.shape.one_value v.1 w.1 a.1 b.1 (second_same _ _ _ _ e));
      deepest = suc (max X.shape.deepest Y.shape.deepest);
      whole = λ v w. pair_whole (X.shape.tree_of v.0) (Y.shape.tree_of v.1) X.shape.deepest Y.shape.deepest (X.shape.whole v.0 w.0) (Y.shape.whole v.1 w.1);
    } };

    fn from_tree<S: Parsed>(alloc: Global, tree: &S) -> Result<(X, Y), ShapeFault> {
        match tree.as_items() {
            Some(items) if items.len() == 2 => {
                let first = X::from_tree(alloc, &items[0])?;
                let second = Y::from_tree(alloc, &items[1])?;
                Ok((first, second))
            }
            _ => Err(ShapeFault::NoFit),
        }
    }

    fn outline<'a>(&'a self, alloc: Global) -> Result<Outline<'a>, AllocError> {
        let mut outlines = Vec::with_capacity(alloc, 2)?;
        outlines.push(self.0.outline(alloc)?)?;
        outlines.push(self.1.outline(alloc)?)?;
        Ok(Outline::List(outlines))
    }
}
