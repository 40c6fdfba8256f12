//! Values that may hold others of their kind.
ghost use Rattle.std.specs.Prelude.{◌≡◌, IfOk, ◌≤◌};
ghost use Rattle.bidi_values.specs.Content.{content, plain};
ghost use Rattle.bidi_values.specs.NestedLaws.{NestingOf, Agrees, nested_shape, IsWell, Same};

use crate::copying::copy_value;
use crate::reading::read_value;
use crate::siblings::Siblings;
use crate::writing::outline_value;
use bidi_shape::{MAX_LEVELS, MakeFault, Parsed, Shape, ShapeFault};
use bidi_tree::Outline;
use std::alloc::{AllocError, Global};

/// A value that is plain, or holds a list of values, or a list of pairs.
#[derive(Drop)]
#[cycle(nested)]
pub enum Nested<P: Drop, L: Drop, M: Drop> {
    /// A value that holds no other.
    Plain(P),
    /// What stands beside the list, and its values.
    List(L, Vec<Nested<P, L, M>>),
    /// What stands beside the list, and its pairs.
    Pairs(M, Vec<NestedPair<P, L, M>>),
}

/// A key, and the value under it.
#[derive(Drop)]
#[cycle(nested)]
pub struct NestedPair<P: Drop, L: Drop, M: Drop> {
    pub key: NestedKey<P, L, M>,
    pub value: Nested<P, L, M>,
}

/// A key is a text, or any other value.
#[derive(Drop)]
#[cycle(nested)]
pub enum NestedKey<P: Drop, L: Drop, M: Drop> {
    /// A key that is written as a value; a text may be, too.
    Value(Nested<P, L, M>),
    /// A key that is written as a text alone.
    Text(String),
}

/// The plain values of a rule whose other values hold values of the rule.
pub trait Nests<L: Siblings, M: Siblings>: Shape {
    // The rule, that its alternatives are these three, and that no tree is of two of them.
    ghost nesting: { NestingOf Self L M };

    /// The value that is this plain one. Takes no memory.
    fn into_value(self) -> Nested<Self, L, M>
        // The value has the content of this plain value.
        ensures { content result ≡ plain self };

    /// A copy of the plain value, which shares no memory with it.
    ///
    /// # Errors
    /// No memory: an allocation failed.
    fn copy(&self, alloc: Global) -> Result<Self, AllocError>
        // The plain value is well-formed.
        requires { nesting.plain.well self.now }
        // The copy has the same tree.
        ensures tree { IfOk result (λ p. nesting.plain.tree_of p ≡ nesting.plain.tree_of self.now) }
        // The copy is well-formed.
        ensures well { IfOk result nesting.plain.well };

    // What the rule says of each of the three is what each says of itself.
    ghost agrees: { Agrees nesting Self.shape L.siblings M.siblings };
}

impl<P: Nests<L, M>, L: Siblings, M: Siblings> Shape for Nested<P, L, M> {
    ghost shape = { nested_shape P.nesting content };

    fn from_tree<S: Parsed>(alloc: Global, tree: &S) -> Result<Nested<P, L, M>, ShapeFault> {
        if tree.is_within(alloc, MAX_LEVELS)? {
            read_value(alloc, tree)
        } else {
            Err(ShapeFault::NoFit)
        }
    }

    fn outline<'a>(&'a self, alloc: Global) -> Result<Outline<'a>, AllocError> {
        outline_value(alloc, self)
    }
}

impl<P: Nests<L, M>, L: Siblings, M: Siblings> Nested<P, L, M> {
    ghost use Rattle.bidi_tree.specs.Node.{levels};
    ghost use Rattle.bidi_shape.specs.Made.{Makes};
    ghost use Rattle.bidi_values.specs.View.{nested_tree, NestedIsWell};

    /// The value, where its tree has at most 60 levels. To make a value of many levels, ask this once, at its top.
    /// Costs the making of its outline.
    ///
    /// # Errors
    /// - `TooDeep`: it has more.
    /// - `NoMemory`: an allocation failed.
    pub fn checked(self, alloc: Global) -> Result<Nested<P, L, M>, MakeFault>
        // Each part of the value is well-formed; its levels need not be counted.
        requires { NestedIsWell P.nesting self }
        // Memory aside, it is refused exactly if its tree has more than 60 levels; else it is returned as it is.
        ensures made { Makes result ⊥ ⊥ (¬ (levels (nested_tree P.nesting self) ≤ 60)) (λ v. v ≡ self) }
        // The value is well-formed, so its tree fits the rule.
        ensures well { IfOk result (λ v. IsWell P.nesting (content v)) }
    {
        let is_within = self.outline(alloc)?.is_within(MAX_LEVELS);
        if is_within {
            Ok(self)
        } else {
            Err(MakeFault::TooDeep)
        }
    }

    /// A copy of the value, which is equal and shares no memory with it. Costs one walk through it.
    ///
    /// # Errors
    /// No memory: an allocation failed.
    pub fn copy(&self, alloc: Global) -> Result<Nested<P, L, M>, AllocError>
        // The value is well-formed.
        requires { IsWell P.nesting (content self.now) }
        // The copy has the same tree.
        ensures tree { IfOk result (λ v. nested_tree P.nesting v ≡ nested_tree P.nesting self.now) }
        // The copy is well-formed.
        ensures well { IfOk result (λ v. IsWell P.nesting (content v)) }
        // The copy is equal to the value, part by part.
        ensures same { IfOk result (λ v. Same P.nesting (content v) (content self.now)) }
    {
        copy_value(alloc, self)
    }
}
