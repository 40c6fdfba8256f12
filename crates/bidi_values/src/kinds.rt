//! What holds a list of values, and what holds a list of pairs.
ghost use Rattle.bidi_values.specs.Kinds.{list_words, pairs_words};

use crate::siblings::Siblings;
use bidi_shape::{Closed, Fields, Named, Parsed, Required, ShapeFault, add_member};
use bidi_tree::OutlineMembers;
use std::alloc::{AllocError, Global};

/// What holds a list of values.
///
/// `"array" / "set"`
///
/// After WebDriver BiDi, "The script.LocalValue Type".
#[derive(Clone, Copy, Debug, PartialEq, Eq)]
pub enum ListKind {
    /// `array`: its items, in order.
    Array,
    /// `set`: its members, in the order in which they were put in.
    Set,
}

impl Named for ListKind {
    ghost words = { list_words };

    fn all() -> &'static [ListKind] {
        &[ListKind::Array, ListKind::Set]
    }

    fn name(&self) -> &'static str {
        match self {
            ListKind::Array => "array",
            ListKind::Set => "set",
        }
    }
}

/// What holds a list of pairs.
///
/// `"object" / "map"`
///
/// After WebDriver BiDi, "The script.LocalValue Type".
#[derive(Clone, Copy, Debug, PartialEq, Eq)]
pub enum PairsKind {
    /// `object`: the names and the values of its properties.
    Object,
    /// `map`: its keys, which may be values of any kind, and their values.
    Map,
}

impl Named for PairsKind {
    ghost words = { pairs_words };

    fn all() -> &'static [PairsKind] {
        &[PairsKind::Object, PairsKind::Map]
    }

    fn name(&self) -> &'static str {
        match self {
            PairsKind::Object => "object",
            PairsKind::Map => "map",
        }
    }
}

type KindParts<K> = Required<K, Closed>;

/// Beside the values or pairs of a local value stands its type alone.
impl<K: Named + Copy> Siblings for K {
    ghost use Rattle.std.specs.Prelude.{refl, [], ◌∷◌, codes};
    ghost use Rattle.bidi_values.specs.SiblingLaws.{siblings_by};

    ghost siblings = { siblings_by ⟦<KindParts<K> as Fields>⟧.table (codes "type" ∷ []) (λ k. (k, record {})) (λ f g. refl) refl refl };

    fn read<S: Parsed>(alloc: Global, map: &S) -> Result<K, ShapeFault> {
        let Required(kind, Closed) = KindParts::<K>::read(
            alloc,
            map,
            &["type"],
            &[],
            &["type", "value"],
        )?;
        Ok(kind)
    }

    fn add_to<'a>(
        &'a self,
        alloc: Global,
        members: &mut OutlineMembers<'a>,
    ) -> Result<(), AllocError> {
        add_member(alloc, members, "type", self)
    }

    fn copy(&self, _alloc: Global) -> Result<K, AllocError> {
        Ok(*self)
    }
}
