//! Values that a script gives back.
ghost use Rattle.std.specs.Prelude.{refl};
ghost use Rattle.bidi_values.specs.RemoteValue.{remote_plain, remote_alternatives, plain_remote, list_remote, pairs_remote, one_of_remote, remote_list_not_plain, remote_pairs_not_plain, remote_list_not_pairs, remote_pairs_not_list, text_not_plain};

use crate::held::{RemoteDate, RemoteList, RemoteOpaque, RemotePairs, RemoteRegExp};
use crate::nested::{Nested, NestedKey, NestedPair, Nests};
use crate::primitive::Primitive;
use crate::siblings::Siblings;
use bidi_shape::{Either, Parsed, Shape, ShapeFault, read_choice};
use bidi_tree::Outline;
use std::alloc::{AllocError, Global};

/// A value that a script gives back, of at most 60 levels.
///
/// `Primitive /
/// { type: "array" / "set", ? handle: text, ? internalId: text, ? value: [*RemoteValue] } /
/// { type: "object" / "map", ? handle: text, ? internalId: text, ? value: [*RemotePair] } /
/// { type: "regexp", value: RegExpValue, ? handle: text, ? internalId: text } /
/// { type: "date", value: text, ? handle: text, ? internalId: text } /
/// { type: Opaque, ? handle: text, ? internalId: text }`
///
/// After WebDriver BiDi, "The script.RemoteValue Type".
pub type RemoteValue = Nested<RemotePlain, RemoteList, RemotePairs>;

/// A key and a value of an object or a map: `[RemoteValue / text, RemoteValue]`.
pub type RemotePair = NestedPair<RemotePlain, RemoteList, RemotePairs>;

/// A key of an object or a map: a text, or any other value.
pub type RemoteKey = NestedKey<RemotePlain, RemoteList, RemotePairs>;

/// A remote value that holds no other, or whose values the message leaves out.
///
/// After WebDriver BiDi, "The script.RemoteValue Type".
#[derive(Drop)]
pub enum RemotePlain {
    /// `undefined`, `null`, a text, a number, a truth value or a big integer.
    Primitive(Primitive),
    /// An array or a set without its values.
    List(RemoteList),
    /// An object or a map without its pairs.
    Pairs(RemotePairs),
    /// A regular expression, with its pattern and its flags.
    RegExp(RemoteRegExp),
    /// A date, as a text.
    Date(RemoteDate),
    /// A value of which only the type is told, as a function.
    Opaque(RemoteOpaque),
}

type Alternatives = Either<
    Primitive,
    Either<RemoteList, Either<RemotePairs, Either<RemoteRegExp, Either<RemoteDate, RemoteOpaque>>>>,
>;

impl Shape for RemotePlain {
    ghost use Rattle.bidi_shape.specs.ThroughLaws.{shape_through};
    ghost use Rattle.bidi_shape.specs.declared.choice.Either.TheVariants.{First, Second};
    ghost use Rattle.bidi_values.specs.declared.remote_value.RemotePlain.TheVariants.{Primitive, List, Pairs, RegExp, Date, Opaque};

    ghost shape = { shape_through remote_plain ⟦<Alternatives as Shape>⟧.shape
        (λ v. elim v [
          | Primitive p ↦ First p
          | List l ↦ Second (First l)
          | Pairs p ↦ Second (Second (First p))
          | RegExp r ↦ Second (Second (Second (First r)))
          | Date d ↦ Second (Second (Second (Second (First d))))
          | Opaque o ↦ Second (Second (Second (Second (Second o))))
        ]) refl };

    fn from_tree<S: Parsed>(alloc: Global, tree: &S) -> Result<RemotePlain, ShapeFault> {
        use Either::{First, Second};

        match read_choice(alloc, tree)? {
            First(primitive) => Ok(RemotePlain::Primitive(primitive)),
            Second(First(list)) => Ok(RemotePlain::List(list)),
            Second(Second(First(pairs))) => Ok(RemotePlain::Pairs(pairs)),
            Second(Second(Second(First(reg_exp)))) => Ok(RemotePlain::RegExp(reg_exp)),
            Second(Second(Second(Second(First(date))))) => Ok(RemotePlain::Date(date)),
            Second(Second(Second(Second(Second(opaque))))) => Ok(RemotePlain::Opaque(opaque)),
        }
    }

    fn outline<'a>(&'a self, alloc: Global) -> Result<Outline<'a>, AllocError> {
        match self {
            RemotePlain::Primitive(primitive) => primitive.outline(alloc),
            RemotePlain::List(list) => list.outline(alloc),
            RemotePlain::Pairs(pairs) => pairs.outline(alloc),
            RemotePlain::RegExp(reg_exp) => reg_exp.outline(alloc),
            RemotePlain::Date(date) => date.outline(alloc),
            RemotePlain::Opaque(opaque) => opaque.outline(alloc),
        }
    }
}

impl Nests<RemoteList, RemotePairs> for RemotePlain {
    ghost use Rattle.bidi_shape.specs.Name.{remote_value, remote_pair};

    ghost nesting = { record {
      plain = ⟦<RemotePlain as Shape>⟧.shape;
      list = ⟦<RemoteList as crate::Siblings>⟧.siblings;
      pairs = ⟦<RemotePairs as crate::Siblings>⟧.siblings;
      values = remote_value;
      pair_rule = remote_pair;
      inside = remote_alternatives;
      is_capped = refl;
      is_pair = refl;
      plain_fits = plain_remote;
      list_fits = list_remote;
      pairs_fit = pairs_remote;
      one_of = one_of_remote;
      list_not_plain = λ h t w. remote_list_not_plain h.kind h.handle h.internal_id t;
      pairs_not_plain = λ h t w. remote_pairs_not_plain h.kind h.handle h.internal_id t;
      list_not_pairs = λ h t w. remote_list_not_pairs h.kind h.handle h.internal_id t;
      pairs_not_list = λ h t w. remote_pairs_not_list h.kind h.handle h.internal_id t;
      text_not_plain = text_not_plain;
    } };

    fn into_value(self) -> RemoteValue {
        Nested::Plain(self)
    }

    fn copy(&self, alloc: Global) -> Result<RemotePlain, AllocError> {
        match self {
            RemotePlain::Primitive(primitive) => Ok(RemotePlain::Primitive(primitive.copy()?)),
            RemotePlain::List(list) => Ok(RemotePlain::List(list.copy(alloc)?)),
            RemotePlain::Pairs(pairs) => Ok(RemotePlain::Pairs(pairs.copy(alloc)?)),
            RemotePlain::RegExp(reg_exp) => Ok(RemotePlain::RegExp(reg_exp.copy()?)),
            RemotePlain::Date(date) => Ok(RemotePlain::Date(date.copy()?)),
            RemotePlain::Opaque(opaque) => Ok(RemotePlain::Opaque(opaque.copy(alloc)?)),
        }
    }

    ghost agrees = { record {
      rule = refl;
      tree = λ p. refl;
      well = λ p w. w;
      same = λ p q e. e;
      list = record { rows = refl; parts = λ h. refl; well = λ h w. w; well_there = λ h w. w; same = λ g h e. e };
      pairs = record { rows = refl; parts = λ h. refl; well = λ h w. w; well_there = λ h w. w; same = λ g h e. e };
    } };
}
