//! Values that a client sends to a script.
ghost use Rattle.std.specs.Prelude.{refl, codes};
ghost use Rattle.bidi_values.specs.LocalValue.{local_plain, local_alternatives, plain_local, list_local, pairs_local, one_of_local, local_list_not_plain, local_pairs_not_plain, local_list_not_pairs, local_pairs_not_list, text_not_plain};

use crate::kinds::{ListKind, PairsKind};
use crate::nested::{Nested, NestedKey, NestedPair, Nests};
use crate::primitive::Primitive;
use crate::reference::Reference;
use crate::reg_exp::RegExpValue;
use bidi_shape::{
    Either, Parsed, Shape, ShapeFault, Tag, Typed, copied, outline_of_typed, read_choice,
};
use bidi_tree::Outline;
use std::alloc::{AllocError, Global};

/// A value that a client sends to a script, of at most 60 levels.
///
/// `Reference / Primitive / { type: "array", value: [*LocalValue] } / { type: "date", value: text } /
/// { type: "map", value: [*LocalPair] } / { type: "object", value: [*LocalPair] } /
/// { type: "regexp", value: RegExpValue } / { type: "set", value: [*LocalValue] }`
///
/// After WebDriver BiDi, "The script.LocalValue Type".
pub type LocalValue = Nested<LocalPlain, ListKind, PairsKind>;

/// A key and a value of an object or a map: `[LocalValue / text, LocalValue]`.
pub type LocalPair = NestedPair<LocalPlain, ListKind, PairsKind>;

/// A key of an object or a map: a text, or any other value.
pub type LocalKey = NestedKey<LocalPlain, ListKind, PairsKind>;

/// A local value that holds no other.
///
/// After WebDriver BiDi, "The script.LocalValue Type".
#[derive(Drop)]
pub enum LocalPlain {
    /// A value that the remote end holds already.
    Reference(Reference),
    /// `undefined`, `null`, a text, a number, a truth value or a big integer.
    Primitive(Primitive),
    /// A date, as a text, which is not read as one.
    Date(String),
    /// A regular expression, with its pattern and its flags.
    RegExp(RegExpValue),
}

type Alternatives = Either<
    Reference,
    Either<Primitive, Either<Typed<DateTag, String>, Typed<RegExpTag, RegExpValue>>>,
>;

impl Shape for LocalPlain {
    ghost use Rattle.bidi_shape.specs.TagLaws.{typed};
    ghost use Rattle.bidi_shape.specs.ThroughLaws.{shape_through};
    ghost use Rattle.bidi_shape.specs.declared.choice.Either.TheVariants.{First, Second};
    ghost use Rattle.bidi_values.specs.declared.local_value.LocalPlain.TheVariants.{Reference, Primitive, Date, RegExp};

    ghost shape = { shape_through local_plain ⟦<Alternatives as Shape>⟧.shape
        (λ v. elim v [
          | Reference r ↦ First r
          | Primitive p ↦ Second (First p)
          | Date d ↦ Second (Second (First (typed d)))
          | RegExp r ↦ Second (Second (Second (typed r)))
        ]) refl };

    fn from_tree<S: Parsed>(alloc: Global, tree: &S) -> Result<LocalPlain, ShapeFault> {
        use Either::{First, Second};

        match read_choice::<Alternatives, S>(alloc, tree)? {
            First(reference) => Ok(LocalPlain::Reference(reference)),
            Second(First(primitive)) => Ok(LocalPlain::Primitive(primitive)),
            Second(Second(First(date))) => Ok(LocalPlain::Date(date.value)),
            Second(Second(Second(reg_exp))) => Ok(LocalPlain::RegExp(reg_exp.value)),
        }
    }

    fn outline<'a>(&'a self, alloc: Global) -> Result<Outline<'a>, AllocError> {
        match self {
            LocalPlain::Reference(reference) => reference.outline(alloc),
            LocalPlain::Primitive(primitive) => primitive.outline(alloc),
            LocalPlain::Date(date) => outline_of_typed(alloc, "date", date),
            LocalPlain::RegExp(reg_exp) => outline_of_typed(alloc, "regexp", reg_exp),
        }
    }
}

impl Nests<ListKind, PairsKind> for LocalPlain {
    ghost use Rattle.bidi_shape.specs.Name.{local_value, local_pair};

    ghost nesting = { record {
      plain = ⟦<LocalPlain as Shape>⟧.shape;
      list = ⟦<ListKind as crate::Siblings>⟧.siblings;
      pairs = ⟦<PairsKind as crate::Siblings>⟧.siblings;
      values = local_value;
      pair_rule = local_pair;
      inside = local_alternatives;
      is_capped = refl;
      is_pair = refl;
      plain_fits = plain_local;
      list_fits = list_local;
      pairs_fit = pairs_local;
      one_of = one_of_local;
      list_not_plain = λ h t w. local_list_not_plain h t;
      pairs_not_plain = λ h t w. local_pairs_not_plain h t;
      list_not_pairs = λ h t w. local_list_not_pairs h t;
      pairs_not_list = λ h t w. local_pairs_not_list h t;
      text_not_plain = text_not_plain;
    } };

    fn into_value(self) -> LocalValue {
        Nested::Plain(self)
    }

    fn copy(&self, alloc: Global) -> Result<LocalPlain, AllocError> {
        copied(alloc, self)
    }

    ghost agrees = { record {
      rule = refl;
      tree = λ p. refl;
      well = λ p w. w;
      same = λ p q e. e;
      list = record { rows = refl; parts = λ h. refl; well = λ h w. w; well_there = λ h w. w; same = λ g h e. e };
      pairs = record { rows = refl; parts = λ h. refl; well = λ h w. w; well_there = λ h w. w; same = λ g h e. e };
    } };
}

struct DateTag;

impl Tag for DateTag {
    ghost tag = { codes "date" };

    fn tag() -> &'static str {
        "date"
    }
}

struct RegExpTag;

impl Tag for RegExpTag {
    ghost tag = { codes "regexp" };

    fn tag() -> &'static str {
        "regexp"
    }
}
