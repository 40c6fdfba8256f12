//! Primitive values.
ghost use Rattle.std.specs.Prelude.{refl, ◌≡◌, IfOk, codes};
ghost use Rattle.bidi_shape.specs.ThroughLaws.{shape_through};
ghost use Rattle.bidi_shape.specs.declared.choice.Either.TheVariants.{First, Second};
ghost use Rattle.bidi_values.specs.Number.{special_number_words, number};

use bidi_shape::{
    Bare, Either, Named, Parsed, Shape, ShapeFault, Tag, Typed, outline_of_type, outline_of_typed,
    read_choice,
};
use bidi_tree::{JsInt, Outline};
use std::alloc::{AllocError, Global};

/// A number that JSON has not, or that would lose its sign.
///
/// `"NaN" / "-0" / "Infinity" / "-Infinity"`
///
/// After WebDriver BiDi, "The script.PrimitiveProtocolValue Type".
#[derive(Clone, Copy, Debug, PartialEq, Eq)]
pub enum SpecialNumber {
    /// What is no number, as 0 / 0.
    NaN,
    /// The zero below 0. As a number of JSON, `-0` fits no rule.
    NegativeZero,
    /// Above every number, as 1 / 0.
    Infinity,
    /// Below every number, as -1 / 0.
    NegativeInfinity,
}

impl Named for SpecialNumber {
    ghost words = { special_number_words };

    fn all() -> &'static [SpecialNumber] {
        &[
            SpecialNumber::NaN,
            SpecialNumber::NegativeZero,
            SpecialNumber::Infinity,
            SpecialNumber::NegativeInfinity,
        ]
    }

    fn name(&self) -> &'static str {
        match self {
            SpecialNumber::NaN => "NaN",
            SpecialNumber::NegativeZero => "-0",
            SpecialNumber::Infinity => "Infinity",
            SpecialNumber::NegativeInfinity => "-Infinity",
        }
    }
}

/// The value of a number.
///
/// `js-int / "NaN" / "-0" / "Infinity" / "-Infinity"`
///
/// After WebDriver BiDi, "The script.PrimitiveProtocolValue Type"; that it has no fractions is the profile's.
#[derive(Clone, Copy, Debug, PartialEq, Eq)]
pub enum Number {
    /// A whole number from -(2^53 - 1) to 2^53 - 1, as a number of JSON.
    Whole(JsInt),
    /// One of the four that are written as texts.
    Special(SpecialNumber),
}

impl Shape for Number {
    ghost use Rattle.bidi_values.specs.declared.primitive.Number.TheVariants.{Whole, Special};

    ghost shape = { shape_through number ⟦<Either<JsInt, SpecialNumber> as Shape>⟧.shape
        (λ v. elim v [ Whole n ↦ First n | Special s ↦ Second s ]) refl };

    fn from_tree<S: Parsed>(alloc: Global, tree: &S) -> Result<Number, ShapeFault> {
        match read_choice(alloc, tree)? {
            Either::First(whole) => Ok(Number::Whole(whole)),
            Either::Second(special) => Ok(Number::Special(special)),
        }
    }

    fn outline<'a>(&'a self, alloc: Global) -> Result<Outline<'a>, AllocError> {
        match self {
            Number::Whole(whole) => whole.outline(alloc),
            Number::Special(special) => special.outline(alloc),
        }
    }
}

/// A primitive value.
///
/// `{ type: "undefined" } / { type: "null" } / { type: "string", value: text } /
/// { type: "number", value: js-int / "NaN" / "-0" / "Infinity" / "-Infinity" } /
/// { type: "boolean", value: bool } / { type: "bigint", value: text }`
///
/// After WebDriver BiDi, "The script.PrimitiveProtocolValue Type".
#[derive(Drop)]
pub enum Primitive {
    /// What a script without a value gives.
    Undefined,
    /// `{ type: "null" }`, which is not the `null` of JSON.
    Null,
    /// A text, of any characters.
    String(String),
    /// A whole number, or one of four special ones; no fraction fits.
    Number(Number),
    /// `true` or `false`.
    Boolean(bool),
    /// A whole number of any size, as a text. Its characters are not checked.
    BigInt(String),
}

impl Primitive {
    /// A copy of the value, which shares no memory with it.
    ///
    /// # Errors
    /// No memory: an allocation failed.
    pub fn copy(&self) -> Result<Primitive, AllocError>
        // The copy has the same tree.
        ensures tree { IfOk result (λ v. ⟦<Primitive as Shape>⟧.shape.tree_of v ≡ ⟦<Primitive as Shape>⟧.shape.tree_of self.now) }
        // The copy of a well-formed value is well-formed.
        ensures well { ⟦<Primitive as Shape>⟧.shape.well self.now → IfOk result ⟦<Primitive as Shape>⟧.shape.well }
    {
        match self {
            Primitive::Undefined => Ok(Primitive::Undefined),
            Primitive::Null => Ok(Primitive::Null),
            Primitive::String(text) => Ok(Primitive::String(text.clone()?)),
            Primitive::Number(number) => Ok(Primitive::Number(*number)),
            Primitive::Boolean(boolean) => Ok(Primitive::Boolean(*boolean)),
            Primitive::BigInt(digits) => Ok(Primitive::BigInt(digits.clone()?)),
        }
    }
}

type Alternatives = Either<
    Bare<UndefinedTag>,
    Either<
        Bare<NullTag>,
        Either<
            Typed<StringTag, String>,
            Either<
                Typed<NumberTag, Number>,
                Either<Typed<BooleanTag, bool>, Typed<BigIntTag, String>>,
            >,
        >,
    >,
>;

impl Shape for Primitive {
    ghost use Rattle.bidi_shape.specs.TagLaws.{bare, typed};
    ghost use Rattle.bidi_values.specs.declared.primitive.Primitive.TheVariants.{Undefined, Null, String, Number, Boolean, BigInt};
    ghost use Rattle.bidi_shape.specs.Name.{primitive};
    ghost use Rattle.bidi_shape.specs.Term.{rule as named};

    ghost shape = { shape_through (named primitive) ⟦<Alternatives as Shape>⟧.shape
        (λ v. elim v [
          | Undefined ↦ First bare
          | Null ↦ Second (First bare)
          | String s ↦ Second (Second (First (typed s)))
          | Number n ↦ Second (Second (Second (First (typed n))))
          | Boolean b ↦ Second (Second (Second (Second (First (typed b)))))
          | BigInt s ↦ Second (Second (Second (Second (Second (typed s)))))
        ]) refl };

    fn from_tree<S: Parsed>(alloc: Global, tree: &S) -> Result<Primitive, ShapeFault> {
        use Either::{First, Second};

        match read_choice::<Alternatives, S>(alloc, tree)? {
            First(_) => Ok(Primitive::Undefined),
            Second(First(_)) => Ok(Primitive::Null),
            Second(Second(First(text))) => Ok(Primitive::String(text.value)),
            Second(Second(Second(First(number)))) => Ok(Primitive::Number(number.value)),
            Second(Second(Second(Second(First(boolean))))) => {
                Ok(Primitive::Boolean(boolean.value))
            }
            Second(Second(Second(Second(Second(digits))))) => Ok(Primitive::BigInt(digits.value)),
        }
    }

    fn outline<'a>(&'a self, alloc: Global) -> Result<Outline<'a>, AllocError> {
        match self {
            Primitive::Undefined => outline_of_type(alloc, "undefined"),
            Primitive::Null => outline_of_type(alloc, "null"),
            Primitive::String(text) => outline_of_typed(alloc, "string", text),
            Primitive::Number(number) => outline_of_typed(alloc, "number", number),
            Primitive::Boolean(boolean) => outline_of_typed(alloc, "boolean", boolean),
            Primitive::BigInt(digits) => outline_of_typed(alloc, "bigint", digits),
        }
    }
}

struct UndefinedTag;

impl Tag for UndefinedTag {
    ghost tag = { codes "undefined" };

    fn tag() -> &'static str {
        "undefined"
    }
}

struct NullTag;

impl Tag for NullTag {
    ghost tag = { codes "null" };

    fn tag() -> &'static str {
        "null"
    }
}

struct StringTag;

impl Tag for StringTag {
    ghost tag = { codes "string" };

    fn tag() -> &'static str {
        "string"
    }
}

struct NumberTag;

impl Tag for NumberTag {
    ghost tag = { codes "number" };

    fn tag() -> &'static str {
        "number"
    }
}

struct BooleanTag;

impl Tag for BooleanTag {
    ghost tag = { codes "boolean" };

    fn tag() -> &'static str {
        "boolean"
    }
}

struct BigIntTag;

impl Tag for BigIntTag {
    ghost tag = { codes "bigint" };

    fn tag() -> &'static str {
        "bigint"
    }
}
