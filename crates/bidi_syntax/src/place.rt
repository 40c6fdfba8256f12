//! Places in a JSON text, between two of its bytes.

/// What may be open around a place.
#[derive(Clone, Copy, Debug, PartialEq, Eq)]
pub enum Container {
    /// An array, after its `[`.
    Array,
    /// An object, after its `{`.
    Object,
}

/// Where blanks may stand.
#[derive(Clone, Copy, Debug, PartialEq, Eq)]
pub enum Place {
    /// Before a value.
    Value,
    /// After the `[` of an array.
    FirstValue,
    /// After the `{` of an object.
    FirstName,
    /// After a comma in an object.
    Name,
    /// After the name of a member.
    Colon,
    /// After a value.
    Next,
}

/// A place in a string, after its first quotation mark.
#[derive(Clone, Copy, Debug, PartialEq, Eq)]
pub enum StringPart {
    /// Before a character or the last quotation mark.
    Plain,
    /// After a backslash.
    Escape,
    /// After `\u`, before four digits.
    FourDigits,
    /// Before three more digits of an escape.
    ThreeDigits,
    /// Before two more.
    TwoDigits,
    /// Before one more.
    OneDigit,
    /// After the last quotation mark.
    Closed,
}

/// A place in `true`, `false` or `null`, by the letters before it.
#[derive(Clone, Copy, Debug, PartialEq, Eq)]
pub enum WordPart {
    /// After `t`.
    T,
    /// After `tr`.
    Tr,
    /// After `tru`.
    Tru,
    /// After `f`.
    F,
    /// After `fa`.
    Fa,
    /// After `fal`.
    Fal,
    /// After `fals`.
    Fals,
    /// After `n`.
    N,
    /// After `nu`.
    Nu,
    /// After `nul`.
    Nul,
}

/// A place in a number, by what is before it.
#[derive(Clone, Copy, Debug, PartialEq, Eq)]
pub enum NumberPart {
    /// The minus sign.
    Minus,
    /// A zero, which no digit follows.
    Zero,
    /// A digit before the point.
    Whole,
    /// The point.
    Point,
    /// A digit after the point.
    Fraction,
    /// The letter `e`.
    Exponent,
    /// The sign of the exponent.
    Sign,
    /// A digit of the exponent.
    Power,
}

/// A place in a text.
#[derive(Clone, Copy, Debug, PartialEq, Eq)]
pub enum State {
    /// A place where blanks may stand.
    At(Place),
    /// In the name of a member.
    InName(StringPart),
    /// In a string that is a value.
    InText(StringPart),
    /// In `true`, `false` or `null`.
    InWord(WordPart),
    /// In a number.
    InNumber(NumberPart),
}
