//! What may stand at a place.
ghost use Rattle.std.specs.Prelude.{◌≡◌};
ghost use Rattle.bidi_syntax.specs.Words.{wants_words};

/// What may stand at a place, apart from blanks and from more digits of a number that may end there.
#[derive(Clone, Copy, Debug, PartialEq, Eq)]
pub enum Wants {
    Value,
    /// A value, or the end of an array.
    ValueOrEnd,
    /// A member, or the end of an object.
    NameOrEnd,
    Name,
    Colon,
    /// A comma, or the end of an array.
    CommaOrArrayEnd,
    /// A comma, or the end of an object.
    CommaOrObjectEnd,
    /// The end of the text.
    End,
    StringRest,
    EscapeRest,
    HexDigit,
    TrueRest,
    FalseRest,
    NullRest,
    Digit,
}

impl Wants {
    /// What may stand there, in words. Takes no memory.
    pub fn words(self) -> &'static str
        // The words are those of the table.
        ensures { result.now ≡ wants_words self }
    {
        match self {
            Wants::Value => "a value",
            Wants::ValueOrEnd => "a value or \"]\"",
            Wants::NameOrEnd => "a name or \"}\"",
            Wants::Name => "a name",
            Wants::Colon => "\":\"",
            Wants::CommaOrArrayEnd => "\",\" or \"]\"",
            Wants::CommaOrObjectEnd => "\",\" or \"}\"",
            Wants::End => "the end",
            Wants::StringRest => "the rest of a string",
            Wants::EscapeRest => "the rest of an escape",
            Wants::HexDigit => "a hexadecimal digit",
            Wants::TrueRest => "the rest of true",
            Wants::FalseRest => "the rest of false",
            Wants::NullRest => "the rest of null",
            Wants::Digit => "a digit",
        }
    }
}
