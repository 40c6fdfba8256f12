//! Tokens.
//!
//! After RFC 8610, appendix B.
ghost use Rattle.std.specs.Prelude.{◌≡◌};
ghost use Rattle.bidi_cddl.specs.Token.{dots_sign, sign_at, sign_size, single_sign, slash_sign, token_of, token_size};

/// A token of one to three characters that are always the same.
#[derive(Clone, Copy, PartialEq, Eq)]
pub(crate) enum Sign {
    /// `=`
    Equals,
    /// `/=`
    MoreTypes,
    /// `//=`
    MoreGroups,
    /// `/`
    Slash,
    /// `//`
    TwoSlashes,
    /// `=>`
    Arrow,
    /// `..`
    TwoDots,
    /// `...`
    ThreeDots,
    /// `?`
    Question,
    /// `*`
    Star,
    /// `+`
    Plus,
    /// `,`
    Comma,
    /// `:`
    Colon,
    /// `(`
    OpenParenthesis,
    /// `)`
    CloseParenthesis,
    /// `{`
    OpenBrace,
    /// `}`
    CloseBrace,
    /// `[`
    OpenBracket,
    /// `]`
    CloseBracket,
    /// `<`
    OpenAngle,
    /// `>`
    CloseAngle,
    /// `~`
    Tilde,
    /// `&`
    Ampersand,
    /// `#`
    Hash,
    /// `^`
    Caret,
}

/// A token. A string is a part of the text.
#[derive(Clone, Copy)]
pub(crate) enum Token<'t> {
    /// The name of a rule, of a member or of a type of the prelude.
    Name(&'t str),
    /// A number, with its minus.
    Number(&'t str),
    /// A string without its quotation marks, with its escapes.
    Text(&'t str),
    /// A control operator with its dot, as `.ge`.
    Control(&'t str),
    /// A sign.
    Sign(Sign),
}

/// A token and the byte at which it begins.
#[derive(Clone, Copy)]
pub(crate) struct Placed<'t> {
    pub(crate) token: Token<'t>,
    pub(crate) at: usize,
}

impl Sign {
    /// How many bytes it has.
    pub(crate) fn size(self) -> usize
        ensures { result ≡ sign_size self }
    {
        match self {
            Sign::MoreGroups | Sign::ThreeDots => 3,
            Sign::MoreTypes | Sign::TwoSlashes | Sign::Arrow | Sign::TwoDots => 2,
            _ => 1,
        }
    }

    /// The sign at the front of three bytes. Of two signs that begin alike it is the longer one.
    pub(crate) fn of(first: u8, second: u8, third: u8) -> Option<Sign>
        ensures { result ≡ sign_at first second third }
    {
        match first {
            b'/' => Some(Sign::slash(second, third)),
            b'.' => Sign::dots(second, third),
            b'=' if second == b'>' => Some(Sign::Arrow),
            _ => Sign::single(first),
        }
    }

    // The sign that begins with `/`.
    fn slash(second: u8, third: u8) -> Sign
        ensures { result ≡ slash_sign second third }
    {
        if second == b'=' {
            return Sign::MoreTypes;
        }
        if second != b'/' {
            return Sign::Slash;
        }
        if third == b'=' {
            Sign::MoreGroups
        } else {
            Sign::TwoSlashes
        }
    }

    // The sign that begins with `.`.
    fn dots(second: u8, third: u8) -> Option<Sign>
        ensures { result ≡ dots_sign second third }
    {
        if second != b'.' {
            return None;
        }
        if third == b'.' {
            Some(Sign::ThreeDots)
        } else {
            Some(Sign::TwoDots)
        }
    }

    // The sign of one byte.
    fn single(byte: u8) -> Option<Sign>
        ensures { result ≡ single_sign byte }
    {
        match byte {
            b'=' => Some(Sign::Equals),
            b'?' => Some(Sign::Question),
            b'*' => Some(Sign::Star),
            b'+' => Some(Sign::Plus),
            b',' => Some(Sign::Comma),
            b':' => Some(Sign::Colon),
            b'(' => Some(Sign::OpenParenthesis),
            b')' => Some(Sign::CloseParenthesis),
            b'{' => Some(Sign::OpenBrace),
            b'}' => Some(Sign::CloseBrace),
            b'[' => Some(Sign::OpenBracket),
            b']' => Some(Sign::CloseBracket),
            b'<' => Some(Sign::OpenAngle),
            b'>' => Some(Sign::CloseAngle),
            b'~' => Some(Sign::Tilde),
            b'&' => Some(Sign::Ampersand),
            b'#' => Some(Sign::Hash),
            b'^' => Some(Sign::Caret),
            _ => None,
        }
    }
}

impl Token<'_> {
    /// How many bytes it has.
    pub(crate) fn size(&self) -> usize
        ensures { result ≡ token_size (token_of self.now) }
    {
        match self {
            Token::Name(text) | Token::Number(text) | Token::Control(text) => text.len(),
            Token::Text(text) => text.len() + 2,
            Token::Sign(sign) => sign.size(),
        }
    }
}
