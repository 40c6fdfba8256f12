//! The extensions of a chunk: RFC 9112, 7.1.1.
ghost use Rattle.std.specs.Prelude.{◌≡◌, ◌++◌, ◌↔◌, IsTrue};
ghost use Rattle.httparse.specs.Grammar.{ChunkLine, IsChunkLine};
ghost use Rattle.bidi_requests.specs.Extensions.{AreExtensions, behind_size, ends_well, may_end, place_behind, sign_of};

use httparse::{is_header_name_token, is_header_value_token, is_space_or_tab};

/// What a byte can be in an extension.
#[derive(Clone, Copy, PartialEq, Eq)]
pub(crate) enum Sign {
    /// A byte of a token.
    Token,
    /// A space or a tab.
    Blank,
    /// `;`.
    Semicolon,
    /// `=`.
    Equals,
    /// `"`.
    Quote,
    /// A backslash.
    Backslash,
    /// Any other byte that a quoted string may have.
    Other,
    /// A control byte other than a tab.
    Control,
}

/// A place in the line of a chunk.
#[derive(Clone, Copy, PartialEq, Eq)]
pub(crate) enum Place {
    /// In the size, or in a value that is a token.
    Word,
    /// After the end of a quoted string.
    End,
    /// In the white space in front of a semicolon.
    BeforeSemicolon,
    /// In front of a name.
    BeforeName,
    /// In a name.
    Name,
    /// In the white space after a name.
    AfterName,
    /// In front of a value.
    BeforeValue,
    /// In a quoted string.
    Quoted,
    /// After a backslash in a quoted string.
    Escaped,
    /// After a byte that may not be there.
    Wrong,
}

/// Whether the line of a chunk has extensions as the standard has them behind its size. The line has no line end.
pub(crate) fn is_extended(line: &[u8]) -> bool
    ensures { (l : ChunkLine) → IsChunkLine l → line.now ≡ l.digits ++ behind_size l → IsTrue result ↔ AreExtensions (behind_size l) }
{
    let mut place = Place::Word;
    for byte in line {
        place = place_behind(place, sign_of(*byte));
    }
    may_end(place)
}

// What a byte can be in an extension.
fn sign_of(byte: u8) -> Sign
    ensures { result ≡ sign_of byte }
{
    if is_header_name_token(byte) {
        Sign::Token
    } else if is_space_or_tab(byte) {
        Sign::Blank
    } else if byte == b';' {
        Sign::Semicolon
    } else if byte == b'=' {
        Sign::Equals
    } else if byte == b'"' {
        Sign::Quote
    } else if byte == b'\\' {
        Sign::Backslash
    } else if is_header_value_token(byte) {
        Sign::Other
    } else {
        Sign::Control
    }
}

// The place behind a byte.
fn place_behind(place: Place, sign: Sign) -> Place
    ensures { result ≡ place_behind place sign }
{
    match (place, sign) {
        (Place::Word | Place::End | Place::BeforeSemicolon, Sign::Semicolon)
        | (Place::Name | Place::AfterName, Sign::Semicolon)
        | (Place::BeforeName, Sign::Blank) => Place::BeforeName,
        (Place::Word | Place::End | Place::BeforeSemicolon, Sign::Blank) => Place::BeforeSemicolon,
        (Place::BeforeName | Place::Name, Sign::Token) => Place::Name,
        (Place::Name | Place::AfterName, Sign::Blank) => Place::AfterName,
        (Place::Name | Place::AfterName, Sign::Equals) | (Place::BeforeValue, Sign::Blank) => {
            Place::BeforeValue
        }
        (Place::Word | Place::BeforeValue, Sign::Token) => Place::Word,
        (Place::BeforeValue, Sign::Quote) => Place::Quoted,
        (Place::Quoted | Place::Escaped, Sign::Control) => Place::Wrong,
        (Place::Quoted, Sign::Quote) => Place::End,
        (Place::Quoted, Sign::Backslash) => Place::Escaped,
        (Place::Quoted | Place::Escaped, _) => Place::Quoted,
        _ => Place::Wrong,
    }
}

// Whether a line may end at a place.
fn may_end(place: Place) -> bool
    ensures { result ≡ may_end place }
{
    matches!(place, Place::Word | Place::End | Place::Name)
}
