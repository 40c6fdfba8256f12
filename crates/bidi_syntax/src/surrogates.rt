//! Escapes of surrogates in a JSON text.
ghost use Rattle.std.specs.Prelude.{◌≡◌, ◌≤◌};
ghost use Rattle.bidi_syntax.specs.Surrogates.{is_d, is_high, is_high_digit, is_lone, is_low, is_low_digit, is_surrogate, lone_surrogate, rest_of_character};

use crate::bytes::byte_at;

/// The place of the first surrogate that is escaped without its other half, counted from 1. Takes no memory.
#[tactic(auto, using(crate::proofs::StepLemmas::lone_from_next))]
pub(crate) fn lone_surrogate(text: &[u8]) -> Option<usize>
    ensures { result ≡ lone_surrogate text.now }
{
    let mut left = 0;
    for place in 0..text.len() {
        let (_, rest) = text.split_at(place);
        if left > 0 {
            left -= 1;
        } else if is_lone(rest) {
            return Some(place + 1);
        } else {
            left = rest_of_character(rest);
        }
    }
    None
}

/// Whether the bytes begin with a surrogate without its other half.
pub(crate) fn is_lone(bytes: &[u8]) -> bool
    ensures { result ≡ is_lone bytes.now }
{
    is_low(bytes, 0) || is_high(bytes, 0) && !is_low(bytes, 6)
}

/// How many bytes of the character at the front follow its first byte.
pub(crate) fn rest_of_character(bytes: &[u8]) -> usize
    ensures { result ≡ rest_of_character bytes.now }
{
    if byte_at(bytes, 0) != b'\\' {
        return 0;
    }
    if byte_at(bytes, 1) != b'u' {
        return 1;
    }
    if is_high(bytes, 0) && is_low(bytes, 6) {
        return 11;
    }
    5
}

// Whether the first half of a surrogate pair is escaped at this place.
fn is_high(bytes: &[u8], place: usize) -> bool
    requires { place ≤ 6 }
    ensures { result ≡ is_high bytes.now place }
{
    is_surrogate(bytes, place) && is_high_digit(byte_at(bytes, place + 3))
}

// Whether the second half of one is.
fn is_low(bytes: &[u8], place: usize) -> bool
    requires { place ≤ 6 }
    ensures { result ≡ is_low bytes.now place }
{
    is_surrogate(bytes, place) && is_low_digit(byte_at(bytes, place + 3))
}

// Whether half of one is, if there is a second digit.
fn is_surrogate(bytes: &[u8], place: usize) -> bool
    requires { place ≤ 6 }
    ensures { result ≡ is_surrogate bytes.now place }
{
    byte_at(bytes, place) == b'\\'
        && byte_at(bytes, place + 1) == b'u'
        && is_d(byte_at(bytes, place + 2))
}

// Whether the byte is the first digit of a surrogate.
fn is_d(byte: u8) -> bool
    ensures { result ≡ is_d byte }
{
    byte == b'd' || byte == b'D'
}

// Whether the byte is the second digit of a first half.
fn is_high_digit(byte: u8) -> bool
    ensures { result ≡ is_high_digit byte }
{
    byte == b'8' || byte == b'9' || byte == b'a' || byte == b'b' || byte == b'A' || byte == b'B'
}

// Whether the byte is the second digit of a second half.
fn is_low_digit(byte: u8) -> bool
    ensures { result ≡ is_low_digit byte }
{
    b'c' <= byte && byte <= b'f' || b'C' <= byte && byte <= b'F'
}
