//! Numbers in a JSON text.
ghost use Rattle.std.specs.Prelude.{◌≡◌, ◌∷◌, ◌==◌, MatchOption, false, slice_index};
ghost use Rattle.bidi_syntax.specs.Numbers.{begins_number, is_large, is_large_from, is_number_byte, large_number, next_mode};

use crate::bytes::{is_digit, is_e, is_sign};
use fast_float::Numeral;

/// What a byte of a JSON text comes after.
#[derive(Clone, Copy)]
pub(crate) enum Mode {
    /// Neither a number nor a string.
    Between,
    /// A byte of a number.
    Number,
    /// A byte of a string.
    Text,
    /// A backslash in a string.
    Backslash,
}

/// The place where the first number that is too large for a float begins, counted from 1. Takes no memory.
#[tactic(auto, using(crate::proofs::StepLemmas::large_from_next))]
pub(crate) fn large_number(text: &[u8]) -> Option<usize>
    ensures { result ≡ large_number text.now }
{
    let mut mode = Mode::Between;
    for place in 0..text.len() {
        let (_, rest) = text.split_at(place);
        if begins_number(mode, text[place]) && is_large(rest) {
            return Some(place + 1);
        }
        mode = next_mode(mode, text[place]);
    }
    None
}

// Whether a number begins with this byte.
fn begins_number(mode: Mode, byte: u8) -> bool
    ensures { result ≡ begins_number mode byte }
{
    match mode {
        Mode::Between => is_digit(byte) || byte == b'-',
        Mode::Number | Mode::Text | Mode::Backslash => false,
    }
}

// What comes after this byte.
fn next_mode(mode: Mode, byte: u8) -> Mode
    ensures { result ≡ next_mode mode byte }
{
    match mode {
        Mode::Between if byte == b'"' => Mode::Text,
        Mode::Between if begins_number(mode, byte) => Mode::Number,
        Mode::Between => Mode::Between,
        Mode::Number if is_number_byte(byte) => Mode::Number,
        Mode::Number => Mode::Between,
        Mode::Text if byte == b'"' => Mode::Between,
        Mode::Text if byte == b'\\' => Mode::Backslash,
        Mode::Text => Mode::Text,
        Mode::Backslash => Mode::Text,
    }
}

// Whether the byte can be in a number.
fn is_number_byte(byte: u8) -> bool
    ensures { result ≡ is_number_byte byte }
{
    is_digit(byte) || is_sign(byte) || is_e(byte) || byte == b'.'
}

// Whether the number at the front of the bytes is too large for a float.
fn is_large(bytes: &[u8]) -> bool
    ensures { result ≡ is_large bytes.now }
{
    match behind_minus(bytes) {
        Some(digits) => is_large_from(true, digits),
        None => is_large_from(false, bytes),
    }
}

// The bytes behind a minus sign, if they begin with one.
fn behind_minus(bytes: &[u8]) -> Option<&[u8]>
    ensures { MatchOption result ((slice_index bytes.now 0 == 45) ≡ false) (λ digits. bytes.now ≡ 45 ∷ digits.now) }
{
    match bytes.split_first() {
        Some((first, digits)) if *first == b'-' => Some(digits),
        _ => None,
    }
}

// The same of the digits after the sign.
fn is_large_from(is_negative: bool, digits: &[u8]) -> bool
    ensures { result ≡ is_large_from is_negative digits.now }
{
    !Numeral::scan(digits)
        .to_float::<f64>(is_negative)
        .is_finite()
}
