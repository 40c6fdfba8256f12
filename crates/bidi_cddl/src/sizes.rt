//! How many bytes belong to what begins at the front of a text.
ghost use Rattle.std.specs.Prelude.{⊤, ◌≡◌, ◌+◌, ◌<◌, ◌≤◌, ℕ, MatchOption, drop, length, slice_index};
ghost use Rattle.bidi_cddl.specs.Sizes.{decimal_size, digits, exponent_size, fraction_size, gap_size, line_size, minus_size, name_size, number_size, string_size, whole_size};

use crate::bytes::{byte_at, is_blank, is_control, is_digit, is_e, is_name_part, is_plus_or_minus};

/// How many bytes of blanks or of a comment are at the front.
pub(crate) fn gap_size(bytes: &[u8]) -> usize
    ensures { result ≡ gap_size bytes.now }
{
    let first = byte_at(bytes, 0);
    if is_blank(first) {
        return 1;
    }
    if first == b';' {
        return line_size(bytes);
    }
    0
}

// How many bytes are before the end of the line.
fn line_size(bytes: &[u8]) -> usize
    ensures { result ≡ line_size bytes.now }
{
    for (i, byte) in bytes.iter().enumerate() {
        if *byte == b'\n' {
            return i;
        }
    }
    bytes.len()
}

// How many digits are at the front.
fn digits(bytes: &[u8]) -> usize
    ensures size { result ≡ digits bytes.now }
    ensures within { result ≤ length bytes.now }
    ensures ascii { (k : ℕ) → k < result → slice_index bytes.now k < 128 }
{
    for (i, byte) in bytes.iter().enumerate() {
        if !is_digit(*byte) {
            return i;
        }
    }
    bytes.len()
}

// How many bytes are at the front, if so many of them are ASCII and digits follow these.
fn digits_after(bytes: &[u8], count: usize) -> usize
    requires within { count ≤ length bytes.now }
    requires ascii { (k : ℕ) → k < count → slice_index bytes.now k < 128 }
    ensures size { result ≡ count + digits (drop count bytes.now) }
    ensures within { result ≤ length bytes.now }
    ensures ascii { (k : ℕ) → k < result → slice_index bytes.now k < 128 }
{
    let (_, rest) = bytes.split_at(count);
    count + digits(rest)
}

// The size of a fraction, or 0 without one.
fn fraction_size(bytes: &[u8]) -> usize
    ensures size { result ≡ fraction_size bytes.now }
    ensures within { result ≤ length bytes.now }
    ensures ascii { (k : ℕ) → k < result → slice_index bytes.now k < 128 }
{
    if byte_at(bytes, 0) == b'.' && is_digit(byte_at(bytes, 1)) {
        return digits_after(bytes, 1);
    }
    0
}

// The size of an exponent, or 0 without one.
fn exponent_size(bytes: &[u8]) -> usize
    ensures size { result ≡ exponent_size bytes.now }
    ensures within { result ≤ length bytes.now }
    ensures ascii { (k : ℕ) → k < result → slice_index bytes.now k < 128 }
{
    if is_e(byte_at(bytes, 0)) && is_digit(byte_at(bytes, 1)) {
        return digits_after(bytes, 1);
    }
    if is_e(byte_at(bytes, 0))
        && is_plus_or_minus(byte_at(bytes, 1))
        && is_digit(byte_at(bytes, 2))
    {
        return digits_after(bytes, 2);
    }
    0
}

// The size of the minus and the digits of a number.
fn whole_size(bytes: &[u8]) -> usize
    ensures size { result ≡ whole_size bytes.now }
    ensures within { result ≤ length bytes.now }
    ensures ascii { (k : ℕ) → k < result → slice_index bytes.now k < 128 }
{
    if byte_at(bytes, 0) == b'-' {
        digits_after(bytes, 1)
    } else {
        digits_after(bytes, 0)
    }
}

// The size of a number without its exponent.
fn decimal_size(bytes: &[u8]) -> usize
    ensures size { result ≡ decimal_size bytes.now }
    ensures within { result ≤ length bytes.now }
    ensures ascii { (k : ℕ) → k < result → slice_index bytes.now k < 128 }
{
    let whole = whole_size(bytes);
    let (_, rest) = bytes.split_at(whole);
    whole + fraction_size(rest)
}

/// The size of a number.
pub(crate) fn number_size(bytes: &[u8]) -> usize
    ensures size { result ≡ number_size bytes.now }
    ensures within { result ≤ length bytes.now }
    ensures ascii { (k : ℕ) → k < result → slice_index bytes.now k < 128 }
{
    let decimal = decimal_size(bytes);
    let (_, rest) = bytes.split_at(decimal);
    decimal + exponent_size(rest)
}

/// The size of a name.
pub(crate) fn name_size(bytes: &[u8]) -> usize
    ensures size { result ≡ name_size bytes.now }
    ensures within { result ≤ length bytes.now }
    ensures ascii { 0 < result → (k : ℕ) → k + 1 ≡ result → slice_index bytes.now k < 128 }
{
    let mut size = 0;
    let mut dot = false;
    for (i, byte) in bytes.iter().enumerate() {
        if is_name_part(*byte) {
            size = i + 1;
            dot = false;
        } else if *byte == b'-' {
            dot = false;
        } else if *byte == b'.' && !dot {
            dot = true;
        } else {
            return size;
        }
    }
    size
}

/// How many bytes are before the last quotation mark of a string.
pub(crate) fn string_size(bytes: &[u8]) -> Option<usize>
    ensures size { result ≡ string_size bytes.now }
    ensures last { MatchOption result ⊤ (λ n. (n < length bytes.now) × (slice_index bytes.now n ≡ 34)) }
{
    let mut escaped = false;
    for (i, byte) in bytes.iter().enumerate() {
        if is_control(*byte) {
            return None;
        }
        if *byte == b'"' && !escaped {
            return Some(i);
        }
        escaped = *byte == b'\\' && !escaped;
    }
    None
}
