//! Whole numbers of a grammar.
ghost use Rattle.std.specs.Prelude.{◌≡◌, ◌≤ℤ◌, negsuc, IfSome};
ghost use Rattle.bidi_grammar.specs.Number.{behind_sign, is_negative, whole_in};
ghost use Rattle.fast_float.specs.Text.{with_sign};

use fast_float::Numeral;

/// The whole number that a text writes, if it has at most 64 bits.
pub(crate) fn whole_in(text: &str) -> Option<i128>
    // It is that number.
    ensures value { result ≡ whole_in text.now }
    // It is not so small that it could not be smaller by one.
    ensures low { IfSome result (λ z. negsuc 18446744073709551615 ≤ℤ z) }
{
    let value = Numeral::scan(behind_sign(text)).to_u64()?;
    Some(signed(is_negative(text), value))
}

/// Whether a number is written without a point and an exponent.
pub(crate) fn has_digits_alone(text: &str) -> bool {
    behind_sign(text).iter().all(|byte| byte.is_ascii_digit())
}

// A number with a sign.
fn signed(negative: bool, value: u64) -> i128
    ensures value { result ≡ with_sign negative value }
    ensures low { negsuc 18446744073709551615 ≤ℤ result }
{
    let value = i128::from(value);
    if negative { -value } else { value }
}

// Whether a number is written with a minus sign.
fn is_negative(text: &str) -> bool
    ensures { result ≡ is_negative text.now }
{
    match text.as_bytes().first() {
        Some(first) => *first == b'-',
        None => false,
    }
}

// The bytes of a number without its minus sign.
fn behind_sign(text: &str) -> &[u8]
    ensures { result.now ≡ behind_sign text.now }
{
    match text.as_bytes().split_first() {
        Some((first, digits)) if *first == b'-' => digits,
        _ => text.as_bytes(),
    }
}
