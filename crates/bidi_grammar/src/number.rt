//! The value of a JSON number, by its text.
ghost use Rattle.std.specs.Prelude.{◌≡◌, ℤ};
ghost use Rattle.bidi_grammar.specs.Number.{behind_sign, double, is_negative, is_whole_from, whole_in};
ghost use Rattle.bidi_grammar.specs.Term.{is_above, is_below, is_between};
ghost use Rattle.bidi_grammar.specs.View.{bound_of};
ghost use Rattle.fast_float.specs.Text.{with_sign};

use crate::term::Bound;
use fast_float::Numeral;

// Whether a number is a whole one of this range.
pub(crate) fn is_whole_from(text: &str, least: &i128, most: &i128) -> bool
    ensures { result ≡ is_whole_from least.now most.now text.now }
{
    match whole_in(text) {
        Some(whole) => *least <= whole && whole <= *most,
        None => false,
    }
}

// Whether a number is between two bounds.
pub(crate) fn is_between(text: &str, least: &Bound, most: &Bound) -> bool
    ensures { result ≡ is_between (bound_of least.now) (bound_of most.now) text.now }
{
    is_above(text, least) && is_below(text, most)
}

// Whether a number is not below a bound.
fn is_above(text: &str, least: &Bound) -> bool
    ensures { result ≡ is_above (bound_of least.now) text.now }
{
    match least {
        Bound::Unbounded => true,
        Bound::Including(bound) => double(bound) <= double(text),
        Bound::Excluding(bound) => double(bound) < double(text),
    }
}

// Whether a number is not above a bound.
fn is_below(text: &str, most: &Bound) -> bool
    ensures { result ≡ is_below (bound_of most.now) text.now }
{
    match most {
        Bound::Unbounded => true,
        Bound::Including(bound) => double(text) <= double(bound),
        Bound::Excluding(bound) => double(text) < double(bound),
    }
}

// The double nearest to a number.
fn double(text: &str) -> f64
    ensures { result ≡ double text.now }
{
    Numeral::scan(behind_sign(text)).to_float::<f64>(is_negative(text))
}

// The whole number that a text writes.
fn whole_in(text: &str) -> Option<i128>
    ensures { result ≡ whole_in text.now }
{
    let value = Numeral::scan(behind_sign(text)).to_u64()?;
    Some(signed(is_negative(text), value))
}

// A number with a sign.
fn signed(negative: bool, value: u64) -> i128
    ensures { result ≡ with_sign negative value }
{
    let value = i128::from(value);
    if negative { -value } else { value }
}

// Whether a number is written with a minus sign.
fn is_negative(text: &str) -> bool
    ensures { result ≡ is_negative text.now }
{
    match text.as_bytes().first() {
        Some(first) => *first == b'-',
        None => false,
    }
}

// The bytes of a number without its minus sign.
fn behind_sign(text: &str) -> &[u8]
    ensures { result.now ≡ behind_sign text.now }
{
    match text.as_bytes().split_first() {
        Some((first, digits)) if *first == b'-' => digits,
        _ => text.as_bytes(),
    }
}
