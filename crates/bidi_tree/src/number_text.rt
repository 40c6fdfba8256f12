//! From the text of a number to its tree.
ghost use Rattle.std.specs.Prelude.{◌≡◌, ◌∷◌, ◌==◌, ◌<◌, ◌^◌, IfSome, length, MatchOption, pos, true, false, option_map, slice_index};
ghost use Rattle.std.specs.Str.Parse.{AllDigits, digits_value};
ghost use Rattle.serde_json.specs.Read.{number_of, number_from, float_of};
ghost use Rattle.bidi_tree.specs.Kind.{whole_in};
ghost use Rattle.bidi_tree.specs.Json.{number_in};
ghost use Rattle.bidi_tree.specs.Text.{integer_node, number_node};
ghost use Rattle.bidi_tree.specs.View.{node};

use crate::number::JsInt;
use crate::tree::Tree;
use fast_float::Numeral;

/// The whole number of a JSON number's text. Takes no memory.
pub fn whole_number(text: &str) -> Option<JsInt>
    // The result is the number that the text writes, or `None` if that is not a whole number in
    // range.
    ensures { option_map (λ n. n.value) result ≡ whole_in (number_in (number_of text.now)) }
{
    match number_tree(text) {
        Some(Tree::Int(whole)) => Some(whole),
        _ => None,
    }
}

/// The tree of a number's text, unless the number is too large for a float.
pub(crate) fn number_tree(text: &str) -> Option<Tree>
    ensures { option_map node result ≡ option_map number_node (number_of text.now) }
{
    match digits_alone(text.as_bytes()) {
        Some(value) => Some(unsigned_tree(value)),
        None => any_number(text),
    }
}

/// The number that these bytes write, if all are digits and it is below 2^64. Most numbers are such.
fn digits_alone(bytes: &[u8]) -> Option<u64>
    ensures digits { IfSome result (λ n. (0 < length bytes.now) × AllDigits 10 bytes.now × (digits_value 10 bytes.now ≡ n)) }
    ensures fits { IfSome result (λ n. n < 2 ^ 64) }
{
    if bytes.is_empty() {
        return None;
    }
    let mut value: u64 = 0;
    for byte in bytes {
        let digit = char::from(*byte).to_digit(10)?;
        value = value.checked_mul(10)?.checked_add(u64::from(digit))?;
    }
    Some(value)
}

/// The tree of a number's text, which may have a sign, a fraction or an exponent.
fn any_number(text: &str) -> Option<Tree>
    ensures { option_map node result ≡ option_map number_node (number_of text.now) }
{
    match behind_minus(text) {
        Some(digits) => negative(&Numeral::scan(digits)),
        None => unsigned(&Numeral::scan(text.as_bytes())),
    }
}

/// The bytes after a minus sign, if the text begins with one.
fn behind_minus(text: &str) -> Option<&[u8]>
    ensures { MatchOption result ((slice_index text.now 0 == 45) ≡ false) (λ digits. text.now ≡ 45 ∷ digits.now) }
{
    match text.as_bytes().split_first() {
        Some((first, digits)) if *first == b'-' => Some(digits),
        _ => None,
    }
}

fn unsigned(numeral: &Numeral<'_>) -> Option<Tree>
    ensures { option_map node result ≡ option_map number_node (number_from false numeral.now) }
{
    match numeral.to_u64() {
        Some(value) => Some(unsigned_tree(value)),
        None => odd_tree(false, numeral),
    }
}

fn negative(numeral: &Numeral<'_>) -> Option<Tree>
    ensures { option_map node result ≡ option_map number_node (number_from true numeral.now) }
{
    if let Some(value) = numeral.to_i64(true) {
        if value < 0 {
            return Some(signed_tree(value));
        }
    }
    odd_tree(true, numeral)
}

fn odd_tree(negative: bool, numeral: &Numeral<'_>) -> Option<Tree>
    ensures { option_map node result ≡ option_map number_node (float_of negative numeral.now) }
{
    if numeral.to_float::<f64>(negative).is_finite() {
        Some(Tree::Odd)
    } else {
        None
    }
}

fn unsigned_tree(value: u64) -> Tree
    ensures { node result ≡ integer_node (pos value) }
{
    match i64::try_from(value) {
        Ok(value) => signed_tree(value),
        Err(_) => Tree::Odd,
    }
}

fn signed_tree(value: i64) -> Tree
    ensures { node result ≡ integer_node value }
{
    match JsInt::new(value) {
        Some(whole) => Tree::Int(whole),
        None => Tree::Odd,
    }
}
