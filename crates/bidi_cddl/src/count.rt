//! Numbers of items.
ghost use Rattle.std.specs.Prelude.{⊤, ◌≡◌, MatchOption, Some};
ghost use Rattle.bidi_cddl.specs.Reads.{number_value};

use crate::bytes::is_digit;

/// The number that some digits write. It is `None` for other text, and for a number past `usize`.
pub(crate) fn count_of(number: &str) -> Option<usize>
    ensures { MatchOption result ⊤ (λ n. number_value number.now ≡ Some n) }
{
    let mut value: usize = 0;
    let bytes = number.as_bytes();
    for byte in bytes {
        if !is_digit(*byte) {
            return None;
        }
        value = value
            .checked_mul(10)?
            .checked_add(usize::from(*byte - b'0'))?;
    }
    Some(value)
}
