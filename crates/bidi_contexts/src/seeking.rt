//! Looking for the context of a number.
ghost use Rattle.std.specs.Prelude.{◌≡◌, ◌≤◌, ◌+◌, ◌-◌, ◌==◌, find, length, option_map};
ghost use Rattle.std.specs.List.{position, position_or_len};

use crate::context::Context;

/// The contexts without some that stand in front and have another number. Looks at four at once.
pub(crate) fn skip_others(contexts: &[Context], number: u64) -> &[Context]
    ensures found { find (λ c. c.number == number) result.now ≡ find (λ c. c.number == number) contexts.now }
    ensures place { position_or_len (λ c. c.number == number) contexts.now
        ≡ length contexts.now - length result.now + position_or_len (λ c. c.number == number) result.now }
    ensures within { length result.now ≤ length contexts.now }
{
    let mut left = contexts;
    while let [a, b, c, d, behind @ ..] = left {
        if a.number == number || b.number == number || c.number == number || d.number == number {
            break;
        }
        left = behind;
    }
    left
}

/// The context of this number.
pub(crate) fn numbered(contexts: &[Context], number: u64) -> Option<&Context>
    ensures { option_map (λ c. c.now) result ≡ find (λ c. c.number == number) contexts.now }
{
    contexts.iter().find(|context| context.number == number)
}

/// The place of the context of this number.
pub(crate) fn place_of(contexts: &[Context], number: u64) -> Option<usize>
    ensures { result ≡ position (λ c. c.number == number) contexts.now }
{
    let left = skip_others(contexts, number);
    let place = place_in(left, number)?;
    Some(contexts.len() - left.len() + place)
}

// The same, one after the other.
fn place_in(contexts: &[Context], number: u64) -> Option<usize>
    ensures { result ≡ position (λ c. c.number == number) contexts.now }
{
    contexts.iter().position(|context| context.number == number)
}
