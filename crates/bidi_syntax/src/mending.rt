//! Texts with U+FFFD instead of surrogates without their other half.
ghost use Rattle.std.specs.Prelude.{◌≡◌, IfOk, if◌then◌else◌};
ghost use Rattle.bidi_syntax.specs.Surrogates.{mended, replacement};

use crate::surrogates::{is_lone, rest_of_character};
use std::alloc::{AllocError, Global};

/// The text with U+FFFD for each surrogate that is escaped without its other half.
///
/// # Errors
/// No memory: an allocation failed.
#[tactic(auto, using(crate::proofs::StepLemmas::mended_from_next))]
pub fn mended(alloc: Global, text: &[u8]) -> Result<Vec<u8>, AllocError>
    // Each escape of such a surrogate is replaced, and all other bytes stay.
    ensures { IfOk result (λ bytes. bytes.items ≡ mended text.now) }
{
    let mut bytes = Vec::with_capacity(alloc, text.len())?;
    let mut left = 0;
    let mut replaces = false;
    for place in 0..text.len() {
        let (_, rest) = text.split_at(place);
        if left > 0 {
            bytes.push(byte_in(replaces, left, text[place]))?;
            left -= 1;
            continue;
        }
        bytes.push(text[place])?;
        replaces = is_lone(rest);
        left = rest_of_character(rest);
    }
    Ok(bytes)
}

// The byte of a character that so many more follow, if it is replaced or not.
fn byte_in(replaces: bool, left: usize, byte: u8) -> u8
    ensures { result ≡ (if replaces then replacement left byte else byte) }
{
    if replaces {
        replacement(left, byte)
    } else {
        byte
    }
}

// The byte of an escape of U+FFFD that so many more follow, where this one was.
fn replacement(left: usize, byte: u8) -> u8
    ensures { result ≡ replacement left byte }
{
    if left == 5 {
        return byte;
    }
    if left == 1 {
        return b'd';
    }
    b'f'
}
