//! The tokens of a text.
ghost use Rattle.std.specs.Prelude.{◌≡◌, ◌≤◌, ◌<◌, ◌+◌, Ok, Err, IfOk, IfErr, IsCharBoundary, drop, length, map, option_map, slice_index, take};
ghost use Rattle.bidi_cddl.specs.Sizes.{begins_number};
ghost use Rattle.bidi_cddl.specs.Token.{placed_of, token_of};
ghost use Rattle.bidi_cddl.specs.Tokens.{IfWrongAt, mark_size, placed_tokens, string_at, token_at};

use crate::bytes::{byte_at, is_digit, is_name_start};
use crate::fault::{LoadFault, fault_at};
use crate::sizes::{gap_size, name_size, number_size, string_size};
use crate::token::{Placed, Sign, Token};
use std::alloc::Global;

/// The tokens of a text, without blanks and comments.
///
/// Takes time and memory in the length of the text.
///
/// # Errors
/// No memory, or the first byte at which no token begins.
pub(crate) fn tokens<'t>(alloc: Global, text: &'t str) -> Result<Vec<Placed<'t>>, LoadFault>
    // These are the tokens of the text, each with the byte at which it begins.
    ensures ok { IfOk result (λ found. placed_tokens text.now ≡ Ok (map placed_of found.items)) }
    // A fault names the first byte at which no token begins.
    ensures place { IfErr result (λ fault. IfWrongAt fault (λ at. placed_tokens text.now ≡ Err at)) }
{
    let mut found = Vec::new(alloc);
    let mut left = mark_size(text.as_bytes());
    for at in 0..text.len() {
        if left > 0 {
            left -= 1;
            continue;
        }
        let (_, rest) = text.as_bytes().split_at(at);
        let gap = gap_size(rest);
        if gap > 0 {
            left = gap - 1;
            continue;
        }
        let Some(token) = token_at(text, at) else {
            return Err(no_token(alloc, byte_at(rest, 0), at));
        };
        found.push(Placed { token, at })?;
        left = token.size().saturating_sub(1);
    }
    Ok(found)
}

// The size of a byte order mark at the front.
fn mark_size(bytes: &[u8]) -> usize
    ensures { result ≡ mark_size bytes.now }
{
    if byte_at(bytes, 0) == 239 && byte_at(bytes, 1) == 187 && byte_at(bytes, 2) == 191 {
        3
    } else {
        0
    }
}

// The token that begins at a place.
fn token_at<'t>(text: &'t str, at: usize) -> Option<Token<'t>>
    requires { at < length text.now }
    ensures { option_map token_of result ≡ token_at (drop at text.now) }
{
    let (_, rest) = text.as_bytes().split_at(at);
    let first = byte_at(rest, 0);
    let second = byte_at(rest, 1);
    if first == b'"' {
        return string_at(text, at + 1);
    }
    if begins_number(first, second) {
        return Some(Token::Number(word(text, at, number_size(rest))));
    }
    if is_name_start(first) {
        return Some(Token::Name(word(text, at, name_size(rest))));
    }
    if first == b'.' && is_name_start(second) {
        let (_, name) = rest.split_at(1);
        return Some(Token::Control(word(text, at, 1 + name_size(name))));
    }
    let sign = Sign::of(first, second, byte_at(rest, 2))?;
    Some(Token::Sign(sign))
}

// Whether a number begins with these bytes.
fn begins_number(first: u8, second: u8) -> bool
    ensures { result ≡ begins_number first second }
{
    is_digit(first) || first == b'-' && is_digit(second)
}

// The string whose first quotation mark is right before a place.
fn string_at<'t>(text: &'t str, at: usize) -> Option<Token<'t>>
    requires within { at ≤ length text.now }
    requires there { IsCharBoundary text.now at }
    ensures { option_map token_of result ≡ string_at (drop at text.now) }
{
    let (_, rest) = text.as_bytes().split_at(at);
    let size = string_size(rest)?;
    Some(Token::Text(word(text, at, size)))
}

// So many bytes from a place on.
fn word<'t>(text: &'t str, at: usize, size: usize) -> &'t str
    requires from { IsCharBoundary text.now at }
    requires to { IsCharBoundary text.now (at + size) }
    requires fits { at + size ≤ length text.now }
    ensures { result.now ≡ take size (drop at text.now) }
{
    &text[at..at + size]
}

// What is wrong if no token begins with a byte.
fn no_token(alloc: Global, byte: u8, at: usize) -> LoadFault
    ensures { IfWrongAt result (λ place. place ≡ at) }
{
    if byte == b'\'' {
        return fault_at(alloc, at, "byte strings are left out");
    }
    if byte == b'"' {
        return fault_at(alloc, at, "a string without its end");
    }
    fault_at(alloc, at, "expected a token")
}
