//! Subtrees of contexts in tree order.
//!
//! A subtree is a range: a context, and those behind it up to the next whose level is no greater. So whoever
//! walks over children searches for none.
ghost use Rattle.std.specs.Prelude.{◌≡◌, ◌≤◌, ◌<◌, ◌==◌, ℕ, nat_le, None, Some, MatchOption, map, length};
ghost use Rattle.std.specs.List.{position, position_or_len};
ghost use Rattle.bidi_contexts.specs.Subtrees.{end_in};

use crate::context::Context;
use crate::seeking::place_of;

/// Where the subtree of the context of this number begins, and where it ends.
pub(crate) fn range_of(contexts: &[Context], number: u64) -> Option<(usize, usize)>
    ensures { MatchOption result (position (λ c. c.number == number) contexts.now ≡ None) (λ range.
        (position (λ c. c.number == number) contexts.now ≡ Some range.0)
        × (range.1 ≡ end_in (map (λ c. c.details.value.level) contexts.now) range.0) × (range.0 < range.1) × (range.1 ≤ length contexts.now)) }
{
    let start = place_of(contexts, number)?;
    let behind = &contexts[start + 1..];
    Some((start, start + 1 + len_below(&contexts[start], behind)))
}

// Where the subtree of the context of this number ends; where there is none, the end of all.
fn end_of(contexts: &[Context], number: u64) -> usize
    ensures is { (i : ℕ) → position (λ c. c.number == number) contexts.now ≡ Some i → result ≡ end_in (map (λ c. c.details.value.level) contexts.now) i }
    ensures within { result ≤ length contexts.now }
{
    match range_of(contexts, number) {
        Some((_, end)) => end,
        None => contexts.len(),
    }
}

/// Where a new child of this parent goes in, behind all that stands below the parent. Without a parent it is
/// the end.
pub(crate) fn place_for(contexts: &[Context], parent: Option<u64>) -> usize
    ensures is { MatchOption parent (result ≡ length contexts.now) (λ p. (i : ℕ)
        → position (λ c. c.number == p) contexts.now ≡ Some i → result ≡ end_in (map (λ c. c.details.value.level) contexts.now) i) }
    ensures within { result ≤ length contexts.now }
{
    match parent {
        Some(parent) => end_of(contexts, parent),
        None => contexts.len(),
    }
}

/// How many of the contexts behind a context are its descendants: from the first on, those below its level.
pub(crate) fn len_below(context: &Context, behind: &[Context]) -> usize
    ensures is { result ≡ position_or_len (λ c. nat_le c.details.value.level context.now.details.value.level) behind.now }
    ensures within { result ≤ length behind.now }
{
    first_at(context.level(), behind).unwrap_or(behind.len())
}

// The place of the first context that does not stand below this level.
fn first_at(level: u64, contexts: &[Context]) -> Option<usize>
    ensures { result ≡ position (λ c. nat_le c.details.value.level level) contexts.now }
{
    contexts
        .iter()
        .position(|context| context.details.level <= level)
}
