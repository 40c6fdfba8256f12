//! Whether a value is shown whole, so that its own text is that of what is shown.
ghost use Rattle.std.specs.Prelude.{◌≡◌, true, map, option_map};
ghost use Rattle.bidi_values.specs.Cut.{cut, cut_to};
ghost use Rattle.bidi_values.specs.RemoteView.{remote_tree, remote_pair_tree, remote_key_tree};

use bidi_tree::JsUint;
use bidi_values::{Nested, NestedKey, RemoteKey, RemotePair, RemoteValue};

/// Whether a value is shown whole: no depth is asked for, or it holds no values deeper than that. Takes no memory.
pub(crate) fn is_shown_whole(value: &RemoteValue, depth: Option<JsUint>) -> bool
    ensures { result ≡ true → cut_to (option_map (λ d. d.value) depth) (remote_tree value.now) ≡ remote_tree value.now }
{
    match depth {
        Some(depth) => is_within(value, depth.value),
        None => true,
    }
}

// Whether a cut at this depth leaves a value as it is, since it holds no values deeper than that.
#[cycle(within)]
fn is_within(value: &RemoteValue, depth: u64) -> bool
    ensures { result ≡ true → cut depth (remote_tree value.now) ≡ remote_tree value.now }
{
    match value {
        Nested::Plain(_) => true,
        Nested::List(_, values) => depth > 0 && are_within(values, depth - 1),
        Nested::Pairs(_, pairs) => depth > 0 && pairs_are_within(pairs, depth - 1),
    }
}

#[cycle(within)]
fn are_within(values: &Vec<RemoteValue>, depth: u64) -> bool
    ensures { result ≡ true → map remote_tree values.now.items ≡ map (λ v. cut depth (remote_tree v)) values.now.items }
{
    for value in values {
        if !is_within(value, depth) {
            return false;
        }
    }
    true
}

#[cycle(within)]
fn pairs_are_within(pairs: &Vec<RemotePair>, depth: u64) -> bool
    ensures { result ≡ true → map remote_pair_tree pairs.now.items ≡ map (λ p. cut depth (remote_pair_tree p)) pairs.now.items }
{
    for pair in pairs {
        if !is_pair_within(pair, depth) {
            return false;
        }
    }
    true
}

#[cycle(within)]
fn is_pair_within(pair: &RemotePair, depth: u64) -> bool
    ensures { result ≡ true → cut depth (remote_pair_tree pair.now) ≡ remote_pair_tree pair.now }
{
    is_key_within(&pair.key, depth) && is_within(&pair.value, depth)
}

#[cycle(within)]
fn is_key_within(key: &RemoteKey, depth: u64) -> bool
    ensures { result ≡ true → cut depth (remote_key_tree key.now) ≡ remote_key_tree key.now }
{
    match key {
        NestedKey::Value(value) => is_within(value, depth),
        NestedKey::Text(_) => true,
    }
}
