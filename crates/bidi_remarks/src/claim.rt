//! What is wrong at a place, in words.
ghost use Rattle.std.specs.Prelude.{◌≡◌, ◌&&◌, ◌==◌, length, nat_lt, option_map, bytes_eq, codes, string_bytes, IfOk, if◌then◌else◌, None};
ghost use Rattle.std.specs.List.{list_any};
ghost use Rattle.bidi_tree.specs.Node.{levels};
ghost use Rattle.bidi_tree.specs.Outline.{outline_node};
ghost use Rattle.bidi_rules.specs.Names.{name_of};
ghost use Rattle.bidi_blame.specs.Said.{told_by};
ghost use Rattle.bidi_remarks.specs.Beyond.{is_any};
ghost use Rattle.bidi_remarks.specs.Claim.{counted, has_text, in_short, keyless, kind_from, lacks, level_words, levels_of, long_choice, names_of};

use crate::beyond::is_any;
use bidi_blame::{Alternatives, Name, Reason, found_words};
use bidi_tree::{Outline, find_outline};
use std::alloc::{AllocError, Global};

/// The most levels of nesting that a tree may have.
const MOST_LEVELS: usize = 60;

/// The most levels of nesting that are counted.
const MOST_COUNTED: usize = 1_000;

/// The most alternatives that are told one by one.
const MOST_TOLD: usize = 6;

/// What is wrong at a place.
#[derive(Clone, Copy, Debug, PartialEq, Eq)]
pub(crate) enum Kind {
    /// Nothing stands there.
    Missing,
    /// Nothing may stand there.
    Unexpected,
    /// Too many levels of nesting stand there.
    Deep,
    /// A map stands there that has none of the members by which the alternatives of its rule are told apart.
    Keyless,
    /// Something else may stand there.
    Wrong,
}

/// What is wrong at the place of a reason, where these alternatives may stand.
pub(crate) fn kind_of(
    reason: &Reason<'_, '_>,
    alternatives: &Alternatives,
    has_no_key: bool,
) -> Kind
    ensures { result ≡ kind_from (option_map (λ t. outline_node t.now) reason.now.found) (length (told_by alternatives.now) == 0)
        (is_any (told_by alternatives.now) && nat_lt 60 (levels_of (option_map (λ t. outline_node t.now) reason.now.found))) has_no_key }
{
    let Some(found) = reason.found else {
        return Kind::Missing;
    };
    if alternatives.count() == 0 {
        Kind::Unexpected
    } else if is_any(alternatives) && !found.is_within(MOST_LEVELS) {
        Kind::Deep
    } else if has_no_key {
        Kind::Keyless
    } else {
        Kind::Wrong
    }
}

/// The words for a map without a key, where these alternatives may stand and one of them is a map.
pub(crate) fn no_key(
    alloc: Global,
    reason: &Reason<'_, '_>,
    alternatives: &Alternatives,
) -> Result<Option<&'static str>, AllocError>
    ensures { IfOk result (λ k. option_map (λ s. s.now) k ≡ (if list_any (bytes_eq (codes "an object")) (told_by alternatives.now)
        then keyless (option_map name_of reason.now.named) (option_map (λ t. outline_node t.now) reason.now.found) else None)) }
{
    let Some(words) = keyless(reason.named, reason.found) else {
        return Ok(None);
    };
    if alternatives.has_map(alloc)? {
        Ok(Some(words))
    } else {
        Ok(None)
    }
}

// The words for a map that has none of the members by which the alternatives of its rule are told apart.
fn keyless(named: Option<Name>, found: Option<&Outline<'_>>) -> Option<&'static str>
    ensures { option_map (λ s. s.now) result ≡ keyless (option_map name_of named) (option_map (λ t. outline_node t.now) found.entry) }
{
    match named {
        Some(Name::LocalValue) if lacks("type", found) => {
            Some("a LocalValue: \"type\" is missing")
        }
        Some(Name::Target) if lacks("context", found) && lacks("realm", found) => {
            Some("a Target: \"context\" or \"realm\" is missing")
        }
        Some(Name::UnsubscribeParameters)
            if lacks("subscriptions", found) && lacks("events", found) => {
            Some("UnsubscribeParameters: \"subscriptions\" or \"events\" is missing")
        }
        _ => None,
    }
}

// Whether a map stands there, and has no member of this name.
fn lacks(name: &str, found: Option<&Outline<'_>>) -> bool
    ensures { result ≡ lacks name.now (option_map (λ t. outline_node t.now) found.entry) }
{
    match found {
        Some(Outline::Map(members)) => find_outline(members, name).is_none(),
        _ => false,
    }
}

/// What may stand at a place, where there is a short way to say it.
pub(crate) fn short(
    alloc: Global,
    kind: Kind,
    no_key: Option<&'static str>,
    named: Option<Name>,
    count: usize,
) -> Result<Option<String>, AllocError>
    ensures { IfOk result (λ s. option_map string_bytes s
        ≡ in_short kind (option_map (λ k. k.now) no_key.entry) (long_choice (option_map name_of named) count)) }
{
    match kind {
        Kind::Deep => Ok(Some(String::from_str(alloc, "at most 60")?)),
        Kind::Keyless => owned(alloc, no_key),
        Kind::Missing | Kind::Unexpected | Kind::Wrong => long_choice(alloc, named, count),
    }
}

/// A copy of the text, if there is one.
pub(crate) fn owned(alloc: Global, text: Option<&str>) -> Result<Option<String>, AllocError>
    ensures { IfOk result (λ s. option_map string_bytes s ≡ option_map (λ k. k.now) text.entry) }
{
    match text {
        Some(text) => Ok(Some(String::from_str(alloc, text)?)),
        None => Ok(None),
    }
}

// A choice of more than six, by how many there are.
fn long_choice(
    alloc: Global,
    named: Option<Name>,
    count: usize,
) -> Result<Option<String>, AllocError>
    ensures { IfOk result (λ s. option_map string_bytes s ≡ long_choice (option_map name_of named) count) }
{
    if count <= MOST_TOLD {
        return Ok(None);
    }
    let names = names_of(named);
    Ok(Some(format!(in alloc; "one of {count}{names}")?))
}

// What the names of a rule's choice are.
fn names_of(named: Option<Name>) -> &'static str
    ensures { result.now ≡ names_of (option_map name_of named) }
{
    match named {
        Some(Name::Command) => " commands",
        Some(Name::Message) | Some(Name::Event) => " events",
        _ => " names",
    }
}

/// What stands at a place.
pub(crate) fn has(
    alloc: Global,
    kind: Kind,
    found: Option<&Outline<'_>>,
) -> Result<String, AllocError>
    ensures { IfOk result (λ s. string_bytes s ≡ has_text kind (option_map (λ t. outline_node t.now) found.entry)) }
{
    match kind {
        Kind::Deep => level_words(alloc, found),
        Kind::Missing | Kind::Unexpected | Kind::Keyless | Kind::Wrong => {
            found_words(alloc, found)
        }
    }
}

// How many levels of nesting stand at a place, in words.
fn level_words(alloc: Global, found: Option<&Outline<'_>>) -> Result<String, AllocError>
    ensures { IfOk result (λ s. string_bytes s ≡ level_words (levels_of (option_map (λ t. outline_node t.now) found.entry))) }
{
    match count_levels(found) {
        Some(count) => format!(in alloc; "{count} levels of nesting"),
        None => String::from_str(alloc, "more than 1000 levels of nesting"),
    }
}

// How many levels of nesting stand at a place, if there are not too many to count.
fn count_levels(found: Option<&Outline<'_>>) -> Option<usize>
    ensures { result ≡ counted (levels_of (option_map (λ t. outline_node t.now) found.entry)) }
{
    match found {
        Some(tree) => levels(tree),
        None => Some(0),
    }
}

// The same of a tree.
fn levels(tree: &Outline<'_>) -> Option<usize>
    ensures { result ≡ counted (levels (outline_node tree.now)) }
{
    let mut levels = 0;
    'deeper: while !tree.is_within(levels) {
        if levels == MOST_COUNTED {
            return None;
        }
        levels += 1;
    }
    Some(levels)
}
