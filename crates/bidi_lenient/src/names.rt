//! Names in a `session.subscribe` that the profile does not have.
ghost use Rattle.std.specs.Prelude.{◌≡◌, ◌++◌, OnOk, map, string_bytes};
ghost use Rattle.std.specs.List.{list_all};
ghost use Rattle.bidi_tree.specs.View.{node, items_node};
ghost use Rattle.bidi_lenient.specs.Names.{is_of_profile, is_of_name_length, is_name, is_name_byte, is_held, has_dot, kind_of};
ghost use Rattle.bidi_lenient.specs.Reports.{name_told, each_told, subscribe_told};

use crate::members::is_among;
use bidi_tree::Tree;
use std::alloc::{AllocError, Global};

/// The modules and events of the profile.
const PROFILE: &[&str] = &[
    "browser",
    "browsingContext",
    "browsingContext.contextCreated",
    "browsingContext.contextDestroyed",
    "browsingContext.domContentLoaded",
    "browsingContext.load",
    "browsingContext.navigationStarted",
    "log",
    "log.entryAdded",
    "script",
    "script.realmCreated",
    "script.realmDestroyed",
    "session",
];

/// How many bytes a name can have.
const LONGEST_NAME: usize = 255;

// Whether the profile has a module or an event of this name.
#[tactic(auto, unfolding(crate::specs::Names::profile))]
fn is_of_profile(name: &str) -> bool
    ensures { result ≡ is_of_profile name.now }
{
    is_among(PROFILE, name)
}

// Whether a text can be the name of a module or an event.
pub(crate) fn is_name(name: &str) -> bool
    ensures { result ≡ is_name name.now }
{
    is_of_name_length(name) && has_name_bytes(name)
}

// Whether a text is as long as a name can be.
fn is_of_name_length(text: &str) -> bool
    ensures { result ≡ is_of_name_length text.now }
{
    !text.is_empty() && text.len() <= LONGEST_NAME
}

// Whether each byte of a text can be in a name.
fn has_name_bytes(text: &str) -> bool
    ensures { result ≡ list_all is_name_byte text.now }
{
    text.as_bytes().iter().all(|b| is_name_byte(*b))
}

// Whether a byte can be in a name.
fn is_name_byte(byte: u8) -> bool
    ensures { result ≡ is_name_byte byte }
{
    byte.is_ascii_alphanumeric() || byte == b'.' || byte == b':' || byte == b'-' || byte == b'_'
}

// Whether a name is held, since the profile does not have it.
fn is_held(name: &str) -> bool
    ensures { result ≡ is_held name.now }
{
    is_name(name) && !is_of_profile(name)
}

// What a name is that of: an event if it has a dot, else a module.
fn kind_of(name: &str) -> &'static str
    ensures { result.now ≡ kind_of name.now }
{
    if has_dot(name) { "event" } else { "module" }
}

// Whether a name has a dot.
fn has_dot(name: &str) -> bool
    ensures { result ≡ has_dot name.now }
{
    name.as_bytes().iter().any(|b| *b == b'.')
}

// Adds the report on a `session.subscribe`.
pub(crate) fn tell_subscribe(
    alloc: Global,
    command: &Tree,
    told: &mut Vec<String>,
) -> Result<(), AllocError>
    ensures { OnOk result (map string_bytes told.new.items ≡ map string_bytes told.old.items ++ subscribe_told (node command.now)) }
{
    let Some(params) = command.get("params") else {
        return Ok(());
    };
    match params.get("events") {
        Some(Tree::List(events)) => tell_events(alloc, events, told),
        _ => Ok(()),
    }
}

// Adds the report on its events.
fn tell_events(alloc: Global, events: &Vec<Tree>, told: &mut Vec<String>) -> Result<(), AllocError>
    ensures { OnOk result (map string_bytes told.new.items ≡ map string_bytes told.old.items ++ each_told (items_node events.now.items)) }
{
    for event in events {
        if let Tree::Text(name) = event {
            tell_name(alloc, name.as_str(), told)?;
        }
    }
    Ok(())
}

// Adds the report on one of them.
fn tell_name(alloc: Global, name: &str, told: &mut Vec<String>) -> Result<(), AllocError>
    ensures { OnOk result (map string_bytes told.new.items ≡ map string_bytes told.old.items ++ name_told name.now) }
{
    if is_held(name) {
        let kind = kind_of(name);
        told.push(format!(in alloc; "held {kind} {name}")?)?;
    }
    Ok(())
}
