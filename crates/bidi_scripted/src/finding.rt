//! What a message asks for: which row is for it, or whether it asks for names.
ghost use Rattle.std.specs.Prelude.{◌≡◌, ◌≤◌, List, ℕ, Some, IfOk, OnErr, IsErrOf, length, map, string_bytes};
ghost use Rattle.json.specs.Json.{document};
ghost use Rattle.json.specs.Value.{value_view};
ghost use Rattle.bidi_sessions.specs.Limits.{most_steps};
ghost use Rattle.bidi_remote.specs.Machine.History.{Input};
ghost use Rattle.bidi_remote.specs.State.Stands.{StandsFor};
ghost use Rattle.bidi_scripted.specs.Fate.{asks_names};
ghost use Rattle.bidi_scripted.specs.Becomes.{IsFound, IsLooked, found_names};

use crate::judging::is_json;
use crate::script::Script;
use bidi_remote::{RemoteEnd, RemoteFault, Sent};
use bidi_rows::command_in;
use bidi_tree::JsUint;
use json::{Error as JsonError, Scratch, Value};
use std::alloc::Global;

/// What was found for a message.
#[derive(Clone, Copy)]
pub(crate) enum Found {
    /// The newest row that is for it.
    Row(FoundRow),
    /// No row is for it, and it is a command by which sessions subscribe or unsubscribe, while names are known.
    Names,
}

/// The newest row that is for a command.
#[derive(Clone, Copy)]
pub(crate) struct FoundRow {
    /// The id of the command.
    pub id: JsUint,
    /// The place of the row.
    pub place: usize,
}

/// What came of looking at a message.
#[derive(Drop)]
pub(crate) enum Looked {
    /// This was found for it.
    Found(Found),
    /// Nothing was found for it, so the remote end heard it, and sends this.
    Heard(Vec<Sent>),
}

/// Looks for what a message asks for, and has the remote end hear it if it asks for nothing of a test, or is no JSON. The text is read once for
/// both, and once more if something is found.
pub(crate) fn look(
    alloc: Global,
    end: &mut RemoteEnd,
    script: &Script,
    conn: JsUint,
    text: &str,
    scratch: &mut Scratch,
) -> Result<Looked, RemoteFault>
    ensures ok { IfOk result (IsLooked script.now.rows.all.items (map string_bytes script.now.known.items) conn.value text.now end.old end.new) }
    ensures err { OnErr result ((h : List Input) → StandsFor end.old h → StandsFor end.new h) }
    ensures worn_out { (h : List Input) → StandsFor end.old h → IsErrOf result RemoteFault.WornOut → most_steps ≤ length h }
{
    let value = match Value::parse(alloc, text, scratch) {
        Ok(value) => value,
        Err(JsonError::Invalid) => return Ok(Looked::Heard(end.hear(conn, text)?)),
        Err(JsonError::OutOfMemory) => return Err(RemoteFault::NoMemory),
        Err(JsonError::TooLong | JsonError::DuplicateKey) => unreachable!(),
    };
    let Some(found) = find(script, &value) else {
        return Ok(Looked::Heard(end.hear_value(conn, text, &value)?));
    };
    drop(value);
    if !is_json(alloc, text, scratch)? {
        return Ok(Looked::Heard(end.hear(conn, text)?));
    }
    Ok(Looked::Found(found))
}

// What is found for a message with this JSON value.
fn find(script: &Script, value: &Value<'_>) -> Option<Found>
    ensures { (text : List ℕ) → document text ≡ Some (value_view value.now)
        → IsFound result script.now.rows.all.items (map string_bytes script.now.known.items) text }
{
    let Some(command) = command_in(value) else {
        return None;
    };
    match script.rows.place_for(&command) {
        Some(place) => Some(Found::Row(FoundRow {
            id: command.id,
            place,
        })),
        None => found_names(&script.known, command.method),
    }
}

// What is found for a command for which there is no row.
fn found_names(known: &[String], method: &str) -> Option<Found>
    ensures { result ≡ found_names (asks_names (map string_bytes known.now) method.now) }
{
    if known.len() != 0 && (method == "session.subscribe" || method == "session.unsubscribe") {
        return Some(Found::Names);
    }
    None
}
