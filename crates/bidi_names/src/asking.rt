//! What a command asks of names that a test made known.
ghost use Rattle.std.specs.Prelude.{◌≡◌, ◌==◌, Some, not, length, filter, option_map, option_and_then, codes, string_bytes, IfOk};
ghost use Rattle.json.specs.Value.{value_view, items_view};
ghost use Rattle.json.specs.Json.{array};
ghost use Rattle.json.specs.Tree.{ItemsHaveNumbers};
ghost use Rattle.json.specs.Find.{get};
ghost use Rattle.bidi_rows.specs.Command.{command_in};
ghost use Rattle.bidi_rows.specs.Rows.{compact};
ghost use Rattle.bidi_rows.specs.View.{command_seen};
ghost use Rattle.bidi_names.specs.Names.{is_foreign, is_module};
ghost use Rattle.bidi_names.specs.Asked.{strings_of, listed, ids_listed, ids_of, strings_text, ids_text, names_text, text_without, ending_text, wanted, wanted_anywhere, wanted_of_names, ended_or, asked_with, asked_by, asked_of};
ghost use Rattle.bidi_names.specs.View.{texts_of, ids_seen, wanted_of, asked_seen};

use crate::names::{is_foreign, is_module};
use bidi_rows::{Command, command_in, compact};
use bidi_tree::JsUint;
use json::{Error as JsonError, Scratch, Value};
use std::alloc::{AllocError, Global};

/// What a command asks of names.
#[derive(Drop)]
pub enum NamesAsked {
    /// To subscribe to names.
    Subscribe(NamesWanted),
    /// To unsubscribe from names.
    Unsubscribe(NamesWanted),
    /// To end subscriptions.
    End(IdsWanted),
}

/// What a command asks with its names.
#[derive(Drop)]
pub struct NamesWanted {
    /// The id of the command.
    pub id: JsUint,
    /// The names that only the test has.
    pub foreign: Vec<String>,
    /// The other names.
    pub others: Vec<String>,
    /// Those of the others that are modules with further events of the test.
    pub modules: Vec<String>,
    /// The text with the others alone, if the command has names that only the test has.
    pub part: Option<String>,
    /// The ids of contexts, if there are any.
    pub contexts: Option<Vec<String>>,
    /// The ids of user contexts, if there are any.
    pub users: Option<Vec<String>>,
}

/// What a command asks with the ids of subscriptions.
#[derive(Drop)]
pub struct IdsWanted {
    /// The id of the command.
    pub id: JsUint,
    /// The ids.
    pub ids: Vec<String>,
}

/// What the command that a text is asks of names; `None` if it asks nothing of any. The text is read once.
///
/// # Errors
/// No memory: an allocation failed.
pub fn names_asked(
    alloc: Global,
    text: &str,
    known: &[String],
    scratch: &mut Scratch,
) -> Result<Option<NamesAsked>, AllocError>
    // An Ok is what the command asks, as the definition says.
    ensures { IfOk result (λ asked. option_map asked_seen asked ≡ asked_of (texts_of known.now) text.now) }
{
    match Value::parse(alloc, text, scratch) {
        Ok(value) => asked_in(alloc, &value, known),
        Err(JsonError::Invalid) => Ok(None),
        Err(JsonError::OutOfMemory) => Err(AllocError),
        Err(JsonError::TooLong | JsonError::DuplicateKey) => unreachable!(),
    }
}

// What the command that a value is asks of them.
fn asked_in(
    alloc: Global,
    value: &Value<'_>,
    known: &[String],
) -> Result<Option<NamesAsked>, AllocError>
    ensures { IfOk result (λ asked. option_map asked_seen asked ≡ option_and_then (asked_by (texts_of known.now)) (command_in (value_view value.now))) }
{
    let Some(command) = command_in(value) else {
        return Ok(None);
    };
    asked_by(alloc, &command, known)
}

// What a command asks of them.
fn asked_by(
    alloc: Global,
    command: &Command<'_, '_>,
    known: &[String],
) -> Result<Option<NamesAsked>, AllocError>
    ensures { IfOk result (λ asked. option_map asked_seen asked ≡ asked_by (texts_of known.now) (command_seen command.now)) }
{
    let Some(params) = command.params else {
        return Ok(None);
    };
    asked_with(alloc, command, params, known)
}

// What a command with these params asks of them.
fn asked_with(
    alloc: Global,
    command: &Command<'_, '_>,
    params: &Value<'_>,
    known: &[String],
) -> Result<Option<NamesAsked>, AllocError>
    ensures { IfOk result (λ asked. option_map asked_seen asked ≡ asked_with (texts_of known.now) (command_seen command.now) (value_view params.now)) }
{
    if command.method == "session.subscribe" {
        let wanted = names_wanted(alloc, command, params, known)?;
        return Ok(wanted.map(NamesAsked::Subscribe));
    }
    if command.method == "session.unsubscribe" {
        return unsubscribe_asked(alloc, command, params, known);
    }
    Ok(None)
}

// What a command to unsubscribe asks of them.
fn unsubscribe_asked(
    alloc: Global,
    command: &Command<'_, '_>,
    params: &Value<'_>,
    known: &[String],
) -> Result<Option<NamesAsked>, AllocError>
    ensures { IfOk result (λ asked. option_map asked_seen asked ≡ ended_or (command_seen command.now).id (ids_listed (value_view params.now))
        (wanted_anywhere (texts_of known.now) (command_seen command.now) (value_view params.now))) }
{
    let id = command.id;
    if let Some(ids) = ids_listed(alloc, params)? {
        return Ok(Some(NamesAsked::End(IdsWanted { id, ids })));
    }
    let wanted = names_wanted_anywhere(alloc, command, params, known)?;
    Ok(wanted.map(NamesAsked::Unsubscribe))
}

// The subscriptions that the params of a command list, if they list any.
fn ids_listed(alloc: Global, params: &Value<'_>) -> Result<Option<Vec<String>>, AllocError>
    ensures { IfOk result (λ found. ids_seen found ≡ ids_listed (value_view params.now)) }
{
    let Some(ids) = strings_at(alloc, params, "subscriptions")? else {
        return Ok(None);
    };
    if are_none(&ids) {
        return Ok(None);
    }
    Ok(Some(ids))
}

// Whether there are no names.
fn are_none(names: &[String]) -> bool
    ensures { result ≡ (length (texts_of names.now) == 0) }
{
    names.len() == 0
}

// What a command with these params asks with the names that they list, whatever its scope.
fn names_wanted_anywhere(
    alloc: Global,
    command: &Command<'_, '_>,
    params: &Value<'_>,
    known: &[String],
) -> Result<Option<NamesWanted>, AllocError>
    ensures { IfOk result (λ found. option_map wanted_of found ≡ wanted_anywhere (texts_of known.now) (command_seen command.now) (value_view params.now)) }
{
    let Some(names) = strings_at(alloc, params, "events")? else {
        return Ok(None);
    };
    Ok(Some(wanted_of_names(alloc, command, known, &names, None, None)?))
}

// What a command with these params asks with the names that they list.
fn names_wanted(
    alloc: Global,
    command: &Command<'_, '_>,
    params: &Value<'_>,
    known: &[String],
) -> Result<Option<NamesWanted>, AllocError>
    ensures { IfOk result (λ found. option_map wanted_of found ≡ wanted (texts_of known.now) (command_seen command.now) (value_view params.now)) }
{
    let Some(names) = strings_at(alloc, params, "events")? else {
        return Ok(None);
    };
    let Some(contexts) = ids_at(alloc, params, "contexts")? else {
        return Ok(None);
    };
    let Some(users) = ids_at(alloc, params, "userContexts")? else {
        return Ok(None);
    };
    Ok(Some(wanted_of_names(alloc, command, known, &names, contexts, users)?))
}

// What a command asks with these names in this scope.
fn wanted_of_names(
    alloc: Global,
    command: &Command<'_, '_>,
    known: &[String],
    names: &[String],
    contexts: Option<Vec<String>>,
    users: Option<Vec<String>>,
) -> Result<NamesWanted, AllocError>
    ensures { IfOk result (λ found. wanted_of found ≡ wanted_of_names (texts_of known.now) (command_seen command.now) (texts_of names.now) (ids_seen contexts) (ids_seen users)) }
{
    let Parted { foreign, others } = part_names(alloc, known, names)?;
    let modules = modules_in(alloc, known, &others)?;
    let part = text_without(alloc, command, &foreign, &others, &contexts, &users)?;
    Ok(NamesWanted {
        id: command.id,
        foreign,
        others,
        modules,
        part,
        contexts,
        users,
    })
}

// The names of a command: those that only the test has, and the others.
#[derive(Drop)]
struct Parted {
    foreign: Vec<String>,
    others: Vec<String>,
}

// Parts the names of a command.
fn part_names(alloc: Global, known: &[String], names: &[String]) -> Result<Parted, AllocError>
    ensures foreign { IfOk result (λ parted. texts_of parted.foreign.items ≡ filter (is_foreign (texts_of known.now)) (texts_of names.now)) }
    ensures others { IfOk result (λ parted. texts_of parted.others.items ≡ filter (λ n. not (is_foreign (texts_of known.now) n)) (texts_of names.now)) }
{
    let mut foreign = Vec::new(alloc);
    let mut others = Vec::new(alloc);
    for name in names {
        let copy = String::from_str(alloc, name.as_str())?;
        if is_foreign(alloc, known, name)? {
            foreign.push(copy)?;
        } else {
            others.push(copy)?;
        }
    }
    Ok(Parted { foreign, others })
}

// Those of these names that are modules with further events of the test.
fn modules_in(alloc: Global, known: &[String], names: &[String]) -> Result<Vec<String>, AllocError>
    ensures { IfOk result (λ modules. texts_of modules.items ≡ filter (is_module (texts_of known.now)) (texts_of names.now)) }
{
    let mut modules = Vec::new(alloc);
    for name in names {
        if is_module(known, name.as_str()) {
            modules.push(String::from_str(alloc, name.as_str())?)?;
        }
    }
    Ok(modules)
}

// The text of a command with the other names alone, if only the test has some of its names.
fn text_without(
    alloc: Global,
    command: &Command<'_, '_>,
    foreign: &[String],
    others: &[String],
    contexts: &Option<Vec<String>>,
    users: &Option<Vec<String>>,
) -> Result<Option<String>, AllocError>
    ensures { IfOk result (λ part. option_map string_bytes part ≡ text_without command.now.id.value command.now.method.now (texts_of foreign.now) (texts_of others.now)
        (ids_seen contexts.now) (ids_seen users.now)) }
{
    if foreign.len() == 0 {
        return Ok(None);
    }
    let text = names_text(alloc, command, others, contexts, users)?;
    Ok(Some(text))
}

// The text of a command with these names in this scope.
fn names_text(
    alloc: Global,
    command: &Command<'_, '_>,
    names: &[String],
    contexts: &Option<Vec<String>>,
    users: &Option<Vec<String>>,
) -> Result<String, AllocError>
    ensures { IfOk result (λ text. string_bytes text ≡ names_text command.now.id.value command.now.method.now (texts_of names.now) (ids_seen contexts.now) (ids_seen users.now)) }
{
    let id = command.id.value;
    let method = command.method;
    let events = strings_text(alloc, names)?;
    let contexts = ids_text(alloc, "contexts", contexts)?;
    let users = ids_text(alloc, "userContexts", users)?;
    format!(in alloc;
        "{{\"id\":{id},\"method\":\"{method}\",\"params\":{{\"events\":{events}{contexts}{users}}}}}"
    )
}

/// The text of a command that ends the subscriptions of these ids.
///
/// # Errors
/// No memory: an allocation failed.
pub fn ending_text(alloc: Global, id: JsUint, ids: &[String]) -> Result<String, AllocError>
    // An Ok is the text of the definition.
    ensures { IfOk result (λ text. string_bytes text ≡ ending_text id.value (texts_of ids.now)) }
{
    let id = id.value;
    let ids = strings_text(alloc, ids)?;
    format!(in alloc;
        "{{\"id\":{id},\"method\":\"session.unsubscribe\",\"params\":{{\"subscriptions\":{ids}}}}}"
    )
}

// A property of this name that lists ids, behind a comma; nothing if there are none.
fn ids_text(alloc: Global, name: &str, ids: &Option<Vec<String>>) -> Result<String, AllocError>
    ensures { IfOk result (λ text. string_bytes text ≡ ids_text name.now (ids_seen ids.now)) }
{
    match ids {
        Some(ids) => {
            let texts = strings_text(alloc, ids)?;
            format!(in alloc; ",\"{name}\":{texts}")
        }
        None => Ok(String::new(alloc)),
    }
}

// The JSON text of an array of these strings.
fn strings_text(alloc: Global, texts: &[String]) -> Result<String, AllocError>
    ensures { IfOk result (λ text. string_bytes text ≡ strings_text (texts_of texts.now)) }
{
    let mut values = Vec::new(alloc);
    for text in texts {
        values.push(Value::String(text.as_str()))?;
    }
    array_text(alloc, values)
}

// The JSON text of an array of strings.
fn array_text(alloc: Global, strings: Vec<Value<'_>>) -> Result<String, AllocError>
    requires { ItemsHaveNumbers (items_view strings.items) }
    ensures { IfOk result (λ text. string_bytes text ≡ compact (array (items_view strings.entry.items))) }
{
    compact(alloc, &Value::Array(strings))
}

// The ids at a name, if there are any; `None` if there is something else there than an array of strings.
fn ids_at(
    alloc: Global,
    params: &Value<'_>,
    name: &str,
) -> Result<Option<Option<Vec<String>>>, AllocError>
    ensures { IfOk result (λ found. option_map ids_seen found ≡ ids_of (get name.now (value_view params.now))) }
{
    match params.get(name) {
        None => Ok(Some(None)),
        Some(value) => Ok(strings_in(alloc, value)?.map(Some)),
    }
}

// The strings of the array at a name; `None` if there is no array of strings.
fn strings_at(
    alloc: Global,
    params: &Value<'_>,
    name: &str,
) -> Result<Option<Vec<String>>, AllocError>
    ensures { IfOk result (λ found. ids_seen found ≡ option_and_then listed (get name.now (value_view params.now))) }
{
    match params.get(name) {
        None => Ok(None),
        Some(value) => strings_in(alloc, value),
    }
}

// The strings that a value lists; `None` if it is no array of strings.
fn strings_in(alloc: Global, value: &Value<'_>) -> Result<Option<Vec<String>>, AllocError>
    ensures { IfOk result (λ found. ids_seen found ≡ listed (value_view value.now)) }
{
    match value {
        Value::Array(items) => strings(alloc, items),
        _ => Ok(None),
    }
}

// The strings that these values are; `None` if one is no string.
fn strings(alloc: Global, values: &[Value<'_>]) -> Result<Option<Vec<String>>, AllocError>
    ensures { IfOk result (λ found. ids_seen found ≡ strings_of (items_view values.now)) }
{
    let mut strings = Vec::new(alloc);
    for value in values {
        let Some(text) = value.as_str() else {
            return Ok(None);
        };
        strings.push(String::from_str(alloc, text)?)?;
    }
    Ok(Some(strings))
}
