//! Reading rows and answers.
ghost use Rattle.std.specs.Prelude.{◌≡◌, ◌||◌, List, None, Option, IfOk, is_some, codes, option_map, map};
ghost use Rattle.json.specs.Find.{get};
ghost use Rattle.json.specs.Tree.{HasNumbers};
ghost use Rattle.json.specs.Value.{value_view};
ghost use Rattle.bidi_rows.specs.Part.{part_of};
ghost use Rattle.bidi_rows.specs.Filling.{Template as Placed, template_of};
ghost use Rattle.bidi_rows.specs.Rows as spec;
ghost use Rattle.bidi_rows.specs.Rows.{Answers};
ghost use Rattle.bidi_rows.specs.Refusals.{IfFails, IfRefused, IsText, RefusesAnswer, RefusesAnswerText, RefusesEventText, RefusesFor, RefusesHolding, RefusesPart, RefusesReply, RefusesRow, RefusesTemplates, RefusesText, RefusesTimes};
ghost use Rattle.bidi_rows.specs.Templates.{AreTemplateTexts};
ghost use Rattle.bidi_rows.specs.View.{action_of, event_of, reply_of, answer_of, row_of};
ghost use Rattle.bidi_rows.specs.Reading.{HasReply, HasAnswer, HasPart, HasTimes, IsFor, IsAnsweringRow, IsHoldingRow, IsAnswer, IsEventText};

use crate::events::{event_in, events_in, templates_in};
use crate::fault::RowFault;
use crate::looking::{has_only, js_uint_of, object_at, string_at};
use crate::part::{Part, own};
use crate::row::{Action, Answer, Event, Reply, Row};
use crate::template::Template;
use crate::writing::{compact, quoted};
use bidi_tree::is_parsed_within;
use json::{Scratch, Value};
use std::alloc::Global;

/// How many bytes a text can have.
const MOST_BYTES: usize = 1_048_576;

/// How many levels a part can have.
const MOST_PART_LEVELS: usize = 60;

/// The names that the properties of an answer can have.
const ANSWER_NAMES: &[&str] = &["result", "error", "message", "before", "after"];

/// The names that the properties of a row that holds can have.
const HOLD_NAMES: &[&str] = &["method", "params", "times"];

/// The names that the properties of a row that answers can have.
const ROW_NAMES: &[&str] = &[
    "method", "params", "times", "result", "error", "message", "before", "after",
];

/// Reads a row that answers: `{"method": M, "params": PART?, "result": {..}, "before": [EVENT..]?, "after": [EVENT..]?, "times":
/// N?}`, or with `"error": CODE` and `"message": TEXT?` in place of `result`.
///
/// # Errors
/// The first that holds: `NoMemory`, `TooLong`, `NotJson`, `Unexpected`, `NoMethod`, `DeepPart`, `BadTimes`, `BadReply`, and for
/// `before`, then `after`, `BadEvents` and what [`read_event`] says of an event.
#[tactic(auto, using(crate::proofs::ReadingLemmas::answering_read))]
pub fn read_row(alloc: Global, text: &str, scratch: &mut Scratch) -> Result<Row, RowFault>
    // After an Ok, the text is JSON for this row, and the row answers.
    ensures ok { IfOk result (λ r. IsAnsweringRow text.now (row_of r)) }
    // An error other than `NoMemory` comes only if the text is JSON for no row that answers.
    ensures refused { IfRefused result ((r : spec.Row) → IsAnsweringRow text.now r → ⊥) }
    // An error other than `NoMemory` is the first fault of the text that the definition has.
    ensures why { IfFails result (RefusesRow text.now) }
{
    let value = parsed(alloc, text, scratch)?;
    if !has_only(&value, ROW_NAMES) {
        return Err(RowFault::Unexpected);
    }
    let row = row_in(alloc, &value, text.len())?;
    answering(alloc, &value, row)
}

/// Reads a row that holds: `{"method": M, "params": PART?, "times": N?}`.
///
/// # Errors
/// As [`read_row`].
#[tactic(auto, using(crate::proofs::ReadingLemmas::holding_read))]
pub fn read_hold(alloc: Global, text: &str, scratch: &mut Scratch) -> Result<Row, RowFault>
    // After an Ok, the text is JSON for this row, and the row holds.
    ensures ok { IfOk result (λ r. IsHoldingRow text.now (row_of r)) }
    // An error other than `NoMemory` comes only if the text is JSON for no row that holds.
    ensures refused { IfRefused result ((r : spec.Row) → IsHoldingRow text.now r → ⊥) }
    // An error other than `NoMemory` is the first fault of the text that the definition has.
    ensures why { IfFails result (RefusesHolding text.now) }
{
    let value = parsed(alloc, text, scratch)?;
    if !has_only(&value, HOLD_NAMES) {
        return Err(RowFault::Unexpected);
    }
    row_in(alloc, &value, text.len())
}

/// Reads an answer without a command: `{"result": {..}, "before": [EVENT..]?, "after": [EVENT..]?}`, or with `"error": CODE` and
/// `"message": TEXT?` in place of `result`.
///
/// # Errors
/// As [`read_row`].
#[tactic(auto, using(crate::proofs::ReadingLemmas::answer_read))]
pub fn read_answer(alloc: Global, text: &str, scratch: &mut Scratch) -> Result<Answer, RowFault>
    // After an Ok, the text is JSON for this answer.
    ensures ok { IfOk result (λ a. IsAnswer text.now (answer_of a)) }
    // An error other than `NoMemory` comes only if the text is JSON for no answer.
    ensures refused { IfRefused result ((a : spec.Answer) → IsAnswer text.now a → ⊥) }
    // An error other than `NoMemory` is the first fault of the text that the definition has.
    ensures why { IfFails result (RefusesAnswerText text.now) }
{
    let value = parsed(alloc, text, scratch)?;
    if !has_only(&value, ANSWER_NAMES) {
        return Err(RowFault::Unexpected);
    }
    answer_in(alloc, &value)
}

/// Reads an event: `{"method": M, "params": {..}}`.
///
/// # Errors
/// The first that holds: `NoMemory`, `TooLong`, `NotJson`, `Unexpected`, `NoMethod`, `NoParams`.
pub fn read_event(alloc: Global, text: &str, scratch: &mut Scratch) -> Result<Event, RowFault>
    // After an Ok, the text is JSON for this event.
    ensures ok { IfOk result (λ e. IsEventText text.now (event_of e)) }
    // An error other than `NoMemory` comes only if the text is JSON for no event.
    ensures refused { IfRefused result ((e : spec.Event) → IsEventText text.now e → ⊥) }
    // An error other than `NoMemory` is the first fault of the text that the definition has.
    ensures why { IfFails result (RefusesEventText text.now) }
{
    let value = parsed(alloc, text, scratch)?;
    event_in(alloc, &value)
}

/// Reads events that follow others, with places in their params: `[EVENT..]`.
///
/// # Errors
/// The first that holds: `NoMemory`, `TooLong`, `NotJson`, `BadEvents`, and what [`read_event`] says of an event.
pub fn read_templates(
    alloc: Global,
    text: &str,
    scratch: &mut Scratch,
) -> Result<Vec<Template>, RowFault>
    // After an Ok, the text is JSON for an array of these events.
    ensures ok { IfOk result (λ ts. AreTemplateTexts text.now (map template_of ts.items)) }
    // An error other than `NoMemory` comes only if the text is JSON for no array of such events.
    ensures refused { IfRefused result ((ts : List Placed) → AreTemplateTexts text.now ts → ⊥) }
    // An error other than `NoMemory` is the first fault of the text that the definition has.
    ensures why { IfFails result (RefusesTemplates text.now) }
{
    let value = parsed(alloc, text, scratch)?;
    templates_in(alloc, &value)
}

// The value of a text that is not too long.
fn parsed<'a>(alloc: Global, text: &'a str, scratch: &'a mut Scratch) -> Result<Value<'a>, RowFault>
    ensures ok { IfOk result (λ v. IsText text.now (value_view v)) }
    ensures numbers { IfOk result (λ v. HasNumbers (value_view v)) }
    ensures why { IfFails result (RefusesText (λ _ _. ⊥) text.now) }
{
    if text.len() > MOST_BYTES {
        return Err(RowFault::TooLong);
    }
    Ok(Value::parse(alloc, text, scratch)?)
}

// The row of these properties, which holds.
fn row_in(alloc: Global, value: &Value<'_>, bytes: usize) -> Result<Row, RowFault>
    ensures is_for { IfOk result (λ r. IsFor (value_view value.now) (row_of r)) }
    ensures does { IfOk result (λ r. r.action ≡ Action.Hold) }
    ensures bytes { IfOk result (λ r. r.bytes ≡ bytes) }
    ensures why { IfFails result (RefusesFor (value_view value.now)) }
{
    let Some(method) = string_at(value, "method") else {
        return Err(RowFault::NoMethod);
    };
    let method = String::from_str(alloc, method)?;
    let part = part_in(alloc, value.get("params"))?;
    let left = times_in(value.get("times"))?;
    Ok(Row {
        method,
        part,
        action: Action::Hold,
        left,
        bytes,
    })
}

// The row, which answers as these properties say.
fn answering(alloc: Global, value: &Value<'_>, row: Row) -> Result<Row, RowFault>
    requires { HasNumbers (value_view value.now) }
    ensures same { IfOk result (λ r. (r.method ≡ row.method) × (r.part ≡ row.part) × (r.left ≡ row.left) × (r.bytes ≡ row.bytes)) }
    ensures answers { IfOk result (λ r. (answer : spec.Answer) × (action_of r.action ≡ Answers answer) × HasAnswer (value_view value.now) answer) }
    ensures why { IfFails result (RefusesAnswer (value_view value.now)) }
{
    let answer = answer_in(alloc, value)?;
    Ok(Row {
        action: Action::Answer(answer),
        ..row
    })
}

// The part that is the property `params`, if there is one.
fn part_in(alloc: Global, property: Option<&Value<'_>>) -> Result<Option<Part>, RowFault>
    ensures ok { IfOk result (λ part. HasPart (option_map (λ v. value_view v.now) property.entry) (option_map part_of part)) }
    ensures why { IfFails result (RefusesPart (option_map (λ v. value_view v.now) property.entry)) }
{
    let Some(part) = property else {
        return Ok(None);
    };
    if !is_parsed_within(alloc, part, MOST_PART_LEVELS)? {
        return Err(RowFault::DeepPart);
    }
    Ok(Some(own(alloc, part)?))
}

// How often the property `times` lets a row be used, if there is one.
fn times_in(property: Option<&Value<'_>>) -> Result<Option<u64>, RowFault>
    ensures ok { IfOk result (λ left. HasTimes (option_map (λ v. value_view v.now) property.entry) left) }
    ensures why { IfFails result (RefusesTimes (option_map (λ v. value_view v.now) property.entry)) }
{
    let Some(value) = property else {
        return Ok(None);
    };
    let Some(times) = js_uint_of(value) else {
        return Err(RowFault::BadTimes);
    };
    if times.value == 0 {
        return Err(RowFault::BadTimes);
    }
    Ok(Some(times.value))
}

// The answer of these properties.
fn answer_in(alloc: Global, value: &Value<'_>) -> Result<Answer, RowFault>
    requires { HasNumbers (value_view value.now) }
    ensures ok { IfOk result (λ a. HasAnswer (value_view value.now) (answer_of a)) }
    ensures why { IfFails result (RefusesAnswer (value_view value.now)) }
{
    let reply = reply_in(alloc, value)?;
    let before = events_in(alloc, value.get("before"))?;
    let after = events_in(alloc, value.get("after"))?;
    Ok(Answer {
        before,
        reply,
        after,
    })
}

// The reply of these properties.
#[tactic(auto, using(crate::proofs::NumberLemmas::object_numbers))]
fn reply_in(alloc: Global, value: &Value<'_>) -> Result<Reply, RowFault>
    requires { HasNumbers (value_view value.now) }
    ensures ok { IfOk result (λ r. HasReply (value_view value.now) (reply_of r)) }
    ensures why { IfFails result (RefusesReply (value_view value.now)) }
{
    if !has_error(value) {
        let Some(found) = object_at(value, "result") else {
            return Err(RowFault::BadReply);
        };
        return Ok(Reply::Result(compact(alloc, found)?));
    }
    if has(value, "result") {
        return Err(RowFault::BadReply);
    }
    error_in(alloc, value)
}

// Whether there is a property `error` or `message`.
fn has_error(value: &Value<'_>) -> bool
    ensures { result ≡ (is_some (get (codes "error") (value_view value.now)) || is_some (get (codes "message") (value_view value.now))) }
{
    has(value, "error") || has(value, "message")
}

// Whether there is a property of this name.
fn has(value: &Value<'_>, name: &str) -> bool
    ensures { result ≡ is_some (get name.now (value_view value.now)) }
{
    value.get(name).is_some()
}

// The error of these properties, which have no `result`.
fn error_in(alloc: Global, value: &Value<'_>) -> Result<Reply, RowFault>
    requires { get (codes "result") (value_view value.now) ≡ None }
    ensures ok { IfOk result (λ r. HasReply (value_view value.now) (reply_of r)) }
    ensures why { IfFails result (RefusesReply (value_view value.now)) }
{
    let Some(code) = string_at(value, "error") else {
        return Err(RowFault::BadReply);
    };
    if !has(value, "message") {
        return Ok(Reply::Error(quoted(alloc, code)?, quoted(alloc, code)?));
    }
    let Some(message) = string_at(value, "message") else {
        return Err(RowFault::BadReply);
    };
    Ok(Reply::Error(quoted(alloc, code)?, quoted(alloc, message)?))
}
