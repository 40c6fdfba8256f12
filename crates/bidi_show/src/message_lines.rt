//! The line that is shown for a message of a local or a remote end.
ghost use Rattle.std.specs.Prelude.{◌≡◌, ℕ, List, ◌∷◌, ◌++◌, IfOk, IfSome, MatchOption, codes, decimal, option_map, string_bytes};
ghost use Rattle.bidi_tree.specs.Node.{IsWritable};
ghost use Rattle.bidi_tree.specs.Json.{parsed};
ghost use Rattle.bidi_tree.specs.Text.{compact_text};
ghost use Rattle.bidi_params.specs.ErrorCode.{error_code_text};
ghost use Rattle.bidi_methods.specs.Method.{method_text};
ghost use Rattle.bidi_methods.specs.CommandData.{method_of};
ghost use Rattle.bidi_methods.specs.EventName.{event_name_text};
ghost use Rattle.bidi_methods.specs.EventData.{event_of};
ghost use Rattle.bidi_messages.specs.Reading.{IsMisfit};
ghost use Rattle.bidi_messages.specs.View.{verdict_of, IsWell};
ghost use Rattle.bidi_show.specs.MessageLines.{HasTree, HasVerdict, IsMessageLine, Refused, Refuses, Shows, ShowsMessage, id_text, refused, shown_of, verdict_shown};
ghost use Rattle.bidi_lines.specs.declared.side.Side.TheVariants.{Remote};

use bidi_lines::Side;
use bidi_messages::{
    Command, ErrorCode, ErrorResponse, Event, Message, MessageFault, Method, Named, Response,
    Sendable, Verdict, event_text, judge_with, message_of, response_id, text_of,
};
use bidi_shape::Shape;
use bidi_tree::{JsUint, ReadFault, outline_parsed, parse, write_outline};
use json::{Scratch, Value};
use std::alloc::{AllocError, Global};

/// What is shown for a line, without a line feed. `show` writes both cases, and `check` only refusals.
#[derive(Drop)]
pub enum Shown {
    /// The line is a message of its end: its kind, its id or method, and the message as compact JSON.
    Taken(String),
    /// The line is not a message of its end: the reason, or the id and the code of the error that answers it.
    Refused(String),
}

/// Gives what is shown for a line from this end.
///
/// The line is read with a scratch that the caller keeps from line to line.
///
/// # Errors
/// No memory: an allocation failed.
pub fn show_line(
    alloc: Global,
    side: Side,
    line: &[u8],
    scratch: &mut Scratch,
) -> Result<Shown, AllocError>
    // If the line is a message of its end, the line of that message is shown; otherwise the reason
    // is shown.
    ensures { IfOk result (λ shown. Shows side line.now (shown_of shown)) }
{
    match side {
        Side::Local => {
            let verdict = line_verdict(alloc, line, scratch)?;
            show_verdict(alloc, verdict)
        }
        Side::Remote => show_message(alloc, line, scratch),
    }
}

/// Gives why a line is refused, as [`show_line`] shows it.
///
/// Does not write the message of a line that is one.
///
/// # Errors
/// No memory: an allocation failed.
pub fn refusal(
    alloc: Global,
    side: Side,
    line: &[u8],
    scratch: &mut Scratch,
) -> Result<Option<String>, AllocError>
    // The result is the text of the refusal, or `None` if the line is a message of its end.
    ensures { IfOk result (λ text. Refuses side line.now (option_map string_bytes text)) }
{
    match side {
        Side::Local => {
            let verdict = line_verdict(alloc, line, scratch)?;
            verdict_refusal(alloc, verdict)
        }
        Side::Remote => message_refusal(alloc, line, scratch),
    }
}

/// Gives why a JSON value from a remote end is not a message, as [`refusal`] does for its line.
///
/// # Errors
/// No memory: an allocation failed.
pub fn value_refusal(alloc: Global, value: &Value<'_>) -> Result<Option<String>, AllocError>
    // The result is that of `refusal` for each line that reads as this value.
    ensures refuses { IfOk result (λ text. (line : List ℕ) → HasTree line (parsed value.now) → Refuses Remote line (option_map string_bytes text)) }
    // If there is a refusal, the value fits no message.
    ensures misfit { IfOk result (λ text. IfSome text (λ _. IsMisfit MessageFault.NoFit (parsed value.now))) }
{
    if response_id(value).is_some() {
        return Ok(None);
    }
    match message_of(alloc, value).err() {
        None => Ok(None),
        Some(MessageFault::NoFit) => Ok(Some(String::from_str(alloc, "no fit")?)),
        Some(MessageFault::NotJson) => unreachable!(),
        Some(MessageFault::NoMemory) => Err(AllocError),
    }
}

// ---- messages of a local end

/// Decides whether a line from a local end is a command.
///
/// The line is read with a scratch that the caller keeps from line to line.
///
/// # Errors
/// No memory: an allocation failed.
pub fn line_verdict(
    alloc: Global,
    line: &[u8],
    scratch: &mut Scratch,
) -> Result<Verdict, AllocError>
    // The verdict is that of the line's text; a line that is not UTF-8 is refused like one that is
    // not JSON.
    ensures verdict { IfOk result (λ v. HasVerdict line.now (verdict_of ⟦<Command as Shape>⟧.shape v)) }
    // A command that is accepted is valid, so it has a text.
    ensures well { IfOk result (IsWell ⟦<Command as Shape>⟧.shape) }
{
    match std::str::from_utf8(line) {
        Ok(text) => judge_with(alloc, text, scratch),
        Err(_) => Ok(Verdict::Refused {
            id: None,
            code: ErrorCode::InvalidArgument,
        }),
    }
}

// Gives what is shown for a verdict.
fn show_verdict(alloc: Global, verdict: Verdict) -> Result<Shown, AllocError>
    requires { IsWell ⟦<Command as Shape>⟧.shape verdict }
    ensures { IfOk result (λ shown. shown_of shown ≡ verdict_shown (verdict_of ⟦<Command as Shape>⟧.shape verdict)) }
{
    match verdict {
        Verdict::Accepted(command) => Ok(Shown::Taken(accepted_line(alloc, command)?)),
        Verdict::Refused { id, code } => Ok(Shown::Refused(refused_line(alloc, id, code)?)),
    }
}

// Gives the refusal of a verdict, if it is one.
fn verdict_refusal(alloc: Global, verdict: Verdict) -> Result<Option<String>, AllocError>
    ensures { IfOk result (λ text. option_map string_bytes text ≡ refused (verdict_shown (verdict_of ⟦<Command as Shape>⟧.shape verdict))) }
{
    match verdict {
        Verdict::Accepted(_) => Ok(None),
        Verdict::Refused { id, code } => Ok(Some(refused_line(alloc, id, code)?)),
    }
}

// `accepted ID METHOD TEXT`
fn accepted_line(alloc: Global, command: Command) -> Result<String, AllocError>
    requires { ⟦<Command as Shape>⟧.shape.well command }
    ensures { IfOk result (λ line. string_bytes line ≡ codes "accepted " ++ decimal command.id.value
        ++ 32 ∷ method_text (method_of command.«data») ++ 32 ∷ compact_text (⟦<Command as Shape>⟧.shape.tree_of command)) }
{
    let id = command.id;
    let method = command.data.method();
    let text = text_for(alloc, command)?;
    let head = accepted_head(alloc, id, method)?;
    format!(in alloc; "{head} {text}")
}

// `accepted ID METHOD`
fn accepted_head(alloc: Global, id: JsUint, method: Method) -> Result<String, AllocError>
    ensures { IfOk result (λ head. string_bytes head ≡ codes "accepted " ++ decimal id.value ++ 32 ∷ method_text method) }
{
    let name = method.name();
    format!(in alloc; "accepted {} {name}", id.value)
}

/// Makes the words for a line from a local end that is refused with this id and code.
///
/// # Errors
/// No memory: an allocation failed.
pub fn refused_line(
    alloc: Global,
    id: Option<JsUint>,
    code: ErrorCode,
) -> Result<String, AllocError>
    // The result is `refused ID CODE`, with `null` if there is no id.
    ensures { IfOk result (λ line. string_bytes line ≡ codes "refused " ++ id_text (option_map (λ n. n.value) id) ++ 32 ∷ error_code_text code) }
{
    let code = code.name();
    match id {
        None => format!(in alloc; "refused null {code}"),
        Some(id) => format!(in alloc; "refused {} {code}", id.value),
    }
}

// ---- messages of a remote end

// Gives what is shown for a line from a remote end.
fn show_message(alloc: Global, line: &[u8], scratch: &mut Scratch) -> Result<Shown, AllocError>
    ensures { IfOk result (λ shown. ShowsMessage line.now (shown_of shown)) }
{
    match value_in(alloc, line, scratch)? {
        Some(value) => show_value(alloc, &value),
        None => Ok(Shown::Refused(String::from_str(alloc, "not json")?)),
    }
}

// Gives the refusal of a line from a remote end, if it is one.
fn message_refusal(
    alloc: Global,
    line: &[u8],
    scratch: &mut Scratch,
) -> Result<Option<String>, AllocError>
    ensures { IfOk result (λ text. Refuses Remote line.now (option_map string_bytes text)) }
{
    match value_in(alloc, line, scratch)? {
        Some(value) => value_refusal(alloc, &value),
        None => Ok(Some(String::from_str(alloc, "not json")?)),
    }
}

// Reads a line as a JSON value, if it is one.
fn value_in<'a>(
    alloc: Global,
    line: &'a [u8],
    scratch: &'a mut Scratch,
) -> Result<Option<Value<'a>>, AllocError>
    ensures { IfOk result (λ found. MatchOption found (ShowsMessage line.now (Refused (codes "not json")))
        (λ v. HasTree line.now (parsed v))) }
{
    let Ok(text) = std::str::from_utf8(line) else {
        return Ok(None);
    };
    match parse(alloc, text, None, scratch) {
        Ok(value) => Ok(Some(value)),
        Err(ReadFault::NotJson) => Ok(None),
        Err(ReadFault::TooLong) => unreachable!(),
        Err(ReadFault::NoMemory) => Err(AllocError),
    }
}

// Gives what is shown for a JSON value. A response that is recognized at once is not read as a
// message.
fn show_value(alloc: Global, value: &Value<'_>) -> Result<Shown, AllocError>
    ensures { IfOk result (λ shown. (line : List ℕ) → HasTree line (parsed value.now) → ShowsMessage line (shown_of shown)) }
{
    if let Some(id) = response_id(value) {
        return Ok(Shown::Taken(known_response_line(alloc, id, value)?));
    }
    match message_of(alloc, value) {
        Ok(message) => Ok(Shown::Taken(message_line(alloc, message)?)),
        Err(MessageFault::NoFit) => Ok(Shown::Refused(String::from_str(alloc, "no fit")?)),
        Err(MessageFault::NotJson) => unreachable!(),
        Err(MessageFault::NoMemory) => Err(AllocError),
    }
}

// `response ID TEXT` of a value
fn known_response_line(alloc: Global, id: JsUint, value: &Value<'_>) -> Result<String, AllocError>
    requires { IsWritable (parsed value.now) }
    ensures { IfOk result (λ line. string_bytes line ≡ codes "response " ++ decimal id.value
        ++ 32 ∷ compact_text (parsed value.now)) }
{
    let outline = outline_parsed(alloc, value)?;
    let text = write_outline(alloc, &outline)?;
    format!(in alloc; "response {} {text}", id.value)
}

// Gives what is shown for a message.
fn message_line(alloc: Global, message: Message) -> Result<String, AllocError>
    requires { ⟦<Message as Shape>⟧.shape.well message }
    ensures { IfOk result (λ line. IsMessageLine (⟦<Message as Shape>⟧.shape.tree_of message) (string_bytes line)) }
{
    match message {
        Message::Response(response) => response_line(alloc, response),
        Message::Error(error) => error_line(alloc, error),
        Message::Event(event) => event_line(alloc, event),
    }
}

// `response ID TEXT`
fn response_line(alloc: Global, response: Response) -> Result<String, AllocError>
    requires { ⟦<Response as Shape>⟧.shape.well response }
    ensures { IfOk result (λ line. string_bytes line ≡ codes "response " ++ decimal response.id.value
        ++ 32 ∷ compact_text (⟦<Response as Shape>⟧.shape.tree_of response)) }
{
    let id = response.id;
    let text = text_for(alloc, response)?;
    format!(in alloc; "response {} {text}", id.value)
}

// `error ID TEXT`
fn error_line(alloc: Global, error: ErrorResponse) -> Result<String, AllocError>
    requires { ⟦<ErrorResponse as Shape>⟧.shape.well error }
    ensures { IfOk result (λ line. string_bytes line ≡ codes "error " ++ id_text (option_map (λ n. n.value) error.id)
        ++ 32 ∷ compact_text (⟦<ErrorResponse as Shape>⟧.shape.tree_of error)) }
{
    let id = error.id;
    let text = text_for(alloc, error)?;
    match id {
        None => format!(in alloc; "error null {text}"),
        Some(id) => format!(in alloc; "error {} {text}", id.value),
    }
}

// `event METHOD TEXT`
fn event_line(alloc: Global, event: Event) -> Result<String, AllocError>
    requires { ⟦<Event as Shape>⟧.shape.well event }
    ensures { IfOk result (λ line. string_bytes line ≡ codes "event " ++ event_name_text (event_of event.«data»)
        ++ 32 ∷ compact_text (⟦<Event as Shape>⟧.shape.tree_of event)) }
{
    let event_name = event.data.event();
    let text = text_of_event(alloc, &event);
    // By a call, in which its variants are not visible.
    drop(event);
    let text = text?;
    let mut line = String::with_capacity(alloc, text.len().saturating_add(LONGEST_HEAD))?;
    line.push_str("event ")?;
    line.push_str(event_name.name())?;
    line.push_str(" ")?;
    line.push_str(&text)?;
    Ok(line)
}

// The room for what stands in front of the text of an event.
const LONGEST_HEAD: usize = 64;

// Makes the text of an event. One without further members takes less.
fn text_of_event(alloc: Global, event: &Event) -> Result<String, AllocError>
    requires { ⟦<Event as Shape>⟧.shape.well event.now }
    ensures { IfOk result (λ s. string_bytes s ≡ compact_text (⟦<Event as Shape>⟧.shape.tree_of event.now)) }
{
    if event.ext.members.len() == 0 {
        return event_text(alloc, &event.data);
    }
    text_of(alloc, event)
}

// ---- messages of both ends

// Makes the text of a command or a message, which is used up.
fn text_for<M: Sendable>(alloc: Global, message: M) -> Result<String, AllocError>
    requires { M.shape.well message }
    ensures { IfOk result (λ s. string_bytes s ≡ compact_text (M.shape.tree_of message)) }
{
    text_of(alloc, &message)
}
