//! The events that follow those of the remote end.
ghost use Rattle.std.specs.Prelude.{◌≡◌, IfOk, Some, map, find, bytes_eq, string_bytes, option_map};
ghost use Rattle.bidi_sessions.specs.View.{sent_of};
ghost use Rattle.bidi_remote.specs.Machine.Sent.{Text};
ghost use Rattle.json.specs.Value.{value_view};
ghost use Rattle.bidi_rows.specs.Filling.{filling_of, filled_text, template_of};
ghost use Rattle.bidi_scripted.specs.Sending.{followers_of, following};
ghost use Rattle.bidi_scripted.specs.View.{follower_of};

use crate::script::Follower;
use bidi_remote::{Sent, SentText};
use bidi_rows::{Template, filling_of, object_at, string_at};
use bidi_tree::JsUint;
use json::{Error as JsonError, Scratch, Value};
use std::alloc::{AllocError, Global};

/// The events that follow a message of the remote end.
pub(crate) fn followers_of(
    alloc: Global,
    followers: &[Follower],
    conn: JsUint,
    text: &str,
) -> Result<Vec<Sent>, AllocError>
    ensures { IfOk result (λ more. map sent_of more.items ≡ map (Text conn.value) (followers_of (map follower_of followers.now) text.now)) }
{
    if followers.is_empty() {
        return Ok(Vec::new(alloc));
    }
    let mut scratch = Scratch::new(alloc);
    let event = match Value::parse(alloc, text, &mut scratch) {
        Ok(event) => event,
        Err(JsonError::OutOfMemory) => return Err(AllocError),
        Err(_) => return Ok(Vec::new(alloc)),
    };
    match (string_at(&event, "method"), object_at(&event, "params")) {
        (Some(method), Some(params)) => filled(alloc, followers, conn, method, params),
        _ => Ok(Vec::new(alloc)),
    }
}

// The events that follow an event of this method with these params.
fn filled(
    alloc: Global,
    followers: &[Follower],
    conn: JsUint,
    method: &str,
    params: &Value<'_>,
) -> Result<Vec<Sent>, AllocError>
    ensures { IfOk result (λ sent. map sent_of sent.items
        ≡ map (Text conn.value) (following (map follower_of followers.now) (Some method.now) (Some (value_view params.now)))) }
{
    match follower_named(followers, method) {
        Some(follower) => fill_all(alloc, &follower.events, conn, params),
        None => Ok(Vec::new(alloc)),
    }
}

// The follower of this method.
fn follower_named<'f>(followers: &'f [Follower], method: &str) -> Option<&'f Follower>
    ensures { option_map (λ f. f.now) result ≡ find (λ f. bytes_eq (string_bytes f.method) method.now) followers.now }
{
    followers.iter().find(|f| f.method.as_str() == method)
}

// These events, filled for an event with these params.
fn fill_all(
    alloc: Global,
    events: &[Template],
    conn: JsUint,
    params: &Value<'_>,
) -> Result<Vec<Sent>, AllocError>
    ensures { IfOk result (λ sent. map sent_of sent.items
        ≡ map (λ e. Text conn.value (filled_text (filling_of (value_view params.now)) (template_of e))) events.now) }
{
    let filling = filling_of(params);
    let mut sent = Vec::new(alloc);
    for event in events {
        let text = event.fill(alloc, filling)?;
        sent.push(Sent::Text(conn, SentText::Own(text)))?;
    }
    Ok(sent)
}
