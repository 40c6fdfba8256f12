//! What is sent for the answers and the events of a test.
ghost use Rattle.std.specs.Prelude.{◌≡◌, ◌≤◌, [], ◌∷◌, ◌++◌, List, length, map, flat_map, filter, IfOk, OnOk, IsErrOf, string_bytes};
ghost use Rattle.bidi_sessions.specs.Limits.{most_steps};
ghost use Rattle.bidi_sessions.specs.View.{sent_of};
ghost use Rattle.bidi_rows.specs.View.{event_of, events_of, answer_of};
ghost use Rattle.bidi_remote.specs.Machine.History.{Input};
ghost use Rattle.bidi_remote.specs.Machine.Connections.{connections_of};
ghost use Rattle.bidi_remote.specs.Machine.Outcome.{deeds};
ghost use Rattle.bidi_remote.specs.Machine.Sent.{Text};
ghost use Rattle.bidi_remote.specs.State.Stands.{StandsFor};
ghost use Rattle.bidi_names.specs.Names.{event_named};
ghost use Rattle.bidi_names.specs.Subscriptions.{named_of};
ghost use Rattle.bidi_scripted.specs.Sending.{top_of_event, reaches, emitted, all_emitted, answer_sent};

use bidi_messages::EventName;
use bidi_names::{NamedSubscription, holds_name};
use bidi_remote::{RemoteEnd, RemoteFault, Sent, SentText, Top};
use bidi_rows::{Answer, Event, reply_text};
use bidi_shape::Named;
use bidi_tree::JsUint;
use std::alloc::{AllocError, Global};

/// What is sent for a command that is answered: the events before, the reply, and the events after.
pub(crate) fn answer_sent(
    alloc: Global,
    end: &RemoteEnd,
    named: &[NamedSubscription],
    conn: JsUint,
    id: JsUint,
    answer: &Answer,
) -> Result<Vec<Sent>, RemoteFault>
    ensures sends { (h : List Input) → StandsFor end.now h
        → IfOk result (λ sent. map sent_of sent.items ≡ answer_sent (deeds h) (map named_of named.now) conn.value id.value (answer_of answer.now)) }
    ensures worn_out { (h : List Input) → StandsFor end.now h → IsErrOf result RemoteFault.WornOut → most_steps ≤ length h }
{
    let mut sent = Vec::new(alloc);
    push_events(end, named, &answer.before, &mut sent)?;
    let reply = reply_text(alloc, id, &answer.reply)?;
    push_text(conn, reply, &mut sent)?;
    push_events(end, named, &answer.after, &mut sent)?;
    Ok(sent)
}

// Adds a text for one connection.
fn push_text(conn: JsUint, text: String, sent: &mut Vec<Sent>) -> Result<(), AllocError>
    ensures { OnOk result (map sent_of sent.new.items ≡ map sent_of sent.old.items ++ Text conn.value (string_bytes text) ∷ []) }
{
    Ok(sent.push(Sent::Text(conn, SentText::Own(text)))?)
}

/// Adds the messages of some events, for the sessions that they reach.
pub(crate) fn push_events(
    end: &RemoteEnd,
    named: &[NamedSubscription],
    events: &[Event],
    sent: &mut Vec<Sent>,
) -> Result<(), RemoteFault>
    ensures sends { (h : List Input) → StandsFor end.now h → IfOk result (λ _. map sent_of sent.new.items
        ≡ map sent_of sent.old.items ++ all_emitted (deeds h) (map named_of named.now) (events_of events.now)) }
    ensures worn_out { (h : List Input) → StandsFor end.now h → IsErrOf result RemoteFault.WornOut → most_steps ≤ length h }
{
    for event in events {
        push_event(end, named, event, sent)?;
    }
    Ok(())
}

/// Adds the message of an event, for the sessions that it reaches.
pub(crate) fn push_event(
    end: &RemoteEnd,
    named: &[NamedSubscription],
    event: &Event,
    sent: &mut Vec<Sent>,
) -> Result<(), RemoteFault>
    ensures sends { (h : List Input) → StandsFor end.now h → IfOk result (λ _. map sent_of sent.new.items
        ≡ map sent_of sent.old.items ++ emitted (deeds h) (map named_of named.now) (event_of event.now)) }
    ensures worn_out { (h : List Input) → StandsFor end.now h → IsErrOf result RemoteFault.WornOut → most_steps ≤ length h }
{
    let top = top_of_event(end, event)?;
    let sessions = end.sessions()?;
    push_reached(end, named, &sessions, event, top, sent)?;
    Ok(())
}

// The top-level context in whose tree an event happens.
fn top_of_event(end: &RemoteEnd, event: &Event) -> Result<Option<Top>, RemoteFault>
    ensures top { (h : List Input) → StandsFor end.now h → IfOk result (λ top. top ≡ top_of_event (deeds h) (event_of event.now)) }
    ensures worn_out { (h : List Input) → StandsFor end.now h → IsErrOf result RemoteFault.WornOut → most_steps ≤ length h }
{
    match &event.context {
        Some(context) => end.top_at(context.as_str()),
        None => Ok(None),
    }
}

// Adds the message of an event for each connection of those of the sessions that it reaches.
fn push_reached(
    end: &RemoteEnd,
    named: &[NamedSubscription],
    sessions: &[u32],
    event: &Event,
    top: Option<Top>,
    sent: &mut Vec<Sent>,
) -> Result<(), AllocError>
    ensures { (h : List Input) → StandsFor end.now h → IfOk result (λ _. map sent_of sent.new.items ≡ map sent_of sent.old.items
        ++ flat_map (λ s. map (λ c. Text c (event_of event.now).text) (connections_of (deeds h) s))
        (filter (reaches (deeds h) (map named_of named.now) (event_of event.now).method (event_named (event_of event.now).method) top) sessions.now)) }
{
    let name = EventName::named(event.method.as_str());
    for session in sessions {
        if reaches(end, named, event.method.as_str(), name, top, *session) {
            end.push_text(*session, &event.text, sent)?;
        }
    }
    Ok(())
}

// Whether an event reaches a session.
fn reaches(
    end: &RemoteEnd,
    named: &[NamedSubscription],
    method: &str,
    name: Option<EventName>,
    top: Option<Top>,
    session: u32,
) -> bool
    ensures { (h : List Input) → StandsFor end.now h → result ≡ reaches (deeds h) (map named_of named.now) method.now name top session }
{
    match name {
        Some(event) => end.hears(session, event, top),
        None => holds_name(named, session, method, top),
    }
}
