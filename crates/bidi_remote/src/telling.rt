//! What is sent for a turn: each event to the sessions that are subscribed to it, and the reply in its place.
ghost use Rattle.std.specs.Prelude.{◌≡◌, ◌++◌, List, map, flat_map, filter, string_bytes, IfOk, IfSome, OnOk};
ghost use Rattle.std.specs.List.{AllByRecursion, list_any};
ghost use Rattle.bidi_contexts.specs.Acts.{Act};
ghost use Rattle.bidi_contexts.specs.View.{occurrence_of, seen};
ghost use Rattle.bidi_browser.specs.Plans.{IsWellResult};
ghost use Rattle.bidi_browser.specs.View.{result_tree};
ghost use Rattle.bidi_remote.specs.Machine.History.{Deed};
ghost use Rattle.bidi_contexts.specs.Occurrences as heard;
ghost use Rattle.bidi_methods.specs.declared.event_data.EventName.TheVariants.{EntryAdded};
ghost use Rattle.bidi_messages.specs.Reading.{IsMessageText};
ghost use Rattle.bidi_remote.specs.Replies.{ReadsAs};
ghost use Rattle.bidi_remote.specs.Machine.Sent.{Text, to_hearers};
ghost use Rattle.bidi_remote.specs.State.EventTexts.{written, AreMessages};
ghost use Rattle.bidi_active.specs.Written.{written_of, written_in};
ghost use Rattle.bidi_sessions.specs.ConnectionRows.{rows_in, to_each};
ghost use Rattle.bidi_sessions.specs.SubscriptionRows.{any_covers};
ghost use Rattle.bidi_active.specs.SessionView as sessions;
ghost use Rattle.bidi_active.specs.SessionView.{session_row_of};
ghost use Rattle.bidi_remote.specs.Machine.Messages.{AllReadBack};
ghost use Rattle.bidi_remote.specs.State.Routes.{to_one, to_all};
ghost use Rattle.bidi_remote.specs.State.Stands.{AgreeWith};
ghost use Rattle.bidi_remote.specs.State.Turns.{IsWellTold, deed_of, asker_in, reply_in, items_in, sent_of_item, sent_for, to_subscriber_in, closed_in};
ghost use Rattle.bidi_sessions.specs.View.{sent_of, sent_if};
ghost use Rattle.bidi_messages.specs.Message.{response_text};
ghost use Rattle.bidi_messages.specs.Payloads.{EventIsWell};

use crate::state::State;
use crate::turn::{Change, Reply, Telling};
use bidi_active::{EventText, Session};
use bidi_browser::{CommandResult, Occurrence, Top};
use bidi_messages::{
    EventData, EventName, Message, Payload, event_text, response_around, response_text,
};
use bidi_sessions::{Connections, Sent, SentText};
use bidi_shape::Shape;
use bidi_tree::JsUint;
use std::alloc::{AllocError, Global};
use std::rc::Rc;

/// All that is sent for a change: the events for a new subscription, then the other events with the reply in
/// its place, then the closes of connections.
///
/// The text of each event is made once. Sessions come in order of creation, and the connections of each in
/// order of opening.
pub(crate) fn tell(
    alloc: Global,
    state: &State,
    change: &Change,
    telling: Telling,
) -> Result<Vec<Sent>, AllocError>
    requires { IsWellTold telling }
    ensures told { (past : List Deed) (act : Act) → AgreeWith state.now past → IfOk result (λ sent. map sent_of sent.items
        ≡ sent_for past (asker_in telling.reply) (deed_of change.now act) (written_in telling.announced.items) (items_in telling)) }
    ensures reads_back { AreMessages (written_in telling.announced.items) → IfOk result (λ sent. AllReadBack (map sent_of sent.items)) }
    ensures reads { IfSome telling.reply (λ r. OnOk result (ReadsAs r.to.id.value (result_tree r.outcome))) }
{
    let Telling {
        announced,
        before,
        reply,
        after,
    } = telling;
    let reply = reply_sent(alloc, reply)?;
    all_sent(alloc, state, change, &announced, &before, reply, &after)
}

/// A log entry's text for each connection of the sessions that are subscribed to it.
pub(crate) fn tell_entry(
    alloc: Global,
    state: &State,
    entry: &EventText,
) -> Result<Vec<Sent>, AllocError>
    ensures told { (past : List Deed) (o : heard.Occurrence) → AgreeWith state.now past
        → o.event ≡ EntryAdded → written_of entry.now ≡ written o → IfOk result (λ sent. map sent_of sent.items ≡ to_hearers past o) }
    ensures reads_back { IsMessageText ⟦<Message as Shape>⟧.shape (string_bytes entry.now.text.value) → IfOk result (λ sent. AllReadBack (map sent_of sent.items)) }
{
    let mut sent = Vec::new(alloc);
    push_heard(
        state.sessions.all(),
        &state.connections,
        EventName::EntryAdded,
        entry.top,
        &entry.text,
        &mut sent,
    )?;
    Ok(sent)
}

// What is sent, one after another.
fn all_sent(
    alloc: Global,
    state: &State,
    change: &Change,
    announced: &[Rc<EventText>],
    before: &[Occurrence],
    reply: Option<Sent>,
    after: &[Occurrence],
) -> Result<Vec<Sent>, AllocError>
    requires before { AllByRecursion (λ o. EventIsWell o.event) before.now }
    requires after { AllByRecursion (λ o. EventIsWell o.event) after.now }
    ensures sent { (act : Act) → IfOk result
        (λ sent. map sent_of sent.items ≡ to_subscriber_in (rows_in state.now.connections) (deed_of change.now act) (written_in announced.now)
        ++ ((flat_map (to_all (sessions.rows_in state.now.sessions) (rows_in state.now.connections)) (seen before.now)
        ++ (sent_if reply ++ flat_map (to_all (sessions.rows_in state.now.sessions) (rows_in state.now.connections)) (seen after.now)))
        ++ closed_in (rows_in state.now.connections) (deed_of change.now act))) }
    ensures reads_back { AreMessages (written_in announced.now) → AllReadBack (sent_if reply) → IfOk result (λ sent. AllReadBack (map sent_of sent.items)) }
{
    let mut sent = Vec::new(alloc);
    push_announced(&state.connections, change, announced, &mut sent)?;
    push_events(alloc, state, before, &mut sent)?;
    push_if(reply, &mut sent)?;
    push_events(alloc, state, after, &mut sent)?;
    push_closes(&state.connections, change, &mut sent)?;
    Ok(sent)
}

// The reply with its text, if there is one.
fn reply_sent(alloc: Global, reply: Option<Reply>) -> Result<Option<Sent>, AllocError>
    requires { IfSome reply (λ r. IsWellResult r.outcome) }
    ensures reply { (past : List Deed) → IfOk result (λ sent. sent_if sent ≡ flat_map (sent_of_item past (asker_in reply)) (reply_in reply)) }
    ensures reads_back { IfOk result (λ sent. AllReadBack (sent_if sent)) }
    ensures reads { IfSome reply (λ r. OnOk result (ReadsAs r.to.id.value (result_tree r.outcome))) }
{
    match reply {
        Some(Reply { to, outcome }) => {
            let text = reply_text(alloc, to.id, outcome)?;
            Ok(Some(Sent::Text(to.conn, SentText::Own(text))))
        }
        None => Ok(None),
    }
}

// The text of the reply to a command of this id. The result is used up.
fn reply_text(alloc: Global, id: JsUint, outcome: CommandResult) -> Result<String, AllocError>
    requires { IsWellResult outcome }
    ensures text { IfOk result (λ s. string_bytes s ≡ response_text id.value (result_tree outcome)) }
    ensures reads_back { IfOk result (λ s. IsMessageText ⟦<Message as Shape>⟧.shape (string_bytes s)) }
    ensures reads { OnOk result (ReadsAs id.value (result_tree outcome)) }
{
    match outcome {
        CommandResult::Data(data) => response_text(alloc, id, data),
        CommandResult::Text(result) => response_around(alloc, id, &result.text),
    }
}

// Adds the reply, if there is one.
fn push_if(reply: Option<Sent>, sent: &mut Vec<Sent>) -> Result<(), AllocError>
    ensures { IfOk result (λ _. map sent_of sent.new.items ≡ map sent_of sent.old.items ++ sent_if reply) }
{
    if let Some(reply) = reply {
        sent.push(reply)?;
    }
    Ok(())
}

// Adds the events for a new subscription, for each connection of its session.
fn push_announced(
    connections: &Connections,
    change: &Change,
    announced: &[Rc<EventText>],
    sent: &mut Vec<Sent>,
) -> Result<(), AllocError>
    ensures { (act : Act) → IfOk result (λ _. map sent_of sent.new.items
        ≡ map sent_of sent.old.items ++ to_subscriber_in (rows_in connections.now) (deed_of change.now act) (written_in announced.now)) }
{
    match change {
        Change::Subscribe(session, _, _) => push_to_session(connections, *session, announced, sent),
        _ => Ok(()),
    }
}

// Adds some texts for each connection of a session.
fn push_to_session(
    connections: &Connections,
    session: u32,
    texts: &[Rc<EventText>],
    sent: &mut Vec<Sent>,
) -> Result<(), AllocError>
    ensures { IfOk result (λ _. map sent_of sent.new.items
        ≡ map sent_of sent.old.items ++ flat_map (λ w. to_one (rows_in connections.now) session w.text) (written_in texts.now)) }
{
    for event in texts {
        connections.push_text(session, &event.text, sent)?;
    }
    Ok(())
}

// Adds events for the sessions that are subscribed to them.
fn push_events(
    alloc: Global,
    state: &State,
    occurrences: &[Occurrence],
    sent: &mut Vec<Sent>,
) -> Result<(), AllocError>
    requires { AllByRecursion (λ o. EventIsWell o.event) occurrences.now }
    ensures sent { IfOk result (λ _. map sent_of sent.new.items
        ≡ map sent_of sent.old.items ++ flat_map (to_all (sessions.rows_in state.now.sessions) (rows_in state.now.connections)) (seen occurrences.now)) }
    ensures reads_back { AllReadBack (map sent_of sent.old.items) → IfOk result (λ _. AllReadBack (map sent_of sent.new.items)) }
{
    for occurrence in occurrences {
        push_event(
            alloc,
            state.sessions.all(),
            &state.connections,
            occurrence,
            sent,
        )?;
    }
    Ok(())
}

// Adds an event for the sessions that are subscribed to it. Its text is made only where there are any.
fn push_event(
    alloc: Global,
    sessions: &[Session],
    connections: &Connections,
    occurrence: &Occurrence,
    sent: &mut Vec<Sent>,
) -> Result<(), AllocError>
    requires { EventIsWell occurrence.now.event }
    ensures sent { IfOk result (λ _. map sent_of sent.new.items
        ≡ map sent_of sent.old.items ++ to_all (map session_row_of sessions.now) (rows_in connections.now)
        (occurrence_of occurrence.now)) }
    ensures reads_back { AllReadBack (map sent_of sent.old.items) → IfOk result (λ _. AllReadBack (map sent_of sent.new.items)) }
{
    let event = occurrence.event.kind();
    if !is_heard(sessions, event, occurrence.top) {
        return Ok(());
    }
    let text = Rc::new(alloc, event_text(alloc, &occurrence.event)?)?;
    push_heard(sessions, connections, event, occurrence.top, &text, sent)
}

// Whether the event is enabled for some session in the tree of this top-level context.
fn is_heard(sessions: &[Session], event: EventName, top: Top) -> bool
    ensures { result ≡ list_any (λ s. any_covers (session_row_of s).subscriptions event top) sessions.now }
{
    sessions.iter().any(|session| session.hears(event, top))
}

// Adds the text of an event for each connection of the sessions for which it is enabled.
fn push_heard(
    sessions: &[Session],
    connections: &Connections,
    event: EventName,
    top: Top,
    text: &Rc<String>,
    sent: &mut Vec<Sent>,
) -> Result<(), AllocError>
    ensures { IfOk result (λ _. map sent_of sent.new.items ≡ map sent_of sent.old.items
        ++ flat_map (λ r. to_each (λ c. Text c (string_bytes text.now.value)) r.number (rows_in connections.now))
        (filter (λ r. any_covers r.subscriptions event top) (map session_row_of sessions.now))) }
{
    for session in sessions {
        if session.hears(event, top) {
            connections.push_text(session.number, text, sent)?;
        }
    }
    Ok(())
}

// Adds the closes of a session that ends.
fn push_closes(
    connections: &Connections,
    change: &Change,
    sent: &mut Vec<Sent>,
) -> Result<(), AllocError>
    ensures { (act : Act)
        → IfOk result (λ _. map sent_of sent.new.items ≡ map sent_of sent.old.items ++ closed_in (rows_in connections.now) (deed_of change.now act)) }
{
    match change {
        Change::End(session) => connections.push_closes(*session, sent),
        _ => Ok(()),
    }
}
