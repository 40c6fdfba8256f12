//! What a new subscription enables that was not enabled before.
ghost use Rattle.std.specs.Prelude.{◌≡◌, ◌||◌, List, map};
ghost use Rattle.std.specs.VecDeque.{deque_len, deque_capacity};
ghost use Rattle.bidi_contexts.specs.Acts.{Act};
ghost use Rattle.bidi_browser.specs.Stands.{StandsFor};
ghost use Rattle.bidi_methods.specs.declared.event_data.EventName.TheVariants.{EntryAdded};
ghost use Rattle.bidi_active.specs.Written.{place_row};
ghost use Rattle.bidi_active.specs.Places.{all_left};
ghost use Rattle.bidi_sessions.specs.SubscriptionView.{scope_of};
ghost use Rattle.bidi_sessions.specs.SubscriptionsView.{rows_of};
ghost use Rattle.bidi_active.specs.News.{is_new};
ghost use Rattle.bidi_sessions.specs.SubscriptionRows.{may_be_new};

use crate::event_text::EventText;
use bidi_browser::{Browser, Top};
use bidi_messages::EventName;
use bidi_sessions::{Scope, Subscriptions, covers, is_among};
use std::collections::VecDeque;
use std::rc::Rc;

/// Whether a subscription to these events in this scope newly enables the event for a top-level context: the
/// context is live, the subscription covers the event there, and none of those held does.
///
/// Passes over the live contexts, where these events cover the event and it is not enabled yet. Takes no
/// memory.
pub fn is_new(
    browser: &Browser,
    held: &Subscriptions,
    events: &[EventName],
    scope: &Scope,
    event: EventName,
    top: Top,
) -> bool
    // The result is as the definition says, for any past that the browser stands for.
    ensures { (past : List Act) → StandsFor browser.now past → result ≡ is_new past (rows_of held.now) events.now (scope_of scope.now) event top }
{
    covers(events, scope, event, top) && !held.hears(event, top) && browser.is_live(top.number)
}

/// Whether a subscription to these events may newly enable the event for some context: it has the event, and
/// no global one held does. Takes no memory.
pub fn may_be_new(held: &Subscriptions, events: &[EventName], event: EventName) -> bool
    // The result is false only if the event is newly enabled for no context.
    ensures { result ≡ may_be_new (rows_of held.now) events.now event }
{
    is_among(events, event) && !held.any_global(event)
}

/// Whether a subscription to these events may newly enable one of the events that tell what exists. Takes no
/// memory.
pub fn may_tell_what_exists(held: &Subscriptions, events: &[EventName]) -> bool
    // The result is false only if each of these events is newly enabled for no context.
    ensures { result ≡ (may_be_new (rows_of held.now) events.now EventName.ContextCreated
        || may_be_new (rows_of held.now) events.now EventName.RealmCreated) }
{
    may_be_new(held, events, EventName::ContextCreated)
        || may_be_new(held, events, EventName::RealmCreated)
}

/// Empties the places of the log entries that a subscription to these events in this scope newly enables.
/// They are sent when it is made, and wait no longer.
pub(crate) fn announce(
    places: &mut VecDeque<Option<Rc<EventText>>>,
    browser: &Browser,
    held: &Subscriptions,
    events: &[EventName],
    scope: &Scope,
)
    ensures places { (past : List Act) → StandsFor browser.now past → map place_row places.new.items
        ≡ all_left (is_new past (rows_of held.now) events.now (scope_of scope.now) EntryAdded) (map place_row places.old.items) }
    ensures len { deque_len places.new ≡ deque_len places.old }
    ensures capacity { deque_capacity places.new ≡ deque_capacity places.old }
{
    if !may_be_new(held, events, EventName::EntryAdded) {
        return;
    }
    for at in 0..places.len() {
        let top = match &places[at] {
            Some(entry) => entry.top,
            None => continue,
        };
        if is_new(browser, held, events, scope, EventName::EntryAdded, top) {
            places[at] = None;
        }
    }
}
