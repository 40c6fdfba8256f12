//! The subscriptions of a session, and an index of them by event.
ghost use Rattle.std.specs.Prelude.{◌≡◌, ◌<◌, ◌≤◌, ◌+◌, List, [], ◌∷◌, ◌++◌, map, filter, not, length, OnOk, IfOk, vec_len, vec_capacity};
ghost use Rattle.std.specs.List.{list_all};
ghost use Rattle.bidi_contexts.specs.Occurrences.{event_place};
ghost use Rattle.bidi_sessions.specs.SubscriptionView.{scope_of, row_of};
ghost use Rattle.bidi_sessions.specs.SubscriptionRows.{any_covers, any_global, without, dismissed};
ghost use Rattle.bidi_sessions.specs.IndexRows.{index, with_row, without_numbers, without_global, named_in, AreInOrder};
ghost use Rattle.bidi_sessions.specs.IndexView.{index_row_of, HaveRoomFor};

use crate::event_index::EventIndex;
use crate::subscriptions::{Scope, Subscription, cancel, dismiss};
use bidi_contexts::Top;
use bidi_messages::EventName;
use std::alloc::{AllocError, Global};

/// The live subscriptions of a session.
#[derive(Drop)]
pub struct Subscriptions {
    /// The subscriptions, in order of number.
    rows: Vec<Subscription>,
    /// For each event, those that have it.
    by_event: [EventIndex; 8],
    /// Room to put what a new one names in order.
    named: Vec<u64>,
    // The index always has what the subscriptions have.
    ghost index: { ∥ map index_row_of by_event ≡ index (map row_of rows.items) ∥₁ },
}

impl Subscriptions {
    ghost use Rattle.bidi_sessions.specs.SubscriptionsView.{rows_of, HasRoomFor};

    /// No subscriptions. Takes no memory.
    pub fn new(alloc: Global) -> Subscriptions
        // There are no subscriptions.
        ensures { rows_of result ≡ [] }
    {
        Subscriptions {
            rows: Vec::new(alloc),
            by_event: no_index(alloc),
            named: Vec::new(alloc),
        }
    }

    /// All of them, in order of number.
    pub fn all(&self) -> &[Subscription]
        // The slice has all subscriptions, in order of number.
        ensures { map row_of result.now ≡ rows_of self.now }
    {
        &self.rows
    }

    /// Whether one covers the event in the tree of this top-level context. Does two binary searches, whatever
    /// their number is.
    pub fn hears(&self, event: EventName, top: Top) -> bool
        // True exactly if one of the subscriptions has the event and covers the top-level context.
        ensures { result ≡ any_covers (rows_of self.now) event top }
    {
        self.by_event[place_of(event)].hears(top)
    }

    /// Whether the event is in a global one.
    pub fn any_global(&self, event: EventName) -> bool
        // True exactly if a global subscription has the event.
        ensures { result ≡ any_global (rows_of self.now) event }
    {
        self.by_event[place_of(event)].is_global()
    }

    /// Whether each of these events is in a global one.
    pub fn all_global(&self, events: &[EventName]) -> bool
        // True exactly if each event is in a global subscription.
        ensures { result ≡ list_all (any_global (rows_of self.now)) events.now }
    {
        events.iter().all(|event| self.any_global(*event))
    }

    /// Makes room for one more, to these events in this scope.
    pub fn reserve(&mut self, events: &[EventName], scope: &Scope) -> Result<(), AllocError>
        // The subscriptions are unchanged.
        ensures rows { rows_of self.new ≡ rows_of self.old }
        // After an Ok, there is room for one more subscription to these events in this scope.
        ensures room { OnOk result (HasRoomFor events.now (scope_of scope.now) self.new) }
    {
        self.rows.reserve(1)?;
        reserve_named(&mut self.named, scope)?;
        reserve_each(&mut self.by_event, events, scope)
    }

    /// Adds one. Puts what it names in order, and passes once over the pairs of each event that it has. Takes
    /// no memory.
    pub fn add(&mut self, subscription: Subscription)
        // The caller has made room for the subscription by `reserve`.
        requires { HasRoomFor (row_of subscription).events (row_of subscription).scope self.now }
        // The subscription comes after all others, which are unchanged.
        ensures { rows_of self.new ≡ rows_of self.old ++ row_of subscription ∷ [] }
    {
        put_in_order(&mut self.named, &subscription.scope);
        add_each(&mut self.by_event, &subscription, &self.named);
        self.rows.push_reserved(subscription);
    }

    /// Removes those of these numbers. Passes once over all and over the pairs of each event, and for each over the
    /// numbers. Takes no memory.
    pub fn cancel(&mut self, numbers: &[u32])
        // The subscriptions with these numbers are gone, and the others stay in order.
        ensures { rows_of self.new ≡ without numbers.now (rows_of self.old) }
    {
        cancel_each(&mut self.by_event, numbers);
        cancel(&mut self.rows, numbers);
    }

    /// Removes these events from each global one, and with its last event the subscription itself. Takes no memory.
    pub fn dismiss(&mut self, events: &[EventName])
        // The global subscriptions lose these events, and those that lose their last event are gone.
        ensures { rows_of self.new ≡ dismissed events.now (rows_of self.old) }
    {
        dismiss_each(&mut self.by_event, events);
        dismiss(&mut self.rows, events);
    }
}

// The place of an event among the eight.
fn place_of(event: EventName) -> usize
    ensures place { result ≡ event_place event }
    ensures within { result < 8 }
{
    event as usize
}

// An index that has no subscription: for each event nothing.
fn no_index(alloc: Global) -> [EventIndex; 8]
    ensures { map index_row_of result ≡ index [] }
{
    [
        EventIndex::new(alloc, EventName::ContextCreated),
        EventIndex::new(alloc, EventName::ContextDestroyed),
        EventIndex::new(alloc, EventName::NavigationStarted),
        EventIndex::new(alloc, EventName::DomContentLoaded),
        EventIndex::new(alloc, EventName::Load),
        EventIndex::new(alloc, EventName::RealmCreated),
        EventIndex::new(alloc, EventName::RealmDestroyed),
        EventIndex::new(alloc, EventName::EntryAdded),
    ]
}

// Makes room for a subscription to these events in this scope.
fn reserve_each(
    by_event: &mut [EventIndex],
    events: &[EventName],
    scope: &Scope,
) -> Result<(), AllocError>
    ensures rows { map index_row_of by_event.new ≡ map index_row_of by_event.old }
    ensures room { OnOk result (HaveRoomFor events.now (scope_of scope.now) by_event.new) }
{
    for index in by_event.iter_mut() {
        index.reserve(events, scope)?;
    }
    Ok(())
}

// Makes room to put what a scope names in order.
fn reserve_named(room: &mut Vec<u64>, scope: &Scope) -> Result<(), AllocError>
    ensures { OnOk result (length (named_in (scope_of scope.now)) ≤ vec_capacity room.new) }
{
    match scope {
        Scope::All => Ok(()),
        Scope::Below(named) | Scope::Within(named) => room.reserve(named.len()),
    }
}

// Puts what a scope names in order, in this room.
fn put_in_order(room: &mut Vec<u64>, scope: &Scope)
    requires { length (named_in (scope_of scope.now)) ≤ vec_capacity room.now }
    ensures { AreInOrder (scope_of scope.now) room.new.items }
{
    room.clear();
    match scope {
        Scope::All => {}
        Scope::Below(named) | Scope::Within(named) => {
            push_each(room, named);
            room.sort_unstable();
        }
    }
}

// Adds these behind the others.
fn push_each(room: &mut Vec<u64>, named: &[u64])
    requires { vec_len room.now + length named.now ≤ vec_capacity room.now }
    ensures { room.new.items ≡ room.old.items ++ named.now }
{
    for number in named {
        room.push_reserved(*number);
    }
}

// Adds a subscription for the events that it has. What its scope names is given in order.
fn add_each(by_event: &mut [EventIndex], subscription: &Subscription, named: &[u64])
    requires room { HaveRoomFor (row_of subscription.now).events (row_of subscription.now).scope by_event.now }
    requires order { AreInOrder (row_of subscription.now).scope named.now }
    ensures { map index_row_of by_event.new ≡ map (with_row (row_of subscription.now)) (map index_row_of by_event.old) }
{
    for index in by_event.iter_mut() {
        index.add(subscription, named);
    }
}

// Removes the subscriptions of these numbers.
fn cancel_each(by_event: &mut [EventIndex], numbers: &[u32])
    ensures { map index_row_of by_event.new ≡ map (without_numbers numbers.now) (map index_row_of by_event.old) }
{
    for index in by_event.iter_mut() {
        index.cancel(numbers);
    }
}

// Removes the global subscriptions of these events.
fn dismiss_each(by_event: &mut [EventIndex], events: &[EventName])
    ensures { map index_row_of by_event.new ≡ map (without_global events.now) (map index_row_of by_event.old) }
{
    for index in by_event.iter_mut() {
        index.dismiss(events);
    }
}
