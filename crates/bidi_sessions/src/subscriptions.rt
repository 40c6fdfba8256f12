//! Subscriptions of a session, by events and scope.
ghost use Rattle.std.specs.Prelude.{◌≡◌, ◌&&◌, ℕ, map, string_bytes, option_map, find, filter, not, bytes_eq};
ghost use Rattle.std.specs.List.{list_all, list_any};
ghost use Rattle.bidi_sessions.specs.Scope.{is_global, is_listed, covers};
ghost use Rattle.bidi_sessions.specs.SubscriptionRows.{row_covers, row_holds, numbers_named, loses_all, stripped, dismissed};
ghost use Rattle.bidi_sessions.specs.Checked.{IfChecked};
ghost use Rattle.bidi_sessions.specs.SubscriptionView.{scope_of, row_of};
ghost use Rattle.bidi_handles.specs.Ids.{id_text};
ghost use Rattle.bidi_contexts.specs.Occurrences.{is_among};

use bidi_contexts::Top;
use bidi_handles::{IdKind, Refusal, id_number};
use bidi_messages::{ErrorCode, EventName};
use std::alloc::Global;

/// The contexts that a subscription covers.
#[derive(Drop)]
pub enum Scope {
    /// All contexts.
    All,
    /// The contexts in the trees of some top-level ones, which are named by their numbers.
    Below(Vec<u64>),
    /// The contexts in some user contexts, also those that come later. The user contexts are named by their
    /// numbers.
    Within(Vec<u64>),
}

impl Scope {
    // Whether it is all contexts.
    fn is_global(&self) -> bool
        ensures { result ≡ is_global (scope_of self.now) }
    {
        match self {
            Scope::All => true,
            Scope::Below(_) | Scope::Within(_) => false,
        }
    }

    // Whether it has the contexts in the tree of this top-level one.
    fn covers(&self, top: Top) -> bool
        ensures { result ≡ covers (scope_of self.now) top }
    {
        match self {
            Scope::All => true,
            Scope::Below(tops) => tops.contains(&top.number),
            Scope::Within(users) => users.contains(&top.user),
        }
    }
}

/// A live subscription.
#[derive(Drop)]
pub struct Subscription {
    /// The number of the subscription within its session, from which its id is made.
    pub number: u32,
    /// The events that it still has; some may have been removed by an unsubscribe.
    pub events: Vec<EventName>,
    /// The contexts that it covers.
    pub scope: Scope,
}

impl Subscription {
    // Whether it is global, and would lose its last events with these.
    fn loses_all(&self, events: &[EventName]) -> bool
        ensures { result ≡ loses_all events.now (row_of self.now) }
    {
        self.scope.is_global() && !self.events.is_empty() && are_among(events, &self.events)
    }
}

/// Whether these events in this scope cover the event in the tree of this top-level context.
pub fn covers(events: &[EventName], scope: &Scope, event: EventName, top: Top) -> bool
    // True exactly if the event is one of these and the scope has the top-level context.
    ensures { result ≡ (is_among events.now event && covers (scope_of scope.now) top) }
{
    is_among(events, event) && scope.covers(top)
}

/// The numbers of the subscriptions of a session that have these ids.
///
/// # Errors
/// - `invalid argument`: an id is that of no subscription.
/// - No memory: an allocation failed.
pub fn numbers_of(
    alloc: Global,
    subscriptions: &[Subscription],
    session: u32,
    ids: &[String],
) -> Result<Vec<u32>, Refusal>
    // The numbers come in the order of the ids. The first id that names no subscription is an invalid argument.
    ensures { IfChecked result (λ numbers. numbers.items) (numbers_named session (map row_of subscriptions.now) (map string_bytes ids.now)) }
{
    let mut numbers = Vec::new(alloc);
    for id in ids {
        match number_of(subscriptions, session, id) {
            Some(number) => numbers.push(number)?,
            None => return Err(Refusal::Code(ErrorCode::InvalidArgument)),
        }
    }
    Ok(numbers)
}

// The number of the subscription of a session that has the id.
fn number_of(subscriptions: &[Subscription], session: u32, id: &str) -> Option<u32>
    ensures { result ≡ option_map (λ s. s.number) (find (λ s. bytes_eq id.now (id_text IdKind.Subscription session s.number)) subscriptions.now) }
{
    // The greatest number stands for none: no subscription has it.
    let number = id_number(id, IdKind::Subscription, session).unwrap_or(u64::MAX);
    subscriptions
        .iter()
        .find(|s| u64::from(s.number) == number)
        .map(|s| s.number)
}

/// These numbers in ascending order, each once: a client may name a subscription as often as it likes, and each
/// number is looked for in all that the session has. Takes no memory.
pub fn distinct(mut numbers: Vec<u32>) -> Vec<u32>
    // The result has the same numbers as the argument.
    ensures { (n : ℕ) → is_listed result.items n ≡ is_listed numbers.items n }
{
    numbers.sort_unstable();
    numbers.dedup();
    numbers
}

/// Removes the subscriptions of these numbers.
pub(crate) fn cancel(subscriptions: &mut Vec<Subscription>, numbers: &[u32])
    ensures { subscriptions.new.items ≡ filter (λ s. not (is_listed numbers.now s.number)) subscriptions.old.items }
{
    subscriptions.retain(|s| !is_listed(numbers, s.number));
}

/// Whether the number is one of these. One alone, as most often, takes no loop.
pub(crate) fn is_listed(numbers: &[u32], number: u32) -> bool
    ensures { result ≡ is_listed numbers.now number }
{
    match numbers {
        [one] => *one == number,
        _ => numbers.iter().any(|n| *n == number),
    }
}

/// Removes these events from each global subscription, and with its last event the subscription itself.
pub(crate) fn dismiss(subscriptions: &mut Vec<Subscription>, events: &[EventName])
    ensures { map row_of subscriptions.new.items ≡ dismissed events.now (map row_of subscriptions.old.items) }
{
    subscriptions.retain(|s| !s.loses_all(events));
    strip(subscriptions, events);
}

// Removes these events from each global subscription.
fn strip(subscriptions: &mut [Subscription], events: &[EventName])
    ensures { map row_of subscriptions.new ≡ map (stripped events.now) (map row_of subscriptions.old) }
{
    for subscription in subscriptions.iter_mut() {
        if subscription.scope.is_global() {
            subscription.events.retain(|e| !is_among(events, *e));
        }
    }
}

// Whether each of `these` is one of `those`.
fn are_among(those: &[EventName], these: &[EventName]) -> bool
    ensures { result ≡ list_all (is_among those.now) these.now }
{
    these.iter().all(|event| is_among(those, *event))
}

/// Whether the event is one of these.
pub fn is_among(events: &[EventName], event: EventName) -> bool
    // True exactly if the event is one of these.
    ensures { result ≡ is_among events.now event }
{
    events.contains(&event)
}
