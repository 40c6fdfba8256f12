//! Which subscriptions of a session have an event.
ghost use Rattle.std.specs.Prelude.{◌≡◌, ◌≤◌, ◌<◌, ◌+◌, ◌-◌, ◌==◌, ◌||◌, ◌++◌, Bool, true, false, [], length, take, get_or, OnOk, vec_len, vec_capacity};
ghost use Rattle.std.specs.List.{list_any};
ghost use Rattle.std.specs.List.Sorted.{IsNonDecreasing, IsNonDecreasingBy};
ghost use Rattle.std.proofs.Props.{props};
ghost use Rattle.bidi_sessions.specs.SubscriptionView.{scope_of, row_of};
ghost use Rattle.bidi_sessions.specs.IndexRows.{Pair, IndexRow, index_row, is_held, hears, with_row, without_numbers, without_global, pairs_at, AreInOrder};

use crate::subscriptions::{Scope, Subscription, is_among, is_listed};
use bidi_contexts::Top;
use bidi_messages::EventName;
use std::alloc::{AllocError, Global};

/// The subscriptions of a session that have one event.
#[derive(Drop)]
pub(crate) struct EventIndex {
    /// The event.
    pub event: EventName,
    /// The numbers of the global ones.
    pub global: Vec<u32>,
    /// Those that name top-level contexts: such a context, and the number of a subscription. Ordered by context.
    pub below: Vec<(u64, u32)>,
    /// Those that name user contexts: a user context, and the number of a subscription. Ordered by user
    /// context.
    pub within: Vec<(u64, u32)>,
    ghost below_order: { IsNonDecreasingBy (λ p. p.0) below.items } by { Prim.hlevel props },
    ghost within_order: { IsNonDecreasingBy (λ p. p.0) within.items } by { Prim.hlevel props },
}

impl EventIndex {
    ghost use Rattle.bidi_sessions.specs.IndexView.{index_row_of, HasRoomFor};

    /// An index that has no subscription. Takes no memory.
    pub(crate) fn new(alloc: Global, event: EventName) -> EventIndex
        ensures { index_row_of result ≡ index_row [] event }
    {
        EventIndex {
            event,
            global: Vec::new(alloc),
            below: Vec::new(alloc),
            within: Vec::new(alloc),
        }
    }

    /// Whether a global subscription has the event.
    pub(crate) fn is_global(&self) -> bool
        ensures { result ≡ is_held (index_row_of self.now) }
    {
        !self.global.is_empty()
    }

    /// Whether a subscription has the event in the tree of this top-level context. Does two binary searches.
    pub(crate) fn hears(&self, top: Top) -> bool
        ensures { result ≡ hears top (index_row_of self.now) }
    {
        self.is_global() || names(&self.below, top.number) || names(&self.within, top.user)
    }

    /// Makes room for a subscription to these events in this scope.
    pub(crate) fn reserve(&mut self, events: &[EventName], scope: &Scope) -> Result<(), AllocError>
        ensures row { index_row_of self.new ≡ index_row_of self.old }
        ensures room { OnOk result (HasRoomFor events.now (scope_of scope.now) self.new) }
    {
        if !is_among(events, self.event) {
            return Ok(());
        }
        match scope {
            Scope::All => self.global.reserve(1),
            Scope::Below(tops) => self.below.reserve(tops.len()),
            Scope::Within(users) => self.within.reserve(users.len()),
        }
    }

    /// Adds a subscription, if it has the event. What its scope names is given in order, so each pair moves
    /// once. Takes no memory.
    pub(crate) fn add(&mut self, subscription: &Subscription, named: &[u64])
        requires room { HasRoomFor (row_of subscription.now).events (row_of subscription.now).scope self.now }
        requires order { AreInOrder (row_of subscription.now).scope named.now }
        ensures { index_row_of self.new ≡ with_row (row_of subscription.now) (index_row_of self.old) }
    {
        if !is_among(&subscription.events, self.event) {
            return;
        }
        match &subscription.scope {
            Scope::All => self.global.push_reserved(subscription.number),
            Scope::Below(_) => put_pairs(&mut self.below, named, subscription.number),
            Scope::Within(_) => put_pairs(&mut self.within, named, subscription.number),
        }
    }

    /// Removes the subscriptions of these numbers. Passes once over all that have the event, and for each over the
    /// numbers. Takes no memory.
    pub(crate) fn cancel(&mut self, numbers: &[u32])
        ensures { index_row_of self.new ≡ without_numbers numbers.now (index_row_of self.old) }
    {
        self.global.retain(|number| !is_listed(numbers, *number));
        self.below.retain(|pair| !is_listed(numbers, pair.1));
        self.within.retain(|pair| !is_listed(numbers, pair.1));
    }

    /// Removes the global subscriptions, if the event is one of these. Takes no memory.
    pub(crate) fn dismiss(&mut self, events: &[EventName])
        ensures { index_row_of self.new ≡ without_global events.now (index_row_of self.old) }
    {
        if is_among(events, self.event) {
            self.global.clear();
        }
    }
}

// Whether a pair has this context, or user context.
fn names(pairs: &[(u64, u32)], number: u64) -> bool
    ensures { IsNonDecreasingBy (λ p. p.0) pairs.now → result ≡ list_any (λ p. p.0 == number) pairs.now }
{
    pairs.binary_search_by_key(&number, |pair| pair.0).is_ok()
}

// Adds a pair for each of these contexts, or user contexts, which ascend. Each pair that is there moves once.
fn put_pairs(pairs: &mut Vec<(u64, u32)>, tops: &[u64], number: u32)
    requires { vec_len pairs.now + length tops.now ≤ vec_capacity pairs.now }
    ensures order { IsNonDecreasing tops.now → IsNonDecreasingBy (λ p. p.0) pairs.old.items → IsNonDecreasingBy (λ p. p.0) pairs.new.items }
    ensures added { (t : Pair → Bool) → list_any t pairs.new.items ≡ (list_any t pairs.old.items || list_any t (pairs_at number tops.now)) }
{
    let held = pairs.len();
    push_pairs(pairs, tops, number);
    merge_pairs(pairs, held, tops, number);
}

// Adds these pairs behind the others.
fn push_pairs(pairs: &mut Vec<(u64, u32)>, tops: &[u64], number: u32)
    requires { vec_len pairs.now + length tops.now ≤ vec_capacity pairs.now }
    ensures { pairs.new.items ≡ pairs.old.items ++ pairs_at number tops.now }
{
    for top in tops {
        pairs.push_reserved((*top, number));
    }
}

// Puts a pair for each of these contexts, which ascend, among the first `held`, and uses up the room behind them.
fn merge_pairs(pairs: &mut [(u64, u32)], held: usize, tops: &[u64], number: u32)
    requires { held + length tops.now ≡ length pairs.now }
    ensures order { IsNonDecreasing tops.now → IsNonDecreasingBy (λ p. p.0) (take held pairs.old) → IsNonDecreasingBy (λ p. p.0) pairs.new }
    ensures added { (t : Pair → Bool) → list_any t pairs.new ≡ (list_any t (take held pairs.old) || list_any t (pairs_at number tops.now)) }
{
    let mut left = held;
    let mut right = tops.len();
    while right > 0 {
        let top = tops[right - 1];
        if is_last_above(pairs, left, top) {
            left -= 1;
            pairs[left + right] = pairs[left];
        } else {
            right -= 1;
            pairs[left + right] = (top, number);
        }
    }
}

// Whether the last of the first `left` pairs has a greater context than this one.
fn is_last_above(pairs: &[(u64, u32)], left: usize, top: u64) -> bool
    requires { left ≤ length pairs.now }
    ensures above { result ≡ true → (d : Pair) → (0 < left) × (top < (get_or pairs.now (left - 1) d).0) }
    ensures not_above { result ≡ false → (d : Pair) → 0 < left → (get_or pairs.now (left - 1) d).0 ≤ top }
{
    left > 0 && pairs[left - 1].0 > top
}
