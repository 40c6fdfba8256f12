//! Subscriptions to names that a test made known.
ghost use Rattle.std.specs.Prelude.{◌≡◌, ◌<◌, ◌≤◌, ◌+◌, ◌^◌, ◌==◌, ◌&&◌, ◌||◌, MatchOption, IfOk, not, nat_lt, length, map, filter, bytes_eq, string_bytes, vec_len, vec_capacity};
ghost use Rattle.std.specs.List.{list_any, list_all};
ghost use Rattle.bidi_sessions.specs.Scope.{is_global, is_listed};
ghost use Rattle.bidi_names.specs.Names.{is_or_in};
ghost use Rattle.bidi_handles.specs.Ids.{id_text};
ghost use Rattle.bidi_handles.specs.declared.id.IdKind.TheVariants.{Subscription};
ghost use Rattle.bidi_names.specs.Subscriptions.{holds_globally, names_in, is_too_many, without, stripped, has_any, dismissed, cancelled, of_active, named_of, has_name, is_within, holds_name, unlisted, is_id_of, other_ids};
ghost use Rattle.bidi_names.specs.Sums.{total};
ghost use Rattle.bidi_sessions.specs.SubscriptionView.{scope_of};

use crate::names::{is_one, is_or_in};
use bidi_contexts::Top;
use bidi_handles::{IdKind, id_number};
use bidi_sessions::Scope;
use std::alloc::{AllocError, Global};

/// How many names of a test the subscriptions of a session can have.
const MOST_NAMES: usize = 1_024;

/// What a subscription has that the remote end does not know.
#[derive(Drop)]
pub struct NamedSubscription {
    /// The number of its session.
    pub session: u32,
    /// Its number in the session.
    pub number: u64,
    /// The names that only the test has.
    pub names: Vec<String>,
    /// The modules of the profile in which the test may have further events.
    pub modules: Vec<String>,
    /// Its scope.
    pub scope: Scope,
}

impl NamedSubscription {
    // Whether it reaches an event of this name there.
    fn reaches(&self, session: u32, name: &str, top: Option<Top>) -> bool
        ensures { result ≡ ((self.now.session == session) && (has_name (named_of self.now) name.now && is_within (scope_of self.now.scope) top)) }
    {
        self.session == session && self.has_name(name) && is_within(&self.scope, top)
    }

    // Whether it has a name, or a module of it.
    fn has_name(&self, name: &str) -> bool
        ensures { result ≡ has_name (named_of self.now) name.now }
    {
        has_name(&self.names, name) || has_name(&self.modules, name)
    }

    // How many names of a test it has, if it is of this session.
    fn names_in(&self, session: u32) -> usize
        ensures { result ≡ names_in session (named_of self.now) }
    {
        if self.session == session {
            self.names.len()
        } else {
            0
        }
    }

    /// Whether it has a name or a module.
    pub fn has_any(&self) -> bool
        // False exactly if it has neither.
        ensures { result ≡ has_any (named_of self.now) }
    {
        !(self.names.len() == 0 && self.modules.len() == 0)
    }

    // Removes these names and these modules.
    fn lose(&mut self, names: &[String], modules: &[String])
        ensures { named_of self.new ≡ without (map string_bytes names.now) (map string_bytes modules.now) (named_of self.old) }
    {
        remove_names(&mut self.names, names);
        remove_names(&mut self.modules, modules);
    }

    // Whether it is of this session, and has none of these numbers.
    fn is_unlisted(&self, session: u32, numbers: &[u32]) -> bool
        ensures { result ≡ ((self.now.session == session) && not (is_listed numbers.now self.now.number)) }
    {
        self.session == session && !has_number(numbers, self.number)
    }

    // Whether it is of this session and for all contexts.
    fn is_global_of(&self, session: u32) -> bool
        ensures { result ≡ ((self.now.session == session) && is_global (scope_of self.now.scope)) }
    {
        self.session == session && is_all(&self.scope)
    }

    // Whether it is of this session and has one of these numbers.
    fn is_one_of(&self, session: u32, numbers: &[u64]) -> bool
        ensures { result ≡ ((self.now.session == session) && is_listed numbers.now self.now.number) }
    {
        self.session == session && is_listed(numbers, self.number)
    }

    // Whether it has this very name for all contexts.
    fn has_globally(&self, session: u32, name: &str) -> bool
        ensures { result ≡ ((self.now.session == session) && (is_global (scope_of self.now.scope) && list_any (bytes_eq name.now) (map string_bytes self.now.names.items))) }
    {
        self.session == session && is_all(&self.scope) && is_one(&self.names, name)
    }
}

// Whether a scope is that of all contexts.
fn is_all(scope: &Scope) -> bool
    ensures { result ≡ is_global (scope_of scope.now) }
{
    match scope {
        Scope::All => true,
        Scope::Below(_) | Scope::Within(_) => false,
    }
}

// Whether the name, or its module, is one of these.
fn has_name(names: &[String], name: &str) -> bool
    ensures { result ≡ list_any (is_or_in name.now) (map string_bytes names.now) }
{
    is_of_one(names, name)
}

// Whether the name, or its module, is one of these.
fn is_of_one(names: &[String], name: &str) -> bool
    ensures { result ≡ list_any (λ of. is_or_in name.now (string_bytes of)) names.now }
{
    names.iter().any(|of| is_or_in(name, of.as_str()))
}

// Whether a scope has this top-level context; without one, whether it is that of all contexts.
fn is_within(scope: &Scope, top: Option<Top>) -> bool
    ensures { result ≡ is_within (scope_of scope.now) top }
{
    match (scope, top) {
        (Scope::All, _) => true,
        (Scope::Below(tops), Some(top)) => is_listed(tops, top.number),
        (Scope::Within(users), Some(top)) => is_listed(users, top.user),
        (Scope::Below(_), None) | (Scope::Within(_), None) => false,
    }
}

// Whether the number is one of these.
fn is_listed(numbers: &[u64], number: u64) -> bool
    ensures { result ≡ list_any (λ n. n == number) numbers.now }
{
    numbers.iter().any(|n| *n == number)
}

// Whether the number is one of these.
fn has_number(numbers: &[u32], number: u64) -> bool
    ensures { result ≡ is_listed numbers.now number }
{
    numbers.iter().any(|n| u64::from(*n) == number)
}

/// Whether a session is subscribed to an event of this name there: to the name, or to a module of it. Takes no memory.
pub fn holds_name(
    subscriptions: &[NamedSubscription],
    session: u32,
    name: &str,
    top: Option<Top>,
) -> bool
    // The result is as the definition says.
    ensures { result ≡ holds_name (map named_of subscriptions.now) session name.now top }
{
    is_reached(subscriptions, session, name, top)
}

// Whether one of these reaches an event of this name there.
fn is_reached(
    subscriptions: &[NamedSubscription],
    session: u32,
    name: &str,
    top: Option<Top>,
) -> bool
    ensures { result ≡ list_any (λ n. (n.session == session) && (has_name (named_of n) name.now && is_within (scope_of n.scope) top)) subscriptions.now }
{
    subscriptions
        .iter()
        .any(|subscription| subscription.reaches(session, name, top))
}

/// Whether the subscriptions of a session can have so many more names. Takes no memory.
pub fn has_room_for(subscriptions: &[NamedSubscription], session: u32, more: usize) -> bool
    // The result is false exactly if they would have more than 1,024 names.
    ensures { result ≡ not (is_too_many session (map named_of subscriptions.now) more) }
{
    match left_by_names(subscriptions, session, MOST_NAMES) {
        Some(left) => more <= left,
        None => false,
    }
}

// The names that those of a session leave of so many; `None` if they have more.
#[tactic(auto, using(crate::proofs::SumLemmas::total_next))]
fn left_by_names(subscriptions: &[NamedSubscription], session: u32, names: usize) -> Option<usize>
    ensures { MatchOption result (names < total (map (λ n. names_in session (named_of n)) subscriptions.now))
        (λ left. left + total (map (λ n. names_in session (named_of n)) subscriptions.now) ≡ names) }
{
    let mut left = names;
    for subscription in subscriptions {
        left = left.checked_sub(subscription.names_in(session))?;
    }
    Some(left)
}

/// Whether each of these names is in a subscription of a session for all contexts. Takes no memory.
pub fn are_global(subscriptions: &[NamedSubscription], session: u32, names: &[String]) -> bool
    // True exactly if each name itself is in such a subscription.
    ensures { result ≡ list_all (holds_globally (map named_of subscriptions.now) session) (map string_bytes names.now) }
{
    for name in names {
        if !is_global(subscriptions, session, name.as_str()) {
            return false;
        }
    }
    true
}

// Whether the name is in a subscription of a session for all contexts.
fn is_global(subscriptions: &[NamedSubscription], session: u32, name: &str) -> bool
    ensures { result ≡ holds_globally (map named_of subscriptions.now) session name.now }
{
    has_global(subscriptions, session, name)
}

// Whether one of these has the name for all contexts.
fn has_global(subscriptions: &[NamedSubscription], session: u32, name: &str) -> bool
    ensures { result ≡ list_any (λ n. (n.session == session)
        && (is_global (scope_of n.scope) && list_any (bytes_eq name.now) (map string_bytes n.names.items))) subscriptions.now }
{
    subscriptions
        .iter()
        .any(|subscription| subscription.has_globally(session, name))
}

/// Removes these names and modules from the subscriptions of a session for all contexts. Those with nothing left go.
pub fn dismiss(
    subscriptions: &mut Vec<NamedSubscription>,
    session: u32,
    names: &[String],
    modules: &[String],
)
    // They are gone from those for all contexts, and what has nothing left is gone; all others stay as they are.
    ensures { map named_of subscriptions.new.items ≡ dismissed session (map string_bytes names.now) (map string_bytes modules.now) (map named_of subscriptions.old.items) }
{
    strip(subscriptions, session, names, modules);
    subscriptions.retain(|subscription| subscription.has_any());
}

// Removes these names and modules from each subscription of a session for all contexts.
fn strip(
    subscriptions: &mut [NamedSubscription],
    session: u32,
    names: &[String],
    modules: &[String],
)
    ensures { map named_of subscriptions.new ≡ map (stripped session (map string_bytes names.now) (map string_bytes modules.now)) (map named_of subscriptions.old) }
{
    for subscription in subscriptions.iter_mut() {
        if subscription.is_global_of(session) {
            subscription.lose(names, modules);
        }
    }
}

// Removes these names.
fn remove_names(held: &mut Vec<String>, names: &[String])
    ensures { map string_bytes held.new.items ≡ filter (λ name. not (list_any (bytes_eq name) (map string_bytes names.now))) (map string_bytes held.old.items) }
{
    held.retain(|name| !is_one(names, name.as_str()));
}

/// The numbers of the subscriptions of a session that have none of these numbers.
///
/// # Errors
/// No memory: an allocation failed.
pub fn unlisted_numbers(
    alloc: Global,
    subscriptions: &[NamedSubscription],
    session: u32,
    numbers: &[u32],
) -> Result<Vec<u64>, AllocError>
    // An Ok has the number of each of them, in order.
    ensures { IfOk result (λ found. found.items ≡ map (λ n. n.number) (unlisted numbers.now session (map named_of subscriptions.now))) }
{
    let mut found = Vec::new(alloc);
    for subscription in subscriptions {
        if subscription.is_unlisted(session, numbers) {
            found.push(subscription.number)?;
        }
    }
    Ok(found)
}

/// Those of some ids that are ids of none of these subscriptions of a session.
///
/// # Errors
/// No memory: an allocation failed.
pub fn other_ids(
    alloc: Global,
    ids: &[String],
    session: u32,
    numbers: &[u64],
) -> Result<Vec<String>, AllocError>
    // An Ok has the ids of the definition, in order.
    ensures { IfOk result (λ found. map string_bytes found.items ≡ other_ids numbers.now session (map string_bytes ids.now)) }
{
    let mut found = Vec::new(alloc);
    for id in ids {
        if !is_id_of(numbers, session, id.as_str()) {
            found.push(String::from_str(alloc, id.as_str())?)?;
        }
    }
    Ok(found)
}

// Whether an id is that of one of these subscriptions of a session.
fn is_id_of(numbers: &[u64], session: u32, id: &str) -> bool
    ensures { result ≡ is_id_of numbers.now session id.now }
{
    match id_number(id, IdKind::Subscription, session) {
        Some(number) => is_listed(numbers, number),
        None => false,
    }
}

/// Removes the subscriptions of a session that have one of these numbers.
pub fn cancel(subscriptions: &mut Vec<NamedSubscription>, session: u32, numbers: &[u64])
    // Exactly these are gone; the others stay as they are, in their order.
    ensures { map named_of subscriptions.new.items ≡ cancelled session numbers.now (map named_of subscriptions.old.items) }
{
    subscriptions.retain(|subscription| !subscription.is_one_of(session, numbers));
}

/// Removes the subscriptions of sessions that are not among these.
pub fn keep_active(subscriptions: &mut Vec<NamedSubscription>, active: &[u32])
    // There is as much room as before, and no more subscriptions.
    ensures room { (vec_len subscriptions.new ≤ vec_len subscriptions.old) × (vec_capacity subscriptions.new ≡ vec_capacity subscriptions.old) }
    // Exactly these are gone; the others stay as they are, in their order.
    ensures kept { map named_of subscriptions.new.items ≡ of_active active.now (map named_of subscriptions.old.items) }
{
    subscriptions.retain(|subscription| is_active(active, subscription.session));
}

// Whether a session is one of these.
fn is_active(active: &[u32], session: u32) -> bool
    ensures { result ≡ is_listed active.now session }
{
    active.iter().any(|one| *one == session)
}
