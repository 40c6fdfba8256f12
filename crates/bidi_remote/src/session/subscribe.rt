//! `session.subscribe`.
ghost use Rattle.std.specs.Prelude.{◌≡◌, ◌<◌, ℕ, List, map, filter, string_bytes, option_map, IfOk, true};
ghost use Rattle.bidi_contexts.specs.Acts.{Act};
ghost use Rattle.bidi_contexts.specs.Occurrences.{tree_events};
ghost use Rattle.bidi_browser.specs.Stands.{StandsFor};
ghost use Rattle.bidi_remote.specs.Machine.History.{Deed, Subscribed};
ghost use Rattle.bidi_remote.specs.Machine.Sessions.{is_active};
ghost use Rattle.bidi_remote.specs.Machine.Subscriptions.{subscriptions_made};
ghost use Rattle.bidi_remote.specs.Machine.Outcome.{tops_named, users_named, scope_asked, outcome_in};
ghost use Rattle.bidi_remote.specs.Machine.Sent.{announcements};
ghost use Rattle.bidi_remote.specs.State.Asked.{texts, subscribe_asked};
ghost use Rattle.bidi_sessions.specs.Checked.{IfChecked};
ghost use Rattle.bidi_active.specs.SessionView.{session_row_of};
ghost use Rattle.bidi_sessions.specs.SubscriptionView.{scope_of};
ghost use Rattle.bidi_sessions.specs.SubscriptionsView.{rows_of};
ghost use Rattle.bidi_active.specs.Places.{waiting};
ghost use Rattle.bidi_remote.specs.State.EventTexts.{written, AreMessages};
ghost use Rattle.bidi_active.specs.Written.{written_in};
ghost use Rattle.bidi_active.specs.News.{is_new};
ghost use Rattle.bidi_remote.specs.State.SessionRows.{session_row};
ghost use Rattle.bidi_sessions.specs.SubscriptionRows.{may_be_new};
ghost use Rattle.bidi_remote.specs.State.Stands.{AgreeWith};
ghost use Rattle.bidi_remote.specs.State.Turns.{Decides, HasResultOf, IsWellDecided};

use crate::event_texts::event_texts;
use crate::state::State;
use crate::turn::{Asker, Change, Turn};
use bidi_active::{EventText, Session, is_new, may_be_new, may_tell_what_exists};
use bidi_browser::{Browser, CommandResult, Refusal};
use bidi_messages::{ErrorCode, EventName, Method, Payload};
use bidi_params::SubscribeParameters;
use bidi_sessions::{Scope, Subscriptions, all_named, subscribe_result};
use bidi_shape::OneOrMore;
use std::alloc::{AllocError, Global};
use std::rc::Rc;

/// How many live subscriptions a session can have.
const MOST_SUBSCRIPTIONS: usize = 256;

/// Decides `session.subscribe`, for all contexts or for some.
///
/// The events that tell what exists, and then the log entries that wait, are sent to the session before the
/// reply, where this subscription enables them and no earlier one did.
///
/// Makes two events for each live context where it may newly enable one of them, and passes over the log
/// entries that wait where it may newly enable those.
///
/// # Errors
/// The first that holds:
/// - `invalid argument`: a name is no event's and no module's, or `contexts` and `userContexts` are both
///   given.
/// - `no such user context`: a user context is not live.
/// - `no such frame`: a context is not live.
/// - `unknown error`: the session has 256 live subscriptions.
/// - No memory: an allocation failed.
pub(crate) fn decide_subscribe(
    alloc: Global,
    state: &State,
    asker: Asker,
    session: u32,
    params: &SubscribeParameters,
) -> Result<Turn, Refusal>
    ensures ok { (past : List Deed) → AgreeWith state.now past → is_active past session ≡ true → subscriptions_made past session < 4294967295
        → Decides result past asker (subscribe_asked params.now) (outcome_in past session (subscribe_asked params.now)) }
    ensures well { IsWellDecided result }
    ensures of_method { HasResultOf Method.SessionSubscribe result }
{
    let events = all_named(alloc, &params.events.items)?;
    let scope = scope_asked(alloc, &state.browser, params)?;
    let Some(own) = state.sessions.find(session) else {
        return Err(Refusal::Code(ErrorCode::InvalidSessionId));
    };
    if own.subscriptions.all().len() >= MOST_SUBSCRIPTIONS {
        return Err(Refusal::Code(ErrorCode::UnknownError));
    }
    let announced = newly_enabled(alloc, state, own, &events, &scope)?;
    let result = subscribe_result(alloc, session, own.next_subscription())?;
    Ok(Turn::announced(
        alloc,
        Change::Subscribe(session, events, scope),
        announced,
        asker,
        CommandResult::Data(result),
    ))
}

// The texts of what the subscription newly enables: events of what exists, then log entries that wait.
fn newly_enabled(
    alloc: Global,
    state: &State,
    own: &Session,
    events: &[EventName],
    scope: &Scope,
) -> Result<Vec<Rc<EventText>>, AllocError>
    ensures { (past : List Deed) (s : ℕ) → AgreeWith state.now past → is_active past s ≡ true → session_row_of own.now ≡ session_row past s
        → IfOk result (λ all. (written_in all.items ≡ map written (announcements past (Subscribed s events.now (scope_of scope.now)) s))
        × AreMessages (written_in all.items)) }
{
    let mut all = live_events(alloc, &state.browser, &own.subscriptions, events, scope)?;
    let mut waiting = waiting_entries(alloc, &state.browser, own, events, scope)?;
    all.append(&mut waiting)?;
    Ok(all)
}

// The texts of the events that tell what exists, where the subscription newly enables them.
fn live_events(
    alloc: Global,
    browser: &Browser,
    held: &Subscriptions,
    events: &[EventName],
    scope: &Scope,
) -> Result<Vec<Rc<EventText>>, AllocError>
    ensures ok { (past : List Act) → StandsFor browser.now past
        → IfOk result (λ all. written_in all.items
        ≡ map written (filter (λ o. is_new past (rows_of held.now) events.now (scope_of scope.now) o.event o.top) (tree_events past))) }
    ensures reads_back { IfOk result (λ all. AreMessages (written_in all.items)) }
{
    if !may_tell_what_exists(held, events) {
        return Ok(Vec::new(alloc));
    }
    let mut all = browser.tree_events()?;
    all.retain(|o| is_new(browser, held, events, scope, o.event.kind(), o.top));
    event_texts(alloc, &all)
}

// The log entries that wait, where the subscription newly enables them.
fn waiting_entries(
    alloc: Global,
    browser: &Browser,
    own: &Session,
    events: &[EventName],
    scope: &Scope,
) -> Result<Vec<Rc<EventText>>, AllocError>
    ensures { (past : List Act) → StandsFor browser.now past
        → (let row = session_row_of own.now in
        IfOk result (λ all. written_in all.items ≡ filter (λ w. is_new past row.subscriptions events.now (scope_of scope.now) EventName.EntryAdded w.top)
        (waiting row.missed))) }
{
    let held = &own.subscriptions;
    if !may_be_new(held, events, EventName::EntryAdded) {
        return Ok(Vec::new(alloc));
    }
    let mut waiting = own.missed.waiting(alloc)?;
    waiting.retain(|entry| {
        is_new(
            browser,
            held,
            events,
            scope,
            EventName::EntryAdded,
            entry.top,
        )
    });
    Ok(waiting)
}

// The scope that the command asks for.
fn scope_asked(
    alloc: Global,
    browser: &Browser,
    params: &SubscribeParameters,
) -> Result<Scope, Refusal>
    ensures { (past : List Act) → StandsFor browser.now past → IfChecked result scope_of
        (scope_asked past (option_map (λ l. texts l.items.items) params.now.contexts) (option_map (λ l. texts l.items.items) params.now.user_contexts)) }
{
    let contexts = ids_in(&params.contexts);
    let users = ids_in(&params.user_contexts);
    scope_of_ids(alloc, browser, contexts, users)
}

// The ids that a command lists, if it lists any.
fn ids_in(ids: &Option<OneOrMore<String>>) -> Option<&[String]>
    ensures { option_map (λ l. texts l.now) result ≡ option_map (λ l. texts l.items.items) ids.now }
{
    match ids {
        Some(ids) => Some(&ids.items),
        None => None,
    }
}

/// The scope of a subscription to these contexts or to these user contexts.
pub(crate) fn scope_of_ids(
    alloc: Global,
    browser: &Browser,
    contexts: Option<&[String]>,
    users: Option<&[String]>,
) -> Result<Scope, Refusal>
    ensures { (past : List Act) → StandsFor browser.now past → IfChecked result scope_of
        (scope_asked past (option_map (λ l. texts l.now) contexts.entry) (option_map (λ l. texts l.now) users.entry)) }
{
    match (contexts, users) {
        (None, None) => Ok(Scope::All),
        (Some(contexts), None) => Ok(Scope::Below(tops_named(alloc, browser, contexts)?)),
        (None, Some(users)) => Ok(Scope::Within(users_named(alloc, browser, users)?)),
        (Some(_), Some(_)) => Err(Refusal::Code(ErrorCode::InvalidArgument)),
    }
}

// The numbers of the top-level contexts above the contexts of these ids.
fn tops_named(alloc: Global, browser: &Browser, ids: &[String]) -> Result<Vec<u64>, Refusal>
    ensures { (past : List Act) → StandsFor browser.now past → IfChecked result (λ tops. tops.items) (tops_named past (map string_bytes ids.now)) }
{
    let mut tops = Vec::new(alloc);
    for id in ids {
        match browser.top_of(id) {
            Some(top) => tops.push(top)?,
            None => return Err(Refusal::Code(ErrorCode::NoSuchFrame)),
        }
    }
    Ok(tops)
}

// The numbers of the user contexts of these ids.
fn users_named(alloc: Global, browser: &Browser, ids: &[String]) -> Result<Vec<u64>, Refusal>
    ensures { (past : List Act) → StandsFor browser.now past → IfChecked result (λ users. users.items) (users_named past (map string_bytes ids.now)) }
{
    let mut users = Vec::new(alloc);
    for id in ids {
        match browser.user_named(id) {
            Some(user) => users.push(user)?,
            None => return Err(Refusal::Code(ErrorCode::NoSuchUserContext)),
        }
    }
    Ok(users)
}
