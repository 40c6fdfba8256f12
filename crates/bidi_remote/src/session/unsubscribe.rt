//! `session.unsubscribe`.
ghost use Rattle.std.specs.Prelude.{◌≡◌, List, true, IfOk};
ghost use Rattle.bidi_remote.specs.Machine.History.{Deed};
ghost use Rattle.bidi_remote.specs.Machine.Outcome.{outcome_in, unsubscribe_by_id_outcome, unsubscribe_by_events_outcome};
ghost use Rattle.bidi_remote.specs.Machine.Sessions.{is_active};
ghost use Rattle.bidi_remote.specs.State.Asked.{texts, unsubscribe_asked};
ghost use Rattle.bidi_sessions.specs.Checked.{IfChecked};
ghost use Rattle.bidi_remote.specs.State.Stands.{AgreeWith};
ghost use Rattle.bidi_contexts.specs.Acts.{Looked};
ghost use Rattle.bidi_remote.specs.State.Turns.{Decides, HasResultOf, IsWellDecided, IsOfSessions, deed_of};

use crate::state::State;
use crate::turn::{Asker, Change, Turn};
use bidi_browser::{CommandResult, Refusal};
use bidi_messages::{ErrorCode, Method};
use bidi_params::UnsubscribeParameters;
use bidi_sessions::{all_named, numbers_of, unsubscribe_result};
use std::alloc::Global;

/// Decides `session.unsubscribe`: ends subscriptions by their ids, or removes events from the global ones.
///
/// # Errors
/// The first that holds:
/// - `invalid argument`: an id is that of no live subscription; or a name is neither an event's nor a
///   module's; or an event is in no global subscription.
/// - No memory: an allocation failed.
pub(crate) fn decide_unsubscribe(
    alloc: Global,
    state: &State,
    asker: Asker,
    session: u32,
    params: &UnsubscribeParameters,
) -> Result<Turn, Refusal>
    ensures ok { (past : List Deed) → AgreeWith state.now past → is_active past session ≡ true
        → Decides result past asker (unsubscribe_asked params.now) (outcome_in past session (unsubscribe_asked params.now)) }
    ensures well { IsWellDecided result }
    ensures of_method { HasResultOf Method.SessionUnsubscribe result }
{
    let change = match params {
        UnsubscribeParameters::ById(by_id) => {
            end_by_ids(alloc, state, session, &by_id.subscriptions.items)?
        }
        UnsubscribeParameters::ByEvents(by_events) => {
            end_by_events(alloc, state, session, &by_events.events.items)?
        }
    };
    let reply = CommandResult::Data(unsubscribe_result(alloc));
    Ok(Turn::replied(alloc, change, asker, reply))
}

// The change that ends the subscriptions of these ids.
fn end_by_ids(alloc: Global, state: &State, session: u32, ids: &[String]) -> Result<Change, Refusal>
    ensures checked { (past : List Deed) → AgreeWith state.now past → is_active past session ≡ true
        → IfChecked result (λ change. deed_of change Looked) (unsubscribe_by_id_outcome past session (texts ids.now)) }
    ensures of_sessions { IfOk result IsOfSessions }
{
    let held = state.sessions.subscriptions_of(session);
    let numbers = numbers_of(alloc, held, session, ids)?;
    Ok(Change::Cancel(session, numbers))
}

// The change that removes the events of these names from the global subscriptions.
fn end_by_events(
    alloc: Global,
    state: &State,
    session: u32,
    names: &[String],
) -> Result<Change, Refusal>
    ensures checked { (past : List Deed) → AgreeWith state.now past → is_active past session ≡ true
        → IfChecked result (λ change. deed_of change Looked) (unsubscribe_by_events_outcome past session (texts names.now)) }
    ensures of_sessions { IfOk result IsOfSessions }
{
    let events = all_named(alloc, names)?;
    if !state.sessions.all_global(session, &events) {
        return Err(Refusal::Code(ErrorCode::InvalidArgument));
    }
    Ok(Change::Dismiss(session, events))
}
