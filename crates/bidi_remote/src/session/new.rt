//! `session.new`.
ghost use Rattle.std.specs.Prelude.{◌<◌, List};
ghost use Rattle.bidi_sessions.specs.Capabilities.{request_of};
ghost use Rattle.bidi_remote.specs.Machine.Commands.{New};
ghost use Rattle.bidi_remote.specs.Machine.History.{Deed};
ghost use Rattle.bidi_remote.specs.Machine.Outcome.{new_outcome};
ghost use Rattle.bidi_remote.specs.Machine.Sessions.{sessions_made};
ghost use Rattle.bidi_remote.specs.State.Stands.{AgreeWith};
ghost use Rattle.bidi_remote.specs.State.Turns.{Decides, HasResultOf, IsWellDecided};

use crate::state::State;
use crate::turn::{Asker, Change, Turn};
use bidi_active::LogBuffer;
use bidi_browser::{CommandResult, Refusal};
use bidi_messages::{ErrorCode, Method};
use bidi_params::session::NewParameters;
use bidi_sessions::{match_capabilities, new_result};
use bidi_shape::Shape;
use std::alloc::Global;

/// Decides `session.new`: makes a session, for which the connection then speaks.
///
/// # Errors
/// The first that holds:
/// - `invalid argument` or `session not created`: those of [`match_capabilities`].
/// - `session not created`: eight sessions are active.
/// - No memory: an allocation failed.
pub(crate) fn decide_new(
    alloc: Global,
    state: &State,
    asker: Asker,
    params: &NewParameters,
) -> Result<Turn, Refusal>
    requires { ⟦<NewParameters as Shape>⟧.shape.well params.now }
    ensures ok { (past : List Deed) → AgreeWith state.now past → sessions_made past < 4294967295
        → (let request = request_of (⟦<NewParameters as Shape>⟧.shape.tree_of params.now) in
        Decides result past asker (New request) (new_outcome past asker.conn.value request)) }
    ensures well { IsWellDecided result }
    ensures of_method { HasResultOf Method.SessionNew result }
{
    if let Err(code) = match_capabilities(params) {
        return Err(Refusal::Code(code));
    }
    if !state.sessions.is_ready() {
        return Err(Refusal::Code(ErrorCode::SessionNotCreated));
    }
    let missed = LogBuffer::new(alloc)?;
    let reply = CommandResult::Data(new_result(alloc, state.sessions.next())?);
    let change = Change::Begin(asker.conn, missed);
    Ok(Turn::replied(alloc, change, asker, reply))
}
