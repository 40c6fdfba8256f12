//! `session.status`.
ghost use Rattle.std.specs.Prelude.{List, Ok};
ghost use Rattle.bidi_remote.specs.Machine.Commands.{Status};
ghost use Rattle.bidi_remote.specs.Machine.History.{Deed, Told};
ghost use Rattle.bidi_remote.specs.State.Stands.{AgreeWith};
ghost use Rattle.bidi_remote.specs.State.Turns.{Decides, HasResultOf, IsWellDecided};

use crate::state::State;
use crate::turn::{Asker, Change, Turn};
use bidi_browser::{CommandResult, Refusal, ResultText};
use bidi_messages::Method;
use bidi_sessions::status_text;
use std::alloc::Global;

/// Decides `session.status`, which tells whether one more session can be made.
///
/// # Errors
/// No memory: an allocation failed.
pub(crate) fn decide_status(alloc: Global, state: &State, asker: Asker) -> Result<Turn, Refusal>
    ensures ok { (past : List Deed) → AgreeWith state.now past → Decides result past asker Status (Ok Told) }
    ensures well { IsWellDecided result }
    ensures of_method { HasResultOf Method.SessionStatus result }
{
    let text = status_text(alloc, state.sessions.is_ready())?;
    let result = ResultText {
        method: Method::SessionStatus,
        text,
    };
    let reply = CommandResult::Text(result);
    Ok(Turn::replied(alloc, Change::Nothing, asker, reply))
}
