//! `session.end`.
ghost use Rattle.std.specs.Prelude.{List, Ok};
ghost use Rattle.bidi_remote.specs.Machine.Commands.{End};
ghost use Rattle.bidi_remote.specs.Machine.History.{Deed, Ended};
ghost use Rattle.bidi_remote.specs.State.Turns.{Decides, HasResultOf, IsWellDecided};

use crate::turn::{Asker, Change, Turn};
use bidi_browser::{CommandResult, Refusal};
use bidi_messages::Method;
use bidi_sessions::end_result;
use std::alloc::Global;

/// Decides `session.end`: the session ends, and all its connections are closed.
pub(crate) fn decide_end(alloc: Global, asker: Asker, session: u32) -> Result<Turn, Refusal>
    ensures ok { (past : List Deed) → Decides result past asker End (Ok (Ended session)) }
    ensures well { IsWellDecided result }
    ensures of_method { HasResultOf Method.SessionEnd result }
{
    let reply = CommandResult::Data(end_result(alloc));
    Ok(Turn::replied(alloc, Change::End(session), asker, reply))
}
