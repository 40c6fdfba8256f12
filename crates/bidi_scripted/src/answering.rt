//! Answers to commands in place of the remote end.
ghost use Rattle.std.specs.Prelude.{[], ◌∷◌, Some, codes, IfOk, IsErrOf, string_bytes};
ghost use Rattle.bidi_messages.specs.Message.{error_text};
ghost use Rattle.bidi_rows.specs.Rows as rows;
ghost use Rattle.bidi_rows.specs.Rows.{reply_text};
ghost use Rattle.bidi_remote.specs.Machine.Sent.{Text};
ghost use Rattle.bidi_scripted.specs.Taken.{IsOfTest};

use crate::scripted_end::{ScriptedEnd, Taken, only};
use bidi_messages::ErrorCode;
use bidi_remote::{RemoteFault, Sent, SentText};
use bidi_rows::{Reply, reply_text};
use bidi_tree::JsUint;

/// The result that says nothing.
const EMPTY: &str = "{}";

impl ScriptedEnd {
    /// Answers a command by an error.
    pub(crate) fn refuse_with(
        &self,
        conn: JsUint,
        id: JsUint,
        code: ErrorCode,
    ) -> Result<Taken, RemoteFault>
        ensures answers { IfOk result (IsOfTest (Text conn.value (error_text (Some id.value) code) ∷ [])) }
        ensures worn_out { IsErrOf result RemoteFault.WornOut → ⊥ }
    {
        match self.refuse(conn, id, code) {
            Ok(taken) => Ok(taken),
            Err(_) => Err(RemoteFault::NoMemory),
        }
    }

    /// Answers a command by an empty result.
    pub(crate) fn succeed(&self, conn: JsUint, id: JsUint) -> Result<Taken, RemoteFault>
        ensures answers { IfOk result (IsOfTest (Text conn.value (reply_text id.value (rows.Result (codes "{}"))) ∷ [])) }
        ensures worn_out { IsErrOf result RemoteFault.WornOut → ⊥ }
    {
        let empty = String::from_str(self.alloc, EMPTY)?;
        self.answer_by(conn, id, empty)
    }

    /// Answers a command by a result.
    pub(crate) fn answer_by(
        &self,
        conn: JsUint,
        id: JsUint,
        result_text: String,
    ) -> Result<Taken, RemoteFault>
        ensures answers { IfOk result (IsOfTest (Text conn.value (reply_text id.value (rows.Result (string_bytes result_text))) ∷ [])) }
        ensures worn_out { IsErrOf result RemoteFault.WornOut → ⊥ }
    {
        let text = reply_text(self.alloc, id, &Reply::Result(result_text))?;
        let answer = Sent::Text(conn, SentText::Own(text));
        Ok(Taken::Answered(only(self.alloc, answer)?))
    }
}
