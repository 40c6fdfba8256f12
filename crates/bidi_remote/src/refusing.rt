//! What is sent where nothing is done.
ghost use Rattle.std.specs.Prelude.{◌≡◌, [], ◌∷◌, map, IfOk, option_map};
ghost use Rattle.bidi_messages.specs.Message.{error_text};
ghost use Rattle.bidi_sessions.specs.View.{sent_of};
ghost use Rattle.bidi_remote.specs.Machine.Messages.{AllReadBack};
ghost use Rattle.bidi_remote.specs.Machine.Sent.{Text};

use bidi_messages::{ErrorCode, error_text};
use bidi_sessions::{Sent, SentText};
use bidi_tree::JsUint;
use std::alloc::{AllocError, Global};

/// A list of this one thing.
pub(crate) fn only(alloc: Global, sent: Sent) -> Result<Vec<Sent>, AllocError>
    ensures { IfOk result (λ all. all.items ≡ sent ∷ []) }
{
    let mut all = Vec::new(alloc);
    all.push(sent)?;
    Ok(all)
}

/// Answers a text with an error of this code.
pub(crate) fn refuse(
    alloc: Global,
    conn: JsUint,
    id: Option<JsUint>,
    code: ErrorCode,
) -> Result<Vec<Sent>, AllocError>
    ensures sent { IfOk result (λ sent. map sent_of sent.items
        ≡ Text conn.value (error_text (option_map (λ n. n.value) id) code) ∷ []) }
    ensures reads_back { IfOk result (λ sent. AllReadBack (map sent_of sent.items)) }
{
    let text = error_text(alloc, id, code)?;
    only(alloc, Sent::Text(conn, SentText::Own(text)))
}
