//! Who said a text of a conversation, and what it is judged to be.
ghost use Rattle.std.specs.Prelude.{◌≡◌, List, ℕ, option_map, IfOk};
ghost use Rattle.bidi_messages.specs.View.{verdict_of};
ghost use Rattle.bidi_show.specs.MessageLines.{HasVerdict};
ghost use Rattle.bidi_why.specs.Hearing.{IsJudged, IsSender};

use bidi_messages::{Command, ErrorCode, Message, Method, Payload, Verdict};
use bidi_shape::Shape;
use bidi_show::line_verdict;
use bidi_tree::JsUint;
use json::Scratch;
use std::alloc::{AllocError, Global};

/// What a text of the local end is judged to be.
#[derive(Clone, Copy)]
pub(crate) enum Judged {
    Accepted(JsUint, Method),
    Refused(Option<JsUint>, ErrorCode),
}

/// Judges a text of the local end.
pub(crate) fn judge_text(
    alloc: Global,
    text: &[u8],
    scratch: &mut Scratch,
) -> Result<Judged, AllocError>
    ensures { IfOk result (IsJudged text.now) }
{
    let verdict = line_verdict(alloc, text, scratch)?;
    Ok(in_short(verdict))
}

// A verdict without the params of its command.
fn in_short(verdict: Verdict) -> Judged
    ensures { (text : List ℕ) → HasVerdict text (verdict_of ⟦<Command as Shape>⟧.shape verdict) → IsJudged text result }
{
    match verdict {
        Verdict::Accepted(command) => Judged::Accepted(command.id, command.data.method()),
        Verdict::Refused { id, code } => Judged::Refused(id, code),
    }
}

/// The id and the `type` of a response or an error.
pub(crate) fn sender(message: &Message) -> (Option<JsUint>, &'static str)
    requires { ⟦<Message as Shape>⟧.shape.well message.now }
    ensures { IsSender (⟦<Message as Shape>⟧.shape.tree_of message.now) (option_map (λ n. n.value) result.0) result.1.now }
{
    match message {
        Message::Response(response) => (Some(response.id), "success"),
        Message::Error(error) => (error.id, "error"),
        Message::Event(_) => (None, "event"),
    }
}
