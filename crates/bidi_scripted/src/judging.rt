//! Whether a message is JSON, and whether it is a command.
ghost use Rattle.std.specs.Prelude.{◌≡◌, IfOk};
ghost use Rattle.bidi_messages.specs.Verdict.{Verdict as Judged, IsVerdict};
ghost use Rattle.bidi_messages.specs.View.{verdict_of};
ghost use Rattle.bidi_scripted.specs.Fate.{is_json};
ghost use Rattle.bidi_scripted.specs.Kept.{is_accepted};

use bidi_messages::{Command, Verdict, judge_with};
use bidi_shape::{MAX_BYTES, Shape};
use bidi_tree::{ReadFault, parse};
use json::Scratch;
use std::alloc::{AllocError, Global};

/// Whether a message is JSON of at most 1,048,576 bytes.
pub(crate) fn is_json(alloc: Global, text: &str, scratch: &mut Scratch) -> Result<bool, AllocError>
    ensures { IfOk result (λ is. is ≡ is_json text.now) }
{
    match parse(alloc, text, Some(MAX_BYTES), scratch) {
        Ok(_) => Ok(true),
        Err(ReadFault::NotJson | ReadFault::TooLong) => Ok(false),
        Err(ReadFault::NoMemory) => Err(AllocError),
    }
}

/// Whether a message fits a command.
pub(crate) fn is_command(
    alloc: Global,
    text: &str,
    scratch: &mut Scratch,
) -> Result<bool, AllocError>
    ensures { IfOk result (λ is. (v : Judged) × IsVerdict text.now v × (is ≡ is_accepted v)) }
{
    let verdict = judge_with(alloc, text, scratch)?;
    Ok(is_accepted(verdict))
}

// Whether a verdict is that of a command.
fn is_accepted(verdict: Verdict) -> bool
    ensures { result ≡ is_accepted (verdict_of ⟦<Command as Shape>⟧.shape verdict) }
{
    matches!(verdict, Verdict::Accepted(_))
}
