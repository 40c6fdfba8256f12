//! A text that a line can hold, for one that no line can.
ghost use Rattle.std.specs.Prelude.{◌≡◌, ◌≤◌, false, length, IfOk, string_bytes};
ghost use Rattle.bidi_lines.specs.Feeds.{has_feed};
ghost use Rattle.bidi_messages.specs.Verdict.{Verdict, IsVerdict};
ghost use Rattle.bidi_recorder.specs.OneLine.{return_for, with_returns};
ghost use Rattle.bidi_recorder.specs.RowCommands.{command_for_rows};

use bidi_shape::MAX_BYTES;
use std::alloc::{AllocError, Global};

// A text with the same verdict that is the same command for rows, on one line: a carriage return
// replaces each line feed, because JSON treats both alike. A text past the limit of a command is
// refused whatever it contains, and so is `{`.
pub(crate) fn said_for(alloc: Global, text: &str) -> Result<String, AllocError>
    ensures verdict { IfOk result (λ said. (v : Verdict) → IsVerdict text.now v → IsVerdict (string_bytes said) v) }
    ensures command { IfOk result (λ said. command_for_rows (string_bytes said) ≡ command_for_rows text.now) }
    ensures one_line { IfOk result (λ said. has_feed (string_bytes said) ≡ false) }
    ensures short { IfOk result (λ said. length (string_bytes said) ≤ 1048576) }
{
    if text.len() > MAX_BYTES {
        return String::from_str(alloc, "{");
    }
    with_returns(alloc, text)
}

// The text with a carriage return in place of each line feed.
fn with_returns(alloc: Global, text: &str) -> Result<String, AllocError>
    ensures { IfOk result (λ said. string_bytes said ≡ with_returns text.now) }
{
    let mut said = String::new(alloc);
    for letter in text.chars() {
        said.push(return_for(letter))?;
    }
    Ok(said)
}

// A carriage return for a line feed, and any other letter unchanged.
fn return_for(letter: char) -> char
    ensures { result ≡ return_for letter }
{
    if letter == '\n' { '\r' } else { letter }
}
