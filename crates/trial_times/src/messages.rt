//! Judging command texts, and reading and writing events, beside `serde_json` alone.
use crate::measure::{Payload, measure_text};
use crate::texts;
use anyhow::{Result, bail};
use bidi_messages::{Sendable, Verdict, judge_with, read_message_with, text_of};
use json::Scratch;
use std::alloc::Global;
use std::rt::Clock;

/// Texts that are judged.
struct Commands;

impl Payload for Commands {
    fn read(alloc: Global, text: &str, scratch: &mut Scratch) -> Result<()> {
        if judge_with(alloc, text, scratch).is_err() {
            bail!("an allocation failed");
        }
        Ok(())
    }

    fn read_and_write(alloc: Global, text: &str, scratch: &mut Scratch) -> Result<usize> {
        match judge_with(alloc, text, scratch)? {
            Verdict::Accepted(command) => length(alloc, command),
            Verdict::Refused { .. } => bail!("the text is no command"),
        }
    }
}

/// Texts of the remote end.
struct Messages;

impl Payload for Messages {
    fn read(alloc: Global, text: &str, scratch: &mut Scratch) -> Result<()> {
        if read_message_with(alloc, text, scratch).is_err() {
            bail!("the text is no message");
        }
        Ok(())
    }

    fn read_and_write(alloc: Global, text: &str, scratch: &mut Scratch) -> Result<usize> {
        let message = read_message_with(alloc, text, scratch)?;
        length(alloc, message)
    }
}

/// How many bytes the text of a command or a message has.
fn length<M: Sendable>(alloc: Global, message: M) -> Result<usize>
    requires { M.shape.well message }
{
    let written = text_of(alloc, &message)?;
    Ok(written.len())
}

/// Measures a short command, one with params, and an event.
pub fn run<R: Clock + Print + Eprint + AllocGlobal>(rt: &R, rounds: u32) -> Result<()> {
    measure_text::<Commands, R>(rt, "short command", texts::SHORT, rounds)?;
    measure_text::<Commands, R>(rt, "middle command", texts::MIDDLE, rounds)?;
    measure_text::<Messages, R>(rt, "event", texts::EVENT, rounds)
}
