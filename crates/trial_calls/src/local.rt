//! Calls of a local end.
ghost use Rattle.std.specs.Prelude.{IfOk};

use crate::fault::RowFault;
use bidi_local::{LocalEnd, LocalFault, Received};
use bidi_messages::{CommandData, Method, Named, Payload, data_of};
use bidi_tree::{JsUint, read};
use std::alloc::{AllocError, Global};
use std::io::Write;

/// Makes the calls of the lines, and writes what each answers.
pub(crate) fn answers<W: Write>(
    alloc: Global,
    lines: &str,
    output: &mut W,
) -> Result<(), RowFault> {
    let mut end = LocalEnd::new(alloc);
    for line in lines.lines() {
        match line.split_once(' ') {
            Some(("send", command)) => {
                let (id, text) = sent(alloc, &mut end, command)?;
                writeln!(output, "sent {} {text}", id.value)?;
            }
            Some(("take", text)) => tell(output, taken(&mut end, text)?)?,
            _ => {
                for id in &lost(&mut end)? {
                    writeln!(output, "lost {}", id.value)?;
                }
            }
        }
    }
    Ok(())
}

/// Sends a command, once more where there was no memory.
fn sent(alloc: Global, end: &mut LocalEnd, line: &str) -> Result<(JsUint, String), RowFault> {
    match sent_once(alloc, end, line) {
        Err(RowFault::NoMemory) => sent_once(alloc, end, line),
        sent => sent,
    }
}

fn sent_once(alloc: Global, end: &mut LocalEnd, line: &str) -> Result<(JsUint, String), RowFault> {
    let asked = command(alloc, line)?;
    match end.send(asked) {
        Ok(sent) => Ok(sent),
        Err(LocalFault::NoMemory) => Err(RowFault::NoMemory),
        Err(_) => Err(RowFault::NoRow),
    }
}

/// The command of a method and its params.
fn command(alloc: Global, line: &str) -> Result<CommandData, RowFault>
    ensures { IfOk result (λ d. ⟦<CommandData as Payload<Method>>⟧.payload.well d) }
{
    let (method, params) = line.split_once(' ').ok_or(RowFault::NoRow)?;
    let method = Method::named(method).ok_or(RowFault::NoRow)?;
    Ok(data_of(alloc, method, &read(alloc, params, None)?)?)
}

/// Takes a text, once more where there was no memory.
fn taken(end: &mut LocalEnd, text: &str) -> Result<Received, AllocError> {
    match end.take(text) {
        Err(AllocError) => end.take(text),
        received => received,
    }
}

/// Gives up what waits, once more where there was no memory.
fn lost(end: &mut LocalEnd) -> Result<Vec<JsUint>, AllocError> {
    match end.lose() {
        Err(AllocError) => end.lose(),
        ids => ids,
    }
}

/// Writes what a text means.
fn tell<W: Write>(output: &mut W, received: Received) -> Result<(), RowFault> {
    match received {
        Received::Answer(id, result_data) => {
            writeln!(
                output,
                "answer {} {}",
                id.value,
                result_data.method().name()
            )?
        }
        Received::BadResult(id) => writeln!(output, "bad result {}", id.value)?,
        Received::Refusal(id, code) => writeln!(output, "refusal {} {}", id.value, code.name())?,
        Received::Event(event) => writeln!(output, "event {}", event.event().name())?,
        Received::Stray => writeln!(output, "stray")?,
        Received::NotInProfile => writeln!(output, "not in the profile")?,
        Received::NotJson => writeln!(output, "not json")?,
    }
    Ok(())
}
