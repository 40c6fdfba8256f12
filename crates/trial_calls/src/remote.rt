//! Steps of a remote end.
use crate::fault::RowFault;
use bidi_play::read_step_text;
use bidi_remote::{RemoteEnd, RemoteFault, Sent};
use std::alloc::{AllocError, Global};
use std::io::Write;

/// Takes the lines as steps, and writes what is sent for each.
pub(crate) fn answers<W: Write>(
    alloc: Global,
    lines: &str,
    output: &mut W,
) -> Result<(), RowFault> {
    let mut end = made(alloc)?;
    for line in lines.lines() {
        for sent in &taken(alloc, &mut end, line)? {
            tell(output, sent)?;
        }
    }
    Ok(())
}

/// A remote end, made once more where there was no memory.
fn made(alloc: Global) -> Result<RemoteEnd, AllocError> {
    match RemoteEnd::new(alloc) {
        Err(AllocError) => RemoteEnd::new(alloc),
        end => end,
    }
}

/// Takes a step, once more where there was no memory.
fn taken(alloc: Global, end: &mut RemoteEnd, line: &str) -> Result<Vec<Sent>, RowFault> {
    match taken_once(alloc, end, line) {
        Err(RowFault::NoMemory) => taken_once(alloc, end, line),
        sent => sent,
    }
}

fn taken_once(alloc: Global, end: &mut RemoteEnd, line: &str) -> Result<Vec<Sent>, RowFault> {
    let Some(step) = read_step_text(alloc, line)? else {
        return Err(RowFault::NoRow);
    };
    match end.step(step) {
        Ok(sent) => Ok(sent),
        Err(RemoteFault::NoMemory) => Err(RowFault::NoMemory),
        Err(RemoteFault::WornOut) => Err(RowFault::NoRow),
    }
}

/// Writes what is sent, as a line of a play.
fn tell<W: Write>(output: &mut W, sent: &Sent) -> Result<(), RowFault> {
    match sent {
        Sent::Text(conn, text) => writeln!(output, "< {} {}", conn.value, text.as_str())?,
        Sent::Close(conn) => writeln!(output, "close {}", conn.value)?,
        Sent::Opened(conn) => writeln!(output, "opened {}", conn.value)?,
        Sent::Denied(conn) => writeln!(output, "denied {}", conn.value)?,
        Sent::Lost(conn) => writeln!(output, "lost {}", conn.value)?,
        Sent::NoEffect => writeln!(output, "no effect")?,
    }
    Ok(())
}
