//! Both ends over a schedule.
use crate::fault::RowFault;
use bidi_lines::{Device, LinesFault};
use bidi_link::pair;
use bidi_pair_lines::{ledger_lines, read_steps};
use bidi_remote::RemoteFault;
use std::alloc::Global;
use std::io::Write;

/// Plays the lines, and writes the ledger.
pub(crate) fn answers<W: Write>(
    alloc: Global,
    lines: &str,
    output: &mut W,
) -> Result<(), RowFault> {
    let ledger = match played(alloc, lines) {
        Err(RowFault::NoMemory) => played(alloc, lines),
        ledger => ledger,
    };
    Ok(output.write_all(ledger?.as_str().as_bytes())?)
}

/// The lines of the ledger.
fn played(alloc: Global, lines: &str) -> Result<String, RowFault> {
    let mut source = Device::new(lines.as_bytes());
    let steps = match read_steps(alloc, &mut source) {
        Ok(steps) => steps,
        Err(LinesFault::NoMemory) => return Err(RowFault::NoMemory),
        Err(_) => return Err(RowFault::NoRow),
    };
    match pair(alloc, steps) {
        Ok(ledger) => Ok(ledger_lines(alloc, ledger)?),
        Err(RemoteFault::NoMemory) => Err(RowFault::NoMemory),
        Err(RemoteFault::WornOut) => Err(RowFault::NoRow),
    }
}
