//! Calls of the libraries, each of which is made once more where it finds no memory.
//!
//! The first line of standard input names what is called, the others say with what. What is written is the answers. Nothing
//! here takes memory itself: what a call is given is made anew for the call, as a part of it. So if one allocation is refused,
//! whichever it is, one call is made twice, and what is written stays the same.
//!
//! - `remote`: play lines. Each is taken by a remote end.
//! - `browser`: a method and its params, or what a page does. Each is planned, reserved and applied by a browser.
//! - `local`: `send METHOD PARAMS`, `take TEXT`, `lose`.
//! - `link`: `take` and `send TEXT`, over the bytes of two texts.
//! - `pair`: pair lines, which are played together.
#![tactic(auto)]

mod browser;
mod fault;
mod link;
mod local;
mod pairing;
mod remote;

use crate::fault::RowFault;
use std::alloc::Global;
use std::io;
use std::io::{Read, Write};
use std::str::from_utf8;

/// The most bytes of an input.
const MOST_BYTES: usize = 65_536;

/// Makes the calls of the standard input, and returns the status of the program: 3 without memory, 2 where the input says no call.
pub fn run(rt: HostRuntime) -> u8 {
    let mut buffer = [0u8; MOST_BYTES];
    let mut input = rt.reader();
    let mut output = io::writer(&rt);
    match answer(rt.alloc(), &mut input, &mut buffer, &mut output) {
        Ok(()) => 0,
        Err(RowFault::NoMemory) => 3,
        Err(_) => 2,
    }
}

/// Makes the calls of an input, and writes their answers.
fn answer<R: Read, W: Write>(
    alloc: Global,
    input: &mut R,
    buffer: &mut [u8],
    output: &mut W,
) -> Result<(), RowFault> {
    let count = filled(input, buffer)?;
    let text = buffer.get(..count).ok_or(RowFault::NoRow)?;
    let text = from_utf8(text).map_err(|_| RowFault::NoRow)?;
    let (what, lines) = text.split_once('\n').ok_or(RowFault::NoRow)?;
    match what {
        "remote" => remote::answers(alloc, lines, output),
        "browser" => browser::answers(alloc, lines, output),
        "local" => local::answers(alloc, lines, output),
        "link" => link::answers(alloc, lines, output),
        "pair" => pairing::answers(alloc, lines, output),
        _ => Err(RowFault::NoRow),
    }
}

/// Reads to the end, and gives how many bytes came.
fn filled<R: Read>(input: &mut R, buffer: &mut [u8]) -> Result<usize, RowFault> {
    let mut count = 0usize;
    for _ in 0..=MOST_BYTES {
        let rest = buffer.get_mut(count..).ok_or(RowFault::NoRow)?;
        let more = input.read(rest)?;
        if more == 0 {
            return Ok(count);
        }
        count = count.saturating_add(more);
    }
    Err(RowFault::NoRow)
}
