//! Reading and writing trees, beside `serde_json` alone.
use crate::measure::{Payload, measure_text};
use crate::texts;
use anyhow::{Result, bail};
use bidi_tree::{read, write};
use json::Scratch;
use std::alloc::Global;
use std::rt::Clock;

/// A long text is taken once more for each so many rounds of a short one.
const LONG: u32 = 10_000;

struct Trees;

impl Payload for Trees {
    fn read(alloc: Global, text: &str, _scratch: &mut Scratch) -> Result<()> {
        let _tree = read(alloc, text, None)?;
        Ok(())
    }

    fn read_and_write(alloc: Global, text: &str, _scratch: &mut Scratch) -> Result<usize> {
        let tree = read(alloc, text, None)?;
        if !tree.is_writable() {
            bail!("the text has an odd number");
        }
        let written = write(alloc, &tree)?;
        Ok(written.len())
    }
}

/// Measures each text: the short ones so often, the long ones less.
pub fn run<R: Clock + Print + Eprint + AllocGlobal>(rt: &R, rounds: u32) -> Result<()> {
    measure_text::<Trees, R>(rt, "short text", texts::SHORT, rounds)?;
    measure_text::<Trees, R>(rt, "middle text", texts::MIDDLE, rounds)?;
    let long = rounds / LONG + 1;
    measure_text::<Trees, R>(rt, "long list", texts::list(rt.alloc())?.as_str(), long)?;
    measure_text::<Trees, R>(rt, "long map", texts::map(rt.alloc())?.as_str(), long)?;
    measure_text::<Trees, R>(
        rt,
        "long string",
        texts::one_text(rt.alloc())?.as_str(),
        long,
    )
}
