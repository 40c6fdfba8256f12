//! Times of the project's crates, beside those of what they stand on.
//!
//! `trials bench tree [COUNT]` reads and writes trees, `trials bench messages [COUNT]` commands and an event. Counts go to standard
//! output, times to standard error.
#![tactic(auto)]

mod measure;
mod messages;
mod texts;
mod tree;

use anyhow::{Context, Result, bail};
use std::env::Args;

/// How often each is done where no number is given.
const COUNT: u32 = 300_000;

/// Times what the words name.
pub fn run(rt: HostRuntime, mut words: Args) -> Result<()> {
    let Some(name) = words.next() else {
        bail!("usage: trials bench tree | messages [COUNT]");
    };
    let count = match words.next() {
        Some(text) => text.parse::<u32>().context("COUNT is a number")?,
        None => COUNT,
    };
    match name.as_str() {
        "tree" => tree::run(&rt, count),
        "messages" => messages::run(&rt, count),
        _ => bail!("no benchmark has that name"),
    }
}
