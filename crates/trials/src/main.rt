//! Trials of the programs and the libraries: tables of rows, refused memory, and times.
//!
//! - `trials rows FILE..` runs the programs over the rows of these tables.
//! - `trials refusals` makes the calls that the standard input names, each once more where it finds no memory.
//! - `trials bench NAME [COUNT]` times the libraries.
#![tactic(auto)]

mod rows;

use anyhow::{Result, bail};
use std::env;
use std::env::Args;
use std::process::ExitCode;

fn main(rt: HostRuntime) -> Result<ExitCode> {
    let mut words = words(&rt)?;
    let _program = words.next();
    let Some(name) = words.next() else {
        bail!("usage: trials rows FILE.. | refusals | bench NAME [COUNT]");
    };
    match name.as_str() {
        "rows" => Ok(ExitCode::from(if rows::run(rt, words)? { 0 } else { 1 })),
        "refusals" => Ok(ExitCode::from(trial_calls::run(rt))),
        "bench" => {
            trial_times::run(rt, words)?;
            Ok(ExitCode::from(0))
        }
        _ => bail!("trials are rows, refusals and bench"),
    }
}

/// The words of the command line. Where memory is refused, they are asked for once more.
fn words(rt: &HostRuntime) -> Result<Args> {
    match env::args(rt) {
        Ok(words) => Ok(words),
        Err(_) => Ok(env::args(rt)?),
    }
}
