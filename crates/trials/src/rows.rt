//! The tests of the programs: tables of rows, each run, and compared with what it wants.
//!
//! `trials rows FILE..` runs the rows of these files, and writes a line for each file, with a row that comes out otherwise in front
//! of it. The files stand in `data/`; `table` has their form.

mod checking;
mod ids;
mod table;

use crate::rows::checking::check_table;
use anyhow::{Context, Result};
use std::env::Args;
use std::fs;

/// Runs the rows of the named files, and returns whether each came out as it says.
pub fn run(rt: HostRuntime, names: Args) -> Result<bool> {
    let mut is_well = true;
    for name in names {
        let text = fs::read_to_string(&rt, name.as_str()).context("a file cannot be read")?;
        is_well = check_table(&rt, name.as_str(), text.as_str())? && is_well;
    }
    Ok(is_well)
}
