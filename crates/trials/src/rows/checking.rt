//! Runs the rows of a table, and tells those that come out otherwise.
use super::table::{input_of, name_of, outcome_text, spelled_out, wanted_of};
use anyhow::{Result, bail};
use bidi_command_line::{Run, StreamRun, command_line};
use bidi_lines::Device;
use bidi_run::run;
use std::alloc::Global;

/// Runs the rows of a table, and writes how many they are. Tells whether each came out as it says.
pub fn check_table<R: Print + AllocGlobal>(rt: &R, name: &str, table: &str) -> Result<bool> {
    let mut asked = Vec::new(rt.alloc());
    let (mut rows, mut wrong) = (0u32, 0u32);
    for paragraph in table.trim_end_matches('\n').split("\n\n") {
        if paragraph.starts_with("$ ") {
            asked = runs_of(rt.alloc(), paragraph)?;
        } else if !paragraph.starts_with("# ") {
            rows = rows.saturating_add(1);
            if !check_row(rt, &asked, paragraph)? {
                wrong = wrong.saturating_add(1);
            }
        }
    }
    println!(rt; "{name}: {rows} rows, {wrong} wrong")?;
    Ok(wrong == 0)
}

/// What the command lines of a paragraph ask for.
fn runs_of(alloc: Global, paragraph: &str) -> Result<Vec<StreamRun>> {
    let mut asked = Vec::new(alloc);
    for line in paragraph.split('\n') {
        asked.push(run_of(alloc, line)?)?;
    }
    Ok(asked)
}

/// What a command line asks for.
fn run_of(alloc: Global, line: &str) -> Result<StreamRun> {
    let words = line.split(' ').skip(1).collect::<Vec<&str>>(alloc)?;
    match command_line(alloc, &words) {
        Ok(Run::Stream(run)) => Ok(run),
        _ => bail!("a command line asks for no run"),
    }
}

/// Runs a row, and tells it where it comes out otherwise.
fn check_row<R: Print + AllocGlobal>(rt: &R, asked: &[StreamRun], row: &str) -> Result<bool> {
    let row = spelled_out(rt.alloc(), row)?;
    let wanted = wanted_of(rt.alloc(), row.as_str())?;
    let found = outcomes_of(rt.alloc(), asked, row.as_str())?;
    let is_well = found.as_str() == wanted.as_str();
    if !is_well {
        println!(rt;
            "{}\nwanted:\n{wanted}found:\n{found}",
            name_of(row.as_str())
        )?;
    }
    Ok(is_well)
}

/// The outcomes of these runs over the input of a row.
fn outcomes_of(alloc: Global, asked: &[StreamRun], row: &str) -> Result<String> {
    let input = input_of(alloc, row)?;
    let mut all = String::new(alloc);
    for run in asked {
        all.push_str(outcome_of(alloc, run, &input)?.as_str())?;
    }
    Ok(all)
}

/// The outcome of one run.
fn outcome_of(alloc: Global, asked: &StreamRun, input: &[u8]) -> Result<String> {
    let mut output = Vec::new(alloc);
    let mut told = Vec::new(alloc);
    let mut source = Device::new(input);
    let mut sink = Device::new(&mut output);
    let mut faults = Device::new(&mut told);
    let status = run(alloc, asked, &mut source, &mut sink, &mut faults);
    outcome_text(alloc, &output, &told, status)
}
