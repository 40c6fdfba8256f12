//! Parts of a table that come many times and stand in it once.
use anyhow::{Context, Result};
use std::alloc::Global;

/// The text with each part as many times as it comes: `«3 [»` stands for `[[[`. A part that is counted has a `#` where its
/// number stands: `«1 to 3 #,»` stands for `1,2,3,`, and `«3 to 1 #,»` for `3,2,1,`.
pub fn repeated(alloc: Global, text: &str) -> Result<String> {
    let mut whole = String::new(alloc);
    for piece in text.split('«') {
        match piece.split_once('»') {
            Some((part, after)) => {
                push_part(alloc, &mut whole, part)?;
                whole.push_str(after)?;
            }
            None => whole.push_str(piece)?,
        }
    }
    Ok(whole)
}

/// Appends a part that its numbers stand in front of.
fn push_part(alloc: Global, whole: &mut String, part: &str) -> Result<()> {
    let (first, behind) = part.split_once(' ').context("a number is missing")?;
    let first = first.parse::<u32>().context("it is no number")?;
    match behind.strip_prefix("to ") {
        None => push_times(alloc, whole, behind, first),
        Some(behind) => {
            let (last, part) = behind.split_once(' ').context("a last number is missing")?;
            let last = last.parse::<u32>().context("it is no last number")?;
            push_counted(alloc, whole, part, first, last)
        }
    }
}

/// Appends a part so many times.
fn push_times(alloc: Global, whole: &mut String, part: &str, times: u32) -> Result<()> {
    let times = usize::try_from(times)?;
    Ok(whole.push_str(part.repeat(alloc, times)?.as_str())?)
}

/// Appends a part for each number from the first to the last, up or down.
fn push_counted(
    alloc: Global,
    whole: &mut String,
    part: &str,
    first: u32,
    last: u32,
) -> Result<()> {
    for n in first..=last {
        push_numbered(alloc, whole, part, n)?;
    }
    if last < first {
        for n in (last..=first).rev() {
            push_numbered(alloc, whole, part, n)?;
        }
    }
    Ok(())
}

/// Appends a part with its number.
fn push_numbered(alloc: Global, whole: &mut String, part: &str, number: u32) -> Result<()> {
    let number = format!(in alloc; "{number}")?;
    Ok(whole.push_str(part.replace(alloc, "#", number.as_str())?.as_str())?)
}
