//! The page file.
use bidi_recorder::HostingFault;
use std::alloc::{AllocError, Global};

/// Splits a page file into its lines, each of which ends in a line feed. Copies them.
///
/// # Errors
/// 1. `BadLine`: the line of this number is not UTF-8, or lacks its line feed.
/// 2. `NoMemory`: an allocation failed.
pub fn page_lines(alloc: Global, bytes: &[u8]) -> Result<Vec<String>, HostingFault> {
    let mut lines = Vec::new(alloc);
    let mut number: u64 = 0;
    let mut rest = bytes;
    for _ in 0..bytes.len() {
        if rest.is_empty() {
            return Ok(lines);
        }
        number = number.saturating_add(1);
        let Some((line, behind)) = first_line(rest) else {
            return Err(HostingFault::BadLine(number));
        };
        add(&mut lines, String::from_str(alloc, line)?)?;
        rest = behind;
    }
    Ok(lines)
}

// Splits off the first line, without its line feed; `None` if there is no line feed or the line is
// not UTF-8.
fn first_line(bytes: &[u8]) -> Option<(&str, &[u8])> {
    let end = bytes.iter().position(|b| *b == b'\n')?;
    let line = std::str::from_utf8(&bytes[..end]).ok()?;
    Some((line, &bytes[end + 1..]))
}

/// Adds a text at the end.
pub(crate) fn add(texts: &mut Vec<String>, text: String) -> Result<(), AllocError> {
    texts.push(text)?;
    Ok(())
}
