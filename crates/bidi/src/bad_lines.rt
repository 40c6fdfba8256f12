//! Why a line of an input is bad, in words.
use bidi_lines::LONGEST_LINE;
use bidi_page::{no_line, no_play_line};
use bidi_run::Recent;
use bidi_script_lines::read_script_text;
use std::alloc::{AllocError, Global};

/// Says what is wrong with the lines of a scripted play after a run that ended with this status: why a line is bad, or that the
/// first line ends in a carriage return. `None` if nothing is known to be wrong.
///
/// # Errors
/// No memory: an allocation failed.
pub(crate) fn input_reason<S>(
    alloc: Global,
    status: u8,
    input: &Recent<S>,
) -> Result<Option<String>, AllocError> {
    if status == 2 {
        return play_reason(alloc, input.recent());
    }
    if input.has_return() {
        let reason = "line 1 ends in a carriage return, which is a part of its last field";
        return Ok(Some(String::from_str(alloc, reason)?));
    }
    Ok(None)
}

// Says why the first bad line of a scripted play is bad; `None` if none is.
fn play_reason(alloc: Global, bytes: &[u8]) -> Result<Option<String>, AllocError> {
    let mut rest = bytes;
    for _ in 0..bytes.len() {
        let (Some(line), Some(behind)) = (line_of(rest), after_line(rest)) else {
            return unended_reason(alloc, rest);
        };
        let reason = line_reason(alloc, line)?;
        if !reason.is_empty() {
            return Ok(Some(reason));
        }
        rest = behind;
    }
    Ok(None)
}

// What is wrong with bytes that have no line feed; `None` if there are none.
fn unended_reason(alloc: Global, bytes: &[u8]) -> Result<Option<String>, AllocError> {
    if bytes.is_empty() {
        return Ok(None);
    }
    if bytes.len() > LONGEST_LINE {
        return Ok(Some(String::from_str(alloc, "more than 2097152 bytes")?));
    }
    Ok(Some(String::from_str(alloc, "no line feed at its end")?))
}

// What is wrong with a line, which is given without its line feed; empty if it is one of a scripted play.
fn line_reason(alloc: Global, line: &[u8]) -> Result<String, AllocError> {
    if line.len() > LONGEST_LINE {
        return String::from_str(alloc, "more than 2097152 bytes");
    }
    let Ok(text) = std::str::from_utf8(line) else {
        return String::from_str(alloc, "not UTF-8");
    };
    if is_script_line(alloc, text)? {
        return Ok(String::new(alloc));
    }
    no_play_line(alloc, text)
}

// Whether a text is a line of a scripted play.
fn is_script_line(alloc: Global, text: &str) -> Result<bool, AllocError> {
    Ok(read_script_text(alloc, text)?.is_some())
}

/// Says why the line of this number, counted from 1, is no line of a page that a file can have.
///
/// # Errors
/// No memory: an allocation failed.
pub(crate) fn page_reason(alloc: Global, bytes: &[u8], number: u64) -> Result<String, AllocError> {
    let mut rest = bytes;
    for _ in 1..number {
        match after_line(rest) {
            Some(behind) => rest = behind,
            None => break,
        }
    }
    match line_of(rest) {
        None => String::from_str(alloc, "no line feed at its end"),
        Some(line) => match std::str::from_utf8(line) {
            Err(_) => String::from_str(alloc, "not UTF-8"),
            Ok("reset" | "end") => String::from_str(alloc, "a file has no `reset` and no `end`"),
            Ok(text) => no_line(alloc, text),
        },
    }
}

// The first line, without its line feed; `None` if there is no line feed.
fn line_of(bytes: &[u8]) -> Option<&[u8]> {
    let end = bytes.iter().position(|b| *b == b'\n')?;
    Some(&bytes[..end])
}

// What comes after the first line; `None` if there is no line feed.
fn after_line(bytes: &[u8]) -> Option<&[u8]> {
    let end = bytes.iter().position(|b| *b == b'\n')?;
    Some(&bytes[end + 1..])
}
