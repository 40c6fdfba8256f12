//! The form of a table.
//!
//! A table has paragraphs, parted by an empty line. A paragraph of lines behind `# ` is a remark. Lines behind `$ ` are
//! command lines: the rows that follow are run as each of them asks, one after the other.
//!
//! Any other paragraph is a row, and its first line is the row's name. The lines that begin with two spaces, `! ` or `= ` are
//! its outcome: what is written, what is told of a fault, and the status where it is not 0; a `\` stands behind a written
//! line without a line feed. The others are its input. In it `\n`, `\r` and `\xHH` stand for one byte, and a `\` at the end
//! of a line takes its line feed away.
//!
//! In a row `BEGUN`, `CAPABILITIES`, `CONTEXT` and `REALM` stand for what the constants below say. Ids stand as short words
//! (`ids`), and what comes many times stands once (`testing::repeats`).
use super::ids::with_ids;
use anyhow::{Context, Result, bail};
use std::alloc::{AllocError, Global};
use std::str::from_utf8;
use testing::repeats::repeated;

/// Connection 1 makes the first session.
const BEGUN: &str = r#"open 1 /session
  opened 1
> 1 {"id":0,"method":"session.new","params":{"capabilities":{}}}
  < 1 {"id":0,"result":{"capabilities":CAPABILITIES,"sessionId":"@s1"},"type":"success"}"#;

/// The capabilities of the browser.
const CAPABILITIES: &str =
    r#"{"acceptInsecureCerts":false,"browserName":"memory-browser","browserVersion":"1.0","platformName":"none","setWindowRect":false,"userAgent":"memory-browser/1.0"}"#;

/// The event that tells of the context that stands at the start.
const CONTEXT: &str =
    r#"{"method":"browsingContext.contextCreated","params":{"children":null,"clientWindow":"@w1","context":"@c1","originalOpener":null,"parent":null,"url":"about:blank","userContext":"default"},"type":"event"}"#;

/// The event that tells of its realm.
const REALM: &str =
    r#"{"method":"script.realmCreated","params":{"context":"@c1","origin":"null","realm":"@r1","type":"window"},"type":"event"}"#;

/// The row with what its words stand for.
pub fn spelled_out(alloc: Global, row: &str) -> Result<String> {
    let row = row.replace(alloc, "BEGUN", BEGUN)?;
    let row = row.replace(alloc, "CAPABILITIES", CAPABILITIES)?;
    let row = row.replace(alloc, "CONTEXT", CONTEXT)?;
    let row = row.replace(alloc, "REALM", REALM)?;
    let row = repeated(alloc, row.as_str())?;
    Ok(with_ids(alloc, row.as_str())?)
}

/// The first line of a row.
pub fn name_of(row: &str) -> &str {
    row.split('\n').next().unwrap_or("")
}

/// The bytes that a row puts in.
pub fn input_of(alloc: Global, row: &str) -> Result<Vec<u8>> {
    let mut input = Vec::new(alloc);
    for line in row.split('\n').skip(1) {
        if !is_outcome(line) {
            push_line(&mut input, line)?;
        }
    }
    Ok(input)
}

/// The outcome that a row wants.
pub fn wanted_of(alloc: Global, row: &str) -> Result<String, AllocError> {
    let mut wanted = String::new(alloc);
    for line in row.split('\n').skip(1) {
        if is_outcome(line) {
            wanted.push_str(line)?;
            wanted.push_str("\n")?;
        }
    }
    Ok(wanted)
}

fn is_outcome(line: &str) -> bool {
    line.starts_with("  ") || line.starts_with("! ") || line.starts_with("= ")
}

/// Appends the bytes of an input line.
fn push_line(input: &mut Vec<u8>, line: &str) -> Result<()> {
    match line.strip_suffix("\\") {
        Some(rest) => push_bytes(input, rest),
        None => {
            push_bytes(input, line)?;
            Ok(input.push(b'\n')?)
        }
    }
}

/// Appends the bytes that a text stands for.
fn push_bytes(input: &mut Vec<u8>, text: &str) -> Result<()> {
    let mut parts = text.split('\\');
    input.extend_from_slice(parts.next().unwrap_or("").as_bytes())?;
    for part in parts {
        let Some((byte, rest)) = byte_in(part) else {
            bail!("no byte stands behind a backslash");
        };
        input.push(byte)?;
        input.extend_from_slice(rest.as_bytes())?;
    }
    Ok(())
}

/// The byte that stands behind a `\`, and the text behind it.
fn byte_in(part: &str) -> Option<(u8, &str)> {
    if let Some(rest) = part.strip_prefix("n") {
        return Some((b'\n', rest));
    }
    if let Some(rest) = part.strip_prefix("r") {
        return Some((b'\r', rest));
    }
    let (digits, rest) = part.strip_prefix("x")?.split_at_checked(2)?;
    Some((u8::from_str_radix(digits, 16).ok()?, rest))
}

/// An outcome as a row tells it.
pub fn outcome_text(alloc: Global, written: &[u8], told: &[u8], status: u8) -> Result<String> {
    let mut outcome = String::new(alloc);
    push_lines(&mut outcome, "  ", text_of(written)?)?;
    push_lines(&mut outcome, "! ", text_of(told)?)?;
    if status != 0 {
        write!(outcome, "= {status}\n")?;
    }
    Ok(outcome)
}

fn text_of(bytes: &[u8]) -> Result<&str> {
    from_utf8(bytes).context("what was written is no text")
}

/// Appends the lines of a text, each behind its sign, and a `\` where the last has no line feed.
fn push_lines(outcome: &mut String, sign: &str, text: &str) -> Result<(), AllocError> {
    for line in text.split_inclusive('\n') {
        outcome.push_str(sign)?;
        outcome.push_str(line)?;
        if !line.ends_with("\n") {
            outcome.push_str("\\\n")?;
        }
    }
    Ok(())
}
