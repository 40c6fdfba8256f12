//! The texts that are read and written.
use std::alloc::{AllocError, Global};

/// A command with no parameters, of 46 bytes.
pub const SHORT: &str = "{\"id\":1,\"method\":\"session.status\",\"params\":{}}";

/// A command with a list and maps in maps, of 210 bytes.
pub const MIDDLE: &str =
    "{\"id\":7,\"method\":\"script.callFunction\",\"params\":{\"arguments\":[{\"type\":\"number\",\"value\":4},{\"type\":\"string\",\"value\":\"word\"}],\"awaitPromise\":true,\"functionDeclaration\":\"(a, b) => a+b\",\"target\":{\"context\":\"c-1\"}}}";

/// An entry of the log, of 274 bytes.
pub const EVENT: &str =
    "{\"method\":\"log.entryAdded\",\"params\":{\"args\":[{\"type\":\"string\",\"value\":\"hi\"}],\"level\":\"info\",\"method\":\"info\",\"source\":{\"context\":\"00000000-0002-8000-8000-000000000001\",\"realm\":\"00000000-0003-8000-8000-000000000001\"},\"text\":\"hi\",\"timestamp\":7,\"type\":\"console\"},\"type\":\"event\"}";

/// How many items stand in the list, and how many names in the map.
const ITEMS: u32 = 150_000;

const NAMES: u32 = 50_000;

/// A list of whole numbers, of about 1 MB.
pub fn list(alloc: Global) -> Result<String, AllocError> {
    let mut text = String::from_str(alloc, "[100000")?;
    for i in 1..ITEMS {
        let number = 100_000 + i;
        write!(text, ",{number}")?;
    }
    text.push_str("]")?;
    Ok(text)
}

/// A map with 50,000 names, which come in an order of their own, of about 1 MB.
pub fn map(alloc: Global) -> Result<String, AllocError> {
    let mut text = String::from_str(alloc, "{")?;
    for i in 0..NAMES {
        let number = 100_000 + i * 7_919 % NAMES;
        if i > 0 {
            text.push_str(",")?;
        }
        write!(text, "\"name{number}\":{number}")?;
    }
    text.push_str("}")?;
    Ok(text)
}

/// One text of 1 MB, with an escape in each 64 bytes.
pub fn one_text(alloc: Global) -> Result<String, AllocError> {
    let mut text = String::from_str(alloc, "\"")?;
    for _ in 0..16_384 {
        text.push_str("the quick brown fox jumps over the lazy dog, once and again..\\n")?;
    }
    text.push_str("\"")?;
    Ok(text)
}
