//! What was found, beside what is wanted.
use std::process::Abort;

/// Compares what was found with the text that is wanted.
pub(crate) fn check_text<R: Abort>(rt: &R, name: &str, found: String, wanted: &str) {
    assert_eq!(rt; found.as_str(), wanted, "{name}");
}
