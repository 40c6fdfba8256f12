//! The words for a line that has no effect.
use crate::cause::{Cause, refusal};
use crate::row::row_fault;
use bidi_play::read_step_text;
use bidi_remote::{PageStep, RemoteEnd, Step};
use std::alloc::{AllocError, Global};

/// Says why a line of a page has no effect on this remote end, in words; empty if it would have one.
///
/// For a row of the script table the words are those of `bidi check --why`: the place in the row, what the
/// rule wants there, and what is there.
///
/// Plans the step of the line; a row is also read, and searched for what does not fit.
///
/// # Errors
/// No memory: an allocation failed.
pub fn no_effect(alloc: Global, end: &RemoteEnd, line: &str) -> Result<String, AllocError> {
    match read_step_text(alloc, line)? {
        Some(Step::Page(page)) => page_fault(alloc, end, &page),
        _ => Ok(String::new(alloc)),
    }
}

// Why a step of a page has no effect, in words.
fn page_fault(alloc: Global, end: &RemoteEnd, page: &PageStep) -> Result<String, AllocError> {
    let Some(cause) = refusal(end, page)? else {
        return Ok(String::new(alloc));
    };
    match (cause, page) {
        (Cause::NoRow, PageStep::TableRow(text)) => row_fault(alloc, text.as_str()),
        _ => String::from_str(alloc, cause.words()),
    }
}

impl Cause {
    // The cause in words.
    fn words(self) -> &'static str {
        match self {
            Cause::UnknownContext => "unknown context",
            Cause::NotAbsoluteUrl => "not an absolute URL",
            Cause::NoRoom => "1024 contexts are live, or the context is at level 16",
            Cause::TopLevel => "a top-level context",
            Cause::NoRow => "not a row",
            Cause::FullTable => "1024 scripts have rows",
        }
    }
}
