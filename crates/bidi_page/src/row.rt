//! Why a text is not a row of the script table.
use bidi_blame::{Name, Reason, blame, found_words, pointer, wanted};
use bidi_handles::has_handle;
use bidi_shape::MAX_BYTES;
use bidi_tree::{Outline, ReadFault, outline_parsed, parse};
use json::{Scratch, Value};
use std::alloc::{AllocError, Global};

/// What is wrong with a text that the browser does not accept as a row, in words.
///
/// # Errors
/// No memory: an allocation failed.
pub(crate) fn row_fault(alloc: Global, text: &str) -> Result<String, AllocError> {
    let mut scratch = Box::new(alloc, Scratch::new(alloc))?;
    match parse(alloc, text, Some(MAX_BYTES), scratch.as_mut()) {
        Ok(value) => value_fault(alloc, &value),
        Err(ReadFault::TooLong) => String::from_str(alloc, "more than 1048576 bytes"),
        Err(ReadFault::NotJson) => String::from_str(alloc, "not json"),
        Err(ReadFault::NoMemory) => Err(AllocError),
    }
}

// What is wrong with the value of a text.
fn value_fault(alloc: Global, value: &Value<'_>) -> Result<String, AllocError> {
    let row = outline_parsed(alloc, value)?;
    tree_fault(alloc, &row)
}

// What is wrong with the tree of a row: it does not fit the rule, or the table does not accept its
// value.
fn tree_fault(alloc: Global, row: &Outline<'_>) -> Result<String, AllocError> {
    match blame(alloc, row, Name::TableRow)? {
        Some(reason) => reason_words(alloc, &reason),
        None => String::from_str(alloc, fitting_fault(row)),
    }
}

// What is wrong with a row that fits the rule.
fn fitting_fault(row: &Outline<'_>) -> &'static str {
    if has_handle(row) {
        "a value of a row has no `handle` and no `internalId`"
    } else {
        "a value that is thrown has at most 59 levels of nesting"
    }
}

// `POINTER: wants WANTS, has HAS (RULE)`, without the pointer at the row itself.
fn reason_words(alloc: Global, reason: &Reason<'_, '_>) -> Result<String, AllocError> {
    let place = pointer(alloc, &reason.steps)?;
    let wants = wanted(alloc, &reason.wants)?.text(alloc)?;
    let has = found_words(alloc, reason.found)?;
    let colon = if place.is_empty() { "" } else { ": " };
    match reason.named {
        Some(rule) => format!(in alloc; "{place}{colon}wants {wants}, has {has} ({})", rule.text()),
        None => format!(in alloc; "{place}{colon}wants {wants}, has {has}"),
    }
}
