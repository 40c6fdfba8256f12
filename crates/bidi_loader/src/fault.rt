//! Faults with a place in the text.
use bidi_cddl::{LoadFault, Wrong};
use std::alloc::{AllocError, Global};

/// The fault of a text that has something wrong at a byte.
pub(crate) fn fault_at(alloc: Global, at: usize, what: &str) -> LoadFault {
    told(at, String::from_str(alloc, what))
}

/// The fault of a text that has something wrong with a name at a byte.
pub(crate) fn fault_of_name(alloc: Global, at: usize, what: &str, name: &str) -> LoadFault {
    told(at, format!(in alloc; "{what} {name}"))
}

/// The fault of a rule or a group that is nothing but itself; each name leads to the next, and the last to the first.
pub(crate) fn circle(alloc: Global, at: usize, what: &str, names: &[&str]) -> LoadFault {
    told(at, circle_words(alloc, what, names))
}

// The words of a circle, as `a = b, b = a`.
fn circle_words(alloc: Global, what: &str, names: &[&str]) -> Result<String, AllocError> {
    let mut words = String::from_str(alloc, what)?;
    let mut before = names.last().copied().unwrap_or("");
    for (i, name) in names.iter().enumerate() {
        words.push_str(if i == 0 { " " } else { ", " })?;
        words.push_str(before)?;
        words.push_str(" = ")?;
        words.push_str(name)?;
        before = *name;
    }
    Ok(words)
}

// The fault with some words, if there was memory for them.
fn told(at: usize, words: Result<String, AllocError>) -> LoadFault {
    match words {
        Ok(what) => LoadFault::Wrong(Wrong { at, what }),
        Err(_) => LoadFault::NoMemory,
    }
}
