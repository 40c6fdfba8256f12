//! Ids, which stand in tables as short words.
use std::alloc::{AllocError, Global};

/// The letter of each kind of id, and how such an id begins.
const KINDS: [(&str, &str); 9] = [
    ("s", "00000000-0001"),
    ("c", "00000000-0002"),
    ("r", "00000000-0003"),
    ("n", "00000000-0004"),
    ("u", "00000001-0005"),
    ("v", "00000002-0005"),
    ("h", "00000000-0006"),
    ("w", "00000000-0007"),
    ("k", "00000000-0008"),
];

/// The text with the ids for which its words stand.
///
/// `@c1` stands for the id of the first context, and so `@r1` for that of a realm, `@n1` of a navigation, `@h1` of a
/// handle, `@w1` of a window, `@s1` of a session, `@u1` of a subscription of the first session, `@v1` of one of the
/// second, and `@k1` of the first user context that was made.
pub fn with_ids(alloc: Global, text: &str) -> Result<String, AllocError> {
    let mut pieces = text.split('@');
    let mut whole = String::from_str(alloc, pieces.next().unwrap_or(""))?;
    for piece in pieces {
        match id_in(piece) {
            Some((kind, number, rest)) => {
                write!(whole, "{kind}-8000-8000-{number:012x}{rest}")?;
            }
            None => write!(whole, "@{piece}")?,
        }
    }
    Ok(whole)
}

/// The kind and the number that stand in front of a text, and the rest.
fn id_in(text: &str) -> Option<(&'static str, u64, &str)> {
    let (letter, behind) = text.split_at_checked(1)?;
    let end = behind
        .find(|c: char| !c.is_ascii_digit())
        .unwrap_or(behind.len());
    let (digits, rest) = behind.split_at_checked(end)?;
    Some((kind_of(letter)?, digits.parse::<u64>().ok()?, rest))
}

/// How an id of the kind with this letter begins.
fn kind_of(letter: &str) -> Option<&'static str> {
    let (_, kind) = KINDS.iter().find(|(word, _)| *word == letter)?;
    Some(*kind)
}
