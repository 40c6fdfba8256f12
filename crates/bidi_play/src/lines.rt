//! Lines: reading one as a step, and writing those of what is sent.
ghost use Rattle.std.specs.Prelude.{◌≡◌, ℕ, ◌<◌, ◌≤◌, ◌^◌, ◌==◌, ◌&&◌, ◌||◌, ◌↔◌, nat_lt, slice_index, List, [], ◌∷◌, ◌++◌, true, false, map, length};
ghost use Rattle.std.specs.Prelude.{codes, decimal, string_bytes, IsTrue, IfOk, OnOk, IfSome, IfNone, IsSomeAnd, position};
ghost use Rattle.std.specs.List.{list_any};
ghost use Rattle.bidi_scripts.specs.Level.{level_text};
ghost use Rattle.bidi_sessions.specs.Step as play;
ghost use Rattle.bidi_sessions.specs.View.{step_of, sent_of};
ghost use Rattle.bidi_lines.specs.Feeds.{has_feed, ended};
ghost use Rattle.bidi_play.specs.Lines.{line_of, IsContext, IsSayable, CanBeSaid, sent_line, written};

use bidi_lines::LONGEST_LINE;
use bidi_remote::{PageStep, Sent, Step};
use bidi_scripts::Level;
use bidi_shape::Named;
use bidi_tree::JsUint;
use itoa::Buffer;
use std::alloc::{AllocError, Global};

/// The most bytes of a line that a play writes, apart from a text in it: `opened`, the greatest js-uint, and
/// the line feed.
const LONGEST_WORDS: usize = 24;

/// Reads a line as a step; `None` if it is not a play line.
///
/// # Errors
/// No memory: an allocation failed.
pub fn read_step(alloc: Global, line: &[u8]) -> Result<Option<Step>, AllocError>
    // The line is given without its line feed, and has no other.
    requires { has_feed line.now ≡ false }
    // If there is a step, a play can have it, and the line is that of the step.
    ensures some { IfOk result (λ found. IfSome found (λ step. CanBeSaid (step_of step) × (line.now ≡ line_of (step_of step)))) }
    // `None` comes only if the line is not that of any step.
    ensures none { IfOk result (λ found. IfNone found ((s : play.Step) → CanBeSaid s → line.now ≡ line_of s → ⊥)) }
{
    if line.len() > LONGEST_LINE {
        return Ok(None);
    }
    match std::str::from_utf8(line) {
        Err(_) => Ok(None),
        Ok(text) => read_step_text(alloc, text),
    }
}

/// Reads a line `> C TEXT` of a play as a connection and the text that came in on it; `None` if it is not such a
/// line. The text is lent. Takes no memory.
pub fn heard_text(line: &[u8]) -> Option<(JsUint, &str)>
    // The line is given without its line feed, and has no other.
    requires { has_feed line.now ≡ false }
    // If there is a text, a play can have the step of it, and the line is that of the step.
    ensures some { IfSome result (λ x. CanBeSaid (play.Text x.0.value x.1.now) × (line.now ≡ line_of (play.Text x.0.value x.1.now))) }
    // `None` comes only if the line is not that of any text.
    ensures none { IfNone result ((c : ℕ) (text : List ℕ) → CanBeSaid (play.Text c text) → line.now ≡ line_of (play.Text c text) → ⊥) }
{
    if line.is_empty() || line[0] != b'>' || line.len() > LONGEST_LINE {
        return None;
    }
    match std::str::from_utf8(line) {
        Err(_) => None,
        Ok(text) => heard_in(text),
    }
}

// Reads the line of a text, of any length.
fn heard_in(line: &str) -> Option<(JsUint, &str)>
    ensures some { IfSome result (λ x. IsSayable (play.Text x.0.value x.1.now) × (line.now ≡ line_of (play.Text x.0.value x.1.now))) }
    ensures none { IfNone result ((c : ℕ) (text : List ℕ) → IsSayable (play.Text c text) → line.now ≡ line_of (play.Text c text) → ⊥) }
{
    let (word, rest) = split_at_space(line)?;
    if !is_same_text(word, ">") {
        return None;
    }
    number_and_text(rest)
}

// Reads a number, and lends the text after the first space.
fn number_and_text(rest: &str) -> Option<(JsUint, &str)>
    ensures some { IfSome result (λ x. rest.now ≡ decimal x.0.value ++ 32 ∷ x.1.now) }
    ensures none { IfNone result ((n : ℕ) (text : List ℕ) → n < 2 ^ 53 → rest.now ≡ decimal n ++ 32 ∷ text → ⊥) }
{
    let (number, text) = split_at_space(rest)?;
    let n = read_number(number)?;
    Some((n, text))
}

/// Reads a text as a step; `None` if it is not the line of one. The text may have any length.
///
/// # Errors
/// No memory: an allocation failed.
pub fn read_step_text(alloc: Global, line: &str) -> Result<Option<Step>, AllocError>
    // If there is a step, its fields fit on a line, and the text is the line of the step.
    ensures some { IfOk result (λ found. IfSome found (λ step. IsSayable (step_of step) × (line.now ≡ line_of (step_of step)))) }
    // `None` comes only if the text is not the line of any step whose fields fit.
    ensures none { IfOk result (λ found. IfNone found ((s : play.Step) → IsSayable s → line.now ≡ line_of s → ⊥)) }
{
    let Some((word, rest)) = split_at_space(line) else {
        return Ok(None);
    };
    if is_same_text(word, "at") {
        Ok(read_number(rest).map(Step::At))
    } else if is_same_text(word, "drop") {
        Ok(read_number(rest).map(Step::Drop))
    } else if is_same_text(word, "binary") {
        Ok(read_number(rest).map(Step::NotText))
    } else if is_same_text(word, "open") {
        match read_number_and_text(alloc, rest)? {
            None => Ok(None),
            Some((conn, resource)) => Ok(Some(Step::Open(conn, resource))),
        }
    } else if is_same_text(word, ">") {
        match read_number_and_text(alloc, rest)? {
            None => Ok(None),
            Some((conn, text)) => Ok(Some(Step::Text(conn, text))),
        }
    } else if is_same_text(word, "frame") {
        match read_context_and_text(alloc, rest)? {
            None => Ok(None),
            Some((context, url)) => Ok(Some(Step::Page(PageStep::Frame(context, url)))),
        }
    } else if is_same_text(word, "unframe") {
        match read_context(alloc, rest)? {
            None => Ok(None),
            Some(context) => Ok(Some(Step::Page(PageStep::Unframe(context)))),
        }
    } else if is_same_text(word, "log") {
        match read_entry(alloc, rest)? {
            None => Ok(None),
            Some((context, level, text)) => {
                Ok(Some(Step::Page(PageStep::Log(context, level, text))))
            }
        }
    } else if is_same_text(word, "value") {
        Ok(Some(Step::Page(PageStep::TableRow(String::from_str(alloc, rest)?))))
    } else {
        Ok(None)
    }
}

// Reads a number, and the text after the first space.
fn read_number_and_text(alloc: Global, rest: &str) -> Result<Option<(JsUint, String)>, AllocError>
    ensures some { IfOk result (λ found. IfSome found (λ x. rest.now ≡ decimal x.0.value ++ 32 ∷ string_bytes x.1)) }
    ensures none { IfOk result (λ found. IfNone found ((n : ℕ) (text : List ℕ) → n < 2 ^ 53 → rest.now ≡ decimal n ++ 32 ∷ text → ⊥)) }
{
    match number_and_text(rest) {
        None => Ok(None),
        Some((n, text)) => Ok(Some((n, String::from_str(alloc, text)?))),
    }
}

// Reads a context's id, and the text after the first space.
fn read_context_and_text(alloc: Global, rest: &str) -> Result<Option<(String, String)>, AllocError>
    ensures some { IfOk result (λ found. IfSome found (λ x. IsContext (string_bytes x.0) × (rest.now ≡ string_bytes x.0 ++ 32 ∷ string_bytes x.1))) }
    ensures none { IfOk result (λ found. IfNone found ((context text : List ℕ) → IsContext context → rest.now ≡ context ++ 32 ∷ text → ⊥)) }
{
    let Some((context, text)) = split_at_space(rest) else {
        return Ok(None);
    };
    match read_context(alloc, context)? {
        None => Ok(None),
        Some(context) => Ok(Some((context, String::from_str(alloc, text)?))),
    }
}

// Reads a context's id, a level after the first space, and the text after the next.
fn read_entry(alloc: Global, rest: &str) -> Result<Option<(String, Level, String)>, AllocError>
    ensures some { IfOk result (λ found.
        IfSome found (λ x. IsContext (string_bytes x.0) × (rest.now ≡ string_bytes x.0 ++ 32 ∷ level_text x.1 ++ 32 ∷ string_bytes x.2))) }
    ensures none { IfOk result (λ found. IfNone found
        ((context text : List ℕ) (level : Level) → IsContext context → rest.now ≡ context ++ 32 ∷ level_text level ++ 32 ∷ text → ⊥)) }
{
    let Some((context, entry)) = split_at_space(rest) else {
        return Ok(None);
    };
    let Some((level, text)) = level_and_text(entry) else {
        return Ok(None);
    };
    match read_context(alloc, context)? {
        None => Ok(None),
        Some(context) => Ok(Some((context, level, String::from_str(alloc, text)?))),
    }
}

// Reads a level, and the text after the first space.
fn level_and_text(rest: &str) -> Option<(Level, &str)>
    ensures some { IfSome result (λ x. rest.now ≡ level_text x.0 ++ 32 ∷ x.1.now) }
    ensures none { IfNone result ((level : Level) (text : List ℕ) → rest.now ≡ level_text level ++ 32 ∷ text → ⊥) }
{
    let (word, text) = split_at_space(rest)?;
    let level = Level::named(word)?;
    Some((level, text))
}

// Reads a context's id: one byte or more, and no space.
fn read_context(alloc: Global, text: &str) -> Result<Option<String>, AllocError>
    ensures some { IfOk result (λ found. IfSome found (λ context. IsContext (string_bytes context) × (text.now ≡ string_bytes context))) }
    ensures none { IfOk result (λ found. IfNone found (IsContext text.now → ⊥)) }
{
    if is_same_text(text, "") || has_space(text) {
        return Ok(None);
    }
    Ok(Some(String::from_str(alloc, text)?))
}

// Whether a text has a space in it.
fn has_space(text: &str) -> bool
    ensures { result ≡ list_any (λ b. b == 32) text.now }
{
    text.as_bytes().iter().any(|b| *b == b' ')
}

/// Reads a js-uint in decimal, without sign or leading zeros. Takes no memory.
pub fn read_number(text: &str) -> Option<JsUint>
    // If there is a number, the text is that number in decimal.
    ensures some { IfSome result (λ n. text.now ≡ decimal n.value) }
    // `None` comes only if the text is not a js-uint in that form.
    ensures none { IfNone result ((n : ℕ) → n < 2 ^ 53 → text.now ≡ decimal n → ⊥) }
{
    if has_plus_or_zeros(text) {
        return None;
    }
    let Ok(n) = text.parse::<u64>() else {
        return None;
    };
    JsUint::new(n)
}

// Whether a number has a plus sign or leading zeros, which `parse` accepts.
fn has_plus_or_zeros(text: &str) -> bool
    ensures { result ≡ ((slice_index text.now 0 == 43) || ((slice_index text.now 0 == 48) && nat_lt 1 (length text.now))) }
{
    text.starts_with('+') || text.starts_with('0') && text.len() > 1
}

/// Splits a text at its first space; `None` if it has none.
pub fn split_at_space(text: &str) -> Option<(&str, &str)>
    // If there are two parts, the text is the first, a space, and the second.
    ensures some { IfSome result (λ x. text.now ≡ x.0.now ++ 32 ∷ x.1.now) }
    // If the text has a space, the split is at the first one.
    ensures first { (xs ys : List ℕ) → text.now ≡ xs ++ 32 ∷ ys → list_any (λ b. b == 32) xs ≡ false
        → IsSomeAnd result (λ x. (x.0.now ≡ xs) × (x.1.now ≡ ys)) }
{
    text.split_once(' ')
}

/// Whether two texts are equal.
pub fn is_same_text(text: &str, other: &str) -> bool
    // The result is true exactly if both have the same bytes.
    ensures { IsTrue result ↔ (text.now ≡ other.now) }
{
    text == other
}

/// Makes the lines that a play writes for what is sent. Takes one allocation.
///
/// # Errors
/// No memory: an allocation failed.
pub fn lines_of(alloc: Global, all: Vec<Sent>) -> Result<Vec<u8>, AllocError>
    // The result has the line of each thing that is sent, in order, with its line feed.
    ensures { IfOk result (λ lines. lines.items ≡ written (map sent_of all.items)) }
{
    let mut lines = String::with_capacity(alloc, room_for(&all))?;
    for sent in all {
        push_line(&mut lines, &sent)?;
    }
    Ok(lines.into_bytes())
}

// A number of bytes that is enough for the lines of what is sent.
fn room_for(all: &[Sent]) -> usize {
    let mut room: usize = 0;
    for sent in all {
        let text = match sent {
            Sent::Text(_, text) => text.as_str().len(),
            _ => 0,
        };
        room = room.saturating_add(text).saturating_add(LONGEST_WORDS);
    }
    room
}

// Adds the line for one thing that is sent, with its line feed.
fn push_line(lines: &mut String, sent: &Sent) -> Result<(), AllocError>
    ensures { OnOk result (string_bytes lines.new ≡ string_bytes lines.old ++ ended (sent_line (sent_of sent.now))) }
{
    match sent {
        Sent::Text(conn, text) => push_text_line(lines, *conn, text.as_str()),
        Sent::Close(conn) => writeln!(lines, "close {}", conn.value),
        Sent::Opened(conn) => writeln!(lines, "opened {}", conn.value),
        Sent::Denied(conn) => writeln!(lines, "denied {}", conn.value),
        Sent::Lost(conn) => writeln!(lines, "lost {}", conn.value),
        Sent::NoEffect => lines.push_str("no effect\n"),
    }
}

// Adds the line for a text, with its line feed.
fn push_text_line(lines: &mut String, conn: JsUint, text: &str) -> Result<(), AllocError>
    ensures { OnOk result (string_bytes lines.new ≡ string_bytes lines.old ++ ended (codes "< " ++ decimal conn.value ++ 32 ∷ text.now)) }
{
    let mut digits = Buffer::new();
    lines.push_str("< ")?;
    lines.push_str(digits.format(conn.value))?;
    lines.push_str(" ")?;
    lines.push_str(text)?;
    lines.push_str("\n")
}
