//! The lines of a scripted play, and reading one.
ghost use Rattle.std.specs.Prelude.{◌≡◌, ℕ, ◌<◌, ◌^◌, List, ◌∷◌, ◌++◌, true, false, codes, decimal, IfOk, IfSome, IfNone, IsSomeAnd};
ghost use Rattle.bidi_lines.specs.Feeds.{has_feed};
ghost use Rattle.bidi_sessions.specs.Step.{Step as Taking};
ghost use Rattle.bidi_play.specs.Lines.{line_of, IsSayable, CanBeSaid};
ghost use Rattle.bidi_script_lines.specs.ScriptLines.{Line, On, Send, Bytes, Raw, script_line_of, is_plain, word_of, rest_of, IsWord, IsWritable, CanBeWritten};
ghost use Rattle.bidi_script_lines.specs.View.{said_by};

use bidi_lines::LONGEST_LINE;
use bidi_play::{is_same_text, read_number, read_step_text, split_at_space};
use bidi_remote::Step;
use bidi_tree::JsUint;
use std::alloc::{AllocError, Global};

/// A line of a scripted play. Texts that are JSON are not yet read.
#[derive(Drop)]
pub enum ScriptLine {
    /// A line of a play.
    Step(Step),
    /// `answer ROW`: commands that match the row are answered by it.
    Answer(String),
    /// `hold ROW`: commands that match the row are held.
    Hold(String),
    /// `release N`: the held command goes to the remote end.
    Release(JsUint),
    /// `release N ROW`: the held command is answered by the row.
    ReleaseWith(JsUint, String),
    /// `unanswer M`: all rows of the method are forgotten.
    Unanswer(String),
    /// `emit EVENT`: the event goes to its subscribers.
    Emit(String),
    /// `on M [EVENT..]`: these events follow each event of this name.
    On(String, String),
    /// `names NAME..`: these names of events or modules can be subscribed to.
    Names(String),
    /// `send C TEXT`: the text goes to the connection.
    Send(JsUint, String),
    /// `bytes C HEX`: a binary message goes to the connection.
    Bytes(JsUint, String),
    /// `raw C HEX`: bytes go to the connection without a frame.
    Raw(JsUint, String),
    /// `stall C`: nothing more is read from the connection.
    Stall(JsUint),
    /// `resume C`: the connection is read again.
    Resume(JsUint),
    /// `cut C`: the connection ends without a close frame.
    Cut(JsUint),
    /// `cut C AFTER`: the connection ends after so many bytes of the frame of its next message.
    CutAfter(JsUint, JsUint),
    /// `close C CODE`: the connection is closed with the code.
    Close(JsUint, JsUint),
    /// `refuse N CODE`: the next handshakes are refused by the status.
    Refuse(JsUint, JsUint),
}

/// Reads a line as one of a scripted play; `None` if it is not one.
///
/// # Errors
/// No memory: an allocation failed.
pub fn read_script_line(alloc: Global, line: &[u8]) -> Result<Option<ScriptLine>, AllocError>
    // The line is given without its line feed, and has no other.
    requires { has_feed line.now ≡ false }
    // If there is a line of a scripted play, one can have it, and it is written like that.
    ensures some { IfOk result (λ found. IfSome found (λ l. CanBeWritten (said_by l) × (line.now ≡ script_line_of (said_by l)))) }
    // `None` comes only if the line is not one of a scripted play.
    ensures none { IfOk result (λ found. IfNone found ((l : Line) → CanBeWritten l → line.now ≡ script_line_of l → ⊥)) }
    // A line of a play is read as that.
    ensures plain { (s : Taking) → CanBeSaid s → line.now ≡ line_of s → IfOk result (λ found. IsSomeAnd found (λ l. is_plain (said_by l) ≡ true)) }
{
    if line.len() > LONGEST_LINE {
        return Ok(None);
    }
    match std::str::from_utf8(line) {
        Err(_) => Ok(None),
        Ok(text) => read_script_text(alloc, text),
    }
}

/// Reads a text as the line of a scripted play; `None` if it is not one. The text may have any length.
///
/// # Errors
/// No memory: an allocation failed.
pub fn read_script_text(alloc: Global, line: &str) -> Result<Option<ScriptLine>, AllocError>
    // If there is a line of a scripted play, its fields fit on it, and the text is that line.
    ensures some { IfOk result (λ found. IfSome found (λ l. IsWritable (said_by l) × (line.now ≡ script_line_of (said_by l)))) }
    // `None` comes only if the text is not the line of any whose fields fit.
    ensures none { IfOk result (λ found. IfNone found ((l : Line) → IsWritable l → line.now ≡ script_line_of l → ⊥)) }
    // A line of a play is read as that.
    ensures plain { (s : Taking) → IsSayable s → line.now ≡ line_of s → IfOk result (λ found. IsSomeAnd found (λ l. is_plain (said_by l) ≡ true)) }
{
    match read_step_text(alloc, line)? {
        Some(step) => Ok(Some(ScriptLine::Step(step))),
        None => read_other(alloc, line),
    }
}

// Reads a text as a line that is not one of a play.
fn read_other(alloc: Global, line: &str) -> Result<Option<ScriptLine>, AllocError>
    ensures some { IfOk result (λ found. IfSome found (λ l. IsWritable (said_by l) × (line.now ≡ script_line_of (said_by l)))) }
    ensures none { IfOk result (λ found. IfNone found ((l : Line) → is_plain l ≡ false → IsWritable l → line.now ≡ word_of l ++ 32 ∷ rest_of l → ⊥)) }
{
    match split_at_space(line) {
        None => Ok(None),
        Some((word, rest)) => read_order(alloc, word, rest),
    }
}

// Reads the word and the rest of a line that is not one of a play.
fn read_order(alloc: Global, word: &str, rest: &str) -> Result<Option<ScriptLine>, AllocError>
    ensures some { IfOk result (λ found. IfSome found (λ l. IsWritable (said_by l)
        × (word.now ≡ word_of (said_by l)) × (rest.now ≡ rest_of (said_by l)) × (is_plain (said_by l) ≡ false))) }
    ensures none { IfOk result (λ found. IfNone found ((l : Line) → is_plain l ≡ false → IsWritable l
        → word.now ≡ word_of l → rest.now ≡ rest_of l → ⊥)) }
{
    if is_same_text(word, "answer") {
        Ok(Some(ScriptLine::Answer(String::from_str(alloc, rest)?)))
    } else if is_same_text(word, "hold") {
        Ok(Some(ScriptLine::Hold(String::from_str(alloc, rest)?)))
    } else if is_same_text(word, "release") {
        read_release(alloc, rest)
    } else if is_same_text(word, "unanswer") {
        Ok(Some(ScriptLine::Unanswer(String::from_str(alloc, rest)?)))
    } else if is_same_text(word, "emit") {
        Ok(Some(ScriptLine::Emit(String::from_str(alloc, rest)?)))
    } else if is_same_text(word, "on") {
        read_on(alloc, rest)
    } else if is_same_text(word, "names") {
        Ok(Some(ScriptLine::Names(String::from_str(alloc, rest)?)))
    } else if is_same_text(word, "send") {
        read_send(alloc, rest)
    } else if is_same_text(word, "bytes") {
        read_bytes(alloc, rest)
    } else if is_same_text(word, "raw") {
        read_raw(alloc, rest)
    } else if is_same_text(word, "stall") {
        Ok(read_number(rest).map(ScriptLine::Stall))
    } else if is_same_text(word, "resume") {
        Ok(read_number(rest).map(ScriptLine::Resume))
    } else if is_same_text(word, "cut") {
        Ok(read_cut(rest))
    } else if is_same_text(word, "close") {
        Ok(read_close(rest))
    } else if is_same_text(word, "refuse") {
        Ok(read_refuse(rest))
    } else {
        Ok(None)
    }
}

// Reads what follows `release `.
fn read_release(alloc: Global, rest: &str) -> Result<Option<ScriptLine>, AllocError>
    ensures some { IfOk result (λ found. IfSome found (λ l. IsWritable (said_by l) × (word_of (said_by l) ≡ codes "release")
        × (rest.now ≡ rest_of (said_by l)) × (is_plain (said_by l) ≡ false))) }
    ensures none { IfOk result (λ found. IfNone found ((n : ℕ) → n < 2 ^ 53 → ((row : List ℕ) → rest.now ≡ decimal n ++ 32 ∷ row → ⊥)
        × (rest.now ≡ decimal n → ⊥))) }
{
    match split_at_space(rest) {
        None => match read_number(rest) {
            None => Ok(None),
            Some(number) => Ok(Some(ScriptLine::Release(number))),
        },
        Some((number, row)) => match read_number(number) {
            None => Ok(None),
            Some(number) => {
                let row = String::from_str(alloc, row)?;
                Ok(Some(ScriptLine::ReleaseWith(number, row)))
            }
        },
    }
}

// Reads what follows `on `.
fn read_on(alloc: Global, rest: &str) -> Result<Option<ScriptLine>, AllocError>
    ensures some { IfOk result (λ found. IfSome found (λ l. (method : List ℕ) × (events : List ℕ) × (said_by l ≡ On method events)
        × IsWord method × (rest.now ≡ method ++ 32 ∷ events))) }
    ensures none { IfOk result (λ found. IfNone found ((method events : List ℕ) → IsWord method → rest.now ≡ method ++ 32 ∷ events → ⊥)) }
{
    let Some((method, events)) = split_at_space(rest) else {
        return Ok(None);
    };
    let method = String::from_str(alloc, method)?;
    let events = String::from_str(alloc, events)?;
    Ok(Some(ScriptLine::On(method, events)))
}

// Reads what follows `send `.
fn read_send(alloc: Global, rest: &str) -> Result<Option<ScriptLine>, AllocError>
    ensures some { IfOk result (λ found. IfSome found (λ l. (n : ℕ) × (text : List ℕ) × (said_by l ≡ Send n text) × (n < 2 ^ 53)
        × (rest.now ≡ decimal n ++ 32 ∷ text))) }
    ensures none { IfOk result (λ found. IfNone found ((n : ℕ) (text : List ℕ) → n < 2 ^ 53 → rest.now ≡ decimal n ++ 32 ∷ text → ⊥)) }
{
    match number_and_text(rest) {
        None => Ok(None),
        Some((conn, text)) => {
            let text = String::from_str(alloc, text)?;
            Ok(Some(ScriptLine::Send(conn, text)))
        }
    }
}

// Reads what follows `bytes `.
fn read_bytes(alloc: Global, rest: &str) -> Result<Option<ScriptLine>, AllocError>
    ensures some { IfOk result (λ found. IfSome found (λ l. (n : ℕ) × (digits : List ℕ) × (said_by l ≡ Bytes n digits) × (n < 2 ^ 53)
        × (rest.now ≡ decimal n ++ 32 ∷ digits))) }
    ensures none { IfOk result (λ found. IfNone found ((n : ℕ) (digits : List ℕ) → n < 2 ^ 53 → rest.now ≡ decimal n ++ 32 ∷ digits → ⊥)) }
{
    match number_and_text(rest) {
        None => Ok(None),
        Some((conn, digits)) => {
            let digits = String::from_str(alloc, digits)?;
            Ok(Some(ScriptLine::Bytes(conn, digits)))
        }
    }
}

// Reads what follows `raw `.
fn read_raw(alloc: Global, rest: &str) -> Result<Option<ScriptLine>, AllocError>
    ensures some { IfOk result (λ found. IfSome found (λ l. (n : ℕ) × (digits : List ℕ) × (said_by l ≡ Raw n digits) × (n < 2 ^ 53)
        × (rest.now ≡ decimal n ++ 32 ∷ digits))) }
    ensures none { IfOk result (λ found. IfNone found ((n : ℕ) (digits : List ℕ) → n < 2 ^ 53 → rest.now ≡ decimal n ++ 32 ∷ digits → ⊥)) }
{
    match number_and_text(rest) {
        None => Ok(None),
        Some((conn, digits)) => {
            let digits = String::from_str(alloc, digits)?;
            Ok(Some(ScriptLine::Raw(conn, digits)))
        }
    }
}

// Reads what follows `cut `.
fn read_cut(rest: &str) -> Option<ScriptLine>
    ensures some { IfSome result (λ l. IsWritable (said_by l) × (word_of (said_by l) ≡ codes "cut") × (rest.now ≡ rest_of (said_by l)) × (is_plain (said_by l) ≡ false)) }
    ensures none { IfNone result (((n : ℕ) → n < 2 ^ 53 → rest.now ≡ decimal n → ⊥)
        × ((n bytes : ℕ) → n < 2 ^ 53 → bytes < 2 ^ 53 → rest.now ≡ decimal n ++ 32 ∷ decimal bytes → ⊥)) }
{
    if let Some(conn) = read_number(rest) {
        return Some(ScriptLine::Cut(conn));
    }
    match two_numbers(rest) {
        None => None,
        Some((conn, bytes)) => Some(ScriptLine::CutAfter(conn, bytes)),
    }
}

// Reads what follows `close `.
fn read_close(rest: &str) -> Option<ScriptLine>
    ensures some { IfSome result (λ l. IsWritable (said_by l) × (word_of (said_by l) ≡ codes "close") × (rest.now ≡ rest_of (said_by l)) × (is_plain (said_by l) ≡ false)) }
    ensures none { IfNone result ((n code : ℕ) → n < 2 ^ 53 → code < 2 ^ 53 → rest.now ≡ decimal n ++ 32 ∷ decimal code → ⊥) }
{
    match two_numbers(rest) {
        None => None,
        Some((conn, code)) => Some(ScriptLine::Close(conn, code)),
    }
}

// Reads what follows `refuse `.
fn read_refuse(rest: &str) -> Option<ScriptLine>
    ensures some { IfSome result (λ l. IsWritable (said_by l) × (word_of (said_by l) ≡ codes "refuse") × (rest.now ≡ rest_of (said_by l)) × (is_plain (said_by l) ≡ false)) }
    ensures none { IfNone result ((n code : ℕ) → n < 2 ^ 53 → code < 2 ^ 53 → rest.now ≡ decimal n ++ 32 ∷ decimal code → ⊥) }
{
    match two_numbers(rest) {
        None => None,
        Some((number, code)) => Some(ScriptLine::Refuse(number, code)),
    }
}

// Reads two numbers with a space between.
fn two_numbers(rest: &str) -> Option<(JsUint, JsUint)>
    ensures some { IfSome result (λ x. rest.now ≡ decimal x.0.value ++ 32 ∷ decimal x.1.value) }
    ensures none { IfNone result ((n code : ℕ) → n < 2 ^ 53 → code < 2 ^ 53 → rest.now ≡ decimal n ++ 32 ∷ decimal code → ⊥) }
{
    let Some((first, second)) = number_and_text(rest) else {
        return None;
    };
    match read_number(second) {
        None => None,
        Some(second) => Some((first, second)),
    }
}

// Reads a number, and the text after the first space.
fn number_and_text(rest: &str) -> Option<(JsUint, &str)>
    ensures some { IfSome result (λ x. rest.now ≡ decimal x.0.value ++ 32 ∷ x.1.now) }
    ensures none { IfNone result ((n : ℕ) (text : List ℕ) → n < 2 ^ 53 → rest.now ≡ decimal n ++ 32 ∷ text → ⊥) }
{
    let Some((number, text)) = split_at_space(rest) else {
        return None;
    };
    match read_number(number) {
        None => None,
        Some(n) => Some((n, text)),
    }
}
