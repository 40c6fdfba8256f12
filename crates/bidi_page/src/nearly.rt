//! Which word keeps a text from being a line of a page.
use bidi_lines::LONGEST_LINE;
use bidi_play::{read_number, split_at_space};
use bidi_scripts::Level;
use bidi_shape::Named;
use std::alloc::{AllocError, Global};

/// The most bytes of a word that is quoted.
const LONGEST_WORD: usize = 60;

/// Where a line stands.
#[derive(Clone, Copy, Debug, PartialEq, Eq)]
enum Place {
    Page,
    Play,
}

/// Says why a text is not a line of a page, in words; empty if it is one.
///
/// The words are a list of those that a line may begin with, or say what is wrong after the first word.
///
/// # Errors
/// No memory: an allocation failed.
pub fn no_line(alloc: Global, text: &str) -> Result<String, AllocError> {
    fault_of(alloc, Place::Page, text)
}

/// Says why a text is not a line of a scripted play, in words; empty if it is one. The words are those of [`no_line`], with
/// the lines of connections among them.
///
/// # Errors
/// No memory: an allocation failed.
pub fn no_play_line(alloc: Global, text: &str) -> Result<String, AllocError> {
    fault_of(alloc, Place::Play, text)
}

// What is wrong with a text.
fn fault_of(alloc: Global, place: Place, text: &str) -> Result<String, AllocError> {
    if text.len() > LONGEST_LINE {
        return String::from_str(alloc, "more than 2097152 bytes");
    }
    if text.contains('\n') {
        return String::from_str(alloc, "a line feed in it");
    }
    if text.starts_with('\u{feff}') {
        return String::from_str(alloc, "a byte order mark at its beginning");
    }
    match text.strip_suffix('\r') {
        Some(front) => with_return(alloc, fault_in(alloc, place, front)?),
        None => fault_in(alloc, place, text),
    }
}

// Adds to what is wrong with a text that a carriage return follows the text.
fn with_return(alloc: Global, fault: String) -> Result<String, AllocError> {
    if fault.is_empty() {
        return String::from_str(alloc, "a carriage return at its end");
    }
    format!(in alloc; "{fault}; a carriage return at its end")
}

// What is wrong with the words of a text.
fn fault_in(alloc: Global, place: Place, text: &str) -> Result<String, AllocError> {
    match split_at_space(text) {
        Some((word, rest)) => fault_behind(alloc, place, word, rest),
        None => fault_alone(alloc, place, text),
    }
}

// What is wrong with a text of one word.
fn fault_alone(alloc: Global, place: Place, word: &str) -> Result<String, AllocError> {
    match usage(place, word) {
        Some(usage) => format!(in alloc; "wants {usage}"),
        None => unknown(alloc, place, word),
    }
}

// What is wrong with the text after the first word and its space.
fn fault_behind(alloc: Global, place: Place, word: &str, rest: &str) -> Result<String, AllocError> {
    match word {
        "at" => match read_number(rest) {
            Some(_) => Ok(String::new(alloc)),
            None => wrong(
                alloc,
                rest,
                "no moment, a whole number from 0 to 9007199254740991",
            ),
        },
        "log" => log_fault(alloc, rest),
        "reset" | "end" if place == Place::Page => {
            String::from_str(alloc, "nothing may stand behind `reset` and `end`")
        }
        _ => fault_alone(alloc, place, word),
    }
}

// What is wrong with the text after `log `.
fn log_fault(alloc: Global, rest: &str) -> Result<String, AllocError> {
    let Some((_, entry)) = split_at_space(rest) else {
        return fault_alone(alloc, Place::Page, "log");
    };
    match split_at_space(entry) {
        Some((level, _)) if Level::named(level).is_none() => {
            wrong(alloc, level, "no level: debug, info, warn or error")
        }
        _ => fault_alone(alloc, Place::Page, "log"),
    }
}

// The form of the lines that begin with this word.
fn usage(place: Place, word: &str) -> Option<&'static str> {
    match word {
        "open" if place == Place::Play => Some("open C RESOURCE"),
        "drop" if place == Place::Play => Some("drop C"),
        ">" if place == Place::Play => Some("> C TEXT"),
        "binary" if place == Place::Play => Some("binary C"),
        "at" => Some("at N"),
        "frame" => Some("frame CONTEXT URL"),
        "unframe" => Some("unframe CONTEXT"),
        "log" => Some("log CONTEXT LEVEL TEXT"),
        "value" => Some("value ROW"),
        "answer" => Some("answer ROW"),
        "hold" => Some("hold ROW"),
        "release" => Some("release N or release N ROW"),
        "unanswer" => Some("unanswer METHOD"),
        "emit" => Some("emit EVENT"),
        "on" => Some("on METHOD [EVENT..]"),
        "names" => Some("names NAME.."),
        "send" => Some("send C TEXT"),
        "bytes" => Some("bytes C HEX"),
        "raw" => Some("raw C HEX"),
        "stall" => Some("stall C"),
        "resume" => Some("resume C"),
        "cut" => Some("cut C or cut C AFTER"),
        "close" => Some("close C CODE"),
        "refuse" => Some("refuse N CODE"),
        _ => None,
    }
}

// Says that no line begins with this word.
fn unknown(alloc: Global, place: Place, word: &str) -> Result<String, AllocError> {
    wrong(
        alloc,
        word,
        match place {
            Place::Page => {
                "none of at, frame, unframe, log, value, answer, hold, release, unanswer, emit, on, names, send, bytes, raw, stall, resume, cut, close, refuse, reset and end"
            }
            Place::Play => {
                "none of at, open, drop, >, binary, frame, unframe, log, value, answer, hold, release, unanswer, emit, on, names, send, bytes, raw, stall, resume, cut, close and refuse"
            }
        },
    )
}

// Says what a word has to be.
fn wrong(alloc: Global, word: &str, what: &str) -> Result<String, AllocError> {
    if word.len() > LONGEST_WORD {
        return format!(in alloc; "a word of {} bytes is {what}", word.len());
    }
    format!(in alloc; "\"{word}\" is {what}")
}
