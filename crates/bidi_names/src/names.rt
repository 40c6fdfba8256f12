//! The names of events and modules that a test made known.
ghost use Rattle.std.specs.Prelude.{◌≡◌, ◌<◌, ◌==◌, bytes_eq, get_or, is_some, length, map, option_map, string_bytes, eqb, true, false, MatchOption, IfOk};
ghost use Rattle.std.specs.List.{starts_with, list_all, list_any};
ghost use Rattle.bidi_names.specs.Names.{is_in, is_or_in, makes_known, is_known, is_foreign, is_module, is_name, is_name_byte, words, can_be_known, event_named, new_words};

use bidi_handles::Refusal;
use bidi_methods::EventName;
use bidi_sessions::all_named;
use bidi_shape::Named;
use std::alloc::{AllocError, Global};
use std::slice::from_ref;

/// How many bytes a name that is made known can have.
const LONGEST_NAME: usize = 255;

/// The names of a line, with blanks between them; `None` if one is no name that can be made known.
///
/// # Errors
/// No memory: an allocation failed.
pub fn names_of_line(alloc: Global, text: &str) -> Result<Option<Vec<String>>, AllocError>
    // An Ok has the words of the text, each of which is a name or `*`; it has None exactly if one of them is neither.
    ensures { IfOk result (λ found. MatchOption found (list_all can_be_known (words text.now) ≡ false)
        (λ names. (map string_bytes names.items ≡ words text.now) × (list_all can_be_known (words text.now) ≡ true))) }
{
    let words = words(alloc, text)?;
    if !can_all_be_known(&words) {
        return Ok(None);
    }
    Ok(Some(owned(alloc, &words)?))
}

// The words of a text: what stands between its blanks.
fn words<'a>(alloc: Global, text: &'a str) -> Result<Vec<&'a str>, AllocError>
    ensures { IfOk result (λ found. map (λ w. w.now) found.items ≡ words text.now) }
{
    text.split(' ').collect(alloc)
}

// The same texts, with bytes of their own.
fn owned(alloc: Global, texts: &[&str]) -> Result<Vec<String>, AllocError>
    ensures { IfOk result (λ names. map string_bytes names.items ≡ map (λ t. t.now) texts.now) }
{
    let mut names = Vec::new(alloc);
    for text in texts {
        names.push(String::from_str(alloc, *text)?)?;
    }
    Ok(names)
}

// Whether each of these words can be made known.
fn can_all_be_known(words: &[&str]) -> bool
    ensures { result ≡ list_all can_be_known (map (λ w. w.now) words.now) }
{
    for word in words {
        if !can_be_known(*word) {
            return false;
        }
    }
    true
}

// Whether a word can be made known: it is a name, or `*`.
fn can_be_known(word: &str) -> bool
    ensures { result ≡ can_be_known word.now }
{
    word == "*" || is_name(word)
}

// Whether a text is a name: 1 to 255 letters, digits, `.`, `:`, `-` and `_`.
fn is_name(name: &str) -> bool
    ensures { result ≡ is_name name.now }
{
    1 <= name.len() && name.len() <= LONGEST_NAME && has_name_bytes(name)
}

// Whether each byte of a text can stand in a name.
fn has_name_bytes(text: &str) -> bool
    ensures { result ≡ list_all is_name_byte text.now }
{
    text.as_bytes().iter().all(|b| is_name_byte(*b))
}

// Whether a byte can stand in a name.
fn is_name_byte(b: u8) -> bool
    ensures { result ≡ is_name_byte b }
{
    matches!(b, b'a'..=b'z' | b'A'..=b'Z' | b'0'..=b'9' | b'.' | b':' | b'-' | b'_')
}

/// Those of these words that are not known yet, each once; `None` if there are more than `most`. Copies them.
///
/// Each word is compared with those that are known.
///
/// # Errors
/// No memory: an allocation failed.
pub fn new_words(
    alloc: Global,
    known: &[String],
    words: &[String],
    most: usize,
) -> Result<Option<Vec<String>>, AllocError>
    // An Ok has the words of the definition, in order, or None if there are more than so many.
    ensures { IfOk result (λ found. MatchOption found (most < length (new_words (map string_bytes known.now) (map string_bytes words.now)))
        (λ new. map string_bytes new.items ≡ new_words (map string_bytes known.now) (map string_bytes words.now))) }
{
    let mut new = Vec::new(alloc);
    for word in words {
        if is_one(known, word.as_str()) || is_one(&new, word.as_str()) {
            continue;
        }
        if new.len() >= most {
            return Ok(None);
        }
        new.push(String::from_str(alloc, word.as_str())?)?;
    }
    Ok(Some(new))
}

/// Whether a text is one of these.
pub(crate) fn is_one(texts: &[String], text: &str) -> bool
    ensures { result ≡ list_any (bytes_eq text.now) (map string_bytes texts.now) }
{
    is_same_as_one(texts, text)
}

// Whether a text is one of these.
fn is_same_as_one(texts: &[String], text: &str) -> bool
    ensures { result ≡ list_any (λ one. bytes_eq text.now (string_bytes one)) texts.now }
{
    texts.iter().any(|one| text == one.as_str())
}

/// Whether only the test has a name.
pub(crate) fn is_foreign(alloc: Global, known: &[String], name: &String) -> Result<bool, AllocError>
    ensures { IfOk result (λ is. is ≡ is_foreign (map string_bytes known.now) (string_bytes name.now)) }
{
    if !is_known(known, name.as_str()) {
        return Ok(false);
    }
    match all_named(alloc, from_ref(name)) {
        Ok(_) => Ok(false),
        Err(Refusal::Code(_)) => Ok(true),
        Err(Refusal::NoMemory) => Err(AllocError),
    }
}

/// Whether the test may have further events in the module of this name.
pub(crate) fn is_module(known: &[String], name: &str) -> bool
    ensures { result ≡ is_module (map string_bytes known.now) name.now }
{
    is_known(known, name) && !is_event(name)
}

// Whether the profile has an event of this name.
fn is_event(name: &str) -> bool
    ensures { result ≡ is_some (event_named name.now) }
{
    EventName::named(name).is_some()
}

/// Whether a text is a name and known: by itself, by its module, or as all are. Takes no memory.
pub fn is_known(known: &[String], name: &str) -> bool
    // The result is as the definition says.
    ensures { result ≡ is_known (map string_bytes known.now) name.now }
{
    is_name(name) && is_known_by(known, name)
}

// Whether one of these texts makes a name known.
fn is_known_by(known: &[String], name: &str) -> bool
    ensures { result ≡ list_any (λ by. makes_known by name.now) (map string_bytes known.now) }
{
    is_made_known(known, name)
}

// Whether one of these names makes this one known.
fn is_made_known(known: &[String], name: &str) -> bool
    ensures { result ≡ list_any (λ by. makes_known (string_bytes by) name.now) known.now }
{
    known.iter().any(|by| makes_known(by.as_str(), name))
}

// Whether a name that a test made known makes this one known.
fn makes_known(by: &str, name: &str) -> bool
    ensures { result ≡ makes_known by.now name.now }
{
    by == "*" || is_or_in(name, by)
}

/// Whether a name is this one, or that of an event in the module of this name.
pub(crate) fn is_or_in(name: &str, outer: &str) -> bool
    ensures { result ≡ is_or_in name.now outer.now }
{
    name == outer || is_in(name, outer)
}

// Whether a name is that of an event in the module of this name.
fn is_in(name: &str, outer: &str) -> bool
    ensures { result ≡ is_in name.now outer.now }
{
    starts_with(name, outer) && has_dot_at(name, outer.len())
}

// Whether the text starts with the other one.
fn starts_with(text: &str, wanted: &str) -> bool
    ensures { result ≡ starts_with eqb text.now wanted.now }
{
    text.starts_with(wanted)
}

// Whether a `.` stands at this place.
fn has_dot_at(text: &str, place: usize) -> bool
    ensures { result ≡ (get_or text.now place 0 == 46) }
{
    let bytes = text.as_bytes();
    if place >= bytes.len() {
        return false;
    }
    bytes[place] == b'.'
}
