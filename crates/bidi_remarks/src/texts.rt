//! How a refused line is told in words, and by which cause it is counted.
ghost use Rattle.std.specs.Prelude.{◌≡◌, ◌++◌, IfOk, OnOk, codes, decimal, option_map};
ghost use Rattle.bidi_remarks.specs.Trouble.{misfit_of, trouble_of};
ghost use Rattle.bidi_remarks.specs.Texts.{answering_line, answers_words, beyond_words, cause_text, claim_cause, claim_words, is_quoted, label, misfit_cause, misfit_words};
ghost use Rattle.bidi_remarks.specs.Texts.{name_words, rule_words, told_text, trouble_words, words_line};

use crate::claim::Kind;
use crate::finding::Trouble;
use crate::json_lines::told_in_json;
use crate::misfit::{Misfit, Wants};
use crate::putting::{put, put_escaped};
use bidi_lines::Side;
use itoa::Buffer;
use std::alloc::{AllocError, Global};

/// The most bytes that stand around the words of a line, or around those of a cause.
const AROUND_WORDS: usize = 96;

/// How a refused line is told.
#[derive(Clone, Copy, Debug, PartialEq, Eq)]
pub enum Form {
    /// `line N: TEXT`.
    Words,
    /// One JSON object.
    Json,
}

/// The text that tells of a refused line of this number, a text of this end that answers the command of this id, with its line feed.
///
/// It is written where it stays. Of a tree that does not fit it takes one block of memory, unless a text has escapes.
pub(crate) fn told(
    alloc: Global,
    form: Form,
    number: u64,
    side: Option<Side>,
    answers: Option<u64>,
    trouble: &Trouble,
) -> Result<Vec<u8>, AllocError>
    ensures { IfOk result (λ text. text.items ≡ told_text form number side answers (trouble_of trouble.now)) }
{
    match form {
        Form::Words => told_in_words(alloc, number, answers, trouble),
        Form::Json => told_in_json(alloc, number, side, answers, trouble),
    }
}

/// The cause, by which lines are counted.
///
/// It takes one block of memory, unless the place has escapes.
pub(crate) fn cause(alloc: Global, trouble: &Trouble) -> Result<Vec<u8>, AllocError>
    ensures { IfOk result (λ text. text.items ≡ cause_text (trouble_of trouble.now)) }
{
    match trouble {
        Trouble::Bad(bad) => Vec::from_slice(alloc, bad.cause().as_bytes()),
        Trouble::NoFit(misfit) => misfit_cause(alloc, misfit),
    }
}

/// `line N: WORDS`
///
/// Takes one block of memory.
pub(crate) fn line_of_words(alloc: Global, number: u64, words: &[u8]) -> Result<Vec<u8>, AllocError>
    ensures { IfOk result (λ text. text.items ≡ words_line number words.now) }
{
    let mut text = line_head(alloc, number, words.len())?;
    put(&mut text, words)?;
    put(&mut text, b"\n")?;
    Ok(text)
}

// `line N: WORDS`, and the id of the command that the line answers, if it answers one.
fn answering_line(
    alloc: Global,
    number: u64,
    words: &[u8],
    answers: Option<u64>,
) -> Result<Vec<u8>, AllocError>
    ensures { IfOk result (λ text. text.items ≡ answering_line number words.now answers) }
{
    let mut text = line_head(alloc, number, words.len())?;
    put(&mut text, words)?;
    put_answers(&mut text, answers)?;
    put(&mut text, b"\n")?;
    Ok(text)
}

// Puts ` (answers ID)` behind, or nothing.
fn put_answers(text: &mut Vec<u8>, answers: Option<u64>) -> Result<(), AllocError>
    ensures { OnOk result (text.new.items ≡ text.old.items ++ answers_words answers) }
{
    if let Some(id) = answers {
        put(text, b" (answers ")?;
        put(text, Buffer::new().format(id).as_bytes())?;
        put(text, b")")?;
    }
    Ok(())
}

// The line of what is wrong.
fn told_in_words(
    alloc: Global,
    number: u64,
    answers: Option<u64>,
    trouble: &Trouble,
) -> Result<Vec<u8>, AllocError>
    ensures { IfOk result (λ text. text.items ≡ answering_line number (trouble_words (trouble_of trouble.now)) answers) }
{
    match trouble {
        Trouble::Bad(bad) => {
            answering_line(alloc, number, bad.words(alloc)?.as_bytes(), answers)
        }
        Trouble::NoFit(misfit) => misfit_line(alloc, number, answers, misfit),
    }
}

// `line N: LABEL: POINTER: CLAIM (RULE)`, and the id of the command that the line answers.
fn misfit_line(
    alloc: Global,
    number: u64,
    answers: Option<u64>,
    misfit: &Misfit,
) -> Result<Vec<u8>, AllocError>
    ensures { IfOk result (λ text. text.items ≡ answering_line number (misfit_words (misfit_of misfit.now)) answers) }
{
    let mut text = line_head(alloc, number, room_of(misfit))?;
    put_misfit(alloc, &mut text, misfit)?;
    put_answers(&mut text, answers)?;
    put(&mut text, b"\n")?;
    Ok(text)
}

// `line N: `, with room for so many bytes of words behind it.
fn line_head(alloc: Global, number: u64, room: usize) -> Result<Vec<u8>, AllocError>
    ensures { IfOk result (λ text. text.items ≡ codes "line " ++ decimal number ++ codes ": ") }
{
    let mut text = Vec::with_capacity(alloc, room.saturating_add(AROUND_WORDS))?;
    put(&mut text, b"line ")?;
    put(&mut text, Buffer::new().format(number).as_bytes())?;
    put(&mut text, b": ")?;
    Ok(text)
}

// How many bytes the texts of a misfit have.
fn room_of(misfit: &Misfit) -> usize {
    let label = match &misfit.method {
        Some(method) => method.len(),
        None => 1,
    };
    let rule = match misfit.rule {
        Some(rule) => rule.len(),
        None => 0,
    };
    label
        .saturating_add(misfit.pointer.len())
        .saturating_add(short_of(misfit).len())
        .saturating_add(misfit.has.len())
        .saturating_add(rule)
}

// Puts `LABEL: POINTER: CLAIM (RULE)` behind, and `beyond the profile: ` before it where it is.
fn put_misfit(alloc: Global, text: &mut Vec<u8>, misfit: &Misfit) -> Result<(), AllocError>
    ensures { OnOk result (text.new.items ≡ text.old.items ++ misfit_words (misfit_of misfit.now)) }
{
    put_beyond(text, misfit.is_beyond)?;
    put_label(alloc, text, misfit)?;
    put(text, b": ")?;
    put_escaped(alloc, text, misfit.pointer.as_str())?;
    put(text, b": ")?;
    put_claim(text, misfit)?;
    put_rule(text, misfit.rule)
}

// Puts `beyond the profile: ` behind, or nothing.
fn put_beyond(text: &mut Vec<u8>, is_beyond: bool) -> Result<(), AllocError>
    ensures { OnOk result (text.new.items ≡ text.old.items ++ beyond_words is_beyond) }
{
    if is_beyond {
        put(text, b"beyond the profile: ")?;
    }
    Ok(())
}

// Puts what is wrong at a place behind.
fn put_claim(text: &mut Vec<u8>, misfit: &Misfit) -> Result<(), AllocError>
    ensures { OnOk result (text.new.items ≡ text.old.items
        ++ claim_words misfit.now.kind (misfit_of misfit.now).short (misfit_of misfit.now).has) }
{
    let short = short_of(misfit).as_bytes();
    let has = misfit.has.as_bytes();
    match misfit.kind {
        Kind::Missing => put_two(text, b"missing; wants ", short),
        Kind::Unexpected => put_two(text, b"unexpected property, ", has),
        Kind::Deep => {
            put_two(text, has, b", ")?;
            put(text, short)
        }
        Kind::Keyless => put_two(text, b"wants ", short),
        Kind::Wrong => {
            put_two(text, b"wants ", short)?;
            put_two(text, b", has ", has)
        }
    }
}

// What may stand there, in short.
fn short_of(misfit: &Misfit) -> &str
    ensures { result.now ≡ (misfit_of misfit.now).short }
{
    match &misfit.wants {
        Wants::Whole(text) => text.as_str(),
        Wants::Short(text, _) => text.as_str(),
    }
}

// Puts two texts behind.
fn put_two(text: &mut Vec<u8>, front: &[u8], words: &[u8]) -> Result<(), AllocError>
    ensures { OnOk result (text.new.items ≡ text.old.items ++ (front.now ++ words.now)) }
{
    put(text, front)?;
    put(text, words)
}

// `PATTERN: CLAIM (RULE)`, and `beyond the profile: ` before it where it is.
fn misfit_cause(alloc: Global, misfit: &Misfit) -> Result<Vec<u8>, AllocError>
    ensures { IfOk result (λ text. text.items ≡ misfit_cause (misfit_of misfit.now)) }
{
    let room = misfit
        .pattern
        .len()
        .saturating_add(short_of(misfit).len())
        .saturating_add(misfit.has.len());
    let mut text = Vec::with_capacity(alloc, room.saturating_add(AROUND_WORDS))?;
    put_cause(alloc, &mut text, misfit)?;
    Ok(text)
}

// Puts the same behind.
fn put_cause(alloc: Global, text: &mut Vec<u8>, misfit: &Misfit) -> Result<(), AllocError>
    ensures { OnOk result (text.new.items ≡ text.old.items ++ misfit_cause (misfit_of misfit.now)) }
{
    put_beyond(text, misfit.is_beyond)?;
    put_escaped(alloc, text, misfit.pattern.as_str())?;
    put(text, b": ")?;
    put_claim_cause(text, misfit)?;
    put_rule(text, misfit.rule)
}

// Puts what is wrong at a place behind, as it is counted.
fn put_claim_cause(text: &mut Vec<u8>, misfit: &Misfit) -> Result<(), AllocError>
    ensures { OnOk result (text.new.items ≡ text.old.items
        ++ claim_cause misfit.now.kind (misfit_of misfit.now).wants (misfit_of misfit.now).short (misfit_of misfit.now).has) }
{
    let short = short_of(misfit).as_bytes();
    match misfit.kind {
        Kind::Missing => put_two(text, b"missing; wants ", short),
        Kind::Unexpected => put(text, b"unexpected property"),
        Kind::Deep => put_two(text, b"levels of nesting, ", short),
        Kind::Keyless => put_two(text, b"wants ", short),
        Kind::Wrong => {
            put_two(text, b"wants ", short)?;
            put_name(text, misfit)
        }
    }
}

// Puts which text stands at a place behind, if certain texts may.
fn put_name(text: &mut Vec<u8>, misfit: &Misfit) -> Result<(), AllocError>
    ensures { OnOk result (text.new.items ≡ text.old.items ++ name_words (misfit_of misfit.now).wants (misfit_of misfit.now).has) }
{
    let has = misfit.has.as_bytes();
    if wants_text(misfit) && is_quoted(has) {
        put_two(text, b", has ", has)?;
    }
    Ok(())
}

// Whether a certain text may stand there, before all else.
fn wants_text(misfit: &Misfit) -> bool
    ensures { result ≡ is_quoted (misfit_of misfit.now).wants }
{
    match &misfit.wants {
        Wants::Whole(text) => is_quoted(text.as_bytes()),
        Wants::Short(_, alternatives) => alternatives.begins_with_text(),
    }
}

// Whether words begin with a quotation mark, as those of a text do.
fn is_quoted(words: &[u8]) -> bool
    ensures { result ≡ is_quoted words.now }
{
    words.starts_with(b"\"")
}

// Puts the label of a tree behind: its method, or `-`.
fn put_label(alloc: Global, text: &mut Vec<u8>, misfit: &Misfit) -> Result<(), AllocError>
    ensures { OnOk result (text.new.items ≡ text.old.items ++ label (misfit_of misfit.now).method) }
{
    match &misfit.method {
        Some(method) => put_escaped(alloc, text, method.as_str()),
        None => put(text, b"-"),
    }
}

// Puts ` (RULE)` behind, or nothing.
fn put_rule(text: &mut Vec<u8>, rule: Option<&'static str>) -> Result<(), AllocError>
    ensures { OnOk result (text.new.items ≡ text.old.items ++ rule_words (option_map (λ s. s.now) rule.entry)) }
{
    if let Some(rule) = rule {
        put(text, b" (")?;
        put(text, rule.as_bytes())?;
        put(text, b")")?;
    }
    Ok(())
}
