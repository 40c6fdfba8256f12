//! Lines of JSON that tell what is wrong.
ghost use Rattle.std.specs.Prelude.{◌≡◌, ◌++◌, Some, IfOk, OnOk, option_map, string_bytes};
ghost use Rattle.bidi_remarks.specs.Trouble.{misfit_of, trouble_of};
ghost use Rattle.bidi_remarks.specs.Texts.{bad_row, json_line, misfit_row, number_or_null, row_of, side_text, text_or_null, trouble_row, truth};

use crate::bad_text::BadText;
use crate::finding::Trouble;
use crate::misfit::{Misfit, Wants};
use crate::putting::{put, put_quoted};
use bidi_lines::Side;
use bidi_tree::JsUint;
use itoa::Buffer;
use std::alloc::{AllocError, Global};

/// The most bytes that stand around the texts of an object.
const AROUND_TEXTS: usize = 208;

/// What a line of JSON has behind its number.
#[derive(Clone, Copy)]
pub(crate) struct Row<'a> {
    pub id: Option<u64>,
    pub method: Option<&'a str>,
    pub pointer: Option<&'a str>,
    pub rule: Option<&'a str>,
    pub wants: Option<&'a str>,
    pub has: &'a str,
    /// The end that sent the text.
    pub side: Option<&'a str>,
    /// The id of the command that the text answers.
    pub answers: Option<u64>,
    /// Whether what is wrong is only beyond the profile.
    pub is_beyond: bool,
}

/// The name of an end.
pub(crate) fn side_name(side: Side) -> &'static str
    ensures { result.now ≡ side_text side }
{
    match side {
        Side::Local => "local",
        Side::Remote => "remote",
    }
}

// The same of an end, if there is one.
fn side_if(side: Option<Side>) -> Option<&'static str>
    ensures { option_map (λ s. s.now) result ≡ option_map side_text side }
{
    match side {
        Some(side) => Some(side_name(side)),
        None => None,
    }
}

/// The object of a line that is refused.
pub(crate) fn told_in_json(
    alloc: Global,
    number: u64,
    side: Option<Side>,
    answers: Option<u64>,
    trouble: &Trouble,
) -> Result<Vec<u8>, AllocError>
    ensures { IfOk result (λ text. text.items ≡ json_line (Some number) (trouble_row side answers (trouble_of trouble.now))) }
{
    match trouble {
        Trouble::Bad(bad) => bad_in_json(alloc, number, side, answers, *bad),
        Trouble::NoFit(misfit) => misfit_in_json(alloc, number, side, answers, misfit),
    }
}

// That of a line that is no text to judge.
fn bad_in_json(
    alloc: Global,
    number: u64,
    side: Option<Side>,
    answers: Option<u64>,
    bad: BadText,
) -> Result<Vec<u8>, AllocError>
    ensures { IfOk result (λ text. text.items ≡ json_line (Some number) (bad_row side answers bad)) }
{
    let words = bad.words(alloc)?;
    let row = Row {
        id: None,
        method: None,
        pointer: None,
        rule: None,
        wants: None,
        has: words.as_str(),
        side: side_if(side),
        answers,
        is_beyond: false,
    };
    json_line(alloc, Some(number), &row)
}

// That of a line whose tree does not fit.
fn misfit_in_json(
    alloc: Global,
    number: u64,
    side: Option<Side>,
    answers: Option<u64>,
    misfit: &Misfit,
) -> Result<Vec<u8>, AllocError>
    ensures { IfOk result (λ text. text.items ≡ json_line (Some number) (misfit_row side answers (misfit_of misfit.now))) }
{
    match &misfit.wants {
        Wants::Whole(wants) => { misfit_with(alloc, number, side, answers, misfit, wants.as_str()) }
        Wants::Short(_, alternatives) => {
            let wants = alternatives.text(alloc)?;
            misfit_with(alloc, number, side, answers, misfit, wants.as_str())
        }
    }
}

// The same, where this may stand at the place.
fn misfit_with(
    alloc: Global,
    number: u64,
    side: Option<Side>,
    answers: Option<u64>,
    misfit: &Misfit,
    wants: &str,
) -> Result<Vec<u8>, AllocError>
    requires { wants.now ≡ (misfit_of misfit.now).wants }
    ensures { IfOk result (λ text. text.items ≡ json_line (Some number) (misfit_row side answers (misfit_of misfit.now))) }
{
    let row = Row {
        id: value_of(misfit.id),
        method: text_of(&misfit.method),
        pointer: Some(misfit.pointer.as_str()),
        rule: misfit.rule,
        wants: Some(wants),
        has: misfit.has.as_str(),
        side: side_if(side),
        answers,
        is_beyond: misfit.is_beyond,
    };
    json_line(alloc, Some(number), &row)
}

// The number of an id, if there is one.
fn value_of(id: Option<JsUint>) -> Option<u64>
    ensures { result ≡ option_map (λ n. n.value) id }
{
    match id {
        Some(id) => Some(id.value),
        None => None,
    }
}

// The text, if there is one.
fn text_of(text: &Option<String>) -> Option<&str>
    ensures { option_map (λ s. s.now) result ≡ option_map string_bytes text.now }
{
    match text {
        Some(text) => Some(text.as_str()),
        None => None,
    }
}

/// `{"line":N,"id":ID,"method":METHOD,"pointer":POINTER,"rule":RULE,"wants":WANTS,"has":HAS,"side":SIDE,"answers":ID,"beyond":TRUTH}`.
///
/// Takes one block of memory, unless more than one byte in eight of its texts has an escape.
pub(crate) fn json_line(
    alloc: Global,
    number: Option<u64>,
    row: &Row<'_>,
) -> Result<Vec<u8>, AllocError>
    ensures { IfOk result (λ text. text.items ≡ json_line number (row_of row.now)) }
{
    let mut text = Vec::with_capacity(alloc, room_of_row(row))?;
    put(&mut text, b"{\"line\":")?;
    put_number(&mut text, number)?;
    put(&mut text, b",\"id\":")?;
    put_number(&mut text, row.id)?;
    put_member(alloc, &mut text, b",\"method\":", row.method)?;
    put_member(alloc, &mut text, b",\"pointer\":", row.pointer)?;
    put_member(alloc, &mut text, b",\"rule\":", row.rule)?;
    put_member(alloc, &mut text, b",\"wants\":", row.wants)?;
    put_member(alloc, &mut text, b",\"has\":", Some(row.has))?;
    put_member(alloc, &mut text, b",\"side\":", row.side)?;
    put(&mut text, b",\"answers\":")?;
    put_number(&mut text, row.answers)?;
    put(&mut text, b",\"beyond\":")?;
    put(&mut text, truth(row.is_beyond))?;
    put(&mut text, b"}\n")?;
    Ok(text)
}

// A truth value.
fn truth(value: bool) -> &'static [u8]
    ensures { result.now ≡ truth value }
{
    if value { b"true" } else { b"false" }
}

// The room for an object.
fn room_of_row(row: &Row<'_>) -> usize {
    let texts = length_of(row.method)
        .saturating_add(length_of(row.pointer))
        .saturating_add(length_of(row.rule))
        .saturating_add(length_of(row.wants))
        .saturating_add(row.has.len());
    texts.saturating_add(texts / 8).saturating_add(AROUND_TEXTS)
}

// How many bytes a text has, where there is one.
fn length_of(text: Option<&str>) -> usize {
    match text {
        Some(text) => text.len(),
        None => 0,
    }
}

// Puts a member behind: its name, and its text or `null`.
fn put_member(
    alloc: Global,
    text: &mut Vec<u8>,
    name: &[u8],
    value: Option<&str>,
) -> Result<(), AllocError>
    ensures { OnOk result (text.new.items ≡ text.old.items ++ name.now ++ text_or_null (option_map (λ s. s.now) value.entry)) }
{
    put(text, name)?;
    match value {
        Some(value) => put_quoted(alloc, text, value),
        None => put(text, b"null"),
    }
}

// Puts a number in decimal behind, or `null`.
fn put_number(text: &mut Vec<u8>, number: Option<u64>) -> Result<(), AllocError>
    ensures { OnOk result (text.new.items ≡ text.old.items ++ number_or_null number) }
{
    match number {
        Some(number) => put(text, Buffer::new().format(number).as_bytes()),
        None => put(text, b"null"),
    }
}
