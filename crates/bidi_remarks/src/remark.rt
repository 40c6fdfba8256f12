//! What is told of a line of a conversation, and how.
ghost use Rattle.std.specs.Prelude.{◌≡◌, ◌∷◌, ◌++◌, [], Some, None, IfOk, OnOk, codes, decimal, option_map, string_bytes};
ghost use Rattle.bidi_params.specs.ErrorCode.{error_code_text};
ghost use Rattle.bidi_methods.specs.Method.{method_text};
ghost use Rattle.bidi_show.specs.MessageLines.{id_text};
ghost use Rattle.bidi_lines.specs.declared.side.Side.TheVariants.{Local, Remote};
ghost use Rattle.bidi_remarks.specs.Trouble.{misfit_of, no_fit, trouble_of};
ghost use Rattle.bidi_remarks.specs.Remark as told;
ghost use Rattle.bidi_remarks.specs.Remark.{at_words, failure_row, misfit_at, remark_cause, remark_line, remark_of, unanswered_line, within};
ghost use Rattle.bidi_remarks.specs.Texts.{answers_words, json_line, words_line};

use crate::bad_text::BadText;
use crate::claim::Kind;
use crate::finding::Trouble;
use crate::json_lines::{Row, json_line, side_name};
use crate::misfit::{Misfit, Wants};
use crate::putting::put;
use crate::texts::{Form, cause, line_of_words, told};
use bidi_lines::Side;
use bidi_messages::{ErrorCode, Method, Named};
use bidi_tree::JsUint;
use itoa::Buffer;
use std::alloc::{AllocError, Global};

/// What is told of a line of a conversation.
#[derive(Drop)]
pub enum Remark {
    /// Something is wrong: the end that sent the text, the id of the command that the text answers, the fault in brief, and the reason.
    Fault(Option<Side>, Option<u64>, String, Trouble),
    /// A command failed.
    Failed(JsUint, Method, ErrorCode),
}

// ---- what is wrong

/// The line is no text of either end.
///
/// # Errors
/// No memory: an allocation failed.
pub fn bad_line(alloc: Global, bad: BadText) -> Result<Remark, AllocError>
    // The remark says why the line is no text.
    ensures { IfOk result (λ r. remark_of r ≡ told.bad_line bad) }
{
    let brief = bad.words(alloc)?;
    Ok(Remark::Fault(None, None, brief, Trouble::Bad(bad)))
}

// A command of a local end is no command that may be sent now.
fn by_local(brief: String, misfit: Misfit) -> Remark
    ensures { remark_of result ≡ told.fault (Some Local) None (string_bytes brief) (no_fit (misfit_of misfit)) }
{
    Remark::Fault(Some(Side::Local), None, brief, Trouble::NoFit(misfit))
}

/// A command has the id of one that waits.
///
/// # Errors
/// No memory: an allocation failed.
pub fn id_waits(alloc: Global, id: JsUint, method: Method) -> Result<Remark, AllocError>
    // The remark says that the id of this command waits.
    ensures { IfOk result (λ r. remark_of r ≡ told.id_waits id.value method) }
{
    let name = method.name();
    let has = id_text(alloc, Some(id))?;
    let misfit = misfit_at(
        alloc,
        Some(id),
        name,
        "/id",
        "an id that does not wait",
        has.as_str(),
    )?;
    let brief = format!(in alloc; "id waits {} {name}", id.value)?;
    Ok(by_local(brief, misfit))
}

/// As many commands wait as may.
///
/// # Errors
/// No memory: an allocation failed.
pub fn too_many(alloc: Global, id: JsUint, method: Method) -> Result<Remark, AllocError>
    // The remark says that too many commands wait for this one to be sent.
    ensures { IfOk result (λ r. remark_of r ≡ told.too_many id.value method) }
{
    let name = method.name();
    let misfit = misfit_at(
        alloc,
        Some(id),
        name,
        "",
        "fewer than 1024 commands that wait",
        "1024",
    )?;
    let brief = format!(in alloc; "too many wait {} {name}", id.value)?;
    Ok(by_local(brief, misfit))
}

/// A response or an error, which has this `type`, answers no command that waits.
///
/// # Errors
/// No memory: an allocation failed.
pub fn stray(alloc: Global, id: Option<JsUint>, kind: &str) -> Result<Remark, AllocError>
    // The remark says that no command waits under this id.
    ensures { IfOk result (λ r. remark_of r ≡ told.stray (option_map (λ n. n.value) id) kind.now) }
{
    let has = id_text(alloc, id)?;
    let misfit = misfit_at(
        alloc,
        id,
        kind,
        "/id",
        "the id of a command that waits",
        has.as_str(),
    )?;
    let brief = format!(in alloc; "stray {has}")?;
    Ok(Remark::Fault(Some(Side::Remote), None, brief, Trouble::NoFit(misfit)))
}

/// A text of the remote end is no message, and answers the command of this id for all that, or none.
///
/// # Errors
/// No memory: an allocation failed.
pub fn no_message(
    alloc: Global,
    answers: Option<u64>,
    brief: &str,
    why: Trouble,
) -> Result<Remark, AllocError>
    // The remark has the fault in brief, the command that the text answers, and the reason.
    ensures { IfOk result (λ r. remark_of r ≡ told.no_message answers brief.now (trouble_of why)) }
{
    let brief = answering(alloc, brief, answers)?;
    Ok(Remark::Fault(Some(Side::Remote), answers, brief, why))
}

// The words, with the command that is answered, if there is one.
fn answering(alloc: Global, brief: &str, answers: Option<u64>) -> Result<String, AllocError>
    ensures { IfOk result (λ s. string_bytes s ≡ brief.now ++ answers_words answers) }
{
    match answers {
        Some(id) => format!(in alloc; "{brief} (answers {id})"),
        None => String::from_str(alloc, brief),
    }
}

/// A result does not fit the rule of its command's method; the misfit is that of the result.
pub(crate) fn with_bad_result(
    alloc: Global,
    id: JsUint,
    method: Method,
    misfit: Misfit,
) -> Result<Remark, AllocError>
    ensures { IfOk result (λ r. remark_of r ≡ told.fault (Some Remote) (Some id.value) (codes "bad result " ++ decimal id.value ++ 32 ∷ method_text method)
        (no_fit (within (codes "/result") (misfit_of misfit)))) }
{
    let name = method.name();
    let brief = format!(in alloc; "bad result {} {name}", id.value)?;
    let misfit = within(alloc, "/result", misfit)?;
    Ok(Remark::Fault(
        Some(Side::Remote),
        Some(id.value),
        brief,
        Trouble::NoFit(misfit),
    ))
}

// The misfit of what stands at this place is one of the whole.
fn within(alloc: Global, place: &str, misfit: Misfit) -> Result<Misfit, AllocError>
    ensures { IfOk result (λ m. misfit_of m ≡ within place.now (misfit_of misfit)) }
{
    let pointer = joined(alloc, place, misfit.pointer.as_str())?;
    let pattern = joined(alloc, place, misfit.pattern.as_str())?;
    Ok(Misfit {
        id: misfit.id,
        method: misfit.method,
        kind: misfit.kind,
        pointer,
        pattern,
        wants: misfit.wants,
        has: misfit.has,
        rule: misfit.rule,
        is_beyond: misfit.is_beyond,
    })
}

// The one text, and the other behind it.
fn joined(alloc: Global, text: &str, other: &str) -> Result<String, AllocError>
    ensures { IfOk result (λ both. string_bytes both ≡ text.now ++ other.now) }
{
    let mut both = String::from_str(alloc, text)?;
    both.push_str(other)?;
    Ok(both)
}

// At this place of a text something else is wanted.
fn misfit_at(
    alloc: Global,
    id: Option<JsUint>,
    label: &str,
    place: &str,
    wants: &str,
    has: &str,
) -> Result<Misfit, AllocError>
    ensures { IfOk result (λ m. misfit_of m ≡ misfit_at (option_map (λ n. n.value) id) label.now place.now wants.now has.now) }
{
    Ok(Misfit {
        id,
        method: Some(String::from_str(alloc, label)?),
        kind: Kind::Wrong,
        pointer: String::from_str(alloc, place)?,
        pattern: String::from_str(alloc, place)?,
        wants: Wants::Whole(String::from_str(alloc, wants)?),
        has: String::from_str(alloc, has)?,
        rule: None,
        is_beyond: false,
    })
}

// The id in decimal, or `null`.
fn id_text(alloc: Global, id: Option<JsUint>) -> Result<String, AllocError>
    ensures { IfOk result (λ text. string_bytes text ≡ id_text (option_map (λ n. n.value) id)) }
{
    match id {
        Some(id) => format!(in alloc; "{}", id.value),
        None => String::from_str(alloc, "null"),
    }
}

// ---- how it is told

/// What is written for the line of this number, in brief where no form is given.
///
/// # Errors
/// No memory: an allocation failed.
pub(crate) fn remark_line(
    alloc: Global,
    form: Option<Form>,
    number: u64,
    remark: &Remark,
) -> Result<Vec<u8>, AllocError>
    ensures { IfOk result (λ text. text.items ≡ remark_line form number (remark_of remark.now)) }
{
    match remark {
        Remark::Fault(side, answers, brief, why) => match form {
            Some(form) => told(alloc, form, number, *side, *answers, why),
            None => line_of_words(alloc, number, brief.as_bytes()),
        },
        Remark::Failed(id, method, code) => failure_line(alloc, form, number, *id, *method, *code),
    }
}

// That of a command that failed.
fn failure_line(
    alloc: Global,
    form: Option<Form>,
    number: u64,
    id: JsUint,
    method: Method,
    code: ErrorCode,
) -> Result<Vec<u8>, AllocError>
    ensures { IfOk result (λ text. text.items ≡ remark_line form number (told.failed id.value method code)) }
{
    match form {
        None => brief_failure(alloc, number, id, method, code),
        Some(Form::Words) => failure_in_words(alloc, number, method, code),
        Some(Form::Json) => failure_in_json(alloc, number, id, method, code),
    }
}

// `line N: error ID METHOD CODE`
fn brief_failure(
    alloc: Global,
    number: u64,
    id: JsUint,
    method: Method,
    code: ErrorCode,
) -> Result<Vec<u8>, AllocError>
    ensures { IfOk result (λ text. text.items ≡ words_line number (codes "error " ++ decimal id.value ++ 32 ∷ method_text method ++ 32 ∷ error_code_text code)) }
{
    let words = failure_words(alloc, id, method, code)?;
    line_of_words(alloc, number, words.as_bytes())
}

// `error ID METHOD CODE`
fn failure_words(
    alloc: Global,
    id: JsUint,
    method: Method,
    code: ErrorCode,
) -> Result<String, AllocError>
    ensures { IfOk result (λ words. string_bytes words ≡ codes "error " ++ decimal id.value ++ 32 ∷ method_text method ++ 32 ∷ error_code_text code) }
{
    let name = method.name();
    let code = code.name();
    let head = format!(in alloc; "error {} {name}", id.value)?;
    format!(in alloc; "{head} {code}")
}

// `line N: METHOD: error CODE`
fn failure_in_words(
    alloc: Global,
    number: u64,
    method: Method,
    code: ErrorCode,
) -> Result<Vec<u8>, AllocError>
    ensures { IfOk result (λ text. text.items ≡ words_line number (method_text method ++ codes ": error " ++ error_code_text code)) }
{
    let name = method.name();
    let code = code.name();
    let words = format!(in alloc; "{name}: error {code}")?;
    line_of_words(alloc, number, words.as_bytes())
}

// The object of a command that failed.
fn failure_in_json(
    alloc: Global,
    number: u64,
    id: JsUint,
    method: Method,
    code: ErrorCode,
) -> Result<Vec<u8>, AllocError>
    ensures { IfOk result (λ text. text.items ≡ json_line (Some number) (failure_row id.value method code)) }
{
    let row = Row {
        id: Some(id.value),
        method: Some(method.name()),
        pointer: Some("/error"),
        rule: None,
        wants: None,
        has: code.name(),
        side: Some(side_name(Side::Remote)),
        answers: Some(id.value),
        is_beyond: false,
    };
    json_line(alloc, Some(number), &row)
}

/// What is written for a command that was never answered: its line, its id and its method.
///
/// # Errors
/// No memory: an allocation failed.
pub fn unanswered_line(
    alloc: Global,
    form: Option<Form>,
    number: Option<u64>,
    id: u64,
    method: &str,
) -> Result<Vec<u8>, AllocError>
    // The text names the command and, where it is known, its line.
    ensures { IfOk result (λ text. text.items ≡ unanswered_line form number id method.now) }
{
    match form {
        Some(Form::Json) => unanswered_in_json(alloc, number, id, method),
        Some(Form::Words) | None => unanswered_in_words(alloc, number, id, method),
    }
}

// `unanswered ID METHOD (line N)`
fn unanswered_in_words(
    alloc: Global,
    number: Option<u64>,
    id: u64,
    method: &str,
) -> Result<Vec<u8>, AllocError>
    ensures { IfOk result (λ text. text.items ≡ codes "unanswered " ++ decimal id ++ codes " " ++ method.now ++ at_words number ++ 10 ∷ []) }
{
    let mut text = Vec::new(alloc);
    put(&mut text, b"unanswered ")?;
    put(&mut text, Buffer::new().format(id).as_bytes())?;
    put(&mut text, b" ")?;
    put(&mut text, method.as_bytes())?;
    put_at(&mut text, number)?;
    put(&mut text, b"\n")?;
    Ok(text)
}

// Puts ` (line N)` behind, or nothing.
fn put_at(text: &mut Vec<u8>, number: Option<u64>) -> Result<(), AllocError>
    ensures { OnOk result (text.new.items ≡ text.old.items ++ at_words number) }
{
    if let Some(number) = number {
        put(text, b" (line ")?;
        put(text, Buffer::new().format(number).as_bytes())?;
        put(text, b")")?;
    }
    Ok(())
}

// The object of a command that was never answered.
fn unanswered_in_json(
    alloc: Global,
    number: Option<u64>,
    id: u64,
    method: &str,
) -> Result<Vec<u8>, AllocError>
    ensures { IfOk result (λ text. text.items ≡ json_line number (told.unanswered_row id method.now)) }
{
    let row = Row {
        id: Some(id),
        method: Some(method),
        pointer: None,
        rule: None,
        wants: None,
        has: "unanswered",
        side: Some(side_name(Side::Local)),
        answers: None,
        is_beyond: false,
    };
    json_line(alloc, number, &row)
}

/// The cause, by which lines are counted.
///
/// # Errors
/// No memory: an allocation failed.
pub(crate) fn remark_cause(alloc: Global, remark: &Remark) -> Result<Vec<u8>, AllocError>
    ensures { IfOk result (λ text. text.items ≡ remark_cause (remark_of remark.now)) }
{
    match remark {
        Remark::Fault(_, _, _, why) => cause(alloc, why),
        Remark::Failed(_, _, code) => {
            let code = code.name();
            Ok(format!(in alloc; "error {code}")?.into_bytes())
        }
    }
}
