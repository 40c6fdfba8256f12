//! What is told of one line, and how it is counted.
ghost use Rattle.std.specs.Prelude.{◌≡◌, IfOk, false, option_map};
ghost use Rattle.bidi_remarks.specs.Explaining as told;
ghost use Rattle.bidi_remarks.specs.Explaining.{Explains, counted_as, remark_telling, telling, told_of};
ghost use Rattle.bidi_remarks.specs.Remark.{is_beyond, remark_of};
ghost use Rattle.bidi_remarks.specs.Trouble.{bad, trouble_of};

use crate::bad_text::BadText;
use crate::finding::{Trouble, is_beyond, look_for_trouble};
use crate::remark::{Remark, remark_cause, remark_line};
use crate::texts::{Form, cause, told};
use bidi_lines::Side;
use json::Scratch;
use std::alloc::{AllocError, Global};

/// How what is told of a line is counted.
#[derive(Clone, Copy, Debug, PartialEq, Eq)]
pub enum CountedAs {
    /// A fault by the W3C's draft.
    Refused,
    /// A fault for the profile alone.
    Beyond,
    /// A command that failed, which is no fault.
    Failed,
    /// A command that was never answered.
    Unanswered,
}

/// What is told of a line, and how it is counted.
#[derive(Drop)]
pub struct Told {
    /// The line that is written, with its line feed.
    pub text: Vec<u8>,
    /// Where lines of its kind go wrong: two lines with one cause differ in numbers of items, or in what stands at the place, alone.
    pub cause: Vec<u8>,
    /// How the line is counted.
    pub counted_as: CountedAs,
}

/// What is told of a line of this number; `None` for one that the end takes.
///
/// It is judged as `check` judges it, in a scratch that the caller keeps from line to line. Only of a line that is refused an outline is made,
/// to look for the place.
///
/// # Errors
/// No memory: an allocation failed.
pub fn explain_line(
    alloc: Global,
    form: Form,
    side: Side,
    number: u64,
    line: &[u8],
    scratch: &mut Scratch,
) -> Result<Option<Told>, AllocError>
    // Nothing is told of a line that `check` takes; of one that it refuses, what is wrong with it is told and counted.
    ensures { IfOk result (λ found. Explains form side number line.now (option_map told_of found)) }
{
    let Some(trouble) = look_for_trouble(alloc, side, number, line, scratch)? else {
        return Ok(None);
    };
    Ok(Some(explain(alloc, form, side, number, &trouble)?))
}

/// What is told of a line of this number that is too long.
///
/// # Errors
/// No memory: an allocation failed.
pub fn explain_long(alloc: Global, form: Form, side: Side, number: u64) -> Result<Told, AllocError>
    // The line is told as one that is too long, whatever stands in it.
    ensures { IfOk result (λ t. told_of t ≡ telling form side number (bad BadText.TooLong)) }
{
    explain(alloc, form, side, number, &Trouble::Bad(BadText::TooLong))
}

// What is told of a line with this trouble.
fn explain(
    alloc: Global,
    form: Form,
    side: Side,
    number: u64,
    trouble: &Trouble,
) -> Result<Told, AllocError>
    ensures { IfOk result (λ t. told_of t ≡ telling form side number (trouble_of trouble.now)) }
{
    Ok(Told {
        text: told(alloc, form, number, Some(side), None, trouble)?,
        cause: cause(alloc, trouble)?,
        counted_as: counted_as(trouble),
    })
}

// How a line with this trouble is counted.
fn counted_as(trouble: &Trouble) -> CountedAs
    ensures { result ≡ counted_as (trouble_of trouble.now) }
{
    if is_beyond(trouble) {
        CountedAs::Beyond
    } else {
        CountedAs::Refused
    }
}

/// What is told of a remark on the line of this number, in brief where no form is given.
///
/// # Errors
/// No memory: an allocation failed.
pub fn tell_remark(
    alloc: Global,
    form: Option<Form>,
    number: u64,
    remark: &Remark,
) -> Result<Told, AllocError>
    // The text, the cause and the count are those of the remark.
    ensures { IfOk result (λ t. told_of t ≡ remark_telling form number (remark_of remark.now)) }
{
    Ok(Told {
        text: remark_line(alloc, form, number, remark)?,
        cause: remark_cause(alloc, remark)?,
        counted_as: remark_counted_as(remark),
    })
}

// How a line with this remark is counted.
fn remark_counted_as(remark: &Remark) -> CountedAs
    ensures { result ≡ told.remark_counted_as (remark_of remark.now) }
{
    match remark {
        Remark::Fault(_, _, _, why) => counted_as(why),
        Remark::Failed(_, _, _) => CountedAs::Failed,
    }
}

/// Whether a remark is of a fault for the profile alone. Takes no memory.
pub fn is_remark_beyond(remark: &Remark) -> bool
    // The result says whether the remark is beyond the profile.
    ensures { result ≡ is_beyond (remark_of remark.now) }
{
    if let Remark::Fault(_, _, _, why) = remark {
        return is_beyond(why);
    }
    false
}
