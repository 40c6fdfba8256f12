//! What tells of the lines of one end.
ghost use Rattle.std.specs.Prelude.{◌≡◌, List, ℕ, option_map, IfOk};
ghost use Rattle.bidi_lines.specs.InputLines.{IsLine};
ghost use Rattle.bidi_remarks.specs.Explaining.{told_of};
ghost use Rattle.bidi_remarks.specs.declared.telling.CountedAs.TheVariants.{Beyond};
ghost use Rattle.bidi_why.specs.Explainers.{HasExplained};
ghost use Rattle.bidi_why.specs.Input.{IsOf};
ghost use Rattle.bidi_why.specs.Summary.{is_same};
ghost use Rattle.bidi_why.specs.Telling.{Tells, kept};

use crate::explainer::Explainer;
use crate::next_line::Line;
use bidi_lines::Side;
use bidi_remarks::{CountedAs, Form, Told, explain_line, explain_long};
use json::Scratch;
use std::alloc::{AllocError, Global};

/// What tells of the lines of one end: each of which anything is told has a fault.
#[derive(Drop)]
pub(crate) struct OneSide {
    pub form: Form,
    pub side: Side,
    /// Whether nothing is told of what is wrong for the profile and not for the W3C's draft.
    pub profile_only: bool,
    // What the lines are read in.
    scratch: Box<Scratch>,
}

impl OneSide {
    /// One that has told of no line.
    ///
    /// # Errors
    /// No memory: an allocation failed.
    pub(crate) fn new(
        alloc: Global,
        form: Form,
        side: Side,
        profile_only: bool,
    ) -> Result<OneSide, AllocError>
        ensures form { IfOk result (λ one. one.form ≡ form) }
        ensures side { IfOk result (λ one. one.side ≡ side) }
        ensures only { IfOk result (λ one. one.profile_only ≡ profile_only) }
    {
        Ok(OneSide {
            form,
            side,
            profile_only,
            scratch: boxed_scratch(alloc)?,
        })
    }
}

impl Explainer for OneSide {
    ghost has_told = { HasExplained };

    fn explain(
        &mut self,
        alloc: Global,
        number: u64,
        line: Line,
    ) -> Result<Option<Told>, AllocError> {
        explain(
            alloc,
            self.form,
            self.side,
            self.profile_only,
            number,
            line,
            self.scratch.as_mut(),
        )
    }
}

// What is told of a line of this number.
fn explain(
    alloc: Global,
    form: Form,
    side: Side,
    profile_only: bool,
    number: u64,
    line: Line,
    scratch: &mut Scratch,
) -> Result<Option<Told>, AllocError>
    ensures { IfOk result (λ found. (is : List ℕ) → IsOf line is → Tells form side profile_only number is (option_map told_of found)) }
{
    match line {
        Line::Text(line) => {
            explain_kept(alloc, form, side, profile_only, number, &line, scratch)
        }
        Line::TooLong => Ok(Some(explain_long(alloc, form, side, number)?)),
    }
}

// What is told of a line of this number, which is not too long.
fn explain_kept(
    alloc: Global,
    form: Form,
    side: Side,
    profile_only: bool,
    number: u64,
    line: &[u8],
    scratch: &mut Scratch,
) -> Result<Option<Told>, AllocError>
    ensures { IfOk result (λ found. IsLine line.now → Tells form side profile_only number line.now (option_map told_of found)) }
{
    let found = explain_line(alloc, form, side, number, line, scratch)?;
    Ok(kept(profile_only, found))
}

// What is told: nothing, where it is wrong for the profile alone and nothing of that is asked for.
fn kept(profile_only: bool, found: Option<Told>) -> Option<Told>
    ensures { option_map told_of result ≡ kept profile_only (option_map told_of found) }
{
    match found {
        Some(found) if profile_only && is_beyond(found.counted_as) => None,
        found => found,
    }
}

// Whether what is counted so is wrong for the profile alone.
fn is_beyond(counted_as: CountedAs) -> bool
    ensures { result ≡ is_same Beyond counted_as }
{
    matches!(counted_as, CountedAs::Beyond)
}

/// A scratch in a block of its own. It is never inlined: a scratch takes 16 KB of the stack while it is made, and the lines of
/// an input are to be read with all of the stack.
#[inline(never)]
pub(crate) fn boxed_scratch(alloc: Global) -> Result<Box<Scratch>, AllocError> {
    Ok(Box::new(alloc, Scratch::new(alloc))?)
}
