//! The lines of the commands that wait, and the answers that refused messages allow.
ghost use Rattle.std.specs.Prelude.{◌≡◌, ◌<◌, is_some, length, option_map, position, IfOk, IfSome};
ghost use Rattle.bidi_remarks.specs.Trouble.{trouble_of};
ghost use Rattle.bidi_why.specs.Conversing.{is_any, is_id, kept_as, kept_of, lines_left, lines_without, place_of, without_at};
ghost use Rattle.bidi_why.specs.Explainers.{all_kept_in, kept_in};

use bidi_remarks::{Trouble, has_odd_id, method_beyond};
use bidi_tree::JsUint;
use std::alloc::{AllocError, Global};

/// The most bytes of a method that is kept.
const LONGEST_METHOD: usize = 4_096;

/// Leaves out the line of this command.
pub(crate) fn forget(lines: &mut Vec<(u64, u64)>, id: Option<u64>)
    ensures { lines.new.items ≡ lines_left id lines.old.items }
{
    if let Some(id) = id {
        leave_out(lines, id);
    }
}

// Leaves out the line of the command with this id.
fn leave_out(lines: &mut Vec<(u64, u64)>, id: u64)
    ensures { lines.new.items ≡ lines_without id lines.old.items }
{
    lines.retain(|line| line.0 != id);
}

/// The answer that a refused message of the client allows.
#[derive(Debug, PartialEq, Eq, Drop)]
pub(crate) enum Kept {
    /// One with this id.
    Id(u64),
    /// One with the id `null`.
    Null,
    /// One with any id: the message has a number for its id that is no js-uint, and a browser may read an id there.
    Any,
    /// One with this id, to the command beyond the profile with this method in the line of this number.
    Command(u64, String, u64),
}

/// The answer to a refused message in the line of this number.
///
/// # Errors
/// No memory: an allocation failed.
pub(crate) fn kept_of(
    alloc: Global,
    number: u64,
    id: Option<JsUint>,
    why: &Trouble,
) -> Result<Kept, AllocError>
    ensures { IfOk result (λ k. kept_in k ≡ kept_of number (option_map (λ n. n.value) id) (trouble_of why.now)) }
{
    match id {
        Some(id) => kept_as(alloc, number, id.value, method_beyond(why)),
        None if has_odd_id(why) => Ok(Kept::Any),
        None => Ok(Kept::Null),
    }
}

// The answer to a message with this id, which has this method if it is a command beyond the profile.
fn kept_as(alloc: Global, number: u64, id: u64, method: Option<&str>) -> Result<Kept, AllocError>
    ensures { IfOk result (λ k. kept_in k ≡ kept_as number id (option_map (λ m. m.now) method.entry)) }
{
    match method {
        Some(method) if method.len() <= LONGEST_METHOD => {
            let method = String::from_str(alloc, method)?;
            Ok(Kept::Command(id, method, number))
        }
        Some(_) | None => Ok(Kept::Id(id)),
    }
}

/// Whether one of these answers has this id, or any.
pub(crate) fn is_among(answers: &[Kept], id: Option<JsUint>) -> bool
    ensures { result ≡ is_some (place_of (option_map (λ n. n.value) id) (all_kept_in answers.now)) }
{
    place_of(answers, id).is_some()
}

/// Removes the first of these answers that has this id, or else the first that has any.
pub(crate) fn remove_first(answers: &mut Vec<Kept>, id: Option<JsUint>)
    ensures { all_kept_in answers.new.items ≡ without_at (place_of (option_map (λ n. n.value) id) (all_kept_in answers.old.items)) (all_kept_in answers.old.items) }
{
    if let Some(i) = place_of(answers, id) {
        answers.remove(i);
    }
}

// The place of the first of these answers that has this id, or else of the first that has any.
fn place_of(answers: &[Kept], id: Option<JsUint>) -> Option<usize>
    ensures place { result ≡ place_of (option_map (λ n. n.value) id) (all_kept_in answers.now) }
    ensures within { IfSome result (λ i. i < length answers.now) }
{
    match place_of_id(answers, id) {
        Some(i) => Some(i),
        None => place_of_any(answers),
    }
}

// The place of the first of these answers that has this id.
fn place_of_id(answers: &[Kept], id: Option<JsUint>) -> Option<usize>
    ensures place { result ≡ position (λ k. is_id (option_map (λ n. n.value) id) (kept_in k)) answers.now }
    ensures within { IfSome result (λ i. i < length answers.now) }
{
    answers.iter().position(|answer| is_id(id, answer))
}

// The place of the first that has any.
fn place_of_any(answers: &[Kept]) -> Option<usize>
    ensures place { result ≡ position (λ k. is_any (kept_in k)) answers.now }
    ensures within { IfSome result (λ i. i < length answers.now) }
{
    answers.iter().position(|answer| is_any(answer))
}

// Whether an answer has this id, and no other.
fn is_id(id: Option<JsUint>, answer: &Kept) -> bool
    ensures { result ≡ is_id (option_map (λ n. n.value) id) (kept_in answer.now) }
{
    match (id, answer) {
        (Some(id), Kept::Id(other)) => *other == id.value,
        (Some(id), Kept::Command(other, _, _)) => *other == id.value,
        (None, Kept::Null) => true,
        _ => false,
    }
}

// Whether it has any id.
fn is_any(answer: &Kept) -> bool
    ensures { result ≡ is_any (kept_in answer.now) }
{
    matches!(answer, Kept::Any)
}
