//! Commands that were never answered.
ghost use Rattle.std.specs.Prelude.{◌≡◌, ◌++◌, IfOk, OnOk, map};
ghost use Rattle.std.specs.List.{flat_map};
ghost use Rattle.bidi_remarks.specs.Remark as remarks;
ghost use Rattle.bidi_why.specs.Conversing.{command_of, unanswered_commands, waiting_command};
ghost use Rattle.bidi_why.specs.Explainers.{kept_in, standing_of, unanswered_in};

use crate::conversation::Conversation;
use crate::ids::Kept;
use bidi_messages::{Method, Named};
use bidi_remarks::{Form, unanswered_line};
use bidi_tree::JsUint;
use std::alloc::{AllocError, Global};

/// A command that was never answered.
#[derive(Clone, Copy)]
pub(crate) struct Unanswered<'a> {
    pub id: u64,
    pub method: &'a str,
    /// The number of its line.
    pub line: Option<u64>,
}

/// The commands that were never answered: those that wait, and then those beyond the profile.
///
/// # Errors
/// No memory: an allocation failed.
pub(crate) fn unanswered_commands(
    alloc: Global,
    conversation: &Conversation,
) -> Result<Vec<Unanswered<'_>>, AllocError>
    ensures { IfOk result (λ found. map unanswered_in found.items ≡ unanswered_commands (standing_of conversation.now)) }
{
    let waiting = conversation.end.waiting()?;
    let mut found = waiting_commands(alloc, &conversation.lines, &waiting)?;
    add_beyond(&mut found, &conversation.refused)?;
    Ok(found)
}

// The commands that wait, which have these lines.
fn waiting_commands<'a>(
    alloc: Global,
    lines: &[(u64, u64)],
    waiting: &[(JsUint, Method)],
) -> Result<Vec<Unanswered<'a>>, AllocError>
    ensures { IfOk result (λ found. map unanswered_in found.items ≡ map (λ w. waiting_command lines.now (w.0.value, w.1)) waiting.now) }
{
    let mut found = Vec::new(alloc);
    for (id, method) in waiting {
        found.push(Unanswered {
            id: id.value,
            method: method.name(),
            line: line_of(lines, id.value),
        })?;
    }
    Ok(found)
}

// The line of the command with this id, if these lines have it.
fn line_of(lines: &[(u64, u64)], id: u64) -> Option<u64>
    ensures { result ≡ remarks.line_of lines.now id }
{
    lines.iter().find(|line| line.0 == id).map(|line| line.1)
}

// Adds the commands beyond the profile.
fn add_beyond<'a>(found: &mut Vec<Unanswered<'a>>, answers: &'a [Kept]) -> Result<(), AllocError>
    ensures { OnOk result (map unanswered_in found.new.items ≡ map unanswered_in found.old.items ++ flat_map (λ k. command_of (kept_in k)) answers.now) }
{
    for answer in answers {
        if let Kept::Command(id, method, line) = answer {
            found.push(Unanswered {
                id: *id,
                method: method.as_str(),
                line: Some(*line),
            })?;
        }
    }
    Ok(())
}

/// What is written for these commands.
///
/// # Errors
/// No memory: an allocation failed.
pub(crate) fn unanswered_lines(
    alloc: Global,
    form: Option<Form>,
    commands: &[Unanswered<'_>],
) -> Result<Vec<u8>, AllocError>
    ensures { IfOk result (λ text. text.items ≡ flat_map (λ c. remarks.unanswered_line form c.line c.id c.method.now) commands.now) }
{
    let mut text = Vec::new(alloc);
    for command in commands {
        let line = unanswered_line(alloc, form, command.line, command.id, command.method)?;
        text.extend_from_slice(&line)?;
    }
    Ok(text)
}
