//! What tells of the lines of a conversation.
ghost use Rattle.std.specs.Prelude.{◌≡◌, ◌++◌, ℕ, ◌<◌, List, true, false, Some, None, map, IfOk, OnOk, MatchOption, is_some, option_map, if◌then◌else◌};
ghost use Rattle.bidi_tree.specs.Text.{tree_of};
ghost use Rattle.bidi_lines.specs.InputLines.{IsLine};
ghost use Rattle.bidi_lines.specs.declared.side.Side.TheVariants.{Local, Remote};
ghost use Rattle.bidi_messages.specs.Message.{error_text, error_tree};
ghost use Rattle.bidi_messages.specs.Reading.{IsMessageText};
ghost use Rattle.bidi_show.specs.MessageLines.{Refuses};
ghost use Rattle.bidi_local.specs.Pending.{Pending, method_of};
ghost use Rattle.bidi_local.specs.Received.{IsSettledBy};
ghost use Rattle.bidi_local.specs.View.{meaning_of};
ghost use Rattle.bidi_local.specs.Outcome.{IsOutcomeOf};
ghost use Rattle.bidi_remarks.specs.Explaining.{told_of};
ghost use Rattle.bidi_why.specs.Conversing.{Hears, HearsLine, answered, at_line, entry_of, kept_remarks, remark_lines, settled_id, silence, was_refused, with_answer};
ghost use Rattle.bidi_why.specs.Conversing.{kept_of, with_refused, without_command, without_refused};
ghost use Rattle.bidi_why.specs.Explainers.{HasConversed, kept_in, standing_of, text_in};
ghost use Rattle.bidi_why.specs.Summary.{entries_in};
ghost use Rattle.bidi_why.specs.Hearing.{IsStray, Notes, Takes};
ghost use Rattle.bidi_why.specs.Input.{IsOf};
ghost use Rattle.bidi_remarks.specs.Remark.{remark_of};

use crate::explainer::Explainer;
use crate::ids::{Kept, forget, is_among, kept_of, remove_first};
use crate::judging::{Judged, judge_text, sender};
use crate::next_line::Line;
use crate::one_side::boxed_scratch;
use bidi_lines::Side;
use bidi_local::{LocalEnd, NoteFault, Outcome, Received, Taken};
use bidi_messages::{
    Command, ErrorCode, Message, MessageFault, Method, Payload, Verdict, error_text,
    read_message_with,
};
use bidi_remarks::{
    BadText, Form, Remark, Told, bad_line, bad_result, begins_with_mark, id_in, id_waits,
    is_remark_beyond, no_message, stray, tell_remark, too_many, trouble_in,
};
use bidi_shape::Shape;
use bidi_show::{line_verdict, refused_line};
use bidi_tree::JsUint;
use json::Scratch;
use std::alloc::{AllocError, Global};

/// How many answers to refused messages are kept.
const MOST_REFUSED: usize = 1024;

/// What tells of the lines of a conversation.
#[derive(Drop)]
pub(crate) struct Conversation {
    pub form: Option<Form>,
    /// Whether nothing is told of what is wrong for the profile and not for the W3C's draft.
    pub profile_only: bool,
    /// A local end that sent the commands which were accepted, and was told the texts of the other end.
    pub end: LocalEnd,
    /// The id of each command that waits, and the number of its line.
    pub lines: Vec<(u64, u64)>,
    /// The answers that refused messages allow and that did not come yet.
    pub refused: Vec<Kept>,
    // What the lines are read in.
    scratch: Box<Scratch>,
}

impl Explainer for Conversation {
    ghost has_told = { HasConversed };

    fn explain(
        &mut self,
        alloc: Global,
        number: u64,
        line: Line,
    ) -> Result<Option<Told>, AllocError> {
        match self.hear_line(alloc, number, line)? {
            Some(remark) => told_if(alloc, self.form, self.profile_only, number, &remark),
            None => Ok(None),
        }
    }
}

impl Conversation {
    /// One of which nothing was heard.
    ///
    /// # Errors
    /// No memory: an allocation failed.
    pub(crate) fn new(
        alloc: Global,
        form: Option<Form>,
        profile_only: bool,
    ) -> Result<Conversation, AllocError>
        ensures form { IfOk result (λ c. c.form ≡ form) }
        ensures only { IfOk result (λ c. c.profile_only ≡ profile_only) }
        ensures silent { IfOk result (λ c. standing_of c ≡ silence) }
    {
        Ok(Conversation {
            form,
            profile_only,
            end: LocalEnd::new(alloc),
            lines: Vec::new(alloc),
            refused: Vec::new(alloc),
            scratch: boxed_scratch(alloc)?,
        })
    }

    // What is told of the line of this number.
    fn hear_line(
        &mut self,
        alloc: Global,
        number: u64,
        line: Line,
    ) -> Result<Option<Remark>, AllocError>
        ensures form { self.new.form ≡ self.old.form }
        ensures only { self.new.profile_only ≡ self.old.profile_only }
        ensures heard { IfOk result (λ found. (is : List ℕ) → IsOf line is
            → HearsLine number (standing_of self.old) is (option_map remark_of found) (standing_of self.new)) }
    {
        match line {
            Line::TooLong => Ok(Some(bad_line(alloc, BadText::TooLong)?)),
            Line::Text(line) => self.hear_short(alloc, number, &line),
        }
    }

    // What is told of the line of this number, which is not too long.
    fn hear_short(
        &mut self,
        alloc: Global,
        number: u64,
        line: &[u8],
    ) -> Result<Option<Remark>, AllocError>
        ensures form { self.new.form ≡ self.old.form }
        ensures only { self.new.profile_only ≡ self.old.profile_only }
        ensures heard { IfOk result (λ found. IsLine line.now
            → HearsLine number (standing_of self.old) line.now (option_map remark_of found) (standing_of self.new)) }
    {
        if begins_with_mark(number, line) {
            return Ok(Some(bad_line(alloc, BadText::ByteOrderMark)?));
        }
        if let Some(text) = text_behind(line, b"> ") {
            return self.hear_local(alloc, number, text);
        }
        if let Some(text) = text_behind(line, b"< ") {
            return self.hear_remote(alloc, text);
        }
        Ok(Some(bad_line(alloc, BadText::NoDirection)?))
    }

    // What is told of a text of the local end.
    fn hear_local(
        &mut self,
        alloc: Global,
        number: u64,
        text: &[u8],
    ) -> Result<Option<Remark>, AllocError>
        ensures form { self.new.form ≡ self.old.form }
        ensures only { self.new.profile_only ≡ self.old.profile_only }
        ensures heard { IfOk result (λ found. Hears number (standing_of self.old) text.now Local (option_map remark_of found) (standing_of self.new)) }
    {
        match judge_text(alloc, text, self.scratch.as_mut())? {
            Judged::Accepted(id, method) => self.note(alloc, number, id, method),
            Judged::Refused(id, code) => {
                let brief = refused_line(alloc, id, code)?;
                let why = trouble_in(alloc, Side::Local, text, self.scratch.as_mut())?;
                self.refuse(kept_of(alloc, number, id, &why)?)?;
                Ok(Some(Remark::Fault(Some(Side::Local), None, brief, why)))
            }
        }
    }

    // The command in the line of this number was accepted.
    fn note(
        &mut self,
        alloc: Global,
        number: u64,
        id: JsUint,
        method: Method,
    ) -> Result<Option<Remark>, AllocError>
        ensures form { self.new.form ≡ self.old.form }
        ensures only { self.new.profile_only ≡ self.old.profile_only }
        ensures noted { IfOk result (λ found. Notes number (standing_of self.old) id.value method (option_map remark_of found) (standing_of self.new)) }
    {
        match self.end.note(id, method) {
            Ok(()) => {
                self.lines.push((id.value, number))?;
                Ok(None)
            }
            Err(NoteFault::IdWaits) => Ok(Some(id_waits(alloc, id, method)?)),
            Err(NoteFault::TooManyPending) => {
                self.refuse(Kept::Id(id.value))?;
                Ok(Some(too_many(alloc, id, method)?))
            }
            Err(NoteFault::NoMemory) => Err(AllocError),
        }
    }

    // A message was refused that allows this answer.
    fn refuse(&mut self, answer: Kept) -> Result<(), AllocError>
        ensures form { self.new.form ≡ self.old.form }
        ensures only { self.new.profile_only ≡ self.old.profile_only }
        ensures refused { OnOk result (standing_of self.new ≡ with_refused (kept_in answer) (standing_of self.old)) }
    {
        if self.refused.len() < MOST_REFUSED {
            self.refused.push(answer)?;
        }
        Ok(())
    }

    // What is told of a text of the remote end.
    fn hear_remote(&mut self, alloc: Global, line: &[u8]) -> Result<Option<Remark>, AllocError>
        ensures form { self.new.form ≡ self.old.form }
        ensures only { self.new.profile_only ≡ self.old.profile_only }
        ensures heard { (n : ℕ) → IfOk result (λ found. Hears n (standing_of self.old) line.now Remote (option_map remark_of found) (standing_of self.new)) }
    {
        let Ok(text) = std::str::from_utf8(line) else {
            return self.no_message(alloc, "not json", line);
        };
        match read_message_with(alloc, text, self.scratch.as_mut()) {
            Ok(message) => self.take(alloc, text, message),
            Err(MessageFault::NotJson) => self.no_message(alloc, "not json", line),
            Err(MessageFault::NoFit) => self.no_message(alloc, "no fit", line),
            Err(MessageFault::NoMemory) => Err(AllocError),
        }
    }

    // What is told of a message, which is read of this text.
    fn take(
        &mut self,
        alloc: Global,
        text: &str,
        message: Message,
    ) -> Result<Option<Remark>, AllocError>
        requires well { ⟦<Message as Shape>⟧.shape.well message }
        requires read { tree_of text.now ≡ Some (⟦<Message as Shape>⟧.shape.tree_of message) }
        ensures form { self.new.form ≡ self.old.form }
        ensures only { self.new.profile_only ≡ self.old.profile_only }
        ensures taken { IfOk result (λ found. Takes (standing_of self.old) (⟦<Message as Shape>⟧.shape.tree_of message) (option_map remark_of found) (standing_of self.new)) }
    {
        let (id, kind) = sender(&message);
        let (settled, outcome) = in_brief(self.end.take_message(message)?);
        forget(&mut self.lines, settled);
        match outcome {
            Outcome::Fine => Ok(None),
            Outcome::BadResult(id, method) => Ok(Some(bad_result(
                alloc,
                id,
                method,
                text,
                self.scratch.as_mut(),
            )?)),
            Outcome::Refusal(id, method, code) => Ok(Some(Remark::Failed(id, method, code))),
            Outcome::Stray => self.stray(alloc, id, kind),
            Outcome::NoMessage => unreachable!(),
        }
    }

    // A response or an error of this `type` answers no command that waits.
    fn stray(
        &mut self,
        alloc: Global,
        id: Option<JsUint>,
        kind: &str,
    ) -> Result<Option<Remark>, AllocError>
        ensures form { self.new.form ≡ self.old.form }
        ensures only { self.new.profile_only ≡ self.old.profile_only }
        ensures told { IfOk result (λ found. IsStray (standing_of self.old) (option_map (λ n. n.value) id) kind.now (option_map remark_of found) (standing_of self.new)) }
    {
        if self.answers_refused(id) {
            return Ok(None);
        }
        Ok(Some(stray(alloc, id, kind)?))
    }

    // Whether an answer with this id answers a refused text without an answer; the text has one now.
    fn answers_refused(&mut self, id: Option<JsUint>) -> bool
        ensures form { self.new.form ≡ self.old.form }
        ensures only { self.new.profile_only ≡ self.old.profile_only }
        ensures was { result ≡ was_refused (option_map (λ n. n.value) id) (standing_of self.old) }
        ensures no_more { standing_of self.new ≡ (if result then without_refused (option_map (λ n. n.value) id) (standing_of self.old) else standing_of self.old) }
    {
        if !is_among(&self.refused, id) {
            return false;
        }
        remove_first(&mut self.refused, id);
        true
    }

    // What is told of a text of the remote end that is no message. It may answer a command for all that.
    fn no_message(
        &mut self,
        alloc: Global,
        brief: &str,
        line: &[u8],
    ) -> Result<Option<Remark>, AllocError>
        requires { Refuses Remote line.now (Some brief.now) }
        ensures form { self.new.form ≡ self.old.form }
        ensures only { self.new.profile_only ≡ self.old.profile_only }
        ensures heard { (n : ℕ) → IfOk result (λ found. Hears n (standing_of self.old) line.now Remote (option_map remark_of found) (standing_of self.new)) }
    {
        let why = trouble_in(alloc, Side::Remote, line, self.scratch.as_mut())?;
        let id = id_in(alloc, line, &why, self.scratch.as_mut())?;
        let answers = self.answer(alloc, id)?;
        Ok(Some(no_message(alloc, answers, brief, why)?))
    }

    // The command of this id has its answer, which is no message: the one that waits, or else one that was refused. Tells the id where there is one.
    fn answer(&mut self, alloc: Global, id: Option<JsUint>) -> Result<Option<u64>, AllocError>
        ensures form { self.new.form ≡ self.old.form }
        ensures only { self.new.profile_only ≡ self.old.profile_only }
        ensures told { IfOk result (λ a. a ≡ answered (option_map (λ n. n.value) id) (standing_of self.old)) }
        ensures behind { OnOk result (standing_of self.new ≡ with_answer (option_map (λ n. n.value) id) (standing_of self.old)) }
    {
        let Some(id) = id else {
            return Ok(None);
        };
        if self.settle(alloc, id)? {
            return Ok(Some(id.value));
        }
        if self.answers_refused(Some(id)) {
            return Ok(Some(id.value));
        }
        Ok(None)
    }

    // Whether the command of this id waits. It waits no longer: the local end takes it for one that failed.
    fn settle(&mut self, alloc: Global, id: JsUint) -> Result<bool, AllocError>
        ensures form { self.new.form ≡ self.old.form }
        ensures only { self.new.profile_only ≡ self.old.profile_only }
        ensures waits { IfOk result (λ b. b ≡ is_some (method_of (standing_of self.old).waiting id.value)) }
        ensures behind { IfOk result (λ b. standing_of self.new ≡ (if b then without_command id.value (standing_of self.old) else standing_of self.old)) }
    {
        let text = error_text(alloc, Some(id), ErrorCode::UnknownError)?;
        self.settle_text(alloc, id, text.as_str())
    }

    // The same, by the text of an error.
    fn settle_text(&mut self, alloc: Global, id: JsUint, text: &str) -> Result<bool, AllocError>
        requires error { text.now ≡ error_text (Some id.value) ErrorCode.UnknownError }
        requires reads { IsMessageText ⟦<Message as Shape>⟧.shape text.now }
        ensures form { self.new.form ≡ self.old.form }
        ensures only { self.new.profile_only ≡ self.old.profile_only }
        ensures waits { IfOk result (λ b. b ≡ is_some (method_of (standing_of self.old).waiting id.value)) }
        ensures behind { IfOk result (λ b. standing_of self.new ≡ (if b then without_command id.value (standing_of self.old) else standing_of self.old)) }
    {
        match read_message_with(alloc, text, self.scratch.as_mut()) {
            Ok(message) => self.settle_by(id, message),
            Err(MessageFault::NoMemory) => Err(AllocError),
            Err(MessageFault::NotJson) => unreachable!(),
            Err(MessageFault::NoFit) => unreachable!(),
        }
    }

    // The same, by this error.
    fn settle_by(&mut self, id: JsUint, error: Message) -> Result<bool, AllocError>
        requires { ⟦<Message as Shape>⟧.shape.well error
            × (⟦<Message as Shape>⟧.shape.tree_of error ≡ error_tree (Some id.value) ErrorCode.UnknownError) }
        ensures form { self.new.form ≡ self.old.form }
        ensures only { self.new.profile_only ≡ self.old.profile_only }
        ensures waits { IfOk result (λ b. b ≡ is_some (method_of (standing_of self.old).waiting id.value)) }
        ensures behind { IfOk result (λ b. standing_of self.new ≡ (if b then without_command id.value (standing_of self.old) else standing_of self.old)) }
    {
        let (settled, _) = in_brief(self.end.take_message(error)?);
        forget(&mut self.lines, settled);
        match settled {
            Some(_) => Ok(true),
            None => Ok(false),
        }
    }
}

// The id of the command that a message settles, and what became of the command.
fn in_brief(taken: Taken) -> (Option<u64>, Outcome)
    ensures settled { result.0 ≡ settled_id (meaning_of taken.received) }
    ensures outcome { (waiting : Pending) → IsSettledBy waiting (meaning_of taken.received) taken.method
        → IsOutcomeOf waiting (meaning_of taken.received) result.1 }
{
    let settled = settled_by(&taken.received);
    (settled, taken.outcome())
}

// The id of the command that what was received settles.
fn settled_by(received: &Received) -> Option<u64>
    ensures { result ≡ settled_id (meaning_of received.now) }
{
    match received {
        Received::Answer(id, _) | Received::BadResult(id) | Received::Refusal(id, _) => {
            Some(id.value)
        }
        Received::Event(_) | Received::Stray | Received::NotInProfile | Received::NotJson => None,
    }
}

// What is told of a remark on the line of this number: nothing, where it is wrong for the profile alone and nothing of that is asked for.
fn told_if(
    alloc: Global,
    form: Option<Form>,
    profile_only: bool,
    number: u64,
    remark: &Remark,
) -> Result<Option<Told>, AllocError>
    ensures text { IfOk result (λ t. (line : List ℕ) → text_in t ≡ remark_lines form (kept_remarks profile_only (at_line number line (Some (remark_of remark.now))))) }
    ensures entries { IfOk result (λ t. (line : List ℕ) → entries_in line (option_map told_of t)
        ≡ map entry_of (kept_remarks profile_only (at_line number line (Some (remark_of remark.now))))) }
{
    if profile_only && is_remark_beyond(remark) {
        return Ok(None);
    }
    Ok(Some(tell_remark(alloc, form, number, remark)?))
}

// What stands behind this mark, where the line begins with it.
fn text_behind<'a>(line: &'a [u8], mark: &[u8]) -> Option<&'a [u8]>
    ensures { MatchOption result ((text : List ℕ) → line.now ≡ mark.now ++ text → ⊥) (λ text. line.now ≡ mark.now ++ text.now) }
{
    line.strip_prefix(mark)
}
