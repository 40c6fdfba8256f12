//! Page lines, which come on connections and from standard input, and their answers.
ghost use Rattle.std.specs.Prelude.{[], ◌∷◌, OnOk, codes, string_bytes};
ghost use Rattle.bidi_host_loop.specs.Deeds as deed;
ghost use Rattle.bidi_host_loop.specs.Deeds.{Answered, AnsweredInput, Entered, EnteredBytes, SaidBytes, entering};
ghost use Rattle.bidi_host_loop.specs.Runs.{Says};

use crate::clock::{LINGER, PATIENCE, seconds_from_now};
use crate::console::Said;
use crate::door::Door;
use crate::hosting::Hosted;
use crate::surroundings::Surroundings;
use bidi_page::{no_effect, no_line};
use bidi_recorder::HostingFault;
use bidi_remote::Sent;
use bidi_script_lines::Outcome;
use std::alloc::Global;

/// The beginning of the answer to a line that did nothing.
const NO_EFFECT: &str = "no effect";

/// The beginning of the answer to a text that is not a page line.
const NO_LINE: &str = "no line of a page";

/// Why a binary message is not a page line.
const BINARY: &str = "a message of bytes";

/// The answer to a page line.
#[derive(Drop)]
pub(crate) enum Answer {
    /// The line had an effect.
    Done,
    /// The line did nothing: the beginning of the answer, and the reason.
    Because(String),
}

impl Answer {
    // Makes the answer to a line that did nothing, for this reason.
    fn because(alloc: Global, what: &str, reason: &str) -> Result<Answer, HostingFault> {
        if reason.is_empty() {
            return Ok(Answer::Because(String::from_str(alloc, what)?));
        }
        Ok(Answer::Because(format!(in alloc; "{what}: {reason}")?))
    }

    // The text of the answer.
    fn as_str(&self) -> &str {
        match self {
            Answer::Done => "ok",
            Answer::Because(text) => text.as_str(),
        }
    }
}

impl Hosted {
    ghost use Rattle.bidi_host_loop.specs.Goes.{By, Does, GoesOn, Meets, Rests, opening_of};

    // Takes lines from standard input, if there are any.
    pub(crate) fn read_input<W: Surroundings>(
        &mut self,
        door: &mut Door,
        world: &mut W,
    ) -> Result<(), HostingFault>
        ensures { GoesOn self.old self.new result }
    {
        if !self.console.is_ready || self.lifetime.is_ending() {
            return Ok(());
        }
        self.console.read(world)?;
        self.console.is_ready = false;
        self.take_lines(world)?;
        self.wait_for_input(door, world)?;
        self.close_pages_at_end(world)?;
        Ok(())
    }

    // Takes the lines that were read from standard input, until the host is ending.
    fn take_lines<W: Surroundings>(&mut self, world: &mut W) -> Result<(), HostingFault>
        ensures { GoesOn self.old self.new result }
    {
        for _ in 0..u32::MAX {
            if self.lifetime.is_ending() || !self.take_input(world)? {
                return Ok(());
            }
        }
        Ok(())
    }

    // Ends the host at the end of standard input, and else waits for more of it.
    fn wait_for_input<W: Surroundings>(
        &mut self,
        door: &mut Door,
        world: &mut W,
    ) -> Result<(), HostingFault>
        ensures { OnOk result (Rests self.old self.new) }
    {
        if self.console.has_ended() {
            self.begin_end(world)?;
            return Ok(());
        }
        self.console.is_ready = !door.wait_again(world.input_fd());
        Ok(())
    }

    // Takes the next line that was read from standard input. Returns whether there was one.
    fn take_input<W: Surroundings>(&mut self, world: &mut W) -> Result<bool, HostingFault>
        ensures { GoesOn self.old self.new result }
    {
        let said = self.console.next(self.alloc)?;
        self.edge.note_entering(&said);
        self.meet_input(world, said)
    }

    // Meets what came from standard input. Returns whether something did.
    fn meet_input<W: Surroundings>(
        &mut self,
        world: &mut W,
        said: Said,
    ) -> Result<bool, HostingFault>
        ensures { Meets (entering said) self.old self.new result }
    {
        match said {
            Said::Line(line) => self.answer_input(world, line)?,
            Said::NoLine(reason) => self.refuse_input(world, reason)?,
            Said::Nothing => return Ok(false),
        }
        Ok(true)
    }

    // Takes a line from standard input, and answers it by a line on standard output.
    fn answer_input<W: Surroundings>(
        &mut self,
        world: &mut W,
        line: String,
    ) -> Result<(), HostingFault>
        ensures { Meets (Entered (string_bytes line) ∷ []) self.old self.new result }
    {
        let answer = self.page_says(world, line.as_str())?;
        self.answer_line(world, answer.as_str())?;
        Ok(())
    }

    // Answers what came from standard input, after what waits for the connections.
    fn answer_line<W: Surroundings>(
        &mut self,
        world: &mut W,
        answer: &str,
    ) -> Result<(), HostingFault>
        ensures { OnOk result (Does (AnsweredInput answer.now ∷ []) self.old self.new) }
    {
        self.edge.flush();
        self.edge.answer_input(world, answer)?;
        Ok(())
    }

    // Answers bytes from standard input that are not a page line.
    fn refuse_input<W: Surroundings>(
        &mut self,
        world: &mut W,
        reason: &str,
    ) -> Result<(), HostingFault>
        ensures { Meets (EnteredBytes ∷ []) self.old self.new result }
    {
        let answer = Answer::because(self.alloc, NO_LINE, reason)?;
        self.answer_line(world, answer.as_str())?;
        Ok(())
    }

    // Answers a text of a page by a text, which comes after what the line caused.
    pub(crate) fn answer_page<W: Surroundings>(
        &mut self,
        world: &mut W,
        place: usize,
        text: String,
    ) -> Result<(), HostingFault>
        ensures { Meets (deed.Said place (string_bytes text) ∷ []) self.old self.new result }
    {
        let answer = self.page_says(world, text.as_str())?;
        self.answer_at(world, place, answer.as_str())?;
        Ok(())
    }

    // Answers the page at a place, after what waits, and closes it if the host is ending.
    fn answer_at<W: Surroundings>(
        &mut self,
        world: &mut W,
        place: usize,
        answer: &str,
    ) -> Result<(), HostingFault>
        ensures { OnOk result (Does (Answered place answer.now ∷ []) self.old self.new) }
    {
        self.edge.flush();
        self.edge.answer(place, answer)?;
        self.close_pages_at_end(world)?;
        Ok(())
    }

    // Answers a binary message of a page by a text.
    pub(crate) fn refuse_bytes<W: Surroundings>(
        &mut self,
        world: &mut W,
        place: usize,
    ) -> Result<(), HostingFault>
        ensures { Meets (SaidBytes place ∷ []) self.old self.new result }
    {
        let answer = Answer::because(self.alloc, NO_LINE, BINARY)?;
        self.answer_at(world, place, answer.as_str())?;
        Ok(())
    }

    // Does what a page, or standard input, says. Returns the answer.
    fn page_says<W: Surroundings>(
        &mut self,
        world: &mut W,
        text: &str,
    ) -> Result<Answer, HostingFault>
        ensures { OnOk result (By (Says (opening_of self.old) text.now) self.old self.new) }
    {
        if text == "reset" {
            self.reset(world)?;
            return Ok(Answer::Done);
        }
        if text == "end" {
            self.begin_end(world)?;
            return Ok(Answer::Done);
        }
        self.line_is_said(world, text)
    }

    // Takes a text that is neither `reset` nor `end`. Returns the answer.
    fn line_is_said<W: Surroundings>(
        &mut self,
        world: &mut W,
        text: &str,
    ) -> Result<Answer, HostingFault>
        ensures { OnOk result (By (Says (opening_of self.old) text.now) self.old self.new) }
    {
        match self.says_line(world, text)? {
            Some(answer) => Ok(answer),
            None => {
                let reason = no_line(self.alloc, text)?;
                Answer::because(self.alloc, NO_LINE, reason.as_str())
            }
        }
    }

    // The answer to a page's line with this outcome.
    pub(crate) fn answer_for(&self, line: &str, outcome: &Outcome) -> Result<Answer, HostingFault> {
        match outcome {
            Outcome::OfMachine(sent) if has_no_effect(sent) => {
                let reason = no_effect(self.alloc, self.host.remote_end(), line)?;
                Answer::because(self.alloc, NO_EFFECT, reason.as_str())
            }
            Outcome::NoEffect(reason) => { Answer::because(self.alloc, NO_EFFECT, reason.as_str()) }
            _ => Ok(Answer::Done),
        }
    }

    // Makes a new browser: closes each connection of the remote end, continues the record in the
    // next file, and plays the page lines again.
    fn reset<W: Surroundings>(&mut self, world: &mut W) -> Result<(), HostingFault>
        ensures { OnOk result (By (Says (opening_of self.old) (codes "reset")) self.old self.new) }
    {
        self.close_clients(world)?;
        self.host.reset()?;
        self.edge.restart(world)?;
        self.play_all(world)?;
        Ok(())
    }

    // Closes each connection of the remote end, because the browser is to be a new one.
    fn close_clients<W: Surroundings>(&mut self, world: &mut W) -> Result<(), HostingFault>
        ensures { OnOk result (Rests self.old self.new) }
    {
        let deadline = seconds_from_now(world, PATIENCE)?;
        self.edge.close_all(false, deadline)?;
        self.registry.clear();
        self.lifetime.had_session = false;
        Ok(())
    }

    // Begins to end the host: closes each connection of the remote end.
    pub(crate) fn begin_end<W: Surroundings>(&mut self, world: &mut W) -> Result<(), HostingFault>
        ensures { OnOk result (Rests self.old self.new) }
    {
        let end = seconds_from_now(world, LINGER)?;
        self.lifetime.end_at(end);
        self.edge.close_all(false, end)?;
        Ok(())
    }

    // If the host is ending, closes the connections of pages as well, after the answers that wait.
    pub(crate) fn close_pages_at_end<W: Surroundings>(
        &mut self,
        world: &mut W,
    ) -> Result<(), HostingFault>
        ensures { OnOk result (Rests self.old self.new) }
    {
        if self.lifetime.is_ending() {
            let end = seconds_from_now(world, LINGER)?;
            self.edge.close_all(true, end)?;
        }
        Ok(())
    }
}

// Whether a step was refused.
fn has_no_effect(sent: &[Sent]) -> bool {
    sent.iter().any(|one| matches!(one, Sent::NoEffect))
}
