//! What a line brings about.
ghost use Rattle.std.specs.Prelude.{OnOk};
ghost use Rattle.bidi_scripted.specs.View.{script_of};
ghost use Rattle.bidi_script_lines.specs.Outcomes.{Closed, Held, outcome_of};
ghost use Rattle.bidi_host_loop.specs.Deeds.{going_out};

use crate::clock::{PATIENCE, seconds_from_now};
use crate::hosting::Hosted;
use crate::refusing::Refusing;
use crate::surroundings::Surroundings;
use bidi_recorder::HostingFault;
use bidi_script_lines::Outcome;
use bidi_tree::JsUint;

impl Hosted {
    ghost use Rattle.bidi_host_loop.specs.Goes.{Does};

    // Does what a line brings about. A command that is held is reported to the pages.
    pub(crate) fn carry_out<W: Surroundings>(
        &mut self,
        world: &mut W,
        outcome: Outcome,
    ) -> Result<(), HostingFault>
        ensures { OnOk result (Does (going_out (script_of self.old.host.end.script) (outcome_of outcome)) self.old self.new) }
    {
        match outcome {
            Outcome::OfMachine(sent) => self.hand_on_with_followers(world, sent),
            Outcome::Sent(sent) => self.hand_on_all(world, sent),
            Outcome::Held(number) => self.report(world, number),
            Outcome::Bytes(conn, digits) => {
                Ok(self.edge.hand_bytes(self.alloc, conn, digits.as_str())?)
            }
            Outcome::Raw(conn, digits) => {
                Ok(self.edge.hand_raw(self.alloc, conn, digits.as_str())?)
            }
            Outcome::Stalled(conn) => {
                self.edge.stall(conn);
                Ok(())
            }
            Outcome::Resumed(conn) => {
                self.edge.resume(conn);
                Ok(())
            }
            Outcome::Cut(conn) => {
                self.registry.sessions.forget(conn);
                self.edge.cut(conn);
                Ok(())
            }
            Outcome::CutAfter(conn, bytes) => {
                self.edge.cut_after(conn, bytes);
                Ok(())
            }
            Outcome::Closed(conn, code) => self.close_with(world, conn, code),
            Outcome::Refusing(count, status) => {
                self.registry.refusing = Refusing::new(count.value, status);
                self.edge.note_refusing(count, status);
                Ok(())
            }
            Outcome::NoEffect(_) => Ok(()),
        }
    }

    // Closes a connection with a code.
    fn close_with<W: Surroundings>(
        &mut self,
        world: &mut W,
        conn: JsUint,
        code: u16,
    ) -> Result<(), HostingFault>
        ensures { OnOk result (Does (going_out (script_of self.old.host.end.script) (Closed conn.value code)) self.old self.new) }
    {
        let deadline = seconds_from_now(world, PATIENCE)?;
        self.registry.sessions.forget(conn);
        Ok(self.edge.close_with(conn, code, deadline)?)
    }

    // Reports a command that is held to each page, and on standard output if page lines are read from standard input.
    fn report<W: Surroundings>(&mut self, world: &mut W, number: u64) -> Result<(), HostingFault>
        ensures { OnOk result (Does (going_out (script_of self.old.host.end.script) (Held number)) self.old self.new) }
    {
        let Some(line) = self.host.held_line(number)? else {
            return Ok(());
        };
        self.edge
            .report(world, line.as_str(), self.manners.reads_input)
    }
}
