//! What goes out for an input that was taken.
ghost use Rattle.std.specs.Prelude.{[], ◌∷◌, map, OnOk};
ghost use Rattle.bidi_sessions.specs.View.{sent_of, text_of};
ghost use Rattle.bidi_scripted.specs.View.{script_of};
ghost use Rattle.bidi_script_lines.specs.Outcomes.{with_followers};
ghost use Rattle.bidi_host_loop.specs.Deeds.{Handed, all_deeds_of, deeds_of};
ghost use Rattle.bidi_host_loop.specs.Runs.{block};

use crate::clock::{PATIENCE, seconds_from_now};
use crate::hosting::Hosted;
use crate::surroundings::Surroundings;
use bidi_recorder::{HostingFault, Recorded};
use bidi_remote::{Sent, SentText};
use bidi_tree::JsUint;

impl Hosted {
    ghost use Rattle.bidi_host_loop.specs.Goes.{Does};

    // Records an input that was taken, and does what it brings about.
    pub(crate) fn deliver<W: Surroundings>(
        &mut self,
        world: &mut W,
        taken: Recorded,
    ) -> Result<(), HostingFault>
        ensures { OnOk result (Does (block self.old.host.end taken) self.old self.new) }
    {
        self.note_session()?;
        self.edge.record(world, taken.line.as_str())?;
        self.carry_out(world, taken.outcome)?;
        self.bound_what_is_held()?;
        Ok(())
    }

    // Sends each message to its connection, and what follows it behind it.
    pub(crate) fn hand_on_with_followers<W: Surroundings>(
        &mut self,
        world: &mut W,
        messages: Vec<Sent>,
    ) -> Result<(), HostingFault>
        ensures { OnOk result (Does (all_deeds_of (with_followers (script_of self.old.host.end.script).followers (map sent_of messages.items))) self.old self.new) }
    {
        for one in messages {
            let followers = self.host.followers_of(&one)?;
            self.hand_on(world, one)?;
            self.hand_on_all(world, followers)?;
        }
        Ok(())
    }

    // Sends each message to its connection.
    pub(crate) fn hand_on_all<W: Surroundings>(
        &mut self,
        world: &mut W,
        all: Vec<Sent>,
    ) -> Result<(), HostingFault>
        ensures { OnOk result (Does (all_deeds_of (map sent_of all.items)) self.old self.new) }
    {
        for one in all {
            self.hand_on(world, one)?;
        }
        Ok(())
    }

    // Sends one message to its connection.
    fn hand_on<W: Surroundings>(&mut self, world: &mut W, one: Sent) -> Result<(), HostingFault>
        ensures { OnOk result (Does (deeds_of (sent_of one)) self.old self.new) }
    {
        match one {
            Sent::Text(conn, text) => self.send(conn, text),
            Sent::Close(conn) => {
                let deadline = seconds_from_now(world, PATIENCE)?;
                self.registry.sessions.forget(conn);
                self.edge.close(conn, deadline)?;
                Ok(())
            }
            Sent::Opened(_) | Sent::Denied(_) | Sent::Lost(_) | Sent::NoEffect => Ok(()),
        }
    }

    // Sends a text on a connection.
    fn send(&mut self, conn: JsUint, text: SentText) -> Result<(), HostingFault>
        ensures { OnOk result (Does (Handed conn.value (text_of text) ∷ []) self.old self.new) }
    {
        if self.manners.ends_sessions {
            self.registry
                .sessions
                .sent(self.alloc, conn, text.as_str())?;
        }
        self.edge.hand(conn, text.as_str())?;
        Ok(())
    }
}
