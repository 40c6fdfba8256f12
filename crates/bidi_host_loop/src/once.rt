//! Ending a host after its last session.
ghost use Rattle.std.specs.Prelude.{OnOk};

use crate::hosting::Hosted;
use crate::surroundings::Surroundings;
use bidi_recorder::HostingFault;

impl Hosted {
    ghost use Rattle.bidi_host_loop.specs.Goes.{Rests};

    // Notes that there is a session, if the host ends after the last one.
    pub(crate) fn note_session(&mut self) -> Result<(), HostingFault>
        ensures { OnOk result (Rests self.old self.new) }
    {
        if self.manners.ends_after_last && !self.lifetime.had_session {
            self.lifetime.had_session = self.has_sessions()?;
        }
        Ok(())
    }

    // Begins to end the host, if it ends after its last session, that session has ended, and no
    // client is connected.
    pub(crate) fn end_after_last<W: Surroundings>(
        &mut self,
        world: &mut W,
    ) -> Result<(), HostingFault>
        ensures { OnOk result (Rests self.old self.new) }
    {
        if !self.lifetime.had_session
            || self.lifetime.is_ending()
            || self.edge.peers.clients() > 0
        {
            return Ok(());
        }
        if self.has_sessions()? {
            return Ok(());
        }
        self.begin_end(world)?;
        self.close_pages_at_end(world)
    }

    // Whether there is a session.
    fn has_sessions(&self) -> Result<bool, HostingFault> {
        let sessions = self.host.remote_end().sessions()?;
        Ok(!sessions.is_empty())
    }
}
