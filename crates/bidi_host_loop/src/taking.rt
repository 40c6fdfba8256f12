//! Inputs of the remote end: each is recorded, and then what it brings about is done.
ghost use Rattle.std.specs.Prelude.{IfNone, IfOk, IfSome, OnOk, false, string_bytes};
ghost use Rattle.bidi_sessions.specs.Step.{Drop, NotText, Open};
ghost use Rattle.bidi_script_lines.specs.ScriptLines.{Plain};
ghost use Rattle.bidi_host_loop.specs.Runs.{Hears, Loses, Says, Takes, TakesPageLine};

use crate::hosting::Hosted;
use crate::pages::Answer;
use crate::surroundings::Surroundings;
use bidi_recorder::HostingFault;
use bidi_tree::JsUint;

impl Hosted {
    ghost use Rattle.bidi_host_loop.specs.Goes.{By, opening_of};

    // The remote end is asked to open a connection with this resource.
    pub(crate) fn opens<W: Surroundings>(
        &mut self,
        world: &mut W,
        conn: JsUint,
        resource: &str,
    ) -> Result<(), HostingFault>
        ensures { OnOk result (By (Takes (Plain (Open conn.value resource.now))) self.old self.new) }
    {
        let taken = self.host.opened(conn, resource)?;
        self.deliver(world, taken)?;
        Ok(())
    }

    // A text has come in on a connection, as it came.
    pub(crate) fn hears<W: Surroundings>(
        &mut self,
        world: &mut W,
        conn: JsUint,
        text: String,
    ) -> Result<(), HostingFault>
        ensures { OnOk result (By (Hears false conn.value (string_bytes text)) self.old self.new) }
    {
        let taken = self.host.heard(conn, text)?;
        self.deliver(world, taken)?;
        Ok(())
    }

    // A binary message has come in on a connection.
    pub(crate) fn hears_no_text<W: Surroundings>(
        &mut self,
        world: &mut W,
        conn: JsUint,
    ) -> Result<(), HostingFault>
        ensures { OnOk result (By (Takes (Plain (NotText conn.value))) self.old self.new) }
    {
        let taken = self.host.heard_no_text(conn)?;
        self.deliver(world, taken)?;
        Ok(())
    }

    // A connection is gone. The remote end is told, unless the connection is closed already.
    pub(crate) fn drops<W: Surroundings>(
        &mut self,
        world: &mut W,
        conn: JsUint,
    ) -> Result<(), HostingFault>
        ensures { OnOk result (By (Loses conn.value) self.old self.new) }
    {
        if !self.host.is_open(conn) {
            return Ok(());
        }
        let taken = self.host.dropped(conn)?;
        self.deliver(world, taken)?;
        Ok(())
    }

    // A page says a line. Returns the answer, or `None` if it is no line that a page may say.
    pub(crate) fn says_line<W: Surroundings>(
        &mut self,
        world: &mut W,
        text: &str,
    ) -> Result<Option<Answer>, HostingFault>
        ensures some { IfOk result (λ found. IfSome found (λ _. By (TakesPageLine text.now) self.old self.new)) }
        ensures none { IfOk result (λ found. IfNone found (By (Says (opening_of self.old) text.now) self.old self.new)) }
    {
        let Some(taken) = self.host.page_line(text)? else {
            return Ok(None);
        };
        let answer = self.answer_for(text, &taken.outcome)?;
        self.deliver(world, taken)?;
        Ok(Some(answer))
    }
}
