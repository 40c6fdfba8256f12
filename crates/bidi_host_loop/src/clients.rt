//! Messages that come in on the connections.
ghost use Rattle.std.specs.Prelude.{◌≡◌, [], ◌∷◌, IfOk, OnOk, false, string_bytes};
ghost use Rattle.bidi_peer.specs.declared.peer.Came.TheVariants as came;
ghost use Rattle.bidi_host_loop.specs.Deeds.{Gone, Heard, HeardBytes, coming};
ghost use Rattle.bidi_host_loop.specs.Runs.{Hears, Loses};

use crate::clock::{PATIENCE, seconds_from_now};
use crate::hosting::Hosted;
use crate::page_file::add;
use crate::slot::Role;
use crate::surroundings::Surroundings;
use bidi_lenient::{Eased, ease};
use bidi_peer::Came;
use bidi_recorder::HostingFault;
use bidi_tree::JsUint;

/// How many messages of one connection are taken before it is the next one's turn.
const MOST_TAKES: u32 = 64;

/// How many different reports on clients' texts are written. Their names come from the clients.
const MOST_REPORTS: usize = 256;

/// The line that ends a session for a connection that is gone.
const END: &str = r#"{"id":0,"method":"session.end","params":{}}"#;

impl Hosted {
    ghost use Rattle.bidi_host_loop.specs.Goes.{By, GoesOn, Meets, Rests};

    // Takes what came in on all connections.
    pub(crate) fn serve_ready<W: Surroundings>(&mut self, world: &mut W) -> Result<(), HostingFault>
        ensures { GoesOn self.old self.new result }
    {
        for place in 0..self.edge.peers.len() {
            if self.edge.peers.is_ready(place) {
                self.serve_place(world, place)?;
            }
        }
        Ok(())
    }

    // Takes some of what came in on one connection, so that the next has its turn soon.
    fn serve_place<W: Surroundings>(
        &mut self,
        world: &mut W,
        place: usize,
    ) -> Result<(), HostingFault>
        ensures { GoesOn self.old self.new result }
    {
        for _ in 0..MOST_TAKES {
            if !self.serve_once(world, place)? {
                return Ok(());
            }
        }
        Ok(())
    }

    // Takes one thing that came in on a connection. Returns whether more is taken in this turn.
    fn serve_once<W: Surroundings>(
        &mut self,
        world: &mut W,
        place: usize,
    ) -> Result<bool, HostingFault>
        ensures { GoesOn self.old self.new result }
    {
        let (role, came) = self.edge.take(place)?;
        let goes_on = self.handle(world, place, role, came)?;
        self.bound_what_is_held()?;
        Ok(goes_on)
    }

    // Fails the connections that hold most, if all together hold too much.
    pub(crate) fn bound_what_is_held(&mut self) -> Result<(), HostingFault>
        ensures { OnOk result (Rests self.old self.new) }
    {
        Ok(self.edge.hold_at_most(self.manners.most_held)?)
    }

    // Meets one thing that came in. Returns whether more is taken in this turn.
    fn handle<W: Surroundings>(
        &mut self,
        world: &mut W,
        place: usize,
        role: Role,
        came: Came,
    ) -> Result<bool, HostingFault>
        ensures { Meets (coming place role came) self.old self.new result }
    {
        match came {
            Came::Nothing | Came::More => return Ok(false),
            Came::Asks(resource) => self.admit(world, place, resource)?,
            Came::Calls(call) => self.answer_call(world, place, call)?,
            Came::Text(text) => self.text_came(world, place, role, text)?,
            Came::NotText => self.bytes_came(world, place, role)?,
            Came::Ended => self.end_came(world, place, role)?,
        }
        Ok(true)
    }

    // A text came in on the connection at a place.
    fn text_came<W: Surroundings>(
        &mut self,
        world: &mut W,
        place: usize,
        role: Role,
        text: String,
    ) -> Result<(), HostingFault>
        ensures { Meets (coming place role (came.Text text)) self.old self.new result }
    {
        match role {
            Role::Client(conn) => self.client_says(world, conn, text),
            Role::Page => self.answer_page(world, place, text),
            Role::Arriving | Role::Leaving => Ok(()),
        }
    }

    // A binary message came in on the connection at a place.
    fn bytes_came<W: Surroundings>(
        &mut self,
        world: &mut W,
        place: usize,
        role: Role,
    ) -> Result<(), HostingFault>
        ensures { Meets (coming place role came.NotText) self.old self.new result }
    {
        match role {
            Role::Client(conn) => self.client_sends_bytes(world, conn),
            Role::Page => self.refuse_bytes(world, place),
            Role::Arriving | Role::Leaving => Ok(()),
        }
    }

    // The connection at a place has ended.
    fn end_came<W: Surroundings>(
        &mut self,
        world: &mut W,
        place: usize,
        role: Role,
    ) -> Result<(), HostingFault>
        ensures { Meets (coming place role came.Ended) self.old self.new result }
    {
        let deadline = seconds_from_now(world, PATIENCE)?;
        self.edge.leave(place, role, deadline);
        match role {
            Role::Client(conn) => self.client_ends(world, conn),
            Role::Page | Role::Arriving | Role::Leaving => Ok(()),
        }
    }

    // A client says a text.
    #[tactic(auto, using(crate::proofs::RunLemmas::heard_run))]
    fn client_says<W: Surroundings>(
        &mut self,
        world: &mut W,
        conn: JsUint,
        text: String,
    ) -> Result<(), HostingFault>
        ensures { Meets (Heard conn.value (string_bytes text) ∷ []) self.old self.new result }
    {
        self.hears_eased(world, conn, text)?;
        Ok(())
    }

    // A client sends a binary message.
    #[tactic(auto, using(crate::proofs::RunLemmas::heard_bytes_run))]
    fn client_sends_bytes<W: Surroundings>(
        &mut self,
        world: &mut W,
        conn: JsUint,
    ) -> Result<(), HostingFault>
        ensures { Meets (HeardBytes conn.value ∷ []) self.old self.new result }
    {
        self.hears_no_text(world, conn)?;
        Ok(())
    }

    // The connection of a client has ended.
    #[tactic(auto, using(crate::proofs::RunLemmas::lost_run))]
    fn client_ends<W: Surroundings>(
        &mut self,
        world: &mut W,
        conn: JsUint,
    ) -> Result<(), HostingFault>
        ensures { Meets (Gone conn.value ∷ []) self.old self.new result }
    {
        self.lose(world, conn)?;
        Ok(())
    }

    // Gives the remote end a client's text, eased if the host is lenient.
    pub(crate) fn hears_eased<W: Surroundings>(
        &mut self,
        world: &mut W,
        conn: JsUint,
        text: String,
    ) -> Result<(), HostingFault>
        ensures { OnOk result (By (Hears self.old.manners.is_lenient conn.value (string_bytes text)) self.old self.new) }
    {
        let text = self.eased(world, text)?;
        self.hears(world, conn, text)?;
        Ok(())
    }

    // Makes of a client's text what the profile takes, if the host is lenient, and reports what was done.
    fn eased<W: Surroundings>(
        &mut self,
        world: &mut W,
        text: String,
    ) -> Result<String, HostingFault>
        ensures same { IfOk result (λ eased. self.old.manners.is_lenient ≡ false → string_bytes eased ≡ string_bytes text) }
        ensures rests { OnOk result (Rests self.old self.new) }
    {
        if !self.manners.is_lenient {
            return Ok(text);
        }
        match ease(self.alloc, text.as_str())? {
            Some(eased) => self.eased_as(world, text, eased),
            None => Ok(text),
        }
    }

    // Reports what was done to a text. Returns what the profile takes.
    fn eased_as<W: Surroundings>(
        &mut self,
        world: &mut W,
        text: String,
        eased: Eased,
    ) -> Result<String, HostingFault>
        ensures { OnOk result (Rests self.old self.new) }
    {
        for report in eased.reports {
            self.tell(world, report)?;
        }
        Ok(eased.text.unwrap_or(text))
    }

    // Reports this, unless it was reported before or too much was reported.
    fn tell<W: Surroundings>(&mut self, world: &mut W, report: String) -> Result<(), HostingFault>
        ensures { OnOk result (Rests self.old self.new) }
    {
        if self.told.len() >= MOST_REPORTS
            || self
                .told
                .iter()
                .any(|told| told.as_str() == report.as_str())
        {
            return Ok(());
        }
        let line = format!(in self.alloc; "bidi: {report}")?;
        world.note(line.as_str());
        Ok(add(&mut self.told, report)?)
    }

    // A connection of the remote end is gone. Ends its session, if the host does so and it was the
    // last connection.
    fn lose<W: Surroundings>(&mut self, world: &mut W, conn: JsUint) -> Result<(), HostingFault>
        ensures { OnOk result (By (Loses conn.value) self.old self.new) }
    {
        if self.ends_with(conn) {
            let end = String::from_str(self.alloc, END)?;
            self.hears(world, conn, end)?;
            self.drops(world, conn)?;
            return Ok(());
        }
        self.drops(world, conn)?;
        Ok(())
    }

    // Forgets a connection that is gone. Returns whether the host ends its session.
    fn ends_with(&mut self, conn: JsUint) -> bool
        ensures { Rests self.old self.new }
    {
        self.manners.ends_sessions && self.registry.sessions.forget(conn)
    }
}
