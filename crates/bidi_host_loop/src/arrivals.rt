//! New connections: accepting them, and admitting them when they ask for a resource.
ghost use Rattle.std.specs.Prelude.{[], ◌∷◌, OnOk, string_bytes};
ghost use Rattle.bidi_host_loop.specs.Deeds.{Asked};
ghost use Rattle.bidi_host_loop.specs.Runs.{Admits, AdmitsPage, Asks};

use crate::clock::{PATIENCE, seconds_from_now};
use crate::door::{Accepted, Door};
use crate::hosting::Hosted;
use crate::surroundings::Surroundings;
use bidi_peer::{Peer, RequestRefusal};
use bidi_recorder::HostingFault;
use bidi_tree::JsUint;
use mio::net::TcpStream;
use std::time::Instant;

/// The most connections that are accepted in one turn.
const MOST_ACCEPTED: u32 = 256;

/// The most connections of the remote end.
const MOST_CLIENTS: usize = 64;

/// The most open connections of pages.
const MOST_PAGES: usize = 64;

/// The resource of a page.
const PAGE: &str = "/page";

/// The resource of a connection without a session.
const SESSION: &str = "/session";

/// The beginning of the resources of sessions.
const SESSIONS: &str = "/session/";

impl Hosted {
    ghost use Rattle.bidi_host_loop.specs.Goes.{By, Meets, Rests};

    // Accepts the waiting connections.
    pub(crate) fn accept_all<W: Surroundings>(
        &mut self,
        door: &mut Door,
        world: &mut W,
    ) -> Result<(), HostingFault>
        ensures { OnOk result (Rests self.old self.new) }
    {
        if !door.has_clients() {
            return Ok(());
        }
        let deadline = seconds_from_now(world, PATIENCE)?;
        for _ in 0..MOST_ACCEPTED {
            match door.accept() {
                Accepted::Client(stream) => self.accept(door, stream, deadline)?,
                Accepted::Failure => {}
                Accepted::Nobody => return Ok(()),
            }
        }
        door.ask_again()
    }

    // Holds a connection, unless the host is ending. If all places are taken, the connection that
    // would be dropped next is dropped for it.
    fn accept(
        &mut self,
        door: &mut Door,
        stream: TcpStream,
        deadline: Option<Instant>,
    ) -> Result<(), HostingFault>
        ensures { OnOk result (Rests self.old self.new) }
    {
        if self.lifetime.is_ending() {
            return Ok(());
        }
        let Some(place) = self.edge.place() else {
            return Ok(());
        };
        if let Some(stream) = door.watch(stream, place) {
            let peer = Peer::with_bound(self.alloc, stream, self.manners.most_waiting);
            self.edge.put(place, peer, deadline)?;
        }
        Ok(())
    }

    // Admits or denies a client that asks for a resource.
    #[tactic(auto, using(crate::proofs::RunLemmas::asked_run))]
    pub(crate) fn admit<W: Surroundings>(
        &mut self,
        world: &mut W,
        place: usize,
        resource: String,
    ) -> Result<(), HostingFault>
        ensures { Meets (Asked place (string_bytes resource) ∷ []) self.old self.new result }
    {
        self.ask_for(world, place, resource.as_str())?;
        Ok(())
    }

    // A client asks for a resource.
    fn ask_for<W: Surroundings>(
        &mut self,
        world: &mut W,
        place: usize,
        resource: &str,
    ) -> Result<(), HostingFault>
        ensures { OnOk result (By (Asks place resource.now) self.old self.new) }
    {
        if resource == PAGE {
            self.admit_page(place)?;
            return Ok(());
        }
        if let Some(status) = self.registry.refusing.next() {
            self.edge.refuse_by_test(place, status)?;
            return Ok(());
        }
        let conn = self.registry.next_number()?;
        self.opens(world, conn, resource)?;
        self.admit_client(place, conn, resource)?;
        Ok(())
    }

    // Admits a client whose connection the remote end has opened, and denies any other.
    fn admit_client(
        &mut self,
        place: usize,
        conn: JsUint,
        resource: &str,
    ) -> Result<(), HostingFault>
        ensures { OnOk result (By (Admits place conn.value) self.old self.new) }
    {
        if !self.host.is_open(conn) {
            let refusal = self.refusal(resource);
            self.edge.deny(place, refusal)?;
            return Ok(());
        }
        self.note_client(conn, resource)?;
        self.edge.admit(place, conn)?;
        Ok(())
    }

    // Notes the session of a client, if the host ends sessions with their last connections.
    fn note_client(&mut self, conn: JsUint, resource: &str) -> Result<(), HostingFault>
        ensures { OnOk result (Rests self.old self.new) }
    {
        if self.manners.ends_sessions {
            self.registry.sessions.opened(self.alloc, conn, resource)?;
        }
        Ok(())
    }

    // Admits or denies a client that asks to be a page.
    fn admit_page(&mut self, place: usize) -> Result<(), HostingFault>
        ensures { OnOk result (By (AdmitsPage place) self.old self.new) }
    {
        if self.edge.peers.pages() >= MOST_PAGES {
            self.edge.deny(place, RequestRefusal::Full)?;
            return Ok(());
        }
        self.edge.admit_page(place)?;
        Ok(())
    }

    // Why a connection at this resource is denied.
    fn refusal(&self, resource: &str) -> RequestRefusal {
        let is_known = resource == SESSION || resource.starts_with(SESSIONS);
        if is_known && self.has_most_clients() {
            RequestRefusal::Full
        } else {
            RequestRefusal::NotFound
        }
    }

    // Whether as many connections of the remote end are open as may be.
    pub(crate) fn has_most_clients(&self) -> bool {
        self.edge.peers.clients() >= MOST_CLIENTS
    }
}
