//! The connections that are held, each at a place of its own.
ghost use Rattle.std.specs.Prelude.{◌≡◌, ◌++◌, ◌∷◌, [], List, true, OnOk, Some};

use crate::bounding::held_at;
use crate::own::Own;
use crate::slot::{Role, Slot, deadline_of, is_page};
use bidi_classic::Reply;
use bidi_peer::{Came, Peer, RequestRefusal};
use bidi_tree::JsUint;
use mio::net::TcpStream;
use std::alloc::{AllocError, Global};
use std::time::Instant;

/// The place of the connection with a number.
#[derive(Clone, Copy)]
pub(crate) struct Route {
    conn: u64,
    place: usize,
}

/// The connections that are held. A place is used again when its connection is gone.
#[derive(Drop)]
pub(crate) struct Peers {
    pub(crate) slots: Vec<Option<Slot>>,
    // Where the connections of the remote end are, the newest first.
    pub(crate) routes: Vec<Route>,
    // The most places.
    most: usize,
    // The texts of the host's own connection, while it has one.
    pub(crate) own: Option<Own>,
    /// All connections together hold no more bytes than this.
    pub(crate) held: usize,
}

impl Peers {
    ghost use Rattle.bidi_host_loop.specs.Clients.{are_routed, left_without, place_of, with_route};
    ghost use Rattle.bidi_host_loop.specs.Deeds.{Admitted, Deed};

    /// Makes an empty collection with at most so many places. Takes no memory.
    pub(crate) fn new(alloc: Global, most: usize) -> Peers
        ensures { result.routes.items ≡ [] }
    {
        Peers {
            slots: Vec::new(alloc),
            routes: Vec::new(alloc),
            most,
            own: None,
            held: 0,
        }
    }

    /// The number of places. Each connection is at a smaller one.
    pub(crate) fn len(&self) -> usize {
        self.slots.len()
    }

    /// Whether no connection is held.
    pub(crate) fn is_empty(&self) -> bool {
        self.slots.iter().all(|slot| slot.is_none())
    }

    /// How many connections of the remote end are open.
    pub(crate) fn clients(&self) -> usize {
        self.routes.len()
    }

    /// How many connections of pages are open.
    pub(crate) fn pages(&self) -> usize {
        self.slots.iter().filter(|slot| is_page(*slot)).count()
    }

    /// Finds a free place. If all are taken, drops the connection whose deadline comes first; `None` if none
    /// has a deadline.
    pub(crate) fn place(&mut self) -> Option<usize>
        ensures keeps { self.new.routes ≡ self.old.routes }
    {
        if let Some(place) = self.slots.iter().position(|slot| slot.is_none()) {
            return Some(place);
        }
        if self.slots.len() < self.most {
            return Some(self.slots.len());
        }
        let place = first_to_go(&self.slots)?;
        if let Some(slot) = self.slots.get_mut(place) {
            *slot = None;
        }
        Some(place)
    }

    /// Puts a connection at a free place. Its handshake has until the deadline.
    pub(crate) fn put(
        &mut self,
        place: usize,
        peer: Peer<TcpStream>,
        deadline: Option<Instant>,
    ) -> Result<(), AllocError>
        ensures keeps { self.new.routes ≡ self.old.routes }
    {
        let slot = Some(Slot {
            peer,
            role: Role::Arriving,
            deadline,
            is_read_out: false,
            is_ready: true,
            is_due: false,
            is_stalled: false,
            cut_after: None,
        });
        match self.slots.get_mut(place) {
            Some(there) => *there = slot,
            None => self.slots.push(slot)?,
        }
        Ok(())
    }

    /// The stream at a place can be read or written again.
    pub(crate) fn wake(&mut self, place: usize)
        ensures keeps { self.new.routes ≡ self.old.routes }
    {
        if let Some(there) = self.slots.get_mut(place) {
            if let Some(slot) = there {
                slot.is_ready = true;
                slot.is_due = true;
            }
        }
    }

    /// Whether something may have come in at a place that is to be taken.
    pub(crate) fn is_ready(&self, place: usize) -> bool {
        match self.slots.get(place) {
            Some(Some(slot)) => slot.can_take(),
            _ => false,
        }
    }

    /// Whether something may have come in anywhere that is to be taken.
    pub(crate) fn is_any_ready(&self) -> bool {
        self.slots.iter().any(|slot| match slot {
            Some(slot) => slot.can_take(),
            None => false,
        })
    }

    /// Takes what came in at a place, with the role of the connection.
    pub(crate) fn take(&mut self, place: usize) -> Result<(Role, Came), AllocError>
        ensures keeps { self.new.routes ≡ self.old.routes }
    {
        let before = held_at(&self.slots, place);
        let taken = match self.slots.get_mut(place) {
            Some(Some(slot)) => slot.take()?,
            _ => (Role::Leaving, Came::Nothing),
        };
        let after = held_at(&self.slots, place);
        self.hold(after.saturating_sub(before));
        Ok(taken)
    }

    /// Answers a handshake: the connection at a place is open, and it is that of the remote end with this number.
    pub(crate) fn open_client(&mut self, place: usize, conn: JsUint) -> Result<(), AllocError>
        ensures routes { OnOk result (place_of conn.value self.new ≡ Some place) }
        ensures adds { OnOk result (self.new.routes.items ≡ with_route place conn.value self.old.routes.items) }
        // If every number was at the place by which it was admitted last, so it is once this number is admitted.
        ensures admits { (deeds : List Deed) → are_routed self.old.routes.items deeds ≡ true
            → are_routed self.new.routes.items (deeds ++ Admitted place conn.value ∷ []) ≡ true }
    {
        let route = Route {
            conn: conn.value,
            place,
        };
        self.forget(conn);
        self.routes.insert(0, route)?;
        self.open_at(place, Role::Client(conn))?;
        Ok(())
    }

    /// Answers a handshake: the connection at a place is open, and it is that of a page.
    pub(crate) fn open_page(&mut self, place: usize) -> Result<(), AllocError>
        ensures keeps { self.new.routes ≡ self.old.routes }
    {
        self.open_at(place, Role::Page)
    }

    // Answers the handshake at a place, whose connection has this role from now on.
    fn open_at(&mut self, place: usize, role: Role) -> Result<(), AllocError>
        ensures { self.new.routes ≡ self.old.routes }
    {
        if let Some(Some(slot)) = self.slots.get_mut(place) {
            slot.role = role;
            slot.deadline = None;
            slot.is_due = true;
            slot.peer.open()?;
        }
        Ok(())
    }

    /// Refuses a handshake.
    pub(crate) fn refuse(&mut self, place: usize, refusal: RequestRefusal) -> Result<(), AllocError>
        ensures keeps { self.new.routes ≡ self.old.routes }
    {
        if let Some(Some(slot)) = self.slots.get_mut(place) {
            slot.role = Role::Leaving;
            slot.is_read_out = true;
            slot.is_due = true;
            slot.peer.refuse(refusal)?;
        }
        Ok(())
    }

    /// Replies to a call.
    pub(crate) fn reply(&mut self, place: usize, reply: &Reply) -> Result<(), AllocError>
        ensures keeps { self.new.routes ≡ self.old.routes }
    {
        self.hold_payload(reply.json.len());
        if let Some(Some(slot)) = self.slots.get_mut(place) {
            slot.role = Role::Leaving;
            slot.is_read_out = true;
            slot.is_due = true;
            slot.peer.reply(reply.status, reply.json.as_str())?;
        }
        Ok(())
    }

    /// The port at which the connection at a place was accepted; 0 if there is none.
    pub(crate) fn port_at(&self, place: usize) -> u16 {
        match self.slots.get(place) {
            Some(Some(slot)) => slot.port(),
            _ => 0,
        }
    }

    /// The place of the connection with a number.
    pub(crate) fn place_of(&self, conn: JsUint) -> Option<usize>
        ensures { result ≡ place_of conn.value self.now }
    {
        let route = self.routes.iter().find(|route| route.conn == conn.value)?;
        Some(route.place)
    }

    /// Forgets the number of a connection.
    pub(crate) fn forget(&mut self, conn: JsUint)
        ensures left { self.new.routes.items ≡ left_without conn.value self.old.routes.items }
        ensures slots { self.new.slots ≡ self.old.slots }
    {
        self.routes.retain(|route| route.conn != conn.value);
    }

    /// Has nothing read from the connection with a number while it is open, or has it read again.
    pub(crate) fn stall(&mut self, conn: JsUint, is_stalled: bool)
        ensures keeps { self.new.routes ≡ self.old.routes }
    {
        let Some(place) = self.place_of(conn) else {
            return;
        };
        if let Some(Some(slot)) = self.slots.get_mut(place) {
            slot.is_stalled = is_stalled;
        }
    }
}

// The place of the connection whose deadline comes first.
fn first_to_go(slots: &[Option<Slot>]) -> Option<usize> {
    let mut first = None;
    for place in 0..slots.len() {
        let Some(deadline) = deadline_of(&slots[place]) else {
            continue;
        };
        first = match first {
            Some((earliest, _)) if earliest <= deadline => first,
            _ => Some((deadline, place)),
        };
    }
    match first {
        Some((_, place)) => Some(place),
        None => None,
    }
}
