//! How the connections that are held end.
ghost use Rattle.std.specs.Prelude.{◌≡◌, []};

use crate::clock::earlier;
use crate::peers::Peers;
use crate::slot::{Role, Slot, deadline_of, is_past};
use bidi_peer::ClosingCause;
use bidi_tree::JsUint;
use std::alloc::AllocError;
use std::time::Instant;

impl Peers {
    ghost use Rattle.bidi_host_loop.specs.Clients.{left_by, left_without};

    /// Closes the connection with a number, because the remote end closes it.
    pub(crate) fn close(
        &mut self,
        conn: JsUint,
        deadline: Option<Instant>,
    ) -> Result<(), AllocError>
        ensures left { self.new.routes.items ≡ left_without conn.value self.old.routes.items }
    {
        let found = self.place_of(conn);
        self.forget(conn);
        match found {
            Some(place) => self.close_at(place, ClosingCause::Done, deadline),
            None => Ok(()),
        }
    }

    /// Closes the connection with a number by this code, because a test closes it.
    pub(crate) fn close_with(
        &mut self,
        conn: JsUint,
        code: u16,
        deadline: Option<Instant>,
    ) -> Result<(), AllocError>
        ensures left { self.new.routes.items ≡ left_without conn.value self.old.routes.items }
    {
        let found = self.place_of(conn);
        self.forget(conn);
        match found {
            Some(place) => self.close_at(place, ClosingCause::Code(code), deadline),
            None => Ok(()),
        }
    }

    /// Has the connection with a number end after so many bytes of the frame of its next message.
    pub(crate) fn cut_after(&mut self, conn: JsUint, bytes: JsUint)
        ensures keeps { self.new.routes ≡ self.old.routes }
    {
        let Some(place) = self.place_of(conn) else {
            return;
        };
        if let Some(Some(slot)) = self.slots.get_mut(place) {
            slot.cut_after = Some(bytes.value as usize);
        }
    }

    /// Drops the connection with a number after what is queued, as far as the stream accepts it, without a close
    /// frame.
    pub(crate) fn cut(&mut self, conn: JsUint)
        ensures left { self.new.routes.items ≡ left_without conn.value self.old.routes.items }
    {
        let found = self.place_of(conn);
        self.forget(conn);
        let Some(place) = found else {
            return;
        };
        if let Some(there) = self.slots.get_mut(place) {
            if let Some(slot) = there {
                slot.flush();
            }
            *there = None;
        }
    }

    // Closes the connection at a place.
    fn close_at(
        &mut self,
        place: usize,
        cause: ClosingCause,
        deadline: Option<Instant>,
    ) -> Result<(), AllocError>
        ensures keeps { self.new.routes ≡ self.old.routes }
    {
        match self.slots.get_mut(place) {
            Some(Some(slot)) => slot.close(cause, deadline),
            _ => Ok(()),
        }
    }

    /// The connection at a place has ended. It is dropped at the deadline, or earlier when its queue is empty
    /// and, if its stream is read out, its peer has ended too.
    pub(crate) fn leave(&mut self, place: usize, role: Role, deadline: Option<Instant>)
        ensures left { self.new.routes.items ≡ left_by role self.old.routes.items }
    {
        if let Role::Client(conn) = role {
            self.forget(conn);
        }
        if let Some(Some(slot)) = self.slots.get_mut(place) {
            slot.role = Role::Leaving;
            slot.is_read_out |= role == Role::Arriving;
            slot.deadline = deadline;
            slot.is_due = true;
        }
    }

    /// Closes all connections of the remote end, and with `pages` those of pages as well.
    pub(crate) fn close_all(
        &mut self,
        pages: bool,
        deadline: Option<Instant>,
    ) -> Result<(), AllocError>
        ensures left { self.new.routes.items ≡ [] }
    {
        self.routes.clear();
        for slot in self.slots.iter_mut() {
            if let Some(slot) = slot {
                if is_closed_with(slot.role, pages) {
                    slot.close(ClosingCause::GoingAway, deadline)?;
                }
            }
        }
        Ok(())
    }

    /// Drops the connections whose deadline has passed. Returns the next deadline.
    pub(crate) fn expire(&mut self, now: Instant) -> Option<Instant>
        ensures keeps { self.new.routes ≡ self.old.routes }
    {
        let mut next = None;
        for slot in self.slots.iter_mut() {
            if is_past(slot, now) {
                *slot = None;
            } else {
                next = earlier(next, deadline_of(slot));
            }
        }
        next
    }
}

// Whether a connection is closed by a reset, or with `pages` at the end.
fn is_closed_with(role: Role, pages: bool) -> bool {
    match role {
        Role::Client(_) => true,
        Role::Page | Role::Arriving => pages,
        Role::Leaving => false,
    }
}
