//! What all connections hold together, and which give way if it is too much.
ghost use Rattle.std.specs.Prelude.{◌≡◌};

use crate::peers::Peers;
use crate::slot::Slot;
use std::alloc::AllocError;

/// How many bytes go around a payload at most: the head of a frame, or that of a reply.
const FRAMING: usize = 256;

/// What connections hold.
struct Held {
    // How many bytes all hold together.
    all: usize,
    // The place of the one that holds most.
    largest: usize,
}

impl Peers {
    /// If all connections together hold more than so many bytes, fails those that hold most, one after another, until
    /// they hold no more.
    ///
    /// What is held is counted only if what was added since the last count could be too much.
    pub(crate) fn hold_at_most(&mut self, most: usize) -> Result<(), AllocError>
        ensures keeps { self.new.routes ≡ self.old.routes }
    {
        if self.held <= most {
            return Ok(());
        }
        // A connection fails at most twice: when it is open, and when it is closing.
        for _ in 0..=self.slots.len().saturating_mul(2) {
            let Held { all, largest } = held_by(&self.slots);
            self.held = all;
            if all <= most {
                return Ok(());
            }
            match self.slots.get_mut(largest) {
                Some(Some(slot)) => slot.shed()?,
                _ => return Ok(()),
            }
        }
        Ok(())
    }

    /// Notes that so many bytes more may be held.
    pub(crate) fn hold(&mut self, more: usize)
        ensures { (self.new.slots ≡ self.old.slots) × (self.new.routes ≡ self.old.routes) }
    {
        self.held = self.held.saturating_add(more);
    }

    /// Notes that a payload of this length may wait on a connection.
    ///
    /// It counts twice, because the block of memory in which it waits grows to twice its size.
    pub(crate) fn hold_payload(&mut self, length: usize)
        ensures { (self.new.slots ≡ self.old.slots) × (self.new.routes ≡ self.old.routes) }
    {
        self.hold(length.saturating_add(FRAMING).saturating_mul(2));
    }
}

// What these connections hold.
fn held_by(slots: &[Option<Slot>]) -> Held {
    let mut all: usize = 0;
    let mut most: usize = 0;
    let mut largest = 0;
    for place in 0..slots.len() {
        let here = held_at(slots, place);
        all = all.saturating_add(here);
        if here > most {
            most = here;
            largest = place;
        }
    }
    Held { all, largest }
}

/// How many bytes the connection at a place holds.
pub(crate) fn held_at(slots: &[Option<Slot>], place: usize) -> usize {
    match slots.get(place) {
        Some(Some(slot)) => slot.peer.held(),
        _ => 0,
    }
}
