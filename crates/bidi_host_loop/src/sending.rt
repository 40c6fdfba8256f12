//! What is sent to the connections that are held.
ghost use Rattle.std.specs.Prelude.{◌≡◌, OnOk};
ghost use Rattle.bidi_host_loop.specs.Clients.{HandsIn};

use crate::own::Own;
use crate::peers::Peers;
use crate::slot::{Slot, flushed_is_over, is_page};
use bidi_tree::JsUint;
use std::alloc::{AllocError, Global};

impl Peers {
    ghost use Rattle.bidi_host_loop.specs.Clients.{Hands, HandsAt};

    /// Keeps the texts of the connection with this number, which is the host's own, until [`Peers::kept_texts`].
    pub(crate) fn keep_texts(&mut self, alloc: Global, conn: JsUint)
        ensures keeps { self.new.routes ≡ self.old.routes }
    {
        self.own = Some(Own::new(alloc, conn));
    }

    /// The texts that were kept.
    pub(crate) fn kept_texts(&mut self, alloc: Global) -> Vec<String>
        ensures keeps { self.new.routes ≡ self.old.routes }
    {
        match self.own.take() {
            Some(own) => own.texts,
            None => Vec::new(alloc),
        }
    }

    /// Queues a text for the connection at a place.
    pub(crate) fn send_to(&mut self, place: usize, text: &str) -> Result<(), AllocError>
        ensures reaches { OnOk result (HandsAt place text.now self.old self.new) }
        ensures keeps { self.new.routes ≡ self.old.routes }
    {
        self.hold_payload(text.len());
        match self.slots.get_mut(place) {
            Some(there) => {
                send_in(there, text)?;
                Ok(())
            }
            None => Ok(()),
        }
    }

    /// Queues a text for the connection with a number, if it is held, or keeps it if the connection is the host's own.
    pub(crate) fn send(&mut self, conn: JsUint, text: &str) -> Result<(), AllocError>
        ensures reaches { OnOk result (Hands conn.value text.now self.old self.new) }
        ensures keeps { self.new.routes ≡ self.old.routes }
    {
        let Some(place) = self.place_of(conn) else {
            self.keep_own(conn, text)?;
            return Ok(());
        };
        self.send_to(place, text)?;
        Ok(())
    }

    // Keeps a text for the host's own connection, if it is for that.
    fn keep_own(&mut self, conn: JsUint, text: &str) -> Result<(), AllocError>
        ensures { self.new.routes ≡ self.old.routes }
    {
        match &mut self.own {
            Some(own) => own.keep(conn, text),
            None => Ok(()),
        }
    }

    /// Queues a binary message for the connection with a number, if it is held.
    pub(crate) fn send_bytes(&mut self, conn: JsUint, bytes: &[u8]) -> Result<(), AllocError>
        ensures keeps { self.new.routes ≡ self.old.routes }
    {
        let Some(place) = self.place_of(conn) else {
            return Ok(());
        };
        self.hold_payload(bytes.len());
        match self.slots.get_mut(place) {
            Some(Some(slot)) => slot.send_bytes(bytes),
            _ => Ok(()),
        }
    }

    /// Queues bytes without a frame for the connection with a number, if it is held.
    pub(crate) fn send_raw(&mut self, conn: JsUint, bytes: &[u8]) -> Result<(), AllocError>
        ensures keeps { self.new.routes ≡ self.old.routes }
    {
        let Some(place) = self.place_of(conn) else {
            return Ok(());
        };
        self.hold_payload(bytes.len());
        match self.slots.get_mut(place) {
            Some(Some(slot)) => slot.send_raw(bytes),
            _ => Ok(()),
        }
    }

    /// Queues a text for each connection of a page.
    pub(crate) fn send_to_pages(&mut self, text: &str) -> Result<(), AllocError>
        ensures keeps { self.new.routes ≡ self.old.routes }
    {
        for place in 0..self.slots.len() {
            if self.has_page(place) {
                self.send_to(place, text)?;
            }
        }
        Ok(())
    }

    // Whether a connection of a page is at a place.
    fn has_page(&self, place: usize) -> bool {
        match self.slots.get(place) {
            Some(slot) => is_page(slot),
            None => false,
        }
    }

    /// Writes what is queued, as far as the streams accept it, and drops the connections that are over.
    pub(crate) fn flush(&mut self)
        ensures keeps { self.new.routes ≡ self.old.routes }
    {
        for slot in self.slots.iter_mut() {
            if flushed_is_over(slot) {
                *slot = None;
            }
        }
    }
}

// Queues a text for what is held at a place.
fn send_in(there: &mut Option<Slot>, text: &str) -> Result<(), AllocError>
    ensures { OnOk result (HandsIn text.now there.old there.new) }
{
    match there {
        Some(slot) => {
            slot.send(text)?;
            Ok(())
        }
        None => Ok(()),
    }
}
