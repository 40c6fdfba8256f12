//! How connections are opened and dropped.
ghost use Rattle.std.specs.Prelude.{◌≡◌, List, map, IsTrue, IfOk, OnErr, IsOk, option_map};
ghost use Rattle.bidi_sessions.specs.View.{sent_of};
ghost use Rattle.bidi_remote.specs.Machine.History.{Input, Open, Drop};
ghost use Rattle.bidi_remote.specs.Machine.Connections.{is_open};
ghost use Rattle.bidi_remote.specs.Machine.Outcome.{deeds, turn};
ghost use Rattle.bidi_remote.specs.State.ConnectionRows.{opening_by};
ghost use Rattle.bidi_active.specs.SessionView.{opened_by};

use crate::refusing::only;
use crate::state::State;
use bidi_active::Opening;
use bidi_sessions::{Attachment, Sent};
use bidi_tree::JsUint;
use std::alloc::{AllocError, Global};

impl State {
    ghost use Rattle.bidi_remote.specs.State.Stands.{AgreeWith, Keeps, Takes};

    /// Whether the connection of this number is open.
    pub(crate) fn is_open(&self, conn: JsUint) -> bool
        ensures { (h : List Input) → AgreeWith self.now (deeds h) → result ≡ is_open (deeds h) conn.value }
    {
        match self.connections.attachment_of(conn) {
            Attachment::Shut => false,
            _ => true,
        }
    }

    /// Opens a connection, or denies it.
    pub(crate) fn open(
        &mut self,
        alloc: Global,
        conn: JsUint,
        resource: &str,
    ) -> Result<Vec<Sent>, AllocError>
        ensures ok { (h : List Input) → AgreeWith self.old (deeds h)
            → IfOk result (λ sent. Takes self.new (map sent_of sent.items) h (Open conn.value resource.now)) }
        ensures err { OnErr result (Keeps self.old self.new) }
    {
        match self.opening_for(conn, resource) {
            None => only(alloc, Sent::Denied(conn)),
            Some(opening) => {
                let sent = only(alloc, Sent::Opened(conn))?;
                self.connections.open(conn, opening.session())?;
                Ok(sent)
            }
        }
    }

    // For whom a new connection is opened; `None` where it may not be opened.
    fn opening_for(&self, conn: JsUint, resource: &str) -> Option<Opening>
        ensures { (h : List Input) → AgreeWith self.now (deeds h) → opening_by conn.value (option_map opened_by result) ≡ turn (deeds h) (Open conn.value resource.now) }
    {
        match self.connections.attachment_of(conn) {
            Attachment::Shut => {
                if !self.connections.has_room() {
                    return None;
                }
                self.sessions.opening_of(resource)
            }
            _ => None,
        }
    }

    /// Removes a connection that its peer closed, if it is open.
    pub(crate) fn drop_connection(
        &mut self,
        alloc: Global,
        conn: JsUint,
    ) -> Result<Vec<Sent>, AllocError>
        ensures ok { (h : List Input) → AgreeWith self.old (deeds h)
            → IfOk result (λ sent. Takes self.new (map sent_of sent.items) h (Drop conn.value)) }
        ensures err { OnErr result (Keeps self.old self.new) }
        ensures quiet { (h : List Input) → AgreeWith self.old (deeds h) → IsTrue (is_open (deeds h) conn.value) → IsOk result }
    {
        match self.connections.attachment_of(conn) {
            Attachment::Shut => only(alloc, Sent::Lost(conn)),
            _ => {
                self.connections.close(conn);
                Ok(Vec::new(alloc))
            }
        }
    }
}
