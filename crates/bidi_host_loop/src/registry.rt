//! What a host knows of its clients.
use crate::refusing::Refusing;
use crate::sessions::Sessions;
use bidi_recorder::HostingFault;
use bidi_tree::JsUint;
use std::alloc::Global;

/// What a host knows of its clients.
#[derive(Drop)]
pub(crate) struct Registry {
    /// Which of them belong to which session.
    pub(crate) sessions: Sessions,
    /// Which of their handshakes a test has refused.
    pub(crate) refusing: Refusing,
    // How many connections the remote end was asked to open since it was new.
    count: u64,
}

impl Registry {
    /// No client has come. Takes no memory.
    pub(crate) fn new(alloc: Global) -> Registry {
        Registry {
            sessions: Sessions::new(alloc),
            refusing: Refusing::new(0, 0),
            count: 0,
        }
    }

    /// Forgets all clients, because the remote end is new.
    pub(crate) fn clear(&mut self) {
        self.sessions.clear();
        self.refusing = Refusing::new(0, 0);
        self.count = 0;
    }

    /// The number of the next connection.
    ///
    /// # Errors
    /// `WornOut`: no more numbers are left.
    pub(crate) fn next_number(&mut self) -> Result<JsUint, HostingFault> {
        let count = self.count.saturating_add(1);
        let Some(conn) = JsUint::new(count) else {
            return Err(HostingFault::WornOut);
        };
        self.count = count;
        Ok(conn)
    }
}
