//! The session of each connection, as far as the messages show it.
use bidi_tree::JsUint;
use std::alloc::{AllocError, Global};

/// The beginning of a session's resource, before its id.
const RESOURCE: &str = "/session/";

/// The text before the id in the result of `session.new`.
const MEMBER: &str = "\"sessionId\":\"";

/// The length of an id.
const ID_BYTES: usize = 36;

/// A connection that belongs to a session.
#[derive(Drop)]
struct Speaker {
    conn: u64,
    session: String,
}

/// The connections that belong to a session.
#[derive(Drop)]
pub(crate) struct Sessions {
    speakers: Vec<Speaker>,
}

impl Sessions {
    /// Makes an empty collection. Takes no memory.
    pub(crate) fn new(alloc: Global) -> Sessions {
        Sessions {
            speakers: Vec::new(alloc),
        }
    }

    /// A connection was opened at this resource.
    pub(crate) fn opened(
        &mut self,
        alloc: Global,
        conn: JsUint,
        resource: &str,
    ) -> Result<(), AllocError> {
        match resource.strip_prefix(RESOURCE) {
            Some(session) => self.add(alloc, conn, session),
            None => Ok(()),
        }
    }

    /// A text is sent on a connection. If the connection has no session yet, this may be the result of
    /// `session.new`.
    pub(crate) fn sent(
        &mut self,
        alloc: Global,
        conn: JsUint,
        text: &str,
    ) -> Result<(), AllocError> {
        if self.speaks(conn) {
            return Ok(());
        }
        match session_in(text) {
            Some(session) => self.add(alloc, conn, session),
            None => Ok(()),
        }
    }

    // Whether a connection belongs to a session.
    fn speaks(&self, conn: JsUint) -> bool {
        self.speakers.iter().any(|it| it.conn == conn.value)
    }

    // Notes that a connection belongs to a session.
    fn add(&mut self, alloc: Global, conn: JsUint, session: &str) -> Result<(), AllocError> {
        let session = String::from_str(alloc, session)?;
        self.speakers.push(Speaker {
            conn: conn.value,
            session,
        })?;
        Ok(())
    }

    /// Forgets the session of a connection. Returns whether it was the last connection of that session.
    pub(crate) fn forget(&mut self, conn: JsUint) -> bool {
        let Some(place) = self.speakers.iter().position(|it| it.conn == conn.value) else {
            return false;
        };
        let gone = self.speakers.swap_remove(place);
        !self
            .speakers
            .iter()
            .any(|it| it.session.as_str() == gone.session.as_str())
    }

    /// Forgets all sessions.
    pub(crate) fn clear(&mut self) {
        self.speakers.clear();
    }
}

// The id in the result of `session.new`.
fn session_in(text: &str) -> Option<&str> {
    let (_, behind) = text.split_once(MEMBER)?;
    behind.get(..ID_BYTES)
}
