//! The texts that the remote end sends on a connection of the host's own.
use bidi_tree::JsUint;
use std::alloc::{AllocError, Global};

/// A connection of the host's own, with the texts that came on it.
#[derive(Drop)]
pub(crate) struct Own {
    alloc: Global,
    conn: u64,
    pub(crate) texts: Vec<String>,
}

impl Own {
    /// A connection of this number, on which nothing came. Takes no memory.
    pub(crate) fn new(alloc: Global, conn: JsUint) -> Own {
        Own {
            alloc,
            conn: conn.value,
            texts: Vec::new(alloc),
        }
    }

    /// Keeps a text that is sent on a connection, if it is this one.
    pub(crate) fn keep(&mut self, conn: JsUint, text: &str) -> Result<(), AllocError> {
        if self.conn == conn.value {
            self.texts.push(String::from_str(self.alloc, text)?)?;
        }
        Ok(())
    }
}
