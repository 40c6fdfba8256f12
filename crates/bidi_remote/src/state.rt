//! The state of a remote end.
ghost use Rattle.std.specs.Prelude.{[], IfOk};

use bidi_active::Sessions;
use bidi_browser::Browser;
use bidi_sessions::Connections;
use bidi_tree::JsUint;
use std::alloc::{AllocError, Global};

/// The state of a remote end.
#[derive(Drop)]
pub(crate) struct State {
    /// The moment that the clock shows.
    pub moment: JsUint,
    /// The open connections.
    pub connections: Connections,
    /// The active sessions.
    pub sessions: Sessions,
    /// The browser in memory.
    pub browser: Browser,
}

impl State {
    ghost use Rattle.bidi_remote.specs.State.Stands.{AgreeWith};

    /// The state before the first step.
    pub(crate) fn new(alloc: Global) -> Result<State, AllocError>
        ensures { IfOk result (λ state. AgreeWith state []) }
    {
        Ok(State {
            moment: JsUint { value: 0 },
            connections: Connections::new(alloc),
            sessions: Sessions::new(alloc),
            browser: Browser::new(alloc)?,
        })
    }
}
