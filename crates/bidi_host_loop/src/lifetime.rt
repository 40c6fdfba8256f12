//! When a host ends.
ghost use Rattle.std.specs.Prelude.{◌≡◌};

use std::time::Instant;

/// When a host ends.
#[derive(Clone, Copy, Debug, PartialEq, Eq)]
pub(crate) struct Lifetime {
    // When it ends, whatever its connections do; `None` while it serves.
    end: Option<Instant>,
    /// Whether there was a session, if the host ends after the last one.
    pub(crate) had_session: bool,
}

impl Lifetime {
    /// It serves, and there was no session.
    pub(crate) fn new() -> Lifetime {
        Lifetime {
            end: None,
            had_session: false,
        }
    }

    /// Whether the host is ending.
    pub(crate) fn is_ending(&self) -> bool {
        self.end.is_some()
    }

    /// When the host ends, whatever its connections do; `None` while it serves.
    pub(crate) fn end(&self) -> Option<Instant>
        ensures { result ≡ self.now.end }
    {
        self.end
    }

    /// Has the host end at this time; `None` if the clock cannot represent it.
    pub(crate) fn end_at(&mut self, end: Option<Instant>) {
        self.end = end;
    }
}
