//! Handshakes that a test has refused.

/// How many of the next handshakes are refused, and by which status.
#[derive(Clone, Copy, Debug, PartialEq, Eq)]
pub(crate) struct Refusing {
    left: u64,
    status: u16,
}

impl Refusing {
    /// Refuses so many handshakes by this status.
    pub(crate) fn new(left: u64, status: u16) -> Refusing {
        Refusing { left, status }
    }

    /// The status that refuses the next handshake, if it is refused.
    pub(crate) fn next(&mut self) -> Option<u16> {
        if self.left == 0 {
            return None;
        }
        self.left -= 1;
        Some(self.status)
    }
}
