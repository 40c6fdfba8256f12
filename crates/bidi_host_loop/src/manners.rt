//! Options of a host.

/// The most connections that the program holds: 512.
pub const MOST_CONNECTIONS: usize = 512;

/// Options of a host.
#[derive(Clone, Copy, Debug, PartialEq, Eq)]
pub struct Manners {
    /// Ends a session whose last connection is gone without `session.end`.
    pub ends_sessions: bool,
    /// Eases commands that ask for more than the profile has, and lets sessions subscribe to all names.
    pub is_lenient: bool,
    /// Ends the host when its last session has ended and no client is connected, once there was a session.
    pub ends_after_last: bool,
    /// Reads page lines from standard input as well, and ends the host at its end.
    pub reads_input: bool,
    /// The most bytes that wait to be sent on one connection.
    pub most_waiting: usize,
    /// The most bytes that all connections hold together: unfinished messages, and bytes to be sent.
    pub most_held: usize,
    /// The most connections that are held, including those in their handshake and those that are closing.
    pub most_connections: usize,
}
