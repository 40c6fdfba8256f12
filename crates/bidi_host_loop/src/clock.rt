//! The time, and how long a host waits.
use crate::surroundings::Surroundings;
use bidi_recorder::HostingFault;
use std::time::{Duration, Instant};

/// The most seconds for a handshake, and for the end of a connection.
pub(crate) const PATIENCE: u64 = 10;

/// The most seconds for connections to end when the program ends.
pub(crate) const LINGER: u64 = 2;

/// The time.
///
/// # Errors
/// `Listen`: there is no clock.
pub(crate) fn time<W: Surroundings>(world: &W) -> Result<Instant, HostingFault> {
    match world.now() {
        Ok(now) => Ok(now),
        Err(_) => Err(HostingFault::Listen),
    }
}

/// The time so many seconds from now; `None` if the clock cannot represent it.
///
/// # Errors
/// As [`time`].
pub(crate) fn seconds_from_now<W: Surroundings>(
    world: &W,
    seconds: u64,
) -> Result<Option<Instant>, HostingFault> {
    Ok(time(world)?.checked_add(Duration::from_secs(seconds)))
}

/// The shorter of two waiting times; `None` means for ever.
pub(crate) fn shorter(first: Option<Duration>, second: Option<Duration>) -> Option<Duration> {
    match (first, second) {
        (Some(first), Some(second)) => Some(first.min(second)),
        (None, other) => other,
        (first, None) => first,
    }
}

/// The earlier of two moments.
pub(crate) fn earlier(first: Option<Instant>, second: Option<Instant>) -> Option<Instant> {
    match (first, second) {
        (Some(first), Some(second)) => Some(first.min(second)),
        (None, other) => other,
        (first, None) => first,
    }
}
