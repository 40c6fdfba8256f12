//! A navigation that is planned.
ghost use Rattle.std.specs.Prelude.{◌<◌, ◌^◌};

use crate::session_history::Move;

/// A navigation: a context moves in its session history and gets a new realm, and loses its descendants.
#[derive(Drop)]
pub struct Navigation {
    /// The number of the context.
    pub context: u64,
    /// The number of its new realm.
    pub realm: u64,
    /// Where it leads in the session history.
    pub to: Move,
    // The number of the realm can stand in an id.
    pub ghost realm_fits: { realm < 2 ^ 48 },
}
