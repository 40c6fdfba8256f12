//! The numbers of a navigation.
ghost use Rattle.std.specs.Prelude.{◌<◌, ◌^◌};

/// The numbers that a navigation uses.
#[derive(Clone, Copy)]
pub(crate) struct Numbers {
    /// The number of the navigation.
    pub navigation: u64,
    /// The number of the realm that it begins.
    pub realm: u64,
    ghost navigation_fits: { navigation < 2 ^ 48 },
    ghost realm_fits: { realm < 2 ^ 48 },
}
