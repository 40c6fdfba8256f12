//! Header fields.
ghost use Rattle.std.specs.Prelude.{◌≡◌};
ghost use Rattle.websocket.specs.Headers.{eq_ignore_case};

/// The most fields of a head, and of what follows the last chunk of a body.
pub(crate) const MOST_FIELDS: usize = 124;

/// Whether two names are the same, in any case.
pub(crate) fn is_same(name: &[u8], other: &[u8]) -> bool
    ensures { result ≡ eq_ignore_case name.now other.now }
{
    name.eq_ignore_ascii_case(other)
}
