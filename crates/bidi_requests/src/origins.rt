//! Which origins are let in.
ghost use Rattle.std.specs.Prelude.{◌≡◌, ◌≢◌, ◌++◌, ◌↔◌, List, ℕ, IsTrue, MatchOption, codes};
ghost use Rattle.bidi_requests.specs.Origins.{IsAtHost, IsLocal, IsLocalBy, IsPort, IsThisMachine};

/// Whether an origin is this machine, by http or https and at any port.
pub(crate) fn is_local(origin: &[u8]) -> bool
    ensures { IsTrue result ↔ IsLocal origin.now }
{
    is_local_by(origin, b"http://") || is_local_by(origin, b"https://")
}

// Whether an origin has this scheme, and is this machine.
fn is_local_by(origin: &[u8], scheme: &[u8]) -> bool
    ensures { IsTrue result ↔ IsLocalBy scheme.now origin.now }
{
    match behind(origin, scheme) {
        Some(place) => is_this_machine(place),
        None => false,
    }
}

// Whether a place is this machine, at any port.
fn is_this_machine(place: &[u8]) -> bool
    ensures { IsTrue result ↔ IsThisMachine place.now }
{
    is_at_host(place, b"127.0.0.1") || is_at_host(place, b"localhost")
}

// Whether a place is this host, alone or with a port.
fn is_at_host(place: &[u8], host: &[u8]) -> bool
    ensures { IsTrue result ↔ IsAtHost host.now place.now }
{
    match behind(place, host) {
        Some(port) => is_port(port),
        None => false,
    }
}

// Whether what is behind a host is a port, or nothing.
fn is_port(port: &[u8]) -> bool
    ensures { IsTrue result ↔ IsPort port.now }
{
    match port {
        [] => true,
        [b':', digits @ ..] => !digits.is_empty() && digits.iter().all(|b| b.is_ascii_digit()),
        _ => false,
    }
}

/// What is behind these bytes at the front of a text.
pub(crate) fn behind<'a>(text: &'a [u8], front: &[u8]) -> Option<&'a [u8]>
    ensures { MatchOption result ((rest : List ℕ) → text.now ≢ front.now ++ rest) (λ x. text.now ≡ front.now ++ x.now) }
{
    text.strip_prefix(front)
}
