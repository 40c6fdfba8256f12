//! The resource that a request target names.
ghost use Rattle.std.specs.Prelude.{◌≡◌, ◌↔◌, IfOk, IsUtf8, IsTrue, string_bytes};
ghost use Rattle.bidi_requests.specs.Targets.{IsOfSession, IsSocketResource, after_authority, ends_authority, has_slash, is_absolute, resource_of};

use super::fields::is_same;
use super::origins::behind;
use std::alloc::{AllocError, Global};
use std::str;

/// How the absolute form of a target begins.
const SCHEME: &[u8] = b"http://";

/// The resource that a target names, as a text.
pub(crate) fn resource_text(alloc: Global, target: &[u8]) -> Result<String, AllocError>
    requires { IsUtf8 target.now }
    ensures { IfOk result (λ text. string_bytes text ≡ resource_of target.now) }
{
    match str::from_utf8(resource_of(target)) {
        Ok(resource) => String::from_str(alloc, resource),
        // What follows an authority begins with an ASCII byte.
        Err(_) => unreachable!(),
    }
}

/// The resource that a target names.
pub(crate) fn resource_of(target: &[u8]) -> &[u8]
    ensures { result.now ≡ resource_of target.now }
{
    if is_absolute(target) {
        let (_, rest) = target.split_at(target.len().min(7));
        after_authority(rest)
    } else {
        target
    }
}

// Whether a target is in absolute form.
fn is_absolute(target: &[u8]) -> bool
    ensures { result ≡ is_absolute target.now }
{
    let (front, _) = target.split_at(target.len().min(7));
    is_same(front, SCHEME)
}

// What follows the authority at the front of these bytes.
fn after_authority(bytes: &[u8]) -> &[u8]
    ensures { result.now ≡ after_authority bytes.now }
{
    for at in 0..bytes.len() {
        if ends_authority(bytes[at]) {
            let (_, rest) = bytes.split_at(at);
            return rest;
        }
    }
    let (_, rest) = bytes.split_at(bytes.len());
    rest
}

// Whether a byte ends an authority.
fn ends_authority(byte: u8) -> bool
    ensures { result ≡ ends_authority byte }
{
    byte == b'/' || byte == b'?' || byte == b'#'
}

/// Whether WebSockets are opened at a resource: `/session`, `/session/ID` or `/page`.
pub(crate) fn is_of_sockets(resource: &[u8]) -> bool
    ensures { IsTrue result ↔ IsSocketResource resource.now }
{
    resource == b"/session".as_slice() || resource == b"/page".as_slice() || is_of_session(resource)
}

/// Whether a resource is that of a session: `/session/` and an id without a slash. Takes no memory.
pub fn is_of_session(resource: &[u8]) -> bool
    // True exactly if the resource has this form.
    ensures { IsTrue result ↔ IsOfSession resource.now }
{
    match behind(resource, b"/session/") {
        Some(id) => !has_slash(id),
        None => false,
    }
}

// Whether bytes have a slash.
fn has_slash(bytes: &[u8]) -> bool
    ensures { result ≡ has_slash bytes.now }
{
    bytes.iter().any(|byte| *byte == b'/')
}
