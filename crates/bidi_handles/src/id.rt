//! Ids: making one, and reading the number of one.
ghost use Rattle.std.specs.Prelude.{◌≡◌, ◌<◌, ◌^◌, ℕ, true, bytes_eq, string_bytes, IfOk, IfSome, Some};
ghost use Rattle.bidi_handles.specs.Ids.{kind_number, session_in, id_bytes, id_text};
ghost use Rattle.bidi_handles.specs.declared.id.IdKind.{IdKind};

use std::alloc::{AllocError, Global};
use uuid::Uuid;

/// The kinds of things that have ids.
#[derive(Clone, Copy, Debug, PartialEq, Eq)]
pub enum IdKind {
    /// A session.
    Session,
    /// A browsing context.
    Context,
    /// A realm.
    Realm,
    /// A navigation.
    Navigation,
    /// A subscription, numbered within its session.
    Subscription,
    /// A handle of a remote value.
    Handle,
    /// A client window.
    Window,
    /// A user context other than `default`, whose id is the word `default`.
    UserContext,
}

/// Makes the id of the `n`-th thing of a kind, counted from 1. Only the id of a subscription contains
/// `session`; that of any other kind contains 0 instead.
///
/// `ssssssss-kkkk-8000-8000-nnnnnnnnnnnn`: the session, the kind and the number, in lower-case hexadecimal.
///
/// # Errors
/// No memory: an allocation failed.
///
/// After RFC 9562, 4 and 5.8; the layout of the bytes is this project's own.
pub fn id_text(alloc: Global, kind: IdKind, session: u32, n: u64) -> Result<String, AllocError>
    // The number fits in the six bytes that an id has for it.
    requires { n < 2 ^ 48 }
    // The result is the id of that kind, session and number.
    ensures { IfOk result (λ s. string_bytes s ≡ id_text kind session n) }
{
    let mut buffer = Uuid::encode_buffer();
    let text = id_of(kind, session, n)
        .hyphenated()
        .encode_lower(&mut buffer);
    String::from_str(alloc, text)
}

// Whether a string is exactly the id that `id_text` makes.
fn is_id(text: &str, kind: IdKind, session: u32, n: u64) -> bool
    requires { n < 2 ^ 48 }
    ensures { result ≡ bytes_eq text.now (id_text kind session n) }
{
    let mut buffer = Uuid::encode_buffer();
    let id = id_of(kind, session, n)
        .hyphenated()
        .encode_lower(&mut buffer);
    text == id
}

/// Reads the number of the thing of this kind that has this id. Takes no memory.
pub fn id_number(id: &str, kind: IdKind, session: u32) -> Option<u64>
    // If there is a number, it is below 2^48 and the string is exactly its id; upper-case letters
    // differ.
    ensures some { IfSome result (λ n. (n < 2 ^ 48) × (bytes_eq id.now (id_text kind session n) ≡ true)) }
    // If the string is the id of a number below 2^48, the result is that number.
    ensures every { (n : ℕ) → n < 2 ^ 48 → bytes_eq id.now (id_text kind session n) ≡ true → result ≡ Some n }
{
    let number = match Uuid::try_parse(id) {
        Ok(uuid) => number_in(uuid),
        Err(_) => return None,
    };
    if is_id(id, kind, session, number) {
        Some(number)
    } else {
        None
    }
}

// The number in the last six bytes of an id.
fn number_in(uuid: Uuid) -> u64
    ensures fits { result < 2 ^ 48 }
    ensures back { (kind : IdKind) (session n : ℕ) → n < 2 ^ 48 → uuid ≡ id_bytes kind session n → result ≡ n }
{
    let b = uuid.into_bytes();
    u64::from_be_bytes([0, 0, b[10], b[11], b[12], b[13], b[14], b[15]])
}

// The sixteen bytes of an id.
fn id_of(kind: IdKind, session: u32, n: u64) -> Uuid
    requires { n < 2 ^ 48 }
    ensures { result ≡ id_bytes kind session n }
{
    let s = session_in(kind, session).to_be_bytes();
    let k = number_of(kind).to_be_bytes();
    let n = n.to_be_bytes();
    Uuid::new_v8([
        s[0], s[1], s[2], s[3], k[0], k[1], 0x80, 0, 0x80, 0, n[2], n[3], n[4], n[5], n[6], n[7],
    ])
}

/// The session that an id of this kind contains: 0 except for a subscription.
fn session_in(kind: IdKind, session: u32) -> u32
    ensures { result ≡ session_in kind session }
{
    match kind {
        IdKind::Subscription => session,
        _ => 0,
    }
}

/// The number that an id of this kind contains.
fn number_of(kind: IdKind) -> u16
    ensures { result ≡ kind_number kind }
{
    match kind {
        IdKind::Session => 1,
        IdKind::Context => 2,
        IdKind::Realm => 3,
        IdKind::Navigation => 4,
        IdKind::Subscription => 5,
        IdKind::Handle => 6,
        IdKind::Window => 7,
        IdKind::UserContext => 8,
    }
}
