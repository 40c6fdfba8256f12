//! Texts as JSON writes them.
ghost use Rattle.std.specs.Prelude.{◌≡◌, ◌≢◌, ◌<◌, ◌≤◌, ◌⊎◌, ◌++◌, true, false, IfOk, OnOk, string_bytes};
ghost use Rattle.json.specs.Print.{escape, quoted};

use bidi_tree::{Outline, write_outline};
use std::alloc::{AllocError, Global};

/// A text as JSON writes it, in quotes.
pub(crate) fn quote(alloc: Global, text: &str) -> Result<String, AllocError>
    ensures { IfOk result (λ s. string_bytes s ≡ quoted text.now) }
{
    let mut quoted = String::with_capacity(alloc, text.len().saturating_add(2))?;
    push_quoted(alloc, &mut quoted, text)?;
    Ok(quoted)
}

/// Adds a text as JSON writes it. One without an escape is copied once.
pub(crate) fn push_quoted(alloc: Global, out: &mut String, text: &str) -> Result<(), AllocError>
    ensures { OnOk result (string_bytes out.new ≡ string_bytes out.old ++ quoted text.now) }
{
    if has_escapes(text) {
        return out.push_str(write_outline(alloc, &Outline::Text(text))?.as_str());
    }
    out.push_str("\"")?;
    out.push_str(text)?;
    out.push_str("\"")
}

/// Whether JSON writes a byte of the text by an escape.
///
/// It looks at all of them, so that it can look at many at once. Takes no memory.
pub fn has_escapes(text: &str) -> bool
    // Without escapes, the string is written as it is; with one, it is written differently.
    ensures { (result ≡ false → escape text.now ≡ text.now) × (result ≡ true → escape text.now ≢ text.now) }
{
    let mut has_escapes = false;
    for byte in text.as_bytes() {
        has_escapes |= is_escaped(*byte);
    }
    has_escapes
}

// Whether a byte is written by an escape.
#[inline(always)]
fn is_escaped(byte: u8) -> bool
    ensures { (result ≡ false → (32 ≤ byte) × (byte ≢ 34) × (byte ≢ 92)) × (result ≡ true → (byte < 32) ⊎ ((byte ≡ 34) ⊎ (byte ≡ 92))) }
{
    (byte < 32) | (byte == b'"') | (byte == b'\\')
}
