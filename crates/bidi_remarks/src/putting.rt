//! Texts that are put behind others, as JSON writes them or as they stand.
ghost use Rattle.std.specs.Prelude.{◌≡◌, ◌++◌, OnOk};
ghost use Rattle.json.specs.Print.{escape, quoted};

use bidi_blame::has_escapes;
use json::Writer;
use std::alloc::{AllocError, Global};
use std::mem;

/// Puts a text as JSON writes it behind.
pub(crate) fn put_quoted(alloc: Global, text: &mut Vec<u8>, value: &str) -> Result<(), AllocError>
    ensures { OnOk result (text.new.items ≡ text.old.items ++ quoted value.now) }
{
    let mut out = Writer::new(mem::replace(text, Vec::new(alloc)));
    out.string(value)?;
    *text = out.into_inner();
    Ok(())
}

/// Puts the same without its quotation marks behind. One without an escape is copied once.
pub(crate) fn put_escaped(alloc: Global, text: &mut Vec<u8>, value: &str) -> Result<(), AllocError>
    ensures { OnOk result (text.new.items ≡ text.old.items ++ escape value.now) }
{
    if has_escapes(value) {
        put_within_quotes(alloc, text, value)
    } else {
        put(text, value.as_bytes())
    }
}

// Puts what JSON writes within the quotation marks behind.
fn put_within_quotes(alloc: Global, text: &mut Vec<u8>, value: &str) -> Result<(), AllocError>
    ensures { OnOk result (text.new.items ≡ text.old.items ++ escape value.now) }
{
    let mut quoted = Vec::new(alloc);
    put_quoted(alloc, &mut quoted, value)?;
    put(text, &quoted[1..quoted.len() - 1])
}

/// Puts bytes behind those that are there.
pub(crate) fn put(text: &mut Vec<u8>, bytes: &[u8]) -> Result<(), AllocError>
    ensures { OnOk result (text.new.items ≡ text.old.items ++ bytes.now) }
{
    text.extend_from_slice(bytes)
}
