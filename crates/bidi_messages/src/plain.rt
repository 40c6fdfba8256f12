//! What stands in JSON as it is: objects without further members, and strings in which no byte is escaped.
ghost use Rattle.std.specs.Prelude.{◌≡◌, ◌++◌, IfSome, OnOk, IsTrue, string_bytes};
ghost use Rattle.json.specs.Print.{escape};
ghost use Rattle.bidi_tree.specs.Node.{no_members};
ghost use Rattle.bidi_tree.specs.Text.{compact_text};
ghost use Rattle.bidi_shape.specs.ValueLaws.{others_of};

use bidi_shape::{Ext, Shape};
use std::alloc::AllocError;

/// Whether there are no further members.
pub(crate) fn is_empty(ext: &Ext) -> bool
    ensures { IsTrue result → others_of ext.now ≡ no_members }
{
    ext.members.len() == 0
}

/// Whether a string of JSON escapes none of these bytes.
pub(crate) fn has_no_escape(text: &str) -> bool
    ensures { IsTrue result → escape text.now ≡ text.now }
{
    let mut plain = true;
    // No way out, so that many bytes are looked at at once.
    for byte in text.as_bytes() {
        plain &= (*byte >= 0x20) & (*byte != b'"') & (*byte != b'\\');
    }
    plain
}

/// Whether a string of JSON escapes none of these bytes, if there are any.
pub(crate) fn has_no_escape_if_there(text: &Option<String>) -> bool
    ensures { IsTrue result → IfSome text.now (λ t. escape (string_bytes t) ≡ string_bytes t) }
{
    match text {
        Some(text) => has_no_escape(text),
        None => true,
    }
}

/// Appends a string of JSON, or null.
pub(crate) fn push_nullable(text: &mut String, value: &Option<String>) -> Result<(), AllocError>
    requires { IfSome value.now (λ t. escape (string_bytes t) ≡ string_bytes t) }
    ensures { OnOk result (string_bytes text.new ≡ string_bytes text.old ++ compact_text (⟦<Option<String> as Shape>⟧.shape.tree_of value.now)) }
{
    match value {
        Some(value) => {
            text.push_str("\"")?;
            text.push_str(value)?;
            text.push_str("\"")
        }
        None => text.push_str("null"),
    }
}
