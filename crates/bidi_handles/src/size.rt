//! The size of a tree: its levels, and the bytes of its compact text.
ghost use Rattle.std.specs.Prelude.{◌≡◌, ◌<◌, ◌+◌, length, max, nat_lt};
ghost use Rattle.std.specs.Fmt.{signed_decimal};
ghost use Rattle.json.specs.Print.{escape_byte, escape_letter, quoted};
ghost use Rattle.bidi_handles.specs.Sizes.{counted};

use itoa::Buffer;

/// The size of a tree. A count that does not fit in 64 bits stops at the greatest `u64`.
#[derive(Clone, Copy)]
pub(crate) struct Size {
    /// How deep arrays and objects nest.
    pub levels: u64,
    /// The bytes of the compact text.
    pub bytes: u64,
}

impl Size {
    /// The size of a tree of so many bytes that is not an array or an object.
    pub(crate) fn flat(bytes: u64) -> Size
        ensures levels { result.levels ≡ 0 }
        ensures bytes { result.bytes ≡ bytes }
    {
        Size { levels: 0, bytes }
    }

    /// The size with one more item after those so far; `before` counts the bytes that separate them.
    pub(crate) fn and(self, before: u64, item: Size) -> Size
        ensures levels { result.levels ≡ max self.levels item.levels }
        ensures bytes { result.bytes ≡ counted (counted (self.bytes + before) + item.bytes) }
    {
        Size {
            levels: if self.levels < item.levels {
                item.levels
            } else {
                self.levels
            },
            bytes: self.bytes.saturating_add(before).saturating_add(item.bytes),
        }
    }

    /// The size of an array or an object of these items: one more level, and two brackets.
    pub(crate) fn in_brackets(self) -> Size
        ensures levels { result.levels ≡ counted (self.levels + 1) }
        ensures bytes { result.bytes ≡ counted (self.bytes + 2) }
    {
        Size {
            levels: self.levels.saturating_add(1),
            bytes: self.bytes.saturating_add(2),
        }
    }
}

/// The bytes of a string in JSON, with its quotation marks and escapes.
pub(crate) fn quoted_bytes(text: &str) -> u64
    ensures { result ≡ counted (length (quoted text.now)) }
{
    let mut bytes = 2u64;
    for byte in text.as_bytes() {
        bytes = bytes.saturating_add(escaped_bytes(*byte));
    }
    bytes
}

// The bytes that JSON needs for one byte of a string.
fn escaped_bytes(byte: u8) -> u64
    ensures { result ≡ length (escape_byte byte) }
{
    if has_letter(byte) {
        2
    } else if byte < 32 {
        6
    } else {
        1
    }
}

// Whether a byte is escaped by a backslash and one character.
fn has_letter(byte: u8) -> bool
    ensures { result ≡ nat_lt 0 (escape_letter byte) }
{
    byte == 34 || byte == 92 || byte == 8 || byte == 12 || byte == 10 || byte == 13 || byte == 9
}

/// The bytes of a whole number in decimal, with its sign.
pub(crate) fn decimal_bytes(value: i64) -> u64
    ensures { result ≡ length (signed_decimal value) }
{
    let mut buffer = Buffer::new();
    buffer.format(value).len() as u64
}
