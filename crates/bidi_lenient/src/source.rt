//! The source URL at the end of a script.
ghost use Rattle.std.specs.Prelude.{◌≡◌, ◌<◌, ◌+◌, ◌==◌, ◌&&◌, drop, get_or, length, option_map};
ghost use Rattle.bidi_lenient.specs.Source.{is_one_line, is_source, before_source, before_feed};

/// The beginning of a line that names the source of a script.
const SOURCE: &[u8] = b"//# sourceURL=";

// What is left of a script whose last line is a source URL; `None` for any other script.
pub(crate) fn before_source(script: &str) -> Option<&str>
    ensures { option_map (λ s. s.now) result ≡ before_source script.now }
{
    if is_source(script.as_bytes()) {
        Some("")
    } else {
        before_feed(script)
    }
}

// What stands before the line feed that a source URL follows.
fn before_feed(script: &str) -> Option<&str>
    ensures { option_map (λ s. s.now) result ≡ before_feed script.now }
{
    let bytes = script.as_bytes();
    let mut i = 0;
    while i < bytes.len() {
        if is_end(bytes, i) {
            return Some(&script[..i]);
        }
        i += 1;
    }
    None
}

// Whether a line feed stands at this place, and a source URL follows it.
fn is_end(bytes: &[u8], i: usize) -> bool
    requires { i < length bytes.now }
    ensures { result ≡ ((get_or bytes.now i 0 == 10) && is_source (drop (i + 1) bytes.now)) }
{
    bytes[i] == b'\n' && is_source(&bytes[i + 1..])
}

// Whether the bytes are one line that is a source URL.
fn is_source(bytes: &[u8]) -> bool
    ensures { result ≡ is_source bytes.now }
{
    bytes.starts_with(SOURCE) && is_one_line(bytes)
}

// Whether the bytes are one line: a line feed may only be the last of them.
fn is_one_line(bytes: &[u8]) -> bool
    ensures { result ≡ is_one_line bytes.now }
{
    let mut i = 0;
    while i < bytes.len() {
        if bytes[i] == b'\n' {
            return i + 1 == bytes.len();
        }
        i += 1;
    }
    true
}
