//! A source that remembers the line that is being read, so that a run over it can be explained.
ghost use Rattle.std.specs.Prelude.{◌≡◌};

use bidi_lines::{DeviceFault, Source};
use std::alloc::{AllocError, Global};

/// A source over another one, which remembers what was read last: the bytes of the last read, and before them the
/// beginning of the line that the read went on with.
///
/// A run over lines reads on only if it has taken every whole line. So the line at which it stops is among them.
#[derive(Drop)]
pub struct Recent<S> {
    inner: S,
    bytes: Vec<u8>,
    // Whether there was no memory for a part of the line.
    is_lost: bool,
    // The byte before the first line feed, if there was one.
    first_end: Option<u8>,
}

impl<S> Recent<S> {
    /// A source over this one, of which nothing was read. Takes no memory.
    pub fn new(alloc: Global, inner: S) -> Recent<S>
        // It reads from the given source.
        ensures { result.inner ≡ inner }
    {
        Recent {
            inner,
            bytes: Vec::new(alloc),
            is_lost: false,
            first_end: None,
        }
    }

    /// What was read last, from the beginning of a line on. Empty if there was no memory for it.
    pub fn recent(&self) -> &[u8] {
        if self.is_lost { &[] } else { &self.bytes }
    }

    /// Whether the first line ends in a carriage return.
    pub fn has_return(&self) -> bool {
        self.first_end == Some(b'\r')
    }

    // Remembers bytes that were read.
    fn keep(&mut self, read: &[u8])
        ensures { self.new.inner ≡ self.old.inner }
    {
        if !self.is_lost && self.add(read).is_err() {
            self.is_lost = true;
        }
    }

    // Adds bytes behind the beginning of the line that they go on with.
    fn add(&mut self, read: &[u8]) -> Result<(), AllocError>
        ensures { self.new.inner ≡ self.old.inner }
    {
        if let Some(end) = self.bytes.iter().rposition(|b| *b == b'\n') {
            let rest = self.bytes.len() - end - 1;
            self.bytes.copy_within(end + 1.., 0);
            self.bytes.truncate(rest);
        }
        self.bytes.extend_from_slice(read)?;
        if self.first_end.is_none() {
            self.first_end = before_feed(&self.bytes);
        }
        Ok(())
    }
}

// The byte before the first line feed, if there is one.
fn before_feed(bytes: &[u8]) -> Option<u8> {
    let end = bytes.iter().position(|b| *b == b'\n')?;
    if end == 0 {
        return None;
    }
    Some(bytes[end - 1])
}

impl<S: Source> Source for Recent<S> {
    ghost left = { λ r. S.left r.inner };

    ghost failures = { λ r. S.failures r.inner };

    ghost has_ended = { λ r. S.has_ended r.inner };

    fn read(&mut self, buffer: &mut [u8]) -> Result<usize, DeviceFault> {
        let n = self.inner.read(buffer)?;
        self.keep(&buffer[..n]);
        Ok(n)
    }
}
