//! Bytes that wait to be written.
ghost use Rattle.std.specs.Prelude.{◌≡◌, ◌<◌, ◌↔◌, ◌⊎◌, ◌-◌, ◌^◌, ◌++◌, [], drop, length, min, IsFalse, IsTrue, OnOk};
ghost use Rattle.bidi_peer.specs.Streams.{Blocked};
ghost use Rattle.bidi_peer.specs.Waiting.{Writes, held_out, unwritten};

use super::counting::{KEPT, counted};
use super::stream::{Failure, Stop, Stream, write};
use super::waiting::Outbox;
use std::alloc::{AllocError, Global};
use std::mem;

impl Outbox {
    /// An empty one. Takes no memory.
    pub(crate) fn new(alloc: Global) -> Outbox
        ensures { unwritten result ≡ [] }
    {
        Outbox {
            alloc,
            first: Vec::new(alloc),
            sent: 0,
            second: Vec::new(alloc),
        }
    }

    /// How many bytes wait.
    pub(crate) fn len(&self) -> usize
        ensures { result ≡ length (unwritten self.now) }
    {
        (self.first.len() - self.sent).saturating_add(self.second.len())
    }

    /// How many bytes of memory count for what waits.
    pub(crate) fn held(&self) -> usize
        ensures { result ≡ min (held_out self.now) (2 ^ 64 - 1) }
    {
        let first = counted(self.first.len() - self.sent, self.first.capacity());
        first.saturating_add(counted(self.second.len(), self.second.capacity()))
    }

    /// Whether no byte waits.
    pub(crate) fn is_empty(&self) -> bool
        ensures { IsTrue result ↔ (unwritten self.now ≡ []) }
    {
        self.len() == 0
    }

    /// Makes room for so many bytes behind what waits.
    ///
    /// A block of more than 64 KiB grows by an eighth at most, unless more bytes are asked for, so that little of it is
    /// unused.
    pub(crate) fn make_room(&mut self, more: usize) -> Result<(), AllocError>
        ensures { unwritten self.new ≡ unwritten self.old }
    {
        let len = self.second.len();
        if more <= self.second.capacity() - len {
            return Ok(());
        }
        let growth = if len > KEPT { len / 8 } else { len };
        self.second.reserve_exact(more.max(growth))
    }

    /// Puts bytes behind what waits.
    pub(crate) fn put(&mut self, bytes: &[u8]) -> Result<(), AllocError>
        ensures { OnOk result (unwritten self.new ≡ unwritten self.old ++ bytes.now) }
    {
        self.second.extend_from_slice(bytes)
    }

    /// Drops what waits.
    pub(crate) fn clear(&mut self)
        ensures { unwritten self.new ≡ [] }
    {
        self.sent = 0;
        self.first = Vec::new(self.alloc);
        self.second = Vec::new(self.alloc);
    }

    /// Writes what waits, as far as the stream takes it.
    ///
    /// # Errors
    /// The stream failed.
    pub(crate) fn write_to<S: Stream>(&mut self, stream: &mut S) -> Result<(), Failure>
        ensures writes { Writes S.contents (unwritten self.old) (unwritten self.new) stream.old stream.new }
        ensures rests { OnOk result ((unwritten self.new ≡ []) ⊎ Blocked S.writes stream.new) }
    {
        while self.has_first() {
            match write(stream, self.rest()) {
                Ok(count) => self.sent += count,
                Err(Stop::WouldBlock) => return Ok(()),
                Err(Stop::Failed(failure)) => return Err(failure),
            }
        }
        Ok(())
    }

    // What waits in front.
    fn rest(&self) -> &[u8]
        ensures { result.now ≡ drop self.now.sent self.now.first.items }
    {
        &self.first[self.sent..]
    }

    // Brings what waits to the front where all before it was written. Tells whether something waits.
    fn has_first(&mut self) -> bool
        ensures same { unwritten self.new ≡ unwritten self.old }
        ensures some { IsTrue result → 0 < length (drop self.new.sent self.new.first.items) }
        ensures none { IsFalse result → unwritten self.new ≡ [] }
    {
        if self.sent == self.first.len() {
            self.sent = 0;
            self.first.clear();
            if self.first.capacity() > KEPT {
                self.first = Vec::new(self.alloc);
            }
            mem::swap(&mut self.first, &mut self.second);
        }
        !self.first.is_empty()
    }
}
