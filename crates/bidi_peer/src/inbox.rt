//! Bytes that came and were not taken yet.
ghost use Rattle.std.specs.Prelude.{◌≡◌, ◌≤◌, ◌<◌, ◌+◌, [], drop, length, take, vec_len, IfErr, IfOk, OnErr, OnOk};
ghost use Rattle.std.specs.Io.KnownBytes.{Consumes, IsAtEnd, Keeps};
ghost use Rattle.bidi_peer.specs.Streams.{Blocked, IsReadStop};
ghost use Rattle.bidi_peer.specs.Waiting.{IsFilled, Reads, held_in, untaken};

use super::counting::counted;
use super::stream::{Failure, Stop, Stream, read};
use super::waiting::Inbox;
use std::alloc::{AllocError, Global};

/// How many bytes a read asks for at least.
const LEAST_ROOM: usize = 4 * 1024;

/// How many bytes there is room for at first, and at most while nothing waits.
const ROOM: usize = 16 * 1024;

/// What a read of a stream gave.
#[derive(Clone, Copy, Debug, PartialEq, Eq)]
pub(crate) enum Filled {
    /// Bytes came.
    Some,
    /// Nothing came for now.
    Nothing,
    /// The stream has ended.
    Ended,
    /// The stream failed.
    Failed(Failure),
}

impl Inbox {
    /// An empty one. Takes no memory.
    pub(crate) fn new(alloc: Global) -> Inbox
        ensures { untaken result ≡ [] }
    {
        Inbox {
            alloc,
            bytes: Vec::new(alloc),
            start: 0,
            end: 0,
        }
    }

    /// The bytes that wait.
    pub(crate) fn waiting(&self) -> &[u8]
        ensures { result.now ≡ untaken self.now }
    {
        &self.bytes[self.start..self.end]
    }

    /// How many bytes of memory count for what waits.
    pub(crate) fn held(&self) -> usize
        ensures { result ≡ held_in self.now }
    {
        counted(self.end - self.start, self.bytes.capacity())
    }

    /// Takes so many bytes off the front, or all where there are fewer.
    pub(crate) fn take(&mut self, count: usize)
        ensures { untaken self.new ≡ drop count (untaken self.old) }
    {
        self.start += count.min(self.end - self.start);
        if self.start == self.end {
            self.clear();
        }
    }

    /// Takes all bytes, and gives back all room.
    pub(crate) fn give_back(&mut self)
        ensures { untaken self.new ≡ [] }
    {
        self.start = 0;
        self.end = 0;
        self.bytes = Vec::new(self.alloc);
    }

    /// Takes all bytes, and gives back what a long message needed.
    pub(crate) fn clear(&mut self)
        ensures { untaken self.new ≡ [] }
    {
        self.start = 0;
        self.end = 0;
        if self.bytes.len() > ROOM {
            self.bytes = Vec::new(self.alloc);
        }
    }

    /// Reads the stream, again while it is interrupted.
    pub(crate) fn fill<S: Stream>(&mut self, stream: &mut S) -> Result<Filled, AllocError>
        ensures reads { Reads S.remaining (untaken self.old) (untaken self.new) stream.old stream.new }
        ensures filled { IfOk result (IsFilled (S.remaining stream.new) (untaken self.old) (untaken self.new)) }
        ensures dry { IfOk result (λ filled. filled ≡ Filled.Nothing → Blocked S.reads stream.new) }
    {
        self.make_room()?;
        match self.read_once(stream) {
            Ok(0) => Ok(Filled::Ended),
            Ok(count) => {
                self.end += count;
                Ok(Filled::Some)
            }
            Err(Stop::WouldBlock) => Ok(Filled::Nothing),
            Err(Stop::Failed(failure)) => Ok(Filled::Failed(failure)),
        }
    }

    // Reads the stream into the room behind what waits.
    fn read_once<S: Stream>(&mut self, stream: &mut S) -> Result<usize, Stop>
        requires { self.old.end < vec_len self.old.bytes }
        ensures same { untaken self.new ≡ untaken self.old }
        ensures end_stays { self.new.end ≡ self.old.end }
        ensures room { vec_len self.new.bytes ≡ vec_len self.old.bytes }
        ensures fits { IfOk result (λ count. self.new.end + count ≤ vec_len self.new.bytes) }
        ensures ok { IfOk result (λ count. Consumes (S.remaining stream.old) (S.remaining stream.new) (take count (drop self.new.end self.new.bytes.items))) }
        ensures end { IfOk result (λ count. count ≡ 0 → IsAtEnd (S.remaining stream.new)) }
        ensures err { OnErr result (Keeps (S.remaining stream.old) (S.remaining stream.new)) }
        ensures stops { IfErr result (IsReadStop S.reads stream.old stream.new) }
    {
        read_behind(stream, self.bytes.as_mut_slice(), self.end)
    }

    // Makes room for a read. Only the bytes of a frame that is not whole are moved, at most once, and copied where the
    // room doubles.
    fn make_room(&mut self) -> Result<(), AllocError>
        ensures same { untaken self.new ≡ untaken self.old }
        ensures room { OnOk result (self.new.end + 4096 ≤ vec_len self.new.bytes) }
    {
        if self.bytes.len() - self.end >= LEAST_ROOM {
            return Ok(());
        }
        self.move_to_front();
        if self.bytes.len() - self.end >= LEAST_ROOM {
            return Ok(());
        }
        let room = self.bytes.len().saturating_mul(2).max(ROOM);
        self.bytes.resize(room, 0)
    }

    // Moves what waits to the front of the room.
    fn move_to_front(&mut self)
        ensures same { untaken self.new ≡ untaken self.old }
    {
        self.bytes.copy_within(self.start..self.end, 0);
        self.end -= self.start;
        self.start = 0;
    }
}

// Reads the stream into the bytes from `start` on.
fn read_behind<S: Stream>(stream: &mut S, bytes: &mut [u8], start: usize) -> Result<usize, Stop>
    requires { start < length bytes.old }
    ensures front { take start bytes.new ≡ take start bytes.old }
    ensures fits { IfOk result (λ count. start + count ≤ length bytes.new) }
    ensures ok { IfOk result (λ count. Consumes (S.remaining stream.old) (S.remaining stream.new) (take count (drop start bytes.new))) }
    ensures end { IfOk result (λ count. count ≡ 0 → IsAtEnd (S.remaining stream.new)) }
    ensures err { OnErr result (Keeps (S.remaining stream.old) (S.remaining stream.new)) }
    ensures stops { IfErr result (IsReadStop S.reads stream.old stream.new) }
{
    read(stream, &mut bytes[start..])
}
