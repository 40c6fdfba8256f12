//! Streams that never wait, and single calls of them.
ghost use Rattle.std.specs.Prelude.{◌≡◌, ◌<◌, ℕ, Result, Some, Ok, IfErr, IfOk, length};
ghost use Rattle.std.specs.Io.{ReadsAtMost, WritesAtMost};
ghost use Rattle.std.specs.Io.KnownBytes.{Keeps, ReadConsumes, WriteAppends};
ghost use Rattle.std.specs.IoError.{error_kind};
ghost use Rattle.bidi_peer.specs.Streams.{IsReadStop, IsStopOf, IsWriteStop, answer_of};
ghost use Rattle.std.specs.declared.io.ErrorKind.{ErrorKind};

use std::io;
use std::io::{Error, ErrorKind, Read, Write};

/// A stream whose calls answer at once. Whatever can be read and written is one.
///
/// [`Read`] and [`Write`] say what a call does to the bytes. This trait also says which call it was, so that a contract can
/// speak of the last call of a stream.
pub trait Stream: Read + Write + Drop {
    // A read with this answer leads from the first state of the stream to the second.
    ghost reads: { Self → Result ℕ ErrorKind → Self → Type 0 };

    // A write with this answer leads from the first state of the stream to the second.
    ghost writes: { Self → Result ℕ ErrorKind → Self → Type 0 };

    /// Reads once.
    fn read_now(&mut self, bytes: &mut [u8]) -> io::Result<usize>
        // As of [`Read::read`].
        ensures bound { ReadsAtMost result bytes.new }
        // As of [`Read::read`].
        ensures bytes { ReadConsumes (Self.remaining self.old) (Self.remaining self.new) result bytes.new }
        // It was a read with this answer.
        ensures call { reads self.old (answer_of result) self.new };

    /// Writes once.
    fn write_now(&mut self, bytes: &[u8]) -> io::Result<usize>
        // As of [`Write::write`].
        ensures bound { WritesAtMost result bytes.now }
        // As of [`Write::write`].
        ensures bytes { WriteAppends (Self.contents self.old) (Self.contents self.new) result bytes.now }
        // It was a write with this answer.
        ensures call { writes self.old (answer_of result) self.new };
}

impl<S: Read + Write + Drop> Stream for S {
    ghost reads = { λ old answer new. Unit {0} };

    ghost writes = { λ old answer new. Unit {0} };

    fn read_now(&mut self, bytes: &mut [u8]) -> io::Result<usize> {
        self.read(bytes)
    }

    fn write_now(&mut self, bytes: &[u8]) -> io::Result<usize> {
        self.write(bytes)
    }
}

/// The stream failed. Only a call in this file makes one, from what the stream answered.
#[derive(Clone, Copy, Debug, PartialEq, Eq)]
pub(crate) struct Failure(());

/// Why a call moved no bytes.
#[derive(Clone, Copy)]
pub(crate) enum Stop {
    /// The stream can do nothing now.
    WouldBlock,
    /// The stream failed.
    Failed(Failure),
}

/// Reads the stream, again while it is interrupted.
#[tactic(auto, using(crate::proofs::StreamLemmas::keeps_self, crate::proofs::StreamLemmas::keeps_then, crate::proofs::StreamLemmas::consumes_later, crate::proofs::StreamLemmas::read_stopped, crate::proofs::StreamLemmas::interrupted))]
pub(crate) fn read<S: Stream>(stream: &mut S, bytes: &mut [u8]) -> Result<usize, Stop>
    ensures bound { ReadsAtMost result bytes.new }
    ensures bytes { ReadConsumes (S.remaining stream.old) (S.remaining stream.new) result bytes.new }
    ensures stops { IfErr result (IsReadStop S.reads stream.old stream.new) }
{
    for _ in 0..usize::MAX {
        match stream.read_now(bytes) {
            Ok(count) => return Ok(count),
            Err(error) => {
                if let Some(stop) = stop_of(&error) {
                    return Err(stop);
                }
            }
        }
    }
    Err(Stop::Failed(Failure(())))
}

/// Writes some bytes to the stream, again while it is interrupted. A stream that takes none of them has failed.
#[tactic(auto, using(crate::proofs::StreamLemmas::keeps_self, crate::proofs::StreamLemmas::keeps_then, crate::proofs::StreamLemmas::appends_later, crate::proofs::StreamLemmas::write_stopped, crate::proofs::StreamLemmas::interrupted))]
pub(crate) fn write<S: Stream>(stream: &mut S, bytes: &[u8]) -> Result<usize, Stop>
    requires { 0 < length bytes.now }
    ensures bound { WritesAtMost result bytes.now }
    ensures some { IfOk result (λ count. 0 < count) }
    ensures bytes { WriteAppends (S.contents stream.old) (S.contents stream.new) result bytes.now }
    ensures stops { IfErr result (IsWriteStop S.writes stream.old stream.new) }
{
    for _ in 0..usize::MAX {
        match stream.write_now(bytes) {
            Ok(0) => return Err(Stop::Failed(Failure(()))),
            Ok(count) => return Ok(count),
            Err(error) => {
                if let Some(stop) = stop_of(&error) {
                    return Err(stop);
                }
            }
        }
    }
    Err(Stop::Failed(Failure(())))
}

// Why a call of the stream gave this error, unless it was interrupted.
fn stop_of(error: &Error) -> Option<Stop>
    ensures { IsStopOf (error_kind error.now) result }
{
    match error.kind() {
        ErrorKind::Interrupted => None,
        ErrorKind::WouldBlock => Some(Stop::WouldBlock),
        _ => Some(Stop::Failed(Failure(()))),
    }
}
