//! Sources and sinks of bytes, which count how often they failed.
ghost use Rattle.std.specs.Prelude.{◌≡◌, ℕ, ◌+◌, ◌≤◌, Bool, false, length, List, Option, None, IfOk, OnOk, OnErr};
ghost use Rattle.std.specs.Io.KnownBytes.{Appends, ReadConsumes, WriteAppends};
ghost use Rattle.bidi_lines.specs.Devices.{AppendsBeginning, CountsFailure, TellsEnd, WritesSome, failures_of, has_told_end, inner_of};

use super::tally::Tally;
use std::io::{Read, Write};
use thiserror::Error;

/// A read or a write of a device failed. The same call may be made again, unless its own docs say otherwise.
#[derive(Clone, Copy, Debug, PartialEq, Eq, Error)]
#[error("a device failed")]
pub struct DeviceFault;

/// A source of bytes: like `Read` of `std`, but contracts can name the bytes and count the failures.
pub trait Source {
    // The bytes that are left to be read, if they are known.
    ghost left: { Self → Option (List ℕ) } = { λ _. None };
    // How often a read failed.
    ghost failures: { Self → ℕ };
    // Whether a read has reported the end.
    ghost has_ended: { Self → Bool };

    /// Reads some bytes into the front of `buffer`, and returns how many.
    ///
    /// If `buffer` is not empty, 0 bytes mean the end. Takes no memory.
    ///
    /// # Errors
    /// `DeviceFault`: the device failed. No byte is lost, and a later read may succeed.
    fn read(&mut self, buffer: &mut [u8]) -> Result<usize, DeviceFault>
        // A read returns at most as many bytes as the buffer has room for.
        ensures bound { IfOk result (λ n. n ≤ length buffer.new) }
        // Known bytes are read in order: the buffer gets them from the front, and an error takes
        // none.
        ensures bytes { ReadConsumes (left self.old) (left self.new) result buffer.new }
        // An error adds one to the count of failures, and an Ok adds none.
        ensures counts { CountsFailure result (failures self.old) (failures self.new) }
        // The end is reported exactly by a read of 0 bytes into a buffer that is not empty.
        ensures ends { TellsEnd result (length buffer.new) (has_ended self.old) (has_ended self.new) };
}

/// A sink of bytes: like `Write` of `std`, but contracts can name the bytes and count the failures.
pub trait Sink {
    // The bytes that the sink holds, if they are known.
    ghost contents: { Self → Option (List ℕ) } = { λ _. None };
    // How often a write failed.
    ghost failures: { Self → ℕ };

    /// Writes some bytes from the front of `bytes`, at least one if there is one, and returns how many.
    ///
    /// Takes no memory.
    ///
    /// # Errors
    /// `DeviceFault`: the device failed. No byte is written, and a later write may succeed.
    fn write(&mut self, bytes: &[u8]) -> Result<usize, DeviceFault>
        // A write takes at most all of the bytes, and at least one if there is one.
        ensures bound { IfOk result (λ n. WritesSome n (length bytes.now)) }
        // Known contents grow at the end by exactly the bytes that were taken, and an error adds
        // none.
        ensures bytes { WriteAppends (contents self.old) (contents self.new) result bytes.now }
        // An error adds one to the count of failures, and an Ok adds none.
        ensures counts { CountsFailure result (failures self.old) (failures self.new) };
}

/// A source over a reader of `std`, or a sink over a writer. It counts its failures for contracts.
#[derive(Drop)]
pub struct Device<T> {
    inner: T,
    has_ended: bool,
    failures: Tally,
}

impl<T> Device<T> {
    /// Makes a device over a reader or a writer.
    pub fn new(inner: T) -> Device<T>
        // The device has that reader or writer inside.
        ensures inner { inner_of result ≡ inner }
        // The device has not failed yet.
        ensures failures { failures_of result ≡ 0 }
        // The device has not reported its end yet.
        ensures not_ended { has_told_end result ≡ false }
    {
        Device {
            inner,
            has_ended: false,
            failures: Tally::new(),
        }
    }

    // Counts one more failure, for contracts.
    fn fail(&mut self) -> DeviceFault
        ensures failures { failures_of self.new ≡ failures_of self.old + 1 }
        ensures inner { inner_of self.new ≡ inner_of self.old }
        ensures ended { has_told_end self.new ≡ has_told_end self.old }
    {
        self.failures = Tally::then(&self.failures);
        DeviceFault
    }
}

impl<T: Read> Source for Device<T> {
    ghost left = { λ d. T.remaining (inner_of d) };

    ghost failures = { failures_of };

    ghost has_ended = { has_told_end };

    fn read(&mut self, buffer: &mut [u8]) -> Result<usize, DeviceFault> {
        match self.inner.read(buffer) {
            Ok(n) => {
                if n == 0 && !buffer.is_empty() {
                    self.has_ended = true;
                }
                Ok(n)
            }
            Err(_) => Err(self.fail()),
        }
    }
}

impl<T: Write> Sink for Device<T> {
    ghost contents = { λ d. T.contents (inner_of d) };

    ghost failures = { failures_of };

    fn write(&mut self, bytes: &[u8]) -> Result<usize, DeviceFault> {
        match self.inner.write(bytes) {
            Ok(n) if n > 0 || bytes.is_empty() => Ok(n),
            _ => Err(self.fail()),
        }
    }
}

/// A sink that takes all bytes and keeps none, for answers that nobody reads.
#[derive(Drop)]
pub struct Nowhere;

impl Sink for Nowhere {
    ghost failures = { λ _. 0 };

    fn write(&mut self, bytes: &[u8]) -> Result<usize, DeviceFault> {
        Ok(bytes.len())
    }
}

/// Writes all of the bytes, in as many writes as that needs.
///
/// # Errors
/// `DeviceFault`: a write failed. It may have written a beginning of the bytes, so a second call would write
/// that twice.
pub fn write_all<W: Sink>(sink: &mut W, bytes: &[u8]) -> Result<(), DeviceFault>
    // After an Ok, known contents have grown by all of the bytes.
    ensures ok { OnOk result (Appends (W.contents sink.old) (W.contents sink.new) bytes.now) }
    // After an error, known contents have grown by a beginning of the bytes, and not by all of
    // them.
    ensures err { OnErr result (AppendsBeginning (W.contents sink.old) (W.contents sink.new) bytes.now) }
    // An error adds one to the count of failures, and an Ok adds none.
    ensures counts { CountsFailure result (W.failures sink.old) (W.failures sink.new) }
{
    let mut rest = bytes;
    'writes: while !rest.is_empty() {
        let n = sink.write(rest)?;
        rest = &rest[n..];
    }
    Ok(())
}
