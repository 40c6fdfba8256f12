//! A reader of lines, which holds little more of an input than one line.
ghost use Rattle.std.specs.Prelude.{◌≡◌, ◌≢◌, ◌==◌, ℕ, suc, ◌+◌, ◌≤◌, List, [], ◌∷◌, ◌++◌, false, true, length, position, take};
ghost use Rattle.std.specs.Prelude.{drop, ◌<◌, vec_len, IfOk, IfSome, IfNone, IfErr, IsTrue, MatchResult};
ghost use Rattle.std.specs.Io.KnownBytes.{IsAtEnd};
ghost use Rattle.bidi_lines.specs.Devices.{ReadsOn, TellsEnd};
ghost use Rattle.bidi_lines.specs.Feeds.{ended, has_feed};
ghost use Rattle.bidi_lines.specs.declared.line_reader.InputFault.TheVariants.{BadLine};
ghost use Rattle.bidi_lines.specs.InputLines.{BeginsBadly, IsLine, Says, SaysLent, failed_reads, given, lent, longest_line, says_of};
ghost use Rattle.bidi_lines.specs.Skipping.{SkipsLine, skips};

use super::device::Source;
use memchr::memchr;
use std::alloc::Global;
use std::marker::Model;
use thiserror::Error;

/// The most lines of an input.
pub const MOST_LINES: u64 = 1_000_000_000;

/// The most bytes of a line, without its line feed.
pub const LONGEST_LINE: usize = 2_097_152;

/// Why a line could not be read. The end of the input is not a fault.
#[derive(Clone, Copy, Debug, PartialEq, Eq, Error)]
pub enum InputFault {
    /// A read of the source failed. No byte is lost, and the next call goes on from there.
    #[error("input cannot be read")]
    Read,
    /// The line has more than 2,097,152 bytes, or the input ends without its line feed. Call
    /// [`LineReader::skip`], or give up the input.
    #[error("bad line")]
    BadLine,
    /// An allocation failed. No byte is lost, and the next call goes on from there.
    #[error("out of memory")]
    NoMemory,
}

/// What was done with a line that [`LineReader::next`] does not give.
#[derive(Drop)]
pub enum Skipped {
    /// It has more than 2,097,152 bytes. It was skipped, with its line feed.
    TooLong,
    /// It has more than 2,097,152 bytes and no line feed. It was skipped, and was the last of the input.
    TooLongLast,
    /// It has no line feed. These are all its bytes, the last of the input.
    Unended(Vec<u8>),
}

/// Reads the lines of a source one by one. In contracts its value is the bytes that it has read and not
/// handed out yet.
#[derive(Drop)]
pub struct LineReader {
    buffer: Vec<u8>,
    // How many bytes at the front of the buffer were handed out already.
    start: usize,
}

impl Model for LineReader {
    // In contracts a reader is a list of bytes.
    ghost Value = { List ℕ };

    // The bytes that were read but not handed out yet.
    ghost view = { λ r. drop r.start r.buffer.items };

    // The bytes that were handed out are part of the buffer.
    ghost invariant = { λ r. r.start ≤ vec_len r.buffer };
}

impl LineReader {
    ghost use Rattle.std.specs.Borrow.{sem};
    ghost use Rattle.std.specs.Io.BufRead.{Rests};
    ghost use Rattle.bidi_lines.specs.contracts.line_reader.LineReader.{the_row};

    /// Makes a reader that has read nothing. Takes no memory.
    pub fn new(alloc: Global) -> LineReader
        // The reader holds no bytes.
        ensures { result ≡ [] }
    {
        LineReader {
            buffer: Vec::new(alloc),
            start: 0,
        }
    }

    /// Reads the next line, without its line feed, or `None` at the end of the input.
    ///
    /// # Errors
    /// The first of these in the order of the input:
    /// 1. `Read`: a read of the source failed. The next call goes on with what was read.
    /// 2. `BadLine`: the next 2,097,153 bytes have no line feed, or the input ends with bytes that have none.
    /// 3. `NoMemory`: an allocation failed. No byte is lost.
    pub fn next<S: Source>(
        &mut self,
        alloc: Global,
        source: &mut S,
    ) -> Result<Option<Vec<u8>>, InputFault>
        // No byte is lost: the bytes held and read are those of the returned line and those held
        // now.
        ensures bytes { ReadsOn (S.left source.old) (S.left source.new) self.old (given result ++ self.new) }
        // The answer is right: a line has no line feed and at most 2,097,152 bytes, and a fault has
        // its cause.
        ensures says { Says result (S.has_ended source.new) self.new }
        // `None` comes only if no byte of the source is left.
        ensures end { IfOk result (λ found. IfNone found (IsAtEnd (S.left source.new))) }
        // The source failed once if the fault is `Read`, and not at all otherwise.
        ensures failures { MatchResult result (λ _. S.failures source.new ≡ S.failures source.old)
            (λ fault. S.failures source.new ≡ S.failures source.old + failed_reads fault) }
    {
        let Some(long) = self.find(source)? else {
            return Ok(None);
        };
        let Ok(line) = Vec::from_slice(alloc, &self.held()[..long]) else {
            return Err(InputFault::NoMemory);
        };
        self.give(long + 1);
        Ok(Some(line))
    }

    /// Lends the next line, without its line feed, or `None` at the end of the input. The line is not copied.
    ///
    /// # Errors
    /// The first of these in the order of the input:
    /// 1. `Read`: a read of the source failed. The next call goes on with what was read.
    /// 2. `BadLine`: the next 2,097,153 bytes have no line feed, or the input ends with bytes that have none.
    /// 3. `NoMemory`: an allocation failed. No byte is lost.
    pub fn lend_next<S: Source>(&mut self, source: &mut S) -> Result<Option<&[u8]>, InputFault>
        // A line that is lent has no line feed and at most 2,097,152 bytes.
        ensures line { IfOk result (λ found. IfSome found (λ line. IsLine line.now)) }
        // After the loan, the bytes held and read are those of the lent line and those held then,
        // and the answer is right: a fault has its cause.
        ensures* rests { sem 𝓛 (Rests the_row self.entry (λ held. ReadsOn (S.left source.old) (S.left source.new) self.old (lent result ++ held)
            × SaysLent result (S.has_ended source.new) held)) }
        // `None` comes only if no byte of the source is left.
        ensures end { IfOk result (λ found. IfNone found (IsAtEnd (S.left source.new))) }
        // The source failed once if the fault is `Read`, and not at all otherwise.
        ensures failures { MatchResult result (λ _. S.failures source.new ≡ S.failures source.old)
            (λ fault. S.failures source.new ≡ S.failures source.old + failed_reads fault) }
    {
        let Some(long) = self.find(source)? else {
            return Ok(None);
        };
        Ok(Some(self.hand_out(long)))
    }

    /// Skips the line that [`LineReader::next`] answered with `BadLine`.
    ///
    /// A line that is too long is thrown away as it is read, so memory holds only a chunk of it. If the input
    /// ends without a line feed, its last bytes are returned instead.
    ///
    /// # Errors
    /// 1. `Read`: a read of the source failed, and a beginning of the line was skipped. Give up the input.
    /// 2. `BadLine`: the first 2^64 - 1 bytes of the line have no line feed. They were skipped. Give up the
    ///    input.
    /// 3. `NoMemory`: an allocation failed.
    pub fn skip<S: Source>(&mut self, alloc: Global, source: &mut S) -> Result<Skipped, InputFault>
        // The reader is as `next` leaves it after `BadLine`.
        requires { BeginsBadly (S.has_ended source.old) self.old }

        // The bytes held and read are the skipped ones and those held now, as the answer says.
        ensures skips { SkipsLine (S.left source.old) (S.left source.new) self.old self.new (skips result (S.has_ended source.new)) }
        // The source failed once if the fault is `Read`, and not at all otherwise.
        ensures failures { MatchResult result (λ _. S.failures source.new ≡ S.failures source.old)
            (λ fault. S.failures source.new ≡ S.failures source.old + failed_reads fault) }
    {
        if self.held().len() > LONGEST_LINE {
            return self.skip_long(source);
        }
        let Ok(last) = Vec::from_slice(alloc, self.held()) else {
            return Err(InputFault::NoMemory);
        };
        self.give(last.len());
        Ok(Skipped::Unended(last))
    }

    // Skips what is held, and what follows up to a line feed or the end of the input.
    fn skip_long<S: Source>(&mut self, source: &mut S) -> Result<Skipped, InputFault>
        requires long { longest_line < length self.old }
        requires no_feed { has_feed (take (suc longest_line) self.old) ≡ false }
        ensures skips { SkipsLine (S.left source.old) (S.left source.new) self.old self.new (skips result (S.has_ended source.new)) }
        ensures failures { MatchResult result (λ _. S.failures source.new ≡ S.failures source.old)
            (λ fault. S.failures source.new ≡ S.failures source.old + failed_reads fault) }
    {
        'skips: for _turn in 0..u64::MAX {
            let held = self.held();
            if let Some(end) = feed_behind(held, 0) {
                self.give(end + 1);
                return Ok(Skipped::TooLong);
            }
            let seen = held.len();
            self.give(seen);
            if self.read_more(source)? == 0 {
                return Ok(Skipped::TooLongLast);
            }
        }
        Err(InputFault::BadLine)
    }

    /// Whether the input has more bytes. Reads some if none is held.
    ///
    /// # Errors
    /// - `Read`: a read of the source failed.
    /// - `NoMemory`: an allocation failed.
    pub fn goes_on<S: Source>(&mut self, source: &mut S) -> Result<bool, InputFault>
        // No byte is lost: the bytes held and read are all held now.
        ensures bytes { ReadsOn (S.left source.old) (S.left source.new) self.old self.new }
        // The result is true only if some bytes are held.
        ensures more { IfOk result (λ more. IsTrue more → self.new ≢ []) }
        // The result is false only if no bytes are held and the source has ended.
        ensures end { IfOk result (λ more. more ≡ false → (self.new ≡ []) × IsTrue (S.has_ended source.new) × IsAtEnd (S.left source.new)) }
        // A fault is `Read` or `NoMemory`, and then no bytes are held.
        ensures err { IfErr result (λ fault. (fault ≢ BadLine) × (self.new ≡ [])) }
        // The source failed once if the fault is `Read`, and not at all otherwise.
        ensures failures { MatchResult result (λ _. S.failures source.new ≡ S.failures source.old)
            (λ fault. S.failures source.new ≡ S.failures source.old + failed_reads fault) }
    {
        if !self.held().is_empty() {
            return Ok(true);
        }
        Ok(self.read_more(source)? > 0)
    }

    // The bytes that were read but not handed out yet.
    fn held(&self) -> &[u8]
        ensures { result.now ≡ self.now }
    {
        &self.buffer[self.start..]
    }

    // Reads on until the next line is held, and returns its length without its line feed, or `None`
    // at the end of the input.
    fn find<S: Source>(&mut self, source: &mut S) -> Result<Option<usize>, InputFault>
        ensures bytes { ReadsOn (S.left source.old) (S.left source.new) self.old self.new }
        ensures says { says_of (λ long. take long self.new) result (S.has_ended source.new) self.new }
        ensures front { IfOk result (λ found. IfSome found (λ long. self.new ≡ ended (take long self.new) ++ drop (long + 1) self.new)) }
        ensures within { IfOk result (λ found. IfSome found (λ long. long + 1 ≤ length self.new)) }
        ensures end { IfOk result (λ found. IfNone found (IsAtEnd (S.left source.new))) }
        ensures failures { MatchResult result (λ _. S.failures source.new ≡ S.failures source.old)
            (λ fault. S.failures source.new ≡ S.failures source.old + failed_reads fault) }
    {
        let mut seen = 0;
        'reads: loop {
            let held = self.held();
            if let Some(end) = feed_behind(held, seen) {
                return if end > LONGEST_LINE {
                    Err(InputFault::BadLine)
                } else {
                    Ok(Some(end))
                };
            }
            seen = held.len();
            if seen > LONGEST_LINE {
                return Err(InputFault::BadLine);
            }
            if self.read_more(source)? == 0 {
                return if seen == 0 {
                    Ok(None)
                } else {
                    Err(InputFault::BadLine)
                };
            }
        }
    }

    // Lends the line of this length at the front, and counts it and its line feed as handed out.
    fn hand_out(&mut self, long: usize) -> &[u8]
        requires { long < length self.old }
        ensures line { result.now ≡ take long self.old }
        ensures* rest { sem 𝓛 (Rests the_row self.entry (λ held. held ≡ drop (long + 1) self.old)) }
    {
        let begin = self.start;
        self.start += long + 1;
        &self.buffer[begin..begin + long]
    }

    // Counts so many of the held bytes as handed out.
    fn give(&mut self, n: usize)
        requires { n ≤ length self.old }
        ensures { self.new ≡ drop n self.old }
    {
        self.start += n;
    }

    // Reads once, and adds the bytes to those that are held. Drops bytes that were handed out
    // first.
    fn read_more<S: Source>(&mut self, source: &mut S) -> Result<usize, InputFault>
        ensures bytes { ReadsOn (S.left source.old) (S.left source.new) self.old self.new }
        ensures count { IfOk result (λ n. length self.new ≡ length self.old + n) }
        ensures end { IfOk result (λ n. n ≡ 0 → IsTrue (S.has_ended source.new) × IsAtEnd (S.left source.new)) }
        ensures failures { MatchResult result (λ _. S.failures source.new ≡ S.failures source.old)
            (λ fault. S.failures source.new ≡ S.failures source.old + failed_reads fault) }
        ensures err { IfErr result (λ fault. (fault ≢ BadLine) × (self.new ≡ self.old)) }
    {
        drop_front(&mut self.buffer, self.start);
        self.start = 0;
        read_some(source, &mut self.buffer)
    }
}

// The most bytes that one read asks for.
const CHUNK: usize = 65_536;

// Reads once, and adds the bytes at the end of the buffer. Reserves room before that, so that no
// byte is lost.
fn read_some<S: Source>(source: &mut S, buffer: &mut Vec<u8>) -> Result<usize, InputFault>
    ensures bytes { ReadsOn (S.left source.old) (S.left source.new) buffer.old.items buffer.new.items }
    ensures count { IfOk result (λ n. vec_len buffer.new ≡ vec_len buffer.old + n) }
    ensures end { IfOk result (λ n. n ≡ 0 → IsAtEnd (S.left source.new)) }
    ensures told { TellsEnd result CHUNK (S.has_ended source.old) (S.has_ended source.new) }
    ensures err { IfErr result (λ fault. (fault ≢ BadLine) × (buffer.new.items ≡ buffer.old.items)) }
    ensures failures { MatchResult result (λ _. S.failures source.new ≡ S.failures source.old)
        (λ fault. S.failures source.new ≡ S.failures source.old + failed_reads fault) }
{
    let held = buffer.len();
    let Ok(()) = buffer.resize(held.saturating_add(CHUNK), 0) else {
        return Err(InputFault::NoMemory);
    };
    match source.read(&mut buffer[held..]) {
        Ok(n) => {
            buffer.truncate(held + n);
            Ok(n)
        }
        Err(_) => {
            buffer.truncate(held);
            Err(InputFault::Read)
        }
    }
}

// Removes so many bytes from the front.
fn drop_front(bytes: &mut Vec<u8>, n: usize)
    requires { n ≤ vec_len bytes.old }
    ensures { bytes.new.items ≡ drop n bytes.old.items }
{
    if n > 0 {
        let rest = bytes.len() - n;
        bytes.copy_within(n.., 0);
        bytes.truncate(rest);
    }
}

// The place of the first line feed, if there is none among the first `seen` bytes.
fn feed_behind(bytes: &[u8], seen: usize) -> Option<usize>
    requires seen { seen ≤ length bytes.now }
    requires none_seen { has_feed (take seen bytes.now) ≡ false }
    ensures line { IfSome result (λ i. has_feed (take i bytes.now) ≡ false) }
    ensures some { IfSome result (λ i. bytes.now ≡ take i bytes.now ++ 10 ∷ drop (i + 1) bytes.now) }
    ensures within { IfSome result (λ i. i + 1 ≤ length bytes.now) }
    ensures none { IfNone result (has_feed bytes.now ≡ false) }
{
    let i = feed_at(&bytes[seen..])?;
    Some(seen + i)
}

// The place of the first line feed, if there is one.
fn feed_at(bytes: &[u8]) -> Option<usize>
    ensures { result ≡ position (λ b. b == 10) bytes.now }
{
    memchr(b'\n', bytes)
}
