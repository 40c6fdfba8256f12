//! Bodies that come in chunks: RFC 9112, 7.1.
ghost use Rattle.std.specs.Prelude.{◌≡◌, ◌≤◌, ◌<◌, ◌+◌, ◌↔◌, ℕ, IfOk, IsTrue, drop, length, take};
ghost use Rattle.httparse.specs.Grammar.{ChunkLine, crlf, print_end};
ghost use Rattle.httparse.specs.Spans.{IsChunkLineAt};
ghost use Rattle.bidi_requests.specs.Bodies.{IsChunkedAs, IsReadAs, IsStep, most_body};
ghost use Rattle.bidi_requests.specs.Extensions.{AreExtensions, behind_size};

use super::answering::Answer;
use super::calling::MOST_BODY;
use super::extensions::is_extended;
use super::fields::MOST_FIELDS;
use httparse::spans::{EMPTY_HEADER_SPAN, parse_headers};
use httparse::{Status, parse_chunk_size};
use std::alloc::{AllocError, Global};

/// The most bytes of a body with what frames its chunks, trailers included: enough for chunks of one byte.
const MOST_FRAMED: usize = 512 * 1024;

/// What the bytes after a head are, as a body in chunks.
#[derive(Drop)]
pub(crate) enum Chunked {
    /// The beginning of such a body.
    Part,
    /// Such a body, of so many bytes with its chunks.
    Whole { body: Vec<u8>, length: usize },
    /// None that is taken, with the answer.
    Refused(Answer),
}

/// What is at the front of some bytes, in a body in chunks.
#[derive(Clone, Copy)]
enum Step {
    /// The beginning of a chunk, or of the end of the body.
    Part,
    /// A chunk: where its data begins, and how much there is.
    Chunk { start: usize, size: usize },
    /// The end of the body, which has so many bytes.
    Last(usize),
    /// Neither, with the answer.
    Refused(Answer),
}

/// Reads a body in chunks, which begins with these bytes. The bytes behind the most that it may have are not looked at, so
/// the result does not depend on how many of them are there.
pub(crate) fn read_chunked(alloc: Global, bytes: &[u8]) -> Result<Chunked, AllocError>
    ensures { IfOk result (IsChunkedAs bytes.now) }
{
    let (framed, _) = bytes.split_at(MOST_FRAMED.min(bytes.len()));
    match read_all(alloc, framed)? {
        Chunked::Part if bytes.len() < MOST_FRAMED => Ok(Chunked::Part),
        Chunked::Part => Ok(Chunked::Refused(Answer::TooLong)),
        Chunked::Whole { body, length } => Ok(Chunked::Whole { body, length }),
        Chunked::Refused(answer) => Ok(Chunked::Refused(answer)),
    }
}

// Reads a body in chunks in these bytes.
fn read_all(alloc: Global, bytes: &[u8]) -> Result<Chunked, AllocError>
    ensures { IfOk result (IsReadAs bytes.now) }
{
    let mut body: Vec<u8> = Vec::new(alloc);
    let mut at: usize = 0;
    for _ in 0..=MOST_BODY {
        let (_, rest) = bytes.split_at(at);
        match step_at(rest, MOST_BODY - body.len()) {
            Step::Part => return Ok(Chunked::Part),
            Step::Chunk { start, size } => {
                let (_, data) = rest.split_at(start);
                let (data, _) = data.split_at(size);
                body.extend_from_slice(data)?;
                at += start + size + 2;
            }
            Step::Last(length) => {
                return Ok(Chunked::Whole {
                    body,
                    length: at + length,
                });
            }
            Step::Refused(answer) => return Ok(Chunked::Refused(answer)),
        }
    }
    // Each chunk has a byte at least.
    unreachable!()
}

// What is at the front of these bytes, if a body may have so many more.
fn step_at(bytes: &[u8], room: usize) -> Step
    requires { room ≤ most_body }
    ensures { IsStep bytes.now room result }
{
    match parse_chunk_size(bytes) {
        Ok(Status::Complete((start, size))) => {
            if is_extended_at(bytes, start) {
                sized_at(bytes, start, size, room)
            } else {
                Step::Refused(Answer::BadBody)
            }
        }
        Ok(Status::Partial) => Step::Part,
        Err(_) => Step::Refused(Answer::BadBody),
    }
}

// Whether the line of a chunk, which ends here, has extensions or none behind its size.
fn is_extended_at(bytes: &[u8], start: usize) -> bool
    requires line { (size : ℕ) × (l : ChunkLine) × IsChunkLineAt bytes.now start size l }
    ensures { (size : ℕ) (l : ChunkLine) → IsChunkLineAt bytes.now start size l → IsTrue result ↔ AreExtensions (behind_size l) }
{
    let (line, _) = bytes.split_at(start - 2);
    is_extended(line)
}

// What the line of a chunk begins, which ends here and gives this size, if a body may have so many more bytes.
fn sized_at(bytes: &[u8], start: usize, size: u64, room: usize) -> Step
    requires line { (l : ChunkLine) × IsChunkLineAt bytes.now start size l × AreExtensions (behind_size l) }
    requires inside { start ≤ length bytes.now }
    requires few { room ≤ most_body }
    ensures { IsStep bytes.now room result }
{
    if size == 0 {
        last_at(bytes, start)
    } else if size > room as u64 {
        Step::Refused(Answer::TooLong)
    } else {
        chunk_at(bytes, start, size as usize)
    }
}

// The chunk whose data begins here and has this size.
fn chunk_at(bytes: &[u8], start: usize, size: usize) -> Step
    requires line { (l : ChunkLine) × IsChunkLineAt bytes.now start size l × AreExtensions (behind_size l) }
    requires inside { start ≤ length bytes.now }
    requires some { 0 < size }
    requires short { size ≤ most_body }
    ensures { (room : ℕ) → size ≤ room → IsStep bytes.now room result }
{
    let (_, rest) = bytes.split_at(start);
    if rest.len() < size + 2 {
        Step::Part
    } else if is_ended(rest, size) {
        Step::Chunk { start, size }
    } else {
        Step::Refused(Answer::BadBody)
    }
}

// Whether a line end follows so many bytes.
fn is_ended(bytes: &[u8], size: usize) -> bool
    requires inside { size + 2 ≤ length bytes.now }
    requires short { size ≤ most_body }
    ensures { IsTrue result ↔ (take 2 (drop size bytes.now) ≡ print_end crlf) }
{
    let (_, rest) = bytes.split_at(size);
    let (end, _) = rest.split_at(2);
    end == b"\r\n".as_slice()
}

// The end of a body, after the line of its last chunk.
fn last_at(bytes: &[u8], start: usize) -> Step
    requires line { (l : ChunkLine) × IsChunkLineAt bytes.now start 0 l × AreExtensions (behind_size l) }
    requires inside { start ≤ length bytes.now }
    ensures { (room : ℕ) → IsStep bytes.now room result }
{
    let mut spans = [EMPTY_HEADER_SPAN; MOST_FIELDS];
    let (_, rest) = bytes.split_at(start);
    match parse_headers(rest, &mut spans) {
        Ok(Status::Complete((length, _))) => Step::Last(start + length),
        Ok(Status::Partial) => Step::Part,
        Err(_) => Step::Refused(Answer::BadBody),
    }
}
