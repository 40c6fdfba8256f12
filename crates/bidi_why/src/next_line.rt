//! The next line of an input, however long it is.
ghost use Rattle.std.specs.Prelude.{◌≡◌, ◌+◌, MatchResult};
ghost use Rattle.bidi_lines.specs.InputLines.{failed_reads};
ghost use Rattle.bidi_lines.specs.Skipping.{SkipsLine};
ghost use Rattle.bidi_why.specs.Input.{finds, found_of};

use bidi_lines::{InputFault, LineReader, Skipped, Source};
use std::alloc::Global;

/// A line without its line feed.
#[derive(Drop)]
pub(crate) enum Line {
    /// One of at most 2,097,152 bytes.
    Text(Vec<u8>),
    /// A longer one, which is thrown away.
    TooLong,
}

/// What comes next in an input.
#[derive(Drop)]
pub(crate) enum Found {
    /// A line that had its line feed.
    Line(Line),
    /// A line that had none, behind which the input ends.
    Last(Line),
    /// The end of the input.
    End,
}

/// What comes next in an input.
///
/// # Errors
/// As [`LineReader::next`] and [`LineReader::skip`].
pub(crate) fn next_line<S: Source>(
    alloc: Global,
    reader: &mut LineReader,
    source: &mut S,
) -> Result<Found, InputFault>
    ensures finds { SkipsLine (S.left source.old) (S.left source.new) reader.old reader.new (finds result (S.has_ended source.new)) }
    ensures failures { MatchResult result (λ _. S.failures source.new ≡ S.failures source.old)
        (λ fault. S.failures source.new ≡ S.failures source.old + failed_reads fault) }
{
    match reader.next(alloc, source) {
        Ok(Some(line)) => Ok(Found::Line(Line::Text(line))),
        Ok(None) => Ok(Found::End),
        Err(InputFault::BadLine) => skipped(reader.skip(alloc, source)),
        Err(fault) => Err(fault),
    }
}

// What comes next, where a bad line was skipped.
fn skipped(skipped: Result<Skipped, InputFault>) -> Result<Found, InputFault>
    ensures { result ≡ found_of skipped }
{
    match skipped {
        Ok(Skipped::TooLong) => Ok(Found::Line(Line::TooLong)),
        Ok(Skipped::TooLongLast) => Ok(Found::Last(Line::TooLong)),
        Ok(Skipped::Unended(line)) => Ok(Found::Last(Line::Text(line))),
        Err(fault) => Err(fault),
    }
}
