//! Listings of what is wrong with the lines of an input.
ghost use Rattle.std.specs.Prelude.{◌≡◌, ℕ, ◌+◌, ◌<◌, ◌≤◌, List, [], bytes_eq, codes, take, nat_lt, length, true, false, IfOk, IfErr, OnErr, OnOk, IsTrue, MatchResult};
ghost use Rattle.std.specs.Io.KnownBytes.{Appends};
ghost use Rattle.bidi_lines.specs.Devices.{AppendsBeginning, Moves};
ghost use Rattle.bidi_lines.specs.InputLines.{most_lines};
ghost use Rattle.bidi_lines.specs.Stops.{StopsAt, failed_reads, failed_writes};
ghost use Rattle.bidi_why.specs.Input.{IsOf};
ghost use Rattle.bidi_why.specs.Summary.{IsSum, SumsUp, is_log};
ghost use Rattle.bidi_why.specs.Telling.{SoFar, StopsLine, Sums, TellsAll, TellsCounted, TellsLines, TellsNext, Whole, report_run};

use crate::explainer::Explainer;
use crate::next_line::{Found, Line, next_line};
use crate::one_side::OneSide;
use crate::sum::Sum;
use bidi_lines::{LineReader, LinesFault, MOST_LINES, Side, Sink, Source, write_all};
use bidi_remarks::Form;
use std::alloc::{AllocError, Global};

/// Writes for each line that is refused where it goes wrong and why, and returns whether any is.
///
/// With `profile_only` nothing is told of a line that is wrong for the profile and not for the W3C's draft.
///
/// What is written for a line is written before the next line is read. Behind the last line, where any was refused, `faults` is told how
/// many were and why, the most frequent causes first; at most 1,000 causes are told apart, of at most 4,096 bytes each,
/// and a write that fails there changes nothing. A line that is too long is thrown away as it is read; a last line without a line feed is judged as any other.
///
/// # Errors
/// The first of these in the order of the input ends the listing:
/// 1. `Read`: a read of the source failed.
/// 2. `Write`: a write of the sink failed.
/// 3. `BadLine`: the first 2^64 - 1 bytes of a line have no line feed.
/// 4. `NoMemory`: an allocation failed.
/// 5. `TooManyLines`: the input goes on after 1,000,000,000 lines.
pub fn explain<R: Source, W: Sink, F: Sink>(
    alloc: Global,
    form: Form,
    side: Side,
    profile_only: bool,
    source: &mut R,
    sink: &mut W,
    faults: &mut F,
) -> Result<bool, LinesFault>
    // After an Ok, the input was lines, and the report of all of them was written.
    ensures ok { IfOk result (λ some. Moves (R.left source.old) (R.left source.new) (W.contents sink.old) (W.contents sink.new)
        (λ read wrote. TellsAll form side profile_only read wrote × (some ≡ nat_lt 0 (length wrote)))) }
    // After an Ok, the input has ended.
    ensures end { OnOk result (IsTrue (R.has_ended source.new)) }

    // If a line is refused, `faults` gets the summary of the report, or a beginning of it if a write fails.
    ensures summary { IfOk result (λ some. Moves (R.left source.old) (R.left source.new) (W.contents sink.old) (W.contents sink.new)
        (TellsCounted form side profile_only (λ n told. some ≡ true
        → SumsUp (F.contents faults.old) (F.contents faults.new) (F.failures faults.old) (F.failures faults.new) n told))) }

    // After a fault, nothing was written to `faults`.
    ensures told { OnErr result (faults.new ≡ faults.old) }
    // If no line is refused, nothing was written to `faults`.
    ensures quiet { IfOk result (λ some. some ≡ false → faults.new ≡ faults.old) }

    // A fault says what was read and written before it.
    ensures err { IfErr result (λ fault. Moves (R.left source.old) (R.left source.new) (W.contents sink.old) (W.contents sink.new)
        (StopsAt (report_run (TellsLines form side profile_only)) fault (R.has_ended source.new))) }

    // The fault is `Read` exactly if a read of the source failed.
    ensures reads { MatchResult result (λ _. R.failures source.new ≡ R.failures source.old)
        (λ fault. R.failures source.new ≡ R.failures source.old + failed_reads fault) }
    // The fault is `Write` exactly if a write of the sink failed.
    ensures writes { MatchResult result (λ _. W.failures sink.new ≡ W.failures sink.old)
        (λ fault. W.failures sink.new ≡ W.failures sink.old + failed_writes fault) }
{
    let mut one_side = OneSide::new(alloc, form, side, profile_only)?;
    let mut sum = Sum::new(alloc);
    tell_lines(alloc, &mut one_side, &mut sum, source, sink)?;
    Ok(sum.tell(faults))
}

/// Tells of the lines of a source.
///
/// # Errors
/// As [`explain`].
pub(crate) fn tell_lines<E: Explainer, R: Source, W: Sink>(
    alloc: Global,
    explainer: &mut E,
    sum: &mut Sum,
    source: &mut R,
    sink: &mut W,
) -> Result<(), LinesFault>
    requires sum { IsSum sum.old 0 [] }
    requires nothing { E.has_told explainer.old explainer.old [] [] [] }
    ensures ok { OnOk result (Moves (R.left source.old) (R.left source.new) (W.contents sink.old) (W.contents sink.new)
        (Whole (Sums E.has_told explainer.old explainer.new sum.new))) }
    ensures end { OnOk result (IsTrue (R.has_ended source.new)) }
    ensures err { IfErr result (λ fault. Moves (R.left source.old) (R.left source.new) (W.contents sink.old) (W.contents sink.new)
        (StopsAt (report_run (SoFar E.has_told explainer.old)) fault (R.has_ended source.new))) }
    ensures reads { MatchResult result (λ _. R.failures source.new ≡ R.failures source.old)
        (λ fault. R.failures source.new ≡ R.failures source.old + failed_reads fault) }
    ensures writes { MatchResult result (λ _. W.failures sink.new ≡ W.failures sink.old)
        (λ fault. W.failures sink.new ≡ W.failures sink.old + failed_writes fault) }
{
    let mut reader = LineReader::new(alloc);
    'lines: while sum.lines < MOST_LINES {
        match next_line(alloc, &mut reader, source) {
            Err(fault) => return Err(fault.at_line(sum.lines + 1)),
            Ok(Found::End) => return Ok(()),
            Ok(Found::Last(line)) => return answer(alloc, explainer, sum, line, sink),
            Ok(Found::Line(line)) => answer(alloc, explainer, sum, line, sink)?,
        }
    }
    match reader.goes_on(source) {
        Err(fault) => Err(fault.at_line(sum.lines)),
        Ok(true) => Err(LinesFault::TooManyLines),
        Ok(false) => Ok(()),
    }
}

// Writes what is told of the next line.
fn answer<E: Explainer, W: Sink>(
    alloc: Global,
    explainer: &mut E,
    sum: &mut Sum,
    line: Line,
    sink: &mut W,
) -> Result<(), LinesFault>
    requires few { sum.old.lines < most_lines }
    ensures lines { OnOk result (sum.new.lines ≡ sum.old.lines + 1) }
    ensures ok { OnOk result ((text : List ℕ) × Appends (W.contents sink.old) (W.contents sink.new) text
        × TellsNext E.has_told explainer.old explainer.new sum.old sum.new line text) }
    ensures err { IfErr result (λ fault. StopsLine
        (TellsNext E.has_told explainer.old explainer.new sum.old sum.new line) fault
        (W.contents sink.old) (W.contents sink.new)) }
    ensures writes { MatchResult result (λ _. W.failures sink.new ≡ W.failures sink.old)
        (λ fault. W.failures sink.new ≡ W.failures sink.old + failed_writes fault) }
{
    let text = tell(alloc, explainer, sum, line)?;
    write(sink, &text)
}

// What is told of the next line.
fn tell<E: Explainer>(
    alloc: Global,
    explainer: &mut E,
    sum: &mut Sum,
    line: Line,
) -> Result<Vec<u8>, AllocError>
    requires few { sum.old.lines < most_lines }
    ensures lines { OnOk result (sum.new.lines ≡ sum.old.lines + 1) }
    ensures text { IfOk result (λ text. TellsNext E.has_told explainer.old explainer.new sum.old sum.new line text.items) }
{
    sum.next_line();
    let is_log = is_log(&line);
    match explainer.explain(alloc, sum.lines, line)? {
        Some(told) => {
            sum.count(told.counted_as, told.cause, is_log)?;
            Ok(told.text)
        }
        None => Ok(Vec::new(alloc)),
    }
}

// Whether a line looks like an object of a log, in which a text stands beside its direction.
fn is_log(line: &Line) -> bool
    ensures { (is : List ℕ) → IsOf line.now is → result ≡ is_log is }
{
    match line {
        Line::Text(text) => begins_as_log(text),
        Line::TooLong => false,
    }
}

// Whether a text begins as the objects of some logs do.
fn begins_as_log(text: &[u8]) -> bool
    ensures { result ≡ bytes_eq (codes "{\"dir\":") (take 7 text.now) }
{
    text.starts_with(b"{\"dir\":")
}

/// Writes all of a text.
///
/// # Errors
/// `Write`: a write of the sink failed.
pub(crate) fn write<W: Sink>(sink: &mut W, text: &[u8]) -> Result<(), LinesFault>
    ensures ok { OnOk result (Appends (W.contents sink.old) (W.contents sink.new) text.now) }
    ensures err { OnErr result (AppendsBeginning (W.contents sink.old) (W.contents sink.new) text.now) }
    ensures fault { IfErr result (λ fault. fault ≡ LinesFault.Write) }
    ensures writes { MatchResult result (λ _. W.failures sink.new ≡ W.failures sink.old)
        (λ fault. W.failures sink.new ≡ W.failures sink.old + failed_writes fault) }
{
    match write_all(sink, text) {
        Ok(()) => Ok(()),
        Err(_) => Err(LinesFault::Write),
    }
}
