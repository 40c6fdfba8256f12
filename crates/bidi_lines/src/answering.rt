//! Reading an input line by line, and answering each line.
ghost use Rattle.std.specs.Prelude.{◌≡◌, ℕ, ◌+◌, List, [], ◌∷◌, ◌++◌, length, IfOk, IfErr, OnOk, IsErrOf, IsTrue, MatchOption, MatchResult};
ghost use Rattle.std.specs.Io.KnownBytes.{IsAtEnd};
ghost use Rattle.bidi_lines.specs.Devices.{Moves};
ghost use Rattle.bidi_lines.specs.InputLines.{IsLine};
ghost use Rattle.bidi_lines.specs.Answering.{AnswersAll, AnswersOf, answer_fault_of, lines_fault_of, run_of};
ghost use Rattle.bidi_lines.specs.Stops.{StopsAt, failed_reads, failed_writes};
ghost use Rattle.bidi_lines.specs.declared.answering.AnswerFault.TheVariants as refusal;
ghost use Rattle.bidi_lines.specs.declared.answering.LinesFault.TheVariants.{NoMemory, Write};

use super::device::{DeviceFault, Sink, Source, write_all};
use super::line_reader::{InputFault, LineReader};
use std::alloc::{AllocError, Global};
use thiserror::Error;

/// Why the answerer has no answer to a line.
#[derive(Clone, Copy, Debug, PartialEq, Eq, Error)]
pub enum AnswerFault {
    /// An allocation failed.
    #[error("out of memory")]
    NoMemory,
    /// The [`Answerer`] takes no more lines, because it has answered as many as it can.
    #[error("too many steps")]
    WornOut,
}

impl From<AllocError> for AnswerFault {
    ghost from_gives = { λ _ fault. fault ≡ refusal.NoMemory };

    fn from(_error: AllocError) -> AnswerFault {
        AnswerFault::NoMemory
    }
}

/// Why a run over the lines of an input stopped before its end.
#[derive(Clone, Copy, Debug, PartialEq, Eq, Error)]
pub enum LinesFault {
    /// A read of the source failed. All whole lines that were read before are answered.
    #[error("input cannot be read")]
    Read,
    /// A write of the sink failed. The last answer may be written in part.
    #[error("output cannot be written")]
    Write,
    /// The line of this number, counted from 1, is refused, is too long, or has no line feed. Fix it, and run
    /// again.
    #[error("line {0} is refused")]
    BadLine(u64),
    /// An allocation failed. Nothing is written for the current line.
    #[error("out of memory")]
    NoMemory,
    /// The input has more lines than are allowed. As many as allowed were answered. Split the input.
    #[error("too many lines")]
    TooManyLines,
    /// No more lines are taken, because as many were answered as can be. Nothing is written for the current
    /// line. Split the input.
    #[error("too many steps")]
    WornOut,
}

impl From<AllocError> for LinesFault {
    ghost from_gives = { λ _ fault. fault ≡ NoMemory };

    fn from(_error: AllocError) -> LinesFault {
        LinesFault::NoMemory
    }
}

impl From<DeviceFault> for LinesFault {
    ghost from_gives = { λ _ fault. fault ≡ Write };

    fn from(_error: DeviceFault) -> LinesFault {
        LinesFault::Write
    }
}

impl From<AnswerFault> for LinesFault {
    ghost from_gives = { λ error fault. fault ≡ answer_fault_of error };

    fn from(error: AnswerFault) -> LinesFault {
        match error {
            AnswerFault::NoMemory => LinesFault::NoMemory,
            AnswerFault::WornOut => LinesFault::WornOut,
        }
    }
}

/// Answers the lines of an input, one after another.
pub trait Answerer {
    // Its answers so far, which lines it refuses, and when it takes no more lines.
    ghost answers: { AnswersOf Self };

    /// Answers the next line, which is given without its line feed, and its number, counted from 1. `None`
    /// refuses the line.
    ///
    /// # Errors
    /// 1. `NoMemory`: an allocation failed.
    /// 2. `WornOut`: it takes no more lines.
    fn answer(
        &mut self,
        alloc: Global,
        number: u64,
        line: &[u8],
    ) -> Result<Option<Vec<u8>>, AnswerFault>
        // The line has no line feed in it, and at most 2,097,152 bytes.
        requires { IsLine line.now }
        // If `number` is the next number, bytes are the answer to this line after all before it,
        // and `None` means that the line is refused.
        ensures ok { (first : Self) (lines : List (List ℕ)) (text : List ℕ) → answers.has_answered first self.old lines text
            → number ≡ length lines + 1 → IfOk result (λ found. MatchOption found (answers.refuses line.now)
            (λ bytes. answers.has_answered first self.new (lines ++ line.now ∷ []) (text ++ bytes.items))) }
        // `WornOut` comes only if the answerer takes no more lines after those before.
        ensures worn_out { (first : Self) (lines : List (List ℕ)) (text : List ℕ) → answers.has_answered first self.old lines text
            → IsErrOf result refusal.WornOut → answers.is_worn_out lines line.now };
}

/// Reads the lines of a source, at most `most`, and writes the answer to each to the sink.
///
/// The answer to a line is written before the next line is read. Memory holds one line and its answer.
///
/// # Errors
/// The first of these in the order of the input:
/// 1. `Read`: a read of the source failed.
/// 2. `Write`: a write of the sink failed.
/// 3. `BadLine`: a line is refused, or has more than 2,097,152 bytes, or the input ends without its line feed.
/// 4. `NoMemory`: an allocation failed.
/// 5. `TooManyLines`: the input has more than `most` lines.
/// 6. `WornOut`: `answerer` takes no more lines.
pub fn answer_lines<R: Source, W: Sink, A: Answerer>(
    alloc: Global,
    answerer: &mut A,
    most: u64,
    source: &mut R,
    sink: &mut W,
) -> Result<(), LinesFault>
    // The answerer has not answered any line yet.
    requires { A.answers.has_answered answerer.old answerer.old [] [] }

    // After an Ok, the source gave whole lines only, at most `most`, and all answers were written.
    ensures ok { OnOk result (Moves (R.left source.old) (R.left source.new) (W.contents sink.old) (W.contents sink.new)
        (AnswersAll (A.answers.has_answered answerer.old answerer.new) most)) }
    // After an Ok, the source has ended, and none of its bytes is left.
    ensures end { OnOk result (IsTrue (R.has_ended source.new) × IsAtEnd (R.left source.new)) }

    // A fault says which lines were answered and written before it, and why the next was not.
    ensures err { IfErr result (λ fault. Moves (R.left source.old) (R.left source.new) (W.contents sink.old) (W.contents sink.new)
        (StopsAt (run_of A.answers answerer.old most) fault (R.has_ended source.new))) }

    // The source failed once if the fault is `Read`, and not at all otherwise.
    ensures reads { MatchResult result (λ _. R.failures source.new ≡ R.failures source.old)
        (λ fault. R.failures source.new ≡ R.failures source.old + failed_reads fault) }
    // The sink failed once if the fault is `Write`, and not at all otherwise.
    ensures writes { MatchResult result (λ _. W.failures sink.new ≡ W.failures sink.old)
        (λ fault. W.failures sink.new ≡ W.failures sink.old + failed_writes fault) }
{
    let mut reader = LineReader::new(alloc);
    let mut count: u64 = 0;
    'lines: while count < most {
        match reader.lend_next(source) {
            Err(fault) => return Err(fault.at_line(count + 1)),
            Ok(None) => return Ok(()),
            Ok(Some(line)) => {
                count += 1;
                let Some(text) = answerer.answer(alloc, count, line)? else {
                    return Err(LinesFault::BadLine(count));
                };
                write_all(sink, &text)?;
            }
        }
    }
    match reader.goes_on(source) {
        Err(fault) => Err(fault.at_line(count)),
        Ok(true) => Err(LinesFault::TooManyLines),
        Ok(false) => Ok(()),
    }
}

impl InputFault {
    /// The fault of a run over lines for this fault, at the line of this number, counted from 1.
    pub fn at_line(self, number: u64) -> LinesFault
        // Only `BadLine` has the number.
        ensures { result ≡ lines_fault_of self number }
    {
        match self {
            InputFault::Read => LinesFault::Read,
            InputFault::BadLine => LinesFault::BadLine(number),
            InputFault::NoMemory => LinesFault::NoMemory,
        }
    }
}
