//! Reducing a scripted play: its lines before the first line of a test are reduced as a play, and all others stay.
ghost use Rattle.std.specs.Prelude.{◌≡◌, ℕ, ◌+◌, ◌≤◌, List, [], ◌∷◌, ◌++◌, length, false, IfErr, OnOk, IsErrOf, IsTrue, MatchOption, MatchResult};
ghost use Rattle.std.specs.Io.KnownBytes.{IsAtEnd};
ghost use Rattle.bidi_lines.specs.Devices.{Moves};
ghost use Rattle.bidi_lines.specs.Feeds.{ended};
ghost use Rattle.bidi_lines.specs.Stops.{StopsWhole, failed_reads, failed_writes};
ghost use Rattle.bidi_play.specs.Lines.{CanBeSaid, line_of};
ghost use Rattle.bidi_play.specs.Plays.{lines_fault};
ghost use Rattle.bidi_sessions.specs.Limits.{most_steps};
ghost use Rattle.bidi_sessions.specs.View.{step_of};
ghost use Rattle.bidi_script_lines.specs.ScriptLines.{Plain, is_plain};
ghost use Rattle.bidi_script_lines.specs.View.{said_by};
ghost use Rattle.bidi_run.specs.ScriptReduces.{HasReducedScript, IsOfTest, MayStay, ReducesScript, reduce_script_run, script_reducer_answers};

use bidi_lines::{AnswerFault, Answerer, MOST_LINES, Sink, Source, answer_lines, write_all};
use bidi_play::PlayFault;
use bidi_reduce::take_kept;
use bidi_remote::{RemoteEnd, RemoteFault, Step};
use bidi_script_lines::{ScriptLine, read_script_line};
use std::alloc::{AllocError, Global};

/// Writes those lines of a scripted play that are kept for the session of this number, byte for byte: of the lines before the
/// first line of a test those that [`reduce`](bidi_reduce::reduce) keeps, and all others.
///
/// All lines are read before the first is written. Memory holds a remote end, one line, and the lines that are kept.
///
/// # Errors
/// The first of these in the order of the input ends it, and nothing is written:
/// 1. `Read`: a read of the source failed.
/// 2. `BadLine`: a line is not one of a scripted play.
/// 3. `NoMemory`: an allocation failed.
/// 4. `WornOut`: the input goes on after 1,000,000,000 lines.
///
/// Then this:
/// 1. `Write`: a write of the sink failed, after a beginning of the text.
pub fn reduce_scripted<R: Source, W: Sink>(
    alloc: Global,
    session: u32,
    source: &mut R,
    sink: &mut W,
) -> Result<(), PlayFault>
    // All that the source had was lines of a scripted play, and those that are kept for the session were written.
    ensures ok { OnOk result (Moves (R.left source.old) (R.left source.new) (W.contents sink.old) (W.contents sink.new) (ReducesScript session)) }
    // After an Ok, the source has reported its end.
    ensures end { OnOk result (IsTrue (R.has_ended source.new) × IsAtEnd (R.left source.new)) }

    // A fault says what was read and written before it.
    ensures err { IfErr result (λ fault. Moves (R.left source.old) (R.left source.new) (W.contents sink.old) (W.contents sink.new)
        (StopsWhole reduce_script_run (ReducesScript session) (lines_fault fault) (R.has_ended source.new))) }

    // `Read` comes exactly if a read failed, and no run succeeds after a failed read.
    ensures reads { MatchResult result (λ _. R.failures source.new ≡ R.failures source.old)
        (λ fault. R.failures source.new ≡ R.failures source.old + failed_reads (lines_fault fault)) }
    // `Write` comes exactly if a write failed, and no run succeeds after a failed write.
    ensures writes { MatchResult result (λ _. W.failures sink.new ≡ W.failures sink.old)
        (λ fault. W.failures sink.new ≡ W.failures sink.old + failed_writes (lines_fault fault)) }
{
    let mut reducer = ScriptReducer {
        end: RemoteEnd::new(alloc)?,
        session,
        is_whole: false,
        kept: Vec::new(alloc),
    };
    answer_lines(alloc, &mut reducer, MOST_LINES, source, sink)?;
    write_all(sink, &reducer.kept)?;
    Ok(())
}

// What is kept of a scripted play so far, and a remote end that has taken its steps up to the first line of a test.
#[derive(Drop)]
struct ScriptReducer {
    end: RemoteEnd,
    session: u32,
    // Whether there was a line of a test, so that every line stays.
    is_whole: bool,
    kept: Vec<u8>,
}

impl ScriptReducer {
    // Takes a line, which is that of this step, or one of a test.
    fn take(&mut self, step: Option<Step>, line: &[u8]) -> Result<(), RemoteFault>
        requires { MatchOption step (IsOfTest line.now) (λ s. CanBeSaid (step_of s) × (line.now ≡ line_of (step_of s))) }
        ensures ok { (first : ScriptReducer) (lines : List (List ℕ)) (text : List ℕ) → HasReducedScript first self.old lines text
            → OnOk result (HasReducedScript first self.new (lines ++ line.now ∷ []) (text ++ [])) }
        ensures worn_out { (first : ScriptReducer) (lines : List (List ℕ)) (text : List ℕ) → HasReducedScript first self.old lines text
            → IsErrOf result RemoteFault.WornOut → most_steps ≤ length lines }
    {
        let Some(step) = step else {
            return Ok(self.stay(line)?);
        };
        if self.is_whole {
            return Ok(self.stay(line)?);
        }
        self.take_step(step, line)
    }

    // Hands a step to the end if it is kept, and keeps its line.
    fn take_step(&mut self, step: Step, line: &[u8]) -> Result<(), RemoteFault>
        requires plain { self.old.is_whole ≡ false }
        requires said { CanBeSaid (step_of step) }
        requires line { line.now ≡ line_of (step_of step) }
        ensures ok { (first : ScriptReducer) (lines : List (List ℕ)) (text : List ℕ) → HasReducedScript first self.old lines text
            → OnOk result (HasReducedScript first self.new (lines ++ line.now ∷ []) (text ++ [])) }
        ensures worn_out { (first : ScriptReducer) (lines : List (List ℕ)) (text : List ℕ) → HasReducedScript first self.old lines text
            → IsErrOf result RemoteFault.WornOut → most_steps ≤ length lines }
    {
        if take_kept(&mut self.end, self.session, step)? {
            keep_line(&mut self.kept, line)?;
        }
        Ok(())
    }

    // Keeps a line, and with it every later one.
    fn stay(&mut self, line: &[u8]) -> Result<(), AllocError>
        requires { MayStay self.old.is_whole line.now }
        ensures { (first : ScriptReducer) (lines : List (List ℕ)) (text : List ℕ) → HasReducedScript first self.old lines text
            → OnOk result (HasReducedScript first self.new (lines ++ line.now ∷ []) (text ++ [])) }
    {
        self.is_whole = true;
        keep_line(&mut self.kept, line)
    }
}

impl Answerer for ScriptReducer {
    ghost answers = { script_reducer_answers };

    // Nothing is written for a line before all are read.
    fn answer(
        &mut self,
        alloc: Global,
        _number: u64,
        line: &[u8],
    ) -> Result<Option<Vec<u8>>, AnswerFault> {
        let Some(said) = read_script_line(alloc, line)? else {
            return Ok(None);
        };
        match self.take(step_in(said), line) {
            Ok(()) => Ok(Some(Vec::new(alloc))),
            Err(RemoteFault::NoMemory) => Err(AnswerFault::NoMemory),
            Err(RemoteFault::WornOut) => Err(AnswerFault::WornOut),
        }
    }
}

// The step of a line; `None` for a line of a test.
fn step_in(said: ScriptLine) -> Option<Step>
    ensures { MatchOption result (is_plain (said_by said) ≡ false) (λ step. said_by said ≡ Plain (step_of step)) }
{
    match said {
        ScriptLine::Step(step) => Some(step),
        _ => None,
    }
}

// Adds a line with its line feed.
fn keep_line(kept: &mut Vec<u8>, line: &[u8]) -> Result<(), AllocError>
    ensures { OnOk result (kept.new.items ≡ kept.old.items ++ ended line.now) }
{
    kept.extend_from_slice(line)?;
    kept.push(b'\n')?;
    Ok(())
}
