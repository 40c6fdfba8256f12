//! The lines of a play that are kept for a session.
ghost use Rattle.std.specs.Prelude.{◌≡◌, ℕ, ◌+◌, ◌≤◌, List, [], ◌∷◌, ◌++◌, length, IfErr, OnOk, IsErrOf, IsTrue, MatchResult};
ghost use Rattle.std.specs.Io.KnownBytes.{IsAtEnd};
ghost use Rattle.bidi_lines.specs.Devices.{Moves};
ghost use Rattle.bidi_lines.specs.Feeds.{ended};
ghost use Rattle.bidi_remote.specs.Machine.History.{Input};
ghost use Rattle.bidi_reduce.specs.Kept.{strike};
ghost use Rattle.bidi_reduce.specs.Seen.{sees};
ghost use Rattle.bidi_sessions.specs.View.{step_of};
ghost use Rattle.bidi_play.specs.Lines.{CanBeSaid, line_of};
ghost use Rattle.bidi_lines.specs.Stops.{StopsWhole, failed_reads, failed_writes};
ghost use Rattle.bidi_play.specs.Plays.{lines_fault};
ghost use Rattle.bidi_reduce.specs.Reduces.{ReducesAll, reduce_run};
ghost use Rattle.bidi_reduce.specs.Reducers.{HasReduced, reducer_answers};
ghost use Rattle.bidi_sessions.specs.Limits.{most_steps};

use crate::striking::take_kept;
use bidi_lines::{AnswerFault, Answerer, MOST_LINES, Sink, Source, answer_lines, write_all};
use bidi_play::{PlayFault, read_step};
use bidi_remote::{RemoteEnd, RemoteFault, Step};
use std::alloc::{AllocError, Global};

/// Writes the lines of the source that are kept for the session of this number, byte for byte.
///
/// All lines are read before the first is written. Memory holds a remote end, one line, and the lines that are
/// kept. A line costs its reading as a step; a text of another session costs its reading and its decision
/// besides, and a step that is kept its taking.
///
/// # Errors
/// The first of these in the order of the input ends it, and nothing is written:
/// 1. `Read`: a read of the source failed.
/// 2. `BadLine`: a line is no play line.
/// 3. `NoMemory`: an allocation failed.
/// 4. `WornOut`: the input goes on after 1,000,000,000 lines.
///
/// Then this:
/// 1. `Write`: a write of the sink failed, after a beginning of the text.
pub fn reduce<R: Source, W: Sink>(
    alloc: Global,
    session: u32,
    source: &mut R,
    sink: &mut W,
) -> Result<(), PlayFault>
    // All that the source had was play lines, and those that are kept for the session were written.
    ensures ok { OnOk result (Moves (R.left source.old) (R.left source.new) (W.contents sink.old) (W.contents sink.new) (ReducesAll session)) }
    // After an Ok, the source has reported its end.
    ensures end { OnOk result (IsTrue (R.has_ended source.new) × IsAtEnd (R.left source.new)) }

    // A fault says what was read and written before it.
    ensures err { IfErr result (λ fault. Moves (R.left source.old) (R.left source.new) (W.contents sink.old) (W.contents sink.new)
        (StopsWhole reduce_run (ReducesAll session) (lines_fault fault) (R.has_ended source.new))) }

    // `Read` comes exactly if a read failed, and no run succeeds after a failed read.
    ensures reads { MatchResult result (λ _. R.failures source.new ≡ R.failures source.old)
        (λ fault. R.failures source.new ≡ R.failures source.old + failed_reads (lines_fault fault)) }
    // `Write` comes exactly if a write failed, and no run succeeds after a failed write.
    ensures writes { MatchResult result (λ _. W.failures sink.new ≡ W.failures sink.old)
        (λ fault. W.failures sink.new ≡ W.failures sink.old + failed_writes (lines_fault fault)) }

    // What any session sees of a play, it sees of what is kept of it for that session.
    ensures sees_same { (inputs : List Input) (s : ℕ) → sees inputs s ≡ sees (strike inputs s) s }
{
    let mut reducer = Reducer {
        end: RemoteEnd::new(alloc)?,
        session,
        kept: Vec::new(alloc),
    };
    answer_lines(alloc, &mut reducer, MOST_LINES, source, sink)?;
    write_all(sink, &reducer.kept)?;
    Ok(())
}

// What is kept of a play so far, and a remote end that has taken its steps.
#[derive(Drop)]
struct Reducer {
    end: RemoteEnd,
    session: u32,
    kept: Vec<u8>,
}

impl Reducer {
    // Hands a step to the end if it is kept, and keeps its line.
    fn take(&mut self, step: Step, line: &[u8]) -> Result<(), RemoteFault>
        requires said { CanBeSaid (step_of step) }
        requires line { line.now ≡ line_of (step_of step) }
        ensures ok { (first : Reducer) (lines : List (List ℕ)) (text : List ℕ) → HasReduced first self.old lines text
            → OnOk result (HasReduced first self.new (lines ++ line.now ∷ []) (text ++ [])) }
        ensures worn_out { (first : Reducer) (lines : List (List ℕ)) (text : List ℕ) → HasReduced first self.old lines text
            → IsErrOf result RemoteFault.WornOut → most_steps ≤ length lines }
    {
        if take_kept(&mut self.end, self.session, step)? {
            keep_line(&mut self.kept, line)?;
        }
        Ok(())
    }
}

impl Answerer for Reducer {
    ghost answers = { reducer_answers };

    // Nothing is written for a line before all are read.
    fn answer(
        &mut self,
        alloc: Global,
        _number: u64,
        line: &[u8],
    ) -> Result<Option<Vec<u8>>, AnswerFault> {
        let Some(step) = read_step(alloc, line)? else {
            return Ok(None);
        };
        match self.take(step, line) {
            Ok(()) => Ok(Some(Vec::new(alloc))),
            Err(RemoteFault::NoMemory) => Err(AnswerFault::NoMemory),
            Err(RemoteFault::WornOut) => Err(AnswerFault::WornOut),
        }
    }
}

// Adds a line with its line feed.
fn keep_line(kept: &mut Vec<u8>, line: &[u8]) -> Result<(), AllocError>
    ensures { OnOk result (kept.new.items ≡ kept.old.items ++ ended line.now) }
{
    kept.extend_from_slice(line)?;
    kept.push(b'\n')?;
    Ok(())
}
