//! Scripted plays: lines in, lines of what is sent out.
ghost use Rattle.std.specs.Prelude.{◌≡◌, ◌+◌, ◌≤◌, List, length, false, IfOk, IfErr, IsErrOf, OnOk, IsTrue, MatchOption, MatchResult};
ghost use Rattle.std.specs.Io.KnownBytes.{IsAtEnd};
ghost use Rattle.bidi_lines.specs.Devices.{Moves};
ghost use Rattle.bidi_lines.specs.Feeds.{has_feed};
ghost use Rattle.bidi_lines.specs.Stops.{StopsAt, failed_reads, failed_writes};
ghost use Rattle.bidi_play.specs.Plays.{lines_fault};
ghost use Rattle.bidi_play.specs.Lines.{CanBeSaid, line_of};
ghost use Rattle.bidi_remote.specs.Machine.History.{Input};
ghost use Rattle.bidi_remote.specs.State.Stands.{StandsFor};
ghost use Rattle.bidi_sessions.specs.Limits.{most_steps};
ghost use Rattle.bidi_sessions.specs.Step.{Text as Hearing};
ghost use Rattle.bidi_script_lines.specs.View.{said_by};
ghost use Rattle.bidi_script_lines.specs.ScriptPlayers.{IsPerformed, IsSaid, SaysALine, SaysNoLine, script_player_answers};
ghost use Rattle.bidi_script_lines.specs.ScriptedPlays.{ScriptedPlaysAll, script_run};

use crate::outcome::{Outcome, outcome_lines};
use crate::performing::perform;
use crate::script_line::{ScriptLine, read_script_line};
use crate::steps::hear;
use bidi_lines::{AnswerFault, Answerer, Sink, Source, answer_lines};
use bidi_play::{PlayFault, heard_text};
use bidi_remote::RemoteFault;
use bidi_scripted::ScriptedEnd;
use bidi_tree::JsUint;
use std::alloc::Global;

/// Plays the lines of the source over a scripted end, and writes what is sent for each line, in order, to the sink.
///
/// What a line brings about is written before the next line is read. Memory holds one line and its output, in addition to the scripted end.
///
/// # Errors
/// The first of these in the order of the input ends the play:
/// 1. `Read`: a read of the source failed, after the whole lines before.
/// 2. `Write`: a write of the sink failed.
/// 3. `BadLine`: a line is not one of a scripted play.
/// 4. `NoMemory`: an allocation failed.
/// 5. `WornOut`: a line needs the remote end after 1,000,000,000 steps of it.
pub fn play_scripted<R: Source, W: Sink>(
    alloc: Global,
    source: &mut R,
    sink: &mut W,
) -> Result<(), PlayFault>
    // After an Ok, the source gave lines of a scripted play only, and what they bring about was written, one after another. If they are lines
    // of a play, it is the text that `play` writes.
    ensures ok { OnOk result (Moves (R.left source.old) (R.left source.new) (W.contents sink.old) (W.contents sink.new) ScriptedPlaysAll) }
    // After an Ok, the source has ended, and none of its bytes is left.
    ensures end { OnOk result (IsTrue (R.has_ended source.new) × IsAtEnd (R.left source.new)) }

    // A fault says which lines were played and written before it, and why the next was not.
    ensures err { IfErr result (λ fault. Moves (R.left source.old) (R.left source.new) (W.contents sink.old) (W.contents sink.new)
        (StopsAt script_run (lines_fault fault) (R.has_ended source.new))) }

    // The source failed once if the fault is `Read`, and not at all otherwise.
    ensures reads { MatchResult result (λ _. R.failures source.new ≡ R.failures source.old)
        (λ fault. R.failures source.new ≡ R.failures source.old + failed_reads (lines_fault fault)) }
    // The sink failed once if the fault is `Write`, and not at all otherwise.
    ensures writes { MatchResult result (λ _. W.failures sink.new ≡ W.failures sink.old)
        (λ fault. W.failures sink.new ≡ W.failures sink.old + failed_writes (lines_fault fault)) }
{
    let mut player = ScriptPlayer {
        end: ScriptedEnd::new(alloc)?,
    };
    answer_lines(alloc, &mut player, u64::MAX, source, sink)?;
    Ok(())
}

// A scripted end, which answers the lines of a scripted play.
#[derive(Drop)]
struct ScriptPlayer {
    end: ScriptedEnd,
}

impl Answerer for ScriptPlayer {
    ghost answers = { script_player_answers };

    fn answer(
        &mut self,
        alloc: Global,
        _number: u64,
        line: &[u8],
    ) -> Result<Option<Vec<u8>>, AnswerFault> {
        match take_line(alloc, &mut self.end, line) {
            Ok(None) => Ok(None),
            Ok(Some(outcome)) => Ok(Some(outcome_lines(alloc, &self.end, outcome)?)),
            Err(RemoteFault::NoMemory) => Err(AnswerFault::NoMemory),
            Err(RemoteFault::WornOut) => Err(AnswerFault::WornOut),
        }
    }
}

// Takes a line, and returns what it brings about; `None` if it is not one of a scripted play. The text of a client is not copied.
fn take_line(
    alloc: Global,
    end: &mut ScriptedEnd,
    line: &[u8],
) -> Result<Option<Outcome>, RemoteFault>
    requires { has_feed line.now ≡ false }
    ensures ok { IfOk result (λ found. MatchOption found (SaysNoLine line.now) (λ o. IsPerformed line.now end.old end.new o)) }
    ensures says { IsErrOf result RemoteFault.WornOut → SaysALine line.now }
    ensures worn_out { (h : List Input) → StandsFor end.old.end h → IsErrOf result RemoteFault.WornOut → most_steps ≤ length h }
{
    if let Some((conn, text)) = heard_text(line) {
        return take_heard(end, line, conn, text);
    }
    let said = read_script_line(alloc, line)?;
    take_said(alloc, end, line, said)
}

// Takes the line of a text that came in on a connection.
fn take_heard(
    end: &mut ScriptedEnd,
    line: &[u8],
    conn: JsUint,
    text: &str,
) -> Result<Option<Outcome>, RemoteFault>
    requires { CanBeSaid (Hearing conn.value text.now) × (line.now ≡ line_of (Hearing conn.value text.now)) }
    ensures ok { IfOk result (λ found. MatchOption found (SaysNoLine line.now) (λ o. IsPerformed line.now end.old end.new o)) }
    ensures says { IsErrOf result RemoteFault.WornOut → SaysALine line.now }
    ensures worn_out { (h : List Input) → StandsFor end.old.end h → IsErrOf result RemoteFault.WornOut → most_steps ≤ length h }
{
    match hear(end, conn, text) {
        Ok(outcome) => Ok(Some(outcome)),
        Err(fault) => Err(fault),
    }
}

// Takes a line that was read, if it was one of a scripted play.
fn take_said(
    alloc: Global,
    end: &mut ScriptedEnd,
    line: &[u8],
    said: Option<ScriptLine>,
) -> Result<Option<Outcome>, RemoteFault>
    requires { MatchOption said (SaysNoLine line.now) (λ l. IsSaid line.now (said_by l)) }
    ensures ok { IfOk result (λ found. MatchOption found (SaysNoLine line.now) (λ o. IsPerformed line.now end.old end.new o)) }
    ensures says { IsErrOf result RemoteFault.WornOut → SaysALine line.now }
    ensures worn_out { (h : List Input) → StandsFor end.old.end h → IsErrOf result RemoteFault.WornOut → most_steps ≤ length h }
{
    let Some(said) = said else {
        return Ok(None);
    };
    match perform(alloc, end, said) {
        Ok(outcome) => Ok(Some(outcome)),
        Err(fault) => Err(fault),
    }
}
