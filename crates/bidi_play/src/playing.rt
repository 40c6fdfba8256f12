//! Plays: lines of steps in, lines of what is sent out.
ghost use Rattle.std.specs.Prelude.{◌≡◌, ◌≤◌, ◌+◌, List, false, map, length, IfOk, IfErr, IsErrOf, OnOk, IsTrue, MatchOption, MatchResult};
ghost use Rattle.std.specs.Io.KnownBytes.{IsAtEnd};
ghost use Rattle.bidi_lines.specs.Devices.{Moves};
ghost use Rattle.bidi_lines.specs.Feeds.{has_feed};
ghost use Rattle.bidi_lines.specs.Stops.{StopsAt, failed_reads, failed_writes};
ghost use Rattle.bidi_play.specs.Plays.{PlaysAll, lines_fault, play_fault_of, play_run};
ghost use Rattle.bidi_play.specs.Players.{SaysAStep, SaysNoStep, TakesLine, player_answers};
ghost use Rattle.bidi_remote.specs.Machine.History.{Input};
ghost use Rattle.bidi_remote.specs.State.Stands.{StandsFor};
ghost use Rattle.bidi_sessions.specs.Limits.{most_steps};
ghost use Rattle.bidi_sessions.specs.View.{sent_of};
ghost use Rattle.bidi_play.specs.declared.playing.PlayFault.TheVariants.{Write, NoMemory};

use super::lines::{heard_text, lines_of, read_step};
use bidi_lines::{AnswerFault, Answerer, DeviceFault, LinesFault, Sink, Source, answer_lines};
use bidi_remote::{RemoteEnd, RemoteFault, Sent};
use std::alloc::{AllocError, Global};
use thiserror::Error;

/// Why a play stopped before its end. The output is a beginning of the text for the lines before. The remote
/// end is gone, so the play can only be started again.
#[derive(Clone, Copy, Debug, PartialEq, Eq, Error)]
pub enum PlayFault {
    /// A read of the source failed. All whole lines that were read are played.
    #[error("input cannot be read")]
    Read,
    /// A write of the sink failed. The output of the line that was played last may be partly written.
    #[error("output cannot be written")]
    Write,
    /// The line of this number, counted from 1, is not a play line. Fix it, and play again.
    #[error("line {0} is no play line")]
    BadLine(u64),
    /// An allocation failed. Nothing is written for the current line.
    #[error("out of memory")]
    NoMemory,
    /// The play has more than 1,000,000,000 lines, and the remote end takes no more steps. Split the play.
    #[error("too many steps")]
    WornOut,
}

impl From<AllocError> for PlayFault {
    ghost from_gives = { λ _ fault. fault ≡ NoMemory };

    fn from(_error: AllocError) -> PlayFault {
        PlayFault::NoMemory
    }
}

impl From<DeviceFault> for PlayFault {
    ghost from_gives = { λ _ fault. fault ≡ Write };

    fn from(_error: DeviceFault) -> PlayFault {
        PlayFault::Write
    }
}

impl From<LinesFault> for PlayFault {
    ghost from_gives = { λ error fault. fault ≡ play_fault_of error };

    fn from(error: LinesFault) -> PlayFault {
        match error {
            LinesFault::Read => PlayFault::Read,
            LinesFault::Write => PlayFault::Write,
            LinesFault::BadLine(number) => PlayFault::BadLine(number),
            LinesFault::NoMemory => PlayFault::NoMemory,
            LinesFault::TooManyLines | LinesFault::WornOut => PlayFault::WornOut,
        }
    }
}

/// Plays the lines of the source, and writes what the remote end sends for each line, in order, to the sink.
///
/// What a step sends is written before the next line is read, so a client can talk to a play. Memory holds
/// one line and what one step sends, in addition to the remote end. Time grows with the bytes that are read
/// and written.
///
/// # Errors
/// The first of these in the order of the input ends the play:
/// 1. `Read`: a read of the source failed, after the whole lines before.
/// 2. `Write`: a write of the sink failed.
/// 3. `BadLine`: a line is not a play line.
/// 4. `NoMemory`: an allocation failed.
/// 5. `WornOut`: a play line comes after 1,000,000,000 others.
pub fn play<R: Source, W: Sink>(
    alloc: Global,
    source: &mut R,
    sink: &mut W,
) -> Result<(), PlayFault>
    // After an Ok, the source gave play lines only, and the whole text for them was written.
    ensures ok { OnOk result (Moves (R.left source.old) (R.left source.new) (W.contents sink.old) (W.contents sink.new) PlaysAll) }
    // After an Ok, the source has ended, and none of its bytes is left.
    ensures end { OnOk result (IsTrue (R.has_ended source.new) × IsAtEnd (R.left source.new)) }

    // A fault says which lines were played and written before it, and why the next was not.
    ensures err { IfErr result (λ fault. Moves (R.left source.old) (R.left source.new) (W.contents sink.old) (W.contents sink.new)
        (StopsAt play_run (lines_fault fault) (R.has_ended source.new))) }

    // The source failed once if the fault is `Read`, and not at all otherwise.
    ensures reads { MatchResult result (λ _. R.failures source.new ≡ R.failures source.old)
        (λ fault. R.failures source.new ≡ R.failures source.old + failed_reads (lines_fault fault)) }
    // The sink failed once if the fault is `Write`, and not at all otherwise.
    ensures writes { MatchResult result (λ _. W.failures sink.new ≡ W.failures sink.old)
        (λ fault. W.failures sink.new ≡ W.failures sink.old + failed_writes (lines_fault fault)) }
{
    let mut player = Player {
        end: RemoteEnd::new(alloc)?,
    };
    answer_lines(alloc, &mut player, u64::MAX, source, sink)?;
    Ok(())
}

// A remote end, which answers play lines.
#[derive(Drop)]
struct Player {
    end: RemoteEnd,
}

impl Answerer for Player {
    ghost answers = { player_answers };

    fn answer(
        &mut self,
        alloc: Global,
        _number: u64,
        line: &[u8],
    ) -> Result<Option<Vec<u8>>, AnswerFault> {
        match take_line(alloc, &mut self.end, line) {
            Ok(None) => Ok(None),
            Ok(Some(sent)) => Ok(Some(lines_of(alloc, sent)?)),
            Err(RemoteFault::NoMemory) => Err(AnswerFault::NoMemory),
            Err(RemoteFault::WornOut) => Err(AnswerFault::WornOut),
        }
    }
}

// Takes the step of a line, and returns what is sent; `None` if it is not a play line. The text of a
// client is not copied.
fn take_line(
    alloc: Global,
    end: &mut RemoteEnd,
    line: &[u8],
) -> Result<Option<Vec<Sent>>, RemoteFault>
    requires { has_feed line.now ≡ false }
    ensures ok { IfOk result (λ found. MatchOption found (SaysNoStep line.now) (λ sent. TakesLine end.old end.new line.now (map sent_of sent.items))) }
    ensures worn_out { (h : List Input) → StandsFor end.old h → IsErrOf result RemoteFault.WornOut → SaysAStep line.now × (most_steps ≤ length h) }
{
    if let Some((conn, text)) = heard_text(line) {
        return Ok(Some(end.hear(conn, text)?));
    }
    let Some(step) = read_step(alloc, line)? else {
        return Ok(None);
    };
    Ok(Some(end.step(step)?))
}
