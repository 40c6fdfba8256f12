//! Playing pair lines: steps of both ends in, their ledger out.
ghost use Rattle.std.specs.Prelude.{◌≡◌, ◌+◌, IfErr, OnOk, IsTrue, MatchResult};
ghost use Rattle.std.specs.Io.KnownBytes.{IsAtEnd};
ghost use Rattle.bidi_lines.specs.Devices.{Moves};
ghost use Rattle.bidi_lines.specs.Stops.{StopsWhole, failed_reads, failed_writes};
ghost use Rattle.bidi_pair_lines.specs.Pairs.{PairsAll, pair_run};

use bidi_lines::{LinesFault, Sink, Source, write_all};
use bidi_link::pair;
use bidi_pair_lines::{ledger_lines, read_steps};
use bidi_remote::RemoteFault;
use std::alloc::Global;

/// Plays the pair lines of the source, and writes the fate of each command and the events of each link.
///
/// All lines are read before the first step is played, and all steps are played before the first byte is
/// written.
///
/// # Errors
/// The first of these in the order of the input ends the run, and nothing is written:
/// 1. `Read`: a read of the source failed.
/// 2. `BadLine`: a line is not a pair line.
/// 3. `NoMemory`: an allocation failed, here or while steps are played.
/// 4. `TooManyLines`: the input has more than 1,000,000,000 lines.
///
/// Then these:
/// 1. `WornOut`: the remote end has taken 1,000,000,000 steps. Nothing is written.
/// 2. `Write`: a write of the sink failed, after a beginning of the output.
pub fn play_pair<R: Source, W: Sink>(
    alloc: Global,
    source: &mut R,
    sink: &mut W,
) -> Result<(), LinesFault>
    // After an Ok, the source gave pair lines only, and the lines of their ledger were written.
    ensures ok { OnOk result (Moves (R.left source.old) (R.left source.new) (W.contents sink.old) (W.contents sink.new) PairsAll) }
    // After an Ok, the source has ended, and none of its bytes is left.
    ensures end { OnOk result (IsTrue (R.has_ended source.new) × IsAtEnd (R.left source.new)) }

    // A fault says which lines were read before it, and what was written.
    ensures err { IfErr result (λ fault. Moves (R.left source.old) (R.left source.new) (W.contents sink.old) (W.contents sink.new)
        (StopsWhole pair_run PairsAll fault (R.has_ended source.new))) }

    // The source failed once if the fault is `Read`, and not at all otherwise.
    ensures reads { MatchResult result (λ _. R.failures source.new ≡ R.failures source.old)
        (λ fault. R.failures source.new ≡ R.failures source.old + failed_reads fault) }
    // The sink failed once if the fault is `Write`, and not at all otherwise.
    ensures writes { MatchResult result (λ _. W.failures sink.new ≡ W.failures sink.old)
        (λ fault. W.failures sink.new ≡ W.failures sink.old + failed_writes fault) }
{
    let steps = read_steps(alloc, source)?;
    let ledger = match pair(alloc, steps) {
        Ok(ledger) => ledger,
        Err(RemoteFault::NoMemory) => return Err(LinesFault::NoMemory),
        Err(RemoteFault::WornOut) => return Err(LinesFault::WornOut),
    };
    let text = ledger_lines(alloc, ledger)?;
    write_all(sink, text.as_bytes())?;
    Ok(())
}
