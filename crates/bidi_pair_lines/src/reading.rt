//! Reading the steps of both ends line by line.
ghost use Rattle.std.specs.Prelude.{◌≡◌, ◌+◌, [], ◌∷◌, ◌++◌, IfOk, IfErr, OnOk, IsTrue, MatchResult};
ghost use Rattle.std.specs.Io.KnownBytes.{IsAtEnd};
ghost use Rattle.bidi_ledger.specs.Steps.{AreWell};
ghost use Rattle.bidi_lines.specs.Stops.{StopsAt, failed_reads, failed_writes};
ghost use Rattle.bidi_pair_lines.specs.Pairs.{Reads, Schedule, pair_run};
ghost use Rattle.bidi_pair_lines.specs.StepReaders.{reader_answers};

use super::pair_lines::read_pair_step;
use bidi_ledger::PairStep;
use bidi_lines::{AnswerFault, Answerer, LinesFault, MOST_LINES, Nowhere, Source, answer_lines};
use json::Scratch;
use std::alloc::{AllocError, Global};

/// Reads the lines of the source as steps, which are all held in memory.
///
/// # Errors
/// The first of these in the order of the input:
/// 1. `Read`: a read of the source failed.
/// 2. `BadLine`: a line is not a pair line.
/// 3. `NoMemory`: an allocation failed.
/// 4. `TooManyLines`: the input has more than 1,000,000,000 lines.
pub fn read_steps<R: Source>(alloc: Global, source: &mut R) -> Result<Vec<PairStep>, LinesFault>
    // After an Ok, the source gave pair lines only, and the result has their steps, in order.
    ensures ok { IfOk result (λ steps. Reads (R.left source.old) (R.left source.new) (λ read. Schedule read steps.items)) }
    // Each command that a step sends is valid.
    ensures well { IfOk result (λ steps. AreWell steps.items) }
    // After an Ok, the source has ended, and none of its bytes is left.
    ensures end { OnOk result (IsTrue (R.has_ended source.new) × IsAtEnd (R.left source.new)) }
    // A fault says which lines were read before it, and why the next was not.
    ensures err { IfErr result (λ fault. Reads (R.left source.old) (R.left source.new) (λ read. StopsAt pair_run fault (R.has_ended source.new) read [])) }
    // The source failed once if the fault is `Read`, and not at all otherwise.
    ensures reads { MatchResult result (λ _. R.failures source.new ≡ R.failures source.old)
        (λ fault. R.failures source.new ≡ R.failures source.old + failed_reads fault) }
    // The fault is never `Write`, because nothing is written.
    ensures no_write { IfErr result (λ fault. failed_writes fault ≡ 0) }
{
    let mut reader = StepReader::new(alloc)?;
    answer_lines(alloc, &mut reader, MOST_LINES, source, &mut Nowhere)?;
    Ok(reader.steps)
}

// Reads lines as steps and holds them, with the scratch for reading the lines.
#[derive(Drop)]
struct StepReader {
    steps: Vec<PairStep>,
    scratch: Box<Scratch>,
}

impl StepReader {
    // Makes a reader that has read nothing.
    fn new(alloc: Global) -> Result<StepReader, AllocError>
        ensures { IfOk result (λ reader. reader.steps.items ≡ []) }
    {
        let scratch = Box::new(alloc, Scratch::new(alloc))?;
        Ok(StepReader {
            steps: Vec::new(alloc),
            scratch,
        })
    }
}

impl Answerer for StepReader {
    ghost answers = { reader_answers };

    // Nothing is written for a line.
    fn answer(
        &mut self,
        alloc: Global,
        _number: u64,
        line: &[u8],
    ) -> Result<Option<Vec<u8>>, AnswerFault> {
        let Some(step) = read_pair_step(alloc, line, self.scratch.as_mut())? else {
            return Ok(None);
        };
        add_step(&mut self.steps, step)?;
        Ok(Some(Vec::new(alloc)))
    }
}

// Adds a step at the end.
fn add_step(steps: &mut Vec<PairStep>, step: PairStep) -> Result<(), AllocError>
    ensures { OnOk result (steps.new.items ≡ steps.old.items ++ step ∷ []) }
{
    steps.push(step)?;
    Ok(())
}
