//! From the arguments of the command line to the run that they ask for.
ghost use Rattle.std.specs.Prelude.{◌≡◌, IfErr, IfOk, MatchResult};
ghost use Rattle.bidi_command_line.specs.declared.run.Run.{Run};
ghost use Rattle.bidi_command_line.specs.CommandLine.{AsksFor, IsRefusedFor, IsSaidBy, IsWithinBounds};
ghost use Rattle.bidi_command_line.specs.CommandLine.{line_of};

use crate::fault::{LineFault, fault, no_value};
use crate::grammar::command;
use crate::run::Run;
use crate::values::run_of;
use std::alloc::Global;

/// Reads the arguments after the program's name.
///
/// # Errors
/// - `Help`: help or the version was asked for.
/// - `Usage`: the arguments ask for no run.
/// - `NoMemory`: an allocation failed.
pub fn command_line(alloc: Global, words: &[&str]) -> Result<Run, LineFault>
    // After an Ok, the arguments ask for this run.
    ensures ok { IfOk result (AsksFor (line_of words.now)) }
    // If the arguments ask for a run, the result is that run, unless an allocation failed.
    ensures asked { (run : Run) → AsksFor (line_of words.now) run
        → MatchResult result (λ found. found ≡ run) (λ fault. fault ≡ LineFault.NoMemory) }

    // The numbers of the run are within their bounds.
    ensures bounds { IfOk result IsWithinBounds }

    // The usual ways to write a run ask for it.
    ensures said { (run : Run) → IsSaidBy run (line_of words.now) → AsksFor (line_of words.now) run }

    // `Help` and `Usage` have their cause among the faults that `clap` finds, or in options that
    // have no valid value or do not go together.
    ensures err { IfErr result (IsRefusedFor (line_of words.now)) }
{
    let Ok(command) = command(alloc) else {
        return Err(LineFault::NoMemory);
    };
    match command.try_get_matches_from(words) {
        Ok(matches) => match run_of(&matches) {
            Some(run) => Ok(run),
            None => Err(no_value(alloc, &matches)),
        },
        Err(error) => Err(fault(alloc, &error)),
    }
}
