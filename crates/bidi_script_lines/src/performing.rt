//! Giving a line of a scripted play to a scripted end.
ghost use Rattle.std.specs.Prelude.{◌≡◌, ◌≤◌, List, length, IfOk, OnErr, IsErrOf};
ghost use Rattle.bidi_sessions.specs.Limits.{most_steps};
ghost use Rattle.bidi_sessions.specs.Step.{Step as Taking};
ghost use Rattle.bidi_remote.specs.Machine.History.{Input};
ghost use Rattle.bidi_remote.specs.State.Stands.{StandsFor};
ghost use Rattle.bidi_scripted.specs.Script.{no_script};
ghost use Rattle.bidi_scripted.specs.View.{script_of};
ghost use Rattle.bidi_script_lines.specs.ScriptLines.{Plain};
ghost use Rattle.bidi_script_lines.specs.View.{said_by};
ghost use Rattle.bidi_script_lines.specs.Outcomes.{outcome_of};
ghost use Rattle.bidi_script_lines.specs.Performing.{TakesStep, StandsAsBefore, Brings};

use crate::connections::{
    close, cut, cut_after, refuse, resume, send, send_bytes, send_raw, stall,
};
use crate::outcome::Outcome;
use crate::rows::{answer, emit, follow, hold, know, release, release_with, unanswer};
use crate::script_line::ScriptLine;
use crate::steps::take_step;
use bidi_remote::RemoteFault;
use bidi_scripted::ScriptedEnd;
use std::alloc::Global;

/// Gives a line to a scripted end, and returns what it brings about.
///
/// # Errors
/// The scripted end is then as it was.
/// 1. `NoMemory`: an allocation failed.
/// 2. `WornOut`: the remote end takes no more steps.
pub fn perform(
    alloc: Global,
    end: &mut ScriptedEnd,
    line: ScriptLine,
) -> Result<Outcome, RemoteFault>
    // With an empty script a step is handed on as it came, and the script stays empty.
    ensures plain { (s : Taking) → said_by line ≡ Plain s → script_of end.old.script ≡ no_script
        → TakesStep s end.old end.new result × (script_of end.new.script ≡ no_script) }
    // Any other line brings about what the definition says.
    ensures brings { (h : List Input) → StandsFor end.old.end h → IfOk result (λ o. Brings (said_by line) h end.old end.new (outcome_of o)) }
    // After an error the script is as it was, and the remote end stands for the histories that it stood for before.
    ensures err { OnErr result (StandsAsBefore end.old end.new) }
    // `WornOut` comes only if the remote end has accepted `most_steps` steps.
    ensures worn_out { (h : List Input) → StandsFor end.old.end h → IsErrOf result RemoteFault.WornOut → most_steps ≤ length h }
{
    match line {
        ScriptLine::Step(step) => take_step(end, step),
        ScriptLine::Answer(row) => answer(alloc, end, row.as_str()),
        ScriptLine::Hold(row) => hold(alloc, end, row.as_str()),
        ScriptLine::Release(number) => release(alloc, end, number),
        ScriptLine::ReleaseWith(number, row) => release_with(alloc, end, number, row.as_str()),
        ScriptLine::Unanswer(method) => unanswer(alloc, end, method.as_str()),
        ScriptLine::Emit(event) => emit(alloc, end, event.as_str()),
        ScriptLine::On(method, events) => follow(alloc, end, method.as_str(), events.as_str()),
        ScriptLine::Names(names) => know(alloc, end, names.as_str()),
        ScriptLine::Send(conn, text) => send(alloc, end, conn, text),
        ScriptLine::Bytes(conn, digits) => send_bytes(alloc, end, conn, digits),
        ScriptLine::Raw(conn, digits) => send_raw(alloc, end, conn, digits),
        ScriptLine::Stall(conn) => stall(alloc, end, conn),
        ScriptLine::Resume(conn) => resume(alloc, end, conn),
        ScriptLine::Cut(conn) => cut(alloc, end, conn),
        ScriptLine::CutAfter(conn, bytes) => cut_after(alloc, end, conn, bytes),
        ScriptLine::Close(conn, code) => close(alloc, end, conn, code),
        ScriptLine::Refuse(number, code) => refuse(alloc, number, code),
    }
}
