//! Steps of a play in a scripted play.
ghost use Rattle.std.specs.Prelude.{◌≡◌, ◌≤◌, List, length, IfOk, OnErr, IsErrOf};
ghost use Rattle.bidi_sessions.specs.Limits.{most_steps};
ghost use Rattle.bidi_sessions.specs.Step.{Text as Hearing};
ghost use Rattle.bidi_sessions.specs.View.{step_of};
ghost use Rattle.bidi_remote.specs.Machine.History.{Input};
ghost use Rattle.bidi_remote.specs.State.Stands.{StandsFor};
ghost use Rattle.bidi_scripted.specs.Script.{no_script};
ghost use Rattle.bidi_scripted.specs.View.{script_of};
ghost use Rattle.bidi_script_lines.specs.ScriptLines.{Plain};
ghost use Rattle.bidi_script_lines.specs.Outcomes.{outcome_of};
ghost use Rattle.bidi_script_lines.specs.Performing.{TakesStep, StandsAsBefore, Brings, taken_outcome};

use crate::outcome::Outcome;
use bidi_remote::{RemoteFault, Step};
use bidi_scripted::{ScriptedEnd, Taken};
use bidi_tree::JsUint;

/// Takes a step of a play.
pub(crate) fn take_step(end: &mut ScriptedEnd, step: Step) -> Result<Outcome, RemoteFault>
    ensures plain { script_of end.old.script ≡ no_script → TakesStep (step_of step) end.old end.new result × (script_of end.new.script ≡ no_script) }
    ensures brings { (h : List Input) → StandsFor end.old.end h → IfOk result (λ o. Brings (Plain (step_of step)) h end.old end.new (outcome_of o)) }
    ensures err { OnErr result (StandsAsBefore end.old end.new) }
    ensures worn_out { (h : List Input) → StandsFor end.old.end h → IsErrOf result RemoteFault.WornOut → most_steps ≤ length h }
{
    match end.step(step) {
        Ok(taken) => Ok(of_taken(taken)),
        Err(fault) => Err(fault),
    }
}

/// Takes a message that came in on a connection, and returns what it brings about. The message is lent.
///
/// # Errors
/// The scripted end is then as it was.
/// 1. `NoMemory`: an allocation failed.
/// 2. `WornOut`: the remote end takes no more steps.
pub(crate) fn hear(end: &mut ScriptedEnd, conn: JsUint, text: &str) -> Result<Outcome, RemoteFault>
    ensures plain { script_of end.old.script ≡ no_script
        → TakesStep (Hearing conn.value text.now) end.old end.new result × (script_of end.new.script ≡ no_script) }
    ensures brings { (h : List Input) → StandsFor end.old.end h
        → IfOk result (λ o. Brings (Plain (Hearing conn.value text.now)) h end.old end.new (outcome_of o)) }
    ensures worn_out { (h : List Input) → StandsFor end.old.end h → IsErrOf result RemoteFault.WornOut → most_steps ≤ length h }
{
    match end.hear(conn, text) {
        Ok(taken) => Ok(of_taken(taken)),
        Err(fault) => Err(fault),
    }
}

/// The outcome of what the scripted end took.
pub(crate) fn of_taken(taken: Taken) -> Outcome
    ensures { outcome_of result ≡ taken_outcome taken }
{
    match taken {
        Taken::HandedOn(sent) => Outcome::OfMachine(sent),
        Taken::Answered(sent) => Outcome::Sent(sent),
        Taken::Held(number) => Outcome::Held(number),
    }
}
