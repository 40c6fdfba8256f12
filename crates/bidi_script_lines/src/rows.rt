//! Lines by which a test answers commands, holds and releases them, and sends events.
ghost use Rattle.std.specs.Prelude.{◌≤◌, List, length, IfOk, OnErr, IsErrOf};
ghost use Rattle.bidi_sessions.specs.Limits.{most_steps};
ghost use Rattle.bidi_remote.specs.Machine.History.{Input};
ghost use Rattle.bidi_remote.specs.State.Stands.{StandsFor};
ghost use Rattle.bidi_script_lines.specs.ScriptLines as lines;
ghost use Rattle.bidi_script_lines.specs.Outcomes.{outcome_of};
ghost use Rattle.bidi_script_lines.specs.Performing.{IsUnchanged, StandsAsBefore, Brings};

use crate::outcome::Outcome;
use crate::reasons::{refused, refused_events};
use crate::steps::of_taken;
use bidi_remote::RemoteFault;
use bidi_scripted::ScriptedEnd;
use bidi_tree::JsUint;
use std::alloc::Global;

/// Adds a row that answers.
pub(crate) fn answer(
    alloc: Global,
    end: &mut ScriptedEnd,
    row: &str,
) -> Result<Outcome, RemoteFault>
    ensures brings { (h : List Input) → IfOk result (λ o. Brings (lines.Answer row.now) h end.old end.new (outcome_of o)) }
    ensures err { OnErr result (IsUnchanged end.old end.new) }
    ensures worn_out { IsErrOf result RemoteFault.WornOut → ⊥ }
{
    match end.answer(row) {
        Ok(()) => Ok(Outcome::Sent(Vec::new(alloc))),
        Err(fault) => refused(alloc, fault),
    }
}

/// Adds a row that holds.
pub(crate) fn hold(alloc: Global, end: &mut ScriptedEnd, row: &str) -> Result<Outcome, RemoteFault>
    ensures brings { (h : List Input) → IfOk result (λ o. Brings (lines.Hold row.now) h end.old end.new (outcome_of o)) }
    ensures err { OnErr result (IsUnchanged end.old end.new) }
    ensures worn_out { IsErrOf result RemoteFault.WornOut → ⊥ }
{
    match end.hold(row) {
        Ok(()) => Ok(Outcome::Sent(Vec::new(alloc))),
        Err(fault) => refused(alloc, fault),
    }
}

/// Removes the rows of a method.
pub(crate) fn unanswer(
    alloc: Global,
    end: &mut ScriptedEnd,
    method: &str,
) -> Result<Outcome, RemoteFault>
    ensures brings { (h : List Input) → IfOk result (λ o. Brings (lines.Unanswer method.now) h end.old end.new (outcome_of o)) }
    ensures err { OnErr result (IsUnchanged end.old end.new) }
    ensures worn_out { IsErrOf result RemoteFault.WornOut → ⊥ }
{
    match end.unanswer(method) {
        Ok(()) => Ok(Outcome::Sent(Vec::new(alloc))),
        Err(fault) => refused(alloc, fault),
    }
}

/// Hands a held command on.
pub(crate) fn release(
    alloc: Global,
    end: &mut ScriptedEnd,
    number: JsUint,
) -> Result<Outcome, RemoteFault>
    ensures brings { (h : List Input) → StandsFor end.old.end h → IfOk result (λ o. Brings (lines.Release number.value) h end.old end.new (outcome_of o)) }
    ensures err { OnErr result (StandsAsBefore end.old end.new) }
    ensures worn_out { (h : List Input) → StandsFor end.old.end h → IsErrOf result RemoteFault.WornOut → most_steps ≤ length h }
{
    match end.release(number.value) {
        Ok(taken) => Ok(of_taken(taken)),
        Err(fault) => refused(alloc, fault),
    }
}

/// Answers a held command.
pub(crate) fn release_with(
    alloc: Global,
    end: &mut ScriptedEnd,
    number: JsUint,
    row: &str,
) -> Result<Outcome, RemoteFault>
    ensures brings { (h : List Input) → StandsFor end.old.end h
        → IfOk result (λ o. Brings (lines.ReleaseWith number.value row.now) h end.old end.new (outcome_of o)) }
    ensures err { OnErr result (IsUnchanged end.old end.new) }
    ensures worn_out { (h : List Input) → StandsFor end.old.end h → IsErrOf result RemoteFault.WornOut → most_steps ≤ length h }
{
    match end.release_with(number.value, row) {
        Ok(sent) => Ok(Outcome::Sent(sent)),
        Err(fault) => refused(alloc, fault),
    }
}

/// Sends an event.
pub(crate) fn emit(alloc: Global, end: &ScriptedEnd, event: &str) -> Result<Outcome, RemoteFault>
    ensures brings { (h : List Input) → StandsFor end.now.end h → IfOk result (λ o. Brings (lines.Emit event.now) h end.now end.now (outcome_of o)) }
    ensures worn_out { (h : List Input) → StandsFor end.now.end h → IsErrOf result RemoteFault.WornOut → most_steps ≤ length h }
{
    match end.emit(event) {
        Ok(sent) => Ok(Outcome::Sent(sent)),
        Err(fault) => refused(alloc, fault),
    }
}

/// Has events follow those of a method.
pub(crate) fn follow(
    alloc: Global,
    end: &mut ScriptedEnd,
    method: &str,
    events: &str,
) -> Result<Outcome, RemoteFault>
    ensures brings { (h : List Input) → IfOk result (λ o. Brings (lines.On method.now events.now) h end.old end.new (outcome_of o)) }
    ensures err { OnErr result (IsUnchanged end.old end.new) }
    ensures worn_out { IsErrOf result RemoteFault.WornOut → ⊥ }
{
    match end.on(method, events) {
        Ok(()) => Ok(Outcome::Sent(Vec::new(alloc))),
        Err(fault) => refused_events(alloc, fault),
    }
}

/// Makes names known.
pub(crate) fn know(
    alloc: Global,
    end: &mut ScriptedEnd,
    names: &str,
) -> Result<Outcome, RemoteFault>
    ensures brings { (h : List Input) → IfOk result (λ o. Brings (lines.Names names.now) h end.old end.new (outcome_of o)) }
    ensures err { OnErr result (IsUnchanged end.old end.new) }
    ensures worn_out { IsErrOf result RemoteFault.WornOut → ⊥ }
{
    match end.names(names) {
        Ok(()) => Ok(Outcome::Sent(Vec::new(alloc))),
        Err(fault) => refused(alloc, fault),
    }
}
