//! Why a line of a test has no effect.
ghost use Rattle.std.specs.Prelude.{◌≡◌, ℕ, List, IfOk, OnOk, IsErrOf};
ghost use Rattle.bidi_script_lines.specs.Outcomes.{NoEffect, outcome_of};
ghost use Rattle.bidi_script_lines.specs.Performing.{HasReason};

use crate::outcome::Outcome;
use bidi_remote::RemoteFault;
use bidi_rows::RowFault;
use bidi_scripted::ScriptFault;
use std::alloc::Global;

/// Why `on` has no effect.
const NO_EVENTS: &str = "the events are not an array of events";

/// The outcome of a line that the scripted end refuses.
pub(crate) fn refused(alloc: Global, fault: ScriptFault) -> Result<Outcome, RemoteFault>
    ensures ok { IfOk result (λ o. (reason : List ℕ) × (outcome_of o ≡ NoEffect reason)) }
    ensures has_reason { OnOk result (HasReason fault) }
    ensures worn_out { IsErrOf result RemoteFault.WornOut → fault ≡ ScriptFault.WornOut }
{
    match fault {
        ScriptFault::NoMemory => Err(RemoteFault::NoMemory),
        ScriptFault::WornOut => Err(RemoteFault::WornOut),
        fault => Ok(Outcome::NoEffect(format!(in alloc; "{fault}")?)),
    }
}

/// The outcome of a line with events that the scripted end refuses.
pub(crate) fn refused_events(alloc: Global, fault: ScriptFault) -> Result<Outcome, RemoteFault>
    ensures ok { IfOk result (λ o. (reason : List ℕ) × (outcome_of o ≡ NoEffect reason)) }
    ensures has_reason { OnOk result (HasReason fault) }
    ensures worn_out { IsErrOf result RemoteFault.WornOut → fault ≡ ScriptFault.WornOut }
{
    match fault {
        ScriptFault::BadRow(RowFault::BadEvents) => no_effect(alloc, NO_EVENTS),
        _ => refused(alloc, fault),
    }
}

/// No effect, for this reason.
pub(crate) fn no_effect(alloc: Global, reason: &str) -> Result<Outcome, RemoteFault>
    ensures ok { IfOk result (λ o. outcome_of o ≡ NoEffect reason.now) }
    ensures worn_out { IsErrOf result RemoteFault.WornOut → ⊥ }
{
    Ok(Outcome::NoEffect(String::from_str(alloc, reason)?))
}
