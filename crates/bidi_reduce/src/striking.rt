//! The steps of a play that are kept for a session.
ghost use Rattle.std.specs.Prelude.{◌≡◌, ℕ, ◌<◌, ◌≤◌, List, [], ◌∷◌, ◌++◌, map, length, if◌then◌else◌, IfOk, OnOk, OnErr, IsErrOf};
ghost use Rattle.bidi_remote.specs.Machine.History.{Input, IsHeardAs};
ghost use Rattle.bidi_reduce.specs.Kept as struck;
ghost use Rattle.bidi_reduce.specs.Seen.{sees};
ghost use Rattle.bidi_sessions.specs.View.{step_of};
ghost use Rattle.bidi_reduce.specs.Follows.{Follows, is_kept};
ghost use Rattle.bidi_reduce.specs.Strikes.{Strikes};
ghost use Rattle.bidi_sessions.specs.Limits.{most_steps};

use bidi_remote::{RemoteEnd, RemoteFault, Step};
use std::alloc::{AllocError, Global};

/// The steps of a play that are kept for the session of this number, in their order.
///
/// All are kept but texts on a connection that speaks for another session, where the text is refused, or its
/// method is `session.status`, `session.subscribe`, `session.unsubscribe`, `browsingContext.activate`,
/// `browsingContext.getTree` or `script.getRealms`. The session is sent the same by the steps that are kept as
/// by all. A number that no session has is sent nothing either way.
///
/// Time grows with the steps: a struck one costs its reading and its decision, a kept one of another session
/// these and its taking. Memory holds a remote end, and the steps that are kept.
///
/// # Errors
/// 1. `NoMemory`: an allocation failed.
/// 2. `WornOut`: more than 1,000,000,000 steps were handed in.
pub fn strike(alloc: Global, steps: &[Step], session: u32) -> Result<Vec<Step>, RemoteFault>
    // After an Ok, the steps are those that are kept for the session, as the definitions say.
    ensures ok { IfOk result (λ kept. Strikes session (map step_of steps.now) (map step_of kept.items)) }
    // What any session sees of a play, it sees of what is kept of it for that session.
    ensures sees_same { (inputs : List Input) (s : ℕ) → sees inputs s ≡ sees (struck.strike inputs s) s }
    // `WornOut` comes only if there are more than `most_steps` steps.
    ensures worn_out { IsErrOf result RemoteFault.WornOut → most_steps < length steps.now }
{
    let mut end = RemoteEnd::new(alloc)?;
    let mut kept = Vec::new(alloc);
    for step in steps {
        keep_if_kept(alloc, &mut end, session, step, &mut kept)?;
    }
    Ok(kept)
}

// Hands a step to the end if it is kept, and adds it to those that are.
fn keep_if_kept(
    alloc: Global,
    end: &mut RemoteEnd,
    session: u32,
    step: &Step,
    kept: &mut Vec<Step>,
) -> Result<(), RemoteFault>
    ensures ok { OnOk result ((i : Input) × IsHeardAs (step_of step.now) i
        × ((inputs : List Input) → Follows end.old session inputs
        → (map step_of kept.new.items ≡ map step_of kept.old.items ++ (if is_kept session inputs i then step_of step.now ∷ [] else []))
        × Follows end.new session (inputs ++ i ∷ []))) }
    ensures worn_out { (inputs : List Input) → Follows end.old session inputs → IsErrOf result RemoteFault.WornOut → most_steps ≤ length inputs }
{
    if !take_kept(end, session, step.copy(alloc)?)? {
        return Ok(());
    }
    keep(kept, step.copy(alloc)?)?;
    Ok(())
}

/// Hands a step to the remote end if it is kept for the session of this number; returns whether it is.
///
/// A step that is struck does not change which later steps are struck. So an end that gets all its steps by this
/// call strikes the same ones as an end that has taken every step. What the end sends is dropped.
///
/// # Errors
/// The remote end is then as it was.
/// 1. `NoMemory`: an allocation failed.
/// 2. `WornOut`: the end has accepted 1,000,000,000 steps.
pub fn take_kept(end: &mut RemoteEnd, session: u32, step: Step) -> Result<bool, RemoteFault>
    // After an Ok, the step is heard as an input, and the result says whether that input is kept for the session.
    // If the end followed some inputs, it now follows these and the new one.
    ensures ok { IfOk result (λ kept. (i : Input) × IsHeardAs (step_of step) i
        × ((inputs : List Input) → Follows end.old session inputs
        → (kept ≡ is_kept session inputs i) × Follows end.new session (inputs ++ i ∷ []))) }
    // After an error, the end follows the inputs that it followed before.
    ensures err { OnErr result ((inputs : List Input) → Follows end.old session inputs → Follows end.new session inputs) }
    // `WornOut` comes only if the end followed at least `most_steps` inputs.
    ensures worn_out { (inputs : List Input) → Follows end.old session inputs → IsErrOf result RemoteFault.WornOut → most_steps ≤ length inputs }
{
    if end.is_struck(session, &step)? {
        return Ok(false);
    }
    let _ = end.step(step)?;
    Ok(true)
}

// Adds a step at the end.
fn keep(kept: &mut Vec<Step>, step: Step) -> Result<(), AllocError>
    ensures { OnOk result (kept.new.items ≡ kept.old.items ++ step ∷ []) }
{
    kept.push(step)?;
    Ok(())
}
