//! Both ends over a list of steps.
ghost use Rattle.std.specs.Prelude.{◌≡◌, ◌≤◌, ℕ, List, [], ◌∷◌, ◌++◌, take, length, IfOk, IfSome, IfNone, IsErrOf};
ghost use Rattle.bidi_ledger.specs.Ledger.{PairInput, past_after, ledger};
ghost use Rattle.bidi_ledger.specs.Link.{link};
ghost use Rattle.bidi_link.specs.Outcomes.{AreOutcomes};
ghost use Rattle.bidi_ledger.specs.Pairing.{history};
ghost use Rattle.bidi_link.specs.Spoken.{IsSound};
ghost use Rattle.bidi_ledger.specs.Steps.{AreHeardAs, AreWell, LedgerIsWell, accounts_of};

use crate::ends::Ends;
use bidi_ledger::{Ledger, PairStep};
use bidi_remote::RemoteFault;
use json::Scratch;
use std::alloc::{AllocError, Global};

/// How many steps may be taken before their room is given back.
const MOST_SPARE: usize = 4096;

/// Plays steps of both ends: any number of local ends, each on a link of its own, and one remote end.
///
/// A text is made once and moved from end to end. Links and commands are found in constant time. The room of
/// steps is given back soon after they were taken, so memory holds the steps that are left and the ledger so
/// far.
///
/// # Errors
/// The steps are used up, and there is no ledger.
/// - `NoMemory`: an allocation failed.
/// - `WornOut`: the remote end had 1,000,000,000 steps, and another came.
pub fn pair(alloc: Global, steps: Vec<PairStep>) -> Result<Ledger, RemoteFault>
    // The commands that the steps send are valid.
    requires { AreWell steps.items }
    // After an Ok, the ledger is that of these steps. The texts for a link are events, and the
    // replies to its commands, each once and in order, and each reads back. Each reply is the one
    // that the machine sends for that very command, when it is taken up.
    ensures ok { IfOk result (λ l. (inputs : List PairInput) × AreHeardAs steps.items inputs × (accounts_of l ≡ ledger inputs)
        × ((n : ℕ) → IsSound (link (past_after [] inputs) n)) × ((n : ℕ) → AreOutcomes (past_after [] inputs) n)) }
    // Each result and each event in the ledger is valid, so it has a tree that can be written.
    ensures well { IfOk result LedgerIsWell }
    // `WornOut` comes only if the steps up to some point gave the remote end 1,000,000,000 inputs.
    ensures worn_out { IsErrOf result RemoteFault.WornOut → (n : ℕ) × (inputs : List PairInput) × AreHeardAs (take n steps.items) inputs
        × (1000000000 ≤ length (history (past_after [] inputs))) }
{
    let mut ends = Ends::new(alloc)?;
    let mut scratch = new_scratch(alloc)?;
    let mut left = steps;
    left.reverse();
    while let Some(step) = next_step(&mut left) {
        ends.take(step, scratch.as_mut())?;
    }
    let ledger = ends.into_ledger()?;
    Ok(ledger)
}

// Makes a scratch for all local ends. Its 16 KB have a block of their own, to keep the stack free.
fn new_scratch(alloc: Global) -> Result<Box<Scratch>, AllocError> {
    let scratch = Box::new(alloc, Scratch::new(alloc))?;
    Ok(scratch)
}

// Removes and returns the last step. Gives back the room of earlier steps, if that is much.
fn next_step(left: &mut Vec<PairStep>) -> Option<PairStep>
    ensures some { IfSome result (λ x. left.old.items ≡ left.new.items ++ x ∷ []) }
    ensures none { IfNone result (left.old.items ≡ []) }
{
    if left.capacity() - left.len() > MOST_SPARE {
        left.shrink_to_fit();
    }
    left.pop()
}
