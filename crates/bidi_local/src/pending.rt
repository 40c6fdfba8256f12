//! The pending commands, by their ids, in the order in which they were sent.
ghost use Rattle.std.specs.Prelude.{◌≡◌, ◌<◌, ◌^◌, map, IfOk};
ghost use Rattle.std.specs.List.{AllByRecursion};
ghost use Rattle.bidi_local.specs.Pending.{ids, method_of, without};

use bidi_messages::Method;
use bidi_tree::JsUint;
use indexmap::IndexMap;
use std::alloc::{AllocError, Global};

/// The method of the pending command with this id, if there is one. Takes no memory.
pub(crate) fn method_of(pending: &IndexMap<u64, Method>, id: u64) -> Option<Method>
    ensures { result ≡ method_of pending.now.entries id }
{
    pending.get(&id).copied()
}

/// Removes the command with this id; the others keep their order. Takes no memory.
pub(crate) fn settle(pending: &mut IndexMap<u64, Method>, id: u64)
    ensures { pending.new.entries ≡ without pending.old.entries id }
{
    pending.shift_remove(&id);
}

/// Lists the ids of the pending commands, in the order in which they were sent.
///
/// # Errors
/// No memory: an allocation failed.
pub(crate) fn ids_of(
    alloc: Global,
    pending: &IndexMap<u64, Method>,
) -> Result<Vec<JsUint>, AllocError>
    requires { AllByRecursion (λ w. w.0 < 2 ^ 53) pending.now.entries }
    ensures { IfOk result (λ all. map (λ id. id.value) all.items ≡ ids pending.now.entries) }
{
    let mut all = Vec::new(alloc);
    for id in pending.keys() {
        all.push(JsUint { value: *id })?;
    }
    Ok(all)
}

/// Lists the pending commands by id and method, in the order in which they were sent.
///
/// # Errors
/// No memory: an allocation failed.
pub(crate) fn waiting_of(
    alloc: Global,
    pending: &IndexMap<u64, Method>,
) -> Result<Vec<(JsUint, Method)>, AllocError>
    requires { AllByRecursion (λ w. w.0 < 2 ^ 53) pending.now.entries }
    ensures { IfOk result (λ all. map (λ w. (w.0.value, w.1)) all.items ≡ pending.now.entries) }
{
    let mut all = Vec::new(alloc);
    for (id, method) in pending.iter() {
        all.push((JsUint { value: *id }, *method))?;
    }
    Ok(all)
}
