//! Making a value that handles and rows of the script table share.
ghost use Rattle.std.specs.Prelude.{◌≡◌, ◌≤◌, IfOk, IfErr, string_bytes};
ghost use Rattle.bidi_tree.specs.Node.{levels, IsSound};
ghost use Rattle.bidi_tree.specs.Text.{compact_text};
ghost use Rattle.bidi_handles.specs.Sizes.{size_of};
ghost use Rattle.bidi_handles.specs.declared.refusal.Refusal.TheVariants as Refusal;
ghost use Rattle.bidi_values.specs.RemoteView.{remote_tree};

use crate::handle::HeldValue;
use crate::measuring::size_of;
use crate::refusal::Refusal;
use crate::size::Size;
use bidi_shape::Shape;
use bidi_tree::{append_outline, write_outline};
use bidi_values::RemoteValue;
use std::alloc::{AllocError, Global};
use std::rc::Rc;

/// Puts a value into shared memory, with the size and the text of its tree. Makes an outline to measure and write it.
///
/// # Errors
/// `NoMemory`: an allocation failed.
pub fn held(alloc: Global, value: RemoteValue) -> Result<Rc<HeldValue>, Refusal>
    // The value has at most 60 levels.
    requires { levels (remote_tree value) ≤ 60 }
    // After an Ok, the shared value is this one.
    ensures ok { IfOk result (λ held. held.value.value ≡ value) }
    // The only error is `NoMemory`.
    ensures err { IfErr result (λ e. e ≡ Refusal.NoMemory) }
{
    let (size, text) = measured_and_written(alloc, &value)?;
    Ok(Rc::new(alloc, HeldValue { value, size, text })?)
}

// The size of a value's tree, and its compact text.
fn measured_and_written(alloc: Global, value: &RemoteValue) -> Result<(Size, String), AllocError>
    requires { levels (remote_tree value.now) ≤ 60 }
    ensures size { IfOk result (λ r. r.0 ≡ size_of (remote_tree value.now)) }
    ensures text { IfOk result (λ r. string_bytes r.1 ≡ compact_text (remote_tree value.now)) }
    ensures sound { IfOk result (λ _. IsSound (remote_tree value.now)) }
{
    let outline = value.outline(alloc)?;
    let size = size_of(&outline);
    let room = size.bytes.saturating_add(ROOM_BEHIND) as usize;
    let text = append_outline(String::with_capacity(alloc, room)?, &outline)?;
    Ok((size, text))
}

/// The room that the writer wants behind a text, so that its block does not grow for the last bytes.
const ROOM_BEHIND: u64 = 32;

/// The compact text of a value's tree.
///
/// # Errors
/// No memory: an allocation failed.
pub(crate) fn text_of(alloc: Global, value: &RemoteValue) -> Result<String, AllocError>
    requires { levels (remote_tree value.now) ≤ 60 }
    // The result is the text of the tree.
    ensures text { IfOk result (λ s. string_bytes s ≡ compact_text (remote_tree value.now)) }
    // The tree is that which the text reads back as.
    ensures sound { IfOk result (λ _. IsSound (remote_tree value.now)) }
{
    let outline = value.outline(alloc)?;
    write_outline(alloc, &outline)
}
