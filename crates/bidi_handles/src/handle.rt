//! Values that handles and rows of the script table hold, and the two ways in which a script ends.
ghost use Rattle.std.specs.Prelude.{◌≡◌, ◌≤◌, ◌<◌, ◌^◌, string_bytes};
ghost use Rattle.bidi_tree.specs.Node.{levels, IsSound};
ghost use Rattle.bidi_tree.specs.Text.{compact_text};
ghost use Rattle.bidi_values.specs.View.{nested_tree};
ghost use Rattle.bidi_handles.specs.Sizes.{size_of};
ghost use Rattle.bidi_handles.specs.SoundProps.{IsSound-prop};

use crate::size::Size;
use bidi_values::{Nests, RemoteList, RemotePairs, RemotePlain, RemoteValue};
use std::rc::Rc;

/// A value that rows of the script table and handles share.
#[derive(Drop)]
pub struct HeldValue {
    /// The value itself.
    pub value: RemoteValue,
    /// The levels and bytes of its tree, counted once.
    pub(crate) size: Size,
    /// The compact text of its tree, written once.
    pub(crate) text: String,
    // The value has at most 60 levels.
    ghost few: { levels (nested_tree ⟦<RemotePlain as Nests<RemoteList, RemotePairs>>⟧.nesting value) ≤ 60 },
    // The size has the levels of the value's tree.
    ghost levels: { size.levels ≡ (size_of (nested_tree ⟦<RemotePlain as Nests<RemoteList, RemotePairs>>⟧.nesting value)).levels },
    // The size has the bytes of the value's compact text.
    ghost bytes: { size.bytes ≡ (size_of (nested_tree ⟦<RemotePlain as Nests<RemoteList, RemotePairs>>⟧.nesting value)).bytes },
    // The text of the value's tree reads back as that tree.
    ghost sound: { IsSound (nested_tree ⟦<RemotePlain as Nests<RemoteList, RemotePairs>>⟧.nesting value) } by { IsSound-prop _ },
    // The text is the compact text of the value's tree.
    ghost written: { string_bytes text ≡ compact_text (nested_tree ⟦<RemotePlain as Nests<RemoteList, RemotePairs>>⟧.nesting value) },
}

/// A value that a script throws. It has one level less than others, because the exception details wrap it.
#[derive(Drop)]
pub struct ThrownValue {
    /// The value itself.
    pub held: Rc<HeldValue>,
    // The value has at most 59 levels.
    ghost few: { levels (nested_tree ⟦<RemotePlain as Nests<RemoteList, RemotePairs>>⟧.nesting held.value.value) ≤ 59 },
}

/// How a script ends.
#[derive(Drop)]
pub enum Ending {
    /// The script returns this value.
    Returned(Rc<HeldValue>),
    /// The script throws this value.
    Threw(ThrownValue),
}

/// A handle of a realm.
#[derive(Drop)]
pub struct Handle {
    /// The number of the handle, from which its id is made.
    pub number: u64,
    /// The value that it holds.
    pub value: Rc<HeldValue>,
    // The number fits in an id.
    ghost number_fits: { number < 2 ^ 48 },
}
