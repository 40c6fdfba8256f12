//! Arguments of a call that passed their checks.
ghost use Rattle.std.specs.Prelude.{◌≡◌};
ghost use Rattle.std.specs.Result.{IsOkAnd};
ghost use Rattle.std.proofs.Props.{props};
ghost use Rattle.bidi_handles.specs.Handles.{values_in};
ghost use Rattle.bidi_handles.specs.Sizes.{size_of};
ghost use Rattle.bidi_handles.specs.Values.{argument};
ghost use Rattle.bidi_handles.specs.ValuesInHand.{local_tree};

use crate::handles::Handles;
use crate::size::Size;
use bidi_values::LocalValue;

/// An argument of a call that passed its checks in the realm of some handles, with the size of the value that
/// it resolves to. So an argument is measured only once.
#[derive(Clone, Copy)]
pub struct Argument<'a> {
    /// The handles of the realm.
    pub(crate) handles: &'a Handles,
    /// The argument as it was passed.
    pub(crate) value: &'a LocalValue,
    /// The levels and bytes of the value that it resolves to.
    pub(crate) size: Size,
    // The argument resolves to a value that has this many levels.
    ghost levels: { IsOkAnd (argument (values_in handles.now) (local_tree value.now)) (λ t. size.levels ≡ (size_of t).levels) } by { Prim.hlevel props },
    // The argument resolves to a value that has this many bytes of compact text.
    ghost bytes: { IsOkAnd (argument (values_in handles.now) (local_tree value.now)) (λ t. size.bytes ≡ (size_of t).bytes) } by { Prim.hlevel props },
}
