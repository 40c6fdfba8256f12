//! Why a value was not made of its parts.
ghost use Rattle.std.specs.Prelude.{◌≡◌, IfOk, true};
ghost use Rattle.bidi_tree.specs.Node.{MembersAreWhole};
ghost use Rattle.bidi_tree.specs.View.{members_node};
ghost use Rattle.bidi_shape.specs.Fits.{Fits, without};
ghost use Rattle.bidi_shape.specs.Made.{Makes};
ghost use Rattle.bidi_shape.specs.Parts.{has_named, texts_in};
ghost use Rattle.bidi_shape.specs.ValueLaws.{others_of};
ghost use Rattle.bidi_shape.specs.Limits.{most_levels};

use crate::ext::{Clash, Ext};
use crate::fault::ShapeFault;
use crate::shape::Shape;
use bidi_tree::Members;
use std::alloc::{AllocError, Global};
use thiserror::Error;

/// Why a value was not made of its parts, which are used up. If several faults apply, a constructor returns
/// the first.
#[derive(Clone, Copy, Debug, PartialEq, Eq, Drop, Error)]
pub enum MakeFault {
    /// A further member has a name of the rule. Leave it out, or give it as the part that has this name.
    #[error("a further member has a known name")]
    Clash,
    /// The object would be read as a value of an earlier alternative of its choice. Make that value instead,
    /// or leave out the member that makes it fit.
    #[error("an earlier alternative takes the value")]
    Shadowed,
    /// A further member has more than 60 levels, or an `Odd` in it, which is a number such as 1.5 that is not
    /// whole or not within js-int. Or the new value itself has more than 60 levels. Send fewer levels, and
    /// such a number as a string.
    #[error("a further member has too many levels, or a number that is not kept")]
    TooDeep,
    /// An allocation failed. The same parts may be made and passed again.
    #[error("out of memory")]
    NoMemory,
}

impl From<AllocError> for MakeFault {
    ghost use Rattle.bidi_shape.specs.declared.making.MakeFault.TheVariants.{NoMemory};

    ghost from_gives = { λ _ e. e ≡ NoMemory };

    fn from(_error: AllocError) -> MakeFault {
        MakeFault::NoMemory
    }
}

impl From<Clash> for MakeFault {
    ghost use Rattle.bidi_shape.specs.declared.making.MakeFault.TheVariants.{Clash};

    ghost from_gives = { λ _ e. e ≡ Clash };

    fn from(_clash: Clash) -> MakeFault {
        MakeFault::Clash
    }
}

/// Takes the further members of an object whose rule has these names. Takes no memory.
///
/// # Errors
/// - `Clash`: a member has one of the names.
/// - `TooDeep`: a member has an `Odd` in it, or more than 60 levels.
pub fn further(members: Members, names: &[&str]) -> Result<Ext, MakeFault>
    // An Ok has exactly these members, and neither fault applies; an error names the first fault
    // that applies.
    ensures made { Makes result
        (has_named (texts_in names.now) (members_node members.entries) ≡ true)
        ⊥
        (¬ MembersAreWhole (members_node members.entries) most_levels)
        (λ e. others_of e ≡ members_node members.entries) }
    // After an Ok, no member has one of the names.
    ensures unnamed { IfOk result (λ e. without (texts_in names.now) (others_of e) ≡ others_of e) }
    // After an Ok, no member has an `Odd`, and none has more than 60 levels.
    ensures whole { IfOk result (λ e. MembersAreWhole (others_of e) most_levels) }
{
    let ext = Ext::new(members, names)?;
    if !ext.is_whole() {
        return Err(MakeFault::TooDeep);
    }
    Ok(ext)
}

/// Checks that the value would not be read as an earlier alternative of its choice, by reading an outline of
/// it so.
///
/// # Errors
/// - `Shadowed`: the value's tree fits the earlier alternative.
/// - `NoMemory`: an allocation failed.
pub fn not_shadowed<Earlier: Shape, V: Shape>(alloc: Global, value: &V) -> Result<(), MakeFault>
    // An Ok means that the value's tree does not fit the earlier rule; `Shadowed` means that it
    // does.
    ensures { Makes result ⊥ (Fits (V.shape.tree_of value.now) Earlier.shape.rule) ⊥ (λ _. Unit {0}) }
{
    let outline = value.outline(alloc)?;
    match Earlier::from_tree(alloc, &outline) {
        Ok(_) => Err(MakeFault::Shadowed),
        Err(ShapeFault::NoFit) => Ok(()),
        Err(ShapeFault::NoMemory) => Err(MakeFault::NoMemory),
    }
}
