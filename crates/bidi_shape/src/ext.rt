//! The members that a list of known names does not have.
ghost use Rattle.std.specs.BTreeMap.{IsOrdered};
ghost use Rattle.std.specs.String.{string_cmp};
ghost use Rattle.std.specs.List.Sorted.{IsStrictlySortedBy-prop};
ghost use Rattle.bidi_shape.specs.Limits.{most_levels};

use crate::members::{MAX_LEVELS, has_listed};
use bidi_tree::Members;
use std::alloc::{AllocError, Global};
use thiserror::Error;

/// A member has a known name. Leave it out, or give it as the part that has this name.
#[derive(Clone, Copy, Debug, PartialEq, Eq, Error)]
#[error("a member has a known name")]
pub struct Clash;

/// The members of an extensible object that its rule does not name, in byte order of their names.
#[derive(Drop)]
pub struct Ext {
    /// In a valid object none has a name of the rule, and each fits `any`: it has no `Odd` and at most 60
    /// levels.
    pub members: Members,
    // The names ascend in byte order.
    pub ghost ordered: { IsOrdered string_cmp members } by { IsStrictlySortedBy-prop string_cmp _ },
}

impl Ext {
    ghost use Rattle.std.specs.Prelude.{◌≡◌, IfOk, MatchResult, IsTrue, ◌↔◌, true, false};
    ghost use Rattle.bidi_tree.specs.Node.{MembersAreWhole, no_members};
    ghost use Rattle.bidi_tree.specs.View.{members_node};
    ghost use Rattle.bidi_shape.specs.Fits.{without};
    ghost use Rattle.bidi_shape.specs.Parts.{has_named, texts_in};
    ghost use Rattle.bidi_shape.specs.ValueLaws.{others_of};

    /// Makes an `Ext` without members. Takes no memory.
    pub fn empty(alloc: Global) -> Ext
        // The result has no members.
        ensures { others_of result ≡ no_members }
    {
        Ext {
            members: Members::new(alloc),
        }
    }

    /// Takes these members if none of them has a known name. Takes no memory.
    ///
    /// # Errors
    /// `Clash`: a member has one of the names.
    #[tactic(auto, using(crate::specs::OthersLaws::without_unnamed))]
    pub fn new(members: Members, names: &[&str]) -> Result<Ext, Clash>
        // An Ok has exactly these members, none of which has a known name; `Clash` means that one
        // has.
        ensures made { MatchResult result
            (λ e. (has_named (texts_in names.now) (members_node members.entries) ≡ false)
            × (others_of e ≡ members_node members.entries))
            (λ _. has_named (texts_in names.now) (members_node members.entries) ≡ true) }
        // After an Ok, no member has a known name.
        ensures unnamed { IfOk result (λ e. without (texts_in names.now) (others_of e) ≡ others_of e) }
    {
        if has_listed(&members, names) {
            return Err(Clash);
        }
        Ok(Ext::of(members))
    }

    /// Takes these members, whatever their names are. Takes no memory.
    pub fn of(members: Members) -> Ext
        // The result has exactly these members.
        ensures { result.members ≡ members }
    {
        // The contract of `len` needs the order of the names, which an `Ext` keeps.
        let _ = members.len();
        Ext { members }
    }

    /// Whether each member fits `any`. Takes no memory.
    pub fn is_whole(&self) -> bool
        // The result is true exactly if no member has an `Odd` and none has more than 60 levels.
        ensures { IsTrue result ↔ MembersAreWhole (others_of self.now) most_levels }
    {
        bidi_tree::are_whole(&self.members, MAX_LEVELS)
    }

    /// Copies the members.
    ///
    /// # Errors
    /// No memory: an allocation failed.
    pub fn copy_members(&self) -> Result<Members, AllocError>
        // The copy has the same names and trees.
        ensures { IfOk result (λ ms. members_node ms.entries ≡ others_of self.now) }
    {
        bidi_tree::copy_members(&self.members)
    }
}
