//! The members that stand beside the `value` of a closed map.
ghost use Rattle.std.specs.Prelude.{◌≡◌, IfOk, OnOk, Some, codes, map as list_map};
ghost use Rattle.bidi_tree.specs.Node as kind;
ghost use Rattle.bidi_tree.specs.Node.{no_members, get_member, AreAscending};
ghost use Rattle.bidi_tree.specs.Kind.{members_in};
ghost use Rattle.bidi_tree.specs.Outline.{outline_node, outline_items, outline_members};
ghost use Rattle.bidi_tree.specs.View.{items_of};
ghost use Rattle.bidi_shape.specs.Term.{Term, null, required, list_of, names_of};
ghost use Rattle.bidi_shape.specs.Fits.{Fits, RowsFit, without};
ghost use Rattle.bidi_shape.specs.Parts.{joined, PartsAt, PartFits};
ghost use Rattle.bidi_shape.specs.Outcome.{IfNoFit};
ghost use Rattle.bidi_values.specs.SiblingLaws.{SiblingsOf, and_value, around, holding};

use bidi_shape::{Parsed, ShapeFault};
use bidi_tree::{Outline, OutlineMembers, put_outline};
use std::alloc::{AllocError, Global};

/// The most members of such a map: `value`, `type`, `handle` and `internalId`.
const ROOM: usize = 4;

/// What stands in a closed map beside its member `value`.
pub trait Siblings: Drop {
    // The rows of these members, what stands there, and the laws of both.
    ghost siblings: { SiblingsOf Self };

    /// Reads them.
    ///
    /// # Errors
    /// - `NoFit`: one of them does not fit, or there is another member.
    /// - `NoMemory`: an allocation failed.
    fn read<S: Parsed>(alloc: Global, map: &S) -> Result<Self, ShapeFault>
        // The members of the map stand in ascending order of their names.
        ensures sorted { OnOk result (AreAscending (members_in (S.tree map.now))) }
        // Each part stands under its name in the map, and what was read is well-formed.
        ensures ok { IfOk result (λ h. PartsAt siblings.rows (siblings.parts h) (members_in (S.tree map.now)) × siblings.well h) }
        // The map has no other member besides these and `value`.
        ensures rest { OnOk result (without (names_of (and_value siblings.rows null)) (members_in (S.tree map.now)) ≡ no_members) }
        // It is refused only if one of the members does not fit, or if there is another member.
        ensures no_fit { IfNoFit result (RowsFit (members_in (S.tree map.now)) siblings.rows
            → without (names_of (and_value siblings.rows null)) (members_in (S.tree map.now)) ≡ no_members → ⊥) };

    /// Puts their outlines among the members of a map.
    ///
    /// # Errors
    /// No memory: some of them may be there.
    fn add_to<'a>(
        &'a self,
        alloc: Global,
        members: &mut OutlineMembers<'a>,
    ) -> Result<(), AllocError>
        // Exactly the outlines of these parts are added.
        ensures { OnOk result (outline_members members.new ≡ joined siblings.rows (siblings.parts self.now) (outline_members members.old)) };

    /// A copy of the members, which shares no memory with them.
    ///
    /// # Errors
    /// No memory: an allocation failed.
    fn copy(&self, alloc: Global) -> Result<Self, AllocError>
        // The copy has the same parts.
        ensures parts { IfOk result (λ h. siblings.parts h ≡ siblings.parts self.now) }
        // The copy of well-formed members is well-formed.
        ensures well { siblings.well self.now → IfOk result siblings.well };
}

/// What stands beside the `value` of a closed map, and the list that this is.
pub(crate) fn read_around<'a, H: Siblings, S: Parsed>(
    alloc: Global,
    tree: &'a S,
) -> Result<(H, &'a [S]), ShapeFault>
    ensures ok { IfOk result (λ p. (around H.siblings p.0 (kind.list (items_of (list_map S.tree p.1.now))) ≡ S.tree tree.now) × H.siblings.well p.0) }
    ensures no_fit { IfNoFit result ((τ : Term) → Fits (S.tree tree.now) (holding H.siblings (list_of 0 τ)) → ⊥) }
{
    tree.check_map()?;
    let siblings = H::read(alloc, tree)?;
    let items = list_at_value(tree)?;
    Ok((siblings, items))
}

/// The items of the list under `value`.
fn list_at_value<S: Parsed>(map: &S) -> Result<&[S], ShapeFault>
    ensures ok { IfOk result (λ v. get_member (codes "value") (members_in (S.tree map.now)) ≡ Some (kind.list (items_of (list_map S.tree v.now)))) }
    ensures no_fit { IfNoFit result ((τ : Term) → PartFits required (list_of 0 τ) (get_member (codes "value") (members_in (S.tree map.now))) → ⊥) }
{
    match map.member("value") {
        Some(value) => value.as_items().ok_or(ShapeFault::NoFit),
        None => Err(ShapeFault::NoFit),
    }
}

/// The outline of the closed map of a list under `value` and what stands beside it.
pub(crate) fn outline_around<'a, H: Siblings>(
    alloc: Global,
    siblings: &'a H,
    items: Vec<Outline<'a>>,
) -> Result<Outline<'a>, AllocError>
    ensures { IfOk result (λ d. outline_node d ≡ around H.siblings siblings.now (kind.list (outline_items items.entry.items))) }
{
    let mut members = OutlineMembers::with_capacity(alloc, ROOM)?;
    put_outline(&mut members, "value", Outline::List(items))?;
    siblings.add_to(alloc, &mut members)?;
    Ok(Outline::Map(members))
}
