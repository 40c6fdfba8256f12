//! Objects with the members `method` and `params`, whose `method` decides the rule of `params`: commands and
//! events.
ghost use Rattle.std.specs.Prelude.{◌≡◌, IfOk, Some, true};
ghost use Rattle.bidi_tree.specs.Node as kind;
ghost use Rattle.bidi_tree.specs.Node.{get_member};
ghost use Rattle.bidi_tree.specs.Kind.{members_in};
ghost use Rattle.bidi_tree.specs.Outline.{outline_node};
ghost use Rattle.bidi_shape.specs.Term.{required, Term};
ghost use Rattle.bidi_shape.specs.Fits.{Fits};
ghost use Rattle.bidi_shape.specs.Parts.{PartFits, distinct};
ghost use Rattle.bidi_shape.specs.Outcome.{IfNoFit};
ghost use Rattle.bidi_shape.specs.Table.{unfolded};
ghost use Rattle.bidi_messages.specs.Envelope.{envelope_term, envelope_tree, EnvelopeIsWell, envelope_names};

use bidi_methods::Payload;
use bidi_shape::{
    Ext, Fields, Named, Parsed, Required, Shape, ShapeFault, add_literal, add_member, read_word,
};
use bidi_tree::{Outline, outline_members_of, put_outline};
use std::alloc::{AllocError, Global};

/// The number of members that the rule of such an object names.
const ROOM: usize = 3;

/// An object that carries a payload: its first member, its method with the params, and its further members.
#[derive(Drop)]
pub(crate) struct Envelope<X: Drop, D: Drop> {
    pub head: X,
    pub payload: D,
    pub ext: Ext,
}

/// Reads `{ NAME: X, method: "M", params: P, Extensible }`, whose params are those of its method.
///
/// # Errors
/// - `NoFit`: the tree does not fit the rule that has these members.
/// - `NoMemory`: an allocation failed.
pub(crate) fn read_envelope<X: Shape, K: Named, D: Payload<K>, S: Parsed>(
    alloc: Global,
    tree: &S,
    name: &str,
) -> Result<Envelope<X, D>, ShapeFault>
    requires once { distinct (envelope_names name.now) ≡ true }
    ensures ok { IfOk result (λ a. (envelope_tree name.now X.shape K.words D.payload a.head a.payload a.ext ≡ S.tree tree.now)
        × EnvelopeIsWell name.now X.shape K.words D.payload a.head a.payload a.ext) }
    ensures no_fit { (τ : Term) → unfolded τ ≡ envelope_term name.now X.shape K.words D.payload → IfNoFit result (Fits (S.tree tree.now) τ → ⊥) }
{
    tree.check_map()?;
    let Required(head, ext) = Required::<X, Ext>::read(
        alloc,
        tree,
        &[name],
        &[],
        &[name, "method", "params"],
    )?;
    let kind = word_at(tree, "method")?;
    let payload = content_at::<K, D, S>(alloc, tree, "params", kind)?;
    Ok(Envelope { head, payload, ext })
}

/// Reads the value whose string a member is.
fn word_at<K: Named, S: Parsed>(map: &S, name: &str) -> Result<K, ShapeFault>
    ensures ok { IfOk result (λ k. get_member name.now (members_in (S.tree map.now)) ≡ Some (kind.text (K.words.text_of k))) }
    ensures no_fit { IfNoFit result (PartFits required K.words.rule (get_member name.now (members_in (S.tree map.now))) → ⊥) }
{
    match map.member(name) {
        Some(value) => read_word(value),
        None => Err(ShapeFault::NoFit),
    }
}

/// Reads the value of a kind that a member is.
fn content_at<K: Drop, D: Payload<K>, S: Parsed>(
    alloc: Global,
    map: &S,
    name: &str,
    kind: K,
) -> Result<D, ShapeFault>
    ensures ok { IfOk result (λ v. (D.payload.kind v ≡ kind)
        × (get_member name.now (members_in (S.tree map.now)) ≡ Some (D.payload.tree_of v)) × D.payload.well v) }
    ensures no_fit { IfNoFit result (PartFits required (D.payload.rule kind) (get_member name.now (members_in (S.tree map.now))) → ⊥) }
{
    match map.member(name) {
        Some(value) => D::read(alloc, kind, value),
        None => Err(ShapeFault::NoFit),
    }
}

/// Makes the outline of the object of a first member, a payload and further members.
///
/// # Errors
/// No memory: an allocation failed.
pub(crate) fn outline_envelope<'a, X: Shape, K: Named, D: Payload<K>>(
    alloc: Global,
    name: &'a str,
    head: &'a X,
    payload: &'a D,
    ext: &'a Ext,
) -> Result<Outline<'a>, AllocError>
    ensures { IfOk result (λ d. outline_node d ≡ envelope_tree name.now X.shape K.words D.payload head.now payload.now ext.now) }
{
    let mut members = outline_members_of(alloc, &ext.members, ROOM)?;
    put_outline(&mut members, "params", payload.outline(alloc)?)?;
    add_literal(&mut members, "method", payload.kind().name())?;
    add_member(alloc, &mut members, name, head)?;
    Ok(Outline::Map(members))
}
