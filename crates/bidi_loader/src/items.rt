//! The items of an array.
ghost use Rattle.std.specs.Prelude.{◌≡◌, ◌<◌, IfOk, IfSome, IsTrue, List};
ghost use Rattle.bidi_loader.specs.Meaning.{Tree, item, items_at, items_then, these, type_at, written_trees};
ghost use Rattle.bidi_loader.specs.Meaning.{parts_at};
ghost use Rattle.bidi_loader.specs.Readings.{IsNode, ItemsOf, items_view};
ghost use Rattle.bidi_cddl.specs.declared.written.Occurs.TheVariants.{Once};

use crate::fault::fault_at;
use crate::place_at;
use bidi_cddl::{LoadFault, Node, Occurs, Written};
use std::alloc::Global;

/// The items that an array has.
#[derive(Drop)]
pub(crate) enum Items {
    /// An item of each of these types, by their nodes.
    These(Vec<usize>),
    /// At least so many items of the type at a node.
    Many(usize, usize),
}

/// The items of an array, and none for another node.
///
/// # Errors
/// No memory, or what is left out in an array.
pub(crate) fn items_of_array(
    alloc: Global,
    written: &Written<'_>,
    k: usize,
    node: &Node<'_>,
) -> Result<Items, LoadFault>
    // They are those of the array's group.
    ensures { IfOk result (λ items. ItemsOf written.now node.now items) }
{
    match node {
        Node::Array(group) => items_of(alloc, written, *group, k),
        _ => Ok(Items::These(Vec::new(alloc))),
    }
}

// The items of the group at a node, which comes before another.
fn items_of(
    alloc: Global,
    written: &Written<'_>,
    group: usize,
    before: usize,
) -> Result<Items, LoadFault>
    ensures { IfOk result (λ items. items_at (written_trees written.now) group ≡ items_view (written_trees written.now) items) }
{
    let mut parts = Vec::new(alloc);
    let mut place = group;
    let mut bound = before;
    let at = place_at(written, before);
    'spine: for _ in 0..written.nodes.len() {
        if place >= bound || place >= written.nodes.len() {
            return Err(fault_at(alloc, at, "a group in an array is left out"));
        }
        let Node::Both(first, rest) = &written.nodes[place] else {
            break;
        };
        match item_at(alloc, written, *first, place, at)? {
            Items::These(mut found) => parts.append(&mut found)?,
            Items::Many(_, _) => {
                return Err(fault_at(
                    alloc,
                    at,
                    "only the last item of an array may have an occurrence",
                ));
            }
        }
        bound = place;
        place = *rest;
    }
    let last = item_at(alloc, written, place, bound, at)?;
    with_last(alloc, parts, last, at)
}

// Items, and a last one.
fn with_last(alloc: Global, parts: Vec<usize>, last: Items, at: usize) -> Result<Items, LoadFault>
    ensures { IfOk result (λ items. (trees : List Tree) → items_then (these (parts_at trees parts.items)) (items_view trees last) ≡ items_view trees items) }
{
    let mut parts = parts;
    match last {
        Items::These(mut found) => {
            parts.append(&mut found)?;
            Ok(Items::These(parts))
        }
        Items::Many(least, node) => {
            if parts.is_empty() {
                return Ok(Items::Many(least, node));
            }
            Err(fault_at(alloc, at, "items before an occurrence are left out"))
        }
    }
}

// The items that an entry at a node is, which comes before another.
fn item_at(
    alloc: Global,
    written: &Written<'_>,
    entry: usize,
    before: usize,
    at: usize,
) -> Result<Items, LoadFault>
    ensures { IfOk result (λ items. (entry < before) × (items_at (written_trees written.now) entry ≡ items_view (written_trees written.now) items)) }
{
    if entry >= before || entry >= written.nodes.len() {
        return Err(fault_at(alloc, at, "a group in an array is left out"));
    }
    item_of(alloc, written, entry, &written.nodes[entry], at)
}

// The items that an entry is.
fn item_of(
    alloc: Global,
    written: &Written<'_>,
    k: usize,
    node: &Node<'_>,
    at: usize,
) -> Result<Items, LoadFault>
    ensures { IsNode written.now k node.now
        → IfOk result (λ items. items_at (written_trees written.now) k ≡ items_view (written_trees written.now) items) }
{
    match node {
        Node::Empty => Ok(Items::These(Vec::new(alloc))),
        Node::Bare(occurs, node) => item(alloc, *occurs, *node, k, at),
        Node::Member(occurs, _, node) => item(alloc, *occurs, *node, k, at),
        Node::Inside(occurs, inner) => match single_in(written, *inner, k) {
            Some(node) => item(alloc, *occurs, node, k, at),
            None => Err(fault_at(alloc, at, "a group in an array is left out")),
        },
        Node::Choice(_, _) => Err(fault_at(
            alloc,
            at,
            "a choice of groups in an array is left out",
        )),
        _ => Err(fault_at(alloc, at, "a group in an array is left out")),
    }
}

// The type that is all of a group, which comes before a node.
fn single_in(written: &Written<'_>, group: usize, before: usize) -> Option<usize>
    ensures { IfSome result (λ node. (group < before) × (node < before)
        × (items_at (written_trees written.now) group ≡ item Once (type_at (written_trees written.now) node))) }
{
    if group >= before || group >= written.nodes.len() {
        return None;
    }
    single_of(written, group, &written.nodes[group])
}

// The type that is all of a group.
fn single_of(written: &Written<'_>, k: usize, node: &Node<'_>) -> Option<usize>
    ensures { IsNode written.now k node.now → IfSome result (λ node. (node < k)
        × (items_at (written_trees written.now) k ≡ item Once (type_at (written_trees written.now) node))) }
{
    match node {
        Node::Bare(occurs, node) => {
            if *node >= k {
                return None;
            }
            if !is_once(*occurs) {
                return None;
            }
            Some(*node)
        }
        _ => None,
    }
}

// Whether that is once.
fn is_once(occurs: Occurs) -> bool
    ensures { IsTrue result → occurs ≡ Once }
{
    match occurs {
        Occurs::Once => true,
        _ => false,
    }
}

// An item that may occur so often; its type comes before a node.
fn item(
    alloc: Global,
    occurs: Occurs,
    node: usize,
    before: usize,
    at: usize,
) -> Result<Items, LoadFault>
    ensures { IfOk result (λ items. (node < before) × ((trees : List Tree) → item occurs (type_at trees node) ≡ items_view trees items)) }
{
    if node >= before {
        return Err(fault_at(alloc, at, "a group in an array is left out"));
    }
    match occurs {
        Occurs::Once => one_item(alloc, node),
        Occurs::Optional => Err(fault_at(alloc, at, "an optional item is left out")),
        Occurs::AtLeast(least) => Ok(Items::Many(least, node)),
    }
}

// One item.
fn one_item(alloc: Global, node: usize) -> Result<Items, LoadFault>
    ensures { IfOk result (λ items. (trees : List Tree) → item Once (type_at trees node) ≡ items_view trees items) }
{
    let mut parts = Vec::new(alloc);
    parts.push(node)?;
    Ok(Items::These(parts))
}
