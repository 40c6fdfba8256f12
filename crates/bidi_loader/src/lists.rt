//! The lists of entries that a group stands for.
ghost use Rattle.std.specs.Prelude.{◌≡◌, ◌<◌, ◌++◌, [], ◌∷◌, List, IfOk, OnOk, IfSome, map};
ghost use Rattle.bidi_grammar.specs.Source.{Group, Lists, Rules, pairs};
ghost use Rattle.bidi_loader.specs.Meaning.{Tree, bare_group, entries_at, entry_of, group_at, rules_of, some_of, type_at, written_trees};
ghost use Rattle.bidi_loader.specs.Readings.{AreTexts, IsNode, ListsOf, lists_view};

use crate::entry::{entry_at, entry_fault};
use crate::fault::{circle, fault_at, fault_of_name};
use crate::place_at;
use crate::rules::{group_in, rule_named};
use bidi_cddl::{LoadFault, Node, Occurs, Written};
use std::alloc::{AllocError, Global};

/// The most alternatives of a map.
const MAX_ALTERNATIVES: usize = 4_096;

/// The most entries in all alternatives of a map.
const MAX_ENTRIES: usize = 262_144;

/// How many groups and entries may follow one another.
const MAX_STEPS: usize = 4_096;

/// The lists of entries of a map, and none for another node. An entry is the place of its node.
///
/// # Errors
/// No memory, or what is wrong in the group.
pub(crate) fn lists_of_map(
    alloc: Global,
    written: &Written<'_>,
    texts: &[String],
    k: usize,
    node: &Node<'_>,
) -> Result<Vec<Vec<usize>>, LoadFault>
    // They are those that the map's group stands for.
    ensures { AreTexts written.now texts.now → IfOk result (λ lists. ListsOf written.now node.now lists) }
{
    match node {
        Node::Map(group) => lists_of(alloc, written, texts, *group, k),
        _ => Ok(Vec::new(alloc)),
    }
}

/// The lists of the group at a node, which comes before another.
///
/// # Errors
/// No memory, or what is wrong in the group.
pub(crate) fn lists_of(
    alloc: Global,
    written: &Written<'_>,
    texts: &[String],
    group: usize,
    before: usize,
) -> Result<Vec<Vec<usize>>, LoadFault>
    // They are those that the group stands for.
    ensures { AreTexts written.now texts.now → IfOk result (λ found. Lists (rules_of written.now)
        (group_at (written_trees written.now) group) (lists_view (written_trees written.now) found)) }
{
    let mut names = Vec::new(alloc);
    lists(alloc, written, texts, group, before, &mut names, MAX_STEPS)
}

// The lists of a group. The names are those of the groups on the way to it.
#[cycle(lists)]
fn lists<'t>(
    alloc: Global,
    written: &Written<'t>,
    texts: &[String],
    group: usize,
    before: usize,
    names: &mut Vec<&'t str>,
    steps: usize,
) -> Result<Vec<Vec<usize>>, LoadFault>
    ensures { AreTexts written.now texts.now → IfOk result (λ found. (group < before)
        × Lists (rules_of written.now) (group_at (written_trees written.now) group) (lists_view (written_trees written.now) found)) }
{
    let at = place_at(written, group);
    if steps == 0 || group >= before || group >= written.nodes.len() {
        return Err(fault_at(
            alloc,
            at,
            "more than 4096 groups and entries in one another",
        ));
    }
    lists_at(
        alloc,
        written,
        texts,
        group,
        &written.nodes[group],
        names,
        steps - 1,
    )
}

// The lists of the group that is a node.
#[cycle(lists)]
fn lists_at<'t>(
    alloc: Global,
    written: &Written<'t>,
    texts: &[String],
    group: usize,
    node: &Node<'t>,
    names: &mut Vec<&'t str>,
    steps: usize,
) -> Result<Vec<Vec<usize>>, LoadFault>
    ensures { AreTexts written.now texts.now → IsNode written.now group node.now → IfOk result (λ found. Lists (rules_of written.now)
        (group_at (written_trees written.now) group) (lists_view (written_trees written.now) found)) }
{
    let at = place_at(written, group);
    match node {
        Node::Empty => list_of_nothing(alloc),
        Node::Member(_, _, _) | Node::Further(_, _) => lists_of_entry(alloc, written, texts, group),
        Node::Both(first, second) => {
            let firsts = lists(alloc, written, texts, *first, group, names, steps)?;
            let seconds = lists(alloc, written, texts, *second, group, names, steps)?;
            pairs(alloc, &firsts, &seconds, at)
        }
        Node::Choice(first, second) => {
            let firsts = lists(alloc, written, texts, *first, group, names, steps)?;
            let seconds = lists(alloc, written, texts, *second, group, names, steps)?;
            one_or_other(alloc, firsts, seconds, at)
        }
        Node::Inside(occurs, inner) => {
            let found = lists(alloc, written, texts, *inner, group, names, steps)?;
            maybe(alloc, *occurs, found, at)
        }
        Node::Bare(occurs, node) => {
            let found = lists_named(alloc, written, texts, *node, group, names, steps)?;
            maybe(alloc, *occurs, found, at)
        }
        _ => Err(fault_at(alloc, at, "expected a group, found a type")),
    }
}

// The lists of a group by its name.
#[cycle(lists)]
fn lists_named<'t>(
    alloc: Global,
    written: &Written<'t>,
    texts: &[String],
    node: usize,
    before: usize,
    names: &mut Vec<&'t str>,
    steps: usize,
) -> Result<Vec<Vec<usize>>, LoadFault>
    ensures { AreTexts written.now texts.now → IfOk result (λ found. (node < before) × Lists (rules_of written.now)
        (bare_group (type_at (written_trees written.now) node)) (lists_view (written_trees written.now) found)) }
{
    let at = place_at(written, node);
    let Some(name) = name_before(written, node, before) else {
        return Err(fault_at(alloc, at, "a type with no name in a map"));
    };
    let Some(rule) = rule_named(&written.rules, name) else {
        return Err(fault_of_name(alloc, at, "no group has the name", name));
    };
    if let Some(first) = names.iter().position(|known| *known == name) {
        names.push(name)?;
        return Err(circle(
            alloc,
            at,
            "a group that is nothing but itself:",
            &names[first + 1..],
        ));
    }
    let Some(group) = group_in(rule.body) else {
        return Err(fault_of_name(alloc, at, "expected a group, found the type", name));
    };
    if steps == 0 {
        return Err(fault_at(
            alloc,
            at,
            "more than 4096 groups and entries in one another",
        ));
    }
    names.push(name)?;
    let found = lists(
        alloc,
        written,
        texts,
        group,
        written.nodes.len(),
        names,
        steps - 1,
    )?;
    names.pop();
    Ok(found)
}

// The name that is a node before another.
fn name_before<'t>(written: &Written<'t>, node: usize, before: usize) -> Option<&'t str>
    ensures { IfSome result (λ name. (node < before) × IsNode written.now node (Node.Name name)) }
{
    if node >= before || node >= written.nodes.len() {
        return None;
    }
    match &written.nodes[node] {
        Node::Name(name) => Some(name),
        _ => None,
    }
}

// The list of the entry at a node.
fn lists_of_entry(
    alloc: Global,
    written: &Written<'_>,
    texts: &[String],
    node: usize,
) -> Result<Vec<Vec<usize>>, LoadFault>
    ensures { AreTexts written.now texts.now → IfOk result (λ found. Lists (rules_of written.now)
        (group_at (written_trees written.now) node) (lists_view (written_trees written.now) found)) }
{
    match entry_at(written, texts, node) {
        Some(_) => Ok(list_of(alloc, node)?),
        None => Err(fault_at(alloc, place_at(written, node), entry_fault(written, node))),
    }
}

// One list, of one entry.
fn list_of(alloc: Global, node: usize) -> Result<Vec<Vec<usize>>, AllocError>
    ensures { IfOk result (λ found. (trees : List Tree) → lists_view trees found ≡ (entry_of (group_at trees node) ∷ []) ∷ []) }
{
    let mut list = Vec::new(alloc);
    list.push(node)?;
    let mut lists = Vec::new(alloc);
    lists.push(list)?;
    Ok(lists)
}

// One list, of nothing.
fn list_of_nothing(alloc: Global) -> Result<Vec<Vec<usize>>, LoadFault>
    ensures { IfOk result (λ found. (trees : List Tree) → lists_view trees found ≡ [] ∷ []) }
{
    let mut lists = Vec::new(alloc);
    lists.push(Vec::new(alloc))?;
    Ok(lists)
}

// The lists of a group that may occur so often.
fn maybe(
    alloc: Global,
    occurs: Occurs,
    lists: Vec<Vec<usize>>,
    at: usize,
) -> Result<Vec<Vec<usize>>, LoadFault>
    ensures { IfOk result (λ found. (ρ : Rules) (trees : List Tree) (A : Group) → Lists ρ A (lists_view trees lists)
        → Lists ρ (some_of occurs A) (lists_view trees found)) }
{
    match occurs {
        Occurs::Once => Ok(lists),
        Occurs::Optional => or_none(alloc, lists),
        Occurs::AtLeast(_) => Err(fault_at(alloc, at, "a group more than once in a map")),
    }
}

// The lists, and one of nothing.
fn or_none(alloc: Global, lists: Vec<Vec<usize>>) -> Result<Vec<Vec<usize>>, LoadFault>
    ensures { IfOk result (λ found. (trees : List Tree) → lists_view trees found ≡ lists_view trees lists ++ [] ∷ []) }
{
    let mut lists = lists;
    lists.push(Vec::new(alloc))?;
    Ok(lists)
}

// The lists of either.
fn one_or_other(
    alloc: Global,
    firsts: Vec<Vec<usize>>,
    seconds: Vec<Vec<usize>>,
    at: usize,
) -> Result<Vec<Vec<usize>>, LoadFault>
    ensures { IfOk result (λ found. (trees : List Tree) → lists_view trees found ≡ lists_view trees firsts ++ lists_view trees seconds) }
{
    let mut firsts = firsts;
    let mut seconds = seconds;
    if firsts.len().saturating_add(seconds.len()) > MAX_ALTERNATIVES {
        return Err(fault_at(alloc, at, "more than 4096 alternatives in one map"));
    }
    firsts.append(&mut seconds)?;
    Ok(firsts)
}

// Each of some lists, followed by each of others.
fn pairs(
    alloc: Global,
    firsts: &Vec<Vec<usize>>,
    seconds: &Vec<Vec<usize>>,
    at: usize,
) -> Result<Vec<Vec<usize>>, LoadFault>
    ensures { IfOk result (λ found. (trees : List Tree) → lists_view trees found ≡ pairs (lists_view trees firsts.now) (lists_view trees seconds.now)) }
{
    if firsts.len().saturating_mul(seconds.len()) > MAX_ALTERNATIVES {
        return Err(fault_at(alloc, at, "more than 4096 alternatives in one map"));
    }
    if pairs_size(firsts, seconds) > MAX_ENTRIES {
        return Err(fault_at(
            alloc,
            at,
            "more than 262144 entries in the alternatives of one map",
        ));
    }
    Ok(all_pairs(alloc, firsts, seconds)?)
}

// How many entries the pairs have.
fn pairs_size(firsts: &Vec<Vec<usize>>, seconds: &Vec<Vec<usize>>) -> usize {
    let first = size(firsts).saturating_mul(seconds.len());
    let second = size(seconds).saturating_mul(firsts.len());
    first.saturating_add(second)
}

// How many entries some lists have.
fn size(lists: &Vec<Vec<usize>>) -> usize {
    let mut size: usize = 0;
    for list in lists {
        size = size.saturating_add(list.len());
    }
    size
}

// Each of some lists, followed by each of others.
fn all_pairs(
    alloc: Global,
    firsts: &Vec<Vec<usize>>,
    seconds: &Vec<Vec<usize>>,
) -> Result<Vec<Vec<usize>>, AllocError>
    ensures { IfOk result (λ found. (trees : List Tree) → lists_view trees found ≡ pairs (lists_view trees firsts.now) (lists_view trees seconds.now)) }
{
    let mut lists = Vec::new(alloc);
    'firsts: for first in firsts {
        push_pairs(alloc, &mut lists, first, seconds)?;
    }
    Ok(lists)
}

// Adds a list, followed by each of others.
fn push_pairs(
    alloc: Global,
    lists: &mut Vec<Vec<usize>>,
    first: &Vec<usize>,
    seconds: &Vec<Vec<usize>>,
) -> Result<(), AllocError>
    ensures { OnOk result ((trees : List Tree) → lists_view trees lists.new
        ≡ lists_view trees lists.old ++ map (λ ys. entries_at trees first.now.items ++ ys) (lists_view trees seconds.now)) }
{
    'seconds: for second in seconds {
        lists.push(joined(alloc, first, second)?)?;
    }
    Ok(())
}

// A list, followed by another.
fn joined(alloc: Global, first: &Vec<usize>, second: &Vec<usize>) -> Result<Vec<usize>, AllocError>
    ensures { IfOk result (λ list. list.items ≡ first.now.items ++ second.now.items) }
{
    let mut list = Vec::from_slice(alloc, first)?;
    list.extend_from_slice(second)?;
    Ok(list)
}
