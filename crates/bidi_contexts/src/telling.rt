//! Events of several contexts: those that tell of all that are live, and those of removing some.
ghost use Rattle.std.specs.Prelude.{◌≡◌, ◌++◌, ◌==◌, ℕ, suc, List, map, filter, flat_map, IfOk};
ghost use Rattle.std.specs.List.{AllByRecursion};
ghost use Rattle.bidi_contexts.specs.Acts.{Act};
ghost use Rattle.bidi_contexts.specs.ContextRows.{row_of, row_at, created_in, realm_created_in, realm_destroyed_in};
ghost use Rattle.bidi_contexts.specs.Contexts.{level_of, user_of, children_of, tops_in};
ghost use Rattle.bidi_contexts.specs.Occurrences.{removal, tree_events};
ghost use Rattle.bidi_contexts.specs.Subtrees.{AreSubtrees};
ghost use Rattle.bidi_contexts.specs.Tables.{IsTableOf};
ghost use Rattle.bidi_contexts.specs.View.{AreWell, occurrence_of, seen};

use crate::context::Context;
use crate::contexts::Contexts;
use crate::info_trees::whole_info;
use crate::occurrence::Occurrence;
use crate::subtrees::len_below;
use std::alloc::{AllocError, Global};

// ---- of all that are live

/// The events that tell of all that exists: contextCreated of every live context, then realmCreated of every
/// realm, both in tree order.
///
/// # Errors
/// No memory: an allocation failed.
pub fn tree_events(alloc: Global, contexts: &Contexts) -> Result<Vec<Occurrence>, AllocError>
    // For every past that the table stands for, they are the events that tell of the whole tree after it.
    ensures ok { (past : List Act) → IsTableOf contexts.now past → IfOk result (λ all. map occurrence_of all.items ≡ tree_events past) }
    // A message can be made of each.
    ensures well { IfOk result (λ all. AreWell all.items) }
{
    let live = contexts.in_tree_order();
    let mut all = Vec::new(alloc);
    push_created(alloc, live, &mut all)?;
    push_realms(alloc, live, &mut all)?;
    Ok(all)
}

// Adds the contextCreated event of each context.
fn push_created(
    alloc: Global,
    contexts: &[Context],
    all: &mut Vec<Occurrence>,
) -> Result<(), AllocError>
    ensures told { IfOk result (λ _. seen all.new.items ≡ seen all.old.items ++ map created_in (map row_of contexts.now)) }
    ensures well { IfOk result (λ _. AreWell all.old.items → AreWell all.new.items) }
{
    for context in contexts {
        all.push(context.created(alloc)?)?;
    }
    Ok(())
}

// Adds the realmCreated event of each context's realm.
fn push_realms(
    alloc: Global,
    contexts: &[Context],
    all: &mut Vec<Occurrence>,
) -> Result<(), AllocError>
    ensures told { IfOk result (λ _. seen all.new.items ≡ seen all.old.items ++ map realm_created_in (map row_of contexts.now)) }
    ensures well { IfOk result (λ _. AreWell all.old.items → AreWell all.new.items) }
{
    for context in contexts {
        all.push(context.realm_created(alloc)?)?;
    }
    Ok(())
}

// ---- of those that are removed

/// The events of removing a context with all its descendants: realmDestroyed of each in tree order, then
/// contextDestroyed of the context.
///
/// # Errors
/// No memory: an allocation failed.
pub fn removal(
    alloc: Global,
    contexts: &Contexts,
    context: &Context,
) -> Result<Vec<Occurrence>, AllocError>
    // For every past that the table stands for, they are the events of removing the context after it.
    ensures told { (past : List Act) (c : ℕ) → IsTableOf contexts.now past → row_of context.now ≡ row_at past c
        → IfOk result (λ all. seen all.items ≡ removal past c) }
    // A message can be made of each.
    ensures well { IfOk result (λ all. AreWell all.items) }
{
    let mut events = Vec::new(alloc);
    push_removal(alloc, context, contexts.below(context), &mut events)?;
    Ok(events)
}

/// Adds the events of removing the children of a context, each with all its descendants.
///
/// # Errors
/// No memory: an allocation failed. Some events may have been added.
pub fn push_removals_below(
    alloc: Global,
    contexts: &Contexts,
    context: &Context,
    events: &mut Vec<Occurrence>,
) -> Result<(), AllocError>
    // For every past that the table stands for, the events of removing each live child of the context are added.
    ensures told { (past : List Act) (c : ℕ) → IsTableOf contexts.now past → row_of context.now ≡ row_at past c
        → IfOk result (λ _. seen events.new.items ≡ seen events.old.items ++ flat_map (removal past) (children_of past c)) }
    // A message can be made of each that is added.
    ensures well { IfOk result (λ _. AreWell events.old.items → AreWell events.new.items) }
{
    push_removals(alloc, contexts.below(context), events)
}

/// The events of removing all contexts of a user context: each top-level one with its descendants, by creation.
///
/// # Errors
/// No memory: an allocation failed.
pub fn removal_of_user(
    alloc: Global,
    contexts: &Contexts,
    user: u64,
) -> Result<Vec<Occurrence>, AllocError>
    // For every past that the table stands for, they are the events of removing each top-level context of the user context.
    ensures told { (past : List Act) → IsTableOf contexts.now past
        → IfOk result (λ all. seen all.items ≡ flat_map (removal past) (tops_in past user)) }
    // A message can be made of each.
    ensures well { IfOk result (λ all. AreWell all.items) }
{
    removal_from(alloc, contexts.in_tree_order(), user)
}

// Adds the events of removing siblings with all their descendants. Each sibling stands before its descendants.
fn push_removals(
    alloc: Global,
    contexts: &[Context],
    events: &mut Vec<Occurrence>,
) -> Result<(), AllocError>
    ensures told { (past : List Act) (level : ℕ) (cs : List ℕ) → AreSubtrees contexts.now past level cs
        → IfOk result (λ _. seen events.new.items ≡ seen events.old.items ++ flat_map (removal past) cs) }
    ensures well { IfOk result (λ _. AreWell events.old.items → AreWell events.new.items) }
{
    let mut rest = contexts;
    while let Some((context, behind)) = rest.split_first() {
        let (below, next) = behind.split_at(len_below(context, behind));
        push_removal(alloc, context, below, events)?;
        rest = next;
    }
    Ok(())
}

// The events of removing all contexts of a user context, of all contexts in tree order: each top-level one with its
// descendants, by creation.
fn removal_from(
    alloc: Global,
    contexts: &[Context],
    user: u64,
) -> Result<Vec<Occurrence>, AllocError>
    ensures told { (past : List Act) (cs : List ℕ) → AreSubtrees contexts.now past 1 cs
        → IfOk result (λ all. seen all.items ≡ flat_map (removal past) (filter (λ c. user_of past c == user) cs)) }
    ensures well { IfOk result (λ all. AreWell all.items) }
{
    let mut events = Vec::new(alloc);
    let mut rest = contexts;
    while let Some((context, behind)) = rest.split_first() {
        let (below, next) = behind.split_at(len_below(context, behind));
        if context.user() == user {
            push_removal(alloc, context, below, &mut events)?;
        }
        rest = next;
    }
    Ok(events)
}

// Adds the events of removing a context with all these descendants: realmDestroyed of each in tree order, then
// contextDestroyed of the context itself.
fn push_removal(
    alloc: Global,
    context: &Context,
    below: &[Context],
    events: &mut Vec<Occurrence>,
) -> Result<(), AllocError>
    ensures told { (past : List Act) (c : ℕ) → row_of context.now ≡ row_at past c → AreSubtrees below.now past (suc (level_of past c)) (children_of past c)
        → IfOk result (λ _. seen events.new.items ≡ seen events.old.items ++ removal past c) }
    ensures well { IfOk result (λ _. AreWell events.old.items → AreWell events.new.items) }
{
    events.push(context.realm_destroyed(alloc)?)?;
    push_realms_gone(alloc, below, events)?;
    let info = whole_info(alloc, context, below)?;
    events.push(context.destroyed(info))?;
    Ok(())
}

// Adds the realmDestroyed event of each context's realm.
fn push_realms_gone(
    alloc: Global,
    contexts: &[Context],
    all: &mut Vec<Occurrence>,
) -> Result<(), AllocError>
    ensures told { IfOk result (λ _. seen all.new.items ≡ seen all.old.items ++ map realm_destroyed_in (map row_of contexts.now)) }
    ensures well { IfOk result (λ _. AreWell all.old.items → AreWell all.new.items) }
{
    for context in contexts {
        all.push(context.realm_destroyed(alloc)?)?;
    }
    Ok(())
}
