//! The Infos of contexts with all that stands below them.
ghost use Rattle.std.specs.Prelude.{◌≡◌, ◌≤◌, ◌<◌, ◌*◌, ◌+◌, ℕ, suc, List, map, None, IfOk};
ghost use Rattle.bidi_contexts.specs.Acts.{Act};
ghost use Rattle.bidi_contexts.specs.Contexts.{level_of, children_of};
ghost use Rattle.bidi_contexts.specs.Info.{info_of, info_within};
ghost use Rattle.bidi_contexts.specs.ContextRows.{row_of, row_at};
ghost use Rattle.bidi_contexts.specs.InfosInHand.{AreWithin, IsWithin};
ghost use Rattle.bidi_contexts.specs.Limits.{lowest_level};
ghost use Rattle.bidi_contexts.specs.Subtrees.{AreSubtrees};

use crate::context::Context;
use crate::limits::LOWEST_LEVEL;
use crate::subtrees::len_below;
use bidi_params::Info;
use bidi_shape::Shape;
use std::alloc::{AllocError, Global};

/// The Info of a context with its parent, to the whole depth, where these are its descendants.
pub(crate) fn whole_info(
    alloc: Global,
    context: &Context,
    below: &[Context],
) -> Result<Info, AllocError>
    ensures tree { (past : List Act) (c : ℕ) → row_of context.now ≡ row_at past c
        → AreSubtrees below.now past (suc (level_of past c)) (children_of past c) → IfOk result (λ i. ⟦<Info as Shape>⟧.shape.tree_of i ≡ info_of past None c) }
    ensures well { IfOk result (IsWithin ⟦<Info as Shape>⟧.shape 34) }
{
    let children = infos(alloc, below, LOWEST_LEVEL)?;
    context.root_info(alloc, Some(children))
}

// The Infos of siblings, each of which stands before its own descendants, down to so many levels.
fn infos(alloc: Global, contexts: &[Context], levels: u64) -> Result<Vec<Info>, AllocError>
    requires { levels ≤ lowest_level }
    ensures tree { (past : List Act) (level : ℕ) (cs : List ℕ) → AreSubtrees contexts.now past level cs → lowest_level < levels + level
        → IfOk result (λ all. map ⟦<Info as Shape>⟧.shape.tree_of all.items ≡ map (info_within lowest_level past None) cs) }
    ensures well { IfOk result (λ all. AreWithin ⟦<Info as Shape>⟧.shape (2 * levels) all.items) }
{
    let mut all = Vec::new(alloc);
    if levels == 0 {
        return Ok(all);
    }
    let mut rest = contexts;
    while let Some((context, behind)) = rest.split_first() {
        let (below, next) = behind.split_at(len_below(context, behind));
        let children = infos(alloc, below, levels - 1)?;
        all.push(context.info(alloc, children)?)?;
        rest = next;
    }
    Ok(all)
}
