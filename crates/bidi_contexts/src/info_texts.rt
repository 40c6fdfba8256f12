//! The Infos of contexts with all that stands below them, as JSON text.
ghost use Rattle.std.specs.Prelude.{◌≡◌, ◌≤◌, ◌<◌, ◌*◌, ◌+◌, ◌^◌, ◌++◌, ◌∷◌, [], ℕ, suc, List, map, flat_map, codes, Some, IfOk, OnOk, string_bytes};
ghost use Rattle.json.specs.Token.{Token, begin_object, begin_array, key, string, null};
ghost use Rattle.bidi_tree.specs.Node.{Node};
ghost use Rattle.bidi_tree.specs.Data.{tokens_of};
ghost use Rattle.bidi_tree.specs.Text.{compact_text};
ghost use Rattle.bidi_handles.specs.Ids.{id_of};
ghost use Rattle.bidi_handles.specs.Maps.{listed};
ghost use Rattle.bidi_contexts.specs.Acts.{Act};
ghost use Rattle.bidi_contexts.specs.Contexts.{level_of, children_of};
ghost use Rattle.bidi_contexts.specs.ContextRows.{row_of, row_at, shown_info};
ghost use Rattle.bidi_contexts.specs.Info.{info_of, info_within, depth_below, children_tree};
ghost use Rattle.bidi_contexts.specs.InfosWritten.{AreInfos, WroteInfos, WroteChildren, TellsInfos, infos_tree, parent_at, member_tokens};
ghost use Rattle.bidi_contexts.specs.Limits.{lowest_level};
ghost use Rattle.bidi_contexts.specs.Subtrees.{AreSubtrees};

use crate::context::Context;
use crate::limits::LOWEST_LEVEL;
use crate::subtrees::len_below;
use crate::users::user_text;
use bidi_handles::{IdKind, id_text};
use json::Writer;
use std::alloc::{AllocError, Global};

/// The room that a text starts with: that of one Info without children. It grows as needed.
const ROOM: usize = 512;

// ---- whole texts

/// The text of the Infos of all top-level contexts to this depth, of all contexts in tree order: `{"contexts":[..]}`.
pub(crate) fn trees_text(
    alloc: Global,
    contexts: &[Context],
    depth: Option<u64>,
) -> Result<String, AllocError>
    ensures { IfOk result (λ s. TellsInfos (string_bytes s)
        (λ infos. (past : List Act) (cs : List ℕ) → AreSubtrees contexts.now past 1 cs → infos ≡ map (info_of past depth) cs)) }
{
    let mut out = begun(alloc)?;
    write_tops(&mut out, alloc, contexts, depth)?;
    ended(out)
}

/// The text of the Info of one context to this depth, where these are its descendants: `{"contexts":[..]}`.
/// At depth 0 they are not looked at.
pub(crate) fn tree_text(
    alloc: Global,
    context: &Context,
    below: &[Context],
    depth: Option<u64>,
) -> Result<String, AllocError>
    ensures { IfOk result (λ s. TellsInfos (string_bytes s)
        (λ infos. (past : List Act) (c : ℕ) → row_of context.now ≡ row_at past c
        → (¬ (depth ≡ Some 0) → AreSubtrees below.now past (suc (level_of past c)) (children_of past c)) → infos ≡ info_of past depth c ∷ [])) }
{
    let mut out = begun(alloc)?;
    write_info(&mut out, alloc, context, below, depth, LOWEST_LEVEL, true)?;
    ended(out)
}

// The text up to its first Info.
fn begun(alloc: Global) -> Result<Writer, AllocError>
    ensures before { IfOk result (λ out. out.before ≡ []) }
    ensures tokens { IfOk result (λ out. out.tokens ≡ begin_object ∷ key (codes "contexts") ∷ begin_array ∷ []) }
{
    let mut out = Writer::new(Vec::with_capacity(alloc, ROOM)?);
    out.begin_object()?;
    out.key("contexts")?;
    out.begin_array()?;
    Ok(out)
}

// The whole text, behind its last Info.
fn ended(out: Writer) -> Result<String, AllocError>
    requires { out.before ≡ [] }
    ensures { (infos : List Node) → AreInfos 34 infos
        → out.tokens ≡ (begin_object ∷ key (codes "contexts") ∷ begin_array ∷ []) ++ flat_map tokens_of infos
        → IfOk result (λ s. string_bytes s ≡ compact_text (infos_tree infos)) }
{
    let mut out = out;
    out.end_array()?;
    out.end_object()?;
    Ok(unsafe { String::from_utf8_unchecked(out.into_inner()) })
}

// ---- Infos

// Writes the Info of each top-level context, of all contexts in tree order.
fn write_tops(
    out: &mut Writer,
    alloc: Global,
    contexts: &[Context],
    depth: Option<u64>,
) -> Result<(), AllocError>
    ensures { OnOk result (WroteInfos out.old out.new 34
        (λ infos. (past : List Act) (cs : List ℕ) → AreSubtrees contexts.now past 1 cs → infos ≡ map (info_of past depth) cs)) }
{
    let mut rest = contexts;
    while let Some((context, behind)) = rest.split_first() {
        let (below, next) = behind.split_at(len_below(context, behind));
        write_info(out, alloc, context, below, depth, LOWEST_LEVEL, true)?;
        rest = next;
    }
    Ok(())
}

// Writes the Info of a context, of all that stands below it, down to so many levels. Only a root tells its parent.
#[cycle(write)]
fn write_info(
    out: &mut Writer,
    alloc: Global,
    context: &Context,
    below: &[Context],
    depth: Option<u64>,
    levels: u64,
    is_root: bool,
) -> Result<(), AllocError>
    requires { levels ≤ lowest_level }
    ensures { OnOk result (WroteInfos out.old out.new (2 * levels + 2)
        (λ infos. (past : List Act) (c : ℕ) → row_of context.now ≡ row_at past c
        → (¬ (depth ≡ Some 0) → AreSubtrees below.now past (suc (level_of past c)) (children_of past c)) → lowest_level < levels + suc (level_of past c)
        → infos ≡ shown_info (parent_at is_root (row_at past c)) (row_at past c)
        (children_tree depth (map (info_within lowest_level past (depth_below depth)) (children_of past c))) ∷ [])) }
{
    out.begin_object()?;
    out.key("children")?;
    write_children(out, alloc, below, depth, levels)?;
    write_own(out, alloc, context, is_root)
}

// Writes the children, of all that stands below a context. At depth 0, which asks for none, it is null, and these are not
// looked at.
#[cycle(write)]
fn write_children(
    out: &mut Writer,
    alloc: Global,
    below: &[Context],
    depth: Option<u64>,
    levels: u64,
) -> Result<(), AllocError>
    requires { levels ≤ lowest_level }
    ensures { OnOk result (WroteChildren out.old out.new (2 * levels + 1)
        (λ children. (past : List Act) (level : ℕ) (cs : List ℕ) → (¬ (depth ≡ Some 0) → AreSubtrees below.now past level cs) → lowest_level < levels + level
        → children ≡ children_tree depth (map (info_within lowest_level past (depth_below depth)) cs))) }
{
    match depth {
        Some(0) => out.null(),
        Some(depth) => write_list(out, alloc, below, Some(depth - 1), levels),
        None => write_list(out, alloc, below, None, levels),
    }
}

// Writes the list of the Infos of siblings, each of which stands before its own descendants.
#[cycle(write)]
fn write_list(
    out: &mut Writer,
    alloc: Global,
    contexts: &[Context],
    depth: Option<u64>,
    levels: u64,
) -> Result<(), AllocError>
    requires { levels ≤ lowest_level }
    ensures { OnOk result (WroteChildren out.old out.new (2 * levels + 1)
        (λ list. (past : List Act) (level : ℕ) (cs : List ℕ) → AreSubtrees contexts.now past level cs → lowest_level < levels + level
        → list ≡ listed (map (info_within lowest_level past depth) cs))) }
{
    out.begin_array()?;
    write_infos(out, alloc, contexts, depth, levels)?;
    out.end_array()
}

// Writes the Infos of siblings, one after another.
#[cycle(write)]
fn write_infos(
    out: &mut Writer,
    alloc: Global,
    contexts: &[Context],
    depth: Option<u64>,
    levels: u64,
) -> Result<(), AllocError>
    requires { levels ≤ lowest_level }
    ensures { OnOk result (WroteInfos out.old out.new (2 * levels)
        (λ infos. (past : List Act) (level : ℕ) (cs : List ℕ) → AreSubtrees contexts.now past level cs → lowest_level < levels + level
        → infos ≡ map (info_within lowest_level past depth) cs)) }
{
    if levels == 0 {
        return Ok(());
    }
    let mut rest = contexts;
    while let Some((context, behind)) = rest.split_first() {
        let (below, next) = behind.split_at(len_below(context, behind));
        write_info(out, alloc, context, below, depth, levels - 1, false)?;
        rest = next;
    }
    Ok(())
}

// ---- members

// Writes the members of an Info behind `children`, and its end. Only a root tells its parent.
fn write_own(
    out: &mut Writer,
    alloc: Global,
    context: &Context,
    is_root: bool,
) -> Result<(), AllocError>
    ensures before { OnOk result (out.new.before ≡ out.old.before) }
    ensures tokens { (ts : List Token) (children : Node) → out.old.tokens ≡ ts ++ (begin_object ∷ key (codes "children") ∷ tokens_of children)
        → OnOk result (out.new.tokens ≡ ts ++ tokens_of (shown_info (parent_at is_root (row_of context.now)) (row_of context.now) children)) }
{
    write_id(out, alloc, "clientWindow", IdKind::Window, context.window())?;
    write_id(out, alloc, "context", IdKind::Context, context.number)?;
    write_null(out, "originalOpener")?;
    write_parent(out, alloc, context, is_root)?;
    write_text(out, "url", context.history().present().as_str())?;
    write_text(out, "userContext", &user_text(alloc, context.user())?)?;
    out.end_object()
}

// Writes the member `parent` of a root, which is null for a top-level context; others have none.
fn write_parent(
    out: &mut Writer,
    alloc: Global,
    context: &Context,
    is_root: bool,
) -> Result<(), AllocError>
    ensures before { OnOk result (out.new.before ≡ out.old.before) }
    ensures tokens { OnOk result (out.new.tokens ≡ out.old.tokens ++ member_tokens (codes "parent") (parent_at is_root (row_of context.now))) }
{
    if !is_root {
        return Ok(());
    }
    match context.details.parent {
        Some(parent) => write_id(out, alloc, "parent", IdKind::Context, parent),
        None => write_null(out, "parent"),
    }
}

// Writes a member whose value is an id.
fn write_id(
    out: &mut Writer,
    alloc: Global,
    name: &str,
    kind: IdKind,
    number: u64,
) -> Result<(), AllocError>
    requires { number < 2 ^ 48 }
    ensures before { OnOk result (out.new.before ≡ out.old.before) }
    ensures tokens { OnOk result (out.new.tokens ≡ out.old.tokens ++ (key name.now ∷ string (id_of kind number) ∷ [])) }
{
    write_text(out, name, &id_text(alloc, kind, 0, number)?)
}

// Writes a member whose value is a text.
fn write_text(out: &mut Writer, name: &str, text: &str) -> Result<(), AllocError>
    ensures before { OnOk result (out.new.before ≡ out.old.before) }
    ensures tokens { OnOk result (out.new.tokens ≡ out.old.tokens ++ (key name.now ∷ string text.now ∷ [])) }
{
    out.key(name)?;
    out.string(text)
}

// Writes a member whose value is null.
fn write_null(out: &mut Writer, name: &str) -> Result<(), AllocError>
    ensures before { OnOk result (out.new.before ≡ out.old.before) }
    ensures tokens { OnOk result (out.new.tokens ≡ out.old.tokens ++ (key name.now ∷ null ∷ [])) }
{
    out.key(name)?;
    out.null()
}
