//! Looking for the reason.
ghost use Rattle.std.specs.Prelude.{◌≡◌, IfOk, IfSome, true, length, map, option_map};
ghost use Rattle.std.specs.List.{list_any, list_all};
ghost use Rattle.std.specs.Str.{bytes_eq};
ghost use Rattle.bidi_tree.specs.Kind.{map_in};
ghost use Rattle.bidi_tree.specs.Outline.{outline_node, outline_items, outline_members};
ghost use Rattle.bidi_shape.specs.Term.{any, rule, pair_of, names_of};
ghost use Rattle.bidi_shape.specs.Fits.{Fits, without};
ghost use Rattle.bidi_blame.specs.Blames.{takes, Judged, ItemsJudged, RowsJudged, OthersJudged};
ghost use Rattle.bidi_rules.specs.Grammar.{grammar, one_of, openness_of, grammar_rows};
ghost use Rattle.bidi_rules.specs.Names.{name_of};
ghost use Rattle.bidi_blame.specs.View.{reason_if, reason_of};
ghost use Rattle.bidi_rules.specs.Weight.{is_ready, are_ready, rows_are_ready};
ghost use Rattle.bidi_tree.specs.Node as kind;

use crate::draft::{Draft, tags_with};
use crate::reason::{PathStep, Reason, Want};
use crate::taking::takes;
use bidi_rules::{ANY, Name, Need, Openness, Row, Term};
use bidi_shape::Parsed;
use bidi_tree::{Outline, OutlineMembers, find_outline};
use std::alloc::{AllocError, Global};

/// Why a tree does not fit a rule; `None` exactly where it fits.
///
/// The place is the deepest on its way, and the first in the order of the rule's members. Against a choice it is that of the
/// alternative which a member `type` or `method` says is meant, else the one that stands deepest; where two alternatives want
/// something else at one place, either may stand there.
///
/// Costs a walk through the tree for each alternative that stands on its way; memory for the reason that is told, and on the way
/// only where one lies two steps deep or wants two things.
///
/// # Errors
/// No memory: an allocation failed.
pub fn blame<'a, 'b>(
    alloc: Global,
    tree: &'a Outline<'b>,
    name: Name,
) -> Result<Option<Reason<'a, 'b>>, AllocError>
    // `None` means that the tree fits the rule; otherwise the definition gives this reason.
    ensures judged { IfOk result (λ found. Judged (outline_node tree.now) (rule (name_of name)) (option_map reason_of found)) }
    // If there is a reason, the tree does not fit the rule.
    ensures excludes { IfOk result (λ found. IfSome found (λ r. Fits (outline_node tree.now) (rule (name_of name)) → ⊥)) }
{
    let mut draft = Draft::new();
    if fits_rule(alloc, tree, name, &mut draft)? {
        return Ok(None);
    }
    Ok(Some(draft.into_reason(alloc)?))
}

// Whether a tree fits a term; where it does not, the draft has the reason.
#[cycle(blame)]
fn fits_term<'a, 'b>(
    alloc: Global,
    tree: &'a Outline<'b>,
    term: &'static Term,
    draft: &mut Draft<'a, 'b>,
) -> Result<bool, AllocError>
    requires ready { is_ready term.now ≡ true }
    ensures { IfOk result (λ fits. Judged (outline_node tree.now) (grammar term.now) (reason_if fits draft.new)) }
{
    if takes(tree, term) {
        return fits_inside(alloc, tree, term, draft);
    }
    draft.set_here(tree, Want::term(term));
    Ok(false)
}

// The same of a tree that the term takes.
#[cycle(blame)]
fn fits_inside<'a, 'b>(
    alloc: Global,
    tree: &'a Outline<'b>,
    term: &'static Term,
    draft: &mut Draft<'a, 'b>,
) -> Result<bool, AllocError>
    requires ready { is_ready term.now ≡ true }
    requires taken { takes (outline_node tree.now) (grammar term.now) ≡ true }
    ensures { IfOk result (λ fits. Judged (outline_node tree.now) (grammar term.now) (reason_if fits draft.new)) }
{
    match term {
        Term::Exactly(_) => Ok(true),
        Term::Text => Ok(true),
        Term::Bool => Ok(true),
        Term::Null => Ok(true),
        Term::JsUint => Ok(true),
        Term::JsInt => Ok(true),
        Term::Any => fits_any(alloc, tree, draft),
        Term::ListOf(_, item) => match tree.as_items() {
            Some(items) => fit_items(alloc, items, item, draft),
            None => unreachable!(),
        },
        Term::PairOf(first, second) => match tree.as_items() {
            Some(items) => fit_pair(alloc, items, first, second, draft),
            None => unreachable!(),
        },
        Term::MapOf(rows, openness) => match as_map(tree) {
            Some(members) => fit_rows(alloc, members, rows, *openness, draft),
            None => unreachable!(),
        },
        Term::OneOf(first, rest) => fits_choice(alloc, tree, first, rest, draft),
        Term::Rule(name) => fits_rule(alloc, tree, *name, draft),
        Term::Capped(capped) => fits_term(alloc, tree, capped, draft),
    }
}

// Whether a tree fits a rule.
#[cycle(blame)]
fn fits_rule<'a, 'b>(
    alloc: Global,
    tree: &'a Outline<'b>,
    name: Name,
    draft: &mut Draft<'a, 'b>,
) -> Result<bool, AllocError>
    ensures { IfOk result (λ fits. Judged (outline_node tree.now) (rule (name_of name)) (reason_if fits draft.new)) }
{
    if fits_term(alloc, tree, name.term(), draft)? {
        return Ok(true);
    }
    draft.set_name(name);
    Ok(false)
}

// Whether a tree fits one of some terms.
#[cycle(blame)]
fn fits_choice<'a, 'b>(
    alloc: Global,
    tree: &'a Outline<'b>,
    first: &'static Term,
    rest: &'static [Term],
    draft: &mut Draft<'a, 'b>,
) -> Result<bool, AllocError>
    requires first { is_ready first.now ≡ true }
    requires rest { are_ready rest.now ≡ true }
    ensures { IfOk result (λ fits. Judged (outline_node tree.now) (one_of (grammar first.now) (map grammar rest.now)) (reason_if fits draft.new)) }
{
    if fits_term(alloc, tree, first, draft)? {
        return Ok(true);
    }
    let Some((next, more)) = rest.split_first() else {
        return Ok(false);
    };
    let mut other = Draft::new();
    if fits_choice(alloc, tree, next, more, &mut other)? {
        return Ok(true);
    }
    draft.choose(alloc, tree, Want { first, rest }, other)?;
    Ok(false)
}

// Whether a tree without an Odd here, and of few levels, fits any.
#[cycle(blame)]
fn fits_any<'a, 'b>(
    alloc: Global,
    tree: &'a Outline<'b>,
    draft: &mut Draft<'a, 'b>,
) -> Result<bool, AllocError>
    requires taken { takes (outline_node tree.now) any ≡ true }
    ensures { IfOk result (λ fits. Judged (outline_node tree.now) any (reason_if fits draft.new)) }
{
    if let Some(items) = tree.as_items() {
        return fit_items(alloc, items, &ANY, draft);
    }
    match as_map(tree) {
        Some(members) => fit_others(alloc, members, &[], Openness::Extensible, 0, draft),
        None => Ok(true),
    }
}

// Whether all of some items fit a term; else the draft has the first that does not.
#[cycle(blame)]
fn fit_items<'a, 'b>(
    alloc: Global,
    items: &'a [Outline<'b>],
    term: &'static Term,
    draft: &mut Draft<'a, 'b>,
) -> Result<bool, AllocError>
    requires ready { is_ready term.now ≡ true }
    ensures { IfOk result (λ fits. ItemsJudged (outline_items items.now) (grammar term.now) (reason_if fits draft.new)) }
{
    'items: for (i, item) in items.iter().enumerate() {
        if !fits_term(alloc, item, term, draft)? {
            draft.go_under(alloc, 0, PathStep::Item(i))?;
            return Ok(false);
        }
    }
    Ok(true)
}

// Whether two items fit two terms.
#[cycle(blame)]
fn fit_pair<'a, 'b>(
    alloc: Global,
    items: &'a [Outline<'b>],
    first: &'static Term,
    second: &'static Term,
    draft: &mut Draft<'a, 'b>,
) -> Result<bool, AllocError>
    requires first { is_ready first.now ≡ true }
    requires second { is_ready second.now ≡ true }
    requires two { length items.now ≡ 2 }
    ensures { IfOk result (λ fits. Judged (kind.list (outline_items items.now)) (pair_of (grammar first.now) (grammar second.now)) (reason_if fits draft.new)) }
{
    if !fits_term(alloc, &items[0], first, draft)? {
        draft.go_under(alloc, 0, PathStep::Item(0))?;
        return Ok(false);
    }
    if !fits_term(alloc, &items[1], second, draft)? {
        draft.go_under(alloc, 0, PathStep::Item(1))?;
        return Ok(false);
    }
    Ok(true)
}

// Whether members fit the rows of a map; else the draft has the first row that is not met, or one of the other members.
#[cycle(blame)]
fn fit_rows<'a, 'b>(
    alloc: Global,
    members: &'a OutlineMembers<'b>,
    rows: &'static [Row],
    openness: Openness,
    draft: &mut Draft<'a, 'b>,
) -> Result<bool, AllocError>
    requires ready { rows_are_ready rows.now ≡ true }
    ensures { IfOk result (λ fits. RowsJudged (outline_members members.now) (grammar_rows rows.now) (openness_of openness) (reason_if fits draft.new)) }
{
    let mut tags = 0;
    'rows: for row in rows {
        match find_outline(members, row.0) {
            Some(member) => {
                if !fits_term(alloc, member, &row.2, draft)? {
                    draft.go_under(alloc, tags, PathStep::Member(row.0))?;
                    return Ok(false);
                }
                tags = tags_with(tags, row.0);
            }
            None => match row.1 {
                Need::Required => {
                    draft.set_missing(tags, row.0, &row.2);
                    return Ok(false);
                }
                Need::Optional => {}
            },
        }
    }
    fit_others(alloc, members, rows, openness, tags, draft)
}

// Whether the members that no row names may be there; else the draft has the first that may not.
#[cycle(blame)]
fn fit_others<'a, 'b>(
    alloc: Global,
    members: &'a OutlineMembers<'b>,
    rows: &'static [Row],
    openness: Openness,
    tags: usize,
    draft: &mut Draft<'a, 'b>,
) -> Result<bool, AllocError>
    ensures { IfOk result (λ fits. OthersJudged (openness_of openness) tags (without (names_of (grammar_rows rows.now)) (outline_members members.now)) (reason_if fits draft.new)) }
{
    'members: for member in members.as_slice() {
        if is_named(rows, member.0) {
            continue;
        }
        match openness {
            Openness::Closed => {
                draft.set_unknown(tags, member.0, &member.1);
                return Ok(false);
            }
            Openness::Extensible => {
                if !fits_term(alloc, &member.1, &ANY, draft)? {
                    draft.go_under(alloc, tags, PathStep::Member(member.0))?;
                    return Ok(false);
                }
            }
        }
    }
    Ok(true)
}

// The members of a tree, where it is a map.
fn as_map<'a, 'b>(tree: &'a Outline<'b>) -> Option<&'a OutlineMembers<'b>>
    ensures { option_map (λ ms. outline_members ms.now) result ≡ map_in (outline_node tree.now) }
{
    match tree {
        Outline::Map(members) => Some(members),
        _ => None,
    }
}

// Whether a row has the name.
fn is_named(rows: &[Row], name: &str) -> bool
    ensures { result ≡ list_any (bytes_eq name.now) (names_of (grammar_rows rows.now)) }
{
    for row in rows {
        if name == row.0 {
            return true;
        }
    }
    false
}
