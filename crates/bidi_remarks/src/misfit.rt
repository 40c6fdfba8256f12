//! Trees that do not fit a rule.
ghost use Rattle.std.specs.Prelude.{◌≡◌, Some, None, false, if◌then◌else◌, map, option_map, option_and_then, unwrap_or, string_bytes, IfOk};
ghost use Rattle.bidi_tree.specs.Node.{get_of};
ghost use Rattle.bidi_tree.specs.Kind.{text_in};
ghost use Rattle.bidi_tree.specs.Outline.{outline_node};
ghost use Rattle.bidi_messages.specs.Verdict.{echoed_id, js_uint_in};
ghost use Rattle.bidi_shape.specs.Term.{rule};
ghost use Rattle.bidi_shape.specs.Fits.{Fits};
ghost use Rattle.bidi_rules.specs.Names.{name_of, rule_text};
ghost use Rattle.bidi_blame.specs.Blames.{Blames};
ghost use Rattle.bidi_blame.specs.Reason as blamed;
ghost use Rattle.bidi_blame.specs.Said.{told_by};
ghost use Rattle.bidi_blame.specs.View.{reason_of, step_of};
ghost use Rattle.bidi_blame.specs.Words.{choice_text, pointer_text};
ghost use Rattle.bidi_remarks.specs.Trouble.{HasFaultInRest, HasMisfit, method_of, misfit_of, pattern_text, reason_parts, short_of, wants_of};

use crate::beyond::is_beyond;
use crate::claim::{Kind, has, kind_of, no_key, owned, short};
use crate::trimming::trimmed;
use bidi_blame::{Alternatives, Name, PathStep, Reason, blame, pointer, wanted};
use bidi_shape::Parsed;
use bidi_tree::{JsUint, Outline, find_outline};
use std::alloc::{AllocError, Global};

/// What may stand at a place, in words.
#[derive(Drop)]
pub(crate) enum Wants {
    /// All alternatives as one text, which is short enough.
    Whole(String),
    /// A shorter text, and the alternatives, whose text is made only if it is written.
    Short(String, Alternatives),
}

/// Where a tree does not fit, and why, in words.
#[derive(Drop)]
pub struct Misfit {
    /// The member `id` of the tree, where it is a js-uint.
    pub(crate) id: Option<JsUint>,
    /// The member `method` of the tree, or else its `type`, where that is a text.
    pub(crate) method: Option<String>,
    /// What is wrong there.
    pub(crate) kind: Kind,
    /// The place, as a JSON Pointer.
    pub(crate) pointer: String,
    /// The same, with `*` for the number of each item.
    pub(crate) pattern: String,
    /// What may stand there.
    pub(crate) wants: Wants,
    /// What stands there.
    pub(crate) has: String,
    /// The innermost rule that speaks of the place.
    pub(crate) rule: Option<&'static str>,
    /// Whether it is wrong for the profile, and not for the draft.
    pub(crate) is_beyond: bool,
}

/// The misfit of a tree that does not fit a rule, in words with this id and this method.
pub(crate) fn find_misfit(
    alloc: Global,
    name: Name,
    id: Option<JsUint>,
    method: Option<&str>,
    tree: &Outline<'_>,
) -> Result<Misfit, AllocError>
    requires { Fits (outline_node tree.now) (rule (name_of name)) → ⊥ }
    ensures { IfOk result (λ m. HasMisfit (name_of name) (option_map (λ n. n.value) id) (option_map (λ s. s.now) method.entry) (outline_node tree.now) (misfit_of m)) }
{
    let Some(reason) = blame(alloc, tree, name)? else {
        unreachable!();
    };
    let first = in_words(alloc, id, method, &reason)?;
    first_fault(alloc, name, id, method, tree, first)
}

// The first misfit of a tree, or, if that is wrong for the profile alone, one of the rest that is wrong for the draft.
fn first_fault(
    alloc: Global,
    name: Name,
    id: Option<JsUint>,
    method: Option<&str>,
    tree: &Outline<'_>,
    first: Misfit,
) -> Result<Misfit, AllocError>
    ensures { IfOk result (λ m. (r : blamed.Reason) → Blames (outline_node tree.now) (rule (name_of name)) r
        → misfit_of first ≡ reason_parts (option_map (λ n. n.value) id) (option_map (λ s. s.now) method.entry) r
        → HasMisfit (name_of name) (option_map (λ n. n.value) id) (option_map (λ s. s.now) method.entry) (outline_node tree.now) (misfit_of m)) }
{
    if !first.is_beyond {
        return Ok(first);
    }
    let found = fault_in_rest(alloc, name, id, method, tree)?;
    match found {
        Some(fault) => Ok(fault),
        None => Ok(first),
    }
}

// The misfit of a tree without the members that only the draft has, if that is wrong for the draft.
fn fault_in_rest(
    alloc: Global,
    name: Name,
    id: Option<JsUint>,
    method: Option<&str>,
    tree: &Outline<'_>,
) -> Result<Option<Misfit>, AllocError>
    ensures { IfOk result (λ found. HasFaultInRest (name_of name) (option_map (λ n. n.value) id) (option_map (λ s. s.now) method.entry) (outline_node tree.now)
        (option_map misfit_of found)) }
{
    let rest = trimmed(alloc, false, tree)?;
    let Some(reason) = blame(alloc, &rest, name)? else {
        return Ok(None);
    };
    let misfit = in_words(alloc, id, method, &reason)?;
    Ok(unless_beyond(misfit))
}

// The misfit, if it is wrong for the draft.
fn unless_beyond(misfit: Misfit) -> Option<Misfit>
    ensures { option_map misfit_of result ≡ (if (misfit_of misfit).is_beyond then None else Some (misfit_of misfit)) }
{
    if misfit.is_beyond { None } else { Some(misfit) }
}

// The reason why a tree with this id and this method does not fit, in words.
fn in_words(
    alloc: Global,
    id: Option<JsUint>,
    method: Option<&str>,
    reason: &Reason<'_, '_>,
) -> Result<Misfit, AllocError>
    ensures { IfOk result (λ m. misfit_of m ≡ reason_parts (option_map (λ n. n.value) id) (option_map (λ s. s.now) method.entry) (reason_of reason.now)) }
{
    let method = owned(alloc, method)?;
    let alternatives = wanted(alloc, &reason.wants)?;
    let is_beyond = is_beyond(reason, &alternatives);
    let no_key = no_key(alloc, reason, &alternatives)?;
    let kind = kind_of(reason, &alternatives, no_key.is_some());
    let short = short(alloc, kind, no_key, reason.named, alternatives.count())?;
    let pointer = pointer(alloc, &reason.steps)?;
    let pattern = pattern(alloc, &reason.steps, pointer.as_str())?;
    Ok(Misfit {
        id,
        method,
        kind,
        pointer,
        pattern,
        wants: wants_with(alloc, short, alternatives)?,
        has: has(alloc, kind, reason.found)?,
        rule: rule_name(reason.named),
        is_beyond,
    })
}

// What may stand at a place, where there is a short text for it or none.
fn wants_with(
    alloc: Global,
    short: Option<String>,
    alternatives: Alternatives,
) -> Result<Wants, AllocError>
    ensures whole { IfOk result (λ w. wants_of w ≡ choice_text (told_by alternatives)) }
    ensures short { IfOk result (λ w. short_of w ≡ unwrap_or (option_map string_bytes short) (choice_text (told_by alternatives))) }
{
    match short {
        Some(short) => Ok(Wants::Short(short, alternatives)),
        None => Ok(Wants::Whole(alternatives.text(alloc)?)),
    }
}

// The text of a rule's name.
fn rule_name(name: Option<Name>) -> Option<&'static str>
    ensures { option_map (λ s. s.now) result ≡ option_map rule_text (option_map name_of name) }
{
    match name {
        Some(name) => Some(name.text()),
        None => None,
    }
}

/// The id of a tree, where it is a js-uint.
pub(crate) fn id(tree: &Outline<'_>) -> Option<JsUint>
    ensures { option_map (λ n. n.value) result ≡ echoed_id (outline_node tree.now) }
{
    match member(tree, "id") {
        Some(id) => js_uint(id),
        None => None,
    }
}

// The number, where the tree is a js-uint.
fn js_uint(tree: &Outline<'_>) -> Option<JsUint>
    ensures { option_map (λ n. n.value) result ≡ js_uint_in (outline_node tree.now) }
{
    match tree.as_int() {
        Some(n) if n.value >= 0 => JsUint::new(n.value as u64),
        _ => None,
    }
}

/// The member `method` of a tree, or else its `type`, where that is a text.
pub(crate) fn method<'a>(tree: &'a Outline<'_>) -> Option<&'a str>
    ensures { option_map (λ s. s.now) result ≡ method_of (outline_node tree.now) }
{
    match text_member(tree, "method") {
        Some(method) => Some(method),
        None => text_member(tree, "type"),
    }
}

// The member of that name, where it is a text.
fn text_member<'a>(tree: &'a Outline<'_>, name: &str) -> Option<&'a str>
    ensures { option_map (λ s. s.now) result ≡ option_and_then text_in (get_of name.now (outline_node tree.now)) }
{
    match member(tree, name) {
        Some(member) => member.as_str(),
        None => None,
    }
}

/// The member of that name.
pub(crate) fn member<'a, 'b>(tree: &'a Outline<'b>, name: &str) -> Option<&'a Outline<'b>>
    ensures { option_map (λ t. outline_node t.now) result ≡ get_of name.now (outline_node tree.now) }
{
    match tree {
        Outline::Map(members) => find_outline(members, name),
        _ => None,
    }
}

// The place with `*` for the number of each item, of steps that have the last one first, and of their pointer.
fn pattern(alloc: Global, steps: &[PathStep<'_>], pointer: &str) -> Result<String, AllocError>
    requires { pointer.now ≡ pointer_text (map step_of steps.now) }
    ensures { IfOk result (λ text. string_bytes text ≡ pattern_text (map step_of steps.now)) }
{
    if has_items(steps) {
        starred(alloc, steps)
    } else {
        String::from_str(alloc, pointer)
    }
}

// Whether an item is among the steps.
fn has_items(steps: &[PathStep<'_>]) -> bool
    ensures { result ≡ false → pattern_text (map step_of steps.now) ≡ pointer_text (map step_of steps.now) }
{
    for step in steps {
        if let PathStep::Item(_) = step {
            return true;
        }
    }
    false
}

// The pointer with `*` for the number of each item, step by step.
fn starred(alloc: Global, steps: &[PathStep<'_>]) -> Result<String, AllocError>
    ensures { IfOk result (λ text. string_bytes text ≡ pattern_text (map step_of steps.now)) }
{
    let [last, before @ ..] = steps else {
        return Ok(String::new(alloc));
    };
    let mut text = starred(alloc, before)?;
    match last {
        PathStep::Member(_) => text.push_str(pointer(alloc, &[*last])?.as_str())?,
        PathStep::Item(_) => text.push_str("/*")?,
    }
    Ok(text)
}
