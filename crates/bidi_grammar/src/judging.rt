//! Judging a value by a term of a grammar.
ghost use Rattle.std.specs.Prelude.{◌≡◌, ◌<◌, ◌↔◌, ℕ, List, suc, IfOk, IfSome, IsTrue, length, map, true, false, Some, option_map};
ghost use Rattle.std.specs.List.{list_any};
ghost use Rattle.std.specs.Str.{bytes_eq};
ghost use Rattle.json.specs.Find.{as_object};
ghost use Rattle.json.specs.Value.{items_view, members_view, value_view};
ghost use Rattle.bidi_grammar.specs.Fits.{Fits, takes, without};
ghost use Rattle.bidi_grammar.specs.Judges.{Answer, Judges, ItemsJudge, PartsJudge, RowsJudge, OthersJudge, fit_in, no_left};
ghost use Rattle.bidi_grammar.specs.Term as cddl;
ghost use Rattle.bidi_grammar.specs.Term.{names_of, term_at};
ghost use Rattle.bidi_grammar.specs.View.{IsGrounded, IsRight, Tells, answer_of, are_within, draft_of, is_grounded, rest_is_within, row_of, rows_are_within, table, term_of};

use crate::draft::{Draft, Look, tags_with};
use crate::reason::{PathStep, Verdict};
use crate::taking::{as_items, as_members, takes};
use crate::term::{Need, Row, Term};
use json::Value;
use std::alloc::{AllocError, Global};

/// Judges a value by the term at a place of the table.
///
/// The value fits, or it does not fit for a reason, or judging it takes more than `looks` looks. One look is one term asked about one
/// value. In some grammars each level of a value takes several times as many looks as the level below. So give a limit, such as a
/// million, for a grammar or a value that comes from outside.
///
/// The reason names the deepest place on its way, and the first one in the order of the rule's members. Against a choice, it is the
/// reason against the alternative that a member `type` or `method` selects. If none is selected, it is the reason whose place is deepest.
/// If two alternatives want different things at one place, it wants either.
///
/// A look at an object finds each member that the term names. Takes memory for the reason, and before that only for a reason that is two
/// steps deep or wants two things. Recursion is as deep as the value nests, times the choices and rules on the way.
///
/// # Errors
/// No memory: an allocation failed.
pub fn judge<'a, 'b>(
    alloc: Global,
    terms: &'a [Term],
    value: &'a Value<'b>,
    n: usize,
    looks: u64,
) -> Result<Verdict<'a, 'b>, AllocError>
    // The table may be asked.
    requires grounded { IsGrounded (table terms.now) }
    // The place is in the table.
    requires there { n < length terms.now }
    // The verdict is what judging the value with so many looks ends with: it fits, it does not for this reason, or no look is left.
    ensures answer { IfOk result (λ v. (a : Answer) × (Judges (table terms.now) looks (value_view value.now) n (term_at (table terms.now) n) a × Tells v a)) }
    // With `Fits` the value fits, and with a reason it does not.
    ensures exact { IfOk result (λ v. IsRight (table terms.now) (value_view value.now) n v) }
{
    let mut draft = Draft::new();
    match judge_term(alloc, terms, value, n, looks, &mut draft)? {
        Look::Yes(_) => Ok(Verdict::Fits),
        Look::No(_) => Ok(Verdict::Unfit(draft.into_reason(alloc)?)),
        Look::Over => Ok(Verdict::GaveUp),
    }
}

/// Whether a value fits the term at a place of the table, or `None` if judging it takes more than `looks` looks.
///
/// Takes the looks that [`judge`] takes, and gives no reason.
///
/// # Errors
/// No memory: an allocation failed.
pub fn fits<'a, 'b>(
    alloc: Global,
    terms: &'a [Term],
    value: &'a Value<'b>,
    n: usize,
    looks: u64,
) -> Result<Option<bool>, AllocError>
    // The table may be asked.
    requires grounded { IsGrounded (table terms.now) }
    // The place is in the table.
    requires there { n < length terms.now }
    // The result is what judging the value with so many looks ends with; `None` if no look is left.
    ensures answer { IfOk result (λ found. (a : Answer) × (Judges (table terms.now) looks (value_view value.now) n (term_at (table terms.now) n) a × (found ≡ fit_in a))) }
    // A result is true exactly if the value fits.
    ensures exact { IfOk result (λ found. IfSome found (λ fits. IsTrue fits ↔ Fits (table terms.now) (value_view value.now) (term_at (table terms.now) n))) }
{
    let mut draft = Draft::new();
    match judge_term(alloc, terms, value, n, looks, &mut draft)? {
        Look::Yes(_) => Ok(Some(true)),
        Look::No(_) => Ok(Some(false)),
        Look::Over => Ok(None),
    }
}

// Judges a value by the term at a place. If it does not fit, the draft has the reason.
#[cycle(judge)]
fn judge_term<'a, 'b>(
    alloc: Global,
    terms: &'a [Term],
    value: &'a Value<'b>,
    n: usize,
    looks: u64,
    draft: &mut Draft<'a, 'b>,
) -> Result<Look, AllocError>
    requires grounded { IsGrounded (table terms.now) }
    requires there { n < length terms.now }
    ensures { IfOk result (λ a. Judges (table terms.now) looks (value_view value.now) n (term_at (table terms.now) n) (answer_of a draft.new)) }
{
    if looks == 0 {
        return Ok(Look::Over);
    }
    let term = &terms[n];
    if !takes(value, term) {
        draft.set_here(value, n);
        return Ok(Look::No(looks - 1));
    }
    judge_inside(alloc, terms, value, n, term, looks - 1, draft)
}

// The same of a value that the term at a place takes.
#[cycle(judge)]
fn judge_inside<'a, 'b>(
    alloc: Global,
    terms: &'a [Term],
    value: &'a Value<'b>,
    n: usize,
    term: &'a Term,
    looks: u64,
    draft: &mut Draft<'a, 'b>,
) -> Result<Look, AllocError>
    requires grounded { IsGrounded (table terms.now) }
    requires there { n < length terms.now }
    requires inner { is_grounded (length terms.now) n (term_of term.now) ≡ true }
    requires taken { takes (value_view value.now) (term_of term.now) ≡ true }
    ensures { IfOk result (λ a. Judges (table terms.now) (suc looks) (value_view value.now) n (term_of term.now) (answer_of a draft.new)) }
{
    match term {
        Term::Exactly(_) => Ok(Look::Yes(looks)),
        Term::Text => Ok(Look::Yes(looks)),
        Term::Bool => Ok(Look::Yes(looks)),
        Term::Truth(_) => Ok(Look::Yes(looks)),
        Term::Null => Ok(Look::Yes(looks)),
        Term::Whole(_, _) => Ok(Look::Yes(looks)),
        Term::Number(_, _) => Ok(Look::Yes(looks)),
        Term::Any => Ok(Look::Yes(looks)),
        Term::ListOf(_, item) => match as_items(value) {
            Some(items) => judge_items(alloc, terms, items, *item, looks, draft),
            None => unreachable!(),
        },
        Term::TupleOf(parts) => match as_items(value) {
            Some(items) => judge_parts(alloc, terms, items, parts, looks, draft),
            None => unreachable!(),
        },
        Term::MapOf(rows, rest) => match as_members(value) {
            Some(members) => judge_rows(alloc, terms, value, members, rows, rest, looks, draft),
            None => unreachable!(),
        },
        Term::Either(first, second) => {
            judge_either(alloc, terms, value, n, *first, *second, looks, draft)
        }
        Term::Rule(_, rule) => judge_rule(alloc, terms, value, n, *rule, looks, draft),
    }
}

// Judges a value by a rule.
#[cycle(judge)]
fn judge_rule<'a, 'b>(
    alloc: Global,
    terms: &'a [Term],
    value: &'a Value<'b>,
    n: usize,
    rule: usize,
    looks: u64,
    draft: &mut Draft<'a, 'b>,
) -> Result<Look, AllocError>
    requires grounded { IsGrounded (table terms.now) }
    requires there { rule < length terms.now }
    ensures { (name : List ℕ) → IfOk result (λ a. Judges (table terms.now) (suc looks) (value_view value.now) n (cddl.rule name rule) (answer_of a draft.new)) }
{
    match judge_term(alloc, terms, value, rule, looks, draft)? {
        Look::Yes(left) => Ok(Look::Yes(left)),
        Look::Over => Ok(Look::Over),
        Look::No(left) => {
            draft.set_name(n);
            Ok(Look::No(left))
        }
    }
}

// Judges a value by a choice of two terms.
#[cycle(judge)]
fn judge_either<'a, 'b>(
    alloc: Global,
    terms: &'a [Term],
    value: &'a Value<'b>,
    n: usize,
    first: usize,
    second: usize,
    looks: u64,
    draft: &mut Draft<'a, 'b>,
) -> Result<Look, AllocError>
    requires grounded { IsGrounded (table terms.now) }
    requires first { first < length terms.now }
    requires second { second < length terms.now }
    ensures { IfOk result (λ a. Judges (table terms.now) (suc looks) (value_view value.now) n (cddl.either first second) (answer_of a draft.new)) }
{
    match judge_term(alloc, terms, value, first, looks, draft)? {
        Look::Yes(left) => Ok(Look::Yes(left)),
        Look::Over => Ok(Look::Over),
        Look::No(left) => judge_second(alloc, terms, value, n, second, left, draft),
    }
}

// Judges a value by the second of two terms; the draft has the reason against the first.
#[cycle(judge)]
fn judge_second<'a, 'b>(
    alloc: Global,
    terms: &'a [Term],
    value: &'a Value<'b>,
    n: usize,
    second: usize,
    looks: u64,
    draft: &mut Draft<'a, 'b>,
) -> Result<Look, AllocError>
    requires grounded { IsGrounded (table terms.now) }
    requires second { second < length terms.now }
    ensures { (k first : ℕ) → Judges (table terms.now) k (value_view value.now) first (term_at (table terms.now) first) (no_left looks (draft_of draft.old))
        → IfOk result (λ a. Judges (table terms.now) (suc k) (value_view value.now) n (cddl.either first second) (answer_of a draft.new)) }
{
    let mut other = Draft::new();
    match judge_term(alloc, terms, value, second, looks, &mut other)? {
        Look::Yes(left) => Ok(Look::Yes(left)),
        Look::Over => Ok(Look::Over),
        Look::No(left) => {
            draft.choose(alloc, value, n, other)?;
            Ok(Look::No(left))
        }
    }
}

// Judges some items by a term; the draft has the reason against the first that does not fit.
#[cycle(judge)]
fn judge_items<'a, 'b>(
    alloc: Global,
    terms: &'a [Term],
    items: &'a [Value<'b>],
    n: usize,
    looks: u64,
    draft: &mut Draft<'a, 'b>,
) -> Result<Look, AllocError>
    requires grounded { IsGrounded (table terms.now) }
    requires there { n < length terms.now }
    ensures { IfOk result (λ a. ItemsJudge (table terms.now) looks 0 (items_view items.now) n (answer_of a draft.new)) }
{
    let mut left = looks;
    'items: for (i, item) in items.iter().enumerate() {
        match judge_term(alloc, terms, item, n, left, draft)? {
            Look::Yes(after) => left = after,
            Look::No(after) => {
                draft.go_under(alloc, 0, PathStep::Item(i))?;
                return Ok(Look::No(after));
            }
            Look::Over => return Ok(Look::Over),
        }
    }
    Ok(Look::Yes(left))
}

// Judges some items, each by a term of its own.
#[cycle(judge)]
fn judge_parts<'a, 'b>(
    alloc: Global,
    terms: &'a [Term],
    items: &'a [Value<'b>],
    parts: &'a [usize],
    looks: u64,
    draft: &mut Draft<'a, 'b>,
) -> Result<Look, AllocError>
    requires grounded { IsGrounded (table terms.now) }
    requires parts { are_within (length terms.now) parts.now ≡ true }
    requires same { length items.now ≡ length parts.now }
    ensures { IfOk result (λ a. PartsJudge (table terms.now) looks 0 (items_view items.now) parts.now (answer_of a draft.new)) }
{
    let mut left = looks;
    'items: for (i, item) in items.iter().enumerate() {
        match judge_term(alloc, terms, item, parts[i], left, draft)? {
            Look::Yes(after) => left = after,
            Look::No(after) => {
                draft.go_under(alloc, 0, PathStep::Item(i))?;
                return Ok(Look::No(after));
            }
            Look::Over => return Ok(Look::Over),
        }
    }
    Ok(Look::Yes(left))
}

// Judges an object by rows, and its other members by a term.
#[cycle(judge)]
fn judge_rows<'a, 'b>(
    alloc: Global,
    terms: &'a [Term],
    value: &'a Value<'b>,
    members: &'a [(&'b str, Value<'b>)],
    rows: &'a [Row],
    rest: &Option<usize>,
    looks: u64,
    draft: &mut Draft<'a, 'b>,
) -> Result<Look, AllocError>
    requires grounded { IsGrounded (table terms.now) }
    requires rows { rows_are_within (length terms.now) (map row_of rows.now) ≡ true }
    requires rest { rest_is_within (length terms.now) rest.now ≡ true }
    requires members { Some (members_view members.now) ≡ as_object (value_view value.now) }
    ensures { IfOk result (λ a. RowsJudge (table terms.now) looks rest.now (without (names_of (map row_of rows.now)) (members_view members.now))
        0 (value_view value.now) (map row_of rows.now) (answer_of a draft.new)) }
{
    let mut left = looks;
    let mut tags = 0;
    'rows: for row in rows {
        let name = row.name.as_str();
        match value.get(name) {
            Some(member) => match judge_term(alloc, terms, member, row.term, left, draft)? {
                Look::Yes(after) => {
                    left = after;
                    tags = tags_with(tags, name);
                }
                Look::No(after) => {
                    draft.go_under(alloc, tags, PathStep::Member(name))?;
                    return Ok(Look::No(after));
                }
                Look::Over => return Ok(Look::Over),
            },
            None => match row.need {
                Need::Required => {
                    draft.set_missing(tags, name, row.term);
                    return Ok(Look::No(left));
                }
                Need::Optional => {}
            },
        }
    }
    judge_others(alloc, terms, members, rows, rest, tags, left, draft)
}

// Judges the members that no row names.
#[cycle(judge)]
fn judge_others<'a, 'b>(
    alloc: Global,
    terms: &'a [Term],
    members: &'a [(&'b str, Value<'b>)],
    rows: &[Row],
    rest: &Option<usize>,
    tags: usize,
    looks: u64,
    draft: &mut Draft<'a, 'b>,
) -> Result<Look, AllocError>
    requires grounded { IsGrounded (table terms.now) }
    requires rest { rest_is_within (length terms.now) rest.now ≡ true }
    ensures { IfOk result (λ a. OthersJudge (table terms.now) looks rest.now tags
        (without (names_of (map row_of rows.now)) (members_view members.now)) (answer_of a draft.new)) }
{
    let mut left = looks;
    'members: for member in members {
        if is_named(rows, member.0) {
            continue;
        }
        match rest {
            None => {
                draft.set_unknown(tags, member.0, &member.1);
                return Ok(Look::No(left));
            }
            Some(n) => match judge_term(alloc, terms, &member.1, *n, left, draft)? {
                Look::Yes(after) => left = after,
                Look::No(after) => {
                    draft.go_under(alloc, tags, PathStep::Member(member.0))?;
                    return Ok(Look::No(after));
                }
                Look::Over => return Ok(Look::Over),
            },
        }
    }
    Ok(Look::Yes(left))
}

// Whether a row has the name.
fn is_named(rows: &[Row], name: &str) -> bool
    ensures { result ≡ list_any (bytes_eq name.now) (names_of (map row_of rows.now)) }
{
    for row in rows {
        if name == row.name.as_str() {
            return true;
        }
    }
    false
}
