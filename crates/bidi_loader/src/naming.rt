//! The rules of a loaded grammar.
ghost use Rattle.std.specs.Prelude.{◌≡◌, ◌<◌, length, IfOk, IfSome, IsTrue, slice_index_or};
ghost use Rattle.std.specs.List.{AllZip};
ghost use Rattle.bidi_loader.specs.Loading.{HasKind, IsNamed};
ghost use Rattle.bidi_loader.specs.Readings.{named_at, source_at};

use crate::draft::Origin;
use crate::fault::fault_at;
use crate::making::Made;
use crate::named::Named;
use crate::reading::Reading;
use bidi_cddl::{Body, LoadFault, Rule, Written};
use std::alloc::Global;

/// The rules with the places of their terms; a place has to be made of its rule.
///
/// # Errors
/// No memory, or a place that was not made of its rule.
pub(crate) fn named_rules(
    alloc: Global,
    written: &Written<'_>,
    reading: &Reading,
    made: &Made,
) -> Result<Vec<Named>, LoadFault>
    // Each rule has its name, and a place that was made of it.
    ensures { IfOk result (λ rules. AllZip (IsNamed written.now reading.now made.now.origins.items) written.now.rules.items rules.items) }
{
    let mut rules = Vec::new(alloc);
    'rules: for i in 0..written.rules.len() {
        rules.push(named(alloc, written, reading, made, i, &written.rules[i])?)?;
    }
    Ok(rules)
}

// A rule with the place of its term.
fn named(
    alloc: Global,
    written: &Written<'_>,
    reading: &Reading,
    made: &Made,
    i: usize,
    rule: &Rule<'_>,
) -> Result<Named, LoadFault>
    ensures { i < length written.now.rules.items → rule.now ≡ slice_index_or written.now.rules.items i rule.now
        → IfOk result (λ named. IsNamed written.now reading.now made.now.origins.items rule.now named) }
{
    let place = made.rules.get(i).copied().unwrap_or(None);
    if !is_place_of(written, reading, made, i, &place) {
        return Err(fault_at(alloc, rule.at, "a place that was not made of its rule"));
    }
    if !is_kind(rule.body, &place) {
        return Err(fault_at(
            alloc,
            rule.at,
            "a type without a place, or a group with one",
        ));
    }
    let name = String::from_str(alloc, rule.name)?;
    Ok(Named { name, place })
}

// Whether a type has a place, and a group none.
fn is_kind(body: Body, place: &Option<usize>) -> bool
    ensures { IsTrue result → HasKind body place.now }
{
    match body {
        Body::Type(_) => place.is_some(),
        Body::Group(_) => place.is_none(),
        Body::Either(_, _) => true,
    }
}

// Whether a place, if there is one, was made of a rule.
fn is_place_of(
    written: &Written<'_>,
    reading: &Reading,
    made: &Made,
    i: usize,
    place: &Option<usize>,
) -> bool
    ensures { IsTrue result → IfSome place.now (λ n. (n < length made.now.origins.items)
        × (source_at written.now reading.now made.now.origins.items n ≡ named_at written.now i)) }
{
    let Some(place) = place else {
        return true;
    };
    if *place >= made.origins.len() {
        return false;
    }
    match made.origins[*place] {
        Origin::Rule(found) => found == i,
        _ => false,
    }
}
