//! From definitions to rules.
ghost use Rattle.std.specs.Prelude.{◌≡◌, ◌↔◌, IfOk, IsTrue, MatchOption, OnOk, map, slice_get};
ghost use Rattle.bidi_cddl.specs.Adding.{IsAdded, IsFound, IsJoined, IsPushed};
ghost use Rattle.bidi_cddl.specs.Definition.{IsNew, RulesMade, definition_of, group_in, rule_of, type_in};
ghost use Rattle.bidi_cddl.specs.Node.{node_of};
ghost use Rattle.bidi_cddl.specs.Steps.{nodes_of};

use crate::definition::{Adds, Definition};
use crate::fault::{LoadFault, fault_at};
use crate::written::{Body, Node, Rule, Written};
use std::alloc::Global;

/// The most rules of a text.
const MAX_RULES: usize = 4_096;

/// A rule and its place.
#[derive(Clone, Copy)]
pub(crate) struct Found<'t> {
    place: usize,
    rule: Rule<'t>,
}

/// The rules of some definitions. A further definition of a rule adds a node, which is a choice.
///
/// # Errors
/// No memory, a rule that is defined twice, a type that is added to a group or a group to a type, or too many rules.
pub(crate) fn rules_of<'t>(
    alloc: Global,
    nodes: Vec<Node<'t>>,
    places: Vec<usize>,
    definitions: &[Definition<'t>],
) -> Result<Written<'t>, LoadFault>
    // These are the rules that the definitions make.
    ensures { IfOk result (λ w. RulesMade (nodes_of w.nodes.items) (map definition_of definitions.now) (map rule_of w.rules.items)) }
{
    let rules = Vec::new(alloc);
    let mut written = Written {
        nodes,
        places,
        rules,
    };
    for definition in definitions {
        add(alloc, &mut written, definition)?;
    }
    Ok(written)
}

// Adds a definition to the rules.
fn add<'t>(
    alloc: Global,
    written: &mut Written<'t>,
    definition: &Definition<'t>,
) -> Result<(), LoadFault>
    ensures { OnOk result (IsAdded written.old written.new definition.now) }
{
    match rule_named(&written.rules, definition.name) {
        Some(found) => add_to_rule(alloc, written, found, definition),
        None => add_rule(alloc, written, definition),
    }
}

// The rule of a name.
fn rule_named<'t>(rules: &[Rule<'t>], name: &str) -> Option<Found<'t>>
    ensures { MatchOption result (IsNew name.now (map rule_of rules.now)) (λ found. IsFound name.now found rules.now) }
{
    for place in 0..rules.len() {
        let Some(rule) = rule_at(rules, place) else {
            return None;
        };
        if is_named(&rule, name) {
            return Some(Found { place, rule });
        }
    }
    None
}

// The rule at a place.
fn rule_at<'t>(rules: &[Rule<'t>], place: usize) -> Option<Rule<'t>>
    ensures { result ≡ slice_get rules.now place }
{
    rules.get(place).copied()
}

// Whether a rule has a name.
fn is_named(rule: &Rule<'_>, name: &str) -> bool
    ensures { IsTrue result ↔ (rule.now.name.now ≡ name.now) }
{
    rule.name == name
}

// Adds a rule with a new name.
fn add_rule<'t>(
    alloc: Global,
    written: &mut Written<'t>,
    definition: &Definition<'t>,
) -> Result<(), LoadFault>
    requires { IsNew definition.now.name.now (map rule_of written.old.rules.items) }
    ensures { OnOk result (IsAdded written.old written.new definition.now) }
{
    if written.rules.len() >= MAX_RULES {
        return Err(fault_at(alloc, definition.at, "more than 4096 rules"));
    }
    written.rules.push(Rule {
        name: definition.name,
        body: definition.body,
        at: definition.at,
    })?;
    Ok(())
}

// Adds a definition to the rule of its name.
fn add_to_rule<'t>(
    alloc: Global,
    written: &mut Written<'t>,
    found: Found<'t>,
    definition: &Definition<'t>,
) -> Result<(), LoadFault>
    requires { IsFound definition.now.name.now found written.old.rules.items }
    ensures { OnOk result (IsAdded written.old written.new definition.now) }
{
    let body = joined(
        alloc,
        written,
        definition.adds,
        found.rule.body,
        definition.body,
        definition.at,
    )?;
    written.rules[found.place] = Rule {
        name: found.rule.name,
        body,
        at: found.rule.at,
    };
    Ok(())
}

// What a rule stands for with a definition more.
fn joined(
    alloc: Global,
    written: &mut Written<'_>,
    adds: Adds,
    body: Body,
    added: Body,
    at: usize,
) -> Result<Body, LoadFault>
    ensures { IfOk result (λ d. IsJoined written.old written.new adds body added d) }
{
    match adds {
        Adds::Rule => Err(fault_at(alloc, at, "a rule of that name stands above")),
        Adds::Types => join_types(alloc, written, body, added, at),
        Adds::Groups => join_groups(alloc, written, body, added, at),
    }
}

// The choice of a type and of one that is added.
fn join_types(
    alloc: Global,
    written: &mut Written<'_>,
    body: Body,
    added: Body,
    at: usize,
) -> Result<Body, LoadFault>
    ensures { IfOk result (λ d. IsJoined written.old written.new Adds.Types body added d) }
{
    let Some(first) = type_in(body) else {
        return Err(fault_at(alloc, at, "the rule of that name is a group"));
    };
    let Some(second) = type_in(added) else {
        return Err(fault_at(alloc, at, "expected a type, found a group"));
    };
    let node = push(written, Node::Either(first, second), at)?;
    Ok(Body::Type(node))
}

// The choice of a group and of one that is added.
fn join_groups(
    alloc: Global,
    written: &mut Written<'_>,
    body: Body,
    added: Body,
    at: usize,
) -> Result<Body, LoadFault>
    ensures { IfOk result (λ d. IsJoined written.old written.new Adds.Groups body added d) }
{
    let Some(first) = group_in(body) else {
        return Err(fault_at(alloc, at, "the rule of that name is a type"));
    };
    let Some(second) = group_in(added) else {
        return Err(fault_at(alloc, at, "expected a group, found a type"));
    };
    let node = push(written, Node::Choice(first, second), at)?;
    Ok(Body::Group(node))
}

// Adds a node, and gives its place.
fn push<'t>(written: &mut Written<'t>, node: Node<'t>, at: usize) -> Result<usize, LoadFault>
    ensures { IfOk result (λ n. IsPushed written.old written.new (node_of node.entry) n) }
{
    let place = written.nodes.len();
    written.nodes.push(node)?;
    written.places.push(at)?;
    Ok(place)
}

// The type that a rule stands for.
fn type_in(body: Body) -> Option<usize>
    ensures { result ≡ type_in body }
{
    match body {
        Body::Type(place) | Body::Either(place, _) => Some(place),
        Body::Group(_) => None,
    }
}

// The group that a rule stands for.
fn group_in(body: Body) -> Option<usize>
    ensures { result ≡ group_in body }
{
    match body {
        Body::Group(place) | Body::Either(_, place) => Some(place),
        Body::Type(_) => None,
    }
}
