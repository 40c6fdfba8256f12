//! Checks of definitions.
ghost use Rattle.std.specs.Prelude.{◌≡◌, List, IsTrue, map, slice_get};
ghost use Rattle.bidi_cddl.specs.Definition.{AddedReads, BodyReads, DefinitionReads, DefinitionsRead, EntryBody, ParenthesesRead, definition_of, sign_of};
ghost use Rattle.bidi_cddl.specs.Node.{Node};
ghost use Rattle.bidi_cddl.specs.Reads.{TypeReads};
ghost use Rattle.bidi_cddl.specs.Steps.{AllRead, Between, BetweenAny, nodes_of, tokens_of};

use crate::checking::are_right;
use crate::definition::{Adds, Definition};
use crate::level::{Level, part};
use crate::matching::{after, passes_sign};
use crate::step::Step;
use crate::token::{Placed, Sign, Token};
use crate::written;
use crate::written::Body;

/// Whether the definitions are read from all tokens. It is always so, since the parser notes what it reads.
pub(crate) fn is_read(
    tokens: &[Placed<'_>],
    nodes: &[written::Node<'_>],
    steps: &[Step],
    definitions: &[Definition<'_>],
) -> bool
    ensures { IsTrue result → DefinitionsRead (nodes_of nodes.now) (map definition_of definitions.now) (tokens_of tokens.now) }
{
    if !are_right(tokens, nodes, steps) {
        return false;
    }
    are_definitions(tokens, steps, definitions)
}

// Whether the definitions are read from all tokens, if the steps are right.
fn are_definitions(tokens: &[Placed<'_>], steps: &[Step], definitions: &[Definition<'_>]) -> bool
    ensures { IsTrue result → (nodes : List Node) → AllRead nodes (tokens_of tokens.now) steps.now
        → DefinitionsRead nodes (map definition_of definitions.now) (tokens_of tokens.now) }
{
    let mut to = tokens.len();
    let mut left = definitions.len();
    while left > 0 {
        left -= 1;
        let Some(definition) = definition_at(definitions, left) else {
            return false;
        };
        if !is_definition(tokens, steps, &definition, to) {
            return false;
        }
        to = definition.from;
    }
    if to != 0 {
        return false;
    }
    true
}

// The definition at a place.
fn definition_at<'t>(definitions: &[Definition<'t>], place: usize) -> Option<Definition<'t>>
    ensures { result ≡ slice_get definitions.now place }
{
    definitions.get(place).copied()
}

// Whether a definition is read from the tokens up to a place.
fn is_definition(
    tokens: &[Placed<'_>],
    steps: &[Step],
    definition: &Definition<'_>,
    to: usize,
) -> bool
    ensures { IsTrue result → Between (λ nodes. DefinitionReads nodes (definition_of definition.now)) steps.now (tokens_of tokens.now) definition.now.from to }
{
    let Some(next) = after(tokens, definition.from, Token::Name(definition.name)) else {
        return false;
    };
    let sign = sign_of(definition.adds);
    let Some(from) = after(tokens, next, Token::Sign(sign)) else {
        return false;
    };
    is_added(tokens, steps, definition.adds, definition, from, to)
}

// The sign of a definition.
fn sign_of(adds: Adds) -> Sign
    ensures { result ≡ sign_of adds }
{
    match adds {
        Adds::Rule => Sign::Equals,
        Adds::Types => Sign::MoreTypes,
        Adds::Groups => Sign::MoreGroups,
    }
}

// Whether what a definition adds is read between two places.
fn is_added(
    tokens: &[Placed<'_>],
    steps: &[Step],
    adds: Adds,
    definition: &Definition<'_>,
    from: usize,
    to: usize,
) -> bool
    ensures { IsTrue result → Between (λ nodes. AddedReads nodes adds definition.now.body) steps.now (tokens_of tokens.now) from to }
{
    match adds {
        Adds::Rule => is_body(tokens, steps, definition.body, definition, from, to),
        Adds::Types => is_body(tokens, steps, definition.body, definition, from, to),
        Adds::Groups => is_entry(steps, definition, from, to),
    }
}

// Whether the body of a definition is an entry between two places.
fn is_entry(steps: &[Step], definition: &Definition<'_>, from: usize, to: usize) -> bool
    ensures { IsTrue result → BetweenAny (λ nodes. EntryBody nodes definition.now.body) steps.now from to }
{
    let Some(entry) = part(steps, definition.first, Level::Entry) else {
        return false;
    };
    let Body::Group(node) = definition.body else {
        return false;
    };
    if entry.node != node || entry.from != from || entry.to != to {
        return false;
    }
    true
}

// Whether a body is read between two places.
fn is_body(
    tokens: &[Placed<'_>],
    steps: &[Step],
    body: Body,
    definition: &Definition<'_>,
    from: usize,
    to: usize,
) -> bool
    ensures { IsTrue result → Between (λ nodes. BodyReads nodes body) steps.now (tokens_of tokens.now) from to }
{
    match body {
        Body::Type(node) => is_type(steps, definition.first, node, from, to),
        Body::Group(node) => is_group(tokens, steps, definition.second, node, from, to),
        Body::Either(first, second) => {
            is_either(tokens, steps, definition, first, second, from, to)
        }
    }
}

// Whether a type and a group are both read between two places.
fn is_either(
    tokens: &[Placed<'_>],
    steps: &[Step],
    definition: &Definition<'_>,
    first: usize,
    second: usize,
    from: usize,
    to: usize,
) -> bool
    ensures { IsTrue result → Between (λ nodes. BodyReads nodes (Body.Either first second)) steps.now (tokens_of tokens.now) from to }
{
    if !is_type(steps, definition.first, first, from, to) {
        return false;
    }
    is_group(tokens, steps, definition.second, second, from, to)
}

// Whether a step reads a type between two places.
fn is_type(steps: &[Step], place: usize, node: usize, from: usize, to: usize) -> bool
    ensures { IsTrue result → BetweenAny (λ nodes. TypeReads nodes node) steps.now from to }
{
    let Some(found) = part(steps, place, Level::AnyType) else {
        return false;
    };
    found.node == node && found.from == from && found.to == to
}

// Whether a step reads a group, with parentheses around it between two places.
fn is_group(
    tokens: &[Placed<'_>],
    steps: &[Step],
    place: usize,
    node: usize,
    from: usize,
    to: usize,
) -> bool
    ensures { IsTrue result → Between (λ nodes. ParenthesesRead nodes node) steps.now (tokens_of tokens.now) from to }
{
    let Some(found) = part(steps, place, Level::Group) else {
        return false;
    };
    if found.node != node {
        return false;
    }
    if !passes_sign(tokens, from, Sign::OpenParenthesis, found.from) {
        return false;
    }
    passes_sign(tokens, found.to, Sign::CloseParenthesis, to)
}
