//! Checks of the steps that read types.
ghost use Rattle.std.specs.Prelude.{◌≡◌, IsTrue};
ghost use Rattle.bidi_cddl.specs.Reads.{dots};
ghost use Rattle.bidi_cddl.specs.Steps.{ReadsAfter, ReadsAlways, StepReads, nodes_of, tokens_of};

use crate::leaves::{is_bound, is_value};
use crate::level::{Level, part};
use crate::matching::{after, node_at, passes, passes_sign, placed_at};
use crate::step::Step;
use crate::token::{Placed, Sign, Token};
use crate::written::Node;

/// Whether a step reads a type of one token.
pub(crate) fn is_leaf(tokens: &[Placed<'_>], nodes: &[Node<'_>], step: &Step) -> bool
    ensures { IsTrue result → StepReads Level.Type2 (nodes_of nodes.now) (tokens_of tokens.now) step.now }
{
    match node_at(nodes, step.node) {
        Some(Node::Text(text)) => passes(tokens, step.from, Token::Text(text), step.to),
        Some(Node::Number(number)) => passes(tokens, step.from, Token::Number(number), step.to),
        Some(Node::Name(name)) => passes(tokens, step.from, Token::Name(name), step.to),
        _ => false,
    }
}

/// Whether a step reads a type in parentheses.
pub(crate) fn is_in_parentheses(
    tokens: &[Placed<'_>],
    steps: &[Step],
    step: &Step,
    place: usize,
) -> bool
    ensures { IsTrue result → ReadsAlways steps.now Level.Type2 (tokens_of tokens.now) step.now }
{
    let Some(inner) = part(steps, place, Level::AnyType) else {
        return false;
    };
    if inner.node != step.node {
        return false;
    }
    if !passes_sign(tokens, step.from, Sign::OpenParenthesis, inner.from) {
        return false;
    }
    passes_sign(tokens, inner.to, Sign::CloseParenthesis, step.to)
}

/// Whether a step reads a map.
pub(crate) fn is_in_braces(
    tokens: &[Placed<'_>],
    nodes: &[Node<'_>],
    steps: &[Step],
    step: &Step,
    place: usize,
) -> bool
    ensures { IsTrue result → ReadsAfter steps.now Level.Type2 (nodes_of nodes.now) (tokens_of tokens.now) step.now }
{
    let Some(inner) = part(steps, place, Level::Group) else {
        return false;
    };
    let Some(Node::Map(group)) = node_at(nodes, step.node) else {
        return false;
    };
    if inner.node != group {
        return false;
    }
    if !passes_sign(tokens, step.from, Sign::OpenBrace, inner.from) {
        return false;
    }
    passes_sign(tokens, inner.to, Sign::CloseBrace, step.to)
}

/// Whether a step reads an array.
pub(crate) fn is_in_brackets(
    tokens: &[Placed<'_>],
    nodes: &[Node<'_>],
    steps: &[Step],
    step: &Step,
    place: usize,
) -> bool
    ensures { IsTrue result → ReadsAfter steps.now Level.Type2 (nodes_of nodes.now) (tokens_of tokens.now) step.now }
{
    let Some(inner) = part(steps, place, Level::Group) else {
        return false;
    };
    let Some(Node::Array(group)) = node_at(nodes, step.node) else {
        return false;
    };
    if inner.node != group {
        return false;
    }
    if !passes_sign(tokens, step.from, Sign::OpenBracket, inner.from) {
        return false;
    }
    passes_sign(tokens, inner.to, Sign::CloseBracket, step.to)
}

/// Whether a step reads a range.
pub(crate) fn is_range(tokens: &[Placed<'_>], nodes: &[Node<'_>], step: &Step) -> bool
    ensures { IsTrue result → StepReads Level.Type1 (nodes_of nodes.now) (tokens_of tokens.now) step.now }
{
    let Some(Node::Range(least, most, is_open)) = node_at(nodes, step.node) else {
        return false;
    };
    let Some(sign) = after(tokens, step.from, Token::Number(least)) else {
        return false;
    };
    let Some(last) = after(tokens, sign, Token::Sign(dots(is_open))) else {
        return false;
    };
    passes(tokens, last, Token::Number(most), step.to)
}

/// Whether a step reads a type with a bound.
pub(crate) fn is_bounded(
    tokens: &[Placed<'_>],
    nodes: &[Node<'_>],
    steps: &[Step],
    step: &Step,
    place: usize,
) -> bool
    ensures { IsTrue result → ReadsAfter steps.now Level.Type1 (nodes_of nodes.now) (tokens_of tokens.now) step.now }
{
    let Some(inner) = part(steps, place, Level::Type2) else {
        return false;
    };
    let Some(Node::Bounded(node, control, number)) = node_at(nodes, step.node) else {
        return false;
    };
    if inner.node != node || inner.from != step.from {
        return false;
    }
    if !is_bound(control) {
        return false;
    }
    let Some(next) = after(tokens, inner.to, Token::Control(control)) else {
        return false;
    };
    passes(tokens, next, Token::Number(number), step.to)
}

/// Whether a step reads a type with a default.
pub(crate) fn is_with_default(
    tokens: &[Placed<'_>],
    steps: &[Step],
    step: &Step,
    place: usize,
) -> bool
    ensures { IsTrue result → ReadsAlways steps.now Level.Type1 (tokens_of tokens.now) step.now }
{
    let Some(inner) = part(steps, place, Level::Type2) else {
        return false;
    };
    if inner.node != step.node || inner.from != step.from {
        return false;
    }
    let Some(next) = after(tokens, inner.to, Token::Control(".default")) else {
        return false;
    };
    let Some(value) = placed_at(tokens, next) else {
        return false;
    };
    if !is_value(value.token) {
        return false;
    }
    passes(tokens, next, value.token, step.to)
}

/// Whether a step reads a choice of types.
pub(crate) fn is_either(
    tokens: &[Placed<'_>],
    nodes: &[Node<'_>],
    steps: &[Step],
    step: &Step,
    first: usize,
    second: usize,
) -> bool
    ensures { IsTrue result → ReadsAfter steps.now Level.AnyType (nodes_of nodes.now) (tokens_of tokens.now) step.now }
{
    let Some(one) = part(steps, first, Level::Type1) else {
        return false;
    };
    let Some(other) = part(steps, second, Level::AnyType) else {
        return false;
    };
    let Some(Node::Either(a, b)) = node_at(nodes, step.node) else {
        return false;
    };
    if one.node != a || other.node != b {
        return false;
    }
    if one.from != step.from || other.to != step.to {
        return false;
    }
    passes_sign(tokens, one.to, Sign::Slash, other.from)
}

// The sign between the numbers of a range, without its end or with it.
fn dots(is_open: bool) -> Sign
    ensures { result ≡ dots is_open }
{
    if is_open {
        Sign::ThreeDots
    } else {
        Sign::TwoDots
    }
}
