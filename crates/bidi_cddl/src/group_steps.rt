//! Checks of the steps that read groups.
ghost use Rattle.std.specs.Prelude.{IsTrue, List};
ghost use Rattle.bidi_cddl.specs.Steps.{ReadsAfter, ReadsAlways, StepReads, nodes_of, tokens_of};
ghost use Rattle.bidi_cddl.specs.Token.{Token};

use crate::level::{Level, part};
use crate::matching::{after_comma, after_key, after_occurs, after_text, node_at, passes_sign};
use crate::step::Step;
use crate::token::{Placed, Sign};
use crate::written::Node;

/// Whether a step reads a member.
pub(crate) fn is_member(
    tokens: &[Placed<'_>],
    nodes: &[Node<'_>],
    steps: &[Step],
    step: &Step,
    place: usize,
) -> bool
    ensures { IsTrue result → ReadsAfter steps.now Level.Entry (nodes_of nodes.now) (tokens_of tokens.now) step.now }
{
    let Some(value) = part(steps, place, Level::AnyType) else {
        return false;
    };
    let Some(Node::Member(occurs, key, node)) = node_at(nodes, step.node) else {
        return false;
    };
    let Some(next) = after_occurs(tokens, step.from, occurs) else {
        return false;
    };
    let Some(from) = after_key(tokens, next, key) else {
        return false;
    };
    if value.node != node || value.from != from || value.to != step.to {
        return false;
    }
    true
}

/// Whether a step reads further members.
pub(crate) fn is_further(
    tokens: &[Placed<'_>],
    nodes: &[Node<'_>],
    steps: &[Step],
    step: &Step,
    place: usize,
) -> bool
    ensures { IsTrue result → ReadsAfter steps.now Level.Entry (nodes_of nodes.now) (tokens_of tokens.now) step.now }
{
    let Some(value) = part(steps, place, Level::AnyType) else {
        return false;
    };
    let Some(Node::Further(occurs, node)) = node_at(nodes, step.node) else {
        return false;
    };
    let Some(next) = after_occurs(tokens, step.from, occurs) else {
        return false;
    };
    let Some(from) = after_text(tokens, next) else {
        return false;
    };
    if value.node != node || value.from != from || value.to != step.to {
        return false;
    }
    true
}

/// Whether a step reads a type alone.
pub(crate) fn is_bare(
    tokens: &[Placed<'_>],
    nodes: &[Node<'_>],
    steps: &[Step],
    step: &Step,
    place: usize,
) -> bool
    ensures { IsTrue result → ReadsAfter steps.now Level.Entry (nodes_of nodes.now) (tokens_of tokens.now) step.now }
{
    let Some(value) = part(steps, place, Level::AnyType) else {
        return false;
    };
    let Some(Node::Bare(occurs, node)) = node_at(nodes, step.node) else {
        return false;
    };
    let Some(from) = after_occurs(tokens, step.from, occurs) else {
        return false;
    };
    if value.node != node || value.from != from || value.to != step.to {
        return false;
    }
    true
}

/// Whether a step reads a group in parentheses.
pub(crate) fn is_inside(
    tokens: &[Placed<'_>],
    nodes: &[Node<'_>],
    steps: &[Step],
    step: &Step,
    place: usize,
) -> bool
    ensures { IsTrue result → ReadsAfter steps.now Level.Entry (nodes_of nodes.now) (tokens_of tokens.now) step.now }
{
    let Some(inner) = part(steps, place, Level::Group) else {
        return false;
    };
    let Some(Node::Inside(occurs, node)) = node_at(nodes, step.node) else {
        return false;
    };
    let Some(next) = after_occurs(tokens, step.from, occurs) else {
        return false;
    };
    if inner.node != node {
        return false;
    }
    if !passes_sign(tokens, next, Sign::OpenParenthesis, inner.from) {
        return false;
    }
    passes_sign(tokens, inner.to, Sign::CloseParenthesis, step.to)
}

/// Whether a step reads no entry.
pub(crate) fn is_empty(nodes: &[Node<'_>], step: &Step) -> bool
    ensures { IsTrue result → (ts : List Token) → StepReads Level.Alternative (nodes_of nodes.now) ts step.now }
{
    let Some(Node::Empty) = node_at(nodes, step.node) else {
        return false;
    };
    if step.from != step.to {
        return false;
    }
    true
}

/// Whether a step reads an entry behind which no other is.
pub(crate) fn is_last(tokens: &[Placed<'_>], steps: &[Step], step: &Step, place: usize) -> bool
    ensures { IsTrue result → ReadsAlways steps.now Level.Alternative (tokens_of tokens.now) step.now }
{
    let Some(entry) = part(steps, place, Level::Entry) else {
        return false;
    };
    if entry.node != step.node || entry.from != step.from {
        return false;
    }
    let next = after_comma(tokens, entry.to);
    if step.to != next {
        return false;
    }
    true
}

/// Whether a step reads an entry and others.
pub(crate) fn is_both(
    tokens: &[Placed<'_>],
    nodes: &[Node<'_>],
    steps: &[Step],
    step: &Step,
    first: usize,
    second: usize,
) -> bool
    ensures { IsTrue result → ReadsAfter steps.now Level.Alternative (nodes_of nodes.now) (tokens_of tokens.now) step.now }
{
    let Some(entry) = part(steps, first, Level::Entry) else {
        return false;
    };
    let Some(others) = part(steps, second, Level::Alternative) else {
        return false;
    };
    let Some(Node::Both(a, b)) = node_at(nodes, step.node) else {
        return false;
    };
    if entry.node != a || others.node != b {
        return false;
    }
    if entry.from != step.from || others.to != step.to {
        return false;
    }
    let next = after_comma(tokens, entry.to);
    if others.from != next {
        return false;
    }
    true
}

/// Whether a step reads a choice of groups.
pub(crate) fn is_choice(
    tokens: &[Placed<'_>],
    nodes: &[Node<'_>],
    steps: &[Step],
    step: &Step,
    first: usize,
    second: usize,
) -> bool
    ensures { IsTrue result → ReadsAfter steps.now Level.Group (nodes_of nodes.now) (tokens_of tokens.now) step.now }
{
    let Some(one) = part(steps, first, Level::Alternative) else {
        return false;
    };
    let Some(other) = part(steps, second, Level::Group) else {
        return false;
    };
    let Some(Node::Choice(a, b)) = node_at(nodes, step.node) else {
        return false;
    };
    if one.node != a || other.node != b {
        return false;
    }
    if one.from != step.from || other.to != step.to {
        return false;
    }
    passes_sign(tokens, one.to, Sign::TwoSlashes, other.from)
}
