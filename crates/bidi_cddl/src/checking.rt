//! Checks of a whole reading.
//!
//! The parser is not proved to read right. Each of its steps is checked instead, after it: a step has a form of the grammar, and its
//! parts are steps before it.
ghost use Rattle.std.specs.Prelude.{IsTrue};
ghost use Rattle.bidi_cddl.specs.Steps.{AllRead, ReadsAfter, level_of, nodes_of, tokens_of};

use crate::group_steps::{
    is_bare, is_both, is_choice, is_empty, is_further, is_inside, is_last, is_member,
};
use crate::level::step_at;
use crate::step::{Form, Step};
use crate::token::Placed;
use crate::type_steps::{
    is_bounded, is_either, is_in_braces, is_in_brackets, is_in_parentheses, is_leaf, is_range,
    is_with_default,
};
use crate::written::Node;

/// Whether each step is right: its tokens are read as its form and its node say.
pub(crate) fn are_right(tokens: &[Placed<'_>], nodes: &[Node<'_>], steps: &[Step]) -> bool
    ensures { IsTrue result → AllRead (nodes_of nodes.now) (tokens_of tokens.now) steps.now }
{
    for i in 0..steps.len() {
        let (before, _) = steps.split_at(i);
        let Some(step) = step_at(steps, i) else {
            return false;
        };
        if !is_right(tokens, nodes, before, step.form, &step) {
            return false;
        }
    }
    true
}

// Whether a step of a form is right if the steps before it are.
fn is_right(
    tokens: &[Placed<'_>],
    nodes: &[Node<'_>],
    steps: &[Step],
    form: Form,
    step: &Step,
) -> bool
    ensures { IsTrue result → ReadsAfter steps.now (level_of form) (nodes_of nodes.now) (tokens_of tokens.now) step.now }
{
    match form {
        Form::Leaf => is_leaf(tokens, nodes, step),
        Form::Parentheses(part) => is_in_parentheses(tokens, steps, step, part),
        Form::Braces(part) => is_in_braces(tokens, nodes, steps, step, part),
        Form::Brackets(part) => is_in_brackets(tokens, nodes, steps, step, part),
        Form::Range => is_range(tokens, nodes, step),
        Form::Bounded(part) => is_bounded(tokens, nodes, steps, step, part),
        Form::Default(part) => is_with_default(tokens, steps, step, part),
        Form::Either(first, second) => is_either(tokens, nodes, steps, step, first, second),
        Form::Member(part) => is_member(tokens, nodes, steps, step, part),
        Form::Further(part) => is_further(tokens, nodes, steps, step, part),
        Form::Bare(part) => is_bare(tokens, nodes, steps, step, part),
        Form::Inside(part) => is_inside(tokens, nodes, steps, step, part),
        Form::Empty => is_empty(nodes, step),
        Form::Last(part) => is_last(tokens, steps, step, part),
        Form::Both(first, second) => is_both(tokens, nodes, steps, step, first, second),
        Form::Choice(first, second) => is_choice(tokens, nodes, steps, step, first, second),
    }
}
