//! Floats with bounds.
ghost use Rattle.std.specs.Prelude.{◌≡◌, ◌<◌, IfSome};
ghost use Rattle.bidi_loader.specs.Meaning.{type_at, written_trees};
ghost use Rattle.bidi_loader.specs.Plain.{bounded, with_least, with_most};
ghost use Rattle.bidi_loader.specs.Readings.{IsNode, end_view, plain_view};

use crate::plain::{End, Plain};
use crate::rules::prelude_type;
use bidi_cddl::{Node, Written};

/// How many bounds a float may have.
const MAX_BOUNDS: usize = 2;

/// A float with a bound: the float at a node, which comes before another, with a control and its number.
pub(crate) fn bounded<'t>(
    written: &Written<'t>,
    base: usize,
    control: &str,
    number: &'t str,
    before: usize,
) -> Option<Plain<'t>>
    // If there is one, it is the type at the base with that bound.
    ensures { IfSome result (λ plain. (base < before)
        × (bounded (type_at (written_trees written.now) base) control.now number.now ≡ plain_view plain)) }
{
    with_bound(ends(written, base, before, MAX_BOUNDS)?, control, number)
}

// The ends of a float at a node, which comes before another.
#[cycle(ends)]
fn ends<'t>(written: &Written<'t>, node: usize, before: usize, bounds: usize) -> Option<Plain<'t>>
    ensures { IfSome result (λ plain. (node < before) × (type_at (written_trees written.now) node ≡ plain_view plain)) }
{
    if node >= before || node >= written.nodes.len() {
        return None;
    }
    ends_of(written, node, &written.nodes[node], bounds)
}

// The ends of a float that is a node.
#[cycle(ends)]
fn ends_of<'t>(written: &Written<'t>, k: usize, node: &Node<'t>, bounds: usize) -> Option<Plain<'t>>
    ensures { IsNode written.now k node.now → IfSome result (λ plain. type_at (written_trees written.now) k ≡ plain_view plain) }
{
    match node {
        Node::Name(name) => prelude_type(written, name),
        Node::Bounded(base, control, number) => {
            if bounds == 0 {
                return None;
            }
            with_bound(ends(written, *base, k, bounds - 1)?, control, number)
        }
        _ => None,
    }
}

// A float with one bound more.
fn with_bound<'t>(float: Plain<'t>, control: &str, number: &'t str) -> Option<Plain<'t>>
    ensures { IfSome result (λ plain. bounded (plain_view float.entry) control.now number.now ≡ plain_view plain) }
{
    if control == ".ge" {
        return with_least(float, End::Including(number));
    }
    if control == ".gt" {
        return with_least(float, End::Excluding(number));
    }
    if control == ".le" {
        return with_most(float, End::Including(number));
    }
    if control == ".lt" {
        return with_most(float, End::Excluding(number));
    }
    None
}

// A float with a lower bound; it has none yet.
fn with_least<'t>(float: Plain<'t>, end: End<'t>) -> Option<Plain<'t>>
    ensures { IfSome result (λ plain. with_least (end_view end.entry) (plain_view float.entry) ≡ plain_view plain) }
{
    match float {
        Plain::Number(End::Unbounded, most) => Some(Plain::Number(end, most)),
        _ => None,
    }
}

// A float with an upper bound; it has none yet.
fn with_most<'t>(float: Plain<'t>, end: End<'t>) -> Option<Plain<'t>>
    ensures { IfSome result (λ plain. with_most (end_view end.entry) (plain_view float.entry) ≡ plain_view plain) }
{
    match float {
        Plain::Number(least, End::Unbounded) => Some(Plain::Number(least, end)),
        _ => None,
    }
}
