//! Where a tree does not fit a rule, and why.
ghost use Rattle.std.specs.Prelude.{◌≡◌};
ghost use Rattle.bidi_rules.specs.Grammar.{grammar};
ghost use Rattle.bidi_blame.specs.Reason.{same_step};
ghost use Rattle.bidi_blame.specs.View.{step_of, want_of};

use bidi_rules::{Name, Term};
use bidi_tree::Outline;

/// A step into a tree.
#[derive(Clone, Copy)]
pub enum PathStep<'a> {
    /// To the member of this name.
    Member(&'a str),
    /// To the item that has so many before it.
    Item(usize),
}

impl PathStep<'_> {
    /// Whether it leads where the other one does.
    pub(crate) fn is(&self, other: &PathStep<'_>) -> bool
        ensures { result ≡ same_step (step_of self.now) (step_of other.now) }
    {
        match self {
            PathStep::Member(name) => match other {
                PathStep::Member(others) => name == others,
                PathStep::Item(_) => false,
            },
            PathStep::Item(i) => match other {
                PathStep::Member(_) => false,
                PathStep::Item(j) => i == j,
            },
        }
    }
}

/// What may stand at a place: the first of these terms, or one of the rest.
#[derive(Clone, Copy)]
pub struct Want {
    pub first: &'static Term,
    pub rest: &'static [Term],
}

impl Want {
    /// This term alone.
    pub(crate) fn term(term: &'static Term) -> Want
        ensures { want_of result ≡ grammar term.now }
    {
        Want {
            first: term,
            rest: &[],
        }
    }
}

/// At which place of a tree what stands there is not what a rule wants.
#[derive(Drop)]
pub struct Reason<'a, 'b> {
    /// The steps from the tree to the place, the last one first.
    pub steps: Vec<PathStep<'b>>,
    /// What may stand there, one of these; where there is none, nothing may.
    pub wants: Vec<Want>,
    /// What stands there; `None` for a member that is missing.
    pub found: Option<&'a Outline<'b>>,
    /// The innermost rule that speaks of the place.
    pub named: Option<Name>,
    /// How many members `type` and `method` of the tree fit that stand before the place in the rule: they tell which alternative
    /// is meant.
    pub tags: usize,
}
