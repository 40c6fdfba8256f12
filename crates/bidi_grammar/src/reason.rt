//! What judging a value says.
ghost use Rattle.std.specs.Prelude.{◌≡◌};
ghost use Rattle.bidi_grammar.specs.Reason.{same_step};
ghost use Rattle.bidi_grammar.specs.View.{step_of};

use json::Value;

/// A step into a value.
#[derive(Clone, Copy)]
pub enum PathStep<'a> {
    /// To the member of this name.
    Member(&'a str),
    /// To the item that has so many before it.
    Item(usize),
}

impl PathStep<'_> {
    /// Whether it leads where the other one does.
    pub(crate) fn is(&self, other: &PathStep<'_>) -> bool
        ensures { result ≡ same_step (step_of self.now) (step_of other.now) }
    {
        match self {
            PathStep::Member(name) => match other {
                PathStep::Member(others) => name == others,
                PathStep::Item(_) => false,
            },
            PathStep::Item(i) => match other {
                PathStep::Member(_) => false,
                PathStep::Item(j) => i == j,
            },
        }
    }
}

/// At which place of a value what stands there is not what a term wants.
#[derive(Drop)]
pub struct Reason<'a, 'b> {
    /// The steps from the value to the place, the last one first.
    pub steps: Vec<PathStep<'a>>,
    /// The places of the terms that may stand there, one of these. If there is none, nothing may.
    pub wants: Vec<usize>,
    /// What stands there; `None` for a member that is missing.
    pub found: Option<&'a Value<'b>>,
    /// The place of the innermost rule that speaks of it.
    pub named: Option<usize>,
    /// How many members `type` and `method` of the value fit that stand before the place in the rule: they tell which alternative
    /// is meant.
    pub tags: usize,
}

/// What judging a value says.
#[derive(Drop)]
pub enum Verdict<'a, 'b> {
    /// The value fits.
    Fits,
    /// The value does not fit, for this reason.
    Unfit(Reason<'a, 'b>),
    /// Judging the value takes more looks.
    GaveUp,
}
