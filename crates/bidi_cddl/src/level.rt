//! What a step reads: a type, an entry or a group, in the words of the grammar.
ghost use Rattle.std.specs.Prelude.{⊤, ◌≡◌, MatchOption, slice_get};
ghost use Rattle.bidi_cddl.specs.Steps.{IsPart, is_also, level_of};

use crate::step::{Form, Step};

/// What a step reads.
#[derive(Clone, Copy, PartialEq, Eq)]
pub(crate) enum Level {
    /// A type of one token or in brackets.
    Type2,
    /// A type without a choice.
    Type1,
    /// A type.
    AnyType,
    /// An entry of a group.
    Entry,
    /// An alternative of a group.
    Alternative,
    /// A group.
    Group,
}

/// What a form reads.
pub(crate) fn level_of(form: Form) -> Level
    ensures { result ≡ level_of form }
{
    match form {
        Form::Leaf | Form::Parentheses(_) | Form::Braces(_) | Form::Brackets(_) => Level::Type2,
        Form::Range | Form::Bounded(_) | Form::Default(_) => Level::Type1,
        Form::Either(_, _) => Level::AnyType,
        Form::Member(_) | Form::Further(_) | Form::Bare(_) | Form::Inside(_) => Level::Entry,
        Form::Empty | Form::Last(_) | Form::Both(_, _) => Level::Alternative,
        Form::Choice(_, _) => Level::Group,
    }
}

// Whether all that is read at the first level is also read at the second.
fn is_also(first: Level, second: Level) -> bool
    ensures { result ≡ is_also first second }
{
    match second {
        Level::Type2 => first == Level::Type2,
        Level::Type1 => first == Level::Type2 || first == Level::Type1,
        Level::AnyType => first == Level::Type2 || first == Level::Type1 || first == Level::AnyType,
        Level::Entry => first == Level::Entry,
        Level::Alternative => first == Level::Alternative,
        Level::Group => first == Level::Alternative || first == Level::Group,
    }
}

/// The step at a place, if it reads what is read at a level.
pub(crate) fn part(steps: &[Step], place: usize, level: Level) -> Option<Step>
    // Where all the steps are read, the tokens of this one are read at that level.
    ensures { MatchOption result ⊤ (λ s. IsPart steps.now level s) }
{
    let step = step_at(steps, place)?;
    if !is_also(level_of(step.form), level) {
        return None;
    }
    Some(step)
}

/// The step at a place.
pub(crate) fn step_at(steps: &[Step], place: usize) -> Option<Step>
    ensures { result ≡ slice_get steps.now place }
{
    steps.get(place).copied()
}
