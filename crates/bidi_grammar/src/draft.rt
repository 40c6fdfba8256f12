//! Reasons while they are looked for. Most are not told, and so they take no memory while they are short.
ghost use Rattle.std.specs.Prelude.{◌≡◌, ◌<◌, ◌+◌, ◌^◌, IfOk, OnOk, map};
ghost use Rattle.json.specs.Value.{value_view};
ghost use Rattle.bidi_grammar.specs.Reason.{here, missing, unknown, under, by, is_tag, tags_with, same_place, same_name, depth, both, told};
ghost use Rattle.bidi_grammar.specs.View.{step_of, draft_of, listed, reason_of};

use crate::few::Few;
use crate::reason::{PathStep, Reason};
use json::Value;
use std::alloc::{AllocError, Global};
use std::slice;

/// What one look says, and how many looks are left.
#[derive(Clone, Copy)]
pub(crate) enum Look {
    /// The value fits.
    Yes(u64),
    /// The value does not fit, and the draft has the reason.
    No(u64),
    /// No look was left.
    Over,
}

/// A reason while it is looked for; what it holds is said at [`Reason`].
#[derive(Drop)]
pub(crate) struct Draft<'a, 'b> {
    steps: Few<PathStep<'a>>,
    wants: Few<usize>,
    found: Option<&'a Value<'b>>,
    named: Option<usize>,
    tags: usize,
}

impl<'a, 'b> Draft<'a, 'b> {
    /// A draft of no reason.
    pub(crate) fn new() -> Draft<'a, 'b> {
        Draft {
            steps: Few::Nothing,
            wants: Few::Nothing,
            found: None,
            named: None,
            tags: 0,
        }
    }

    /// What stands here is not what is wanted.
    pub(crate) fn set_here(&mut self, value: &'a Value<'b>, want: usize)
        ensures { draft_of self.new ≡ here want (value_view value.now) }
    {
        self.steps = Few::Nothing;
        self.wants = Few::One(want);
        self.found = Some(value);
        self.named = None;
        self.tags = 0;
    }

    /// A member of that name has to be there.
    pub(crate) fn set_missing(&mut self, tags: usize, name: &'a str, want: usize)
        ensures { draft_of self.new ≡ missing tags name.now want }
    {
        self.steps = Few::One(PathStep::Member(name));
        self.wants = Few::One(want);
        self.found = None;
        self.named = None;
        self.tags = tags;
    }

    /// A member of that name may not be there.
    pub(crate) fn set_unknown(&mut self, tags: usize, name: &'a str, value: &'a Value<'b>)
        ensures { draft_of self.new ≡ unknown tags name.now (value_view value.now) }
    {
        self.steps = Few::One(PathStep::Member(name));
        self.wants = Few::Nothing;
        self.found = Some(value);
        self.named = None;
        self.tags = tags;
    }

    /// The reason of a part is one of the whole.
    pub(crate) fn go_under(
        &mut self,
        alloc: Global,
        tags: usize,
        step: PathStep<'a>,
    ) -> Result<(), AllocError>
        ensures { OnOk result (draft_of self.new ≡ under tags (step_of step.entry) (draft_of self.old)) }
    {
        self.steps.push(alloc, step)?;
        self.tags = tags;
        Ok(())
    }

    /// A rule gives its place, where no rule further in has.
    pub(crate) fn set_name(&mut self, name: usize)
        ensures { draft_of self.new ≡ by name (draft_of self.old) }
    {
        self.named = Some(self.named.unwrap_or(name));
    }

    /// The reason against a choice of two, of the reasons against each of them.
    pub(crate) fn choose(
        &mut self,
        alloc: Global,
        value: &'a Value<'b>,
        choice: usize,
        other: Draft<'a, 'b>,
    ) -> Result<(), AllocError>
        ensures { OnOk result (draft_of self.new ≡ told (value_view value.now) choice (draft_of self.old) (draft_of other.entry)) }
    {
        if self.tags > other.tags {
            return Ok(());
        }
        if other.tags > self.tags {
            *self = other;
            return Ok(());
        }
        if self.depth() > other.depth() {
            return Ok(());
        }
        if other.depth() > self.depth() {
            *self = other;
            return Ok(());
        }
        if is_same_place(slice_of(&self.steps), slice_of(&other.steps)) {
            return self.join(alloc, other);
        }
        self.set_here(value, choice);
        Ok(())
    }

    // How deep something stands that is not as it should be.
    fn depth(&self) -> usize
        ensures { result ≡ depth (draft_of self.now) }
    {
        match self.found {
            Some(_) => self.steps.len(),
            None => self.steps.len().saturating_sub(1),
        }
    }

    // One place, at which either may stand.
    fn join(&mut self, alloc: Global, other: Draft<'a, 'b>) -> Result<(), AllocError>
        ensures { OnOk result (draft_of self.new ≡ both (draft_of self.old) (draft_of other.entry)) }
    {
        self.wants.append(alloc, other.wants)?;
        self.named = common_name(self.named, other.named);
        Ok(())
    }

    /// The reason that is told.
    pub(crate) fn into_reason(self, alloc: Global) -> Result<Reason<'a, 'b>, AllocError>
        ensures { IfOk result (λ r. reason_of r ≡ draft_of self.entry) }
    {
        let steps = self.steps.into_vec(alloc)?;
        let wants = self.wants.into_vec(alloc)?;
        Ok(Reason {
            steps,
            wants,
            found: self.found,
            named: self.named,
            tags: self.tags,
        })
    }
}

/// How many tags fit, with a member of that name after so many.
pub(crate) fn tags_with(tags: usize, name: &str) -> usize
    requires { tags + 1 < 2 ^ 64 }
    ensures { result ≡ tags_with tags name.now }
{
    if is_tag(name) { tags + 1 } else { tags }
}

// Whether a member of that name tells which alternative is meant.
fn is_tag(name: &str) -> bool
    ensures { result ≡ is_tag name.now }
{
    name == "type" || name == "method"
}

// The steps, one after the other.
fn slice_of<'a, 'b>(steps: &'a Few<PathStep<'b>>) -> &'a [PathStep<'b>]
    ensures { result.now ≡ listed steps.now }
{
    match steps {
        Few::Nothing => &[],
        Few::One(step) => slice::from_ref(step),
        Few::Many(list) => list.as_slice(),
    }
}

// Whether the steps lead to the same place.
fn is_same_place(steps: &[PathStep<'_>], others: &[PathStep<'_>]) -> bool
    ensures { result ≡ same_place (map step_of steps.now) (map step_of others.now) }
{
    match steps.split_first() {
        None => others.is_empty(),
        Some((step, more)) => match others.split_first() {
            None => false,
            Some((other, rest)) => step.is(other) && is_same_place(more, rest),
        },
    }
}

// A rule where both have it.
fn common_name(name: Option<usize>, other: Option<usize>) -> Option<usize>
    ensures { result ≡ same_name name other }
{
    let name = name?;
    let other = other?;
    if name == other { Some(name) } else { None }
}
