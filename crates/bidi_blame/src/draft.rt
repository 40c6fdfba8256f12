//! Reasons while they are looked for. Most are not told, and so they take no memory while they are short.
ghost use Rattle.std.specs.Prelude.{◌≡◌, ◌<◌, ◌+◌, ◌^◌, IfOk, OnOk, map, option_map};
ghost use Rattle.bidi_tree.specs.Outline.{outline_node};
ghost use Rattle.bidi_rules.specs.Grammar.{grammar};
ghost use Rattle.bidi_rules.specs.Names.{name_of};
ghost use Rattle.bidi_blame.specs.Reason.{here, missing, unknown, under, by, is_tag, tags_with, same_place, same_name, depth, both, told};
ghost use Rattle.bidi_blame.specs.View.{step_of, want_of, draft_of, listed, reason_of};

use crate::few::Few;
use crate::reason::{PathStep, Reason, Want};
use bidi_rules::{Name, Term};
use bidi_tree::Outline;
use std::alloc::{AllocError, Global};
use std::slice;

/// A reason while it is looked for; what it holds is said at [`Reason`].
#[derive(Drop)]
pub(crate) struct Draft<'a, 'b> {
    steps: Few<PathStep<'b>>,
    wants: Few<Want>,
    found: Option<&'a Outline<'b>>,
    named: Option<Name>,
    tags: usize,
}

impl<'a, 'b> Draft<'a, 'b> {
    /// A draft of no reason.
    pub(crate) fn new() -> Draft<'a, 'b> {
        Draft {
            steps: Few::Nothing,
            wants: Few::Nothing,
            found: None,
            named: None,
            tags: 0,
        }
    }

    /// What stands here is not what is wanted.
    pub(crate) fn set_here(&mut self, tree: &'a Outline<'b>, want: Want)
        ensures { draft_of self.new ≡ here (want_of want) (outline_node tree.now) }
    {
        self.steps = Few::Nothing;
        self.wants = Few::One(want);
        self.found = Some(tree);
        self.named = None;
        self.tags = 0;
    }

    /// A member of that name has to be there.
    pub(crate) fn set_missing(&mut self, tags: usize, name: &'b str, term: &'static Term)
        ensures { draft_of self.new ≡ missing tags name.now (grammar term.now) }
    {
        self.steps = Few::One(PathStep::Member(name));
        self.wants = Few::One(Want::term(term));
        self.found = None;
        self.named = None;
        self.tags = tags;
    }

    /// A member of that name may not be there.
    pub(crate) fn set_unknown(&mut self, tags: usize, name: &'b str, tree: &'a Outline<'b>)
        ensures { draft_of self.new ≡ unknown tags name.now (outline_node tree.now) }
    {
        self.steps = Few::One(PathStep::Member(name));
        self.wants = Few::Nothing;
        self.found = Some(tree);
        self.named = None;
        self.tags = tags;
    }

    /// The reason of a part is one of the whole.
    pub(crate) fn go_under(
        &mut self,
        alloc: Global,
        tags: usize,
        step: PathStep<'b>,
    ) -> Result<(), AllocError>
        ensures { OnOk result (draft_of self.new ≡ under tags (step_of step.entry) (draft_of self.old)) }
    {
        self.steps.push(alloc, step)?;
        self.tags = tags;
        Ok(())
    }

    /// A rule gives its name, where no rule further in has.
    pub(crate) fn set_name(&mut self, name: Name)
        ensures { draft_of self.new ≡ by (name_of name) (draft_of self.old) }
    {
        self.named = Some(self.named.unwrap_or(name));
    }

    /// The reason against a choice of two, of the reasons against each of them.
    pub(crate) fn choose(
        &mut self,
        alloc: Global,
        tree: &'a Outline<'b>,
        choice: Want,
        other: Draft<'a, 'b>,
    ) -> Result<(), AllocError>
        ensures { OnOk result (draft_of self.new ≡ told (outline_node tree.now) (want_of choice) (draft_of self.old) (draft_of other.entry)) }
    {
        if self.tags > other.tags {
            return Ok(());
        }
        if other.tags > self.tags {
            *self = other;
            return Ok(());
        }
        if self.depth() > other.depth() {
            return Ok(());
        }
        if other.depth() > self.depth() {
            *self = other;
            return Ok(());
        }
        if is_same_place(slice_of(&self.steps), slice_of(&other.steps)) {
            return self.join(alloc, other);
        }
        self.set_here(tree, choice);
        Ok(())
    }

    // How deep something stands that is not as it should be.
    fn depth(&self) -> usize
        ensures { result ≡ depth (draft_of self.now) }
    {
        match self.found {
            Some(_) => self.steps.len(),
            None => self.steps.len().saturating_sub(1),
        }
    }

    // One place, at which either may stand.
    fn join(&mut self, alloc: Global, other: Draft<'a, 'b>) -> Result<(), AllocError>
        ensures { OnOk result (draft_of self.new ≡ both (draft_of self.old) (draft_of other.entry)) }
    {
        self.wants.append(alloc, other.wants)?;
        self.named = common_name(self.named, other.named);
        Ok(())
    }

    /// The reason that is told.
    pub(crate) fn into_reason(self, alloc: Global) -> Result<Reason<'a, 'b>, AllocError>
        ensures { IfOk result (λ r. reason_of r ≡ draft_of self.entry) }
    {
        let steps = self.steps.into_vec(alloc)?;
        let wants = self.wants.into_vec(alloc)?;
        Ok(Reason {
            steps,
            wants,
            found: self.found,
            named: self.named,
            tags: self.tags,
        })
    }
}

/// How many tags fit, with a member of that name behind so many.
pub(crate) fn tags_with(tags: usize, name: &str) -> usize
    requires { tags + 1 < 2 ^ 64 }
    ensures { result ≡ tags_with tags name.now }
{
    if is_tag(name) { tags + 1 } else { tags }
}

// Whether a member of that name tells which alternative is meant.
fn is_tag(name: &str) -> bool
    ensures { result ≡ is_tag name.now }
{
    name == "type" || name == "method"
}

// The steps, one behind the other.
fn slice_of<'a, 'b>(steps: &'a Few<PathStep<'b>>) -> &'a [PathStep<'b>]
    ensures { result.now ≡ listed steps.now }
{
    match steps {
        Few::Nothing => &[],
        Few::One(step) => slice::from_ref(step),
        Few::Many(list) => list.as_slice(),
    }
}

// Whether the steps lead to the same place.
fn is_same_place(steps: &[PathStep<'_>], others: &[PathStep<'_>]) -> bool
    ensures { result ≡ same_place (map step_of steps.now) (map step_of others.now) }
{
    match steps.split_first() {
        None => others.is_empty(),
        Some((step, more)) => match others.split_first() {
            None => false,
            Some((other, rest)) => step.is(other) && is_same_place(more, rest),
        },
    }
}

// A name where both have it.
fn common_name(name: Option<Name>, other: Option<Name>) -> Option<Name>
    ensures { option_map name_of result ≡ same_name (option_map name_of name) (option_map name_of other) }
{
    let name = name?;
    let other = other?;
    if name.text() == other.text() {
        Some(name)
    } else {
        None
    }
}
