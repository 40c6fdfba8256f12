//! How the steps of a page are taken.
ghost use Rattle.std.specs.Prelude.{◌≡◌, ℕ, List, map, Ok, false, IfOk, OnErr};
ghost use Rattle.bidi_contexts.specs.Actions as asked;
ghost use Rattle.bidi_contexts.specs.Actions.{is_asked, Log};
ghost use Rattle.bidi_browser.specs.Asked.{action_of};
ghost use Rattle.bidi_browser.specs.Plans as planned;
ghost use Rattle.bidi_sessions.specs.View.{page_of, sent_of};
ghost use Rattle.bidi_remote.specs.Machine.History.{Input, OfPage, IsTakenAs, acts, moment};
ghost use Rattle.bidi_remote.specs.Machine.Outcome.{deeds, page_refusal};

use crate::event_texts::event_texts;
use crate::refusing::only;
use crate::rows::read_row;
use crate::state::State;
use crate::telling::tell_entry;
use crate::turn::Turn;
use bidi_browser::{Action, Change as BrowserChange, Occurrence, Plan, Refusal};
use bidi_messages::ErrorCode;
use bidi_scripts::Level;
use bidi_sessions::{PageStep, Sent};
use std::alloc::{AllocError, Global};

impl State {
    ghost use Rattle.bidi_remote.specs.State.Stands.{AgreeWith, Keeps, IsShort, Takes};
    ghost use Rattle.bidi_remote.specs.State.Turns.{is_log};

    /// Takes a step of a page.
    pub(crate) fn take_page(
        &mut self,
        alloc: Global,
        page: PageStep,
    ) -> Result<Vec<Sent>, AllocError>
        ensures ok { IfOk result (λ sent. (action : asked.Action) × IsTakenAs (page_of page) action
            × ((h : List Input) → IsShort h → AgreeWith self.old (deeds h) → Takes self.new (map sent_of sent.items) h (OfPage action))) }
        ensures err { OnErr result (Keeps self.old self.new) }
    {
        match page {
            PageStep::Frame(context, url) => {
                self.browse(alloc, Action::Frame(context.as_str(), url.as_str()))
            }
            PageStep::Unframe(context) => self.browse(alloc, Action::Unframe(context.as_str())),
            PageStep::Log(context, level, text) => {
                self.log(alloc, context.as_str(), level, text.as_str())
            }
            PageStep::TableRow(text) => {
                let row = read_row(alloc, text.as_str())?;
                self.browse(alloc, Action::TableRow(row))
            }
        }
    }

    /// The code with which the browser refuses a step of a page; none if the step has an effect.
    pub(crate) fn page_refusal(
        &self,
        alloc: Global,
        page: &PageStep,
    ) -> Result<Option<ErrorCode>, AllocError>
        ensures { IfOk result (λ code. (action : asked.Action) × IsTakenAs (page_of page.now) action
            × ((h : List Input) → IsShort h → AgreeWith self.now (deeds h) → code ≡ page_refusal (deeds h) action)) }
    {
        match page {
            PageStep::Frame(context, url) => {
                self.refusal_of(Action::Frame(context.as_str(), url.as_str()))
            }
            PageStep::Unframe(context) => self.refusal_of(Action::Unframe(context.as_str())),
            PageStep::Log(context, level, text) => {
                self.refusal_of(Action::Log(context.as_str(), *level, text.as_str()))
            }
            PageStep::TableRow(text) => {
                let row = read_row(alloc, text.as_str())?;
                self.refusal_of(Action::TableRow(row))
            }
        }
    }

    // The code with which the browser refuses an action; none if it plans it.
    fn refusal_of(&self, action: Action) -> Result<Option<ErrorCode>, AllocError>
        ensures { (h : List Input) → IsShort h → AgreeWith self.now (deeds h)
            → IfOk result (λ code. code ≡ page_refusal (deeds h) (action_of action.entry)) }
    {
        match self.browser.plan(action, self.moment) {
            Ok(plan) => {
                drop(told_by(plan));
                Ok(None)
            }
            Err(Refusal::Code(code)) => Ok(Some(code)),
            Err(Refusal::NoMemory) => Err(AllocError),
        }
    }

    // Has the browser do what a page does; it has no effect where the browser refuses it.
    fn browse(&mut self, alloc: Global, action: Action) -> Result<Vec<Sent>, AllocError>
        ensures ok { (h : List Input) → IsShort h → AgreeWith self.old (deeds h)
            → is_asked (action_of action.entry) ≡ false → is_log (action_of action.entry) ≡ false
            → IfOk result (λ sent. Takes self.new (map sent_of sent.items) h (OfPage (action_of action.entry))) }
        ensures err { OnErr result (Keeps self.old self.new) }
    {
        match self.browser.plan(action, self.moment) {
            Ok(plan) => self.take_turn(alloc, Turn::planned(alloc, plan, None)),
            Err(Refusal::Code(_)) => only(alloc, Sent::NoEffect),
            Err(Refusal::NoMemory) => Err(AllocError),
        }
    }

    // Logs an entry. It has no effect where the browser refuses it.
    fn log(
        &mut self,
        alloc: Global,
        context: &str,
        level: Level,
        text: &str,
    ) -> Result<Vec<Sent>, AllocError>
        ensures ok { (h : List Input) → IsShort h → AgreeWith self.old (deeds h)
            → IfOk result (λ sent. Takes self.new (map sent_of sent.items) h (OfPage (Log context.now level text.now))) }
        ensures err { OnErr result (Keeps self.old self.new) }
    {
        match self
            .browser
            .plan(Action::Log(context, level, text), self.moment)
        {
            Ok(plan) => self.take_entry(alloc, plan),
            Err(Refusal::Code(_)) => only(alloc, Sent::NoEffect),
            Err(Refusal::NoMemory) => Err(AllocError),
        }
    }

    // Takes a planned log entry: it is sent to the sessions that are subscribed, and kept for the others.
    fn take_entry(&mut self, alloc: Global, plan: Plan) -> Result<Vec<Sent>, AllocError>
        requires { planned.IsWellTold plan }
        ensures ok { (h : List Input) (context text : List ℕ) (level : Level) → IsShort h → AgreeWith self.old (deeds h)
            → planned.Plans (Ok plan) (acts (deeds h)) (moment (deeds h)) (Log context level text)
            → IfOk result (λ sent. Takes self.new (map sent_of sent.items) h (OfPage (Log context level text))) }
        ensures err { OnErr result (Keeps self.old self.new) }
    {
        let (told, change) = told_by(plan);
        let mut entries = event_texts(alloc, &told)?;
        let Some(entry) = entries.pop() else {
            return Ok(Vec::new(alloc));
        };
        let sent = tell_entry(alloc, self, &entry)?;
        let copies = self.sessions.copies_of(&entry)?;
        self.browser.reserve(&change)?;
        self.browser.apply(change);
        self.sessions.log(copies);
        Ok(sent)
    }
}

/// The events of a plan that stand before its reply, and its change.
pub(crate) fn told_by(plan: Plan) -> (Vec<Occurrence>, BrowserChange)
    ensures told { result.0 ≡ plan.before }
    ensures change { result.1 ≡ plan.change }
{
    let Plan {
        before,
        result,
        after,
        change,
    } = plan;
    drop(result);
    drop(after);
    (before, change)
}
