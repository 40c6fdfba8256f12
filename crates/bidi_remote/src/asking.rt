//! Questions to a remote end, which change nothing.
ghost use Rattle.std.specs.Prelude.{◌≡◌, ◌++◌, List, map, string_bytes, option_map, IfOk};
ghost use Rattle.bidi_contexts.specs.View.{seen};
ghost use Rattle.bidi_remote.specs.Machine.History.{Input, acts};
ghost use Rattle.bidi_remote.specs.Machine.Connections.{attachment_of, connections_of};
ghost use Rattle.bidi_remote.specs.Machine.Sessions.{sessions};
ghost use Rattle.bidi_remote.specs.Machine.Asking.{session_in, top_named, hears, subscriptions_in};
ghost use Rattle.bidi_remote.specs.Machine.Outcome.{deeds, scope_asked};
ghost use Rattle.bidi_remote.specs.Machine.Sent.{Text};
ghost use Rattle.bidi_remote.specs.State.Heard.{heard_by, first_top};
ghost use Rattle.bidi_active.specs.SessionView.{session_row_of};
ghost use Rattle.bidi_remote.specs.State.Asked.{texts};
ghost use Rattle.bidi_sessions.specs.Checked.{IfChecked};
ghost use Rattle.bidi_sessions.specs.SubscriptionView.{row_of, scope_of};
ghost use Rattle.bidi_sessions.specs.View.{sent_of};

use crate::page_steps::told_by;
use crate::session::scope_of_ids;
use crate::state::State;
use bidi_active::Session;
use bidi_browser::{Action, Occurrence, Plan, Refusal, Top};
use bidi_messages::EventName;
use bidi_scripts::Level;
use bidi_sessions::{Attachment, Scope, Sent, Subscription};
use bidi_tree::JsUint;
use std::alloc::{AllocError, Global};
use std::rc::Rc;

impl State {
    ghost use Rattle.bidi_remote.specs.State.Stands.{AgreeWith, IsShort};

    /// The numbers of the active sessions, in order of creation.
    pub(crate) fn active_sessions(&self, alloc: Global) -> Result<Vec<u32>, AllocError>
        ensures { (h : List Input) → AgreeWith self.now (deeds h) → IfOk result (λ all. all.items ≡ sessions (deeds h)) }
    {
        numbers_of(alloc, self.sessions.all())
    }

    /// The session that a connection speaks for.
    pub(crate) fn session_of(&self, conn: JsUint) -> Option<u32>
        ensures { (h : List Input) → AgreeWith self.now (deeds h) → result ≡ session_in (attachment_of (deeds h) conn.value) }
    {
        match self.connections.attachment_of(conn) {
            Attachment::Shut | Attachment::Alone => None,
            Attachment::SpeaksFor(session) => Some(session),
        }
    }

    /// The numbers of the live subscriptions of a session.
    pub(crate) fn subscriptions_of(
        &self,
        alloc: Global,
        session: u32,
    ) -> Result<Vec<u32>, AllocError>
        ensures { (h : List Input) → AgreeWith self.now (deeds h) → IfOk result (λ all. all.items ≡ subscriptions_in (deeds h) session) }
    {
        subscription_numbers(alloc, self.sessions.subscriptions_of(session))
    }

    /// The scope of a subscription to these contexts or to these user contexts.
    pub(crate) fn scope_asked(
        &self,
        alloc: Global,
        contexts: Option<&[String]>,
        users: Option<&[String]>,
    ) -> Result<Scope, Refusal>
        ensures { (h : List Input) → AgreeWith self.now (deeds h) → IfChecked result scope_of
            (scope_asked (acts (deeds h)) (option_map (λ l. texts l.now) contexts.entry) (option_map (λ l. texts l.now) users.entry)) }
    {
        scope_of_ids(alloc, &self.browser, contexts, users)
    }

    /// Whether a session hears an event there.
    pub(crate) fn hears(&self, session: u32, event: EventName, top: Option<Top>) -> bool
        ensures { (h : List Input) → AgreeWith self.now (deeds h) → result ≡ hears (deeds h) session event top }
    {
        match self.sessions.find(session) {
            Some(session) => hears(session, event, top),
            None => false,
        }
    }

    /// Adds a text for each connection of a session, in order of opening.
    pub(crate) fn push_text(
        &self,
        session: u32,
        text: &Rc<String>,
        sent: &mut Vec<Sent>,
    ) -> Result<(), AllocError>
        ensures { (h : List Input) → AgreeWith self.now (deeds h) → IfOk result (λ _. map sent_of sent.new.items
            ≡ map sent_of sent.old.items ++ map (λ c. Text c (string_bytes text.now.value)) (connections_of (deeds h) session)) }
    {
        self.connections.push_text(session, text, sent)
    }

    /// The top-level context of the live context of this id. It is that of a log entry in the context, which is planned for this and
    /// not made.
    pub(crate) fn top_at(&self, context: &str) -> Result<Option<Top>, AllocError>
        ensures { (h : List Input) → IsShort h → AgreeWith self.now (deeds h) → IfOk result (λ top. top ≡ top_named (acts (deeds h)) context.now) }
    {
        let entry = Action::Log(context, Level::Info, "");
        match self.browser.plan(entry, self.moment) {
            Ok(plan) => Ok(first_top(plan)),
            Err(Refusal::Code(_)) => Ok(None),
            Err(Refusal::NoMemory) => Err(AllocError),
        }
    }
}

// The numbers of some sessions.
fn numbers_of(alloc: Global, sessions: &[Session]) -> Result<Vec<u32>, AllocError>
    ensures { IfOk result (λ all. all.items ≡ map (λ r. r.number) (map session_row_of sessions.now)) }
{
    let mut numbers = Vec::new(alloc);
    for session in sessions {
        numbers.push(session.number)?;
    }
    Ok(numbers)
}

// The numbers of some subscriptions.
fn subscription_numbers(
    alloc: Global,
    subscriptions: &[Subscription],
) -> Result<Vec<u32>, AllocError>
    ensures { IfOk result (λ all. all.items ≡ map (λ r. r.number) (map row_of subscriptions.now)) }
{
    let mut numbers = Vec::new(alloc);
    for subscription in subscriptions {
        numbers.push(subscription.number)?;
    }
    Ok(numbers)
}

// Whether a session hears an event there. Without a top-level context it does if the event is enabled for all contexts.
fn hears(session: &Session, event: EventName, top: Option<Top>) -> bool
    ensures { result ≡ heard_by (session_row_of session.now) event top }
{
    match top {
        Some(top) => session.hears(event, top),
        None => session.subscriptions.all_global(&[event]),
    }
}

// The top-level context of the first event before the reply of a plan.
fn first_top(plan: Plan) -> Option<Top>
    ensures { result ≡ first_top (seen plan.before.items) }
{
    let (told, change) = told_by(plan);
    drop(change);
    match told.first() {
        Some(occurrence) => Some(occurrence.top),
        None => None,
    }
}
