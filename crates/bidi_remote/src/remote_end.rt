//! The remote end, with its public calls.
ghost use Rattle.std.specs.Prelude.{◌≡◌, ℕ, ◌<◌, ◌≤◌, ◌↔◌, List, [], ◌∷◌, ◌++◌, map, option_map, string_bytes, true, Some, IsTrue, IfOk, OnOk, OnErr, IsOk, IsErrOf, length};
ghost use Rattle.json.specs.Json.{document};
ghost use Rattle.json.specs.Value.{value_view};
ghost use Rattle.bidi_sessions.specs.Step as steps;
ghost use Rattle.bidi_remote.specs.Machine.Messages.{AllReadBack};
ghost use Rattle.bidi_sessions.specs.View.{page_of, step_of, sent_of};
ghost use Rattle.bidi_contexts.specs.Actions.{Action};
ghost use Rattle.bidi_remote.specs.Machine.History.{Input, IsHeardAs, IsTakenAs, acts};
ghost use Rattle.bidi_remote.specs.Machine.Connections.{is_open, attachment_of, connections_of};
ghost use Rattle.bidi_remote.specs.Machine.Sessions.{sessions};
ghost use Rattle.bidi_remote.specs.Machine.Asking.{session_in, top_named, hears, subscriptions_in};
ghost use Rattle.bidi_remote.specs.Machine.Outcome.{deeds, page_refusal, scope_asked};
ghost use Rattle.bidi_remote.specs.Replies.{IsAnsweredOnce};
ghost use Rattle.bidi_remote.specs.Machine.Sent.{out, Text};
ghost use Rattle.bidi_remote.specs.Strike as strike;
ghost use Rattle.bidi_remote.specs.declared.remote_end.RemoteFault.TheVariants.{NoMemory};
ghost use Rattle.bidi_sessions.specs.Checked.{IfChecked};
ghost use Rattle.bidi_sessions.specs.Limits.{most_steps};
ghost use Rattle.bidi_sessions.specs.SubscriptionView.{scope_of};

use crate::state::State;
use bidi_browser::{Refusal, Top};
use bidi_messages::{ErrorCode, EventName};
use bidi_sessions::{PageStep, Scope, Sent, Step};
use bidi_tree::JsUint;
use json::{Scratch, Value};
use std::alloc::{AllocError, Global};
use std::rc::Rc;
use thiserror::Error;

/// How many steps a remote end accepts.
const MOST_STEPS: u64 = 1_000_000_000;

/// Why a step was refused. The remote end is as it was before the step.
#[derive(Clone, Copy, Debug, PartialEq, Eq, Error)]
pub enum RemoteFault {
    /// An allocation failed. The step is used up, but the same one may be made and taken again.
    #[error("out of memory")]
    NoMemory,
    /// 1,000,000,000 steps were accepted, and no more will be. Go on with a new remote end.
    #[error("too many steps")]
    WornOut,
}

impl From<AllocError> for RemoteFault {
    ghost from_gives = { λ _ fault. fault ≡ NoMemory };

    fn from(_error: AllocError) -> RemoteFault {
        RemoteFault::NoMemory
    }
}

/// The remote end of WebDriver BiDi, over a browser in memory. Each step is answered by the call that takes
/// it.
pub struct RemoteEnd {
    alloc: Global,
    state: State,
    /// How many steps were accepted.
    count: u64,
    /// What the texts are read in. Its 16 KB stand apart, since each function that hands an end on would take as much of the
    /// stack.
    scratch: Box<Scratch>,
}

// Not derived, so that it is proved here alone.
impl Drop for RemoteEnd {
    fn drop(self) {
        let RemoteEnd {
            alloc: _,
            state: _,
            count: _,
            scratch: _,
        } = self;
    }
}

impl RemoteEnd {
    ghost use Rattle.bidi_remote.specs.State.Stands.{StandsFor};

    /// A remote end that has taken no step: no connection, no session, and a browser with one context.
    ///
    /// # Errors
    /// No memory: an allocation failed.
    pub fn new(alloc: Global) -> Result<RemoteEnd, AllocError>
        // After an Ok, the end stands for the empty history.
        ensures { IfOk result (λ end. StandsFor end []) }
    {
        let scratch = Box::new(alloc, Scratch::new(alloc))?;
        Ok(RemoteEnd {
            alloc,
            state: State::new(alloc)?,
            count: 0,
            scratch,
        })
    }

    /// Takes one step, and returns what is sent, in order.
    ///
    /// `At`, and `Drop` of an open connection, take no memory. A step passes over at most 64 connections, 8
    /// sessions with at most 256 subscriptions each, and what `Browser::plan` passes over; a text also costs
    /// its reading. The text of an event is made once: all connections that get it, and all sessions that miss
    /// it, share it. A subscribe passes over the last hundred entries that its session missed.
    ///
    /// # Errors
    /// The remote end is then as it was.
    /// 1. `NoMemory`: an allocation failed.
    /// 2. `WornOut`: 1,000,000,000 steps were accepted.
    ///
    /// After WebDriver BiDi, "Transport".
    pub fn step(&mut self, step: Step) -> Result<Vec<Sent>, RemoteFault>
        // A step is one input. After each history that the end stands for, it answers as the machine does.
        ensures ok { IfOk result (λ sent. (i : Input) × IsHeardAs (step_of step) i
            × ((h : List Input) → StandsFor self.old h
            → (map sent_of sent.items ≡ out h i) × StandsFor self.new (i ∷ h))) }
        // Each text that is sent is the text of a message, and reads back as that message.
        ensures reads_back { (h : List Input) → StandsFor self.old h → IfOk result (λ sent. AllReadBack (map sent_of sent.items)) }
        // A command that does something gets one reply, with a result that fits the rule of its method.
        ensures answered { (h : List Input) (i : Input) → StandsFor self.old h → IsHeardAs (step_of step) i → OnOk result (IsAnsweredOnce (deeds h) i) }
        // After an error, the end stands for the histories that it stood for before.
        ensures err { OnErr result ((h : List Input) → StandsFor self.old h → StandsFor self.new h) }
        // `WornOut` comes exactly if the end has accepted `most_steps` steps.
        ensures worn_out { (h : List Input) → StandsFor self.old h → IsErrOf result RemoteFault.WornOut ↔ (most_steps ≤ length h) }
        // `At` succeeds as long as the end is not worn out.
        ensures at { (h : List Input) (n : ℕ) → StandsFor self.old h → length h < most_steps
            → step_of step ≡ steps.At n → IsOk result }
        // `Drop` of an open connection succeeds as long as the end is not worn out.
        ensures drop { (h : List Input) (c : ℕ) → StandsFor self.old h → length h < most_steps
            → step_of step ≡ steps.Drop c → IsTrue (is_open (deeds h) c) → IsOk result }
    {
        if self.count >= MOST_STEPS {
            return Err(RemoteFault::WornOut);
        }
        let sent = self.state.take(self.alloc, step, self.scratch.as_mut())?;
        self.count += 1;
        Ok(sent)
    }

    /// Takes a text message that came in on a connection, and returns what is sent, in order. The text is lent.
    ///
    /// It is as [`RemoteEnd::step`] with a `Step::Text` of this connection and this text, which would own the text.
    ///
    /// # Errors
    /// The remote end is then as it was.
    /// 1. `NoMemory`: an allocation failed.
    /// 2. `WornOut`: 1,000,000,000 steps were accepted.
    ///
    /// After WebDriver BiDi, "Transport".
    pub fn hear(&mut self, conn: JsUint, text: &str) -> Result<Vec<Sent>, RemoteFault>
        // The text is one input. After each history that the end stands for, it answers as the machine does.
        ensures ok { IfOk result (λ sent. (i : Input) × IsHeardAs (steps.Text conn.value text.now) i
            × ((h : List Input) → StandsFor self.old h
            → (map sent_of sent.items ≡ out h i) × StandsFor self.new (i ∷ h))) }
        // Each text that is sent is the text of a message, and reads back as that message.
        ensures reads_back { (h : List Input) → StandsFor self.old h → IfOk result (λ sent. AllReadBack (map sent_of sent.items)) }
        // A command that does something gets one reply, with a result that fits the rule of its method.
        ensures answered { (h : List Input) (i : Input) → StandsFor self.old h → IsHeardAs (steps.Text conn.value text.now) i
            → OnOk result (IsAnsweredOnce (deeds h) i) }
        // After an error, the end stands for the histories that it stood for before.
        ensures err { OnErr result ((h : List Input) → StandsFor self.old h → StandsFor self.new h) }
        // `WornOut` comes exactly if the end has accepted `most_steps` steps.
        ensures worn_out { (h : List Input) → StandsFor self.old h → IsErrOf result RemoteFault.WornOut ↔ (most_steps ≤ length h) }
    {
        if self.count >= MOST_STEPS {
            return Err(RemoteFault::WornOut);
        }
        let sent = self
            .state
            .take_text(self.alloc, conn, text, None, self.scratch.as_mut())?;
        self.count += 1;
        Ok(sent)
    }

    /// Takes a text message as [`RemoteEnd::hear`] does. Its JSON value is lent too, so that the text is not read again.
    ///
    /// # Errors
    /// The remote end is then as it was.
    /// 1. `NoMemory`: an allocation failed.
    /// 2. `WornOut`: 1,000,000,000 steps were accepted.
    pub fn hear_value(
        &mut self,
        conn: JsUint,
        text: &str,
        value: &Value<'_>,
    ) -> Result<Vec<Sent>, RemoteFault>
        // The value is that of the text.
        requires { document text.now ≡ Some (value_view value.now) }
        // The text is one input. After each history that the end stands for, it answers as the machine does.
        ensures ok { IfOk result (λ sent. (i : Input) × IsHeardAs (steps.Text conn.value text.now) i
            × ((h : List Input) → StandsFor self.old h
            → (map sent_of sent.items ≡ out h i) × StandsFor self.new (i ∷ h))) }
        // Each text that is sent is the text of a message, and reads back as that message.
        ensures reads_back { (h : List Input) → StandsFor self.old h → IfOk result (λ sent. AllReadBack (map sent_of sent.items)) }
        // A command that does something gets one reply, with a result that fits the rule of its method.
        ensures answered { (h : List Input) (i : Input) → StandsFor self.old h → IsHeardAs (steps.Text conn.value text.now) i
            → OnOk result (IsAnsweredOnce (deeds h) i) }
        // After an error, the end stands for the histories that it stood for before.
        ensures err { OnErr result ((h : List Input) → StandsFor self.old h → StandsFor self.new h) }
        // `WornOut` comes exactly if the end has accepted `most_steps` steps.
        ensures worn_out { (h : List Input) → StandsFor self.old h → IsErrOf result RemoteFault.WornOut ↔ (most_steps ≤ length h) }
    {
        if self.count >= MOST_STEPS {
            return Err(RemoteFault::WornOut);
        }
        let sent = self
            .state
            .take_text(self.alloc, conn, text, Some(value), self.scratch.as_mut())?;
        self.count += 1;
        Ok(sent)
    }

    /// Whether a step is struck for a session: it is an idle text of another session, one that is refused or
    /// that only asks or subscribes. Such a step changes nothing for this session, so it need not be taken.
    ///
    /// The end stays as it is. A text of another session is judged and decided.
    ///
    /// # Errors
    /// 1. `NoMemory`: an allocation failed.
    /// 2. `WornOut`: 1,000,000,000 steps were accepted.
    pub fn is_struck(&mut self, session: u32, step: &Step) -> Result<bool, RemoteFault>
        // After an Ok, the answer for the session is that of the definition, for each input as which the step can be heard.
        ensures struck { (h : List Input) (i : Input) → StandsFor self.old h → IsHeardAs (step_of step.now) i
            → IfOk result (λ found. found ≡ strike.is_struck (deeds h) session i) }
        // If the step is struck, there is an input as which it is heard.
        ensures heard { IfOk result (λ found. found ≡ true → (i : Input) × IsHeardAs (step_of step.now) i) }
        // The end stands for the histories that it stood for before.
        ensures kept { (h : List Input) → StandsFor self.old h → StandsFor self.new h }
        // `WornOut` comes only if the end has accepted `most_steps` steps.
        ensures worn_out { (h : List Input) → StandsFor self.old h → IsErrOf result RemoteFault.WornOut → most_steps ≤ length h }
    {
        if self.count >= MOST_STEPS {
            return Err(RemoteFault::WornOut);
        }
        Ok(
            self.state
                .is_struck(self.alloc, session, step, self.scratch.as_mut())?,
        )
    }

    /// The code for which a step of a page would have no effect; `None` if it would have one. The end stays as it is.
    /// Costs the planning of the step.
    ///
    /// # Errors
    /// No memory: an allocation failed.
    pub fn page_refusal(&self, page: &PageStep) -> Result<Option<ErrorCode>, AllocError>
        // The code is that of the first check of the browser that fails, whatever history the end stands for.
        ensures { IfOk result (λ code. (action : Action) × IsTakenAs (page_of page.now) action
            × ((h : List Input) → StandsFor self.now h → length h < most_steps → code ≡ page_refusal (deeds h) action)) }
    {
        self.state.page_refusal(self.alloc, page)
    }

    /// Whether the connection of this number is open. Takes no memory, and passes over at most 64 connections.
    pub fn is_open(&self, conn: JsUint) -> bool
        // True exactly if the history of the end leaves the connection open.
        ensures { (h : List Input) → StandsFor self.now h → result ≡ is_open (deeds h) conn.value }
    {
        self.state.is_open(conn)
    }

    /// The numbers of the active sessions, in order of creation.
    ///
    /// # Errors
    /// No memory: an allocation failed.
    pub fn sessions(&self) -> Result<Vec<u32>, AllocError>
        // After an Ok, they are the active sessions of each history that the end stands for.
        ensures { (h : List Input) → StandsFor self.now h → IfOk result (λ all. all.items ≡ sessions (deeds h)) }
    {
        self.state.active_sessions(self.alloc)
    }

    /// The number of the session that a connection speaks for; `None` if it speaks for none. Takes no memory.
    pub fn session_of(&self, conn: JsUint) -> Option<u32>
        // It is the session that the history of the end gives the connection.
        ensures { (h : List Input) → StandsFor self.now h → result ≡ session_in (attachment_of (deeds h) conn.value) }
    {
        self.state.session_of(conn)
    }

    /// The top-level context of the live context of this id; `None` if no live context has this id. Costs the
    /// planning of a log entry in the context.
    ///
    /// # Errors
    /// 1. `NoMemory`: an allocation failed.
    /// 2. `WornOut`: 1,000,000,000 steps were accepted.
    pub fn top_at(&self, context: &str) -> Result<Option<Top>, RemoteFault>
        // After an Ok, it is the top-level context that the history of the end gives this id.
        ensures ok { (h : List Input) → StandsFor self.now h → IfOk result (λ top. top ≡ top_named (acts (deeds h)) context.now) }
        // `WornOut` comes only if the end has accepted `most_steps` steps.
        ensures worn_out { (h : List Input) → StandsFor self.now h → IsErrOf result RemoteFault.WornOut → most_steps ≤ length h }
    {
        if self.count >= MOST_STEPS {
            return Err(RemoteFault::WornOut);
        }
        Ok(self.state.top_at(context)?)
    }

    /// The numbers of the live subscriptions of a session, in order; none if the session is not active.
    ///
    /// # Errors
    /// No memory: an allocation failed.
    pub fn subscriptions_of(&self, session: u32) -> Result<Vec<u32>, AllocError>
        // After an Ok, they are the live subscriptions of each history that the end stands for.
        ensures { (h : List Input) → StandsFor self.now h → IfOk result (λ all. all.items ≡ subscriptions_in (deeds h) session) }
    {
        self.state.subscriptions_of(self.alloc, session)
    }

    /// The scope that a subscription to these contexts, or to these user contexts, would have; without both, all contexts.
    ///
    /// # Errors
    /// The first that holds:
    /// - `invalid argument`: contexts and user contexts are both given.
    /// - `no such user context`: a user context is not live.
    /// - `no such frame`: a context is not live.
    /// - No memory: an allocation failed.
    pub fn scope_asked(
        &self,
        contexts: Option<&[String]>,
        users: Option<&[String]>,
    ) -> Result<Scope, Refusal>
        // The scope, or the error code, is that of the machine for each history that the end stands for.
        ensures { (h : List Input) → StandsFor self.now h → IfChecked result scope_of (scope_asked (acts (deeds h))
            (option_map (λ ids. map string_bytes ids.now) contexts.entry) (option_map (λ ids. map string_bytes ids.now) users.entry)) }
    {
        self.state.scope_asked(self.alloc, contexts, users)
    }

    /// Whether an event is enabled for a session in the tree of this top-level context; without one, whether it is enabled for all
    /// contexts. Takes no memory.
    pub fn hears(&self, session: u32, event: EventName, top: Option<Top>) -> bool
        // The answer is that of the machine, for each history that the end stands for.
        ensures { (h : List Input) → StandsFor self.now h → result ≡ hears (deeds h) session event top }
    {
        self.state.hears(session, event, top)
    }

    /// Adds a text for each connection of a session, in order of opening. They share the text. Nothing is sent by this call.
    ///
    /// # Errors
    /// No memory: an allocation failed.
    pub fn push_text(
        &self,
        session: u32,
        text: &Rc<String>,
        sent: &mut Vec<Sent>,
    ) -> Result<(), AllocError>
        // After an Ok, the list has grown by the text once for each connection that speaks for the session, in order.
        ensures { (h : List Input) → StandsFor self.now h → IfOk result (λ _. map sent_of sent.new.items
            ≡ map sent_of sent.old.items ++ map (λ c. Text c (string_bytes text.now.value)) (connections_of (deeds h) session)) }
    {
        self.state.push_text(session, text, sent)
    }
}
