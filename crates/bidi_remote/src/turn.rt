//! What a command or a step of a page changes, and what is sent for it.
ghost use Rattle.std.specs.Option.{option_zip};
ghost use Rattle.std.specs.Prelude.{◌≡◌, Some, [], option_map};

use bidi_active::{EventText, LogBuffer};
use bidi_browser::{Change as BrowserChange, CommandResult, Occurrence, Plan};
use bidi_messages::EventName;
use bidi_sessions::Scope;
use bidi_tree::JsUint;
use std::alloc::Global;
use std::rc::Rc;

/// A change of the remote end, with all that it adds already made. A session is named by its number.
#[derive(Drop)]
pub(crate) enum Change {
    /// Nothing changes.
    Nothing,
    /// A session begins, for which the connection of this number then speaks. The buffer keeps the log
    /// entries that it will miss.
    Begin(JsUint, LogBuffer),
    /// A session ends, and its connections are closed.
    End(u32),
    /// A session gets a subscription to these events, in this scope.
    Subscribe(u32, Vec<EventName>, Scope),
    /// A session loses the subscriptions of these numbers.
    Cancel(u32, Vec<u32>),
    /// A session loses these events from its global subscriptions.
    Dismiss(u32, Vec<EventName>),
    /// The browser changes in this way.
    Browse(BrowserChange),
}

/// A command that waits for its reply.
#[derive(Clone, Copy)]
pub(crate) struct Asker {
    /// The number of its connection.
    pub conn: JsUint,
    /// Its id.
    pub id: JsUint,
}

/// The reply to a command that succeeded.
#[derive(Drop)]
pub(crate) struct Reply {
    /// The command that it answers.
    pub to: Asker,
    /// The result.
    pub outcome: CommandResult,
}

/// What is sent for a change, in this order.
#[derive(Drop)]
pub(crate) struct Telling {
    /// Events for the session that subscribed, and for no other.
    pub announced: Vec<Rc<EventText>>,
    /// Events for the sessions that are subscribed to them, before the reply.
    pub before: Vec<Occurrence>,
    /// The reply; `None` for a step of a page.
    pub reply: Option<Reply>,
    /// Events for the sessions that are subscribed to them, after the reply.
    pub after: Vec<Occurrence>,
}

/// A change, and what is sent for it. Nothing has changed yet.
#[derive(Drop)]
pub(crate) struct Turn {
    /// The change.
    pub change: Change,
    /// What is sent.
    pub telling: Telling,
}

impl Turn {
    /// A change for which a reply alone is sent.
    pub(crate) fn replied(alloc: Global, change: Change, to: Asker, outcome: CommandResult) -> Turn
        ensures change { result.change ≡ change }
        ensures announced { result.telling.announced.items ≡ [] }
        ensures before { result.telling.before.items ≡ [] }
        ensures reply { result.telling.reply ≡ Some (record { to = to; outcome = outcome }) }
        ensures after { result.telling.after.items ≡ [] }
    {
        Turn::announced(alloc, change, Vec::new(alloc), to, outcome)
    }

    /// A change for which events are sent to the session that subscribed, and then a reply.
    pub(crate) fn announced(
        alloc: Global,
        change: Change,
        announced: Vec<Rc<EventText>>,
        to: Asker,
        outcome: CommandResult,
    ) -> Turn
        ensures change { result.change ≡ change }
        ensures announced { result.telling.announced ≡ announced }
        ensures before { result.telling.before.items ≡ [] }
        ensures reply { result.telling.reply ≡ Some (record { to = to; outcome = outcome }) }
        ensures after { result.telling.after.items ≡ [] }
    {
        Turn {
            change,
            telling: Telling {
                announced,
                before: Vec::new(alloc),
                reply: Some(Reply { to, outcome }),
                after: Vec::new(alloc),
            },
        }
    }

    /// The turn of what the browser planned. Its result goes to the command, if there is one.
    pub(crate) fn planned(alloc: Global, plan: Plan, to: Option<Asker>) -> Turn
        ensures change { result.change ≡ Change.Browse plan.change }
        ensures announced { result.telling.announced.items ≡ [] }
        ensures before { result.telling.before ≡ plan.before }
        ensures reply { result.telling.reply ≡ option_map (λ r. record { to = r.0; outcome = r.1 }) (option_zip to plan.result) }
        ensures after { result.telling.after ≡ plan.after }
    {
        let Plan {
            before,
            result: outcome,
            after,
            change,
        } = plan;
        Turn {
            change: Change::Browse(change),
            telling: Telling {
                announced: Vec::new(alloc),
                before,
                reply: to.zip(outcome).map(|(to, outcome)| Reply { to, outcome }),
                after,
            },
        }
    }
}
