//! The browser: its state, and look-ups in it.
ghost use Rattle.std.specs.Prelude.{◌≡◌, ◌<◌, ◌^◌, List, [], IfOk, IsOk, IsTrue, map, option_map};
ghost use Rattle.std.specs.List.{AllByRecursion};
ghost use Rattle.bidi_contexts.specs.Acts.{Act};
ghost use Rattle.bidi_contexts.specs.Contexts.{context_of, is_alive, top_of};
ghost use Rattle.bidi_contexts.specs.Users.{is_live_user, user_named};
ghost use Rattle.bidi_contexts.specs.Occurrences.{tree_events};
ghost use Rattle.bidi_contexts.specs.Outcome.{has_room};
ghost use Rattle.bidi_contexts.specs.View.{EventIsWell, occurrence_of};

use crate::numbers::Numbers;
use crate::script_table::ScriptTable;
use bidi_contexts::{Contexts, MOST_CONTEXTS, NO_ID, Occurrence, Users};
use bidi_params::ErrorCode;
use std::alloc::{AllocError, Global};

/// A browser held in memory: its live contexts, each with its window, realm and session history, and the
/// script table, which has the outcomes of scripts.
///
/// An action takes three calls: [`Browser::plan`] changes nothing and gives the events, the result and the
/// change; [`Browser::reserve`] makes room for the change; [`Browser::apply`] puts it in place without
/// allocating. Before the last call a caller can still give up, and leave the browser as it was.
pub struct Browser {
    /// The allocator that the browser was made with.
    pub(crate) alloc: Global,
    /// The live contexts.
    pub(crate) contexts: Contexts,
    /// The live user contexts.
    pub(crate) users: Users,
    /// The script table: the outcomes of scripts, by their texts.
    pub(crate) table: ScriptTable,
    /// The number of the next context.
    pub(crate) next_context: u64,
    /// The number of the next realm.
    pub(crate) next_realm: u64,
    /// The number of the next navigation.
    pub(crate) next_navigation: u64,
    /// The number of the next handle.
    pub(crate) next_handle: u64,
    /// The number of the next client window.
    pub(crate) next_window: u64,
}

// Not derived, so that it is proved here alone.
impl Drop for Browser {
    fn drop(self) {
        let Browser {
            alloc: _,
            contexts: _,
            users: _,
            table: _,
            next_context: _,
            next_realm: _,
            next_navigation: _,
            next_handle: _,
            next_window: _,
        } = self;
    }
}

impl Browser {
    ghost use Rattle.bidi_browser.specs.Stands.{StandsFor};
    ghost use Rattle.bidi_browser.specs.Navigations.{AreNext};
    ghost use Rattle.bidi_contexts.specs.Tables.{HasIds};

    /// A new browser: one context at `about:blank`, in a window of its own.
    ///
    /// # Errors
    /// No memory: an allocation failed.
    pub fn new(alloc: Global) -> Result<Browser, AllocError>
        // The new browser stands for the empty past.
        ensures { IfOk result (λ b. StandsFor b []) }
    {
        Ok(Browser {
            alloc,
            contexts: Contexts::new(alloc)?,
            users: Users::new(alloc),
            table: ScriptTable::new(alloc),
            next_context: 2,
            next_realm: 2,
            next_navigation: 1,
            next_handle: 1,
            next_window: 2,
        })
    }

    /// The number of the live user context of this id, 0 for `default`. `None` where there is none. Takes no memory.
    ///
    /// After WebDriver BiDi, "The browser Module".
    pub fn user_named(&self, user: &str) -> Option<u64>
        // For every past that the browser stands for, it is the number of the live user context of the id, if there is one.
        ensures { (past : List Act) → StandsFor self.now past → result ≡ user_named past user.now }
    {
        self.users.named(user)
    }

    /// Whether a live user context has this id; `default` is always live. Takes no memory.
    ///
    /// After WebDriver BiDi, "The browser Module".
    pub fn is_live_user(&self, user: &str) -> bool
        // For every past that the browser stands for, a live user context has the id exactly if the answer is true.
        ensures { (past : List Act) → StandsFor self.now past → result ≡ is_live_user past user.now }
    {
        self.users.named(user).is_some()
    }

    /// The number of the top-level context above the live context of this id, which may be that context
    /// itself. `None` where no live context has exactly this id.
    ///
    /// Passes over the live contexts. Takes no memory.
    ///
    /// After WebDriver BiDi, "The browsingContext Module".
    pub fn top_of(&self, context: &str) -> Option<u64>
        // For every past that the browser stands for, it is the top-level context of the live context of the id, if there is one.
        ensures { (past : List Act) → StandsFor self.now past → result ≡ option_map (top_of past) (context_of past context.now) }
    {
        self.contexts.named(context).map(|context| context.top())
    }

    /// Whether the context of this number is live.
    ///
    /// Passes over the live contexts. Takes no memory.
    pub fn is_live(&self, context: u64) -> bool
        // For every past that the browser stands for, the context is live exactly if the answer is true.
        ensures { (past : List Act) → StandsFor self.now past → result ≡ is_alive past context }
    {
        self.contexts.has(context)
    }

    /// The events that tell a new subscription what exists: contextCreated of every live context, then
    /// realmCreated of every realm, both in tree order.
    ///
    /// Makes two events for each live context.
    ///
    /// # Errors
    /// No memory: an allocation failed.
    ///
    /// After WebDriver BiDi, "The browsingContext.contextCreated Event" and "The script.realmCreated Event".
    pub fn tree_events(&self) -> Result<Vec<Occurrence>, AllocError>
        // For every past that the browser stands for, they are the events that tell of the whole tree after it.
        ensures ok { (past : List Act) → StandsFor self.now past
            → IfOk result (λ all. map (occurrence_of) all.items ≡ tree_events past) }
        // A message can be made of each.
        ensures well { IfOk result (λ all. AllByRecursion (λ o. EventIsWell o.event) all.items) }
    {
        bidi_contexts::tree_events(self.alloc, &self.contexts)
    }

    /// Whether one more context can be live, and ids are left for it, its realm and its window.
    pub(crate) fn has_room(&self) -> bool
        ensures ids { IsTrue result → (self.now.next_context < 2 ^ 48) × (self.now.next_realm < 2 ^ 48) × (self.now.next_window < 2 ^ 48) }
        ensures room { (past : List Act) → StandsFor self.now past → HasIds past → result ≡ has_room past }
    {
        self.contexts.len() < MOST_CONTEXTS
            && self.next_context < NO_ID
            && self.next_realm < NO_ID
            && self.next_window < NO_ID
    }

    /// The numbers of the next navigation and its realm; `unknown error` where no id is left for one of them.
    pub(crate) fn numbers(&self) -> Result<Numbers, ErrorCode>
        ensures next { (past : List Act) → StandsFor self.now past → IfOk result (λ numbers. AreNext numbers past) }
        ensures some { (past : List Act) → StandsFor self.now past → HasIds past → IsOk result }
    {
        if self.next_navigation < NO_ID && self.next_realm < NO_ID {
            Ok(Numbers {
                navigation: self.next_navigation,
                realm: self.next_realm,
            })
        } else {
            Err(ErrorCode::UnknownError)
        }
    }
}
