//! How sessions subscribe to names of a test, beside the remote end.
ghost use Rattle.std.specs.Prelude.{◌≡◌, ◌≤◌, List, Some, None, Ok, true, false, length, IfOk, IsTrue, OnOk, OnErr, IsErrOf, option_map};
ghost use Rattle.bidi_remote.specs.Machine.History.{Input};
ghost use Rattle.bidi_remote.specs.Machine.Outcome.{deeds};
ghost use Rattle.bidi_remote.specs.State.Stands.{StandsFor};
ghost use Rattle.bidi_sessions.specs.Checked.{IfChecked};
ghost use Rattle.bidi_sessions.specs.Limits.{most_steps};
ghost use Rattle.bidi_sessions.specs.SubscriptionView.{scope_of};
ghost use Rattle.bidi_names.specs.Asked.{Subscribes};
ghost use Rattle.bidi_names.specs.View.{texts_of, ids_seen, wanted_of};
ghost use Rattle.bidi_scripted.specs.Kept.{Hears, Makes, Takes, alone, has_room, part_or, scope_wanted, subscribing};
ghost use Rattle.bidi_scripted.specs.Script.{OnlySubscriptionsChange, most_numbers};
ghost use Rattle.bidi_scripted.specs.View.{script_of};

use crate::naming::part_or;
use crate::scripted_end::{ScriptedEnd, Taken};
use bidi_handles::Refusal;
use bidi_messages::ErrorCode;
use bidi_names::{
    NamedSubscription, NamesWanted, has_room_for, id_result, number_made, unlisted_numbers,
};
use bidi_remote::RemoteFault;
use bidi_sessions::{Scope, all_named};
use bidi_tree::JsUint;
use std::alloc::AllocError;

/// How many live subscriptions a session can have.
const MOST_SUBSCRIPTIONS: usize = 256;

impl ScriptedEnd {
    /// Subscribes a session to names.
    pub(crate) fn subscribe(
        &mut self,
        conn: JsUint,
        session: u32,
        text: &str,
        wanted: NamesWanted,
    ) -> Result<Taken, RemoteFault>
        ensures takes { (h : List Input) → StandsFor self.old.end h → (let w = wanted_of wanted in
            IfOk result (λ t. Takes conn.value h session (Some (Subscribes w)) self.old.end (script_of self.old.script) self.new.end (script_of self.new.script) t
            (subscribing (deeds h) (script_of self.old.script) session text.now w (scope_wanted (deeds h) w)))) }
        ensures rest { OnOk result (OnlySubscriptionsChange (script_of self.old.script) (script_of self.new.script)) }
        ensures worn_out { (h : List Input) → StandsFor self.old.end h → IsErrOf result RemoteFault.WornOut → most_steps ≤ length h }
        ensures err { OnErr result ((script_of self.new.script ≡ script_of self.old.script)
            × ((h : List Input) → StandsFor self.old.end h → StandsFor self.new.end h)) }
    {
        match self.scope_wanted(&wanted) {
            Ok(scope) => self.subscribe_in(conn, session, text, wanted, scope),
            Err(Refusal::Code(code)) => self.refuse_with(conn, wanted.id, code),
            Err(Refusal::NoMemory) => Err(RemoteFault::NoMemory),
        }
    }

    // The scope of a subscription to names, or why the remote end makes none.
    fn scope_wanted(&self, wanted: &NamesWanted) -> Result<Scope, Refusal>
        ensures { (h : List Input) → StandsFor self.now.end h → IfChecked result scope_of (scope_wanted (deeds h) (wanted_of wanted.now)) }
    {
        all_named(self.alloc, &wanted.others)?;
        let contexts = ids_in(&wanted.contexts);
        let users = ids_in(&wanted.users);
        self.end.scope_asked(contexts, users)
    }

    // Subscribes a session to names in this scope, if there is room.
    fn subscribe_in(
        &mut self,
        conn: JsUint,
        session: u32,
        text: &str,
        wanted: NamesWanted,
        scope: Scope,
    ) -> Result<Taken, RemoteFault>
        ensures takes { (h : List Input) → StandsFor self.old.end h → (let w = wanted_of wanted in scope_wanted (deeds h) w ≡ Ok (scope_of scope)
            → IfOk result (λ t. Takes conn.value h session (Some (Subscribes w)) self.old.end (script_of self.old.script) self.new.end (script_of self.new.script) t
            (subscribing (deeds h) (script_of self.old.script) session text.now w (Ok (scope_of scope))))) }
        ensures rest { OnOk result (OnlySubscriptionsChange (script_of self.old.script) (script_of self.new.script)) }
        ensures worn_out { (h : List Input) → StandsFor self.old.end h → IsErrOf result RemoteFault.WornOut → most_steps ≤ length h }
        ensures err { OnErr result ((script_of self.new.script ≡ script_of self.old.script)
            × ((h : List Input) → StandsFor self.old.end h → StandsFor self.new.end h)) }
    {
        match self.has_room(session, wanted.foreign.len()) {
            Ok(true) => self.subscribe_room(conn, session, text, wanted, scope),
            Ok(false) => self.refuse_with(conn, wanted.id, ErrorCode::UnknownError),
            Err(_) => Err(RemoteFault::NoMemory),
        }
    }

    // Whether a session can have one more subscription, with so many names of the test.
    fn has_room(&self, session: u32, more: usize) -> Result<bool, AllocError>
        ensures room { (h : List Input) → StandsFor self.now.end h
            → IfOk result (λ room. room ≡ has_room (deeds h) (script_of self.now.script) session more) }
        ensures few { IfOk result (λ room. IsTrue room → self.now.script.made ≤ most_numbers) }
    {
        let machine = self.end.subscriptions_of(session)?;
        let alone = unlisted_numbers(self.alloc, &self.script.named, session, &machine)?;
        let live = machine.len().saturating_add(alone.len());
        Ok(
            live < MOST_SUBSCRIPTIONS
                && (has_room_for(&self.script.named, session, more) && self.script.can_make()),
        )
    }

    // Subscribes a session to names in this scope. There is room.
    fn subscribe_room(
        &mut self,
        conn: JsUint,
        session: u32,
        text: &str,
        wanted: NamesWanted,
        scope: Scope,
    ) -> Result<Taken, RemoteFault>
        requires { self.now.script.made ≤ most_numbers }
        ensures takes { (h : List Input) → StandsFor self.old.end h → (let w = wanted_of wanted in scope_wanted (deeds h) w ≡ Ok (scope_of scope)
            → has_room (deeds h) (script_of self.old.script) session (length w.foreign) ≡ true
            → IfOk result (λ t. Takes conn.value h session (Some (Subscribes w)) self.old.end (script_of self.old.script) self.new.end (script_of self.new.script) t
            (subscribing (deeds h) (script_of self.old.script) session text.now w (Ok (scope_of scope))))) }
        ensures rest { OnOk result (OnlySubscriptionsChange (script_of self.old.script) (script_of self.new.script)) }
        ensures worn_out { (h : List Input) → StandsFor self.old.end h → IsErrOf result RemoteFault.WornOut → most_steps ≤ length h }
        ensures err { OnErr result ((script_of self.new.script ≡ script_of self.old.script)
            × ((h : List Input) → StandsFor self.old.end h → StandsFor self.new.end h)) }
    {
        if wanted.others.is_empty() {
            return self.make_alone(conn, session, wanted, scope);
        }
        self.subscribe_to(conn, session, text, wanted, scope)
    }

    // Makes a subscription that only the test keeps.
    fn make_alone(
        &mut self,
        conn: JsUint,
        session: u32,
        wanted: NamesWanted,
        scope: Scope,
    ) -> Result<Taken, RemoteFault>
        requires { self.now.script.made ≤ most_numbers }
        ensures takes { (h : List Input) → StandsFor self.old.end h → (let w = wanted_of wanted in
            IfOk result (λ t. Takes conn.value h session (Some (Subscribes w)) self.old.end (script_of self.old.script) self.new.end (script_of self.new.script) t (Makes w (scope_of scope)))) }
        ensures rest { OnOk result (OnlySubscriptionsChange (script_of self.old.script) (script_of self.new.script)) }
        ensures worn_out { (h : List Input) → StandsFor self.old.end h → IsErrOf result RemoteFault.WornOut → most_steps ≤ length h }
        ensures err { OnErr result ((script_of self.new.script ≡ script_of self.old.script)
            × ((h : List Input) → StandsFor self.old.end h → StandsFor self.new.end h)) }
    {
        let active = self.end.sessions()?;
        let number = self.script.next_alone();
        let made = id_result(self.alloc, session, number)?;
        let taken = self.answer_by(conn, wanted.id, made)?;
        self.script.named.reserve(1)?;
        let NamesWanted {
            id: _,
            foreign,
            others: _,
            modules,
            part: _,
            contexts: _,
            users: _,
        } = wanted;
        let named = NamedSubscription {
            session,
            number,
            names: foreign,
            modules,
            scope,
        };
        self.script.add_alone(named, &active);
        Ok(taken)
    }

    // Has the remote end make a subscription, and keeps what it does not know of it.
    fn subscribe_to(
        &mut self,
        conn: JsUint,
        session: u32,
        text: &str,
        wanted: NamesWanted,
        scope: Scope,
    ) -> Result<Taken, RemoteFault>
        ensures takes { (h : List Input) → StandsFor self.old.end h → (let w = wanted_of wanted in scope_wanted (deeds h) w ≡ Ok (scope_of scope)
            → IfOk result (λ t. Takes conn.value h session (Some (Subscribes w)) self.old.end (script_of self.old.script) self.new.end (script_of self.new.script) t (Hears (part_or w.part text.now)))) }
        ensures rest { OnOk result (OnlySubscriptionsChange (script_of self.old.script) (script_of self.new.script)) }
        ensures worn_out { (h : List Input) → StandsFor self.old.end h → IsErrOf result RemoteFault.WornOut → most_steps ≤ length h }
        ensures err { OnErr result ((script_of self.new.script ≡ script_of self.old.script)
            × ((h : List Input) → StandsFor self.old.end h → StandsFor self.new.end h)) }
    {
        let active = self.end.sessions()?;
        self.script.named.reserve(1)?;
        let NamesWanted {
            id: _,
            foreign,
            others: _,
            modules,
            part,
            contexts: _,
            users: _,
        } = wanted;
        match self.pass_on(conn, part_or(&part, text)) {
            Ok(sent) => {
                if let Some(number) = number_made(&sent, session) {
                    let named = NamedSubscription {
                        session,
                        number,
                        names: foreign,
                        modules,
                        scope,
                    };
                    self.script.add_named(named, &active);
                }
                Ok(Taken::HandedOn(sent))
            }
            Err(fault) => Err(fault),
        }
    }
}

// These ids, if there are any.
fn ids_in(ids: &Option<Vec<String>>) -> Option<&[String]>
    ensures { option_map (λ l. texts_of l.now) result ≡ ids_seen ids.now }
{
    match ids {
        Some(ids) => Some(ids),
        None => None,
    }
}
