//! How sessions unsubscribe from names of a test, beside the remote end.
ghost use Rattle.std.specs.Prelude.{◌≡◌, ◌≤◌, ℕ, List, Some, length, IfOk, OnOk, OnErr, IsErrOf};
ghost use Rattle.bidi_remote.specs.Machine.History.{Input};
ghost use Rattle.bidi_remote.specs.Machine.Outcome.{deeds};
ghost use Rattle.bidi_remote.specs.State.Stands.{StandsFor};
ghost use Rattle.bidi_sessions.specs.Limits.{most_steps};
ghost use Rattle.bidi_handles.specs.Ids.{id_text};
ghost use Rattle.bidi_handles.specs.declared.id.IdKind.TheVariants.{Subscription};
ghost use Rattle.bidi_names.specs.Asked.{Unsubscribes, Ends};
ghost use Rattle.bidi_names.specs.Replies.{AreNumbers};
ghost use Rattle.bidi_names.specs.Subscriptions.{other_ids};
ghost use Rattle.bidi_names.specs.View.{texts_of, wanted_of};
ghost use Rattle.bidi_scripted.specs.Kept.{Hears, Succeeds, Takes, alone, ending, part_or, unsubscribing};
ghost use Rattle.bidi_scripted.specs.Script.{OnlySubscriptionsChange};
ghost use Rattle.bidi_scripted.specs.View.{script_of};

use crate::naming::part_or;
use crate::scripted_end::{ScriptedEnd, Taken};
use bidi_messages::ErrorCode;
use bidi_names::{
    IdsWanted, NamesWanted, are_global, ending_text, is_success, other_ids, subscription_numbers,
    unlisted_numbers,
};
use bidi_remote::RemoteFault;
use bidi_tree::JsUint;
use std::alloc::AllocError;

impl ScriptedEnd {
    /// Unsubscribes a session from names.
    pub(crate) fn unsubscribe(
        &mut self,
        conn: JsUint,
        session: u32,
        text: &str,
        wanted: NamesWanted,
    ) -> Result<Taken, RemoteFault>
        ensures takes { (h : List Input) → StandsFor self.old.end h → (let w = wanted_of wanted in
            IfOk result (λ t. Takes conn.value h session (Some (Unsubscribes w)) self.old.end (script_of self.old.script) self.new.end (script_of self.new.script) t
            (unsubscribing (script_of self.old.script) session text.now w))) }
        ensures rest { OnOk result (OnlySubscriptionsChange (script_of self.old.script) (script_of self.new.script)) }
        ensures worn_out { (h : List Input) → StandsFor self.old.end h → IsErrOf result RemoteFault.WornOut → most_steps ≤ length h }
        ensures err { OnErr result ((script_of self.new.script ≡ script_of self.old.script)
            × ((h : List Input) → StandsFor self.old.end h → StandsFor self.new.end h)) }
    {
        if !are_global(&self.script.named, session, &wanted.foreign) {
            return self.refuse_with(conn, wanted.id, ErrorCode::InvalidArgument);
        }
        if wanted.others.is_empty() {
            return self.dismiss(conn, session, wanted);
        }
        self.dismiss_by(conn, session, text, wanted)
    }

    // Unsubscribes a session from names that only the test has.
    fn dismiss(
        &mut self,
        conn: JsUint,
        session: u32,
        wanted: NamesWanted,
    ) -> Result<Taken, RemoteFault>
        ensures takes { (h : List Input) → StandsFor self.old.end h → (let w = wanted_of wanted in
            IfOk result (λ t. Takes conn.value h session (Some (Unsubscribes w)) self.old.end (script_of self.old.script) self.new.end (script_of self.new.script) t (Succeeds w.id))) }
        ensures rest { OnOk result (OnlySubscriptionsChange (script_of self.old.script) (script_of self.new.script)) }
        ensures worn_out { (h : List Input) → StandsFor self.old.end h → IsErrOf result RemoteFault.WornOut → most_steps ≤ length h }
        ensures err { OnErr result ((script_of self.new.script ≡ script_of self.old.script)
            × ((h : List Input) → StandsFor self.old.end h → StandsFor self.new.end h)) }
    {
        let taken = self.succeed(conn, wanted.id)?;
        self.script
            .dismiss_named(session, &wanted.foreign, &wanted.modules);
        Ok(taken)
    }

    // Unsubscribes a session from names, some of which the remote end has, if the remote end does.
    fn dismiss_by(
        &mut self,
        conn: JsUint,
        session: u32,
        text: &str,
        wanted: NamesWanted,
    ) -> Result<Taken, RemoteFault>
        ensures takes { (h : List Input) → StandsFor self.old.end h → (let w = wanted_of wanted in
            IfOk result (λ t. Takes conn.value h session (Some (Unsubscribes w)) self.old.end (script_of self.old.script) self.new.end (script_of self.new.script) t (Hears (part_or w.part text.now)))) }
        ensures rest { OnOk result (OnlySubscriptionsChange (script_of self.old.script) (script_of self.new.script)) }
        ensures worn_out { (h : List Input) → StandsFor self.old.end h → IsErrOf result RemoteFault.WornOut → most_steps ≤ length h }
        ensures err { OnErr result ((script_of self.new.script ≡ script_of self.old.script)
            × ((h : List Input) → StandsFor self.old.end h → StandsFor self.new.end h)) }
    {
        match self.pass_on(conn, part_or(&wanted.part, text)) {
            Ok(sent) => {
                if is_success(&sent) {
                    self.script
                        .dismiss_named(session, &wanted.foreign, &wanted.modules);
                }
                Ok(Taken::HandedOn(sent))
            }
            Err(fault) => Err(fault),
        }
    }

    /// Ends the subscriptions of a session that have these ids. The remote end is asked for those that it has.
    pub(crate) fn end_ids(
        &mut self,
        conn: JsUint,
        session: u32,
        text: &str,
        wanted: IdsWanted,
    ) -> Result<Taken, RemoteFault>
        ensures takes { (h : List Input) → StandsFor self.old.end h → (let ids = texts_of wanted.ids.items in
            IfOk result (λ t. Takes conn.value h session (Some (Ends wanted.id.value ids)) self.old.end (script_of self.old.script) self.new.end (script_of self.new.script) t
            (ending text.now wanted.id.value ids (other_ids (alone (deeds h) session (script_of self.old.script).named) session ids)))) }
        ensures rest { OnOk result (OnlySubscriptionsChange (script_of self.old.script) (script_of self.new.script)) }
        ensures worn_out { (h : List Input) → StandsFor self.old.end h → IsErrOf result RemoteFault.WornOut → most_steps ≤ length h }
        ensures err { OnErr result ((script_of self.new.script ≡ script_of self.old.script)
            × ((h : List Input) → StandsFor self.old.end h → StandsFor self.new.end h)) }
    {
        let others = self.ids_of_others(session, &wanted.ids)?;
        let numbers = subscription_numbers(self.alloc, &wanted.ids, session)?;
        if others.len() == wanted.ids.len() {
            return self.cancel_by(conn, session, text, &numbers);
        }
        if others.is_empty() {
            return self.cancel(conn, session, wanted.id, &numbers);
        }
        let text = ending_text(self.alloc, wanted.id, &others)?;
        self.cancel_by(conn, session, text.as_str(), &numbers)
    }

    // Those of some ids that are ids of no subscription that only the test keeps.
    fn ids_of_others(&self, session: u32, ids: &[String]) -> Result<Vec<String>, AllocError>
        ensures { (h : List Input) → StandsFor self.now.end h → IfOk result (λ others. texts_of others.items
            ≡ other_ids (alone (deeds h) session (script_of self.now.script).named) session (texts_of ids.now)) }
    {
        let machine = self.end.subscriptions_of(session)?;
        let alone = unlisted_numbers(self.alloc, &self.script.named, session, &machine)?;
        other_ids(self.alloc, ids, session, &alone)
    }

    // Ends the subscriptions of these numbers, which only the test keeps.
    fn cancel(
        &mut self,
        conn: JsUint,
        session: u32,
        id: JsUint,
        numbers: &[u64],
    ) -> Result<Taken, RemoteFault>
        ensures takes { (h : List Input) (ids : List (List ℕ)) → StandsFor self.old.end h → AreNumbers (id_text Subscription session) ids numbers.now
            → IfOk result (λ t. Takes conn.value h session (Some (Ends id.value ids)) self.old.end (script_of self.old.script) self.new.end (script_of self.new.script) t (Succeeds id.value)) }
        ensures rest { OnOk result (OnlySubscriptionsChange (script_of self.old.script) (script_of self.new.script)) }
        ensures worn_out { (h : List Input) → StandsFor self.old.end h → IsErrOf result RemoteFault.WornOut → most_steps ≤ length h }
        ensures err { OnErr result ((script_of self.new.script ≡ script_of self.old.script)
            × ((h : List Input) → StandsFor self.old.end h → StandsFor self.new.end h)) }
    {
        let taken = self.succeed(conn, id)?;
        self.script.cancel_named(session, numbers);
        Ok(taken)
    }

    // Ends the subscriptions of these numbers, if the remote end does what this text asks.
    fn cancel_by(
        &mut self,
        conn: JsUint,
        session: u32,
        text: &str,
        numbers: &[u64],
    ) -> Result<Taken, RemoteFault>
        ensures takes { (h : List Input) (id : ℕ) (ids : List (List ℕ)) → StandsFor self.old.end h → AreNumbers (id_text Subscription session) ids numbers.now
            → IfOk result (λ t. Takes conn.value h session (Some (Ends id ids)) self.old.end (script_of self.old.script) self.new.end (script_of self.new.script) t (Hears text.now)) }
        ensures rest { OnOk result (OnlySubscriptionsChange (script_of self.old.script) (script_of self.new.script)) }
        ensures worn_out { (h : List Input) → StandsFor self.old.end h → IsErrOf result RemoteFault.WornOut → most_steps ≤ length h }
        ensures err { OnErr result ((script_of self.new.script ≡ script_of self.old.script)
            × ((h : List Input) → StandsFor self.old.end h → StandsFor self.new.end h)) }
    {
        match self.pass_on(conn, text) {
            Ok(sent) => {
                if is_success(&sent) {
                    self.script.cancel_named(session, numbers);
                }
                Ok(Taken::HandedOn(sent))
            }
            Err(fault) => Err(fault),
        }
    }
}
