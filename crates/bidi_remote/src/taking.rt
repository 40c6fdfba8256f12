//! How a step is taken, and how a turn that was decided is put in place.
ghost use Rattle.std.specs.Prelude.{◌≡◌, ◌∷◌, ℕ, List, map, Ok, Some, IsTrue, IfOk, IfSome, OnOk, OnErr, IsOk};
ghost use Rattle.json.specs.Json.{document};
ghost use Rattle.json.specs.Value.{value_view};
ghost use Rattle.bidi_contexts.specs.Acts.{Act};
ghost use Rattle.bidi_browser.specs.View.{result_tree};
ghost use Rattle.bidi_sessions.specs.Step as steps;
ghost use Rattle.bidi_sessions.specs.View.{step_of, sent_of};
ghost use Rattle.bidi_remote.specs.Machine.History.{Input, IsHeardAs, acts};
ghost use Rattle.bidi_remote.specs.Machine.Connections.{is_open};
ghost use Rattle.bidi_remote.specs.Machine.Messages.{AllReadBack};
ghost use Rattle.bidi_remote.specs.Machine.Outcome.{deeds, turn};
ghost use Rattle.bidi_remote.specs.Replies.{IsAnsweredOnce, ReadsAs};

use crate::state::State;
use crate::telling::tell;
use crate::turn::{Change, Turn};
use bidi_sessions::{Sent, Step, distinct};
use bidi_tree::JsUint;
use json::{Scratch, Value};
use std::alloc::{AllocError, Global};

impl State {
    ghost use Rattle.bidi_remote.specs.State.Stands.{AgreeWith, Keeps, IsShort, Takes};
    ghost use Rattle.bidi_remote.specs.State.Turns.{HasRoom, IsMade, IsWellTold, deed_of, asker_in, items_in, sent_for};
    ghost use Rattle.bidi_active.specs.Written.{written_in};
    ghost use Rattle.bidi_remote.specs.State.EventTexts.{AreMessages};

    /// Takes one step, and returns what is sent.
    pub(crate) fn take(
        &mut self,
        alloc: Global,
        step: Step,
        scratch: &mut Scratch,
    ) -> Result<Vec<Sent>, AllocError>
        ensures ok { IfOk result (λ sent. (i : Input) × IsHeardAs (step_of step) i
            × ((h : List Input) → IsShort h → AgreeWith self.old (deeds h) → Takes self.new (map sent_of sent.items) h i)) }
        ensures err { OnErr result (Keeps self.old self.new) }
        ensures answered { (h : List Input) (i : Input)
            → IsShort h → AgreeWith self.old (deeds h) → IsHeardAs (step_of step) i → OnOk result (IsAnsweredOnce (deeds h) i) }
        ensures at { (n : ℕ) → step_of step ≡ steps.At n → IsOk result }
        ensures drop { (h : List Input) (c : ℕ) → AgreeWith self.old (deeds h)
            → step_of step ≡ steps.Drop c → IsTrue (is_open (deeds h) c) → IsOk result }
    {
        match step {
            Step::At(moment) => {
                self.moment = moment;
                Ok(Vec::new(alloc))
            }
            Step::Open(conn, resource) => self.open(alloc, conn, resource.as_str()),
            Step::Drop(conn) => self.drop_connection(alloc, conn),
            Step::Text(conn, text) => self.hear(alloc, conn, text.as_str(), None, scratch),
            Step::NotText(conn) => self.hear_no_text(alloc, conn),
            Step::Page(page) => self.take_page(alloc, page),
        }
    }

    /// Takes a text message, and returns what is sent. The value is that of the text, if it was read before.
    pub(crate) fn take_text(
        &mut self,
        alloc: Global,
        conn: JsUint,
        text: &str,
        value: Option<&Value<'_>>,
        scratch: &mut Scratch,
    ) -> Result<Vec<Sent>, AllocError>
        requires { IfSome value (λ v. document text.now ≡ Some (value_view v.now)) }
        ensures ok { IfOk result (λ sent. (i : Input) × IsHeardAs (steps.Text conn.value text.now) i
            × ((h : List Input) → IsShort h → AgreeWith self.old (deeds h) → Takes self.new (map sent_of sent.items) h i)) }
        ensures err { OnErr result (Keeps self.old self.new) }
        ensures answered { (h : List Input) (i : Input) → IsShort h → AgreeWith self.old (deeds h)
            → IsHeardAs (steps.Text conn.value text.now) i → OnOk result (IsAnsweredOnce (deeds h) i) }
    {
        self.hear(alloc, conn, text, value, scratch)
    }

    /// Takes a turn that was decided: makes the texts, makes room for the change, and puts it in place.
    pub(crate) fn take_turn(
        &mut self,
        alloc: Global,
        decided: Turn,
    ) -> Result<Vec<Sent>, AllocError>
        requires { IsWellTold decided.telling }
        ensures ok { (h : List Input) (i : Input) (act : Act) → IsShort h
            → AgreeWith self.old (deeds h) → turn (deeds h) i ≡ Ok (deed_of decided.change act) → IsMade decided.change (acts (deeds h)) act
            → AreMessages (written_in decided.telling.announced.items)
            → IfOk result (λ sent. (map sent_of sent.items ≡ sent_for (deeds h) (asker_in decided.telling.reply) (deed_of decided.change act)
            (written_in decided.telling.announced.items) (items_in decided.telling))
            × AllReadBack (map sent_of sent.items) × AgreeWith self.new (deed_of decided.change act ∷ deeds h)) }
        ensures err { OnErr result (Keeps self.old self.new) }
        ensures reads { IfSome decided.telling.reply (λ r. OnOk result (ReadsAs r.to.id.value (result_tree r.outcome))) }
    {
        let Turn { change, telling } = decided;
        let sent = tell(alloc, self, &change, telling)?;
        self.make_room(&change)?;
        self.apply(change);
        Ok(sent)
    }

    // Makes room for what a change adds.
    fn make_room(&mut self, change: &Change) -> Result<(), AllocError>
        ensures kept { Keeps self.old self.new }
        ensures room { OnOk result (HasRoom self.new change.now) }
    {
        match change {
            Change::Begin(_, _) => self.sessions.reserve(),
            Change::Subscribe(session, events, scope) => {
                self.sessions.reserve_in(*session, events, scope)
            }
            Change::Browse(change) => self.browser.reserve(change),
            _ => Ok(()),
        }
    }

    // Puts a change in place. Takes no memory.
    fn apply(&mut self, change: Change)
        requires { HasRoom self.now change }
        ensures { (h : List Input) (i : Input) (act : Act)
            → IsShort h → AgreeWith self.old (deeds h) → turn (deeds h) i ≡ Ok (deed_of change act) → IsMade change (acts (deeds h)) act
            → AgreeWith self.new (deed_of change act ∷ deeds h) }
    {
        match change {
            Change::Nothing => {}
            Change::Begin(conn, missed) => {
                let session = self.sessions.begin(missed);
                self.connections.begin(conn, session);
            }
            Change::End(session) => {
                self.connections.close_all(session);
                self.sessions.end(session);
            }
            Change::Subscribe(session, events, scope) => {
                self.sessions
                    .subscribe(session, &self.browser, events, scope);
            }
            Change::Cancel(session, numbers) => self.sessions.cancel(session, &distinct(numbers)),
            Change::Dismiss(session, events) => self.sessions.dismiss(session, &events),
            Change::Browse(change) => self.browser.apply(change),
        }
    }
}
