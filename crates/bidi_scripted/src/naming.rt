//! How a message that may ask for names of a test is taken.
ghost use Rattle.std.specs.Prelude.{◌≡◌, ◌≢◌, ◌≤◌, [], List, Some, None, length, IfOk, OnOk, OnErr, IsErrOf, option_map, string_bytes};
ghost use Rattle.bidi_messages.specs.Verdict as judged;
ghost use Rattle.bidi_remote.specs.Machine.History.{Input};
ghost use Rattle.bidi_remote.specs.Machine.Outcome.{deeds};
ghost use Rattle.bidi_remote.specs.State.Stands.{StandsFor};
ghost use Rattle.bidi_sessions.specs.Limits.{most_steps};
ghost use Rattle.bidi_sessions.specs.Step as steps;
ghost use Rattle.bidi_names.specs.View.{texts_of, asked_seen};
ghost use Rattle.bidi_scripted.specs.Becomes.{IsHandedOn};
ghost use Rattle.bidi_scripted.specs.Kept.{IsNamed, NamesAsked as IsNamesAsked, Takes, asked_in, part_or, taking};
ghost use Rattle.bidi_scripted.specs.Script.{OnlySubscriptionsChange};
ghost use Rattle.bidi_scripted.specs.View.{script_of};

use crate::judging::is_command;
use crate::scripted_end::{ScriptedEnd, Taken};
use bidi_names::{NamesAsked, names_asked};
use bidi_remote::RemoteFault;
use bidi_tree::JsUint;
use json::Scratch;
use std::alloc::{AllocError, Global};

impl ScriptedEnd {
    /// Takes a message that may ask for names of a test.
    pub(crate) fn hear_names(&mut self, conn: JsUint, text: &str) -> Result<Taken, RemoteFault>
        ensures plain { (script_of self.old.script).known ≡ [] → IsHandedOn (steps.Text conn.value text.now) self.old.end self.new.end result
            × (self.new.script ≡ self.old.script) }
        ensures named { (h : List Input) → StandsFor self.old.end h → (script_of self.old.script).known ≢ []
            → IfOk result (λ t. IsNamesAsked conn.value text.now h self.old.end (script_of self.old.script) self.new.end (script_of self.new.script) t) }
        ensures rest { OnOk result (OnlySubscriptionsChange (script_of self.old.script) (script_of self.new.script)) }
        ensures worn_out { (h : List Input) → StandsFor self.old.end h → IsErrOf result RemoteFault.WornOut → most_steps ≤ length h }
        ensures err { OnErr result ((script_of self.new.script ≡ script_of self.old.script)
            × ((h : List Input) → StandsFor self.old.end h → StandsFor self.new.end h)) }
    {
        if self.script.known.is_empty() {
            return self.hand_on_text(conn, text);
        }
        self.hear_known(conn, text)
    }

    // Takes a message while names are known.
    fn hear_known(&mut self, conn: JsUint, text: &str) -> Result<Taken, RemoteFault>
        ensures named { (h : List Input) → StandsFor self.old.end h
            → IfOk result (λ t. IsNamesAsked conn.value text.now h self.old.end (script_of self.old.script) self.new.end (script_of self.new.script) t) }
        ensures rest { OnOk result (OnlySubscriptionsChange (script_of self.old.script) (script_of self.new.script)) }
        ensures worn_out { (h : List Input) → StandsFor self.old.end h → IsErrOf result RemoteFault.WornOut → most_steps ≤ length h }
        ensures err { OnErr result ((script_of self.new.script ≡ script_of self.old.script)
            × ((h : List Input) → StandsFor self.old.end h → StandsFor self.new.end h)) }
    {
        match self.end.session_of(conn) {
            Some(session) => self.hear_session(conn, session, text),
            None => self.hand_on_text(conn, text),
        }
    }

    // Takes a message of a session while names are known.
    fn hear_session(&mut self, conn: JsUint, session: u32, text: &str) -> Result<Taken, RemoteFault>
        ensures named { (h : List Input) → StandsFor self.old.end h
            → IfOk result (λ t. IsNamed conn.value text.now h (Some session) self.old.end (script_of self.old.script) self.new.end (script_of self.new.script) t) }
        ensures rest { OnOk result (OnlySubscriptionsChange (script_of self.old.script) (script_of self.new.script)) }
        ensures worn_out { (h : List Input) → StandsFor self.old.end h → IsErrOf result RemoteFault.WornOut → most_steps ≤ length h }
        ensures err { OnErr result ((script_of self.new.script ≡ script_of self.old.script)
            × ((h : List Input) → StandsFor self.old.end h → StandsFor self.new.end h)) }
    {
        match asked_by(self.alloc, &self.script.known, text, self.scratch.as_mut()) {
            Ok(asked) => self.take_names(conn, session, text, asked),
            Err(_) => Err(RemoteFault::NoMemory),
        }
    }

    // Takes a message of a session that asks this of them.
    fn take_names(
        &mut self,
        conn: JsUint,
        session: u32,
        text: &str,
        asked: Option<NamesAsked>,
    ) -> Result<Taken, RemoteFault>
        ensures takes { (h : List Input) → StandsFor self.old.end h → (let asks = option_map asked_seen asked in
            IfOk result (λ t. Takes conn.value h session asks self.old.end (script_of self.old.script) self.new.end (script_of self.new.script) t
            (taking (deeds h) (script_of self.old.script) session text.now asks))) }
        ensures rest { OnOk result (OnlySubscriptionsChange (script_of self.old.script) (script_of self.new.script)) }
        ensures worn_out { (h : List Input) → StandsFor self.old.end h → IsErrOf result RemoteFault.WornOut → most_steps ≤ length h }
        ensures err { OnErr result ((script_of self.new.script ≡ script_of self.old.script)
            × ((h : List Input) → StandsFor self.old.end h → StandsFor self.new.end h)) }
    {
        match asked {
            None => self.hand_on_text(conn, text),
            Some(NamesAsked::Subscribe(wanted)) => self.subscribe(conn, session, text, wanted),
            Some(NamesAsked::Unsubscribe(wanted)) => {
                self.unsubscribe(conn, session, text, wanted)
            }
            Some(NamesAsked::End(wanted)) => self.end_ids(conn, session, text, wanted),
        }
    }
}

// What a message asks of names.
fn asked_by(
    alloc: Global,
    known: &[String],
    text: &str,
    scratch: &mut Scratch,
) -> Result<Option<NamesAsked>, AllocError>
    ensures { IfOk result (λ asked. (v : judged.Verdict) × judged.IsVerdict text.now v × (option_map asked_seen asked ≡ asked_in (texts_of known.now) text.now v)) }
{
    if !is_command(alloc, text, scratch)? {
        return Ok(None);
    }
    names_asked(alloc, text, known, scratch)
}

/// The text without the names that only the test has, if there is one.
pub(crate) fn part_or<'a>(part: &'a Option<String>, text: &'a str) -> &'a str
    ensures { result.now ≡ part_or (option_map string_bytes part.now) text.now }
{
    match part {
        Some(part) => part.as_str(),
        None => text,
    }
}
