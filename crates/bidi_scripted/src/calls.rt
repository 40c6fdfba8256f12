//! The calls of a test.
ghost use Rattle.std.specs.List.{list_all};
ghost use Rattle.std.specs.Prelude.{◌≡◌, ◌≢◌, ◌≤◌, ◌==◌, not, [], ◌∷◌, List, map, length, true, false, Option, Some, None, Err, IfOk, IfErr, OnOk, OnErr, IsErrOf, option_map, string_bytes};
ghost use Rattle.bidi_sessions.specs.Limits.{most_steps};
ghost use Rattle.bidi_sessions.specs.View.{sent_of};
ghost use Rattle.bidi_sessions.specs.Step as steps;
ghost use Rattle.bidi_rows.specs.Refusals as texts;
ghost use Rattle.bidi_rows.specs.Rows as spec;
ghost use Rattle.bidi_rows.specs.Filling.{Template};
ghost use Rattle.bidi_rows.specs.Templates.{AreTemplateTexts};
ghost use Rattle.bidi_rows.specs.Reading.{IsAnsweringRow, IsHoldingRow, IsAnswer, IsEventText};
ghost use Rattle.bidi_rows.specs.View.{row_of, answer_of};
ghost use Rattle.bidi_remote.specs.Machine.History.{Input, IsHeardAs};
ghost use Rattle.bidi_remote.specs.Machine.Outcome.{deeds};
ghost use Rattle.bidi_remote.specs.Machine.Sent.{out, Lost};
ghost use Rattle.bidi_remote.specs.State.Stands.{StandsFor, IsShort};
ghost use Rattle.bidi_scripted.specs.Script as script;
ghost use Rattle.bidi_scripted.specs.Script.{OnlySubscriptionsChange, can_keep, has_room_for_row, has_room_for_follower, has_room_for_names, with_row, with_follower, with_names, has_method, without_method, without_held, held_by};
ghost use Rattle.bidi_names.specs.Names.{is_known, words, can_be_known};
ghost use Rattle.bidi_scripted.specs.Faults.{RefusesRow, RefusesRemoval, RefusesFollower, RefusesNames, RefusesEvent, RefusesRelease, RefusesAnswer};
ghost use Rattle.bidi_scripted.specs.Kept.{NamesAsked};
ghost use Rattle.bidi_scripted.specs.Sending.{emitted, release_sent, followed_by};
ghost use Rattle.bidi_scripted.specs.Taken.{IsOfMachine, IsOfTest};
ghost use Rattle.bidi_scripted.specs.View.{script_of, held_of};
ghost use Rattle.bidi_scripted.specs.declared.fault.ScriptFault.TheVariants.{NotHeld};

use crate::emitting::{answer_sent, push_event};
use crate::fault::ScriptFault;
use crate::following::followers_of;
use crate::script::{Follower, HeldCommand, MOST_KNOWN};
use crate::scripted_end::{ScriptedEnd, Taken, only};
use bidi_names::{is_known, names_of_line, new_words};
use bidi_remote::{RemoteFault, Sent};
use bidi_rows::{Answer, Row, read_answer, read_event, read_hold, read_row, read_templates};
use bidi_tree::JsUint;
use json::Scratch;
use std::alloc::{AllocError, Global};

impl ScriptedEnd {
    /// Adds a row that answers commands: from now on it is the newest row.
    ///
    /// `{"method": M, "params": PART?, "result": {..}, "before": [EVENT..]?, "after": [EVENT..]?, "times": N?}`, or with `"error": CODE` and
    /// `"message": TEXT?` in place of `result`.
    ///
    /// # Errors
    /// Nothing has changed then. `NoMemory`, `BadRow`, `TooManyRows`, `TooMuchKept`.
    pub fn answer(&mut self, row: &str) -> Result<(), ScriptFault>
        // After an Ok, the text is JSON for a row that answers, and this row is the newest of the script.
        ensures ok { OnOk result ((r : spec.Row) × IsAnsweringRow row.now r × (script_of self.new.script ≡ with_row r (script_of self.old.script))) }
        // An Ok comes only if there was room for the row.
        ensures room { OnOk result (has_room_for_row (script_of self.old.script) (length row.now) ≡ true) }
        // An error is the first that the definition has: `BadRow` with the fault of the text, `TooManyRows` or `TooMuchKept`.
        ensures why { IfErr result (RefusesRow (texts.RefusesRow row.now) (IsAnsweringRow row.now) (script_of self.old.script) (length row.now)) }
        // After an error the script is as it was.
        ensures err { OnErr result (script_of self.new.script ≡ script_of self.old.script) }
        // The remote end is unchanged.
        ensures end { self.new.end ≡ self.old.end }
        // `WornOut` never comes.
        ensures worn_out { IsErrOf result ScriptFault.WornOut → ⊥ }
    {
        let mut scratch = Scratch::new(self.alloc);
        let row = read_row(self.alloc, row, &mut scratch)?;
        self.add_row(row)
    }

    /// Adds a row that holds commands: from now on it is the newest row.
    ///
    /// `{"method": M, "params": PART?, "times": N?}`.
    ///
    /// # Errors
    /// As [`ScriptedEnd::answer`].
    pub fn hold(&mut self, row: &str) -> Result<(), ScriptFault>
        // After an Ok, the text is JSON for a row that holds, and this row is the newest of the script.
        ensures ok { OnOk result ((r : spec.Row) × IsHoldingRow row.now r × (script_of self.new.script ≡ with_row r (script_of self.old.script))) }
        // An Ok comes only if there was room for the row.
        ensures room { OnOk result (has_room_for_row (script_of self.old.script) (length row.now) ≡ true) }
        // An error is the first that the definition has: `BadRow` with the fault of the text, `TooManyRows` or `TooMuchKept`.
        ensures why { IfErr result (RefusesRow (texts.RefusesHolding row.now) (IsHoldingRow row.now) (script_of self.old.script) (length row.now)) }
        // After an error the script is as it was.
        ensures err { OnErr result (script_of self.new.script ≡ script_of self.old.script) }
        // The remote end is unchanged.
        ensures end { self.new.end ≡ self.old.end }
        // `WornOut` never comes.
        ensures worn_out { IsErrOf result ScriptFault.WornOut → ⊥ }
    {
        let mut scratch = Scratch::new(self.alloc);
        let row = read_hold(self.alloc, row, &mut scratch)?;
        self.add_row(row)
    }

    // Adds a row, if there is room.
    fn add_row(&mut self, row: Row) -> Result<(), ScriptFault>
        ensures room { OnOk result (has_room_for_row (script_of self.old.script) row.bytes ≡ true) }
        ensures why { IfErr result (RefusesRow (λ fault. ⊥) (λ r. r ≡ row_of row) (script_of self.old.script) row.bytes) }
        ensures ok { OnOk result (script_of self.new.script ≡ with_row (row_of row) (script_of self.old.script)) }
        ensures err { OnErr result (script_of self.new.script ≡ script_of self.old.script) }
        ensures end { self.new.end ≡ self.old.end }
        ensures worn_out { IsErrOf result ScriptFault.WornOut → ⊥ }
    {
        if !self.script.has_few_rows() {
            return Err(ScriptFault::TooManyRows);
        }
        if !self.script.can_keep(row.bytes) {
            return Err(ScriptFault::TooMuchKept);
        }
        Ok(self.script.add_row(row)?)
    }

    /// Removes all rows of a method, those that answer and those that hold. Commands that are held stay held.
    ///
    /// # Errors
    /// Nothing has changed then. `NoRow`.
    pub fn unanswer(&mut self, method: &str) -> Result<(), ScriptFault>
        // After an Ok, the rows of this method are gone, and the others stay in order.
        ensures ok { OnOk result (script_of self.new.script ≡ without_method method.now (script_of self.old.script)) }
        // An Ok comes only if there was a row of this method.
        ensures some { OnOk result (has_method method.now (script_of self.old.script) ≡ true) }
        // An error has the reason of the definition: there is no row of this method.
        ensures why { IfErr result (RefusesRemoval method.now (script_of self.old.script)) }
        // After an error the script is as it was.
        ensures err { OnErr result (script_of self.new.script ≡ script_of self.old.script) }
        // The remote end is unchanged.
        ensures end { self.new.end ≡ self.old.end }
    {
        if !self.script.has_method(method) {
            return Err(ScriptFault::NoRow);
        }
        self.script.remove_rows(method);
        Ok(())
    }

    /// The held command of this number.
    pub fn held_command(&self, number: u64) -> Option<&HeldCommand>
        // It is the command of this number that the script holds, if there is one.
        ensures { option_map (λ h. held_of h.now) result ≡ held_by number (script_of self.now.script) }
    {
        self.script.held(number)
    }

    /// Releases a held command: it goes to the remote end now, as if it had come now. Rows are not asked. Copies its text.
    ///
    /// # Errors
    /// The scripted end is then as it was: `NotHeld`, `NoMemory`, `WornOut`.
    pub fn release(&mut self, number: u64) -> Result<Taken, ScriptFault>
        // If no command of this number is held, the call fails with `NotHeld`.
        ensures not_held { held_by number (script_of self.old.script) ≡ None → result ≡ Err NotHeld }
        // An error is the first that the definition has: `NotHeld` if no command of this number is held, or `WornOut`.
        ensures why { IfErr result (RefusesRelease (held_by number (script_of self.old.script))) }
        // A command whose connection was opened anew is lost, and the remote end is unchanged.
        ensures lost { (held : script.Held) → held_by number (script_of self.old.script) ≡ Some held → held.is_lost ≡ true
            → IfOk result (λ t. IsOfTest (Lost held.conn ∷ []) t × (self.new.end ≡ self.old.end)
            × (script_of self.new.script ≡ without_held number (script_of self.old.script))) }
        // Any other is handed on to the remote end as it came if no names are known, and what the machine sends for it is sent; of the script,
        // only this command is gone.
        ensures handed_on { (held : script.Held) → held_by number (script_of self.old.script) ≡ Some held → held.is_lost ≡ false
            → (script_of self.old.script).known ≡ []
            → IfOk result (λ t. (i : Input) × IsHeardAs (steps.Text held.conn held.text) i
            × ((h : List Input) → StandsFor self.old.end h → IsOfMachine (out h i) t × StandsFor self.new.end (i ∷ h) × IsShort h)
            × (script_of self.new.script ≡ without_held number (script_of self.old.script))) }
        // While names are known, it is taken as a message that may ask for them; then this command is gone.
        ensures named { (h : List Input) (held : script.Held) → StandsFor self.old.end h → held_by number (script_of self.old.script) ≡ Some held
            → held.is_lost ≡ false → (script_of self.old.script).known ≢ []
            → IfOk result (λ t. (mid : script.Script) × NamesAsked held.conn held.text h self.old.end (script_of self.old.script) self.new.end mid t
            × (script_of self.new.script ≡ without_held number mid)) }
        // After an Ok, the command is held no longer, so it cannot be released again, and nothing else of the script has changed but the
        // subscriptions to names.
        ensures released { OnOk result (OnlySubscriptionsChange (without_held number (script_of self.old.script)) (script_of self.new.script)) }
        // After an error the script is as it was, and the remote end stands for the histories that it stood for before.
        ensures err { OnErr result ((script_of self.new.script ≡ script_of self.old.script)
            × ((h : List Input) → StandsFor self.old.end h → StandsFor self.new.end h)) }
        // `WornOut` comes only if the remote end has accepted `most_steps` steps.
        ensures worn_out { (h : List Input) → StandsFor self.old.end h → IsErrOf result ScriptFault.WornOut → most_steps ≤ length h }
    {
        let Some(held) = self.script.held(number) else {
            return Err(ScriptFault::NotHeld);
        };
        let conn = held.conn;
        if held.is_lost {
            return self.release_lost(number, conn);
        }
        match String::from_str(self.alloc, held.text.as_str()) {
            Ok(text) => self.release_text(number, conn, text),
            Err(_) => Err(ScriptFault::NoMemory),
        }
    }

    // Releases a command whose connection is gone.
    fn release_lost(&mut self, number: u64, conn: JsUint) -> Result<Taken, ScriptFault>
        ensures lost { IfOk result (IsOfTest (Lost conn.value ∷ [])) }
        ensures released { OnOk result (script_of self.new.script ≡ without_held number (script_of self.old.script)) }
        ensures err { OnErr result (script_of self.new.script ≡ script_of self.old.script) }
        ensures end { self.new.end ≡ self.old.end }
        ensures worn_out { IsErrOf result ScriptFault.WornOut → ⊥ }
        ensures why { (held : Option script.Held) → IfErr result (RefusesRelease held) }
    {
        match only(self.alloc, Sent::Lost(conn)) {
            Ok(sent) => {
                self.script.release(number);
                Ok(Taken::Answered(sent))
            }
            Err(_) => Err(ScriptFault::NoMemory),
        }
    }

    // Has the remote end take the text of a command that is released.
    fn release_text(
        &mut self,
        number: u64,
        conn: JsUint,
        text: String,
    ) -> Result<Taken, ScriptFault>
        ensures handed_on { (script_of self.old.script).known ≡ []
            → IfOk result (λ t. (i : Input) × IsHeardAs (steps.Text conn.value (string_bytes text)) i
            × ((h : List Input) → StandsFor self.old.end h → IsOfMachine (out h i) t × StandsFor self.new.end (i ∷ h) × IsShort h)
            × (script_of self.new.script ≡ without_held number (script_of self.old.script))) }
        ensures named { (h : List Input) → StandsFor self.old.end h → (script_of self.old.script).known ≢ []
            → IfOk result (λ t. (mid : script.Script) × NamesAsked conn.value (string_bytes text) h self.old.end (script_of self.old.script) self.new.end mid t
            × (script_of self.new.script ≡ without_held number mid)) }
        ensures released { OnOk result (OnlySubscriptionsChange (without_held number (script_of self.old.script)) (script_of self.new.script)) }
        ensures err { OnErr result ((script_of self.new.script ≡ script_of self.old.script)
            × ((h : List Input) → StandsFor self.old.end h → StandsFor self.new.end h)) }
        ensures worn_out { (h : List Input) → StandsFor self.old.end h → IsErrOf result ScriptFault.WornOut → most_steps ≤ length h }
        ensures why { (held : script.Held) → held.is_lost ≡ false → IfErr result (RefusesRelease (Some held)) }
    {
        match self.hear_names(conn, text.as_str()) {
            Ok(taken) => {
                self.script.release(number);
                Ok(taken)
            }
            Err(fault) => Err(ScriptFault::from(fault)),
        }
    }

    /// Releases a held command: it is answered by this text, which is that of a row without `method`, `params` and `times`.
    ///
    /// # Errors
    /// The scripted end is then as it was: `NotHeld`, `BadRow`, `NoMemory`, `WornOut`.
    pub fn release_with(&mut self, number: u64, answer: &str) -> Result<Vec<Sent>, ScriptFault>
        // If no command of this number is held, the call fails.
        ensures not_held { held_by number (script_of self.old.script) ≡ None → result ≡ Err NotHeld }
        // An error is the first that the definition has: `NotHeld`, `BadRow` with the fault of the text, or `WornOut`.
        ensures why { IfErr result (RefusesAnswer answer.now (held_by number (script_of self.old.script))) }
        // Otherwise the events before, one reply and the events after are sent; if the connection is gone, the command is lost.
        ensures answered { (h : List Input) (held : script.Held) → StandsFor self.old.end h → held_by number (script_of self.old.script) ≡ Some held
            → IfOk result (λ sent. (a : spec.Answer) × IsAnswer answer.now a × (map sent_of sent.items ≡ release_sent (deeds h) (script_of self.old.script).named held a)) }
        // After an Ok, the command is held no longer, so it cannot be released again.
        ensures released { OnOk result (script_of self.new.script ≡ without_held number (script_of self.old.script)) }
        // After an error the script is as it was.
        ensures err { OnErr result (script_of self.new.script ≡ script_of self.old.script) }
        // The remote end is unchanged.
        ensures end { self.new.end ≡ self.old.end }
        // `WornOut` comes only if the remote end has accepted `most_steps` steps.
        ensures worn_out { (h : List Input) → StandsFor self.old.end h → IsErrOf result ScriptFault.WornOut → most_steps ≤ length h }
    {
        let Some(held) = self.script.held(number) else {
            return Err(ScriptFault::NotHeld);
        };
        let mut scratch = Scratch::new(self.alloc);
        let answer = read_answer(self.alloc, answer, &mut scratch)?;
        let sent = self.release_sent(held, &answer)?;
        self.script.release(number);
        Ok(sent)
    }

    // What is sent for a held command that is answered so.
    fn release_sent(&self, held: &HeldCommand, answer: &Answer) -> Result<Vec<Sent>, RemoteFault>
        ensures worn_out { (h : List Input) → StandsFor self.now.end h → IsErrOf result RemoteFault.WornOut → most_steps ≤ length h }
        ensures sends { (h : List Input) → StandsFor self.now.end h
            → IfOk result (λ sent. map sent_of sent.items ≡ release_sent (deeds h) (script_of self.now.script).named (held_of held.now) (answer_of answer.now)) }
    {
        if held.is_lost || !self.end.is_open(held.conn) {
            return Ok(only(self.alloc, Sent::Lost(held.conn))?);
        }
        let named = &self.script.named;
        answer_sent(self.alloc, &self.end, named, held.conn, held.id, answer)
    }

    /// What is sent for an event `{"method": M, "params": {..}}`: its message, once to each connection of each session that is subscribed to it.
    /// The scripted end stays as it is.
    ///
    /// # Errors
    /// `BadRow`, `NoMemory`, `WornOut`.
    pub fn emit(&self, event: &str) -> Result<Vec<Sent>, ScriptFault>
        // After an Ok, the event of this text goes to the sessions that it reaches, in the machine's order, and to no other.
        ensures ok { (h : List Input) → StandsFor self.now.end h
            → IfOk result (λ sent. (e : spec.Event) × IsEventText event.now e × (map sent_of sent.items ≡ emitted (deeds h) (script_of self.now.script).named e)) }
        // An error is the first that the definition has: `BadRow` with the fault of the text, or `WornOut`.
        ensures why { IfErr result (RefusesEvent event.now) }
        // `WornOut` comes only if the remote end has accepted `most_steps` steps.
        ensures worn_out { (h : List Input) → StandsFor self.now.end h → IsErrOf result ScriptFault.WornOut → most_steps ≤ length h }
    {
        let mut scratch = Scratch::new(self.alloc);
        let event = read_event(self.alloc, event, &mut scratch)?;
        let mut sent = Vec::new(self.alloc);
        push_event(&self.end, &self.script.named, &event, &mut sent)?;
        Ok(sent)
    }

    /// Has these events, `[EVENT..]`, follow each event of a method that the remote end sends, in place of those that did before. A string
    /// `$context`, `$navigation` or `$url` in their params stands for what the event before says of these, or null.
    ///
    /// # Errors
    /// Nothing has changed then. `NoMemory`, `BadRow`, `TooManyRows`, `TooMuchKept`.
    pub fn on(&mut self, method: &str, events: &str) -> Result<(), ScriptFault>
        // After an Ok, the events of this text follow those of the method, and no others do.
        ensures ok { OnOk result ((ts : List Template) × AreTemplateTexts events.now ts × (script_of self.new.script
            ≡ with_follower (record { method = method.now; events = ts; bytes = length events.now }) (script_of self.old.script))) }
        // An Ok comes only if there was room for the events.
        ensures room { OnOk result (has_room_for_follower (script_of self.old.script) (length events.now) ≡ true) }
        // An error is the first that the definition has: `BadRow` with the fault of the text, `TooManyRows` or `TooMuchKept`.
        ensures why { IfErr result (RefusesFollower events.now (script_of self.old.script)) }
        // After an error the script is as it was.
        ensures err { OnErr result (script_of self.new.script ≡ script_of self.old.script) }
        // The remote end is unchanged.
        ensures end { self.new.end ≡ self.old.end }
        // `WornOut` never comes.
        ensures worn_out { IsErrOf result ScriptFault.WornOut → ⊥ }
    {
        let mut scratch = Scratch::new(self.alloc);
        let bytes = events.len();
        let events = read_templates(self.alloc, events, &mut scratch)?;
        let method = String::from_str(self.alloc, method)?;
        if !self.script.has_few_followers() {
            return Err(ScriptFault::TooManyRows);
        }
        if !self.script.can_keep(bytes) {
            return Err(ScriptFault::TooMuchKept);
        }
        Ok(
            self.script.follow(Follower {
                method,
                events,
                bytes,
            })?,
        )
    }

    /// Whether a test had events follow others. Takes no memory.
    pub fn has_followers(&self) -> bool
        // False exactly if nothing follows what the remote end sends.
        ensures { result ≡ not (length (script_of self.now.script).followers == 0) }
    {
        self.script.followers.len() != 0
    }

    /// What follows something that the remote end sends, on the same connection: the events that a test had follow it. Asked of each thing
    /// that is sent for a [`Taken::HandedOn`], in order; each is sent directly behind the thing.
    ///
    /// Without followers it takes no memory. Otherwise the text is parsed.
    ///
    /// # Errors
    /// No memory: an allocation failed.
    pub fn followers_of(&self, sent: &Sent) -> Result<Vec<Sent>, AllocError>
        // After an Ok, they are the events of the definition, with their places filled.
        ensures { IfOk result (λ more. map sent_of more.items ≡ followed_by (script_of self.now.script).followers (sent_of sent.now)) }
    {
        match sent {
            Sent::Text(conn, text) => {
                followers_of(self.alloc, &self.script.followers, *conn, text.as_str())
            }
            _ => Ok(Vec::new(self.alloc)),
        }
    }

    /// Makes names of events and modules known, with blanks between them: from now on sessions may subscribe to them. `*` makes all names known.
    ///
    /// # Errors
    /// Nothing has changed then. `NoMemory`, `BadName`, `TooManyNames`.
    pub fn names(&mut self, names: &str) -> Result<(), ScriptFault>
        // After an Ok, the words of the text are known as well, each once, and nothing else of the script has changed.
        ensures ok { OnOk result (script_of self.new.script ≡ with_names (words names.now) (script_of self.old.script)) }
        // An Ok comes only if each word is a name or `*`.
        ensures named { OnOk result (list_all can_be_known (words names.now) ≡ true) }
        // An Ok comes only if there was room for those that are new.
        ensures room { OnOk result (has_room_for_names (script_of self.old.script) (words names.now) ≡ true) }
        // An error is the first that the definition has: `BadName` or `TooManyNames`.
        ensures why { IfErr result (RefusesNames names.now (script_of self.old.script)) }
        // After an error the script is as it was.
        ensures err { OnErr result (script_of self.new.script ≡ script_of self.old.script) }
        // The remote end is unchanged.
        ensures end { self.new.end ≡ self.old.end }
        // `WornOut` never comes.
        ensures worn_out { IsErrOf result ScriptFault.WornOut → ⊥ }
    {
        let words = read_names(self.alloc, names)?;
        let Some(new) = new_words(self.alloc, &self.script.known, &words, MOST_KNOWN)? else {
            return Err(ScriptFault::TooManyNames);
        };
        if !self.script.has_room_for_words(new.len()) {
            return Err(ScriptFault::TooManyNames);
        }
        Ok(self.script.know(new)?)
    }

    /// Whether sessions may subscribe to this name because a test made it known, by itself, by its module or with all names.
    pub fn is_known(&self, name: &str) -> bool
        // The answer is that of the definition.
        ensures { result ≡ is_known (script_of self.now.script).known name.now }
    {
        is_known(&self.script.known, name)
    }
}

// The names of a line.
fn read_names(alloc: Global, text: &str) -> Result<Vec<String>, ScriptFault>
    ensures ok { IfOk result (λ names. map string_bytes names.items ≡ words text.now) }
    ensures named { OnOk result (list_all can_be_known (words text.now) ≡ true) }
    ensures why { (s : script.Script) → IfErr result (RefusesNames text.now s) }
{
    match names_of_line(alloc, text)? {
        Some(names) => Ok(names),
        None => Err(ScriptFault::BadName),
    }
}
