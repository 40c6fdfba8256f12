//! The scripted end, with its public calls.
ghost use Rattle.std.specs.Prelude.{◌≡◌, ◌<◌, ◌≤◌, [], ◌∷◌, List, length, map, find, true, Some, None, IfOk, OnOk, OnErr, IsErrOf, option_map, string_bytes, vec_len};
ghost use Rattle.std.specs.List.{position};
ghost use Rattle.bidi_params.specs.declared.error_code.ErrorCode.TheVariants.{UnknownError};
ghost use Rattle.bidi_messages.specs.Message.{error_text};
ghost use Rattle.bidi_sessions.specs.Limits.{most_steps};
ghost use Rattle.bidi_sessions.specs.View.{step_of, sent_of};
ghost use Rattle.bidi_rows.specs.Command.{Command};
ghost use Rattle.bidi_rows.specs.Rows as row;
ghost use Rattle.bidi_rows.specs.Rows.{Holds, matches};
ghost use Rattle.bidi_rows.specs.View.{row_of};
ghost use Rattle.bidi_remote.specs.Machine.History.{Input};
ghost use Rattle.bidi_remote.specs.Machine.Outcome.{deeds};
ghost use Rattle.bidi_remote.specs.Machine.Sent.{Text};
ghost use Rattle.bidi_remote.specs.State.Stands.{StandsFor};
ghost use Rattle.bidi_sessions.specs.Step as steps;
ghost use Rattle.bidi_scripted.specs.Script.{no_script, is_plain};
ghost use Rattle.bidi_scripted.specs.Fate.{fate, is_json, by_row, by_action, after_step};
ghost use Rattle.bidi_remote.specs.Machine.Connections.{is_open};
ghost use Rattle.bidi_scripted.specs.Becomes.{Becomes, IsFound, IsHandedOn, IsTaken, sent_by};
ghost use Rattle.bidi_scripted.specs.Sending.{answer_sent};
ghost use Rattle.bidi_scripted.specs.Taken.{IsOfTest, handed};
ghost use Rattle.bidi_scripted.specs.View.{script_of};

use crate::emitting::answer_sent;
use crate::finding::{Found, FoundRow, Looked, look};
use crate::script::Script;
use bidi_messages::{ErrorCode, error_text};
use bidi_remote::{RemoteEnd, RemoteFault, Sent, SentText, Step};
use bidi_rows::Action;
use bidi_tree::JsUint;
use json::Scratch;
use std::alloc::{AllocError, Global};

/// What became of a step.
#[derive(Drop)]
pub enum Taken {
    /// It was handed on to the remote end, which sends this, in order, on any connection. [`ScriptedEnd::followers_of`] says what follows each
    /// thing.
    HandedOn(Vec<Sent>),
    /// This is sent in place of what the remote end would send.
    Answered(Vec<Sent>),
    /// It is a command that is held, and it got this number.
    Held(u64),
}

/// A remote end, with the rows of a test and the commands that are held.
pub struct ScriptedEnd {
    pub(crate) alloc: Global,
    pub(crate) end: RemoteEnd,
    pub(crate) script: Script,
    /// What commands are read in. It stands apart, as it is large.
    pub(crate) scratch: Box<Scratch>,
}

// Not derived, so that it is proved here alone.
impl Drop for ScriptedEnd {
    fn drop(self) {
        let ScriptedEnd {
            alloc: _,
            end: _,
            script: _,
            scratch: _,
        } = self;
    }
}

impl ScriptedEnd {
    /// A scripted end over a new remote end, with no rows. Takes the memory of a remote end, of a buffer to read in and of a
    /// set of methods.
    ///
    /// # Errors
    /// No memory: an allocation failed.
    pub fn new(alloc: Global) -> Result<ScriptedEnd, AllocError>
        // After an Ok, its remote end stands for the empty history.
        ensures end { IfOk result (λ s. StandsFor s.end []) }
        // After an Ok, its script has no rows, and no command is held.
        ensures script { IfOk result (λ s. script_of s.script ≡ no_script) }
    {
        let scratch = Box::new(alloc, Scratch::new(alloc))?;
        Ok(ScriptedEnd {
            alloc,
            end: RemoteEnd::new(alloc)?,
            script: Script::new(alloc)?,
            scratch,
        })
    }

    /// Takes one step. A message on an open connection that is a command for which there is a row is answered or held by the newest such
    /// row; every other step is handed on to the remote end.
    ///
    /// Without rows it costs what the step costs the remote end. With rows, only a command of a method that has rows is compared with
    /// them.
    ///
    /// # Errors
    /// The scripted end is then as it was.
    /// 1. `NoMemory`: an allocation failed.
    /// 2. `WornOut`: 1,000,000,000 steps were accepted, and the step is handed on or sends events.
    pub fn step(&mut self, step: Step) -> Result<Taken, RemoteFault>
        // Over an empty script the step is handed on as it came, and the script stays empty; over any script, what comes of the step is what its
        // fate means; and after an error nothing has changed.
        ensures { IsTaken (step_of step) self.old.end (script_of self.old.script) self.new.end (script_of self.new.script) result }
    {
        match step {
            Step::Text(conn, text) => self.hear(conn, text.as_str()),
            Step::Open(conn, resource) => self.open(conn, resource),
            Step::At(moment) => self.hand_on(Step::At(moment)),
            Step::Drop(conn) => self.hand_on(Step::Drop(conn)),
            Step::NotText(conn) => self.hand_on(Step::NotText(conn)),
            Step::Page(page) => self.hand_on(Step::Page(page)),
        }
    }

    /// Takes a message that came in on a connection. The message is lent, and it is copied only if it is held.
    ///
    /// It is as [`ScriptedEnd::step`] with a `Step::Text` of this connection and this message, which would own the message.
    ///
    /// # Errors
    /// The scripted end is then as it was.
    /// 1. `NoMemory`: an allocation failed.
    /// 2. `WornOut`: 1,000,000,000 steps were accepted, and the message is handed on or sends events.
    pub fn hear(&mut self, conn: JsUint, text: &str) -> Result<Taken, RemoteFault>
        // Over an empty script the message is handed on as it came, and the script stays empty; over any script, what comes of the message is what
        // its fate means; and after an error nothing has changed.
        ensures { IsTaken (steps.Text conn.value text.now) self.old.end (script_of self.old.script) self.new.end (script_of self.new.script) result }
    {
        if self.script.is_plain() {
            return self.hand_on_text(conn, text);
        }
        if !self.end.is_open(conn) {
            return self.hand_on_text(conn, text);
        }
        let scratch = self.scratch.as_mut();
        match look(self.alloc, &mut self.end, &self.script, conn, text, scratch) {
            Ok(Looked::Found(found)) => self.take_found(conn, text, found),
            Ok(Looked::Heard(sent)) => Ok(Taken::HandedOn(sent)),
            Err(fault) => Err(fault),
        }
    }

    /// Hands a step on to the remote end.
    pub(crate) fn hand_on(&mut self, step: Step) -> Result<Taken, RemoteFault>
        ensures handed_on { IsHandedOn (step_of step) self.old.end self.new.end result }
        ensures script { self.new.script ≡ self.old.script }
    {
        match self.end.step(step) {
            Ok(sent) => Ok(Taken::HandedOn(sent)),
            Err(fault) => Err(fault),
        }
    }

    // Opens a connection, if the remote end does. Commands that are held for an earlier one of its number are lost.
    fn open(&mut self, conn: JsUint, resource: String) -> Result<Taken, RemoteFault>
        ensures handed_on { IsHandedOn (steps.Open conn.value (string_bytes resource)) self.old.end self.new.end result }
        ensures script { (h : List Input) → StandsFor self.old.end h → OnOk result (script_of self.new.script
            ≡ after_step (deeds h) (steps.Open conn.value (string_bytes resource)) (script_of self.old.script)) }
        ensures kept { OnErr result (script_of self.new.script ≡ script_of self.old.script) }
        ensures plain { script_of self.old.script ≡ no_script → script_of self.new.script ≡ script_of self.old.script }
    {
        let was_open = self.end.is_open(conn);
        match self.hand_on(Step::Open(conn, resource)) {
            Ok(taken) => {
                self.script.reopen(conn, was_open);
                Ok(taken)
            }
            Err(fault) => Err(fault),
        }
    }

    /// Hands a message on to the remote end.
    pub(crate) fn hand_on_text(&mut self, conn: JsUint, text: &str) -> Result<Taken, RemoteFault>
        ensures handed_on { IsHandedOn (steps.Text conn.value text.now) self.old.end self.new.end result }
        ensures script { self.new.script ≡ self.old.script }
    {
        match self.pass_on(conn, text) {
            Ok(sent) => Ok(Taken::HandedOn(sent)),
            Err(fault) => Err(fault),
        }
    }

    /// Hands a message on to the remote end, and gives what it sends.
    pub(crate) fn pass_on(&mut self, conn: JsUint, text: &str) -> Result<Vec<Sent>, RemoteFault>
        ensures handed_on { IsHandedOn (steps.Text conn.value text.now) self.old.end self.new.end (handed result) }
        ensures script { self.new.script ≡ self.old.script }
    {
        self.end.hear(conn, text)
    }

    // Takes a message on an open connection, for which this was found.
    fn take_found(&mut self, conn: JsUint, text: &str, found: Found) -> Result<Taken, RemoteFault>
        requires found { IsFound (Some found) self.now.script.rows.all.items (script_of self.now.script).known text.now }
        requires json { is_json text.now ≡ true }
        ensures becomes { (h : List Input) → StandsFor self.old.end h → is_open (deeds h) conn.value ≡ true
            → IfOk result (λ t. Becomes (fate (deeds h) (script_of self.old.script)
            (steps.Text conn.value text.now)) h (steps.Text conn.value text.now) self.old.end (script_of self.old.script) self.new.end (script_of self.new.script) t) }
        ensures worn_out { (h : List Input) → StandsFor self.old.end h → IsErrOf result RemoteFault.WornOut → most_steps ≤ length h }
        ensures err { OnErr result ((script_of self.new.script ≡ script_of self.old.script)
            × ((h : List Input) → StandsFor self.old.end h → StandsFor self.new.end h)) }
    {
        match found {
            Found::Row(found) => self.use_row(conn, found, text),
            Found::Names => self.hear_names(conn, text),
        }
    }

    // Has a row answer or hold a command.
    fn use_row(&mut self, conn: JsUint, found: FoundRow, text: &str) -> Result<Taken, RemoteFault>
        requires { found.place < vec_len self.now.script.rows.all }
        ensures becomes { (h : List Input) (command : Command) → StandsFor self.old.end h → command.id ≡ found.id.value
            → position (λ r. matches command (row_of r)) self.old.script.rows.all.items ≡ Some found.place
            → IfOk result (λ t. Becomes (by_row (script_of self.old.script) conn.value text.now command
            (find (matches command) (script_of self.old.script).rows)) h (steps.Text conn.value text.now) self.old.end (script_of self.old.script) self.new.end (script_of self.new.script) t) }
        ensures worn_out { (h : List Input) → StandsFor self.old.end h → IsErrOf result RemoteFault.WornOut → most_steps ≤ length h }
        ensures err { OnErr result (script_of self.new.script ≡ script_of self.old.script) }
        ensures end { self.new.end ≡ self.old.end }
    {
        match self.answered(conn, found) {
            Ok(Some(sent)) => {
                self.script.use_row(found.place);
                Ok(Taken::Answered(sent))
            }
            Ok(None) => self.hold_command(conn, found, text),
            Err(fault) => Err(fault),
        }
    }

    // What is sent for a command that a row answers; `None` if the row holds it.
    fn answered(&self, conn: JsUint, found: FoundRow) -> Result<Option<Vec<Sent>>, RemoteFault>
        requires { found.place < vec_len self.now.script.rows.all }
        ensures worn_out { (h : List Input) → StandsFor self.now.end h → IsErrOf result RemoteFault.WornOut → most_steps ≤ length h }
        ensures sends { (h : List Input) (command : Command) (r : row.Row) → StandsFor self.now.end h
            → position (λ r. matches command (row_of r)) self.now.script.rows.all.items ≡ Some found.place
            → find (matches command) (script_of self.now.script).rows ≡ Some r
            → IfOk result (λ sent. option_map (λ v. map sent_of v.items) sent
            ≡ sent_by (deeds h) (script_of self.now.script).named conn.value found.id.value r.action) }
    {
        match &self.script.rows.all[found.place].action {
            Action::Answer(answer) => {
                let named = &self.script.named;
                let sent = answer_sent(self.alloc, &self.end, named, conn, found.id, answer)?;
                Ok(Some(sent))
            }
            Action::Hold => Ok(None),
        }
    }

    // Holds a command, if there is room.
    fn hold_command(
        &mut self,
        conn: JsUint,
        found: FoundRow,
        text: &str,
    ) -> Result<Taken, RemoteFault>
        requires { found.place < vec_len self.now.script.rows.all }
        ensures worn_out { IsErrOf result RemoteFault.WornOut → ⊥ }
        ensures becomes { (h : List Input) (command : Command) → command.id ≡ found.id.value
            → position (λ r. matches command (row_of r)) self.old.script.rows.all.items ≡ Some found.place
            → IfOk result (λ t. Becomes (by_action (script_of self.old.script) conn.value text.now command Holds)
            h (steps.Text conn.value text.now) self.old.end (script_of self.old.script) self.new.end (script_of self.new.script) t) }
        ensures err { OnErr result (script_of self.new.script ≡ script_of self.old.script) }
        ensures end { self.new.end ≡ self.old.end }
    {
        match self.try_hold(conn, found, text) {
            Ok(taken) => Ok(taken),
            Err(_) => Err(RemoteFault::NoMemory),
        }
    }

    // Holds a command, if there is room.
    fn try_hold(&mut self, conn: JsUint, found: FoundRow, text: &str) -> Result<Taken, AllocError>
        requires { found.place < vec_len self.now.script.rows.all }
        ensures becomes { (h : List Input) (command : Command) → command.id ≡ found.id.value
            → position (λ r. matches command (row_of r)) self.old.script.rows.all.items ≡ Some found.place
            → IfOk result (λ t. Becomes (by_action (script_of self.old.script) conn.value text.now command Holds)
            h (steps.Text conn.value text.now) self.old.end (script_of self.old.script) self.new.end (script_of self.new.script) t) }
        ensures err { OnErr result (script_of self.new.script ≡ script_of self.old.script) }
        ensures end { self.new.end ≡ self.old.end }
    {
        if !self.script.has_room_for_command(text.len()) {
            return self.refuse(conn, found.id, ErrorCode::UnknownError);
        }
        let text = String::from_str(self.alloc, text)?;
        self.script.reserve_held()?;
        self.script.use_row(found.place);
        let number = self.script.hold(conn, found.id, text);
        Ok(Taken::Held(number))
    }

    /// Answers a command by an error of this code.
    pub(crate) fn refuse(
        &self,
        conn: JsUint,
        id: JsUint,
        code: ErrorCode,
    ) -> Result<Taken, AllocError>
        ensures { IfOk result (IsOfTest (Text conn.value (error_text (Some id.value) code) ∷ [])) }
    {
        let refusal = error_text(self.alloc, Some(id), code)?;
        let refusal = Sent::Text(conn, SentText::Own(refusal));
        Ok(Taken::Answered(only(self.alloc, refusal)?))
    }

    /// Whether the connection of this number is open. Takes no memory.
    pub fn is_open(&self, conn: JsUint) -> bool
        // True exactly if the history of the remote end leaves the connection open.
        ensures { (h : List Input) → StandsFor self.now.end h → result ≡ is_open (deeds h) conn.value }
    {
        self.end.is_open(conn)
    }

    /// The remote end, to be asked.
    pub fn remote_end(&self) -> &RemoteEnd
        // The result is the remote end that the steps are handed on to.
        ensures { result.now ≡ self.now.end }
    {
        &self.end
    }
}

/// One thing that is sent.
pub(crate) fn only(alloc: Global, one: Sent) -> Result<Vec<Sent>, AllocError>
    ensures { IfOk result (λ sent. map sent_of sent.items ≡ sent_of one ∷ []) }
{
    let mut sent = Vec::new(alloc);
    sent.push(one)?;
    Ok(sent)
}
