//! A host: a remote end that records each of its inputs as a line.
ghost use Rattle.std.specs.Prelude.{◌≡◌, ◌≤◌, ℕ, List, [], length, true, map, string_bytes, option_map, IfOk, IfSome, IfNone, OnOk, OnErr, IsErrOf};
ghost use Rattle.bidi_sessions.specs.Limits.{most_steps};
ghost use Rattle.bidi_sessions.specs.Step.{Step as Taking, Open, Drop, Text, NotText};
ghost use Rattle.bidi_sessions.specs.View.{sent_of, step_of};
ghost use Rattle.bidi_remote.specs.Machine.History.{Input};
ghost use Rattle.bidi_remote.specs.Machine.Connections.{is_open};
ghost use Rattle.bidi_remote.specs.Machine.Outcome.{deeds};
ghost use Rattle.bidi_remote.specs.State.Stands.{StandsFor};
ghost use Rattle.bidi_play.specs.Lines.{line_of, CanBeSaid, IsSayable};
ghost use Rattle.bidi_scripted.specs.Script.{no_script, held_by};
ghost use Rattle.bidi_scripted.specs.Sending.{followed_by};
ghost use Rattle.bidi_scripted.specs.View.{script_of};
ghost use Rattle.bidi_script_lines.specs.Outcomes.{held_line};
ghost use Rattle.bidi_script_lines.specs.ScriptLines.{Line, Plain, is_plain, script_line_of, CanBeWritten};
ghost use Rattle.bidi_script_lines.specs.ScriptPlayers.{HasPlayedScript};
ghost use Rattle.bidi_script_lines.specs.View.{said_by};
ghost use Rattle.bidi_recorder.specs.declared.host.HostFault.TheVariants.{NoMemory};

use crate::page::{is_line, is_said_by_pages};
use crate::saying::said_for;
use bidi_remote::{RemoteEnd, RemoteFault, Sent, Step};
use bidi_script_lines::{Outcome, ScriptLine, held_line, perform, read_script_text};
use bidi_scripted::ScriptedEnd;
use bidi_tree::JsUint;
use std::alloc::{AllocError, Global};
use thiserror::Error;

/// Why an input was not taken. The host is as it was before.
#[derive(Clone, Copy, Debug, PartialEq, Eq, Error)]
pub enum HostFault {
    /// An allocation failed. The same input may be taken again.
    #[error("out of memory")]
    NoMemory,
    /// 1,000,000,000 inputs were taken, and no more will be. Continue with a new host.
    #[error("too many steps")]
    WornOut,
    /// No line of a play can hold the input: a resource has a line feed, or is longer than a line.
    #[error("a text cannot be recorded")]
    Unsaid,
}

impl From<AllocError> for HostFault {
    ghost from_gives = { λ _ fault. fault ≡ NoMemory };

    fn from(_: AllocError) -> HostFault {
        HostFault::NoMemory
    }
}

impl From<RemoteFault> for HostFault {
    ghost use Rattle.bidi_recorder.specs.Faults.{host_fault_of};

    ghost from_gives = { λ error fault. fault ≡ host_fault_of error };

    fn from(error: RemoteFault) -> HostFault {
        match error {
            RemoteFault::NoMemory => HostFault::NoMemory,
            RemoteFault::WornOut => HostFault::WornOut,
        }
    }
}

/// An input that was taken.
#[derive(Drop)]
pub struct Recorded {
    /// The line of a play for the input, without its line feed.
    pub line: String,
    /// What it brings about.
    pub outcome: Outcome,
}

/// A remote end over a browser in memory, which records each of its inputs as the line of a play.
pub struct Host {
    alloc: Global,
    end: ScriptedEnd,
}

// Not derived, so that its proof is made only here.
impl Drop for Host {
    fn drop(self) {
        let Host { alloc: _, end: _ } = self;
    }
}

impl Host {
    ghost use Rattle.bidi_recorder.specs.PageLines.{is_said_by_pages};
    ghost use Rattle.bidi_recorder.specs.Hosting.{IsTaken, Stays, IsSaidAs, SaysNoPageLine};

    /// Makes a host: no connection, no session, and a browser with one context.
    ///
    /// # Errors
    /// No memory: an allocation failed.
    pub fn new(alloc: Global) -> Result<Host, AllocError>
        // The new host has played no lines, and its script is empty.
        ensures played { IfOk result (λ host. HasPlayedScript host.end [] []) }
        // Its script is empty.
        ensures script { IfOk result (λ host. script_of host.end.script ≡ no_script) }
    {
        Ok(Host {
            alloc,
            end: ScriptedEnd::new(alloc)?,
        })
    }

    /// Opens a connection with this resource, if the remote end accepts it. Copies the resource twice.
    ///
    /// # Errors
    /// The host is as it was before.
    /// 1. `NoMemory`: an allocation failed.
    /// 2. `Unsaid`: the resource has a line feed, or its line would have more than 2,097,152 bytes.
    /// 3. `WornOut`: 1,000,000,000 inputs were taken.
    pub fn opened(&mut self, conn: JsUint, resource: &str) -> Result<Recorded, HostFault>
        // An Ok has the line of this opening and what it brings about.
        ensures taken { IfOk result (IsTaken (Plain (Open conn.value resource.now)) self.old.end self.new.end) }
        // After an error nothing has changed.
        ensures err { OnErr result (Stays self.old.end self.new.end) }
        // `Unsaid` comes only if no line of a play can hold this opening.
        ensures unsaid { IsErrOf result HostFault.Unsaid → CanBeSaid (Open conn.value resource.now) → ⊥ }
        // `WornOut` comes only after 1,000,000,000 inputs.
        ensures worn_out { (h : List Input) → StandsFor self.old.end.end h → IsErrOf result HostFault.WornOut → most_steps ≤ length h }
    {
        let line = format!(in self.alloc; "open {} {resource}", conn.value)?;
        let resource = String::from_str(self.alloc, resource)?;
        self.take(Step::Open(conn, resource), line)
    }

    /// Takes a text that came in on a connection.
    ///
    /// If no line can hold the text, because it has a line feed or is too long, a text with the same verdict
    /// and the same command for rows is taken instead: the text with a carriage return in place of each line feed, or `{` if it is longer
    /// than a command may be. Copies the text once, and such a text twice more.
    ///
    /// # Errors
    /// The host is as it was before.
    /// 1. `NoMemory`: an allocation failed.
    /// 2. `WornOut`: 1,000,000,000 inputs were taken.
    pub fn heard(&mut self, conn: JsUint, text: String) -> Result<Recorded, HostFault>
        // An Ok has the line of this text, or of one with the same verdict and the same command for rows, and what it brings about.
        ensures taken { IfOk result (λ t. (said : List ℕ) × IsSaidAs conn.value (string_bytes text) said
            × IsTaken (Plain (Text conn.value said)) self.old.end self.new.end t) }
        // After an error nothing has changed.
        ensures err { OnErr result (Stays self.old.end self.new.end) }
        // `Unsaid` never comes, whatever the text is.
        ensures unsaid { IsErrOf result HostFault.Unsaid → ⊥ }
        // `WornOut` comes only after 1,000,000,000 inputs.
        ensures worn_out { (h : List Input) → StandsFor self.old.end.end h → IsErrOf result HostFault.WornOut → most_steps ≤ length h }
    {
        let line = text_line(self.alloc, conn, text.as_str())?;
        if is_line(line.as_str()) {
            return self.take(Step::Text(conn, text), line);
        }
        let text = said_for(self.alloc, text.as_str())?;
        let line = text_line(self.alloc, conn, text.as_str())?;
        self.take(Step::Text(conn, text), line)
    }

    /// Takes a message that is not a text, which came in on a connection.
    ///
    /// # Errors
    /// The host is as it was before.
    /// 1. `NoMemory`: an allocation failed.
    /// 2. `WornOut`: 1,000,000,000 inputs were taken.
    pub fn heard_no_text(&mut self, conn: JsUint) -> Result<Recorded, HostFault>
        // An Ok has the line of this message and what it brings about.
        ensures taken { IfOk result (IsTaken (Plain (NotText conn.value)) self.old.end self.new.end) }
        // After an error nothing has changed.
        ensures err { OnErr result (Stays self.old.end self.new.end) }
        // `Unsaid` comes only if no line of a play can hold this message.
        ensures unsaid { IsErrOf result HostFault.Unsaid → CanBeSaid (NotText conn.value) → ⊥ }
        // `WornOut` comes only after 1,000,000,000 inputs.
        ensures worn_out { (h : List Input) → StandsFor self.old.end.end h → IsErrOf result HostFault.WornOut → most_steps ≤ length h }
    {
        let line = format!(in self.alloc; "binary {}", conn.value)?;
        self.take(Step::NotText(conn), line)
    }

    /// Drops a connection, because its peer is gone.
    ///
    /// # Errors
    /// The host is as it was before.
    /// 1. `NoMemory`: an allocation failed.
    /// 2. `WornOut`: 1,000,000,000 inputs were taken.
    pub fn dropped(&mut self, conn: JsUint) -> Result<Recorded, HostFault>
        // An Ok has the line of this drop and what it brings about.
        ensures taken { IfOk result (IsTaken (Plain (Drop conn.value)) self.old.end self.new.end) }
        // After an error nothing has changed.
        ensures err { OnErr result (Stays self.old.end self.new.end) }
        // `Unsaid` comes only if no line of a play can hold this drop.
        ensures unsaid { IsErrOf result HostFault.Unsaid → CanBeSaid (Drop conn.value) → ⊥ }
        // `WornOut` comes only after 1,000,000,000 inputs.
        ensures worn_out { (h : List Input) → StandsFor self.old.end.end h → IsErrOf result HostFault.WornOut → most_steps ≤ length h }
    {
        let line = format!(in self.alloc; "drop {}", conn.value)?;
        self.take(Step::Drop(conn), line)
    }

    /// Takes a line of a page, without its line feed: `at N`, `frame CONTEXT URL`, `unframe CONTEXT`,
    /// `log CONTEXT LEVEL TEXT`, `value ROW`, or a line of a test such as `answer ROW`. `None` means that it is not
    /// such a line. Copies the line twice.
    ///
    /// # Errors
    /// The host is as it was before.
    /// 1. `NoMemory`: an allocation failed.
    /// 2. `WornOut`: 1,000,000,000 inputs were taken.
    pub fn page_line(&mut self, line: &str) -> Result<Option<Recorded>, HostFault>
        // If there is a result, the line is one that a page may say, and it was taken.
        ensures some { IfOk result (λ found. IfSome found (λ t. (l : Line) × (is_said_by_pages l ≡ true) × (line.now ≡ script_line_of l)
            × IsTaken l self.old.end self.new.end t)) }
        // `None` comes only if the line is not one that a page may say, and then nothing has
        // changed.
        ensures none { IfOk result (λ found. IfNone found (SaysNoPageLine line.now × Stays self.old.end self.new.end)) }
        // After an error nothing has changed.
        ensures err { OnErr result (Stays self.old.end self.new.end) }
        // `Unsaid` never comes, because the line itself is recorded.
        ensures unsaid { IsErrOf result HostFault.Unsaid → ⊥ }
        // `WornOut` comes only after 1,000,000,000 inputs.
        ensures worn_out { (h : List Input) → StandsFor self.old.end.end h → IsErrOf result HostFault.WornOut → most_steps ≤ length h }
    {
        if !is_line(line) {
            return Ok(None);
        }
        match read_script_text(self.alloc, line)? {
            None => Ok(None),
            Some(said) => self.say_line(said, line),
        }
    }

    // Takes a line that was read, if a page may say it.
    fn say_line(&mut self, said: ScriptLine, line: &str) -> Result<Option<Recorded>, HostFault>
        requires line { line.now ≡ script_line_of (said_by said) }
        requires can { CanBeWritten (said_by said) }
        requires plain { (s : Taking) → CanBeSaid s → line.now ≡ line_of s → is_plain (said_by said) ≡ true }
        ensures some { IfOk result (λ found. IfSome found (λ t. (l : Line) × (is_said_by_pages l ≡ true) × (line.now ≡ script_line_of l)
            × IsTaken l self.old.end self.new.end t)) }
        ensures none { IfOk result (λ found. IfNone found (SaysNoPageLine line.now × Stays self.old.end self.new.end)) }
        ensures err { OnErr result (Stays self.old.end self.new.end) }
        ensures unsaid { IsErrOf result HostFault.Unsaid → ⊥ }
        ensures worn_out { (h : List Input) → StandsFor self.old.end.end h → IsErrOf result HostFault.WornOut → most_steps ≤ length h }
    {
        if !is_said_by_pages(&said) {
            return Ok(None);
        }
        let line = String::from_str(self.alloc, line)?;
        Ok(Some(self.take_line(said, line)?))
    }

    /// The events that follow something that the remote end sends, on the same connection, because a test had them
    /// follow.
    ///
    /// # Errors
    /// No memory: an allocation failed.
    pub fn followers_of(&self, sent: &Sent) -> Result<Vec<Sent>, AllocError>
        // After an Ok, they are the events of the definition.
        ensures { IfOk result (λ more. map sent_of more.items ≡ followed_by (script_of self.now.end.script).followers (sent_of sent.now)) }
    {
        self.end.followers_of(sent)
    }

    /// The line for the held command of this number, without its line feed: `held N C TEXT`. `None` if no command of
    /// this number is held.
    ///
    /// # Errors
    /// No memory: an allocation failed.
    pub fn held_line(&self, number: u64) -> Result<Option<String>, AllocError>
        // After an Ok, it is the line of the command of this number that is held, if there is one.
        ensures { IfOk result (λ line. option_map string_bytes line ≡ option_map held_line (held_by number (script_of self.now.end.script))) }
    {
        match self.end.held_command(number) {
            Some(command) => Ok(Some(held_line(self.alloc, command)?)),
            None => Ok(None),
        }
    }

    /// Starts again with a new browser and no connections.
    ///
    /// # Errors
    /// No memory: an allocation failed.
    pub fn reset(&mut self) -> Result<(), AllocError>
        // After an Ok, the host is as new: it has played no lines, and its script is empty.
        ensures fresh { OnOk result (HasPlayedScript self.new.end [] [] × (script_of self.new.end.script ≡ no_script)) }
        // After an error nothing has changed.
        ensures err { OnErr result (Stays self.old.end self.new.end) }
    {
        self.end = ScriptedEnd::new(self.alloc)?;
        Ok(())
    }

    /// The remote end of the host, to be asked.
    pub fn remote_end(&self) -> &RemoteEnd
        // The result is the remote end that takes the inputs.
        ensures { result.now ≡ self.now.end.end }
    {
        self.end.remote_end()
    }

    /// Whether the connection of this number is open. Takes no memory, and looks at no more than 64
    /// connections.
    pub fn is_open(&self, conn: JsUint) -> bool
        // The result is true exactly if the connection is open after all inputs so far.
        ensures { (h : List Input) → StandsFor self.now.end.end h → result ≡ is_open (deeds h) conn.value }
    {
        self.end.is_open(conn)
    }

    // Takes a step, whose line this is.
    fn take(&mut self, step: Step, line: String) -> Result<Recorded, HostFault>
        requires line { string_bytes line ≡ line_of (step_of step) }
        requires parts { IsSayable (step_of step) }
        ensures taken { IfOk result (IsTaken (Plain (step_of step)) self.old.end self.new.end) }
        ensures err { OnErr result (Stays self.old.end self.new.end) }
        ensures unsaid { IsErrOf result HostFault.Unsaid → CanBeSaid (step_of step) → ⊥ }
        ensures worn_out { (h : List Input) → StandsFor self.old.end.end h → IsErrOf result HostFault.WornOut → most_steps ≤ length h }
    {
        if !is_line(line.as_str()) {
            return Err(HostFault::Unsaid);
        }
        self.take_line(ScriptLine::Step(step), line)
    }

    // Takes a line, whose text this is.
    fn take_line(&mut self, said: ScriptLine, line: String) -> Result<Recorded, HostFault>
        requires line { string_bytes line ≡ script_line_of (said_by said) }
        requires can { CanBeWritten (said_by said) }
        requires plain { (s : Taking) → CanBeSaid s → string_bytes line ≡ line_of s → is_plain (said_by said) ≡ true }
        ensures taken { IfOk result (IsTaken (said_by said) self.old.end self.new.end) }
        ensures err { OnErr result (Stays self.old.end self.new.end) }
        ensures unsaid { IsErrOf result HostFault.Unsaid → ⊥ }
        ensures worn_out { (h : List Input) → StandsFor self.old.end.end h → IsErrOf result HostFault.WornOut → most_steps ≤ length h }
    {
        let outcome = perform(self.alloc, &mut self.end, said)?;
        Ok(Recorded { line, outcome })
    }
}

// Makes the line of a text on a connection.
fn text_line(alloc: Global, conn: JsUint, text: &str) -> Result<String, AllocError>
    ensures { IfOk result (λ line. string_bytes line ≡ line_of (Text conn.value text.now)) }
{
    format!(in alloc; "> {} {text}", conn.value)
}
