//! Rows, and the commands that they are for.
ghost use Rattle.std.specs.Prelude.{◌≡◌, option_map};
ghost use Rattle.json.specs.Value.{value_view};
ghost use Rattle.bidi_rows.specs.Rows.{matches};
ghost use Rattle.bidi_rows.specs.Matching.{is_part};
ghost use Rattle.bidi_rows.specs.Part.{part_of};
ghost use Rattle.bidi_rows.specs.View.{row_of, command_seen};

use crate::command::Command;
use crate::matching::is_found;
use crate::part::Part;
use json::Value;
use std::rc::Rc;

/// An event that a test sends.
#[derive(Drop)]
pub struct Event {
    /// Its method.
    pub method: String,
    /// The context that its params name, if they name one: `context`, or else `source.context`.
    pub context: Option<String>,
    /// Its message: compact JSON, shared by those that get it.
    pub text: Rc<String>,
}

/// A reply without the id of its command. The parts are compact JSON.
#[derive(Drop)]
pub enum Reply {
    /// A success with this result.
    Result(String),
    /// An error with this code and this message.
    Error(String, String),
}

/// A reply, and the events directly before and after it.
#[derive(Drop)]
pub struct Answer {
    /// The events before the reply.
    pub before: Vec<Event>,
    /// The reply.
    pub reply: Reply,
    /// The events after the reply.
    pub after: Vec<Event>,
}

/// What a row does with a command.
#[derive(Drop)]
pub enum Action {
    /// It answers the command.
    Answer(Answer),
    /// It holds the command back.
    Hold,
}

/// A row: which commands it is for, and what it does with them.
#[derive(Drop)]
pub struct Row {
    /// The method of the commands.
    pub method: String,
    /// The part that their params have, if the row names one.
    pub part: Option<Part>,
    /// What the row does with them.
    pub action: Action,
    /// How often it may still be used; `None` if that is not limited.
    pub left: Option<u64>,
    /// How many bytes its text has.
    pub bytes: usize,
}

impl Row {
    /// Whether the row is for a command: it has the command's method, and its part is found in the command's params.
    ///
    /// Compares the methods first. Takes no memory, unless more than 16 properties are looked for in an object that has more than 16:
    /// that object gets an index until the call returns. If there is no memory for the index, the call takes longer.
    pub fn matches(&self, command: &Command<'_, '_>) -> bool
        // The answer is that of the definition.
        ensures { result ≡ matches (command_seen command.now) (row_of self.now) }
    {
        self.method.as_str() == command.method && is_part(&self.part, command.params)
    }
}

// Whether a part, if there is one, is found in these params.
fn is_part(part: &Option<Part>, params: Option<&Value<'_>>) -> bool
    ensures { result ≡ is_part (option_map part_of part.now) (option_map (λ v. value_view v.now) params.entry) }
{
    match (part, params) {
        (None, _) => true,
        (Some(part), Some(params)) => is_found(part, params),
        (Some(_), None) => false,
    }
}
