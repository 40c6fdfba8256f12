//! The meaning of a message in short.
ghost use Rattle.std.specs.Prelude.{◌≡◌, ⊤, MatchOption};
ghost use Rattle.bidi_local.specs.Pending.{Pending};
ghost use Rattle.bidi_local.specs.Received.{IsSettledBy};
ghost use Rattle.bidi_local.specs.View.{meaning_of};
ghost use Rattle.bidi_local.specs.Outcome.{IsOutcomeOf};

use crate::received::{Received, Taken};
use bidi_messages::{ErrorCode, Method};
use bidi_tree::JsUint;

/// What a message means, without the result or the event that it carries.
#[derive(Clone, Copy, Debug, PartialEq, Eq)]
pub enum Outcome {
    /// A command succeeded, or the message is an event.
    Fine,
    /// The result does not fit the rule of this method, which is that of the command with this id.
    BadResult(JsUint, Method),
    /// The command with this id and method failed, with this code.
    Refusal(JsUint, Method, ErrorCode),
    /// The message answers no pending command.
    Stray,
    /// The text is not a message.
    NoMessage,
}

impl Taken {
    /// Gives the meaning in short. Takes no memory.
    pub fn outcome(self) -> Outcome
        // The result is the meaning in short, if `method` is that of the command that was settled.
        ensures { (waiting : Pending) → IsSettledBy waiting (meaning_of self.received) self.method
            → IsOutcomeOf waiting (meaning_of self.received) result }
    {
        let outcome = self.in_short();
        // By a call, in which its variants are not visible.
        drop(self);
        outcome
    }

    // Gives the meaning in short of a message that is borrowed.
    fn in_short(&self) -> Outcome
        ensures { (waiting : Pending) → IsSettledBy waiting (meaning_of self.now.received) self.now.method
            → IsOutcomeOf waiting (meaning_of self.now.received) result }
    {
        match &self.received {
            Received::Answer(_, _) | Received::Event(_) => Outcome::Fine,
            Received::BadResult(id) => bad_result(*id, self.method),
            Received::Refusal(id, code) => refusal(*id, self.method, *code),
            Received::Stray => Outcome::Stray,
            Received::NotInProfile | Received::NotJson => Outcome::NoMessage,
        }
    }
}

// The outcome of a bad result for a command of this method.
fn bad_result(id: JsUint, method: Option<Method>) -> Outcome
    ensures { MatchOption method ⊤ (λ m. result ≡ Outcome.BadResult id m) }
{
    match method {
        Some(method) => Outcome::BadResult(id, method),
        None => Outcome::NoMessage,
    }
}

// The outcome of a refusal for a command of this method.
fn refusal(id: JsUint, method: Option<Method>, code: ErrorCode) -> Outcome
    ensures { MatchOption method ⊤ (λ m. result ≡ Outcome.Refusal id m code) }
{
    match method {
        Some(method) => Outcome::Refusal(id, method, code),
        None => Outcome::NoMessage,
    }
}
