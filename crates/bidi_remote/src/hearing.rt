//! How a message of a client is answered.
ghost use Rattle.std.specs.Prelude.{◌≡◌, List, map, false, Some, IfOk, IfSome, OnOk, OnErr};
ghost use Rattle.json.specs.Json.{document};
ghost use Rattle.json.specs.Value.{value_view};
ghost use Rattle.bidi_tree.specs.Node.{Node};
ghost use Rattle.bidi_methods.specs.Method.{method_text};
ghost use Rattle.bidi_messages.specs.Command.{method_in};
ghost use Rattle.bidi_messages.specs.Payloads.{command_method};
ghost use Rattle.bidi_messages.specs.Verdict.{IsVerdict, Accepted};
ghost use Rattle.bidi_messages.specs.Verdict as judged;
ghost use Rattle.bidi_messages.specs.View.{verdict_of, IsWell};
ghost use Rattle.bidi_sessions.specs.ConnectionRows.{attachment_in_hand};
ghost use Rattle.bidi_sessions.specs.View.{sent_of};
ghost use Rattle.bidi_remote.specs.Machine.History.{Input, Heard, NotText};
ghost use Rattle.bidi_remote.specs.Machine.Connections.{attachment_of, is_shut};
ghost use Rattle.bidi_remote.specs.Machine.Outcome.{deeds};
ghost use Rattle.bidi_remote.specs.Replies.{IsAnsweredOnce};
ghost use Rattle.bidi_remote.specs.State.Asked.{Asks, IsWellAsked, asked_of};

use crate::deciding::decide;
use crate::refusing::{only, refuse};
use crate::state::State;
use crate::turn::Asker;
use bidi_browser::Refusal;
use bidi_messages::{
    Command, CommandData, ErrorCode, Method, Payload, Verdict, judge_value, judge_with,
};
use bidi_params::session::NewParameters;
use bidi_sessions::{Attachment, Sent};
use bidi_shape::Shape;
use bidi_tree::JsUint;
use json::{Scratch, Value};
use std::alloc::{AllocError, Global};

impl State {
    ghost use Rattle.bidi_remote.specs.State.Stands.{AgreeWith, Keeps, IsShort, Takes};

    /// Reads a text as a command and answers it, if its connection is open. The value is that of the text, if it was read before.
    pub(crate) fn hear(
        &mut self,
        alloc: Global,
        conn: JsUint,
        text: &str,
        value: Option<&Value<'_>>,
        scratch: &mut Scratch,
    ) -> Result<Vec<Sent>, AllocError>
        requires { IfSome value (λ v. document text.now ≡ Some (value_view v.now)) }
        ensures ok { IfOk result (λ sent. (v : judged.Verdict) × IsVerdict text.now v × ((h : List Input) → IsShort h → AgreeWith self.old (deeds h)
            → Takes self.new (map sent_of sent.items) h (Heard conn.value v))) }
        ensures err { OnErr result (Keeps self.old self.new) }
        ensures answered { (h : List Input) (v : judged.Verdict) → IsShort h
            → AgreeWith self.old (deeds h) → IsVerdict text.now v → OnOk result (IsAnsweredOnce (deeds h) (Heard conn.value v)) }
    {
        let verdict = judge_read(alloc, text, value, scratch)?;
        self.settle(alloc, conn, &verdict)
    }

    // Answers a text that was judged, if its connection is open.
    fn settle(
        &mut self,
        alloc: Global,
        conn: JsUint,
        verdict: &Verdict,
    ) -> Result<Vec<Sent>, AllocError>
        requires { IsWell ⟦<Command as Shape>⟧.shape verdict.now }
        ensures ok { (h : List Input) → IsShort h → AgreeWith self.old (deeds h) → IfOk result (λ sent. Takes self.new (map sent_of sent.items) h
            (Heard conn.value (verdict_of ⟦<Command as Shape>⟧.shape verdict.now))) }
        ensures err { OnErr result (Keeps self.old self.new) }
        ensures answered { (h : List Input) → IsShort h → AgreeWith self.old (deeds h) → OnOk result (IsAnsweredOnce (deeds h)
            (Heard conn.value (verdict_of ⟦<Command as Shape>⟧.shape verdict.now))) }
    {
        let attachment = self.connections.attachment_of(conn);
        if let Attachment::Shut = attachment {
            return only(alloc, Sent::Lost(conn));
        }
        match verdict {
            Verdict::Accepted(command) => {
                let asker = Asker {
                    conn,
                    id: command.id,
                };
                self.answer(alloc, asker, attachment, &command.data)
            }
            Verdict::Refused { id, code } => refuse(alloc, conn, *id, *code),
        }
    }

    /// Refuses a binary message, if its connection is open.
    pub(crate) fn hear_no_text(&self, alloc: Global, conn: JsUint) -> Result<Vec<Sent>, AllocError>
        ensures { (h : List Input) → AgreeWith self.now (deeds h)
            → IfOk result (λ sent. Takes self.now (map sent_of sent.items) h (NotText conn.value)) }
    {
        match self.connections.attachment_of(conn) {
            Attachment::Shut => only(alloc, Sent::Lost(conn)),
            _ => refuse(alloc, conn, None, ErrorCode::InvalidArgument),
        }
    }

    // Answers a command on an open connection.
    fn answer(
        &mut self,
        alloc: Global,
        asker: Asker,
        attachment: Attachment,
        asked: &CommandData,
    ) -> Result<Vec<Sent>, AllocError>
        requires { IsWellAsked ⟦<NewParameters as Shape>⟧.shape asked.now }
        ensures ok { (h : List Input) (t : Node) → IsShort h → AgreeWith self.old (deeds h)
            → attachment_of (deeds h) asker.conn.value ≡ attachment_in_hand attachment → is_shut (attachment_in_hand attachment) ≡ false
            → Asks t asker.id.value (asked_of ⟦<NewParameters as Shape>⟧.shape asked.now)
            → IfOk result (λ sent. Takes self.new (map sent_of sent.items) h (Heard asker.conn.value (Accepted t))) }
        ensures err { OnErr result (Keeps self.old self.new) }
        ensures answered { (h : List Input) (t : Node) → IsShort h → AgreeWith self.old (deeds h)
            → attachment_of (deeds h) asker.conn.value ≡ attachment_in_hand attachment → is_shut (attachment_in_hand attachment) ≡ false
            → Asks t asker.id.value (asked_of ⟦<NewParameters as Shape>⟧.shape asked.now)
            → method_in t ≡ method_text (command_method asked.now)
            → OnOk result (IsAnsweredOnce (deeds h) (Heard asker.conn.value (Accepted t))) }
    {
        match decide(alloc, self, asker, attachment, asked) {
            Ok(turn) => self.take_turn(alloc, turn),
            Err(Refusal::Code(code)) => refuse(alloc, asker.conn, Some(asker.id), code),
            Err(Refusal::NoMemory) => Err(AllocError),
        }
    }
}

// The verdict on a text. The value is that of the text, if it was read before.
fn judge_read(
    alloc: Global,
    text: &str,
    value: Option<&Value<'_>>,
    scratch: &mut Scratch,
) -> Result<Verdict, AllocError>
    requires { IfSome value (λ v. document text.now ≡ Some (value_view v.now)) }
    ensures verdict { IfOk result (λ v. IsVerdict text.now (verdict_of ⟦<Command as Shape>⟧.shape v)) }
    ensures no_other { IfOk result (λ v. (w : judged.Verdict) → IsVerdict text.now w → w ≡ verdict_of ⟦<Command as Shape>⟧.shape v) }
    ensures well { IfOk result (IsWell ⟦<Command as Shape>⟧.shape) }
{
    match value {
        Some(value) => judge_value(alloc, text, value, scratch),
        None => judge_with(alloc, text, scratch),
    }
}
