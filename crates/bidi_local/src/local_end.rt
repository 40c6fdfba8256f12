//! The local end, with its public calls.
ghost use Rattle.std.specs.Prelude.{◌≡◌, ◌<◌, ◌≤◌, ◌^◌, suc, max, [], ◌∷◌, ◌++◌, map, IfOk, OnOk, OnErr, string_bytes};
ghost use Rattle.std.proofs.Props.{props};
ghost use Rattle.std.specs.List.{AllByRecursion};
ghost use Rattle.bidi_messages.specs.Verdict.{IsVerdict, Accepted};
ghost use Rattle.bidi_local.specs.Pending.{ids, command_tree, command_text, refusal_of, IsAnswered, note_refusal, IsNoted};
ghost use Rattle.bidi_local.specs.Received.{Meaning, Means, settled, IsSettledBy};
ghost use Rattle.bidi_local.specs.Receiving.{IsMeaningOf};
ghost use Rattle.bidi_messages.specs.Payloads.{CommandIsWell, command_method, params_tree};

use crate::pending::{ids_of, method_of, waiting_of};
use crate::received::{Received, Taken};
use crate::receiving::receive;
use crate::writing::written;
use bidi_messages::{CommandData, Message, MessageFault, Method, Payload, read_message_with};
use bidi_shape::{MAX_BYTES, Shape};
use bidi_tree::JsUint;
use indexmap::IndexMap;
use json::Scratch;
use std::alloc::{AllocError, Global};
use thiserror::Error;

/// The greatest id.
const LAST_ID: u64 = 9_007_199_254_740_991;

/// The most commands that can be pending.
const MOST_PENDING: usize = 1024;

/// Why a command was not sent. Nothing has changed, but the command is used up.
#[derive(Clone, Copy, Debug, PartialEq, Eq, Error)]
pub enum LocalFault {
    /// An allocation failed. No id is used, so the same command may be sent again.
    #[error("out of memory")]
    NoMemory,
    /// The last id, 9,007,199,254,740,991, is used: this local end sends no more. Open a new connection.
    #[error("no id is left")]
    IdsUsedUp,
    /// 1,024 commands are pending. Take texts from the remote end until one is settled, and send again.
    #[error("too many commands wait for an answer")]
    TooManyPending,
    /// The text would have more than 1,048,576 bytes, the limit of a command's text. Send a smaller command.
    #[error("the command is too long")]
    TooLong,
}

impl From<AllocError> for LocalFault {
    ghost use Rattle.bidi_local.specs.declared.local_end.LocalFault.TheVariants.{NoMemory};

    ghost from_gives = { λ _ fault. fault ≡ NoMemory };

    fn from(_error: AllocError) -> LocalFault {
        LocalFault::NoMemory
    }
}

/// Why a command was not noted. Nothing has changed.
#[derive(Clone, Copy, Debug, PartialEq, Eq, Error)]
pub enum NoteFault {
    /// An allocation failed. The same command may be noted again.
    #[error("out of memory")]
    NoMemory,
    /// A command with this id is pending. The command may be noted when that one is settled.
    #[error("a command with this id waits for an answer")]
    IdWaits,
    /// 1,024 commands are pending. Take texts from the remote end until one is settled, and note it again.
    #[error("too many commands wait for an answer")]
    TooManyPending,
}

/// The local end of one connection: the last id, and the pending commands.
#[derive(Drop)]
pub struct LocalEnd {
    alloc: Global,
    /// The methods of the pending commands, by id, in the order in which they were sent.
    pending: IndexMap<u64, Method>,
    /// The last id: the greatest that was sent or noted, or 0 if there is none yet.
    sent: u64,
    // The last id is a js-uint.
    ghost in_range: { sent < 2 ^ 53 },
    // No pending command has an id past the last id.
    ghost were_sent: { AllByRecursion (λ w. w.0 ≤ sent) pending.entries } by { Prim.hlevel props },
}

impl LocalEnd {
    ghost use Rattle.bidi_local.specs.View.{Stands, meaning_of, IsWell, sent_by, waiting_in};

    /// Makes a local end. Takes no memory.
    pub fn new(alloc: Global) -> LocalEnd
        // Nothing was sent, so the last id is 0, and no command is pending.
        ensures { Stands result 0 [] }
    {
        LocalEnd {
            alloc,
            pending: IndexMap::new(alloc),
            sent: 0,
        }
    }

    /// Sends a command: returns its id and its text, to be sent to the remote end.
    ///
    /// The text is `{ id: js-uint, method: "M", params: P }`, its members in that order. The command is used
    /// up.
    ///
    /// Makes an outline of the command and its text, each once. A command past the first two limits is
    /// refused before that.
    ///
    /// # Errors
    /// Nothing has changed. If several of `IdsUsedUp`, `TooManyPending` and `TooLong` apply, the result is
    /// the first; `NoMemory` comes only if neither of the first two applies.
    /// - `NoMemory`: an allocation failed.
    /// - `IdsUsedUp`: the id 9,007,199,254,740,991 was sent or noted.
    /// - `TooManyPending`: 1,024 commands are pending.
    /// - `TooLong`: the text has more than 1,048,576 bytes.
    ///
    /// After WebDriver BiDi, "Transport"; the limits are this project's own.
    pub fn send(&mut self, data: CommandData) -> Result<(JsUint, String), LocalFault>
        // The params of the command are valid.
        requires { CommandIsWell «data» }
        // The id is one more than the last id, and the text is that of the command with this id.
        ensures ok { IfOk result (λ sent. (sent.0.value ≡ suc (sent_by self.old)) × (string_bytes sent.1
            ≡ command_text (sent_by self.old) (command_method «data»)
            (params_tree «data»))) }
        // The remote end accepts the text as that command.
        ensures accepted { IfOk result (λ sent. IsVerdict (string_bytes sent.1) (Accepted
            (command_tree (suc (sent_by self.old)) (command_method «data»)
            (params_tree «data»)))) }
        // After an Ok, the command is pending, as the last of all, and its id is the last id.
        ensures waits { OnOk result (Stands self.new (suc (sent_by self.old))
            (waiting_in self.old ++ (suc (sent_by self.old), command_method «data») ∷ [])) }
        // An Ok means that no limit is passed, and a fault names the first that is; `NoMemory` may
        // take the place of `TooLong` or of an Ok.
        ensures refusal { IsAnswered result (refusal_of (sent_by self.old) (waiting_in self.old)
            (command_text (sent_by self.old) (command_method «data»)
            (params_tree «data»))) }
        // After an error, the last id and the pending commands are unchanged.
        ensures err { OnErr result (Stands self.new (sent_by self.old) (waiting_in self.old)) }
    {
        if self.sent >= LAST_ID {
            return Err(LocalFault::IdsUsedUp);
        }
        if self.pending.len() >= MOST_PENDING {
            return Err(LocalFault::TooManyPending);
        }
        let id = JsUint {
            value: self.sent + 1,
        };
        let (method, text) = written(self.alloc, id, data)?;
        if text.len() > MAX_BYTES {
            return Err(LocalFault::TooLong);
        }
        match self.pending.insert(id.value, method) {
            Ok(_) => {
                self.sent = id.value;
                Ok((id, text))
            }
            Err(_) => Err(LocalFault::NoMemory),
        }
    }

    /// Notes a command that someone else sent, under the id that its sender gave it.
    ///
    /// The id may be any under which no command is pending, even that of a command that was settled. The
    /// command is looked up by its id in constant time.
    ///
    /// # Errors
    /// Nothing has changed. If both `IdWaits` and `TooManyPending` apply, the result is the first; `NoMemory`
    /// comes only if neither applies.
    /// - `NoMemory`: an allocation failed.
    /// - `IdWaits`: a command with this id is pending.
    /// - `TooManyPending`: 1,024 commands are pending.
    ///
    /// The limit is this project's own.
    pub fn note(&mut self, id: JsUint, method: Method) -> Result<(), NoteFault>
        // After an Ok, the command is pending, as the last of all, and `send` continues after the
        // greatest id.
        ensures waits { OnOk result (Stands self.new (max (sent_by self.old) id.value) (waiting_in self.old ++ (id.value, method) ∷ [])) }
        // An Ok means that neither limit is passed, and a fault names the first that is; `NoMemory`
        // may take the place of an Ok.
        ensures refusal { IsNoted result (note_refusal (waiting_in self.old) id.value) }
        // After an error, the last id and the pending commands are unchanged.
        ensures err { OnErr result (Stands self.new (sent_by self.old) (waiting_in self.old)) }
    {
        if method_of(&self.pending, id.value).is_some() {
            return Err(NoteFault::IdWaits);
        }
        if self.pending.len() >= MOST_PENDING {
            return Err(NoteFault::TooManyPending);
        }
        match self.pending.insert(id.value, method) {
            Ok(_) => {
                self.sent = self.sent.max(id.value);
                Ok(())
            }
            Err(_) => Err(NoteFault::NoMemory),
        }
    }

    /// Takes a text from the remote end, of any length, and returns its meaning: one of the seven cases of
    /// [`Received`].
    ///
    /// Reads the text in a fresh scratch, and copies the result of an answer once. The command is found by
    /// its id in constant time; settling it moves the commands that were sent after it, at most 1,023.
    ///
    /// # Errors
    /// No memory: an allocation failed. The same text may be taken again.
    ///
    /// After WebDriver BiDi, "Transport".
    pub fn take(&mut self, text: &str) -> Result<Received, AllocError>
        // The result is the meaning of the text by the definition, given the commands that were
        // pending.
        ensures means { IfOk result (λ r. Means (waiting_in self.old) text.now (meaning_of r)) }
        // The definition gives the text no other meaning.
        ensures no_other { (m : Meaning) → Means (waiting_in self.old) text.now m → IfOk result (λ r. m ≡ meaning_of r) }
        // An answer, a bad result and a refusal settle their command; other texts settle nothing.
        ensures settles { IfOk result (λ r. Stands self.new (sent_by self.old) (settled (waiting_in self.old) (meaning_of r))) }
        // The result or the event in the answer is valid.
        ensures well { IfOk result IsWell }
        // After an error, the last id and the pending commands are unchanged.
        ensures err { OnErr result (Stands self.new (sent_by self.old) (waiting_in self.old)) }
    {
        let mut scratch = Scratch::new(self.alloc);
        self.take_with(text, &mut scratch)
    }

    /// Takes a text as [`take`](LocalEnd::take) does, with a scratch that the caller keeps from text to text.
    /// One scratch serves all local ends.
    ///
    /// # Errors
    /// As [`take`](LocalEnd::take).
    pub fn take_with<'a>(
        &mut self,
        text: &'a str,
        scratch: &'a mut Scratch,
    ) -> Result<Received, AllocError>
        // The result is the meaning of the text by the definition, given the commands that were
        // pending.
        ensures means { IfOk result (λ r. Means (waiting_in self.old) text.now (meaning_of r)) }
        // The definition gives the text no other meaning.
        ensures no_other { (m : Meaning) → Means (waiting_in self.old) text.now m → IfOk result (λ r. m ≡ meaning_of r) }
        // An answer, a bad result and a refusal settle their command; other texts settle nothing.
        ensures settles { IfOk result (λ r. Stands self.new (sent_by self.old) (settled (waiting_in self.old) (meaning_of r))) }
        // The result or the event in the answer is valid.
        ensures well { IfOk result IsWell }
        // After an error, the last id and the pending commands are unchanged.
        ensures err { OnErr result (Stands self.new (sent_by self.old) (waiting_in self.old)) }
    {
        match read_message_with(self.alloc, text, scratch) {
            Ok(message) => {
                let taken = self.take_message(message)?;
                Ok(taken.received)
            }
            Err(MessageFault::NotJson) => Ok(Received::NotJson),
            Err(MessageFault::NoFit) => Ok(Received::NotInProfile),
            Err(MessageFault::NoMemory) => Err(AllocError),
        }
    }

    /// Takes a message that was read already, as [`take`](LocalEnd::take) takes a text, and also returns the
    /// method of the command that it settles. The message is used up.
    ///
    /// Copies the result of an answer once. The command is found and settled as by `take`.
    ///
    /// # Errors
    /// No memory: an allocation failed.
    ///
    /// After WebDriver BiDi, "Transport".
    pub fn take_message(&mut self, message: Message) -> Result<Taken, AllocError>
        // The message is valid.
        requires { ⟦<Message as Shape>⟧.shape.well message }
        // The result is the meaning, by the definition, of every text that has the message's tree.
        ensures means { IfOk result (λ t. IsMeaningOf (waiting_in self.old) (⟦<Message as Shape>⟧.shape.tree_of message) (meaning_of t.received)) }
        // The method is that of the command that is settled, or `None` if no command is.
        ensures method { IfOk result (λ t. IsSettledBy (waiting_in self.old) (meaning_of t.received) t.method) }
        // An answer, a bad result and a refusal settle their command; other messages settle
        // nothing.
        ensures settles { IfOk result (λ t. Stands self.new (sent_by self.old) (settled (waiting_in self.old) (meaning_of t.received))) }
        // The result or the event in the answer is valid.
        ensures well { IfOk result (λ t. IsWell t.received) }
        // After an error, the last id and the pending commands are unchanged.
        ensures err { OnErr result (Stands self.new (sent_by self.old) (waiting_in self.old)) }
    {
        receive(self.alloc, &mut self.pending, message)
    }

    /// Lists the pending commands. Takes memory for the list, of at most 1,024 commands.
    ///
    /// # Errors
    /// No memory: an allocation failed.
    pub fn waiting(&self) -> Result<Vec<(JsUint, Method)>, AllocError>
        // The list has the id and the method of each pending command, in the order in which they
        // were sent or noted.
        ensures { IfOk result (λ all. map (λ w. (w.0.value, w.1)) all.items ≡ waiting_in self.now) }
    {
        waiting_of(self.alloc, &self.pending)
    }

    /// Gives up all pending commands, because the connection is gone.
    ///
    /// Later ids continue after those that were used, and a late reply to a command that was given up is
    /// [`Received::Stray`]. Takes memory for the list of ids, at most 1,024.
    ///
    /// # Errors
    /// No memory: an allocation failed.
    pub fn lose(&mut self) -> Result<Vec<JsUint>, AllocError>
        // The result has the ids of all pending commands, in the order in which they were sent or
        // noted.
        ensures ok { IfOk result (λ lost. map (λ id. id.value) lost.items ≡ ids (waiting_in self.old)) }
        // After an Ok, no command is pending, and the last id is unchanged.
        ensures none_waits { OnOk result (Stands self.new (sent_by self.old) []) }
        // After an error, the last id and the pending commands are unchanged.
        ensures err { OnErr result (Stands self.new (sent_by self.old) (waiting_in self.old)) }
    {
        let lost = ids_of(self.alloc, &self.pending)?;
        self.pending.clear();
        Ok(lost)
    }
}
