//! The local side of one link.
ghost use Rattle.std.specs.Prelude.{◌≡◌, ◌+◌, ◌-◌, ◌<◌, ◌^◌, min, ℕ, suc, [], ◌∷◌, ◌++◌, map, slice_get};
ghost use Rattle.std.specs.Prelude.{slice_set, Some, None, false, OnOk, IfSome, IfNone, string_bytes};
ghost use Rattle.bidi_tree.specs.declared.number.JsUint as declared_number;
ghost use Rattle.bidi_params.specs.declared.error_code.ErrorCode.{ErrorCode};
ghost use Rattle.bidi_methods.specs.declared.event_data.EventData as declared_event;
ghost use Rattle.bidi_methods.specs.declared.result_data.ResultData.{ResultData};
ghost use Rattle.bidi_local.specs.Pending.{ids};
ghost use Rattle.bidi_local.specs.View.{IsWell};
ghost use Rattle.bidi_ledger.specs.declared.ledger.Entry as declared_entry;
ghost use Rattle.bidi_ledger.specs.Link.{Link, entries_from};
ghost use Rattle.bidi_ledger.specs.Pairing.{Sending};
ghost use Rattle.bidi_link.specs.Spoken.{IsSound};
ghost use Rattle.bidi_link.specs.Rows.{Agrees, account_in_hand, IsUpward, blank, sent_on, next_up, with_up, with_texts, with_down, with_cut, waiting_among};
ghost use Rattle.bidi_ledger.specs.Steps.{sending_of, entry_seen, account_seen, FateIsWell, EntriesAreWell, EventsAreWell, AccountIsWell};
ghost use Rattle.bidi_messages.specs.Payloads.{CommandIsWell};

use bidi_ledger::{Account, Entry, Fate};
use bidi_local::{LocalEnd, LocalFault, Received};
use bidi_messages::{CommandData, EventData, Method, Payload};
use bidi_tree::JsUint;
use json::Scratch;
use std::alloc::{AllocError, Global};
use std::collections::VecDeque;

/// A link: its local end, its queued texts, and the fates of its commands so far.
#[derive(Drop)]
pub(crate) struct LinkEnd {
    number: JsUint,
    local: LocalEnd,
    /// The texts queued for the remote end, the oldest first.
    up: VecDeque<String>,
    /// The texts queued for the local end, the oldest first.
    down: VecDeque<String>,
    is_cut: bool,
    /// The commands that were sent; the command with id n is at place n - 1.
    commands: Vec<Entry>,
    events: Vec<EventData>,
    unsent: u64,
}

impl LinkEnd {
    /// Makes a link that has carried nothing. Takes no memory.
    pub(crate) fn new(alloc: Global, number: JsUint) -> LinkEnd
        ensures { Agrees result number.value blank }
    {
        LinkEnd {
            number,
            local: LocalEnd::new(alloc),
            up: VecDeque::new(alloc),
            down: VecDeque::new(alloc),
            is_cut: false,
            commands: Vec::new(alloc),
            events: Vec::new(alloc),
            unsent: 0,
        }
    }

    /// Whether the link was cut. Takes no memory.
    pub(crate) fn is_cut(&self) -> bool
        ensures { result ≡ self.now.is_cut }
    {
        self.is_cut
    }

    /// Sends a command, or counts one that the local end refuses. Does nothing if the link was cut.
    pub(crate) fn send(&mut self, data: CommandData) -> Result<(), AllocError>
        requires { CommandIsWell «data» }
        ensures { (l : ℕ) (v : Link) → Agrees self.old l v → IsSound v → v.not_sent < 2 ^ 63 → OnOk result (Agrees self.new l (sent_on v (sending_of «data»))) }
    {
        if self.is_cut {
            return Ok(());
        }
        let method = data.method();
        match self.local.send(data) {
            Ok((id, text)) => push_up(&mut self.commands, &mut self.up, id, method, text),
            Err(fault) => count(&mut self.unsent, fault),
        }
    }

    /// Removes and returns the oldest text that is queued for the remote end.
    pub(crate) fn next_up(&mut self) -> Option<String>
        ensures none { (l : ℕ) (v : Link) → Agrees self.old l v → IfNone result ((next_up v ≡ None) × Agrees self.new l v) }
        ensures some { (l : ℕ) (v : Link) → Agrees self.old l v
            → IfSome result (λ s. (c : Sending) × (next_up v ≡ Some c) × IsUpward (suc v.ups) c (string_bytes s) × Agrees self.new l (with_up v)) }
    {
        self.up.pop_front()
    }

    /// Queues a text for the local end, unless the link was cut.
    pub(crate) fn push_down(&mut self, text: String) -> Result<(), AllocError>
        ensures { (l : ℕ) (v : Link) → Agrees self.old l v → OnOk result (Agrees self.new l (with_texts v (string_bytes text ∷ []))) }
    {
        if !self.is_cut {
            self.down.push_back(text)?;
        }
        Ok(())
    }

    /// Hands the local end the oldest text that is queued for it, if there is one.
    pub(crate) fn take_down(&mut self, scratch: &mut Scratch) -> Result<(), AllocError>
        ensures { (l : ℕ) (v : Link) → Agrees self.old l v → IsSound v → OnOk result (Agrees self.new l (with_down v)) }
    {
        match self.down.pop_front() {
            Some(text) => {
                let received = self.local.take_with(text.as_str(), scratch)?;
                note(&mut self.commands, &mut self.events, received)
            }
            None => Ok(()),
        }
    }

    /// Cuts the link: the queued texts are gone, and the pending commands are lost.
    pub(crate) fn cut(&mut self) -> Result<(), AllocError>
        ensures { (l : ℕ) (v : Link) → Agrees self.old l v → v.is_cut ≡ false → OnOk result (Agrees self.new l (with_cut v)) }
    {
        let lost = self.local.lose()?;
        lose(&mut self.commands, lost);
        self.up.clear();
        self.down.clear();
        self.is_cut = true;
        Ok(())
    }

    /// Makes the account of the link for the ledger.
    pub(crate) fn into_account(self) -> Account
        ensures account { account_seen result ≡ account_in_hand self }
        ensures well { (l : ℕ) (v : Link) → Agrees self l v → AccountIsWell result }
    {
        Account {
            link: self.number,
            commands: self.commands,
            events: self.events,
            unsent: self.unsent,
        }
    }
}

// Queues the text of a command for the remote end.
fn push_up(
    commands: &mut Vec<Entry>,
    up: &mut VecDeque<String>,
    id: JsUint,
    method: Method,
    text: String,
) -> Result<(), AllocError>
    ensures commands { OnOk result (commands.new.items ≡ commands.old.items ++ record { id = id; method = method; fate = Fate.Waiting } ∷ []) }
    ensures up { OnOk result (up.new.items ≡ up.old.items ++ text ∷ []) }
{
    let fate = Fate::Waiting;
    commands.push(Entry { id, method, fate })?;
    up.push_back(text)?;
    Ok(())
}

// Counts a command that was refused, unless an allocation failed.
fn count(unsent: &mut u64, fault: LocalFault) -> Result<(), AllocError>
    ensures { OnOk result ((fault ≡ LocalFault.NoMemory → ⊥) × (unsent.new ≡ min (unsent.old + 1) (2 ^ 64 - 1))) }
{
    match fault {
        LocalFault::NoMemory => Err(AllocError),
        LocalFault::IdsUsedUp | LocalFault::TooManyPending | LocalFault::TooLong => {
            *unsent = unsent.saturating_add(1);
            Ok(())
        }
    }
}

// Notes what was received. A remote end sends only answers, refusals and events, so no other case
// comes.
fn note(
    commands: &mut Vec<Entry>,
    events: &mut Vec<EventData>,
    received: Received,
) -> Result<(), AllocError>
    ensures answer { (p : ℕ) (e : declared_entry.Entry) (id : declared_number.JsUint) (d : ResultData)
        → received ≡ Received.Answer id d → id.value ≡ suc p → slice_get commands.old.items p ≡ Some e
        → OnOk result ((commands.new.items ≡ slice_set commands.old.items p (record e { fate = Fate.Answered d })) × (events.new.items ≡ events.old.items)) }
    ensures refusal { (p : ℕ) (e : declared_entry.Entry) (id : declared_number.JsUint) (code : ErrorCode)
        → received ≡ Received.Refusal id code → id.value ≡ suc p → slice_get commands.old.items p ≡ Some e
        → OnOk result ((commands.new.items ≡ slice_set commands.old.items p (record e { fate = Fate.Refused code })) × (events.new.items ≡ events.old.items)) }
    ensures event { (d : declared_event.EventData) → received ≡ Received.Event d
        → OnOk result ((commands.new.items ≡ commands.old.items) × (events.new.items ≡ events.old.items ++ d ∷ [])) }
    ensures well { IsWell received → EntriesAreWell commands.old.items
        → EventsAreWell events.old.items → OnOk result (EntriesAreWell commands.new.items × EventsAreWell events.new.items) }
{
    match received {
        Received::Answer(id, result) => {
            settle(commands, id, Fate::Answered(result));
            Ok(())
        }
        Received::Refusal(id, code) => {
            settle(commands, id, Fate::Refused(code));
            Ok(())
        }
        Received::Event(event) => {
            events.push(event)?;
            Ok(())
        }
        _ => Ok(()),
    }
}

// Notes that these commands are lost.
fn lose(commands: &mut Vec<Entry>, lost: Vec<JsUint>)
    ensures entries { (v : Link) → v.is_cut ≡ false → map entry_seen commands.old.items ≡ entries_from 1 v v.commands
        → map (λ id. id.value) lost.items ≡ ids (waiting_among commands.old.items)
        → map entry_seen commands.new.items ≡ entries_from 1 (with_cut v) v.commands }
    ensures well { EntriesAreWell commands.old.items → EntriesAreWell commands.new.items }
{
    for id in lost {
        settle(commands, id, Fate::Lost);
    }
}

// Notes the fate of a command.
fn settle(commands: &mut Vec<Entry>, id: JsUint, fate: Fate)
    ensures set { (p : ℕ) (e : declared_entry.Entry) → id.value ≡ suc p
        → slice_get commands.old.items p ≡ Some e → commands.new.items ≡ slice_set commands.old.items p (record e { fate = fate }) }
    ensures well { FateIsWell fate → EntriesAreWell commands.old.items → EntriesAreWell commands.new.items }
{
    let Some(place) = id.value.checked_sub(1) else {
        return;
    };
    if let Some(entry) = commands.get_mut(place as usize) {
        entry.fate = fate;
    }
}
