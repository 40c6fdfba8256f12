//! Both ends: the local ends of all links, and the remote end.
ghost use Rattle.std.specs.Prelude.{◌≡◌, ◌≤◌, ℕ, true, false, List, [], ◌∷◌, map, length, string_bytes, IfOk, OnOk, IfSome, IfNone, IsErrOf};
ghost use Rattle.bidi_messages.specs.Verdict.{Accepted};
ghost use Rattle.bidi_remote.specs.Machine.History.{Input, IsHeardAs as IsHeardByRemote};
ghost use Rattle.bidi_remote.specs.Machine.Outcome.{deeds};
ghost use Rattle.bidi_remote.specs.Replies.{IsAnsweredOnce};
ghost use Rattle.bidi_remote.specs.Machine.Sent.{out};
ghost use Rattle.bidi_remote.specs.Machine.Messages.{AllReadBack};
ghost use Rattle.bidi_sessions.specs.View.{step_of};
ghost use Rattle.bidi_ledger.specs.Ledger.{PairInput, Opens, Sends, Up, Down, Cuts, with_step, is_whole, dropped};
ghost use Rattle.bidi_ledger.specs.Link.{link, account};
ghost use Rattle.bidi_ledger.specs.Pairing.{Sending, Deed, Handed, Linked, TakenUp, Cut, history, links, is_link};
ghost use Rattle.bidi_link.specs.Rows.{blank};
ghost use Rattle.bidi_ledger.specs.Steps.{IsHeardAs, IsWell, LedgerIsWell, accounts_of, sending_of};
ghost use Rattle.bidi_messages.specs.Payloads.{CommandIsWell};

use crate::link_end::LinkEnd;
use crate::links::deliver;
use bidi_ledger::{Ledger, PairStep};
use bidi_messages::{CommandData, Method, Payload};
use bidi_remote::{RemoteEnd, RemoteFault, Step};
use bidi_tree::JsUint;
use indexmap::IndexMap;
use json::Scratch;
use std::alloc::{AllocError, Global};

/// The links by number, in the order of opening, and the remote end.
#[derive(Drop)]
pub(crate) struct Ends {
    alloc: Global,
    remote: RemoteEnd,
    links: IndexMap<u64, LinkEnd>,
}

impl Ends {
    ghost use Rattle.bidi_link.specs.Stands.{StandsFor, IsSane, Both, CanCount, IsNextUp};

    /// Makes the state before the first step: no links, and a new remote end.
    pub(crate) fn new(alloc: Global) -> Result<Ends, AllocError>
        ensures { IfOk result (λ ends. StandsFor ends []) }
    {
        Ok(Ends {
            alloc,
            remote: RemoteEnd::new(alloc)?,
            links: IndexMap::new(alloc),
        })
    }

    /// Takes one step. A text that is taken down is read in a scratch that the caller keeps from step to
    /// step.
    pub(crate) fn take(&mut self, step: PairStep, scratch: &mut Scratch) -> Result<(), RemoteFault>
        requires { IsWell step }
        ensures ok { IfOk result (λ _. (p : PairInput) × IsHeardAs step p
            × ((past : List Deed) → StandsFor self.old past → IsSane past → CanCount past → Both self.new (with_step past p))) }
        ensures worn_out { (past : List Deed) → StandsFor self.old past → IsErrOf result RemoteFault.WornOut → 1000000000 ≤ length (history past) }
    {
        match step {
            PairStep::Open(link, resource) => self.open(link, resource),
            PairStep::Send(link, command) => Ok(self.send(link, command)?),
            PairStep::Up(link) => self.carry_up(link),
            PairStep::Down(link) => Ok(self.carry_down(link, scratch)?),
            PairStep::Cut(link) => self.cut(link),
            PairStep::At(moment) => self.hand(Step::At(moment)),
            PairStep::Page(page) => self.hand(Step::Page(page)),
        }
    }

    // Gives a step to the remote end, and queues each text that it sends.
    fn hand(&mut self, step: Step) -> Result<(), RemoteFault>
        ensures ok { IfOk result (λ _. (i : Input) × IsHeardByRemote (step_of step) i × ((past : List Deed) → StandsFor self.old past
            → StandsFor self.new (Handed i ∷ past) × IsAnsweredOnce (deeds (history past)) i × AllReadBack (out (history past) i))) }
        ensures worn_out { (past : List Deed) → StandsFor self.old past → IsErrOf result RemoteFault.WornOut → 1000000000 ≤ length (history past) }
    {
        let all = self.remote.step(step)?;
        deliver(&mut self.links, all)?;
        Ok(())
    }

    // Opens a link, if no link has had this number and the remote end opens its connection.
    fn open(&mut self, number: JsUint, resource: String) -> Result<(), RemoteFault>
        ensures ok { (past : List Deed) → StandsFor self.old past → IsSane past
            → OnOk result (Both self.new (with_step past (Opens number.value (string_bytes resource)))) }
        ensures worn_out { (past : List Deed) → StandsFor self.old past → IsErrOf result RemoteFault.WornOut → 1000000000 ≤ length (history past) }
    {
        if self.links.contains_key(&number.value) {
            return Ok(());
        }
        self.hand(Step::Open(number, resource))?;
        if self.remote.is_open(number) {
            self.add(number)?;
        }
        Ok(())
    }

    // Adds a link that has carried nothing.
    fn add(&mut self, number: JsUint) -> Result<(), AllocError>
        ensures rows { (past : List Deed) → StandsFor self.old past → is_link past number.value ≡ false → link past number.value ≡ blank
            → OnOk result (StandsFor self.new (Linked number.value ∷ past)) }
    {
        match self
            .links
            .insert(number.value, LinkEnd::new(self.alloc, number))
        {
            Ok(_) => Ok(()),
            Err(_) => Err(AllocError),
        }
    }

    // Sends a command on a link.
    fn send(&mut self, number: JsUint, command: CommandData) -> Result<(), AllocError>
        requires { CommandIsWell command }
        ensures { (past : List Deed) → StandsFor self.old past → IsSane past → CanCount past
            → OnOk result (Both self.new (with_step past (Sends number.value (sending_of command)))) }
    {
        match self.links.get_mut(&number.value) {
            Some(end) => end.send(command),
            None => Ok(()),
        }
    }

    // Carries the oldest queued text of a link up to the remote end.
    fn carry_up(&mut self, number: JsUint) -> Result<(), RemoteFault>
        ensures ok { (past : List Deed) → StandsFor self.old past → IsSane past
            → OnOk result (Both self.new (with_step past (Up number.value))) }
        ensures worn_out { (past : List Deed) → StandsFor self.old past → IsErrOf result RemoteFault.WornOut → 1000000000 ≤ length (history past) }
    {
        match self.next_up(number) {
            Some(text) => self.hand(Step::Text(number, text)),
            None => Ok(()),
        }
    }

    // Removes and returns the oldest text of a link that is queued for the remote end.
    fn next_up(&mut self, number: JsUint) -> Option<String>
        ensures none { (past : List Deed) → StandsFor self.old past → IfNone result ((with_step past (Up number.value) ≡ past) × StandsFor self.new past) }
        ensures some { (past : List Deed) → StandsFor self.old past
            → IfSome result (λ s. (c : Sending) × IsNextUp past number.value c (string_bytes s) × StandsFor self.new (TakenUp number.value ∷ past)) }
    {
        match self.links.get_mut(&number.value) {
            Some(end) => end.next_up(),
            None => None,
        }
    }

    // Carries the oldest queued text of a link down to its local end.
    fn carry_down(&mut self, number: JsUint, scratch: &mut Scratch) -> Result<(), AllocError>
        ensures { (past : List Deed) → StandsFor self.old past → IsSane past → OnOk result (Both self.new (with_step past (Down number.value))) }
    {
        match self.links.get_mut(&number.value) {
            Some(end) => end.take_down(scratch),
            None => Ok(()),
        }
    }

    // Cuts a link that was not cut yet. Its connection is dropped, if it is open.
    fn cut(&mut self, number: JsUint) -> Result<(), RemoteFault>
        ensures ok { (past : List Deed) → StandsFor self.old past → IsSane past → OnOk result (Both self.new (with_step past (Cuts number.value))) }
        ensures worn_out { (past : List Deed) → StandsFor self.old past → IsErrOf result RemoteFault.WornOut → 1000000000 ≤ length (history past) }
    {
        if !self.is_whole(number) {
            return Ok(());
        }
        self.drop_connection(number)?;
        self.end_link(number)?;
        Ok(())
    }

    // Drops the connection of a link, if it is open.
    fn drop_connection(&mut self, number: JsUint) -> Result<(), RemoteFault>
        ensures ok { (past : List Deed) → StandsFor self.old past → IsSane past → OnOk result (Both self.new (dropped past number.value)) }
        ensures worn_out { (past : List Deed) → StandsFor self.old past → IsErrOf result RemoteFault.WornOut → 1000000000 ≤ length (history past) }
    {
        if self.remote.is_open(number) {
            self.hand(Step::Drop(number))
        } else {
            Ok(())
        }
    }

    // Whether there is a link of this number that was not cut.
    fn is_whole(&self, number: JsUint) -> bool
        ensures { (past : List Deed) → StandsFor self.now past → result ≡ is_whole past number.value }
    {
        match self.links.get(&number.value) {
            Some(end) => !end.is_cut(),
            None => false,
        }
    }

    // Cuts the local side of a link.
    fn end_link(&mut self, number: JsUint) -> Result<(), AllocError>
        ensures { (past : List Deed) → StandsFor self.old past
            → is_whole past number.value ≡ true → OnOk result (StandsFor self.new (Cut number.value ∷ past)) }
    {
        match self.links.get_mut(&number.value) {
            Some(end) => end.cut(),
            None => Ok(()),
        }
    }

    /// Makes the ledger of all links.
    pub(crate) fn into_ledger(self) -> Result<Ledger, AllocError>
        ensures accounts { (past : List Deed) → StandsFor self past → IfOk result (λ ledger. accounts_of ledger ≡ map (λ l. account l (link past l)) (links past)) }
        ensures well { (past : List Deed) → StandsFor self past → IfOk result LedgerIsWell }
    {
        let mut accounts = Vec::new(self.alloc);
        for link in self.links.into_values() {
            accounts.push(link.into_account())?;
        }
        Ok(Ledger { accounts })
    }
}
