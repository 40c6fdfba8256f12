//! What a connection takes of the bytes that come: frames, and the messages in them.
ghost use Rattle.std.specs.Prelude.{◌≡◌, ◌≢◌, ◌<◌, ◌⊎◌, [], length, false, true, IfOk, IfSome, Ok, OnOk};
ghost use Rattle.websocket.specs.Connection.{can_read, read_step};
ghost use Rattle.bidi_peer.specs.Ends.{IsClosing, IsDry, IsWordless};
ghost use Rattle.bidi_peer.specs.Hearing.{IsHeard, Receives};
ghost use Rattle.bidi_peer.specs.Messages.{IsTold};
ghost use Rattle.bidi_peer.specs.Taking.{HasTaken, IsLast, IsPassed, IsReceived, IsTakenFor, IsWaited};
ghost use Rattle.bidi_peer.specs.Telling.{HasEnded, IsTimely, MayTell, StaysKnown, TellsOnce};
ghost use Rattle.bidi_peer.specs.Waiting.{untaken, unwritten};
ghost use Rattle.bidi_peer.specs.declared.framing.Frame.TheVariants.{Part};
ghost use Rattle.bidi_peer.specs.declared.peer.Came.TheVariants.{Ended};
ghost use Rattle.bidi_peer.specs.declared.standing.End.TheVariants.{Ahead, Known};
ghost use Rattle.bidi_peer.specs.declared.standing.State.TheVariants.{Closing, Open};

use super::framing::{Fault, Frame, read_frame};
use super::inbox::Filled;
use super::peer::Came;
use super::standing::{End, Peer, State};
use super::stream::Stream;
use std::alloc::AllocError;

/// How many reads and frames one take is at most.
const MOST_STEPS: u32 = 1024;

impl<S: Stream> Peer<S> {
    /// Takes frames until one is for the caller, or there is none for now, or others should have their turn.
    pub(crate) fn read_messages(&mut self) -> Result<Came, AllocError>
        ensures stays_known { StaysKnown self.old.end self.new.end }
        ensures tells_once { IfOk result (TellsOnce self.old.end self.new.end) }
        ensures told { OnOk result (HasEnded self.new.state → self.new.end ≡ Known) }
        ensures timely { IfOk result (IsTimely self.new.state) }
        ensures messages { self.old.state ≡ Open → self.old.end ≢ Known → IfOk result (IsTold S.remaining S.contents self.old self.new) }
        ensures closing { self.old.state ≡ Closing → self.old.end ≢ Known → IfOk result (IsClosing S.remaining S.contents self.old self.new) }
        ensures wordless { self.old.state ≢ Open → IfOk result IsWordless }
        ensures dry { IfOk result (IsDry S.reads self.new) }
        ensures bound { self.new.most_waiting ≡ self.old.most_waiting }
    {
        for _ in 0..MOST_STEPS {
            if self.has_ended() {
                break;
            }
            let frame = self.next_frame()?;
            if let Some(came) = self.receive(frame)? {
                return Ok(came);
            }
        }
        Ok(self.or_end(Came::More))
    }

    // Takes the next frame. Where the peer broke the protocol there are none any more. A connection whose protocol sends
    // nothing more is not open.
    fn next_frame(&mut self) -> Result<Frame, AllocError>
        requires { HasEnded self.old.state → ⊥ }
        ensures end { self.new.end ≡ self.old.end }
        ensures reads { HasEnded self.new.state → ⊥ }
        ensures shows { can_read self.old.context.state ≡ true → IfOk result (IsTakenFor (read_step self.old.context (untaken self.old.inbox))) }
        ensures takes { can_read self.old.context.state ≡ true → OnOk result (HasTaken (read_step self.old.context (untaken self.old.inbox)) self.old.context (untaken self.old.inbox) (unwritten self.old.outbox) self.new.context (untaken self.new.inbox) (unwritten self.new.outbox)) }
        ensures deaf { can_read self.old.context.state ≡ false → IfOk result (λ frame. (frame ≡ Part) × (self.new.context ≡ self.old.context) × (untaken self.new.inbox ≡ [])) }
        ensures shut { self.old.state ≢ Open → self.new.state ≡ self.old.state }
        ensures stays { self.old.state ≡ Open → IfOk result (λ frame. IsLast frame ⊎ (self.new.state ≡ Open)) }
        ensures stream { self.new.stream ≡ self.old.stream }
        ensures bound { self.new.most_waiting ≡ self.old.most_waiting }
    {
        if !self.context.can_read() {
            self.inbox.clear();
            return Ok(Frame::Part);
        }
        let frame = read_frame(
            self.alloc,
            &mut self.context,
            &mut self.fragments,
            &mut self.inbox,
            &mut self.outbox.second,
        )?;
        if matches!(self.state, State::Open) && !self.context.can_write() {
            self.state = State::Closing;
        }
        Ok(frame)
    }

    // What a frame comes to, or nothing where a further one has to be taken.
    #[tactic(auto, using(crate::proofs::DryLemmas::left_then_dry))]
    fn receive(&mut self, frame: Frame) -> Result<Option<Came>, AllocError>
        requires { HasEnded self.old.state → ⊥ }
        ensures stays_known { StaysKnown self.old.end self.new.end }
        ensures tells_once { IfOk result (MayTell self.old.end self.new.end) }
        ensures told { IfOk result (λ came. IfSome came (λ _. HasEnded self.new.state → self.new.end ≡ Known)) }
        ensures timely { IfOk result (λ came. IfSome came (IsTimely self.new.state)) }
        ensures wordless { self.old.state ≢ Open → IfOk result (λ came. IfSome came IsWordless) }
        ensures shut { self.old.state ≢ Open → IfOk result (λ came. came ≡ None → self.new.state ≢ Open) }
        ensures passes { self.old.state ≡ Closing → self.old.end ≢ Known → IfOk result (IsPassed S.remaining S.contents frame self.old self.new) }
        ensures dry { IfOk result (λ came. IfSome came (IsDry S.reads self.new)) }
        ensures received { IsLast frame ⊎ (self.old.state ≡ Open) → self.old.end ≢ Known → IfOk result (IsReceived S.remaining S.contents frame self.old self.new) }
        ensures bound { self.new.most_waiting ≡ self.old.most_waiting }
    {
        match frame {
            Frame::Part => self.read_on(),
            Frame::Control | Frame::Fragment(_) => {
                self.flush();
                self.bound()
            }
            Frame::Text(text) if self.is_open() => Ok(Some(Came::Text(text))),
            Frame::NotText if self.is_open() => Ok(Some(Came::NotText)),
            Frame::Text(_) | Frame::NotText => Ok(None),
            Frame::Close => {
                self.leave();
                self.flush();
                Ok(Some(self.tell_end()))
            }
            Frame::Bad(fault) => self.fail(fault),
        }
    }

    // Fails a connection whose answers to pings would pass the bound.
    fn bound(&mut self) -> Result<Option<Came>, AllocError>
        ensures stays_known { StaysKnown self.old.end self.new.end }
        ensures tells_once { IfOk result (MayTell self.old.end self.new.end) }
        ensures told { IfOk result (λ came. IfSome came (λ _. HasEnded self.new.state → self.new.end ≡ Known)) }
        ensures timely { IfOk result (λ came. IfSome came (IsTimely self.new.state)) }
        ensures goes_on { self.old.end ≢ Known → IfOk result (λ came. came ≡ None → self.new ≡ self.old) }
        ensures wordless { IfOk result (λ came. IfSome came IsWordless) }
        ensures dry { IfOk result (λ came. IfSome came (IsDry S.reads self.new)) }
        ensures rests { self.old.state ≢ Open → (result ≡ Ok None) × (self.new ≡ self.old) }
        ensures slow { self.old.end ≢ Known → IfOk result (λ came. IfSome came (λ told. (told ≡ Ended) × (self.old.state ≡ Open) × (self.old.most_waiting < length (unwritten self.old.outbox)))) }
        ensures bound { self.new.most_waiting ≡ self.old.most_waiting }
    {
        if self.is_open() && self.outbox.len() > self.most_waiting {
            self.fail(Fault::Slow)
        } else {
            Ok(None)
        }
    }

    // Sends a close frame for a fault, and tells the end if the caller does not know it.
    #[tactic(auto, using(crate::proofs::DryLemmas::ended_dry))]
    fn fail(&mut self, fault: Fault) -> Result<Option<Came>, AllocError>
        requires { HasEnded self.old.state → ⊥ }
        ensures stays_known { StaysKnown self.old.end self.new.end }
        ensures tells_once { IfOk result (MayTell self.old.end self.new.end) }
        ensures told { IfOk result (λ came. IfSome came (λ _. HasEnded self.new.state → self.new.end ≡ Known)) }
        ensures timely { IfOk result (λ came. IfSome came (IsTimely self.new.state)) }
        ensures ended { self.old.end ≢ Known → IfOk result (λ came. came ≡ Some Ended) }
        ensures wordless { IfOk result (λ came. IfSome came IsWordless) }
        ensures dry { IfOk result (λ came. IfSome came (IsDry S.reads self.new)) }
        ensures shut { OnOk result (self.new.state ≢ Open) }
        ensures bound { self.new.most_waiting ≡ self.old.most_waiting }
    {
        self.put_close(fault.code(), fault.reason())?;
        self.flush();
        if self.end == End::Known {
            return Ok(None);
        }
        Ok(Some(self.tell_end()))
    }

    /// Reads the stream once. Nothing where bytes came.
    #[tactic(auto, using(crate::proofs::HearingLemmas::ended_heard, crate::proofs::HearingLemmas::failed_heard, crate::proofs::HearingLemmas::nothing_heard, crate::proofs::HearingLemmas::owed_unknown, crate::proofs::DryLemmas::resting_dry))]
    pub(crate) fn read_on(&mut self) -> Result<Option<Came>, AllocError>
        requires { HasEnded self.old.state → ⊥ }
        ensures waits { IfOk result (λ came. came ≡ None → self.new.state ≡ self.old.state) }
        ensures least { IfOk result (λ came. came ≡ None → self.new.least ≡ self.old.least) }
        ensures stays_known { StaysKnown self.old.end self.new.end }
        ensures tells_once { IfOk result (MayTell self.old.end self.new.end) }
        ensures told { IfOk result (λ came. IfSome came (λ _. HasEnded self.new.state → self.new.end ≡ Known)) }
        ensures timely { IfOk result (λ came. IfSome came (IsTimely self.new.state)) }
        ensures heard { self.old.end ≡ Ahead → IfOk result (λ came. IfSome came (IsHeard S.remaining S.contents self.old self.new)) }
        ensures receives { IfOk result (λ came. came ≡ None → Receives S.remaining self.old self.new) }
        ensures wordless { IfOk result (λ came. IfSome came IsWordless) }
        ensures dry { IfOk result (λ came. IfSome came (IsDry S.reads self.new)) }
        ensures waited { self.old.end ≢ Known → IfOk result (λ came. IfSome came (IsWaited S.remaining self.old self.new)) }
        ensures bound { self.new.most_waiting ≡ self.old.most_waiting }
    {
        match self.inbox.fill(&mut self.stream)? {
            Filled::Some => Ok(None),
            Filled::Nothing => Ok(Some(Came::Nothing)),
            Filled::Ended => {
                self.leave();
                Ok(Some(self.tell_end()))
            }
            Filled::Failed(failure) => {
                self.lose(failure);
                Ok(Some(self.tell_end()))
            }
        }
    }
}
