//! The request of a connection, and the answer.
ghost use Rattle.std.specs.Prelude.{◌≡◌, ◌≢◌, ◌⊎◌, ◌++◌, IfOk, IfSome, OnErr, OnOk};
ghost use Rattle.bidi_requests.specs.Answering.{answer_bytes, reply_bytes};
ghost use Rattle.bidi_peer.specs.Ends.{IsDry};
ghost use Rattle.bidi_peer.specs.Hearing.{IsHeard, Receives};
ghost use Rattle.bidi_peer.specs.Messages.{IsFresh};
ghost use Rattle.bidi_requests.specs.Requests.{IsAskedBy, IsUnfinished};
ghost use Rattle.bidi_peer.specs.Sending.{IsFlushed};
ghost use Rattle.bidi_peer.specs.Waiting.{Writes, untaken, unwritten};
ghost use Rattle.bidi_requests.specs.declared.answering.Answer.TheVariants.{Refused};
ghost use Rattle.bidi_peer.specs.Telling.{HasEnded, HasFailed, IsAsked, IsCalled, IsTimely, MayTell, SameKnown, StaysKnown, StaysUnlessFailed, TellsOnce};
ghost use Rattle.bidi_peer.specs.declared.peer.Came.TheVariants.{Nothing};
ghost use Rattle.bidi_peer.specs.declared.standing.End.TheVariants.{Ahead, Known};
ghost use Rattle.bidi_peer.specs.declared.standing.State.TheVariants.{Leaving, Open};

use super::peer::Came;
use super::standing::{End, Peer, State};
use super::stream::Stream;
use bidi_requests::{Answer, Asked, ReplyStatus, RequestRefusal, asked_by, is_to_judge};
use std::alloc::AllocError;
use websocket::handshake::server::write_response;

impl<S: Stream> Peer<S> {
    /// Reads until a request is whole, or its head if it asks for a WebSocket.
    #[tactic(auto, using(crate::proofs::HearingLemmas::heard_then, crate::proofs::HearingLemmas::receives_then, crate::proofs::HearingLemmas::receives_nothing))]
    pub(crate) fn read_request(&mut self) -> Result<Came, AllocError>
        requires reads { HasEnded self.old.state → ⊥ }
        requires ahead { self.old.end ≡ Ahead }
        ensures stays_known { StaysKnown self.old.end self.new.end }
        ensures tells_once { IfOk result (TellsOnce self.old.end self.new.end) }
        ensures told { OnOk result (HasEnded self.new.state → self.new.end ≡ Known) }
        ensures timely { IfOk result (IsTimely self.new.state) }
        ensures heard { self.old.end ≡ Ahead → IfOk result (IsHeard S.remaining S.contents self.old self.new) }
        ensures dry { IfOk result (IsDry S.reads self.new) }
        ensures bound { self.new.most_waiting ≡ self.old.most_waiting }
    {
        for _ in 0..usize::MAX {
            let known = self.inbox.waiting().len();
            if let Some(came) = self.read_on()? {
                return Ok(came);
            }
            if is_to_judge(self.inbox.waiting(), known, self.least) {
                let asked = asked_by(self.alloc, self.inbox.waiting())?;
                if let Some(came) = self.hear(asked)? {
                    return Ok(came);
                }
            }
        }
        // No memory holds what so many reads give.
        Err(AllocError)
    }

    // What a request comes to, or nothing where more of it has to be read.
    #[tactic(auto, using(crate::proofs::HearingLemmas::answer_heard, crate::proofs::HearingLemmas::owed_unknown, crate::proofs::DryLemmas::left_dry))]
    fn hear(&mut self, asked: Asked) -> Result<Option<Came>, AllocError>
        requires reads { HasEnded self.old.state → ⊥ }
        requires ahead { self.old.end ≡ Ahead }
        requires asks { IsAskedBy (untaken self.old.inbox) asked }
        ensures stays_known { StaysKnown self.old.end self.new.end }
        ensures tells_once { IfOk result (MayTell self.old.end self.new.end) }
        ensures told { IfOk result (λ came. IfSome came (λ _. HasEnded self.new.state → self.new.end ≡ Known)) }
        ensures timely { IfOk result (λ came. IfSome came (IsTimely self.new.state)) }
        ensures heard { self.old.end ≡ Ahead → IfOk result (λ came. IfSome came (IsHeard S.remaining S.contents self.old self.new)) }
        ensures part { IfOk result (λ came. came ≡ None → Receives S.remaining self.old self.new) }
        ensures dry { IfOk result (λ came. IfSome came (IsDry S.reads self.new)) }
        ensures speaks { self.old.end ≡ Ahead → IfOk result (λ came. came ≢ Some Nothing) }
        ensures unfinished { IfOk result (λ came. came ≡ None → IsUnfinished self.new.least (untaken self.new.inbox)) }
        ensures bound { self.new.most_waiting ≡ self.old.most_waiting }
    {
        match asked {
            Asked::Part => {
                self.least = 0;
                Ok(None)
            }
            Asked::Body(least) => {
                self.least = least;
                Ok(None)
            }
            Asked::Socket {
                resource,
                accept,
                length,
            } => {
                self.inbox.take(length);
                self.state = State::Asked(accept);
                Ok(Some(Came::Asks(resource)))
            }
            Asked::Call { call, length } => {
                self.inbox.take(length);
                self.state = State::Called;
                Ok(Some(Came::Calls(call)))
            }
            Asked::Other(answer) => {
                self.answer(answer)?;
                Ok(Some(self.tell_end()))
            }
        }
    }

    // Puts an answer behind what waits, and leaves.
    fn answer(&mut self, answer: Answer) -> Result<(), AllocError>
        requires { HasEnded self.old.state → ⊥ }
        ensures known { SameKnown self.old.end self.new.end }
        ensures ok { OnOk result (StaysUnlessFailed Leaving self.new.state) }
        ensures err { OnErr result (self.new.state ≡ self.old.state) }
        ensures flushed { OnOk result (IsFlushed S.writes self.new) }
        ensures writes { OnOk result (HasFailed self.new.state ⊎ Writes S.contents (unwritten self.old.outbox ++ answer_bytes answer) (unwritten self.new.outbox) self.old.stream self.new.stream) }
        ensures bound { self.new.most_waiting ≡ self.old.most_waiting }
    {
        let text = answer.text(self.alloc)?;
        self.leave_with(text.as_str())
    }

    // Puts the text of an answer behind what waits, and leaves.
    fn leave_with(&mut self, text: &str) -> Result<(), AllocError>
        requires { HasEnded self.old.state → ⊥ }
        ensures known { SameKnown self.old.end self.new.end }
        ensures ok { OnOk result (StaysUnlessFailed Leaving self.new.state) }
        ensures err { OnErr result (self.new.state ≡ self.old.state) }
        ensures flushed { OnOk result (IsFlushed S.writes self.new) }
        ensures writes { OnOk result (HasFailed self.new.state ⊎ Writes S.contents (unwritten self.old.outbox ++ text.now) (unwritten self.new.outbox) self.old.stream self.new.stream) }
        ensures bound { self.new.most_waiting ≡ self.old.most_waiting }
    {
        self.outbox.put(text.as_bytes())?;
        self.leave();
        self.flush();
        Ok(())
    }

    /// Opens a connection whose request was told by [`Came::Asks`]: answers 101, and from now on takes and sends
    /// messages; take again then, since what came behind the request was not looked at. Does nothing at any other
    /// time.
    ///
    /// # Errors
    /// No memory: an allocation failed, and nothing has changed.
    pub fn open(&mut self) -> Result<(), AllocError>
        // The call does not report the end.
        ensures known { SameKnown self.old.end self.new.end }
        // If no request waits for an answer, nothing changes.
        ensures else_same { (IsAsked self.old.state → ⊥) → self.new ≡ self.old }
        // If a request waited, the connection is now open, unless its stream failed.
        ensures ok { IsAsked self.old.state → OnOk result (StaysUnlessFailed Open self.new.state) }
        // What waits is written as far as the stream takes it.
        ensures flushed { IsAsked self.old.state → OnOk result (IsFlushed S.writes self.new) }
        // An open connection starts with a fresh protocol and with the bytes that came after the request.
        ensures begins { IsAsked self.old.state → OnOk result (self.new.state ≡ Open → IsFresh self.new.context × (untaken self.new.inbox ≡ untaken self.old.inbox)) }
        // After an error the state is unchanged.
        ensures err { OnErr result (self.new.state ≡ self.old.state) }
        // The bound of what waits to be written is the same.
        ensures bound { self.new.most_waiting ≡ self.old.most_waiting }
    {
        let State::Asked(accept) = self.state else {
            return Ok(());
        };
        if write_response(&accept, &[], &mut self.outbox.second).is_err() {
            return Err(AllocError);
        }
        self.renew();
        self.state = State::Open;
        self.flush();
        Ok(())
    }

    /// Refuses a connection whose request was told by [`Came::Asks`], by an HTTP answer; [`Came::Ended`] is not told.
    /// Does nothing at any other time.
    ///
    /// # Errors
    /// No memory: an allocation failed, and nothing has changed.
    pub fn refuse(&mut self, refusal: RequestRefusal) -> Result<(), AllocError>
        // If the caller already knew of the end, it still does.
        ensures stays_known { StaysKnown self.old.end self.new.end }
        // If no request waits for an answer, nothing changes.
        ensures else_same { (IsAsked self.old.state → ⊥) → self.new ≡ self.old }
        // If a request waited, nothing more is read, and the caller knows the end.
        ensures ok { IsAsked self.old.state → OnOk result (StaysUnlessFailed Leaving self.new.state × (self.new.end ≡ Known)) }
        // After an error the state is unchanged.
        ensures err { OnErr result (self.new.state ≡ self.old.state) }
        // What waits is written as far as the stream takes it.
        ensures flushed { IsAsked self.old.state → OnOk result (IsFlushed S.writes self.new) }
        // The bytes of the answer follow what waited to be written, unless the stream failed.
        ensures answers { IsAsked self.old.state → OnOk result (HasFailed self.new.state ⊎ Writes S.contents (unwritten self.old.outbox ++ answer_bytes (Refused refusal)) (unwritten self.new.outbox) self.old.stream self.new.stream) }
        // The bound of what waits to be written is the same.
        ensures bound { self.new.most_waiting ≡ self.old.most_waiting }
    {
        let State::Asked(_) = self.state else {
            return Ok(());
        };
        self.answer(Answer::Refused(refusal))?;
        self.end = End::Known;
        Ok(())
    }

    /// Replies to a call that was told by [`Came::Calls`], by a JSON text: the connection then ends, and [`Came::Ended`]
    /// is not told. Does nothing at any other time.
    ///
    /// # Errors
    /// No memory: an allocation failed, and nothing has changed.
    pub fn reply(&mut self, status: ReplyStatus, json: &str) -> Result<(), AllocError>
        // If the caller already knew of the end, it still does.
        ensures stays_known { StaysKnown self.old.end self.new.end }
        // If no call waits for a reply, nothing changes.
        ensures else_same { (IsCalled self.old.state → ⊥) → self.new ≡ self.old }
        // If a call waited, nothing more is read, and the caller knows the end.
        ensures ok { IsCalled self.old.state → OnOk result (StaysUnlessFailed Leaving self.new.state × (self.new.end ≡ Known)) }
        // After an error the state is unchanged.
        ensures err { OnErr result (self.new.state ≡ self.old.state) }
        // What waits is written as far as the stream takes it.
        ensures flushed { IsCalled self.old.state → OnOk result (IsFlushed S.writes self.new) }
        // The bytes of the reply follow what waited to be written, unless the stream failed.
        ensures answers { IsCalled self.old.state → OnOk result (HasFailed self.new.state ⊎ Writes S.contents (unwritten self.old.outbox ++ reply_bytes status json.now) (unwritten self.new.outbox) self.old.stream self.new.stream) }
        // The bound of what waits to be written is the same.
        ensures bound { self.new.most_waiting ≡ self.old.most_waiting }
    {
        let State::Called = self.state else {
            return Ok(());
        };
        let text = status.text(self.alloc, json)?;
        self.leave_with(text.as_str())?;
        self.end = End::Known;
        Ok(())
    }
}
