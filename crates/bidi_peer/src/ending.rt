//! How a connection ends, and how its end is told.
ghost use Rattle.std.specs.Prelude.{◌≡◌, ◌≢◌, ◌≤◌, ◌<◌, ◌+◌, ◌-◌, ◌^◌, ◌↔◌, ◌++◌, [], length, min, IsTrue, OnErr, OnOk};
ghost use Rattle.bidi_peer.specs.Ends.{IsDry, IsWordless, LearnsEnd};
ghost use Rattle.bidi_peer.specs.Messages.{IsFresh};
ghost use Rattle.bidi_peer.specs.Telling.{HasEnded, IsCut, IsInHandshake, IsQuiet, IsTimely, IsUnclosed, SameKnown, StaysKnown, StaysUnlessFailed, TellsOnce, owed};
ghost use Rattle.bidi_peer.specs.Waiting.{untaken, unwritten};
ghost use Rattle.bidi_peer.specs.Closing.{closing_code, code_of, reason_of};
ghost use Rattle.bidi_peer.specs.Sending.{IsFlushed, KeepsWhatCame, SendsClose, close_frame};
ghost use Rattle.bidi_peer.specs.declared.framing.Fault.TheVariants.{Crowded};
ghost use Rattle.bidi_peer.specs.declared.peer.Came.TheVariants.{Ended, Nothing};
ghost use Rattle.bidi_peer.specs.declared.standing.End.TheVariants.{Due, Known};
ghost use Rattle.bidi_peer.specs.declared.standing.State.TheVariants.{Closing, Done, Failed, Leaving, Open};

use super::framing::{Fault, write_close};
use super::peer::{Came, ClosingCause, new_context};
use super::standing::{End, Peer, State};
use super::stream::{Failure, Stream};
use std::alloc::AllocError;
use websocket::protocol::CloseCode;

impl<S: Stream> Peer<S> {
    /// Closes the connection by a close frame with an empty reason, behind what waits. What the peer sends before its
    /// own close frame is not told; a take that finds that frame, or the end of the stream, gives `Ended`. In the
    /// handshake the connection is over at once, and `Ended` is not told. Does nothing where it is closed already.
    ///
    /// # Errors
    /// No memory: an allocation failed, and nothing has changed.
    pub fn close(&mut self, cause: ClosingCause) -> Result<(), AllocError>
        // If the caller already knew of the end, it still does.
        ensures stays_known { StaysKnown self.old.end self.new.end }
        // The connection is no longer open.
        ensures ok { OnOk result (self.new.state ≢ Open) }
        // An open connection is now closing, unless its stream failed.
        ensures closes { self.old.state ≡ Open → OnOk result (StaysUnlessFailed Closing self.new.state) }
        // The close frame follows everything that waited to be written, unless the stream failed.
        ensures sends { self.old.state ≡ Open → OnOk result (SendsClose S.contents (closing_code cause) [] self.old self.new) }
        // What waits is written as far as the stream takes it.
        ensures flushed { self.old.state ≡ Open → OnOk result (IsFlushed S.writes self.new) }
        // A connection in its handshake is over, and the caller knows it.
        ensures handshake { IsInHandshake self.old.state → (self.new.state ≡ Done) × (self.new.end ≡ Known) }
        // At any other time this call does not report the end.
        ensures known { (IsInHandshake self.old.state → ⊥) → SameKnown self.old.end self.new.end }
        // A connection that is already closed does not change.
        ensures else_same { (IsUnclosed self.old.state → ⊥) → self.new ≡ self.old }
        // After an error the state is unchanged.
        ensures err { OnErr result (self.new.state ≡ self.old.state) }
        // The bound of what waits to be written is the same.
        ensures bound { self.new.most_waiting ≡ self.old.most_waiting }
    {
        match self.state {
            State::Head | State::Asked(_) | State::Called => {
                self.cut();
                self.end = End::Known;
            }
            State::Open => {
                self.put_close(cause.code(), "")?;
                self.flush();
            }
            State::Closing | State::Leaving | State::Done | State::Failed(_) => {}
        }
        Ok(())
    }

    /// Fails the connection, because the host holds too much in all and this connection holds most of it.
    ///
    /// What came is given back at once. If more came than waits to be written, a close frame with code 1009 and the reason
    /// `too much is held in all` is behind what waits, and all that comes later is thrown away. Otherwise the connection is
    /// cut: what waits is given back too, since a peer that does not read would not see a close frame. The next take gives
    /// `Ended`. In the handshake the connection is cut, and `Ended` is not told. If it is closing or has ended, it is cut,
    /// and the next take gives `Ended`, unless an earlier one did.
    ///
    /// # Errors
    /// No memory: an allocation failed, and nothing has changed.
    pub fn shed(&mut self) -> Result<(), AllocError>
        // If the caller already knew of the end, it still does.
        ensures stays_known { StaysKnown self.old.end self.new.end }
        // The connection is no longer open.
        ensures ok { OnOk result (self.new.state ≢ Open) }
        // What came is given back.
        ensures forgets { OnOk result ((untaken self.new.inbox ≡ []) × (self.new.fragments ≡ 0)) }
        // Unless more came than waited to be written, nothing waits any more.
        ensures frees { length (untaken self.old.inbox) + self.old.fragments ≤ length (unwritten self.old.outbox) → OnOk result (unwritten self.new.outbox ≡ []) }
        // If more came, a close frame follows everything that waited to be written, unless the stream failed.
        ensures sends { self.old.state ≡ Open → length (unwritten self.old.outbox) < min (length (untaken self.old.inbox) + self.old.fragments) (2 ^ 64 - 1)
            → OnOk result (SendsClose S.contents (code_of Crowded) (reason_of Crowded) self.old self.new) }
        // If it was not open, nothing more is read or written.
        ensures cut { self.old.state ≢ Open → self.new.state ≡ Done }
        // In the handshake the caller knows the end.
        ensures handshake { IsInHandshake self.old.state → self.new.end ≡ Known }
        // At any other time this call does not report the end.
        ensures known { (IsInHandshake self.old.state → ⊥) → SameKnown self.old.end self.new.end }
        // After an error the state is unchanged.
        ensures err { OnErr result (self.new.state ≡ self.old.state) }
        // The bound of what waits to be written is the same.
        ensures bound { self.new.most_waiting ≡ self.old.most_waiting }
    {
        match self.state {
            State::Open if self.came() > self.outbox.len() => {
                self.give_up(Fault::Crowded)?;
                self.forget();
            }
            State::Head | State::Asked(_) | State::Called => {
                self.cut();
                self.end = End::Known;
            }
            State::Open | State::Closing | State::Leaving | State::Done | State::Failed(_) =>
                self.cut(),
        }
        Ok(())
    }

    /// Fails a connection by a close frame behind what waits. The next take tells the end, unless the caller knows it.
    pub(crate) fn give_up(&mut self, fault: Fault) -> Result<(), AllocError>
        requires { HasEnded self.old.state → ⊥ }
        ensures known { SameKnown self.old.end self.new.end }
        ensures ok { OnOk result (StaysUnlessFailed Closing self.new.state) }
        ensures err { OnErr result (self.new.state ≡ self.old.state) }
        ensures came { OnErr result (KeepsWhatCame self.old self.new) }
        ensures sends { self.old.state ≡ Open → OnOk result (SendsClose S.contents (code_of fault) (reason_of fault) self.old self.new) }
        ensures bound { self.new.most_waiting ≡ self.old.most_waiting }
    {
        self.put_close(fault.code(), fault.reason())?;
        self.owe_end();
        self.flush();
        Ok(())
    }

    /// Puts a close frame behind what waits, unless one was sent. The connection is then no more open.
    pub(crate) fn put_close(&mut self, code: CloseCode, reason: &str) -> Result<(), AllocError>
        requires { HasEnded self.old.state → ⊥ }
        ensures end { self.new.end ≡ self.old.end }
        ensures ok { OnOk result (self.new.state ≡ Closing) }
        ensures err { OnErr result (self.new.state ≡ self.old.state) }
        ensures came { OnErr result (KeepsWhatCame self.old self.new) }
        ensures puts { self.old.state ≡ Open → OnOk result ((self.new.stream ≡ self.old.stream) × (unwritten self.new.outbox ≡ unwritten self.old.outbox ++ close_frame code reason.now)) }
        ensures bound { self.new.most_waiting ≡ self.old.most_waiting }
    {
        write_close(&mut self.context, code, reason, &mut self.outbox.second)?;
        self.state = State::Closing;
        Ok(())
    }

    /// Tells the end, unless the caller knows it.
    pub(crate) fn tell_end(&mut self) -> Came
        requires { IsUnclosed self.old.state → ⊥ }
        ensures known { self.new.end ≡ Known }
        ensures tells_once { TellsOnce self.old.end self.new.end result }
        ensures timely { IsTimely self.new.state result }
        ensures ended { self.old.end ≢ Known → result ≡ Ended }
        ensures quiet { self.old.end ≡ Known → (result ≡ Nothing) × (self.new ≡ self.old) }
        ensures wordless { IsWordless result }
        ensures learns { LearnsEnd self.old self.new }
        ensures state { self.new.state ≡ self.old.state }
        ensures stream { self.new.stream ≡ self.old.stream }
        ensures outbox { unwritten self.new.outbox ≡ unwritten self.old.outbox }
        ensures bound { self.new.most_waiting ≡ self.old.most_waiting }
    {
        if self.end == End::Known {
            Came::Nothing
        } else {
            self.end = End::Known;
            Came::Ended
        }
    }

    /// This, or the end where nothing more is read.
    #[tactic(auto, using(crate::proofs::ClosingLemmas::end_known, crate::proofs::DryLemmas::over_dry, crate::proofs::DryLemmas::said_dry))]
    pub(crate) fn or_end(&mut self, came: Came) -> Came
        requires { IsQuiet came }
        ensures same { (HasEnded self.old.state → ⊥) → (result ≡ came) × (self.new ≡ self.old) }
        ensures ended { HasEnded self.old.state → self.old.end ≢ Known → result ≡ Ended }
        ensures rests { self.old.end ≢ Due → came ≡ Nothing → (result ≡ Nothing) × (self.new ≡ self.old) }
        ensures wordless { IsWordless result }
        ensures state { self.new.state ≡ self.old.state }
        ensures stays_known { StaysKnown self.old.end self.new.end }
        ensures tells_once { TellsOnce self.old.end self.new.end result }
        ensures told { HasEnded self.new.state → self.new.end ≡ Known }
        ensures timely { IsTimely self.new.state result }
        ensures dry { came ≢ Nothing → IsDry S.reads self.new result }
        ensures bound { self.new.most_waiting ≡ self.old.most_waiting }
    {
        if self.has_ended() {
            self.tell_end()
        } else {
            came
        }
    }

    /// Whether nothing more is read.
    pub(crate) fn has_ended(&self) -> bool
        ensures { IsTrue result ↔ HasEnded self.now.state }
    {
        matches!(self.state, State::Leaving | State::Done | State::Failed(_))
    }

    /// Whether nothing more is read or written.
    pub(crate) fn is_cut(&self) -> bool
        ensures { IsTrue result ↔ IsCut self.now.state }
    {
        matches!(self.state, State::Done | State::Failed(_))
    }

    /// Ends a connection whose stream failed. The next take tells it, unless the caller knows it.
    pub(crate) fn lose(&mut self, failure: Failure)
        ensures end { self.new.end ≡ owed self.old.end }
        ensures state { self.new.state ≡ Failed failure }
        ensures bound { self.new.most_waiting ≡ self.old.most_waiting }
    {
        self.outbox.clear();
        self.stop(State::Failed(failure));
    }

    /// Ends a connection at once. The next take tells it, unless the caller knows it.
    pub(crate) fn cut(&mut self)
        ensures end { self.new.end ≡ owed self.old.end }
        ensures state { self.new.state ≡ Done }
        ensures forgets { (untaken self.new.inbox ≡ []) × (self.new.fragments ≡ 0) }
        ensures frees { unwritten self.new.outbox ≡ [] }
        ensures bound { self.new.most_waiting ≡ self.old.most_waiting }
    {
        self.outbox.clear();
        self.stop(State::Done);
    }

    /// Reads nothing more. What waits is still written.
    pub(crate) fn leave(&mut self)
        ensures end { self.new.end ≡ owed self.old.end }
        ensures state { self.new.state ≡ Leaving }
        ensures stream { self.new.stream ≡ self.old.stream }
        ensures outbox { unwritten self.new.outbox ≡ unwritten self.old.outbox }
        ensures bound { self.new.most_waiting ≡ self.old.most_waiting }
    {
        self.stop(State::Leaving);
    }

    // Gives back what came, and reads nothing more. The next take tells the end, unless the caller knows it.
    fn stop(&mut self, state: State)
        requires ended { HasEnded state }
        requires cut { IsCut state → unwritten self.old.outbox ≡ [] }
        ensures end { self.new.end ≡ owed self.old.end }
        ensures state { self.new.state ≡ state }
        ensures stream { self.new.stream ≡ self.old.stream }
        ensures outbox { unwritten self.new.outbox ≡ unwritten self.old.outbox }
        ensures forgets { (untaken self.new.inbox ≡ []) × (self.new.fragments ≡ 0) }
        ensures bound { self.new.most_waiting ≡ self.old.most_waiting }
    {
        let end = self.end.owed();
        self.state = state;
        self.end = end;
        self.forget();
    }

    /// Gives back what came. Frames that come later are thrown away.
    pub(crate) fn forget(&mut self)
        requires { self.old.state ≢ Open }
        ensures end { self.new.end ≡ self.old.end }
        ensures state { self.new.state ≡ self.old.state }
        ensures stream { self.new.stream ≡ self.old.stream }
        ensures outbox { unwritten self.new.outbox ≡ unwritten self.old.outbox }
        ensures forgets { (untaken self.new.inbox ≡ []) × (self.new.fragments ≡ 0) }
        ensures bound { self.new.most_waiting ≡ self.old.most_waiting }
    {
        self.inbox.give_back();
        self.renew();
        let _ = self.context.end_of_input();
    }

    /// Begins the protocol anew.
    pub(crate) fn renew(&mut self)
        ensures fresh { IsFresh self.new.context }
        ensures fragments { self.new.fragments ≡ 0 }
        ensures end { self.new.end ≡ self.old.end }
        ensures state { self.new.state ≡ self.old.state }
        ensures stream { self.new.stream ≡ self.old.stream }
        ensures inbox { untaken self.new.inbox ≡ untaken self.old.inbox }
        ensures outbox { unwritten self.new.outbox ≡ unwritten self.old.outbox }
        ensures bound { self.new.most_waiting ≡ self.old.most_waiting }
    {
        self.context = new_context(self.alloc);
        self.fragments = 0;
    }

    /// The next take tells the end, unless the caller knows it.
    pub(crate) fn owe_end(&mut self)
        requires { IsUnclosed self.old.state → ⊥ }
        ensures end { self.new.end ≡ owed self.old.end }
        ensures state { self.new.state ≡ self.old.state }
        ensures outbox { unwritten self.new.outbox ≡ unwritten self.old.outbox }
        ensures stream { self.new.stream ≡ self.old.stream }
        ensures bound { self.new.most_waiting ≡ self.old.most_waiting }
    {
        self.end = self.end.owed();
    }
}

impl End {
    /// The end once nothing more is read: the next take tells it, unless the caller knows it.
    pub(crate) fn owed(self) -> End
        ensures { result ≡ owed self }
    {
        match self {
            End::Ahead | End::Due => End::Due,
            End::Known => End::Known,
        }
    }
}
