//! What a connection sends: texts, as far as there is room and the stream takes them.
ghost use Rattle.std.specs.Prelude.{◌≡◌, ◌≢◌, ◌↔◌, ◌≤◌, ◌<◌, ◌⊎◌, ◌+◌, ◌-◌, ◌^◌, length, min, take, IsFalse, IsTrue, OnErr, OnOk};
ghost use Rattle.bidi_peer.specs.Sending.{Flushes, HasNoRoom, IsFlushed, IsLittle, KeepsWhatCame, Puts, PutsFrame, Sends, SendsBytes, SendsText, bytes_frame, text_frame, write_from};
ghost use Rattle.bidi_peer.specs.Telling.{HasFailed, SameKnown, StaysUnlessFailed};
ghost use Rattle.bidi_peer.specs.Waiting.{unwritten};
ghost use Rattle.bidi_peer.specs.declared.standing.State.TheVariants.{Leaving, Open};

use super::framing::{Fault, bytes_frame_len, frame_len, write_bytes, write_text};
use super::standing::{Peer, State};
use super::stream::Stream;
use std::alloc::AllocError;

/// From how many bytes on a text is written at once.
const MUCH: usize = 64 * 1024;

impl<S: Stream> Peer<S> {
    /// Sends a text in one frame: it waits for [`Peer::flush`], so that several go out in one write, or is written at
    /// once where 64 KiB wait. Does nothing where the connection is not open.
    ///
    /// Where the stream does not take enough, and the frame would make more wait than may, it is not sent: the
    /// connection is closed with code 1013 behind what waits, and the next take gives `Ended`.
    ///
    /// Costs a copy of the text.
    ///
    /// # Errors
    /// No memory: an allocation failed. The text is not sent.
    pub fn send(&mut self, text: &str) -> Result<(), AllocError>
        // The call does not report the end.
        ensures known { SameKnown self.old.end self.new.end }
        // A connection that is not open does not change.
        ensures else_same { self.old.state ≢ Open → self.new ≡ self.old }
        // If the connection was open and still is, the frame of the text follows everything that waited to be written.
        ensures sends { self.old.state ≡ Open → OnOk result (self.new.state ≡ Open → SendsText S.contents text.now self.old self.new) }
        // If the connection was open and still is, the bytes that came and the state of the protocol are unchanged.
        ensures came { self.old.state ≡ Open → self.new.state ≡ Open → KeepsWhatCame self.old self.new }
        // A short text waits, and the stream is not used.
        ensures waits { self.old.state ≡ Open → IsLittle (text_frame text.now) self.old → OnOk result ((self.new.state ≡ Open) × Puts text.now self.old self.new) }
        // An open connection stays open, unless its stream failed or the text has no room.
        ensures gives_up { self.old.state ≡ Open → OnOk result (StaysUnlessFailed Open self.new.state ⊎ HasNoRoom S.contents S.writes (text_frame text.now) self.old self.new) }
        // After an error the state is unchanged, unless the stream failed.
        ensures err { OnErr result (StaysUnlessFailed self.old.state self.new.state) }
        // The bound of what waits to be written is the same.
        ensures bound { self.new.most_waiting ≡ self.old.most_waiting }
    {
        let frame = frame_len(text);
        self.make_room(frame);
        if !self.is_open() {
            return Ok(());
        }
        if !self.has_room(frame) {
            self.give_up(Fault::Slow)?;
            return Ok(());
        }
        self.put_text(frame, text)?;
        self.write_much();
        Ok(())
    }

    /// Sends a binary message in one frame, as [`Peer::send`] sends a text.
    ///
    /// Costs a copy of the bytes.
    ///
    /// # Errors
    /// No memory: an allocation failed. The message is not sent.
    pub fn send_bytes(&mut self, bytes: &[u8]) -> Result<(), AllocError>
        // The call does not report the end.
        ensures known { SameKnown self.old.end self.new.end }
        // A connection that is not open does not change.
        ensures else_same { self.old.state ≢ Open → self.new ≡ self.old }
        // If the connection was open and still is, the frame of the message follows everything that waited to be written.
        ensures sends { self.old.state ≡ Open → OnOk result (self.new.state ≡ Open → SendsBytes S.contents bytes.now self.old self.new) }
        // If the connection was open and still is, the bytes that came and the state of the protocol are unchanged.
        ensures came { self.old.state ≡ Open → self.new.state ≡ Open → KeepsWhatCame self.old self.new }
        // A short message waits, and the stream is not used.
        ensures waits { self.old.state ≡ Open → IsLittle (bytes_frame bytes.now) self.old → OnOk result ((self.new.state ≡ Open) × PutsFrame (bytes_frame bytes.now) self.old self.new) }
        // An open connection stays open, unless its stream failed or the message has no room.
        ensures gives_up { self.old.state ≡ Open → OnOk result (StaysUnlessFailed Open self.new.state ⊎ HasNoRoom S.contents S.writes (bytes_frame bytes.now) self.old self.new) }
        // After an error the state is unchanged, unless the stream failed.
        ensures err { OnErr result (StaysUnlessFailed self.old.state self.new.state) }
        // The bound of what waits to be written is the same.
        ensures bound { self.new.most_waiting ≡ self.old.most_waiting }
    {
        let frame = bytes_frame_len(bytes);
        self.make_room(frame);
        if !self.is_open() {
            return Ok(());
        }
        if !self.has_room(frame) {
            self.give_up(Fault::Slow)?;
            return Ok(());
        }
        self.put_bytes(frame, bytes)?;
        self.write_much();
        Ok(())
    }

    /// Sends bytes as they are, with no frame around, as [`Peer::send`] sends a text.
    ///
    /// Costs a copy of the bytes.
    ///
    /// # Errors
    /// No memory: an allocation failed. The bytes are not sent.
    pub fn send_raw(&mut self, bytes: &[u8]) -> Result<(), AllocError>
        // The call does not report the end.
        ensures known { SameKnown self.old.end self.new.end }
        // A connection that is not open does not change.
        ensures else_same { self.old.state ≢ Open → self.new ≡ self.old }
        // If the connection was open and still is, the bytes follow everything that waited to be written.
        ensures sends { self.old.state ≡ Open → OnOk result (self.new.state ≡ Open → Sends S.contents bytes.now self.old self.new) }
        // If the connection was open and still is, the bytes that came and the state of the protocol are unchanged.
        ensures came { self.old.state ≡ Open → self.new.state ≡ Open → KeepsWhatCame self.old self.new }
        // An open connection stays open, unless its stream failed or the bytes have no room.
        ensures gives_up { self.old.state ≡ Open → OnOk result (StaysUnlessFailed Open self.new.state ⊎ HasNoRoom S.contents S.writes bytes.now self.old self.new) }
        // After an error the state is unchanged, unless the stream failed.
        ensures err { OnErr result (StaysUnlessFailed self.old.state self.new.state) }
        // The bound of what waits to be written is the same.
        ensures bound { self.new.most_waiting ≡ self.old.most_waiting }
    {
        self.make_room(bytes.len());
        if !self.is_open() {
            return Ok(());
        }
        if !self.has_room(bytes.len()) {
            self.give_up(Fault::Slow)?;
            return Ok(());
        }
        self.put_raw(bytes)?;
        self.write_much();
        Ok(())
    }

    /// Sends the beginning of the frame of a text, of so many bytes at most, and ends the connection without a close frame:
    /// it reads nothing more, is over once that is written, and the next take gives `Ended`. Does nothing where the
    /// connection is not open.
    ///
    /// Costs two copies of the text.
    ///
    /// # Errors
    /// No memory: an allocation failed. Nothing of the text is sent.
    pub fn send_part(&mut self, text: &str, most: usize) -> Result<(), AllocError>
        // The call does not report the end.
        ensures known { SameKnown self.old.end self.new.end }
        // A connection that is not open does not change.
        ensures else_same { self.old.state ≢ Open → self.new ≡ self.old }
        // The connection is no longer open.
        ensures ends { OnOk result (self.new.state ≢ Open) }
        // If the connection was open and nothing more is read, the beginning of the frame follows everything that waited to be written.
        ensures sends { self.old.state ≡ Open → OnOk result (self.new.state ≡ Leaving → Sends S.contents (take most (text_frame text.now)) self.old self.new) }
        // An open connection reads nothing more, unless its stream failed or the beginning has no room.
        ensures leaves { self.old.state ≡ Open → OnOk result (StaysUnlessFailed Leaving self.new.state ⊎ HasNoRoom S.contents S.writes (take most (text_frame text.now)) self.old self.new) }
        // After an error the state is unchanged, unless the stream failed.
        ensures err { OnErr result (StaysUnlessFailed self.old.state self.new.state) }
        // The bound of what waits to be written is the same.
        ensures bound { self.new.most_waiting ≡ self.old.most_waiting }
    {
        if !self.is_open() {
            return Ok(());
        }
        let mut frame = Vec::with_capacity(self.alloc, frame_len(text))?;
        write_text(&mut self.context, text, &mut frame)?;
        frame.truncate(most);
        self.leave_after(&frame)
    }

    /// Sends the beginning of the frame of a binary message, as [`Peer::send_part`] sends that of a text.
    ///
    /// Costs two copies of the bytes.
    ///
    /// # Errors
    /// No memory: an allocation failed. Nothing of the message is sent.
    pub fn send_part_of_bytes(&mut self, bytes: &[u8], most: usize) -> Result<(), AllocError>
        // The call does not report the end.
        ensures known { SameKnown self.old.end self.new.end }
        // A connection that is not open does not change.
        ensures else_same { self.old.state ≢ Open → self.new ≡ self.old }
        // The connection is no longer open.
        ensures ends { OnOk result (self.new.state ≢ Open) }
        // If the connection was open and nothing more is read, the beginning of the frame follows everything that waited to be written.
        ensures sends { self.old.state ≡ Open → OnOk result (self.new.state ≡ Leaving → Sends S.contents (take most (bytes_frame bytes.now)) self.old self.new) }
        // An open connection reads nothing more, unless its stream failed or the beginning has no room.
        ensures leaves { self.old.state ≡ Open → OnOk result (StaysUnlessFailed Leaving self.new.state ⊎ HasNoRoom S.contents S.writes (take most (bytes_frame bytes.now)) self.old self.new) }
        // After an error the state is unchanged, unless the stream failed.
        ensures err { OnErr result (StaysUnlessFailed self.old.state self.new.state) }
        // The bound of what waits to be written is the same.
        ensures bound { self.new.most_waiting ≡ self.old.most_waiting }
    {
        if !self.is_open() {
            return Ok(());
        }
        let mut frame = Vec::with_capacity(self.alloc, bytes_frame_len(bytes))?;
        write_bytes(&mut self.context, bytes, &mut frame)?;
        frame.truncate(most);
        self.leave_after(&frame)
    }

    // Sends bytes with no frame around, and reads nothing more.
    fn leave_after(&mut self, bytes: &[u8]) -> Result<(), AllocError>
        requires { self.old.state ≡ Open }
        ensures known { SameKnown self.old.end self.new.end }
        ensures ends { OnOk result (self.new.state ≢ Open) }
        ensures sends { OnOk result (self.new.state ≡ Leaving → Sends S.contents bytes.now self.old self.new) }
        ensures leaves { OnOk result (StaysUnlessFailed Leaving self.new.state ⊎ HasNoRoom S.contents S.writes bytes.now self.old self.new) }
        ensures err { OnErr result (StaysUnlessFailed self.old.state self.new.state) }
        ensures bound { self.new.most_waiting ≡ self.old.most_waiting }
    {
        self.send_raw(bytes)?;
        if self.is_open() {
            self.leave();
        }
        Ok(())
    }

    // Writes what waits, where the connection is open and so many bytes have no room behind it.
    fn make_room(&mut self, frame: usize)
        ensures else_same { self.old.state ≢ Open → self.new ≡ self.old }
        ensures room { length (unwritten self.old.outbox) + frame ≤ self.old.most_waiting → self.new ≡ self.old }
        ensures state { StaysUnlessFailed self.old.state self.new.state }
        ensures tried { self.new.state ≡ Open → self.new.most_waiting < min (length (unwritten self.new.outbox) + frame) (2 ^ 64 - 1) → IsFlushed S.writes self.new }
        ensures flushes { HasFailed self.new.state ⊎ Flushes S.contents self.old self.new }
        ensures known { SameKnown self.old.end self.new.end }
        ensures bound { self.new.most_waiting ≡ self.old.most_waiting }
    {
        if self.is_open() && !self.has_room(frame) {
            self.flush();
        }
    }

    // Whether so many bytes may wait behind what does.
    fn has_room(&self, frame: usize) -> bool
        ensures full { IsFalse result → self.now.most_waiting < length (unwritten self.now.outbox) + frame }
        ensures room { length (unwritten self.now.outbox) + frame ≤ self.now.most_waiting → IsTrue result }
        ensures exact { IsFalse result ↔ (self.now.most_waiting < min (length (unwritten self.now.outbox) + frame) (2 ^ 64 - 1)) }
    {
        self.outbox.len().saturating_add(frame) <= self.most_waiting
    }

    // Puts the frame of a text, of this length, behind what waits.
    fn put_text(&mut self, frame: usize, text: &str) -> Result<(), AllocError>
        requires { self.old.state ≡ Open }
        ensures puts { OnOk result (Puts text.now self.old self.new) }
        ensures came { KeepsWhatCame self.old self.new }
        ensures state { self.new.state ≡ self.old.state }
        ensures end { self.new.end ≡ self.old.end }
        ensures bound { self.new.most_waiting ≡ self.old.most_waiting }
    {
        self.outbox.make_room(frame)?;
        write_text(&mut self.context, text, &mut self.outbox.second)
    }

    // Puts the frame of a binary message, of this length, behind what waits.
    fn put_bytes(&mut self, frame: usize, bytes: &[u8]) -> Result<(), AllocError>
        requires { self.old.state ≡ Open }
        ensures puts { OnOk result (PutsFrame (bytes_frame bytes.now) self.old self.new) }
        ensures came { KeepsWhatCame self.old self.new }
        ensures state { self.new.state ≡ self.old.state }
        ensures end { self.new.end ≡ self.old.end }
        ensures bound { self.new.most_waiting ≡ self.old.most_waiting }
    {
        self.outbox.make_room(frame)?;
        write_bytes(&mut self.context, bytes, &mut self.outbox.second)
    }

    // Puts bytes behind what waits, with no frame around.
    fn put_raw(&mut self, bytes: &[u8]) -> Result<(), AllocError>
        requires { self.old.state ≡ Open }
        ensures puts { OnOk result (PutsFrame bytes.now self.old self.new) }
        ensures came { KeepsWhatCame self.old self.new }
        ensures state { self.new.state ≡ self.old.state }
        ensures end { self.new.end ≡ self.old.end }
        ensures bound { self.new.most_waiting ≡ self.old.most_waiting }
    {
        self.outbox.make_room(bytes.len())?;
        self.outbox.put(bytes)
    }

    // Writes what waits, where it is much.
    fn write_much(&mut self)
        ensures little { length (unwritten self.old.outbox) < write_from → self.new ≡ self.old }
        ensures state { StaysUnlessFailed self.old.state self.new.state }
        ensures flushes { HasFailed self.new.state ⊎ Flushes S.contents self.old self.new }
        ensures known { SameKnown self.old.end self.new.end }
        ensures bound { self.new.most_waiting ≡ self.old.most_waiting }
    {
        if self.outbox.len() >= MUCH {
            self.flush();
        }
    }

    /// Writes what waits, as far as the stream takes it. Call it when the stream can be written again.
    #[tactic(auto, using(crate::proofs::DryLemmas::cut_flushed))]
    pub fn flush(&mut self)
        // The call does not report the end.
        ensures known { SameKnown self.old.end self.new.end }
        // The state is unchanged, unless the stream failed.
        ensures state { StaysUnlessFailed self.old.state self.new.state }
        // Unless the stream failed, it took bytes off the front of what waited, and the rest still waits.
        ensures flushes { HasFailed self.new.state ⊎ Flushes S.contents self.old self.new }
        // Afterwards the stream has failed, nothing waits any more, or the last call of the stream was a write that took nothing for now.
        ensures flushed { IsFlushed S.writes self.new }
        // The bound of what waits to be written is the same.
        ensures bound { self.new.most_waiting ≡ self.old.most_waiting }
    {
        if self.is_cut() {
            return;
        }
        match self.outbox.write_to(&mut self.stream) {
            Ok(()) => {}
            Err(failure) => self.lose(failure),
        }
    }
}
