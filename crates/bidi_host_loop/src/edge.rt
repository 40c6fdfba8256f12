//! What a host does to its record, its connections and its pages, with an account of it.
ghost use Rattle.std.specs.Prelude.{◌≡◌, ◌∷◌, ◌++◌, [], IfOk, OnOk, Some, true};
ghost use Rattle.bidi_host_loop.specs.Deeds.{Admitted, AdmittedPage, Answered, AnsweredInput, Closed, Cut, CutAfter, Denied, Handed, HandedBytes, HandedRaw, Refused, Refusing, Replied, Reported, Restarted, Resumed, Stalled, Wrote};
ghost use Rattle.bidi_host_loop.specs.Clients.{Hands, HandsAt, are_routed, left_by, left_without, place_of, with_route};
ghost use Rattle.bidi_host_loop.specs.Deeds.{coming, entering};

use crate::account::Account;
use crate::console::Said;
use crate::peers::Peers;
use crate::slot::Role;
use crate::surroundings::Surroundings;
use bidi_classic::Reply;
use bidi_peer::{Came, Peer, RequestRefusal};
use bidi_recorder::HostingFault;
use bidi_tree::JsUint;
use mio::net::TcpStream;
use std::alloc::{AllocError, Global};
use std::time::Instant;

/// The kinds of what comes and of what is done, as the account has them.
const WROTE: u64 = 0;

const HANDED: u64 = 1;

const HANDED_BYTES: u64 = 2;

const HANDED_RAW: u64 = 3;

const STALLED: u64 = 4;

const RESUMED: u64 = 5;

const CUT: u64 = 6;

const CUT_AFTER: u64 = 7;

const CLOSED: u64 = 8;

const REFUSING: u64 = 9;

const REFUSED: u64 = 10;

const REPORTED: u64 = 11;

const ANSWERED: u64 = 12;

const ANSWERED_INPUT: u64 = 13;

const REPLIED: u64 = 14;

const ASKED: u64 = 15;

const CALLED: u64 = 16;

const HEARD: u64 = 17;

const HEARD_BYTES: u64 = 18;

const GONE: u64 = 19;

const SAID: u64 = 20;

const SAID_BYTES: u64 = 21;

const ENTERED: u64 = 22;

const ENTERED_BYTES: u64 = 23;

const RESTARTED: u64 = 24;

const ADMITTED: u64 = 25;

const ADMITTED_PAGE: u64 = 26;

const DENIED: u64 = 27;

/// The code by which a connection is closed that the remote end closes.
const DONE: u64 = 1000;

/// The connections of a host, and an account of what came and of what it did.
#[derive(Drop)]
pub(crate) struct Edge {
    pub(crate) peers: Peers,
    account: Account,
    // Each number is at the place by which its connection was admitted last.
    pub ghost routed: { are_routed peers.routes.items account.deeds ≡ true },
}

impl Edge {
    /// No connections, at most so many; nothing came, and nothing was done. Takes no memory.
    pub(crate) fn new(alloc: Global, most: usize) -> Edge
        ensures { result.account.deeds ≡ [] }
    {
        Edge {
            peers: Peers::new(alloc, most),
            account: Account::new(),
        }
    }

    // ---- what the account does not have

    /// Finds a free place for a connection; see [`Peers::place`].
    pub(crate) fn place(&mut self) -> Option<usize>
        ensures notes { self.new.account ≡ self.old.account }
        ensures places { self.new.peers.routes ≡ self.old.peers.routes }
    {
        self.peers.place()
    }

    /// Puts a connection at a free place; see [`Peers::put`].
    pub(crate) fn put(
        &mut self,
        place: usize,
        peer: Peer<TcpStream>,
        deadline: Option<Instant>,
    ) -> Result<(), AllocError>
        ensures notes { self.new.account ≡ self.old.account }
        ensures places { self.new.peers.routes ≡ self.old.peers.routes }
    {
        self.peers.put(place, peer, deadline)
    }

    /// The stream at a place can be read or written again.
    pub(crate) fn wake(&mut self, place: usize)
        ensures notes { self.new.account ≡ self.old.account }
        ensures places { self.new.peers.routes ≡ self.old.peers.routes }
    {
        self.peers.wake(place);
    }

    /// Writes what is queued; see [`Peers::flush`].
    pub(crate) fn flush(&mut self)
        ensures notes { self.new.account ≡ self.old.account }
        ensures places { self.new.peers.routes ≡ self.old.peers.routes }
    {
        self.peers.flush();
    }

    /// Drops the connections whose deadline has passed. Returns the next deadline.
    pub(crate) fn expire(&mut self, now: Instant) -> Option<Instant>
        ensures notes { self.new.account ≡ self.old.account }
        ensures places { self.new.peers.routes ≡ self.old.peers.routes }
    {
        self.peers.expire(now)
    }

    /// Bounds what all connections hold; see [`Peers::hold_at_most`].
    pub(crate) fn hold_at_most(&mut self, most: usize) -> Result<(), AllocError>
        ensures notes { self.new.account ≡ self.old.account }
        ensures places { self.new.peers.routes ≡ self.old.peers.routes }
    {
        self.peers.hold_at_most(most)
    }

    /// The connection at a place has ended; see [`Peers::leave`].
    pub(crate) fn leave(&mut self, place: usize, role: Role, deadline: Option<Instant>)
        ensures notes { self.new.account ≡ self.old.account }
        ensures places { self.new.peers.routes.items ≡ left_by role self.old.peers.routes.items }
    {
        self.peers.leave(place, role, deadline);
    }

    /// Closes all connections of the remote end, and with `pages` those of pages as well.
    pub(crate) fn close_all(
        &mut self,
        pages: bool,
        deadline: Option<Instant>,
    ) -> Result<(), AllocError>
        ensures notes { self.new.account ≡ self.old.account }
        ensures places { self.new.peers.routes.items ≡ [] }
    {
        self.peers.close_all(pages, deadline)
    }

    /// Keeps the texts of the host's own connection until [`Edge::kept_texts`].
    pub(crate) fn keep_texts(&mut self, alloc: Global, conn: JsUint)
        ensures notes { self.new.account ≡ self.old.account }
        ensures places { self.new.peers.routes ≡ self.old.peers.routes }
    {
        self.peers.keep_texts(alloc, conn);
    }

    /// The texts that were kept.
    pub(crate) fn kept_texts(&mut self, alloc: Global) -> Vec<String>
        ensures notes { self.new.account ≡ self.old.account }
        ensures places { self.new.peers.routes ≡ self.old.peers.routes }
    {
        self.peers.kept_texts(alloc)
    }

    // ---- what the account has

    /// Takes what came in at a place, with the role of its connection.
    pub(crate) fn take(&mut self, place: usize) -> Result<(Role, Came), AllocError>
        ensures notes { IfOk result (λ r. self.new.account.deeds ≡ self.old.account.deeds ++ coming place r.0 r.1) }
        ensures places { self.new.peers.routes ≡ self.old.peers.routes }
    {
        let (role, came) = self.peers.take(place)?;
        self.note_coming(place, role, &came);
        Ok((role, came))
    }

    // Notes what came in at a place.
    fn note_coming(&mut self, place: usize, role: Role, came: &Came)
        ensures notes { self.new.account.deeds ≡ self.old.account.deeds ++ coming place role came.now }
        ensures places { self.new.peers.routes ≡ self.old.peers.routes }
    {
        let at = place as u64;
        match (role, came) {
            (_, Came::Asks(resource)) => {
                self.account
                    .note(&[ASKED, at], resource.as_str().as_bytes());
            }
            (_, Came::Calls(_)) => self.account.note(&[CALLED, at], &[]),
            (Role::Client(conn), Came::Text(text)) => {
                self.account
                    .note(&[HEARD, conn.value], text.as_str().as_bytes());
            }
            (Role::Client(conn), Came::NotText) => {
                self.account.note(&[HEARD_BYTES, conn.value], &[]);
            }
            (Role::Client(conn), Came::Ended) => self.account.note(&[GONE, conn.value], &[]),
            (Role::Page, Came::Text(text)) => {
                self.account.note(&[SAID, at], text.as_str().as_bytes());
            }
            (Role::Page, Came::NotText) => self.account.note(&[SAID_BYTES, at], &[]),
            _ => {}
        }
    }

    /// Notes what came from standard input.
    pub(crate) fn note_entering(&mut self, said: &Said)
        ensures notes { self.new.account.deeds ≡ self.old.account.deeds ++ entering said.now }
        ensures places { self.new.peers.routes ≡ self.old.peers.routes }
    {
        match said {
            Said::Line(line) => self.account.note(&[ENTERED], line.as_str().as_bytes()),
            Said::NoLine(_) => self.account.note(&[ENTERED_BYTES], &[]),
            Said::Nothing => {}
        }
    }

    /// Refuses the handshake at a place by this status, because a test has it refused.
    pub(crate) fn refuse_by_test(&mut self, place: usize, status: u16) -> Result<(), AllocError>
        ensures notes { OnOk result (self.new.account.deeds ≡ self.old.account.deeds ++ Refused place status ∷ []) }
        ensures places { self.new.peers.routes ≡ self.old.peers.routes }
    {
        self.peers.refuse(place, RequestRefusal::OfTest(status))?;
        self.account
            .note(&[REFUSED, place as u64, u64::from(status)], &[]);
        Ok(())
    }

    /// Opens the connection of the remote end with this number by the handshake at a place.
    pub(crate) fn admit(&mut self, place: usize, conn: JsUint) -> Result<(), AllocError>
        ensures routes { OnOk result (place_of conn.value self.new.peers ≡ Some place) }
        ensures places { OnOk result (self.new.peers.routes.items ≡ with_route place conn.value self.old.peers.routes.items) }
        ensures notes { OnOk result (self.new.account.deeds ≡ self.old.account.deeds ++ Admitted place conn.value ∷ []) }
    {
        self.account
            .note(&[ADMITTED, place as u64, conn.value], &[]);
        self.peers.open_client(place, conn)?;
        Ok(())
    }

    /// Opens the connection of a page by the handshake at a place.
    pub(crate) fn admit_page(&mut self, place: usize) -> Result<(), AllocError>
        ensures notes { OnOk result (self.new.account.deeds ≡ self.old.account.deeds ++ AdmittedPage place ∷ []) }
        ensures places { self.new.peers.routes ≡ self.old.peers.routes }
    {
        self.peers.open_page(place)?;
        self.account.note(&[ADMITTED_PAGE, place as u64], &[]);
        Ok(())
    }

    /// Opens no connection by the handshake at a place, for this reason.
    pub(crate) fn deny(&mut self, place: usize, refusal: RequestRefusal) -> Result<(), AllocError>
        ensures notes { OnOk result (self.new.account.deeds ≡ self.old.account.deeds ++ Denied place ∷ []) }
        ensures places { self.new.peers.routes ≡ self.old.peers.routes }
    {
        self.peers.refuse(place, refusal)?;
        self.account.note(&[DENIED, place as u64], &[]);
        Ok(())
    }

    /// Replies to the call at a place.
    pub(crate) fn reply(&mut self, place: usize, reply: &Reply) -> Result<(), AllocError>
        ensures notes { OnOk result (self.new.account.deeds ≡ self.old.account.deeds ++ Replied place ∷ []) }
        ensures places { self.new.peers.routes ≡ self.old.peers.routes }
    {
        self.peers.reply(place, reply)?;
        self.account.note(&[REPLIED, place as u64], &[]);
        Ok(())
    }

    /// Writes a line to the record.
    pub(crate) fn record<W: Surroundings>(
        &mut self,
        world: &mut W,
        line: &str,
    ) -> Result<(), HostingFault>
        ensures notes { OnOk result (self.new.account.deeds ≡ self.old.account.deeds ++ Wrote line.now ∷ []) }
        ensures places { self.new.peers.routes ≡ self.old.peers.routes }
    {
        world.record(line)?;
        self.account.note(&[WROTE], line.as_bytes());
        Ok(())
    }

    /// Continues the record in the next file.
    pub(crate) fn restart<W: Surroundings>(&mut self, world: &mut W) -> Result<(), HostingFault>
        ensures notes { OnOk result (self.new.account.deeds ≡ self.old.account.deeds ++ Restarted ∷ []) }
        ensures places { self.new.peers.routes ≡ self.old.peers.routes }
    {
        world.next_record()?;
        self.account.note(&[RESTARTED], &[]);
        Ok(())
    }

    /// Hands a text to a connection.
    pub(crate) fn hand(&mut self, conn: JsUint, text: &str) -> Result<(), AllocError>
        ensures reaches { OnOk result (Hands conn.value text.now self.old.peers self.new.peers) }
        ensures places { self.new.peers.routes ≡ self.old.peers.routes }
        ensures notes { OnOk result (self.new.account.deeds ≡ self.old.account.deeds ++ Handed conn.value text.now ∷ []) }
    {
        self.peers.send(conn, text)?;
        self.account.note(&[HANDED, conn.value], text.as_bytes());
        Ok(())
    }

    /// Hands a binary message to a connection, by the hexadecimal digits of its bytes.
    pub(crate) fn hand_bytes(
        &mut self,
        alloc: Global,
        conn: JsUint,
        digits: &str,
    ) -> Result<(), AllocError>
        ensures notes { OnOk result (self.new.account.deeds ≡ self.old.account.deeds ++ HandedBytes conn.value digits.now ∷ []) }
        ensures places { self.new.peers.routes ≡ self.old.peers.routes }
    {
        let bytes = bytes_of(alloc, digits)?;
        self.peers.send_bytes(conn, &bytes)?;
        self.account
            .note(&[HANDED_BYTES, conn.value], digits.as_bytes());
        Ok(())
    }

    /// Hands bytes to a connection without a frame, by their hexadecimal digits.
    pub(crate) fn hand_raw(
        &mut self,
        alloc: Global,
        conn: JsUint,
        digits: &str,
    ) -> Result<(), AllocError>
        ensures notes { OnOk result (self.new.account.deeds ≡ self.old.account.deeds ++ HandedRaw conn.value digits.now ∷ []) }
        ensures places { self.new.peers.routes ≡ self.old.peers.routes }
    {
        let bytes = bytes_of(alloc, digits)?;
        self.peers.send_raw(conn, &bytes)?;
        self.account
            .note(&[HANDED_RAW, conn.value], digits.as_bytes());
        Ok(())
    }

    /// Has nothing more read from a connection.
    pub(crate) fn stall(&mut self, conn: JsUint)
        ensures notes { self.new.account.deeds ≡ self.old.account.deeds ++ Stalled conn.value ∷ [] }
        ensures places { self.new.peers.routes ≡ self.old.peers.routes }
    {
        self.peers.stall(conn, true);
        self.account.note(&[STALLED, conn.value], &[]);
    }

    /// Has a connection read again.
    pub(crate) fn resume(&mut self, conn: JsUint)
        ensures notes { self.new.account.deeds ≡ self.old.account.deeds ++ Resumed conn.value ∷ [] }
        ensures places { self.new.peers.routes ≡ self.old.peers.routes }
    {
        self.peers.stall(conn, false);
        self.account.note(&[RESUMED, conn.value], &[]);
    }

    /// Ends a connection without a close frame.
    pub(crate) fn cut(&mut self, conn: JsUint)
        ensures notes { self.new.account.deeds ≡ self.old.account.deeds ++ Cut conn.value ∷ [] }
        ensures places { self.new.peers.routes.items ≡ left_without conn.value self.old.peers.routes.items }
    {
        self.peers.cut(conn);
        self.account.note(&[CUT, conn.value], &[]);
    }

    /// Has a connection end after so many bytes of the frame of its next message.
    pub(crate) fn cut_after(&mut self, conn: JsUint, bytes: JsUint)
        ensures notes { self.new.account.deeds ≡ self.old.account.deeds ++ CutAfter conn.value bytes.value ∷ [] }
        ensures places { self.new.peers.routes ≡ self.old.peers.routes }
    {
        self.peers.cut_after(conn, bytes);
        self.account
            .note(&[CUT_AFTER, conn.value, bytes.value], &[]);
    }

    /// Closes a connection, because the remote end closes it.
    pub(crate) fn close(
        &mut self,
        conn: JsUint,
        deadline: Option<Instant>,
    ) -> Result<(), AllocError>
        ensures notes { OnOk result (self.new.account.deeds ≡ self.old.account.deeds ++ Closed conn.value 1000 ∷ []) }
        ensures places { self.new.peers.routes.items ≡ left_without conn.value self.old.peers.routes.items }
    {
        self.peers.close(conn, deadline)?;
        self.account.note(&[CLOSED, conn.value, DONE], &[]);
        Ok(())
    }

    /// Closes a connection by this code, because a test closes it.
    pub(crate) fn close_with(
        &mut self,
        conn: JsUint,
        code: u16,
        deadline: Option<Instant>,
    ) -> Result<(), AllocError>
        ensures notes { OnOk result (self.new.account.deeds ≡ self.old.account.deeds ++ Closed conn.value code ∷ []) }
        ensures places { self.new.peers.routes.items ≡ left_without conn.value self.old.peers.routes.items }
    {
        self.peers.close_with(conn, code, deadline)?;
        self.account
            .note(&[CLOSED, conn.value, u64::from(code)], &[]);
        Ok(())
    }

    /// Notes that so many handshakes are refused by this status.
    pub(crate) fn note_refusing(&mut self, number: JsUint, status: u16)
        ensures notes { self.new.account.deeds ≡ self.old.account.deeds ++ Refusing number.value status ∷ [] }
        ensures places { self.new.peers.routes ≡ self.old.peers.routes }
    {
        self.account
            .note(&[REFUSING, number.value, u64::from(status)], &[]);
    }

    /// Reports a line to each page, and on standard output if page lines are read from standard input.
    pub(crate) fn report<W: Surroundings>(
        &mut self,
        world: &mut W,
        line: &str,
        reads_input: bool,
    ) -> Result<(), HostingFault>
        ensures notes { OnOk result (self.new.account.deeds ≡ self.old.account.deeds ++ Reported line.now ∷ []) }
        ensures places { self.new.peers.routes ≡ self.old.peers.routes }
    {
        self.peers.send_to_pages(line)?;
        if reads_input {
            put_line(world, line)?;
        }
        self.account.note(&[REPORTED], line.as_bytes());
        Ok(())
    }

    /// Answers the page at a place.
    pub(crate) fn answer(&mut self, place: usize, text: &str) -> Result<(), AllocError>
        ensures reaches { OnOk result (HandsAt place text.now self.old.peers self.new.peers) }
        ensures places { self.new.peers.routes ≡ self.old.peers.routes }
        ensures notes { OnOk result (self.new.account.deeds ≡ self.old.account.deeds ++ Answered place text.now ∷ []) }
    {
        self.peers.send_to(place, text)?;
        self.account
            .note(&[ANSWERED, place as u64], text.as_bytes());
        Ok(())
    }

    /// Answers a line of standard input.
    pub(crate) fn answer_input<W: Surroundings>(
        &mut self,
        world: &mut W,
        text: &str,
    ) -> Result<(), HostingFault>
        ensures notes { OnOk result (self.new.account.deeds ≡ self.old.account.deeds ++ AnsweredInput text.now ∷ []) }
        ensures places { self.new.peers.routes ≡ self.old.peers.routes }
    {
        put_line(world, text)?;
        self.account.note(&[ANSWERED_INPUT], text.as_bytes());
        Ok(())
    }
}

// Writes a line to standard output.
fn put_line<W: Surroundings>(world: &mut W, line: &str) -> Result<(), HostingFault> {
    match world.answer(line) {
        Ok(()) => Ok(()),
        Err(_) => Err(HostingFault::Answer),
    }
}

// The bytes that pairs of hexadecimal digits stand for.
fn bytes_of(alloc: Global, digits: &str) -> Result<Vec<u8>, AllocError> {
    match hex::decode(alloc, digits) {
        Ok(bytes) => Ok(bytes),
        Err(hex::FromHexError::OutOfMemory) => Err(AllocError),
        Err(_) => Ok(Vec::new(alloc)),
    }
}
