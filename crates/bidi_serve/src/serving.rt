//! Serving one connection over a WebSocket link.
ghost use Rattle.std.specs.Prelude.{◌≡◌, not, ◌&&◌, Bool, List, [], ◌∷◌, map, IfOk, IfErr, OnOk};
ghost use Rattle.std.specs.List.{list_any};
ghost use Rattle.bidi_remote.specs.Machine.History.{Input, Open, IsHeardAs};
ghost use Rattle.bidi_remote.specs.Machine.Sent.{Text, out, text_on, texts_on};
ghost use Rattle.bidi_remote.specs.State.Stands.{StandsFor};
ghost use Rattle.bidi_sessions.specs.View.{step_of, sent_of};
ghost use Rattle.bidi_serve.specs.Serving.{AreQueued, AreSent, Began, Exchange, Exchanged, ExchangedSome, Exchanges, IsRefused, Served, dropped, is_denied, is_served, is_text_on};

use bidi_remote::{RemoteEnd, RemoteFault, Sent, Step};
use bidi_socket::{Incoming, Link};
use bidi_tree::JsUint;
use std::alloc::{AllocError, Global};
use std::io::{Read, Write};
use tungstenite::MaskKeys;

/// Serves one connection over a link, with the resource that its peer asked for.
///
/// Opens the connection and takes at most `messages` messages, including pings and pongs. Gives each to the
/// remote end, and sends what it answers on this connection, in order. Then drops the connection, if it is
/// still open, and closes the link by a close frame with code 1000.
///
/// Ends early if the remote end denies or closes the connection, if the peer closes the link, or if the link
/// fails. A frame that breaks the protocol is answered by [`Link::take`], with a code of its own. What the
/// remote end sends on other connections is dropped.
///
/// # Errors
/// Those of `RemoteEnd::step`. The remote end has taken the steps before, and its connection may still be
/// open.
pub fn serve_link<S: Read + Write + Drop, K: MaskKeys + Drop>(
    alloc: Global,
    end: &mut RemoteEnd,
    link: &mut Link<S, K>,
    conn: JsUint,
    resource: &str,
    messages: u32,
) -> Result<(), RemoteFault>
    // After an Ok, the whole connection was served as described, and the remote end has had exactly
    // its inputs.
    ensures ok { (h : List Input) → StandsFor end.old h → OnOk result ((k : List Input) × StandsFor end.new k
        × Served S.remaining S.contents conn.value resource.now messages link.old h link.new k) }
    // After an error, the refused step was not taken, but all steps before it were.
    ensures err { (h : List Input) → StandsFor end.old h → IfErr result (λ fault. (k : List Input) × IsRefused end.new fault k
        × Began S.remaining S.contents conn.value resource.now messages link.old h k) }
{
    let made = open(alloc, end, conn, resource)?;
    if made {
        serve_open(end, link, conn, messages)
    } else {
        let _ = link.close();
        Ok(())
    }
}

// Serves a connection that is open, closes the link, and drops the connection if it is still open.
fn serve_open<S: Read + Write + Drop, K: MaskKeys + Drop>(
    end: &mut RemoteEnd,
    link: &mut Link<S, K>,
    conn: JsUint,
    messages: u32,
) -> Result<(), RemoteFault>
    ensures ok { (h : List Input) → StandsFor end.old h → OnOk result ((k : List Input) × StandsFor end.new (dropped k conn.value)
        × Exchanged S.remaining S.contents conn.value messages link.old h link.new k) }
    ensures err { (h : List Input) → StandsFor end.old h → IfErr result (λ fault. (k : List Input) × IsRefused end.new fault k
        × ExchangedSome S.remaining S.contents conn.value messages link.old h k) }
{
    let exchanged = exchange_all(end, link, conn, messages);
    let _ = link.close();
    exchanged?;
    drop_connection(end, conn)
}

// Opens the connection, and returns whether this call opened it.
fn open(
    alloc: Global,
    end: &mut RemoteEnd,
    conn: JsUint,
    resource: &str,
) -> Result<bool, RemoteFault>
    ensures ok { (h : List Input) → StandsFor end.old h → IfOk result (λ made. (not made ≡ is_denied h conn.value resource.now)
        × StandsFor end.new (Open conn.value resource.now ∷ h)) }
    ensures err { (h : List Input) → StandsFor end.old h → IfErr result (λ fault. IsRefused end.new fault h) }
{
    let was_open = end.is_open(conn);
    let resource = String::from_str(alloc, resource)?;
    end.step(Step::Open(conn, resource))?;
    Ok(!was_open && end.is_open(conn))
}

// Drops the connection, if it is still open.
fn drop_connection(end: &mut RemoteEnd, conn: JsUint) -> Result<(), RemoteFault>
    ensures ok { (h : List Input) → StandsFor end.old h → OnOk result (StandsFor end.new (dropped h conn.value)) }
    ensures err { (h : List Input) → StandsFor end.old h → IfErr result (λ fault. IsRefused end.new fault h) }
{
    if end.is_open(conn) {
        end.step(Step::Drop(conn))?;
    }
    Ok(())
}

// Exchanges at most so many messages.
fn exchange_all<S: Read + Write + Drop, K: MaskKeys + Drop>(
    end: &mut RemoteEnd,
    link: &mut Link<S, K>,
    conn: JsUint,
    messages: u32,
) -> Result<(), RemoteFault>
    ensures ok { (h : List Input) → StandsFor end.old h → OnOk result ((k : List Input) × StandsFor end.new k
        × Exchanges S.remaining S.contents conn.value messages link.old h link.new k) }
    ensures err { (h : List Input) → StandsFor end.old h → IfErr result (λ fault. (k : List Input) × IsRefused end.new fault k
        × ExchangedSome S.remaining S.contents conn.value messages link.old h k) }
{
    let mut left = messages;
    'exchanges: while left > 0 {
        left -= 1;
        if !exchange(end, link, conn)? {
            return Ok(());
        }
    }
    Ok(())
}

// Takes one message, gives it to the remote end, and sends its answer. Returns whether another may
// follow.
fn exchange<S: Read + Write + Drop, K: MaskKeys + Drop>(
    end: &mut RemoteEnd,
    link: &mut Link<S, K>,
    conn: JsUint,
) -> Result<bool, RemoteFault>
    ensures ok { (h : List Input) → StandsFor end.old h → IfOk result (λ goes_on. (k : List Input) × StandsFor end.new k
        × Exchange S.remaining S.contents conn.value link.old h link.new k goes_on) }
    ensures err { (h : List Input) → StandsFor end.old h → IfErr result (λ fault. IsRefused end.new fault h) }
{
    match link.take() {
        Ok(Incoming::Text(text)) => hand_on(end, link, conn, Step::Text(conn, text)),
        Ok(Incoming::NotText) => hand_on(end, link, conn, Step::NotText(conn)),
        Ok(Incoming::Control) => Ok(true),
        Ok(Incoming::Closed) => Ok(false),
        Err(_) => Ok(false),
    }
}

// Gives a step to the remote end, and sends what it answers. Returns whether another message may
// follow.
fn hand_on<S: Read + Write + Drop, K: MaskKeys + Drop>(
    end: &mut RemoteEnd,
    link: &mut Link<S, K>,
    conn: JsUint,
    step: Step,
) -> Result<bool, RemoteFault>
    ensures ok { (h : List Input) → StandsFor end.old h
        → IfOk result (λ goes_on. (i : Input) × (whole : Bool) × IsHeardAs (step_of step) i × StandsFor end.new (i ∷ h)
        × AreSent S.contents link.old (texts_on conn.value (out h i)) link.new whole × (goes_on ≡ whole && is_served (i ∷ h) conn.value)) }
    ensures err { (h : List Input) → StandsFor end.old h → IfErr result (λ fault. IsRefused end.new fault h) }
{
    let sent = end.step(step)?;
    let whole = send_all(link, conn, sent);
    Ok(whole && end.is_open(conn))
}

// Sends the texts for the connection in order and at once, up to the first that cannot be sent.
// Returns whether all were sent.
fn send_all<S: Read + Write + Drop, K: MaskKeys + Drop>(
    link: &mut Link<S, K>,
    conn: JsUint,
    sent: Vec<Sent>,
) -> bool
    ensures { AreSent S.contents link.old (texts_on conn.value (map sent_of sent.items)) link.new result }
{
    if !has_text(conn, &sent) {
        return true;
    }
    let queued = queue_all(link, conn, sent);
    let flushed = link.flush().is_ok();
    queued && flushed
}

// Whether one of these is a text for the connection.
fn has_text(conn: JsUint, sent: &[Sent]) -> bool
    ensures { result ≡ list_any (λ x. is_text_on conn.value (sent_of x)) sent.now }
{
    sent.iter().any(|one| is_text_on(conn, one))
}

// Whether this is a text for the connection.
fn is_text_on(conn: JsUint, one: &Sent) -> bool
    ensures { result ≡ is_text_on conn.value (sent_of one.now) }
{
    match one {
        Sent::Text(to, _) => conn.value == to.value,
        _ => false,
    }
}

// Queues the texts for the connection in order, up to the first that cannot be queued. Returns
// whether all were queued.
fn queue_all<S: Read + Write + Drop, K: MaskKeys + Drop>(
    link: &mut Link<S, K>,
    conn: JsUint,
    sent: Vec<Sent>,
) -> bool
    ensures { AreQueued S.contents link.old (texts_on conn.value (map sent_of sent.items)) link.new result }
{
    'texts: for one in sent {
        if !queue_one(link, conn, one) {
            return false;
        }
    }
    true
}

// Queues one thing, if it is a text for the connection. Returns whether the next may follow.
fn queue_one<S: Read + Write + Drop, K: MaskKeys + Drop>(
    link: &mut Link<S, K>,
    conn: JsUint,
    one: Sent,
) -> bool
    ensures { AreQueued S.contents link.old (text_on conn.value (sent_of one)) link.new result }
{
    match one {
        Sent::Text(to, text) => queue_text(link, conn, to, text.as_str()),
        _ => true,
    }
}

// Queues a text, if it is for the connection. Returns whether the next may follow.
fn queue_text<S: Read + Write + Drop, K: MaskKeys + Drop>(
    link: &mut Link<S, K>,
    conn: JsUint,
    to: JsUint,
    text: &str,
) -> bool
    ensures { AreQueued S.contents link.old (text_on conn.value (Text to.value text.now)) link.new result }
{
    if conn.value == to.value {
        link.queue(text).is_ok()
    } else {
        true
    }
}
