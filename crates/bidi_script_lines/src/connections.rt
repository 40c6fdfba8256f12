//! Lines by which a test sends on a connection, stalls, cuts and closes it, and refuses handshakes.
ghost use Rattle.std.specs.Prelude.{◌≡◌, ◌≤◌, ◌⊎◌, ◌∷◌, [], List, length, true, false, IfOk, IfSome, IfNone, OnOk, OnErr, IsErrOf, map, string_bytes};
ghost use Rattle.std.specs.List.{list_all};
ghost use Rattle.bidi_sessions.specs.Limits.{most_steps};
ghost use Rattle.bidi_sessions.specs.View.{sent_of};
ghost use Rattle.bidi_remote.specs.Machine.History.{Input};
ghost use Rattle.bidi_remote.specs.Machine.Sent.{Text};
ghost use Rattle.bidi_remote.specs.State.Stands.{StandsFor};
ghost use Rattle.bidi_script_lines.specs.ScriptLines as lines;
ghost use Rattle.bidi_script_lines.specs.Outcomes.{OfTest, Bytes, Raw, Stalled, Resumed, Cut, CutAfter, Closed, outcome_of};
ghost use Rattle.bidi_script_lines.specs.Performing.{HasNoEffect, IsUnchanged, StandsAsBefore, OnOpen, Drops, Brings, is_hex, is_digit, is_close_code, can_refuse};

use crate::outcome::Outcome;
use crate::reasons::no_effect;
use bidi_remote::{RemoteFault, Sent, SentText, Step};
use bidi_scripted::ScriptedEnd;
use bidi_tree::JsUint;
use std::alloc::{AllocError, Global};

/// Why a line about a connection that is not open has no effect.
const NOT_OPEN: &str = "the connection is not open";

/// Why `bytes` and `raw` have no effect.
const NOT_HEX: &str = "the bytes are not pairs of hexadecimal digits";

/// Why `close` has no effect.
const NO_CODE: &str = "no close code that a server may send";

/// Why `refuse` has no effect.
const NO_REFUSAL: &str = "no status from 400 to 599, or more than 1000000 handshakes";

/// How many handshakes a line has refused at most.
const MOST_REFUSED: u64 = 1_000_000;

/// Sends a text on a connection.
pub(crate) fn send(
    alloc: Global,
    end: &ScriptedEnd,
    conn: JsUint,
    text: String,
) -> Result<Outcome, RemoteFault>
    ensures brings { (h : List Input) → StandsFor end.now.end h → IfOk result (λ o. OnOpen conn.value h end.now end.now (outcome_of o)
        ((outcome_of o ≡ OfTest (Text conn.value (string_bytes text) ∷ [])) × IsUnchanged end.now end.now)) }
    ensures worn_out { IsErrOf result RemoteFault.WornOut → ⊥ }
{
    if !end.is_open(conn) {
        return no_effect(alloc, NOT_OPEN);
    }
    Ok(Outcome::Sent(one_text(alloc, conn, text)?))
}

// A text on a connection, and nothing else.
fn one_text(alloc: Global, conn: JsUint, text: String) -> Result<Vec<Sent>, AllocError>
    ensures { IfOk result (λ sent. map sent_of sent.items ≡ Text conn.value (string_bytes text) ∷ []) }
{
    let mut sent = Vec::new(alloc);
    sent.push(Sent::Text(conn, SentText::Own(text)))?;
    Ok(sent)
}

/// Sends a binary message on a connection.
pub(crate) fn send_bytes(
    alloc: Global,
    end: &ScriptedEnd,
    conn: JsUint,
    digits: String,
) -> Result<Outcome, RemoteFault>
    ensures brings { (h : List Input) → StandsFor end.now.end h → IfOk result (λ o. OnOpen conn.value h end.now end.now (outcome_of o)
        (((is_hex (string_bytes digits) ≡ false) × HasNoEffect end.now end.now (outcome_of o))
        ⊎ ((is_hex (string_bytes digits) ≡ true) × (outcome_of o ≡ Bytes conn.value (string_bytes digits)) × IsUnchanged end.now end.now))) }
    ensures worn_out { IsErrOf result RemoteFault.WornOut → ⊥ }
{
    if !end.is_open(conn) {
        return no_effect(alloc, NOT_OPEN);
    }
    if !is_hex(digits.as_str()) {
        return no_effect(alloc, NOT_HEX);
    }
    Ok(Outcome::Bytes(conn, digits))
}

/// Sends bytes on a connection without a frame.
pub(crate) fn send_raw(
    alloc: Global,
    end: &ScriptedEnd,
    conn: JsUint,
    digits: String,
) -> Result<Outcome, RemoteFault>
    ensures brings { (h : List Input) → StandsFor end.now.end h → IfOk result (λ o. OnOpen conn.value h end.now end.now (outcome_of o)
        (((is_hex (string_bytes digits) ≡ false) × HasNoEffect end.now end.now (outcome_of o))
        ⊎ ((is_hex (string_bytes digits) ≡ true) × (outcome_of o ≡ Raw conn.value (string_bytes digits)) × IsUnchanged end.now end.now))) }
    ensures worn_out { IsErrOf result RemoteFault.WornOut → ⊥ }
{
    if !end.is_open(conn) {
        return no_effect(alloc, NOT_OPEN);
    }
    if !is_hex(digits.as_str()) {
        return no_effect(alloc, NOT_HEX);
    }
    Ok(Outcome::Raw(conn, digits))
}

/// Has nothing more read from a connection.
pub(crate) fn stall(alloc: Global, end: &ScriptedEnd, conn: JsUint) -> Result<Outcome, RemoteFault>
    ensures brings { (h : List Input) → StandsFor end.now.end h → IfOk result (λ o. OnOpen conn.value h end.now end.now (outcome_of o)
        ((outcome_of o ≡ Stalled conn.value) × IsUnchanged end.now end.now)) }
    ensures worn_out { IsErrOf result RemoteFault.WornOut → ⊥ }
{
    if !end.is_open(conn) {
        return no_effect(alloc, NOT_OPEN);
    }
    Ok(Outcome::Stalled(conn))
}

/// Has a connection read again.
pub(crate) fn resume(alloc: Global, end: &ScriptedEnd, conn: JsUint) -> Result<Outcome, RemoteFault>
    ensures brings { (h : List Input) → StandsFor end.now.end h → IfOk result (λ o. OnOpen conn.value h end.now end.now (outcome_of o)
        ((outcome_of o ≡ Resumed conn.value) × IsUnchanged end.now end.now)) }
    ensures worn_out { IsErrOf result RemoteFault.WornOut → ⊥ }
{
    if !end.is_open(conn) {
        return no_effect(alloc, NOT_OPEN);
    }
    Ok(Outcome::Resumed(conn))
}

/// Ends a connection without a close frame.
pub(crate) fn cut(
    alloc: Global,
    end: &mut ScriptedEnd,
    conn: JsUint,
) -> Result<Outcome, RemoteFault>
    ensures brings { (h : List Input) → StandsFor end.old.end h → IfOk result (λ o. OnOpen conn.value h end.old end.new (outcome_of o)
        ((outcome_of o ≡ Cut conn.value) × Drops conn.value h end.old end.new)) }
    ensures err { OnErr result (StandsAsBefore end.old end.new) }
    ensures worn_out { (h : List Input) → StandsFor end.old.end h → IsErrOf result RemoteFault.WornOut → most_steps ≤ length h }
{
    if !end.is_open(conn) {
        return no_effect(alloc, NOT_OPEN);
    }
    drop_connection(end, conn)?;
    Ok(Outcome::Cut(conn))
}

/// Has a connection end in its next message.
pub(crate) fn cut_after(
    alloc: Global,
    end: &ScriptedEnd,
    conn: JsUint,
    bytes: JsUint,
) -> Result<Outcome, RemoteFault>
    ensures brings { (h : List Input) → StandsFor end.now.end h → IfOk result (λ o. OnOpen conn.value h end.now end.now (outcome_of o)
        ((outcome_of o ≡ CutAfter conn.value bytes.value) × IsUnchanged end.now end.now)) }
    ensures worn_out { IsErrOf result RemoteFault.WornOut → ⊥ }
{
    if !end.is_open(conn) {
        return no_effect(alloc, NOT_OPEN);
    }
    Ok(Outcome::CutAfter(conn, bytes))
}

/// Closes a connection with a code.
pub(crate) fn close(
    alloc: Global,
    end: &mut ScriptedEnd,
    conn: JsUint,
    code: JsUint,
) -> Result<Outcome, RemoteFault>
    ensures brings { (h : List Input) → StandsFor end.old.end h → IfOk result (λ o. OnOpen conn.value h end.old end.new (outcome_of o)
        (((is_close_code code.value ≡ false) × HasNoEffect end.old end.new (outcome_of o)) ⊎ ((is_close_code code.value ≡ true)
        × (outcome_of o ≡ Closed conn.value code.value) × Drops conn.value h end.old end.new))) }
    ensures err { OnErr result (StandsAsBefore end.old end.new) }
    ensures worn_out { (h : List Input) → StandsFor end.old.end h → IsErrOf result RemoteFault.WornOut → most_steps ≤ length h }
{
    if !end.is_open(conn) {
        return no_effect(alloc, NOT_OPEN);
    }
    let Some(code) = close_code(code) else {
        return no_effect(alloc, NO_CODE);
    };
    drop_connection(end, conn)?;
    Ok(Outcome::Closed(conn, code))
}

// Has the remote end drop a connection.
fn drop_connection(end: &mut ScriptedEnd, conn: JsUint) -> Result<(), RemoteFault>
    ensures drops { (h : List Input) → StandsFor end.old.end h → OnOk result (Drops conn.value h end.old end.new) }
    ensures err { OnErr result (StandsAsBefore end.old end.new) }
    ensures worn_out { (h : List Input) → StandsFor end.old.end h → IsErrOf result RemoteFault.WornOut → most_steps ≤ length h }
{
    match end.step(Step::Drop(conn)) {
        Ok(_) => Ok(()),
        Err(fault) => Err(fault),
    }
}

/// Has handshakes refused.
pub(crate) fn refuse(alloc: Global, number: JsUint, code: JsUint) -> Result<Outcome, RemoteFault>
    ensures brings { (h : List Input) (end : ScriptedEnd) → IfOk result (λ o. Brings (lines.Refuse number.value code.value) h end end (outcome_of o)) }
    ensures worn_out { IsErrOf result RemoteFault.WornOut → ⊥ }
{
    match refusing_status(number, code) {
        None => no_effect(alloc, NO_REFUSAL),
        Some(status) => Ok(Outcome::Refusing(number, status)),
    }
}

// The status of this number, if so many handshakes can be refused by it.
fn refusing_status(number: JsUint, code: JsUint) -> Option<u16>
    ensures some { IfSome result (λ status. (status ≡ code.value) × (can_refuse number.value code.value ≡ true)) }
    ensures none { IfNone result (can_refuse number.value code.value ≡ false) }
{
    if number.value > MOST_REFUSED {
        return None;
    }
    match code.value {
        400..=599 => Some(code.value as u16),
        _ => None,
    }
}

// Whether a text is pairs of hexadecimal digits.
fn is_hex(digits: &str) -> bool
    ensures { result ≡ is_hex digits.now }
{
    digits.len() % 2 == 0 && has_digits(digits)
}

// Whether a text has hexadecimal digits only.
fn has_digits(text: &str) -> bool
    ensures { result ≡ list_all is_digit text.now }
{
    text.as_bytes().iter().all(|b| is_digit(*b))
}

// Whether a byte is a hexadecimal digit.
fn is_digit(b: u8) -> bool
    ensures { result ≡ is_digit b }
{
    matches!(b, b'0'..=b'9' | b'A'..=b'F' | b'a'..=b'f')
}

// The close code of this number, if a server may send it: RFC 6455, 7.4.
fn close_code(code: JsUint) -> Option<u16>
    ensures some { IfSome result (λ n. (n ≡ code.value) × (is_close_code code.value ≡ true)) }
    ensures none { IfNone result (is_close_code code.value ≡ false) }
{
    match code.value {
        1000..=1003 | 1007..=1013 | 3000..=4999 => Some(code.value as u16),
        _ => None,
    }
}
