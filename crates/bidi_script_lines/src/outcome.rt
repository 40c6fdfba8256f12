//! What a line of a scripted play brings about, and the lines that are written for it.
ghost use Rattle.std.specs.Prelude.{◌≡◌, map, string_bytes, option_map, IfOk};
ghost use Rattle.bidi_lines.specs.Feeds.{ended};
ghost use Rattle.bidi_sessions.specs.View.{sent_of};
ghost use Rattle.bidi_scripted.specs.View.{held_of, script_of};
ghost use Rattle.bidi_script_lines.specs.Outcomes.{outcome_of, outcome_text, held_line, held_text, with_followers};

use bidi_play::lines_of;
use bidi_remote::Sent;
use bidi_scripted::{HeldCommand, ScriptedEnd};
use bidi_tree::JsUint;
use std::alloc::{AllocError, Global};

/// What a line of a scripted play brings about.
#[derive(Drop)]
pub enum Outcome {
    /// The remote end sends this, in order. Each is followed by what [`ScriptedEnd::followers_of`] says of it.
    OfMachine(Vec<Sent>),
    /// The test sends this, in order.
    Sent(Vec<Sent>),
    /// A command is held, with this number.
    Held(u64),
    /// A binary message goes to the connection: its bytes as hexadecimal digits.
    Bytes(JsUint, String),
    /// Bytes go to the connection without a frame: as hexadecimal digits.
    Raw(JsUint, String),
    /// Nothing more is read from the connection.
    Stalled(JsUint),
    /// The connection is read again.
    Resumed(JsUint),
    /// The connection ends without a close frame.
    Cut(JsUint),
    /// Of the frame of its next message the connection gets so many bytes, and then ends without a close frame.
    CutAfter(JsUint, JsUint),
    /// The connection is closed with this code.
    Closed(JsUint, u16),
    /// So many handshakes from now on are refused by this status.
    Refusing(JsUint, u16),
    /// Nothing, for this reason.
    NoEffect(String),
}

/// Makes the lines that a scripted play writes for an outcome of this end, each with its line feed.
///
/// # Errors
/// No memory: an allocation failed.
pub fn outcome_lines(
    alloc: Global,
    end: &ScriptedEnd,
    outcome: Outcome,
) -> Result<Vec<u8>, AllocError>
    // The result has the lines of the outcome, in order, each with its line feed.
    ensures { IfOk result (λ lines. lines.items ≡ outcome_text (script_of end.now.script) (outcome_of outcome)) }
{
    match outcome {
        Outcome::OfMachine(sent) => lines_of(alloc, with_followers(alloc, end, sent)?),
        Outcome::Sent(sent) => lines_of(alloc, sent),
        Outcome::Held(number) => held_lines(alloc, end.held_command(number)),
        Outcome::Bytes(conn, digits) => {
            let line = format!(in alloc; "bytes {} {digits}", conn.value)?;
            with_feed(line)
        }
        Outcome::Raw(conn, digits) => {
            let line = format!(in alloc; "raw {} {digits}", conn.value)?;
            with_feed(line)
        }
        Outcome::Stalled(conn) => {
            let line = format!(in alloc; "stall {}", conn.value)?;
            with_feed(line)
        }
        Outcome::Resumed(conn) => {
            let line = format!(in alloc; "resume {}", conn.value)?;
            with_feed(line)
        }
        Outcome::Cut(conn) => {
            let line = format!(in alloc; "cut {}", conn.value)?;
            with_feed(line)
        }
        Outcome::CutAfter(conn, bytes) => {
            let line = format!(in alloc; "cut {} {}", conn.value, bytes.value)?;
            with_feed(line)
        }
        Outcome::Closed(conn, code) => {
            let line = format!(in alloc; "close {} {code}", conn.value)?;
            with_feed(line)
        }
        Outcome::Refusing(count, status) => {
            let line = format!(in alloc; "refuse {} {status}", count.value)?;
            with_feed(line)
        }
        Outcome::NoEffect(reason) => {
            let line = format!(in alloc; "no effect: {reason}")?;
            with_feed(line)
        }
    }
}

/// Makes the line for a command that is held, without its line feed.
///
/// # Errors
/// No memory: an allocation failed.
pub fn held_line(alloc: Global, command: &HeldCommand) -> Result<String, AllocError>
    // The result has the number, the connection and the text of the command.
    ensures { IfOk result (λ line. string_bytes line ≡ held_line (held_of command.now)) }
{
    let text = command.text.as_str();
    format!(in alloc; "held {} {} {text}", command.number, command.conn.value)
}

// Makes the line for a command that is held, with its line feed, if there is one.
fn held_lines(alloc: Global, found: Option<&HeldCommand>) -> Result<Vec<u8>, AllocError>
    ensures { IfOk result (λ lines. lines.items ≡ held_text (option_map (λ h. held_of h.now) found.entry)) }
{
    let Some(command) = found else {
        return Ok(Vec::new(alloc));
    };
    with_feed(held_line(alloc, command)?)
}

// The bytes of a line, with its line feed.
fn with_feed(line: String) -> Result<Vec<u8>, AllocError>
    ensures { IfOk result (λ bytes. bytes.items ≡ ended (string_bytes line)) }
{
    let mut line = line;
    line.push('\n')?;
    Ok(line.into_bytes())
}

/// What the remote end sends, each followed by the events that a test had follow it.
///
/// # Errors
/// No memory: an allocation failed.
pub fn with_followers(
    alloc: Global,
    end: &ScriptedEnd,
    sent: Vec<Sent>,
) -> Result<Vec<Sent>, AllocError>
    // The result has each thing that is sent, and directly after it what follows it.
    ensures { IfOk result (λ all. map sent_of all.items ≡ with_followers (script_of end.now.script).followers (map sent_of sent.items)) }
{
    if !end.has_followers() {
        return Ok(sent);
    }
    let mut all = Vec::with_capacity(alloc, sent.len())?;
    for one in sent {
        let mut more = end.followers_of(&one)?;
        all.push(one)?;
        all.append(&mut more)?;
    }
    Ok(all)
}
