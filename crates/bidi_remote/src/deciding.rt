//! How a command is decided, by the state of its connection.
ghost use Rattle.std.specs.Prelude.{◌≡◌, List};
ghost use Rattle.bidi_browser.specs.Asked.{command_asked};
ghost use Rattle.bidi_contexts.specs.Outcome as browser;
ghost use Rattle.bidi_contexts.specs.Tables.{HasIds};
ghost use Rattle.bidi_remote.specs.Machine.Connections.{attachment_of, Alone, SpeaksFor};
ghost use Rattle.bidi_remote.specs.Machine.Commands.{OfBrowser};
ghost use Rattle.bidi_remote.specs.Machine.History.{Input, Deed, acts};
ghost use Rattle.bidi_remote.specs.Machine.Outcome.{deeds, did, outcome};
ghost use Rattle.bidi_remote.specs.State.Asked.{IsWellAsked, asked_of, session_asked_of};
ghost use Rattle.bidi_sessions.specs.ConnectionRows.{attachment_in_hand};
ghost use Rattle.bidi_remote.specs.State.Stands.{AgreeWith, IsShort};
ghost use Rattle.bidi_remote.specs.State.Turns.{Decides, HasResultOf, IsWellDecided};
ghost use Rattle.bidi_messages.specs.Payloads.{command_method};
ghost use Rattle.bidi_methods.specs.CommandData.{session_asked, browser_asked};
ghost use Rattle.bidi_methods.specs.declared.command_data.CommandData.TheVariants.{Session};

use crate::session::{decide_end, decide_new, decide_status, decide_subscribe, decide_unsubscribe};
use crate::state::State;
use crate::turn::{Asker, Turn};
use bidi_browser::{Action, Refusal};
use bidi_messages::{BrowserCommand, CommandData, ErrorCode, Method, Payload, SessionCommand};
use bidi_params::session::NewParameters;
use bidi_sessions::Attachment;
use bidi_shape::Shape;
use std::alloc::Global;

/// Decides a command on a connection in this state: a turn or a refusal. Changes nothing.
///
/// # Errors
/// - `invalid session id`: the connection has no session, and the command is neither `session.status` nor
///   `session.new`.
/// - `session not created`: the command is `session.new`, and the connection has a session.
/// - Those of the command itself.
/// - No memory: an allocation failed.
pub(crate) fn decide(
    alloc: Global,
    state: &State,
    asker: Asker,
    attachment: Attachment,
    asked: &CommandData,
) -> Result<Turn, Refusal>
    requires { IsWellAsked ⟦<NewParameters as Shape>⟧.shape asked.now }
    ensures ok { (h : List Input) → IsShort h → AgreeWith state.now (deeds h) → attachment_of (deeds h) asker.conn.value ≡ attachment_in_hand attachment
        → (let what = asked_of ⟦<NewParameters as Shape>⟧.shape asked.now in
        Decides result (deeds h) asker what (outcome (deeds h) asker.conn.value (attachment_in_hand attachment) what)) }
    ensures well { IsWellDecided result }
    ensures of_method { HasResultOf (command_method asked.now) result }
{
    match attachment {
        Attachment::Shut => Err(Refusal::Code(ErrorCode::InvalidSessionId)),
        Attachment::Alone => decide_alone(alloc, state, asker, asked),
        Attachment::SpeaksFor(session) => decide_in(alloc, state, asker, session, asked),
    }
}

// Decides a command on a connection without a session.
fn decide_alone(
    alloc: Global,
    state: &State,
    asker: Asker,
    asked: &CommandData,
) -> Result<Turn, Refusal>
    requires { IsWellAsked ⟦<NewParameters as Shape>⟧.shape asked.now }
    ensures ok { (h : List Input) → IsShort h → AgreeWith state.now (deeds h)
        → (let what = asked_of ⟦<NewParameters as Shape>⟧.shape asked.now in
        Decides result (deeds h) asker what (outcome (deeds h) asker.conn.value Alone what)) }
    ensures well { IsWellDecided result }
    ensures of_method { HasResultOf (command_method asked.now) result }
{
    match asked {
        CommandData::Session(command) => decide_session_alone(alloc, state, asker, command),
        CommandData::Browser(_) => Err(Refusal::Code(ErrorCode::InvalidSessionId)),
    }
}

// Decides a command of the module session on a connection without a session.
fn decide_session_alone(
    alloc: Global,
    state: &State,
    asker: Asker,
    command: &SessionCommand,
) -> Result<Turn, Refusal>
    requires { IsWellAsked ⟦<NewParameters as Shape>⟧.shape (Session command.now) }
    ensures ok { (h : List Input) → IsShort h → AgreeWith state.now (deeds h)
        → (let what = session_asked_of ⟦<NewParameters as Shape>⟧.shape command.now in
        Decides result (deeds h) asker what (outcome (deeds h) asker.conn.value Alone what)) }
    ensures well { IsWellDecided result }
    ensures of_method { HasResultOf (session_asked command.now).0 result }
{
    match command {
        SessionCommand::Status(_) => decide_status(alloc, state, asker),
        SessionCommand::New(params) => decide_new(alloc, state, asker, params.as_ref()),
        _ => Err(Refusal::Code(ErrorCode::InvalidSessionId)),
    }
}

// Decides a command on a connection that speaks for a session.
fn decide_in(
    alloc: Global,
    state: &State,
    asker: Asker,
    session: u32,
    asked: &CommandData,
) -> Result<Turn, Refusal>
    ensures ok { (h : List Input) → IsShort h → AgreeWith state.now (deeds h) → attachment_of (deeds h) asker.conn.value ≡ SpeaksFor session
        → (let what = asked_of ⟦<NewParameters as Shape>⟧.shape asked.now in
        Decides result (deeds h) asker what (outcome (deeds h) asker.conn.value (SpeaksFor session) what)) }
    ensures well { IsWellDecided result }
    ensures of_method { HasResultOf (command_method asked.now) result }
{
    match asked {
        CommandData::Session(command) => decide_session_in(alloc, state, asker, session, command),
        CommandData::Browser(command) => decide_browser_in(alloc, state, asker, command),
    }
}

// Decides a command of the module session on a connection that speaks for a session.
fn decide_session_in(
    alloc: Global,
    state: &State,
    asker: Asker,
    session: u32,
    command: &SessionCommand,
) -> Result<Turn, Refusal>
    ensures ok { (h : List Input) → IsShort h → AgreeWith state.now (deeds h) → attachment_of (deeds h) asker.conn.value ≡ SpeaksFor session
        → (let what = session_asked_of ⟦<NewParameters as Shape>⟧.shape command.now in
        Decides result (deeds h) asker what (outcome (deeds h) asker.conn.value (SpeaksFor session) what)) }
    ensures well { IsWellDecided result }
    ensures of_method { HasResultOf (session_asked command.now).0 result }
{
    match command {
        SessionCommand::Status(_) => decide_status(alloc, state, asker),
        SessionCommand::New(_) => Err(Refusal::Code(ErrorCode::SessionNotCreated)),
        SessionCommand::End(_) => decide_end(alloc, asker, session),
        SessionCommand::Subscribe(params) => {
            decide_subscribe(alloc, state, asker, session, params.as_ref())
        }
        SessionCommand::Unsubscribe(params) => {
            decide_unsubscribe(alloc, state, asker, session, params)
        }
    }
}

// Decides a command of the browser on a connection that speaks for a session: the browser plans it.
fn decide_browser_in(
    alloc: Global,
    state: &State,
    asker: Asker,
    command: &BrowserCommand,
) -> Result<Turn, Refusal>
    ensures ok { (past : List Deed) → AgreeWith state.now past → HasIds (acts past)
        → Decides result past asker (OfBrowser (command_asked command.now)) (did (browser.outcome (acts past) (command_asked command.now))) }
    ensures well { IsWellDecided result }
    ensures of_method { HasResultOf (browser_asked command.now).0 result }
{
    let plan = state.browser.plan(Action::Asked(command), state.moment)?;
    Ok(Turn::planned(alloc, plan, Some(asker)))
}
