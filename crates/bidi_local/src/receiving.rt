//! The meaning of a message to a local end.
ghost use Rattle.std.specs.Prelude.{◌≡◌, IfOk, OnErr};
ghost use Rattle.bidi_tree.specs.Node as kind;
ghost use Rattle.bidi_shape.specs.ValueLaws.{others_of};
ghost use Rattle.bidi_local.specs.Pending.{Pending};
ghost use Rattle.bidi_local.specs.Received.{settled, IsSettledBy};
ghost use Rattle.bidi_local.specs.Receiving.{IsMeaningOf, IsOutcome, IsRefusal};
ghost use Rattle.bidi_local.specs.View.{meaning_of, IsWell};

use crate::pending::{method_of, settle};
use crate::received::{Received, Taken};
use bidi_messages::{ErrorCode, ErrorResponse, Event, Message, Method, Response, result_of};
use bidi_shape::{Ext, Shape, ShapeFault};
use bidi_tree::JsUint;
use indexmap::IndexMap;
use std::alloc::{AllocError, Global};

/// Finds the meaning of a message, given the pending commands. Settles the command that it answers, and
/// returns its method.
///
/// # Errors
/// No memory: an allocation failed. Each command still waits.
pub(crate) fn receive(
    alloc: Global,
    pending: &mut IndexMap<u64, Method>,
    message: Message,
) -> Result<Taken, AllocError>
    requires { ⟦<Message as Shape>⟧.shape.well message }
    ensures means { IfOk result (λ t. IsMeaningOf pending.old.entries (⟦<Message as Shape>⟧.shape.tree_of message) (meaning_of t.received)) }
    ensures method { IfOk result (λ t. IsSettledBy pending.old.entries (meaning_of t.received) t.method) }
    ensures settles { IfOk result (λ t. pending.new.entries ≡ settled pending.old.entries (meaning_of t.received)) }
    ensures well { IfOk result (λ t. IsWell t.received) }
    ensures err { OnErr result (pending.new.entries ≡ pending.old.entries) }
{
    match message {
        Message::Response(response) => receive_response(alloc, pending, response),
        Message::Error(error) => Ok(receive_error(pending, error)),
        Message::Event(event) => Ok(receive_event(event)),
    }
}

// Finds the meaning of a response, and settles the command that it answers.
fn receive_response(
    alloc: Global,
    pending: &mut IndexMap<u64, Method>,
    response: Response,
) -> Result<Taken, AllocError>
    requires { ⟦<Response as Shape>⟧.shape.well response }
    ensures means { IfOk result (λ t. IsMeaningOf pending.old.entries (⟦<Response as Shape>⟧.shape.tree_of response) (meaning_of t.received)) }
    ensures method { IfOk result (λ t. IsSettledBy pending.old.entries (meaning_of t.received) t.method) }
    ensures settles { IfOk result (λ t. pending.new.entries ≡ settled pending.old.entries (meaning_of t.received)) }
    ensures well { IfOk result (λ t. IsWell t.received) }
    ensures err { OnErr result (pending.new.entries ≡ pending.old.entries) }
{
    match method_of(pending, response.id.value) {
        Some(method) => {
            let outcome = outcome_of(alloc, response.id, method, response.result)?;
            settle(pending, response.id.value);
            Ok(Taken {
                received: outcome,
                method: Some(method),
            })
        }
        None => Ok(Taken {
            received: Received::Stray,
            method: None,
        }),
    }
}

/// Finds the meaning of the result of the command with this id and method.
///
/// # Errors
/// No memory: an allocation failed.
fn outcome_of(
    alloc: Global,
    id: JsUint,
    method: Method,
    contents: Ext,
) -> Result<Received, AllocError>
    ensures outcome { IfOk result (λ r. IsOutcome id.value method (kind.map (others_of contents)) (meaning_of r)) }
    ensures well { IfOk result IsWell }
{
    match result_of(alloc, method, &contents.members) {
        Ok(result_data) => Ok(Received::Answer(id, result_data)),
        Err(ShapeFault::NoFit) => Ok(Received::BadResult(id)),
        Err(ShapeFault::NoMemory) => Err(AllocError),
    }
}

// Finds the meaning of an error, and settles the command that it answers.
fn receive_error(pending: &mut IndexMap<u64, Method>, error: ErrorResponse) -> Taken
    requires { ⟦<ErrorResponse as Shape>⟧.shape.well error }
    ensures means { IsMeaningOf pending.old.entries (⟦<ErrorResponse as Shape>⟧.shape.tree_of error) (meaning_of result.received) }
    ensures method { IsSettledBy pending.old.entries (meaning_of result.received) result.method }
    ensures settles { pending.new.entries ≡ settled pending.old.entries (meaning_of result.received) }
    ensures well { IsWell result.received }
{
    match error.id {
        Some(id) => refusal_of(pending, id, error.error),
        None => Taken {
            received: Received::Stray,
            method: None,
        },
    }
}

/// Finds the meaning of an error with this id and code, and settles the command that it answers.
fn refusal_of(pending: &mut IndexMap<u64, Method>, id: JsUint, code: ErrorCode) -> Taken
    ensures refusal { IsRefusal pending.old.entries id.value code (meaning_of result.received) }
    ensures method { IsSettledBy pending.old.entries (meaning_of result.received) result.method }
    ensures settles { pending.new.entries ≡ settled pending.old.entries (meaning_of result.received) }
    ensures well { IsWell result.received }
{
    match method_of(pending, id.value) {
        Some(method) => {
            settle(pending, id.value);
            Taken {
                received: Received::Refusal(id, code),
                method: Some(method),
            }
        }
        None => Taken {
            received: Received::Stray,
            method: None,
        },
    }
}

// Finds the meaning of an event. It settles no command.
fn receive_event(event: Event) -> Taken
    requires { ⟦<Event as Shape>⟧.shape.well event }
    ensures means { (waiting : Pending) → IsMeaningOf waiting (⟦<Event as Shape>⟧.shape.tree_of event) (meaning_of result.received) }
    ensures method { (waiting : Pending) → IsSettledBy waiting (meaning_of result.received) result.method }
    ensures settles { (waiting : Pending) → settled waiting (meaning_of result.received) ≡ waiting }
    ensures well { IsWell result.received }
{
    Taken {
        received: Received::Event(event.data),
        method: None,
    }
}
