//! The results of the commands of the session module.
ghost use Rattle.std.specs.Prelude.{◌≡◌, IfOk, if◌then◌else◌, true, false, codes, string_bytes};
ghost use Rattle.bidi_tree.specs.Node.{text, no_members};
ghost use Rattle.bidi_tree.specs.Text.{compact_text};
ghost use Rattle.bidi_handles.specs.declared.id.IdKind.TheVariants.{Session};
ghost use Rattle.bidi_handles.specs.Ids.{id_of};
ghost use Rattle.bidi_handles.specs.Maps.{◌being◌and◌, mapped, nothing};
ghost use Rattle.bidi_messages.specs.Message.{status_tree};
ghost use Rattle.bidi_messages.specs.Payloads.{ResultIsWell, result_method, result_tree};
ghost use Rattle.bidi_sessions.specs.Capabilities.{capabilities};
ghost use Rattle.bidi_sessions.specs.Results.{subscription_tree};

use crate::capabilities::{BROWSER_NAME, BROWSER_VERSION, PLATFORM_NAME};
use bidi_handles::{IdKind, id_text};
use bidi_messages::{Method, Payload, ResultData};
use bidi_params::session::NewResult;
use bidi_params::{Capabilities, EmptyResult, SubscribeResult};
use bidi_shape::{Ext, Shape};
use std::alloc::{AllocError, Global};

/// The text of the result of `session.status`. The message is `ready` if a session can be made, and `full` if not.
///
/// # Errors
/// No memory: an allocation failed.
pub fn status_text(alloc: Global, is_ready: bool) -> Result<String, AllocError>
    // The text says whether a session can be made, with the message of that case.
    ensures { IfOk result (λ s. string_bytes s
        ≡ compact_text (if is_ready then status_tree true (codes "ready") else status_tree false (codes "full"))) }
{
    if is_ready {
        String::from_str(alloc, "{\"message\":\"ready\",\"ready\":true}")
    } else {
        String::from_str(alloc, "{\"message\":\"full\",\"ready\":false}")
    }
}

/// The result of `session.new`: the id of the session of this number, and the capabilities of the browser.
///
/// # Errors
/// No memory: an allocation failed.
pub fn new_result(alloc: Global, session: u32) -> Result<ResultData, AllocError>
    // The result has the id of this session and the browser's capabilities, and nothing else.
    ensures tree { IfOk result (λ r. result_tree r
        ≡ mapped ("capabilities" being capabilities and "sessionId" being text (id_of Session session) and no_members)) }
    // A message can be made of the result.
    ensures well { IfOk result ResultIsWell }
    // The result is one of `session.new`.
    ensures of_method { IfOk result (λ r. result_method r ≡ Method.SessionNew) }
{
    let session_id = id_text(alloc, IdKind::Session, 0, u64::from(session))?;
    let capabilities = capabilities(alloc)?;
    Ok(ResultData::SessionNew(NewResult {
        session_id,
        capabilities,
        ext: Ext::empty(alloc),
    }))
}

// The capabilities of the browser.
fn capabilities(alloc: Global) -> Result<Capabilities, AllocError>
    ensures tree { IfOk result (λ c. ⟦<Capabilities as Shape>⟧.shape.tree_of c ≡ capabilities) }
    ensures well { IfOk result ⟦<Capabilities as Shape>⟧.shape.well }
{
    Ok(Capabilities {
        accept_insecure_certs: false,
        browser_name: String::from_str(alloc, BROWSER_NAME)?,
        browser_version: String::from_str(alloc, BROWSER_VERSION)?,
        platform_name: String::from_str(alloc, PLATFORM_NAME)?,
        set_window_rect: false,
        user_agent: String::from_str(alloc, "memory-browser/1.0")?,
        ext: Ext::empty(alloc),
    })
}

/// The result of `session.end`, which is empty. Takes no memory.
pub fn end_result(alloc: Global) -> ResultData
    // The result is an empty object.
    ensures tree { result_tree result ≡ nothing }
    // A message can be made of the result.
    ensures well { ResultIsWell result }
    // The result is one of `session.end`.
    ensures of_method { result_method result ≡ Method.SessionEnd }
{
    ResultData::SessionEnd(EmptyResult {
        ext: Ext::empty(alloc),
    })
}

/// The result of `session.subscribe`: the id of the subscription of this number.
///
/// # Errors
/// No memory: an allocation failed.
pub fn subscribe_result(alloc: Global, session: u32, number: u32) -> Result<ResultData, AllocError>
    // The result has the id of this subscription of the session, and nothing else.
    ensures tree { IfOk result (λ r. result_tree r ≡ subscription_tree session number) }
    // A message can be made of the result.
    ensures well { IfOk result ResultIsWell }
    // The result is one of `session.subscribe`.
    ensures of_method { IfOk result (λ r. result_method r ≡ Method.SessionSubscribe) }
{
    let subscription = id_text(alloc, IdKind::Subscription, session, u64::from(number))?;
    Ok(ResultData::SessionSubscribe(SubscribeResult {
        subscription,
        ext: Ext::empty(alloc),
    }))
}

/// The result of `session.unsubscribe`, which is empty. Takes no memory.
pub fn unsubscribe_result(alloc: Global) -> ResultData
    // The result is an empty object.
    ensures tree { result_tree result ≡ nothing }
    // A message can be made of the result.
    ensures well { ResultIsWell result }
    // The result is one of `session.unsubscribe`.
    ensures of_method { result_method result ≡ Method.SessionUnsubscribe }
{
    ResultData::SessionUnsubscribe(EmptyResult {
        ext: Ext::empty(alloc),
    })
}
