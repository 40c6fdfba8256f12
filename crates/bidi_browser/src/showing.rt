//! The result that `script.evaluate` and `script.callFunction` give of a script that ended.
ghost use Rattle.std.specs.Prelude.{◌≡◌, ◌≤◌, ◌<◌, ◌^◌, true, IfOk, IfSome, option_map, string_bytes};
ghost use Rattle.bidi_tree.specs.Node.{Node, levels, text};
ghost use Rattle.bidi_tree.specs.Text.{compact_text};
ghost use Rattle.bidi_shape.specs.Name.{evaluate_result};
ghost use Rattle.bidi_methods.specs.Method.{result_of};
ghost use Rattle.bidi_values.specs.Cut.{cut_to};
ghost use Rattle.bidi_contexts.specs.Realms.{value_of};
ghost use Rattle.bidi_browser.specs.Plans.{IsWellResult};
ghost use Rattle.bidi_browser.specs.declared.command_result.CommandResult.TheVariants as CommandResult;
ghost use Rattle.bidi_browser.specs.Runs.{result_told, success_tree, exception_tree};
ghost use Rattle.bidi_browser.specs.TableInHand.{ending_seen};
ghost use Rattle.bidi_browser.specs.View.{text_tree};
ghost use Rattle.bidi_handles.specs.Values.{shown_as, takes_handle};
ghost use Rattle.bidi_handles.specs.ValuesInHand.{held_tree};

use crate::command_result::ResultText;
use bidi_handles::{Ending, HeldValue, IdKind, id_text, shown_text};
use bidi_methods::Method;
use bidi_tree::{JsUint, Outline, write_outline};
use std::alloc::{AllocError, Global};

/// The result of a script that ended in a realm. Its value is cut at this depth, if one was asked for, and shows this
/// handle, if it got one.
///
/// Copies the text of the value, twice.
pub(crate) fn result_of_ending(
    alloc: Global,
    method: Method,
    realm: u64,
    ending: &Ending,
    depth: Option<JsUint>,
    handle: Option<u64>,
) -> Result<ResultText, AllocError>
    requires method { result_of method ≡ evaluate_result }
    requires realm { realm < 2 ^ 48 }
    requires handle { IfSome handle (λ n. n < 2 ^ 48) }
    requires takes { IfSome handle (λ n. takes_handle (value_of (ending_seen ending.now)) ≡ true) }
    ensures tree { IfOk result (λ r. text_tree r
        ≡ result_told realm (ending_seen ending.now) (shown_as handle (cut_to (option_map (λ d. d.value) depth) (value_of (ending_seen ending.now))))) }
    ensures well { IfOk result (λ r. IsWellResult (CommandResult.Text r)) }
    ensures method { IfOk result (λ r. r.method ≡ method) }
{
    let realm = id_text(alloc, IdKind::Realm, 0, realm)?;
    match ending {
        Ending::Returned(value) => {
            returned(alloc, method, &realm, value.as_ref(), depth, handle)
        }
        Ending::Threw(thrown) => threw(alloc, method, &realm, thrown.held.as_ref(), depth, handle),
    }
}

// The result of a script that returned this value.
fn returned(
    alloc: Global,
    method: Method,
    realm: &str,
    held: &HeldValue,
    depth: Option<JsUint>,
    handle: Option<u64>,
) -> Result<ResultText, AllocError>
    requires method { result_of method ≡ evaluate_result }
    requires handle { IfSome handle (λ n. n < 2 ^ 48) }
    requires takes { IfSome handle (λ n. takes_handle (held_tree held.now) ≡ true) }
    ensures tree { IfOk result (λ r. text_tree r
        ≡ success_tree (text realm.now) (shown_as handle (cut_to (option_map (λ d. d.value) depth) (held_tree held.now)))) }
    ensures well { IfOk result (λ r. IsWellResult (CommandResult.Text r)) }
    ensures method { IfOk result (λ r. r.method ≡ method) }
{
    let value = shown_text(alloc, held, depth, handle)?;
    let text = success_text(alloc, realm, &value)?;
    Ok(ResultText { method, text })
}

// The result of a script that threw this value.
fn threw(
    alloc: Global,
    method: Method,
    realm: &str,
    held: &HeldValue,
    depth: Option<JsUint>,
    handle: Option<u64>,
) -> Result<ResultText, AllocError>
    requires method { result_of method ≡ evaluate_result }
    requires handle { IfSome handle (λ n. n < 2 ^ 48) }
    requires takes { IfSome handle (λ n. takes_handle (held_tree held.now) ≡ true) }
    requires few { levels (held_tree held.now) ≤ 59 }
    ensures tree { IfOk result (λ r. text_tree r
        ≡ exception_tree (text realm.now) (shown_as handle (cut_to (option_map (λ d. d.value) depth) (held_tree held.now)))) }
    ensures well { IfOk result (λ r. IsWellResult (CommandResult.Text r)) }
    ensures method { IfOk result (λ r. r.method ≡ method) }
{
    let value = shown_text(alloc, held, depth, handle)?;
    let text = exception_text(alloc, realm, &value)?;
    Ok(ResultText { method, text })
}

// A string of JSON.
fn quoted(alloc: Global, s: &str) -> Result<String, AllocError>
    ensures { IfOk result (λ q. string_bytes q ≡ compact_text (text s.now)) }
{
    write_outline(alloc, &Outline::Text(s))
}

// The room for the other members of a result.
const ROOM: usize = 192;

// The text of the result of a script that returned the value of this text.
fn success_text(alloc: Global, realm: &str, value: &str) -> Result<String, AllocError>
    ensures { (t : Node) → value.now ≡ compact_text t → IfOk result (λ s. string_bytes s ≡ compact_text (success_tree (text realm.now) t)) }
{
    let realm = quoted(alloc, realm)?;
    let mut text = String::with_capacity(alloc, value.len().saturating_add(ROOM))?;
    text.push_str("{\"realm\":")?;
    text.push_str(&realm)?;
    text.push_str(",\"result\":")?;
    text.push_str(value)?;
    text.push_str(",\"type\":\"success\"}")?;
    Ok(text)
}

// The text of the result of a script that threw the value of this text. The exception names line 0 and column 0, the first,
// and no call frames.
fn exception_text(alloc: Global, realm: &str, value: &str) -> Result<String, AllocError>
    ensures { (t : Node) → value.now ≡ compact_text t → IfOk result (λ s. string_bytes s ≡ compact_text (exception_tree (text realm.now) t)) }
{
    let realm = quoted(alloc, realm)?;
    let mut text = String::with_capacity(alloc, value.len().saturating_add(ROOM))?;
    text.push_str("{\"exceptionDetails\":{\"columnNumber\":0,\"exception\":")?;
    text.push_str(value)?;
    text.push_str(
        ",\"lineNumber\":0,\"stackTrace\":{\"callFrames\":[]},\"text\":\"thrown\"},\"realm\":",
    )?;
    text.push_str(&realm)?;
    text.push_str(",\"type\":\"exception\"}")?;
    Ok(text)
}
