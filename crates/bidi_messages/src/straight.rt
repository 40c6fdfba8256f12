//! The params of events and the results of commands as JSON text. Those that come often are written without an outline, unless a
//! string in them has to be escaped.
ghost use Rattle.std.specs.Prelude.{◌≡◌, ◌++◌, codes, IfOk, IfSome, OnOk, IsTrue, string_bytes};
ghost use Rattle.json.specs.Print.{escape};
ghost use Rattle.bidi_tree.specs.Node.{IsSound, IsWritable, no_members};
ghost use Rattle.bidi_tree.specs.Text.{compact_text};
ghost use Rattle.bidi_shape.specs.ValueLaws.{others_of};
ghost use Rattle.bidi_messages.specs.Payloads.{event_params, result_tree};

use crate::plain::{has_no_escape, has_no_escape_if_there, is_empty, push_nullable};
use crate::straight_entry::append_entry;
use bidi_methods::{EventData, Payload, ResultData};
use bidi_params::{NavigateResult, NavigationInfo};
use bidi_scripts::RealmInfo;
use bidi_shape::{Ext, Shape};
use bidi_tree::append_outline;
use std::alloc::{AllocError, Global};

// ---- params and results

/// Appends the compact text of an event's params.
///
/// # Errors
/// No memory: an allocation failed. The text is then lost.
pub(crate) fn append_params(
    alloc: Global,
    text: String,
    event: &EventData,
) -> Result<String, AllocError>
    requires { IsWritable (event_params event.now) }
    ensures text { IfOk result (λ s. string_bytes s ≡ string_bytes text ++ compact_text (event_params event.now)) }
    ensures sound { OnOk result (IsSound (event_params event.now)) }
{
    match event {
        EventData::NavigationStarted(info)
        | EventData::DomContentLoaded(info)
        | EventData::Load(info)
            if is_plain_navigation(info) => { append_navigation(text, info) }
        EventData::RealmCreated(info) if is_plain_realm(info) => append_realm(text, info),
        EventData::RealmDestroyed(params) if is_plain(&params.ext, &params.realm) => {
            append_one(text, "{\"realm\":\"", &params.realm)
        }
        EventData::EntryAdded(entry) => append_entry(alloc, text, entry),
        _ => {
            let outline = event.outline(alloc)?;
            append_outline(text, &outline)
        }
    }
}

/// Appends the compact text of a result.
///
/// # Errors
/// No memory: an allocation failed. The text is then lost.
pub(crate) fn append_result(
    alloc: Global,
    text: String,
    result_data: &ResultData,
) -> Result<String, AllocError>
    requires { IsWritable (result_tree result_data.now) }
    ensures text { IfOk result (λ s. string_bytes s ≡ string_bytes text ++ compact_text (result_tree result_data.now)) }
    ensures sound { OnOk result (IsSound (result_tree result_data.now)) }
{
    match result_data {
        ResultData::SessionEnd(result)
        | ResultData::SessionUnsubscribe(result)
        | ResultData::BrowsingContextActivate(result)
        | ResultData::BrowsingContextClose(result)
        | ResultData::BrowsingContextTraverseHistory(result)
        | ResultData::ScriptDisown(result)
        | ResultData::BrowserRemoveUserContext(result)
            if is_empty(&result.ext) => { append(text, "{}") }
        ResultData::SessionSubscribe(result) if is_plain(&result.ext, &result.subscription) => {
            append_one(text, "{\"subscription\":\"", &result.subscription)
        }
        ResultData::BrowsingContextCreate(result) if is_plain(&result.ext, &result.context) => {
            append_one(text, "{\"context\":\"", &result.context)
        }
        ResultData::BrowserCreateUserContext(result)
            if is_plain(&result.ext, &result.user_context) => {
            append_one(text, "{\"userContext\":\"", &result.user_context)
        }
        ResultData::BrowsingContextNavigate(result) | ResultData::BrowsingContextReload(result)
            if is_plain_result(result) => { append_navigated(text, result) }
        _ => {
            let outline = result_data.outline(alloc)?;
            append_outline(text, &outline)
        }
    }
}

// ---- what can be written so: no further members, and no byte that is escaped

// Whether this is so of the params of a navigation.
fn is_plain_navigation(info: &NavigationInfo) -> bool
    ensures { IsTrue result → (others_of info.now.ext ≡ no_members) × (escape (string_bytes info.now.context) ≡ string_bytes info.now.context)
        × (IfSome info.now.navigation (λ id. escape (string_bytes id) ≡ string_bytes id)) × (escape (string_bytes info.now.url) ≡ string_bytes info.now.url) }
{
    is_plain(&info.ext, &info.context)
        && has_no_escape_if_there(&info.navigation)
        && has_no_escape(&info.url)
}

// Whether this is so of the params of a realm's beginning.
fn is_plain_realm(info: &RealmInfo) -> bool
    ensures { IsTrue result → (others_of info.now.ext ≡ no_members) × (escape (string_bytes info.now.context) ≡ string_bytes info.now.context)
        × (escape (string_bytes info.now.origin) ≡ string_bytes info.now.origin) × (escape (string_bytes info.now.realm) ≡ string_bytes info.now.realm) }
{
    is_plain(&info.ext, &info.context) && has_no_escape(&info.origin) && has_no_escape(&info.realm)
}

// Whether this is so of the result of a navigation.
fn is_plain_result(navigated: &NavigateResult) -> bool
    ensures { IsTrue result → (others_of navigated.now.ext ≡ no_members) × (escape (string_bytes navigated.now.url) ≡ string_bytes navigated.now.url)
        × (IfSome navigated.now.navigation (λ id. escape (string_bytes id) ≡ string_bytes id)) }
{
    is_plain(&navigated.ext, &navigated.url) && has_no_escape_if_there(&navigated.navigation)
}

// Whether this is so of an object with these further members and this string.
fn is_plain(ext: &Ext, text: &String) -> bool
    ensures { IsTrue result → (others_of ext.now ≡ no_members) × (escape (string_bytes text.now) ≡ string_bytes text.now) }
{
    is_empty(ext) && has_no_escape(text)
}

// ---- writing

// Appends the text of the params of a navigation.
fn append_navigation(text: String, info: &NavigationInfo) -> Result<String, AllocError>
    requires alone { others_of info.now.ext ≡ no_members }
    requires context { escape (string_bytes info.now.context) ≡ string_bytes info.now.context }
    requires navigation { IfSome info.now.navigation (λ id. escape (string_bytes id) ≡ string_bytes id) }
    requires url { escape (string_bytes info.now.url) ≡ string_bytes info.now.url }
    ensures text { IfOk result (λ s. string_bytes s ≡ string_bytes text ++ compact_text (⟦<NavigationInfo as Shape>⟧.shape.tree_of info.now)) }
    ensures sound { OnOk result (IsSound (⟦<NavigationInfo as Shape>⟧.shape.tree_of info.now)) }
{
    let mut digits = itoa::Buffer::new();
    let mut text = text;
    text.push_str("{\"context\":\"")?;
    text.push_str(&info.context)?;
    text.push_str("\",\"navigation\":")?;
    push_nullable(&mut text, &info.navigation)?;
    text.push_str(",\"timestamp\":")?;
    text.push_str(digits.format(info.timestamp.value))?;
    text.push_str(",\"url\":\"")?;
    text.push_str(&info.url)?;
    text.push_str("\"}")?;
    Ok(text)
}

// Appends the text of the params of a realm's beginning.
fn append_realm(text: String, info: &RealmInfo) -> Result<String, AllocError>
    requires alone { others_of info.now.ext ≡ no_members }
    requires context { escape (string_bytes info.now.context) ≡ string_bytes info.now.context }
    requires origin { escape (string_bytes info.now.origin) ≡ string_bytes info.now.origin }
    requires realm { escape (string_bytes info.now.realm) ≡ string_bytes info.now.realm }
    ensures text { IfOk result (λ s. string_bytes s ≡ string_bytes text ++ compact_text (⟦<RealmInfo as Shape>⟧.shape.tree_of info.now)) }
    ensures sound { OnOk result (IsSound (⟦<RealmInfo as Shape>⟧.shape.tree_of info.now)) }
{
    let mut text = text;
    text.push_str("{\"context\":\"")?;
    text.push_str(&info.context)?;
    text.push_str("\",\"origin\":\"")?;
    text.push_str(&info.origin)?;
    text.push_str("\",\"realm\":\"")?;
    text.push_str(&info.realm)?;
    text.push_str("\",\"type\":\"window\"}")?;
    Ok(text)
}

// Appends the text of the result of a navigation.
fn append_navigated(text: String, navigated: &NavigateResult) -> Result<String, AllocError>
    requires alone { others_of navigated.now.ext ≡ no_members }
    requires url { escape (string_bytes navigated.now.url) ≡ string_bytes navigated.now.url }
    requires navigation { IfSome navigated.now.navigation (λ id. escape (string_bytes id) ≡ string_bytes id) }
    ensures text { IfOk result (λ s. string_bytes s ≡ string_bytes text ++ compact_text (⟦<NavigateResult as Shape>⟧.shape.tree_of navigated.now)) }
    ensures sound { OnOk result (IsSound (⟦<NavigateResult as Shape>⟧.shape.tree_of navigated.now)) }
{
    let mut text = text;
    text.push_str("{\"navigation\":")?;
    push_nullable(&mut text, &navigated.navigation)?;
    text.push_str(",\"url\":\"")?;
    text.push_str(&navigated.url)?;
    text.push_str("\"}")?;
    Ok(text)
}

// Appends the text of an object with one member, a string, by the text up to the string.
fn append_one(text: String, front: &str, value: &str) -> Result<String, AllocError>
    ensures { IfOk result (λ s. string_bytes s ≡ string_bytes text ++ (front.now ++ (value.now ++ codes "\"}"))) }
{
    let mut text = text;
    text.push_str(front)?;
    text.push_str(value)?;
    text.push_str("\"}")?;
    Ok(text)
}

// Appends a text as it is.
fn append(text: String, more: &str) -> Result<String, AllocError>
    ensures { IfOk result (λ s. string_bytes s ≡ string_bytes text ++ more.now) }
{
    let mut text = text;
    text.push_str(more)?;
    Ok(text)
}
