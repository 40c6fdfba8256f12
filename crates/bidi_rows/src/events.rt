//! Reading events.
ghost use Rattle.std.specs.Prelude.{◌≡◌, Some, Option, IfOk, IfSome, option_map, string_bytes, map};
ghost use Rattle.json.specs.Json.{Items, array};
ghost use Rattle.json.specs.Tree.{HasNumbers, ItemsHaveNumbers};
ghost use Rattle.json.specs.Value.{value_view, items_view};
ghost use Rattle.bidi_rows.specs.Filling.{template_of};
ghost use Rattle.bidi_rows.specs.Reading.{context_in, IsEvent, AreEvents, HasEvents};
ghost use Rattle.bidi_rows.specs.Refusals.{IfFails, RefusesArray, RefusesEvent, RefusesEvents, RefusesItems};
ghost use Rattle.bidi_rows.specs.Templates.{IsTemplate, AreTemplates};
ghost use Rattle.bidi_rows.specs.View.{event_of, events_of};

use crate::fault::RowFault;
use crate::looking::{has_only, items_in, object_at, string_at};
use crate::part::own;
use crate::row::Event;
use crate::template::Template;
use crate::writing::{compact, quoted};
use json::Value;
use std::alloc::{AllocError, Global};
use std::rc::Rc;

/// The names that the properties of an event can have.
const EVENT_NAMES: &[&str] = &["method", "params"];

/// The events of a property, if there is one.
pub(crate) fn events_in(alloc: Global, property: Option<&Value<'_>>) -> Result<Vec<Event>, RowFault>
    requires { IfSome property (λ v. HasNumbers (value_view v.now)) }
    ensures ok { IfOk result (λ es. HasEvents (option_map (λ v. value_view v.now) property.entry) (events_of es.items)) }
    ensures why { IfFails result (RefusesEvents (option_map (λ v. value_view v.now) property.entry)) }
{
    match property {
        None => Ok(Vec::new(alloc)),
        Some(value) => listed_events(alloc, value),
    }
}

// The events of an array.
#[tactic(auto, using(crate::proofs::RefusalLemmas::no_array, crate::proofs::RefusalLemmas::array_refused))]
fn listed_events(alloc: Global, value: &Value<'_>) -> Result<Vec<Event>, RowFault>
    requires { HasNumbers (value_view value.now) }
    ensures ok { IfOk result (λ es. HasEvents (Some (value_view value.now)) (events_of es.items)) }
    ensures why { IfFails result (RefusesArray (value_view value.now)) }
{
    let Some(items) = items_in(value) else {
        return Err(RowFault::BadEvents);
    };
    all_events_in(alloc, items)
}

// The events of some items.
fn all_events_in(alloc: Global, items: &Vec<Value<'_>>) -> Result<Vec<Event>, RowFault>
    requires { ItemsHaveNumbers (items_view items.now.items) }
    ensures ok { IfOk result (λ es. AreEvents (items_view items.now.items) (events_of es.items)) }
    ensures why { IfFails result (RefusesItems (items_view items.now.items)) }
{
    let mut events = Vec::new(alloc);
    for item in items {
        events.push(event_in(alloc, item)?)?;
    }
    Ok(events)
}

/// The event that a value is.
#[tactic(auto, using(crate::proofs::NumberLemmas::object_numbers))]
pub(crate) fn event_in(alloc: Global, value: &Value<'_>) -> Result<Event, RowFault>
    requires { HasNumbers (value_view value.now) }
    ensures ok { IfOk result (λ e. IsEvent (value_view value.now) (event_of e)) }
    ensures why { IfFails result (RefusesEvent (value_view value.now)) }
{
    if !has_only(value, EVENT_NAMES) {
        return Err(RowFault::Unexpected);
    }
    let Some(method) = string_at(value, "method") else {
        return Err(RowFault::NoMethod);
    };
    let Some(params) = object_at(value, "params") else {
        return Err(RowFault::NoParams);
    };
    let name = quoted(alloc, method)?;
    let written = compact(alloc, params)?;
    let text = format!(in alloc; "{{\"method\":{name},\"params\":{written},\"type\":\"event\"}}")?;
    Ok(Event {
        method: String::from_str(alloc, method)?,
        context: context_in(alloc, params)?,
        text: Rc::new(alloc, text)?,
    })
}

// The context that the params of an event name.
fn context_in(alloc: Global, params: &Value<'_>) -> Result<Option<String>, AllocError>
    ensures { IfOk result (λ c. option_map string_bytes c ≡ context_in (value_view params.now)) }
{
    match context_named(params) {
        Some(context) => Ok(Some(String::from_str(alloc, context)?)),
        None => Ok(None),
    }
}

/// The context that the params of an event name, if they name one.
pub(crate) fn context_named<'a>(params: &Value<'a>) -> Option<&'a str>
    ensures { option_map (λ s. s.now) result ≡ context_in (value_view params.now) }
{
    match string_at(params, "context") {
        Some(context) => Some(context),
        None => string_at(params.get("source")?, "context"),
    }
}

/// The events with places of an array.
#[tactic(auto, using(crate::proofs::RefusalLemmas::no_array, crate::proofs::RefusalLemmas::array_refused))]
pub(crate) fn templates_in(alloc: Global, value: &Value<'_>) -> Result<Vec<Template>, RowFault>
    requires { HasNumbers (value_view value.now) }
    ensures ok { IfOk result (λ ts. (js : Items) × (value_view value.now ≡ array js) × AreTemplates js (map template_of ts.items)) }
    ensures why { IfFails result (RefusesArray (value_view value.now)) }
{
    let Some(items) = items_in(value) else {
        return Err(RowFault::BadEvents);
    };
    all_templates_in(alloc, items)
}

// The events with places of some items.
fn all_templates_in(alloc: Global, items: &Vec<Value<'_>>) -> Result<Vec<Template>, RowFault>
    requires { ItemsHaveNumbers (items_view items.now.items) }
    ensures ok { IfOk result (λ ts. AreTemplates (items_view items.now.items) (map template_of ts.items)) }
    ensures why { IfFails result (RefusesItems (items_view items.now.items)) }
{
    let mut templates = Vec::new(alloc);
    for item in items {
        templates.push(template_in(alloc, item)?)?;
    }
    Ok(templates)
}

// The event with places that a value is.
#[tactic(auto, using(crate::proofs::NumberLemmas::object_numbers))]
fn template_in(alloc: Global, value: &Value<'_>) -> Result<Template, RowFault>
    requires { HasNumbers (value_view value.now) }
    ensures ok { IfOk result (λ t. IsTemplate (value_view value.now) (template_of t)) }
    ensures why { IfFails result (RefusesEvent (value_view value.now)) }
{
    if !has_only(value, EVENT_NAMES) {
        return Err(RowFault::Unexpected);
    }
    let Some(method) = string_at(value, "method") else {
        return Err(RowFault::NoMethod);
    };
    let Some(params) = object_at(value, "params") else {
        return Err(RowFault::NoParams);
    };
    Ok(Template {
        method: quoted(alloc, method)?,
        params: own(alloc, params)?,
    })
}
