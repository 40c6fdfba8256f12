//! Names of events. The name of a module stands for all its events.
ghost use Rattle.std.specs.Prelude.{◌≡◌, map, string_bytes, option_map};
ghost use Rattle.bidi_sessions.specs.Checked.{IfChecked, behind};
ghost use Rattle.bidi_sessions.specs.EventNames.{events_of_module, events_named, all_named};

use bidi_handles::Refusal;
use bidi_messages::{ErrorCode, EventName};
use bidi_shape::Named;
use std::alloc::Global;

/// The events that some names stand for, in order.
///
/// # Errors
/// - `invalid argument`: a name is neither an event's nor a module's.
/// - No memory: an allocation failed.
pub fn all_named(alloc: Global, names: &[String]) -> Result<Vec<EventName>, Refusal>
    // The events come in the order of the names. The first name of no event and no module is an invalid argument.
    ensures { IfChecked result (λ events. events.items) (all_named (map string_bytes names.now)) }
{
    let mut events = Vec::new(alloc);
    for name in names {
        push_named(name, &mut events)?;
    }
    Ok(events)
}

// Adds the events that a name stands for.
fn push_named(name: &str, events: &mut Vec<EventName>) -> Result<(), Refusal>
    ensures { IfChecked result (λ _. events.new.items) (behind events.old.items (events_named name.now)) }
{
    if let Some(event) = EventName::named(name) {
        events.push(event)?;
        return Ok(());
    }
    match events_of_module(name) {
        Some(module) => Ok(events.extend_from_slice(module)?),
        None => Err(Refusal::Code(ErrorCode::InvalidArgument)),
    }
}

// The events of the module of this name, if there is one.
fn events_of_module(name: &str) -> Option<&'static [EventName]>
    ensures { option_map (λ events. events.now) result ≡ events_of_module name.now }
{
    match name {
        "session" => Some(&[]),
        "browsingContext" => Some(&[
            EventName::ContextCreated,
            EventName::ContextDestroyed,
            EventName::NavigationStarted,
            EventName::DomContentLoaded,
            EventName::Load,
        ]),
        "script" => Some(&[EventName::RealmCreated, EventName::RealmDestroyed]),
        "log" => Some(&[EventName::EntryAdded]),
        "browser" => Some(&[]),
        _ => None,
    }
}
