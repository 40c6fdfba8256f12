//! Events.
ghost use Rattle.std.specs.Prelude.{refl, codes};

use crate::envelope::{outline_envelope, read_envelope};
use bidi_methods::{EventData, EventName, Payload};
use bidi_shape::{Ext, Named, Parsed, Shape, ShapeFault};
use bidi_tree::Outline;
use std::alloc::{AllocError, Global};

/// The member `type` of an event.
#[derive(Clone, Copy, Debug, PartialEq, Eq)]
pub(crate) enum EventType {
    Event,
}

impl Named for EventType {
    ghost use Rattle.bidi_messages.specs.Event.{event_type_words};

    ghost words = { event_type_words };

    fn all() -> &'static [EventType] {
        &[EventType::Event]
    }

    fn name(&self) -> &'static str {
        match self {
            EventType::Event => "event",
        }
    }
}

/// An event of the remote end.
///
/// `Event = { type: "event", method: "E", params: Q, Extensible }`, where `data` has the name and its params.
///
/// After WebDriver BiDi, "Protocol".
#[derive(Drop)]
pub struct Event {
    pub data: EventData,
    /// The members other than `type`, `method` and `params`. They have no effect.
    pub ext: Ext,
}

impl Shape for Event {
    ghost use Rattle.bidi_messages.specs.Envelope.{envelope_shape};
    ghost use Rattle.bidi_messages.specs.declared.event.EventType.TheVariants.{Event as event_type};
    ghost use Rattle.bidi_shape.specs.Name.{event};
    ghost use Rattle.bidi_shape.specs.Term.{rule as named};

    ghost shape = { envelope_shape (codes "type") ⟦<EventType as Shape>⟧.shape ⟦<EventName as Named>⟧.words
        ⟦<EventData as Payload<EventName>>⟧.payload (named event) (λ e. (event_type, (e.«data», e.ext))) refl refl };

    fn from_tree<S: Parsed>(alloc: Global, tree: &S) -> Result<Event, ShapeFault> {
        let envelope = read_envelope::<EventType, EventName, EventData, S>(alloc, tree, "type")?;
        Ok(Event {
            data: envelope.payload,
            ext: envelope.ext,
        })
    }

    fn outline<'a>(&'a self, alloc: Global) -> Result<Outline<'a>, AllocError> {
        outline_envelope(alloc, "type", &EventType::Event, &self.data, &self.ext)
    }
}
