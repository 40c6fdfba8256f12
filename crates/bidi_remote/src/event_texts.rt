//! The texts of events.
ghost use Rattle.std.specs.Prelude.{◌≡◌, ◌∷◌, ◌++◌, [], map, string_bytes, IfOk};
ghost use Rattle.std.specs.List.{AllByRecursion};
ghost use Rattle.bidi_contexts.specs.View.{occurrence_of, seen};
ghost use Rattle.bidi_messages.specs.Reading.{IsMessageText};
ghost use Rattle.bidi_remote.specs.State.EventTexts.{written, AreMessages};
ghost use Rattle.bidi_active.specs.Written.{written_of, written_in};
ghost use Rattle.bidi_messages.specs.Payloads.{EventIsWell};

use bidi_active::EventText;
use bidi_browser::Occurrence;
use bidi_messages::{EventData, EventName, Message, Payload, event_text};
use bidi_shape::Shape;
use std::alloc::{AllocError, Global};
use std::rc::Rc;

/// Makes the text of an event.
pub(crate) fn event_text_of(
    alloc: Global,
    occurrence: &Occurrence,
) -> Result<Rc<EventText>, AllocError>
    requires { EventIsWell occurrence.now.event }
    ensures written { IfOk result (λ e. written_of e.value ≡ written (occurrence_of occurrence.now)) }
    ensures reads_back { IfOk result (λ e. IsMessageText ⟦<Message as Shape>⟧.shape (string_bytes e.value.text.value)) }
{
    let text = Rc::new(alloc, event_text(alloc, &occurrence.event)?)?;
    let top = occurrence.top;
    Ok(Rc::new(alloc, EventText { top, text })?)
}

/// Makes the texts of some events, in order.
pub(crate) fn event_texts(
    alloc: Global,
    occurrences: &[Occurrence],
) -> Result<Vec<Rc<EventText>>, AllocError>
    requires { AllByRecursion (λ o. EventIsWell o.event) occurrences.now }
    ensures written { IfOk result (λ all. written_in all.items ≡ map written (seen occurrences.now)) }
    ensures reads_back { IfOk result (λ all. AreMessages (written_in all.items)) }
{
    let mut all = Vec::new(alloc);
    for occurrence in occurrences {
        all.push(event_text_of(alloc, occurrence)?)?;
    }
    Ok(all)
}
