//! Log entries that wait until a session subscribes to them.
ghost use Rattle.std.specs.Prelude.{◌≡◌, ◌≤◌, List, [], map, IfOk};
ghost use Rattle.std.specs.VecDeque.{deque_len, deque_capacity};

use crate::announcing::announce;
use crate::event_text::EventText;
use bidi_browser::Browser;
use bidi_messages::EventName;
use bidi_sessions::{Scope, Subscriptions};
use std::alloc::{AllocError, Global};
use std::collections::VecDeque;
use std::rc::Rc;

/// How many missed log entries a session keeps.
const MOST_MISSED: usize = 100;

/// The last hundred log entries that a session missed, the oldest first. An entry that was sent since leaves
/// its place empty, and still counts among the hundred.
#[derive(Drop)]
pub struct LogBuffer {
    places: VecDeque<Option<Rc<EventText>>>,
    // There are at most a hundred places.
    ghost few: { deque_len places ≤ 100 },
    // There is room for a hundred places.
    ghost room: { 100 ≤ deque_capacity places },
}

impl LogBuffer {
    ghost use Rattle.bidi_contexts.specs.Acts.{Act};
    ghost use Rattle.bidi_browser.specs.Stands.{StandsFor};
    ghost use Rattle.bidi_methods.specs.declared.event_data.EventName.TheVariants.{EntryAdded};
    ghost use Rattle.bidi_active.specs.Written.{written_of, written_in};
    ghost use Rattle.bidi_active.specs.Places.{waiting, with_missed, all_left, places_in};
    ghost use Rattle.bidi_active.specs.News.{is_new};
    ghost use Rattle.bidi_sessions.specs.SubscriptionView.{scope_of};
    ghost use Rattle.bidi_sessions.specs.SubscriptionsView.{rows_of};

    /// An empty buffer. Room for a hundred entries is made here, so that none is needed later.
    ///
    /// # Errors
    /// No memory: an allocation failed.
    pub fn new(alloc: Global) -> Result<LogBuffer, AllocError>
        // An Ok has no places.
        ensures { IfOk result (λ b. places_in b ≡ []) }
    {
        Ok(LogBuffer {
            places: VecDeque::with_capacity(alloc, MOST_MISSED)?,
        })
    }

    /// Adds an entry that the session missed. Where there would be more than a hundred, the oldest is
    /// dropped. Takes no memory.
    pub fn add(&mut self, entry: Rc<EventText>)
        // The entry has the last place, and at most a hundred places are left.
        ensures { places_in self.new ≡ with_missed (written_of entry.value) (places_in self.old) }
    {
        if self.places.len() >= MOST_MISSED {
            self.places.pop_front();
        }
        self.places.push_back_reserved(Some(entry));
    }

    /// The entries that wait, the oldest first.
    ///
    /// # Errors
    /// No memory: an allocation failed.
    pub fn waiting(&self, alloc: Global) -> Result<Vec<Rc<EventText>>, AllocError>
        // An Ok has the entries that wait, in order.
        ensures { IfOk result (λ all. written_in all.items ≡ waiting (places_in self.now)) }
    {
        let mut all = Vec::new(alloc);
        for at in 0..self.places.len() {
            if let Some(entry) = &self.places[at] {
                all.push(entry.clone()?)?;
            }
        }
        Ok(all)
    }

    /// Empties the places of the entries that a subscription to these events in this scope enables and those
    /// held do not. They are sent when it is made, and wait no longer. Takes no memory.
    pub fn announce(
        &mut self,
        browser: &Browser,
        held: &Subscriptions,
        events: &[EventName],
        scope: &Scope,
    )
        // A place is empty if the subscription newly enables its entry, and as it was otherwise.
        ensures { (past : List Act) → StandsFor browser.now past
            → places_in self.new ≡ all_left (is_new past (rows_of held.now) events.now (scope_of scope.now) EntryAdded) (places_in self.old) }
    {
        announce(&mut self.places, browser, held, events, scope);
    }
}
