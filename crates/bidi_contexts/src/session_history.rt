//! The session history of a context.
ghost use Rattle.std.specs.Prelude.{◌≡◌, ◌≤◌, ◌<◌, MatchOption, None, Some, IfOk, OnOk};
ghost use Rattle.std.specs.VecDeque.{deque_len};
ghost use Rattle.bidi_contexts.specs.Limits.{most_entries};

use bidi_tree::JsInt;
use std::alloc::{AllocError, Global};
use std::collections::VecDeque;
use url::Url;

/// How many entries a context keeps.
const MOST_ENTRIES: usize = 50;

/// Where a navigation leads in a session history.
#[derive(Drop)]
pub enum Move {
    /// To a new entry, at this URL.
    To(Url),
    /// To the present entry again.
    Again,
    /// To the entry at this place, counted from 0.
    Across(usize),
}

/// The entries of a context, the oldest first, and the place of the present entry, counted from 0.
///
/// After WebDriver BiDi, "The browsingContext.traverseHistory Command"; that fifty are kept is this project's
/// own.
#[derive(Drop)]
pub struct SessionHistory {
    entries: VecDeque<Url>,
    place: usize,
    // It keeps at most fifty entries.
    ghost few: { deque_len entries ≤ most_entries },
    // An entry is at the place.
    ghost stands: { place < deque_len entries },
}

impl SessionHistory {
    ghost use Rattle.bidi_contexts.specs.Acts as leads;
    ghost use Rattle.bidi_contexts.specs.HistoryInHand.{entries_in, move_of, HasRoomFor, Leads};
    ghost use Rattle.bidi_contexts.specs.Places.{begun_at, present, moved, place_across};

    /// The history of a new context at a URL: this one entry.
    pub(crate) fn begun_at(alloc: Global, url: Url) -> Result<SessionHistory, AllocError>
        ensures { IfOk result (λ h. entries_in h ≡ begun_at url) }
    {
        let mut entries = VecDeque::with_capacity(alloc, 1)?;
        entries.push_back_reserved(url);
        Ok(SessionHistory { entries, place: 0 })
    }

    /// The URL of the present entry.
    pub fn present(&self) -> &Url
        // It is the URL of the present entry.
        ensures { result.now ≡ present (entries_in self.now) }
    {
        &self.entries[self.place]
    }

    /// The entry `delta` places from the present one, if there is one: its place and its URL.
    pub fn across(&self, delta: JsInt) -> Option<(usize, &Url)>
        // There is none exactly if no entry lies there; else they are its place and the URL that the history has once it moves there.
        ensures { MatchOption result (place_across (entries_in self.now) delta.value ≡ None)
            (λ entry. (place_across (entries_in self.now) delta.value ≡ Some entry.0)
            × (entry.1.now ≡ present (moved (entries_in self.now) (leads.Across entry.0)))) }
    {
        let place = self.place.checked_add_signed(delta.value as isize)?;
        let url = self.entries.get(place)?;
        Some((place, url))
    }

    /// Makes room for the entry that a move adds, if it adds one.
    pub(crate) fn reserve(&mut self, to: &Move) -> Result<(), AllocError>
        ensures kept { entries_in self.new ≡ entries_in self.old }
        ensures room { OnOk result (HasRoomFor self.new to.now) }
    {
        match to {
            Move::To(_) => self.entries.reserve(1),
            _ => Ok(()),
        }
    }

    /// Makes a move. A new entry removes all after the present one, and the oldest where there would be more
    /// than fifty. Takes no memory.
    pub(crate) fn go(&mut self, to: Move)
        requires { HasRoomFor self.now to }
        ensures { Leads (entries_in self.old) (move_of to) → entries_in self.new ≡ moved (entries_in self.old) (move_of to) }
    {
        match to {
            Move::To(url) => self.enter(url),
            Move::Again => {}
            Move::Across(place) => {
                if place < self.entries.len() {
                    self.place = place;
                }
            }
        }
    }

    // Adds an entry after the present one, and makes it the present one.
    fn enter(&mut self, url: Url)
        requires { HasRoomFor self.now (Move.To url) }
        ensures { entries_in self.new ≡ moved (entries_in self.old) (leads.To url) }
    {
        self.entries.truncate(self.place + 1);
        if self.entries.len() >= MOST_ENTRIES {
            self.entries.pop_front();
        }
        self.place = self.entries.len();
        self.entries.push_back_reserved(url);
    }
}
