//! Active sessions, and the resources that name them.
ghost use Rattle.std.specs.Prelude.{◌≡◌, ◌<◌, ◌+◌, List, [], ◌∷◌, ◌++◌, ◌==◌, not, nat_lt, length, find, filter, map, replicate};
ghost use Rattle.std.specs.Prelude.{codes, bytes_eq, Some, None, option_map, if◌then◌else◌, IfOk, OnOk, vec_len, vec_capacity};
ghost use Rattle.std.specs.List.{position, list_all};
ghost use Rattle.bidi_handles.specs.declared.id.IdKind.TheVariants.{Session as OfSession};
ghost use Rattle.bidi_handles.specs.Ids.{id_of};
ghost use Rattle.bidi_contexts.specs.Acts.{Act};
ghost use Rattle.bidi_browser.specs.Stands.{StandsFor};
ghost use Rattle.bidi_active.specs.Written.{Written, written_of, written_in};
ghost use Rattle.bidi_active.specs.SessionRows.{begun, subscribed, cancelled, lost, logged, changed, row_in};
ghost use Rattle.bidi_sessions.specs.SubscriptionRows.{any_covers, any_global};
ghost use Rattle.bidi_active.specs.SessionView.{session_row_of, opened_by};
ghost use Rattle.bidi_active.specs.Places.{places_in};
ghost use Rattle.bidi_sessions.specs.SubscriptionView.{scope_of, row_of};
ghost use Rattle.bidi_sessions.specs.Limits.{most_sessions};

use crate::event_text::EventText;
use crate::log_buffer::LogBuffer;
use bidi_browser::{Browser, IdKind, Top, id_number};
use bidi_messages::EventName;
use bidi_sessions::{Scope, Subscription, Subscriptions};
use std::alloc::{AllocError, Global};
use std::rc::Rc;

/// How many sessions can be active at once.
const MOST_SESSIONS: usize = 8;

/// For whom a resource opens a connection.
#[derive(Clone, Copy)]
pub enum Opening {
    /// For no session: `/session`.
    Alone,
    /// For the active session of this number: `/session/ID`.
    For(u32),
}

impl Opening {
    /// The number of the session, if there is one.
    pub fn session(self) -> Option<u32>
        // The result is the session that it is for.
        ensures { result ≡ opened_by self }
    {
        match self {
            Opening::Alone => None,
            Opening::For(session) => Some(session),
        }
    }
}

/// An active session.
#[derive(Drop)]
pub struct Session {
    /// The number of the session, from which its id is made.
    pub number: u32,
    /// How many subscriptions it has made, with those that are gone.
    pub made: u32,
    /// Its live subscriptions.
    pub subscriptions: Subscriptions,
    /// The log entries that it missed.
    pub missed: LogBuffer,
}

impl Session {
    ghost use Rattle.bidi_sessions.specs.SubscriptionsView.{HasRoomFor};

    /// Whether the event is enabled for it in the tree of this top-level context. Takes no memory.
    pub fn hears(&self, event: EventName, top: Top) -> bool
        // True exactly if one of its subscriptions covers the event there.
        ensures { result ≡ any_covers (session_row_of self.now).subscriptions event top }
    {
        self.subscriptions.hears(event, top)
    }

    /// The number of its next subscription. It never wraps, because each subscription takes an input.
    pub fn next_subscription(&self) -> u32
        // The result is one more than the number of those that it has made, if that is less than 4,294,967,295.
        ensures { self.now.made < 4294967295 → result ≡ self.now.made + 1 }
    {
        self.made.wrapping_add(1)
    }

    // Makes room for one more subscription, to these events in this scope.
    fn reserve(&mut self, events: &[EventName], scope: &Scope) -> Result<(), AllocError>
        ensures row { session_row_of self.new ≡ session_row_of self.old }
        ensures room { OnOk result (HasRoomFor events.now (scope_of scope.now) self.new.subscriptions) }
    {
        self.subscriptions.reserve(events, scope)
    }

    // Adds a subscription with the next number. The log entries that it newly enables wait no longer.
    fn subscribe(&mut self, browser: &Browser, events: Vec<EventName>, scope: Scope)
        requires { HasRoomFor events.items (scope_of scope) self.now.subscriptions }
        ensures { (past : List Act) → StandsFor browser.now past → self.old.made < 4294967295
            → session_row_of self.new ≡ subscribed past events.items (scope_of scope) (session_row_of self.old) }
    {
        let number = self.next_subscription();
        self.missed
            .announce(browser, &self.subscriptions, &events, &scope);
        self.subscriptions.add(Subscription {
            number,
            events,
            scope,
        });
        self.made = number;
    }

    // Keeps a log entry, unless it is enabled for the session.
    fn log(&mut self, entry: Rc<EventText>)
        ensures { session_row_of self.new ≡ logged (written_of entry.value) (session_row_of self.old) }
    {
        if !self.hears(EventName::EntryAdded, entry.top) {
            self.missed.add(entry);
        }
    }

    // Removes the subscriptions of these numbers.
    fn cancel(&mut self, numbers: &[u32])
        ensures { session_row_of self.new ≡ cancelled numbers.now (session_row_of self.old) }
    {
        self.subscriptions.cancel(numbers);
    }

    // Removes these events from the global subscriptions.
    fn dismiss(&mut self, events: &[EventName])
        ensures { session_row_of self.new ≡ lost events.now (session_row_of self.old) }
    {
        self.subscriptions.dismiss(events);
    }
}

/// The active sessions, in order of creation.
#[derive(Drop)]
pub struct Sessions {
    alloc: Global,
    /// How many sessions were ever made.
    made: u32,
    active: Vec<Session>,
}

impl Sessions {
    ghost use Rattle.bidi_active.specs.SessionView.{rows_in, HasRoomForOne, HasRoomIn};

    /// A table without sessions. Takes no memory.
    pub fn new(alloc: Global) -> Sessions
        // No session is active.
        ensures rows { rows_in result ≡ [] }
        // None was ever made.
        ensures made { result.made ≡ 0 }
    {
        Sessions {
            alloc,
            made: 0,
            active: Vec::new(alloc),
        }
    }

    /// All active sessions, in order of creation.
    pub fn all(&self) -> &[Session]
        // The result has the row of each.
        ensures { map session_row_of result.now ≡ rows_in self.now }
    {
        &self.active
    }

    /// Whether one more session can be made.
    pub fn is_ready(&self) -> bool
        // True exactly if fewer than eight are active.
        ensures { result ≡ nat_lt (length (rows_in self.now)) most_sessions }
    {
        self.active.len() < MOST_SESSIONS
    }

    /// The number of the next session. A step makes one at most, so it never wraps.
    pub fn next(&self) -> u32
        // The result is one more than the number of those that were ever made, if that is less than 4,294,967,295.
        ensures { self.now.made < 4294967295 → result ≡ self.now.made + 1 }
    {
        self.made.wrapping_add(1)
    }

    /// The live subscriptions of a session. One that is not active has none.
    pub fn subscriptions_of(&self, number: u32) -> &[Subscription]
        // The result has those of the session's row, in order of number.
        ensures { map row_of result.now ≡ (row_in number (rows_in self.now)).subscriptions }
    {
        match find(&self.active, number) {
            Some(session) => session.subscriptions.all(),
            None => &[],
        }
    }

    /// Whether each of these events is in a global subscription of a session. One that is not active has none.
    pub fn all_global(&self, number: u32, events: &[EventName]) -> bool
        // True exactly if each of them is in some global subscription of the session's row.
        ensures { result ≡ list_all (any_global (row_in number (rows_in self.now)).subscriptions) events.now }
    {
        match find(&self.active, number) {
            Some(session) => session.subscriptions.all_global(events),
            None => events.is_empty(),
        }
    }

    /// The active session of this number.
    pub fn find(&self, number: u32) -> Option<&Session>
        // Some has the row of this number, and None says that there is none.
        ensures { option_map (λ s. session_row_of s.now) result ≡ find (λ r. r.number == number) (rows_in self.now) }
    {
        find(&self.active, number)
    }

    /// For whom a resource opens a connection; `None` where it names nothing. Takes no memory.
    pub fn opening_of(&self, resource: &str) -> Option<Opening>
        // `/session` is for no session, and `/session/ID` for the active session of this id; there is nothing else.
        ensures { option_map opened_by result ≡ (if bytes_eq resource.now (codes "/session") then Some None
            else option_map (λ r. Some r.number) (find (λ r. bytes_eq resource.now (codes "/session/" ++ id_of OfSession r.number)) (rows_in self.now))) }
    {
        opening_of(&self.active, resource)
    }

    /// Makes room for one more session.
    ///
    /// # Errors
    /// No memory: an allocation failed.
    pub fn reserve(&mut self) -> Result<(), AllocError>
        // The sessions stay as they are.
        ensures rows { rows_in self.new ≡ rows_in self.old }
        // So does the count of those that were ever made.
        ensures made { self.new.made ≡ self.old.made }
        // After an Ok there is room.
        ensures room { OnOk result (HasRoomForOne self.new) }
    {
        self.active.reserve(1)
    }

    /// Makes room for one more subscription of a session, to these events in this scope.
    ///
    /// # Errors
    /// No memory: an allocation failed.
    pub fn reserve_in(
        &mut self,
        number: u32,
        events: &[EventName],
        scope: &Scope,
    ) -> Result<(), AllocError>
        // The sessions stay as they are.
        ensures rows { rows_in self.new ≡ rows_in self.old }
        // So does the count of those that were ever made.
        ensures made { self.new.made ≡ self.old.made }
        // After an Ok there is room, if the session is active.
        ensures room { OnOk result (HasRoomIn number events.now (scope_of scope.now) self.new) }
    {
        match place_of(&self.active, number) {
            Some(place) => self.active[place].reserve(events, scope),
            None => Ok(()),
        }
    }

    /// Adds the next session, which has missed no log entry, and returns its number. Room was made before.
    pub fn begin(&mut self, missed: LogBuffer) -> u32
        // There is room for one more.
        requires { HasRoomForOne self.now }
        // The result is the next number, if fewer than 4,294,967,295 sessions were ever made.
        ensures number { self.old.made < 4294967295 → result ≡ self.old.made + 1 }
        // The session counts as made.
        ensures made { self.new.made ≡ result }
        // The session is the last one, as it begins, if its buffer is empty.
        ensures rows { places_in missed ≡ [] → rows_in self.new ≡ rows_in self.old ++ begun result ∷ [] }
    {
        let number = self.next();
        self.active.push_reserved(Session {
            number,
            made: 0,
            subscriptions: Subscriptions::new(self.alloc),
            missed,
        });
        self.made = number;
        number
    }

    /// Removes a session.
    pub fn end(&mut self, number: u32)
        // Those of another number stay, in order.
        ensures rows { rows_in self.new ≡ filter (λ r. not (r.number == number)) (rows_in self.old) }
        // The count of those that were ever made stays.
        ensures made { self.new.made ≡ self.old.made }
    {
        self.active.retain(|s| s.number != number);
    }

    /// Adds a subscription with the session's next number. Log entries that it newly enables wait no longer.
    pub fn subscribe(
        &mut self,
        number: u32,
        browser: &Browser,
        events: Vec<EventName>,
        scope: Scope,
    )
        // The session, if it is active, has room for it.
        requires { HasRoomIn number events.items (scope_of scope) self.now }
        // If it has made fewer than 4,294,967,295, its row has the subscription, and no longer the entries that this enables; the others stay.
        ensures rows { (past : List Act) → StandsFor browser.now past → (row_in number (rows_in self.old)).made < 4294967295
            → rows_in self.new ≡ changed number (subscribed past events.items (scope_of scope)) (rows_in self.old) }
        // The count of sessions stays.
        ensures made { self.new.made ≡ self.old.made }
    {
        if let Some(place) = place_of(&self.active, number) {
            self.active[place].subscribe(browser, events, scope);
        }
    }

    /// Removes the subscriptions of these numbers from a session.
    pub fn cancel(&mut self, number: u32, numbers: &[u32])
        // They are gone from the session's row; the others stay.
        ensures rows { rows_in self.new ≡ changed number (cancelled numbers.now) (rows_in self.old) }
        // The count of sessions stays.
        ensures made { self.new.made ≡ self.old.made }
    {
        if let Some(place) = place_of(&self.active, number) {
            self.active[place].cancel(numbers);
        }
    }

    /// Removes these events from the global subscriptions of a session.
    pub fn dismiss(&mut self, number: u32, events: &[EventName])
        // They are gone from the global subscriptions of the session's row; those with no event left are gone, too.
        ensures rows { rows_in self.new ≡ changed number (lost events.now) (rows_in self.old) }
        // The count of sessions stays.
        ensures made { self.new.made ≡ self.old.made }
    {
        if let Some(place) = place_of(&self.active, number) {
            self.active[place].dismiss(events);
        }
    }

    /// A reference to a log entry for each session; all share its text.
    ///
    /// # Errors
    /// No memory: an allocation failed, or an entry has too many references.
    pub fn copies_of(&self, entry: &Rc<EventText>) -> Result<Vec<Rc<EventText>>, AllocError>
        // An Ok has the entry as often as there are sessions.
        ensures { IfOk result (λ all. written_in all.items ≡ replicate (length (rows_in self.now)) (written_of entry.now.value)) }
    {
        Vec::from_elem(self.alloc, entry.clone()?, self.active.len())
    }

    /// Hands a log entry to the sessions, of which each gets one of these references and keeps it, unless the
    /// entry is enabled for the session. Takes no memory.
    pub fn log(&mut self, copies: Vec<Rc<EventText>>)
        // Each session has heard or missed the entry, if there is a reference for each.
        ensures rows { (w : Written) → written_in copies.items ≡ replicate (length (rows_in self.old)) w
            → rows_in self.new ≡ map (logged w) (rows_in self.old) }
        // The count of sessions stays.
        ensures made { self.new.made ≡ self.old.made }
    {
        log(&mut self.active, copies);
    }
}

// Hands a log entry to the sessions.
fn log(sessions: &mut [Session], copies: Vec<Rc<EventText>>)
    ensures { (w : Written) → written_in copies.items ≡ replicate (length sessions.old) w
        → map session_row_of sessions.new ≡ map (logged w) (map session_row_of sessions.old) }
{
    let mut copies = copies;
    for session in sessions.iter_mut() {
        if let Some(entry) = copies.pop() {
            session.log(entry);
        }
    }
}

// The session of that number.
fn find(sessions: &[Session], number: u32) -> Option<&Session>
    ensures { option_map (λ s. s.now) result ≡ find (λ s. s.number == number) sessions.now }
{
    sessions.iter().find(|s| s.number == number)
}

// The place of the session of this number.
fn place_of(sessions: &[Session], number: u32) -> Option<usize>
    ensures { result ≡ position (λ s. s.number == number) sessions.now }
{
    sessions.iter().position(|s| s.number == number)
}

// For whom a resource opens a connection.
fn opening_of(sessions: &[Session], resource: &str) -> Option<Opening>
    ensures { option_map opened_by result ≡ (if bytes_eq resource.now (codes "/session") then Some None
        else option_map (λ s. Some s.number) (find (λ s. bytes_eq resource.now (codes "/session/" ++ id_of OfSession s.number)) sessions.now)) }
{
    if resource == "/session" {
        return Some(Opening::Alone);
    }
    let id = resource.strip_prefix("/session/")?;
    session_named(sessions, id).map(Opening::For)
}

// The number of the active session of this id.
fn session_named(sessions: &[Session], id: &str) -> Option<u32>
    ensures { result ≡ option_map (λ s. s.number) (find (λ s. bytes_eq id.now (id_of OfSession s.number)) sessions.now) }
{
    let number = id_number(id, IdKind::Session, 0);
    sessions
        .iter()
        .find(|s| Some(u64::from(s.number)) == number)
        .map(|s| s.number)
}
