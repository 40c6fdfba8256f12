//! A script: the rows of a test, and the commands that are held.
ghost use Rattle.std.specs.Prelude.{◌≡◌, ◌≤◌, ◌<◌, ◌+◌, ◌^◌, ◌==◌, ◌++◌, ◌∷◌, [], if◌then◌else◌, List, suc, not, nat_lt, nat_le, length, map, filter, find, bytes_eq, string_bytes, Some, IsTrue, IfOk, OnOk, OnErr, option_map, MatchOption, vec_len, vec_capacity};
ghost use Rattle.std.specs.List.{list_any, position};
ghost use Rattle.bidi_rows.specs.Command.{Command};
ghost use Rattle.bidi_rows.specs.Rows.{matches};
ghost use Rattle.bidi_rows.specs.View.{row_of};
ghost use Rattle.bidi_scripted.specs.Script.{no_script, is_plain, most_rows, most_numbers, most_known, can_keep, has_method, has_room_for_command, used, with_row, with_use, without_method, with_held, without_held, with_opening, with_follower, lost_on, held_by};
ghost use Rattle.bidi_scripted.specs.Kept.{next_alone};
ghost use Rattle.bidi_names.specs.Sums.{total};
ghost use Rattle.bidi_names.specs.Subscriptions.{named_of, has_any, dismissed, cancelled, of_active};
ghost use Rattle.bidi_scripted.specs.View.{held_of, follower_of, script_of};

use crate::row_table::RowTable;
use bidi_names::{NamedSubscription, cancel, dismiss, keep_active};
use bidi_rows::{Row, Template};
use bidi_tree::JsUint;
use std::alloc::{AllocError, Global};

/// How many rows there can be.
const MOST_ROWS: usize = 1_024;

/// How many commands can be held at once.
const MOST_HELD: usize = 1_024;

/// How many commands can ever be held, and how many subscriptions can be made that only the test keeps.
const MOST_NUMBERS: u64 = 1_000_000_000;

/// The number of the first subscription that only the test keeps. Those of the remote end are lower.
const FIRST_ALONE: u64 = (1 << 47) + 1;

/// How many names can be known.
pub(crate) const MOST_KNOWN: usize = 1_024;

/// How many bytes all rows and held commands can have.
const MOST_KEPT: usize = 268_435_456;

/// A command that is held.
#[derive(Drop)]
pub struct HeldCommand {
    /// Its number; the first that is held has 1.
    pub number: u64,
    /// The number of its connection.
    pub conn: JsUint,
    /// Its id.
    pub id: JsUint,
    /// Its text, as it came.
    pub text: String,
    /// Whether its connection is gone, although one of its number was opened anew.
    pub is_lost: bool,
}

/// The events that follow each event of a method that the remote end sends.
#[derive(Drop)]
pub(crate) struct Follower {
    /// The method.
    pub method: String,
    /// The events, in order.
    pub events: Vec<Template>,
    /// How many bytes their text has.
    pub bytes: usize,
}

/// What a test says: its rows, the commands that are held, the events that follow others, and the names that are known.
#[derive(Drop)]
pub(crate) struct Script {
    /// The rows.
    pub rows: RowTable,
    /// The commands that are held, in order of number.
    pub held: Vec<HeldCommand>,
    /// The number of the next command that is held.
    pub next: u64,
    /// The events that follow others, at most one entry for each method.
    pub followers: Vec<Follower>,
    /// The names that are known.
    pub known: Vec<String>,
    /// What subscriptions have that the remote end does not know, with those of sessions that have ended since the last one was made.
    pub named: Vec<NamedSubscription>,
    /// How many subscriptions were made that only the test keeps.
    pub made: u64,
}

impl Script {
    /// An empty script. Takes the memory of a set of methods.
    pub(crate) fn new(alloc: Global) -> Result<Script, AllocError>
        ensures { IfOk result (λ script. script_of script ≡ no_script) }
    {
        Ok(Script {
            rows: RowTable::new(alloc)?,
            held: Vec::new(alloc),
            next: 1,
            followers: Vec::new(alloc),
            known: Vec::new(alloc),
            named: Vec::new(alloc),
            made: 0,
        })
    }

    /// Whether no row can answer a command, and no name is known.
    pub(crate) fn is_plain(&self) -> bool
        ensures { result ≡ is_plain (script_of self.now) }
    {
        self.rows.all.len() == 0 && self.known.len() == 0
    }

    /// Whether there is room for one more entry of followers.
    pub(crate) fn has_few_followers(&self) -> bool
        ensures { result ≡ nat_lt (length (script_of self.now).followers) most_rows }
    {
        self.followers.len() < MOST_ROWS
    }

    /// Whether there is room for one more row.
    pub(crate) fn has_few_rows(&self) -> bool
        ensures { result ≡ nat_lt (length (script_of self.now).rows) most_rows }
    {
        self.rows.all.len() < MOST_ROWS
    }

    /// Whether so many bytes more can be kept.
    pub(crate) fn can_keep(&self, bytes: usize) -> bool
        ensures { result ≡ can_keep (script_of self.now) bytes }
    {
        if bytes > MOST_KEPT {
            return false;
        }
        match left_by_rows(&self.rows.all, MOST_KEPT - bytes) {
            Some(left) => match left_by_held(&self.held, left) {
                Some(left) => left_by_followers(&self.followers, left).is_some(),
                None => false,
            },
            None => false,
        }
    }

    /// Whether one more command of so many bytes can be held.
    pub(crate) fn has_room_for_command(&self, bytes: usize) -> bool
        ensures room { result ≡ has_room_for_command (script_of self.now) bytes }
        ensures few { IsTrue result → self.now.next ≤ most_numbers }
    {
        self.held.len() < MOST_HELD && self.next <= MOST_NUMBERS && self.can_keep(bytes)
    }

    /// Adds a row, before all others.
    pub(crate) fn add_row(&mut self, row: Row) -> Result<(), AllocError>
        ensures ok { OnOk result (script_of self.new ≡ with_row (row_of row) (script_of self.old)) }
        ensures err { OnErr result (script_of self.new ≡ script_of self.old) }
    {
        self.rows.add(row)
    }

    /// Whether a row is for commands of a method.
    pub(crate) fn has_method(&self, method: &str) -> bool
        ensures { result ≡ has_method method.now (script_of self.now) }
    {
        has_method(&self.rows.all, method)
    }

    /// Removes the rows of a method.
    pub(crate) fn remove_rows(&mut self, method: &str)
        ensures { script_of self.new ≡ without_method method.now (script_of self.old) }
    {
        self.rows.remove(method);
    }

    /// Counts one use of the row at this place, which goes with its last use.
    pub(crate) fn use_row(&mut self, place: usize)
        requires { place < vec_len self.now.rows.all }
        ensures script { (command : Command) → position (λ r. matches command (row_of r)) self.old.rows.all.items ≡ Some place
            → script_of self.new ≡ with_use command (script_of self.old) }
        ensures held { self.new.held ≡ self.old.held }
        ensures next { self.new.next ≡ self.old.next }
    {
        self.rows.count_use(place);
    }

    /// Has these events follow each event of a method, in place of those that did before. Takes the older entry out first.
    pub(crate) fn follow(&mut self, follower: Follower) -> Result<(), AllocError>
        ensures ok { OnOk result (script_of self.new ≡ with_follower (follower_of follower) (script_of self.old)) }
        ensures err { OnErr result (script_of self.new ≡ script_of self.old) }
    {
        self.followers.reserve(1)?;
        remove_followers(&mut self.followers, follower.method.as_str());
        self.followers.push_reserved(follower);
        Ok(())
    }

    /// Whether so many words more can be known.
    pub(crate) fn has_room_for_words(&self, more: usize) -> bool
        ensures { result ≡ nat_le (length (script_of self.now).known + more) most_known }
    {
        self.known.len().saturating_add(more) <= MOST_KNOWN
    }

    /// Adds words that are known.
    pub(crate) fn know(&mut self, words: Vec<String>) -> Result<(), AllocError>
        ensures ok { OnOk result (script_of self.new ≡ record (script_of self.old) { known = (script_of self.old).known ++ map string_bytes words.items }) }
        ensures err { OnErr result (script_of self.new ≡ script_of self.old) }
    {
        let mut words = words;
        self.known.append(&mut words)
    }

    /// Makes room for one more held command.
    pub(crate) fn reserve_held(&mut self) -> Result<(), AllocError>
        ensures same { script_of self.new ≡ script_of self.old }
        ensures rows { self.new.rows ≡ self.old.rows }
        ensures room { OnOk result (vec_len self.new.held < vec_capacity self.new.held) }
    {
        self.held.reserve(1)
    }

    /// Holds a command, and gives the number that it gets. Room was made before.
    pub(crate) fn hold(&mut self, conn: JsUint, id: JsUint, text: String) -> u64
        requires room { vec_len self.now.held < vec_capacity self.now.held }
        requires few { self.now.next ≤ most_numbers }
        ensures number { result ≡ self.old.next }
        ensures script { script_of self.new ≡ with_held conn.value id.value (string_bytes text) (script_of self.old) }
    {
        let number = self.next;
        self.held.push_reserved(HeldCommand {
            number,
            conn,
            id,
            text,
            is_lost: false,
        });
        self.next = number + 1;
        number
    }

    /// The held command of this number.
    pub(crate) fn held(&self, number: u64) -> Option<&HeldCommand>
        ensures { option_map (λ h. held_of h.now) result ≡ held_by number (script_of self.now) }
    {
        held(&self.held, number)
    }

    /// Removes the held command of this number.
    pub(crate) fn release(&mut self, number: u64)
        ensures { script_of self.new ≡ without_held number (script_of self.old) }
    {
        release(&mut self.held, number);
    }

    /// Marks the commands as lost that are held for an earlier connection of this number, unless that was open.
    pub(crate) fn reopen(&mut self, conn: JsUint, was_open: bool)
        ensures { script_of self.new ≡ (if was_open then script_of self.old else with_opening conn.value (script_of self.old)) }
    {
        if !was_open {
            lose(&mut self.held, conn);
        }
    }

    /// Whether one more subscription can be made that only the test keeps.
    pub(crate) fn can_make(&self) -> bool
        ensures can { result ≡ nat_le (script_of self.now).made most_numbers }
        ensures few { IsTrue result → self.now.made ≤ most_numbers }
    {
        self.made <= MOST_NUMBERS
    }

    /// The number of the next one.
    pub(crate) fn next_alone(&self) -> u64
        requires { self.now.made ≤ most_numbers }
        ensures number { result ≡ next_alone (script_of self.now) }
        ensures fits { result < 2 ^ 48 }
    {
        FIRST_ALONE + self.made
    }

    /// Adds what the remote end does not know of a subscription that it made, if there is anything, and removes that of sessions which are
    /// not among these. Room was made before.
    pub(crate) fn add_named(&mut self, made: NamedSubscription, active: &[u32])
        requires { vec_len self.now.named < vec_capacity self.now.named }
        ensures { script_of self.new ≡ (if has_any (named_of made) then record (script_of self.old) {
          named = of_active active.now (script_of self.old).named ++ named_of made ∷ [];
        } else script_of self.old) }
    {
        if !made.has_any() {
            return;
        }
        keep_active(&mut self.named, active);
        self.named.push_reserved(made);
    }

    /// Adds a subscription that only the test keeps, and removes those of sessions that are not among these. Room was made before.
    pub(crate) fn add_alone(&mut self, made: NamedSubscription, active: &[u32])
        requires room { vec_len self.now.named < vec_capacity self.now.named }
        requires few { self.now.made ≤ most_numbers }
        ensures { script_of self.new ≡ record (script_of self.old) {
          named = of_active active.now (script_of self.old).named ++ named_of made ∷ [];
          made = suc (script_of self.old).made;
        } }
    {
        keep_active(&mut self.named, active);
        self.named.push_reserved(made);
        self.made += 1;
    }

    /// Removes these names and modules from the subscriptions of a session for all contexts.
    pub(crate) fn dismiss_named(&mut self, session: u32, names: &[String], modules: &[String])
        ensures { script_of self.new ≡ record (script_of self.old) {
          named = dismissed session (map string_bytes names.now) (map string_bytes modules.now) (script_of self.old).named;
        } }
    {
        dismiss(&mut self.named, session, names, modules);
    }

    /// Removes the subscriptions of a session that have one of these numbers.
    pub(crate) fn cancel_named(&mut self, session: u32, numbers: &[u64])
        ensures { script_of self.new ≡ record (script_of self.old) { named = cancelled session numbers.now (script_of self.old).named } }
    {
        cancel(&mut self.named, session, numbers);
    }
}

// The bytes that these rows leave of so many; `None` if they have more.
#[tactic(auto, using(crate::proofs::RoomLemmas::total_next))]
fn left_by_rows(rows: &[Row], bytes: usize) -> Option<usize>
    ensures { MatchOption result (bytes < total (map (λ r. (row_of r).bytes) rows.now)) (λ left. left + total (map (λ r. (row_of r).bytes) rows.now) ≡ bytes) }
{
    let mut left = bytes;
    for row in rows {
        left = left.checked_sub(row.bytes)?;
    }
    Some(left)
}

// The bytes that the texts of these commands leave of so many; `None` if they have more.
#[tactic(auto, using(crate::proofs::RoomLemmas::total_next))]
fn left_by_held(held: &[HeldCommand], bytes: usize) -> Option<usize>
    ensures { MatchOption result (bytes < total (map (λ h. length (held_of h).text) held.now))
        (λ left. left + total (map (λ h. length (held_of h).text) held.now) ≡ bytes) }
{
    let mut left = bytes;
    for command in held {
        left = left.checked_sub(command.text.len())?;
    }
    Some(left)
}

// The bytes that these followers leave of so many; `None` if they have more.
#[tactic(auto, using(crate::proofs::RoomLemmas::total_next))]
fn left_by_followers(followers: &[Follower], bytes: usize) -> Option<usize>
    ensures { MatchOption result (bytes < total (map (λ f. (follower_of f).bytes) followers.now))
        (λ left. left + total (map (λ f. (follower_of f).bytes) followers.now) ≡ bytes) }
{
    let mut left = bytes;
    for follower in followers {
        left = left.checked_sub(follower.bytes)?;
    }
    Some(left)
}

// Whether one of these rows is for commands of a method.
fn has_method(rows: &[Row], method: &str) -> bool
    ensures { result ≡ list_any (λ row. bytes_eq row.method method.now) (map row_of rows.now) }
{
    has_row(rows, method)
}

// Whether one of these rows is for commands of a method.
fn has_row(rows: &[Row], method: &str) -> bool
    ensures { result ≡ list_any (λ row. bytes_eq (row_of row).method method.now) rows.now }
{
    rows.iter().any(|row| row.method.as_str() == method)
}

// Removes the events that follow a method.
fn remove_followers(followers: &mut Vec<Follower>, method: &str)
    ensures items { map follower_of followers.new.items ≡ filter (λ f. not (bytes_eq f.method method.now)) (map follower_of followers.old.items) }
    ensures room { (vec_len followers.new ≤ vec_len followers.old) × (vec_capacity followers.new ≡ vec_capacity followers.old) }
{
    followers.retain(|follower| follower.method.as_str() != method);
}

// The held command of this number.
fn held(held: &[HeldCommand], number: u64) -> Option<&HeldCommand>
    ensures { option_map (λ h. h.now) result ≡ find (λ h. h.number == number) held.now }
{
    held.iter().find(|command| command.number == number)
}

// Removes the held command of this number.
fn release(held: &mut Vec<HeldCommand>, number: u64)
    ensures { map held_of held.new.items ≡ filter (λ h. not (h.number == number)) (map held_of held.old.items) }
{
    held.retain(|command| command.number != number);
}

// Marks the commands of a connection as lost.
fn lose(held: &mut [HeldCommand], conn: JsUint)
    ensures { map held_of held.new ≡ map (lost_on conn.value) (map held_of held.old) }
{
    for command in held.iter_mut() {
        if command.conn.value == conn.value {
            command.is_lost = true;
        }
    }
}
