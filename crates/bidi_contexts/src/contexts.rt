//! The table of live contexts, in tree order. Only this file knows how they are kept; everyone else asks it.
ghost use Rattle.std.specs.Prelude.{◌≡◌, ◌≤◌, ◌<◌, ◌^◌, ◌==◌, ℕ, suc, List, ◌∷◌, [], true, nat_eq, Some, None};
ghost use Rattle.std.specs.Prelude.{IfOk, OnOk, map, find, length, bytes_eq, is_none, option_map, string_bytes};
ghost use Rattle.std.specs.List.{list_any, remove_range};
ghost use Rattle.std.specs.Option.{option_eq};
ghost use Rattle.bidi_handles.specs.Ids.{id_of};
ghost use Rattle.bidi_contexts.specs.Accepted.{AreAccepted};
ghost use Rattle.bidi_contexts.specs.Acts.{Act, Removed, Moved, UserRemoved, gives, next_number};
ghost use Rattle.bidi_contexts.specs.Contexts.{contexts, context_of, is_alive, level_of, parent_of, tops, children_of, tree_order};
ghost use Rattle.bidi_contexts.specs.Info.{info_of};
ghost use Rattle.bidi_contexts.specs.ContextRows.{row_of, row_at, rows, moved_in, changed};
ghost use Rattle.bidi_contexts.specs.Realms.{realm_of};
ghost use Rattle.bidi_contexts.specs.InfosWritten.{TellsInfos};
ghost use Rattle.bidi_contexts.specs.Subtrees.{AreSubtrees};

use crate::context::Context;
use crate::info_texts::{tree_text, trees_text};
use crate::navigation::Navigation;
use crate::seeking::{numbered, place_of, skip_others};
use crate::session_history::Move;
use crate::subtrees::{place_for, range_of};
use bidi_handles::{Handle, IdKind, id_number};
use std::alloc::{AllocError, Global};

/// The live contexts in tree order: a parent before its children, siblings in order of creation, each subtree
/// whole.
#[derive(Drop)]
pub struct Contexts {
    alloc: Global,
    live: Vec<Context>,
}

impl Contexts {
    ghost use Rattle.bidi_contexts.specs.Tables.{IsTableOf, HasRoomForOne, HasRoomForHandle, HasRoomIn, IsNavigation, rows_in};
    ghost use Rattle.bidi_contexts.specs.ContextRows.{held_in, without_in};
    ghost use Rattle.bidi_handles.specs.ValuesInHand.{handle_seen};
    ghost use Rattle.bidi_contexts.specs.Places.{entries_of};
    ghost use Rattle.bidi_contexts.specs.HistoryInHand.{move_of, Leads};

    /// The table of a new browser: one top-level context.
    pub fn new(alloc: Global) -> Result<Contexts, AllocError>
        // The new table stands for the empty past, in which one context is live.
        ensures { IfOk result (λ contexts. IsTableOf contexts []) }
    {
        let first = Context::top_level(alloc, 1, 1, 0, 1)?;
        let mut live = Vec::new(alloc);
        live.push(first)?;
        Ok(Contexts { alloc, live })
    }

    /// How many contexts are live.
    pub fn len(&self) -> usize
        // For every past that the table stands for, it is the number of contexts that are live after it.
        ensures { (past : List Act) → IsTableOf self.now past → result ≡ length (contexts past) }
    {
        self.live.len()
    }

    /// Whether the context of this number is live. Passes over the contexts.
    pub fn has(&self, number: u64) -> bool
        // For every past that the table stands for, the context is live after it exactly if the answer is true.
        ensures { (past : List Act) → IsTableOf self.now past → result ≡ is_alive past number }
    {
        has_number(&self.live, number)
    }

    /// The live context of this id. Passes over the contexts.
    pub fn named(&self, id: &str) -> Option<&Context>
        // For every past that the table stands for, it is the live context of the id, if there is one.
        ensures { (past : List Act) → IsTableOf self.now past → option_map (λ c. row_of c.now) result ≡ option_map (row_at past) (context_of past id.now) }
    {
        named(&self.live, id)
    }

    /// The live context whose realm has this id. Passes over the contexts.
    pub fn in_realm(&self, id: &str) -> Option<&Context>
        // For every past that the table stands for, it is the live context whose realm has the id, if there is one.
        ensures { (past : List Act) → IsTableOf self.now past → option_map (λ c. row_of c.now) result
            ≡ option_map (row_at past) (find (λ c. bytes_eq id.now (id_of IdKind.Realm (realm_of past c))) (contexts past)) }
    {
        in_realm(&self.live, id)
    }

    /// The top-level context that was created first, if any is live.
    pub fn oldest(&self) -> Option<&Context>
        // For every past that the table stands for, it is the live context without a parent that was created first.
        ensures { (past : List Act) → IsTableOf self.now past
            → option_map (λ c. row_of c.now) result ≡ option_map (row_at past) (find (λ c. is_none (parent_of past c)) (contexts past)) }
    {
        oldest(&self.live)
    }

    /// All live contexts in tree order.
    pub fn in_tree_order(&self) -> &[Context]
        // For every past that the table stands for, they are the contexts that are live after it, in tree order.
        ensures { (past : List Act) → IsTableOf self.now past → map row_of result.now ≡ map (row_at past) (tree_order past) }
    {
        &self.live
    }

    /// The descendants of a context in tree order. Passes over the contexts.
    pub(crate) fn below(&self, context: &Context) -> &[Context]
        // For every past that the table stands for, they are the subtrees of the children of the context.
        ensures { (past : List Act) (c : ℕ) → IsTableOf self.now past → row_of context.now ≡ row_at past c
            → AreSubtrees result.now past (suc (level_of past c)) (children_of past c) }
    {
        match range_of(&self.live, context.number) {
            Some((start, end)) => &self.live[start + 1..end],
            None => &[],
        }
    }

    /// The text of an object whose one member `contexts` is a list of one Info, that of a context with its parent, to this
    /// depth. `None` is the whole depth.
    ///
    /// Looks for what stands below the context, but at depth 0, which shows no children. Makes a text for each id.
    ///
    /// # Errors
    /// No memory: an allocation failed.
    pub fn tree_text(&self, context: &Context, depth: Option<u64>) -> Result<String, AllocError>
        // For every past that the table stands for, the one Info is that of the context to the depth.
        ensures { IfOk result (λ s. TellsInfos (string_bytes s)
            (λ infos. (past : List Act) (c : ℕ) → IsTableOf self.now past → row_of context.now ≡ row_at past c → infos ≡ info_of past depth c ∷ [])) }
    {
        tree_text(self.alloc, context, self.shown_below(context, depth), depth)
    }

    // The descendants of a context in tree order, but at depth 0, which shows none, nothing.
    fn shown_below(&self, context: &Context, depth: Option<u64>) -> &[Context]
        ensures { (past : List Act) (c : ℕ) → IsTableOf self.now past → row_of context.now ≡ row_at past c
            → ¬ (depth ≡ Some 0) → AreSubtrees result.now past (suc (level_of past c)) (children_of past c) }
    {
        match depth {
            Some(0) => &[],
            _ => self.below(context),
        }
    }

    /// The same of the Infos of all top-level contexts.
    ///
    /// # Errors
    /// No memory: an allocation failed.
    pub fn trees_text(&self, depth: Option<u64>) -> Result<String, AllocError>
        // For every past that the table stands for, the Infos are those of the live top-level contexts to the depth, by creation.
        ensures { IfOk result (λ s. TellsInfos (string_bytes s)
            (λ infos. (past : List Act) → IsTableOf self.now past → infos ≡ map (info_of past depth) (tops past))) }
    {
        trees_text(self.alloc, &self.live, depth)
    }

    /// Makes room for one more context.
    pub fn reserve(&mut self) -> Result<(), AllocError>
        // The table stands for the same pasts as before, whether it succeeds or not.
        ensures kept { (past : List Act) → IsTableOf self.old past → IsTableOf self.new past }
        // On success there is room for one more context.
        ensures room { OnOk result (HasRoomForOne self.new) }
    {
        self.live.reserve(1)
    }

    /// Makes room for what a navigation adds to the session history of its context.
    pub fn reserve_in(&mut self, navigation: &Navigation) -> Result<(), AllocError>
        // The table stands for the same pasts as before, whether it succeeds or not.
        ensures kept { (past : List Act) → IsTableOf self.old past → IsTableOf self.new past }
        // On success there is room for what the navigation adds to the session history of its context.
        ensures room { OnOk result (HasRoomIn self.new navigation.now.context navigation.now.to) }
    {
        match place_of(&self.live, navigation.context) {
            Some(place) => self.live[place].reserve(&navigation.to),
            None => Ok(()),
        }
    }

    /// Adds a new context, for which room was made: a child behind all that stands below its parent, a
    /// top-level context at the end. Takes no memory.
    pub fn add(&mut self, context: Context)
        // There is room for one more context.
        requires { HasRoomForOne self.now }
        // For every act that creates a context, if the new context is the one that the past with the act gives it, the table stands for that past.
        ensures { (past : List Act) (act : Act) → IsTableOf self.old past → AreAccepted (act ∷ past) → gives IdKind.Context act ≡ true
            → row_of context ≡ row_at (act ∷ past) (next_number past IdKind.Context) → IsTableOf self.new (act ∷ past) }
    {
        let place = place_for(&self.live, context.details.parent);
        // It succeeds, since there is room.
        let _ = self.live.insert(place, context);
    }

    /// Removes the context of this number and all its descendants. Takes no memory.
    pub fn remove(&mut self, number: u64)
        // The table then stands for the past with the removal of the context added, if that past can be.
        ensures { (past : List Act) → IsTableOf self.old past → AreAccepted (Removed number ∷ past) → IsTableOf self.new (Removed number ∷ past) }
    {
        if let Some((start, end)) = range_of(&self.live, number) {
            take_out(&mut self.live, start, end);
        }
    }

    /// Removes all contexts of the user context of this number. Takes no memory, and passes over the contexts.
    pub fn remove_user(&mut self, user: u64)
        // The table then stands for the past with the removal of the user context added, if that past can be.
        ensures { (past : List Act) → IsTableOf self.old past → AreAccepted (UserRemoved user ∷ past) → IsTableOf self.new (UserRemoved user ∷ past) }
    {
        self.live.retain(|context| context.details.user != user);
    }

    /// Carries out a navigation: its context moves in the session history and gets a new realm, and all
    /// descendants of the context are removed. Takes no memory.
    pub fn navigate(&mut self, navigation: Navigation)
        // There is room for what the navigation adds to the session history of its context.
        requires { HasRoomIn self.now navigation.context navigation.to }
        // The table then stands for the past with the navigation added, if that past can be and the navigation is the next one in it.
        ensures { (past : List Act) → (let act = Moved navigation.context (move_of navigation.to) in
            IsTableOf self.old past → AreAccepted (act ∷ past) → IsNavigation navigation past → IsTableOf self.new (act ∷ past)) }
    {
        let Navigation { context, realm, to } = navigation;
        self.lead(context, realm, to);
        if let Some((start, end)) = range_of(&self.live, context) {
            self.live.drain(start + 1..end);
        }
    }

    /// Makes room for one more handle in the realm of the context of this number.
    pub fn reserve_handle(&mut self, number: u64) -> Result<(), AllocError>
        // The table stands for the same pasts as before, whether it succeeds or not.
        ensures kept { (past : List Act) → IsTableOf self.old past → IsTableOf self.new past }
        // On success there is room for one more handle in the realm of the context.
        ensures room { OnOk result (HasRoomForHandle self.new number) }
    {
        match place_of(&self.live, number) {
            Some(place) => self.live[place].reserve_handle(),
            None => Ok(()),
        }
    }

    /// Adds a handle, newer than all others, to the realm of the context of this number. Takes no memory.
    pub fn hold(&mut self, number: u64, handle: Handle)
        // There is room for one more handle in the realm of the context.
        requires { HasRoomForHandle self.now number }
        // The realm of the context then has the handle behind those that it had, and no other row changes.
        ensures { (past : List Act) → IsTableOf self.old past → next_number past IdKind.Handle ≤ handle.number
            → rows_in self.new ≡ changed number (held_in (handle_seen handle)) (rows_in self.old) }
    {
        if let Some(place) = place_of(&self.live, number) {
            self.live[place].hold(handle);
        }
    }

    /// Releases the handles of these numbers in the realm of the context of this number. Takes no memory.
    pub fn disown(&mut self, number: u64, numbers: Vec<u64>)
        // The realm of the context then has its handles without those of the numbers, and no other row changes.
        ensures { rows_in self.new ≡ changed number (without_in numbers.items) (rows_in self.old) }
    {
        if let Some(place) = place_of(&self.live, number) {
            self.live[place].disown(&numbers);
        }
    }

    // Moves the context of this number in its session history, and gives it this new realm.
    fn lead(&mut self, number: u64, realm: u64, to: Move)
        requires realm { realm < 2 ^ 48 }
        requires room { HasRoomIn self.now number to }
        ensures { (past : List Act) → IsTableOf self.old past → Leads (entries_of past number) (move_of to)
            → rows_in self.new ≡ changed number (moved_in realm (move_of to)) (rows past) }
    {
        if let Some(place) = place_of(&self.live, number) {
            self.live[place].navigate(realm, to);
        }
    }
}

// Takes a range of contexts out. What stands behind one context is moved at once, and behind several one by one.
fn take_out(contexts: &mut Vec<Context>, start: usize, end: usize)
    requires { (start < end) × (end ≤ length contexts.now.items) }
    ensures { contexts.new.items ≡ remove_range contexts.old.items start end }
{
    if end - start == 1 {
        contexts.remove(start);
    } else {
        contexts.drain(start..end);
    }
}

// Whether one of the contexts has this number.
fn has_number(contexts: &[Context], number: u64) -> bool
    ensures { result ≡ list_any (λ c. c.number == number) contexts.now }
{
    contexts.iter().any(|context| context.number == number)
}

// The context of this id.
fn named<'a>(contexts: &'a [Context], id: &str) -> Option<&'a Context>
    ensures found { option_map (λ c. c.now) result ≡ find (λ c. bytes_eq id.now (id_of IdKind.Context c.number)) contexts.now }
    ensures one { (n m : ℕ) → n < 2 ^ 48 → m < 2 ^ 48 → bytes_eq id.now (id_of IdKind.Context n) ≡ true → bytes_eq id.now (id_of IdKind.Context m) ≡ true → n ≡ m }
{
    let number = id_number(id, IdKind::Context, 0)?;
    numbered(skip_others(contexts, number), number)
}

// The context whose realm has this id.
fn in_realm<'a>(contexts: &'a [Context], id: &str) -> Option<&'a Context>
    ensures found { option_map (λ c. c.now) result ≡ find (λ c. bytes_eq id.now (id_of IdKind.Realm c.details.value.realm)) contexts.now }
    ensures one { (n m : ℕ) → n < 2 ^ 48 → m < 2 ^ 48 → bytes_eq id.now (id_of IdKind.Realm n) ≡ true → bytes_eq id.now (id_of IdKind.Realm m) ≡ true → n ≡ m }
{
    with_realm(contexts, id_number(id, IdKind::Realm, 0)?)
}

// The context whose realm has this number.
fn with_realm(contexts: &[Context], realm: u64) -> Option<&Context>
    ensures { option_map (λ c. c.now) result ≡ find (λ c. c.details.value.realm == realm) contexts.now }
{
    contexts
        .iter()
        .find(|context| context.details.realm == realm)
}

// The oldest top-level context.
fn oldest(contexts: &[Context]) -> Option<&Context>
    ensures { option_map (λ c. c.now) result ≡ find (λ c. option_eq nat_eq c.details.value.parent None) contexts.now }
{
    contexts
        .iter()
        .find(|context| context.details.parent.is_none())
}
