//! The handles of a realm.
ghost use Rattle.std.specs.Prelude.{◌≡◌, ℕ, ◌<◌, ◌^◌, [], ◌∷◌, ◌++◌, true, IfOk, OnOk, bytes_eq, filter};
ghost use Rattle.std.specs.Prelude.{find, length, map, not, option_map, string_bytes, ◌==◌};
ghost use Rattle.std.specs.List.{All, list_any};
ghost use Rattle.std.specs.List.Sorted.{IsStrictlyIncreasing};
ghost use Rattle.std.proofs.Props.{props};
ghost use Rattle.bidi_handles.specs.Ids.{id_of, has_id};

use crate::handle::{Handle, HeldValue};
use crate::id::{IdKind, id_number};
use std::alloc::{AllocError, Global};
use std::rc::Rc;

/// The handles of a realm, in the order of their numbers.
#[derive(Drop)]
pub struct Handles {
    items: Vec<Handle>,
    // The numbers of the handles ascend, so no two are the same.
    ghost ascend: { IsStrictlyIncreasing (map (λ h. h.number) items.items) } by { Prim.hlevel props },
}

impl Handles {
    ghost use Rattle.bidi_handles.specs.Handles.{handles_seen, values_in, HasSpare};
    ghost use Rattle.bidi_handles.specs.ValuesInHand.{handle_seen, held_tree};

    /// Makes an empty collection, as a new realm has. Takes no memory.
    pub fn new(alloc: Global) -> Handles
        // There are no handles.
        ensures { handles_seen result ≡ [] }
    {
        Handles {
            items: Vec::new(alloc),
        }
    }

    /// The number of handles.
    pub fn len(&self) -> usize
        // The result counts the handles.
        ensures { result ≡ length (handles_seen self.now) }
    {
        self.items.len()
    }

    /// Finds the value of the handle with this id. Does a binary search, and takes no memory.
    pub fn held(&self, id: &str) -> Option<&Rc<HeldValue>>
        // The result is the value of that handle, or `None` if no handle has exactly this id.
        ensures { option_map (λ h. held_tree h.now.value) result ≡ values_in self.now id.now }
    {
        let handle = handle_of_id(&self.items, id)?;
        Some(&handle.value)
    }

    /// Finds the numbers of the handles whose ids are given, in ascending order.
    ///
    /// Sorts the numbers of the ids, and does a binary search among the handles for each.
    ///
    /// # Errors
    /// No memory: an allocation failed.
    pub fn numbers_of(&self, alloc: Global, ids: &Vec<String>) -> Result<Vec<u64>, AllocError>
        // The result has the number of each handle whose id is given, once, and no others.
        ensures { IfOk result (λ numbers. numbers.items ≡ map (λ h. h.0) (filter (λ h. has_id (map string_bytes ids.now.items) h.0) (handles_seen self.now))) }
    {
        let mut numbers = handle_numbers(alloc, ids)?;
        numbers.retain(|number| self.has(*number));
        Ok(numbers)
    }

    // Whether there is a handle of this number.
    fn has(&self, number: u64) -> bool
        ensures { result ≡ list_any (λ h. h.number == number) self.now.items.items }
    {
        handle_at(&self.items, number).is_some()
    }

    /// Makes room for one more handle.
    ///
    /// # Errors
    /// No memory: an allocation failed.
    pub fn reserve(&mut self) -> Result<(), AllocError>
        // The handles stay as they were, even after an error.
        ensures kept { handles_seen self.new ≡ handles_seen self.old }
        // After an Ok there is room for one more handle.
        ensures room { OnOk result (HasSpare self.new) }
    {
        self.items.reserve(1)
    }

    /// Adds a handle whose number is greater than all others. Takes no memory.
    pub fn hold(&mut self, handle: Handle)
        // There is room for one more handle.
        requires { HasSpare self.now }
        // If its number is greater than all others, the new handle is added at the end.
        ensures added { All (λ held. held.0 < handle.number) (handles_seen self.old)
            → handles_seen self.new ≡ handles_seen self.old ++ handle_seen handle ∷ [] }
        // Otherwise the new handle is dropped, and the others stay as they were.
        ensures kept { ¬ All (λ held. held.0 < handle.number) (handles_seen self.old) → handles_seen self.new ≡ handles_seen self.old }
    {
        if may_come(&self.items, handle.number) {
            self.items.push_reserved(handle);
        }
    }

    /// Releases the handles with these numbers. Does a binary search for each, and moves the handles that
    /// come after it. Takes no memory.
    pub fn disown(&mut self, numbers: &[u64])
        // All handles stay except those with these numbers.
        ensures { handles_seen self.new ≡ filter (λ held. not (list_any (λ n. n == held.0) numbers.now)) (handles_seen self.old) }
    {
        for number in numbers {
            self.release(*number);
        }
    }

    // Releases the handle of this number, if there is one.
    fn release(&mut self, number: u64)
        ensures { handles_seen self.new ≡ filter (λ held. not (number == held.0)) (handles_seen self.old) }
    {
        if let Ok(place) = self
            .items
            .binary_search_by_key(&number, |handle| handle.number)
        {
            self.items.remove(place);
        }
    }

    /// Releases all handles. Takes no memory.
    pub fn clear(&mut self)
        // There are no handles.
        ensures { handles_seen self.new ≡ [] }
    {
        self.items.clear();
    }
}

// The handle of this id, among handles in ascending order of number.
fn handle_of_id<'a>(handles: &'a [Handle], id: &str) -> Option<&'a Handle>
    ensures { IsStrictlyIncreasing (map (λ h. h.number) handles.now)
        → option_map (λ h. h.now) result ≡ find (λ h. bytes_eq id.now (id_of IdKind.Handle h.number)) handles.now }
{
    handle_at(handles, id_number(id, IdKind::Handle, 0)?)
}

// The handle of this number, among handles in ascending order of number.
fn handle_at(handles: &[Handle], number: u64) -> Option<&Handle>
    ensures { IsStrictlyIncreasing (map (λ h. h.number) handles.now) → option_map (λ h. h.now) result ≡ find (λ h. h.number == number) handles.now }
{
    match handles.binary_search_by_key(&number, |handle| handle.number) {
        Ok(place) => Some(&handles[place]),
        Err(_) => None,
    }
}

// Whether adding a handle of this number at the end keeps the ascending order.
fn may_come(handles: &[Handle], number: u64) -> bool
    ensures may { result ≡ true → IsStrictlyIncreasing (map (λ h. h.number) handles.now)
        → IsStrictlyIncreasing (map (λ h. h.number) handles.now ++ number ∷ []) }
    ensures above { All (λ h. h.number < number) handles.now → result ≡ true }
{
    match handles.last() {
        Some(last) => last.number < number,
        None => true,
    }
}

// The numbers of the handles that can have these ids, each once and in ascending order.
fn handle_numbers(alloc: Global, ids: &[String]) -> Result<Vec<u64>, AllocError>
    ensures order { IfOk result (λ numbers. IsStrictlyIncreasing numbers.items) }
    ensures ids { (n : ℕ) → n < 2 ^ 48 → IfOk result (λ numbers. list_any (λ m. m == n) numbers.items ≡ has_id (map string_bytes ids.now) n) }
{
    let mut numbers = Vec::new(alloc);
    for id in ids {
        if let Some(number) = id_number(id, IdKind::Handle, 0) {
            numbers.push(number)?;
        }
    }
    numbers.sort_unstable();
    numbers.dedup();
    Ok(numbers)
}
