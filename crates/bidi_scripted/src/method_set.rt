//! Which methods have rows, so that a command of another method is not compared with each row.
ghost use Rattle.std.specs.Prelude.{◌≡◌, ◌<◌, ℕ, List, true, vec_len};
ghost use Rattle.bidi_scripted.specs.Slots.{slot_of, slots};

use std::alloc::{AllocError, Global};

/// How many slots there are. Each method has one of them, and several methods may share one.
const SLOTS: usize = 65_536;

/// A set of methods, in which each method of a row is. Others may be in it, too.
#[derive(Drop)]
pub(crate) struct MethodSet {
    /// Whether a method of this slot was added.
    marks: Vec<bool>,
    ghost whole: { vec_len marks ≡ slots },
}

impl MethodSet {
    ghost use Rattle.bidi_scripted.specs.Methods.{has_method};

    /// The empty set. Takes 64 KB.
    pub(crate) fn new(alloc: Global) -> Result<MethodSet, AllocError> {
        Ok(MethodSet {
            marks: Vec::from_elem(alloc, false, SLOTS)?,
        })
    }

    /// Whether a method is in the set. Takes no memory.
    pub(crate) fn has(&self, method: &str) -> bool
        ensures { result ≡ has_method self.now method.now }
    {
        self.marks[slot_of(method)]
    }

    /// Adds a method. Takes no memory.
    pub(crate) fn add(&mut self, method: &str)
        ensures added { has_method self.new method.now ≡ true }
        ensures kept { (m : List ℕ) → has_method self.old m ≡ true → has_method self.new m ≡ true }
    {
        self.marks[slot_of(method)] = true;
    }
}

// The slot of a method.
fn slot_of(method: &str) -> usize
    ensures bound { result < slots }
    ensures slot { result ≡ slot_of method.now }
{
    let mut slot: usize = 0;
    for byte in method.as_bytes() {
        slot = (slot * 31 + usize::from(*byte)) % SLOTS;
    }
    slot
}
