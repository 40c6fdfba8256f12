//! Entries in the order of their keys.
ghost use Rattle.std.specs.List.Sorted.{IsStrictlySortedBy, IsStrictlySortedBy-prop};
ghost use Rattle.std.specs.Map.{keys_of};

use std::alloc::{AllocError, Global};

/// Entries under distinct keys, in the order of the keys.
///
/// It takes one block of memory, and suits the few members of a message.
#[derive(Drop)]
pub struct Sorted<K: Ord, V> {
    pub(crate) entries: Vec<(K, V)>,
    // The keys ascend, so no two are the same.
    pub ghost ascend: { IsStrictlySortedBy K.cmp (keys_of entries.items) } by { IsStrictlySortedBy-prop K.cmp (keys_of entries.items) },
}

impl<K: Ord, V> Sorted<K, V> {
    ghost use Rattle.std.specs.Prelude.{◌≡◌, [], length, IfOk};
    ghost use Rattle.bidi_tree.specs.Entries.{entries_of};

    /// Makes an empty collection. Takes no memory.
    pub fn new(alloc: Global) -> Self
        // The new collection has no entries.
        ensures { entries_of result ≡ [] }
    {
        Sorted {
            entries: Vec::new(alloc),
        }
    }

    /// Makes an empty collection with room for `room` entries.
    ///
    /// # Errors
    /// No memory: an allocation failed.
    pub fn with_capacity(alloc: Global, room: usize) -> Result<Self, AllocError>
        // The new collection has no entries.
        ensures { IfOk result (λ s. entries_of s ≡ []) }
    {
        Ok(Sorted {
            entries: Vec::with_capacity(alloc, room)?,
        })
    }

    /// The number of entries.
    pub fn len(&self) -> usize
        // The result is the number of entries.
        ensures { result ≡ length (entries_of self.now) }
    {
        self.entries.len()
    }

    /// The entries as a slice.
    pub fn as_slice(&self) -> &[(K, V)]
        // The slice has all entries, in the order of their keys.
        ensures { result.now ≡ entries_of self.now }
    {
        self.entries.as_slice()
    }
}
