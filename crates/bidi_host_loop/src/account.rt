//! What a host did at its edge, in order, for contracts.
ghost use Rattle.std.specs.Prelude.{◌≡◌, ◌∷◌, ◌++◌, List, []};
ghost use Rattle.std.specs.Borrow.{ftrue};
ghost use Rattle.bidi_host_loop.specs.Deeds.{Deed, deed_of};

use std::marker::Model;

/// What a host did at its edge, in order. It takes no space: only contracts read it.
#[derive(Drop)]
pub(crate) struct Account {
    pub ghost deeds: { List Deed },
}

impl Model for Account {
    ghost also_owns = { λ _. ftrue };
}

impl Account {
    /// An account of nothing.
    pub(crate) fn new() -> Account
        ensures { result.deeds ≡ [] }
    {
        Account {}
    }

    /// Adds the deed of these numbers and this text at the end.
    pub(crate) fn note(&mut self, _numbers: &[u64], _text: &[u8])
        ensures { self.new.deeds ≡ self.old.deeds ++ deed_of _numbers.now _text.now ∷ [] }
    {}
}
