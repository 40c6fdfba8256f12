//! How many bytes of memory a block counts for.
ghost use Rattle.std.specs.Prelude.{◌≡◌};
ghost use Rattle.bidi_peer.specs.Waiting.{counted};

/// A block of memory of at most so many bytes may be kept while nothing waits in it.
pub(crate) const KEPT: usize = 64 * 1024;

/// How many bytes of memory a block of this size counts for, if so many bytes wait in it.
pub(crate) fn counted(waiting: usize, size: usize) -> usize
    ensures { result ≡ counted waiting size }
{
    if size > KEPT { size } else { waiting }
}
