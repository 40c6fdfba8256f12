//! Both ends together in memory, connected by queues of texts.
//!
//! [`pair`] plays a list of [`PairStep`]s: any number of local ends, each on a link of its own, and one
//! remote end. Its [`Ledger`] has the fate of each command, and the events of each link. Steps and ledger are
//! those of `bidi_ledger`; a [`Link`] over a real stream is that of `bidi_socket`, which this crate also
//! names.
//!
//! A text is made once and moved from end to end. `pair` fails with `NoMemory` if an allocation fails, and
//! with `WornOut` after 1,000,000,000 steps of the remote end; there is no ledger then. Memory holds the
//! steps that are left, the queued texts and the ledger so far.
#![tactic(auto)]

mod ends;
mod link_end;
mod links;
mod pairing;

pub use bidi_ledger::{Account, Entry, Fate, Ledger, PageStep, PairStep};
pub use bidi_socket::{Incoming, Link, LinkFault};
pub use pairing::pair;
