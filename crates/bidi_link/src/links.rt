//! The links by their numbers, in the order of opening.
ghost use Rattle.std.specs.Prelude.{◌≡◌, ℕ, List, [], if◌then◌else◌, map, string_bytes, OnOk};
ghost use Rattle.bidi_remote.specs.Machine.Sent.{text_on, texts_on};
ghost use Rattle.bidi_sessions.specs.View.{sent_of};
ghost use Rattle.bidi_ledger.specs.Link.{Link};
ghost use Rattle.bidi_link.specs.Rows.{with_texts};
ghost use Rattle.bidi_link.specs.Stands.{RowsAgree, numbers};

use crate::link_end::LinkEnd;
use bidi_remote::Sent;
use indexmap::IndexMap;
use std::alloc::AllocError;

/// Queues each text that the remote end sent on its link.
pub(crate) fn deliver(links: &mut IndexMap<u64, LinkEnd>, all: Vec<Sent>) -> Result<(), AllocError>
    ensures rows { (f : ℕ → Link) → RowsAgree links.old.entries f
        → OnOk result (RowsAgree links.new.entries (λ l. with_texts (f l) (texts_on l (map sent_of all.items)))) }
    ensures numbers { OnOk result (numbers links.new.entries ≡ numbers links.old.entries) }
{
    for sent in all {
        deliver_one(links, sent)?;
    }
    Ok(())
}

// Queues one thing that the remote end sent, if it is a text.
fn deliver_one(links: &mut IndexMap<u64, LinkEnd>, sent: Sent) -> Result<(), AllocError>
    ensures rows { (f : ℕ → Link) → RowsAgree links.old.entries f
        → OnOk result (RowsAgree links.new.entries (λ l. with_texts (f l) (text_on l (sent_of sent)))) }
    ensures numbers { OnOk result (numbers links.new.entries ≡ numbers links.old.entries) }
{
    let Sent::Text(conn, text) = sent else {
        return Ok(());
    };
    match links.get_mut(&conn.value) {
        Some(link) => link.push_down(text.into_string()?),
        None => Ok(()),
    }
}
