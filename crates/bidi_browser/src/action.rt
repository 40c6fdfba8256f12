//! What the browser is asked to do.
use bidi_methods::BrowserCommand;
use bidi_scripts::{Level, TableRow};

/// What the browser is asked to do: a command, or a step of a page.
///
/// A step of a page comes from a play and not from a client, so it has no reply.
#[derive(Drop)]
pub enum Action<'a> {
    /// A client asks for it, and gets a reply.
    Asked(&'a BrowserCommand),
    /// A page adds a child to the context of this id, at this URL.
    Frame(&'a str, &'a str),
    /// A page removes the child context of this id, with all its descendants.
    Unframe(&'a str),
    /// A page logs this text at this level, in the context of this id.
    Log(&'a str, Level, &'a str),
    /// A play sets this row of the script table. `None` stands for a text that is no row, and is refused.
    TableRow(Option<TableRow>),
}
