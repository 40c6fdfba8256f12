//! What an action does, worked out before anything is changed.
use crate::command_result::CommandResult;
use crate::script_table::ScriptRow;
use bidi_contexts::{Context, Navigation, Occurrence};
use bidi_handles::Handle;

/// What an accepted action does: its events, its result and its change. Nothing has changed until the change
/// is given to `Browser::apply`; a plan that is dropped has no effect.
pub struct Plan {
    /// The events to send before the reply.
    pub before: Vec<Occurrence>,
    /// The result to reply with; `None` for a step of a page, which has no reply.
    pub result: Option<CommandResult>,
    /// The events to send after the reply. Without a reply there are none.
    pub after: Vec<Occurrence>,
    /// The change, for `Browser::reserve` and then `Browser::apply`.
    pub change: Change,
}

/// A change of the browser, with all that it adds already made.
#[derive(Drop)]
pub struct Change {
    /// What it does.
    pub(crate) edit: Edit,
}

/// What a change does to the tables of the browser.
#[derive(Drop)]
pub(crate) enum Edit {
    /// Nothing changes: the action only looks, or logs an entry, which the browser does not keep.
    Keep,
    /// A context is added, in a window that exists or in a new one.
    Add {
        /// The new context.
        context: Context,
        /// Whether its window is new, too.
        opens_window: bool,
    },
    /// The context of this number is removed with all its descendants.
    Remove(u64),
    /// A context navigates.
    Navigate(Navigation),
    /// The row of this text is set in the script table.
    SetRow(String, ScriptRow),
    /// The handle is added to the realm of the context of this number.
    Hold(u64, Handle),
    /// In the realm of the context of this number, the handles of these numbers are released.
    Disown(u64, Vec<u64>),
    /// A user context is added.
    AddUser,
    /// The user context of this number is removed, with all contexts in it.
    RemoveUser(u64),
}
