//! Changes of a browser: room for one is made first, then it is put in.
ghost use Rattle.std.specs.Prelude.{◌≡◌, List, ◌∷◌, Ok, OnOk};
ghost use Rattle.bidi_contexts.specs.Acts.{Act};
ghost use Rattle.bidi_contexts.specs.Actions as asked;
ghost use Rattle.bidi_contexts.specs.Outcome.{outcome};
ghost use Rattle.bidi_contexts.specs.Tables.{HasIds};
ghost use Rattle.bidi_browser.specs.Plans.{HasRoom, Makes};
ghost use Rattle.bidi_browser.specs.Stands.{StandsFor};

use crate::browser::Browser;
use crate::plan::{Change, Edit};
use std::alloc::AllocError;

impl Browser {
    /// Makes room for what a change adds, so that [`Browser::apply`] can put it in without allocating.
    ///
    /// No context, handle or row is changed, whether it succeeds or not.
    ///
    /// # Errors
    /// No memory: an allocation failed.
    pub fn reserve(&mut self, change: &Change) -> Result<(), AllocError>
        // The browser stands for the same pasts as before, whether it succeeds or not.
        ensures kept { (past : List Act) → StandsFor self.old past → StandsFor self.new past }
        // On success there is room for the change.
        ensures room { OnOk result (HasRoom self.new change.now) }
    {
        match &change.edit {
            Edit::Add { .. } => self.contexts.reserve(),
            Edit::Navigate(navigation) => self.contexts.reserve_in(navigation),
            Edit::SetRow(..) => self.table.reserve(),
            Edit::Hold(number, _) => self.contexts.reserve_handle(*number),
            Edit::AddUser => self.users.reserve(),
            _ => Ok(()),
        }
    }

    /// Puts a planned change in place, for which [`Browser::reserve`] made room. Takes no memory.
    pub fn apply(&mut self, change: Change)
        // There is room for the change.
        requires { HasRoom self.now change }
        // Whatever past the change was planned in, the browser then stands for that past with the act added.
        ensures { (past : List Act) (action : asked.Action) (act : Act) → StandsFor self.old past → HasIds past
            → outcome past action ≡ Ok act → Makes change past act → StandsFor self.new (act ∷ past) }
    {
        match change.edit {
            Edit::Keep => {}
            Edit::Add {
                context,
                opens_window,
            } => {
                self.next_context = self.next_context.wrapping_add(1);
                self.next_realm = self.next_realm.wrapping_add(1);
                if opens_window {
                    self.next_window = self.next_window.wrapping_add(1);
                }
                self.contexts.add(context);
            }
            Edit::Remove(number) => self.contexts.remove(number),
            Edit::Navigate(navigation) => {
                self.next_realm = navigation.realm.wrapping_add(1);
                self.next_navigation = self.next_navigation.wrapping_add(1);
                self.contexts.navigate(navigation);
            }
            Edit::SetRow(text, row) => self.table.set(text, row),
            Edit::Hold(number, handle) => {
                self.next_handle = self.next_handle.wrapping_add(1);
                self.contexts.hold(number, handle);
            }
            Edit::Disown(number, handles) => self.contexts.disown(number, handles),
            Edit::AddUser => self.users.add(),
            Edit::RemoveUser(user) => {
                self.users.remove(user);
                self.contexts.remove_user(user);
            }
        }
    }
}
