//! Plans of actions: each goes to the file of its kind.
ghost use Rattle.std.specs.Prelude.{◌≡◌, List, Some};
ghost use Rattle.bidi_methods.specs.CommandData.{browser_asked};
ghost use Rattle.bidi_contexts.specs.Acts.{Act};
ghost use Rattle.bidi_contexts.specs.Actions as asked;
ghost use Rattle.bidi_contexts.specs.Tables.{HasIds};
ghost use Rattle.bidi_browser.specs.Asked.{action_of, command_asked};
ghost use Rattle.bidi_browser.specs.Plans.{HasResultOf, Plans, IsWellPlanned};
ghost use Rattle.bidi_browser.specs.Stands.{StandsFor};

use crate::action::Action;
use crate::births::{plan_create, plan_create_user, plan_frame};
use crate::browser::Browser;
use crate::calling::plan_call_function;
use crate::logging::plan_log;
use crate::looking::{plan_activate, plan_get_realms, plan_get_tree, plan_get_users};
use crate::navigation::{plan_navigate, plan_reload, plan_traverse_history};
use crate::plan::Plan;
use crate::removals::{plan_close, plan_remove_user, plan_unframe};
use crate::scripts::{plan_disown, plan_evaluate};
use crate::tabling::plan_row;
use bidi_handles::Refusal;
use bidi_methods::{BrowserCommand, Method};
use bidi_tree::JsUint;

impl Browser {
    /// Works out what an action does at a moment, the timestamp of its events. Changes nothing.
    ///
    /// Looking up a context passes over the live contexts; what is told of its descendants passes over these
    /// alone. A removal and a navigation make an event for each context that they remove; a navigation copies
    /// no session history. A row of the table costs an outline of it and looking up its text, a script a copy
    /// of its value, and a call also an outline of each argument.
    ///
    /// # Errors
    /// - `Code`: a check failed. For a command it is the code of the first check that fails, to reply with.
    ///   For a step of a page any code means only that the step has no effect.
    /// - `NoMemory`: an allocation failed.
    ///
    /// After WebDriver BiDi, "The browsingContext Module" and "The script Module".
    pub fn plan(&self, action: Action, moment: JsUint) -> Result<Plan, Refusal>
        // For every past that the browser stands for, with fewer than 2^48 ids of each kind given out, the
        // plan is that of the definitions.
        ensures plans { (past : List Act) → StandsFor self.now past → HasIds past → Plans result past moment.value (action_of action.entry) }
        // A message can be made of each event and of the result.
        ensures well { IsWellPlanned result }
        // For a command, the result is one of the method of the command.
        ensures of_method { (method : Method) → asked.method_of (action_of action.entry) ≡ Some method → HasResultOf method result }
    {
        match action {
            Action::Asked(command) => self.plan_command(command, moment),
            Action::Frame(context, url) => plan_frame(self, context, url),
            Action::Unframe(context) => plan_unframe(self, context),
            Action::Log(context, level, text) => plan_log(self, moment, context, level, text),
            Action::TableRow(row) => plan_row(self, row),
        }
    }

    // Works out what a command does.
    fn plan_command(&self, command: &BrowserCommand, moment: JsUint) -> Result<Plan, Refusal>
        ensures plans { (past : List Act) → StandsFor self.now past → HasIds past → Plans result past moment.value (command_asked command.now) }
        ensures well { IsWellPlanned result }
        ensures of_method { HasResultOf (browser_asked command.now).0 result }
    {
        match command {
            BrowserCommand::Activate(params) => plan_activate(self, &params.context),
            BrowserCommand::Close(params) => plan_close(self, &params.context),
            BrowserCommand::Create(params) => plan_create(self, params),
            BrowserCommand::GetTree(params) => plan_get_tree(self, params),
            BrowserCommand::Navigate(params) => plan_navigate(self, moment, params),
            BrowserCommand::Reload(params) => plan_reload(self, moment, params),
            BrowserCommand::TraverseHistory(params) => plan_traverse_history(self, moment, params),
            BrowserCommand::Evaluate(params) => plan_evaluate(self, params.as_ref()),
            BrowserCommand::CallFunction(params) => plan_call_function(self, params.as_ref()),
            BrowserCommand::Disown(params) => plan_disown(self, params.as_ref()),
            BrowserCommand::GetRealms(params) => plan_get_realms(self, params),
            BrowserCommand::CreateUserContext(_) => plan_create_user(self),
            BrowserCommand::GetUserContexts(_) => plan_get_users(self),
            BrowserCommand::RemoveUserContext(params) => plan_remove_user(
                self,
                &params.user_context,
            ),
        }
    }
}
