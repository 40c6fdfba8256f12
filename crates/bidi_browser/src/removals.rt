//! Plans of the actions that remove contexts: `browsingContext.close`, `browser.removeUserContext`, and a frame that a page removes.
ghost use Rattle.std.specs.Prelude.{ℕ, List};
ghost use Rattle.bidi_contexts.specs.Acts.{Act};
ghost use Rattle.bidi_contexts.specs.Actions.{Close, RemoveUserContext, Unframe};
ghost use Rattle.bidi_browser.specs.Plans.{Plans, HasResultOf, IsWellPlanned};
ghost use Rattle.bidi_browser.specs.Stands.{StandsFor};

use crate::browser::Browser;
use crate::command_result::CommandResult;
use crate::looking::{context_named, nothing, top_named};
use crate::plan::{Change, Edit, Plan};
use bidi_contexts::{DEFAULT_USER_ID, removal, removal_of_user};
use bidi_handles::Refusal;
use bidi_methods::{Method, ResultData};
use bidi_params::ErrorCode;

/// Plans the close of a top-level context with all its descendants.
///
/// # Errors
/// The first that holds:
/// - `no such frame`: the context is not live.
/// - `invalid argument`: the context is a child of another.
/// - No memory: an allocation failed.
pub(crate) fn plan_close(browser: &Browser, context: &str) -> Result<Plan, Refusal>
    ensures plans { (past : List Act) (moment : ℕ) → StandsFor browser.now past → Plans result past moment (Close context.now) }
    ensures well { IsWellPlanned result }
    ensures of_method { HasResultOf Method.BrowsingContextClose result }
{
    let context = top_named(&browser.contexts, context)?;
    let before = removal(browser.alloc, &browser.contexts, context)?;
    let result = ResultData::BrowsingContextClose(nothing(browser.alloc));
    Ok(Plan {
        before,
        result: Some(CommandResult::Data(result)),
        after: Vec::new(browser.alloc),
        change: Change {
            edit: Edit::Remove(context.number()),
        },
    })
}

/// Plans the removal of a child context with all its descendants.
///
/// # Errors
/// The first that holds:
/// - `no such frame`: the context is not live.
/// - `invalid argument`: the context is a top-level one.
/// - No memory: an allocation failed.
pub(crate) fn plan_unframe(browser: &Browser, context: &str) -> Result<Plan, Refusal>
    ensures plans { (past : List Act) (moment : ℕ) → StandsFor browser.now past → Plans result past moment (Unframe context.now) }
    ensures well { IsWellPlanned result }
{
    let context = context_named(&browser.contexts, context)?;
    if context.is_top() {
        return Err(Refusal::Code(ErrorCode::InvalidArgument));
    }
    let before = removal(browser.alloc, &browser.contexts, context)?;
    Ok(Plan {
        before,
        result: None,
        after: Vec::new(browser.alloc),
        change: Change {
            edit: Edit::Remove(context.number()),
        },
    })
}

/// Plans the removal of a user context, with all contexts in it.
///
/// # Errors
/// The first that holds:
/// - `invalid argument`: it is the default one.
/// - `no such user context`: no live one has this id.
/// - No memory: an allocation failed.
pub(crate) fn plan_remove_user(browser: &Browser, id: &str) -> Result<Plan, Refusal>
    ensures plans { (past : List Act) (moment : ℕ) → StandsFor browser.now past → Plans result past moment (RemoveUserContext id.now) }
    ensures well { IsWellPlanned result }
    ensures of_method { HasResultOf Method.BrowserRemoveUserContext result }
{
    if id == DEFAULT_USER_ID {
        return Err(Refusal::Code(ErrorCode::InvalidArgument));
    }
    let Some(user) = browser.users.named(id) else {
        return Err(Refusal::Code(ErrorCode::NoSuchUserContext));
    };
    let before = removal_of_user(browser.alloc, &browser.contexts, user)?;
    let result = ResultData::BrowserRemoveUserContext(nothing(browser.alloc));
    Ok(Plan {
        before,
        result: Some(CommandResult::Data(result)),
        after: Vec::new(browser.alloc),
        change: Change {
            edit: Edit::RemoveUser(user),
        },
    })
}
