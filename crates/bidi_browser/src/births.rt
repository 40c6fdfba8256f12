//! Plans of the actions that add a context: `browsingContext.create`, and a frame that a page adds; and of `browser.createUserContext`.
ghost use Rattle.std.specs.Prelude.{◌≡◌, ◌<◌, ◌^◌, ℕ, List, Option, [], ◌∷◌, IfOk, IfSome, codes, option_map, string_bytes, unwrap_or};
ghost use Rattle.std.proofs.Props.{props};
ghost use Rattle.bidi_tree.specs.Node.{no_members};
ghost use Rattle.bidi_contexts.specs.Acts.{Act, Made};
ghost use Rattle.bidi_contexts.specs.Actions.{CreateUserContext, Frame};
ghost use Rattle.bidi_browser.specs.Asked.{create_asked, create_type_of};
ghost use Rattle.bidi_contexts.specs.ContextRows.{row_of, row_at, created_in, realm_created_in};
ghost use Rattle.bidi_contexts.specs.Contexts.{tops};
ghost use Rattle.bidi_browser.specs.Found.{IsChecked};
ghost use Rattle.bidi_handles.specs.Maps.{◌being◌and◌, mapped, id_tree};
ghost use Rattle.bidi_contexts.specs.Outcome.{create_outcome, oldest_window, user_checked, window_for};
ghost use Rattle.bidi_contexts.specs.View.{AreWell};
ghost use Rattle.bidi_contexts.specs.Tables.{HasIds};
ghost use Rattle.bidi_browser.specs.Plans.{Plans, HasResultOf, IsWellPlanned, IsWellResult};
ghost use Rattle.bidi_contexts.specs.Tables.{AreUsersOf, IsTableOf};
ghost use Rattle.bidi_browser.specs.Stands.{StandsFor};
ghost use Rattle.bidi_browser.specs.View.{result_method, result_tree};
ghost use Rattle.bidi_contexts.specs.View.{seen};

use crate::browser::Browser;
use crate::command_result::CommandResult;
use crate::looking::{answered, context_named, top_if_named};
use crate::plan::{Change, Edit, Plan};
use bidi_contexts::{
    Context, Contexts, DEFAULT_USER, LOWEST_LEVEL, Occurrence, Users, parsed, user_info,
};
use bidi_handles::{IdKind, Refusal, id_text};
use bidi_methods::{Method, Payload, ResultData};
use bidi_params::{ContextType, CreateParameters, CreateResult, ErrorCode};
use bidi_shape::Ext;
use std::alloc::{AllocError, Global};

/// Plans a new top-level context at `about:blank`.
///
/// # Errors
/// The first that holds:
/// - `no such frame`: the reference context is not live.
/// - `invalid argument`: the reference context is a child of another.
/// - `no such user context`: no live user context has the id that is given; absent, it is the default one.
/// - `unknown error`: 1,024 contexts are live, or no id is left.
/// - No memory: an allocation failed.
pub(crate) fn plan_create(browser: &Browser, params: &CreateParameters) -> Result<Plan, Refusal>
    ensures plans { (past : List Act) (moment : ℕ) → StandsFor browser.now past → HasIds past → Plans result past moment (create_asked params.now) }
    ensures well { IsWellPlanned result }
    ensures of_method { HasResultOf Method.BrowsingContextCreate result }
{
    let place = place_checked(browser, params)?;
    let opens_window = place.window.is_none();
    let context = Context::top_level(
        browser.alloc,
        browser.next_context,
        place.window.unwrap_or(browser.next_window),
        place.user,
        browser.next_realm,
    )?;
    let before = births(browser.alloc, &context)?;
    let result = created(browser.alloc, context.number())?;
    Ok(Plan {
        before,
        result: Some(result),
        after: Vec::new(browser.alloc),
        change: Change {
            edit: Edit::Add {
                context,
                opens_window,
            },
        },
    })
}

// Where a new top-level context is to stand.
#[derive(Drop)]
struct Place {
    // The window that it joins; `None` where it opens one.
    window: Option<u64>,
    // Its user context.
    user: u64,
    ghost window_fits: { IfSome window (λ n. n < 2 ^ 48) } by { Prim.hlevel props },
    ghost user_fits: { user < 2 ^ 48 },
}

// Makes the checks of a create.
fn place_checked(browser: &Browser, params: &CreateParameters) -> Result<Place, ErrorCode>
    ensures checked { (past : List Act) → StandsFor browser.now past → HasIds past
        → IsChecked (λ p. Made p.window p.user) result (create_outcome past (create_type_of params.now.kind) (option_map string_bytes params.now.reference_context)
        (option_map string_bytes params.now.user_context)) }
    ensures ids { IfOk result (λ _. (browser.now.next_context < 2 ^ 48) × (browser.now.next_realm < 2 ^ 48) × (browser.now.next_window < 2 ^ 48)) }
{
    let reference = top_if_named(&browser.contexts, &params.reference_context)?;
    let user = user_checked(&browser.users, &params.user_context)?;
    if !browser.has_room() {
        return Err(ErrorCode::UnknownError);
    }
    Ok(Place {
        window: window_for(&browser.contexts, params.kind, reference),
        user,
    })
}

// The live user context of an id; absent, the default one.
fn user_checked(users: &Users, id: &Option<String>) -> Result<u64, ErrorCode>
    ensures checked { (past : List Act) → AreUsersOf users.now past
        → IsChecked (λ n. n) result (user_checked past (unwrap_or (option_map string_bytes id.now) (codes "default"))) }
    ensures fits { IfOk result (λ n. n < 2 ^ 48) }
{
    match id {
        Some(id) => users.named(id).ok_or(ErrorCode::NoSuchUserContext),
        None => Ok(DEFAULT_USER),
    }
}

// The window that a new context joins: a tab that of its reference, or else that of the oldest top-level
// context. `None` where a new window is opened.
fn window_for(contexts: &Contexts, kind: ContextType, reference: Option<&Context>) -> Option<u64>
    ensures window { (past : List Act) (c : Option ℕ)
        → IsTableOf contexts.now past → option_map (λ r. row_of r.now) reference.entry ≡ option_map (row_at past) c
        → result ≡ window_for past (create_type_of kind) c }
    ensures fits { IfSome result (λ n. n < 2 ^ 48) }
{
    match kind {
        ContextType::Window => None,
        ContextType::Tab => match reference {
            Some(context) => Some(context.window()),
            None => oldest_window(contexts),
        },
    }
}

// The window of the oldest top-level context, if any is live.
fn oldest_window(contexts: &Contexts) -> Option<u64>
    ensures window { (past : List Act) → IsTableOf contexts.now past → result ≡ oldest_window past (tops past) }
    ensures fits { IfSome result (λ n. n < 2 ^ 48) }
{
    match contexts.oldest() {
        Some(context) => Some(context.window()),
        None => None,
    }
}

/// Plans a child context at a URL, for a frame that a page adds.
///
/// # Errors
/// The first that holds:
/// - `no such frame`: the context is not live.
/// - `invalid argument`: the text is no absolute URL.
/// - `unknown error`: 1,024 contexts are live, no id is left, or the parent stands at level 16.
/// - No memory: an allocation failed.
pub(crate) fn plan_frame(browser: &Browser, context: &str, url: &str) -> Result<Plan, Refusal>
    ensures plans { (past : List Act) (moment : ℕ) → StandsFor browser.now past → HasIds past → Plans result past moment (Frame context.now url.now) }
    ensures well { IsWellPlanned result }
{
    let parent = context_named(&browser.contexts, context)?;
    let url = parsed(browser.alloc, url)?;
    if !browser.has_room() || parent.level() >= LOWEST_LEVEL {
        return Err(Refusal::Code(ErrorCode::UnknownError));
    }
    let context = parent.child(browser.alloc, browser.next_context, browser.next_realm, url)?;
    let before = births(browser.alloc, &context)?;
    Ok(Plan {
        before,
        result: None,
        after: Vec::new(browser.alloc),
        change: Change {
            edit: Edit::Add {
                context,
                opens_window: false,
            },
        },
    })
}

// The events of a new context: contextCreated, then realmCreated.
fn births(alloc: Global, context: &Context) -> Result<Vec<Occurrence>, AllocError>
    ensures told { IfOk result (λ all. seen all.items ≡ created_in (row_of context.now) ∷ realm_created_in (row_of context.now) ∷ []) }
    ensures well { IfOk result (λ all. AreWell all.items) }
{
    let mut all = Vec::new(alloc);
    all.push(context.created(alloc)?)?;
    all.push(context.realm_created(alloc)?)?;
    Ok(all)
}

// The result of `browsingContext.create`: the id of the new context.
fn created(alloc: Global, number: u64) -> Result<CommandResult, AllocError>
    requires { number < 2 ^ 48 }
    ensures tree { IfOk result (λ r. result_tree r ≡ mapped ("context" being id_tree IdKind.Context number and no_members)) }
    ensures well { IfOk result IsWellResult }
    ensures of_method { IfOk result (λ r. result_method r ≡ Method.BrowsingContextCreate) }
{
    let context = id_text(alloc, IdKind::Context, 0, number)?;
    let result = CreateResult {
        context,
        ext: Ext::empty(alloc),
    };
    Ok(CommandResult::Data(ResultData::BrowsingContextCreate(result)))
}

/// Plans a new user context.
///
/// # Errors
/// - `unknown error`: 64 are live besides the default one, or no id is left.
/// - No memory: an allocation failed.
pub(crate) fn plan_create_user(browser: &Browser) -> Result<Plan, Refusal>
    ensures plans { (past : List Act) (moment : ℕ) → StandsFor browser.now past → HasIds past → Plans result past moment CreateUserContext }
    ensures well { IsWellPlanned result }
    ensures of_method { HasResultOf Method.BrowserCreateUserContext result }
{
    let number = browser.users.next()?;
    let result = ResultData::BrowserCreateUserContext(user_info(browser.alloc, number)?);
    let result = CommandResult::Data(result);
    Ok(answered(browser.alloc, result, Edit::AddUser))
}
