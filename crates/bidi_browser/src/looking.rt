//! Look-ups of contexts that refuse with an error code, and plans of the commands that change nothing.
ghost use Rattle.std.specs.Prelude.{◌≡◌, ℕ, List, [], Some, true, map, if◌then◌else◌, IfOk, option_map, string_bytes};
ghost use Rattle.std.specs.List.{AllByRecursion};
ghost use Rattle.bidi_scripts.specs.RealmType.{realm_type_text};
ghost use Rattle.bidi_contexts.specs.Acts.{Act};
ghost use Rattle.bidi_contexts.specs.Actions.{Activate, GetUserContexts};
ghost use Rattle.bidi_browser.specs.Asked.{get_realms_asked, get_tree_asked};
ghost use Rattle.bidi_contexts.specs.ContextRows.{row_of, row_at, realm_info_in};
ghost use Rattle.bidi_browser.specs.Found.{AreShown, IsFound, IsFoundIfNamed, IsLookedAt};
ghost use Rattle.bidi_contexts.specs.InfosWritten.{TellsInfos};
ghost use Rattle.bidi_contexts.specs.Info.{info_of};
ghost use Rattle.bidi_handles.specs.Maps.{nothing};
ghost use Rattle.bidi_browser.specs.Occurs.{realm_holders, roots, takes_windows};
ghost use Rattle.bidi_contexts.specs.Outcome.{context_named, looked_at, top_named, top_if_named};
ghost use Rattle.bidi_browser.specs.Plans.{Plans, HasResultOf, IsWellPlanned};
ghost use Rattle.bidi_contexts.specs.Tables.{IsTableOf};
ghost use Rattle.bidi_browser.specs.Stands.{StandsFor};
ghost use Rattle.bidi_browser.specs.declared.command_result.CommandResult.TheVariants as CommandResult;

use crate::browser::Browser;
use crate::command_result::{CommandResult, ResultText};
use crate::plan::{Change, Edit, Plan};
use bidi_contexts::{Context, Contexts};
use bidi_handles::Refusal;
use bidi_methods::{Method, Payload, ResultData};
use bidi_params::{EmptyResult, ErrorCode, GetTreeParameters};
use bidi_scripts::{GetRealmsParameters, GetRealmsResult, RealmInfo, RealmType};
use bidi_shape::{Ext, Shape};
use std::alloc::{AllocError, Global};
use std::slice::from_ref;

// ---- checks

/// The live context of an id.
///
/// # Errors
/// `no such frame`: no live context has this id.
pub(crate) fn context_named<'a>(contexts: &'a Contexts, id: &str) -> Result<&'a Context, ErrorCode>
    ensures { (past : List Act) → IsTableOf contexts.now past → IsFound result past (context_named past id.now) }
{
    match contexts.named(id) {
        Some(context) => Ok(context),
        None => Err(ErrorCode::NoSuchFrame),
    }
}

/// The live top-level context of an id.
///
/// # Errors
/// - `no such frame`: no live context has this id.
/// - `invalid argument`: the context is a child of another.
pub(crate) fn top_named<'a>(contexts: &'a Contexts, id: &str) -> Result<&'a Context, ErrorCode>
    ensures { (past : List Act) → IsTableOf contexts.now past → IsFound result past (top_named past id.now) }
{
    let context = context_named(contexts, id)?;
    if !context.is_top() {
        return Err(ErrorCode::InvalidArgument);
    }
    Ok(context)
}

/// As [`top_named`] for an id that is given; `None` where it is absent.
pub(crate) fn top_if_named<'a>(
    contexts: &'a Contexts,
    id: &Option<String>,
) -> Result<Option<&'a Context>, ErrorCode>
    ensures { (past : List Act) → IsTableOf contexts.now past → IsFoundIfNamed result past (top_if_named past (option_map string_bytes id.now)) }
{
    match id {
        None => Ok(None),
        Some(id) => Ok(Some(top_named(contexts, id)?)),
    }
}

// ---- plans

/// Plans `browsingContext.activate`, which checks that the context is a top-level one and changes nothing.
pub(crate) fn plan_activate(browser: &Browser, context: &str) -> Result<Plan, Refusal>
    ensures plans { (past : List Act) (moment : ℕ) → StandsFor browser.now past → Plans result past moment (Activate context.now) }
    ensures well { IsWellPlanned result }
    ensures of_method { HasResultOf Method.BrowsingContextActivate result }
{
    top_named(&browser.contexts, context)?;
    let result = ResultData::BrowsingContextActivate(nothing(browser.alloc));
    Ok(looked(browser.alloc, result))
}

/// Plans `browsingContext.getTree`: the tree of one context or of each top-level one, to a depth.
pub(crate) fn plan_get_tree(browser: &Browser, params: &GetTreeParameters) -> Result<Plan, Refusal>
    ensures plans { (past : List Act) (moment : ℕ) → StandsFor browser.now past → Plans result past moment (get_tree_asked params.now) }
    ensures well { IsWellPlanned result }
    ensures of_method { HasResultOf Method.BrowsingContextGetTree result }
{
    let text = roots_text(browser, depth_in(params), &params.root)?;
    let result = ResultText {
        method: Method::BrowsingContextGetTree,
        text,
    };
    Ok(answered(browser.alloc, CommandResult::Text(result), Edit::Keep))
}

// The depth that is asked for. Absent, it is the whole depth.
fn depth_in(params: &GetTreeParameters) -> Option<u64>
    ensures { result ≡ option_map (λ n. n.value) params.now.max_depth }
{
    match params.max_depth {
        Some(depth) => Some(depth.value),
        None => None,
    }
}

// The text of the result that has the Info of the context that is asked for, or of each top-level one.
fn roots_text(
    browser: &Browser,
    depth: Option<u64>,
    root: &Option<String>,
) -> Result<String, Refusal>
    ensures told { IfOk result (λ s. TellsInfos (string_bytes s) (λ infos. (past : List Act) → StandsFor browser.now past
        → infos ≡ map (info_of past depth) (roots past (option_map string_bytes root.now)))) }
    ensures looked { (past : List Act) → StandsFor browser.now past → IsLookedAt result (looked_at past (option_map string_bytes root.now)) }
{
    match root {
        None => Ok(browser.contexts.trees_text(depth)?),
        Some(id) => {
            let context = context_named(&browser.contexts, id)?;
            Ok(browser.contexts.tree_text(context, depth)?)
        }
    }
}

/// Plans `script.getRealms`: the realms of all contexts, or that of one. Each realm is of type `window`.
pub(crate) fn plan_get_realms(
    browser: &Browser,
    params: &GetRealmsParameters,
) -> Result<Plan, Refusal>
    ensures plans { (past : List Act) (moment : ℕ) → StandsFor browser.now past → Plans result past moment (get_realms_asked params.now) }
    ensures well { IsWellPlanned result }
    ensures of_method { HasResultOf Method.ScriptGetRealms result }
{
    let contexts = holders(browser, &params.context)?;
    let realms = windows(browser.alloc, contexts, params.kind)?;
    let result = ResultData::ScriptGetRealms(GetRealmsResult {
        realms,
        ext: Ext::empty(browser.alloc),
    });
    Ok(looked(browser.alloc, result))
}

// Whether realms of type `window` are asked for, as they are where no type is given.
fn takes_windows(kind: Option<RealmType>) -> bool
    ensures { result ≡ takes_windows (option_map realm_type_text kind) }
{
    match kind {
        None | Some(RealmType::Window) => true,
        _ => false,
    }
}

// The contexts whose realms are asked for: one, or all in tree order.
fn holders<'a>(browser: &'a Browser, id: &Option<String>) -> Result<&'a [Context], ErrorCode>
    ensures { (past : List Act) → StandsFor browser.now past
        → (let named = option_map string_bytes id.now in
        AreShown (λ cs. map row_of cs.now) result (looked_at past named) (map (row_at past) (realm_holders past named true))) }
{
    match id {
        None => Ok(browser.contexts.in_tree_order()),
        Some(id) => {
            let context = context_named(&browser.contexts, id)?;
            Ok(from_ref(context))
        }
    }
}

// The RealmInfo of each context, or nothing where realms of another type are asked for.
fn windows(
    alloc: Global,
    contexts: &[Context],
    kind: Option<RealmType>,
) -> Result<Vec<RealmInfo>, AllocError>
    ensures tree { IfOk result (λ all. map ⟦<RealmInfo as Shape>⟧.shape.tree_of all.items
        ≡ (if takes_windows (option_map realm_type_text kind) then map (λ c. realm_info_in (row_of c)) contexts.now else [])) }
    ensures well { IfOk result (λ all. AllByRecursion (λ r. ⟦<RealmInfo as Shape>⟧.shape.well r) all.items) }
{
    if takes_windows(kind) {
        realm_infos(alloc, contexts)
    } else {
        Ok(Vec::new(alloc))
    }
}

// The RealmInfo of each context.
fn realm_infos(alloc: Global, contexts: &[Context]) -> Result<Vec<RealmInfo>, AllocError>
    ensures tree { IfOk result (λ all. map ⟦<RealmInfo as Shape>⟧.shape.tree_of all.items ≡ map (λ c. realm_info_in (row_of c)) contexts.now) }
    ensures well { IfOk result (λ all. AllByRecursion (λ r. ⟦<RealmInfo as Shape>⟧.shape.well r) all.items) }
{
    let mut all = Vec::new(alloc);
    for context in contexts {
        all.push(context.own_realm(alloc)?)?;
    }
    Ok(all)
}

/// Plans `browser.getUserContexts`: all that are live, the default one first, then by creation.
///
/// # Errors
/// No memory: an allocation failed.
pub(crate) fn plan_get_users(browser: &Browser) -> Result<Plan, Refusal>
    ensures plans { (past : List Act) (moment : ℕ) → StandsFor browser.now past → Plans result past moment GetUserContexts }
    ensures well { IsWellPlanned result }
    ensures of_method { HasResultOf Method.BrowserGetUserContexts result }
{
    let text = browser.users.told(browser.alloc)?;
    let result = ResultText {
        method: Method::BrowserGetUserContexts,
        text,
    };
    Ok(answered(browser.alloc, CommandResult::Text(result), Edit::Keep))
}

/// The plan of a command that changes nothing: its result alone.
pub(crate) fn looked(alloc: Global, outcome: ResultData) -> Plan
    ensures before { result.before.items ≡ [] }
    ensures outcome { result.result ≡ Some (CommandResult.Data outcome) }
    ensures after { result.after.items ≡ [] }
    ensures change { result.change.edit ≡ Edit.Keep }
{
    answered(alloc, CommandResult::Data(outcome), Edit::Keep)
}

/// The plan of a command that has a result and a change, and no events. Takes no memory.
pub(crate) fn answered(alloc: Global, outcome: CommandResult, edit: Edit) -> Plan
    ensures before { result.before.items ≡ [] }
    ensures outcome { result.result ≡ Some outcome }
    ensures after { result.after.items ≡ [] }
    ensures change { result.change.edit ≡ edit }
{
    Plan {
        before: Vec::new(alloc),
        result: Some(outcome),
        after: Vec::new(alloc),
        change: Change { edit },
    }
}

/// The empty result, `{}`. Takes no memory.
pub(crate) fn nothing(alloc: Global) -> EmptyResult
    ensures tree { ⟦<EmptyResult as Shape>⟧.shape.tree_of result ≡ nothing }
    ensures well { ⟦<EmptyResult as Shape>⟧.shape.well result }
{
    EmptyResult {
        ext: Ext::empty(alloc),
    }
}
