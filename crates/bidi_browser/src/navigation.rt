//! Plans of the commands that navigate: `navigate`, `reload` and `traverseHistory`.
ghost use Rattle.std.specs.Prelude.{◌≡◌, ◌≤◌, ◌<◌, ◌^◌, ℕ, List, Some, IfOk, option_map, string_bytes, vec_len};
ghost use Rattle.bidi_tree.specs.Node.{no_members, text};
ghost use Rattle.bidi_contexts.specs.Acts.{Act, Move as Led};
ghost use Rattle.bidi_browser.specs.Asked.{navigate_asked, reload_asked, traverse_asked, wait_of};
ghost use Rattle.bidi_contexts.specs.ContextRows.{row_of, row_at};
ghost use Rattle.bidi_handles.specs.Maps.{◌being◌and◌, mapped, id_tree};
ghost use Rattle.bidi_browser.specs.Navigations.{AreNext, navigation_events, before_reply, IsTold};
ghost use Rattle.bidi_browser.specs.Occurs.{led_to};
ghost use Rattle.bidi_contexts.specs.View.{AreWell};
ghost use Rattle.bidi_contexts.specs.Tables.{HasIds};
ghost use Rattle.bidi_browser.specs.Plans.{Plans, HasResultOf, IsWellPlanned};
ghost use Rattle.bidi_browser.specs.Stands.{StandsFor};
ghost use Rattle.bidi_browser.specs.declared.command_result.CommandResult.TheVariants as CommandResult;
ghost use Rattle.bidi_contexts.specs.Urls.{url_text};
ghost use Rattle.bidi_contexts.specs.View.{seen};

use crate::browser::Browser;
use crate::command_result::CommandResult;
use crate::looking::{context_named, nothing, top_named};
use crate::numbers::Numbers;
use crate::plan::{Change, Edit, Plan};
use bidi_contexts::{Context, Move, Navigation, Occurrence, parsed, push_removals_below};
use bidi_handles::{IdKind, Refusal, id_text};
use bidi_methods::{Method, ResultData};
use bidi_params::{
    ErrorCode, NavigateParameters, NavigateResult, NavigationInfo, ReloadParameters,
    TraverseHistoryParameters, Wait,
};
use bidi_shape::{Ext, Shape};
use bidi_tree::JsUint;
use std::alloc::{AllocError, Global};
use url::Url;

/// The events of a navigation, parted where its reply stands.
struct Told {
    before: Vec<Occurrence>,
    after: Vec<Occurrence>,
}

/// Plans the navigation of a context to a URL.
///
/// # Errors
/// The first that holds:
/// - `no such frame`: the context is not live.
/// - `invalid argument`: the text is no absolute URL.
/// - `unknown error`: no id is left.
/// - No memory: an allocation failed.
pub(crate) fn plan_navigate(
    browser: &Browser,
    moment: JsUint,
    params: &NavigateParameters,
) -> Result<Plan, Refusal>
    ensures plans { (past : List Act) → StandsFor browser.now past → HasIds past → Plans result past moment.value (navigate_asked params.now) }
    ensures well { IsWellPlanned result }
    ensures of_method { HasResultOf Method.BrowsingContextNavigate result }
{
    let context = context_named(&browser.contexts, &params.context)?;
    let url = parsed(browser.alloc, &params.url)?;
    let numbers = browser.numbers()?;
    let result = navigated(browser.alloc, numbers.navigation, &url)?;
    let told = parted_events(browser, numbers, moment, context, &url, params.wait)?;
    let navigation = Navigation {
        context: context.number(),
        realm: numbers.realm,
        to: Move::To(url),
    };
    Ok(planned(
        told,
        navigation,
        ResultData::BrowsingContextNavigate(result),
    ))
}

/// Plans the reload of a context: a navigation to its present entry.
///
/// # Errors
/// The first that holds:
/// - `no such frame`: the context is not live.
/// - `unknown error`: no id is left.
/// - No memory: an allocation failed.
pub(crate) fn plan_reload(
    browser: &Browser,
    moment: JsUint,
    params: &ReloadParameters,
) -> Result<Plan, Refusal>
    ensures plans { (past : List Act) → StandsFor browser.now past → HasIds past → Plans result past moment.value (reload_asked params.now) }
    ensures well { IsWellPlanned result }
    ensures of_method { HasResultOf Method.BrowsingContextReload result }
{
    let context = context_named(&browser.contexts, &params.context)?;
    let url = context.history().present();
    let numbers = browser.numbers()?;
    let result = navigated(browser.alloc, numbers.navigation, url)?;
    let told = parted_events(browser, numbers, moment, context, url, params.wait)?;
    let navigation = Navigation {
        context: context.number(),
        realm: numbers.realm,
        to: Move::Again,
    };
    Ok(planned(told, navigation, ResultData::BrowsingContextReload(result)))
}

/// Plans the navigation of a top-level context to another entry of its session history.
///
/// # Errors
/// The first that holds:
/// - `no such frame`: the context is not live.
/// - `invalid argument`: the context is a child of another.
/// - `no such history entry`: no entry stands `delta` places from the present one.
/// - `unknown error`: no id is left.
/// - No memory: an allocation failed.
pub(crate) fn plan_traverse_history(
    browser: &Browser,
    moment: JsUint,
    params: &TraverseHistoryParameters,
) -> Result<Plan, Refusal>
    ensures plans { (past : List Act) → StandsFor browser.now past → HasIds past → Plans result past moment.value (traverse_asked params.now) }
    ensures well { IsWellPlanned result }
    ensures of_method { HasResultOf Method.BrowsingContextTraverseHistory result }
{
    let context = top_named(&browser.contexts, &params.context)?;
    let Some((place, url)) = context.history().across(params.delta) else {
        return Err(Refusal::Code(ErrorCode::NoSuchHistoryEntry));
    };
    let numbers = browser.numbers()?;
    let told = parted_events(browser, numbers, moment, context, url, Some(Wait::Complete))?;
    let result = nothing(browser.alloc);
    let navigation = Navigation {
        context: context.number(),
        realm: numbers.realm,
        to: Move::Across(place),
    };
    Ok(planned(
        told,
        navigation,
        ResultData::BrowsingContextTraverseHistory(result),
    ))
}

// The plan of a navigation. Takes no memory.
fn planned(told: Told, navigation: Navigation, outcome: ResultData) -> Plan
    ensures before { result.before ≡ told.before }
    ensures outcome { result.result ≡ Some (CommandResult.Data outcome) }
    ensures after { result.after ≡ told.after }
    ensures change { result.change.edit ≡ Edit.Navigate navigation }
{
    let Told { before, after } = told;
    Plan {
        before,
        result: Some(CommandResult::Data(outcome)),
        after,
        change: Change {
            edit: Edit::Navigate(navigation),
        },
    }
}

// The events of a navigation, parted where its reply stands.
fn parted_events(
    browser: &Browser,
    numbers: Numbers,
    moment: JsUint,
    context: &Context,
    url: &Url,
    wait: Option<Wait>,
) -> Result<Told, AllocError>
    ensures told { (past : List Act) (c : ℕ) (move : Led)
        → StandsFor browser.now past → AreNext numbers past → row_of context.now ≡ row_at past c → led_to past c move ≡ url.now
        → IfOk result (λ told. IsTold told past moment.value (wait_of wait) c move) }
    ensures well { IfOk result (λ told. AreWell told.before.items × AreWell told.after.items) }
{
    let mut before = events(browser, numbers, moment, context, url)?;
    let place = place_of_reply(wait, before.len());
    let after = before.split_off(place)?;
    Ok(Told { before, after })
}

// How many events of a navigation stand before its reply, by the command's `wait`.
fn place_of_reply(wait: Option<Wait>, events: usize) -> usize
    requires { 1 ≤ events }
    ensures place { result ≡ before_reply (wait_of wait) events }
    ensures stands { result ≤ events }
{
    match wait {
        None | Some(Wait::None) => 1,
        Some(Wait::Interactive) => events - 1,
        Some(Wait::Complete) => events,
    }
}

// The events of a navigation in order.
fn events(
    browser: &Browser,
    numbers: Numbers,
    moment: JsUint,
    context: &Context,
    url: &Url,
) -> Result<Vec<Occurrence>, AllocError>
    ensures told { (past : List Act) (c : ℕ) (move : Led)
        → StandsFor browser.now past → AreNext numbers past → row_of context.now ≡ row_at past c → led_to past c move ≡ url.now
        → IfOk result (λ all. seen all.items ≡ navigation_events past moment.value c move) }
    ensures some { IfOk result (λ all. 1 ≤ vec_len all) }
    ensures well { IfOk result (λ all. AreWell all.items) }
{
    let alloc = browser.alloc;
    let mut all = Vec::with_capacity(alloc, EVENTS)?;
    let info = context.navigation_info(alloc, moment, numbers.navigation, url)?;
    all.push(context.navigation_started(again(alloc, &info)?))?;
    push_removals_below(alloc, &browser.contexts, context, &mut all)?;
    all.push(context.realm_destroyed(alloc)?)?;
    all.push(context.realm_began(alloc, numbers.realm, url)?)?;
    all.push(context.dom_content_loaded(again(alloc, &info)?))?;
    all.push(context.loaded(info))?;
    Ok(all)
}

// How many events a navigation has if no context below goes with it.
const EVENTS: usize = 5;

// The same params once more.
fn again(alloc: Global, info: &NavigationInfo) -> Result<NavigationInfo, AllocError>
    ensures tree { IfOk result (λ i. ⟦<NavigationInfo as Shape>⟧.shape.tree_of i ≡ ⟦<NavigationInfo as Shape>⟧.shape.tree_of info.now) }
    ensures well { ⟦<NavigationInfo as Shape>⟧.shape.well info.now → IfOk result ⟦<NavigationInfo as Shape>⟧.shape.well }
{
    Ok(NavigationInfo {
        context: String::from_str(alloc, &info.context)?,
        navigation: copied(alloc, &info.navigation)?,
        timestamp: info.timestamp,
        url: String::from_str(alloc, &info.url)?,
        ext: Ext::of(info.ext.copy_members()?),
    })
}

// A copy of a text that may be absent.
fn copied(alloc: Global, text: &Option<String>) -> Result<Option<String>, AllocError>
    ensures { IfOk result (λ copy. option_map string_bytes copy ≡ option_map string_bytes text.now) }
{
    match text {
        Some(text) => Ok(Some(String::from_str(alloc, text)?)),
        None => Ok(None),
    }
}

// The result of `navigate` and `reload`.
fn navigated(alloc: Global, navigation: u64, url: &Url) -> Result<NavigateResult, AllocError>
    requires { navigation < 2 ^ 48 }
    ensures tree { IfOk result (λ r. ⟦<NavigateResult as Shape>⟧.shape.tree_of r
        ≡ mapped ("navigation" being id_tree IdKind.Navigation navigation and "url" being text (url_text url.now) and no_members)) }
    ensures well { IfOk result ⟦<NavigateResult as Shape>⟧.shape.well }
{
    Ok(NavigateResult {
        navigation: Some(id_text(alloc, IdKind::Navigation, 0, navigation)?),
        url: String::from_str(alloc, url.as_str())?,
        ext: Ext::empty(alloc),
    })
}
