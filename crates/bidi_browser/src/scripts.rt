//! Plans of `script.evaluate` and `script.disown`, and what an evaluation and a call have in common.
ghost use Rattle.std.specs.Prelude.{◌≡◌, ◌<◌, ◌^◌, ℕ, List, [], true, Ok, IfOk, IfErr, bytes_eq, map, not, option_map, slice_get, string_bytes, unwrap_or};
ghost use Rattle.bidi_contexts.specs.Acts.{Act};
ghost use Rattle.bidi_contexts.specs.Actions as asked;
ghost use Rattle.bidi_browser.specs.Asked.{disown_asked, evaluate_asked, is_owned, object_depth, target_of};
ghost use Rattle.bidi_contexts.specs.Contexts.{is_alive};
ghost use Rattle.bidi_contexts.specs.ContextRows.{row_of, row_at};
ghost use Rattle.bidi_contexts.specs.Realms.{realm_of, value_of};
ghost use Rattle.bidi_browser.specs.Runs.{HasReturned, HasRun, IsEnding, IsNextHandle};
ghost use Rattle.bidi_browser.specs.TableInHand.{ending_seen};
ghost use Rattle.bidi_handles.specs.Resolves.{stands_for};
ghost use Rattle.bidi_handles.specs.ValuesInHand.{held_tree};
ghost use Rattle.bidi_handles.specs.declared.refusal.Refusal.TheVariants as refused;
ghost use Rattle.bidi_methods.specs.Method.{result_of};
ghost use Rattle.bidi_shape.specs.Name.{evaluate_result};
ghost use Rattle.bidi_browser.specs.Found.{IsTargeted};
ghost use Rattle.bidi_contexts.specs.Outcome.{realm_targeted, undefined};
ghost use Rattle.bidi_contexts.specs.Tables.{HasIds};
ghost use Rattle.bidi_browser.specs.Plans.{Plans, HasResultOf, IsWellPlanned, IsWellResult};
ghost use Rattle.bidi_browser.specs.declared.command_result.CommandResult.TheVariants as Written;
ghost use Rattle.bidi_contexts.specs.Tables.{IsTableOf};
ghost use Rattle.bidi_browser.specs.Stands.{StandsFor};

use crate::browser::Browser;
use crate::command_result::{CommandResult, ResultText};
use crate::looking::{answered, context_named, nothing};
use crate::plan::{Edit, Plan};
use crate::script_table::ScriptRow;
use crate::showing::result_of_ending;
use bidi_contexts::{Context, Contexts, NO_ID};
use bidi_handles::{
    Argument, Ending, Handle, HeldValue, Refusal, ThrownValue, given_back, held, takes_handle,
};
use bidi_methods::{Method, ResultData};
use bidi_params::ErrorCode;
use bidi_scripts::{DisownParameters, EvaluateParameters, Ownership, SerializationOptions, Target};
use bidi_tree::JsUint;
use bidi_values::{Primitive, RemotePlain, RemoteValue};
use std::alloc::{AllocError, Global};
use std::rc::Rc;

/// How many handles a realm can have at once.
const MOST_HANDLES: usize = 1000;

/// What running a script gives.
pub(crate) struct Ran {
    /// The result of the command.
    pub result: ResultText,
    /// The change: a new handle, or nothing.
    pub edit: Edit,
}

/// Plans the evaluation of an expression in the realm of a target. The script table has its outcome.
///
/// # Errors
/// The first that holds:
/// - Those of the target, as in [`targeted`].
/// - `unsupported operation`: the table has no row for the expression.
/// - `unknown error`: the value needs a handle, and its realm has 1,000 already, or no id is left.
/// - No memory: an allocation failed.
pub(crate) fn plan_evaluate(browser: &Browser, params: &EvaluateParameters) -> Result<Plan, Refusal>
    ensures plans { (past : List Act) (moment : ℕ) → StandsFor browser.now past → HasIds past → Plans result past moment (evaluate_asked params.now) }
    ensures well { IsWellPlanned result }
    ensures of_method { HasResultOf Method.ScriptEvaluate result }
{
    let context = targeted(&browser.contexts, &params.target)?;
    let ending = evaluated(browser, &params.expression)?;
    let depth = object_depth(&params.serialization_options);
    let owned = is_owned(params.result_ownership);
    let Ran { result, edit } = run(
        browser,
        context,
        Method::ScriptEvaluate,
        ending,
        owned,
        depth,
    )?;
    Ok(answered(browser.alloc, CommandResult::Text(result), edit))
}

/// Whether the result is to get a handle: where `resultOwnership` is `root`. Absent, it is `none`.
pub(crate) fn is_owned(ownership: Option<Ownership>) -> bool
    ensures { result ≡ is_owned ownership }
{
    matches!(ownership, Some(Ownership::Root))
}

/// The depth at which the result is cut, if it is. Absent or null, it stays whole.
pub(crate) fn object_depth(options: &Option<SerializationOptions>) -> Option<JsUint>
    ensures { option_map (λ d. d.value) result ≡ object_depth options.now }
{
    match options {
        Some(options) => options.max_object_depth.unwrap_or(None),
        None => None,
    }
}

// How a script of this text ends without arguments.
fn evaluated(browser: &Browser, script: &String) -> Result<Ending, Refusal>
    ensures { (past : List Act) → StandsFor browser.now past → IsEnding result past (string_bytes script.now) [] }
{
    ending_of(browser, script, &[])
}

/// How a script of this text ends with these arguments, which passed their checks.
///
/// # Errors
/// - `unsupported operation`: the table has no row for the text.
/// - No memory: an allocation failed.
pub(crate) fn ending_of(
    browser: &Browser,
    script: &String,
    arguments: &[Argument<'_>],
) -> Result<Ending, Refusal>
    ensures { (past : List Act) → StandsFor browser.now past → IsEnding result past (string_bytes script.now) (map stands_for arguments.now) }
{
    match browser.table.get(script) {
        Some(ScriptRow::EndsIn(ending)) => Ok(share(ending)?),
        Some(ScriptRow::GivesBack(place)) => returned(browser.alloc, arguments, *place),
        None => Err(Refusal::Code(ErrorCode::UnsupportedOperation)),
    }
}

// The ending that returns the argument at this place, or undefined where there is none.
fn returned(alloc: Global, arguments: &[Argument<'_>], place: u64) -> Result<Ending, Refusal>
    ensures { HasReturned result (unwrap_or (slice_get (map stands_for arguments.now) place) undefined) }
{
    match at(arguments, place) {
        Some(argument) => Ok(Ending::Returned(given_back(alloc, argument)?)),
        None => Ok(Ending::Returned(undefined(alloc)?)),
    }
}

// The argument at this place, counted from 0.
fn at<'a, 'b>(arguments: &'a [Argument<'b>], place: u64) -> Option<&'a Argument<'b>>
    ensures { option_map (λ a. a.now) result ≡ slice_get arguments.now place }
{
    match usize::try_from(place) {
        Ok(place) => arguments.get(place),
        Err(_) => None,
    }
}

// The same ending, which shares the value.
fn share(ending: &Ending) -> Result<Ending, AllocError>
    ensures { IfOk result (λ e. ending_seen e ≡ ending_seen ending.now) }
{
    match ending {
        Ending::Returned(value) => Ok(Ending::Returned(value.clone()?)),
        Ending::Threw(thrown) => Ok(Ending::Threw(ThrownValue {
            held: thrown.held.clone()?,
        })),
    }
}

// The value undefined, `{"type":"undefined"}`.
fn undefined(alloc: Global) -> Result<Rc<HeldValue>, Refusal>
    ensures ok { IfOk result (λ held. held_tree held.value ≡ undefined) }
    ensures err { IfErr result (λ e. e ≡ refused.NoMemory) }
{
    held(
        alloc,
        RemoteValue::Plain(RemotePlain::Primitive(Primitive::Undefined)),
    )
}

/// What a script gives that ended so in a context's realm. If `owned`, a value that can have a handle gets
/// one, which holds the whole value; what is told of it is cut at `depth`, if there is one.
///
/// # Errors
/// - `unknown error`: the value needs a handle, and the realm has 1,000 already, or no id is left.
/// - No memory: an allocation failed.
pub(crate) fn run(
    browser: &Browser,
    context: &Context,
    method: Method,
    ending: Ending,
    owned: bool,
    depth: Option<JsUint>,
) -> Result<Ran, Refusal>
    requires { result_of method ≡ evaluate_result }
    ensures ran { (past : List Act) (c : ℕ) → StandsFor browser.now past
        → HasIds past → is_alive past c ≡ true → row_of context.now ≡ row_at past c → HasRun result past c owned (option_map (λ d. d.value) depth) (ending_seen ending) }
    ensures well { IfOk result (λ ran. IsWellResult (Written.Text ran.result)) }
    ensures of_method { IfOk result (λ ran. ran.result.method ≡ method) }
{
    if !owned || !takes_handle(&value_of(&ending).value) {
        let result = result_of_ending(
            browser.alloc,
            method,
            context.realm(),
            &ending,
            depth,
            None,
        )?;
        return Ok(Ran {
            result,
            edit: Edit::Keep,
        });
    }
    let number = next_handle(browser, context)?;
    let result = result_of_ending(
        browser.alloc,
        method,
        context.realm(),
        &ending,
        depth,
        Some(number),
    )?;
    let handle = Handle {
        number,
        value: into_value(ending),
    };
    Ok(Ran {
        result,
        edit: Edit::Hold(context.number(), handle),
    })
}

// The number of the next handle in the realm of a context; an error where the realm can have no more.
fn next_handle(browser: &Browser, context: &Context) -> Result<u64, ErrorCode>
    ensures next { (past : List Act) (c : ℕ)
        → StandsFor browser.now past → HasIds past → row_of context.now ≡ row_at past c → IsNextHandle result past (realm_of past c) }
    ensures fits { IfOk result (λ n. n < 2 ^ 48) }
{
    if context.handles().len() < MOST_HANDLES && browser.next_handle < NO_ID {
        Ok(browser.next_handle)
    } else {
        Err(ErrorCode::UnknownError)
    }
}

// The value that a script returned or threw.
fn value_of(ending: &Ending) -> &HeldValue
    ensures { held_tree result.now ≡ value_of (ending_seen ending.now) }
{
    match ending {
        Ending::Returned(value) => value.as_ref(),
        Ending::Threw(thrown) => thrown.held.as_ref(),
    }
}

// The value that a script returned or threw; the ending is used up.
fn into_value(ending: Ending) -> Rc<HeldValue>
    ensures { held_tree result.value ≡ value_of (ending_seen ending) }
{
    match ending {
        Ending::Returned(value) => value,
        Ending::Threw(thrown) => thrown.held,
    }
}

/// Plans the release of handles in the realm of a target. A handle that the realm does not have is ignored.
///
/// Sorts the numbers to release, and does a binary search among the handles of the realm for each.
///
/// # Errors
/// - Those of the target, as in [`targeted`].
/// - No memory: an allocation failed.
pub(crate) fn plan_disown(browser: &Browser, params: &DisownParameters) -> Result<Plan, Refusal>
    ensures plans { (past : List Act) (moment : ℕ) → StandsFor browser.now past → Plans result past moment (disown_asked params.now) }
    ensures well { IsWellPlanned result }
    ensures of_method { HasResultOf Method.ScriptDisown result }
{
    let context = targeted(&browser.contexts, &params.target)?;
    let numbers = context
        .handles()
        .numbers_of(browser.alloc, &params.handles)?;
    let result = ResultData::ScriptDisown(nothing(browser.alloc));
    let edit = Edit::Disown(context.number(), numbers);
    Ok(answered(browser.alloc, CommandResult::Data(result), edit))
}

/// The context in whose realm the scripts of a target run.
///
/// # Errors
/// - `no such frame`: no live context, or no realm, has this id.
/// - `unsupported operation`: the target names a sandbox. An empty name counts as none.
pub(crate) fn targeted<'a>(
    contexts: &'a Contexts,
    target: &Target,
) -> Result<&'a Context, ErrorCode>
    ensures { (past : List Act) → IsTableOf contexts.now past → IsTargeted result past (realm_targeted past (target_of target.now)) }
{
    match target {
        Target::Context(target) => outside_sandboxes(contexts, &target.context, &target.sandbox),
        Target::Realm(target) => in_realm(contexts, &target.realm),
    }
}

// The context of this id; an error where a sandbox is named.
fn outside_sandboxes<'a>(
    contexts: &'a Contexts,
    id: &str,
    sandbox: &Option<String>,
) -> Result<&'a Context, ErrorCode>
    ensures { (past : List Act) → IsTableOf contexts.now past
        → IsTargeted result past (realm_targeted past (asked.ContextTarget id.now (unwrap_or (option_map string_bytes sandbox.now) []))) }
{
    let context = context_named(contexts, id)?;
    if is_named(sandbox) {
        return Err(ErrorCode::UnsupportedOperation);
    }
    Ok(context)
}

// Whether a sandbox is named; an empty name counts as none.
fn is_named(sandbox: &Option<String>) -> bool
    ensures { result ≡ not (bytes_eq (unwrap_or (option_map string_bytes sandbox.now) []) []) }
{
    match sandbox {
        Some(name) => !name.is_empty(),
        None => false,
    }
}

// The context whose realm has this id.
fn in_realm<'a>(contexts: &'a Contexts, id: &str) -> Result<&'a Context, ErrorCode>
    ensures { (past : List Act) → IsTableOf contexts.now past → IsTargeted result past (realm_targeted past (asked.RealmTarget id.now)) }
{
    match contexts.in_realm(id) {
        Some(context) => Ok(context),
        None => Err(ErrorCode::NoSuchFrame),
    }
}
