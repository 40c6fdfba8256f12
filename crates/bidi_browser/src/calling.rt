//! The plan of `script.callFunction`.
ghost use Rattle.std.specs.Prelude.{◌≡◌, ℕ, List, map, option_map, string_bytes};
ghost use Rattle.bidi_contexts.specs.Acts.{Act};
ghost use Rattle.bidi_browser.specs.Asked.{arguments_asked, call_function_asked};
ghost use Rattle.bidi_contexts.specs.ContextRows.{row_of, row_at};
ghost use Rattle.bidi_contexts.specs.Tables.{HasIds};
ghost use Rattle.bidi_browser.specs.Plans.{Plans, HasResultOf, IsWellPlanned};
ghost use Rattle.bidi_contexts.specs.Realms.{realm_of};
ghost use Rattle.bidi_handles.specs.Resolves.{Gives};
ghost use Rattle.bidi_browser.specs.Runs.{call_ending};
ghost use Rattle.bidi_browser.specs.Stands.{StandsFor};
ghost use Rattle.bidi_browser.specs.TableInHand.{ending_seen};
ghost use Rattle.bidi_handles.specs.ValuesInHand.{local_tree};

use crate::browser::Browser;
use crate::command_result::CommandResult;
use crate::looking::answered;
use crate::plan::Plan;
use crate::scripts::{Ran, ending_of, is_owned, object_depth, run, targeted};
use bidi_contexts::Context;
use bidi_handles::{Ending, Refusal, check_arguments, check_this};
use bidi_methods::Method;
use bidi_scripts::CallFunctionParameters;
use bidi_values::LocalValue;

/// Plans the call of a function in the realm of a target. The script table has its outcome.
///
/// Costs an outline of each argument and of `this`, and a block of memory for the sizes of the arguments; a value
/// that a handle holds is not measured again. Only an argument that the function returns is built and written, with
/// copies of the values of its handles, and it is not measured a second time; if it is a handle itself, it shares the
/// value.
///
/// # Errors
/// The first that holds:
/// - Those of the target, as in `targeted`.
/// - Those of the arguments in their order, then of `this`, as in [`check_arguments`].
/// - `unsupported operation`: the table has no row for the function's text.
/// - `unknown error`: the value needs a handle, and its realm has 1,000 already, or no id is left.
/// - No memory: an allocation failed.
pub(crate) fn plan_call_function(
    browser: &Browser,
    params: &CallFunctionParameters,
) -> Result<Plan, Refusal>
    ensures plans { (past : List Act) (moment : ℕ) → StandsFor browser.now past → HasIds past → Plans result past moment (call_function_asked params.now) }
    ensures well { IsWellPlanned result }
    ensures of_method { HasResultOf Method.ScriptCallFunction result }
{
    let context = targeted(&browser.contexts, &params.target)?;
    let ending = called(browser, context, params)?;
    let depth = object_depth(&params.serialization_options);
    let owned = is_owned(params.result_ownership);
    let method = Method::ScriptCallFunction;
    let Ran { result, edit } = run(browser, context, method, ending, owned, depth)?;
    Ok(answered(browser.alloc, CommandResult::Text(result), edit))
}

// How the function ends. Its arguments and `this` are checked before its row is looked up.
fn called(
    browser: &Browser,
    context: &Context,
    params: &CallFunctionParameters,
) -> Result<Ending, Refusal>
    ensures { (past : List Act) (c : ℕ) → StandsFor browser.now past → row_of context.now ≡ row_at past c
        → Gives ending_seen result (call_ending past (realm_of past c) (string_bytes params.now.function_declaration)
        (arguments_asked params.now) (option_map local_tree params.now.this)) }
{
    let values = arguments_of(params);
    let held = context.handles();
    let arguments = check_arguments(browser.alloc, held, values)?;
    check_this(browser.alloc, held, &params.this)?;
    ending_of(browser, &params.function_declaration, &arguments)
}

// The arguments; none where the member is absent.
fn arguments_of(params: &CallFunctionParameters) -> &[LocalValue]
    ensures { map local_tree result.now ≡ arguments_asked params.now }
{
    match &params.arguments {
        Some(values) => values.as_slice(),
        None => &[],
    }
}
