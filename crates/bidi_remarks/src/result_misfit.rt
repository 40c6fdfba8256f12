//! Results that do not fit the rule of their command's method.
ghost use Rattle.std.specs.Prelude.{◌≡◌, Some, IfOk};
ghost use Rattle.bidi_tree.specs.Outline.{outline_node};
ghost use Rattle.bidi_shape.specs.Term.{rule};
ghost use Rattle.bidi_shape.specs.Fits.{Fits};
ghost use Rattle.bidi_methods.specs.Method.{result_of};
ghost use Rattle.bidi_local.specs.Received.{result_in};
ghost use Rattle.bidi_rules.specs.Names.{name_of};
ghost use Rattle.bidi_remarks.specs.Results.{HasBadResult, HasResultMisfit, TellsBadResult};
ghost use Rattle.bidi_remarks.specs.Remark.{remark_of};
ghost use Rattle.bidi_remarks.specs.Trouble.{misfit_of};

use crate::misfit::{Misfit, find_misfit, member};
use crate::remark::{Remark, with_bad_result};
use bidi_blame::Name;
use bidi_messages::{Method, Named};
use bidi_tree::{JsUint, Outline, ReadFault, outline_parsed, parse};
use json::Scratch;
use std::alloc::{AllocError, Global};

/// The result of the response that this text is does not fit the rule of its command's method.
///
/// # Errors
/// No memory: an allocation failed.
pub fn bad_result(
    alloc: Global,
    id: JsUint,
    method: Method,
    text: &str,
    scratch: &mut Scratch,
) -> Result<Remark, AllocError>
    // The message is a response whose result does not fit the rule of this method.
    requires { HasBadResult text.now method }
    // The remark has a reason why the result does not fit.
    ensures { IfOk result (λ r. TellsBadResult text.now id.value method (remark_of r)) }
{
    match parse(alloc, text, None, scratch) {
        Ok(value) => {
            let tree = outline_parsed(alloc, &value)?;
            let misfit = result_misfit(alloc, id, method, &tree)?;
            with_bad_result(alloc, id, method, misfit)
        }
        Err(ReadFault::NoMemory) => Err(AllocError),
        Err(ReadFault::NotJson) | Err(ReadFault::TooLong) => unreachable!(),
    }
}

// The misfit of the result of a response, which does not fit the rule of the method.
fn result_misfit(
    alloc: Global,
    id: JsUint,
    method: Method,
    tree: &Outline<'_>,
) -> Result<Misfit, AllocError>
    requires { Fits (result_in (outline_node tree.now)) (rule (result_of method)) → ⊥ }
    ensures { IfOk result (λ m. HasResultMisfit (result_in (outline_node tree.now)) id.value method (misfit_of m)) }
{
    match member(tree, "result") {
        Some(result) => misfit_of_result(alloc, id, method, result),
        None => misfit_of_result(alloc, id, method, &Outline::Null),
    }
}

// The misfit of a result that does not fit the rule of the method.
fn misfit_of_result(
    alloc: Global,
    id: JsUint,
    method: Method,
    outcome: &Outline<'_>,
) -> Result<Misfit, AllocError>
    requires { Fits (outline_node outcome.now) (rule (result_of method)) → ⊥ }
    ensures { IfOk result (λ m. HasResultMisfit (outline_node outcome.now) id.value method (misfit_of m)) }
{
    let name = result_rule(method);
    find_misfit(alloc, name, Some(id), Some(method.name()), outcome)
}

// The rule of a method's result.
fn result_rule(method: Method) -> Name
    ensures { name_of result ≡ result_of method }
{
    match method {
        Method::SessionStatus => Name::StatusResult,
        Method::SessionNew => Name::NewResult,
        Method::SessionSubscribe => Name::SubscribeResult,
        Method::BrowsingContextCreate => Name::CreateResult,
        Method::BrowsingContextGetTree => Name::GetTreeResult,
        Method::BrowsingContextNavigate | Method::BrowsingContextReload => Name::NavigateResult,
        Method::ScriptEvaluate | Method::ScriptCallFunction => Name::EvaluateResult,
        Method::ScriptGetRealms => Name::GetRealmsResult,
        Method::BrowserCreateUserContext => Name::UserContextInfo,
        Method::BrowserGetUserContexts => Name::GetUserContextsResult,
        Method::SessionEnd
        | Method::SessionUnsubscribe
        | Method::BrowsingContextActivate
        | Method::BrowsingContextClose
        | Method::BrowsingContextTraverseHistory
        | Method::ScriptDisown
        | Method::BrowserRemoveUserContext => Name::EmptyResult,
    }
}
