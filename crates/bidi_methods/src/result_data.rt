//! The data of results: method and result.
ghost use Rattle.std.specs.Prelude.{◌≡◌, IfOk, refl};
ghost use Rattle.bidi_tree.specs.Node as kind;
ghost use Rattle.bidi_tree.specs.View.{node, members_node};
ghost use Rattle.bidi_shape.specs.Term.{rule as named};
ghost use Rattle.bidi_shape.specs.Fits.{Fits};
ghost use Rattle.bidi_shape.specs.Outcome.{IfNoFit};
ghost use Rattle.bidi_methods.specs.Method.{result_of as result_rule};

use crate::method::Method;
use crate::payload::Payload;
use bidi_params::session::NewResult;
use bidi_params::{
    CreateResult, EmptyResult, GetTreeResult, GetUserContextsResult, NavigateResult, StatusResult,
    SubscribeResult, UserContextInfo,
};
use bidi_scripts::{EvaluateResult, GetRealmsResult};
use bidi_shape::{Parsed, Shape, ShapeFault};
use bidi_tree::{Members, Outline, Tree, copy_members};
use std::alloc::{AllocError, Global};

/// The result of a command: its method with the result of that method.
///
/// After WebDriver BiDi, "Protocol".
#[derive(Drop)]
pub enum ResultData {
    /// The result of `session.status`: whether a session can be created.
    SessionStatus(StatusResult),
    /// The result of `session.new`: the id and the capabilities of the session.
    SessionNew(NewResult),
    /// The result of `session.end`, which is empty. All connections of the session are closed afterwards.
    SessionEnd(EmptyResult),
    /// The result of `session.subscribe`: the id of the subscription, which can end it.
    SessionSubscribe(SubscribeResult),
    /// The result of `session.unsubscribe`, which is empty.
    SessionUnsubscribe(EmptyResult),
    /// The result of `browsingContext.activate`, which is empty.
    BrowsingContextActivate(EmptyResult),
    /// The result of `browsingContext.close`, which is empty.
    BrowsingContextClose(EmptyResult),
    /// The result of `browsingContext.create`: the id of the new context.
    BrowsingContextCreate(CreateResult),
    /// The result of `browsingContext.getTree`: an [`Info`](bidi_params::Info) for each root.
    BrowsingContextGetTree(GetTreeResult),
    /// The result of `browsingContext.navigate`: the id of the navigation, and the serialized URL.
    BrowsingContextNavigate(NavigateResult),
    /// The result of `browsingContext.reload`: the id of the navigation, and the URL that is loaded again.
    BrowsingContextReload(NavigateResult),
    /// The result of `browsingContext.traverseHistory`, which is empty.
    BrowsingContextTraverseHistory(EmptyResult),
    /// The result of `script.evaluate`: the value of the expression, or what it threw.
    ScriptEvaluate(EvaluateResult),
    /// The result of `script.callFunction`: the value that the function returned, or what it threw.
    ScriptCallFunction(EvaluateResult),
    /// The result of `script.disown`, which is empty.
    ScriptDisown(EmptyResult),
    /// The result of `script.getRealms`: the realms.
    ScriptGetRealms(GetRealmsResult),
    /// The result of `browser.createUserContext`: the new user context.
    BrowserCreateUserContext(UserContextInfo),
    /// The result of `browser.getUserContexts`: the user contexts, at least one.
    BrowserGetUserContexts(GetUserContextsResult),
    /// The result of `browser.removeUserContext`, which is empty.
    BrowserRemoveUserContext(EmptyResult),
}

impl Payload<Method> for ResultData {
    ghost use Rattle.bidi_methods.specs.ResultData.{result_payload};

    ghost payload = { result_payload };

    fn kind(&self) -> Method {
        match self {
            ResultData::SessionStatus(_) => Method::SessionStatus,
            ResultData::SessionNew(_) => Method::SessionNew,
            ResultData::SessionEnd(_) => Method::SessionEnd,
            ResultData::SessionSubscribe(_) => Method::SessionSubscribe,
            ResultData::SessionUnsubscribe(_) => Method::SessionUnsubscribe,
            ResultData::BrowsingContextActivate(_) => Method::BrowsingContextActivate,
            ResultData::BrowsingContextClose(_) => Method::BrowsingContextClose,
            ResultData::BrowsingContextCreate(_) => Method::BrowsingContextCreate,
            ResultData::BrowsingContextGetTree(_) => Method::BrowsingContextGetTree,
            ResultData::BrowsingContextNavigate(_) => Method::BrowsingContextNavigate,
            ResultData::BrowsingContextReload(_) => Method::BrowsingContextReload,
            ResultData::BrowsingContextTraverseHistory(_) => Method::BrowsingContextTraverseHistory,
            ResultData::ScriptEvaluate(_) => Method::ScriptEvaluate,
            ResultData::ScriptCallFunction(_) => Method::ScriptCallFunction,
            ResultData::ScriptDisown(_) => Method::ScriptDisown,
            ResultData::ScriptGetRealms(_) => Method::ScriptGetRealms,
            ResultData::BrowserCreateUserContext(_) => Method::BrowserCreateUserContext,
            ResultData::BrowserGetUserContexts(_) => Method::BrowserGetUserContexts,
            ResultData::BrowserRemoveUserContext(_) => Method::BrowserRemoveUserContext,
        }
    }

    fn read<S: Parsed>(alloc: Global, kind: Method, tree: &S) -> Result<ResultData, ShapeFault> {
        match kind {
            Method::SessionStatus => Ok(ResultData::SessionStatus(StatusResult::from_tree(
                alloc, tree,
            )?)),
            Method::SessionNew => Ok(ResultData::SessionNew(NewResult::from_tree(alloc, tree)?)),
            Method::SessionEnd => Ok(ResultData::SessionEnd(EmptyResult::from_tree(alloc, tree)?)),
            Method::SessionSubscribe => Ok(ResultData::SessionSubscribe(SubscribeResult::from_tree(
                alloc, tree,
            )?)),
            Method::SessionUnsubscribe => Ok(ResultData::SessionUnsubscribe(EmptyResult::from_tree(
                alloc, tree,
            )?)),
            Method::BrowsingContextActivate => Ok(ResultData::BrowsingContextActivate(
                EmptyResult::from_tree(alloc, tree)?,
            )),
            Method::BrowsingContextClose => Ok(ResultData::BrowsingContextClose(
                EmptyResult::from_tree(alloc, tree)?,
            )),
            Method::BrowsingContextCreate => Ok(ResultData::BrowsingContextCreate(
                CreateResult::from_tree(alloc, tree)?,
            )),
            Method::BrowsingContextGetTree => Ok(ResultData::BrowsingContextGetTree(
                GetTreeResult::from_tree(alloc, tree)?,
            )),
            Method::BrowsingContextNavigate => Ok(ResultData::BrowsingContextNavigate(
                NavigateResult::from_tree(alloc, tree)?,
            )),
            Method::BrowsingContextReload => Ok(ResultData::BrowsingContextReload(
                NavigateResult::from_tree(alloc, tree)?,
            )),
            Method::BrowsingContextTraverseHistory => Ok(ResultData::BrowsingContextTraverseHistory(
                EmptyResult::from_tree(alloc, tree)?,
            )),
            Method::ScriptEvaluate => Ok(ResultData::ScriptEvaluate(EvaluateResult::from_tree(
                alloc, tree,
            )?)),
            Method::ScriptCallFunction => Ok(ResultData::ScriptCallFunction(
                EvaluateResult::from_tree(alloc, tree)?,
            )),
            Method::ScriptDisown => Ok(ResultData::ScriptDisown(EmptyResult::from_tree(
                alloc, tree,
            )?)),
            Method::ScriptGetRealms => Ok(ResultData::ScriptGetRealms(GetRealmsResult::from_tree(
                alloc, tree,
            )?)),
            Method::BrowserCreateUserContext => Ok(ResultData::BrowserCreateUserContext(
                UserContextInfo::from_tree(alloc, tree)?,
            )),
            Method::BrowserGetUserContexts => Ok(ResultData::BrowserGetUserContexts(
                GetUserContextsResult::from_tree(alloc, tree)?,
            )),
            Method::BrowserRemoveUserContext => Ok(ResultData::BrowserRemoveUserContext(
                EmptyResult::from_tree(alloc, tree)?,
            )),
        }
    }

    fn outline<'a>(&'a self, alloc: Global) -> Result<Outline<'a>, AllocError> {
        match self {
            ResultData::SessionStatus(result) => result.outline(alloc),
            ResultData::SessionNew(result) => result.outline(alloc),
            ResultData::SessionEnd(result) => result.outline(alloc),
            ResultData::SessionSubscribe(result) => result.outline(alloc),
            ResultData::SessionUnsubscribe(result) => result.outline(alloc),
            ResultData::BrowsingContextActivate(result) => result.outline(alloc),
            ResultData::BrowsingContextClose(result) => result.outline(alloc),
            ResultData::BrowsingContextCreate(result) => result.outline(alloc),
            ResultData::BrowsingContextGetTree(result) => result.outline(alloc),
            ResultData::BrowsingContextNavigate(result) => result.outline(alloc),
            ResultData::BrowsingContextReload(result) => result.outline(alloc),
            ResultData::BrowsingContextTraverseHistory(result) => result.outline(alloc),
            ResultData::ScriptEvaluate(result) => result.outline(alloc),
            ResultData::ScriptCallFunction(result) => result.outline(alloc),
            ResultData::ScriptDisown(result) => result.outline(alloc),
            ResultData::ScriptGetRealms(result) => result.outline(alloc),
            ResultData::BrowserCreateUserContext(result) => result.outline(alloc),
            ResultData::BrowserGetUserContexts(result) => result.outline(alloc),
            ResultData::BrowserRemoveUserContext(result) => result.outline(alloc),
        }
    }
}

impl ResultData {
    /// The method of the command. Takes no memory.
    pub fn method(&self) -> Method
        // The result is the method of the variant.
        ensures { result ≡ ⟦<ResultData as Payload<Method>>⟧.payload.kind self.now }
    {
        self.kind()
    }

    /// Makes the tree of the result.
    ///
    /// # Errors
    /// No memory: an allocation failed.
    pub fn tree_of(&self, alloc: Global) -> Result<Tree, AllocError>
        // The tree that is made is that of the result.
        ensures { IfOk result (λ t. node t ≡ ⟦<ResultData as Payload<Method>>⟧.payload.tree_of self.now) }
    {
        self.to_tree(alloc)
    }
}

/// Reads the result of a method from the members of a response's result. Copies the members once.
///
/// # Errors
/// - `NoFit`: the object of these members does not fit the rule of the method's result.
/// - `NoMemory`: an allocation failed.
pub fn result_of(alloc: Global, method: Method, members: &Members) -> Result<ResultData, ShapeFault>
    // After an Ok, the value is a valid result of that method, and its tree is the object of these
    // members.
    ensures ok { IfOk result (λ v. (⟦<ResultData as Payload<Method>>⟧.payload.kind v ≡ method)
        × (⟦<ResultData as Payload<Method>>⟧.payload.tree_of v ≡ kind.map (members_node members.now.entries))
        × ⟦<ResultData as Payload<Method>>⟧.payload.well v) }
    // `NoFit` comes only if that object does not fit the rule of the method's result.
    ensures no_fit { IfNoFit result (Fits (kind.map (members_node members.now.entries)) (named (result_rule method)) → ⊥) }
{
    let tree = Tree::Map(copy_members(members)?);
    ResultData::read(alloc, method, &tree)
}
