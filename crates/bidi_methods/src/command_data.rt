//! The data of commands: method and params.
ghost use Rattle.std.specs.Prelude.{◌≡◌, IfOk, refl};
ghost use Rattle.bidi_tree.specs.Outline.{outline_node};
ghost use Rattle.bidi_tree.specs.View.{node};
ghost use Rattle.bidi_shape.specs.Term.{rule as named};
ghost use Rattle.bidi_shape.specs.Fits.{Fits};
ghost use Rattle.bidi_shape.specs.Outcome.{IfNoFit};
ghost use Rattle.bidi_methods.specs.Method.{params_of as params_rule};

use crate::method::Method;
use crate::payload::Payload;
use bidi_params::session::NewParameters;
use bidi_params::{
    ActivateParameters, CloseParameters, CreateParameters, EmptyParams, GetTreeParameters,
    NavigateParameters, ReloadParameters, RemoveUserContextParameters, SubscribeParameters,
    TraverseHistoryParameters, UnsubscribeParameters,
};
use bidi_scripts::{
    CallFunctionParameters, DisownParameters, EvaluateParameters, GetRealmsParameters,
};
use bidi_shape::{Parsed, Shape, ShapeFault};
use bidi_tree::{Outline, Tree};
use std::alloc::{AllocError, Global};

/// A command: its method with its params, grouped by who carries it out. Match on a reference: a value of
/// this type cannot be moved out of, because it has its own `Drop`.
///
/// After WebDriver BiDi, "Protocol".
pub enum CommandData {
    /// A command of the session module, which a remote end carries out by itself.
    Session(SessionCommand),
    /// A command of the modules browsingContext, script and browser, which its browser carries out.
    Browser(BrowserCommand),
}

// Not derived, so that its proof is made only here.
impl Drop for CommandData {
    fn drop(self) {
        match self {
            CommandData::Session(_) => {}
            CommandData::Browser(_) => {}
        }
    }
}

/// A command of the session module. The largest params have a block of memory of their own.
///
/// After WebDriver BiDi, "The session Module".
#[derive(Drop)]
pub enum SessionCommand {
    /// `session.status`, which has no params.
    Status(EmptyParams),
    /// `session.new`, with the capabilities that are requested.
    New(Box<NewParameters>),
    /// `session.end`, for the session that the connection belongs to.
    End(EmptyParams),
    /// `session.subscribe`, with events, and the contexts or user contexts to which they are limited.
    Subscribe(Box<SubscribeParameters>),
    /// `session.unsubscribe`, with ids of subscriptions, or with events.
    Unsubscribe(UnsubscribeParameters),
}

/// A command of the browser. The largest params have a block of memory of their own.
///
/// After WebDriver BiDi, "The browsingContext Module", "The script Module" and "The browser Module".
#[derive(Drop)]
pub enum BrowserCommand {
    /// `browsingContext.activate`, with a top-level context.
    Activate(ActivateParameters),
    /// `browsingContext.close`, with a top-level context.
    Close(CloseParameters),
    /// `browsingContext.create`, with whether a tab or a window is opened, and the context that it is opened
    /// from.
    Create(CreateParameters),
    /// `browsingContext.getTree`, with the root context and the depth.
    GetTree(GetTreeParameters),
    /// `browsingContext.navigate`, with a context, a URL, and what the reply waits for.
    Navigate(NavigateParameters),
    /// `browsingContext.reload`, with a context, and what the reply waits for.
    Reload(ReloadParameters),
    /// `browsingContext.traverseHistory`, with a top-level context, and by how many entries to go.
    TraverseHistory(TraverseHistoryParameters),
    /// `script.evaluate`, with an expression, and where it is evaluated.
    Evaluate(Box<EvaluateParameters>),
    /// `script.callFunction`, with a function, its arguments, and where it is called.
    CallFunction(Box<CallFunctionParameters>),
    /// `script.disown`, with handles and the realm or context that they belong to.
    Disown(Box<DisownParameters>),
    /// `script.getRealms`, with a context or a type to which the list is limited, if any.
    GetRealms(GetRealmsParameters),
    /// `browser.createUserContext`, which has no params.
    CreateUserContext(EmptyParams),
    /// `browser.getUserContexts`, which has no params.
    GetUserContexts(EmptyParams),
    /// `browser.removeUserContext`, with a user context.
    RemoveUserContext(RemoveUserContextParameters),
}

impl Payload<Method> for CommandData {
    ghost use Rattle.bidi_methods.specs.CommandData.{command_payload};

    ghost payload = { command_payload };

    fn kind(&self) -> Method {
        match self {
            CommandData::Session(command) => command.method(),
            CommandData::Browser(command) => command.method(),
        }
    }

    fn read<S: Parsed>(alloc: Global, kind: Method, tree: &S) -> Result<CommandData, ShapeFault> {
        match kind {
            Method::SessionStatus => Ok(CommandData::Session(SessionCommand::Status(
                EmptyParams::from_tree(alloc, tree)?,
            ))),
            Method::SessionNew => Ok(CommandData::Session(SessionCommand::New(read_boxed(
                alloc, tree,
            )?))),
            Method::SessionEnd => Ok(CommandData::Session(SessionCommand::End(
                EmptyParams::from_tree(alloc, tree)?,
            ))),
            Method::SessionSubscribe => Ok(CommandData::Session(SessionCommand::Subscribe(
                read_boxed(alloc, tree)?,
            ))),
            Method::SessionUnsubscribe => Ok(CommandData::Session(SessionCommand::Unsubscribe(
                UnsubscribeParameters::from_tree(alloc, tree)?,
            ))),
            Method::BrowsingContextActivate => Ok(CommandData::Browser(BrowserCommand::Activate(
                ActivateParameters::from_tree(alloc, tree)?,
            ))),
            Method::BrowsingContextClose => Ok(CommandData::Browser(BrowserCommand::Close(
                CloseParameters::from_tree(alloc, tree)?,
            ))),
            Method::BrowsingContextCreate => Ok(CommandData::Browser(BrowserCommand::Create(
                CreateParameters::from_tree(alloc, tree)?,
            ))),
            Method::BrowsingContextGetTree => Ok(CommandData::Browser(BrowserCommand::GetTree(
                GetTreeParameters::from_tree(alloc, tree)?,
            ))),
            Method::BrowsingContextNavigate => Ok(CommandData::Browser(BrowserCommand::Navigate(
                NavigateParameters::from_tree(alloc, tree)?,
            ))),
            Method::BrowsingContextReload => Ok(CommandData::Browser(BrowserCommand::Reload(
                ReloadParameters::from_tree(alloc, tree)?,
            ))),
            Method::BrowsingContextTraverseHistory => Ok(CommandData::Browser(
                BrowserCommand::TraverseHistory(TraverseHistoryParameters::from_tree(alloc, tree)?),
            )),
            Method::ScriptEvaluate => Ok(CommandData::Browser(BrowserCommand::Evaluate(read_boxed(
                alloc, tree,
            )?))),
            Method::ScriptCallFunction => Ok(CommandData::Browser(BrowserCommand::CallFunction(
                read_boxed(alloc, tree)?,
            ))),
            Method::ScriptDisown => Ok(CommandData::Browser(BrowserCommand::Disown(read_boxed(
                alloc, tree,
            )?))),
            Method::ScriptGetRealms => Ok(CommandData::Browser(BrowserCommand::GetRealms(
                GetRealmsParameters::from_tree(alloc, tree)?,
            ))),
            Method::BrowserCreateUserContext => Ok(CommandData::Browser(
                BrowserCommand::CreateUserContext(EmptyParams::from_tree(alloc, tree)?),
            )),
            Method::BrowserGetUserContexts => Ok(CommandData::Browser(
                BrowserCommand::GetUserContexts(EmptyParams::from_tree(alloc, tree)?),
            )),
            Method::BrowserRemoveUserContext => Ok(CommandData::Browser(
                BrowserCommand::RemoveUserContext(RemoveUserContextParameters::from_tree(
                    alloc, tree,
                )?),
            )),
        }
    }

    fn outline<'a>(&'a self, alloc: Global) -> Result<Outline<'a>, AllocError> {
        match self {
            CommandData::Session(command) => command.outline(alloc),
            CommandData::Browser(command) => command.outline(alloc),
        }
    }
}

impl SessionCommand {
    ghost use Rattle.bidi_methods.specs.CommandData.{session_asked, asked_tree};

    /// The method of the command. Takes no memory.
    pub fn method(&self) -> Method
        // The result is the method of the variant.
        ensures { result ≡ (session_asked self.now).0 }
    {
        match self {
            SessionCommand::Status(_) => Method::SessionStatus,
            SessionCommand::New(_) => Method::SessionNew,
            SessionCommand::End(_) => Method::SessionEnd,
            SessionCommand::Subscribe(_) => Method::SessionSubscribe,
            SessionCommand::Unsubscribe(_) => Method::SessionUnsubscribe,
        }
    }

    // The outline of the params.
    fn outline<'a>(&'a self, alloc: Global) -> Result<Outline<'a>, AllocError>
        ensures { IfOk result (λ d. outline_node d ≡ asked_tree (session_asked self.now)) }
    {
        match self {
            SessionCommand::Status(params) => params.outline(alloc),
            SessionCommand::New(params) => params.as_ref().outline(alloc),
            SessionCommand::End(params) => params.outline(alloc),
            SessionCommand::Subscribe(params) => params.as_ref().outline(alloc),
            SessionCommand::Unsubscribe(params) => params.outline(alloc),
        }
    }
}

impl BrowserCommand {
    ghost use Rattle.bidi_methods.specs.CommandData.{browser_asked, asked_tree};

    /// The method of the command. Takes no memory.
    pub fn method(&self) -> Method
        // The result is the method of the variant.
        ensures { result ≡ (browser_asked self.now).0 }
    {
        match self {
            BrowserCommand::Activate(_) => Method::BrowsingContextActivate,
            BrowserCommand::Close(_) => Method::BrowsingContextClose,
            BrowserCommand::Create(_) => Method::BrowsingContextCreate,
            BrowserCommand::GetTree(_) => Method::BrowsingContextGetTree,
            BrowserCommand::Navigate(_) => Method::BrowsingContextNavigate,
            BrowserCommand::Reload(_) => Method::BrowsingContextReload,
            BrowserCommand::TraverseHistory(_) => Method::BrowsingContextTraverseHistory,
            BrowserCommand::Evaluate(_) => Method::ScriptEvaluate,
            BrowserCommand::CallFunction(_) => Method::ScriptCallFunction,
            BrowserCommand::Disown(_) => Method::ScriptDisown,
            BrowserCommand::GetRealms(_) => Method::ScriptGetRealms,
            BrowserCommand::CreateUserContext(_) => Method::BrowserCreateUserContext,
            BrowserCommand::GetUserContexts(_) => Method::BrowserGetUserContexts,
            BrowserCommand::RemoveUserContext(_) => Method::BrowserRemoveUserContext,
        }
    }

    // The outline of the params.
    fn outline<'a>(&'a self, alloc: Global) -> Result<Outline<'a>, AllocError>
        ensures { IfOk result (λ d. outline_node d ≡ asked_tree (browser_asked self.now)) }
    {
        match self {
            BrowserCommand::Activate(params) => params.outline(alloc),
            BrowserCommand::Close(params) => params.outline(alloc),
            BrowserCommand::Create(params) => params.outline(alloc),
            BrowserCommand::GetTree(params) => params.outline(alloc),
            BrowserCommand::Navigate(params) => params.outline(alloc),
            BrowserCommand::Reload(params) => params.outline(alloc),
            BrowserCommand::TraverseHistory(params) => params.outline(alloc),
            BrowserCommand::Evaluate(params) => params.as_ref().outline(alloc),
            BrowserCommand::CallFunction(params) => params.as_ref().outline(alloc),
            BrowserCommand::Disown(params) => params.as_ref().outline(alloc),
            BrowserCommand::GetRealms(params) => params.outline(alloc),
            BrowserCommand::CreateUserContext(params) => params.outline(alloc),
            BrowserCommand::GetUserContexts(params) => params.outline(alloc),
            BrowserCommand::RemoveUserContext(params) => params.outline(alloc),
        }
    }
}

impl CommandData {
    /// The method of the command. Takes no memory.
    pub fn method(&self) -> Method
        // The result is the method of the variant.
        ensures { result ≡ ⟦<CommandData as Payload<Method>>⟧.payload.kind self.now }
    {
        self.kind()
    }
}

// Reads params that have a block of their own. A separate function, so that no room is reserved for
// them when others are read.
fn read_boxed<T: Shape, S: Parsed>(alloc: Global, tree: &S) -> Result<Box<T>, ShapeFault>
    ensures ok { IfOk result (λ it. (T.shape.tree_of it.value ≡ S.tree tree.now) × T.shape.well it.value) }
    ensures no_fit { IfNoFit result (Fits (S.tree tree.now) T.shape.rule → ⊥) }
{
    match Box::new(alloc, T::from_tree(alloc, tree)?) {
        Ok(it) => Ok(it),
        Err(_) => Err(ShapeFault::NoMemory),
    }
}

/// Reads the params of a method from a tree.
///
/// # Errors
/// - `NoFit`: the tree does not fit the rule of the method's params.
/// - `NoMemory`: an allocation failed.
pub fn data_of(alloc: Global, method: Method, tree: &Tree) -> Result<CommandData, ShapeFault>
    // After an Ok, the value is a valid command of that method, and its params have the tree that
    // was read.
    ensures ok { IfOk result (λ v. (⟦<CommandData as Payload<Method>>⟧.payload.kind v ≡ method)
        × (⟦<CommandData as Payload<Method>>⟧.payload.tree_of v ≡ node tree.now)
        × ⟦<CommandData as Payload<Method>>⟧.payload.well v) }
    // `NoFit` comes only if the tree does not fit the rule of the method's params.
    ensures no_fit { IfNoFit result (Fits (node tree.now) (named (params_rule method)) → ⊥) }
{
    CommandData::read(alloc, method, tree)
}
