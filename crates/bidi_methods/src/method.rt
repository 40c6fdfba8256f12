//! The methods of commands.
use bidi_shape::Named;

/// The method of a command.
///
/// After WebDriver BiDi, "Protocol".
#[derive(Clone, Copy, Debug, PartialEq, Eq)]
pub enum Method {
    /// `session.status`: says whether a session can be created. It needs no session.
    SessionStatus,
    /// `session.new`: creates a session, and the connection becomes part of it.
    SessionNew,
    /// `session.end`: ends the session, and closes its connections.
    SessionEnd,
    /// `session.subscribe`: enables events for the session, in all contexts or in some of them.
    SessionSubscribe,
    /// `session.unsubscribe`: ends subscriptions, or takes events out of the global ones.
    SessionUnsubscribe,
    /// `browsingContext.activate`: brings a top-level context to the front, which has no effect here.
    BrowsingContextActivate,
    /// `browsingContext.close`: closes a top-level context, with all contexts below it.
    BrowsingContextClose,
    /// `browsingContext.create`: opens a top-level context.
    BrowsingContextCreate,
    /// `browsingContext.getTree`: returns contexts with those below them.
    BrowsingContextGetTree,
    /// `browsingContext.navigate`: navigates a context to a URL.
    BrowsingContextNavigate,
    /// `browsingContext.reload`: navigates a context to its current URL again.
    BrowsingContextReload,
    /// `browsingContext.traverseHistory`: takes a top-level context to another entry of its session history.
    BrowsingContextTraverseHistory,
    /// `script.evaluate`: evaluates an expression in a realm.
    ScriptEvaluate,
    /// `script.callFunction`: calls a function in a realm, with arguments.
    ScriptCallFunction,
    /// `script.disown`: gives up handles of a realm.
    ScriptDisown,
    /// `script.getRealms`: lists realms.
    ScriptGetRealms,
    /// `browser.createUserContext`: creates a user context.
    BrowserCreateUserContext,
    /// `browser.getUserContexts`: lists user contexts.
    BrowserGetUserContexts,
    /// `browser.removeUserContext`: removes a user context, with its top-level contexts and all contexts
    /// below them.
    BrowserRemoveUserContext,
}

impl Named for Method {
    ghost use Rattle.bidi_methods.specs.Method.{method_words};

    ghost words = { method_words };

    fn all() -> &'static [Method] {
        &[
            Method::SessionStatus,
            Method::SessionNew,
            Method::SessionEnd,
            Method::SessionSubscribe,
            Method::SessionUnsubscribe,
            Method::BrowsingContextActivate,
            Method::BrowsingContextClose,
            Method::BrowsingContextCreate,
            Method::BrowsingContextGetTree,
            Method::BrowsingContextNavigate,
            Method::BrowsingContextReload,
            Method::BrowsingContextTraverseHistory,
            Method::ScriptEvaluate,
            Method::ScriptCallFunction,
            Method::ScriptDisown,
            Method::ScriptGetRealms,
            Method::BrowserCreateUserContext,
            Method::BrowserGetUserContexts,
            Method::BrowserRemoveUserContext,
        ]
    }

    fn name(&self) -> &'static str {
        match self {
            Method::SessionStatus => "session.status",
            Method::SessionNew => "session.new",
            Method::SessionEnd => "session.end",
            Method::SessionSubscribe => "session.subscribe",
            Method::SessionUnsubscribe => "session.unsubscribe",
            Method::BrowsingContextActivate => "browsingContext.activate",
            Method::BrowsingContextClose => "browsingContext.close",
            Method::BrowsingContextCreate => "browsingContext.create",
            Method::BrowsingContextGetTree => "browsingContext.getTree",
            Method::BrowsingContextNavigate => "browsingContext.navigate",
            Method::BrowsingContextReload => "browsingContext.reload",
            Method::BrowsingContextTraverseHistory => "browsingContext.traverseHistory",
            Method::ScriptEvaluate => "script.evaluate",
            Method::ScriptCallFunction => "script.callFunction",
            Method::ScriptDisown => "script.disown",
            Method::ScriptGetRealms => "script.getRealms",
            Method::BrowserCreateUserContext => "browser.createUserContext",
            Method::BrowserGetUserContexts => "browser.getUserContexts",
            Method::BrowserRemoveUserContext => "browser.removeUserContext",
        }
    }
}
