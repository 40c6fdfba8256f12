//! The rules of commands and messages.
use crate::name::Name;
use crate::term::Need::{Optional, Required};
use crate::term::Openness::Extensible;
use crate::term::Term;
use crate::term::Term::{Exactly, JsUint, MapOf, Null, OneOf, Rule, Text};

pub(crate) static COMMAND: Term = OneOf(
    &MapOf(
        &[
            ("id", Required, JsUint),
            ("method", Required, Exactly("session.status")),
            ("params", Required, Rule(Name::EmptyParams)),
        ],
        Extensible,
    ),
    &[
        MapOf(
            &[
                ("id", Required, JsUint),
                ("method", Required, Exactly("session.new")),
                ("params", Required, Rule(Name::NewParameters)),
            ],
            Extensible,
        ),
        MapOf(
            &[
                ("id", Required, JsUint),
                ("method", Required, Exactly("session.end")),
                ("params", Required, Rule(Name::EmptyParams)),
            ],
            Extensible,
        ),
        MapOf(
            &[
                ("id", Required, JsUint),
                ("method", Required, Exactly("session.subscribe")),
                ("params", Required, Rule(Name::SubscribeParameters)),
            ],
            Extensible,
        ),
        MapOf(
            &[
                ("id", Required, JsUint),
                ("method", Required, Exactly("session.unsubscribe")),
                ("params", Required, Rule(Name::UnsubscribeParameters)),
            ],
            Extensible,
        ),
        MapOf(
            &[
                ("id", Required, JsUint),
                ("method", Required, Exactly("browsingContext.activate")),
                ("params", Required, Rule(Name::ActivateParameters)),
            ],
            Extensible,
        ),
        MapOf(
            &[
                ("id", Required, JsUint),
                ("method", Required, Exactly("browsingContext.close")),
                ("params", Required, Rule(Name::CloseParameters)),
            ],
            Extensible,
        ),
        MapOf(
            &[
                ("id", Required, JsUint),
                ("method", Required, Exactly("browsingContext.create")),
                ("params", Required, Rule(Name::CreateParameters)),
            ],
            Extensible,
        ),
        MapOf(
            &[
                ("id", Required, JsUint),
                ("method", Required, Exactly("browsingContext.getTree")),
                ("params", Required, Rule(Name::GetTreeParameters)),
            ],
            Extensible,
        ),
        MapOf(
            &[
                ("id", Required, JsUint),
                ("method", Required, Exactly("browsingContext.navigate")),
                ("params", Required, Rule(Name::NavigateParameters)),
            ],
            Extensible,
        ),
        MapOf(
            &[
                ("id", Required, JsUint),
                ("method", Required, Exactly("browsingContext.reload")),
                ("params", Required, Rule(Name::ReloadParameters)),
            ],
            Extensible,
        ),
        MapOf(
            &[
                ("id", Required, JsUint),
                (
                    "method",
                    Required,
                    Exactly("browsingContext.traverseHistory"),
                ),
                ("params", Required, Rule(Name::TraverseHistoryParameters)),
            ],
            Extensible,
        ),
        MapOf(
            &[
                ("id", Required, JsUint),
                ("method", Required, Exactly("script.evaluate")),
                ("params", Required, Rule(Name::EvaluateParameters)),
            ],
            Extensible,
        ),
        MapOf(
            &[
                ("id", Required, JsUint),
                ("method", Required, Exactly("script.callFunction")),
                ("params", Required, Rule(Name::CallFunctionParameters)),
            ],
            Extensible,
        ),
        MapOf(
            &[
                ("id", Required, JsUint),
                ("method", Required, Exactly("script.disown")),
                ("params", Required, Rule(Name::DisownParameters)),
            ],
            Extensible,
        ),
        MapOf(
            &[
                ("id", Required, JsUint),
                ("method", Required, Exactly("script.getRealms")),
                ("params", Required, Rule(Name::GetRealmsParameters)),
            ],
            Extensible,
        ),
        MapOf(
            &[
                ("id", Required, JsUint),
                ("method", Required, Exactly("browser.createUserContext")),
                ("params", Required, Rule(Name::EmptyParams)),
            ],
            Extensible,
        ),
        MapOf(
            &[
                ("id", Required, JsUint),
                ("method", Required, Exactly("browser.getUserContexts")),
                ("params", Required, Rule(Name::EmptyParams)),
            ],
            Extensible,
        ),
        MapOf(
            &[
                ("id", Required, JsUint),
                ("method", Required, Exactly("browser.removeUserContext")),
                ("params", Required, Rule(Name::RemoveUserContextParameters)),
            ],
            Extensible,
        ),
    ],
);

pub(crate) static MESSAGE: Term = OneOf(
    &Rule(Name::CommandResponse),
    &[Rule(Name::ErrorResponse), Rule(Name::Event)],
);

pub(crate) static COMMAND_RESPONSE: Term = MapOf(
    &[
        ("type", Required, Exactly("success")),
        ("id", Required, JsUint),
        ("result", Required, MapOf(&[], Extensible)),
    ],
    Extensible,
);

pub(crate) static ERROR_RESPONSE: Term = MapOf(
    &[
        ("type", Required, Exactly("error")),
        ("id", Required, OneOf(&JsUint, &[Null])),
        ("error", Required, Rule(Name::ErrorCode)),
        ("message", Required, Text),
        ("stacktrace", Optional, Text),
    ],
    Extensible,
);

pub(crate) static EVENT: Term = OneOf(
    &MapOf(
        &[
            ("type", Required, Exactly("event")),
            (
                "method",
                Required,
                Exactly("browsingContext.contextCreated"),
            ),
            ("params", Required, Rule(Name::Info)),
        ],
        Extensible,
    ),
    &[
        MapOf(
            &[
                ("type", Required, Exactly("event")),
                (
                    "method",
                    Required,
                    Exactly("browsingContext.contextDestroyed"),
                ),
                ("params", Required, Rule(Name::Info)),
            ],
            Extensible,
        ),
        MapOf(
            &[
                ("type", Required, Exactly("event")),
                (
                    "method",
                    Required,
                    Exactly("browsingContext.navigationStarted"),
                ),
                ("params", Required, Rule(Name::NavigationInfo)),
            ],
            Extensible,
        ),
        MapOf(
            &[
                ("type", Required, Exactly("event")),
                (
                    "method",
                    Required,
                    Exactly("browsingContext.domContentLoaded"),
                ),
                ("params", Required, Rule(Name::NavigationInfo)),
            ],
            Extensible,
        ),
        MapOf(
            &[
                ("type", Required, Exactly("event")),
                ("method", Required, Exactly("browsingContext.load")),
                ("params", Required, Rule(Name::NavigationInfo)),
            ],
            Extensible,
        ),
        MapOf(
            &[
                ("type", Required, Exactly("event")),
                ("method", Required, Exactly("script.realmCreated")),
                ("params", Required, Rule(Name::RealmInfo)),
            ],
            Extensible,
        ),
        MapOf(
            &[
                ("type", Required, Exactly("event")),
                ("method", Required, Exactly("script.realmDestroyed")),
                ("params", Required, Rule(Name::RealmDestroyedParameters)),
            ],
            Extensible,
        ),
        MapOf(
            &[
                ("type", Required, Exactly("event")),
                ("method", Required, Exactly("log.entryAdded")),
                ("params", Required, Rule(Name::LogEntry)),
            ],
            Extensible,
        ),
    ],
);

pub(crate) static ERROR_CODE: Term = OneOf(
    &Exactly("invalid argument"),
    &[
        Exactly("invalid selector"),
        Exactly("invalid session id"),
        Exactly("move target out of bounds"),
        Exactly("no such alert"),
        Exactly("no such element"),
        Exactly("no such frame"),
        Exactly("no such handle"),
        Exactly("no such history entry"),
        Exactly("no such intercept"),
        Exactly("no such node"),
        Exactly("no such request"),
        Exactly("no such script"),
        Exactly("no such storage partition"),
        Exactly("no such user context"),
        Exactly("session not created"),
        Exactly("unable to capture screen"),
        Exactly("unable to close browser"),
        Exactly("unable to set cookie"),
        Exactly("unable to set file input"),
        Exactly("unknown command"),
        Exactly("unknown error"),
        Exactly("unsupported operation"),
    ],
);
