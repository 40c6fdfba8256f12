//! The rules of the module session.
use crate::name::Name;
use crate::term::Need::{Optional, Required};
use crate::term::Openness::Extensible;
use crate::term::Term;
use crate::term::Term::{Bool, ListOf, MapOf, OneOf, Rule, Text};

pub(crate) static STATUS_RESULT: Term = MapOf(
    &[("ready", Required, Bool), ("message", Required, Text)],
    Extensible,
);

pub(crate) static NEW_PARAMETERS: Term = MapOf(
    &[("capabilities", Required, Rule(Name::CapabilitiesRequest))],
    Extensible,
);

pub(crate) static CAPABILITIES_REQUEST: Term = MapOf(
    &[
        ("alwaysMatch", Optional, Rule(Name::CapabilityRequest)),
        (
            "firstMatch",
            Optional,
            ListOf(0, &Rule(Name::CapabilityRequest)),
        ),
    ],
    Extensible,
);

pub(crate) static CAPABILITY_REQUEST: Term = MapOf(
    &[
        ("acceptInsecureCerts", Optional, Bool),
        ("browserName", Optional, Text),
        ("browserVersion", Optional, Text),
        ("platformName", Optional, Text),
    ],
    Extensible,
);

pub(crate) static NEW_RESULT: Term = MapOf(
    &[
        ("sessionId", Required, Text),
        ("capabilities", Required, Rule(Name::Capabilities)),
    ],
    Extensible,
);

pub(crate) static CAPABILITIES: Term = MapOf(
    &[
        ("acceptInsecureCerts", Required, Bool),
        ("browserName", Required, Text),
        ("browserVersion", Required, Text),
        ("platformName", Required, Text),
        ("setWindowRect", Required, Bool),
        ("userAgent", Required, Text),
    ],
    Extensible,
);

pub(crate) static SUBSCRIBE_PARAMETERS: Term = MapOf(
    &[
        ("events", Required, ListOf(1, &Text)),
        ("contexts", Optional, ListOf(1, &Text)),
        ("userContexts", Optional, ListOf(1, &Text)),
    ],
    Extensible,
);

pub(crate) static SUBSCRIBE_RESULT: Term = MapOf(&[("subscription", Required, Text)], Extensible);

pub(crate) static UNSUBSCRIBE_PARAMETERS: Term = OneOf(
    &Rule(Name::UnsubscribeById),
    &[Rule(Name::UnsubscribeByEvents)],
);

pub(crate) static UNSUBSCRIBE_BY_ID: Term = MapOf(
    &[("subscriptions", Required, ListOf(1, &Text))],
    Extensible,
);

pub(crate) static UNSUBSCRIBE_BY_EVENTS: Term = MapOf(
    &[("events", Required, ListOf(1, &Text))],
    Extensible,
);
