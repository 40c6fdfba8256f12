//! The rules of the module browsingContext.
use crate::name::Name;
use crate::term::Need::{Optional, Required};
use crate::term::Openness::Extensible;
use crate::term::Term;
use crate::term::Term::{
    Bool, Capped, Exactly, JsInt, JsUint, ListOf, MapOf, Null, OneOf, Rule, Text,
};

pub(crate) static INFO: Term = Capped(&MapOf(
    &[
        (
            "children",
            Required,
            OneOf(&ListOf(0, &Rule(Name::Info)), &[Null]),
        ),
        ("clientWindow", Required, Text),
        ("context", Required, Text),
        ("originalOpener", Required, OneOf(&Text, &[Null])),
        ("url", Required, Text),
        ("userContext", Required, Text),
        ("parent", Optional, OneOf(&Text, &[Null])),
    ],
    Extensible,
));

pub(crate) static NAVIGATION_INFO: Term = MapOf(
    &[
        ("context", Required, Text),
        ("navigation", Required, OneOf(&Text, &[Null])),
        ("timestamp", Required, JsUint),
        ("url", Required, Text),
    ],
    Extensible,
);

pub(crate) static WAIT: Term = OneOf(
    &Exactly("none"),
    &[Exactly("interactive"), Exactly("complete")],
);

pub(crate) static ACTIVATE_PARAMETERS: Term = MapOf(&[("context", Required, Text)], Extensible);

pub(crate) static CLOSE_PARAMETERS: Term = MapOf(
    &[
        ("context", Required, Text),
        ("promptUnload", Optional, Bool),
    ],
    Extensible,
);

pub(crate) static CREATE_PARAMETERS: Term = MapOf(
    &[
        (
            "type",
            Required,
            OneOf(&Exactly("tab"), &[Exactly("window")]),
        ),
        ("referenceContext", Optional, Text),
        ("background", Optional, Bool),
        ("userContext", Optional, Text),
    ],
    Extensible,
);

pub(crate) static CREATE_RESULT: Term = MapOf(&[("context", Required, Text)], Extensible);

pub(crate) static GET_TREE_PARAMETERS: Term = MapOf(
    &[("maxDepth", Optional, JsUint), ("root", Optional, Text)],
    Extensible,
);

pub(crate) static GET_TREE_RESULT: Term = MapOf(
    &[("contexts", Required, ListOf(0, &Rule(Name::Info)))],
    Extensible,
);

pub(crate) static NAVIGATE_PARAMETERS: Term = MapOf(
    &[
        ("context", Required, Text),
        ("url", Required, Text),
        ("wait", Optional, Rule(Name::Wait)),
    ],
    Extensible,
);

pub(crate) static RELOAD_PARAMETERS: Term = MapOf(
    &[
        ("context", Required, Text),
        ("ignoreCache", Optional, Bool),
        ("wait", Optional, Rule(Name::Wait)),
    ],
    Extensible,
);

pub(crate) static NAVIGATE_RESULT: Term = MapOf(
    &[
        ("navigation", Required, OneOf(&Text, &[Null])),
        ("url", Required, Text),
    ],
    Extensible,
);

pub(crate) static TRAVERSE_HISTORY_PARAMETERS: Term = MapOf(
    &[("context", Required, Text), ("delta", Required, JsInt)],
    Extensible,
);
