//! The rules of the module log.
use crate::name::Name;
use crate::term::Need::{Optional, Required};
use crate::term::Openness::{Closed, Extensible};
use crate::term::Term;
use crate::term::Term::{Exactly, JsUint, ListOf, MapOf, Null, OneOf, Rule, Text};

pub(crate) static LOG_ENTRY: Term = OneOf(
    &Rule(Name::ConsoleEntry),
    &[Rule(Name::JavascriptEntry), Rule(Name::GenericLogEntry)],
);

pub(crate) static CONSOLE_ENTRY: Term = MapOf(
    &[
        (
            "level",
            Required,
            OneOf(
                &Exactly("debug"),
                &[Exactly("info"), Exactly("warn"), Exactly("error")],
            ),
        ),
        ("source", Required, Rule(Name::Source)),
        ("text", Required, OneOf(&Text, &[Null])),
        ("timestamp", Required, JsUint),
        ("stackTrace", Optional, Rule(Name::StackTrace)),
        ("type", Required, Exactly("console")),
        ("method", Required, Text),
        ("args", Required, ListOf(0, &Rule(Name::RemoteValue))),
    ],
    Closed,
);

pub(crate) static JAVASCRIPT_ENTRY: Term = MapOf(
    &[
        (
            "level",
            Required,
            OneOf(
                &Exactly("debug"),
                &[Exactly("info"), Exactly("warn"), Exactly("error")],
            ),
        ),
        ("source", Required, Rule(Name::Source)),
        ("text", Required, OneOf(&Text, &[Null])),
        ("timestamp", Required, JsUint),
        ("stackTrace", Optional, Rule(Name::StackTrace)),
        ("type", Required, Exactly("javascript")),
    ],
    Closed,
);

pub(crate) static GENERIC_LOG_ENTRY: Term = MapOf(
    &[
        (
            "level",
            Required,
            OneOf(
                &Exactly("debug"),
                &[Exactly("info"), Exactly("warn"), Exactly("error")],
            ),
        ),
        ("source", Required, Rule(Name::Source)),
        ("text", Required, OneOf(&Text, &[Null])),
        ("timestamp", Required, JsUint),
        ("stackTrace", Optional, Rule(Name::StackTrace)),
        ("type", Required, Text),
    ],
    Extensible,
);
