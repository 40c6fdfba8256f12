//! The rules of the module script, and of the table of a play.
use crate::name::Name;
use crate::term::Need::{Optional, Required};
use crate::term::Openness::{Closed, Extensible};
use crate::term::Term;
use crate::term::Term::{
    Bool, Capped, Exactly, JsInt, JsUint, ListOf, MapOf, Null, OneOf, PairOf, Rule, Text,
};

pub(crate) static TARGET: Term = OneOf(&Rule(Name::ContextTarget), &[Rule(Name::RealmTarget)]);

pub(crate) static CONTEXT_TARGET: Term = MapOf(
    &[("context", Required, Text), ("sandbox", Optional, Text)],
    Extensible,
);

pub(crate) static REALM_TARGET: Term = MapOf(&[("realm", Required, Text)], Extensible);

pub(crate) static OWNERSHIP: Term = OneOf(&Exactly("root"), &[Exactly("none")]);

pub(crate) static SERIALIZATION_OPTIONS: Term = MapOf(
    &[("maxObjectDepth", Optional, OneOf(&JsUint, &[Null]))],
    Extensible,
);

pub(crate) static EVALUATE_PARAMETERS: Term = MapOf(
    &[
        ("expression", Required, Text),
        ("target", Required, Rule(Name::Target)),
        ("awaitPromise", Required, Bool),
        ("resultOwnership", Optional, Rule(Name::Ownership)),
        (
            "serializationOptions",
            Optional,
            Rule(Name::SerializationOptions),
        ),
        ("userActivation", Optional, Bool),
    ],
    Extensible,
);

pub(crate) static CALL_FUNCTION_PARAMETERS: Term = MapOf(
    &[
        ("functionDeclaration", Required, Text),
        ("awaitPromise", Required, Bool),
        ("target", Required, Rule(Name::Target)),
        ("arguments", Optional, ListOf(0, &Rule(Name::LocalValue))),
        ("resultOwnership", Optional, Rule(Name::Ownership)),
        (
            "serializationOptions",
            Optional,
            Rule(Name::SerializationOptions),
        ),
        ("this", Optional, Rule(Name::LocalValue)),
        ("userActivation", Optional, Bool),
    ],
    Extensible,
);

pub(crate) static DISOWN_PARAMETERS: Term = MapOf(
    &[
        ("handles", Required, ListOf(0, &Text)),
        ("target", Required, Rule(Name::Target)),
    ],
    Extensible,
);

pub(crate) static GET_REALMS_PARAMETERS: Term = MapOf(
    &[
        ("context", Optional, Text),
        ("type", Optional, Rule(Name::RealmType)),
    ],
    Extensible,
);

pub(crate) static REALM_TYPE: Term = OneOf(
    &Exactly("window"),
    &[
        Exactly("dedicated-worker"),
        Exactly("shared-worker"),
        Exactly("service-worker"),
        Exactly("worker"),
        Exactly("paint-worklet"),
        Exactly("audio-worklet"),
        Exactly("worklet"),
    ],
);

pub(crate) static GET_REALMS_RESULT: Term = MapOf(
    &[("realms", Required, ListOf(0, &Rule(Name::RealmInfo)))],
    Extensible,
);

pub(crate) static REALM_INFO: Term = MapOf(
    &[
        ("realm", Required, Text),
        ("origin", Required, Text),
        ("type", Required, Exactly("window")),
        ("context", Required, Text),
    ],
    Extensible,
);

pub(crate) static REALM_DESTROYED_PARAMETERS: Term = MapOf(
    &[("realm", Required, Text)],
    Extensible,
);

pub(crate) static PRIMITIVE: Term = OneOf(
    &MapOf(&[("type", Required, Exactly("undefined"))], Closed),
    &[
        MapOf(&[("type", Required, Exactly("null"))], Closed),
        MapOf(
            &[
                ("type", Required, Exactly("string")),
                ("value", Required, Text),
            ],
            Closed,
        ),
        MapOf(
            &[
                ("type", Required, Exactly("number")),
                (
                    "value",
                    Required,
                    OneOf(
                        &JsInt,
                        &[
                            Exactly("NaN"),
                            Exactly("-0"),
                            Exactly("Infinity"),
                            Exactly("-Infinity"),
                        ],
                    ),
                ),
            ],
            Closed,
        ),
        MapOf(
            &[
                ("type", Required, Exactly("boolean")),
                ("value", Required, Bool),
            ],
            Closed,
        ),
        MapOf(
            &[
                ("type", Required, Exactly("bigint")),
                ("value", Required, Text),
            ],
            Closed,
        ),
    ],
);

pub(crate) static REG_EXP_VALUE: Term = MapOf(
    &[("pattern", Required, Text), ("flags", Optional, Text)],
    Closed,
);

pub(crate) static REFERENCE: Term = OneOf(
    &Rule(Name::SharedReference),
    &[Rule(Name::RemoteObjectReference)],
);

pub(crate) static SHARED_REFERENCE: Term = MapOf(
    &[("sharedId", Required, Text), ("handle", Optional, Text)],
    Extensible,
);

pub(crate) static REMOTE_OBJECT_REFERENCE: Term = MapOf(
    &[("handle", Required, Text), ("sharedId", Optional, Text)],
    Extensible,
);

pub(crate) static LOCAL_VALUE: Term = Capped(&OneOf(
    &Rule(Name::Reference),
    &[
        Rule(Name::Primitive),
        MapOf(
            &[
                ("type", Required, Exactly("array")),
                ("value", Required, ListOf(0, &Rule(Name::LocalValue))),
            ],
            Closed,
        ),
        MapOf(
            &[
                ("type", Required, Exactly("date")),
                ("value", Required, Text),
            ],
            Closed,
        ),
        MapOf(
            &[
                ("type", Required, Exactly("map")),
                ("value", Required, ListOf(0, &Rule(Name::LocalPair))),
            ],
            Closed,
        ),
        MapOf(
            &[
                ("type", Required, Exactly("object")),
                ("value", Required, ListOf(0, &Rule(Name::LocalPair))),
            ],
            Closed,
        ),
        MapOf(
            &[
                ("type", Required, Exactly("regexp")),
                ("value", Required, Rule(Name::RegExpValue)),
            ],
            Closed,
        ),
        MapOf(
            &[
                ("type", Required, Exactly("set")),
                ("value", Required, ListOf(0, &Rule(Name::LocalValue))),
            ],
            Closed,
        ),
    ],
));

pub(crate) static LOCAL_PAIR: Term = PairOf(
    &OneOf(&Rule(Name::LocalValue), &[Text]),
    &Rule(Name::LocalValue),
);

pub(crate) static REMOTE_VALUE: Term = Capped(&OneOf(
    &Rule(Name::Primitive),
    &[
        MapOf(
            &[
                (
                    "type",
                    Required,
                    OneOf(&Exactly("array"), &[Exactly("set")]),
                ),
                ("handle", Optional, Text),
                ("internalId", Optional, Text),
                ("value", Optional, ListOf(0, &Rule(Name::RemoteValue))),
            ],
            Closed,
        ),
        MapOf(
            &[
                (
                    "type",
                    Required,
                    OneOf(&Exactly("object"), &[Exactly("map")]),
                ),
                ("handle", Optional, Text),
                ("internalId", Optional, Text),
                ("value", Optional, ListOf(0, &Rule(Name::RemotePair))),
            ],
            Closed,
        ),
        MapOf(
            &[
                ("type", Required, Exactly("regexp")),
                ("value", Required, Rule(Name::RegExpValue)),
                ("handle", Optional, Text),
                ("internalId", Optional, Text),
            ],
            Closed,
        ),
        MapOf(
            &[
                ("type", Required, Exactly("date")),
                ("value", Required, Text),
                ("handle", Optional, Text),
                ("internalId", Optional, Text),
            ],
            Closed,
        ),
        MapOf(
            &[
                ("type", Required, Rule(Name::Opaque)),
                ("handle", Optional, Text),
                ("internalId", Optional, Text),
            ],
            Closed,
        ),
    ],
));

pub(crate) static REMOTE_PAIR: Term = PairOf(
    &OneOf(&Rule(Name::RemoteValue), &[Text]),
    &Rule(Name::RemoteValue),
);

pub(crate) static OPAQUE: Term = OneOf(
    &Exactly("symbol"),
    &[
        Exactly("function"),
        Exactly("weakmap"),
        Exactly("weakset"),
        Exactly("generator"),
        Exactly("error"),
        Exactly("proxy"),
        Exactly("promise"),
        Exactly("typedarray"),
        Exactly("arraybuffer"),
    ],
);

pub(crate) static EVALUATE_RESULT: Term = OneOf(
    &MapOf(
        &[
            ("type", Required, Exactly("success")),
            ("result", Required, Rule(Name::RemoteValue)),
            ("realm", Required, Text),
        ],
        Closed,
    ),
    &[MapOf(
        &[
            ("type", Required, Exactly("exception")),
            ("exceptionDetails", Required, Rule(Name::ExceptionDetails)),
            ("realm", Required, Text),
        ],
        Closed,
    )],
);

pub(crate) static EXCEPTION_DETAILS: Term = MapOf(
    &[
        ("columnNumber", Required, JsUint),
        ("exception", Required, Rule(Name::RemoteValue)),
        ("lineNumber", Required, JsUint),
        ("stackTrace", Required, Rule(Name::StackTrace)),
        ("text", Required, Text),
    ],
    Closed,
);

pub(crate) static STACK_TRACE: Term = MapOf(
    &[("callFrames", Required, ListOf(0, &Rule(Name::StackFrame)))],
    Closed,
);

pub(crate) static STACK_FRAME: Term = MapOf(
    &[
        ("columnNumber", Required, JsUint),
        ("functionName", Required, Text),
        ("lineNumber", Required, JsUint),
        ("url", Required, Text),
    ],
    Closed,
);

pub(crate) static SOURCE: Term = MapOf(
    &[("realm", Required, Text), ("context", Optional, Text)],
    Closed,
);

pub(crate) static TABLE_ROW: Term = OneOf(
    &MapOf(
        &[
            ("text", Required, Text),
            ("returns", Required, Rule(Name::RemoteValue)),
        ],
        Closed,
    ),
    &[
        MapOf(
            &[
                ("text", Required, Text),
                ("throws", Required, Rule(Name::RemoteValue)),
            ],
            Closed,
        ),
        MapOf(
            &[("text", Required, Text), ("argument", Required, JsUint)],
            Closed,
        ),
    ],
);
