//! The rules of the module browser.
use crate::name::Name;
use crate::term::Need::Required;
use crate::term::Openness::Extensible;
use crate::term::Term;
use crate::term::Term::{ListOf, MapOf, Rule, Text};

pub(crate) static USER_CONTEXT_INFO: Term = MapOf(&[("userContext", Required, Text)], Extensible);

pub(crate) static GET_USER_CONTEXTS_RESULT: Term = MapOf(
    &[(
        "userContexts",
        Required,
        ListOf(1, &Rule(Name::UserContextInfo)),
    )],
    Extensible,
);

pub(crate) static REMOVE_USER_CONTEXT_PARAMETERS: Term = MapOf(
    &[("userContext", Required, Text)],
    Extensible,
);
