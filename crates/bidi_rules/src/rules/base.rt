//! The rules of params and results that name nothing.
use crate::term::Openness::Extensible;
use crate::term::Term;
use crate::term::Term::MapOf;

pub(crate) static EMPTY_PARAMS: Term = MapOf(&[], Extensible);

pub(crate) static EMPTY_RESULT: Term = MapOf(&[], Extensible);
