//! The commands of the session module, a file each: how one is decided, and its result.
mod end;
mod new;
mod status;
mod subscribe;
mod unsubscribe;

pub(crate) use end::decide_end;
pub(crate) use new::decide_new;
pub(crate) use status::decide_status;
pub(crate) use subscribe::{decide_subscribe, scope_of_ids};
pub(crate) use unsubscribe::decide_unsubscribe;
