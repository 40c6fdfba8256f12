//! The tables of a browser: live contexts with their session histories and realms, and user contexts.
//!
//! [`Contexts`] has the live contexts in tree order, each a [`Context`]; [`Users`] has the user contexts. Both give
//! what they are asked for and are changed one act at a time: first room is made by a call that can fail, as
//! [`Contexts::reserve`], then the change is put in by one that takes no memory, as [`Contexts::add`].
//!
//! An [`Occurrence`] is an event with the context it occurred in and the [`Top`] that subscriptions cover.
//! [`tree_events`] gives those that tell of all contexts, [`removal`] and [`removal_of_user`] those of removing some.
//! What an action of a client changes is worked out by the crate `bidi_browser`.
//!
//! `specs/` defines the browser by the list of what it has done, its past: which contexts are live after it, what is
//! told of them, and what each action does. The contracts say which past a table stands for.
#![tactic(auto)]

mod context;
mod context_events;
mod contexts;
mod info_texts;
mod info_trees;
mod limits;
mod navigation;
mod occurrence;
mod seeking;
mod session_history;
mod subtrees;
mod telling;
mod urls;
mod users;

pub use context::Context;
pub use contexts::Contexts;
pub use limits::{LOWEST_LEVEL, MOST_CONTEXTS, NO_ID};
pub use navigation::Navigation;
pub use occurrence::{Occurrence, Top};
pub use session_history::{Move, SessionHistory};
pub use telling::{push_removals_below, removal, removal_of_user, tree_events};
pub use urls::parsed;
pub use users::{DEFAULT_USER, DEFAULT_USER_ID, Users, user_info};
