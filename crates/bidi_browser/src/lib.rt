//! A browser in memory: user contexts, contexts, session histories, realms, and a table of scripts.
//!
//! Its contexts and user contexts stand in the tables of `bidi_contexts`; this crate has the table of scripts, and
//! works out and makes the changes.
//!
//! [`Browser::plan`] works out what an [`Action`] does, and changes nothing. It answers with a [`Plan`],
//! which has the events, the result of the command and a [`Change`], or with a [`Refusal`].
//! [`Browser::reserve`] then makes room for the change, and [`Browser::apply`] puts it in place without
//! allocating.
//!
//! Actions create, navigate, list and close contexts, make, list and remove user contexts, list realms, evaluate
//! scripts, call functions, release handles, log entries and set rows of the script table. No script is run:
//! the table says what a script of a given text returns or throws.
//!
//! [`Browser::tree_events`] gives the events that tell a new subscription of the contexts and realms that
//! exist already. [`id_text`] makes ids, and [`id_number`] reads one to its number. The specifications define
//! the browser by the list of actions that it has accepted, its past.
#![tactic(auto)]

mod action;
mod applying;
mod births;
mod browser;
mod calling;
mod command_result;
mod logging;
mod looking;
mod navigation;
mod numbers;
mod plan;
mod planning;
mod removals;
mod script_table;
mod scripts;
mod showing;
mod tabling;

pub use action::Action;
pub use bidi_contexts::{Occurrence, Top};
pub use bidi_handles::{IdKind, Refusal, id_number, id_text};
pub use browser::Browser;
pub use command_result::{CommandResult, ResultText};
pub use plan::{Change, Plan};
