//! From the text of a grammar in CDDL to its rules as they are written.
//!
//! [`read_rules`] reads a text. [`line_and_column`] says where a fault is in it.
//!
//! A text becomes tokens. A parser reads them, and makes nodes and definitions of rules. It also notes each step that it takes. The steps
//! are checked against the tokens and the nodes, so that nothing has to be proved of the parser but that it is safe and ends. A
//! definition then makes a rule, or changes one.
//!
//! After RFC 8610, in the subset that WebDriver BiDi uses. The subset has no generics, tags, sockets, byte strings, cuts, upper bounds of
//! occurrences or enumerations of a group. Of the control operators it has `.default`, `.ge`, `.gt`, `.le` and `.lt`.
#![tactic(auto)]

mod bytes;
mod checking;
mod count;
mod definition;
mod definition_steps;
mod fault;
mod group_steps;
mod joining;
mod leaves;
mod level;
mod matching;
mod parser;
mod parsing;
mod place;
mod reading;
mod rules;
mod sizes;
mod step;
mod token;
mod tokens;
mod type_steps;
mod written;

pub use fault::{LoadFault, Wrong};
pub use place::line_and_column;
pub use reading::read_rules;
pub use written::{Body, Node, Occurs, Rule, Written};
