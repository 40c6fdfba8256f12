//! From the text of a grammar in CDDL to its table.
//!
//! [`load`] reads a text and makes its table, in which a value fits the term of a rule exactly if it fits the rule as it is written.
//! [`lower`] does so for rules that were read before. [`line_and_column`] says where a fault is.
//!
//! Strings, groups and arrays are read first. Then the table is made, and beside each place what it was made of. Nothing is proved of how
//! it is made: at last each place is tested against what it was made of, and a table that does not pass is refused.
//!
//! After RFC 8610, in the subset that WebDriver BiDi uses.
#![tactic(auto)]

ghost use Rattle.std.specs.Prelude.{All, IfOk};
ghost use Rattle.bidi_grammar.specs.View.{IsGrounded, table};
ghost use Rattle.bidi_loader.specs.Loading.{IsLoaded, IsThere};

mod bounds;
mod draft;
mod entry;
mod fault;
mod items;
mod lists;
mod lowering;
mod made_map;
mod made_node;
mod making;
mod maps;
mod named;
mod naming;
mod nodes;
mod number;
mod placing;
mod plain;
mod reading;
mod rules;
mod settling;
mod testing;
mod texts;

use bidi_cddl::{Written, read_rules};
pub use bidi_cddl::{LoadFault, Wrong, line_and_column};
pub use lowering::lower;
pub use named::{Loaded, Named};
use std::alloc::Global;

/// Reads a grammar, makes its table, and tests it.
///
/// # Errors
/// No memory, or what is wrong first.
pub fn load(alloc: Global, text: &str) -> Result<Loaded, LoadFault>
    // The table may be asked.
    ensures grounded { IfOk result (λ loaded. IsGrounded (table loaded.terms.items)) }
    // The place of each rule is in the table.
    ensures there { IfOk result (λ loaded. All (IsThere loaded.terms.items) loaded.rules.items) }
    // The text is read as rules, which are all listed, and a value fits the term of a rule exactly if it fits the rule.
    ensures says { IfOk result (λ loaded. IsLoaded text.now loaded) }
{
    let written = read_rules(alloc, text)?;
    let loaded = lower(alloc, &written)?;
    Ok(loaded)
}

// The byte at which a node begins.
pub(crate) fn place_at(written: &Written<'_>, node: usize) -> usize {
    written.places.get(node).copied().unwrap_or(0)
}
