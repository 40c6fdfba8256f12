//! From the rules as they are written to a table that was tested.
ghost use Rattle.std.specs.Prelude.{◌≡◌, length, All, IfOk, IsTrue};
ghost use Rattle.bidi_grammar.specs.Source.{IsMade};
ghost use Rattle.bidi_grammar.specs.View.{IsGrounded, table};
ghost use Rattle.bidi_loader.specs.Loading.{HasRules, IsThere, Says};
ghost use Rattle.bidi_loader.specs.Meaning.{rules_of};
ghost use Rattle.bidi_loader.specs.Readings.{IsReading, source_at};

use crate::fault::fault_at;
use crate::making::{Made, make};
use crate::named::Loaded;
use crate::naming::named_rules;
use crate::reading::{Reading, read};
use crate::testing::is_made;
use bidi_cddl::{LoadFault, Written};
use bidi_grammar::{is_grounded, table_says_what_is_written};
use std::alloc::Global;

/// Makes the table of some rules, and tests it.
///
/// Takes memory for the table.
///
/// # Errors
/// No memory, or what is wrong: a string, a group, an array, a name that no rule has, a rule that is nothing but itself, a limit.
pub fn lower(alloc: Global, written: &Written<'_>) -> Result<Loaded, LoadFault>
    // The table may be asked.
    ensures grounded { IfOk result (λ loaded. IsGrounded (table loaded.terms.items)) }
    // Each rule that is written is listed, in order, and each type has a place.
    ensures rules { IfOk result (λ loaded. HasRules written.now loaded) }
    // The place of each rule is in the table.
    ensures there { IfOk result (λ loaded. All (IsThere loaded.terms.items) loaded.rules.items) }
    // A value fits the term of a rule exactly if it fits the rule as it is written.
    ensures says { IfOk result (λ loaded. All (Says written.now loaded.terms.items) loaded.rules.items) }
{
    let reading = read(alloc, written)?;
    let made = make(alloc, &*written, &reading)?;
    tested(alloc, written, &reading, made)
}

// Tests a table.
fn tested(
    alloc: Global,
    written: &Written<'_>,
    reading: &Reading,
    made: Made,
) -> Result<Loaded, LoadFault>
    ensures grounded { IfOk result (λ loaded. IsGrounded (table loaded.terms.items)) }
    ensures rules { IfOk result (λ loaded. HasRules written.now loaded) }
    ensures there { IfOk result (λ loaded. All (IsThere loaded.terms.items) loaded.rules.items) }
    ensures says { IsReading written.now reading.now → IfOk result (λ loaded. All (Says written.now loaded.terms.items) loaded.rules.items) }
{
    table_says_what_is_written();
    if !is_right(written, reading, &made) {
        return Err(fault_at(alloc, 0, "a table that does not say what is written"));
    }
    let rules = named_rules(alloc, written, reading, &made)?;
    Ok(Loaded {
        terms: made.terms,
        rules,
    })
}

// Whether a table may be asked and each place passes its test.
fn is_right(written: &Written<'_>, reading: &Reading, made: &Made) -> bool
    ensures grounded { IsTrue result → IsGrounded (table made.now.terms.items) }
    ensures long { IsTrue result → length made.now.terms.items ≡ length made.now.origins.items }
    ensures made { IsTrue result → IsReading written.now reading.now
        → IsMade (rules_of written.now) (table made.now.terms.items) (source_at written.now reading.now made.now.origins.items) }
{
    if made.terms.len() != made.origins.len() {
        return false;
    }
    if !is_grounded(&made.terms) {
        return false;
    }
    is_made(written, reading, &made.terms, &made.origins)
}
