//! Reading the rules of a text.
ghost use Rattle.std.specs.Prelude.{◌≡◌, ◌≤◌, ℕ, Err, IfErr, IfOk, length, map};
ghost use Rattle.bidi_cddl.specs.Definition.{RulesRead, rule_of};
ghost use Rattle.bidi_cddl.specs.Reading.{IsRead, most_bytes};
ghost use Rattle.bidi_cddl.specs.Steps.{nodes_of, tokens_of};
ghost use Rattle.bidi_cddl.specs.Tokens.{IfWrongAt, placed_tokens};

use crate::definition_steps::is_read;
use crate::fault::{LoadFault, fault_at};
use crate::parser::Parser;
use crate::rules::rules_of;
use crate::token::Placed;
use crate::tokens::tokens;
use crate::written::Written;
use std::alloc::Global;

/// The most bytes of a text.
const MAX_BYTES: usize = 1_048_576;

/// Reads the rules of a text.
///
/// Takes time in the product of the numbers of rules and of definitions at most, and memory in the length of the text.
///
/// # Errors
/// No memory, or what is wrong: more than 1 MiB of text; a byte at which no token begins; the first token that is not what has to be there,
/// a form that is left out, or more than 64 nested brackets; a rule that is defined twice, a type that is added to a group or a group to a
/// type, or more than 4,096 rules.
pub fn read_rules<'t>(alloc: Global, text: &'t str) -> Result<Written<'t>, LoadFault>
    // The text has tokens, and these are read as the rules.
    ensures ok { IfOk result (λ w. IsRead text.now (nodes_of w.nodes.items) (map rule_of w.rules.items)) }
    // If no token begins at a byte of a text that is not too long, the first such byte is the place of the fault.
    ensures place { length text.now ≤ most_bytes → IfErr result (λ fault. IfWrongAt fault (λ at. (n : ℕ) → placed_tokens text.now ≡ Err n → at ≡ n)) }
{
    if text.len() > MAX_BYTES {
        return Err(fault_at(alloc, MAX_BYTES, "a text of more than 1 MiB"));
    }
    match tokens(alloc, text) {
        Ok(found) => rules_in(alloc, text, &found),
        Err(fault) => Err(fault),
    }
}

// The rules that some tokens of a text are read as.
fn rules_in<'t>(
    alloc: Global,
    text: &'t str,
    tokens: &[Placed<'t>],
) -> Result<Written<'t>, LoadFault>
    ensures { IfOk result (λ w. RulesRead (nodes_of w.nodes.items) (map rule_of w.rules.items) (tokens_of tokens.now)) }
{
    let mut parser = Parser::new(alloc, text, tokens);
    let definitions = parser.definitions()?;
    let written = rules_of(alloc, parser.nodes, parser.places, &definitions)?;
    if !is_read(tokens, &written.nodes, &parser.steps, &definitions) {
        return Err(fault_at(alloc, 0, "a reading that is not right"));
    }
    Ok(written)
}
