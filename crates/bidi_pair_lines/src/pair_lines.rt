//! Pair lines: reading one as a step of both ends.
ghost use Rattle.std.specs.Prelude.{◌≡◌, ℕ, List, ◌∷◌, ◌++◌, Some, None, codes, IfOk, IfSome, IfNone};
ghost use Rattle.bidi_tree.specs.Text.{tree_of_text};
ghost use Rattle.bidi_methods.specs.Method.{method_text};
ghost use Rattle.bidi_methods.specs.declared.command_data.CommandData.{CommandData};
ghost use Rattle.bidi_methods.specs.declared.method.Method.{Method};
ghost use Rattle.bidi_sessions.specs.View.{step_of};
ghost use Rattle.bidi_ledger.specs.Steps.{IsWell};
ghost use Rattle.bidi_ledger.specs.declared.pair_step.PairStep.{PairStep};
ghost use Rattle.bidi_ledger.specs.declared.pair_step.PairStep.TheVariants.{Send};
ghost use Rattle.bidi_pair_lines.specs.PairLines.{IsOfPlayAlone, IsPairLine, IsPlayLine, Says, SaysNoStep, sending_line};

use bidi_ledger::PairStep;
use bidi_messages::{CommandData, Method, Named, Payload};
use bidi_play::{is_same_text, read_number, read_step_text, split_at_space};
use bidi_remote::Step;
use bidi_shape::{Parsed, ShapeFault};
use bidi_tree::{JsUint, ReadFault, parse};
use json::Scratch;
use std::alloc::{AllocError, Global};

/// Reads a line as a step of both ends; `None` if it is not a pair line. The params of a command are read
/// with a scratch that the caller keeps from line to line.
///
/// # Errors
/// No memory: an allocation failed.
pub fn read_pair_step(
    alloc: Global,
    line: &[u8],
    scratch: &mut Scratch,
) -> Result<Option<PairStep>, AllocError>
    // If there is a step, the line is that of this step, which can be taken.
    ensures some { IfOk result (λ found. IfSome found (IsPairLine line.now)) }
    // `None` comes only if the line is not that of any step.
    ensures none { IfOk result (λ found. IfNone found (SaysNoStep line.now)) }
{
    match std::str::from_utf8(line) {
        Err(_) => Ok(None),
        Ok(text) => read_pair_words(alloc, text, scratch),
    }
}

// Reads a text as a step of both ends. A step of a page, an opening and one of the clock have the
// lines of a play.
fn read_pair_words(
    alloc: Global,
    line: &str,
    scratch: &mut Scratch,
) -> Result<Option<PairStep>, AllocError>
    ensures some { IfOk result (λ found. IfSome found (λ x. Says line.now x × IsWell x)) }
    ensures none { IfOk result (λ found. IfNone found ((x : PairStep) → IsWell x → Says line.now x → ⊥)) }
{
    let Some((word, rest)) = split_at_space(line) else {
        return Ok(None);
    };
    if is_same_text(word, "send") {
        read_sending(alloc, rest, scratch)
    } else if is_same_text(word, "up") {
        Ok(read_number(rest).map(PairStep::Up))
    } else if is_same_text(word, "down") {
        Ok(read_number(rest).map(PairStep::Down))
    } else if is_same_text(word, "cut") {
        Ok(read_number(rest).map(PairStep::Cut))
    } else {
        match read_step_text(alloc, line)? {
            None => Ok(None),
            Some(step) => Ok(pair_step(step)),
        }
    }
}

// Turns a step of a play into one of both ends; `None` for a drop and for a message on a
// connection.
fn pair_step(step: Step) -> Option<PairStep>
    ensures some { IfSome result (λ x. (line : List ℕ) → IsPlayLine line (step_of step) → Says line x × IsWell x) }
    ensures none { IfNone result (IsOfPlayAlone (step_of step)) }
{
    match step {
        Step::At(moment) => Some(PairStep::At(moment)),
        Step::Open(link, resource) => Some(PairStep::Open(link, resource)),
        Step::Page(page) => Some(PairStep::Page(page)),
        _ => None,
    }
}

// Reads a link, the method after the first space, and the params after the next.
fn read_sending(
    alloc: Global,
    rest: &str,
    scratch: &mut Scratch,
) -> Result<Option<PairStep>, AllocError>
    ensures some { IfOk result (λ found. IfSome found (λ x. Says (codes "send " ++ rest.now) x × IsWell x)) }
    ensures none { IfOk result (λ found. IfNone found ((l : JsUint) (d : CommandData) → IsWell (Send l d) → Says (codes "send " ++ rest.now) (Send l d) → ⊥)) }
{
    let Some((number, command)) = split_at_space(rest) else {
        return Ok(None);
    };
    let Some((method, params)) = method_and_params(command) else {
        return Ok(None);
    };
    match read_number(number) {
        None => Ok(None),
        Some(link) => read_command(alloc, link, method, params, scratch),
    }
}

// Reads a method, and the text after the first space.
fn method_and_params(command: &str) -> Option<(Method, &str)>
    ensures some { IfSome result (λ x. command.now ≡ method_text x.0 ++ 32 ∷ x.1.now) }
    ensures none { IfNone result ((m : Method) (params : List ℕ) → command.now ≡ method_text m ++ 32 ∷ params → ⊥) }
{
    let (name, params) = split_at_space(command)?;
    let method = Method::named(name)?;
    Some((method, params))
}

// Makes the step that sends a command; `None` if the text does not fit the rule of the method's
// params.
fn read_command(
    alloc: Global,
    link: JsUint,
    method: Method,
    params: &str,
    scratch: &mut Scratch,
) -> Result<Option<PairStep>, AllocError>
    ensures some { IfOk result (λ found. IfSome found (λ x. Says (sending_line link.value (method_text method) params.now) x × IsWell x)) }
    ensures none { IfOk result (λ found. IfNone found
        ((d : CommandData) → IsWell (Send link d) → Says (sending_line link.value (method_text method) params.now) (Send link d) → ⊥)) }
{
    match parse(alloc, params, None, scratch) {
        Ok(value) => sending(alloc, link, method, &value),
        Err(ReadFault::NotJson) => Ok(None),
        Err(ReadFault::TooLong) => Ok(None),
        Err(ReadFault::NoMemory) => Err(AllocError),
    }
}

// Makes the step that sends a command with these params; `None` if they do not fit the rule.
fn sending<S: Parsed>(
    alloc: Global,
    link: JsUint,
    method: Method,
    params: &S,
) -> Result<Option<PairStep>, AllocError>
    ensures some { (text : List ℕ) → tree_of_text None text ≡ Some (S.tree params.now)
        → IfOk result (λ found. IfSome found (λ x. Says (sending_line link.value (method_text method) text) x × IsWell x)) }
    ensures none { (text : List ℕ) → tree_of_text None text ≡ Some (S.tree params.now)
        → IfOk result (λ found. IfNone found ((d : CommandData) → IsWell (Send link d) → Says (sending_line link.value (method_text method) text) (Send link d) → ⊥)) }
{
    match CommandData::read(alloc, method, params) {
        Ok(data) => Ok(Some(PairStep::Send(link, data))),
        Err(ShapeFault::NoFit) => Ok(None),
        Err(ShapeFault::NoMemory) => Err(AllocError),
    }
}
