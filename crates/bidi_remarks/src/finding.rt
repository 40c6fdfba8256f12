//! What is wrong with a line that is refused.
ghost use Rattle.std.specs.Prelude.{◌≡◌, ℕ, List, Some, false, IfOk, MatchResult, option_map};
ghost use Rattle.bidi_tree.specs.Json.{parsed};
ghost use Rattle.bidi_tree.specs.Outline.{outline_node};
ghost use Rattle.bidi_rules.specs.Names.{name_of};
ghost use Rattle.bidi_shape.specs.Term.{rule};
ghost use Rattle.bidi_shape.specs.Fits.{Fits};
ghost use Rattle.bidi_show.specs.MessageLines.{HasTree, Refuses};
ghost use Rattle.bidi_lines.specs.declared.side.Side.TheVariants.{Local, Remote};
ghost use Rattle.bidi_messages.specs.Verdict.{echoed_id};
ghost use Rattle.bidi_syntax.specs.Surrogates.{mended};
ghost use Rattle.bidi_remarks.specs.Trouble.{HasId, HasMisfitOf, HasNoTree, HasTrouble, HasTroubleAt, IsIdIn, IsTrouble, begins_with_mark, has_odd_id, is_beyond, is_too_large, method_beyond, misfit_of, rule_of, trouble_of};

use crate::bad_text::BadText;
use crate::misfit::{Misfit, find_misfit, id, method};
use bidi_blame::Name;
use bidi_lines::Side;
use bidi_messages::Command;
use bidi_shape::{MAX_BYTES, Shape, ShapeFault};
use bidi_show::value_refusal;
use bidi_syntax::{Fault, fault_of, mended};
use bidi_tree::{JsUint, Outline, ReadFault, outline_parsed, parse};
use json::{Scratch, Value};
use std::alloc::{AllocError, Global};

/// What is wrong with a line that is refused.
#[derive(Drop)]
pub enum Trouble {
    /// It is no text to judge.
    Bad(BadText),
    /// Its tree does not fit the rule of its end.
    NoFit(Misfit),
}

/// Whether it is wrong for the profile, and not for the W3C's draft.
pub(crate) fn is_beyond(trouble: &Trouble) -> bool
    ensures { result ≡ is_beyond (trouble_of trouble.now) }
{
    match trouble {
        Trouble::Bad(_) => false,
        Trouble::NoFit(misfit) => misfit.is_beyond,
    }
}

/// The method of a message that is wrong for the profile and not for the W3C's draft, if it has one. Takes no memory.
pub fn method_beyond(trouble: &Trouble) -> Option<&str>
    // The result is the method of the message, if it is wrong for the profile alone.
    ensures { option_map (λ method. method.now) result ≡ method_beyond (trouble_of trouble.now) }
{
    match trouble {
        Trouble::Bad(_) => None,
        Trouble::NoFit(misfit) if misfit.is_beyond => method_in(misfit),
        Trouble::NoFit(_) => None,
    }
}

// The method of the message that does not fit.
fn method_in(misfit: &Misfit) -> Option<&str>
    ensures { option_map (λ method. method.now) result ≡ (misfit_of misfit.now).method }
{
    match &misfit.method {
        Some(method) => Some(method.as_str()),
        None => None,
    }
}

/// What is wrong with a line of this number, where its end refuses it.
///
/// The line is read once. Only of one whose tree does not fit an outline is made.
pub(crate) fn look_for_trouble(
    alloc: Global,
    side: Side,
    number: u64,
    line: &[u8],
    scratch: &mut Scratch,
) -> Result<Option<Trouble>, AllocError>
    ensures { IfOk result (λ found. HasTroubleAt side number line.now (option_map trouble_of found)) }
{
    let Some(trouble) = text_trouble(alloc, side, line, scratch)? else {
        return Ok(None);
    };
    if begins_with_mark(number, line) {
        return Ok(Some(Trouble::Bad(BadText::ByteOrderMark)));
    }
    Ok(Some(trouble))
}

// The same, where a byte order mark is as any other character.
fn text_trouble(
    alloc: Global,
    side: Side,
    line: &[u8],
    scratch: &mut Scratch,
) -> Result<Option<Trouble>, AllocError>
    ensures { IfOk result (λ found. HasTrouble side line.now (option_map trouble_of found)) }
{
    match value_in(alloc, line, scratch)? {
        Ok(_) if is_too_large(side, line) => Ok(Some(Trouble::Bad(BadText::TooLarge))),
        Ok(value) => value_trouble(alloc, side, &value),
        Err(bad) => Ok(Some(Trouble::Bad(bad))),
    }
}

// What is wrong with a line that is not too large and reads as this value, where it is refused.
fn value_trouble(
    alloc: Global,
    side: Side,
    value: &Value<'_>,
) -> Result<Option<Trouble>, AllocError>
    ensures { IfOk result (λ found. (line : List ℕ) → HasTree line (parsed value.now) → is_too_large side line ≡ false
        → HasTrouble side line (option_map trouble_of found)) }
{
    match side {
        Side::Local => command_trouble(alloc, value),
        Side::Remote => message_trouble(alloc, value),
    }
}

// The same of a line of a local end.
fn command_trouble(alloc: Global, value: &Value<'_>) -> Result<Option<Trouble>, AllocError>
    ensures { IfOk result (λ found. (line : List ℕ) → HasTree line (parsed value.now) → is_too_large Local line ≡ false
        → HasTrouble Local line (option_map trouble_of found)) }
{
    match Command::from_tree(alloc, value).err() {
        None => Ok(None),
        Some(ShapeFault::NoFit) => {
            Ok(Some(Trouble::NoFit(misfit_in(alloc, Side::Local, value)?)))
        }
        Some(ShapeFault::NoMemory) => Err(AllocError),
    }
}

// The same of a line of a remote end, of any size.
fn message_trouble(alloc: Global, value: &Value<'_>) -> Result<Option<Trouble>, AllocError>
    ensures { IfOk result (λ found. (line : List ℕ) → HasTree line (parsed value.now) → HasTrouble Remote line (option_map trouble_of found)) }
{
    if value_refusal(alloc, value)?.is_none() {
        return Ok(None);
    }
    Ok(Some(Trouble::NoFit(misfit_in(alloc, Side::Remote, value)?)))
}

/// What is wrong with a refused line that begins with no byte order mark.
///
/// # Errors
/// No memory: an allocation failed.
pub fn trouble_in(
    alloc: Global,
    side: Side,
    line: &[u8],
    scratch: &mut Scratch,
) -> Result<Trouble, AllocError>
    // The line is refused as a message of this end.
    requires { (text : List ℕ) × Refuses side line.now (Some text) }
    // What is found is wrong with the line.
    ensures { IfOk result (λ found. IsTrouble side line.now (trouble_of found)) }
{
    match value_in(alloc, line, scratch)? {
        Ok(_) if is_too_large(side, line) => Ok(Trouble::Bad(BadText::TooLarge)),
        Ok(value) => Ok(Trouble::NoFit(misfit_in(alloc, side, &value)?)),
        Err(bad) => Ok(Trouble::Bad(bad)),
    }
}

// Whether a text has more bytes than a command may have.
fn is_too_large(side: Side, text: &[u8]) -> bool
    ensures { result ≡ is_too_large side text.now }
{
    match side {
        Side::Local => text.len() > MAX_BYTES,
        Side::Remote => false,
    }
}

/// The id in a text that is no message, for this reason.
///
/// # Errors
/// No memory: an allocation failed.
pub fn id_in(
    alloc: Global,
    text: &[u8],
    why: &Trouble,
    scratch: &mut Scratch,
) -> Result<Option<JsUint>, AllocError>
    // The id is that of the tree that does not fit. A text with a lone surrogate has the id that it has with U+FFFD there; any other text without a
    // tree has none.
    ensures { IfOk result (λ id. IsIdIn text.now (trouble_of why.now) (option_map (λ n. n.value) id)) }
{
    match why {
        Trouble::NoFit(misfit) => Ok(misfit.id),
        Trouble::Bad(BadText::NotJson(Some(Fault::LoneSurrogate(_)))) => {
            mended_id(alloc, text, scratch)
        }
        Trouble::Bad(_) => Ok(None),
    }
}

// The id in a text with U+FFFD for each lone surrogate.
fn mended_id(
    alloc: Global,
    text: &[u8],
    scratch: &mut Scratch,
) -> Result<Option<JsUint>, AllocError>
    ensures { IfOk result (λ id. HasId (mended text.now) (option_map (λ n. n.value) id)) }
{
    let mended = mended(alloc, text)?;
    line_id(alloc, &mended, scratch)
}

// The id in a line, if it has a tree with one.
fn line_id(alloc: Global, line: &[u8], scratch: &mut Scratch) -> Result<Option<JsUint>, AllocError>
    ensures { IfOk result (λ id. HasId line.now (option_map (λ n. n.value) id)) }
{
    match value_in(alloc, line, scratch)? {
        Ok(value) => value_id(alloc, &value),
        Err(_bad) => Ok(None),
    }
}

// The id in a value, if it is a js-uint.
fn value_id(alloc: Global, value: &Value<'_>) -> Result<Option<JsUint>, AllocError>
    ensures { IfOk result (λ found. option_map (λ n. n.value) found ≡ echoed_id (parsed value.now)) }
{
    let outline = outline_parsed(alloc, value)?;
    Ok(id(&outline))
}

/// Whether a text does not fit because its id is a number with a fraction, an exponent or out of range. Takes no memory.
pub fn has_odd_id(why: &Trouble) -> bool
    // The place is that of the id, and an odd number is there.
    ensures { result ≡ has_odd_id (trouble_of why.now) }
{
    match why {
        Trouble::Bad(_) => false,
        Trouble::NoFit(misfit) => {
            misfit.pointer.as_str() == "/id"
                && misfit.has.as_str() == "a number with a fraction or out of range"
        }
    }
}

/// Whether the line is the first of an input, and begins with a byte order mark. Takes no memory.
pub fn begins_with_mark(number: u64, line: &[u8]) -> bool
    // The result says whether the number is 1 and the line begins with the mark.
    ensures { result ≡ begins_with_mark number line.now }
{
    number == 1 && line.starts_with(b"\xEF\xBB\xBF")
}

// What a line is read as, or why it has no tree.
fn value_in<'a>(
    alloc: Global,
    line: &'a [u8],
    scratch: &'a mut Scratch,
) -> Result<Result<Value<'a>, BadText>, AllocError>
    ensures { IfOk result (λ read. MatchResult read (λ v. HasTree line.now (parsed v)) (HasNoTree line.now)) }
{
    let text = match std::str::from_utf8(line) {
        Ok(text) => text,
        Err(error) => return Ok(Err(BadText::NoUtf8(error.valid_up_to() + 1))),
    };
    match parse(alloc, text, None, scratch) {
        Ok(value) => Ok(Ok(value)),
        Err(ReadFault::NotJson) => Ok(Err(BadText::NotJson(fault_of(alloc, line)?))),
        Err(ReadFault::TooLong) => unreachable!(),
        Err(ReadFault::NoMemory) => Err(AllocError),
    }
}

// The misfit of a value whose tree does not fit the rule of its end.
fn misfit_in(alloc: Global, side: Side, value: &Value<'_>) -> Result<Misfit, AllocError>
    requires { Fits (parsed value.now) (rule (rule_of side)) → ⊥ }
    ensures { IfOk result (λ m. HasMisfitOf side (parsed value.now) (misfit_of m)) }
{
    let outline = outline_parsed(alloc, value)?;
    outline_misfit(alloc, side, &outline)
}

// The misfit of a tree that does not fit the rule of its end.
fn outline_misfit(alloc: Global, side: Side, tree: &Outline<'_>) -> Result<Misfit, AllocError>
    requires { Fits (outline_node tree.now) (rule (rule_of side)) → ⊥ }
    ensures { IfOk result (λ m. HasMisfitOf side (outline_node tree.now) (misfit_of m)) }
{
    find_misfit(alloc, rule_for(side), id(tree), method(tree), tree)
}

// The rule of the texts of an end.
fn rule_for(side: Side) -> Name
    ensures { name_of result ≡ rule_of side }
{
    match side {
        Side::Local => Name::Command,
        Side::Remote => Name::Message,
    }
}
