//! Easing commands that ask for more than the profile has.
ghost use Rattle.std.specs.Prelude.{◌≡◌, ◌<◌, [], IfOk, IfSome, None, Some, codes, length, map, option_map, string_bytes};
ghost use Rattle.bidi_tree.specs.Node.{Node, IsWritable, get_of};
ghost use Rattle.bidi_tree.specs.Text.{tree_of};
ghost use Rattle.bidi_tree.specs.View.{node};
ghost use Rattle.bidi_lenient.specs.Methods.{IsAbout};
ghost use Rattle.bidi_lenient.specs.Reports.{told, told_by};
ghost use Rattle.bidi_lenient.specs.Eased.{eased, eased_by, eased_with, eased_command, eased_text, close_eased, is_changed, text_by, seen};

use crate::capabilities::{ease_new, tell_new};
use crate::members::with_member;
use crate::method::{Method, is_about, method_of};
use crate::names::tell_subscribe;
use crate::scripts::{ease_disown, ease_script, tell_disown, tell_script};
use crate::unsubscribing::{ease_unsubscribe, tell_unsubscribe};
use bidi_shape::MAX_BYTES;
use bidi_tree::{ReadFault, Tree, read, write};
use std::alloc::{AllocError, Global};

/// The report on a `browser.close`.
const TOOK_CLOSE: &str = "took browser.close as session.end";

/// What becomes of a command that asks for more than the profile has.
#[derive(Drop)]
pub struct Eased {
    /// The compact text that takes the place of the client's. `None` means that the client's text stays.
    pub text: Option<String>,
    /// What was done, at least one thing: `left out capability NAME`, `held event NAME`, `held module NAME`,
    /// `refused contexts of session.unsubscribe`, `left out sourceURL`, `left out sandbox NAME`,
    /// `left out a sandbox` or `took browser.close as session.end`. A NAME has 1 to 255 letters, digits, `.`,
    /// `:`, `-` and `_`.
    pub reports: Vec<String>,
}

/// Eases a client's command: makes of it one that the profile takes. `None` means that it asks for nothing
/// beyond the profile: pass the text on unchanged.
///
/// - `session.new` loses capabilities, in `params.capabilities.alwaysMatch` and in each item of `firstMatch`.
///   `acceptInsecureCerts`, `setWindowRect`, `strictFileInteractability` and `webSocketUrl` are left out if
///   they are Booleans, `browserName`, `browserVersion`, `pageLoadStrategy` and `platformName` if they are
///   strings, `proxy` and `timeouts` if they are objects, and `unhandledPromptBehavior` if it is a string or
///   an object. A value of another kind stays, and is refused as usual.
/// - `session.subscribe` stays. Its names that the profile does not have are reported as held: a host makes
///   all names known.
/// - `session.unsubscribe` with `params.contexts` gets empty params, so that the remote end refuses it.
/// - `script.evaluate`, `script.callFunction` and `script.disown` lose `params.target.sandbox`, if it is a
///   string that is not empty. The first two also lose a last line of the script that begins with
///   `//# sourceURL=`, with the line feeds before and behind it.
/// - `browser.close` becomes a `session.end` with the same id and params.
///
/// Everything else stays, and is written as compact JSON: the last of members with the same name, and members
/// in byte order of their names.
///
/// A text is unchanged if it is another command, is not JSON, or is longer than a command may be (1,048,576
/// bytes). It is also unchanged if it has more than 100 levels, if it has a number that cannot be written
/// back (`-0`, one with a fraction or an exponent, or one past 2^53 - 1), even in a part that would be left
/// out, or if the name of its method has an escape.
///
/// The call is made for every text of a client. A text that contains the name of no such method is searched
/// seven times and takes no memory. For others a tree is made, and a few copies of it if it is changed.
///
/// # Errors
/// No memory: an allocation failed.
///
/// After WebDriver BiDi, "The session.new Command", "The session.subscribe Command", "The script.ContextTarget
/// Type" and "The browser.close Command".
#[tactic(auto, using(crate::proofs::IdLemmas::id_eased))]
pub fn ease(alloc: Global, text: &str) -> Result<Option<Eased>, AllocError>
    // If the text names one of these methods, the result is the eased text of the definition.
    ensures about { IsAbout text.now → IfOk result (λ r. option_map seen r ≡ eased_text text.now) }
    // If the text names none of these methods, it stays as it came.
    ensures as_it_came { (IsAbout text.now → ⊥) → IfOk result (λ r. r ≡ None) }
    // If the text is a command that asks for nothing beyond the profile, it stays as it came.
    ensures nothing_beyond { (t : Node) → tree_of text.now ≡ Some t → told t ≡ [] → IfOk result (λ r. r ≡ None) }
    // The command without what the profile does not have keeps its id.
    ensures same_id { (t : Node) → get_of (codes "id") (eased t) ≡ get_of (codes "id") t }
    // If there is a result, it has at least one report.
    ensures reports { IfOk result (λ r. IfSome r (λ e. 0 < length e.reports.items)) }
    // If there is another text, it reads back as the command without what the profile does not have.
    ensures reads_back { IfOk result (λ r. IfSome r (λ e. IfSome e.text (λ s. (t : Node) → tree_of text.now ≡ Some t → tree_of (string_bytes s) ≡ Some (eased t)))) }
{
    if !is_about(text) {
        return Ok(None);
    }
    match read(alloc, text, Some(MAX_BYTES)) {
        Ok(command) => ease_command(alloc, &command),
        Err(ReadFault::NoMemory) => Err(AllocError),
        Err(ReadFault::NotJson | ReadFault::TooLong) => Ok(None),
    }
}

// Eases a command that was read.
fn ease_command(alloc: Global, command: &Tree) -> Result<Option<Eased>, AllocError>
    ensures eased { IfOk result (λ r. option_map seen r ≡ eased_command (node command.now)) }
    ensures reports { IfOk result (λ r. IfSome r (λ e. 0 < length e.reports.items)) }
    ensures reads_back { IfOk result (λ r. IfSome r (λ e. IfSome e.text (λ s. tree_of (string_bytes s) ≡ Some (eased (node command.now))))) }
{
    if !command.is_writable() {
        return Ok(None);
    }
    match method_of(command) {
        Some(method) => ease_with(alloc, method, command),
        None => Ok(None),
    }
}

// Eases a command of this method.
fn ease_with(alloc: Global, method: Method, command: &Tree) -> Result<Option<Eased>, AllocError>
    requires { IsWritable (node command.now) }
    ensures eased { IfOk result (λ r. option_map seen r ≡ eased_with method (node command.now)) }
    ensures reports { IfOk result (λ r. IfSome r (λ e. 0 < length e.reports.items)) }
    ensures reads_back { IfOk result (λ r. IfSome r (λ e. IfSome e.text (λ s. tree_of (string_bytes s) ≡ Some (eased_by method (node command.now))))) }
{
    let reports = tell(alloc, method, command)?;
    if reports.is_empty() {
        return Ok(None);
    }
    let text = text_of(alloc, method, command)?;
    Ok(Some(Eased { text, reports }))
}

// The text of a command of this method when it is eased. That of a subscription stays.
fn text_of(alloc: Global, method: Method, command: &Tree) -> Result<Option<String>, AllocError>
    requires { IsWritable (node command.now) }
    ensures text { IfOk result (λ r. option_map string_bytes r ≡ text_by method (node command.now)) }
    ensures reads_back { IfOk result (λ r. IfSome r (λ s. tree_of (string_bytes s) ≡ Some (eased_by method (node command.now)))) }
{
    if !is_changed(method) {
        return Ok(None);
    }
    let eased = ease_tree(alloc, method, command)?;
    Ok(Some(write(alloc, &eased)?))
}

// Whether a command of this method gets another text.
fn is_changed(method: Method) -> bool
    ensures { result ≡ is_changed method }
{
    match method {
        Method::Subscribe => false,
        _ => true,
    }
}

// The report on a command of this method.
fn tell(alloc: Global, method: Method, command: &Tree) -> Result<Vec<String>, AllocError>
    ensures { IfOk result (λ v. map string_bytes v.items ≡ told_by method (node command.now)) }
{
    let mut told = Vec::new(alloc);
    match method {
        Method::New => tell_new(alloc, command, &mut told)?,
        Method::Subscribe => tell_subscribe(alloc, command, &mut told)?,
        Method::Unsubscribe => tell_unsubscribe(alloc, command, &mut told)?,
        Method::Evaluate => tell_script(alloc, command, "expression", &mut told)?,
        Method::CallFunction => tell_script(alloc, command, "functionDeclaration", &mut told)?,
        Method::Disown => tell_disown(alloc, command, &mut told)?,
        Method::Close => told.push(String::from_str(alloc, TOOK_CLOSE)?)?,
    }
    Ok(told)
}

// Makes a command of this method without what the profile does not have.
fn ease_tree(alloc: Global, method: Method, command: &Tree) -> Result<Tree, AllocError>
    ensures { IfOk result (λ t. node t ≡ eased_by method (node command.now)) }
{
    match method {
        Method::New => ease_new(alloc, command),
        Method::Subscribe => command.clone(),
        Method::Unsubscribe => ease_unsubscribe(alloc, command),
        Method::Evaluate => ease_script(alloc, command, "expression"),
        Method::CallFunction => ease_script(alloc, command, "functionDeclaration"),
        Method::Disown => ease_disown(alloc, command),
        Method::Close => ease_close(alloc, command),
    }
}

// Makes a `session.end` of a `browser.close`.
fn ease_close(alloc: Global, command: &Tree) -> Result<Tree, AllocError>
    ensures { IfOk result (λ t. node t ≡ close_eased (node command.now)) }
{
    let end = Tree::Text(String::from_str(alloc, "session.end")?);
    with_member(alloc, command, "method", end)
}
