//! Sandboxes and source URLs in commands about scripts.
ghost use Rattle.std.specs.Prelude.{◌≡◌, ◌++◌, IfOk, OnOk, codes, map, option_map, string_bytes, unwrap_or};
ghost use Rattle.bidi_tree.specs.Node as tree;
ghost use Rattle.bidi_tree.specs.View.{node, members_node};
ghost use Rattle.bidi_lenient.specs.Source.{before_source};
ghost use Rattle.bidi_lenient.specs.Names.{is_sandbox, non_empty, sandbox_in};
ghost use Rattle.bidi_lenient.specs.Members.{members_kept, within};
ghost use Rattle.bidi_lenient.specs.Reports.{target_told, name_of_sandbox_told, source_told, script_told, sandbox_told, params_told};
ghost use Rattle.bidi_lenient.specs.Eased.{source_eased, script_params_eased, script_eased, target_eased, disown_eased};

use crate::members::within;
use crate::names::is_name;
use crate::source::before_source;
use bidi_tree::{Members, Tree};
use std::alloc::{AllocError, Global};

/// The report on a source URL.
const LEFT_OUT_SOURCE: &str = "left out sourceURL";

/// The report on a sandbox whose name is not one of 1 to 255 letters, digits, `.`, `:`, `-` and `_`.
const LEFT_OUT_SANDBOX: &str = "left out a sandbox";

// Whether a member of a target is a sandbox that is left out.
fn is_sandbox(name: &str, value: &Tree) -> bool
    ensures { result ≡ is_sandbox name.now (node value.now) }
{
    match value {
        Tree::Text(text) => name == "sandbox" && !text.is_empty(),
        _ => false,
    }
}

// The name of the sandbox of a target, if it is left out.
fn sandbox_of(target: &Tree) -> Option<&str>
    ensures { option_map (λ s. s.now) result ≡ sandbox_in (node target.now) }
{
    match target.get("sandbox") {
        Some(Tree::Text(name)) => non_empty(name.as_str()),
        _ => None,
    }
}

// The text, unless it is empty.
fn non_empty(text: &str) -> Option<&str>
    ensures { option_map (λ s. s.now) result ≡ non_empty text.now }
{
    if text.is_empty() { None } else { Some(text) }
}

// Adds the report on a command that runs a script, which is the member of this name of the params.
pub(crate) fn tell_script(
    alloc: Global,
    command: &Tree,
    name: &str,
    told: &mut Vec<String>,
) -> Result<(), AllocError>
    ensures { OnOk result (map string_bytes told.new.items ≡ map string_bytes told.old.items ++ script_told name.now (node command.now)) }
{
    match command.get("params") {
        Some(params) => tell_params(alloc, params, name, told),
        None => Ok(()),
    }
}

// Adds the report on its params: on the script, and then on the target.
fn tell_params(
    alloc: Global,
    params: &Tree,
    name: &str,
    told: &mut Vec<String>,
) -> Result<(), AllocError>
    ensures { OnOk result (map string_bytes told.new.items ≡ map string_bytes told.old.items ++ params_told name.now (node params.now)) }
{
    if let Some(script) = params.get(name) {
        tell_source(alloc, script, told)?;
    }
    match params.get("target") {
        Some(target) => tell_target(alloc, target, told),
        None => Ok(()),
    }
}

// Adds the report on a script.
fn tell_source(alloc: Global, script: &Tree, told: &mut Vec<String>) -> Result<(), AllocError>
    ensures { OnOk result (map string_bytes told.new.items ≡ map string_bytes told.old.items ++ source_told (node script.now)) }
{
    let Tree::Text(text) = script else {
        return Ok(());
    };
    if before_source(text.as_str()).is_some() {
        told.push(String::from_str(alloc, LEFT_OUT_SOURCE)?)?;
    }
    Ok(())
}

// Adds the report on a `script.disown`.
pub(crate) fn tell_disown(
    alloc: Global,
    command: &Tree,
    told: &mut Vec<String>,
) -> Result<(), AllocError>
    ensures { OnOk result (map string_bytes told.new.items ≡ map string_bytes told.old.items ++ sandbox_told (node command.now)) }
{
    let Some(params) = command.get("params") else {
        return Ok(());
    };
    match params.get("target") {
        Some(target) => tell_target(alloc, target, told),
        None => Ok(()),
    }
}

// Adds the report on a target.
fn tell_target(alloc: Global, target: &Tree, told: &mut Vec<String>) -> Result<(), AllocError>
    ensures { OnOk result (map string_bytes told.new.items ≡ map string_bytes told.old.items ++ target_told (node target.now)) }
{
    if let Some(name) = sandbox_of(target) {
        told.push(sandbox_report(alloc, name)?)?;
    }
    Ok(())
}

// The report on a sandbox of this name.
fn sandbox_report(alloc: Global, name: &str) -> Result<String, AllocError>
    ensures { IfOk result (λ s. string_bytes s ≡ name_of_sandbox_told name.now) }
{
    if is_name(name) {
        format!(in alloc; "left out sandbox {name}")
    } else {
        String::from_str(alloc, LEFT_OUT_SANDBOX)
    }
}

// Makes a command that runs a script, without the sandbox and without the source URL. The script is the
// member of this name of the params.
pub(crate) fn ease_script(alloc: Global, command: &Tree, name: &str) -> Result<Tree, AllocError>
    ensures { IfOk result (λ t. node t ≡ script_eased name.now (node command.now)) }
{
    within(
        alloc,
        command,
        "params",
        |params| ease_script_params(alloc, params, name),
    )
}

// Makes its params.
fn ease_script_params(alloc: Global, params: &Tree, name: &str) -> Result<Tree, AllocError>
    ensures { IfOk result (λ t. node t ≡ script_params_eased name.now (node params.now)) }
{
    let eased = within(alloc, params, name, |script| ease_source(alloc, script))?;
    within(alloc, &eased, "target", ease_target)
}

// Makes a script without its source URL.
fn ease_source(alloc: Global, script: &Tree) -> Result<Tree, AllocError>
    ensures { IfOk result (λ t. node t ≡ source_eased (node script.now)) }
{
    match script.clone()? {
        Tree::Text(text) => ease_text(alloc, text.as_str()),
        other => Ok(other),
    }
}

// Makes the text of a script without its source URL.
fn ease_text(alloc: Global, text: &str) -> Result<Tree, AllocError>
    ensures { IfOk result (λ t. node t ≡ tree.text (unwrap_or (before_source text.now) text.now)) }
{
    match before_source(text) {
        Some(rest) => Ok(Tree::Text(String::from_str(alloc, rest)?)),
        None => Ok(Tree::Text(String::from_str(alloc, text)?)),
    }
}

// Makes a `script.disown` without the sandbox.
pub(crate) fn ease_disown(alloc: Global, command: &Tree) -> Result<Tree, AllocError>
    ensures { IfOk result (λ t. node t ≡ disown_eased (node command.now)) }
{
    within(
        alloc,
        command,
        "params",
        |params| ease_disown_params(alloc, params),
    )
}

// Makes its params.
fn ease_disown_params(alloc: Global, params: &Tree) -> Result<Tree, AllocError>
    ensures { IfOk result (λ t. node t ≡ within (codes "target") target_eased (node params.now)) }
{
    within(alloc, params, "target", ease_target)
}

// Makes a target without the sandbox.
fn ease_target(target: &Tree) -> Result<Tree, AllocError>
    ensures { IfOk result (λ t. node t ≡ target_eased (node target.now)) }
{
    match target.clone()? {
        Tree::Map(members) => {
            let mut members = members;
            keep_members(&mut members);
            Ok(Tree::Map(members))
        }
        other => Ok(other),
    }
}

// Removes the sandbox.
fn keep_members(members: &mut Members)
    ensures { members_node members.new.entries ≡ members_kept is_sandbox (members_node members.old.entries) }
{
    members.retain(|name, value| !is_sandbox(name.as_str(), value));
}
