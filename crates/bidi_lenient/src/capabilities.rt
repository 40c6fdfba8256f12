//! Leaving capabilities out of `session.new`.
ghost use Rattle.std.specs.Prelude.{◌≡◌, ◌++◌, IfOk, OnOk, codes, map, string_bytes};
ghost use Rattle.bidi_tree.specs.View.{node, items_node, members_node};
ghost use Rattle.bidi_lenient.specs.Names.{is_boolean_capability, is_string_capability, is_object_capability, is_capability};
ghost use Rattle.bidi_lenient.specs.Members.{members_kept, within};
ghost use Rattle.bidi_lenient.specs.Reports.{request_told, items_told, capabilities_told, new_told};
ghost use Rattle.bidi_lenient.specs.Eased.{request_eased, requests_eased, capabilities_eased, new_eased};

use crate::members::{is_among, within};
use bidi_tree::{Members, Tree};
use std::alloc::{AllocError, Global};

/// The capabilities that are left out if their value is a Boolean.
const BOOLEANS: &[&str] = &[
    "acceptInsecureCerts",
    "setWindowRect",
    "strictFileInteractability",
    "webSocketUrl",
];

/// The capabilities that are left out if their value is a string.
const STRINGS: &[&str] = &[
    "browserName",
    "browserVersion",
    "pageLoadStrategy",
    "platformName",
    "unhandledPromptBehavior",
];

/// The capabilities that are left out if their value is an object.
const OBJECTS: &[&str] = &["proxy", "timeouts", "unhandledPromptBehavior"];

// Whether the value of the capability of this name is to be a Boolean.
#[tactic(auto, unfolding(crate::specs::Names::boolean_capabilities))]
fn is_boolean(name: &str) -> bool
    ensures { result ≡ is_boolean_capability name.now }
{
    is_among(BOOLEANS, name)
}

// Whether it may be a string.
#[tactic(auto, unfolding(crate::specs::Names::string_capabilities))]
fn is_string(name: &str) -> bool
    ensures { result ≡ is_string_capability name.now }
{
    is_among(STRINGS, name)
}

// Whether it may be an object.
#[tactic(auto, unfolding(crate::specs::Names::object_capabilities))]
fn is_object(name: &str) -> bool
    ensures { result ≡ is_object_capability name.now }
{
    is_among(OBJECTS, name)
}

// Whether the capability of this name with this value is left out.
fn is_left_out(name: &str, value: &Tree) -> bool
    ensures { result ≡ is_capability name.now (node value.now) }
{
    match value {
        Tree::Bool(_) => is_boolean(name),
        Tree::Text(_) => is_string(name),
        Tree::Map(_) => is_object(name),
        _ => false,
    }
}

// Adds the report on a `session.new`: on `alwaysMatch`, and then on each item of `firstMatch`.
pub(crate) fn tell_new(
    alloc: Global,
    command: &Tree,
    told: &mut Vec<String>,
) -> Result<(), AllocError>
    ensures { OnOk result (map string_bytes told.new.items ≡ map string_bytes told.old.items ++ new_told (node command.now)) }
{
    let Some(params) = command.get("params") else {
        return Ok(());
    };
    let Some(capabilities) = params.get("capabilities") else {
        return Ok(());
    };
    tell_capabilities(alloc, capabilities, told)
}

// Adds the report on the capabilities.
fn tell_capabilities(
    alloc: Global,
    capabilities: &Tree,
    told: &mut Vec<String>,
) -> Result<(), AllocError>
    ensures { OnOk result (map string_bytes told.new.items ≡ map string_bytes told.old.items ++ capabilities_told (node capabilities.now)) }
{
    if let Some(always) = capabilities.get("alwaysMatch") {
        tell_request(alloc, always, told)?;
    }
    match capabilities.get("firstMatch") {
        Some(Tree::List(requests)) => tell_requests(alloc, requests, told),
        _ => Ok(()),
    }
}

// Adds the reports on some requests.
fn tell_requests(
    alloc: Global,
    requests: &Vec<Tree>,
    told: &mut Vec<String>,
) -> Result<(), AllocError>
    ensures { OnOk result (map string_bytes told.new.items ≡ map string_bytes told.old.items ++ items_told (items_node requests.now.items)) }
{
    for request in requests {
        tell_request(alloc, request, told)?;
    }
    Ok(())
}

// Adds the report on one request.
fn tell_request(alloc: Global, request: &Tree, told: &mut Vec<String>) -> Result<(), AllocError>
    ensures { OnOk result (map string_bytes told.new.items ≡ map string_bytes told.old.items ++ request_told (node request.now)) }
{
    let Tree::Map(members) = request else {
        return Ok(());
    };
    for (name, value) in members.iter() {
        if is_left_out(name.as_str(), value) {
            told.push(format!(in alloc; "left out capability {name}")?)?;
        }
    }
    Ok(())
}

// Makes a `session.new` without the left-out capabilities.
pub(crate) fn ease_new(alloc: Global, command: &Tree) -> Result<Tree, AllocError>
    ensures { IfOk result (λ t. node t ≡ new_eased (node command.now)) }
{
    within(
        alloc,
        command,
        "params",
        |params| ease_params(alloc, params),
    )
}

// Makes its params without them.
fn ease_params(alloc: Global, params: &Tree) -> Result<Tree, AllocError>
    ensures { IfOk result (λ t. node t ≡ within (codes "capabilities") capabilities_eased (node params.now)) }
{
    within(
        alloc,
        params,
        "capabilities",
        |capabilities| ease_capabilities(alloc, capabilities),
    )
}

// Makes its capabilities without them.
fn ease_capabilities(alloc: Global, capabilities: &Tree) -> Result<Tree, AllocError>
    ensures { IfOk result (λ t. node t ≡ capabilities_eased (node capabilities.now)) }
{
    let eased = within(alloc, capabilities, "alwaysMatch", ease_request)?;
    within(
        alloc,
        &eased,
        "firstMatch",
        |requests| ease_requests(alloc, requests),
    )
}

// Makes some requests without them.
fn ease_requests(alloc: Global, requests: &Tree) -> Result<Tree, AllocError>
    ensures { IfOk result (λ t. node t ≡ requests_eased (node requests.now)) }
{
    let Tree::List(items) = requests else {
        return requests.clone();
    };
    let mut eased = Vec::with_capacity(alloc, items.len())?;
    for request in items {
        eased.push(ease_request(request)?)?;
    }
    Ok(Tree::List(eased))
}

// Makes one request without them.
fn ease_request(request: &Tree) -> Result<Tree, AllocError>
    ensures { IfOk result (λ t. node t ≡ request_eased (node request.now)) }
{
    match request.clone()? {
        Tree::Map(members) => {
            let mut members = members;
            keep_members(&mut members);
            Ok(Tree::Map(members))
        }
        other => Ok(other),
    }
}

// Removes the members that are left out.
fn keep_members(members: &mut Members)
    ensures { members_node members.new.entries ≡ members_kept is_capability (members_node members.old.entries) }
{
    members.retain(|name, value| !is_left_out(name.as_str(), value));
}
