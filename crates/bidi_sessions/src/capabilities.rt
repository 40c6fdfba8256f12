//! The matching of requested capabilities with those of the browser.
ghost use Rattle.std.specs.Prelude.{◌≡◌, true, not, ◌&&◌, [], ◌∷◌, map, IfSome, is_some, unwrap_or, option_map, bytes_eq, string_bytes};
ghost use Rattle.std.specs.List.{list_all, list_any, AllByRecursion};
ghost use Rattle.bidi_tree.specs.Node as tree;
ghost use Rattle.bidi_sessions.specs.Capabilities.{request_of, requested_in, matching, has_colon, is_known, are_apart, is_met, is_match};

use bidi_messages::ErrorCode;
use bidi_params::CapabilityRequest;
use bidi_params::session::NewParameters;
use bidi_shape::{Ext, Shape};

/// The browser's name.
pub(crate) const BROWSER_NAME: &str = "memory-browser";

/// The browser's version.
pub(crate) const BROWSER_VERSION: &str = "1.0";

/// The name of the platform that the browser runs on.
pub(crate) const PLATFORM_NAME: &str = "none";

/// Checks whether a session can be made with the capabilities that are requested.
///
/// # Errors
/// The first that holds:
/// 1. `InvalidArgument`: `firstMatch` is empty; or a capability is none of the four known ones and has no
///    colon in its name; or a known one is requested both in `alwaysMatch` and in an entry of `firstMatch`.
/// 2. `SessionNotCreated`: the browser differs from `alwaysMatch`, or from each entry of `firstMatch`.
///
/// After WebDriver BiDi, "The session.CapabilitiesRequest Type".
pub fn match_capabilities(params: &NewParameters) -> Result<(), ErrorCode>
    // The parameters can be written as a message.
    requires { ⟦<NewParameters as Shape>⟧.shape.well params.now }
    // The result is that of matching the request with the capabilities of the browser.
    ensures { result ≡ matching (request_of (⟦<NewParameters as Shape>⟧.shape.tree_of params.now)) }
{
    let request = &params.capabilities;
    match &request.first_match {
        Some(choices) => match_choices(&request.always_match, choices),
        None => match_always(&request.always_match),
    }
}

/// The checks where `firstMatch` is absent, which counts as one empty entry.
#[tactic(auto, using(crate::proofs::CapabilityLemmas::one_empty))]
fn match_always(always: &Option<CapabilityRequest>) -> Result<(), ErrorCode>
    requires { IfSome always.now ⟦<CapabilityRequest as Shape>⟧.shape.well }
    ensures { let asked = requested_in (unwrap_or (option_map ⟦<CapabilityRequest as Shape>⟧.shape.tree_of always.now) tree.null) in
        result ≡ matching (record { always = asked; entries = [] ∷ [] }) }
{
    if !is_none_or_known(always) {
        return Err(ErrorCode::InvalidArgument);
    }
    if !is_none_or_met(always) {
        return Err(ErrorCode::SessionNotCreated);
    }
    Ok(())
}

/// The checks where `firstMatch` is given. All its entries are checked before one is matched.
fn match_choices(
    always: &Option<CapabilityRequest>,
    choices: &[CapabilityRequest],
) -> Result<(), ErrorCode>
    requires always { IfSome always.now ⟦<CapabilityRequest as Shape>⟧.shape.well }
    requires choices { AllByRecursion ⟦<CapabilityRequest as Shape>⟧.shape.well choices.now }
    ensures { let asked = requested_in (unwrap_or (option_map ⟦<CapabilityRequest as Shape>⟧.shape.tree_of always.now) tree.null) in
        result ≡ matching (record { always = asked; entries = map (λ c. requested_in (⟦<CapabilityRequest as Shape>⟧.shape.tree_of c)) choices.now }) }
{
    if choices.is_empty() {
        return Err(ErrorCode::InvalidArgument);
    }
    if !is_none_or_known(always) || !are_known(choices) {
        return Err(ErrorCode::InvalidArgument);
    }
    if !are_all_apart(always, choices) {
        return Err(ErrorCode::InvalidArgument);
    }
    if !is_any_match(always, choices) {
        return Err(ErrorCode::SessionNotCreated);
    }
    Ok(())
}

/// Whether each requested capability is one of the four known ones, or has a colon in its name.
#[tactic(auto, using(crate::proofs::CapabilityLemmas::known_asked))]
fn is_known(request: &CapabilityRequest) -> bool
    requires { ⟦<CapabilityRequest as Shape>⟧.shape.well request.now }
    ensures { result ≡ list_all is_known (requested_in (⟦<CapabilityRequest as Shape>⟧.shape.tree_of request.now)) }
{
    have_colons(&request.ext)
}

/// Whether each further member has a colon in its name.
fn have_colons(ext: &Ext) -> bool
    ensures { result ≡ list_all (λ e. has_colon (string_bytes e.0)) ext.now.members.entries }
{
    for (name, _) in ext.members.iter() {
        if !name.as_bytes().contains(&b':') {
            return false;
        }
    }
    true
}

/// The same of a request that may be absent: then there is nothing to check.
fn is_none_or_known(request: &Option<CapabilityRequest>) -> bool
    requires { IfSome request.now ⟦<CapabilityRequest as Shape>⟧.shape.well }
    ensures { let asked = requested_in (unwrap_or (option_map ⟦<CapabilityRequest as Shape>⟧.shape.tree_of request.now) tree.null) in
        result ≡ list_all is_known asked }
{
    match request {
        Some(request) => is_known(request),
        None => true,
    }
}

/// The same of each entry of `firstMatch`.
fn are_known(choices: &[CapabilityRequest]) -> bool
    requires { AllByRecursion ⟦<CapabilityRequest as Shape>⟧.shape.well choices.now }
    ensures { result ≡ list_all (list_all is_known) (map (λ c. requested_in (⟦<CapabilityRequest as Shape>⟧.shape.tree_of c)) choices.now) }
{
    for choice in choices {
        if !is_known(choice) {
            return false;
        }
    }
    true
}

/// Whether no capability is requested in both `alwaysMatch` and the entry. Names with a colon are ignored.
fn are_apart(always: &CapabilityRequest, choice: &CapabilityRequest) -> bool
    requires always { ⟦<CapabilityRequest as Shape>⟧.shape.well always.now }
    requires choice { ⟦<CapabilityRequest as Shape>⟧.shape.well choice.now }
    requires always_known { list_all is_known (requested_in (⟦<CapabilityRequest as Shape>⟧.shape.tree_of always.now)) ≡ true }
    requires choice_known { list_all is_known (requested_in (⟦<CapabilityRequest as Shape>⟧.shape.tree_of choice.now)) ≡ true }
    ensures { result ≡ are_apart (requested_in (⟦<CapabilityRequest as Shape>⟧.shape.tree_of always.now))
        (requested_in (⟦<CapabilityRequest as Shape>⟧.shape.tree_of choice.now)) }
{
    is_one_absent(&always.accept_insecure_certs, &choice.accept_insecure_certs)
        && is_one_absent(&always.browser_name, &choice.browser_name)
        && is_one_absent(&always.browser_version, &choice.browser_version)
        && is_one_absent(&always.platform_name, &choice.platform_name)
}

// Whether one of the two is absent.
fn is_one_absent<X: Drop>(always: &Option<X>, choice: &Option<X>) -> bool
    ensures { result ≡ not (is_some always.now && is_some choice.now) }
{
    always.is_none() || choice.is_none()
}

/// The same where `alwaysMatch` may be absent.
fn is_none_or_apart(always: &Option<CapabilityRequest>, choice: &CapabilityRequest) -> bool
    requires always { IfSome always.now ⟦<CapabilityRequest as Shape>⟧.shape.well }
    requires choice { ⟦<CapabilityRequest as Shape>⟧.shape.well choice.now }
    requires always_known { list_all is_known (requested_in (unwrap_or (option_map ⟦<CapabilityRequest as Shape>⟧.shape.tree_of always.now) tree.null)) ≡ true }
    requires choice_known { list_all is_known (requested_in (⟦<CapabilityRequest as Shape>⟧.shape.tree_of choice.now)) ≡ true }
    ensures { let asked = requested_in (unwrap_or (option_map ⟦<CapabilityRequest as Shape>⟧.shape.tree_of always.now) tree.null) in
        result ≡ are_apart asked (requested_in (⟦<CapabilityRequest as Shape>⟧.shape.tree_of choice.now)) }
{
    match always {
        Some(always) => are_apart(always, choice),
        None => true,
    }
}

/// The same of each entry of `firstMatch`.
fn are_all_apart(always: &Option<CapabilityRequest>, choices: &[CapabilityRequest]) -> bool
    requires always { IfSome always.now ⟦<CapabilityRequest as Shape>⟧.shape.well }
    requires choices { AllByRecursion ⟦<CapabilityRequest as Shape>⟧.shape.well choices.now }
    requires always_known { list_all is_known (requested_in (unwrap_or (option_map ⟦<CapabilityRequest as Shape>⟧.shape.tree_of always.now) tree.null)) ≡ true }
    requires choices_known { list_all (list_all is_known) (map (λ c. requested_in (⟦<CapabilityRequest as Shape>⟧.shape.tree_of c)) choices.now) ≡ true }
    ensures { let asked = requested_in (unwrap_or (option_map ⟦<CapabilityRequest as Shape>⟧.shape.tree_of always.now) tree.null) in
        result ≡ list_all (are_apart asked) (map (λ c. requested_in (⟦<CapabilityRequest as Shape>⟧.shape.tree_of c)) choices.now) }
{
    for choice in choices {
        if !is_none_or_apart(always, choice) {
            return false;
        }
    }
    true
}

/// Whether the browser has the capabilities of a request. Names with a colon are ignored.
#[tactic(auto, using(crate::proofs::CapabilityLemmas::met_asked))]
fn is_met(request: &CapabilityRequest) -> bool
    requires well { ⟦<CapabilityRequest as Shape>⟧.shape.well request.now }
    requires known { list_all is_known (requested_in (⟦<CapabilityRequest as Shape>⟧.shape.tree_of request.now)) ≡ true }
    ensures { result ≡ list_all is_met (requested_in (⟦<CapabilityRequest as Shape>⟧.shape.tree_of request.now)) }
{
    is_none_or_false(&request.accept_insecure_certs)
        && is_none_or_equal(&request.browser_name, BROWSER_NAME)
        && is_none_or_equal(&request.browser_version, BROWSER_VERSION)
        && is_none_or_equal(&request.platform_name, PLATFORM_NAME)
}

// Whether `true` is not requested.
fn is_none_or_false(asked: &Option<bool>) -> bool
    ensures { result ≡ unwrap_or (option_map not asked.now) true }
{
    match asked {
        Some(asked) => !*asked,
        None => true,
    }
}

// Whether no other text than this one is requested.
fn is_none_or_equal(asked: &Option<String>, text: &str) -> bool
    ensures { result ≡ unwrap_or (option_map (λ s. bytes_eq (string_bytes s) text.now) asked.now) true }
{
    match asked {
        Some(asked) => asked.as_str() == text,
        None => true,
    }
}

/// The same of a request that may be absent: then there is nothing to match.
fn is_none_or_met(request: &Option<CapabilityRequest>) -> bool
    requires well { IfSome request.now ⟦<CapabilityRequest as Shape>⟧.shape.well }
    requires known { list_all is_known (requested_in (unwrap_or (option_map ⟦<CapabilityRequest as Shape>⟧.shape.tree_of request.now) tree.null)) ≡ true }
    ensures { let asked = requested_in (unwrap_or (option_map ⟦<CapabilityRequest as Shape>⟧.shape.tree_of request.now) tree.null) in
        result ≡ list_all is_met asked }
{
    match request {
        Some(request) => is_met(request),
        None => true,
    }
}

/// Whether the browser has the capabilities of `alwaysMatch`, and those of an entry of `firstMatch`.
fn is_any_match(always: &Option<CapabilityRequest>, choices: &[CapabilityRequest]) -> bool
    requires always { IfSome always.now ⟦<CapabilityRequest as Shape>⟧.shape.well }
    requires choices { AllByRecursion ⟦<CapabilityRequest as Shape>⟧.shape.well choices.now }
    requires always_known { list_all is_known (requested_in (unwrap_or (option_map ⟦<CapabilityRequest as Shape>⟧.shape.tree_of always.now) tree.null)) ≡ true }
    requires choices_known { list_all (list_all is_known) (map (λ c. requested_in (⟦<CapabilityRequest as Shape>⟧.shape.tree_of c)) choices.now) ≡ true }
    ensures { let asked = requested_in (unwrap_or (option_map ⟦<CapabilityRequest as Shape>⟧.shape.tree_of always.now) tree.null) in
        result ≡ list_any (is_match asked) (map (λ c. requested_in (⟦<CapabilityRequest as Shape>⟧.shape.tree_of c)) choices.now) }
{
    for choice in choices {
        if is_none_or_met(always) && is_met(choice) {
            return true;
        }
    }
    false
}
