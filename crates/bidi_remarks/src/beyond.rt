//! What the W3C's draft of WebDriver BiDi has and the profile lacks.
ghost use Rattle.std.specs.Prelude.{◌≡◌, ◌==◌, length, map, option_and_then, option_map};
ghost use Rattle.bidi_tree.specs.Kind.{text_in};
ghost use Rattle.bidi_tree.specs.Outline.{outline_node};
ghost use Rattle.bidi_rules.specs.Names.{name_of};
ghost use Rattle.bidi_blame.specs.Said.{told_by};
ghost use Rattle.bidi_blame.specs.View.{reason_of, step_of};
ghost use Rattle.bidi_blame.specs.Words.{choices};
ghost use Rattle.bidi_remarks.specs.Beyond.{draft_texts, ends_in, has_method, is_any, is_beyond, is_draft_member, is_draft_number, is_draft_text, is_odd, is_one_of, is_vendor_name, is_vendor_member, is_user_context};

use bidi_blame::{Alternatives, Name, PathStep, Reason};
use bidi_shape::Parsed;
use bidi_tree::Outline;

/// The commands that the profile lacks.
const COMMANDS: &[&str] = &[
    "browser.close",
    "browser.getClientWindows",
    "browser.setClientWindowState",
    "browser.setDownloadBehavior",
    "browsingContext.captureScreenshot",
    "browsingContext.handleUserPrompt",
    "browsingContext.locateNodes",
    "browsingContext.print",
    "browsingContext.setViewport",
    "emulation.setForcedColorsModeThemeOverride",
    "emulation.setGeolocationOverride",
    "emulation.setLocaleOverride",
    "emulation.setNetworkConditions",
    "emulation.setScreenOrientationOverride",
    "emulation.setScreenSettingsOverride",
    "emulation.setScriptingEnabled",
    "emulation.setTimezoneOverride",
    "emulation.setTouchOverride",
    "emulation.setUserAgentOverride",
    "input.performActions",
    "input.releaseActions",
    "input.setFiles",
    "network.addDataCollector",
    "network.addIntercept",
    "network.continueRequest",
    "network.continueResponse",
    "network.continueWithAuth",
    "network.disownData",
    "network.failRequest",
    "network.getData",
    "network.provideResponse",
    "network.removeDataCollector",
    "network.removeIntercept",
    "network.setCacheBehavior",
    "network.setExtraHeaders",
    "script.addPreloadScript",
    "script.removePreloadScript",
    "storage.deleteCookies",
    "storage.getCookies",
    "storage.setCookie",
    "webExtension.install",
    "webExtension.uninstall",
];

/// The events that it lacks.
const EVENTS: &[&str] = &[
    "browsingContext.downloadEnd",
    "browsingContext.downloadWillBegin",
    "browsingContext.fragmentNavigated",
    "browsingContext.historyUpdated",
    "browsingContext.navigationAborted",
    "browsingContext.navigationCommitted",
    "browsingContext.navigationFailed",
    "browsingContext.userPromptClosed",
    "browsingContext.userPromptOpened",
    "input.fileDialogOpened",
    "network.authRequired",
    "network.beforeRequestSent",
    "network.fetchError",
    "network.responseCompleted",
    "network.responseStarted",
    "script.message",
];

/// The error codes that it lacks.
const ERRORS: &[&str] = &[
    "invalid web extension",
    "no such client window",
    "no such network collector",
    "no such network data",
    "no such web extension",
    "unavailable network data",
    "underspecified storage partition",
];

/// The kinds of realms that it lacks.
const REALMS: &[&str] = &[
    "dedicated-worker",
    "shared-worker",
    "service-worker",
    "worker",
    "paint-worklet",
    "audio-worklet",
    "worklet",
];

/// The kinds of local values that it lacks.
const LOCAL_VALUES: &[&str] = &["channel"];

/// The kinds of remote values that it lacks.
const REMOTE_VALUES: &[&str] = &["node", "nodelist", "htmlcollection", "window"];

/// Whether what stands at a place is wrong for the profile and not for the draft, where these alternatives may stand there.
pub(crate) fn is_beyond(reason: &Reason<'_, '_>, alternatives: &Alternatives) -> bool
    requires { told_by alternatives.now ≡ choices (reason_of reason.now).wants }
    ensures { result ≡ is_beyond (reason_of reason.now) }
{
    let count = alternatives.count();
    is_draft_text(reason.named, &reason.steps, reason.found)
        || is_draft_member(reason.named, &reason.steps, count == 0)
        || is_any(alternatives)
        || is_draft_number(reason.named, &reason.steps, reason.found, count)
}

// Whether a text stands there that only the draft takes.
fn is_draft_text(named: Option<Name>, steps: &[PathStep<'_>], found: Option<&Outline<'_>>) -> bool
    ensures { result ≡ is_draft_text (option_map name_of named) (map step_of steps.now) (option_map (λ t. outline_node t.now) found.entry) }
{
    let Some(text) = text_in(found) else {
        return false;
    };
    let (name, texts) = draft_texts(named);
    ends_in(name, steps) && (is_one_of(texts, text) || has_method(named) && is_vendor_name(text))
}

// Whether the rule is one of commands or of events.
fn has_method(named: Option<Name>) -> bool
    ensures { result ≡ has_method (option_map name_of named) }
{
    matches!(
        named,
        Some(Name::Command) | Some(Name::Message) | Some(Name::Event)
    )
}

/// Whether a name is a vendor's: it has a colon, and the draft leaves such names to browsers.
pub(crate) fn is_vendor_name(name: &str) -> bool
    ensures { result ≡ is_vendor_name name.now }
{
    name.as_bytes().iter().any(|byte| *byte == b':')
}

// A member of a rule, and the texts that only the draft takes there.
fn draft_texts(named: Option<Name>) -> (&'static str, &'static [&'static str])
    ensures name { result.0.now ≡ (draft_texts (option_map name_of named)).0 }
    ensures texts { map (λ s. s.now) result.1.now ≡ (draft_texts (option_map name_of named)).1 }
{
    match named {
        Some(Name::Command) => ("method", COMMANDS),
        Some(Name::Message) | Some(Name::Event) => ("method", EVENTS),
        Some(Name::ErrorCode) => ("error", ERRORS),
        Some(Name::RealmInfo) => ("type", REALMS),
        Some(Name::LocalValue) => ("type", LOCAL_VALUES),
        Some(Name::RemoteValue) | Some(Name::Opaque) => ("type", REMOTE_VALUES),
        _ => ("", &[]),
    }
}

// The text that stands at a place, if one does.
fn text_in<'a>(found: Option<&'a Outline<'_>>) -> Option<&'a str>
    ensures { option_map (λ s. s.now) result ≡ option_and_then text_in (option_map (λ t. outline_node t.now) found.entry) }
{
    match found {
        Some(tree) => tree.as_str(),
        None => None,
    }
}

// Whether the last step leads to a member of this name. The last step stands first.
fn ends_in(name: &str, steps: &[PathStep<'_>]) -> bool
    ensures { result ≡ ends_in name.now (map step_of steps.now) }
{
    match steps {
        [PathStep::Member(last), ..] => *last == name,
        _ => false,
    }
}

// Whether the text is one of these.
fn is_one_of(texts: &[&str], text: &str) -> bool
    ensures { result ≡ is_one_of (map (λ s. s.now) texts.now) text.now }
{
    for other in texts {
        if *other == text {
            return true;
        }
    }
    false
}

// Whether no member may stand there, but in the draft one may.
fn is_draft_member(named: Option<Name>, steps: &[PathStep<'_>], wants_nothing: bool) -> bool
    ensures { result ≡ is_draft_member (option_map name_of named) (map step_of steps.now) wants_nothing }
{
    wants_nothing && (is_user_context(named, steps) || is_vendor_member(steps))
}

// Whether the last step leads to the user context of a source.
fn is_user_context(named: Option<Name>, steps: &[PathStep<'_>]) -> bool
    ensures { result ≡ is_user_context (option_map name_of named) (map step_of steps.now) }
{
    match named {
        Some(Name::Source) => ends_in("userContext", steps),
        _ => false,
    }
}

// Whether the last step leads to a member with a vendor's name.
fn is_vendor_member(steps: &[PathStep<'_>]) -> bool
    ensures { result ≡ is_vendor_member (map step_of steps.now) }
{
    match steps {
        [PathStep::Member(last), ..] => is_vendor_name(last),
        _ => false,
    }
}

/// Whether any value may stand there, but for numbers with a fraction and more than 60 levels of nesting.
pub(crate) fn is_any(alternatives: &Alternatives) -> bool
    ensures { result ≡ is_any (told_by alternatives.now) }
{
    alternatives.is_only("whole numbers in range and at most 60 levels")
        || alternatives.is_only("at most 60 levels")
}

// Whether the draft takes any number there.
fn is_draft_number(
    named: Option<Name>,
    steps: &[PathStep<'_>],
    found: Option<&Outline<'_>>,
    count: usize,
) -> bool
    ensures { result ≡ is_draft_number (option_map name_of named) (map step_of steps.now) (option_map (λ t. outline_node t.now) found.entry) count }
{
    match named {
        Some(Name::Primitive) => is_odd(found) && ends_in("value", steps) && count > 1,
        _ => false,
    }
}

// Whether a number stands there that is not whole, or out of range.
fn is_odd(found: Option<&Outline<'_>>) -> bool
    ensures { result ≡ is_odd (option_map (λ t. outline_node t.now) found.entry) }
{
    match found {
        Some(tree) => matches!(tree, Outline::Odd),
        None => false,
    }
}
