//! The commands that are eased, by their methods.
ghost use Rattle.std.specs.Prelude.{◌≡◌, ◌↔◌, IsTrue, map};
ghost use Rattle.std.specs.Str.Iter.{HasSubslice};
ghost use Rattle.bidi_tree.specs.View.{node};
ghost use Rattle.bidi_lenient.specs.Methods.{method_in, method_named, HasAny, IsAbout};

use bidi_tree::Tree;

/// The method of a command that may be eased.
#[derive(Clone, Copy, Debug, PartialEq, Eq)]
pub(crate) enum Method {
    /// `session.new`.
    New,
    /// `session.subscribe`.
    Subscribe,
    /// `session.unsubscribe`.
    Unsubscribe,
    /// `script.evaluate`.
    Evaluate,
    /// `script.callFunction`.
    CallFunction,
    /// `script.disown`.
    Disown,
    /// `browser.close`.
    Close,
}

/// The names of these methods.
const METHODS: &[&str] = &[
    "session.new",
    "session.subscribe",
    "session.unsubscribe",
    "script.evaluate",
    "script.callFunction",
    "script.disown",
    "browser.close",
];

// Whether the name of one of these methods occurs in the text.
#[tactic(auto, unfolding(crate::specs::Methods::methods))]
pub(crate) fn is_about(text: &str) -> bool
    ensures { IsTrue result ↔ IsAbout text.now }
{
    has_any(METHODS, text)
}

// Whether one of these names occurs in the text.
fn has_any(names: &[&str], text: &str) -> bool
    ensures { IsTrue result ↔ HasAny (map (λ n. n.now) names.now) text.now }
{
    for name in names {
        if has(text, name) {
            return true;
        }
    }
    false
}

// Whether the name occurs in the text.
fn has(text: &str, name: &str) -> bool
    ensures { IsTrue result ↔ HasSubslice text.now name.now }
{
    text.contains(name)
}

// The method of a command, if it is one of these.
pub(crate) fn method_of(command: &Tree) -> Option<Method>
    ensures { result ≡ method_in (node command.now) }
{
    match command.get("method") {
        Some(Tree::Text(name)) => method_named(name.as_str()),
        _ => None,
    }
}

// The method of this name, if it is one of these.
fn method_named(name: &str) -> Option<Method>
    ensures { result ≡ method_named name.now }
{
    if name == "session.new" {
        Some(Method::New)
    } else if name == "session.subscribe" {
        Some(Method::Subscribe)
    } else if name == "session.unsubscribe" {
        Some(Method::Unsubscribe)
    } else if name == "script.evaluate" {
        Some(Method::Evaluate)
    } else if name == "script.callFunction" {
        Some(Method::CallFunction)
    } else if name == "script.disown" {
        Some(Method::Disown)
    } else if name == "browser.close" {
        Some(Method::Close)
    } else {
        None
    }
}
