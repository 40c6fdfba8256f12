//! Rules by their names.
ghost use Rattle.std.specs.Prelude.{◌≡◌, List, IfSome, option_map};
ghost use Rattle.bidi_loader.specs.Meaning.{group_of_body, is_rule, name_type, rule_named, type_of_body, Tree, group_at, type_at};
ghost use Rattle.bidi_loader.specs.Readings.{plain_view};

use crate::plain::{Plain, prelude};
use bidi_cddl::{Body, Node, Rule, Written};

/// How many names in parentheses may lead from one to the next.
const MAX_NAMES: usize = 64;

/// The first rule of a name.
pub(crate) fn rule_named<'r, 't>(rules: &'r [Rule<'t>], name: &str) -> Option<&'r Rule<'t>>
    // It is that rule.
    ensures { option_map (λ rule. rule.now) result ≡ rule_named name.now rules.now }
{
    rules.iter().find(|rule| rule.name == name)
}

/// The node of a rule's type.
pub(crate) fn type_in(body: Body) -> Option<usize>
    // The rule's type is the type at that node.
    ensures { (trees : List Tree) → option_map (type_at trees) result ≡ type_of_body trees body }
{
    match body {
        Body::Type(node) => Some(node),
        Body::Either(node, _) => Some(node),
        Body::Group(_) => None,
    }
}

/// The node of a rule's group.
pub(crate) fn group_in(body: Body) -> Option<usize>
    // The rule's group is the group at that node.
    ensures { (trees : List Tree) → option_map (group_at trees) result ≡ group_of_body trees body }
{
    match body {
        Body::Group(node) => Some(node),
        Body::Either(_, node) => Some(node),
        Body::Type(_) => None,
    }
}

/// Whether a rule is a type. A name in parentheses is what the name is.
pub(crate) fn is_type(written: &Written<'_>, rule: &Rule<'_>) -> bool {
    let mut body = rule.body;
    for _ in 0..MAX_NAMES {
        let named = match body {
            Body::Type(_) => return true,
            Body::Group(_) => return false,
            Body::Either(node, _) => name_at(written, node),
        };
        let Some(name) = named else {
            return true;
        };
        match rule_named(&written.rules, name) {
            Some(next) => body = next.body,
            None => return true,
        }
    }
    false
}

// The name that is the node.
fn name_at<'t>(written: &Written<'t>, node: usize) -> Option<&'t str> {
    match written.nodes.get(node) {
        Some(Node::Name(name)) => Some(name),
        _ => None,
    }
}

/// The type of the prelude that a name is, if no rule has the name.
pub(crate) fn prelude_type(written: &Written<'_>, name: &str) -> Option<Plain<'static>>
    // If there is one, it is what the name means.
    ensures { IfSome result (λ plain. name_type (is_rule written.now.rules.items name.now) name.now ≡ plain_view plain) }
{
    if rule_named(&written.rules, name).is_some() {
        return None;
    }
    prelude(name)
}
