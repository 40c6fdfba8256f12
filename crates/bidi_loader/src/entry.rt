//! Entries of a map.
ghost use Rattle.std.specs.Prelude.{◌≡◌, ◌<◌, ℕ, List, length, IfSome, IsTrue, Some};
ghost use Rattle.bidi_grammar.specs.Source.{Written as SourceWritten, further, named};
ghost use Rattle.bidi_grammar.specs.View.{need_of};
ghost use Rattle.bidi_loader.specs.Meaning.{further_group, group_at, member_group, written_trees};
ghost use Rattle.bidi_loader.specs.Readings.{AreTexts, IsNode, entry_view};

use bidi_cddl::{Node, Occurs, Written};
use bidi_grammar::Need;

/// An entry of a map; a number is the node of its type.
#[derive(Clone, Copy)]
pub(crate) enum Entry {
    /// A named member.
    Named(Need, usize),
    /// Further members.
    Further(usize),
}

/// The entry at a node.
pub(crate) fn entry_at(written: &Written<'_>, texts: &[String], node: usize) -> Option<Entry>
    // The node's group is that entry, with the string of the node for a name.
    ensures { AreTexts written.now texts.now → IfSome result (λ entry. group_at (written_trees written.now) node
        ≡ entry_view (written_trees written.now) texts.now node entry) }
{
    if node >= written.nodes.len() || node >= texts.len() {
        return None;
    }
    entry_of(written, texts, node, &written.nodes[node])
}

// The entry that a node is.
fn entry_of(written: &Written<'_>, texts: &[String], k: usize, node: &Node<'_>) -> Option<Entry>
    ensures { k < length texts.now → IsNode written.now k node.now → AreTexts written.now texts.now
        → IfSome result (λ entry. group_at (written_trees written.now) k ≡ entry_view (written_trees written.now) texts.now k entry) }
{
    match node {
        Node::Member(occurs, _, value) => {
            if *value >= k {
                return None;
            }
            Some(Entry::Named(need_of(*occurs)?, *value))
        }
        Node::Further(occurs, value) => {
            if *value >= k || !is_any_number(*occurs) {
                return None;
            }
            Some(Entry::Further(*value))
        }
        _ => None,
    }
}

// Whether a member that occurs so often is required.
fn need_of(occurs: Occurs) -> Option<Need>
    ensures { IfSome result (λ need. (s : List ℕ) (σ : SourceWritten) → member_group occurs (Some s) σ ≡ named s (need_of need) σ) }
{
    match occurs {
        Occurs::Once => Some(Need::Required),
        Occurs::Optional => Some(Need::Optional),
        Occurs::AtLeast(_) => None,
    }
}

// Whether that is any number of times.
fn is_any_number(occurs: Occurs) -> bool
    ensures { IsTrue result → (σ : SourceWritten) → further_group occurs σ ≡ further σ }
{
    match occurs {
        Occurs::AtLeast(least) => least == 0,
        _ => false,
    }
}

/// Why a node is no entry.
pub(crate) fn entry_fault(written: &Written<'_>, node: usize) -> &'static str {
    match written.nodes.get(node) {
        Some(Node::Member(_, _, _)) => "a member more than once",
        Some(Node::Further(_, _)) => "further members are `* text => X`",
        _ => "expected an entry",
    }
}
