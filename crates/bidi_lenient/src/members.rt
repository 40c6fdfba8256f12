//! Members of objects, by name.
ghost use Rattle.std.specs.Prelude.{◌≡◌, IfOk, bytes_eq, map, option_map, string_bytes};
ghost use Rattle.std.specs.List.{list_any};
ghost use Rattle.std.specs.Fn.{FnOnceReturnsAt};
ghost use Rattle.bidi_tree.specs.Node.{Node};
ghost use Rattle.bidi_tree.specs.View.{node};
ghost use Rattle.bidi_lenient.specs.Members.{put_in, within, Gives};

use bidi_tree::{Tree, put_member};
use std::alloc::{AllocError, Global};

// Whether the name is one of these.
pub(crate) fn is_among(names: &[&str], name: &str) -> bool
    ensures { result ≡ list_any (bytes_eq name.now) (map (λ n. n.now) names.now) }
{
    for known in names {
        if name == *known {
            return true;
        }
    }
    false
}

// Copies the tree, with `ease` applied to the member of that name if there is one.
pub(crate) fn within<F: FnOnce(&Tree) -> Result<Tree, AllocError>>(
    alloc: Global,
    tree: &Tree,
    name: &str,
    ease: F,
) -> Result<Tree, AllocError>
    requires { F.IsAlwaysCallable ease }
    ensures { (f : Node → Node) → Gives (FnOnceReturnsAt F.FnOnce ease) f → IfOk result (λ t. node t ≡ within name.now f (node tree.now)) }
{
    match tree.get(name) {
        Some(member) => with_member(alloc, tree, name, ease(member)?),
        None => tree.clone(),
    }
}

// Copies the tree, with another member of that name if it is an object.
pub(crate) fn with_member(
    alloc: Global,
    tree: &Tree,
    name: &str,
    member: Tree,
) -> Result<Tree, AllocError>
    ensures { IfOk result (λ t. node t ≡ put_in name.now (node member) (node tree.now)) }
{
    match tree.clone()? {
        Tree::Map(members) => {
            let mut members = members;
            put_member(&mut members, String::from_str(alloc, name)?, member)?;
            Ok(Tree::Map(members))
        }
        other => Ok(other),
    }
}
