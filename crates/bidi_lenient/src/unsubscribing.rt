//! Contexts in a `session.unsubscribe`.
ghost use Rattle.std.specs.Prelude.{◌≡◌, ◌++◌, IfOk, OnOk, is_some, map, string_bytes};
ghost use Rattle.bidi_tree.specs.Node.{get_of};
ghost use Rattle.bidi_tree.specs.View.{node};
ghost use Rattle.bidi_lenient.specs.Reports.{unsubscribe_told, contexts_told};
ghost use Rattle.bidi_lenient.specs.Eased.{params_refused, unsubscribe_eased};

use crate::members::within;
use bidi_tree::{Members, Tree};
use std::alloc::{AllocError, Global};

/// The report on them.
const REFUSED: &str = "refused contexts of session.unsubscribe";

// Adds the report on a `session.unsubscribe`.
pub(crate) fn tell_unsubscribe(
    alloc: Global,
    command: &Tree,
    told: &mut Vec<String>,
) -> Result<(), AllocError>
    ensures { OnOk result (map string_bytes told.new.items ≡ map string_bytes told.old.items ++ unsubscribe_told (node command.now)) }
{
    match command.get("params") {
        Some(params) => tell_contexts(alloc, params, told),
        None => Ok(()),
    }
}

// Adds the report on its params.
fn tell_contexts(alloc: Global, params: &Tree, told: &mut Vec<String>) -> Result<(), AllocError>
    ensures { OnOk result (map string_bytes told.new.items ≡ map string_bytes told.old.items ++ contexts_told (node params.now)) }
{
    if params.get("contexts").is_some() {
        told.push(String::from_str(alloc, REFUSED)?)?;
    }
    Ok(())
}

// Makes a `session.unsubscribe` that is refused, if it has contexts.
pub(crate) fn ease_unsubscribe(alloc: Global, command: &Tree) -> Result<Tree, AllocError>
    ensures { IfOk result (λ t. node t ≡ unsubscribe_eased (node command.now)) }
{
    within(
        alloc,
        command,
        "params",
        |params| refuse_contexts(alloc, params),
    )
}

// Makes its params: an empty object if there are contexts.
fn refuse_contexts(alloc: Global, params: &Tree) -> Result<Tree, AllocError>
    ensures { IfOk result (λ t. node t ≡ params_refused (node params.now)) }
{
    if params.get("contexts").is_some() {
        Ok(Tree::Map(Members::new(alloc)))
    } else {
        params.clone()
    }
}
