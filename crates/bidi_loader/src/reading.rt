//! What is read of the nodes before a table is made.
ghost use Rattle.std.specs.Prelude.{◌≡◌, IfOk};
ghost use Rattle.std.specs.List.{AllZip};
ghost use Rattle.bidi_loader.specs.Readings.{AreTexts, IsReading, ItemsOf, ListsOf};

use crate::items::{Items, items_of_array};
use crate::lists::lists_of_map;
use crate::texts::text_of;
use bidi_cddl::{LoadFault, Written};
use std::alloc::Global;

/// What is read of the nodes before a table is made. Each list has a value for each node.
#[derive(Drop)]
pub(crate) struct Reading {
    /// The strings, without escapes; empty for a node without a string.
    pub(crate) texts: Vec<String>,
    /// The lists of entries that a map can have; none for another node. An entry is the place of its node.
    pub(crate) lists: Vec<Vec<Vec<usize>>>,
    /// The items of an array; none for another node.
    pub(crate) items: Vec<Items>,
}

/// Reads the nodes.
///
/// # Errors
/// No memory, or what is wrong in a string, a group or an array.
pub(crate) fn read(alloc: Global, written: &Written<'_>) -> Result<Reading, LoadFault>
    // What is read is what the nodes mean.
    ensures { IfOk result (λ reading. IsReading written.now reading) }
{
    let texts = texts_of(alloc, written)?;
    let lists = lists_of_all(alloc, written, &texts)?;
    let items = items_of_all(alloc, written)?;
    Ok(Reading {
        texts,
        lists,
        items,
    })
}

// The strings of the nodes.
fn texts_of(alloc: Global, written: &Written<'_>) -> Result<Vec<String>, LoadFault>
    ensures { IfOk result (λ texts. AreTexts written.now texts.items) }
{
    let mut texts = Vec::new(alloc);
    'nodes: for (k, node) in written.nodes.iter().enumerate() {
        texts.push(text_of(alloc, written, k, node)?)?;
    }
    Ok(texts)
}

// The lists of entries of the nodes.
fn lists_of_all(
    alloc: Global,
    written: &Written<'_>,
    texts: &[String],
) -> Result<Vec<Vec<Vec<usize>>>, LoadFault>
    ensures { AreTexts written.now texts.now → IfOk result (λ lists. AllZip (ListsOf written.now) written.now.nodes.items lists.items) }
{
    let mut lists = Vec::new(alloc);
    'nodes: for k in 0..written.nodes.len() {
        lists.push(lists_of_map(alloc, written, texts, k, &written.nodes[k])?)?;
    }
    Ok(lists)
}

// The items of the nodes.
fn items_of_all(alloc: Global, written: &Written<'_>) -> Result<Vec<Items>, LoadFault>
    ensures { IfOk result (λ items. AllZip (ItemsOf written.now) written.now.nodes.items items.items) }
{
    let mut items = Vec::new(alloc);
    'nodes: for k in 0..written.nodes.len() {
        items.push(items_of_array(alloc, written, k, &written.nodes[k])?)?;
    }
    Ok(items)
}
