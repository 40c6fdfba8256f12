//! Rows of the script table, read from the texts that a play gives.
ghost use Rattle.std.specs.Prelude.{◌≡◌, Some, option_map, IfOk};
ghost use Rattle.bidi_tree.specs.View.{node};
ghost use Rattle.bidi_remote.specs.Machine.History.{IsRow, row_tree};
ghost use Rattle.bidi_remote.specs.State.RowsRead.{IsRowOf};

use bidi_scripts::TableRow;
use bidi_shape::{MAX_BYTES, Shape, ShapeFault};
use bidi_tree::{ReadFault, Tree, read};
use std::alloc::{AllocError, Global};

/// Reads a row of the script table; `None` where the text is no row.
///
/// # Errors
/// No memory: an allocation failed.
pub(crate) fn read_row(alloc: Global, text: &str) -> Result<Option<TableRow>, AllocError>
    ensures { IfOk result (λ row. IsRow text.now (option_map ⟦<TableRow as Shape>⟧.shape.tree_of row)) }
{
    match row_tree(alloc, text)? {
        Some(tree) => row_in(alloc, &tree),
        None => Ok(None),
    }
}

// Reads the text of a row as a tree; `None` where it is not JSON, or too long.
fn row_tree(alloc: Global, text: &str) -> Result<Option<Tree>, AllocError>
    ensures { IfOk result (λ o. option_map node o ≡ row_tree text.now) }
{
    match read(alloc, text, Some(MAX_BYTES)) {
        Ok(tree) => Ok(Some(tree)),
        Err(ReadFault::NotJson | ReadFault::TooLong) => Ok(None),
        Err(ReadFault::NoMemory) => Err(AllocError),
    }
}

// Reads a tree as a row; `None` where it does not fit the rule.
fn row_in(alloc: Global, tree: &Tree) -> Result<Option<TableRow>, AllocError>
    ensures { IfOk result (λ row. IsRowOf ⟦<TableRow as Shape>⟧.shape (node tree.now) row) }
{
    match TableRow::from_tree(alloc, tree) {
        Ok(row) => Ok(Some(row)),
        Err(ShapeFault::NoFit) => Ok(None),
        Err(ShapeFault::NoMemory) => Err(AllocError),
    }
}
