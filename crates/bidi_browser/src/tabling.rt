//! The plan of a step that sets a row of the script table.
ghost use Rattle.std.specs.Prelude.{◌≡◌, ℕ, List, [], None, IfOk, IfErr, OnOk, if◌then◌else◌, string_bytes};
ghost use Rattle.bidi_contexts.specs.Acts.{Act, Tabled};
ghost use Rattle.bidi_browser.specs.Asked.{row_asked};
ghost use Rattle.bidi_contexts.specs.Outcome.{row_in};
ghost use Rattle.bidi_handles.specs.Params.{text_at};
ghost use Rattle.bidi_browser.specs.Plans.{Makes, Plans, IsWellPlanned};
ghost use Rattle.bidi_browser.specs.Stands.{StandsFor};
ghost use Rattle.bidi_browser.specs.TableInHand.{IsFew, IsRowChecked, row_tree, throws};
ghost use Rattle.bidi_handles.specs.declared.refusal.Refusal.TheVariants as Refusal;

use crate::browser::Browser;
use crate::plan::{Change, Edit, Plan};
use crate::script_table::ScriptRow;
use bidi_handles::{Ending, Refusal, ThrownValue, has_handle, held};
use bidi_params::ErrorCode;
use bidi_scripts::TableRow;
use bidi_shape::{MAX_LEVELS, Shape};
use std::alloc::Global;

/// The most levels of the tree of a row; its value has one fewer.
const MOST_LEVELS: usize = MAX_LEVELS + 1;

/// Plans a row of the script table. `None` stands for a text that is no row.
///
/// # Errors
/// The first that holds:
/// - `invalid argument`: there is no row, its value has a handle or an internal id at some depth, or a thrown
///   value has more than 59 levels.
/// - `unknown error`: the row's text is new, and 1,024 texts have rows.
/// - No memory: an allocation failed.
pub(crate) fn plan_row(browser: &Browser, row: Option<TableRow>) -> Result<Plan, Refusal>
    ensures plans { (past : List Act) (moment : ℕ) → StandsFor browser.now past → Plans result past moment (row_asked row) }
    ensures well { IsWellPlanned result }
{
    let Some(row) = row else {
        return Err(Refusal::Code(ErrorCode::InvalidArgument));
    };
    check_row(browser, &row)?;
    tabled(browser.alloc, row)
}

// Checks that the row may stand in the table.
fn check_row(browser: &Browser, row: &TableRow) -> Result<(), Refusal>
    ensures checked { (past : List Act) → StandsFor browser.now past → IsRowChecked result past (row_tree row.now) }
    ensures few { OnOk result (IsFew row.now) }
{
    let outline = row.outline(browser.alloc)?;
    if has_handle(&outline) || !outline.is_within(most_levels(row)) {
        return Err(Refusal::Code(ErrorCode::InvalidArgument));
    }
    if !browser.table.takes(text_of(row)) {
        return Err(Refusal::Code(ErrorCode::UnknownError));
    }
    Ok(())
}

// The most levels of a row's tree: one fewer where it throws, since the exception details add one.
fn most_levels(row: &TableRow) -> usize
    ensures { result ≡ (if throws row.now then 60 else 61) }
{
    match row {
        TableRow::Throws(_) => MOST_LEVELS - 1,
        _ => MOST_LEVELS,
    }
}

// The text of the scripts that the row is for.
fn text_of(row: &TableRow) -> &String
    ensures { string_bytes result.now ≡ text_at "text" (row_tree row.now) }
{
    match row {
        TableRow::Returns(row) => &row.text,
        TableRow::Throws(row) => &row.text,
        TableRow::Argument(row) => &row.text,
    }
}

// The plan that sets the row.
fn tabled(alloc: Global, row: TableRow) -> Result<Plan, Refusal>
    requires { IsFew row }
    ensures told { IfOk result (λ p. (p.before.items ≡ []) × (p.result ≡ None) × (p.after.items ≡ [])) }
    ensures change { (past : List Act) → IfOk result (λ p. Makes p.change past (Tabled (text_at "text" (row_tree row)) (row_in (row_tree row)))) }
    ensures err { IfErr result (λ e. e ≡ Refusal.NoMemory) }
{
    let edit = match row {
        TableRow::Returns(row) => {
            let value = held(alloc, row.value)?;
            Edit::SetRow(row.text, ScriptRow::EndsIn(Ending::Returned(value)))
        }
        TableRow::Throws(row) => {
            let thrown = ThrownValue {
                held: held(alloc, row.value)?,
            };
            Edit::SetRow(row.text, ScriptRow::EndsIn(Ending::Threw(thrown)))
        }
        TableRow::Argument(row) => Edit::SetRow(row.text, ScriptRow::GivesBack(row.index.value)),
    };
    Ok(Plan {
        before: Vec::new(alloc),
        result: None,
        after: Vec::new(alloc),
        change: Change { edit },
    })
}
