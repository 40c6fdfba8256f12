//! The rows of a script, with the methods that they have.
ghost use Rattle.std.specs.Prelude.{◌≡◌, ◌<◌, [], ◌∷◌, not, bytes_eq, filter, map, vec_len, Some, IfOk, OnOk, OnErr};
ghost use Rattle.std.proofs.Props.{props};
ghost use Rattle.std.specs.List.{position};
ghost use Rattle.bidi_rows.specs.Command.{Command as Asked};
ghost use Rattle.bidi_rows.specs.Rows.{matches};
ghost use Rattle.bidi_rows.specs.View.{command_seen, row_of};
ghost use Rattle.bidi_scripted.specs.Methods.{AreListed};
ghost use Rattle.bidi_scripted.specs.Script.{used};
ghost use Rattle.bidi_scripted.specs.declared.method_set.MethodSet.{MethodSet as Methods};

use crate::method_set::MethodSet;
use bidi_rows::{Command, Row};
use std::alloc::{AllocError, Global};

/// The rows of a script. A command whose method no row has is compared with none.
#[derive(Drop)]
pub(crate) struct RowTable {
    /// The rows, the newest first.
    pub all: Vec<Row>,
    /// Their methods, and perhaps those of rows that are gone.
    pub methods: MethodSet,
    // The method of each row is among the methods.
    ghost listed: { AreListed methods (map row_of all.items) } by { Prim.hlevel props },
}

impl RowTable {
    /// A table without rows. Takes the memory of a set of methods.
    pub(crate) fn new(alloc: Global) -> Result<RowTable, AllocError>
        ensures { IfOk result (λ table. table.all.items ≡ []) }
    {
        Ok(RowTable {
            all: Vec::new(alloc),
            methods: MethodSet::new(alloc)?,
        })
    }

    /// Adds a row, before all others.
    pub(crate) fn add(&mut self, row: Row) -> Result<(), AllocError>
        ensures ok { OnOk result (map row_of self.new.all.items ≡ row_of row ∷ map row_of self.old.all.items) }
        ensures err { OnErr result (self.new.all.items ≡ self.old.all.items) }
    {
        self.methods.add(row.method.as_str());
        Ok(self.all.insert(0, row)?)
    }

    /// Removes the rows of a method.
    pub(crate) fn remove(&mut self, method: &str)
        ensures { map row_of self.new.all.items ≡ filter (λ row. not (bytes_eq row.method method.now)) (map row_of self.old.all.items) }
    {
        remove_rows(&mut self.all, method);
    }

    /// Counts one use of the row at this place, which goes with its last use.
    pub(crate) fn count_use(&mut self, place: usize)
        requires { place < vec_len self.now.all }
        ensures { (command : Asked) → position (λ r. matches command (row_of r)) self.old.all.items ≡ Some place
            → map row_of self.new.all.items ≡ used command (map row_of self.old.all.items) }
    {
        use_row(&mut self.all, place);
    }

    /// The place of the newest row that is for a command.
    pub(crate) fn place_for(&self, command: &Command<'_, '_>) -> Option<usize>
        ensures { result ≡ position (λ r. matches (command_seen command.now) (row_of r)) self.now.all.items }
    {
        if !self.methods.has(command.method) {
            return None;
        }
        place_among(&self.all, command)
    }
}

// The place of the first of these rows that is for a command.
fn place_among(rows: &[Row], command: &Command<'_, '_>) -> Option<usize>
    ensures { result ≡ position (λ r. matches (command_seen command.now) (row_of r)) rows.now }
{
    for (i, row) in rows.iter().enumerate() {
        if row.matches(command) {
            return Some(i);
        }
    }
    None
}

// Removes the rows of a method.
fn remove_rows(rows: &mut Vec<Row>, method: &str)
    ensures { map row_of rows.new.items ≡ filter (λ row. not (bytes_eq row.method method.now)) (map row_of rows.old.items) }
{
    rows.retain(|row| row.method.as_str() != method);
}

// Counts one use of the row at this place.
fn use_row(rows: &mut Vec<Row>, place: usize)
    requires { place < vec_len rows.now }
    ensures rows { (command : Asked) → position (λ r. matches command (row_of r)) rows.old.items ≡ Some place
        → map row_of rows.new.items ≡ used command (map row_of rows.old.items) }
    ensures listed { (set : Methods) → AreListed set (map row_of rows.old.items) → AreListed set (map row_of rows.new.items) }
{
    match rows[place].left {
        None => {}
        Some(left) if left > 1 => rows[place].left = Some(left - 1),
        Some(_) => drop(rows.remove(place)),
    }
}
