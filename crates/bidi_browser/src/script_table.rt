//! The script table, which has the outcomes of scripts, since no script is run.
ghost use Rattle.std.specs.Prelude.{◌≡◌, List, [], ◌∷◌, OnOk, option_map, string_bytes};

use bidi_handles::Ending;
use std::alloc::{AllocError, Global};
use std::collections::HashMap;

/// How many texts can have a row.
const MOST_ROWS: usize = 1024;

/// What the table says of a script.
#[derive(Drop)]
pub(crate) enum ScriptRow {
    /// It always ends in this way.
    EndsIn(Ending),
    /// It returns its argument of this place, counted from 0, or undefined where it has none there.
    GivesBack(u64),
}

/// The rows of the table, by the texts of the scripts.
#[derive(Drop)]
pub(crate) struct ScriptTable {
    rows: HashMap<String, ScriptRow>,
}

impl ScriptTable {
    ghost use Rattle.bidi_contexts.specs.Acts.{Act, Tabled};
    ghost use Rattle.bidi_contexts.specs.Outcome.{takes_row};
    ghost use Rattle.bidi_contexts.specs.Realms.{row_of};
    ghost use Rattle.bidi_browser.specs.TableInHand.{AreTabled, HasRoomForRow, row_seen};

    /// A table without rows. Takes no memory.
    pub(crate) fn new(alloc: Global) -> ScriptTable
        ensures { AreTabled result [] }
    {
        ScriptTable {
            rows: HashMap::new(alloc),
        }
    }

    /// Whether the row of a text can be set: the text has one already, or fewer than 1,024 texts have.
    pub(crate) fn takes(&self, text: &String) -> bool
        ensures { (past : List Act) → AreTabled self.now past → result ≡ takes_row past (string_bytes text.now) }
    {
        self.rows.contains_key(text) || self.rows.len() < MOST_ROWS
    }

    /// The row of a text, if it has one.
    pub(crate) fn get(&self, text: &String) -> Option<&ScriptRow>
        ensures { (past : List Act) → AreTabled self.now past → option_map (λ row. row_seen row.now) result ≡ row_of past (string_bytes text.now) }
    {
        self.rows.get(text)
    }

    /// Makes room for one more row.
    pub(crate) fn reserve(&mut self) -> Result<(), AllocError>
        ensures kept { (past : List Act) → AreTabled self.old past → AreTabled self.new past }
        ensures room { OnOk result (HasRoomForRow self.new) }
    {
        self.rows.reserve(1)
    }

    /// Sets the row of a text, in place of any that it has. Room was made before. Takes no memory.
    pub(crate) fn set(&mut self, text: String, row: ScriptRow)
        requires { HasRoomForRow self.now }
        ensures { (past : List Act) → AreTabled self.old past → AreTabled self.new (Tabled (string_bytes text) (row_seen row) ∷ past) }
    {
        drop(self.rows.insert(text, row));
    }
}
