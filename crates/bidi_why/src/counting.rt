//! The causes that were met, and how often each was.
ghost use Rattle.std.specs.Prelude.{◌≡◌, ◌<◌, ◌≤◌, ◌+◌, ◌-◌, ◌*◌, ◌++◌, ◌^◌, flat_map, length, map, position, bytes_eq, vec_len, IfSome, OnErr, OnOk};
ghost use Rattle.std.specs.Io.KnownBytes.{Appends};
ghost use Rattle.bidi_lines.specs.Devices.{AppendsBeginning, CountsFailure};
ghost use Rattle.bidi_why.specs.Counting.{IsRanking, count_line, counts_of, counts_with, lines_counted, no_counts, once_more, others_line, row_line, row_of, row_order};

use crate::writing::write_number;
use bidi_lines::{DeviceFault, Sink, write_all};
use std::alloc::{AllocError, Global};
use std::cmp::Ordering;

/// How many causes are told apart. Further ones are counted together.
const MOST_CAUSES: usize = 1_000;

/// The most bytes of a cause that is told apart.
const LONGEST_CAUSE: usize = 4_096;

// A cause, and how many lines had it.
#[derive(Drop)]
struct Cause {
    text: Vec<u8>,
    count: u64,
    // How many causes were met before it.
    place: usize,
}

/// The causes that were met, and how often each was.
#[derive(Drop)]
pub(crate) struct Causes {
    // In the order in which they were first met.
    rows: Vec<Cause>,
    // How many lines had another cause than these.
    others: u64,
}

impl Causes {
    /// No cause. Takes no memory.
    pub(crate) fn new(alloc: Global) -> Causes
        ensures lines { lines_counted result ≡ 0 }
        ensures none { counts_of result ≡ no_counts }
    {
        Causes {
            rows: Vec::new(alloc),
            others: 0,
        }
    }

    /// Counts one more line of this cause.
    ///
    /// # Errors
    /// No memory: nothing is counted.
    pub(crate) fn add(&mut self, cause: Vec<u8>) -> Result<(), AllocError>
        // So many causes are kept at most.
        ensures few { vec_len self.old.rows ≤ 1000 → vec_len self.new.rows ≤ 1000 }
        ensures counts { OnOk result (lines_counted self.old + 1 < 2 ^ 64 → lines_counted self.new ≡ lines_counted self.old + 1) }
        ensures met { OnOk result (lines_counted self.old + 1 < 2 ^ 64 → counts_of self.new ≡ counts_with (counts_of self.old) cause.items) }
    {
        if let Some(i) = place_of(&self.rows, &cause) {
            self.rows[i].count = self.rows[i].count.saturating_add(1);
        } else if self.rows.len() < MOST_CAUSES && cause.len() <= LONGEST_CAUSE {
            let place = self.rows.len();
            self.rows.push(Cause {
                text: cause,
                count: 1,
                place,
            })?;
        } else {
            self.others = self.others.saturating_add(1);
        }
        Ok(())
    }

    /// Puts the most frequent first, of equal ones the one that was met first. Takes no memory.
    pub(crate) fn sort(&mut self)
        ensures ranking { IsRanking (counts_of self.new).rows (counts_of self.old).rows }
        ensures others { (counts_of self.new).others ≡ (counts_of self.old).others }
    {
        self.rows.sort_unstable_by(|row, other| order(row, other));
    }

    /// Writes a line for each cause, and one for the others where there are any. Takes no memory.
    ///
    /// # Errors
    /// `DeviceFault`: a write failed.
    pub(crate) fn write<F: Sink>(&self, faults: &mut F) -> Result<(), DeviceFault>
        ensures ok { OnOk result (Appends (F.contents faults.old) (F.contents faults.new)
            (flat_map row_line (counts_of self.now).rows ++ others_line (counts_of self.now).others)) }
        ensures err { OnErr result (AppendsBeginning (F.contents faults.old) (F.contents faults.new)
            (flat_map row_line (counts_of self.now).rows ++ others_line (counts_of self.now).others)) }
        ensures counts { CountsFailure result (F.failures faults.old) (F.failures faults.new) }
    {
        write_rows(faults, &self.rows)?;
        write_others(faults, self.others)
    }
}

// How two rows compare: the more frequent cause comes first, and of equally frequent ones the one that was met first.
fn order(row: &Cause, other: &Cause) -> Ordering
    ensures { result ≡ row_order (row_of row.now) (row_of other.now) }
{
    other
        .count
        .cmp(&row.count)
        .then(row.place.cmp(&other.place))
}

// The place of the row of this cause.
fn place_of(rows: &[Cause], cause: &[u8]) -> Option<usize>
    ensures place { result ≡ position (λ r. bytes_eq r.text.items cause.now) rows.now }
    ensures within { IfSome result (λ i. i < length rows.now) }
{
    rows.iter().position(|row| row.text.as_slice() == cause)
}

// A line for each of these causes.
fn write_rows<F: Sink>(faults: &mut F, rows: &[Cause]) -> Result<(), DeviceFault>
    ensures ok { OnOk result (Appends (F.contents faults.old) (F.contents faults.new) (flat_map row_line (map row_of rows.now))) }
    ensures err { OnErr result (AppendsBeginning (F.contents faults.old) (F.contents faults.new) (flat_map row_line (map row_of rows.now))) }
    ensures counts { CountsFailure result (F.failures faults.old) (F.failures faults.new) }
{
    for row in rows {
        write_row(faults, row)?;
    }
    Ok(())
}

// The line of a cause.
fn write_row<F: Sink>(faults: &mut F, row: &Cause) -> Result<(), DeviceFault>
    ensures ok { OnOk result (Appends (F.contents faults.old) (F.contents faults.new) (row_line (row_of row.now))) }
    ensures err { OnErr result (AppendsBeginning (F.contents faults.old) (F.contents faults.new) (row_line (row_of row.now))) }
    ensures counts { CountsFailure result (F.failures faults.old) (F.failures faults.new) }
{
    write_count(faults, row.count, row.text.as_slice())
}

// A last line of all other causes, if there are any.
fn write_others<F: Sink>(faults: &mut F, count: u64) -> Result<(), DeviceFault>
    ensures ok { OnOk result (Appends (F.contents faults.old) (F.contents faults.new) (others_line count)) }
    ensures err { OnErr result (AppendsBeginning (F.contents faults.old) (F.contents faults.new) (others_line count)) }
    ensures counts { CountsFailure result (F.failures faults.old) (F.failures faults.new) }
{
    if count == 0 {
        return Ok(());
    }
    write_count(faults, count, b"other causes")
}

// `COUNT TEXT`
fn write_count<F: Sink>(faults: &mut F, count: u64, text: &[u8]) -> Result<(), DeviceFault>
    ensures ok { OnOk result (Appends (F.contents faults.old) (F.contents faults.new) (count_line count text.now)) }
    ensures err { OnErr result (AppendsBeginning (F.contents faults.old) (F.contents faults.new) (count_line count text.now)) }
    ensures counts { CountsFailure result (F.failures faults.old) (F.failures faults.new) }
{
    write_number(faults, count)?;
    write_all(faults, b" ")?;
    write_all(faults, text)?;
    write_all(faults, b"\n")
}
