//! What was told so far, in numbers.
ghost use Rattle.std.specs.Prelude.{◌≡◌, ◌<◌, ◌+◌, ◌++◌, ◌∷◌, [], ◌^◌, ◌||◌, ℕ, List, true, false, length, replicate, string_bytes, codes, OnErr, OnOk, if◌then◌else◌};
ghost use Rattle.std.specs.Io.KnownBytes.{Appends};
ghost use Rattle.bidi_lines.specs.Devices.{AppendsBeginning, CountsFailure};
ghost use Rattle.bidi_lines.specs.InputLines.{most_lines};
ghost use Rattle.bidi_why.specs.Summary.{Entry, IsSum, SumsUp, head_line, hint_line, is_fault, is_same, some_words, sum_text, unanswered};

use crate::counting::Causes;
use crate::writing::write_number;
use bidi_lines::{DeviceFault, Sink, write_all};
use bidi_remarks::CountedAs;
use std::alloc::{AllocError, Global};

/// What is told where a line is an object of a log.
const HINT: &[u8] =
    b"hint: lines such as {\"dir\":..} are objects of a log; docs/CHECKING.md has recipes that make lines of them\n";

/// How many lines there were, how many of them have a fault, and which causes were met.
#[derive(Drop)]
pub(crate) struct Sum {
    /// How many lines there were.
    pub lines: u64,
    /// Whether there was any fault.
    pub has_fault: bool,
    // Whether a line of which something was told looks like an object of a log.
    has_log: bool,
    // How many lines have a fault by the W3C's draft, too.
    refused: u64,
    // How many lines have one for the profile alone.
    beyond: u64,
    // How many commands failed.
    failed: u64,
    // How many commands were never answered.
    unanswered: u64,
    causes: Causes,
}

impl Sum {
    /// That of no line. Takes no memory.
    pub(crate) fn new(alloc: Global) -> Sum
        ensures sum { IsSum result 0 [] }
    {
        Sum {
            lines: 0,
            has_fault: false,
            has_log: false,
            refused: 0,
            beyond: 0,
            failed: 0,
            unanswered: 0,
            causes: Causes::new(alloc),
        }
    }

    /// Counts one more line, of which nothing is told so far. Takes no memory.
    pub(crate) fn next_line(&mut self)
        requires few { self.old.lines < most_lines }
        ensures lines { self.new.lines ≡ self.old.lines + 1 }
        ensures sum { (n : ℕ) (told : List Entry) → IsSum self.old n told → IsSum self.new (n + 1) told }
    {
        self.lines += 1;
    }

    /// Counts what is told of a line, by its cause.
    ///
    /// # Errors
    /// No memory: an allocation failed.
    pub(crate) fn count(
        &mut self,
        counted_as: CountedAs,
        cause: Vec<u8>,
        is_log: bool,
    ) -> Result<(), AllocError>
        ensures lines { self.new.lines ≡ self.old.lines }
        ensures sum { OnOk result ((n : ℕ) (told : List Entry) → length told + 1 < 2 ^ 64 → IsSum self.old n told
            → IsSum self.new n (told ++ record { counted_as = counted_as; cause = cause.items; is_log = is_log } ∷ [])) }
    {
        self.causes.add(cause)?;
        self.refused = more_if(self.refused, CountedAs::Refused, counted_as);
        self.beyond = more_if(self.beyond, CountedAs::Beyond, counted_as);
        self.failed = more_if(self.failed, CountedAs::Failed, counted_as);
        self.unanswered = more_if(self.unanswered, CountedAs::Unanswered, counted_as);
        self.has_log |= is_log;
        self.has_fault |= is_fault(counted_as);
        Ok(())
    }

    /// Counts so many commands without an answer.
    ///
    /// # Errors
    /// No memory: an allocation failed.
    pub(crate) fn count_unanswered(&mut self, alloc: Global, count: usize) -> Result<(), AllocError>
        ensures sum { OnOk result ((n : ℕ) (told : List Entry) → length told + count < 2 ^ 64 → IsSum self.old n told
            → IsSum self.new n (told ++ replicate count unanswered)) }
    {
        for _ in 0..count {
            let cause = Vec::from_slice(alloc, b"unanswered")?;
            self.count(CountedAs::Unanswered, cause, false)?;
        }
        Ok(())
    }

    /// Writes how many lines have a fault and why, as far as it can be written, and returns whether there was any fault.
    ///
    /// Where there was none, it writes nothing. Takes no memory.
    pub(crate) fn tell<F: Sink>(&mut self, faults: &mut F) -> bool
        ensures some { result ≡ self.old.has_fault }
        ensures quiet { result ≡ false → faults.new ≡ faults.old }
        ensures told { result ≡ true → (n : ℕ) (told : List Entry) → IsSum self.old n told
            → SumsUp (F.contents faults.old) (F.contents faults.new) (F.failures faults.old) (F.failures faults.new) n told }
    {
        if !self.has_fault {
            return false;
        }
        self.causes.sort();
        let _ = self.write(faults);
        true
    }

    // `R of N lines are refused`, how many are beyond the profile, failed or were never answered, the causes, and a hint at logs.
    fn write<F: Sink>(&self, faults: &mut F) -> Result<(), DeviceFault>
        ensures ok { OnOk result (Appends (F.contents faults.old) (F.contents faults.new) (sum_text self.now)) }
        ensures err { OnErr result (AppendsBeginning (F.contents faults.old) (F.contents faults.new) (sum_text self.now)) }
        ensures counts { CountsFailure result (F.failures faults.old) (F.failures faults.new) }
    {
        self.write_head(faults)?;
        self.causes.write(faults)?;
        write_all(faults, hint(self.has_log))
    }

    // `R of N lines are refused`, and how many are beyond the profile, failed or were never answered.
    fn write_head<F: Sink>(&self, faults: &mut F) -> Result<(), DeviceFault>
        ensures ok { OnOk result (Appends (F.contents faults.old) (F.contents faults.new)
            (head_line self.now.lines self.now.refused self.now.beyond self.now.failed self.now.unanswered)) }
        ensures err { OnErr result (AppendsBeginning (F.contents faults.old) (F.contents faults.new)
            (head_line self.now.lines self.now.refused self.now.beyond self.now.failed self.now.unanswered)) }
        ensures counts { CountsFailure result (F.failures faults.old) (F.failures faults.new) }
    {
        write_number(faults, self.refused)?;
        write_all(faults, b" of ")?;
        write_number(faults, self.lines)?;
        write_all(faults, b" lines are refused")?;
        write_some(faults, self.beyond, b" beyond the profile")?;
        write_some(faults, self.failed, b" failed")?;
        write_some(faults, self.unanswered, b" unanswered")?;
        write_all(faults, b"\n")
    }
}

// So many, and one more if something of this kind is counted.
fn more_if(count: u64, kind: CountedAs, counted_as: CountedAs) -> u64
    ensures { count + 1 < 2 ^ 64 → result ≡ count + (if is_same kind counted_as then 1 else 0) }
{
    if is_same(kind, counted_as) {
        count.saturating_add(1)
    } else {
        count
    }
}

// Whether both are counted alike.
fn is_same(kind: CountedAs, other: CountedAs) -> bool
    ensures { result ≡ is_same kind other }
{
    match kind {
        CountedAs::Refused => matches!(other, CountedAs::Refused),
        CountedAs::Beyond => matches!(other, CountedAs::Beyond),
        CountedAs::Failed => matches!(other, CountedAs::Failed),
        CountedAs::Unanswered => matches!(other, CountedAs::Unanswered),
    }
}

// Whether what is counted so is a fault.
fn is_fault(counted_as: CountedAs) -> bool
    ensures { result ≡ is_fault counted_as }
{
    !matches!(counted_as, CountedAs::Failed)
}

// `, COUNT WHAT`, where there are any.
fn write_some<F: Sink>(faults: &mut F, count: u64, what: &[u8]) -> Result<(), DeviceFault>
    ensures ok { OnOk result (Appends (F.contents faults.old) (F.contents faults.new) (some_words count what.now)) }
    ensures err { OnErr result (AppendsBeginning (F.contents faults.old) (F.contents faults.new) (some_words count what.now)) }
    ensures counts { CountsFailure result (F.failures faults.old) (F.failures faults.new) }
{
    if count == 0 {
        return Ok(());
    }
    write_all(faults, b", ")?;
    write_number(faults, count)?;
    write_all(faults, what)
}

// Where recipes for logs are, if a line looks like an object of one.
fn hint(has_log: bool) -> &'static [u8]
    ensures { result.now ≡ hint_line has_log }
{
    if has_log { HINT } else { b"" }
}
