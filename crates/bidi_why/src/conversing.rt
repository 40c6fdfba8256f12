//! Listings of what is wrong with the lines of a conversation.
ghost use Rattle.std.specs.Prelude.{◌≡◌, ℕ, ◌+◌, ◌++◌, ◌<◌, ◌≤◌, ◌^◌, List, None, true, false, is_some, length, IfOk, IfErr, OnErr, OnOk, IsTrue, MatchResult};
ghost use Rattle.std.specs.Io.KnownBytes.{Appends};
ghost use Rattle.bidi_lines.specs.Devices.{Moves};
ghost use Rattle.bidi_lines.specs.InputLines.{most_lines};
ghost use Rattle.bidi_lines.specs.Stops.{failed_reads, failed_writes};
ghost use Rattle.bidi_why.specs.Conversing.{CountsConversation, StopsConversation, TellsConversation, unanswered_commands, unanswered_entries, unanswered_lines};
ghost use Rattle.bidi_why.specs.Explainers.{standing_of};
ghost use Rattle.bidi_why.specs.Summary.{Entry, IsSum, SumsUp};
ghost use Rattle.bidi_why.specs.Telling.{StopsLine};

use crate::conversation::Conversation;
use crate::listing::{tell_lines, write};
use crate::sum::Sum;
use crate::unanswered::{Unanswered, unanswered_commands, unanswered_lines};
use bidi_lines::{LinesFault, Sink, Source};
use bidi_remarks::Form;
use std::alloc::Global;

/// Tells what is wrong in a conversation of both ends, and returns whether anything is.
///
/// Each line is `> ` and a text of the local end, or `< ` and one of the remote end, in the order in which they were sent. Each text is judged
/// as a text of its end. Answers are held against the commands: a command that is accepted waits from then on, as at a [`LocalEnd`](bidi_local::LocalEnd)
/// that sent just these commands, and messages mean what they mean to it. So it is told, too, where a command has the id of one that waits, or comes
/// while 1,024 wait; where a response or an error answers no command that waits; where a result does not fit the rule of its command's method; where a
/// command failed, which is no fault; and, behind the last line, which commands were never answered. Of an answer to a text that was refused nothing
/// is told, as long as its id is one of the first 1,024 such ids without an answer. A command that was refused as beyond the profile is told with those
/// that were never answered, as long as its id is such an id and its method has at most 4,096 bytes.
///
/// A refused text of the remote end answers the command whose id it has. Its line says so, and the command no longer waits.
///
/// With `profile_only` nothing is told of what is wrong for the profile and not for the W3C's draft.
///
/// Without a form each line says in brief what is wrong. With one it says where and why, and behind all, where there was a fault, `faults` is told how
/// many lines have one and why, as [`explain`](crate::explain) tells it. Lines are read as there.
///
/// Costs the reading of each text, of a refused one and of a bad result twice. Memory holds a line, what waits, and at most 1,000 causes.
///
/// # Errors
/// As [`explain`](crate::explain).
pub fn explain_both<R: Source, W: Sink, F: Sink>(
    alloc: Global,
    form: Option<Form>,
    profile_only: bool,
    source: &mut R,
    sink: &mut W,
    faults: &mut F,
) -> Result<bool, LinesFault>
    // After an Ok, the input was lines, and the report of all of them and of the unanswered commands was written.
    ensures ok { IfOk result (λ some. Moves (R.left source.old) (R.left source.new) (W.contents sink.old) (W.contents sink.new)
        (TellsConversation form profile_only some)) }
    // After an Ok, the input has ended.
    ensures end { OnOk result (IsTrue (R.has_ended source.new)) }

    // With a form, if there is a finding, `faults` gets the summary of the report, or a beginning of it if a write fails.
    ensures summary { IfOk result (λ some. Moves (R.left source.old) (R.left source.new) (W.contents sink.old) (W.contents sink.new)
        (CountsConversation form profile_only (λ n told. is_some form ≡ true → some ≡ true
        → SumsUp (F.contents faults.old) (F.contents faults.new) (F.failures faults.old) (F.failures faults.new) n told))) }

    // After a fault, nothing was written to `faults`.
    ensures told { OnErr result (faults.new ≡ faults.old) }
    // If there is no finding, nothing was written to `faults`.
    ensures quiet { IfOk result (λ some. some ≡ false → faults.new ≡ faults.old) }
    // Without a form, nothing was written to `faults`.
    ensures brief { form ≡ None → faults.new ≡ faults.old }

    // A fault says what was read and written before it.
    ensures err { IfErr result (λ fault. Moves (R.left source.old) (R.left source.new) (W.contents sink.old) (W.contents sink.new)
        (StopsConversation form profile_only fault (R.has_ended source.new))) }

    // The fault is `Read` exactly if a read of the source failed.
    ensures reads { MatchResult result (λ _. R.failures source.new ≡ R.failures source.old)
        (λ fault. R.failures source.new ≡ R.failures source.old + failed_reads fault) }
    // The fault is `Write` exactly if a write of the sink failed.
    ensures writes { MatchResult result (λ _. W.failures sink.new ≡ W.failures sink.old)
        (λ fault. W.failures sink.new ≡ W.failures sink.old + failed_writes fault) }
{
    let mut conversation = Conversation::new(alloc, form, profile_only)?;
    let mut sum = Sum::new(alloc);
    tell_lines(alloc, &mut conversation, &mut sum, source, sink)?;
    tell_unanswered(alloc, &conversation, &mut sum, sink)?;
    if form.is_none() {
        return Ok(sum.has_fault);
    }
    Ok(sum.tell(faults))
}

// Writes what is told of the commands that were never answered.
fn tell_unanswered<W: Sink>(
    alloc: Global,
    conversation: &Conversation,
    sum: &mut Sum,
    sink: &mut W,
) -> Result<(), LinesFault>
    ensures sum { OnOk result ((n : ℕ) (told : List Entry) → length told ≤ most_lines → IsSum sum.old n told
        → IsSum sum.new n (told ++ unanswered_entries (unanswered_commands (standing_of conversation.now)))) }
    ensures ok { OnOk result (Appends (W.contents sink.old) (W.contents sink.new)
        (unanswered_lines conversation.now.form (unanswered_commands (standing_of conversation.now)))) }
    ensures err { IfErr result (λ fault. StopsLine (λ text. text ≡ unanswered_lines conversation.now.form (unanswered_commands (standing_of conversation.now))) fault
        (W.contents sink.old) (W.contents sink.new)) }
    ensures writes { MatchResult result (λ _. W.failures sink.new ≡ W.failures sink.old)
        (λ fault. W.failures sink.new ≡ W.failures sink.old + failed_writes fault) }
{
    let commands = unanswered_commands(alloc, conversation)?;
    sum.count_unanswered(alloc, number_of(&commands))?;
    let text = unanswered_lines(alloc, conversation.form, &commands)?;
    write(sink, &text)
}

// How many they are.
fn number_of(commands: &[Unanswered<'_>]) -> usize
    ensures is { result ≡ length commands.now }
    ensures few { result < 2 ^ 63 }
{
    commands.len()
}
