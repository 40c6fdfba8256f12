//! Runs: doing what a command line asks for, over the devices of a program.
ghost use Rattle.std.specs.Prelude.{◌≡◌, ℕ, ◌+◌, ◌<◌, ◌≤◌, List, true, false, IsTrue, IfOk, IfErr, OnErr, MatchResult};
ghost use Rattle.bidi_lines.specs.Devices.{Moves};
ghost use Rattle.bidi_play.specs.Plays.{Plays};
ghost use Rattle.bidi_why.specs.Summary.{SumsUp};
ghost use Rattle.bidi_run.specs.declared.faults.RunFault.{RunFault as Fault};
ghost use Rattle.bidi_run.specs.declared.faults.RunFault.TheVariants as fault;
ghost use Rattle.bidi_run.specs.Runs.{Completes, Counts, Stops, Tells, both_form, failed_reads, failed_writes, form_of, line_of, status_of, sums_up};

use super::faults::RunFault;
use super::pairing::play_pair;
use super::reducing::reduce_scripted;
use bidi_command_line::{BothOptions, StreamRun};
use bidi_lines::{Sink, Source};
use bidi_play::play;
use bidi_recorder::HostingFault;
use bidi_reduce::reduce;
use bidi_script_lines::play_scripted;
use bidi_serve::ServeFault;
use bidi_show::{Listing, list};
use bidi_why::{Form, explain, explain_both};
use std::alloc::Global;

/// Does what was asked for, and returns the status of the program.
///
/// The status is 0 if everything was done; 1 if a check found a line that is refused or a command without a
/// reply; 2 for a bad line; and 3 if input, output or memory failed, or if there are too many steps or lines.
/// A fault is written to `faults` as one line; whether that write succeeds does not change the status. A
/// check with `--why` also writes its summary of the refused lines there.
pub fn run<R: Source, W: Sink, F: Sink>(
    alloc: Global,
    run: &StreamRun,
    source: &mut R,
    sink: &mut W,
    faults: &mut F,
) -> u8
    // With status 0 or 1, no device failed, all input was worked on, and what was written is what the
    // run writes for it; nothing was written to `faults`, except by a check with `--why` and status 1.
    ensures done { result ≤ 1 → IsTrue (R.has_ended source.new) × (R.failures source.new ≡ R.failures source.old) × (W.failures sink.new ≡ W.failures sink.old)
        × (sums_up run.now result ≡ false → faults.new ≡ faults.old)
        × Moves (R.left source.old) (R.left source.new) (W.contents sink.old) (W.contents sink.new) (Completes run.now result) }
    // A check with `--why` and status 1 wrote the summary of its report to `faults`, or a beginning of
    // it if a write failed.
    ensures summary { result ≤ 1 → sums_up run.now result ≡ true → Moves (R.left source.old) (R.left source.new) (W.contents sink.old) (W.contents sink.new)
        (Counts run.now (SumsUp (F.contents faults.old) (F.contents faults.new) (F.failures faults.old) (F.failures faults.new))) }
    // With a greater status a fault ended the run: its line was written, and it says what was read
    // and written and which device failed.
    ensures stopped { 1 < result → (fault : Fault) × (result ≡ status_of fault)
        × (R.failures source.new ≡ R.failures source.old + failed_reads fault) × (W.failures sink.new ≡ W.failures sink.old + failed_writes fault)
        × Tells (F.contents faults.old) (F.contents faults.new) (F.failures faults.old) (F.failures faults.new) (line_of fault)
        × Moves (R.left source.old) (R.left source.new) (W.contents sink.old) (W.contents sink.new) (Stops run.now fault (R.has_ended source.new)) }
    // The bytes of a play determine its text: there is only one.
    ensures one_text { (bytes text other : List ℕ) → Plays bytes text → Plays bytes other → text ≡ other }
{
    match finish(alloc, run, source, sink, faults) {
        Ok(status) => status,
        Err(fault) => {
            fault.report(faults);
            fault.status()
        }
    }
}

// Does what was asked for. Returns the status of the program if there is no fault.
fn finish<R: Source, W: Sink, F: Sink>(
    alloc: Global,
    run: &StreamRun,
    source: &mut R,
    sink: &mut W,
    faults: &mut F,
) -> Result<u8, RunFault>
    ensures ok { IfOk result (λ status. (status ≤ 1) × IsTrue (R.has_ended source.new)
        × Moves (R.left source.old) (R.left source.new) (W.contents sink.old) (W.contents sink.new) (Completes run.now status)) }
    ensures err { IfErr result (λ fault. Moves (R.left source.old) (R.left source.new) (W.contents sink.old) (W.contents sink.new)
        (Stops run.now fault (R.has_ended source.new))) }
    ensures reads { MatchResult result (λ _. R.failures source.new ≡ R.failures source.old)
        (λ fault. R.failures source.new ≡ R.failures source.old + failed_reads fault) }
    ensures writes { MatchResult result (λ _. W.failures sink.new ≡ W.failures sink.old)
        (λ fault. W.failures sink.new ≡ W.failures sink.old + failed_writes fault) }
    ensures quiet { IfOk result (λ status. sums_up run.now status ≡ false → faults.new ≡ faults.old) }
    ensures summary { IfOk result (λ status. sums_up run.now status ≡ true
        → Moves (R.left source.old) (R.left source.new) (W.contents sink.old) (W.contents sink.new)
        (Counts run.now (SumsUp (F.contents faults.old) (F.contents faults.new) (F.failures faults.old) (F.failures faults.new)))) }
    ensures untold { OnErr result (faults.new ≡ faults.old) }
{
    match run {
        StreamRun::Play => match play(alloc, source, sink) {
            Ok(()) => Ok(0),
            Err(fault) => Err(RunFault::Play(fault)),
        },
        StreamRun::ScriptedPlay => match play_scripted(alloc, source, sink) {
            Ok(()) => Ok(0),
            Err(fault) => Err(RunFault::Play(fault)),
        },
        StreamRun::Pair => match play_pair(alloc, source, sink) {
            Ok(()) => Ok(0),
            Err(fault) => Err(RunFault::Pair(fault)),
        },
        StreamRun::Reduce(session) => match reduce(alloc, *session, source, sink) {
            Ok(()) => Ok(0),
            Err(fault) => Err(RunFault::Play(fault)),
        },
        StreamRun::ScriptedReduce(session) => {
            match reduce_scripted(alloc, *session, source, sink) {
                Ok(()) => Ok(0),
                Err(fault) => Err(RunFault::Play(fault)),
            }
        }
        StreamRun::Show(side) => match list(alloc, Listing::All, *side, source, sink) {
            Ok(_) => Ok(0),
            Err(fault) => Err(RunFault::Listing(fault)),
        },
        StreamRun::Check(side) => match list(alloc, Listing::RefusedAlone, *side, source, sink) {
            Ok(found) => Ok(if found { 1 } else { 0 }),
            Err(fault) => Err(RunFault::Listing(fault)),
        },
        StreamRun::Why(options) => {
            match explain(
                alloc,
                form_of(options.is_json),
                options.side,
                options.profile_only,
                source,
                sink,
                faults,
            ) {
                Ok(found) => Ok(if found { 1 } else { 0 }),
                Err(fault) => Err(RunFault::Listing(fault)),
            }
        }
        StreamRun::Both(options) => {
            match explain_both(
                alloc,
                both_form(*options),
                options.profile_only,
                source,
                sink,
                faults,
            ) {
                Ok(found) => Ok(if found { 1 } else { 0 }),
                Err(fault) => Err(RunFault::Listing(fault)),
            }
        }
    }
}

// The form in which a check says why.
fn form_of(is_json: bool) -> Form
    ensures { result ≡ form_of is_json }
{
    if is_json { Form::Json } else { Form::Words }
}

// The form in which a check of a conversation says why, if it does.
fn both_form(options: BothOptions) -> Option<Form>
    ensures { result ≡ both_form options }
{
    if options.is_why {
        Some(form_of(options.is_json))
    } else {
        None
    }
}

/// The status of a program that served, whose fault is written to `faults` as one line. Whether that write
/// succeeds does not change the status.
pub fn serving_status<F: Sink>(served: Result<(), ServeFault>, faults: &mut F) -> u8
    // The result is 0 if all connections were served; otherwise it is that of the fault, whose line
    // was written.
    ensures { MatchResult served (λ _. (result ≡ 0) × (faults.new ≡ faults.old)) (λ f. (result ≡ status_of (fault.Serve f))
        × Tells (F.contents faults.old) (F.contents faults.new) (F.failures faults.old) (F.failures faults.new) (line_of (fault.Serve f))) }
{
    match served {
        Ok(()) => 0,
        Err(fault) => {
            let fault = RunFault::Serve(fault);
            fault.report(faults);
            fault.status()
        }
    }
}

/// The status of a program that hosted, whose fault is written to `faults` as one line. Whether that write
/// succeeds does not change the status.
pub fn hosting_status<F: Sink>(hosted: Result<(), HostingFault>, faults: &mut F) -> u8
    // The result is 0 if the program was told to end; otherwise it is that of the fault, whose line
    // was written.
    ensures { MatchResult hosted (λ _. (result ≡ 0) × (faults.new ≡ faults.old)) (λ f. (result ≡ status_of (fault.Host f))
        × Tells (F.contents faults.old) (F.contents faults.new) (F.failures faults.old) (F.failures faults.new) (line_of (fault.Host f))) }
{
    match hosted {
        Ok(()) => 0,
        Err(fault) => {
            let fault = RunFault::Host(fault);
            fault.report(faults);
            fault.status()
        }
    }
}
