//! The faults that end a run: the status for each, and its line.
ghost use Rattle.std.specs.Prelude.{◌≡◌, ◌++◌, codes, decimal, OnOk, OnErr};
ghost use Rattle.std.specs.Io.KnownBytes.{Appends};
ghost use Rattle.bidi_lines.specs.Devices.{AppendsBeginning, CountsFailure};
ghost use Rattle.bidi_run.specs.Runs.{Tells, line_of, status_of, with_number};

use bidi_lines::{DeviceFault, LinesFault, Sink, write_all};
use bidi_play::PlayFault;
use bidi_recorder::HostingFault;
use bidi_serve::ServeFault;
use itoa::Buffer;

/// Why a run ended early. `status` and `report` say what a program does then.
#[derive(Clone, Copy, Debug, PartialEq, Eq)]
pub enum RunFault {
    /// `play` or `reduce` stopped, for this cause.
    Play(PlayFault),
    /// `pair` stopped, for this cause.
    Pair(LinesFault),
    /// `show` or `check` stopped, for this cause.
    Listing(LinesFault),
    /// `serve` stopped, for this cause.
    Serve(ServeFault),
    /// `host` stopped, for this cause.
    Host(HostingFault),
}

impl RunFault {
    /// The status of a program that this fault ends.
    pub fn status(self) -> u8
        // The result is 2 for a bad line, and 3 otherwise.
        ensures { result ≡ status_of self }
    {
        match self {
            RunFault::Play(PlayFault::BadLine(_)) => 2,
            RunFault::Pair(LinesFault::BadLine(_)) => 2,
            RunFault::Listing(LinesFault::BadLine(_)) => 2,
            RunFault::Host(HostingFault::BadLine(_)) => 2,
            _ => 3,
        }
    }

    /// Writes the line for the fault to a sink. Takes no memory.
    pub fn report<F: Sink>(self, faults: &mut F)
        // The whole line is written, or a beginning of it if the sink fails.
        ensures { Tells (F.contents faults.old) (F.contents faults.new) (F.failures faults.old) (F.failures faults.new) (line_of self) }
    {
        let _ = match self.words() {
            (None, line) => write_all(faults, line.as_bytes()),
            (Some(number), rest) => write_numbered(faults, number, rest),
        };
    }

    // The number of a bad line and the words after it, or the whole line.
    fn words(self) -> (Option<u64>, &'static str)
        ensures { line_of self ≡ with_number result.0 result.1.now }
    {
        match self {
            RunFault::Play(PlayFault::BadLine(number)) => (Some(number), " is no play line\n"),
            RunFault::Pair(LinesFault::BadLine(number)) => (Some(number), " is no pair line\n"),
            RunFault::Listing(LinesFault::BadLine(number)) => (Some(number), " is no text line\n"),
            RunFault::Host(HostingFault::BadLine(number)) => {
                (Some(number), " is no line of a page\n")
            }
            RunFault::Play(PlayFault::Read)
            | RunFault::Pair(LinesFault::Read)
            | RunFault::Listing(LinesFault::Read)
            | RunFault::Host(HostingFault::Read) => (None, "bidi: input cannot be read\n"),
            RunFault::Play(PlayFault::Write)
            | RunFault::Pair(LinesFault::Write)
            | RunFault::Listing(LinesFault::Write)
            | RunFault::Host(HostingFault::Answer) => (None, "bidi: output cannot be written\n"),
            RunFault::Play(PlayFault::NoMemory)
            | RunFault::Pair(LinesFault::NoMemory)
            | RunFault::Listing(LinesFault::NoMemory)
            | RunFault::Serve(ServeFault::NoMemory)
            | RunFault::Host(HostingFault::NoMemory) => (None, "bidi: out of memory\n"),
            RunFault::Play(PlayFault::WornOut)
            | RunFault::Pair(LinesFault::TooManyLines)
            | RunFault::Pair(LinesFault::WornOut)
            | RunFault::Listing(LinesFault::TooManyLines)
            | RunFault::Listing(LinesFault::WornOut)
            | RunFault::Serve(ServeFault::WornOut)
            | RunFault::Host(HostingFault::WornOut) => (None, "bidi: too many steps\n"),
            RunFault::Serve(ServeFault::Listen) | RunFault::Host(HostingFault::Listen) => {
                (None, "bidi: cannot listen\n")
            }
            RunFault::Host(HostingFault::Write) => (None, "bidi: record cannot be written\n"),
            RunFault::Host(HostingFault::Unsaid) => (None, "bidi: a text cannot be recorded\n"),
        }
    }
}

// Writes the line of a fault that has a line number.
fn write_numbered<F: Sink>(faults: &mut F, number: u64, rest: &str) -> Result<(), DeviceFault>
    ensures ok { OnOk result (Appends (F.contents faults.old) (F.contents faults.new) (codes "bidi: line " ++ decimal number ++ rest.now)) }
    ensures err { OnErr result (AppendsBeginning (F.contents faults.old) (F.contents faults.new) (codes "bidi: line " ++ decimal number ++ rest.now)) }
    ensures counts { CountsFailure result (F.failures faults.old) (F.failures faults.new) }
{
    write_all(faults, b"bidi: line ")?;
    write_all(faults, Buffer::new().format(number).as_bytes())?;
    write_all(faults, rest.as_bytes())
}
