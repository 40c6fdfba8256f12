//! Numbers that are written.
ghost use Rattle.std.specs.Prelude.{◌≡◌, ◌+◌, decimal, OnErr, OnOk};
ghost use Rattle.std.specs.Io.KnownBytes.{Appends};
ghost use Rattle.bidi_lines.specs.Devices.{AppendsBeginning, CountsFailure};

use bidi_lines::{DeviceFault, Sink, write_all};
use itoa::Buffer;

/// Writes a number in decimal. Takes no memory.
///
/// # Errors
/// `DeviceFault`: a write failed.
pub(crate) fn write_number<F: Sink>(sink: &mut F, number: u64) -> Result<(), DeviceFault>
    ensures ok { OnOk result (Appends (F.contents sink.old) (F.contents sink.new) (decimal number)) }
    ensures err { OnErr result (AppendsBeginning (F.contents sink.old) (F.contents sink.new) (decimal number)) }
    ensures counts { CountsFailure result (F.failures sink.old) (F.failures sink.new) }
{
    write_all(sink, Buffer::new().format(number).as_bytes())
}
