//! Devices over memory, with a reader and a writer that fail once.
use super::stop_at::StopAt;
use super::told::check_text;
use bidi_lines::{Device, DeviceFault, InputFault, Sink, Source, write_all};
use std::alloc::{AllocError, Global};
use std::io;
use std::io::Write;
use std::test::Fail;

/// Reads of `abc` into buffers of 2, 2, 0 and 2 bytes: what each gives.
const READS: &str = "Ok(2) [ab]
Ok(1) [c]
Ok(0) []
Ok(0) []
";

#[test]
fn reads_into_buffers_of_any_size(rt: HostRuntime) -> Result<(), Fail> {
    check_text(&rt, "reads", reads(rt.alloc(), b"abc")?, READS);
    Ok(())
}

fn reads(alloc: Global, text: &[u8]) -> Result<String, AllocError> {
    let mut source = Device::new(text);
    let mut told = String::new(alloc);
    push_read(&mut told, &mut source, &mut [0; 2])?;
    push_read(&mut told, &mut source, &mut [0; 2])?;
    push_read(&mut told, &mut source, &mut [])?;
    push_read(&mut told, &mut source, &mut [0; 2])?;
    Ok(told)
}

/// Appends what one read gives.
fn push_read(
    told: &mut String,
    source: &mut Device<&[u8]>,
    buffer: &mut [u8],
) -> Result<(), AllocError> {
    let count = source.read(buffer);
    let bytes = buffer.get(..count.unwrap_or(0)).unwrap_or(b"");
    write!(told, "{count:?} [{}]\n", bytes.escape_ascii())
}

/// `hello` written and then its rest, two bytes a write, where each write in its turn fails: what each writing
/// answers, and all bytes that were written.
const WRITINGS: &str = "Err(DeviceFault) []
Ok(()) [hello]
Err(DeviceFault) [he]
Ok(()) [hello]
Err(DeviceFault) [hell]
Ok(()) [hello]
";

/// A write and a writing of one byte, and of none, to a writer that takes nothing.
const NOTHING: &str = "Err(DeviceFault) Err(DeviceFault) Ok(0) Ok(())";

#[test]
fn writes_on_after_a_failure(rt: HostRuntime) -> Result<(), Fail> {
    check_text(&rt, "writings", writings(rt.alloc(), b"hello")?, WRITINGS);
    check_text(&rt, "nothing", writings_of_nothing(rt.alloc())?, NOTHING);
    Ok(())
}

fn writings(alloc: Global, text: &[u8]) -> Result<String, AllocError> {
    let mut told = String::new(alloc);
    for stop in 1..=3usize {
        let mut held = StopAt::new(Vec::new(alloc), stop, 2);
        push_writing(&mut told, &mut held, text)?;
        let rest = text.get(held.inner.len()..).unwrap_or(b"");
        push_writing(&mut told, &mut held, rest)?;
    }
    Ok(told)
}

/// Appends what one writing gives.
fn push_writing(
    told: &mut String,
    held: &mut StopAt<Vec<u8>>,
    bytes: &[u8],
) -> Result<(), AllocError> {
    let answer = write_all(&mut Device::new(&mut *held), bytes);
    write!(told, "{answer:?} [{}]\n", held.inner.escape_ascii())
}

/// A writer that takes nothing.
#[derive(Drop)]
struct Full;

impl Write for Full {
    fn write(&mut self, _bytes: &[u8]) -> io::Result<usize> {
        Ok(0)
    }

    fn flush(&mut self) -> io::Result<()> {
        Ok(())
    }
}

fn writings_of_nothing(alloc: Global) -> Result<String, AllocError> {
    let mut sink = Device::new(Full);
    let one = sink.write(b"x");
    let all = write_all(&mut sink, b"x");
    let none = sink.write(b"");
    let rest = write_all(&mut sink, b"");
    format!(in alloc; "{one:?} {all:?} {none:?} {rest:?}")
}

#[test]
fn takes_the_streams_of_the_process(rt: HostRuntime) -> Result<(), Fail> {
    let read = Device::new(rt.reader()).read(&mut [0; 2]);
    let written = write_all(&mut Device::new(io::writer(&rt)), b"hello\n");
    check_text(
        &rt,
        "streams",
        format!(in rt.alloc(); "{read:?} {written:?}")?,
        "Ok(0) Ok(())",
    );
    let faults = format!(in rt.alloc(); "{DeviceFault}, {}", InputFault::NoMemory)?;
    check_text(&rt, "faults", faults, "a device failed, out of memory");
    Ok(())
}
