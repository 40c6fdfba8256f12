//! What a host needs from its program.
use bidi_recorder::HostingFault;
use std::io;
use std::os::fd::RawFd;
use std::time::Instant;

/// What a host needs from its program: the clock, the record, and the standard streams. A program gives those
/// of the system, and a test its own.
pub trait Surroundings {
    /// The time, from a clock that never goes back.
    fn now(&self) -> io::Result<Instant>;

    /// Appends a line and its line feed to the record, whole, and flushes it. Does nothing if there is no
    /// record.
    ///
    /// # Errors
    /// `Write`: the record cannot be written.
    fn record(&mut self, line: &str) -> Result<(), HostingFault>;

    /// Continues the record in the next file, because the browser is new.
    ///
    /// # Errors
    /// `Write`: the file cannot be created.
    fn next_record(&mut self) -> Result<(), HostingFault>;

    /// The descriptor of standard input.
    fn input_fd(&self) -> RawFd;

    /// Reads some bytes from standard input, at most as many as the buffer has room for; 0 at its end.
    fn read(&mut self, buffer: &mut [u8]) -> io::Result<usize>;

    /// Writes a line and its line feed to standard output.
    ///
    /// # Errors
    /// Any failure of the stream. It ends the host.
    fn answer(&mut self, line: &str) -> io::Result<()>;

    /// Writes a line and its line feed to standard error. A failure has no effect.
    fn note(&mut self, line: &str);
}
