//! A reader and a writer that fail once.
use std::io;
use std::io::{ErrorKind, Read, Write};

/// A reader or a writer of at most so many bytes a call, that fails once, at the call of this number.
#[derive(Drop)]
pub(crate) struct StopAt<T> {
    pub(crate) inner: T,
    calls: usize,
    most: usize,
}

impl<T> StopAt<T> {
    pub(crate) fn new(inner: T, calls: usize, most: usize) -> StopAt<T> {
        StopAt { inner, calls, most }
    }

    fn stops(&mut self) -> bool {
        let stops = self.calls == 1;
        self.calls = self.calls.saturating_sub(1);
        stops
    }
}

impl<T: Read> Read for StopAt<T> {
    fn read(&mut self, buffer: &mut [u8]) -> io::Result<usize> {
        if self.stops() {
            return Err(io::Error::from(ErrorKind::BrokenPipe));
        }
        let most = self.most.min(buffer.len());
        self.inner.read(&mut buffer[..most])
    }
}

impl<T: Write> Write for StopAt<T> {
    fn write(&mut self, bytes: &[u8]) -> io::Result<usize> {
        if self.stops() {
            return Err(io::Error::from(ErrorKind::BrokenPipe));
        }
        let most = self.most.min(bytes.len());
        self.inner.write(&bytes[..most])
    }

    fn flush(&mut self) -> io::Result<()> {
        self.inner.flush()
    }
}
