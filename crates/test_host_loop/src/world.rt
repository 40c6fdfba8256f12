//! What lies round a host in a test: a clock that the test moves, and all that the host wrote.
use bidi_host_loop::Surroundings;
use bidi_recorder::HostingFault;
use std::alloc::{AllocError, Global};
use std::io;
use std::io::{ErrorKind, Read};
use std::net::TcpStream;
use std::os::fd::{AsRawFd, RawFd};
use std::time::{Duration, Instant};

/// A clock that the test moves, the records, and the streams.
#[derive(Drop)]
pub struct World {
    alloc: Global,
    now: Instant,
    /// The record of each browser, the oldest first.
    pub records: Vec<String>,
    /// The last line of them.
    pub last_line: String,
    /// The lines of standard error.
    pub notes: Vec<String>,
    /// The lines of standard output.
    pub answers: Vec<String>,
    // Standard input, if there is one.
    input: Option<TcpStream>,
    /// Whether reads of standard input fail.
    pub input_fails: bool,
    /// Whether writes of standard output fail.
    pub output_fails: bool,
}

impl World {
    /// A world in which nothing has happened.
    pub fn new(alloc: Global, now: Instant, input: Option<TcpStream>) -> Result<World, AllocError> {
        let mut records = Vec::new(alloc);
        add(alloc, &mut records)?;
        Ok(World {
            alloc,
            now,
            records,
            last_line: String::new(alloc),
            notes: Vec::new(alloc),
            answers: Vec::new(alloc),
            input,
            input_fails: false,
            output_fails: false,
        })
    }

    /// The clock moves by so many seconds.
    pub fn go(&mut self, seconds: u64) {
        if let Some(now) = self.now.checked_add(Duration::from_secs(seconds)) {
            self.now = now;
        }
    }
}

impl Surroundings for World {
    fn now(&self) -> io::Result<Instant> {
        Ok(self.now)
    }

    fn record(&mut self, line: &str) -> Result<(), HostingFault> {
        match self.records.last_mut() {
            Some(record) => {
                record.push_str(line)?;
                record.push_str("\n")?;
                self.last_line = String::from_str(self.alloc, line)?;
                Ok(())
            }
            None => Err(HostingFault::Write),
        }
    }

    fn next_record(&mut self) -> Result<(), HostingFault> {
        add(self.alloc, &mut self.records)?;
        Ok(())
    }

    fn input_fd(&self) -> RawFd {
        match &self.input {
            Some(input) => input.as_raw_fd(),
            None => -1,
        }
    }

    fn read(&mut self, buffer: &mut [u8]) -> io::Result<usize> {
        if self.input_fails {
            return Err(io::Error::from(ErrorKind::Other));
        }
        match &mut self.input {
            Some(input) => input.read(buffer),
            None => Ok(0),
        }
    }

    fn answer(&mut self, line: &str) -> io::Result<()> {
        if self.output_fails {
            return Err(io::Error::from(ErrorKind::BrokenPipe));
        }
        keep(self.alloc, &mut self.answers, line);
        Ok(())
    }

    fn note(&mut self, line: &str) {
        keep(self.alloc, &mut self.notes, line);
    }
}

/// Keeps a line, where there is memory.
fn keep(alloc: Global, lines: &mut Vec<String>, line: &str) {
    if let Ok(line) = String::from_str(alloc, line) {
        let _ = lines.push(line);
    }
}

/// Adds an empty text.
fn add(alloc: Global, texts: &mut Vec<String>) -> Result<(), AllocError> {
    texts.push(String::new(alloc))?;
    Ok(())
}
