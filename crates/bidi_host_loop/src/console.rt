//! Lines from standard input, which come a few bytes at a time.
use crate::surroundings::Surroundings;
use bidi_lines::LONGEST_LINE;
use bidi_recorder::HostingFault;
use std::alloc::{AllocError, Global};
use std::io::ErrorKind;

/// The most bytes of one read. They are on the stack.
const CHUNK: usize = 8192;

/// Why bytes are not a line.
const TOO_LONG: &str = "more than 2097152 bytes";

const NOT_UTF8: &str = "not UTF-8";

const NO_LINE_FEED: &str = "no line feed at its end";

/// The next thing in a console.
pub(crate) enum Said {
    /// A line, without its line feed.
    Line(String),
    /// Not a line of a page, for this reason.
    NoLine(&'static str),
    /// Not a whole line yet.
    Nothing,
}

/// The bytes of standard input that were read but not handed out yet.
#[derive(Drop)]
pub(crate) struct Console {
    bytes: Vec<u8>,
    // How many bytes at the front were handed out already.
    start: usize,
    // How many bytes behind those have no line feed.
    searched: usize,
    // Whether the next bytes are the rest of a line that was too long.
    is_passing: bool,
    has_ended: bool,
    /// Whether a read gives something at once, as far as is known.
    pub(crate) is_ready: bool,
}

impl Console {
    /// Makes a console that has read nothing. Takes no memory.
    pub(crate) fn new(alloc: Global) -> Console {
        Console {
            bytes: Vec::new(alloc),
            start: 0,
            searched: 0,
            is_passing: false,
            has_ended: false,
            is_ready: false,
        }
    }

    /// Whether the input has ended.
    pub(crate) fn has_ended(&self) -> bool {
        self.has_ended
    }

    /// Reads once.
    ///
    /// # Errors
    /// - `Read`: the input cannot be read.
    /// - `NoMemory`: an allocation failed.
    pub(crate) fn read<W: Surroundings>(&mut self, world: &mut W) -> Result<(), HostingFault> {
        let mut chunk = [0u8; CHUNK];
        match world.read(&mut chunk) {
            Ok(0) => self.has_ended = true,
            Ok(n) => self.add(&chunk[..n.min(CHUNK)])?,
            Err(error) if error.kind() == ErrorKind::Interrupted => {}
            Err(error) if error.kind() == ErrorKind::WouldBlock => {}
            Err(_) => return Err(HostingFault::Read),
        }
        Ok(())
    }

    // Adds bytes at the end, and drops those that were handed out.
    fn add(&mut self, bytes: &[u8]) -> Result<(), AllocError> {
        let given = self.start.min(self.bytes.len());
        let rest = self.bytes.len() - given;
        self.bytes.rotate_left(given);
        self.bytes.truncate(rest);
        self.start = 0;
        self.bytes.extend_from_slice(bytes)
    }

    /// Gives the next line. Bytes without a line feed at the end of the input are not a line.
    pub(crate) fn next(&mut self, alloc: Global) -> Result<Said, AllocError> {
        if self.is_passing {
            self.pass();
        }
        let start = self.start.min(self.bytes.len());
        let held = &self.bytes[start..];
        if let Some(end) = line_end(held, self.searched) {
            let said = line_said(alloc, &held[..end.min(held.len())])?;
            self.give(end);
            return Ok(said);
        }
        let reason = if held.len() > LONGEST_LINE {
            TOO_LONG
        } else if self.has_ended && !held.is_empty() {
            NO_LINE_FEED
        } else {
            self.searched = held.len();
            return Ok(Said::Nothing);
        };
        self.start = self.bytes.len();
        self.searched = 0;
        self.is_passing = true;
        Ok(Said::NoLine(reason))
    }

    // Hands out the bytes up to a line feed, which is so far behind those that were handed out.
    fn give(&mut self, end: usize) {
        self.start = self.start.saturating_add(end).saturating_add(1);
        self.searched = 0;
    }

    // Skips the rest of a line that was too long, up to its line feed.
    fn pass(&mut self) {
        let start = self.start.min(self.bytes.len());
        match line_end(&self.bytes[start..], 0) {
            Some(end) => {
                self.give(end);
                self.is_passing = false;
            }
            None => self.start = self.bytes.len(),
        }
    }
}

// The place of the first line feed in these bytes, so many of which are known to have none.
fn line_end(bytes: &[u8], searched: usize) -> Option<usize> {
    let known = searched.min(bytes.len());
    let place = bytes[known..].iter().position(|b| *b == b'\n')?;
    Some(known.saturating_add(place))
}

// Decides what the bytes of a line are.
fn line_said(alloc: Global, line: &[u8]) -> Result<Said, AllocError> {
    if line.len() > LONGEST_LINE {
        return Ok(Said::NoLine(TOO_LONG));
    }
    match std::str::from_utf8(line) {
        Ok(line) => Ok(Said::Line(String::from_str(alloc, line)?)),
        Err(_) => Ok(Said::NoLine(NOT_UTF8)),
    }
}
