//! Streams in memory that never wait.
use std::alloc::Global;
use std::cell::RefCell;
use std::io;
use std::io::{ErrorKind, Read, Write};
use std::test::Fail;

/// The bytes that a stream gives, in pieces.
#[derive(Drop)]
pub struct Script {
    bytes: Vec<u8>,
    /// How long each piece is, the last in front.
    pieces: Vec<usize>,
}

impl Script {
    /// A script of these bytes, with `.` between its pieces. In single bytes for the option `ones`, and in pieces of so many
    /// bytes for an option such as `by7`.
    pub fn new(alloc: Global, word: &str, pieces: Vec<Vec<u8>>) -> Result<Script, Fail> {
        let mut bytes = Vec::new(alloc);
        let mut lengths = Vec::new(alloc);
        for piece in pieces {
            bytes.extend_from_slice(&piece)?;
            lengths.push(piece.len())?;
        }
        if has(word, "ones") {
            lengths.clear();
            lengths.resize(bytes.len(), 1)?;
        }
        if let Some(size) = number_of(word, "by")? {
            lengths.clear();
            lengths.resize(bytes.len() / size.max(1), size)?;
            lengths.push(bytes.len() % size.max(1))?;
        }
        lengths.reverse();
        Ok(Script {
            bytes,
            pieces: lengths,
        })
    }
}

/// What a stream does where it has given all.
#[derive(Clone, Copy, PartialEq, Eq)]
enum Ending {
    Waits,
    Ends,
    Fails,
}

/// A stream in memory.
#[derive(Drop)]
pub struct Wire<'a> {
    /// What is left to give.
    given: &'a [u8],
    /// How much of that comes before the next pause.
    piece: usize,
    /// How long the pieces behind it are, the last in front.
    pieces: Vec<usize>,
    ending: Ending,
    /// The most bytes that a write takes. Where that is a number, each second write would wait.
    most: Option<usize>,
    is_full: bool,
    /// How many bytes are written before the writes fail.
    until_break: usize,
    written: &'a RefCell<Vec<u8>>,
}

impl<'a> Wire<'a> {
    /// A stream of this script, with the options of a word, which have `+` between: `ends` and `fails` tell what comes
    /// behind all, `takes7` the most bytes of a write, `breaks7` after how many bytes the writes fail.
    pub fn new(
        alloc: Global,
        word: &str,
        script: &'a Script,
        written: &'a RefCell<Vec<u8>>,
    ) -> Result<Wire<'a>, Fail> {
        let mut pieces = Vec::new(alloc);
        pieces.extend_from_slice(&script.pieces)?;
        Ok(Wire {
            given: &script.bytes,
            piece: pieces.pop().unwrap_or(0),
            pieces,
            ending: ending_of(word),
            most: number_of(word, "takes")?,
            is_full: false,
            until_break: number_of(word, "breaks")?.unwrap_or(usize::MAX),
            written,
        })
    }

    /// Whether nothing more will come.
    pub fn is_quiet(&self) -> bool {
        self.given.is_empty() && self.ending == Ending::Waits
    }

    // What a read gives at the end of a piece.
    fn pause(&mut self) -> io::Result<usize> {
        match (self.pieces.pop(), self.ending) {
            (Some(piece), _) => {
                self.piece = piece;
                Err(io::Error::from(ErrorKind::WouldBlock))
            }
            (None, Ending::Waits) => Err(io::Error::from(ErrorKind::WouldBlock)),
            (None, Ending::Ends) => Ok(0),
            (None, Ending::Fails) => Err(io::Error::from(ErrorKind::ConnectionReset)),
        }
    }
}

fn has(word: &str, option: &str) -> bool {
    word.split('+').any(|one| one == option)
}

fn ending_of(word: &str) -> Ending {
    if has(word, "ends") {
        Ending::Ends
    } else if has(word, "fails") {
        Ending::Fails
    } else {
        Ending::Waits
    }
}

/// The number behind an option, where a word has it.
pub fn number_of(word: &str, option: &str) -> Result<Option<usize>, Fail> {
    for one in word.split('+') {
        if let Some(number) = one.strip_prefix(option) {
            return Ok(Some(number.parse::<usize>()?));
        }
    }
    Ok(None)
}

impl Read for Wire<'_> {
    fn read(&mut self, buf: &mut [u8]) -> io::Result<usize> {
        if self.piece == 0 {
            let _ = self.pause()?;
            return Ok(0);
        }
        let count = buf.len().min(self.given.len()).min(self.piece);
        buf[..count].copy_from_slice(&self.given[..count]);
        self.given = &self.given[count..];
        self.piece -= count;
        Ok(count)
    }
}

impl Write for Wire<'_> {
    fn write(&mut self, buf: &[u8]) -> io::Result<usize> {
        if self.until_break == 0 {
            return Err(io::Error::from(ErrorKind::BrokenPipe));
        }
        if self.is_full {
            self.is_full = false;
            return Err(io::Error::from(ErrorKind::WouldBlock));
        }
        self.is_full = self.most.is_some();
        let most = self.most.unwrap_or(usize::MAX).min(self.until_break);
        let count = buf.len().min(most);
        self.until_break -= count;
        match self.written.try_borrow_mut() {
            Ok(mut written) => written.extend_from_slice(&buf[..count])?,
            Err(_) => return Err(io::Error::from(ErrorKind::Other)),
        }
        Ok(count)
    }

    fn flush(&mut self) -> io::Result<()> {
        Ok(())
    }
}
