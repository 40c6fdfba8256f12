//! A client over loopback, which never waits.
use crate::frames::{Closed, Told, frame_in};
use std::alloc::{AllocError, Global};
use std::io::{ErrorKind, Read, Write};
use std::net::TcpStream;
use std::str::from_utf8;
use std::test::Fail;

/// Which connection of which browser a client is, both counted.
#[derive(Clone, Copy, PartialEq, Eq)]
pub struct Conn {
    pub epoch: usize,
    pub number: u64,
}

/// A client, with all that it read.
#[derive(Drop)]
pub struct Client {
    alloc: Global,
    /// Its name in the test.
    pub name: String,
    /// What it is to the remote end, if anything.
    pub conn: Option<Conn>,
    // Its stream; none once it has left.
    stream: Option<TcpStream>,
    // What is to be written, and how much of it was.
    output: Vec<u8>,
    written: usize,
    // What was read, and how much of it was understood.
    input: Vec<u8>,
    start: usize,
    /// The head of the answer to its handshake.
    pub head: Option<String>,
    /// The texts that it read.
    pub texts: Vec<String>,
    /// How many of them the test has asked for.
    pub asked: usize,
    /// The close frame that it read.
    pub closed: Option<Closed>,
    /// Whether nothing more can be read.
    pub has_ended: bool,
    /// Whether that is since its stream was reset.
    pub was_reset: bool,
    /// Whether it calls over HTTP, so that the host reads the texts of its connection.
    pub calls: bool,
}

impl Client {
    /// A client over a stream that never waits.
    pub fn new(alloc: Global, name: &str, stream: TcpStream) -> Result<Client, AllocError> {
        Ok(Client {
            alloc,
            name: String::from_str(alloc, name)?,
            conn: None,
            stream: Some(stream),
            output: Vec::new(alloc),
            written: 0,
            input: Vec::new(alloc),
            start: 0,
            head: None,
            texts: Vec::new(alloc),
            asked: 0,
            closed: None,
            has_ended: false,
            was_reset: false,
            calls: false,
        })
    }

    /// Where bytes are added that are to be written.
    pub fn output(&mut self) -> &mut Vec<u8> {
        &mut self.output
    }

    /// Closes the stream, whatever waits.
    pub fn leave(&mut self) {
        self.stream = None;
    }

    /// Whether it closed its stream.
    pub fn has_left(&self) -> bool {
        self.stream.is_none()
    }

    /// The next text that the test has not asked for.
    pub fn next_text(&self) -> Option<&str> {
        let text = self.texts.get(self.asked)?;
        Some(text.as_str())
    }

    /// What stands behind the head of an answer that opens nothing.
    pub fn body(&self) -> &str {
        from_utf8(self.waiting()).unwrap_or("")
    }

    /// Writes what the stream takes.
    pub fn write(&mut self) {
        let Some(stream) = &mut self.stream else {
            return;
        };
        for _ in 0..10_000u32 {
            let waiting = self.output.get(self.written..).unwrap_or(&[]);
            if waiting.is_empty() {
                break;
            }
            match stream.write(waiting) {
                Ok(count) if count > 0 => self.written = self.written.saturating_add(count),
                _ => return,
            }
        }
        self.output.clear();
        self.written = 0;
    }

    /// Reads what has come.
    pub fn read(&mut self) -> Result<(), Fail> {
        if self.stream.is_none() || self.has_ended {
            return Ok(());
        }
        for _ in 0..1_000u32 {
            if !self.read_once()? {
                break;
            }
        }
        self.understand()
    }

    /// Reads once. Tells whether something came.
    fn read_once(&mut self) -> Result<bool, AllocError> {
        let Some(stream) = &mut self.stream else {
            return Ok(false);
        };
        let mut buffer = [0; 65_536];
        match stream.read(&mut buffer) {
            Ok(count) if count > 0 => {
                let bytes = buffer.get(..count).unwrap_or(&[]);
                self.input.extend_from_slice(bytes)?;
                Ok(true)
            }
            Err(error) if error.kind() == ErrorKind::WouldBlock => Ok(false),
            ended => {
                self.has_ended = true;
                self.was_reset = ended.is_err();
                Ok(false)
            }
        }
    }

    /// Takes the head and the frames off what was read.
    fn understand(&mut self) -> Result<(), Fail> {
        if self.head.is_none() {
            self.take_head()?;
        }
        if self.is_open() {
            for _ in 0..100_000u32 {
                if !self.take_frame()? {
                    break;
                }
            }
        }
        Ok(())
    }

    /// Whether its handshake was answered by a connection.
    fn is_open(&self) -> bool {
        match &self.head {
            Some(head) => head.as_str().starts_with("HTTP/1.1 101"),
            None => false,
        }
    }

    /// What was read and not understood yet.
    fn waiting(&self) -> &[u8] {
        self.input.get(self.start..).unwrap_or(&[])
    }

    /// Takes so many bytes off what was read.
    fn take(&mut self, count: usize) {
        self.start = self.start.saturating_add(count);
        if self.start >= self.input.len() {
            self.input.clear();
            self.start = 0;
        }
    }

    /// Takes the head of the answer, if it is whole.
    fn take_head(&mut self) -> Result<(), Fail> {
        let end = self
            .waiting()
            .windows(4)
            .position(|four| four == b"\r\n\r\n".as_slice());
        let Some(end) = end else {
            return Ok(());
        };
        let length = end.saturating_add(4);
        let head = from_utf8(self.waiting().get(..length).unwrap_or(&[]))?;
        self.head = Some(String::from_str(self.alloc, head)?);
        self.take(length);
        Ok(())
    }

    /// Takes a frame. Tells whether there was one.
    fn take_frame(&mut self) -> Result<bool, Fail> {
        let Some(frame) = frame_in(self.waiting()) else {
            return Ok(false);
        };
        let length = frame.length;
        let told = frame.told(self.alloc)?;
        self.take(length);
        match told {
            Told::Text(text) => self.texts.push(text)?,
            Told::Close(closed) => self.closed = Some(closed),
            Told::Other => {}
        }
        Ok(true)
    }
}
