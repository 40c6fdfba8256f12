//! Calls of a WebSocket link, as the server.
ghost use Rattle.std.specs.Prelude.{◌≤◌, length};

use crate::fault::RowFault;
use bidi_socket::{Incoming, Link, LinkFault};
use std::alloc::Global;
use std::cell::RefCell;
use std::io;
use std::io::{ErrorKind, Read, Write};
use tungstenite::NoMask;

/// Two frames of a client, each with the text `{}`.
const FRAMES: [u8; 16] = [
    0x81, 0x82, 0, 0, 0, 0, b'{', b'}', 0x81, 0x82, 0, 0, 0, 0, b'{', b'}',
];

/// The most bytes that are sent.
const MOST_SENT: usize = 64;

/// The most calls.
const MOST_CALLS: usize = 8;

/// Makes the calls of the lines over two frames, and writes what each answers and the bytes that were sent.
///
/// A take that finds no memory closes its link. So then it is asked that the next take says so, and all calls are made
/// once more over a new link.
pub(crate) fn answers<W: Write>(
    alloc: Global,
    lines: &str,
    output: &mut W,
) -> Result<(), RowFault> {
    let mut answers = [Answer::None; MOST_CALLS];
    let sent = match called(alloc, lines, &mut answers) {
        Err(RowFault::NoMemory) => called(alloc, lines, &mut answers)?,
        sent => sent?,
    };
    for answer in answers {
        tell(output, answer)?;
    }
    for byte in sent.bytes.iter().take(sent.count) {
        write!(output, "{byte:02x} ")?;
    }
    Ok(writeln!(output)?)
}

/// What a call answers.
#[derive(Clone, Copy, Debug, PartialEq, Eq)]
enum Answer {
    None,
    Braces,
    OtherText,
    NoText,
    Closed,
    Sent,
    Fault(LinkFault),
}

/// Makes the calls over a new link, and gives what was sent.
fn called(alloc: Global, lines: &str, answers: &mut [Answer]) -> Result<Outbox, RowFault> {
    let sent = RefCell::new(Outbox {
        bytes: [0; MOST_SENT],
        count: 0,
    });
    let wire = Wire {
        given: &FRAMES,
        sent: &sent,
    };
    let mut link = Link::server(alloc, wire)?;
    for (line, place) in lines.lines().zip(answers.iter_mut()) {
        *place = answer_to(&mut link, line)?;
    }
    drop(link);
    Ok(sent.into_inner())
}

/// What the call of a line answers.
fn answer_to(link: &mut Link<Wire<'_>, NoMask>, line: &str) -> Result<Answer, RowFault> {
    match line.split_once(' ') {
        Some(("send", text)) => Ok(sent(link, text)),
        _ => taken(link),
    }
}

/// What a send answers, once more where there was no memory.
fn sent(link: &mut Link<Wire<'_>, NoMask>, text: &str) -> Answer {
    let answer = match link.send(text) {
        Err(LinkFault::NoMemory) => link.send(text),
        answer => answer,
    };
    match answer {
        Ok(()) => Answer::Sent,
        Err(fault) => Answer::Fault(fault),
    }
}

/// What a take answers. Where it finds no memory the link is closed.
fn taken(link: &mut Link<Wire<'_>, NoMask>) -> Result<Answer, RowFault> {
    let taken = link.take();
    match answer_of(taken) {
        Answer::Fault(LinkFault::NoMemory) => match answer_of(link.take()) {
            Answer::Closed => Err(RowFault::NoMemory),
            other => Ok(other),
        },
        answer => Ok(answer),
    }
}

fn answer_of(taken: Result<Incoming, LinkFault>) -> Answer {
    match taken {
        Ok(Incoming::Text(text)) => {
            if text.as_str() == "{}" {
                Answer::Braces
            } else {
                Answer::OtherText
            }
        }
        Ok(Incoming::NotText) | Ok(Incoming::Control) => Answer::NoText,
        Ok(Incoming::Closed) => Answer::Closed,
        Err(fault) => Answer::Fault(fault),
    }
}

fn tell<W: Write>(output: &mut W, answer: Answer) -> Result<(), RowFault> {
    match answer {
        Answer::None => {}
        Answer::Braces => writeln!(output, "text {{}}")?,
        Answer::OtherText => writeln!(output, "another text")?,
        Answer::NoText => writeln!(output, "no text")?,
        Answer::Closed => writeln!(output, "closed")?,
        Answer::Sent => writeln!(output, "sent")?,
        Answer::Fault(fault) => writeln!(output, "{fault:?}")?,
    }
    Ok(())
}

/// What was sent.
#[derive(Clone, Copy)]
struct Outbox {
    bytes: [u8; MOST_SENT],
    count: usize,
}

impl Outbox {
    /// Takes bytes as far as there is room for them, and gives how many.
    fn take(&mut self, bytes: &[u8]) -> usize
        ensures { result ≤ length bytes.now }
    {
        let mut count = 0usize;
        for byte in bytes {
            match self.bytes.get_mut(self.count) {
                None => break,
                Some(place) => {
                    *place = *byte;
                    self.count = self.count.saturating_add(1);
                    count = count.saturating_add(1);
                }
            }
        }
        count.min(bytes.len())
    }
}

/// A stream in memory, which asks for none.
#[derive(Drop)]
struct Wire<'a> {
    /// What is left to give.
    given: &'a [u8],
    sent: &'a RefCell<Outbox>,
}

impl Read for Wire<'_> {
    fn read(&mut self, buffer: &mut [u8]) -> io::Result<usize> {
        self.given.read(buffer)
    }
}

impl Write for Wire<'_> {
    fn write(&mut self, bytes: &[u8]) -> io::Result<usize> {
        match self.sent.try_borrow_mut() {
            Ok(mut sent) => Ok(sent.take(bytes)),
            Err(_) => Err(io::Error::from(ErrorKind::Other)),
        }
    }

    fn flush(&mut self) -> io::Result<()> {
        Ok(())
    }
}
