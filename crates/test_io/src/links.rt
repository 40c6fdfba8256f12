//! Links over streams of given bytes: what each call answers, and what is written.
ghost use Rattle.std.specs.Prelude.{◌<◌};

use bidi_socket::{Incoming, Link, LinkFault};
use std::alloc::Global;
use std::cell::RefCell;
use std::io;
use std::io::{ErrorKind, Read, Write};
use std::test::Fail;
use testing::rows::{Asked, check_rows};
use tungstenite::{MaskKeys, NoMask, Role, WebSocket, WebSocketConfig};

/// The bytes that a stream gives and the calls of a link over it, with `/` between; found are the answers and the bytes
/// that were written.
struct Links;

impl Asked for Links {
    fn found(alloc: Global, word: &str, text: &str) -> Result<String, Fail> {
        match word {
            "to-server" => crossed(alloc, "client", "server", text),
            "to-client" => crossed(alloc, "server", "client", text),
            _ => played(alloc, word, text),
        }
    }
}

// ---- texts

const TEXTS: &str = "
server,over,by-1 81 82 00 00 00 00 7b 7d 81 82 00 00 00 00 7b 7d / take take -> {} {} /
server,over,by-1 81 82 00 00 00 00 7b 7d 81 82 00 00 00 00 7b 7d / take take send -> {} {} Ok / 81 02 7b 7d
server,over,by-1 82 82 00 00 00 00 7b 7d 81 82 00 00 00 00 7b 7d / take take -> NotText {} /
server,over,by-1 81 82 12 34 56 78 69 49 / take -> {} /
client 81 02 7b 7d / take send -> {} Ok / 81 82 12 34 56 78 69 49
to-server / send send -> {} {} /
to-client / send send -> {} {} /
more than may wait | narrow 81 82 00 00 00 00 7b 7d / send take send -> Err(Full) {} Err(Full) /
a megabyte | server 81 ff 00 00 00 00 00 10 00 00 00 00 00 00 «1048576 7b »/ take -> «1048576 {» /
";

#[test]
fn texts_are_taken_and_sent_in_order(rt: HostRuntime) -> Result<(), Fail> {
    check_rows::<Links>(rt.alloc(), TEXTS)
}

/// A text in two frames, and pings between the frames of a peer.
const FRAMES: &str = "
server,over,by-1 01 81 00 00 00 00 7b 80 81 00 00 00 00 7d / take -> {} /
server,over,by-1 01 81 00 00 00 00 7b 89 82 00 00 00 00 68 69 80 81 00 00 00 00 7d / take take -> Control {} / 8a 02 68 69
server,over,by-1 89 82 00 00 00 00 68 69 / take send -> Control Ok / 8a 02 68 69 81 02 7b 7d
server,over,by-1 89 82 00 00 00 00 68 69 / take close -> Control Ok / 8a 02 68 69 88 02 03 e8
client 89 02 68 69 / take send -> Control Ok / 8a 82 12 34 56 78 7a 5d 81 82 12 34 56 78 69 49
server,over,by-1 8a 82 00 00 00 00 68 69 81 82 00 00 00 00 7b 7d / take take -> Control {} /
";

#[test]
fn a_text_is_whole_and_a_ping_is_answered(rt: HostRuntime) -> Result<(), Fail> {
    check_rows::<Links>(rt.alloc(), FRAMES)
}

// ---- several texts in one write

/// Texts that join what waits are written by the next call that sends, in order: a `take` sends first what waits. A stream of
/// `once` takes one write and no more, one of `eager` writes what waits at one byte.
const QUEUES: &str = "
server,over / queue queue -> Ok Ok /
server,over,by-1,by-3,once / queue queue flush -> Ok Ok Ok / 81 02 7b 7d 81 02 7b 7d
server,over,by-1,once / queue queue send -> Ok Ok Ok / 81 02 7b 7d 81 02 7b 7d 81 02 7b 7d
server,over,by-1,once / queue close -> Ok Ok / 81 02 7b 7d 88 02 03 e8
server,over,by-1,once / flush flush -> Ok Ok /
once / send send -> Ok Err(Stream) / 81 02 7b 7d
client / queue queue flush -> Ok Ok Ok / 81 82 12 34 56 78 69 49 81 82 12 34 56 78 69 49
server,over,by-1 81 82 00 00 00 00 7b 7d / queue take -> Ok {} / 81 02 7b 7d
server,over,by-1 89 82 00 00 00 00 68 69 / queue take -> Ok Control / 81 02 7b 7d 8a 02 68 69
server,over,by-1 88 80 00 00 00 00 / queue take queue flush -> Ok Closed Err(Closed) Err(Closed) / 81 02 7b 7d 88 00
server,over,by-1 / close queue flush send -> Ok Err(Protocol) Err(Closed) Err(Closed) / 88 02 03 e8
refuses-1 / queue queue flush queue flush take -> Ok Ok Err(Stream) Err(Closed) Err(Closed) Closed /
narrow / queue flush queue -> Err(Full) Ok Err(Full) /
eager / queue queue -> Ok Ok / 81 02 7b 7d 81 02 7b 7d
";

#[test]
fn queued_texts_leave_in_one_write(rt: HostRuntime) -> Result<(), Fail> {
    check_rows::<Links>(rt.alloc(), QUEUES)
}

// ---- streams that fail

/// A read fails once, or the stream ends, after so many bytes.
const CUTS: &str = "
fails-0,fails-1,fails-2,fails-3,fails-4,fails-5,fails-6,fails-7 81 82 00 00 00 00 7b 7d 81 82 00 00 00 00 7b 7d / take take take take take -> Err(Stream) {} {} Err(Protocol) Closed /
fails-8,fails-9,fails-10,fails-11,fails-12,fails-13,fails-14,fails-15 81 82 00 00 00 00 7b 7d 81 82 00 00 00 00 7b 7d / take take take take take -> {} Err(Stream) {} Err(Protocol) Closed /
ends-0,ends-1,ends-2,ends-3,ends-4,ends-5,ends-6,ends-7 81 82 00 00 00 00 7b 7d 81 82 00 00 00 00 7b 7d / take take -> Err(Protocol) Closed /
ends-8,ends-9,ends-10,ends-11,ends-12,ends-13,ends-14,ends-15 81 82 00 00 00 00 7b 7d 81 82 00 00 00 00 7b 7d / take take take -> {} Err(Protocol) Closed /
";

#[test]
fn a_stream_that_fails_loses_no_text_and_makes_none(rt: HostRuntime) -> Result<(), Fail> {
    check_rows::<Links>(rt.alloc(), CUTS)
}

/// The first write fails. Of a link that is closed by it nothing is written; an answer to a ping is written later.
const REFUSALS: &str = "
refuses-1 81 82 00 00 00 00 7b 7d / send take send close -> Err(Stream) Closed Err(Closed) Err(Closed) /
refuses-1 81 82 00 00 00 00 7b 7d / close take send close -> Err(Stream) Closed Err(Closed) Err(Closed) /
refuses-1 89 82 00 00 00 00 68 69 81 82 00 00 00 00 7b 7d / take take -> Control {} / 8a 02 68 69
refuses-1 81 02 7b 7d / take take -> Err(Protocol) Closed /
";

#[test]
fn a_write_that_fails_closes_the_link_of_a_sender(rt: HostRuntime) -> Result<(), Fail> {
    check_rows::<Links>(rt.alloc(), REFUSALS)
}

// ---- frames that break the protocol

/// Each is answered by a close frame with its code (RFC 6455, 5.5.1 and 7.4.1): 1002, or 1007 for what is no UTF-8, or 1009 for
/// what is past a limit. Behind a close of ours none is sent.
const BAD_FRAMES: &str = "
no mask | server,by-1 81 02 7b 7d / take take send close -> Err(Protocol) Closed Err(Closed) Err(Closed) / 88 02 03 ea
a mask to a client | client 81 82 00 00 00 00 7b 7d / take take send close -> Err(Protocol) Closed Err(Closed) Err(Closed) / 88 82 12 34 56 78 11 de
no UTF-8 | server,by-1 81 81 00 00 00 00 ff / take take send close -> Err(Protocol) Closed Err(Closed) Err(Closed) / 88 02 03 ef
a reserved bit | server,by-1 c1 82 00 00 00 00 7b 7d / take take send close -> Err(Protocol) Closed Err(Closed) Err(Closed) / 88 02 03 ea
another reserved bit | server,by-1 91 82 00 00 00 00 7b 7d / take take send close -> Err(Protocol) Closed Err(Closed) Err(Closed) / 88 02 03 ea
an opcode of data that is not known | server,by-1 83 82 00 00 00 00 7b 7d / take take send close -> Err(Protocol) Closed Err(Closed) Err(Closed) / 88 02 03 ea
an opcode of control that is not known | server,by-1 8b 82 00 00 00 00 7b 7d / take take send close -> Err(Protocol) Closed Err(Closed) Err(Closed) / 88 02 03 ea
a length past the limit | server,by-1 81 ff 7f ff ff ff ff ff ff ff 00 00 00 00 / take take send close -> Err(Protocol) Closed Err(Closed) Err(Closed) / 88 02 03 f1
a ping in parts | server,by-1 09 80 00 00 00 00 / take take send close -> Err(Protocol) Closed Err(Closed) Err(Closed) / 88 02 03 ea
a ping of 126 bytes | server,by-1 89 fe 00 7e 00 00 00 00 «126 00 »/ take take send close -> Err(Protocol) Closed Err(Closed) Err(Closed) / 88 02 03 ea
a close of one byte | server,by-1 88 81 00 00 00 00 03 / take take send close -> Err(Protocol) Closed Err(Closed) Err(Closed) / 88 02 03 ea
the rest of nothing | server,by-1 80 82 00 00 00 00 7b 7d / take take send close -> Err(Protocol) Closed Err(Closed) Err(Closed) / 88 02 03 ea
a text within a text | server,by-1 01 81 00 00 00 00 7b 81 81 00 00 00 00 7d / take take send close -> Err(Protocol) Closed Err(Closed) Err(Closed) / 88 02 03 ea
a reason that is no UTF-8 | server,by-1 88 83 00 00 00 00 03 e8 ff / take take send close -> Err(Protocol) Closed Err(Closed) Err(Closed) / 88 02 03 ef
no mask, behind a ping and a text that waits | server,over,by-1 89 82 00 00 00 00 68 69 81 02 7b 7d / take queue take -> Control Ok Err(Protocol) / 8a 02 68 69 81 02 7b 7d 88 02 03 ea
no mask, behind a close of ours | server,over,by-1 81 02 7b 7d / close take take -> Ok Err(Protocol) Closed / 88 02 03 e8
";

#[test]
fn a_bad_frame_closes_the_link(rt: HostRuntime) -> Result<(), Fail> {
    check_rows::<Links>(rt.alloc(), BAD_FRAMES)
}

// ---- closes

const CLOSES: &str = "
server / close close send take send close -> Ok Ok Err(Protocol) Closed Err(Closed) Err(Closed) / 88 02 03 e8
client / close close -> Ok Ok / 88 82 12 34 56 78 11 dc
server,by-1 81 82 00 00 00 00 7b 7d 88 80 00 00 00 00 / close take take take send -> Ok {} Closed Closed Err(Closed) / 88 02 03 e8
";

#[test]
fn a_link_closes_once(rt: HostRuntime) -> Result<(), Fail> {
    check_rows::<Links>(rt.alloc(), CLOSES)
}

const CLOSES_OF_THE_PEER: &str = "
server,by-1 88 82 00 00 00 00 03 e8 / take take send close -> Closed Closed Err(Closed) Err(Closed) / 88 02 03 e8
server,by-1 88 80 00 00 00 00 / take take send close -> Closed Closed Err(Closed) Err(Closed) / 88 00
client 88 02 03 e8 / take take send close -> Closed Closed Err(Closed) Err(Closed) / 88 82 12 34 56 78 11 dc
to-server / send close -> {} Closed / 88 02 03 e8
to-client / send close -> {} Closed / 88 82 12 34 56 78 11 dc
";

#[test]
fn a_close_of_the_peer_is_answered(rt: HostRuntime) -> Result<(), Fail> {
    check_rows::<Links>(rt.alloc(), CLOSES_OF_THE_PEER)
}

/// The codes of a peer's close, with that of the answer: 1002 where a code may not be sent.
const CODES: &str = "
1000 -> 1000
1001 -> 1001
3000 -> 3000
4999 -> 4999
0,999,1004,1005,1006,1015,5000,65535 -> 1002
";

#[test]
fn a_code_that_may_not_be_sent_is_answered_by_another(rt: HostRuntime) -> Result<(), Fail> {
    check_rows::<Codes>(rt.alloc(), CODES)
}

// ---- memory

/// Calls that find no memory, each again with memory, and then where the first finds enough.
const NO_MEMORY: &str = "
send -> Err(NoMemory) Ok / 81 02 7b 7d, Ok Ok / 81 02 7b 7d 81 02 7b 7d
queue -> Err(NoMemory) Ok /, Ok Ok /
close -> Err(NoMemory) Ok / 88 02 03 e8, Ok Ok / 88 02 03 e8
take -> Err(NoMemory) Closed /
";

#[test]
fn what_is_sent_without_memory_can_be_sent_again(rt: HostRuntime) -> Result<(), Fail> {
    if is_memory_used_up(rt.alloc())? {
        check_rows::<Starved>(rt.alloc(), NO_MEMORY)?;
    }
    Ok(())
}

// ---- links

/// What the other end takes of what one end writes.
fn crossed(alloc: Global, one: &str, other: &str, text: &str) -> Result<String, Fail> {
    let played_by_one = played(alloc, one, text)?;
    let (_, written) = played_by_one.as_str().split_once('/').ok_or("no bytes")?;
    let text = format!(in alloc; "{written} / take take")?;
    played(alloc, other, text.as_str())
}

/// The code of the close frame that answers one with this code.
struct Codes;

impl Asked for Codes {
    fn found(alloc: Global, code: &str, _: &str) -> Result<String, Fail> {
        let [high, low] = code.parse::<u16>()?.to_be_bytes();
        let text = format!(in alloc; "88 82 00 00 00 00 {high:02x} {low:02x} / take")?;
        close_code(alloc, played(alloc, "server", text.as_str())?.as_str())
    }
}

/// The code of the close frame that was written.
fn close_code(alloc: Global, played: &str) -> Result<String, Fail> {
    let (_, written) = played.split_once('/').ok_or("no bytes")?;
    match bytes_of(alloc, written)?.as_slice() {
        [0x88, _, high, low, ..] => Ok(u16::from_be_bytes([*high, *low]).to_string(alloc)?),
        _ => Err(Fail::from("no close frame with a code")),
    }
}

/// The answers of the calls, and the bytes that were written.
fn played(alloc: Global, word: &str, text: &str) -> Result<String, Fail> {
    let (given, calls) = text.split_once('/').ok_or("no calls")?;
    let given = bytes_of(alloc, given)?;
    let written = RefCell::new(Vec::new(alloc));
    let wire = wire_of(word, given.as_slice(), &written)?;
    let mut told = answers(alloc, word, wire, calls)?;
    push_bytes(&mut told, written.into_inner().as_slice())?;
    Ok(told)
}

fn push_bytes(told: &mut String, bytes: &[u8]) -> Result<(), Fail> {
    told.push_str("/")?;
    for byte in bytes {
        write!(told, " {byte:02x}")?;
    }
    Ok(())
}

fn bytes_of(alloc: Global, text: &str) -> Result<Vec<u8>, Fail> {
    let mut bytes = Vec::new(alloc);
    for byte in text.split_whitespace() {
        bytes.push(u8::from_str_radix(byte, 16)?)?;
    }
    Ok(bytes)
}

fn answers(alloc: Global, word: &str, wire: Wire<'_>, calls: &str) -> Result<String, Fail> {
    match word {
        "client" => calls_of(alloc, Link::client(alloc, wire, OneKey)?, calls),
        "over" => calls_of(alloc, over(alloc, wire, WebSocketConfig::default()), calls),
        "narrow" => {
            let config = WebSocketConfig::default().max_write_buffer_size(1);
            calls_of(alloc, over(alloc, wire, config), calls)
        }
        "eager" => {
            let config = WebSocketConfig::default().write_buffer_size(1);
            calls_of(alloc, over(alloc, wire, config), calls)
        }
        _ => calls_of(alloc, Link::server(alloc, wire)?, calls),
    }
}

fn over(alloc: Global, wire: Wire<'_>, config: WebSocketConfig) -> Link<Wire<'_>, NoMask> {
    let socket = WebSocket::from_raw_socket(alloc, wire, NoMask, Role::Server, Some(config));
    Link::over(alloc, socket)
}

fn calls_of<K: MaskKeys + Drop>(
    alloc: Global,
    mut link: Link<Wire<'_>, K>,
    calls: &str,
) -> Result<String, Fail> {
    let mut told = String::new(alloc);
    for call in calls.split_whitespace() {
        push_call(&mut told, &mut link, call)?;
    }
    Ok(told)
}

fn push_call<K: MaskKeys + Drop>(
    told: &mut String,
    link: &mut Link<Wire<'_>, K>,
    call: &str,
) -> Result<(), Fail> {
    match call {
        "take" => push_taken(told, link.take()),
        "send" => push_done(told, link.send("{}")),
        "queue" => push_done(told, link.queue("{}")),
        "flush" => push_done(told, link.flush()),
        "close" => push_done(told, link.close()),
        _ => Err(Fail::from("no such call")),
    }
}

fn push_taken(told: &mut String, taken: Result<Incoming, LinkFault>) -> Result<(), Fail> {
    match taken {
        Ok(Incoming::Text(text)) => write!(told, "{text} ")?,
        Ok(Incoming::NotText) => told.push_str("NotText ")?,
        Ok(Incoming::Control) => told.push_str("Control ")?,
        Ok(Incoming::Closed) => told.push_str("Closed ")?,
        Err(fault) => write!(told, "Err({fault:?}) ")?,
    }
    Ok(())
}

fn push_done(told: &mut String, done: Result<(), LinkFault>) -> Result<(), Fail> {
    match done {
        Ok(()) => told.push_str("Ok ")?,
        Err(fault) => write!(told, "Err({fault:?}) ")?,
    }
    Ok(())
}

/// A call of a server's end, twice, where at first there is no room for all that it allocates. The room grows until there
/// is, and the answers are told where they change.
struct Starved;

impl Asked for Starved {
    fn found(alloc: Global, call: &str, _: &str) -> Result<String, Fail> {
        let mut told = String::new(alloc);
        let mut blocks = Vec::with_capacity(alloc, 60_000)?;
        for step in 0..16usize {
            let answers = answers_within(alloc, &mut blocks, call, step * 16)?;
            if !told.as_str().ends_with(answers.as_str()) {
                told.push_str(if told.is_empty() { "" } else { ", " })?;
                told.push_str(answers.as_str())?;
            }
            if !answers.as_str().starts_with("Err") {
                break;
            }
        }
        Ok(told)
    }
}

fn answers_within(
    alloc: Global,
    blocks: &mut Vec<Vec<u8>>,
    call: &str,
    room: usize,
) -> Result<String, Fail>
    requires { room < 8192 }
{
    let mut told = String::with_capacity(alloc, 256)?;
    let written = RefCell::new(Vec::with_capacity(alloc, 64)?);
    push_answers(alloc, &mut told, &written, blocks, call, room)?;
    push_bytes(&mut told, written.into_inner().as_slice())?;
    Ok(told)
}

/// Adds what a link answers to a call within the room, and then to the same call with all of the memory.
fn push_answers(
    alloc: Global,
    told: &mut String,
    written: &RefCell<Vec<u8>>,
    blocks: &mut Vec<Vec<u8>>,
    call: &str,
    room: usize,
) -> Result<(), Fail>
    requires { room < 8192 }
{
    let mut link = Link::server(alloc, wire_of("server", &[], written)?)?;
    push_answer_within(alloc, told, &mut link, blocks, call, room)?;
    blocks.clear();
    push_call(told, &mut link, call)
}

/// Adds what a link answers to a call when no more memory is left than the room.
fn push_answer_within(
    alloc: Global,
    told: &mut String,
    link: &mut Link<Wire<'_>, NoMask>,
    blocks: &mut Vec<Vec<u8>>,
    call: &str,
    room: usize,
) -> Result<(), Fail>
    requires { room < 8192 }
{
    let kept = Vec::<u8>::with_capacity(alloc, 8192)?;
    use_up(alloc, blocks)?;
    drop(kept);
    let _held = Vec::<u8>::with_capacity(alloc, 8192 - room)?;
    push_call(told, link, call)
}

/// Whether all of the memory can be taken. A sanitizer keeps some to itself, as that of `rt try`.
fn is_memory_used_up(alloc: Global) -> Result<bool, Fail> {
    let mut blocks = Vec::with_capacity(alloc, 60_000)?;
    use_up(alloc, &mut blocks)?;
    Ok(blocks.len() < blocks.capacity())
}

/// Takes all of the memory, in blocks that are smaller and smaller.
fn use_up(alloc: Global, blocks: &mut Vec<Vec<u8>>) -> Result<(), Fail> {
    for halvings in 0..24u32 {
        take_blocks(alloc, blocks, (1 << 34) >> halvings)?;
    }
    for sixteens in 0..64usize {
        take_blocks(alloc, blocks, (64 - sixteens) * 16)?;
    }
    Ok(())
}

fn take_blocks(alloc: Global, blocks: &mut Vec<Vec<u8>>, size: usize) -> Result<(), Fail> {
    for _ in blocks.len()..blocks.capacity() {
        let Ok(block) = Vec::with_capacity(alloc, size) else {
            return Ok(());
        };
        blocks.push(block)?;
    }
    Ok(())
}

/// The one key of a client's end.
#[derive(Drop)]
struct OneKey;

impl MaskKeys for OneKey {
    fn next_key(&mut self) -> [u8; 4] {
        [0x12, 0x34, 0x56, 0x78]
    }
}

/// A stream in memory.
#[derive(Drop)]
struct Wire<'a> {
    /// What is left to give.
    given: &'a [u8],
    /// The most bytes that a read gives and a write takes.
    step: usize,
    /// How many bytes come before the one read that fails.
    until_failure: usize,
    /// How many writes fail, the first ones.
    refused_writes: usize,
    /// How many writes are taken; those behind them fail.
    taken_writes: usize,
    written: &'a RefCell<Vec<u8>>,
}

/// A stream of these bytes, cut as the word says.
fn wire_of<'a>(
    word: &str,
    given: &'a [u8],
    written: &'a RefCell<Vec<u8>>,
) -> Result<Wire<'a>, Fail> {
    let (cut, place) = word.split_once('-').unwrap_or((word, "0"));
    let place = place.parse::<usize>()?;
    Ok(Wire {
        given: if cut == "ends" {
            given.get(..place).ok_or("no such place")?
        } else {
            given
        },
        step: if cut == "by" { place } else { usize::MAX },
        until_failure: if cut == "fails" { place } else { usize::MAX },
        refused_writes: if cut == "refuses" { place } else { 0 },
        taken_writes: if cut == "once" { 1 } else { usize::MAX },
        written,
    })
}

impl Read for Wire<'_> {
    fn read(&mut self, buf: &mut [u8]) -> io::Result<usize> {
        if self.until_failure == 0 {
            self.until_failure = usize::MAX;
            return Err(io::Error::from(ErrorKind::ConnectionReset));
        }
        let most = self.step.min(self.until_failure);
        let count = buf.len().min(self.given.len()).min(most);
        buf[..count].copy_from_slice(&self.given[..count]);
        self.given = &self.given[count..];
        self.until_failure -= count;
        Ok(count)
    }
}

impl Write for Wire<'_> {
    fn write(&mut self, buf: &[u8]) -> io::Result<usize> {
        if self.refused_writes > 0 {
            self.refused_writes -= 1;
            return Err(io::Error::from(ErrorKind::BrokenPipe));
        }
        if self.taken_writes == 0 {
            return Err(io::Error::from(ErrorKind::BrokenPipe));
        }
        self.taken_writes -= 1;
        let count = buf.len().min(self.step);
        match self.written.try_borrow_mut() {
            Ok(mut written) => written.extend_from_slice(&buf[..count])?,
            Err(_) => return Err(io::Error::from(ErrorKind::Other)),
        }
        Ok(count)
    }

    fn flush(&mut self) -> io::Result<()> {
        Ok(())
    }
}
