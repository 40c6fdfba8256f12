//! Connections over streams of given bytes: what each call answers, and what is written.

use super::wires::{Script, Wire, number_of};
use bidi_peer::{Came, ClosingCause, MOST_WAITING, Peer, RequestRefusal};
use std::alloc::Global;
use std::cell::RefCell;
use std::test::Fail;
use testing::rows::{Asked, check_rows};

/// What a stream gives and the calls of a connection over it, with `/` between; found are the answers and what was
/// written.
struct Peers;

impl Asked for Peers {
    fn found(alloc: Global, word: &str, text: &str) -> Result<String, Fail> {
        let (mut told, written) = played(alloc, word, text)?;
        push_written(&mut told, written.as_slice())?;
        Ok(told)
    }
}

// ---- handshakes

const HANDSHAKES: &str = "
whole HEAD / take take state open state take -> Asks(/session) - busy open - / 101
whole / take take state -> - - busy /
whole,ones HEAD / takes open state -> Asks(/session) open / 101
whole,ones HEAD {} / takes open takes take -> Asks(/session) {} - / 101
whole HEAD . {} / take open take take -> Asks(/session) - {} / 101
before it asks | whole HEAD / open send missing state take -> busy Asks(/session) /
twice | whole HEAD / take open open missing -> Asks(/session) / 101
in the middle | whole+ends,whole+fails 47 45 54 20 / take take state -> Ended - over /
before its first byte | whole+ends,whole+fails / take take state -> Ended - over /
while it is answered | breaks0 HEAD / take open state take take state -> Asks(/session) busy Ended - over /
closed before it asks | whole HEAD / done state take -> over - /
closed while it asks | whole HEAD / take away state take -> Asks(/session) over - /
";

#[test]
fn a_handshake_is_taken_in_any_pieces(rt: HostRuntime) -> Result<(), Fail> {
    check_rows::<Peers>(rt.alloc(), HANDSHAKES)
}

// ---- messages

const MESSAGES: &str = "
whole,ones HEAD {} {} / takes open takes takes take state -> Asks(/session) {} {} - open / 101
a key | whole,ones HEAD 81 82 12 34 56 78 69 49 / takes open takes -> Asks(/session) {} / 101
bytes | whole,ones HEAD 82 82 00 00 00 00 7b 7d {} / takes open takes takes -> Asks(/session) NotText {} / 101
in parts | whole,ones HEAD 01 81 00 00 00 00 7b PING 80 81 00 00 00 00 7d / takes open takes -> Asks(/session) {} / 101 8a 02 68 69
a pong | whole,ones HEAD 8a 80 00 00 00 00 {} / takes open takes -> Asks(/session) {} / 101
whole HEAD {} / take open take send send state -> Asks(/session) {} open / 101 81 02 7b 7d 81 02 7b 7d
a long text | whole HEAD 81 fe 01 00 00 00 00 00 78*256 / take open take -> Asks(/session) 256 bytes / 101
a megabyte | whole HEAD 81 ff 00 00 00 00 00 10 00 00 00 00 00 00 78*1048576 {} / take open take take -> Asks(/session) 1048576 bytes {} / 101
in the middle of a frame | whole+ends,whole+fails,ones+ends HEAD 81 85 00 00 00 00 7b / takes open takes take state -> Asks(/session) Ended - over / 101
behind a frame | whole+ends,whole+fails HEAD {} / take open take send take state -> Asks(/session) {} Ended over / 101 81 02 7b 7d
a write that fails | breaks129 HEAD / take open send state take take state -> Asks(/session) busy Ended - over / 101
a write that fails for a pong | breaks129 HEAD . PING {} / take open take take take state -> Asks(/session) - Ended - over / 101
";

#[test]
fn messages_are_taken_and_sent_in_order(rt: HostRuntime) -> Result<(), Fail> {
    check_rows::<Peers>(rt.alloc(), MESSAGES)
}

const RAW: &str = "
whole HEAD {} / take open take raw:c1 send state take -> Asks(/session) {} open - / 101 c1 81 02 7b 7d
a frame in two parts | whole HEAD {} / take open raw:8102 raw:7b7d take -> Asks(/session) {} / 101 81 02 7b 7d
behind what waits | takes129 HEAD / take open send:3 raw:ff flushes -> Asks(/session) / 101 81 03 78 78 78 ff
nothing | whole HEAD / take open raw: state -> Asks(/session) open / 101
before it is open | whole HEAD / raw:ff take raw:ff state -> Asks(/session) busy /
behind a close | whole HEAD / take open done raw:ff state -> Asks(/session) busy / 101 88 02 03 e8
a write that fails | breaks129 HEAD / take open raw:ff state take take state -> Asks(/session) busy Ended - over / 101
";

const PARTS: &str = "
a head | whole HEAD {} / take open part:1 state take state take -> Asks(/session) busy Ended over - / 101 81
a part of a text | whole HEAD {} / take open part:3 take state -> Asks(/session) Ended over / 101 81 02 7b
all, and no more | whole HEAD / take open part:9 send take state -> Asks(/session) Ended over / 101 81 02 7b 7d
nothing | whole HEAD / take open part:0 take state -> Asks(/session) Ended over / 101
of bytes | whole HEAD / take open bytes:3 take state -> Asks(/session) Ended over / 101 82 02 7b
behind what waits | takes129 HEAD / take open send:3 part:1 state take state flushes state -> Asks(/session) waits Ended waits over / 101 81 03 78 78 78 81
before it is open | whole HEAD / take part:1 open state -> Asks(/session) open / 101
behind a close | whole HEAD / take open done part:1 state -> Asks(/session) busy / 101 88 02 03 e8
a write that fails | breaks129 HEAD / take open part:2 state take take state -> Asks(/session) busy Ended - over / 101
";

#[test]
fn a_message_is_cut_off(rt: HostRuntime) -> Result<(), Fail> {
    check_rows::<Peers>(rt.alloc(), PARTS)
}

#[test]
fn bytes_go_out_without_a_frame(rt: HostRuntime) -> Result<(), Fail> {
    check_rows::<Peers>(rt.alloc(), RAW)
}

// ---- closes

const CLOSES: &str = "
whole HEAD / take open done state send done flush state -> Asks(/session) busy busy / 101 88 02 03 e8
whole HEAD / take open away -> Asks(/session) / 101 88 02 03 e9
behind what waits | takes129 HEAD / take open send:3 done flushes -> Asks(/session) / 101 81 03 78 78 78 88 02 03 e8
of the peer | whole,ones HEAD 88 82 00 00 00 00 03 e8 {} / takes open takes take state send -> Asks(/session) Ended - over / 101 88 02 03 e8
of the peer, with no code | whole,ones HEAD 88 80 00 00 00 00 / takes open takes take state -> Asks(/session) Ended - over / 101 88 00
of the peer, whose answer waits | takes129 HEAD . 88 80 00 00 00 00 / take open take take state take flushes state -> Asks(/session) - Ended waits - over / 101 88 00
answered | whole HEAD . {} 89 80 00 00 00 00 88 80 00 00 00 00 / take open done take take take state -> Asks(/session) - Ended - over / 101 88 02 03 e8
answered by an end | whole+ends,whole+fails HEAD . {} / take open done take take take state -> Asks(/session) - Ended - over / 101 88 02 03 e8
answered by a frame that breaks the protocol | whole+ends HEAD . 81 00 {} / take open done take take take take state -> Asks(/session) - Ended - - over / 101 88 02 03 e8
";

#[test]
fn each_close_ends_once(rt: HostRuntime) -> Result<(), Fail> {
    check_rows::<Peers>(rt.alloc(), CLOSES)
}

/// A slow reader gets all in order, and what just fits waits.
const SLOW_READERS: &str = "
takes7,takes1 HEAD / take open send send send state flushes state -> Asks(/session) waits open / 101 81 02 7b 7d 81 02 7b 7d 81 02 7b 7d
takes1+bound135 HEAD / take open send send state flushes state -> Asks(/session) waits open / 101 81 02 7b 7d 81 02 7b 7d
";

#[test]
fn a_slow_reader_gets_all_in_order(rt: HostRuntime) -> Result<(), Fail> {
    check_rows::<Peers>(rt.alloc(), SLOW_READERS)
}

// ---- codes

/// The answers, how many frames were written before the close frame, and its code with its reason.
struct Codes;

impl Asked for Codes {
    fn found(alloc: Global, word: &str, text: &str) -> Result<String, Fail> {
        let text = format!(in alloc; "HEAD . {text}")?;
        let (mut told, written) = played(alloc, word, text.as_str())?;
        push_close(&mut told, written.as_slice())?;
        Ok(told)
    }
}

const CODES: &str = "
done | whole / take open done -> Asks(/session) / 0 1000 none
going away | whole / take open away -> Asks(/session) / 0 1001 none
no mask | whole 81 02 7b 7d / take open take take take state -> Asks(/session) - Ended - busy / 0 1002 words
no mask, and then the end | whole+ends 81 02 7b 7d {} / take open take take take state -> Asks(/session) - Ended - over / 0 1002 words
a reserved bit | whole c1 82 00 00 00 00 7b 7d / take open take take -> Asks(/session) - Ended / 0 1002 words
an opcode that is not known | whole 83 80 00 00 00 00 / take open take take -> Asks(/session) - Ended / 0 1002 words
a ping in parts | whole 09 80 00 00 00 00 / take open take take -> Asks(/session) - Ended / 0 1002 words
a ping of 126 bytes | whole 89 fe 00 7e 00 00 00 00 00*126 / take open take take -> Asks(/session) - Ended / 0 1002 words
a close of one byte | whole 88 81 00 00 00 00 03 / take open take take -> Asks(/session) - Ended / 0 1002 words
a close with a code that may not be sent | whole 88 82 00 00 00 00 03 ed / take open take take state -> Asks(/session) - Ended over / 0 1002 words
the rest of nothing | whole 80 82 00 00 00 00 7b 7d / take open take take -> Asks(/session) - Ended / 0 1002 words
a text within a text | whole 01 81 00 00 00 00 7b 81 81 00 00 00 00 7d / take open take take -> Asks(/session) - Ended / 0 1002 words
no UTF-8 | whole 81 81 00 00 00 00 ff / take open take take send state -> Asks(/session) - Ended busy / 0 1007 words
no UTF-8 in parts | whole 01 81 00 00 00 00 c3 80 81 00 00 00 00 7d / take open take take -> Asks(/session) - Ended / 0 1007 words
a frame past the limit | whole 81 ff 00 00 00 00 01 00 00 01 00 00 00 00 / take open take take state -> Asks(/session) - Ended busy / 0 1009 words
";

#[test]
fn a_close_says_why(rt: HostRuntime) -> Result<(), Fail> {
    check_rows::<Codes>(rt.alloc(), CODES)
}

/// Too much would wait: a text, or answers to pings. 128 bytes of the handshake wait at first.
const TOO_SLOW: &str = "
takes1+bound400 / take open send:100 send:100 send:100 state take take send state flushes -> Asks(/session) waits Ended - waits / 2 1013 words
takes1+bound133 / take open send send state take flushes state -> Asks(/session) waits Ended busy / 1 1013 words
and then the end | takes1+bound130+ends / take open send take flushes take take state -> Asks(/session) Ended - - over / 0 1013 words
bytes without a frame | takes1+bound130+ends / take open raw:7b7b7b7b take flushes take take state -> Asks(/session) Ended - - over / 0 1013 words
pings | takes1+bound140 PING*20 / take open take take state flushes -> Asks(/session) - Ended waits / 5 1013 words
";

#[test]
fn a_reader_that_is_too_slow_is_closed(rt: HostRuntime) -> Result<(), Fail> {
    check_rows::<Codes>(rt.alloc(), TOO_SLOW)
}

// ---- what is held

const HELD: &str = "
nothing | whole HEAD / held take held open held -> 0 Asks(/session) 0 0 / 101
a part of a head | whole 47 45 54 20 / take held -> - 4 /
what waits | takes1 HEAD / take open held flushes held -> Asks(/session) 128 0 / 101
a text that waits | takes129 HEAD / take open send held -> Asks(/session) 4 / 101
a part of a frame | whole HEAD . 81 85 00 00 00 00 7b / take open take take held -> Asks(/session) - - 7 / 101
a part of a message | whole HEAD . 01 83 00 00 00 00 78 78 78 / take open take take held -> Asks(/session) - - 3 / 101
two parts, and a pong | whole HEAD . 02 83 00 00 00 00 78 78 78 8a 82 00 00 00 00 68 69 00 82 00 00 00 00 78 78 / take open take take held -> Asks(/session) - - 5 / 101
a part of 256 bytes | whole HEAD . 01 fe 01 00 00 00 00 00 78*256 / take open take take held -> Asks(/session) - - 256 / 101
a whole message | whole HEAD . 01 81 00 00 00 00 7b . 80 81 00 00 00 00 7d / take open take take held take held -> Asks(/session) - - 1 {} 0 / 101
a message behind another | whole HEAD . {} {} / take open take take held take held -> Asks(/session) - {} 8 {} 0 / 101
behind a close of the peer | whole HEAD . 01 81 00 00 00 00 7b 88 80 00 00 00 00 {} / take open take take held -> Asks(/session) - Ended 0 / 101 88 00
behind an end | whole+ends HEAD . 01 81 00 00 00 00 7b 81 / take open take take held state -> Asks(/session) - Ended 0 over / 101
";

#[test]
fn what_is_held_is_counted(rt: HostRuntime) -> Result<(), Fail> {
    check_rows::<Peers>(rt.alloc(), HELD)
}

/// A connection that is shed before it is open, while it ends, or while more waits to be sent than came, is over without a
/// close frame.
const SHED_AT_ONCE: &str = "
before it asks | whole 47 45 54 20 / take shed state held take -> - over 0 - /
while it asks | whole HEAD / take shed state take -> Asks(/session) over - /
while it closes | takes129 HEAD / take open send done shed state held take state take -> Asks(/session) busy 0 Ended over - / 101 81 02 7b 7d
while its answer waits | takes129 HEAD . 88 80 00 00 00 00 / take open take take state shed state held take -> Asks(/session) - Ended waits over 0 - / 101
behind its end | whole+ends HEAD / take open take shed state take -> Asks(/session) Ended over - / 101
more waits | takes1 HEAD / take open shed state held take state -> Asks(/session) busy 0 Ended over / 48
more waits than came | takes129 HEAD . 01 81 00 00 00 00 78 / take open take take send held shed state held take state -> Asks(/session) - - 5 busy 0 Ended over / 101
nothing is held | whole HEAD / take open shed state take send state -> Asks(/session) busy Ended over / 101
";

#[test]
fn a_connection_that_does_not_read_or_is_not_open_is_cut(rt: HostRuntime) -> Result<(), Fail> {
    check_rows::<Peers>(rt.alloc(), SHED_AT_ONCE)
}

/// The answers, how many frames were written before the close frame, and its code with the words of its reason.
struct Reasons;

impl Asked for Reasons {
    fn found(alloc: Global, word: &str, text: &str) -> Result<String, Fail> {
        let text = format!(in alloc; "HEAD . {text}")?;
        let (mut told, written) = played(alloc, word, text.as_str())?;
        let (count, payload) = close_frame(written.as_slice())?;
        write!(&mut told, "/ {count} ")?;
        push_reason(&mut told, payload)?;
        Ok(told)
    }
}

const SHED: &str = "
more came | whole 01 83 00 00 00 00 78 78 78 / take open take take held shed held take take state -> Asks(/session) - - 3 0 Ended - busy / 0 1009 too much is held in all
more came, in part | whole 81 85 00 00 00 00 7b / take open take take held shed held take state -> Asks(/session) - - 7 0 Ended busy / 0 1009 too much is held in all
what comes later is thrown away | whole 01 83 00 00 00 00 78 . 78 {} . {} / take open take take shed take take take take held state -> Asks(/session) - - Ended - - - 0 busy / 0 1009 too much is held in all
and then the end | whole+ends 01 83 00 00 00 00 78 . 78 {} / take open take take shed take take take state -> Asks(/session) - - Ended - - over / 0 1009 too much is held in all
twice | whole 01 81 00 00 00 00 78 / take open take take shed shed state take state -> Asks(/session) - - busy Ended over / 0 1009 too much is held in all
behind its end | whole 01 81 00 00 00 00 78 / take open take take shed take shed state -> Asks(/session) - - Ended over / 0 1009 too much is held in all
";

#[test]
fn a_connection_that_holds_too_much_is_shed(rt: HostRuntime) -> Result<(), Fail> {
    check_rows::<Reasons>(rt.alloc(), SHED)
}

// ---- connections

/// The answers of the calls, and the bytes that were written.
fn played(alloc: Global, word: &str, text: &str) -> Result<(String, Vec<u8>), Fail> {
    let (given, calls) = text.split_once('/').ok_or("no calls")?;
    let script = Script::new(alloc, word, pieces_of(alloc, given)?)?;
    let written = RefCell::new(Vec::new(alloc));
    let wire = Wire::new(alloc, word, &script, &written)?;
    let most = number_of(word, "bound")?.unwrap_or(MOST_WAITING);
    let told = answers(alloc, Peer::with_bound(alloc, wire, most), calls)?;
    Ok((told, written.into_inner()))
}

/// The head of a request for `/session`.
const HEAD: &[u8] =
    b"GET /session HTTP/1.1\r\nHost: 127.0.0.1\r\nUpgrade: websocket\r\nConnection: Upgrade\r\nSec-WebSocket-Key: dGhlIHNhbXBsZSBub25jZQ==\r\nSec-WebSocket-Version: 13\r\n\r\n";

/// The text `{}` in one frame of a client.
const TEXT: &[u8] = b"\x81\x82\x00\x00\x00\x00{}";

/// A ping of a client, of two bytes.
const PING: &[u8] = b"\x89\x82\x00\x00\x00\x00hi";

/// The pieces of a script, with `.` between: bytes, and words for those above. `00*3` is `00 00 00`.
fn pieces_of(alloc: Global, given: &str) -> Result<Vec<Vec<u8>>, Fail> {
    let mut pieces = Vec::new(alloc);
    for piece in given.split('.') {
        pieces.push(bytes_of(alloc, piece)?)?;
    }
    Ok(pieces)
}

fn bytes_of(alloc: Global, words: &str) -> Result<Vec<u8>, Fail> {
    let mut bytes = Vec::new(alloc);
    for word in words.split_whitespace() {
        let (word, times) = word.split_once('*').unwrap_or((word, "1"));
        for _ in 0..times.parse::<u32>()? {
            push_word(&mut bytes, word)?;
        }
    }
    Ok(bytes)
}

fn push_word(bytes: &mut Vec<u8>, word: &str) -> Result<(), Fail> {
    match word {
        "HEAD" => bytes.extend_from_slice(HEAD)?,
        "{}" => bytes.extend_from_slice(TEXT)?,
        "PING" => bytes.extend_from_slice(PING)?,
        _ => bytes.push(u8::from_str_radix(word, 16)?)?,
    }
    Ok(())
}

fn answers(alloc: Global, mut peer: Peer<Wire<'_>>, calls: &str) -> Result<String, Fail> {
    let mut told = String::new(alloc);
    for call in calls.split_whitespace() {
        push_call(alloc, &mut told, &mut peer, call)?;
    }
    Ok(told)
}

fn push_call(
    alloc: Global,
    told: &mut String,
    peer: &mut Peer<Wire<'_>>,
    call: &str,
) -> Result<(), Fail> {
    match call {
        "take" => push_came(told, peer.take()?)?,
        "takes" => push_came(told, next(peer)?)?,
        "open" => peer.open()?,
        "missing" => peer.refuse(RequestRefusal::NotFound)?,
        "send" => {
            peer.send("{}")?;
            peer.flush();
        }
        "done" => peer.close(ClosingCause::Done)?,
        "away" => peer.close(ClosingCause::GoingAway)?,
        "flush" => peer.flush(),
        "flushes" => flush_all(peer),
        "shed" => peer.shed()?,
        "held" => write!(told, "{held} ", held = peer.held())?,
        "state" => push_state(told, peer)?,
        _ => send_more(alloc, peer, call)?,
    }
    Ok(())
}

/// What comes next, over so many reads that give nothing.
fn next(peer: &mut Peer<Wire<'_>>) -> Result<Came, Fail> {
    for _ in 0..10_000u32 {
        let came = peer.take()?;
        if !matches!(&came, Came::Nothing) || peer.stream().is_quiet() {
            return Ok(came);
        }
    }
    Err(Fail::from("nothing comes"))
}

fn push_came(told: &mut String, came: Came) -> Result<(), Fail> {
    match came {
        Came::Nothing => told.push_str("- ")?,
        Came::More => told.push_str("+ ")?,
        Came::Asks(target) => write!(told, "Asks({target}) ")?,
        Came::Calls(call) => write!(told, "Calls({}) ", call.resource)?,
        Came::Text(text) => push_text(told, text.as_str())?,
        Came::NotText => told.push_str("NotText ")?,
        Came::Ended => told.push_str("Ended ")?,
    }
    Ok(())
}

fn push_text(told: &mut String, text: &str) -> Result<(), Fail> {
    match text.len() {
        0..=9 => write!(told, "{text} ")?,
        length => write!(told, "{length} bytes ")?,
    }
    Ok(())
}

fn flush_all(peer: &mut Peer<Wire<'_>>) {
    for _ in 0..10_000u32 {
        if !peer.waits_to_write() {
            return;
        }
        peer.flush();
    }
}

fn push_state(told: &mut String, peer: &Peer<Wire<'_>>) -> Result<(), Fail> {
    let state = if peer.is_over() {
        "over "
    } else if peer.waits_to_write() {
        "waits "
    } else if peer.is_open() {
        "open "
    } else {
        "busy "
    };
    Ok(told.push_str(state)?)
}

/// Sends a text of as many letters as a call says, the bytes that it has, or so many bytes of a frame.
fn send_more(alloc: Global, peer: &mut Peer<Wire<'_>>, call: &str) -> Result<(), Fail> {
    let (name, what) = call.split_once(':').ok_or("no such call")?;
    match name {
        "send" => {
            let text = "x".repeat(alloc, what.parse::<usize>()?)?;
            peer.send(text.as_str())?;
        }
        "raw" => peer.send_raw(&pairs_of(alloc, what)?)?,
        "part" => peer.send_part("{}", what.parse::<usize>()?)?,
        "bytes" => peer.send_part_of_bytes(b"{}", what.parse::<usize>()?)?,
        _ => return Err(Fail::from("no such call")),
    }
    peer.flush();
    Ok(())
}

/// The bytes of pairs of digits.
fn pairs_of(alloc: Global, digits: &str) -> Result<Vec<u8>, Fail> {
    let mut bytes = Vec::new(alloc);
    for pair in digits.as_bytes().chunks(2) {
        bytes.push(u8::from_str_radix(str::from_utf8(pair)?, 16)?)?;
    }
    Ok(bytes)
}

// ---- what is written

/// The answer that opens a connection. The key is that of RFC 6455, section 1.3.
const OPENED: &[u8] =
    b"HTTP/1.1 101 Switching Protocols\r\nconnection: Upgrade\r\nupgrade: websocket\r\nsec-websocket-accept: s3pPLMBiTxaQ9kYGzzhZRbK+xOo=\r\n\r\n";

fn push_written(told: &mut String, written: &[u8]) -> Result<(), Fail> {
    told.push_str("/")?;
    let frames = match written.strip_prefix(OPENED) {
        Some(frames) => {
            told.push_str(" 101")?;
            frames
        }
        None => written,
    };
    for byte in frames {
        write!(told, " {byte:02x}")?;
    }
    Ok(())
}

fn push_close(told: &mut String, written: &[u8]) -> Result<(), Fail> {
    let (count, payload) = close_frame(written)?;
    let (code, reason) = code_and_reason(payload)?;
    let reason = if reason.is_empty() { "none" } else { "words" };
    Ok(write!(told, "/ {count} {code} {reason}")?)
}

fn push_reason(told: &mut String, payload: &[u8]) -> Result<(), Fail> {
    let (code, reason) = code_and_reason(payload)?;
    let reason = str::from_utf8(reason)?;
    Ok(write!(told, "{code} {reason}")?)
}

/// How many frames were written before the close frame, and its payload.
fn close_frame(written: &[u8]) -> Result<(u32, &[u8]), Fail> {
    let mut rest = written.strip_prefix(OPENED).ok_or("not opened")?;
    for count in 0..1000u32 {
        let [first, length, after @ ..] = rest else {
            return Err(Fail::from("no close frame"));
        };
        let length = usize::from(*length);
        let payload = after.get(..length).ok_or("a cut frame")?;
        rest = after.get(length..).ok_or("a cut frame")?;
        if *first == 0x88 {
            return last_frame(count, payload, rest);
        }
    }
    Err(Fail::from("no close frame"))
}

/// The close frame, if no byte is behind it.
fn last_frame<'a>(count: u32, payload: &'a [u8], rest: &[u8]) -> Result<(u32, &'a [u8]), Fail> {
    if rest.is_empty() {
        Ok((count, payload))
    } else {
        Err(Fail::from("bytes behind a close frame"))
    }
}

fn code_and_reason(payload: &[u8]) -> Result<(u16, &[u8]), Fail> {
    let [high, low, reason @ ..] = payload else {
        return Err(Fail::from("no code"));
    };
    Ok((u16::from_be_bytes([*high, *low]), reason))
}
