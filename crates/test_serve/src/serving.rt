//! Serving over loopback, in one process: what the clients write, the server, and what the clients read.
//!
//! A value that is large in the prover's eyes (a remote end, a link) is held by a function without another way out.
use bidi_remote::RemoteEnd;
use bidi_serve::{ServeFault, serve, serve_link};
use bidi_socket::Link;
use bidi_tree::JsUint;
use std::alloc::{AllocError, Global};
use std::cell::RefCell;
use std::io;
use std::io::{ErrorKind, Read, Write};
use std::net::{Shutdown, SocketAddr, TcpListener, TcpStream};
use std::test::Fail;
use std::time::{Duration, Instant};
use tungstenite::{NoCallback, NoMask, accept_hdr};

/// The head of a request that asks for an upgrade, after its first line.
const FIELDS: &str =
    "Host: 127.0.0.1\r\nUpgrade: websocket\r\nConnection: Upgrade\r\nSec-WebSocket-Key: dGhlIHNhbXBsZSBub25jZQ==\r\nSec-WebSocket-Version: 13\r\n\r\n";

#[test]
fn a_handshake_is_answered(rt: HostRuntime) -> Result<(), Fail> {
    let all = served_alone(&rt)?;
    assert!(rt; all.starts_with(b"HTTP/1.1 101"));
    Ok(())
}

/// What a client reads that writes a head alone.
fn served_alone(rt: &HostRuntime) -> Result<Vec<u8>, Fail> {
    let listener = TcpListener::bind(rt, "127.0.0.1:0")?;
    let client = written(rt, listener.local_addr()?, &head_bytes(rt.alloc())?)?;
    serve(rt.alloc(), &listener, 1, 1)?;
    Ok(rest_of(rt.alloc(), client)?)
}

/// Heads that ask for no connection of the remote end: what they are, their bytes, and the status that answers them, none where
/// no request came (RFC 6455, 4.2.1, 4.2.2 and 4.4). Fields follow a first line that is whole.
const HEADS: &str = r"nothing | |
another method | POST /session HTTP/1.1\r\n | 400
an old version of HTTP | GET /session HTTP/1.0\r\n | 400
no HTTP | {}\r\n | 400
bytes behind the head | GET /session HTTP/1.1\r\n\r\n{} | 400
no upgrade | GET /session HTTP/1.1\r\nHost: x\r\n\r\n | 426
a head that never ends | GET /session HTTP/1.1\r\nHost: x |
a denied resource | GET /x HTTP/1.1\r\n | 101
a resource with a query | GET /session?a=b HTTP/1.1\r\n | 101";

#[test]
fn each_handshake_is_answered_and_fails_alone(rt: HostRuntime) -> Result<(), Fail> {
    for row in HEADS.lines() {
        let (head, status) = row.rsplit_once("|").ok_or("three columns")?;
        let (first, second) = both_read(&rt, &bad_head(rt.alloc(), head)?)?;
        let is_first = has_status(rt.alloc(), &first, status.trim())?;
        assert!(rt; is_first, "{row}: {}", first.escape_ascii());
        assert!(rt; second.starts_with(b"HTTP/1.1 101"), "behind {row}");
    }
    let (first, second) = both_read(&rt, &long_head(rt.alloc())?)?;
    assert!(rt;
        first.starts_with(b"HTTP/1.1 400"),
        "70,000 bytes: {}",
        first.escape_ascii()
    );
    assert!(rt; second.starts_with(b"HTTP/1.1 101"), "behind 70,000 bytes");
    Ok(())
}

/// Whether an answer has this status; without one there is no answer.
fn has_status(alloc: Global, answer: &[u8], status: &str) -> Result<bool, AllocError> {
    if status.is_empty() {
        return Ok(answer.is_empty());
    }
    let line = format!(in alloc; "HTTP/1.1 {status} ")?;
    Ok(answer.starts_with(line.as_bytes()))
}

/// What two clients read, one after another: the first writes these bytes and no more, the second a head.
fn both_read(rt: &HostRuntime, bytes: &[u8]) -> Result<(Vec<u8>, Vec<u8>), Fail> {
    let listener = TcpListener::bind(rt, "127.0.0.1:0")?;
    let at = listener.local_addr()?;
    let first = written(rt, at, bytes)?;
    let second = written(rt, at, &head_bytes(rt.alloc())?)?;
    serve(rt.alloc(), &listener, 2, 100)?;
    Ok((rest_of(rt.alloc(), first)?, rest_of(rt.alloc(), second)?))
}

/// How many commands come before the end of a session. Their replies are more than a client holds that does not read, so some
/// are on their way where the server closes.
const BEFORE: usize = 1500;

/// How many texts come behind the end, or behind a broken frame: more than the server has read by then.
const BEHIND: usize = 4000;

#[test]
fn each_reply_before_a_close_is_read(rt: HostRuntime) -> Result<(), Fail> {
    let listener = TcpListener::bind(&rt, "127.0.0.1:0")?;
    let client = written(&rt, listener.local_addr()?, &ended_session(rt.alloc())?)?;
    serve(rt.alloc(), &listener, 1, u32::MAX)?;
    let all = rest_of(rt.alloc(), client)?;
    let wanted = replies_to_the_end(rt.alloc())?;
    assert!(rt; all.ends_with(&wanted), "{} bytes", all.len());
    Ok(())
}

#[test]
fn the_answer_to_a_broken_frame_is_read(rt: HostRuntime) -> Result<(), Fail> {
    let listener = TcpListener::bind(&rt, "127.0.0.1:0")?;
    let client = written(&rt, listener.local_addr()?, &broken_at_once(rt.alloc())?)?;
    serve(rt.alloc(), &listener, 1, u32::MAX)?;
    let all = rest_of(rt.alloc(), client)?;
    let is_read = all.ends_with(b"\r\n\r\n\x88\x02\x03\xea");
    assert!(rt; is_read, "{}", all.escape_ascii());
    Ok(())
}

/// A head, a frame without a mask, and commands behind it.
fn broken_at_once(alloc: Global) -> Result<Vec<u8>, AllocError> {
    let mut bytes = round_head(alloc)?;
    bytes.extend_from_slice(b"\x81\x02{}")?;
    for _ in 0..BEHIND {
        bytes.extend_from_slice(STATUS)?;
    }
    Ok(bytes)
}

/// A head, a session, commands, its end, and more commands.
fn ended_session(alloc: Global) -> Result<Vec<u8>, AllocError> {
    let mut bytes = round_head(alloc)?;
    bytes.extend_from_slice(NEW)?;
    for _ in 0..BEFORE {
        bytes.extend_from_slice(STATUS)?;
    }
    bytes.extend_from_slice(END)?;
    for _ in 0..BEHIND {
        bytes.extend_from_slice(STATUS)?;
    }
    Ok(bytes)
}

/// The replies to the commands and to the end of the session, and the close frame, with code 1000.
fn replies_to_the_end(alloc: Global) -> Result<Vec<u8>, AllocError> {
    let mut bytes = Vec::new(alloc);
    for _ in 0..BEFORE {
        bytes.extend_from_slice(READY)?;
    }
    bytes.extend_from_slice(ENDED)?;
    bytes.extend_from_slice(b"\x88\x02\x03\xe8")?;
    Ok(bytes)
}

#[test]
fn a_peer_that_stays_is_left(rt: HostRuntime) -> Result<(), Fail> {
    let listener = TcpListener::bind(&rt, "127.0.0.1:0")?;
    let mut client = TcpStream::connect(&rt, listener.local_addr()?)?;
    client.write_all(&round_head(rt.alloc())?)?;
    client.write_all(STATUS)?;
    let started = Instant::now(&rt)?;
    serve(rt.alloc(), &listener, 1, 1)?;
    let lasted = started.elapsed(&rt)?;
    assert!(rt; lasted < Duration::from_secs(20));
    let all = rest_of(rt.alloc(), client)?;
    let is_read = all.ends_with(&bytes_of(rt.alloc(), "READY 88 02 03 e8")?);
    assert!(rt; is_read, "{}", all.escape_ascii());
    Ok(())
}

/// A command in one frame of a client, 46 bytes behind a key of zeros.
const STATUS: &[u8] =
    b"\x81\xae\x00\x00\x00\x00{\"id\":1,\"method\":\"session.status\",\"params\":{}}";

/// The reply to it in one frame of a server, 67 bytes.
const READY: &[u8] =
    b"\x81\x43{\"id\":1,\"result\":{\"message\":\"ready\",\"ready\":true},\"type\":\"success\"}";

/// What begins a session and what ends it, in one frame of a client each, 60 and 43 bytes behind a key of zeros.
const NEW: &[u8] =
    b"\x81\xbc\x00\x00\x00\x00{\"id\":1,\"method\":\"session.new\",\"params\":{\"capabilities\":{}}}";

const END: &[u8] = b"\x81\xab\x00\x00\x00\x00{\"id\":1,\"method\":\"session.end\",\"params\":{}}";

/// The reply to the end in one frame of a server, 37 bytes.
const ENDED: &[u8] = b"\x81\x25{\"id\":1,\"result\":{},\"type\":\"success\"}";

/// The answer to a message that is no text, 82 bytes.
const REFUSED: &[u8] =
    b"\x81\x52{\"error\":\"invalid argument\",\"id\":null,\"message\":\"invalid argument\",\"type\":\"error\"}";

/// What a client writes behind the head of its handshake, and all that it reads behind the server's: three words stand for the
/// bytes above, the rest are bytes. A frame that breaks the protocol is answered by a close frame with its code, an end of the
/// stream by none (RFC 6455, 7.4.1); a close is answered, one with a code that may not be sent by 1002, with a text.
const LINKS: &str = "a command | STATUS | READY
two commands | STATUS STATUS | READY READY
no frame | |
bytes, a ping and a pong | 82 80 00 00 00 00 89 80 00 00 00 00 8a 80 00 00 00 00 | REFUSED 8a 00
a close | 88 80 00 00 00 00 | 88 00
a command behind a close | 88 80 00 00 00 00 STATUS | 88 00
a close with a bad code | 88 82 00 00 00 00 03 ed | 88 14 03 ea ..
no mask | 81 02 7b 7d | 88 02 03 ea
reserved bits | f1 80 00 00 00 00 | 88 02 03 ea
an unknown opcode | 83 80 00 00 00 00 | 88 02 03 ea
a length past the limits | 81 ff 7f ff ff ff ff ff ff ff 00 00 00 00 | 88 02 03 f1
a text within a text in parts | 01 81 00 00 00 00 7b 81 81 00 00 00 00 7d | 88 02 03 ea
no UTF-8 | 81 81 00 00 00 00 ff | 88 02 03 ef
the end in the middle | 81 85 00 00 00 00 7b |
a command, and then no mask | STATUS 81 02 7b 7d | READY 88 02 03 ea";

#[test]
fn each_link_is_served_and_fails_alone(rt: HostRuntime) -> Result<(), Fail> {
    for row in LINKS.lines() {
        let (name, row) = row.split_once(" | ").ok_or("a row")?;
        let (frames, wanted) = row.split_once("|").ok_or("two columns")?;
        let (first, second) = talks(&rt, &bytes_of(rt.alloc(), frames)?)?;
        let is_first = is_read(rt.alloc(), &first, wanted)?;
        assert!(rt; is_first, "{name}: {}", first.escape_ascii());
        // the last of its messages, so that the server closes the link, by code 1000
        let is_second = is_read(rt.alloc(), &second, "READY 88 02 03 e8")?;
        assert!(rt; is_second, "behind {name}: {}", second.escape_ascii());
    }
    Ok(())
}

/// Whether these bytes were read; `..` stands for any that follow.
fn is_read(alloc: Global, read: &[u8], wanted: &str) -> Result<bool, Fail> {
    match wanted.split_once("..") {
        Some((first, _)) => Ok(read.starts_with(&bytes_of(alloc, first)?)),
        None => Ok(read == bytes_of(alloc, wanted)?.as_slice()),
    }
}

/// What two clients read, one after another over one remote end: the first writes these frames, the second a command.
fn talks(rt: &HostRuntime, frames: &[u8]) -> Result<(Vec<u8>, Vec<u8>), Fail> {
    let mut end = RemoteEnd::new(rt.alloc())?;
    let first = talk(rt, &mut end, 1, frames, 10);
    let second = talk(rt, &mut end, 2, STATUS, 1);
    drop(end);
    let (Some(first), Some(second)) = (first, second) else {
        return Err(Fail::from("a stream fails, or a connection is not dropped"));
    };
    Ok((first, second))
}

/// What a client reads behind the head, where it reads that, and then writes these frames and no more. A server takes at most
/// so many messages. Nothing where a stream fails, or the connection is not dropped at the end.
fn talk(
    rt: &HostRuntime,
    end: &mut RemoteEnd,
    conn: u32,
    frames: &[u8],
    messages: u32,
) -> Option<Vec<u8>> {
    let listener = TcpListener::bind(rt, "127.0.0.1:0").ok()?;
    let mut client = TcpStream::connect(rt, listener.local_addr().ok()?).ok()?;
    client.write_all(&head_bytes(rt.alloc()).ok()?).ok()?;
    let (stream, _) = listener.accept().ok()?;
    match accept_hdr(rt.alloc(), stream, NoCallback) {
        Ok(socket) => {
            let link = Link::over(rt.alloc(), socket);
            talk_over(rt.alloc(), end, conn, link, client, frames, messages)
        }
        Err(_) => None,
    }
}

/// What the client reads behind the head, where a server serves this link to it.
fn talk_over(
    alloc: Global,
    end: &mut RemoteEnd,
    conn: u32,
    link: Link<TcpStream, NoMask>,
    client: TcpStream,
    frames: &[u8],
    messages: u32,
) -> Option<Vec<u8>> {
    let client = frames_written(alloc, client, frames);
    let is_dropped = serve_one(alloc, end, conn, link, messages);
    if is_dropped {
        rest_of(alloc, client.ok()?).ok()
    } else {
        None
    }
}

/// Serves a link, and tells whether its connection was dropped.
fn serve_one<S: Read + Write + Drop>(
    alloc: Global,
    end: &mut RemoteEnd,
    conn: u32,
    link: Link<S, NoMask>,
    messages: u32,
) -> bool {
    let mut link = link;
    let value = u64::from(conn);
    let conn = JsUint { value };
    let served = serve_link(alloc, end, &mut link, conn, "/session", messages);
    served.is_ok() && !end.is_open(conn)
}

/// A client that has read a head, has written these frames, and writes no more.
fn frames_written(alloc: Global, client: TcpStream, frames: &[u8]) -> io::Result<TcpStream> {
    let mut client = client;
    let mut head = Vec::new(alloc);
    for _ in 0..4096u32 {
        if head.ends_with(b"\r\n\r\n") {
            break;
        }
        let mut byte = [0; 1];
        client.read_exact(&mut byte)?;
        head.extend_from_slice(&byte)?;
    }
    client.write_all(frames)?;
    client.shutdown(Shutdown::Write)?;
    Ok(client)
}

/// The bytes of a column.
fn bytes_of(alloc: Global, words: &str) -> Result<Vec<u8>, Fail> {
    let mut bytes = Vec::new(alloc);
    for word in words.split_whitespace() {
        match word {
            "STATUS" => bytes.extend_from_slice(STATUS)?,
            "READY" => bytes.extend_from_slice(READY)?,
            "REFUSED" => bytes.extend_from_slice(REFUSED)?,
            _ => bytes.push(u8::from_str_radix(word, 16)?)?,
        }
    }
    Ok(bytes)
}

/// Subscribes to what happens to contexts and realms, and navigates the tab that stands at the start: in one frame of a client
/// each, 86 and 127 bytes behind a key of zeros.
const SUBSCRIBE: &[u8] =
    b"\x81\xd6\x00\x00\x00\x00{\"id\":2,\"method\":\"session.subscribe\",\"params\":{\"events\":[\"browsingContext\",\"script\"]}}";

const NAVIGATE: &[u8] =
    b"\x81\xfe\x00\x7f\x00\x00\x00\x00{\"id\":3,\"method\":\"browsingContext.navigate\",\"params\":{\"context\":\"00000000-0002-8000-8000-000000000001\",\"url\":\"http://a.test/\"}}";

/// A session is answered by one text; a subscription by the context, the realm and its id; a navigation by its start, the end of
/// a realm, a new realm, the content, the load, and its reply. What one command brings about leaves in one write.
#[test]
fn the_texts_of_a_step_leave_in_one_write(rt: HostRuntime) -> Result<(), Fail> {
    let mut frames = Vec::new(rt.alloc());
    for frame in [NEW, SUBSCRIBE, NAVIGATE] {
        frames.extend_from_slice(frame)?;
    }
    let writes = RefCell::new(Vec::new(rt.alloc()));
    let wire = Wire {
        given: frames.as_slice(),
        writes: &writes,
    };
    let is_dropped = serve_wire(rt.alloc(), Link::server(rt.alloc(), wire)?);
    let texts = writes.into_inner();
    assert!(rt;
        is_dropped && texts.as_slice() == [1, 3, 6].as_slice(),
        "{texts:?}"
    );
    Ok(())
}

/// Serves a link by a new remote end, and tells whether its connection was dropped.
fn serve_wire(alloc: Global, link: Link<Wire<'_>, NoMask>) -> bool {
    match RemoteEnd::new(alloc) {
        Ok(end) => serve_new(alloc, end, link),
        Err(_) => false,
    }
}

fn serve_new(alloc: Global, end: RemoteEnd, link: Link<Wire<'_>, NoMask>) -> bool {
    let mut end = end;
    serve_one(alloc, &mut end, 1, link, 10)
}

/// A stream in memory: the bytes that it gives, and how many texts each write had.
#[derive(Drop)]
struct Wire<'a> {
    given: &'a [u8],
    writes: &'a RefCell<Vec<usize>>,
}

impl Read for Wire<'_> {
    fn read(&mut self, buf: &mut [u8]) -> io::Result<usize> {
        let count = buf.len().min(self.given.len());
        buf[..count].copy_from_slice(&self.given[..count]);
        self.given = &self.given[count..];
        Ok(count)
    }
}

impl Write for Wire<'_> {
    fn write(&mut self, buf: &[u8]) -> io::Result<usize> {
        match self.writes.try_borrow_mut() {
            Ok(mut writes) => writes.push(texts_in(buf))?,
            Err(_) => return Err(io::Error::from(ErrorKind::Other)),
        }
        Ok(buf.len())
    }

    fn flush(&mut self) -> io::Result<()> {
        Ok(())
    }
}

/// How many whole frames of a text, each of less than 65,536 bytes, stand at the front of these bytes.
fn texts_in(bytes: &[u8]) -> usize {
    let mut rest = bytes;
    for texts in 0..bytes.len() {
        match behind_text(rest) {
            Some(behind) => rest = behind,
            None => return texts,
        }
    }
    bytes.len()
}

/// What stands behind the first frame of a text.
fn behind_text(bytes: &[u8]) -> Option<&[u8]> {
    match bytes {
        [0x81, 0x7e, high, low, rest @ ..] => {
            rest.get(usize::from(u16::from_be_bytes([*high, *low]))..)
        }
        [0x81, len, rest @ ..] => rest.get(usize::from(*len)..),
        _ => None,
    }
}

#[test]
fn faults_tell_their_cause(rt: HostRuntime) -> Result<(), Fail> {
    let listen = format!(in rt.alloc(); "{}", ServeFault::Listen)?;
    assert!(rt; listen.as_str() == "cannot listen");
    Ok(())
}

/// A client that has connected, written these bytes, and writes no more.
fn written(rt: &HostRuntime, at: SocketAddr, bytes: &[u8]) -> io::Result<TcpStream> {
    let mut client = TcpStream::connect(rt, at)?;
    client.write_all(bytes)?;
    client.shutdown(Shutdown::Write)?;
    Ok(client)
}

/// All that comes until the server has closed.
fn rest_of(alloc: Global, client: TcpStream) -> io::Result<Vec<u8>> {
    let mut client = client;
    let mut all = Vec::new(alloc);
    client.read_to_end(&mut all)?;
    Ok(all)
}

/// A head for `/session`.
fn head_bytes(alloc: Global) -> Result<Vec<u8>, AllocError> {
    let mut bytes = Vec::new(alloc);
    bytes.extend_from_slice(b"GET /session HTTP/1.1\r\n")?;
    bytes.extend_from_slice(FIELDS.as_bytes())?;
    Ok(bytes)
}

/// A head for `/session` of 4,096 bytes, as many as the server reads at once: so a client that has not read the answer yet can
/// write frames behind it.
fn round_head(alloc: Global) -> Result<Vec<u8>, AllocError> {
    let mut bytes = Vec::new(alloc);
    bytes.extend_from_slice(b"GET /session HTTP/1.1\r\nA: ")?;
    let filled = bytes.len() + 2 + FIELDS.len();
    bytes.resize(bytes.len() + 4096usize.saturating_sub(filled), b'x')?;
    bytes.extend_from_slice(b"\r\n")?;
    bytes.extend_from_slice(FIELDS.as_bytes())?;
    Ok(bytes)
}

/// The head of a row, with its fields where the first line is whole.
fn bad_head(alloc: Global, row: &str) -> Result<Vec<u8>, Fail> {
    let (_, head) = row.split_once(" |").ok_or("a row")?;
    let head = head.trim().replace(alloc, "\\r\\n", "\r\n")?;
    let mut bytes = Vec::new(alloc);
    bytes.extend_from_slice(head.as_bytes())?;
    if head.ends_with("\r\n") && !head.ends_with("\r\n\r\n") {
        bytes.extend_from_slice(FIELDS.as_bytes())?;
    }
    Ok(bytes)
}

/// A head with a field of 70,000 bytes.
fn long_head(alloc: Global) -> Result<Vec<u8>, AllocError> {
    let long = "x".repeat(alloc, 70_000)?;
    let mut bytes = Vec::new(alloc);
    bytes.extend_from_slice(b"GET /session HTTP/1.1\r\nA: ")?;
    bytes.extend_from_slice(long.as_bytes())?;
    bytes.extend_from_slice(b"\r\n")?;
    bytes.extend_from_slice(FIELDS.as_bytes())?;
    Ok(bytes)
}
