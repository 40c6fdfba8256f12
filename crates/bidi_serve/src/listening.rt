//! Serving a listener: the remote end behind WebSocket connections, one after another.
ghost use Rattle.std.specs.Prelude.{◌≡◌};
ghost use Rattle.bidi_serve.specs.Serving.{serve_fault_of};
ghost use Rattle.bidi_serve.specs.declared.listening.ServeFault.TheVariants.{NoMemory};

use super::serving::serve_link;
use bidi_remote::{RemoteEnd, RemoteFault};
use bidi_socket::Link;
use bidi_tree::JsUint;
use http::{Request, Response};
use std::alloc::{AllocError, Global};
use std::io::{Read, Write};
use std::net::{Shutdown, TcpListener, TcpStream};
use std::time::Duration;
use thiserror::Error;
use tungstenite::handshake::server::{ErrorResponse, ServerError};
use tungstenite::{Callback, Error as SocketError, HandshakeError, NoMask, accept_hdr};
use websocket::handshake::HandshakeError as HeadError;

// The most milliseconds that a read waits at the end of a connection.
const PATIENCE: u64 = 250;

// The most bytes that such a read takes.
const LAST_READ: usize = 4096;

// The most such reads.
const LAST_READS: u32 = 1024;

// The answer to a head that is not an opening handshake (RFC 6455, 4.2.1).
const BAD_REQUEST: &str =
    "HTTP/1.1 400 Bad Request\r\nConnection: close\r\nContent-Length: 0\r\n\r\n";

// The answer to a request that is not for a WebSocket, or for another version than 13 (RFC 6455,
// 4.2.2 and 4.4).
const UPGRADE_REQUIRED: &str =
    "HTTP/1.1 426 Upgrade Required\r\nUpgrade: websocket\r\nSec-WebSocket-Version: 13\r\nConnection: Upgrade, close\r\nContent-Length: 0\r\n\r\n";

/// Why serving ended before its last connection. The remote end is gone, with its sessions.
#[derive(Clone, Copy, Debug, PartialEq, Eq, Error)]
pub enum ServeFault {
    /// The program has no listener, or the listener accepts no connection. Try another port.
    #[error("cannot listen")]
    Listen,
    /// An allocation failed. The current connection is cut off, and later ones are not accepted.
    #[error("out of memory")]
    NoMemory,
    /// The remote end has taken 1,000,000,000 steps, and takes no more. Serve again with a new one.
    #[error("too many steps")]
    WornOut,
}

impl From<AllocError> for ServeFault {
    ghost from_gives = { λ _ fault. fault ≡ NoMemory };

    fn from(_: AllocError) -> ServeFault {
        ServeFault::NoMemory
    }
}

impl From<RemoteFault> for ServeFault {
    ghost from_gives = { λ error fault. fault ≡ serve_fault_of error };

    fn from(error: RemoteFault) -> ServeFault {
        match error {
            RemoteFault::NoMemory => ServeFault::NoMemory,
            RemoteFault::WornOut => ServeFault::WornOut,
        }
    }
}

/// Serves `connections` connections of a listener, one after another and numbered from 1, over one remote end
/// at moment 0. Takes at most `messages` messages of each, including pings and pongs.
///
/// The resource of a connection is the target of its request, as it was written. A handshake or a link that
/// fails ends only its own connection; a handshake that fails makes no step, but counts as a connection. A
/// head that is not a request is answered by 400. A request that is not for a WebSocket, or is for another
/// version than 13, is answered by 426. If there is no memory for the head, the answer is 400 or none. The
/// call waits for each connection, and for each message of its peer.
///
/// At the end of a connection the call sends no more, and discards what the peer still sends, up to the end
/// of the stream: at most 1,024 reads of 4,096 bytes, none of which waits more than 250 ms. Otherwise the
/// system would reset a socket with unread bytes, and replies that are still on their way would be lost (RFC
/// 6455, 7.1.1).
///
/// # Errors
/// - `Listen`: a connection could not be accepted.
/// - `NoMemory`, `WornOut`: those of [`serve_link`]; also `NoMemory` if an allocation for a resource failed.
pub fn serve(
    alloc: Global,
    listener: &TcpListener,
    connections: u32,
    messages: u32,
) -> Result<(), ServeFault> {
    let mut end = RemoteEnd::new(alloc)?;
    for number in 1..=connections {
        let Ok((stream, _)) = listener.accept() else {
            return Err(ServeFault::Listen);
        };
        let value = u64::from(number);
        serve_stream(alloc, &mut end, stream, JsUint { value }, messages)?;
    }
    Ok(())
}

// Serves the connection of a stream that was accepted. Each frame is sent without waiting for
// another.
fn serve_stream(
    alloc: Global,
    end: &mut RemoteEnd,
    stream: TcpStream,
    conn: JsUint,
    messages: u32,
) -> Result<(), ServeFault> {
    let _ = stream.set_nodelay(true);
    let served = serve_handshake(alloc, end, &stream, conn, messages);
    end_stream(&stream);
    served
}

// Sends no more, and discards what comes, up to the end or the bounds. A fault of the stream has no
// effect.
fn end_stream(stream: &TcpStream) {
    let patience = Duration::from_millis(PATIENCE);
    if stream.shutdown(Shutdown::Write).is_ok() && stream.set_read_timeout(Some(patience)).is_ok() {
        throw_away(stream);
    }
}

// Reads up to the end, a fault or the last of the reads, and discards the bytes.
fn throw_away<S: Read + Drop>(stream: S) {
    let mut stream = stream;
    let mut unread = [0; LAST_READ];
    for _ in 0..LAST_READS {
        match stream.read(&mut unread) {
            Ok(0) | Err(_) => return,
            Ok(_) => {}
        }
    }
}

// Serves a connection whose handshake is not finished.
fn serve_handshake(
    alloc: Global,
    end: &mut RemoteEnd,
    stream: &TcpStream,
    conn: JsUint,
    messages: u32,
) -> Result<(), ServeFault> {
    let mut target = Ok(String::new(alloc));
    match handshake(alloc, stream, &mut target) {
        Ok(link) => serve_target(alloc, end, link, conn, target, messages),
        Err(answer) => {
            refuse(stream, answer);
            Ok(())
        }
    }
}

// Answers a handshake that failed.
fn refuse<S: Write + Drop>(stream: S, answer: &str) {
    let mut stream = stream;
    let _ = stream.write_all(answer.as_bytes());
}

// Serves a connection whose handshake has given its target.
fn serve_target<S: Read + Write + Drop>(
    alloc: Global,
    end: &mut RemoteEnd,
    link: Link<S, NoMask>,
    conn: JsUint,
    target: Result<String, AllocError>,
    messages: u32,
) -> Result<(), ServeFault> {
    let mut link = link;
    let resource = target?;
    serve_link(alloc, end, &mut link, conn, resource.as_str(), messages)?;
    Ok(())
}

// Makes the link of a handshake, or the answer to one that fails. Stores the target of its request
// in `target`.
fn handshake<S: Read + Write + Drop>(
    alloc: Global,
    stream: S,
    target: &mut Result<String, AllocError>,
) -> Result<Link<S, NoMask>, &'static str> {
    let socket = accept_hdr(alloc, stream, keeper(alloc, target)).map_err(answer_to)?;
    Ok(Link::over(alloc, socket))
}

// The answer to a handshake that failed: empty if no request came, because the stream failed or
// ended.
fn answer_to<S: Read + Write + Drop, C: Callback + Drop>(error: ServerError<S, C>) -> &'static str {
    match error {
        HandshakeError::Failure(fault) => answer_to_fault(fault),
        HandshakeError::Interrupted(_) => "",
    }
}

// The answer to a handshake that ended with this fault.
fn answer_to_fault(fault: SocketError) -> &'static str {
    match fault {
        SocketError::Handshake(fault) => answer_to_head(fault),
        SocketError::AttackAttempt | SocketError::JunkAfterRequest | SocketError::Url => {
            BAD_REQUEST
        }
        _ => "",
    }
}

// The answer to the head of a request that opens no connection.
fn answer_to_head(fault: HeadError) -> &'static str {
    match fault {
        HeadError::MissingConnectionUpgradeHeader
        | HeadError::MissingUpgradeWebSocketHeader
        | HeadError::MissingSecWebSocketVersionHeader => UPGRADE_REQUIRED,
        _ => BAD_REQUEST,
    }
}

// Makes the callback that stores the target of a request.
fn keeper<'a>(alloc: Global, target: &'a mut Result<String, AllocError>) -> TargetKeeper<'a> {
    TargetKeeper { alloc, target }
}

/// Stores the target of the request in a handshake.
struct TargetKeeper<'a> {
    alloc: Global,
    target: &'a mut Result<String, AllocError>,
}

impl<'a> Drop for TargetKeeper<'a> {
    fn drop(self) {
        let TargetKeeper {
            alloc: _,
            target: _,
        } = self;
    }
}

impl<'a> Callback for TargetKeeper<'a> {
    fn on_request(
        self,
        request: &Request<()>,
        response: Response<()>,
    ) -> Result<Response<()>, ErrorResponse> {
        let TargetKeeper { alloc, target } = self;
        *target = format!(in alloc; "{}", request.uri());
        Ok(response)
    }
}
