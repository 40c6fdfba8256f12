//! What a host waits for: its listener, the streams of its connections, and standard input.
use bidi_recorder::HostingFault;
use mio::net::{TcpListener, TcpStream};
use mio::unix::SourceFd;
use mio::{Events, Interest, Poll, Token};
use std::alloc::Global;
use std::io;
use std::os::fd::RawFd;
use std::time::Duration;

/// The token of the listener. The tokens of connections are their places, which are smaller.
const LISTENER: Token = Token(1_000_000);

/// The token of standard input.
const INPUT: Token = Token(1_000_001);

/// The most events that one wait returns.
const MOST_EVENTS: usize = 256;

/// A listener, and the means to wait for it, for its connections and for standard input.
pub struct Door {
    poll: Poll,
    listener: TcpListener,
    events: Events<Global>,
}

impl Drop for Door {
    fn drop(self) {
        let Door {
            poll: _,
            listener: _,
            events: _,
        } = self;
    }
}

/// The result of accepting a connection.
pub(crate) enum Accepted {
    /// A connection.
    Client(TcpStream),
    /// A connection that failed before it was accepted.
    Failure,
    /// No connection waits.
    Nobody,
}

impl Door {
    /// Makes a door over a listener. It does not wait for anything yet.
    ///
    /// # Errors
    /// `NoMemory`: an allocation failed.
    pub fn new(alloc: Global, poll: Poll, listener: TcpListener) -> Result<Door, HostingFault> {
        Ok(Door {
            poll,
            listener,
            events: Events::with_capacity(alloc, MOST_EVENTS)?,
        })
    }

    /// Starts to wait for connections. Returns the port.
    pub(crate) fn open(&mut self) -> Result<u16, HostingFault> {
        let registered = self
            .poll
            .registry()
            .register(&mut self.listener, LISTENER, Interest::READABLE);
        match (registered, self.listener.local_addr()) {
            (Ok(()), Ok(address)) => Ok(address.port()),
            _ => Err(HostingFault::Listen),
        }
    }

    /// Waits until something is ready, or the time is over.
    pub(crate) fn wait(&mut self, timeout: Option<Duration>) -> Result<(), HostingFault> {
        match self.poll.poll(&mut self.events, timeout) {
            Ok(()) => Ok(()),
            Err(_) => Err(HostingFault::Listen),
        }
    }

    /// Whether connections wait to be accepted.
    pub(crate) fn has_clients(&self) -> bool {
        self.events.iter().any(|event| event.token() == LISTENER)
    }

    /// Whether standard input has bytes, or has ended.
    pub(crate) fn has_input(&self) -> bool {
        self.events.iter().any(|event| event.token() == INPUT)
    }

    /// The events that are ready; the token of a connection is its place.
    pub(crate) fn events(&self) -> &Events<Global> {
        &self.events
    }

    /// Accepts the next waiting connection.
    pub(crate) fn accept(&mut self) -> Accepted {
        match self.listener.accept() {
            Ok((stream, _)) => Accepted::Client(stream),
            Err(error) if error.kind() == io::ErrorKind::WouldBlock => Accepted::Nobody,
            Err(_) => Accepted::Failure,
        }
    }

    /// Waits again for the listener, because more connections may wait, which no event would report.
    pub(crate) fn ask_again(&mut self) -> Result<(), HostingFault> {
        let again = self
            .poll
            .registry()
            .reregister(&mut self.listener, LISTENER, Interest::READABLE);
        match again {
            Ok(()) => Ok(()),
            Err(_) => Err(HostingFault::Listen),
        }
    }

    /// Waits for a stream, whose connection is at this place. Each frame is sent without waiting for another.
    /// Drops a stream that cannot be waited for.
    pub(crate) fn watch(&mut self, stream: TcpStream, place: usize) -> Option<TcpStream> {
        let mut stream = stream;
        let _ = stream.set_nodelay(true);
        let interest = Interest::READABLE.add(Interest::WRITABLE);
        let registered = self
            .poll
            .registry()
            .register(&mut stream, Token(place), interest);
        match registered {
            Ok(()) => Some(stream),
            Err(_) => None,
        }
    }

    /// Waits for standard input. Returns whether that can be waited for; a file cannot, and is always ready.
    pub(crate) fn wait_for_input(&mut self, input: RawFd) -> bool {
        let mut source = SourceFd(&input);
        self.poll
            .registry()
            .register(&mut source, INPUT, Interest::READABLE)
            .is_ok()
    }

    /// Waits for more of standard input. Returns whether that can be waited for.
    pub(crate) fn wait_again(&mut self, input: RawFd) -> bool {
        let mut source = SourceFd(&input);
        self.poll
            .registry()
            .reregister(&mut source, INPUT, Interest::READABLE)
            .is_ok()
    }
}
