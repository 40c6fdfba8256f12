//! A host over loopback with its clients, in one process.
//!
//! The host takes turns while a test waits for something. A turn waits for a moment at most, and nothing sleeps.
use crate::clients::{Client, Conn};
use crate::world::World;
use bidi_host_loop::{Door, Hosted, Manners, page_lines};
use bidi_recorder::HostingFault;
use mio::Poll;
use std::alloc::Global;
use std::net::{SocketAddr, TcpListener, TcpStream};
use std::test::Fail;
use std::time::{Duration, Instant};

/// How many turns a test waits at most.
const MOST_TURNS: u32 = 5_000;

/// How long a turn waits at most, in milliseconds.
const MOMENT: u64 = 1;

/// A host over loopback, with its clients.
#[derive(Drop)]
pub struct Lab {
    /// The allocator.
    pub alloc: Global,
    // Where it listens.
    at: SocketAddr,
    /// What lies round the host.
    pub world: World,
    hosted: Hosted,
    door: Door,
    /// The clients, those that have left, too.
    pub clients: Vec<Client>,
    /// Who writes standard input.
    pub typist: Option<TcpStream>,
    /// How many lines of standard output the test has asked for.
    pub answers: usize,
    /// Whether the host has ended.
    pub has_ended: bool,
    // How many connections of the last browser were asked for.
    last: Conn,
}

/// What a test waits for.
#[derive(Clone, Copy, PartialEq, Eq)]
pub enum Awaited {
    /// The head of an answer.
    Head,
    /// A text that the test has not asked for.
    Text,
    /// A close frame.
    Close,
    /// The end of the stream.
    End,
}

impl Awaited {
    /// Whether a client has read it.
    pub fn is_at(self, client: &Client) -> bool {
        match self {
            Awaited::Head => client.head.is_some() || client.has_ended,
            Awaited::Text => client.next_text().is_some() || client.has_ended,
            Awaited::Close => client.closed.is_some() || client.has_ended,
            Awaited::End => client.has_ended,
        }
    }
}

impl Lab {
    /// A host that has played the lines of a page, and listens.
    pub fn new(rt: &HostRuntime, manners: Manners, page: &str) -> Result<Lab, Fail> {
        begun(Lab::idle(rt, manners, page)?)
    }

    /// A host that has not begun.
    pub fn idle(rt: &HostRuntime, manners: Manners, page: &str) -> Result<Lab, Fail> {
        let alloc = rt.alloc();
        let (typist, input) = if manners.reads_input {
            pair(rt)?
        } else {
            (None, None)
        };
        let listener = mio::net::TcpListener::bind(rt, "127.0.0.1:0".parse::<SocketAddr>()?)?;
        let at = listener.local_addr()?;
        let door = Door::new(alloc, Poll::new(rt)?, listener)?;
        let world = World::new(alloc, Instant::now(rt)?, input)?;
        let hosted = Hosted::new(alloc, manners, page_lines(alloc, page.as_bytes())?)?;
        Ok(Lab {
            alloc,
            at,
            world,
            hosted,
            door,
            clients: Vec::new(alloc),
            typist,
            answers: 0,
            has_ended: false,
            last: Conn {
                epoch: 0,
                number: 0,
            },
        })
    }

    /// Begins to host, and asserts that it tells where.
    fn begin(&mut self) -> Result<(), Fail> {
        self.hosted.begin(&mut self.world)?;
        self.hosted.listen(&mut self.door, &mut self.world)?;
        let told = format!(in self.alloc;
            "WebDriver BiDi listening on ws://127.0.0.1:{}",
            self.at.port()
        )?;
        match self.world.notes.last() {
            Some(note) if note.as_str() == told.as_str() => Ok(()),
            _ => Err(Fail::from("it does not tell where it listens")),
        }
    }

    /// Serves until the host is told to end.
    pub fn serve(&mut self) -> Result<(), HostingFault> {
        self.hosted.serve(&mut self.door, &mut self.world)
    }

    /// One turn of the host, over what the clients have written.
    pub fn turn(&mut self) -> Result<(), Fail> {
        for client in self.clients.iter_mut() {
            client.write();
        }
        if !self.has_ended {
            let moment = Duration::from_millis(MOMENT);
            self.has_ended = self
                .hosted
                .turn(&mut self.door, &mut self.world, Some(moment))?;
        }
        Ok(())
    }

    /// Turns until nothing more is to be done.
    pub fn rest(&mut self) -> Result<(), Fail> {
        for _ in 0..20u32 {
            self.turn()?;
        }
        Ok(())
    }

    /// Turns until the host has ended. Tells whether it has.
    pub fn wait_for_end(&mut self) -> Result<bool, Fail> {
        for _ in 0..MOST_TURNS {
            if self.has_ended {
                break;
            }
            self.turn()?;
        }
        Ok(self.has_ended)
    }

    /// Turns until the record ends in this line. Tells whether it does.
    pub fn wait_for_line(&mut self, line: &str) -> Result<bool, Fail> {
        for _ in 0..MOST_TURNS {
            if self.world.last_line.as_str() == line {
                return Ok(true);
            }
            self.turn()?;
        }
        Ok(false)
    }

    /// Turns until standard output has a line that the test has not asked for. Tells whether it is this.
    pub fn wait_for_answer(&mut self, line: &str) -> Result<bool, Fail> {
        for _ in 0..MOST_TURNS {
            if let Some(answer) = self.world.answers.get(self.answers) {
                self.answers = self.answers.saturating_add(1);
                return Ok(answer.as_str() == line);
            }
            self.turn()?;
        }
        Ok(false)
    }

    /// Turns until a client has read this, or its stream has ended. Tells whether it is so.
    pub fn wait_for(&mut self, place: usize, awaited: Awaited) -> Result<bool, Fail> {
        for _ in 0..MOST_TURNS {
            if self.has_read(place, awaited)? {
                return Ok(true);
            }
            self.turn()?;
        }
        Ok(false)
    }

    /// Whether a client has this, without a turn of the host.
    pub fn has_already(&mut self, place: usize, awaited: Awaited) -> Result<bool, Fail> {
        for _ in 0..MOST_TURNS {
            if self.has_read(place, awaited)? {
                return Ok(true);
            }
        }
        Ok(false)
    }

    /// Whether a client has read this, or its stream has ended.
    fn has_read(&mut self, place: usize, awaited: Awaited) -> Result<bool, Fail> {
        match self.clients.get_mut(place) {
            Some(client) => {
                client.read()?;
                Ok(awaited.is_at(client))
            }
            None => Ok(false),
        }
    }

    /// Turns until a client has so many texts, or can have no more.
    pub fn wait_for_texts(&mut self, place: usize, count: usize) -> Result<(), Fail> {
        for _ in 0..MOST_TURNS {
            if self.has_texts(place, count)? {
                break;
            }
            self.turn()?;
        }
        Ok(())
    }

    /// Whether a client has so many texts, or can have no more.
    fn has_texts(&mut self, place: usize, count: usize) -> Result<bool, Fail> {
        match self.clients.get_mut(place) {
            Some(client) => {
                client.read()?;
                let is_over = client.has_left() || client.has_ended || client.closed.is_some();
                Ok(is_over || client.texts.len() >= count)
            }
            None => Ok(true),
        }
    }

    /// A new client of this name. One that had it before has none any more.
    pub fn connect(&mut self, rt: &HostRuntime, name: &str) -> Result<usize, Fail> {
        for client in self.clients.iter_mut() {
            if client.name.as_str() == name {
                client.name.clear();
            }
        }
        let stream = TcpStream::connect(rt, self.at)?;
        stream.set_nonblocking(true)?;
        stream.set_nodelay(true)?;
        let place = self.clients.len();
        self.clients.push(Client::new(self.alloc, name, stream)?)?;
        Ok(place)
    }

    /// The port at which the host listens.
    pub fn port(&self) -> u16 {
        self.at.port()
    }

    /// The next connection that is asked for, by number. Numbers begin anew with each browser.
    pub fn next_conn(&mut self) -> Conn {
        let epoch = self.world.records.len().saturating_sub(1);
        let number = if epoch == self.last.epoch {
            self.last.number.saturating_add(1)
        } else {
            1
        };
        self.last = Conn { epoch, number };
        self.last
    }

    /// Where a client of this name is.
    pub fn place_of(&self, name: &str) -> Result<usize, Fail> {
        let place = self
            .clients
            .iter()
            .position(|client| client.name.as_str() == name);
        match place {
            Some(place) => Ok(place),
            None => Err(Fail::new(format_args!("there is no client {name}"))),
        }
    }

    /// The client at a place.
    pub fn client(&mut self, place: usize) -> Result<&mut Client, Fail> {
        match self.clients.get_mut(place) {
            Some(client) => Ok(client),
            None => Err(Fail::from("there is no client at this place")),
        }
    }
}

/// A lab whose host has begun.
fn begun(lab: Lab) -> Result<Lab, Fail> {
    let mut lab = lab;
    match lab.begin() {
        Ok(()) => Ok(lab),
        Err(fail) => Err(fail),
    }
}

/// Both ends of a stream.
fn pair(rt: &HostRuntime) -> Result<(Option<TcpStream>, Option<TcpStream>), Fail> {
    let listener = TcpListener::bind(rt, "127.0.0.1:0")?;
    let typist = TcpStream::connect(rt, listener.local_addr()?)?;
    let (input, _) = listener.accept()?;
    input.set_nonblocking(true)?;
    Ok((Some(typist), Some(input)))
}
