//! Many connections of one remote end, served in turns.
ghost use Rattle.std.specs.Prelude.{◌≡◌, ◌≢◌, [], IfOk, None, OnOk, get_or, true};
ghost use Rattle.bidi_host_loop.specs.Runs.{IsNew, Plays, TakesPageLine, names_first};

use crate::clock::{shorter, time};
use crate::console::Console;
use crate::door::Door;
use crate::edge::Edge;
use crate::lifetime::Lifetime;
use crate::manners::Manners;
use crate::registry::Registry;
use crate::surroundings::Surroundings;
use bidi_recorder::{Host, HostingFault};
use std::alloc::Global;
use std::time::{Duration, Instant};

/// The page line that makes all names known.
const ALL_NAMES: &str = "names *";

/// A remote end that is hosted, with its connections.
pub struct Hosted {
    pub(crate) alloc: Global,
    pub(crate) manners: Manners,
    pub(crate) host: Host,
    // The page lines that each new browser plays first.
    page: Vec<String>,
    // The connections, and what was done.
    pub(crate) edge: Edge,
    // What is known of the clients.
    pub(crate) registry: Registry,
    // Standard input.
    pub(crate) console: Console,
    // What was reported on clients' texts.
    pub(crate) told: Vec<String>,
    // When the host ends.
    pub(crate) lifetime: Lifetime,
}

impl Drop for Hosted {
    fn drop(self) {
        let Hosted {
            alloc: _,
            manners: _,
            host: _,
            page: _,
            edge: _,
            registry: _,
            console: _,
            told: _,
            lifetime: _,
        } = self;
    }
}

impl Hosted {
    ghost use Rattle.bidi_host_loop.specs.Goes.{By, GoesOn, Rests, lines_of, opening_of};

    /// Makes a host without connections. Each new browser plays these page lines first; [`Hosted::begin`]
    /// plays them for the first browser.
    ///
    /// # Errors
    /// `NoMemory`: an allocation failed.
    pub fn new(alloc: Global, manners: Manners, page: Vec<String>) -> Result<Hosted, HostingFault>
        // The remote end is new, and nothing was done.
        ensures new { IfOk result (λ hosted. IsNew hosted.host.end × (hosted.edge.account.deeds ≡ [])) }
        // The host has these manners, and these lines of the page.
        ensures given { IfOk result (λ hosted. (hosted.manners ≡ manners) × (hosted.page ≡ page)) }
    {
        Ok(Hosted {
            alloc,
            manners,
            host: Host::new(alloc)?,
            page,
            edge: Edge::new(alloc, manners.most_connections),
            registry: Registry::new(alloc),
            console: Console::new(alloc),
            told: Vec::new(alloc),
            lifetime: Lifetime::new(),
        })
    }

    /// Plays the page lines, after `names *` if the host is lenient. Call it once, before [`Hosted::serve`].
    ///
    /// # Errors
    /// - `BadLine`: the line of this number is not a line of a page.
    /// - `Write`, `NoMemory`, `WornOut`: as [`Hosted::serve`].
    pub fn begin<W: Surroundings>(&mut self, world: &mut W) -> Result<(), HostingFault>
        // After an Ok, the host has gone on by whole steps: each input is recorded, and then all that it brings about is done, in order.
        ensures goes_on { GoesOn self.old self.new result }
        // After an Ok, each line was taken: `names *` if the host is lenient, and then the lines of the page, in order.
        ensures plays { OnOk result (By (Plays (opening_of self.old)) self.old self.new) }
    {
        self.play_all(world)?;
        Ok(())
    }

    // Plays the page lines, after `names *` if the host is lenient.
    pub(crate) fn play_all<W: Surroundings>(&mut self, world: &mut W) -> Result<(), HostingFault>
        ensures { OnOk result (By (Plays (opening_of self.old)) self.old self.new) }
    {
        self.hold_names(world)?;
        self.play_page(world)?;
        Ok(())
    }

    // Plays the page lines.
    fn play_page<W: Surroundings>(&mut self, world: &mut W) -> Result<(), HostingFault>
        ensures { OnOk result (By (Plays (lines_of self.old)) self.old self.new) }
    {
        let mut number: u64 = 0;
        for place in 0..self.page.len() {
            number = number.saturating_add(1);
            if !self.play(world, place)? {
                return Err(HostingFault::BadLine(number));
            }
        }
        Ok(())
    }

    // Makes all names known if the host is lenient, so that sessions can subscribe to those that the profile does not have.
    fn hold_names<W: Surroundings>(&mut self, world: &mut W) -> Result<(), HostingFault>
        ensures { OnOk result (By (Plays (names_first self.old.manners.is_lenient)) self.old self.new) }
    {
        if !self.manners.is_lenient {
            return Ok(());
        }
        match self.host.page_line(ALL_NAMES)? {
            Some(taken) => {
                self.deliver(world, taken)?;
                Ok(())
            }
            None => Err(HostingFault::BadLine(0)),
        }
    }

    // Plays the page line at a place. Returns whether there is one.
    fn play<W: Surroundings>(&mut self, world: &mut W, place: usize) -> Result<bool, HostingFault>
        ensures { IfOk result (λ is_line. is_line ≡ true → By (TakesPageLine (get_or (lines_of self.old) place [])) self.old self.new) }
    {
        let Some(line) = self.page.get(place) else {
            return Ok(false);
        };
        match self.host.page_line(line.as_str())? {
            Some(taken) => {
                self.deliver(world, taken)?;
                Ok(true)
            }
            None => Ok(false),
        }
    }

    /// Serves the connections of a door until a page, or the end of standard input, ends it, or until its
    /// last session has ended ([`Manners::ends_after_last`]). Writes to standard error where it listens.
    ///
    /// Memory holds the remote end, and for each connection the beginning of one message and at most
    /// `most_waiting` bytes to be sent. After each step, whatever it came from, all connections together hold at
    /// most `most_held` bytes: those that hold most are closed.
    ///
    /// # Errors
    /// - `Listen`: waiting for connections failed.
    /// - `Read`: standard input cannot be read.
    /// - `Answer`: an answer cannot be written to standard output.
    /// - `Write`: the record cannot be written.
    /// - `NoMemory`: an allocation failed.
    /// - `WornOut`: the remote end takes no more steps, or the host no more turns.
    #[tactic(auto, using(crate::proofs::RunLemmas::rests_run))]
    pub fn serve<W: Surroundings>(
        &mut self,
        door: &mut Door,
        world: &mut W,
    ) -> Result<(), HostingFault>
        // After an Ok, the host has gone on by whole steps: each input is recorded, and then all that it brings about is done, in order.
        ensures goes_on { GoesOn self.old self.new result }
        // It returns an Ok only if the host was told to end.
        ensures ends { OnOk result (self.new.lifetime.end ≢ None) }
    {
        self.listen(door, world)?;
        for _ in 0..u64::MAX {
            if self.turn(door, world, None)? {
                return Ok(());
            }
        }
        Err(HostingFault::WornOut)
    }

    /// Starts to wait for connections and for standard input, and reports where. [`Hosted::serve`] does so
    /// first.
    ///
    /// # Errors
    /// - `Listen`: waiting for connections failed.
    /// - `NoMemory`: an allocation failed.
    pub fn listen<W: Surroundings>(
        &mut self,
        door: &mut Door,
        world: &mut W,
    ) -> Result<(), HostingFault>
        // After an Ok, nothing has come and nothing was done, and the remote end is the same.
        ensures { OnOk result (Rests self.old self.new) }
    {
        let port = door.open()?;
        if self.manners.reads_input {
            self.console.is_ready = !door.wait_for_input(world.input_fd());
        }
        let line = format!(in self.alloc; "WebDriver BiDi listening on ws://127.0.0.1:{port}")?;
        world.note(line.as_str());
        Ok(())
    }

    // Drops the connections whose deadline has passed. Returns the next deadline.
    fn drop_late(&mut self, now: Instant) -> Option<Instant>
        ensures { Rests self.old self.new }
    {
        self.edge.expire(now)
    }

    // Writes what is queued for all connections.
    fn flush_all(&mut self)
        ensures { Rests self.old self.new }
    {
        self.edge.flush();
    }

    /// Takes one turn: waits until something can be done, at most for so long, and does it. Returns whether
    /// the host has ended. [`Hosted::serve`] takes turn after turn.
    ///
    /// # Errors
    /// Those of [`Hosted::serve`].
    pub fn turn<W: Surroundings>(
        &mut self,
        door: &mut Door,
        world: &mut W,
        most: Option<Duration>,
    ) -> Result<bool, HostingFault>
        // After an Ok, the host has gone on by whole steps: each input is recorded, and then all that it brings about is done, in order.
        ensures goes_on { GoesOn self.old self.new result }
        // It returns true only if the host was told to end.
        ensures ends { IfOk result (λ ended. ended ≡ true → self.new.lifetime.end ≢ None) }
    {
        let now = time(world)?;
        let next = self.drop_late(now);
        if self.has_ended(now) {
            return Ok(true);
        }
        self.wait(door, world, shorter(self.timeout(now, next), most))?;
        self.read_input(door, world)?;
        self.serve_ready(world)?;
        self.end_after_last(world)?;
        self.flush_all();
        Ok(false)
    }

    // Waits until something can be done, at most for so long. Accepts the connections that came.
    fn wait<W: Surroundings>(
        &mut self,
        door: &mut Door,
        world: &mut W,
        most: Option<Duration>,
    ) -> Result<(), HostingFault>
        ensures { OnOk result (Rests self.old self.new) }
    {
        door.wait(most)?;
        self.accept_all(door, world)?;
        self.console.is_ready |= door.has_input();
        for event in door.events().iter() {
            self.edge.wake(event.token().0);
        }
        Ok(())
    }

    // Whether the host was told to end, and its connections have ended or have had their time.
    fn has_ended(&self, now: Instant) -> bool
        ensures { result ≡ true → self.now.lifetime.end ≢ None }
    {
        match self.lifetime.end() {
            Some(end) => end <= now || self.edge.peers.is_empty(),
            None => false,
        }
    }

    // The longest time to wait.
    fn timeout(&self, now: Instant, next: Option<Instant>) -> Option<Duration> {
        if self.console.is_ready || self.edge.peers.is_any_ready() {
            return Some(Duration::ZERO);
        }
        match (next, self.lifetime.end()) {
            (None, None) => None,
            (Some(next), None) => Some(next.saturating_duration_since(now)),
            (None, Some(end)) => Some(end.saturating_duration_since(now)),
            (Some(next), Some(end)) => Some(next.min(end).saturating_duration_since(now)),
        }
    }
}
