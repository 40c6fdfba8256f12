//! The program `bidi`, over the standard streams and a listener.
//!
//! `bidi play` reads a play from standard input, a step a line, and writes what the remote end sends.
//! `bidi pair` reads steps of both ends, and writes what became of each command and which events each link received.
//! `bidi reduce` writes the lines of a play that are kept for a session.
//! `bidi show` writes a line for each text of a local or a remote end, and `bidi check` one for each that is refused. Both
//! read standard input, or a file that the command line names.
//! `bidi serve` serves WebSocket connections on 127.0.0.1, one after another.
//! `bidi host` serves many at once, and takes lines of a page.
#![tactic(auto)]

mod bad_lines;
mod files;
mod system;

use bad_lines::{input_reason, page_reason};
use bidi_command_line::{
    HostFiles, HostOptions, LineFault, Run, ServeOptions, StreamRun, command_line, host_files,
    input_file,
};
use bidi_host_loop::{Door, Hosted, MOST_CONNECTIONS, MOST_WAITING, Manners, page_lines};
use bidi_lines::{Device, Sink, Source, write_all};
use bidi_recorder::HostingFault;
use bidi_run::{Recent, hosting_status, run, serving_status};
use bidi_serve::{ServeFault, serve};
use files::{FileFault, PageFile, opened, page_file};
use mio::Poll;
use mio::net::TcpListener as Listener;
use std::alloc::{AllocError, Global};
use std::net::{Ipv4Addr, SocketAddr, SocketAddrV4, TcpListener};
use std::process::ExitCode;
use std::{env, io};
use system::{System, held_streams};

fn main(rt: HostRuntime) -> ExitCode {
    // If nothing can stand in for a closed stream, the program runs without.
    let streams = held_streams(&rt);
    let status = match status(&rt) {
        Ok(status) => status,
        Err(error) if error.kind() == io::ErrorKind::InvalidData => {
            told(&rt, b"error: a word of the command line is not UTF-8\n", 2)
        }
        Err(_) => told(&rt, OUT_OF_MEMORY, 3),
    };
    drop(streams);
    ExitCode::from(status)
}

/// The line of a program that has no memory for its command line.
const OUT_OF_MEMORY: &[u8] = b"bidi: out of memory\n";

/// How many bytes a MiB has.
const MIB: usize = 1 << 20;

/// What `--version` writes.
const VERSION: &[u8] = b"bidi 0.1.0, profile P2\n";

// Writes what was asked for, help or the version, and returns the status.
fn answered<W: Sink>(rt: &HostRuntime, output: &mut W, text: &[u8]) -> u8 {
    match write_all(output, text) {
        Ok(()) => 0,
        Err(_) => told(rt, b"bidi: output cannot be written\n", 3),
    }
}

// Tells a fault on the standard error, and returns its status.
fn told(rt: &HostRuntime, line: &[u8], status: u8) -> u8 {
    let _ = write_all(&mut Device::new(rt.stderr()), line);
    status
}

// Whether the words ask for the version.
fn asks_for_version(words: &[&str]) -> bool {
    words.len() == 1 && (words[0] == "--version" || words[0] == "-V" || words[0] == "version")
}

// The words with `--help` in place of the word `help`: for `help` and for `help SUBCOMMAND`.
fn with_help(words: Vec<&str>) -> Result<Vec<&str>, AllocError> {
    let mut words = words;
    if words.len() == 1 || words.len() == 2 {
        if words[0] == "help" {
            words.remove(0);
            words.push("--help")?;
        }
    }
    Ok(words)
}

// Runs what the command line asks for, and returns the status. A word that is not UTF-8 is `InvalidData`.
fn status(rt: &HostRuntime) -> io::Result<u8> {
    let alloc = rt.alloc();
    let words = env::args(rt)?.skip(1).collect::<Vec<String>>(alloc)?;
    let words = words
        .iter()
        .map(|word| word.as_str())
        .collect::<Vec<&str>>(alloc)?;
    let mut output = Device::new(io::writer(rt));
    let mut faults = Device::new(rt.stderr());
    if asks_for_version(&words) {
        return Ok(answered(rt, &mut output, VERSION));
    }
    let words = with_help(words)?;
    match command_line(alloc, &words) {
        Ok(Run::Serve(asked)) => Ok(serving_status(served(rt, asked), &mut faults)),
        Ok(Run::Host(asked)) => match host_files(alloc, &words) {
            Ok(files) => host_status(rt, asked, files),
            Err(_) => Ok(told(rt, OUT_OF_MEMORY, 3)),
        },
        Ok(Run::Stream(asked)) => stream_status(rt, asked, &words),
        Err(LineFault::Help(text)) => { Ok(answered(rt, &mut output, text.as_bytes())) }
        Err(LineFault::Usage(text)) => {
            let _ = write_all(&mut faults, text.as_bytes());
            Ok(2)
        }
        Err(LineFault::NoMemory) => Ok(told(rt, OUT_OF_MEMORY, 3)),
    }
}

// Runs a program over an input and an output, and returns the status.
fn stream_status(rt: &HostRuntime, asked: StreamRun, words: &[&str]) -> io::Result<u8> {
    match input_of(rt.alloc(), asked, words) {
        Ok(None) => match asked {
            StreamRun::ScriptedPlay | StreamRun::ScriptedReduce(_) => explained(rt, asked),
            _ => Ok(status_over(rt, asked, &mut Device::new(rt.reader()))),
        },
        Ok(Some(name)) => match opened(rt, name.as_str()) {
            Ok(file) => Ok(status_over(rt, asked, &mut Device::new(file))),
            Err(error) => refused(
                rt,
                &FileFault {
                    doing: "read",
                    name,
                    kind: error.kind(),
                },
            ),
        },
        Err(_) => Ok(told(rt, OUT_OF_MEMORY, 3)),
    }
}

// Runs a program over the lines of a scripted play, and says what is wrong with them.
fn explained(rt: &HostRuntime, asked: StreamRun) -> io::Result<u8> {
    let mut input = Recent::new(rt.alloc(), Device::new(rt.reader()));
    let status = status_over(rt, asked, &mut input);
    if let Some(reason) = input_reason(rt.alloc(), status, &input)? {
        let line = format!(in rt.alloc(); "bidi: {reason}\n")?;
        return Ok(told(rt, line.as_bytes(), status));
    }
    Ok(status)
}

// Runs a program over this input and standard output, and returns the status.
fn status_over<R: Source>(rt: &HostRuntime, asked: StreamRun, input: &mut R) -> u8 {
    let mut output = Device::new(io::writer(rt));
    let mut faults = Device::new(rt.stderr());
    run(rt.alloc(), &asked, input, &mut output, &mut faults)
}

// The file that a run reads in place of the standard input: `show` and `check` may have one.
fn input_of(alloc: Global, asked: StreamRun, words: &[&str]) -> Result<Option<String>, LineFault> {
    match asked {
        StreamRun::Play
        | StreamRun::ScriptedPlay
        | StreamRun::Pair
        | StreamRun::Reduce(_)
        | StreamRun::ScriptedReduce(_) => Ok(None),
        _ => input_file(alloc, words),
    }
}

// Says that a file cannot be used, and returns the status.
fn refused(rt: &HostRuntime, fault: &FileFault) -> io::Result<u8> {
    let line = fault.line(rt.alloc())?;
    Ok(told(rt, line.as_bytes(), 3))
}

// Serves on 127.0.0.1.
fn served(rt: &HostRuntime, asked: ServeOptions) -> Result<(), ServeFault> {
    let Ok(listener) = TcpListener::bind(rt, local(asked.port)) else {
        return Err(ServeFault::Listen);
    };
    serve(rt.alloc(), &listener, asked.connections, asked.messages)
}

// A port on 127.0.0.1.
fn local(port: u16) -> SocketAddr {
    SocketAddr::V4(SocketAddrV4::new(Ipv4Addr::LOCALHOST, port))
}

/// Why a host ended early.
#[derive(Drop)]
enum Ended {
    /// It met a fault.
    Fault(HostingFault),
    /// The line of this number in the file of its page is not a line of a page.
    BadLine(u64, PageFile),
    /// The system refuses a file.
    NoFile(FileFault),
    /// It cannot listen on its port, for a reason of the system's.
    NoPort(io::ErrorKind),
}

impl From<HostingFault> for Ended {
    fn from(fault: HostingFault) -> Ended {
        Ended::Fault(fault)
    }
}

impl From<AllocError> for Ended {
    fn from(_: AllocError) -> Ended {
        Ended::Fault(HostingFault::NoMemory)
    }
}

impl From<FileFault> for Ended {
    fn from(fault: FileFault) -> Ended {
        Ended::NoFile(fault)
    }
}

// Hosts, and returns the status of the program.
fn host_status(rt: &HostRuntime, asked: HostOptions, files: HostFiles) -> io::Result<u8> {
    let mut faults = Device::new(rt.stderr());
    match hosted(rt, asked, files) {
        Ok(()) => Ok(hosting_status(Ok(()), &mut faults)),
        Err(Ended::Fault(fault)) => Ok(hosting_status(Err(fault), &mut faults)),
        Err(Ended::BadLine(number, page)) => {
            let status = hosting_status(Err(HostingFault::BadLine(number)), &mut faults);
            let reason = page_reason(rt.alloc(), &page.bytes, number)?;
            let line = format!(in rt.alloc(); "bidi: {}: {reason}\n", page.name)?;
            Ok(told(rt, line.as_bytes(), status))
        }
        Err(Ended::NoFile(fault)) => refused(rt, &fault),
        Err(Ended::NoPort(kind)) => {
            let (port, reason) = (asked.port, reason(kind));
            let line = format!(in rt.alloc();
                "bidi: cannot listen on 127.0.0.1:{port}: {reason}\n"
            )?;
            Ok(told(rt, line.as_bytes(), 3))
        }
    }
}

// Why the system gives no port, in words.
fn reason(kind: io::ErrorKind) -> &'static str {
    match kind {
        io::ErrorKind::AddrInUse => "the port is in use",
        io::ErrorKind::PermissionDenied => "permission denied",
        _ => "the system refuses",
    }
}

// Hosts on 127.0.0.1.
fn hosted(rt: &HostRuntime, asked: HostOptions, files: HostFiles) -> Result<(), Ended> {
    let page = page_file(rt, files.page_file)?;
    let mut system = System::new(rt, files.record_file)?;
    match begun(rt, asked, &page, &mut system) {
        Ok(()) => Ok(()),
        Err(Ended::Fault(HostingFault::BadLine(number))) => Err(Ended::BadLine(number, page)),
        Err(Ended::Fault(HostingFault::Write)) => match system.refused()? {
            Some(fault) => Err(Ended::NoFile(fault)),
            None => Err(Ended::Fault(HostingFault::Write)),
        },
        Err(ended) => Err(ended),
    }
}

// Plays the lines of the page, and then serves the connections of a listener.
fn begun(
    rt: &HostRuntime,
    asked: HostOptions,
    page: &PageFile,
    system: &mut System,
) -> Result<(), Ended> {
    let lines = page_lines(rt.alloc(), &page.bytes)?;
    let mut hosted = Hosted::new(rt.alloc(), manners(asked), lines)?;
    hosted.begin(system)?;
    match Listener::bind(rt, local(asked.port)) {
        Ok(listener) => Ok(served_by(rt, listener, &mut hosted, system)?),
        Err(error) => Err(Ended::NoPort(error.kind())),
    }
}

// How clients are treated.
fn manners(asked: HostOptions) -> Manners {
    Manners {
        ends_sessions: asked.ends_sessions,
        is_lenient: asked.is_lenient,
        ends_after_last: asked.ends_after_last,
        reads_input: asked.reads_input,
        most_waiting: MOST_WAITING,
        most_held: (asked.most_buffered as usize) * MIB,
        most_connections: MOST_CONNECTIONS,
    }
}

// Serves the connections of a listener.
fn served_by(
    rt: &HostRuntime,
    listener: Listener,
    hosted: &mut Hosted,
    system: &mut System,
) -> Result<(), HostingFault> {
    let Ok(poll) = Poll::new(rt) else {
        return Err(HostingFault::Listen);
    };
    let mut door = Door::new(rt.alloc(), poll, listener)?;
    hosted.serve(&mut door, system)
}
