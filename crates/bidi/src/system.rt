//! What lies round a host: the system's clock, the record and the standard streams.
use crate::files::FileFault;
use bidi_host_loop::Surroundings;
use bidi_recorder::HostingFault;
use std::alloc::{AllocError, Global};
use std::fs::{self, File};
use std::io;
use std::io::{Read, Write};
use std::os::fd::{AsRawFd, RawFd};
use std::time::Instant;

/// The descriptor of standard input.
const STANDARD_INPUT: RawFd = 0;

/// The descriptors of the standard streams are below this one.
const STREAMS: RawFd = 3;

/// The file that stands in for a standard stream that is closed.
const NOWHERE: &str = "/dev/null";

/// Opens a file in place of each standard stream that is closed, so that no other file and no socket gets its descriptor.
/// As before, the input cannot be read, and the outputs cannot be written. Hold the files as long as the program runs.
pub(crate) fn held_streams(rt: &HostRuntime) -> io::Result<Vec<File>> {
    let mut held = Vec::new(rt.alloc());
    for _ in 0..STREAMS {
        let read = fs::open(rt, NOWHERE)?;
        match read.as_raw_fd() {
            STANDARD_INPUT => {
                drop(read);
                held.push(fs::create(rt, NOWHERE)?)?;
            }
            fd if fd < STREAMS => held.push(read)?,
            _ => return Ok(held),
        }
    }
    Ok(held)
}

/// A record: its file, and the name that each further file is made of.
#[derive(Drop)]
struct Record {
    path: String,
    // The number of the file; the first has none in its name.
    number: u64,
    file: File,
    // How many bytes of whole lines the file has.
    length: u64,
    // Why the system refused to make or to write the file, if it did.
    refused: Option<io::ErrorKind>,
}

/// The system, and the record where one is kept.
#[derive(Drop)]
pub(crate) struct System<'a> {
    rt: &'a HostRuntime,
    record: Option<Record>,
}

impl<'a> System<'a> {
    /// The system, with a record in this file. A file that is there is emptied.
    ///
    /// # Errors
    /// The system refuses the file.
    pub(crate) fn new(rt: &'a HostRuntime, path: Option<String>) -> Result<System<'a>, FileFault> {
        let record = match path {
            None => None,
            Some(path) => Some(begun(rt, path)?),
        };
        Ok(System { rt, record })
    }

    /// The file of the record that the system refused to make or to write, if it did.
    ///
    /// # Errors
    /// No memory: an allocation failed.
    pub(crate) fn refused(&self) -> Result<Option<FileFault>, AllocError> {
        match &self.record {
            None => Ok(None),
            Some(record) => record.refused(self.rt.alloc()),
        }
    }
}

// A record in a new file.
fn begun(rt: &HostRuntime, path: String) -> Result<Record, FileFault> {
    match fs::create(rt, path.as_str()) {
        Ok(file) => Ok(Record {
            path,
            number: 1,
            file,
            length: 0,
            refused: None,
        }),
        Err(error) => Err(FileFault {
            doing: "write",
            name: path,
            kind: error.kind(),
        }),
    }
}

impl Record {
    // The file of this number, if the system refused to make or to write it.
    fn refused(&self, alloc: Global) -> Result<Option<FileFault>, AllocError> {
        let Some(kind) = self.refused else {
            return Ok(None);
        };
        Ok(Some(FileFault {
            doing: "write",
            name: self.name(alloc)?,
            kind,
        }))
    }

    // The name of the file of this number: `FILE`, `FILE.2`, `FILE.3` and so on.
    fn name(&self, alloc: Global) -> Result<String, AllocError> {
        if self.number == 1 {
            return String::from_str(alloc, self.path.as_str());
        }
        format!(in alloc; "{}.{}", self.path, self.number)
    }

    // Appends a line that has its line feed. Of a line that cannot be written whole nothing stays.
    fn append(&mut self, line: &str) -> Result<(), HostingFault> {
        match self.file.write_all(line.as_bytes()) {
            Ok(()) => {
                self.length = self.length.saturating_add(line.len() as u64);
                Ok(())
            }
            Err(error) => {
                let _ = self.file.set_len(self.length);
                self.refused = Some(error.kind());
                Err(HostingFault::Write)
            }
        }
    }

    // Goes on in the next file.
    fn go_on(&mut self, rt: &HostRuntime) -> Result<(), HostingFault> {
        self.number = self.number.saturating_add(1);
        let path = self.name(rt.alloc())?;
        match fs::create(rt, path.as_str()) {
            Ok(file) => {
                self.file = file;
                self.length = 0;
                Ok(())
            }
            Err(error) => {
                self.refused = Some(error.kind());
                Err(HostingFault::Write)
            }
        }
    }
}

impl<'a> Surroundings for System<'a> {
    fn now(&self) -> io::Result<Instant> {
        Instant::now(self.rt)
    }

    fn record(&mut self, line: &str) -> Result<(), HostingFault> {
        match &mut self.record {
            None => Ok(()),
            Some(record) => {
                let line = format!(in self.rt.alloc(); "{line}\n")?;
                record.append(line.as_str())
            }
        }
    }

    fn next_record(&mut self) -> Result<(), HostingFault> {
        match &mut self.record {
            None => Ok(()),
            Some(record) => record.go_on(self.rt),
        }
    }

    fn input_fd(&self) -> RawFd {
        STANDARD_INPUT
    }

    fn read(&mut self, buffer: &mut [u8]) -> io::Result<usize> {
        self.rt.stdin().read(buffer)
    }

    fn answer(&mut self, line: &str) -> io::Result<()> {
        println!(self.rt; "{line}")
    }

    fn note(&mut self, line: &str) {
        let _ = eprintln!(self.rt; "{line}");
    }
}
