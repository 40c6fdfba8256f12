//! The files that the command line names: opening and reading them, and why the system refuses one.
use std::alloc::{AllocError, Global};
use std::fs::{self, File};
use std::io;

/// A file that cannot be used.
#[derive(Drop)]
pub(crate) struct FileFault {
    /// What was to be done with it: `read` or `write`.
    pub doing: &'static str,
    /// Its name.
    pub name: String,
    /// The reason of the system.
    pub kind: io::ErrorKind,
}

impl FileFault {
    /// The line that says so, with its line feed.
    ///
    /// # Errors
    /// No memory: an allocation failed.
    pub(crate) fn line(&self, alloc: Global) -> Result<String, AllocError> {
        if self.kind == io::ErrorKind::OutOfMemory {
            return String::from_str(alloc, "bidi: out of memory\n");
        }
        let (doing, name) = (self.doing, self.name.as_str());
        let reason = reason(self.kind);
        format!(in alloc; "bidi: cannot {doing} {name}: {reason}\n")
    }
}

// Why the system refuses a file, in words.
fn reason(kind: io::ErrorKind) -> &'static str {
    match kind {
        io::ErrorKind::NotFound | io::ErrorKind::NotADirectory => "no such file",
        io::ErrorKind::IsADirectory => "a directory",
        io::ErrorKind::PermissionDenied => "permission denied",
        io::ErrorKind::StorageFull => "no space is left",
        _ => "the system refuses",
    }
}

/// Opens a file that is to be read. A directory is refused.
pub(crate) fn opened(rt: &HostRuntime, name: &str) -> io::Result<File> {
    let file = fs::open(rt, name)?;
    if file.metadata()?.is_dir() {
        return Err(io::Error::from(io::ErrorKind::IsADirectory));
    }
    Ok(file)
}

/// The file of a page: its name, and what it has. Both are empty if there is none.
#[derive(Drop)]
pub(crate) struct PageFile {
    /// Its name.
    pub name: String,
    /// Its bytes.
    pub bytes: Vec<u8>,
}

/// Reads the file of a page.
///
/// # Errors
/// The system refuses it.
pub(crate) fn page_file(rt: &HostRuntime, name: Option<String>) -> Result<PageFile, FileFault> {
    let Some(name) = name else {
        return Ok(PageFile {
            name: String::new(rt.alloc()),
            bytes: Vec::new(rt.alloc()),
        });
    };
    match fs::read(rt, name.as_str()) {
        Ok(bytes) => Ok(PageFile { name, bytes }),
        Err(error) => Err(FileFault {
            doing: "read",
            name,
            kind: error.kind(),
        }),
    }
}
