//! The file of a page.
use crate::steps::{PLAIN, check_scene};
use crate::world::World;
use bidi_host_loop::{Hosted, page_lines};
use bidi_recorder::HostingFault;
use std::alloc::Global;
use std::test::Fail;
use std::time::Instant;

/// Files, and how many lines they have; `\n` stands for a line feed, and `\x` for a byte that is not UTF-8.
const FILES: &str = r"no line | | 0 lines
one line | at 5\n | 1 lines
an empty line | \n | 1 lines
two lines | at 5\nat 6\n | 2 lines
no line feed behind the first | at 5 | line 1 is no line of a page
no line feed behind the last | at 5\nat 6\nat 7 | line 3 is no line of a page
not UTF-8 | at 5\n\x\nat 6\n | line 2 is no line of a page
not UTF-8, and then no line feed | \x\nat 6 | line 1 is no line of a page";

#[test]
fn a_file_is_lines(rt: HostRuntime) -> Result<(), Fail> {
    for row in FILES.lines() {
        let (name, row) = row.split_once(" | ").ok_or("a row")?;
        let (file, wanted) = row.split_once("| ").ok_or("two columns")?;
        let found = found_in(rt.alloc(), file.trim())?;
        assert!(rt; found.as_str() == wanted, "{name}: {found}");
    }
    Ok(())
}

/// What is found of a file.
fn found_in(alloc: Global, file: &str) -> Result<String, Fail> {
    let bytes = file_bytes(alloc, file)?;
    match page_lines(alloc, &bytes) {
        Ok(lines) => Ok(format!(in alloc; "{} lines", lines.len())?),
        Err(fault) => Ok(format!(in alloc; "{fault}")?),
    }
}

/// The bytes of a file.
fn file_bytes(alloc: Global, file: &str) -> Result<Vec<u8>, Fail> {
    let file = file.replace(alloc, "\\n", "\n")?;
    let mut bytes = Vec::new(alloc);
    let mut pieces = file.as_str().split("\\x");
    bytes.extend_from_slice(pieces.next().unwrap_or("").as_bytes())?;
    for piece in pieces {
        bytes.push(0xff)?;
        bytes.extend_from_slice(piece.as_bytes())?;
    }
    Ok(bytes)
}

/// A page whose lines are played before anything else, and what a client then finds.
const PAGE: &str = r#"value {"text":"1 + 1","returns":{"type":"number","value":2}}
frame 00000000-0002-8000-8000-000000000001 about:blank
unframe nothing
"#;

const PLAYED: &str = r#"1 begins @s1
1 says {"id":1,"method":"script.evaluate","params":{"awaitPromise":false,"expression":"1 + 1","target":{"context":"@c2"}}}
1 hears {"id":1,"result":{"realm":"@r2","result":{"type":"number","value":2},"type":"success"},"type":"success"}"#;

#[test]
fn a_page_is_played_first(rt: HostRuntime) -> Result<(), Fail> {
    check_scene(&rt, PLAIN, PAGE, PLAYED)
}

/// Pages that cannot be played, and the number of the line.
const BAD_PAGES: &str = r"1 | open 1 /session\n
1 | \n
1 | reset\n
2 | at 5\nat 05\n
3 | at 5\nat 6\nend\nat 7\n";

#[test]
fn a_bad_line_of_a_page_is_told(rt: HostRuntime) -> Result<(), Fail> {
    for row in BAD_PAGES.lines() {
        let (number, page) = row.split_once(" | ").ok_or("a row")?;
        let page = page.replace(rt.alloc(), "\\n", "\n")?;
        let told = told_of(&rt, page.as_str())?;
        let wanted = format!(in rt.alloc(); "line {number} is no line of a page")?;
        assert!(rt; told.as_str() == wanted.as_str(), "{row}: {told}");
    }
    Ok(())
}

/// What a host tells that is to play a page first.
fn told_of(rt: &HostRuntime, page: &str) -> Result<String, Fail> {
    let alloc = rt.alloc();
    let lines = page_lines(alloc, page.as_bytes())?;
    let world = World::new(alloc, Instant::now(rt)?, None)?;
    match begun(Hosted::new(alloc, PLAIN, lines)?, world) {
        Ok(()) => Ok(String::from_str(alloc, "it is played")?),
        Err(fault) => Ok(format!(in alloc; "{fault}")?),
    }
}

/// Plays the lines of the page of a host.
fn begun(hosted: Hosted, world: World) -> Result<(), HostingFault> {
    let (mut hosted, mut world) = (hosted, world);
    let found = hosted.begin(&mut world);
    drop(hosted);
    found
}
