//! Runs over a reader or a writer that fails once, or that moves few bytes at a time.
//!
//! What a run answers stands with an empty line between the answers to two lines of its input.
ghost use Rattle.std.specs.Prelude.{◌≤◌, IfSome};

use bidi_command_line::{BothOptions, StreamRun, WhyOptions};
use bidi_lines::{Device, Side};
use bidi_run::{Recent, run};
use std::alloc::{AllocError, Global};
use std::io;
use std::io::{ErrorKind, Read, Write};
use std::process::Abort;
use std::test::Fail;

/// A play of two lines, and what it answers.
const PLAY: &str = "open 1 /session\n> 1 {\"id\":1,\"method\":\"session.status\",\"params\":{}}\n";

const PLAYED: &str =
    "opened 1\n\n< 1 {\"id\":1,\"result\":{\"message\":\"ready\",\"ready\":true},\"type\":\"success\"}\n";

/// A play with a line of a test.
const SCRIPT: &str = "open 1 /session\ncut 2\n> 1 {\n";

/// A play whose third line is bad, and whose first ends in a carriage return.
const BAD: &str = "open 1 /session\r\nat 5\ndrop x\n";

/// Two commands of no known method, and what is shown of them, and what a check writes.
const TWO: &str = "{\"id\":1,\"method\":\"session.fly\"}\n{\"id\":2,\"method\":\"session.fly\"}\n";

const SHOWN: &str = "refused 1 unknown command\n\nrefused 2 unknown command\n";

const CHECKED: &str = "line 1: refused 1 unknown command\n\nline 2: refused 2 unknown command\n";

/// What a check asks for that tells why, two lines that are no JSON, and what it tells of them.
const WHY: StreamRun = StreamRun::Why(WhyOptions {
    side: Side::Remote,
    is_json: false,
    profile_only: false,
});

const NO_JSON: &str = "x\n[\n";

const EXPLAINED: &str =
    "line 1: not json: wants a value at byte 1\n\nline 2: not json: wants a value or \"]\" at byte 2\n";

/// A check of a conversation, a text of each end that is no JSON, and a command with no answer behind which one comes.
const BOTH: StreamRun = StreamRun::Both(BothOptions {
    is_why: false,
    is_json: false,
    profile_only: false,
});

const NO_TEXTS: &str = "> x\n< [\n";

const REFUSED: &str = "line 1: refused null invalid argument\n\nline 2: not json\n";

const ASKED: &str = "> {\"id\":1,\"method\":\"session.status\",\"params\":{}}\n< [\n";

const UNANSWERED: &str = "line 2: not json\n\nunanswered 1 session.status (line 1)\n";

/// A schedule of both ends, and what became of its command.
const PAIR: &str = "open 1 /session\nsend 1 session.status {}\nup 1\ndown 1\n";

const PAIRED: &str = "1 1 session.status answered {\"message\":\"ready\",\"ready\":true}\n";

/// A navigation of a context with a frame, told to a subscriber, and a history that has no such entry.
const NAVIGATION: &str = r#"open 1 /session
> 1 {"id":0,"method":"session.new","params":{"capabilities":{}}}
> 1 {"id":1,"method":"session.subscribe","params":{"events":["browsingContext","script"]}}
frame 00000000-0002-8000-8000-000000000001 about:blank
at 5
> 1 {"id":2,"method":"browsingContext.navigate","params":{"context":"00000000-0002-8000-8000-000000000001","url":"http://a.test","wait":"complete"}}
> 1 {"id":3,"method":"browsingContext.traverseHistory","params":{"context":"00000000-0002-8000-8000-000000000001","delta":-2}}
"#;

const NAVIGATED: &str = r#"opened 1

< 1 {"id":0,"result":{"capabilities":{"acceptInsecureCerts":false,"browserName":"memory-browser","browserVersion":"1.0","platformName":"none","setWindowRect":false,"userAgent":"memory-browser/1.0"},"sessionId":"00000000-0001-8000-8000-000000000001"},"type":"success"}

< 1 {"method":"browsingContext.contextCreated","params":{"children":null,"clientWindow":"00000000-0007-8000-8000-000000000001","context":"00000000-0002-8000-8000-000000000001","originalOpener":null,"parent":null,"url":"about:blank","userContext":"default"},"type":"event"}
< 1 {"method":"script.realmCreated","params":{"context":"00000000-0002-8000-8000-000000000001","origin":"null","realm":"00000000-0003-8000-8000-000000000001","type":"window"},"type":"event"}
< 1 {"id":1,"result":{"subscription":"00000001-0005-8000-8000-000000000001"},"type":"success"}

< 1 {"method":"browsingContext.contextCreated","params":{"children":null,"clientWindow":"00000000-0007-8000-8000-000000000001","context":"00000000-0002-8000-8000-000000000002","originalOpener":null,"parent":"00000000-0002-8000-8000-000000000001","url":"about:blank","userContext":"default"},"type":"event"}
< 1 {"method":"script.realmCreated","params":{"context":"00000000-0002-8000-8000-000000000002","origin":"null","realm":"00000000-0003-8000-8000-000000000002","type":"window"},"type":"event"}



< 1 {"method":"browsingContext.navigationStarted","params":{"context":"00000000-0002-8000-8000-000000000001","navigation":"00000000-0004-8000-8000-000000000001","timestamp":5,"url":"http://a.test/"},"type":"event"}
< 1 {"method":"script.realmDestroyed","params":{"realm":"00000000-0003-8000-8000-000000000002"},"type":"event"}
< 1 {"method":"browsingContext.contextDestroyed","params":{"children":[],"clientWindow":"00000000-0007-8000-8000-000000000001","context":"00000000-0002-8000-8000-000000000002","originalOpener":null,"parent":"00000000-0002-8000-8000-000000000001","url":"about:blank","userContext":"default"},"type":"event"}
< 1 {"method":"script.realmDestroyed","params":{"realm":"00000000-0003-8000-8000-000000000001"},"type":"event"}
< 1 {"method":"script.realmCreated","params":{"context":"00000000-0002-8000-8000-000000000001","origin":"http://a.test","realm":"00000000-0003-8000-8000-000000000003","type":"window"},"type":"event"}
< 1 {"method":"browsingContext.domContentLoaded","params":{"context":"00000000-0002-8000-8000-000000000001","navigation":"00000000-0004-8000-8000-000000000001","timestamp":5,"url":"http://a.test/"},"type":"event"}
< 1 {"method":"browsingContext.load","params":{"context":"00000000-0002-8000-8000-000000000001","navigation":"00000000-0004-8000-8000-000000000001","timestamp":5,"url":"http://a.test/"},"type":"event"}
< 1 {"id":2,"result":{"navigation":"00000000-0004-8000-8000-000000000001","url":"http://a.test/"},"type":"success"}

< 1 {"error":"no such history entry","id":3,"message":"no such history entry","type":"error"}
"#;

#[test]
fn each_line_before_a_failed_read_is_answered(rt: HostRuntime) -> Result<(), Fail> {
    check_reads(&rt, &StreamRun::Play, PLAY, PLAYED)?;
    check_reads(&rt, &StreamRun::Play, NAVIGATION, NAVIGATED)?;
    check_reads(&rt, &StreamRun::Show(Side::Local), TWO, SHOWN)?;
    check_reads(&rt, &StreamRun::Check(Side::Local), TWO, CHECKED)?;
    check_reads(&rt, &WHY, NO_JSON, EXPLAINED)?;
    check_reads(&rt, &BOTH, NO_TEXTS, REFUSED)?;
    // What became of a command is known at the end alone, and what is kept of a play is written then.
    check_reads(&rt, &StreamRun::Pair, PAIR, "")?;
    check_reads(&rt, &StreamRun::Reduce(1), PLAY, "")?;
    check_reads(&rt, &StreamRun::ScriptedReduce(1), SCRIPT, "")
}

#[test]
fn a_failed_write_ends_the_run(rt: HostRuntime) -> Result<(), Fail> {
    check_writes(&rt, &StreamRun::Play, PLAY, PLAYED)?;
    check_writes(&rt, &StreamRun::Play, NAVIGATION, NAVIGATED)?;
    check_writes(&rt, &StreamRun::Show(Side::Local), TWO, SHOWN)?;
    check_writes(&rt, &StreamRun::Check(Side::Local), TWO, CHECKED)?;
    check_writes(&rt, &WHY, NO_JSON, EXPLAINED)?;
    check_writes(&rt, &BOTH, NO_TEXTS, REFUSED)?;
    check_writes(&rt, &BOTH, ASKED, UNANSWERED)?;
    check_writes(&rt, &StreamRun::Pair, PAIR, PAIRED)?;
    check_writes(&rt, &StreamRun::Reduce(1), PLAY, PLAY)?;
    check_writes(&rt, &StreamRun::ScriptedReduce(1), SCRIPT, SCRIPT)
}

#[test]
fn short_reads_and_writes_change_nothing(rt: HostRuntime) -> Result<(), Fail> {
    check_sizes(&rt, &StreamRun::Play, NAVIGATION, NAVIGATED)?;
    check_sizes(&rt, &StreamRun::Show(Side::Local), TWO, SHOWN)?;
    check_sizes(&rt, &StreamRun::Pair, PAIR, PAIRED)?;
    check_sizes(&rt, &StreamRun::Reduce(1), PLAY, PLAY)?;
    check_sizes(&rt, &StreamRun::ScriptedReduce(1), SCRIPT, SCRIPT)
}

#[test]
fn the_bad_line_is_remembered(rt: HostRuntime) {
    for most in 1..=BAD.len() {
        let mut source = Recent::new(
            rt.alloc(),
            Device::new(StopAt::within(BAD.as_bytes(), most)),
        );
        let mut sink = Device::new(io::sink());
        let mut faults = Device::new(io::sink());
        let status = run(
            rt.alloc(),
            &StreamRun::ScriptedPlay,
            &mut source,
            &mut sink,
            &mut faults,
        );
        let recent = std::str::from_utf8(source.recent()).unwrap_or("");
        assert!(rt;
            status == 2 && BAD.contains(recent) && recent.contains("drop x\n"),
            "{most} bytes at a time: {recent}"
        );
        assert!(rt; source.has_return(), "{most} bytes at a time");
    }
}

#[test]
fn what_cannot_be_told_changes_nothing(rt: HostRuntime) {
    assert_eq!(rt; untold_status(rt.alloc(), &StreamRun::Play, "at 01\n"), 2);
    assert_eq!(rt; untold_status(rt.alloc(), &WHY, NO_JSON), 1);
    assert_eq!(rt; untold_status(rt.alloc(), &BOTH, ASKED), 1);
}

/// The status of a run that can tell nothing.
fn untold_status(alloc: Global, asked: &StreamRun, input: &str) -> u8 {
    let mut source = Device::new(input.as_bytes());
    let mut sink = Device::new(io::sink());
    let mut room = Vec::<u8>::new(alloc);
    let mut faults = Device::new(room.as_mut_slice());
    run(alloc, asked, &mut source, &mut sink, &mut faults)
}

/// That a run whose reader fails once, behind any number of bytes, answers each line that is whole, and no more.
fn check_reads<R: Abort + AllocGlobal>(
    rt: &R,
    asked: &StreamRun,
    input: &str,
    answers: &str,
) -> Result<(), Fail> {
    for count in 0..=input.len() {
        let read = input.as_bytes().get(..count).ok_or("a place")?;
        let mut written = Vec::new(rt.alloc());
        let is_told = fails(
            rt.alloc(),
            asked,
            StopAt::after(input.as_bytes(), count),
            &mut written,
            "bidi: input cannot be read\n",
        );
        let lines = read.iter().filter(|byte| **byte == b'\n').count();
        let wanted = first_answers(rt.alloc(), answers, lines)?;
        assert!(rt;
            is_told && written.as_slice() == wanted.as_bytes(),
            "behind {count} bytes of {input}"
        );
    }
    Ok(())
}

/// That a run whose writer fails once, behind any number of bytes that are too few, writes so many, and no more.
fn check_writes<R: Abort + AllocGlobal>(
    rt: &R,
    asked: &StreamRun,
    input: &str,
    answers: &str,
) -> Result<(), Fail> {
    let output = first_answers(rt.alloc(), answers, usize::MAX)?;
    for count in 0..output.len() {
        let mut written = Vec::new(rt.alloc());
        let is_told = fails(
            rt.alloc(),
            asked,
            input.as_bytes(),
            StopAt::after(&mut written, count),
            "bidi: output cannot be written\n",
        );
        let wanted = output.as_bytes().get(..count).ok_or("a place")?;
        assert!(rt;
            is_told && written.as_slice() == wanted,
            "{count} bytes of {output}"
        );
    }
    Ok(())
}

/// That a run writes the same, whatever number of bytes a read and a write move at most.
fn check_sizes<R: Abort + AllocGlobal>(
    rt: &R,
    asked: &StreamRun,
    input: &str,
    answers: &str,
) -> Result<(), Fail> {
    let output = first_answers(rt.alloc(), answers, usize::MAX)?;
    for most in 1..=input.len().max(output.len()) {
        let mut written = Vec::new(rt.alloc());
        let status = status_of(rt.alloc(), asked, input.as_bytes(), &mut written, most);
        assert!(rt;
            status == 0 && written.as_slice() == output.as_bytes(),
            "{most} bytes at a time of {output}"
        );
    }
    Ok(())
}

/// The status of a run whose reads and writes move at most so many bytes.
fn status_of(
    alloc: Global,
    asked: &StreamRun,
    input: &[u8],
    output: &mut Vec<u8>,
    most: usize,
) -> u8 {
    let mut source = Device::new(StopAt::within(input, most));
    let mut sink = Device::new(StopAt::within(output, most));
    let mut faults = Device::new(io::sink());
    run(alloc, asked, &mut source, &mut sink, &mut faults)
}

/// Whether a run ends with the status of a device that failed, and tells this.
fn fails<I: Read + Drop, O: Write + Drop>(
    alloc: Global,
    asked: &StreamRun,
    input: I,
    output: O,
    fault: &str,
) -> bool {
    let mut told = Vec::new(alloc);
    let mut source = Device::new(input);
    let mut sink = Device::new(output);
    let mut faults = Device::new(&mut told);
    let status = run(alloc, asked, &mut source, &mut sink, &mut faults);
    drop(faults);
    status == 3 && told.as_slice() == fault.as_bytes()
}

/// The answers to so many first lines.
fn first_answers(alloc: Global, answers: &str, count: usize) -> Result<String, AllocError> {
    let mut text = String::new(alloc);
    for answer in answers.split("\n\n").take(count) {
        for line in answer.lines() {
            text.push_str(line)?;
            text.push_str("\n")?;
        }
    }
    Ok(text)
}

/// A reader or a writer that fails once, behind so many bytes, and then goes on, or that moves few bytes at a time.
#[derive(Drop)]
struct StopAt<T> {
    inner: T,
    most: usize,
    until_failure: usize,
}

impl<T> StopAt<T> {
    fn after(inner: T, count: usize) -> StopAt<T> {
        StopAt {
            inner,
            most: usize::MAX,
            until_failure: count,
        }
    }

    fn within(inner: T, most: usize) -> StopAt<T> {
        StopAt {
            inner,
            most,
            until_failure: usize::MAX,
        }
    }

    /// How many bytes of so many are moved; none where it fails.
    fn part(&mut self, asked: usize) -> Option<usize>
        ensures { IfSome result (λ n. n ≤ asked) }
    {
        if self.until_failure == 0 {
            self.until_failure = usize::MAX;
            return None;
        }
        Some(asked.min(self.most).min(self.until_failure))
    }
}

impl<T: Read> Read for StopAt<T> {
    fn read(&mut self, buffer: &mut [u8]) -> io::Result<usize> {
        let Some(most) = self.part(buffer.len()) else {
            return Err(io::Error::from(ErrorKind::BrokenPipe));
        };
        let count = self.inner.read(&mut buffer[..most])?;
        self.until_failure = self.until_failure.saturating_sub(count);
        Ok(count)
    }
}

impl<T: Write> Write for StopAt<T> {
    fn write(&mut self, bytes: &[u8]) -> io::Result<usize> {
        let Some(most) = self.part(bytes.len()) else {
            return Err(io::Error::from(ErrorKind::BrokenPipe));
        };
        let count = self.inner.write(&bytes[..most])?;
        self.until_failure = self.until_failure.saturating_sub(count);
        Ok(count)
    }

    fn flush(&mut self) -> io::Result<()> {
        self.inner.flush()
    }
}
