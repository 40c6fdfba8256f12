//! Lines over memory, in short reads and in whole ones, with a reader that fails once.
use super::stop_at::StopAt;
use super::told::check_text;
use bidi_lines::{Device, InputFault, LineReader};
use std::alloc::{AllocError, Global};
use std::test::Fail;
use testing::rows::{Asked, check_rows};

/// An input, in which `\n` and `\r` stand for one byte; found are its lines, each with a `;` behind it, and how it ends. Of a
/// long line its length is told. `by-4096` reads so many bytes at most at once; behind `-stop-` is the number of the read that
/// fails.
struct Lines;

impl Asked for Lines {
    fn found(alloc: Global, word: &str, text: &str) -> Result<String, Fail> {
        let reads = word.strip_prefix("by-").ok_or("a number of bytes")?;
        let (most, stop) = reads.split_once("-stop-").unwrap_or((reads, "0"));
        let (most, stop) = (most.parse::<usize>()?, stop.parse::<usize>()?);
        let text = text.replace(alloc, "\\n", "\n")?;
        let text = text.replace(alloc, "\\r", "\r")?;
        Ok(lines_told(alloc, StopAt::new(text.as_bytes(), stop, most))?)
    }
}

const LINES: &str = r"
nothing | by-1,by-3,by-4096  -> end
one line | by-1,by-3,by-4096 ab\n -> ab; end
an empty line | by-1,by-3,by-4096 \n -> ; end
empty lines | by-1,by-3,by-4096 \n\na\n\n -> ; ; a; ; end
carriage returns | by-1,by-3,by-4096 a\r\n\r\n -> a\r; \r; end
a rest | by-1,by-3,by-4096 ab\ncd -> ab; bad line
a rest alone | by-1,by-3,by-4096 a -> bad line
the longest line | by-4096 «2097152 x»\nb\n -> 2097152 bytes; b; end
one byte more | by-4096 «2097153 x»\n -> bad line
one byte more and no line feed | by-4096 «2097153 x» -> bad line
the longest line and no line feed | by-4096 «2097152 x» -> bad line
";

const FAILED_READS: &str = r"
in the first line | by-1-stop-1,by-1-stop-2 a\n\nbc\n -> failed; a; ; bc; end
in the second | by-1-stop-3 a\n\nbc\n -> a; failed; ; bc; end
in the third | by-1-stop-4,by-1-stop-5,by-1-stop-6 a\n\nbc\n -> a; ; failed; bc; end
behind the last | by-1-stop-7 a\n\nbc\n -> a; ; bc; failed; end
behind a line that is too long | by-4096-stop-514 «2097153 x»\n -> bad line
";

#[test]
fn gives_each_line(rt: HostRuntime) -> Result<(), Fail> {
    check_rows::<Lines>(rt.alloc(), LINES)
}

#[test]
fn goes_on_after_a_failure_at_any_byte(rt: HostRuntime) -> Result<(), Fail> {
    check_rows::<Lines>(rt.alloc(), FAILED_READS)
}

/// Whether an input of two lines goes on, before each line and at the end, and what follows.
const GOINGS_ON: &str = "Ok(true) Ok(Some([97]))
Ok(true) Ok(Some([]))
Ok(false) Ok(None)
";

#[test]
fn tells_whether_the_input_goes_on(rt: HostRuntime) -> Result<(), Fail> {
    check_text(
        &rt,
        "two lines",
        goings_on(rt.alloc(), b"a\n\n")?,
        GOINGS_ON,
    );
    Ok(())
}

/// What a reader gives up to the end or to a bad line.
fn lines_told(alloc: Global, input: StopAt<&[u8]>) -> Result<String, AllocError> {
    let mut source = Device::new(input);
    let mut reader = LineReader::new(alloc);
    let mut told = String::new(alloc);
    for _ in 0..100u8 {
        if !push_next(&mut told, reader.next(alloc, &mut source))? {
            break;
        }
    }
    Ok(told)
}

/// Appends a line, a fault or the end, and returns whether the reader goes on.
fn push_next(
    told: &mut String,
    next: Result<Option<Vec<u8>>, InputFault>,
) -> Result<bool, AllocError> {
    match next {
        Ok(None) => {
            told.push_str("end")?;
            Ok(false)
        }
        Ok(Some(line)) => {
            push_told(told, &line)?;
            Ok(true)
        }
        Err(InputFault::Read) => {
            told.push_str("failed; ")?;
            Ok(true)
        }
        Err(fault) => {
            write!(told, "{fault}")?;
            Ok(false)
        }
    }
}

/// Appends a line, or its length.
fn push_told(told: &mut String, line: &[u8]) -> Result<(), AllocError> {
    if line.len() <= 80 {
        write!(told, "{}; ", line.escape_ascii())
    } else {
        write!(told, "{} bytes; ", line.len())
    }
}

fn goings_on(alloc: Global, input: &[u8]) -> Result<String, AllocError> {
    let mut source = Device::new(input);
    let mut reader = LineReader::new(alloc);
    let mut told = String::new(alloc);
    for _ in 0..3u8 {
        let more = reader.goes_on(&mut source);
        push_going(&mut told, more, reader.next(alloc, &mut source))?;
    }
    Ok(told)
}

/// Appends whether the input goes on, and what follows.
fn push_going(
    told: &mut String,
    more: Result<bool, InputFault>,
    next: Result<Option<Vec<u8>>, InputFault>,
) -> Result<(), AllocError> {
    write!(told, "{more:?} {next:?}\n")
}
