//! Times of reading and writing a text, beside those of `serde_json` alone.
use anyhow::{Result, bail};
use json::Scratch;
use serde_json::Value;
use std::alloc::Global;
use std::rt::Clock;
use std::time::{Duration, Instant};

/// The rounds are cut into at most so many parts; of each task the shortest part is told.
const PARTS: u32 = 10;

/// What a text is read as.
pub trait Payload {
    /// Reads the text, in a scratch that is kept.
    fn read(alloc: Global, text: &str, scratch: &mut Scratch) -> Result<()>;

    /// Reads the text and writes it again, and gives the bytes written.
    fn read_and_write(alloc: Global, text: &str, scratch: &mut Scratch) -> Result<usize>;
}

/// What is done with a text.
#[derive(Clone, Copy)]
enum Task {
    Parse,
    Read,
    ParseAndPrint,
    ReadAndWrite,
}

/// A task's shortest part, and the sum of what its rounds gave.
#[derive(Clone, Copy)]
struct Measure {
    task: Task,
    shortest: Duration,
    sum: u64,
}

/// Does the task once, and gives the bytes written, or 1 where nothing is written.
fn once<S: Payload>(alloc: Global, task: Task, text: &str, scratch: &mut Scratch) -> Result<usize> {
    match task {
        Task::Parse => {
            if Value::from_str(alloc, text).is_err() {
                bail!("the text is not JSON");
            }
            Ok(1)
        }
        Task::Read => {
            S::read(alloc, text, scratch)?;
            Ok(1)
        }
        Task::ParseAndPrint => {
            let value = Value::from_str(alloc, text)?;
            let printed = value.to_string(alloc)?;
            Ok(printed.len())
        }
        Task::ReadAndWrite => S::read_and_write(alloc, text, scratch),
    }
}

impl Measure {
    fn new(task: Task) -> Measure {
        Measure {
            task,
            shortest: Duration::MAX,
            sum: 0,
        }
    }

    /// Does the task so often, as one part.
    fn part<S: Payload, R: Clock + AllocGlobal>(
        &mut self,
        rt: &R,
        text: &str,
        scratch: &mut Scratch,
        rounds: u32,
    ) -> Result<()> {
        let start = Instant::now(rt)?;
        for _ in 0..rounds {
            let count = once::<S>(rt.alloc(), self.task, text, scratch)?;
            self.sum = self.sum.saturating_add(count as u64);
        }
        self.shortest = self.shortest.min(start.elapsed(rt)?);
        Ok(())
    }

    /// How many times the shortest part of another it took.
    fn ratio(&self, other: &Measure) -> f64 {
        self.shortest.as_secs_f64() / other.shortest.as_secs_f64()
    }

    /// The nanoseconds of one round.
    fn nanos(&self, rounds: u32) -> f64 {
        self.shortest.as_secs_f64() * 1e9 / rounds as f64
    }
}

/// Measures one text, the tasks by turns.
pub fn measure_text<S: Payload, R: Clock + Print + Eprint + AllocGlobal>(
    rt: &R,
    name: &str,
    text: &str,
    rounds: u32,
) -> Result<()> {
    let part = rounds / PARTS + 1;
    let mut parse = Measure::new(Task::Parse);
    let mut reading = Measure::new(Task::Read);
    let mut print = Measure::new(Task::ParseAndPrint);
    let mut writing = Measure::new(Task::ReadAndWrite);
    let mut scratch = Scratch::new(rt.alloc());
    let mut done = 0u32;
    for _ in 0..PARTS {
        if done >= rounds {
            break;
        }
        done = done.saturating_add(part);
        parse.part::<S, R>(rt, text, &mut scratch, part)?;
        reading.part::<S, R>(rt, text, &mut scratch, part)?;
        print.part::<S, R>(rt, text, &mut scratch, part)?;
        writing.part::<S, R>(rt, text, &mut scratch, part)?;
    }
    let bytes = text.len();
    let (parsed, read, printed, written) = (parse.sum, reading.sum, print.sum, writing.sum);
    println!(rt;
        "{name} of {bytes} bytes: {parsed} parsed, {read} read, {printed} bytes printed, {written} bytes written"
    )?;
    show(rt, name, "read", &reading, &parse, part)?;
    show(rt, name, "read and written", &writing, &print, part)
}

/// Prints the time of a round and that of `serde_json` alone.
fn show<R: Eprint>(
    rt: &R,
    name: &str,
    what: &str,
    ours: &Measure,
    theirs: &Measure,
    rounds: u32,
) -> Result<()> {
    let (time, plain, ratio) = (ours.nanos(rounds), theirs.nanos(rounds), ours.ratio(theirs));
    eprintln!(rt; "{name} {what}: {time:.0} ns, serde_json {plain:.0} ns, ratio {ratio:.2}")?;
    Ok(())
}
