//! Plans of a browser, which are reserved and applied.
ghost use Rattle.std.specs.Prelude.{OnOk};
ghost use Rattle.bidi_browser.specs.Plans.{HasRoom};

use crate::fault::RowFault;
use bidi_browser::{Action, Browser, Change, Occurrence, Plan, Refusal};
use bidi_messages::{CommandData, Method, Named, data_of};
use bidi_params::ErrorCode;
use bidi_scripts::{Level, TableRow};
use bidi_shape::{Shape, ShapeFault};
use bidi_tree::{JsUint, read};
use std::alloc::{AllocError, Global};
use std::io::Write;

/// Plans, reserves and applies what each line says, and writes what it brings about; last, what the browser tells of
/// all that stands. A line with a number in front is played so many times.
pub(crate) fn answers<W: Write>(
    alloc: Global,
    lines: &str,
    output: &mut W,
) -> Result<(), RowFault> {
    let mut browser = made(alloc)?;
    let mut moment = 0u64;
    for line in lines.lines() {
        let (times, line) = times_of(line);
        let (word, text) = line.split_once(' ').ok_or(RowFault::NoRow)?;
        if word == "at" {
            moment = text.parse::<u64>().map_err(|_| RowFault::NoRow)?;
        } else {
            for _ in 0..times {
                play(alloc, &mut browser, moment, (word, text), output)?;
            }
        }
    }
    for occurrence in &events(&browser)? {
        tell_event(output, occurrence)?;
    }
    Ok(())
}

/// How many times a line is played, and the line.
fn times_of(line: &str) -> (u32, &str) {
    match line.split_once(' ') {
        Some((first, rest)) => match first.parse::<u32>() {
            Ok(times) => (times, rest),
            Err(_) => (1, line),
        },
        None => (1, line),
    }
}

/// A browser, made once more where there was no memory.
fn made(alloc: Global) -> Result<Browser, AllocError> {
    match Browser::new(alloc) {
        Err(AllocError) => Browser::new(alloc),
        browser => browser,
    }
}

/// What stands, told once more where there was no memory.
fn events(browser: &Browser) -> Result<Vec<Occurrence>, AllocError> {
    match browser.tree_events() {
        Err(AllocError) => browser.tree_events(),
        events => events,
    }
}

/// Plays one line.
fn play<W: Write>(
    alloc: Global,
    browser: &mut Browser,
    moment: u64,
    asked: (&str, &str),
    output: &mut W,
) -> Result<(), RowFault> {
    let moment = JsUint::new(moment).ok_or(RowFault::NoRow)?;
    match planned(alloc, browser, moment, asked)? {
        Outcome::Done(told, change) => {
            tell_plan(output, told)?;
            reserved(browser, &change)?;
            // No allocation is made between these two lines.
            output.write_all(b"apply\n")?;
            browser.apply(change);
            output.write_all(b"applied\n")?;
        }
        Outcome::Code(code) => writeln!(output, "{}", code.name())?,
    }
    Ok(())
}

/// Makes room for a change, once more where there was no memory.
fn reserved(browser: &mut Browser, change: &Change) -> Result<(), AllocError>
    ensures { OnOk result (HasRoom browser.new change.now) }
{
    match browser.reserve(change) {
        Err(AllocError) => browser.reserve(change),
        answer => answer,
    }
}

/// What an action brings about: the events before and after its result, and whether it has one.
#[derive(Drop)]
struct Told {
    before: Vec<Occurrence>,
    has_result: bool,
    after: Vec<Occurrence>,
}

/// What an action does, or the code of the first check that fails.
#[derive(Drop)]
enum Outcome {
    Done(Told, Change),
    Code(ErrorCode),
}

/// Plans what a line says, once more where there was no memory.
fn planned(
    alloc: Global,
    browser: &Browser,
    moment: JsUint,
    asked: (&str, &str),
) -> Result<Outcome, RowFault> {
    match planned_once(alloc, browser, moment, asked) {
        Err(RowFault::NoMemory) => planned_once(alloc, browser, moment, asked),
        planned => planned,
    }
}

fn planned_once(
    alloc: Global,
    browser: &Browser,
    moment: JsUint,
    (word, text): (&str, &str),
) -> Result<Outcome, RowFault> {
    let (context, rest) = text.split_once(' ').unwrap_or((text, ""));
    let plan = match word {
        "frame" => browser.plan(Action::Frame(context, rest), moment),
        "unframe" => browser.plan(Action::Unframe(context), moment),
        "log" => browser.plan(Action::Log(context, Level::Info, rest), moment),
        "value" => browser.plan(Action::TableRow(row_of(alloc, text)?), moment),
        _ => {
            let method = Method::named(word).ok_or(RowFault::NoRow)?;
            let asked = data_of(alloc, method, &read(alloc, text, None)?)?;
            command_planned(browser, asked, moment)
        }
    };
    match plan {
        Ok(plan) => Ok(done(plan)),
        Err(Refusal::Code(code)) => Ok(Outcome::Code(code)),
        Err(Refusal::NoMemory) => Err(RowFault::NoMemory),
    }
}

/// Plans a command; one of the session module is none of the browser's.
fn command_planned(browser: &Browser, asked: CommandData, moment: JsUint) -> Result<Plan, Refusal> {
    match &asked {
        CommandData::Browser(command) => browser.plan(Action::Asked(command), moment),
        CommandData::Session(_) => Err(Refusal::Code(ErrorCode::UnknownCommand)),
    }
}

/// The row of the script table that a text reads as, if it is one.
fn row_of(alloc: Global, text: &str) -> Result<Option<TableRow>, RowFault> {
    match TableRow::from_tree(alloc, &read(alloc, text, None)?) {
        Ok(row) => Ok(Some(row)),
        Err(ShapeFault::NoMemory) => Err(RowFault::NoMemory),
        Err(ShapeFault::NoFit) => Ok(None),
    }
}

fn done(plan: Plan) -> Outcome {
    let Plan {
        before,
        result,
        after,
        change,
    } = plan;
    let has_result = is_there(result);
    Outcome::Done(
        Told {
            before,
            has_result,
            after,
        },
        change,
    )
}

/// Whether there is one. It is used up here, where its variants are not visible.
fn is_there<T: Drop>(it: Option<T>) -> bool {
    it.is_some()
}

/// Writes what a plan brings about.
fn tell_plan<W: Write>(output: &mut W, told: Told) -> Result<(), RowFault> {
    for occurrence in &told.before {
        tell_event(output, occurrence)?;
    }
    if told.has_result {
        output.write_all(b"result\n")?;
    }
    for occurrence in &told.after {
        tell_event(output, occurrence)?;
    }
    Ok(())
}

/// Writes the name of an event, and the numbers of its context, of the top-level context and of their user context.
fn tell_event<W: Write>(output: &mut W, occurrence: &Occurrence) -> Result<(), RowFault> {
    let name = occurrence.event.event().name();
    let (context, top) = (occurrence.context, occurrence.top);
    Ok(writeln!(output, "{name} {context} {} {}", top.number, top.user)?)
}
