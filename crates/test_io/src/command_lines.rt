//! Command lines, and the runs or the texts that they give.
use super::told::check_text;
use bidi_command_line::{
    BothOptions, HostFiles, HostOptions, LineFault, Run, StreamRun, WhyOptions, command_line,
    host_files, input_file,
};
use bidi_lines::Side;
use std::alloc::{AllocError, Global};
use std::test::Fail;

/// What a command line gives, and its words. `''` is an empty word.
const LINES: &str = r#"play: play
play: play --
scripted play: play --scripted
scripted play: play --scripted --
usage: play -- --scripted
usage: play --scripted --scripted
usage: play --scripted=1
usage: play --scripted=
usage: play --script
usage: play --scripted extra
usage: --scripted play
usage: pair --scripted
pair: pair
pair: pair --
help: --help
help: -h
help: play --help
help: pair -h
usage:
usage: ''
usage: over
usage: help
usage: --version
usage: -- play
usage: play extra
usage: play play
usage: play --x
usage: -- pair
usage: pair extra
usage: pair play
usage: pair --x
usage: pair --from local
show local: show --from local
show remote: show --from remote
check local: check --from local
check remote: check --from remote
show local: show --from=local
check remote: check --from=remote --
help: show --help
help: check -h
usage: show
usage: check --from
usage: show --from ''
usage: show --from=
usage: show --from Local
usage: show --from both
usage: show local
usage: show -f local
usage: show --fro local
usage: show --from local --from local
usage: show -- --from local
usage: --from local show
why local: check --from local --why
why remote: check --from=remote --why
why local json: check --from local --why --json
why remote json: check --from=remote --why --json
why remote json: check --json --from remote --why
why local json: check --why --json --from=local --
help: check --why --help
usage: check --why
usage: check --why --json
usage: check --json --from both
usage: check --from both --why
usage: check --from local --json
usage: check --json --from=remote
usage: check --from local --why --why
usage: check --from local --why --json --json
usage: check --from local --why=true
usage: check --from local --why --json=
usage: check --from local --wh
usage: show --from local --why
usage: show --from local --json
usage: play --why
both: check --both
both: check --both --
both why: check --both --why
both why: check --why --both
both why json: check --both --why --json
both why json: check --json --why --both --
help: check --both --help
usage: check
usage: check --
usage: check --json
usage: check --both --json
usage: check --both --from local
usage: check --both --from=remote --why
usage: check --from local --both --why --json
usage: check --from local --both --json
usage: check --from x --both
usage: check --from x
usage: check --from --both
usage: check --from=--both
usage: check --both --both
usage: check --both=true
usage: check --bo
usage: show --both
usage: play --both
show local of f.texts: show --from local f.texts
show remote of f.texts: show f.texts --from=remote
show local of remote: show --from local remote
check local of f.texts: check --from local f.texts
check remote of f.texts: check f.texts --from remote
why remote of f.texts: check --from remote --why f.texts
why local of f.texts: check f.texts --why --from=local
why remote json of f.texts: check --from remote f.texts --why --json
both of f.texts: check --both f.texts
both of local: check --both local
both why of f.texts: check f.texts --both --why
both why json of f.texts: check --both --why f.texts --json
both profile-only of f.texts: check --both --profile-only f.texts
show local: show --from local -
check remote: check - --from remote
why local json: check --from local --why --json -
both: check --both -- -
both why: check --both --why -
check local of f.texts: check --from local -- f.texts
check local of -x: check --from local -- -x
show remote of --from: show --from remote -- --from
both of --why: check --both -- --why
both of a/b.texts: check --both a/b.texts
both of a=b: check --both a=b
check local of --: check --from local -- --
both of : check --both ''
usage: show f.texts
usage: show -
usage: check f.texts
usage: check -
usage: check --why f.texts
usage: check --json f.texts
usage: check --from local --json f.texts
usage: check --both --json f.texts
usage: check --from local --both f.texts
usage: check --from x f.texts
usage: show --from local a b
usage: show --from local - -
usage: check --from local a b
usage: check --from local --why a b
usage: check --both a b
usage: check --both a --why b
usage: check --both - a
usage: check --both a -- b
usage: check --both -x
usage: check --both -f.texts
usage: check --both --file f.texts
usage: play f.texts
usage: pair f.texts
usage: pair -
usage: reduce --session 1 f.texts
usage: serve --port 0 --connections 1 --messages 1 f.texts
usage: host f.texts
why local profile-only: check --from local --why --profile-only
why remote profile-only: check --profile-only --why --from=remote --
why local json profile-only: check --from local --why --json --profile-only
why remote json profile-only: check --profile-only --json --from remote --why
both profile-only: check --both --profile-only
both profile-only: check --profile-only --both --
both why profile-only: check --both --why --profile-only
both why json profile-only: check --both --why --json --profile-only
both why json profile-only: check --profile-only --json --why --both
help: check --profile-only --help
usage: check --profile-only
usage: check --why --profile-only
usage: check --from local --profile-only
usage: check --from=remote --profile-only f.texts
usage: check --from local --json --profile-only
usage: check --both --json --profile-only
usage: check --both --from local --profile-only
usage: check --from x --why --profile-only
usage: check --both --profile-only --profile-only
usage: check --both --profile-only=true
usage: check --both --profile
usage: show --from local --profile-only
usage: play --profile-only
usage: host --profile-only
serve 9222 10 1000: serve --port 9222 --connections 10 --messages 1000
serve 0 1 1: serve --port=0 --connections=1 --messages=1
serve 65535 1000 100000: serve --messages 100000 --port 65535 --connections 1000
help: serve --help
usage: serve
usage: serve --port 0 --connections 1
usage: serve --port 65536 --connections 1 --messages 1
usage: serve --port -1 --connections 1 --messages 1
usage: serve --port x --connections 1 --messages 1
usage: serve --port=-1 --connections 1 --messages 1
usage: serve --port= --connections 1 --messages 1
usage: serve --port 0 --connections 0 --messages 1
usage: serve --port 0 --connections 1001 --messages 1
usage: serve --port 0 --connections 1 --messages 0
usage: serve --port 0 --connections 1 --messages 100001
usage: serve --port 0 --port 1 --connections 1 --messages 1
usage: serve play --port 0 --connections 1 --messages 1
host 9222 - -: host
host 9222 - -: host --
host 0 - -: host --port 0
host 65535 - -: host --port=65535
host 4444 stdin end-sessions lenient p.txt r.txt: host --port 4444 --page p.txt --stdin --record r.txt --end-sessions --lenient
host 1 stdin end-sessions lenient a b: host --lenient --end-sessions --record=b --stdin --page=a --port=1
host 9222 stdin - -: host --stdin
host 9222 end-sessions - -: host --end-sessions
host 9222 lenient - -: host --lenient
host 9222 once - -: host --once
host 9222 lenient once - -: host --lenient --once
host 9222 lenient once - -: host --once --lenient
host 4444 stdin end-sessions lenient once p.txt r.txt: host --port 4444 --page p.txt --stdin --record r.txt --end-sessions --lenient --once
host 9222 p.txt -: host --page p.txt
host 9222 - r.txt: host --record r.txt
host 9222 - -: host --max-buffered 1
host 9222 stdin - r.txt: host --max-buffered=65536 --stdin --record r.txt
usage: host --max-buffered
usage: host --max-buffered 0
usage: host --max-buffered 65537
usage: host --max-buffered x
usage: host --max-buffered 1 --max-buffered 1
usage: serve --max-buffered 1
host 9222 -x -: host --page=-x
host 9222 a=b -: host --page=a=b
help: host --help
help: host -h
usage: host --port
usage: host --port=
usage: host --port ''
usage: host --port x
usage: host --port -1
usage: host --port=-1
usage: host --port 65536
usage: host --port 1 --port 1
usage: host --page a --page b
usage: host --record a --record b
usage: host --stdin --stdin
usage: host --end-sessions --end-sessions
usage: host --lenient --lenient
usage: host --once --once
usage: host --once=1
usage: serve --once --port 0 --connections 1 --messages 1
usage: host --stdin=true
usage: host --lenient=
usage: host --page
usage: host --record
usage: host --page -x
usage: host extra
usage: host play
usage: host --connections 1
usage: host --session 1
usage: host --len
usage: serve --stdin --port 0 --connections 1 --messages 1
usage: play --lenient
reduce 1: reduce --session 1
reduce 0: reduce --session=0
reduce 4294967295: reduce --session 4294967295 --
scripted reduce 1: reduce --session 1 --scripted
scripted reduce 0: reduce --scripted --session=0
scripted reduce 2: reduce --session=2 --scripted --
usage: reduce --scripted
usage: reduce --scripted --session x
usage: reduce --session 1 --scripted --scripted
usage: reduce --session 1 --scripted=1
usage: reduce --session 1 --scripted 2
usage: pair --session 1 --scripted
help: reduce --help
usage: reduce
usage: reduce 1
usage: reduce --session
usage: reduce --session ''
usage: reduce --session=
usage: reduce --session -1
usage: reduce --session=-1
usage: reduce --session 4294967296
usage: reduce --session x
usage: reduce --session 1 2
usage: reduce --session 1 --session 1
usage: reduce --from local
usage: play --port 0
usage: play --session 1
usage: play --from local"#;

const HELP: &str = "help
The two ends of WebDriver BiDi

Usage: bidi <COMMAND>

Commands:
  play    Plays steps from the standard input and writes what is sent
  pair    Plays steps of both ends from the standard input and writes what became of each command
  reduce  Writes the lines of a play without what other sessions only asked or subscribed
  show    Writes a line for each message of FILE or the standard input
  check   Writes a line for each message of FILE or the standard input that is refused
  serve   Serves WebSocket connections, one after another
  host    Serves many WebSocket connections at once, and pages among them

Options:
  -h, --help  Print help

`bidi SUBCOMMAND --help` has the lines and statuses of each, and `bidi --version` the version and the profile.
";

const USAGE: &str = "usage
error: unrecognized subcommand 'over'

Usage: bidi <COMMAND>

For more information, try '--help'.
";

/// What is told of lines that clap takes, and behind it the words.
const MISTAKES: &str = "`check` takes `--from END` or `--both`: check
`check` takes `--from END` or `--both`: check --why
`check` takes `--from END` or `--both`: check --json
`check` takes `--from END` or `--both`: check --why --json
`check --both` goes without `--from`: check --both --from local
`check --both` goes without `--from`: check --from=remote --why --json --both
`check --both` goes without `--from`: check --from x --both
`check --both` goes without `--from`: check --from local --both --json
`check --from` takes `local` or `remote`, not `x`: check --from x
`check --from` takes `local` or `remote`, not `both`: check --from both --why
`check --from` takes `local` or `remote`, not `both`: check --json --from both
`check --from` takes `local` or `remote`, not `--both`: check --from=--both
`check --json` goes with `--why`: check --from local --json
`check --json` goes with `--why`: check --json --from=remote
`check --json` goes with `--why`: check --both --json
`check --json` goes with `--why`: check --both --json f.texts
`check --json` goes with `--why`: check --from local --json --profile-only
`check --json` goes with `--why`: check --both --json --profile-only
`check --profile-only` goes with `--why` or `--both`: check --from local --profile-only
`check --profile-only` goes with `--why` or `--both`: check --profile-only --from=remote f.texts
`check` takes `--from END` or `--both`: check f.texts
`check` takes `--from END` or `--both`: check --why --profile-only -
`check --both` goes without `--from`: check --both --from local --profile-only
`check --from` takes `local` or `remote`, not `x`: check --from x --profile-only
`check --from` takes `local` or `remote`, not `x`: check --from x f.texts
`show --from` takes `local` or `remote`, not `x`: show --from x f.texts
`show --from` takes `local` or `remote`, not `both`: show --from both
`reduce --session` takes 0 to 4294967295, not `x`: reduce --session x
`host --port` takes 0 to 65535, not `65536`: host --port 65536
`serve --messages` takes 1 to 100000, not `0`: serve --port 0 --connections 1 --messages 0";

/// The lines of a page.
const PAGE_LINES: &str = "`at N`
`frame CONTEXT URL`
`unframe CONTEXT`
`log CONTEXT LEVEL TEXT`
`value ROW`
`answer ROW`
`hold ROW`
`release N`
`release N ROW`
`unanswer METHOD`
`emit EVENT`
`on METHOD [EVENT..]`
`names NAME..`
`send C TEXT`
`bytes C HEX`
`raw C HEX`
`stall C`
`resume C`
`cut C`
`cut C AFTER`
`close C CODE`
`refuse N CODE`
`reset`
`end`";

const NO_OPTION: &str = "usage
error: the following required arguments were not provided:
  --from <END>

Usage: bidi show --from <END> [FILE]

For more information, try '--help'.
";

#[test]
fn each_line_gives_a_run_or_a_text(rt: HostRuntime) -> Result<(), Fail> {
    let alloc = rt.alloc();
    for row in LINES.lines() {
        let (wanted, words) = row.split_once(':').ok_or("a row")?;
        check_text(&rt, row, kind(alloc, words)?, wanted);
    }
    check_text(&rt, "help", answer(alloc, "--help")?, HELP);
    check_text(&rt, "usage", answer(alloc, "over")?, USAGE);
    check_text(&rt, "option", answer(alloc, "show")?, NO_OPTION);
    Ok(())
}

#[test]
fn each_mistake_in_a_value_is_told(rt: HostRuntime) -> Result<(), Fail> {
    let alloc = rt.alloc();
    for row in MISTAKES.lines() {
        let (wanted, words) = row.split_once(": ").ok_or("a row")?;
        let wanted = usage_text(alloc, wanted, usage_of(words))?;
        check_text(&rt, row, answer(alloc, words)?, wanted.as_str());
    }
    Ok(())
}

#[test]
fn the_help_of_host_names_each_line_of_a_page(rt: HostRuntime) -> Result<(), Fail> {
    let help = answer(rt.alloc(), "host --help")?;
    for line in PAGE_LINES.lines() {
        assert!(rt; help.contains(line), "{line}");
    }
    Ok(())
}

/// The answer to a line with this mistake, which ends with the usage of the subcommand.
fn usage_text(alloc: Global, mistake: &str, usage: &str) -> Result<String, AllocError> {
    format!(in alloc;
        "usage\nerror: {mistake}\n\nUsage: bidi {usage}\n\nFor more information, try '--help'.\n"
    )
}

/// The usage of the subcommand that the first word names.
fn usage_of(words: &str) -> &'static str {
    match words.split(' ').next() {
        Some("check") => "check [OPTIONS] [FILE]",
        Some("show") => "show --from <END> [FILE]",
        Some("reduce") => "reduce [OPTIONS] --session <NUMBER>",
        Some("serve") => "serve --port <PORT> --connections <COUNT> --messages <COUNT>",
        _ => "host [OPTIONS]",
    }
}

/// The first line of the answer.
fn kind(alloc: Global, line: &str) -> Result<String, AllocError> {
    let answer = answer(alloc, line)?;
    String::from_str(alloc, first_line(answer.as_str()))
}

fn first_line(text: &str) -> &str {
    text.split('\n').next().unwrap_or("")
}

/// The answer to a line of words.
fn answer(alloc: Global, line: &str) -> Result<String, AllocError> {
    let words = line
        .split_whitespace()
        .map(|word| if word == "''" { "" } else { word })
        .collect::<Vec<&str>>(alloc)?;
    match command_line(alloc, &words) {
        Ok(Run::Host(options)) => host_text(alloc, options, &words),
        Ok(run) => run_and_input(alloc, run, &words),
        Err(fault) => kind_and_text(alloc, fault),
    }
}

/// What a run asks for, and behind it ` of ` and the file that it reads, if it reads one.
fn run_and_input(alloc: Global, run: Run, words: &[&str]) -> Result<String, AllocError> {
    let text = run_text(alloc, run)?;
    match input_file(alloc, words) {
        Ok(None) => Ok(text),
        Ok(Some(name)) => format!(in alloc; "{text} of {name}"),
        Err(_) => String::from_str(alloc, "no input"),
    }
}

fn run_text(alloc: Global, run: Run) -> Result<String, AllocError> {
    match run {
        Run::Stream(run) => stream_text(alloc, run),
        Run::Serve(asked) => {
            format!(in alloc;
                "serve {} {} {}",
                asked.port, asked.connections, asked.messages
            )
        }
        Run::Host(_) => String::from_str(alloc, "host"),
    }
}

fn stream_text(alloc: Global, run: StreamRun) -> Result<String, AllocError> {
    match run {
        StreamRun::Play => String::from_str(alloc, "play"),
        StreamRun::ScriptedPlay => String::from_str(alloc, "scripted play"),
        StreamRun::Pair => String::from_str(alloc, "pair"),
        StreamRun::Reduce(session) => format!(in alloc; "reduce {session}"),
        StreamRun::ScriptedReduce(session) => format!(in alloc; "scripted reduce {session}"),
        StreamRun::Show(side) => format!(in alloc; "show {}", side_name(side)),
        StreamRun::Check(side) => format!(in alloc; "check {}", side_name(side)),
        StreamRun::Why(asked) => why_text(alloc, asked),
        StreamRun::Both(asked) => both_text(alloc, asked),
    }
}

/// What `check --why` asks for: the end, whether JSON is written, and whether only the profile is looked at.
fn why_text(alloc: Global, asked: WhyOptions) -> Result<String, AllocError> {
    let json = flag_text(asked.is_json, " json");
    let profile = flag_text(asked.profile_only, " profile-only");
    format!(in alloc; "why {}{json}{profile}", side_name(asked.side))
}

/// What `check --both` asks for: whether it tells why, whether JSON is written, and whether only the profile is looked at.
fn both_text(alloc: Global, asked: BothOptions) -> Result<String, AllocError> {
    let why = flag_text(asked.is_why, " why");
    let json = flag_text(asked.is_json, " json");
    let profile = flag_text(asked.profile_only, " profile-only");
    format!(in alloc; "both{why}{json}{profile}")
}

/// What `host` asks for: the port, the flags that are given, and its two files, each `-` where there is none.
fn host_text(alloc: Global, options: HostOptions, words: &[&str]) -> Result<String, AllocError> {
    match host_files(alloc, words) {
        Ok(files) => options_text(alloc, options, &files),
        Err(_) => String::from_str(alloc, "no files"),
    }
}

fn options_text(
    alloc: Global,
    options: HostOptions,
    files: &HostFiles,
) -> Result<String, AllocError> {
    let stdin = flag_text(options.reads_input, " stdin");
    let sessions = flag_text(options.ends_sessions, " end-sessions");
    let lenient = flag_text(options.is_lenient, " lenient");
    let once = flag_text(options.ends_after_last, " once");
    format!(in alloc;
        "host {}{stdin}{sessions}{lenient}{once} {} {}",
        options.port,
        name_of(&files.page_file),
        name_of(&files.record_file)
    )
}

fn flag_text(is_given: bool, text: &'static str) -> &'static str {
    if is_given { text } else { "" }
}

fn name_of(file: &Option<String>) -> &str {
    match file {
        Some(name) => name.as_str(),
        None => "-",
    }
}

fn side_name(side: Side) -> &'static str {
    match side {
        Side::Local => "local",
        Side::Remote => "remote",
    }
}

/// The kind of a fault, and behind it the text that is shown, where there is one.
fn kind_and_text(alloc: Global, fault: LineFault) -> Result<String, AllocError> {
    let kind = match &fault {
        LineFault::Help(text) if !text.is_empty() => "help",
        LineFault::Usage(text) if !text.is_empty() => "usage",
        LineFault::NoMemory => "no memory",
        _ => "no text",
    };
    format!(in alloc; "{kind}\n{fault}")
}
