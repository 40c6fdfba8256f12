//! From what `clap` has read to the run: each value within its bounds.
ghost use Rattle.std.specs.Prelude.{◌≡◌, Some, None, true, false, codes, option_and_then, option_map};
ghost use Rattle.std.specs.Option.{option_map_or};
ghost use Rattle.clap.specs.Words.{found_of, first_value, rows_of, subcommand_rows_of};
ghost use Rattle.bidi_command_line.specs.CommandLine.{checked, checking_in};
ghost use Rattle.bidi_command_line.specs.CommandLine.{hosted, hosting_in, is_true, number_within};
ghost use Rattle.bidi_command_line.specs.CommandLine.{run_in, run_named};
ghost use Rattle.bidi_command_line.specs.CommandLine.{served, serving_in, side_named};

use crate::run::{BothOptions, HostOptions, Run, ServeOptions, StreamRun, WhyOptions};
use bidi_lines::Side;
use clap::ArgMatches;

// The run of the subcommand that was given, if the values of its options are valid.
pub(crate) fn run_of(matches: &ArgMatches<'_>) -> Option<Run>
    ensures { result ≡ run_in (subcommand_rows_of matches.now) }
{
    let (name, inner) = matches.subcommand()?;
    let side = side_of(inner);
    let session = session_of(inner);
    let checking = checking_of(inner);
    let is_scripted = is_given(inner, "scripted");
    run_named(
        name,
        is_scripted,
        side,
        session,
        checking,
        serving_of(inner),
        hosting_of(inner),
    )
}

// The number of the session that `--session` names.
fn session_of(matches: &ArgMatches<'_>) -> Option<u32>
    ensures { result ≡ option_and_then (number_within 0 4294967295) (first_value (found_of matches.now) (codes "session")) }
{
    number_of(matches, "session", 0, u32::MAX)
}

// What the option and the flags of `check` ask for.
fn checking_of(matches: &ArgMatches<'_>) -> Option<StreamRun>
    ensures { result ≡ checking_in (rows_of (found_of matches.now)) }
{
    let end = matches.get_str("from");
    let is_both = is_given(matches, "both");
    let is_why = is_given(matches, "why");
    let is_json = is_given(matches, "json");
    let profile_only = is_given(matches, "profile-only");
    checked(end, is_both, is_why, is_json, profile_only)
}

// The run of `check`, where either `--from` gives an end or `--both` is given.
fn checked(
    end: Option<&str>,
    is_both: bool,
    is_why: bool,
    is_json: bool,
    profile_only: bool,
) -> Option<StreamRun>
    ensures { result ≡ checked (option_map (λ text. text.now) end.entry) is_both is_why is_json profile_only }
{
    match end {
        Some(_) if is_both => None,
        Some(end) => checked_from(end, is_why, is_json, profile_only),
        None if is_both => checked_both(is_why, is_json, profile_only),
        None => None,
    }
}

// The run of `check` over the texts of the end of this name. `--json` and `--profile-only` go with `--why`.
fn checked_from(end: &str, is_why: bool, is_json: bool, profile_only: bool) -> Option<StreamRun>
    ensures { result ≡ checked (Some end.now) false is_why is_json profile_only }
{
    let side = side_named(end)?;
    if is_why {
        Some(StreamRun::Why(WhyOptions {
            side,
            is_json,
            profile_only,
        }))
    } else if is_json || profile_only {
        None
    } else {
        Some(StreamRun::Check(side))
    }
}

// The run of `check` over the texts of both ends. `--json` goes with `--why`.
fn checked_both(is_why: bool, is_json: bool, profile_only: bool) -> Option<StreamRun>
    ensures { result ≡ checked None true is_why is_json profile_only }
{
    if is_json && !is_why {
        return None;
    }
    Some(StreamRun::Both(BothOptions {
        is_why,
        is_json,
        profile_only,
    }))
}

// What the three options of `serve` ask for.
fn serving_of(matches: &ArgMatches<'_>) -> Option<ServeOptions>
    ensures { result ≡ serving_in (rows_of (found_of matches.now)) }
{
    let port = port_of(matches);
    let connections = number_of(matches, "connections", 1, 1_000);
    let messages = number_of(matches, "messages", 1, 100_000);
    served(port, connections, messages)
}

// The options of `serve`, where all three numbers are valid.
fn served(
    port: Option<u16>,
    connections: Option<u32>,
    messages: Option<u32>,
) -> Option<ServeOptions>
    ensures { result ≡ served port connections messages }
{
    Some(ServeOptions {
        port: port?,
        connections: connections?,
        messages: messages?,
    })
}

// What the port and the flags of `host` ask for.
fn hosting_of(matches: &ArgMatches<'_>) -> Option<HostOptions>
    ensures { result ≡ hosting_in (rows_of (found_of matches.now)) }
{
    let port = port_of(matches);
    let reads_input = is_given(matches, "stdin");
    let ends_sessions = is_given(matches, "end-sessions");
    let is_lenient = is_given(matches, "lenient");
    let ends_after_last = is_given(matches, "once");
    let most_buffered = number_of(matches, "max-buffered", 1, 65_536);
    hosted(
        port,
        reads_input,
        ends_sessions,
        is_lenient,
        ends_after_last,
        most_buffered,
    )
}

// The options of `host`, where both numbers are valid.
fn hosted(
    port: Option<u16>,
    reads_input: bool,
    ends_sessions: bool,
    is_lenient: bool,
    ends_after_last: bool,
    most_buffered: Option<u32>,
) -> Option<HostOptions>
    ensures { result ≡ hosted port reads_input ends_sessions is_lenient ends_after_last most_buffered }
{
    Some(HostOptions {
        port: port?,
        reads_input,
        ends_sessions,
        is_lenient,
        ends_after_last,
        most_buffered: most_buffered?,
    })
}

// Whether a flag was given.
pub(crate) fn is_given(matches: &ArgMatches<'_>, name: &str) -> bool
    ensures { result ≡ option_map_or is_true (first_value (found_of matches.now) name.now) false }
{
    match matches.get_str(name) {
        Some(text) => text == "true",
        None => false,
    }
}

// The port that `--port` gives.
pub(crate) fn port_of(matches: &ArgMatches<'_>) -> Option<u16>
    ensures { result ≡ option_and_then (number_within 0 65535) (first_value (found_of matches.now) (codes "port")) }
{
    port_in(matches.get_str("port")?)
}

// The number that an option gives, if it is within these bounds.
pub(crate) fn number_of(matches: &ArgMatches<'_>, name: &str, least: u32, most: u32) -> Option<u32>
    ensures { result ≡ option_and_then (number_within least most) (first_value (found_of matches.now) name.now) }
{
    number_within(matches.get_str(name)?, least, most)
}

// The port that a text stands for.
fn port_in(text: &str) -> Option<u16>
    ensures { result ≡ number_within 0 65535 text.now }
{
    match text.parse::<u16>() {
        Ok(port) => Some(port),
        Err(_) => None,
    }
}

// The number that a text stands for, if it is within these bounds.
fn number_within(text: &str, least: u32, most: u32) -> Option<u32>
    ensures { result ≡ number_within least most text.now }
{
    let Ok(number) = text.parse::<u32>() else {
        return None;
    };
    if least <= number && number <= most {
        Some(number)
    } else {
        None
    }
}

// The run of the subcommand of this name, with the end or the session that its option names, the run of `check`, or
// the options of `serve` or `host`.
fn run_named(
    name: &str,
    is_scripted: bool,
    side: Option<Side>,
    session: Option<u32>,
    checking: Option<StreamRun>,
    serving: Option<ServeOptions>,
    hosting: Option<HostOptions>,
) -> Option<Run>
    ensures { result ≡ run_named name.now is_scripted side session checking serving hosting }
{
    match name {
        "play" if is_scripted => Some(Run::Stream(StreamRun::ScriptedPlay)),
        "play" => Some(Run::Stream(StreamRun::Play)),
        "pair" => Some(Run::Stream(StreamRun::Pair)),
        "reduce" if is_scripted => Some(Run::Stream(StreamRun::ScriptedReduce(session?))),
        "reduce" => Some(Run::Stream(StreamRun::Reduce(session?))),
        "show" => Some(Run::Stream(StreamRun::Show(side?))),
        "check" => Some(Run::Stream(checking?)),
        "serve" => Some(Run::Serve(serving?)),
        "host" => Some(Run::Host(hosting?)),
        _ => None,
    }
}

// The end that `--from` names.
fn side_of(matches: &ArgMatches<'_>) -> Option<Side>
    ensures { result ≡ option_and_then side_named (first_value (found_of matches.now) (codes "from")) }
{
    side_named(matches.get_str("from")?)
}

// The end of this name.
pub(crate) fn side_named(text: &str) -> Option<Side>
    ensures { result ≡ side_named text.now }
{
    match text {
        "local" => Some(Side::Local),
        "remote" => Some(Side::Remote),
        _ => None,
    }
}
