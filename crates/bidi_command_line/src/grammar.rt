//! The command line as `clap` knows it: the subcommands with their options.
ghost use Rattle.std.specs.Prelude.{◌≡◌, false, IfOk};
ghost use Rattle.clap.specs.Words.{App, Shape, app_of, new_app, rule_of, with_rule, with_subcommand};
ghost use Rattle.clap.specs.declared.builder.command.Command.TheViews.{out-Command};
ghost use Rattle.bidi_command_line.specs.CommandLine.{app_without_host, bare_app, bidi_app, buffered_rule};
ghost use Rattle.bidi_command_line.specs.CommandLine.{check_app, check_shape, file_rule, flag_rule};
ghost use Rattle.bidi_command_line.specs.CommandLine.{host_app, host_shape};
ghost use Rattle.bidi_command_line.specs.CommandLine.{option_rule, pair_shape, play_shape, port_rule, reduce_shape};
ghost use Rattle.bidi_command_line.specs.CommandLine.{serve_shape, show_shape, value_rule};

use crate::help::{
    CHECK_HELP, FROM_HELP, HOST_HELP, PAIR_HELP, PLAY_HELP, REDUCE_HELP, SERVE_HELP, SHOW_HELP,
};
use clap::{Arg, ArgAction, Command};
use std::alloc::{AllocError, Global};

// The program's command, with a subcommand for each run.
pub(crate) fn command<'a>(alloc: Global) -> Result<Command<'a>, AllocError>
    ensures { IfOk result (λ command. app_of command ≡ bidi_app) }
{
    joined(with_serving(alloc), host_command(alloc))
}

// The program's command with all subcommands but `host`.
fn with_serving<'a>(alloc: Global) -> Result<Command<'a>, AllocError>
    ensures { IfOk result (λ command. app_of command ≡ app_without_host) }
{
    joined(with_listings(alloc), serve_command(alloc))
}

// The program's command with all subcommands but `serve` and `host`.
fn with_listings<'a>(alloc: Global) -> Result<Command<'a>, AllocError>
    ensures { IfOk result (λ command. app_of command ≡ with_subcommand (with_subcommand
        (with_subcommand (with_subcommand (with_subcommand bare_app play_shape) pair_shape) reduce_shape) show_shape) check_shape) }
{
    joined(with_show(alloc), check_command(alloc))
}

// The program's command with the subcommands `play`, `pair`, `reduce` and `show` alone.
fn with_show<'a>(alloc: Global) -> Result<Command<'a>, AllocError>
    ensures { IfOk result (λ command. app_of command ≡ with_subcommand
        (with_subcommand (with_subcommand (with_subcommand bare_app play_shape) pair_shape) reduce_shape) show_shape) }
{
    joined(with_reduce(alloc), show_command(alloc))
}

// The program's command with the subcommands `play`, `pair` and `reduce` alone.
fn with_reduce<'a>(alloc: Global) -> Result<Command<'a>, AllocError>
    ensures { IfOk result (λ command. app_of command ≡ with_subcommand (with_subcommand (with_subcommand bare_app play_shape) pair_shape) reduce_shape) }
{
    joined(with_pair(alloc), reduce_command(alloc))
}

// The program's command with the subcommands `play` and `pair` alone.
fn with_pair<'a>(alloc: Global) -> Result<Command<'a>, AllocError>
    ensures { IfOk result (λ command. app_of command ≡ with_subcommand (with_subcommand bare_app play_shape) pair_shape) }
{
    let pair = named(
        alloc,
        "pair",
        "Plays steps of both ends from the standard input and writes what became of each command",
        PAIR_HELP,
    );
    joined(with_play(alloc), Ok(pair))
}

// The program's command with the subcommand `play` alone.
fn with_play<'a>(alloc: Global) -> Result<Command<'a>, AllocError>
    ensures { IfOk result (λ command. app_of command ≡ with_subcommand bare_app play_shape) }
{
    joined(bare_command(alloc), play_command(alloc))
}

// The program's command without any subcommand.
fn bare_command<'a>(alloc: Global) -> Result<Command<'a>, AllocError>
    ensures { IfOk result (λ command. app_of command ≡ bare_app) }
{
    let command = named(
        alloc,
        "bidi",
        "The two ends of WebDriver BiDi",
        "`bidi SUBCOMMAND --help` has the lines and statuses of each, and `bidi --version` the version and the profile.",
    );
    Ok(
        command
            .bin_name("bidi")?
            .no_binary_name(true)
            .disable_help_subcommand(true)
            .subcommand_required(true),
    )
}

// The subcommand of this name by itself, as it is after the program's name; the program's command if none has the name.
pub(crate) fn subcommand<'a>(alloc: Global, name: &str) -> Result<Command<'a>, AllocError> {
    match name {
        "reduce" => reduce_command(alloc)?.bin_name("bidi reduce"),
        "show" => show_command(alloc)?.bin_name("bidi show"),
        "check" => check_command(alloc)?.bin_name("bidi check"),
        "serve" => serve_command(alloc)?.bin_name("bidi serve"),
        "host" => host_command(alloc)?.bin_name("bidi host"),
        _ => command(alloc),
    }
}

// The subcommand `play`, with its flag.
fn play_command<'a>(alloc: Global) -> Result<Command<'a>, AllocError>
    ensures app { IfOk result (λ command. (app_of command).top ≡ play_shape) }
    ensures local { IfOk result (λ command. (out-Command command).has_globals ≡ false) }
{
    let command = named(
        alloc,
        "play",
        "Plays steps from the standard input and writes what is sent",
        PLAY_HELP,
    );
    with_flag(
        command,
        alloc,
        "scripted",
        "Takes lines of a test too, which answer, hold, send and cut",
    )
}

// The subcommand `reduce`, with its option and its flag.
fn reduce_command<'a>(alloc: Global) -> Result<Command<'a>, AllocError>
    ensures app { IfOk result (λ command. (app_of command).top ≡ reduce_shape) }
    ensures local { IfOk result (λ command. (out-Command command).has_globals ≡ false) }
{
    let command = named(
        alloc,
        "reduce",
        "Writes the lines of a play without what other sessions only asked or subscribed",
        REDUCE_HELP,
    );
    let command = with_required(
        command,
        alloc,
        "session",
        "NUMBER",
        "The number of the session: 0 to 4294967295",
    )?;
    with_flag(
        command,
        alloc,
        "scripted",
        "Takes lines of a test too, and keeps all from the first of them on",
    )
}

// The subcommand `show`, with its option and its file.
fn show_command<'a>(alloc: Global) -> Result<Command<'a>, AllocError>
    ensures app { IfOk result (λ command. (app_of command).top ≡ show_shape) }
    ensures local { IfOk result (λ command. (out-Command command).has_globals ≡ false) }
{
    let command = named(
        alloc,
        "show",
        "Writes a line for each message of FILE or the standard input",
        SHOW_HELP,
    );
    let command = with_required(command, alloc, "from", "END", FROM_HELP)?;
    with_file(command, alloc)
}

// The subcommand `check`, with its option, its four flags and its file.
fn check_command<'a>(alloc: Global) -> Result<Command<'a>, AllocError>
    ensures app { IfOk result (λ command. (app_of command).top ≡ check_shape) }
    ensures local { IfOk result (λ command. (out-Command command).has_globals ≡ false) }
{
    let command = check_with_ends(alloc)?;
    let command = with_flag(
        command,
        alloc,
        "why",
        "Tells where and why each is refused, and counts the causes",
    )?;
    let command = with_flag(
        command,
        alloc,
        "json",
        "With --why: tells each as a JSON object",
    )?;
    let command = with_flag(
        command,
        alloc,
        "profile-only",
        "With --why or --both: leaves out what the W3C's draft has and the profile lacks",
    )?;
    with_file(command, alloc)
}

// The subcommand `check`, with the arguments for the end or the ends whose texts it reads.
fn check_with_ends<'a>(alloc: Global) -> Result<Command<'a>, AllocError>
    ensures app { IfOk result (λ command. app_of command ≡ check_app) }
    ensures local { IfOk result (λ command. (out-Command command).has_globals ≡ false) }
{
    let command = named(
        alloc,
        "check",
        "Writes a line for each message of FILE or the standard input that is refused",
        CHECK_HELP,
    );
    let command = with_option(command, alloc, "from", "END", FROM_HELP)?;
    with_flag(
        command,
        alloc,
        "both",
        "Reads a conversation of both ends, in place of --from",
    )
}

// The subcommand `serve`, with its three options.
fn serve_command<'a>(alloc: Global) -> Result<Command<'a>, AllocError>
    ensures app { IfOk result (λ command. (app_of command).top ≡ serve_shape) }
    ensures local { IfOk result (λ command. (out-Command command).has_globals ≡ false) }
{
    let command = named(
        alloc,
        "serve",
        "Serves WebSocket connections, one after another",
        SERVE_HELP,
    );
    let command = with_required(
        command,
        alloc,
        "port",
        "PORT",
        "The port on 127.0.0.1: 0 to 65535",
    )?;
    let command = with_required(
        command,
        alloc,
        "connections",
        "COUNT",
        "How many connections are served, one after another: 1 to 1000",
    )?;
    with_required(
        command,
        alloc,
        "messages",
        "COUNT",
        "How many messages are taken of each at most: 1 to 100000",
    )
}

// The subcommand `host`, with its four options and four flags.
fn host_command<'a>(alloc: Global) -> Result<Command<'a>, AllocError>
    ensures app { IfOk result (λ command. (app_of command).top ≡ host_shape) }
    ensures local { IfOk result (λ command. (out-Command command).has_globals ≡ false) }
{
    let command = host_with_input(alloc)?;
    let command = with_option(
        command,
        alloc,
        "record",
        "FILE",
        "Makes this file, and appends each input to it as the line of a play",
    )?;
    let command = with_flag(
        command,
        alloc,
        "end-sessions",
        "Ends a session whose last connection ends without `session.end`",
    )?;
    let command = with_flag(
        command,
        alloc,
        "lenient",
        "Takes what real libraries send first and the profile refuses",
    )?;
    let command = with_flag(
        command,
        alloc,
        "once",
        "Ends when its last session has ended and no client is left",
    )?;
    command.arg(buffered_option(alloc))
}

// The subcommand `host`, with the arguments for its port and its input.
fn host_with_input<'a>(alloc: Global) -> Result<Command<'a>, AllocError>
    ensures app { IfOk result (λ command. app_of command ≡ host_app) }
    ensures local { IfOk result (λ command. (out-Command command).has_globals ≡ false) }
{
    let command = named(
        alloc,
        "host",
        "Serves many WebSocket connections at once, and pages among them",
        HOST_HELP,
    );
    let command = command.arg(port_option(alloc))?;
    let command = with_option(
        command,
        alloc,
        "page",
        "FILE",
        "Plays the lines of a page in this file before it listens",
    )?;
    with_flag(
        command,
        alloc,
        "stdin",
        "Plays lines of a page from the standard input too, and ends with it",
    )
}

// The command with the subcommand, if both were made.
fn joined<'a>(
    command: Result<Command<'a>, AllocError>,
    subcommand: Result<Command<'a>, AllocError>,
) -> Result<Command<'a>, AllocError>
    ensures { (app : App) (shape : Shape) → IfOk command.entry (λ c. app_of c ≡ app) → IfOk subcommand.entry (λ c. (app_of c).top ≡ shape)
        → IfOk subcommand.entry (λ c. (out-Command c).has_globals ≡ false) → IfOk result (λ whole. app_of whole ≡ with_subcommand app shape) }
{
    let subcommand = subcommand?;
    command?.subcommand(subcommand)
}

// A command of this name without arguments, with its line in the list and the text after its help.
fn named<'a>(alloc: Global, name: &'a str, about: &'a str, after_help: &'a str) -> Command<'a>
    ensures app { app_of result ≡ new_app name.entry.now }
    ensures local { (out-Command result).has_globals ≡ false }
{
    Command::new(alloc, name)
        .about(about)
        .after_help(after_help)
}

// The command with one more flag.
fn with_flag<'a>(
    command: Command<'a>,
    alloc: Global,
    name: &'a str,
    help: &'a str,
) -> Result<Command<'a>, AllocError>
    ensures app { IfOk result (λ more. app_of more ≡ with_rule (app_of command.entry) (flag_rule name.entry.now)) }
    ensures local { IfOk result (λ more. (out-Command more).has_globals ≡ (out-Command command.entry).has_globals) }
{
    command.arg(flag(alloc, name, help))
}

// The command with one more option, which may be left out.
fn with_option<'a>(
    command: Command<'a>,
    alloc: Global,
    name: &'a str,
    value: &'a str,
    help: &'a str,
) -> Result<Command<'a>, AllocError>
    ensures app { IfOk result (λ more. app_of more ≡ with_rule (app_of command.entry) (value_rule name.entry.now)) }
    ensures local { IfOk result (λ more. (out-Command more).has_globals ≡ (out-Command command.entry).has_globals) }
{
    command.arg(optional(alloc, name, value, help))
}

// The command with one more option, which is required.
fn with_required<'a>(
    command: Command<'a>,
    alloc: Global,
    name: &'a str,
    value: &'a str,
    help: &'a str,
) -> Result<Command<'a>, AllocError>
    ensures app { IfOk result (λ more. app_of more ≡ with_rule (app_of command.entry) (option_rule name.entry.now)) }
    ensures local { IfOk result (λ more. (out-Command more).has_globals ≡ (out-Command command.entry).has_globals) }
{
    command.arg(value_option(alloc, name, value, help))
}

// The command with the file that it reads.
fn with_file<'a>(command: Command<'a>, alloc: Global) -> Result<Command<'a>, AllocError>
    ensures app { IfOk result (λ more. app_of more ≡ with_rule (app_of command.entry) file_rule) }
    ensures local { IfOk result (λ more. (out-Command more).has_globals ≡ (out-Command command.entry).has_globals) }
{
    command.arg(file_word(alloc))
}

// The file that `show` or `check` reads.
fn file_word<'a>(alloc: Global) -> Arg<'a>
    ensures rule { rule_of result ≡ file_rule }
    ensures local { result.global ≡ false }
{
    Arg::new(alloc, "file").value_name("FILE").help(
        "Reads this file; without it, or if it is -, the standard input",
    )
}

// The option of this name, with a value.
fn value_option<'a>(alloc: Global, name: &'a str, value: &'a str, help: &'a str) -> Arg<'a>
    ensures rule { rule_of result ≡ option_rule name.entry.now }
    ensures local { result.global ≡ false }
{
    Arg::new(alloc, name)
        .long(name)
        .value_name(value)
        .help(help)
        .required(true)
}

// The option `--port` of `host`, which has a default.
fn port_option<'a>(alloc: Global) -> Arg<'a>
    ensures rule { rule_of result ≡ port_rule }
    ensures local { result.global ≡ false }
{
    Arg::new(alloc, "port")
        .long("port")
        .value_name("PORT")
        .help("The port on 127.0.0.1: 0 to 65535")
        .default_value("9222")
}

// The option `--max-buffered` of `host`, which has a default.
fn buffered_option<'a>(alloc: Global) -> Arg<'a>
    ensures rule { rule_of result ≡ buffered_rule }
    ensures local { result.global ≡ false }
{
    Arg::new(alloc, "max-buffered")
        .long("max-buffered")
        .value_name("MIB")
        .help("The most MiB that unfinished messages and waiting texts take in all: 1 to 65536")
        .default_value("1024")
}

// The option of this name, with a value, which may be left out.
fn optional<'a>(alloc: Global, name: &'a str, value: &'a str, help: &'a str) -> Arg<'a>
    ensures rule { rule_of result ≡ value_rule name.entry.now }
    ensures local { result.global ≡ false }
{
    Arg::new(alloc, name)
        .long(name)
        .value_name(value)
        .help(help)
}

// The flag of this name.
fn flag<'a>(alloc: Global, name: &'a str, help: &'a str) -> Arg<'a>
    ensures rule { rule_of result ≡ flag_rule name.entry.now }
    ensures local { result.global ≡ false }
{
    Arg::new(alloc, name)
        .long(name)
        .help(help)
        .action(ArgAction::SetTrue)
}
