//! Why a command line asks for no run.
ghost use Rattle.std.specs.Prelude.{◌≡◌, IfOk};
ghost use Rattle.clap.specs.Words.{kind_of};
ghost use Rattle.clap.specs.declared.error.kind.ErrorKind.TheVariants.{InvalidValue};
ghost use Rattle.bidi_command_line.specs.CommandLine.{Causes};

use crate::grammar::subcommand;
use crate::values::{is_given, number_of, port_of, side_named};
use clap::ArgMatches;
use clap::error::ErrorKind;
use std::alloc::{AllocError, Global};
use thiserror::Error;

/// Why a command line asks for no run.
#[derive(Debug, Drop, Error)]
pub enum LineFault {
    /// Help was asked for. Write this text to standard output, and end with status 0.
    #[error("{0}")]
    Help(String),
    /// The arguments ask for no run. Write this text to standard error, and end with status 2.
    #[error("{0}")]
    Usage(String),
    /// An allocation failed. The same arguments may be read again.
    #[error("out of memory")]
    NoMemory,
}

// The fault of a line in which options have no valid value or do not go together.
pub(crate) fn no_value(alloc: Global, matches: &ArgMatches<'_>) -> LineFault
    ensures { Causes InvalidValue result }
{
    let Some((name, inner)) = matches.subcommand() else {
        return value_fault(alloc, "", "no subcommand");
    };
    match bad_value(alloc, name, inner) {
        Ok(message) => value_fault(alloc, name, &message),
        Err(_) => LineFault::NoMemory,
    }
}

// The fault of options of a subcommand that this message describes.
fn value_fault(alloc: Global, name: &str, message: &str) -> LineFault
    ensures { Causes InvalidValue result }
{
    match value_error(alloc, name, message) {
        Ok(error) => fault(alloc, &error),
        Err(_) => LineFault::NoMemory,
    }
}

// The error of `clap` with this message, which ends with the usage of the subcommand of this name.
fn value_error(alloc: Global, name: &str, message: &str) -> Result<clap::Error, AllocError>
    ensures { IfOk result (λ error. kind_of error ≡ InvalidValue) }
{
    let mut command = subcommand(alloc, name)?;
    command.error(ErrorKind::InvalidValue, message)
}

// Which options of a subcommand do not go together; or which option has which value, and what it takes.
fn bad_value(alloc: Global, name: &str, inner: &ArgMatches<'_>) -> Result<String, AllocError> {
    if let Some(text) = bad_company(name, inner) {
        return String::from_str(alloc, text);
    }
    let (option, takes) = bad_option(inner);
    let value = inner.get_str(option).unwrap_or("");
    format!(in alloc; "`{name} --{option}` takes {takes}, not `{value}`")
}

// Which options of `check` do not go together; nothing of an end that has no such name.
fn bad_company(name: &str, matches: &ArgMatches<'_>) -> Option<&'static str> {
    if name != "check" {
        return None;
    }
    match (matches.get_str("from"), is_given(matches, "both")) {
        (None, false) => Some("`check` takes `--from END` or `--both`"),
        (Some(_), true) => Some("`check --both` goes without `--from`"),
        (Some(end), false) if side_named(end).is_none() => None,
        _ if is_given(matches, "json") && !is_given(matches, "why") => {
            Some("`check --json` goes with `--why`")
        }
        _ => Some("`check --profile-only` goes with `--why` or `--both`"),
    }
}

// The first option of a subcommand that has no valid value, and what it takes.
fn bad_option(matches: &ArgMatches<'_>) -> (&'static str, &'static str) {
    if matches.get_str("from").is_some() {
        ("from", "`local` or `remote`")
    } else if matches.get_str("session").is_some() {
        ("session", "0 to 4294967295")
    } else if port_of(matches).is_none() {
        ("port", "0 to 65535")
    } else if matches.get_str("max-buffered").is_some() {
        ("max-buffered", "1 to 65536")
    } else if number_of(matches, "connections", 1, 1_000).is_none() {
        ("connections", "1 to 1000")
    } else {
        ("messages", "1 to 100000")
    }
}

// The fault for an error of `clap`, with its text.
pub(crate) fn fault(alloc: Global, error: &clap::Error) -> LineFault
    ensures { Causes (kind_of error.now) result }
{
    if error.kind() == ErrorKind::OutOfMemory {
        return LineFault::NoMemory;
    }
    let Ok(text) = format!(in alloc; "{error}") else {
        return LineFault::NoMemory;
    };
    if error.use_stderr() {
        LineFault::Usage(text)
    } else {
        LineFault::Help(text)
    }
}
