//! The files that a command line names: those of `host`, and the input of `show` and `check`.
ghost use Rattle.std.specs.Prelude.{◌≡◌, [], IfErr, IfOk, codes, option_and_then, option_map, string_bytes};
ghost use Rattle.clap.specs.Words.{first_of, found_of, rows_of, subcommand_of, subcommand_rows_of};
ghost use Rattle.bidi_command_line.specs.CommandLine.{AreFilesIn, IsRefusedFor, bidi_app, faults_of, file_named, input_in, line_of};

use crate::fault::{LineFault, fault};
use crate::grammar::command;
use clap::ArgMatches;
use std::alloc::Global;

/// The files that a command line of `host` names, as its options give them.
#[derive(Debug, Drop)]
pub struct HostFiles {
    /// `--page`: the file whose page lines are played before the program listens.
    pub page_file: Option<String>,
    /// `--record`: the file to which each input is appended.
    pub record_file: Option<String>,
}

/// Reads the files of `host` from the arguments after the program's name.
///
/// Call it if [`command_line`](crate::command_line) gives `Run::Host` for the same arguments: then it fails
/// only if an allocation fails. The arguments of another run name no such files.
///
/// # Errors
/// - `Help`, `Usage`: the arguments are refused, as `command_line` refuses them.
/// - `NoMemory`: an allocation failed.
pub fn host_files(alloc: Global, words: &[&str]) -> Result<HostFiles, LineFault>
    // The files are the values of `--page` and `--record`.
    ensures ok { IfOk result (AreFilesIn (subcommand_of bidi_app (line_of words.now))) }

    // If `clap` accepts the arguments, the only fault is `NoMemory`.
    ensures taken { faults_of (line_of words.now) ≡ [] → IfErr result (λ fault. fault ≡ LineFault.NoMemory) }

    // `Help` and `Usage` have their cause among the faults that `clap` finds in the arguments.
    ensures err { IfErr result (IsRefusedFor (line_of words.now)) }
{
    let Ok(command) = command(alloc) else {
        return Err(LineFault::NoMemory);
    };
    match command.try_get_matches_from(words) {
        Ok(matches) => files_of(alloc, &matches),
        Err(error) => Err(fault(alloc, &error)),
    }
}

// The files that the options of the subcommand name.
fn files_of(alloc: Global, matches: &ArgMatches<'_>) -> Result<HostFiles, LineFault>
    ensures ok { IfOk result (AreFilesIn (subcommand_rows_of matches.now)) }
    ensures err { IfErr result (λ fault. fault ≡ LineFault.NoMemory) }
{
    let Some((_, inner)) = matches.subcommand() else {
        return Ok(HostFiles {
            page_file: None,
            record_file: None,
        });
    };
    let page_file = text_of(alloc, inner, "page")?;
    let record_file = text_of(alloc, inner, "record")?;
    Ok(HostFiles {
        page_file,
        record_file,
    })
}

/// Reads the input file of `show` or `check` from the arguments after the program's name; `None` and `-` mean
/// standard input.
///
/// Call it if [`command_line`](crate::command_line) gives a run of `show` or `check` for the same arguments:
/// then it fails only if an allocation fails. The arguments of another run name no such file.
///
/// # Errors
/// - `Help`, `Usage`: the arguments are refused, as `command_line` refuses them.
/// - `NoMemory`: an allocation failed.
pub fn input_file(alloc: Global, words: &[&str]) -> Result<Option<String>, LineFault>
    // The result is the file that the last argument names, or `None` for standard input.
    ensures ok { IfOk result (λ file. option_map string_bytes file ≡ input_in (subcommand_of bidi_app (line_of words.now))) }

    // If `clap` accepts the arguments, the only fault is `NoMemory`.
    ensures taken { faults_of (line_of words.now) ≡ [] → IfErr result (λ fault. fault ≡ LineFault.NoMemory) }

    // `Help` and `Usage` have their cause among the faults that `clap` finds in the arguments.
    ensures err { IfErr result (IsRefusedFor (line_of words.now)) }
{
    let Ok(command) = command(alloc) else {
        return Err(LineFault::NoMemory);
    };
    match command.try_get_matches_from(words) {
        Ok(matches) => input_of(alloc, &matches),
        Err(error) => Err(fault(alloc, &error)),
    }
}

// The file that the subcommand reads.
fn input_of(alloc: Global, matches: &ArgMatches<'_>) -> Result<Option<String>, LineFault>
    ensures ok { IfOk result (λ file. option_map string_bytes file ≡ input_in (subcommand_rows_of matches.now)) }
    ensures err { IfErr result (λ fault. fault ≡ LineFault.NoMemory) }
{
    let Some((_, inner)) = matches.subcommand() else {
        return Ok(None);
    };
    named_file(alloc, inner)
}

// The file that a subcommand names, if it names one; `-` is not a file.
fn named_file(alloc: Global, matches: &ArgMatches<'_>) -> Result<Option<String>, LineFault>
    ensures ok { IfOk result (λ file. option_map string_bytes file
        ≡ option_and_then file_named (first_of (codes "file") (rows_of (found_of matches.now)))) }
    ensures err { IfErr result (λ fault. fault ≡ LineFault.NoMemory) }
{
    match matches.get_str("file") {
        Some(name) => file_named(alloc, name),
        None => Ok(None),
    }
}

// The file of this name; `-` is not a file.
fn file_named(alloc: Global, name: &str) -> Result<Option<String>, LineFault>
    ensures ok { IfOk result (λ file. option_map string_bytes file ≡ file_named name.now) }
    ensures err { IfErr result (λ fault. fault ≡ LineFault.NoMemory) }
{
    if name == "-" {
        return Ok(None);
    }
    match String::from_str(alloc, name) {
        Ok(name) => Ok(Some(name)),
        Err(_) => Err(LineFault::NoMemory),
    }
}

// The string that an argument gives, if it is given.
fn text_of(alloc: Global, matches: &ArgMatches<'_>, name: &str) -> Result<Option<String>, LineFault>
    ensures ok { IfOk result (λ text. option_map string_bytes text ≡ first_of name.now (rows_of (found_of matches.now))) }
    ensures err { IfErr result (λ fault. fault ≡ LineFault.NoMemory) }
{
    let Some(text) = matches.get_str(name) else {
        return Ok(None);
    };
    match String::from_str(alloc, text) {
        Ok(text) => Ok(Some(text)),
        Err(_) => Err(LineFault::NoMemory),
    }
}
