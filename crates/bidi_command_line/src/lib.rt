//! The command line of the program.
//!
//! [`command_line`] reads the arguments after the program's name as a [`Run`]; each subcommand has a variant
//! with its options. If the run is `Host`, [`host_files`] gives the files that it names; if it is `Show`,
//! `Check`, `Why` or `Both`, [`input_file`] gives the file to read instead of standard input.
//!
//! For example, `show --from remote` gives `Run::Show(Side::Remote)`.
//!
//! A [`LineFault`] has the text to write, and says where: help goes to standard output with status 0, and a
//! usage error to standard error with status 2. Both texts are made by `clap`. Numbers have bounds, which the
//! options say. A call takes memory only for the work of `clap` and for its result.
#![tactic(auto)]

mod asked;
mod fault;
mod files;
mod grammar;
mod help;
mod run;
mod values;

pub use asked::command_line;
pub use fault::LineFault;
pub use files::{HostFiles, host_files, input_file};
pub use run::{BothOptions, HostOptions, Run, ServeOptions, StreamRun, WhyOptions};
