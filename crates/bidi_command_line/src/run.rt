//! What a command line asks for.

use bidi_lines::Side;

/// What the program is asked to do.
#[derive(Clone, Copy, Debug, PartialEq, Eq)]
pub enum Run {
    /// A program that reads an input and writes an output.
    Stream(StreamRun),
    /// `serve`: serves WebSocket connections on 127.0.0.1, one after another.
    Serve(ServeOptions),
    /// `host`: serves many WebSocket connections on 127.0.0.1 at once, and pages among them.
    Host(HostOptions),
}

/// A program that reads an input and writes an output.
#[derive(Clone, Copy, Debug, PartialEq, Eq)]
pub enum StreamRun {
    /// `play`: plays the lines of standard input to a remote end.
    Play,
    /// `play --scripted`: plays the lines of standard input to a scripted end.
    ScriptedPlay,
    /// `pair`: plays the lines of standard input to both ends.
    Pair,
    /// `reduce`: writes those lines of standard input that are kept for the session of this number.
    Reduce(u32),
    /// `reduce --scripted`: writes those lines of a scripted play that are kept for the session of this number.
    ScriptedReduce(u32),
    /// `show`: writes a line for each line of the input, which is read as a message of this end.
    /// [`input_file`](crate::input_file) says which file the input of `show` and `check` is, if it is one.
    Show(Side),
    /// `check`: writes a line for each line of the input that is not a message of this end.
    Check(Side),
    /// `check --why`: says of each line that is not a message of this end where and why it is wrong.
    Why(WhyOptions),
    /// `check --both`: says what is wrong with each line of a conversation between both ends.
    Both(BothOptions),
}

/// The options of `check --why`.
#[derive(Clone, Copy, Debug, PartialEq, Eq)]
pub struct WhyOptions {
    /// `--from`: the end that sent the messages.
    pub side: Side,
    /// `--json`: each refused line is reported as a JSON object.
    pub is_json: bool,
    /// `--profile-only`: leaves out what the W3C's draft has but the profile does not.
    pub profile_only: bool,
}

/// The options of `check --both`.
#[derive(Clone, Copy, Debug, PartialEq, Eq)]
pub struct BothOptions {
    /// `--why`: says where and why a line is wrong.
    pub is_why: bool,
    /// `--json`: each finding is reported as a JSON object.
    pub is_json: bool,
    /// `--profile-only`: leaves out what the W3C's draft has but the profile does not.
    pub profile_only: bool,
}

/// The options of `serve`.
#[derive(Clone, Copy, Debug, PartialEq, Eq)]
pub struct ServeOptions {
    /// The port on 127.0.0.1, or 0 for one that the system chooses.
    pub port: u16,
    /// How many connections are served, one after another: 1 to 1,000.
    pub connections: u32,
    /// The most messages that are taken of each connection, including pings and pongs: 1 to 100,000.
    pub messages: u32,
}

/// The options of `host` that are not strings. [`host_files`](crate::host_files) has the others.
#[derive(Clone, Copy, Debug, PartialEq, Eq)]
pub struct HostOptions {
    /// The port on 127.0.0.1, or 0 for one that the system chooses. The default is 9222.
    pub port: u16,
    /// `--stdin`: lines of a page are also read from standard input, and its end ends the program.
    pub reads_input: bool,
    /// `--end-sessions`: a session ends with its last connection.
    pub ends_sessions: bool,
    /// `--lenient`: the first messages of real client libraries are accepted, even if the profile refuses
    /// them.
    pub is_lenient: bool,
    /// `--once`: the program ends when its last session has ended and no client is left.
    pub ends_after_last: bool,
    /// `--max-buffered`: the most MiB that unfinished messages and waiting messages take in all, 1 to 65,536.
    /// The default is 1,024.
    pub most_buffered: u32,
}
