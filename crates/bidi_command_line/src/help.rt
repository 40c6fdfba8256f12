//! The help of each subcommand: the forms of its lines, and its statuses.

// The help of the option `--from`.
pub(crate) const FROM_HELP: &str = "The end that sent the messages: local or remote";

pub(crate) const PLAY_HELP: &str = "\
Lines in: `open N /session`, `> N TEXT`, `binary N` and `drop N` come from connection N, `at MOMENT` sets the clock,
`frame CONTEXT URL`, `unframe CONTEXT` and `log CONTEXT LEVEL TEXT` happen in a page, `value ROW` says what a script does.
Lines out: `opened N`, `denied N`, `< N TEXT`, `close N`, `lost N`, `no effect`.
With --scripted also in: `answer`, `hold`, `release`, `unanswer`, `emit`, `on`, `names`, `send`, `bytes`, `cut`, `close`;
and out: `held K N TEXT`, `bytes N HEX`, `cut N`, `close N CODE`, `no effect: REASON`.
Status: 0 if everything was played, 2 at a bad line, 3 if input, output or memory failed.
docs/FORMATS.md has all forms.";

pub(crate) const PAIR_HELP: &str = "\
Lines in: `open L /session` opens link L, `send L METHOD PARAMS` sends a command,
`up L` and `down L` carry a message, `cut L` drops the link, and the lines of a play.
Lines out: the fate of each command, and the events that each link received.
Status: 0 if everything was played, 2 at a bad line, 3 if input, output or memory failed.
docs/FORMATS.md has all forms.";

pub(crate) const REDUCE_HELP: &str = "\
Lines in: a play.
Lines out: the same play without those messages of other sessions that are refused, or whose command is
session.status, session.subscribe, session.unsubscribe, browsingContext.activate, browsingContext.getTree
or script.getRealms. Both plays send the session the same messages.
With --scripted the lines may be those of `bidi play --scripted`: all from the first line of a test on stay.
Status: 0 if everything was read and written, 2 at a bad line, 3 if input, output or memory failed.
docs/FORMATS.md has all forms.";

pub(crate) const SHOW_HELP: &str = "\
Lines in, from FILE or standard input: one message a line, as it was sent.
Lines out, of a local end: `accepted ID METHOD TEXT` or `refused ID CODE`;
of a remote end: `response ID TEXT`, `error ID TEXT`, `event METHOD TEXT`, `no fit` or `not json`.
Status: 0 if everything was shown, 2 at a bad line, 3 if input, output or memory failed.
docs/FORMATS.md has all forms.";

pub(crate) const CHECK_HELP: &str = "\
Lines in, from FILE or standard input: one message a line, as it was sent.
Lines out, of a local end: `line N: refused ID CODE`; of a remote end: `line N: no fit` or `line N: not json`.
With --both the lines are a conversation: `> MESSAGE` is of the local end, `< MESSAGE` of the remote end. Replies are
checked against their commands: `line N: stray ID`, `line N: bad result ID METHOD` or `line N: error ID METHOD CODE`,
and at the end `unanswered ID METHOD (line N)`. A refused message that answers a command ends in `(answers ID)`.
With --why a line says what is wrong, and where in the message: LABEL is its method or its type.
  `line N: LABEL: POINTER: wants WHAT, has WHAT (RULE)`
  `line N: LABEL: POINTER: missing; wants WHAT (RULE)`
  `line N: LABEL: POINTER: unexpected property, WHAT (RULE)`
  `line N: beyond the profile: ..` for what the W3C's draft has and the profile lacks
At the end, standard error has the number of refused lines, and each cause with its number.
With --why --json each refused line is a JSON object.
Status: 0 if no message is refused, 1 if one is, or if --both reports anything but an error,
2 at a bad line (which --why and --both refuse instead), 3 if input, output or memory failed.
docs/FORMATS.md has all forms.";

pub(crate) const SERVE_HELP: &str = "\
A client connects to ws://127.0.0.1:PORT/session, and makes a session with `session.new`;
a connection to /session/ID speaks for that session.
Status: 0 if all connections were served, 3 if it cannot listen or memory failed.
docs/TESTING.md has more.";

pub(crate) const HOST_HELP: &str = "\
A client connects to ws://127.0.0.1:PORT/session, and makes a session with `session.new`;
a connection to /session/ID speaks for that session.
A connection to /page is a page, and each of its messages is a line:
  `at N`, `frame CONTEXT URL`, `unframe CONTEXT`, `log CONTEXT LEVEL TEXT`, `value ROW` as in a play;
  `answer ROW`, `hold ROW`, `release N`, `release N ROW`, `unanswer METHOD` decide what answers a command;
  `emit EVENT`, `on METHOD [EVENT..]`, `names NAME..` send events and make their names known;
  `send C TEXT`, `bytes C HEX`, `raw C HEX`, `cut C`, `cut C AFTER`, `close C CODE` act on connection C;
  `stall C`, `resume C`, `refuse N CODE` stop reading, read again, and refuse handshakes;
  `reset` makes the browser new, and `end` ends the program.
Each line of a page is answered by `ok`, `no effect: REASON` or `no line of a page: REASON`.
When it listens, it writes `WebDriver BiDi listening on ws://127.0.0.1:PORT` to standard error.
Status: 0 if it was told to end or --once ended it, 2 at a bad line in the file of a page,
3 if it cannot listen, or if input, output, a file, the record or memory failed.
docs/TESTING.md and docs/FORMATS.md have more.";
