//! The steps of a scene, a line each.
//!
//! | line | is |
//! |---|---|
//! | `NAME connects` | a client of this name, which has not asked for anything |
//! | `NAME opens RESOURCE` | one whose handshake was answered by 101 |
//! | `NAME begins ID` | the same, at `/session`, and `session.new` made the session ID |
//! | `NAME is served` | `session.status` is answered: the browser is ready |
//! | `NAME is denied STATUS RESOURCE` | one whose handshake was answered by this status; the remote end was asked |
//! | `NAME asks LINE\|LINE` | one that wrote this head; `FIELDS` stands for what asks for a WebSocket |
//! | `NAME calls LINE\|LINE\|\|BODY` | one that wrote this call, for which the remote end was asked |
//! | `NAME gets STATUS TEXT` | it read an answer of this status, whose body is a line that begins so, and then the end |
//! | `NAME is told STATUS JSON` | it read a reply of this status with this JSON text, and then the end; `PORT` is the host's |
//! | `NAME says TEXT` | it writes a text; `\n` stands for a line feed |
//! | `NAME sends HEX` | it writes bytes |
//! | `NAME hears TEXT` | the next text that it reads is this |
//! | `NAME has TEXT` | the same, and it came before |
//! | `NAME is closed CODE` | it reads a close frame of this code, answers it, and leaves |
//! | `NAME is there`, `NAME is cut` | its stream has not ended, or ends with nothing read |
//! | `NAME is lost` | its stream ends after a handshake, without a close frame and with no text that was not asked for |
//! | `NAME leaves` | it closes its stream |
//! | `clock goes N` | N seconds pass |
//! | `record ends LINE` | the last line of the record becomes this; `\r` stands for a carriage return |
//! | `input types LINE`, `input closes` | a line of standard input, or its end |
//! | `input hears LINE` | the next line of standard output is this |
//! | `host rests` | the host does all that is to be done |
//! | `host ends` | the host ends |
use crate::call_steps::{calls, has_status, is_told};
use crate::clients::Client;
use crate::frames::{CLOSE, Closed, FIELDS, TEXT, head_of, push_frame};
use crate::lab::{Awaited, Lab};
use crate::records::check_records;
use crate::words::{bytes_of, long_text, spelled_out, with_feeds};
use bidi_host_loop::Manners;
use std::io::Write;
use std::test::Fail;

/// What makes a session.
const NEW: &str = r#"{"id":0,"method":"session.new","params":{"capabilities":{}}}"#;

/// Runs a scene over a host that has played the lines of a page, and then holds each record against what the clients read.
///
/// # Errors
/// The first step that does not come out as it says.
pub fn check_scene(
    rt: &HostRuntime,
    manners: Manners,
    page: &str,
    scene: &str,
) -> Result<(), Fail> {
    let page = spelled_out(rt.alloc(), page)?;
    let scene = spelled_out(rt.alloc(), scene)?;
    let lab = Lab::new(rt, manners, page.as_str())?;
    run_in(rt, lab, scene.as_str())
}

/// Runs a scene in a lab.
fn run_in(rt: &HostRuntime, lab: Lab, scene: &str) -> Result<(), Fail> {
    let mut lab = lab;
    let found = run_all(rt, &mut lab, scene);
    drop(lab);
    found
}

/// Runs the steps of a scene, and checks the records.
pub fn run_all(rt: &HostRuntime, lab: &mut Lab, scene: &str) -> Result<(), Fail> {
    for line in scene.lines() {
        let step = long_text(rt.alloc(), line)?;
        if !run_step(rt, lab, step.as_str())? {
            return Err(Fail::new(format_args!("it is not so: {line}")));
        }
    }
    check_records(lab)
}

/// Runs a step. Tells whether it came out as it says.
fn run_step(rt: &HostRuntime, lab: &mut Lab, line: &str) -> Result<bool, Fail> {
    let (who, what) = line.split_once(' ').unwrap_or((line, ""));
    let (verb, text) = what.split_once(' ').unwrap_or((what, ""));
    match who {
        "clock" => run_clock(lab, text),
        "record" => lab.wait_for_line(text),
        "input" => run_input(lab, verb, text),
        "host" => run_host(lab, verb),
        _ => run_client(rt, lab, who, verb, text),
    }
}

/// The clock moves.
fn run_clock(lab: &mut Lab, seconds: &str) -> Result<bool, Fail> {
    lab.rest()?;
    lab.world.go(seconds.parse::<u64>()?);
    Ok(true)
}

/// A step of the host.
fn run_host(lab: &mut Lab, verb: &str) -> Result<bool, Fail> {
    if verb == "ends" {
        return lab.wait_for_end();
    }
    lab.rest()?;
    Ok(true)
}

/// A step of standard input and output.
fn run_input(lab: &mut Lab, verb: &str, text: &str) -> Result<bool, Fail> {
    match verb {
        "hears" => return lab.wait_for_answer(text),
        "closes" => lab.typist = None,
        _ => {
            if let Some(typist) = &mut lab.typist {
                typist.write_all(text.as_bytes())?;
                typist.write_all(b"\n")?;
            }
        }
    }
    Ok(true)
}

/// A step of a client.
fn run_client(
    rt: &HostRuntime,
    lab: &mut Lab,
    name: &str,
    verb: &str,
    text: &str,
) -> Result<bool, Fail> {
    match verb {
        "connects" => {
            lab.connect(rt, name)?;
            lab.rest()?;
            Ok(true)
        }
        "opens" => opens(rt, lab, name, text),
        "begins" => begins(rt, lab, name, text),
        "asks" => asks(rt, lab, name, text),
        "calls" => calls(rt, lab, name, text),
        "is" => run_state(rt, lab, name, text),
        _ => {
            let place = lab.place_of(name)?;
            run_open_client(lab, place, verb, text)
        }
    }
}

/// A step of a client that is connected.
fn run_open_client(lab: &mut Lab, place: usize, verb: &str, text: &str) -> Result<bool, Fail> {
    match verb {
        "says" => says(lab, place, text),
        "sends" => sends(lab, place, text),
        "hears" => {
            lab.wait_for(place, Awaited::Text)?;
            hears(lab.client(place)?, text)
        }
        "has" => {
            lab.has_already(place, Awaited::Text)?;
            hears(lab.client(place)?, text)
        }
        "gets" => {
            lab.wait_for(place, Awaited::End)?;
            gets(lab.client(place)?, text)
        }
        "leaves" => {
            lab.client(place)?.leave();
            Ok(true)
        }
        _ => Err(Fail::new(format_args!("{verb} is no verb"))),
    }
}

/// A step that tells how a client stands.
fn run_state(rt: &HostRuntime, lab: &mut Lab, name: &str, text: &str) -> Result<bool, Fail> {
    let (state, text) = text.split_once(' ').unwrap_or((text, ""));
    if state == "denied" {
        return is_denied(rt, lab, name, text);
    }
    let place = lab.place_of(name)?;
    match state {
        "served" => is_served(lab, place),
        "closed" => is_closed(lab, place, text.parse::<u16>()?),
        "told" => is_told(lab, place, text),
        "there" => {
            lab.rest()?;
            lab.client(place)?.read()?;
            Ok(!lab.client(place)?.has_ended)
        }
        "cut" => {
            lab.wait_for(place, Awaited::End)?;
            let client = lab.client(place)?;
            Ok(client.has_ended && client.head.is_none() && client.body() == "")
        }
        "lost" => {
            lab.wait_for(place, Awaited::End)?;
            let client = lab.client(place)?;
            let has_all = client.asked == client.texts.len();
            Ok(client.has_ended && client.head.is_some() && client.closed.is_none() && has_all)
        }
        _ => Err(Fail::new(format_args!("{state} is no state"))),
    }
}

/// A client whose handshake at a resource is answered by 101.
pub fn opens(rt: &HostRuntime, lab: &mut Lab, name: &str, resource: &str) -> Result<bool, Fail> {
    let place = ask_for(rt, lab, name, resource)?;
    lab.wait_for(place, Awaited::Head)?;
    Ok(has_status(lab.client(place)?, "101"))
}

/// A new client that asks for a resource.
pub fn ask_for(rt: &HostRuntime, lab: &mut Lab, name: &str, resource: &str) -> Result<usize, Fail> {
    let place = lab.connect(rt, name)?;
    let head = head_of(rt.alloc(), resource)?;
    let conn = if resource == "/page" {
        None
    } else {
        Some(lab.next_conn())
    };
    let client = lab.client(place)?;
    client.conn = conn;
    client.output().extend_from_slice(head.as_bytes())?;
    Ok(place)
}

/// A client for which `session.new` makes the session of this id.
fn begins(rt: &HostRuntime, lab: &mut Lab, name: &str, id: &str) -> Result<bool, Fail> {
    if !opens(rt, lab, name, "/session")? {
        return Ok(false);
    }
    let place = lab.place_of(name)?;
    says(lab, place, NEW)?;
    lab.wait_for(place, Awaited::Text)?;
    let answer = format!(in lab.alloc;
        r#"{{"id":0,"result":{{"capabilities":CAPABILITIES,"sessionId":"{id}"}},"type":"success"}}"#
    )?;
    let answer = spelled_out(lab.alloc, answer.as_str())?;
    hears(lab.client(place)?, answer.as_str())
}

/// Whether `session.status` is answered on a connection: the browser is ready.
pub fn is_served(lab: &mut Lab, place: usize) -> Result<bool, Fail> {
    let command = spelled_out(lab.alloc, "STATUS")?;
    let answer = spelled_out(lab.alloc, "READY")?;
    says(lab, place, command.as_str())?;
    lab.wait_for(place, Awaited::Text)?;
    hears(lab.client(place)?, answer.as_str())
}

/// A client whose handshake is answered by a status, behind which the resource stands.
fn is_denied(rt: &HostRuntime, lab: &mut Lab, name: &str, text: &str) -> Result<bool, Fail> {
    let (status, resource) = text.split_once(' ').unwrap_or((text, ""));
    let place = ask_for(rt, lab, name, resource)?;
    lab.wait_for(place, Awaited::End)?;
    gets(lab.client(place)?, status)
}

/// A client that writes a head.
fn asks(rt: &HostRuntime, lab: &mut Lab, name: &str, text: &str) -> Result<bool, Fail> {
    let alloc = rt.alloc();
    let head = text.replace(alloc, "|", "\r\n")?;
    let head = head.replace(alloc, "FIELDS", FIELDS)?;
    let place = lab.connect(rt, name)?;
    let output = lab.client(place)?.output();
    output.extend_from_slice(head.as_bytes())?;
    output.extend_from_slice(b"\r\n\r\n")?;
    Ok(true)
}

/// Whether a client read a whole answer of a status, whose body is a line that begins so, and then the end.
fn gets(client: &Client, text: &str) -> Result<bool, Fail> {
    let (status, line) = text.split_once(' ').unwrap_or((text, ""));
    let body = client.body();
    let is_line = body.ends_with("\n") && body.lines().count() == 1;
    let is_whole = client.has_ended && !client.was_reset;
    Ok(is_whole && has_status(client, status) && is_line && body.starts_with(line))
}

/// A client writes a text.
fn says(lab: &mut Lab, place: usize, text: &str) -> Result<bool, Fail> {
    let text = with_feeds(lab.alloc, text)?;
    push_frame(lab.client(place)?.output(), TEXT, text.as_bytes())?;
    Ok(true)
}

/// A client writes bytes.
fn sends(lab: &mut Lab, place: usize, words: &str) -> Result<bool, Fail> {
    let bytes = bytes_of(lab.alloc, words)?;
    lab.client(place)?.output().extend_from_slice(&bytes)?;
    Ok(true)
}

/// Whether the next text that a client has is this.
pub fn hears(client: &mut Client, text: &str) -> Result<bool, Fail> {
    let is_same = match client.next_text() {
        Some(found) if found == text => true,
        Some(found) => return Err(Fail::new(format_args!("it hears {found} and not {text}"))),
        None => false,
    };
    client.asked = client.asked.saturating_add(1);
    Ok(is_same)
}

/// Whether a client is closed by this code. It answers, and leaves. The codes of an end that is none of its faults have no
/// reason.
fn is_closed(lab: &mut Lab, place: usize, code: u16) -> Result<bool, Fail> {
    lab.wait_for(place, Awaited::Close)?;
    let client = lab.client(place)?;
    let Some(
        Closed {
            code: found,
            has_reason,
        },
    ) = client.closed
    else {
        return Ok(false);
    };
    push_frame(client.output(), CLOSE, &found.to_be_bytes())?;
    client.write();
    client.leave();
    Ok(found == code && !(has_reason && code < 1002))
}

/// How a host treats its clients, where nothing else is said.
pub const PLAIN: Manners = Manners {
    ends_sessions: false,
    is_lenient: false,
    ends_after_last: false,
    reads_input: false,
    most_waiting: 64 << 20,
    most_held: 1 << 30,
    most_connections: 512,
};

/// A host that reads standard input.
pub const TYPING: Manners = Manners {
    ends_sessions: false,
    is_lenient: false,
    reads_input: true,
    ..PLAIN
};
