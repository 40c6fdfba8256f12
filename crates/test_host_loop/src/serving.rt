//! A host that serves until it is told to end, over what its clients wrote before.
use crate::frames::{CLOSE, TEXT, push_frame};
use crate::lab::{Awaited, Lab};
use crate::records::check_records;
use crate::steps::{PLAIN, TYPING, ask_for, hears};
use crate::words::spelled_out;
use bidi_recorder::HostingFault;
use std::io::Write;
use std::test::Fail;

#[test]
fn it_serves_until_it_is_told_to_end(rt: HostRuntime) -> Result<(), Fail> {
    let lab = Lab::idle(&rt, PLAIN, "at 5\n")?;
    serve_in(&rt, lab)
}

/// Serves in a lab.
fn serve_in(rt: &HostRuntime, lab: Lab) -> Result<(), Fail> {
    let mut lab = lab;
    let found = serve_all(rt, &mut lab);
    drop(lab);
    found
}

/// Serves a client that asks for the status, and a page that ends the host. Both write all before it begins.
fn serve_all(rt: &HostRuntime, lab: &mut Lab) -> Result<(), Fail> {
    let status = spelled_out(rt.alloc(), "STATUS")?;
    let client = talk(rt, lab, "/session", status.as_str())?;
    let page = talk(rt, lab, "/page", "end")?;
    lab.serve()?;
    let ready = spelled_out(rt.alloc(), "READY")?;
    let is_served = reads(lab, client, ready.as_str())?;
    let is_answered = reads(lab, page, "ok")?;
    if is_served && is_answered {
        check_records(lab)
    } else {
        Err(Fail::from("they do not read what they asked for"))
    }
}

/// A client that has written a head, a text and a close frame.
fn talk(rt: &HostRuntime, lab: &mut Lab, resource: &str, text: &str) -> Result<usize, Fail> {
    let place = ask_for(rt, lab, resource, resource)?;
    let client = lab.client(place)?;
    push_frame(client.output(), TEXT, text.as_bytes())?;
    push_frame(client.output(), CLOSE, b"\x03\xe8")?;
    client.write();
    Ok(place)
}

/// Whether the client at a place has read this text, and the end.
fn reads(lab: &mut Lab, place: usize, text: &str) -> Result<bool, Fail> {
    lab.has_already(place, Awaited::End)?;
    let client = lab.client(place)?;
    Ok(client.has_ended && client.closed.is_some() && hears(client, text)?)
}

#[test]
fn it_ends_if_an_answer_cannot_be_written(rt: HostRuntime) -> Result<(), Fail> {
    let mut lab = Lab::idle(&rt, TYPING, "")?;
    lab.world.output_fails = true;
    fails_in(lab, HostingFault::Answer)
}

#[test]
fn it_ends_if_standard_input_cannot_be_read(rt: HostRuntime) -> Result<(), Fail> {
    let mut lab = Lab::idle(&rt, TYPING, "")?;
    lab.world.input_fails = true;
    fails_in(lab, HostingFault::Read)
}

/// Serves in a lab where a line of standard input waits, and holds the end against a fault.
fn fails_in(lab: Lab, fault: HostingFault) -> Result<(), Fail> {
    let mut lab = lab;
    if let Some(typist) = &mut lab.typist {
        typist.write_all(b"at 5\n")?;
    }
    let ended = lab.serve();
    drop(lab);
    match ended {
        Err(found) if found == fault => Ok(()),
        Err(found) => Err(Fail::new(format_args!("it ends with {found}"))),
        Ok(()) => Err(Fail::from("it ends without a fault")),
    }
}
