//! Records, held against what the clients read.
use crate::clients::{Client, Conn};
use crate::lab::Lab;
use bidi_lines::Device;
use bidi_script_lines::play_scripted;
use std::alloc::{AllocError, Global};
use std::str::from_utf8;
use std::test::Fail;

/// Whether each record, played in memory, gives each client the texts that it read, byte for byte and in order; and whether no
/// text is given to anyone else.
///
/// A client that left, that was closed as it read too slowly, or that was cut off in a message, may have read less. The host itself reads the texts for a call.
///
/// # Errors
/// The first record or client for which it is not so.
pub fn check_records(lab: &mut Lab) -> Result<(), Fail> {
    for epoch in 0..lab.world.records.len() {
        let written = written_by(lab, epoch)?;
        let mut left = texts_in(written.as_str());
        for place in 0..lab.clients.len() {
            let given = check_client(lab, place, epoch, written.as_str())?;
            left = left.saturating_sub(given);
        }
        if left > 0 {
            return Err(Fail::new(format_args!(
                "{left} texts of the record {epoch} are for nobody"
            )));
        }
    }
    Ok(())
}

/// What a play of a record writes.
pub fn written_by(lab: &Lab, epoch: usize) -> Result<String, Fail> {
    match lab.world.records.get(epoch) {
        Some(record) => played(lab.alloc, record.as_str()),
        None => Ok(String::new(lab.alloc)),
    }
}

/// What a play of these lines writes.
fn played(alloc: Global, record: &str) -> Result<String, Fail> {
    let mut written = Vec::new(alloc);
    let mut source = Device::new(record.as_bytes());
    let mut sink = Device::new(&mut written);
    play_scripted(alloc, &mut source, &mut sink)?;
    drop(sink);
    Ok(String::from_str(alloc, from_utf8(&written)?)?)
}

/// How many texts are sent in what a play wrote.
fn texts_in(written: &str) -> usize {
    written
        .lines()
        .filter(|line| line.starts_with("< "))
        .count()
}

/// Checks one client, if it is one of this browser. Tells how many texts a play gives it.
fn check_client(lab: &mut Lab, place: usize, epoch: usize, written: &str) -> Result<usize, Fail> {
    let Some(conn) = conn_at(lab, place, epoch) else {
        return Ok(0);
    };
    let front = format!(in lab.alloc; "< {} ", conn.number)?;
    let wanted = texts_to(lab.alloc, written, front.as_str())?;
    lab.wait_for_texts(place, wanted.len())?;
    let cut = format!(in lab.alloc; "cut {} ", conn.number)?;
    let is_cut_off = written.lines().any(|line| line.starts_with(cut.as_str()));
    let client = lab.client(place)?;
    if has_read(client, &wanted, is_cut_off) {
        Ok(wanted.len())
    } else {
        Err(Fail::new(format_args!(
            "the connection {} of the record {epoch} read {} texts, and a play gives it {}",
            conn.number,
            client.texts.len(),
            wanted.len()
        )))
    }
}

/// Which connection of a browser the client at a place is.
fn conn_at(lab: &Lab, place: usize, epoch: usize) -> Option<Conn> {
    let conn = lab.clients.get(place)?.conn?;
    if conn.epoch == epoch {
        Some(conn)
    } else {
        None
    }
}

/// The texts that a play gives a connection, whose lines begin so.
fn texts_to<'a>(alloc: Global, written: &'a str, front: &str) -> Result<Vec<&'a str>, AllocError> {
    let mut texts = Vec::new(alloc);
    for line in written.lines() {
        if let Some(text) = line.strip_prefix(front) {
            texts.push(text)?;
        }
    }
    Ok(texts)
}

/// Whether a client read the texts that a play gives it. It may have read less if it was cut off in one.
fn has_read(client: &Client, wanted: &[&str], is_cut_off: bool) -> bool {
    let is_same = wanted
        .iter()
        .zip(client.texts.iter())
        .all(|(wanted, found)| *wanted == found.as_str());
    let count = client.texts.len();
    is_same && (count == wanted.len() || (is_cut_off || may_lack(client)) && count < wanted.len())
}

/// Whether a client may have read less than was sent to it.
fn may_lack(client: &Client) -> bool {
    let is_slow = match client.closed {
        Some(closed) => closed.code == 1013,
        None => false,
    };
    client.calls || is_slow || client.has_left() && client.closed.is_none()
}
