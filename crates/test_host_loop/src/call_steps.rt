//! The steps of scenes with calls over HTTP.
use crate::clients::Client;
use crate::lab::{Awaited, Lab};
use std::test::Fail;

/// A client that writes a call, for which the remote end is asked.
pub fn calls(rt: &HostRuntime, lab: &mut Lab, name: &str, text: &str) -> Result<bool, Fail> {
    let text = text.replace(rt.alloc(), "|", "\r\n")?;
    let port = format!(in lab.alloc; "{}", lab.port())?;
    let text = text.replace(rt.alloc(), "PORT", port.as_str())?;
    let place = lab.connect(rt, name)?;
    let conn = lab.next_conn();
    let client = lab.client(place)?;
    client.conn = Some(conn);
    client.calls = true;
    client.output().extend_from_slice(text.as_bytes())?;
    Ok(true)
}

/// Whether a client read a whole reply of a status with a JSON text, and then the end.
pub fn is_told(lab: &mut Lab, place: usize, text: &str) -> Result<bool, Fail> {
    let port = format!(in lab.alloc; "{}", lab.port())?;
    let text = text.replace(lab.alloc, "PORT", port.as_str())?;
    let text = text.replace(lab.alloc, "WITH", CAPABILITIES)?;
    let (status, json) = text.split_once(' ').unwrap_or((text.as_str(), ""));
    let wanted = format!(in lab.alloc; "{json}\n")?;
    let length = format!(in lab.alloc; "\r\nContent-Length: {}\r\n", wanted.len())?;
    lab.wait_for(place, Awaited::End)?;
    let client = lab.client(place)?;
    if client.body() != wanted.as_str() {
        return Err(Fail::new(format_args!("it is told {}", client.body())));
    }
    let is_json = match &client.head {
        Some(head) => {
            head.contains(length.as_str())
                && head.contains("\r\nContent-Type: application/json; charset=utf-8\r\n")
                && head.contains("\r\nCache-Control: no-cache\r\n")
                && head.contains("\r\nConnection: close\r\n")
        }
        None => false,
    };
    Ok(is_json && client.has_ended && !client.was_reset && has_status(client, status))
}

/// The capabilities of a session.
const CAPABILITIES: &str =
    r#""acceptInsecureCerts":false,"browserName":"memory-browser","browserVersion":"1.0","platformName":"none","setWindowRect":false,"userAgent":"memory-browser/1.0""#;

/// Whether the answer to a client's head has this status.
pub fn has_status(client: &Client, status: &str) -> bool {
    let Some(head) = &client.head else {
        return false;
    };
    match head.as_str().strip_prefix("HTTP/1.1 ") {
        Some(rest) => rest.starts_with(status),
        None => false,
    }
}
