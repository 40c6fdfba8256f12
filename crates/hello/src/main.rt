//! The program of README.md: a local end asks a remote end for its status.
#![tactic(auto)]

use anyhow::Result;
use bidi_local::{LocalEnd, Received};
use bidi_messages::{CommandData, ResultData, SessionCommand};
use bidi_params::EmptyParams;
use bidi_remote::{RemoteEnd, Sent, Step};
use bidi_tree::{JsUint, Members};

fn main(rt: HostRuntime) -> Result<()> {
    let alloc = rt.alloc();
    let conn = JsUint { value: 1 };
    let mut browser = RemoteEnd::new(alloc)?;
    browser.step(Step::Open(conn, String::from_str(alloc, "/session")?))?;
    // The client makes a message, which a connection would carry to the browser.
    let mut client = LocalEnd::new(alloc);
    let params = EmptyParams::new(Members::new(alloc))?;
    let (_, message) = client.send(CommandData::Session(SessionCommand::Status(params)))?;
    for sent in browser.step(Step::Text(conn, message))? {
        if let Sent::Text(_, reply) = sent {
            show(&rt, &mut client, reply.as_str())?;
        }
    }
    Ok(())
}

/// Prints a reply, and what it says to the client.
fn show(rt: &HostRuntime, client: &mut LocalEnd, reply: &str) -> Result<()> {
    println!(rt; "{reply}")?;
    if let Received::Answer(_, ResultData::SessionStatus(status)) = &client.take(reply)? {
        println!(rt; "ready: {}", status.ready)?;
    }
    Ok(())
}
