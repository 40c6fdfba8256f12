//! Open connections, with the session of each.
ghost use Rattle.std.specs.Prelude.{◌≡◌, ◌==◌, not, [], ◌∷◌, ◌++◌, find, filter, map, length, nat_lt, string_bytes, IfOk, OnOk, OnErr};
ghost use Rattle.bidi_sessions.specs.Attachment.{is_for};
ghost use Rattle.bidi_sessions.specs.Sent.{Text, Close};
ghost use Rattle.bidi_sessions.specs.ConnectionRows.{row_of, begun, to_each};
ghost use Rattle.bidi_sessions.specs.View.{sent_of};
ghost use Rattle.bidi_sessions.specs.Limits.{most_connections};

use crate::step::{Sent, SentText};
use bidi_tree::JsUint;
use std::alloc::{AllocError, Global};
use std::rc::Rc;

/// How many connections can be open at once.
const MOST_CONNECTIONS: usize = 64;

/// The state of a connection number.
#[derive(Clone, Copy)]
pub enum Attachment {
    /// No connection of this number is open.
    Shut,
    /// The connection is open, without a session.
    Alone,
    /// The connection is open and speaks for the session of this number.
    SpeaksFor(u32),
}

/// An open connection.
#[derive(Clone, Copy)]
pub(crate) struct Connection {
    /// The number that the caller gave it.
    pub number: JsUint,
    /// The number of the session that it speaks for, if any.
    pub session: Option<u32>,
}

impl Connection {
    // Whether it speaks for this session.
    fn is_for(&self, session: u32) -> bool
        ensures { result ≡ is_for session (row_of self.now).1 }
    {
        match self.session {
            Some(s) => session == s,
            None => false,
        }
    }
}

/// The open connections, in order of opening.
#[derive(Drop)]
pub struct Connections {
    open: Vec<Connection>,
}

impl Connections {
    ghost use Rattle.bidi_sessions.specs.ConnectionRows.{rows_in, attachment_in_hand, attachment_in};

    /// A table without connections. Takes no memory.
    pub fn new(alloc: Global) -> Connections
        // The table is empty.
        ensures { rows_in result ≡ [] }
    {
        Connections {
            open: Vec::new(alloc),
        }
    }

    /// The state of this connection number.
    pub fn attachment_of(&self, number: JsUint) -> Attachment
        // The state is that of the row with this number. If there is none, the connection is shut.
        ensures { attachment_in_hand result ≡ attachment_in (find (λ row. row.0 == number.value) (rows_in self.now)) }
    {
        match find(&self.open, number) {
            None => Attachment::Shut,
            Some(connection) => match connection.session {
                None => Attachment::Alone,
                Some(session) => Attachment::SpeaksFor(session),
            },
        }
    }

    /// Whether one more connection can be opened.
    pub fn has_room(&self) -> bool
        // There is room as long as fewer connections are open than the limit allows.
        ensures { result ≡ nat_lt (length (rows_in self.now)) most_connections }
    {
        self.open.len() < MOST_CONNECTIONS
    }

    /// Adds an open connection, which speaks for this session or for none.
    pub fn open(&mut self, number: JsUint, session: Option<u32>) -> Result<(), AllocError>
        // After an Ok, the table has the connection as its last row.
        ensures ok { OnOk result (rows_in self.new ≡ rows_in self.old ++ row_of (record { number = number; session = session }) ∷ []) }
        // After an error, the table is unchanged.
        ensures err { OnErr result (rows_in self.new ≡ rows_in self.old) }
    {
        Ok(self.open.push(Connection { number, session })?)
    }

    /// Removes the connection of this number.
    pub fn close(&mut self, number: JsUint)
        // The rows with this number are gone, and the others stay in order.
        ensures { rows_in self.new ≡ filter (λ row. not (row.0 == number.value)) (rows_in self.old) }
    {
        self.open.retain(|c| c.number.value != number.value);
    }

    /// Removes the connections of a session.
    pub fn close_all(&mut self, session: u32)
        // The rows of this session are gone, and the others stay in order.
        ensures { rows_in self.new ≡ filter (λ row. not (is_for session row.1)) (rows_in self.old) }
    {
        self.open.retain(|c| !c.is_for(session));
    }

    /// Makes the connection of that number speak for a session.
    pub fn begin(&mut self, number: JsUint, session: u32)
        // The row with this number speaks for the session, and the others are unchanged.
        ensures { rows_in self.new ≡ map (begun number.value session) (rows_in self.old) }
    {
        begin(&mut self.open, number, session);
    }

    /// Adds a text for each connection of a session, in order of opening. The connections share the text.
    pub fn push_text(
        &self,
        session: u32,
        text: &Rc<String>,
        sent: &mut Vec<Sent>,
    ) -> Result<(), AllocError>
        // After an Ok, the list has grown by the text once for each connection of the session, in order.
        ensures { IfOk result (λ _. map sent_of sent.new.items
            ≡ map sent_of sent.old.items ++ to_each (λ c. Text c (string_bytes text.now.value)) session (rows_in self.now)) }
    {
        push_text(&self.open, session, text, sent)
    }

    /// Adds a close of each connection of a session, in order of opening.
    pub fn push_closes(&self, session: u32, sent: &mut Vec<Sent>) -> Result<(), AllocError>
        // After an Ok, the list has grown by a close of each connection of the session, in order.
        ensures { IfOk result (λ _. map sent_of sent.new.items ≡ map sent_of sent.old.items ++ to_each Close session (rows_in self.now)) }
    {
        push_closes(&self.open, session, sent)
    }
}

// The open connection of this number.
fn find(connections: &[Connection], number: JsUint) -> Option<Connection>
    ensures { result ≡ find (λ c. c.number.value == number.value) connections.now }
{
    for connection in connections {
        if connection.number.value == number.value {
            return Some(*connection);
        }
    }
    None
}

// Makes the connection of that number speak for a session.
fn begin(connections: &mut [Connection], number: JsUint, session: u32)
    ensures { map row_of connections.new ≡ map (begun number.value session) (map row_of connections.old) }
{
    for connection in connections.iter_mut() {
        if connection.number.value == number.value {
            connection.session = Some(session);
        }
    }
}

// Adds a text for each connection of a session.
fn push_text(
    connections: &[Connection],
    session: u32,
    text: &Rc<String>,
    sent: &mut Vec<Sent>,
) -> Result<(), AllocError>
    ensures { IfOk result (λ _. map sent_of sent.new.items
        ≡ map sent_of sent.old.items ++ to_each (λ c. Text c (string_bytes text.now.value)) session (map row_of connections.now)) }
{
    for connection in connections {
        if connection.is_for(session) {
            let shared = SentText::Shared(text.clone()?);
            sent.push(Sent::Text(connection.number, shared))?;
        }
    }
    Ok(())
}

// Adds a close of each connection of a session.
fn push_closes(
    connections: &[Connection],
    session: u32,
    sent: &mut Vec<Sent>,
) -> Result<(), AllocError>
    ensures { IfOk result (λ _. map sent_of sent.new.items ≡ map sent_of sent.old.items ++ to_each Close session (map row_of connections.now)) }
{
    for connection in connections {
        if connection.is_for(session) {
            sent.push(Sent::Close(connection.number))?;
        }
    }
    Ok(())
}
