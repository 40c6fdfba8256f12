//! Calls over HTTP: sessions of clients that begin without a WebSocket.
//!
//! The host gives the remote end the command of a call on a connection of its own, which it drops afterwards. All three
//! are recorded as lines of a play.
ghost use Rattle.std.specs.Prelude.{[], ◌∷◌, OnOk};
ghost use Rattle.bidi_host_loop.specs.Deeds.{Called, Replied};
ghost use Rattle.bidi_host_loop.specs.Runs.{Calls, Commands};

use crate::hosting::Hosted;
use crate::surroundings::Surroundings;
use bidi_classic::{
    CallError, Reply, Route, end_command, end_reply, error_reply, new_command, new_reply, route_of,
};
use bidi_peer::{AllowedMethods, Call};
use bidi_recorder::HostingFault;
use bidi_tree::JsUint;

/// The resource of a connection without a session.
const SESSION: &str = "/session";

/// Why a body asks for no session.
const NO_CAPABILITIES: &str = "the body must be a JSON object with a property \"capabilities\"";

/// Why the host has no connection of its own.
const TOO_MANY: &str = "too many connections";

/// Why a call is not answered.
const NO_ANSWER: &str = "the remote end did not answer";

impl Hosted {
    ghost use Rattle.bidi_host_loop.specs.Goes.{By, Does, Meets};

    // Answers a call of the client at a place.
    pub(crate) fn answer_call<W: Surroundings>(
        &mut self,
        world: &mut W,
        place: usize,
        call: Call,
    ) -> Result<(), HostingFault>
        ensures { Meets (Called place ∷ []) self.old self.new result }
    {
        let reply = self.carry_out_call(world, place, call)?;
        self.reply(place, &reply)?;
        Ok(())
    }

    // Replies to the call of the client at a place.
    fn reply(&mut self, place: usize, reply: &Reply) -> Result<(), HostingFault>
        ensures { OnOk result (Does (Replied place ∷ []) self.old self.new) }
    {
        self.edge.reply(place, reply)?;
        Ok(())
    }

    // Carries out a call of the client at a place. Returns the reply.
    fn carry_out_call<W: Surroundings>(
        &mut self,
        world: &mut W,
        place: usize,
        call: Call,
    ) -> Result<Reply, HostingFault>
        ensures { OnOk result (By (Calls self.old.manners.is_lenient) self.old self.new) }
    {
        let Call {
            method,
            resource,
            body,
        } = call;
        match route_of(method, resource.as_str()) {
            Route::New => self.begin_session(world, place, &body),
            Route::End => self.end_session(world, resource.as_str()),
            Route::NotAllowed(methods) => self.refuse_method(resource.as_str(), methods),
            Route::Unknown => self.refuse_resource(resource.as_str()),
        }
    }

    // The reply to a call with a method that its resource does not have.
    fn refuse_method(
        &mut self,
        resource: &str,
        methods: AllowedMethods,
    ) -> Result<Reply, HostingFault>
        ensures { OnOk result (By (Calls self.old.manners.is_lenient) self.old self.new) }
    {
        let message = format!(in self.alloc; "{resource} has no such method")?;
        let error = CallError::UnknownMethod(methods);
        Ok(error_reply(self.alloc, error, message.as_str())?)
    }

    // The reply to a call of a resource that is no command.
    fn refuse_resource(&mut self, resource: &str) -> Result<Reply, HostingFault>
        ensures { OnOk result (By (Calls self.old.manners.is_lenient) self.old self.new) }
    {
        let message = format!(in self.alloc; "{resource} is no command of this host")?;
        let error = CallError::UnknownCommand;
        Ok(error_reply(self.alloc, error, message.as_str())?)
    }

    // Creates a session, as the body of a call asks for it.
    fn begin_session<W: Surroundings>(
        &mut self,
        world: &mut W,
        place: usize,
        body: &[u8],
    ) -> Result<Reply, HostingFault>
        ensures { OnOk result (By (Calls self.old.manners.is_lenient) self.old self.new) }
    {
        let Some(command) = new_command(self.alloc, body)? else {
            let error = CallError::InvalidArgument;
            return Ok(error_reply(self.alloc, error, NO_CAPABILITIES)?);
        };
        let port = self.edge.peers.port_at(place);
        let texts = self.ask(world, SESSION, command)?;
        self.new_session_reply(texts, port)
    }

    // The reply to a call for a session, by the texts that the remote end sent, if it was asked.
    fn new_session_reply(
        &self,
        texts: Option<Vec<String>>,
        port: u16,
    ) -> Result<Reply, HostingFault> {
        let Some(texts) = texts else {
            let error = CallError::SessionNotCreated;
            return Ok(error_reply(self.alloc, error, TOO_MANY)?);
        };
        for text in texts {
            if let Some(reply) = new_reply(self.alloc, text.as_str(), port)? {
                return Ok(reply);
            }
        }
        let error = CallError::SessionNotCreated;
        Ok(error_reply(self.alloc, error, NO_ANSWER)?)
    }

    // Ends the session at a resource.
    fn end_session<W: Surroundings>(
        &mut self,
        world: &mut W,
        resource: &str,
    ) -> Result<Reply, HostingFault>
        ensures { OnOk result (By (Calls self.old.manners.is_lenient) self.old self.new) }
    {
        let command = end_command(self.alloc)?;
        let texts = self.ask(world, resource, command)?;
        self.session_end_reply(texts)
    }

    // The reply to a call for the end of a session, by the texts that the remote end sent, if it was asked.
    fn session_end_reply(&self, texts: Option<Vec<String>>) -> Result<Reply, HostingFault> {
        let Some(texts) = texts else {
            return self.deny_end();
        };
        for text in texts {
            if let Some(reply) = end_reply(self.alloc, text.as_str())? {
                return Ok(reply);
            }
        }
        Ok(error_reply(self.alloc, CallError::UnknownError, NO_ANSWER)?)
    }

    // The reply to a call for the end of a session to which no connection can be opened.
    fn deny_end(&self) -> Result<Reply, HostingFault> {
        let (error, message) = if self.has_most_clients() {
            (CallError::UnknownError, TOO_MANY)
        } else {
            (CallError::InvalidSessionId, "there is no such session")
        };
        Ok(error_reply(self.alloc, error, message)?)
    }

    // Gives the remote end a command on a connection of the host's own. Returns the texts that come on it, or `None` if
    // the connection is denied.
    fn ask<W: Surroundings>(
        &mut self,
        world: &mut W,
        resource: &str,
        command: String,
    ) -> Result<Option<Vec<String>>, HostingFault>
        ensures { OnOk result (By (Calls self.old.manners.is_lenient) self.old self.new) }
    {
        let conn = self.registry.next_number()?;
        self.opens(world, conn, resource)?;
        if !self.host.is_open(conn) {
            return Ok(None);
        }
        let texts = self.command(world, conn, command)?;
        Ok(Some(texts))
    }

    // Gives the remote end a command on a connection of the host's own that is open, and drops it. Returns the texts that
    // come on it.
    fn command<W: Surroundings>(
        &mut self,
        world: &mut W,
        conn: JsUint,
        command: String,
    ) -> Result<Vec<String>, HostingFault>
        ensures { OnOk result (By (Commands self.old.manners.is_lenient conn.value) self.old self.new) }
    {
        self.edge.keep_texts(self.alloc, conn);
        self.hears_eased(world, conn, command)?;
        let texts = self.edge.kept_texts(self.alloc);
        self.registry.sessions.forget(conn);
        self.drops(world, conn)?;
        Ok(texts)
    }
}
