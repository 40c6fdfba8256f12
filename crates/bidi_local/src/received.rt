//! The meaning of a text from the remote end.
use bidi_messages::{ErrorCode, EventData, Method, ResultData};
use bidi_tree::JsUint;

/// The meaning of a text from the remote end, given the pending commands. The first three cases settle their
/// command; the others change nothing.
#[derive(Drop)]
pub enum Received {
    /// The command with this id succeeded, with this result of the command's method.
    ///
    /// `{"id":1,"result":{"message":"ready","ready":true},"type":"success"}`, if 1 is a `session.status`.
    Answer(JsUint, ResultData),
    /// The command with this id succeeded, but the result does not fit the rule of the command's method.
    ///
    /// `{"id":1,"result":{},"type":"success"}`, if 1 is a `session.status`: `ready` and `message` are missing.
    BadResult(JsUint),
    /// The command with this id failed, with this error code.
    ///
    /// `{"error":"invalid session id","id":1,"message":"invalid session id","type":"error"}`, if the command with id 1 is pending.
    Refusal(JsUint, ErrorCode),
    /// An event. It needs no pending command.
    ///
    /// `{"method":"script.realmDestroyed","params":{"realm":"r"},"type":"event"}`
    Event(EventData),
    /// A response or an error that answers no pending command: its id was never sent, is settled, or was
    /// given up, or it has no id.
    ///
    /// `{"error":"invalid argument","id":null,"message":"invalid argument","type":"error"}`
    Stray,
    /// JSON that is not a message of the profile, such as `{}`, a command, or an event that the profile does
    /// not have.
    ///
    /// `{"method":"browsingContext.navigationCommitted","params":{},"type":"event"}`
    NotInProfile,
    /// A text that is not JSON, such as `[1`, or that has arrays and objects of more than 127 levels.
    NotJson,
}

/// A message that was taken: its meaning, and the method of the command that it settles.
#[derive(Drop)]
pub struct Taken {
    /// The meaning of the message. It is never [`Received::NotJson`] or [`Received::NotInProfile`].
    pub received: Received,
    /// The method of the command that the message settles, or `None` if it settles none.
    pub method: Option<Method>,
}
