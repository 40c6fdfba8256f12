//! The ledger: the fate of each command, and the events of each link.
use bidi_messages::{ErrorCode, EventData, Method, ResultData};
use bidi_tree::JsUint;

/// The accounts of all links.
#[derive(Drop)]
pub struct Ledger {
    /// The accounts, in the order in which their links were opened.
    pub accounts: Vec<Account>,
}

/// The account of one link: its commands with their fates, and the events that it received.
#[derive(Drop)]
pub struct Account {
    /// The number of the link.
    pub link: JsUint,
    /// The commands that its local end sent, in order. Their ids start at 1.
    pub commands: Vec<Entry>,
    /// The events that it received, in order.
    pub events: Vec<EventData>,
    /// The number of commands that its local end refused to send.
    pub unsent: u64,
}

/// A command that was sent, and its fate.
#[derive(Drop)]
pub struct Entry {
    /// The id of the command.
    pub id: JsUint,
    /// The method of the command.
    pub method: Method,
    /// The fate of the command.
    pub fate: Fate,
}

/// The fate of a command.
#[derive(Drop)]
pub enum Fate {
    /// It succeeded, with this result of its method.
    Answered(ResultData),
    /// It failed, with this error code.
    Refused(ErrorCode),
    /// Its link was cut before its reply was taken down.
    Lost,
    /// Its reply was not taken down yet, and its link was not cut.
    Waiting,
}
