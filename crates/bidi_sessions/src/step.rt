//! The steps that a remote end takes, and what it sends.
ghost use Rattle.std.specs.Prelude.{◌≡◌, IfOk, string_bytes};
ghost use Rattle.bidi_sessions.specs.View.{page_of, step_of, text_of};

use bidi_scripts::Level;
use bidi_tree::JsUint;
use std::alloc::{AllocError, Global};
use std::rc::Rc;

/// What happens to a remote end. A connection is named by a number that the caller chooses.
#[derive(Drop)]
pub enum Step {
    /// The clock is set to this moment, which is the timestamp of later events. It starts at 0.
    At(JsUint),
    /// A connection is asked for, with its resource: `/session`, or `/session/ID` for an active session.
    Open(JsUint, String),
    /// The peer closed the connection of this number.
    Drop(JsUint),
    /// A text message came in on the connection.
    Text(JsUint, String),
    /// A binary message came in on the connection. It is answered as a text that is not JSON.
    NotText(JsUint),
    /// A page does something by itself.
    Page(PageStep),
}

/// What a page does by itself, which no client asked for. A play gives it in place of the page.
#[derive(Drop)]
pub enum PageStep {
    /// It adds a child to the context of this id, at this URL.
    Frame(String, String),
    /// It removes the child context of this id, with all its descendants.
    Unframe(String),
    /// It logs this text at this level, in the context of this id.
    Log(String, Level, String),
    /// A row of the script table is set, which says what a script returns or throws. The text is the row in JSON; a
    /// text that is no row has no effect.
    TableRow(String),
}

impl Step {
    /// An equal step. Costs a copy of each of its texts.
    ///
    /// # Errors
    /// No memory: an allocation failed.
    pub fn copy(&self, alloc: Global) -> Result<Step, AllocError>
        // After an Ok, the copy has the same numbers and the same bytes as the step.
        ensures { IfOk result (λ step. step_of step ≡ step_of self.now) }
    {
        match self {
            Step::At(moment) => Ok(Step::At(*moment)),
            Step::Open(conn, resource) => Ok(Step::Open(*conn, copy(alloc, resource)?)),
            Step::Drop(conn) => Ok(Step::Drop(*conn)),
            Step::Text(conn, text) => Ok(Step::Text(*conn, copy(alloc, text)?)),
            Step::NotText(conn) => Ok(Step::NotText(*conn)),
            Step::Page(page) => Ok(Step::Page(page.copy(alloc)?)),
        }
    }
}

impl PageStep {
    // An equal step.
    fn copy(&self, alloc: Global) -> Result<PageStep, AllocError>
        ensures { IfOk result (λ page. page_of page ≡ page_of self.now) }
    {
        match self {
            PageStep::Frame(context, url) => {
                let context = copy(alloc, context)?;
                Ok(PageStep::Frame(context, copy(alloc, url)?))
            }
            PageStep::Unframe(context) => Ok(PageStep::Unframe(copy(alloc, context)?)),
            PageStep::Log(context, level, text) => {
                let context = copy(alloc, context)?;
                Ok(PageStep::Log(context, *level, copy(alloc, text)?))
            }
            PageStep::TableRow(text) => Ok(PageStep::TableRow(copy(alloc, text)?)),
        }
    }
}

// A text with the same bytes.
fn copy(alloc: Global, text: &String) -> Result<String, AllocError>
    ensures { IfOk result (λ copied. string_bytes copied ≡ string_bytes text.now) }
{
    String::from_str(alloc, text.as_str())
}

/// The text of a message.
#[derive(Drop)]
pub enum SentText {
    /// It is for one connection.
    Own(String),
    /// It is shared by all connections that get it.
    Shared(Rc<String>),
}

impl SentText {
    /// The text, borrowed. Takes no memory.
    pub fn as_str(&self) -> &str
        // The result has the bytes of the text.
        ensures { result.now ≡ text_of self.now }
    {
        match self {
            SentText::Own(text) => text.as_str(),
            SentText::Shared(text) => text.as_str(),
        }
    }

    /// The text, owned. Copies it if other connections share it.
    ///
    /// # Errors
    /// No memory: an allocation failed.
    pub fn into_string(self) -> Result<String, AllocError>
        // After an Ok, the result has the bytes of the text.
        ensures { IfOk result (λ text. string_bytes text ≡ text_of self) }
    {
        match self {
            SentText::Own(text) => Ok(text),
            SentText::Shared(text) => Rc::unwrap_or_clone(text),
        }
    }
}

/// What a remote end sends for a step, or tells of it. A connection is named by its number.
#[derive(Drop)]
pub enum Sent {
    /// This text is to be sent on the connection.
    Text(JsUint, SentText),
    /// The remote end closed the connection, since its session ended. The caller closes its transport.
    Close(JsUint),
    /// The connection is open now.
    Opened(JsUint),
    /// The connection was not opened, and nothing has changed: its resource is neither of the two, its number
    /// is open already, or 64 connections are open.
    Denied(JsUint),
    /// The connection is not open, so what came in on it, or its drop, was ignored.
    Lost(JsUint),
    /// The step of a page was refused. Nothing has changed.
    NoEffect,
}
