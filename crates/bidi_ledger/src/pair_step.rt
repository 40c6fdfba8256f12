//! The steps of both ends.
use bidi_messages::CommandData;
use bidi_remote::PageStep;
use bidi_tree::JsUint;

/// A step of both ends. A link has the number of its connection at the remote end. Except for `Open`, a step
/// does nothing if its link was never opened or was cut, and `Up` and `Down` do nothing if no text is queued.
#[derive(Drop)]
pub enum PairStep {
    /// Asks the remote end to open a connection with this resource. If it does, and no link has had this
    /// number, a link is opened.
    Open(JsUint, String),
    /// The local end of the link sends a command; its text is queued.
    Send(JsUint, CommandData),
    /// The oldest text of the local end that is queued is carried up to the remote end.
    Up(JsUint),
    /// The oldest text of the remote end that is queued is carried down to the local end.
    Down(JsUint),
    /// The link is cut: the queued texts are gone, and the pending commands are lost.
    Cut(JsUint),
    /// The clock of the remote end is set to this moment.
    At(JsUint),
    /// A page takes a step by itself.
    Page(PageStep),
}
