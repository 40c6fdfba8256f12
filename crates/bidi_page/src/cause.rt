//! Why a step of a page has no effect.
ghost use Rattle.std.specs.Prelude.{◌≡◌, ◌<◌, List, IfOk, length, option_map};
ghost use Rattle.bidi_contexts.specs.Actions.{Action};
ghost use Rattle.bidi_remote.specs.Machine.History.{Input, IsTakenAs};
ghost use Rattle.bidi_remote.specs.Machine.Outcome.{deeds, page_refusal};
ghost use Rattle.bidi_remote.specs.State.Stands.{StandsFor};
ghost use Rattle.bidi_sessions.specs.View.{page_of};
ghost use Rattle.bidi_page.specs.Causes.{cause_of};

use bidi_messages::ErrorCode;
use bidi_remote::{PageStep, RemoteEnd};
use std::alloc::AllocError;

/// Why a step of a page has no effect: the first check that fails.
#[derive(Clone, Copy, Debug, PartialEq, Eq)]
pub enum Cause {
    /// No live context has the id.
    UnknownContext,
    /// The text is not an absolute URL.
    NotAbsoluteUrl,
    /// 1,024 contexts are live, or the context is at level 16.
    NoRoom,
    /// The context is top-level, so only a client can close it.
    TopLevel,
    /// The text is not a row of the script table.
    NoRow,
    /// 1,024 scripts have rows, and this one has none.
    FullTable,
}

/// Finds out why a remote end would refuse a step of a page; `None` if the step would have an effect.
///
/// Plans the step, and changes nothing.
///
/// # Errors
/// No memory: an allocation failed.
pub fn refusal(end: &RemoteEnd, page: &PageStep) -> Result<Option<Cause>, AllocError>
    // The cause is that of the first check that fails, whatever the history of the end.
    ensures { IfOk result (λ found. (a : Action) × IsTakenAs (page_of page.now) a
        × ((h : List Input) → StandsFor end.now h → length h < 1000000000
        → found ≡ option_map (cause_of (page_of page.now)) (page_refusal (deeds h) a))) }
{
    match end.page_refusal(page)? {
        Some(code) => Ok(Some(cause_of(page, code))),
        None => Ok(None),
    }
}

// The cause for a code.
fn cause_of(page: &PageStep, code: ErrorCode) -> Cause
    ensures { result ≡ cause_of (page_of page.now) code }
{
    match page {
        PageStep::Frame(..) => match code {
            ErrorCode::NoSuchFrame => Cause::UnknownContext,
            ErrorCode::InvalidArgument => Cause::NotAbsoluteUrl,
            _ => Cause::NoRoom,
        },
        PageStep::Unframe(_) => match code {
            ErrorCode::NoSuchFrame => Cause::UnknownContext,
            _ => Cause::TopLevel,
        },
        PageStep::Log(..) => Cause::UnknownContext,
        PageStep::TableRow(_) => match code {
            ErrorCode::UnknownError => Cause::FullTable,
            _ => Cause::NoRow,
        },
    }
}
