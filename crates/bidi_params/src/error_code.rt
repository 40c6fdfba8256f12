//! Error codes.
use bidi_shape::Named;

/// Why a command was refused, or a text that is no command.
///
/// Its text is a rule of its own: `ErrorCode`, a choice of 23 texts.
///
/// After WebDriver BiDi, "Errors"; the list is the profile's.
#[derive(Clone, Copy, Debug, PartialEq, Eq)]
pub enum ErrorCode {
    /// An argument of the command is not as the rules or the checks ask, or the text is no command.
    InvalidArgument,
    /// A selector is not valid.
    InvalidSelector,
    /// The command needs a session, and the connection has none.
    InvalidSessionId,
    /// The target of a move lies outside the viewport.
    MoveTargetOutOfBounds,
    /// There is no user prompt.
    NoSuchAlert,
    /// There is no such element.
    NoSuchElement,
    /// There is no such browsing context, or no such realm.
    NoSuchFrame,
    /// There is no such handle in the realm.
    NoSuchHandle,
    /// There is no such entry of the session history.
    NoSuchHistoryEntry,
    /// There is no such network intercept.
    NoSuchIntercept,
    /// There is no such shared node.
    NoSuchNode,
    /// There is no such network request.
    NoSuchRequest,
    /// There is no such preload script.
    NoSuchScript,
    /// There is no such storage partition.
    NoSuchStoragePartition,
    /// There is no such user context.
    NoSuchUserContext,
    /// A session could not be made.
    SessionNotCreated,
    /// A screenshot could not be made.
    UnableToCaptureScreen,
    /// The browser could not be closed.
    UnableToCloseBrowser,
    /// A cookie could not be set.
    UnableToSetCookie,
    /// A file input could not be set.
    UnableToSetFileInput,
    /// There is no command of that name.
    UnknownCommand,
    /// The command failed for another reason, as a limit that was met.
    UnknownError,
    /// The command asks for what the remote end does not do.
    UnsupportedOperation,
}

impl Named for ErrorCode {
    ghost use Rattle.bidi_params.specs.ErrorCode.{error_code_words};

    ghost words = { error_code_words };

    fn all() -> &'static [ErrorCode] {
        &[
            ErrorCode::InvalidArgument,
            ErrorCode::InvalidSelector,
            ErrorCode::InvalidSessionId,
            ErrorCode::MoveTargetOutOfBounds,
            ErrorCode::NoSuchAlert,
            ErrorCode::NoSuchElement,
            ErrorCode::NoSuchFrame,
            ErrorCode::NoSuchHandle,
            ErrorCode::NoSuchHistoryEntry,
            ErrorCode::NoSuchIntercept,
            ErrorCode::NoSuchNode,
            ErrorCode::NoSuchRequest,
            ErrorCode::NoSuchScript,
            ErrorCode::NoSuchStoragePartition,
            ErrorCode::NoSuchUserContext,
            ErrorCode::SessionNotCreated,
            ErrorCode::UnableToCaptureScreen,
            ErrorCode::UnableToCloseBrowser,
            ErrorCode::UnableToSetCookie,
            ErrorCode::UnableToSetFileInput,
            ErrorCode::UnknownCommand,
            ErrorCode::UnknownError,
            ErrorCode::UnsupportedOperation,
        ]
    }

    fn name(&self) -> &'static str {
        match self {
            ErrorCode::InvalidArgument => "invalid argument",
            ErrorCode::InvalidSelector => "invalid selector",
            ErrorCode::InvalidSessionId => "invalid session id",
            ErrorCode::MoveTargetOutOfBounds => "move target out of bounds",
            ErrorCode::NoSuchAlert => "no such alert",
            ErrorCode::NoSuchElement => "no such element",
            ErrorCode::NoSuchFrame => "no such frame",
            ErrorCode::NoSuchHandle => "no such handle",
            ErrorCode::NoSuchHistoryEntry => "no such history entry",
            ErrorCode::NoSuchIntercept => "no such intercept",
            ErrorCode::NoSuchNode => "no such node",
            ErrorCode::NoSuchRequest => "no such request",
            ErrorCode::NoSuchScript => "no such script",
            ErrorCode::NoSuchStoragePartition => "no such storage partition",
            ErrorCode::NoSuchUserContext => "no such user context",
            ErrorCode::SessionNotCreated => "session not created",
            ErrorCode::UnableToCaptureScreen => "unable to capture screen",
            ErrorCode::UnableToCloseBrowser => "unable to close browser",
            ErrorCode::UnableToSetCookie => "unable to set cookie",
            ErrorCode::UnableToSetFileInput => "unable to set file input",
            ErrorCode::UnknownCommand => "unknown command",
            ErrorCode::UnknownError => "unknown error",
            ErrorCode::UnsupportedOperation => "unsupported operation",
        }
    }
}
