//! The messages of the remote end.
ghost use Rattle.std.specs.Prelude.{refl, [], ◌∷◌, codes};
ghost use Rattle.bidi_shape.specs.Table.{map_shape};
ghost use Rattle.bidi_shape.specs.Name.{command_response, error_response, message};
ghost use Rattle.bidi_shape.specs.Term.{rule as named};

use crate::event::Event;
use bidi_params::ErrorCode;
use bidi_shape::{
    Either, Exact, Ext, Fields, Literal, Maybe, One, Optional, Parsed, Required, Rest, Shape,
    ShapeFault, outline_fields, read_choice, read_fields,
};
use bidi_tree::{JsUint, Outline};
use std::alloc::{AllocError, Global};

/// The reply to a command that succeeded, with its result.
///
/// `CommandResponse = { type: "success", id: js-uint, result: { Extensible }, Extensible }`.
/// The rule of the result depends on the command's method, which a response does not contain: see
/// [`result_of`](crate::result_of).
///
/// After WebDriver BiDi, "Protocol".
#[derive(Drop)]
pub struct Response {
    /// The id of the command that the response answers.
    pub id: JsUint,
    /// The members of the result.
    pub result: Ext,
    /// The members other than `type`, `id` and `result`. They have no effect.
    pub ext: Ext,
}

impl Response {
    // In the order of the rule.
    const NAMES: &'static [&'static str] = &["type", "id", "result"];
}

type ResponseParts = Literal<Required<JsUint, Required<Ext, Ext>>>;

impl Shape for Response {
    ghost shape = { map_shape (named command_response) ⟦<ResponseParts as Fields>⟧.table (codes "success" ∷ [])
        (λ v. record { 0 = (v.id, (v.«result», v.ext)) }) refl refl };

    fn from_tree<S: Parsed>(alloc: Global, tree: &S) -> Result<Response, ShapeFault> {
        let parts = read_fields(alloc, tree, Self::NAMES, &["success"])?;
        let Literal(Required(id, Required(result, ext))) = parts;
        Ok(Response { id, result, ext })
    }

    fn outline<'a>(&'a self, alloc: Global) -> Result<Outline<'a>, AllocError> {
        let members = Exact(One(&self.id, One(&self.result, Rest(&self.ext))));
        outline_fields(alloc, &members, Self::NAMES, &["success"])
    }
}

/// The reply to a command that failed, or to a text that is not a command.
///
/// `ErrorResponse = { type: "error", id: js-uint / null, error: ErrorCode, message: text, ? stacktrace: text, Extensible }`
///
/// After WebDriver BiDi, "Protocol" and "Errors".
#[derive(Drop)]
pub struct ErrorResponse {
    /// The id of the command that failed, or null if the text had no id that could be read.
    pub id: Option<JsUint>,
    /// The error code, for programs.
    pub error: ErrorCode,
    /// A description of the error, for people. The remote end of this project sends the string of the code.
    pub message: String,
    /// The place of the failure in the remote end, for people. The remote end of this project sends none.
    pub stacktrace: Option<String>,
    /// The members that the rule does not name. They have no effect.
    pub ext: Ext,
}

impl ErrorResponse {
    // In the order of the rule.
    const NAMES: &'static [&'static str] = &["type", "id", "error", "message", "stacktrace"];
}

type ErrorParts = Literal<
    Required<Option<JsUint>, Required<ErrorCode, Required<String, Optional<String, Ext>>>>,
>;

impl Shape for ErrorResponse {
    ghost shape = { map_shape (named error_response) ⟦<ErrorParts as Fields>⟧.table (codes "error" ∷ [])
        (λ v. record { 0 = (v.id, (v.error, (v.message, (v.stacktrace, v.ext)))) }) refl refl };

    fn from_tree<S: Parsed>(alloc: Global, tree: &S) -> Result<ErrorResponse, ShapeFault> {
        let parts = read_fields(alloc, tree, Self::NAMES, &["error"])?;
        let Literal(Required(id, Required(error, Required(message, Optional(stacktrace, ext))))) =
            parts;
        Ok(ErrorResponse {
            id,
            error,
            message,
            stacktrace,
            ext,
        })
    }

    fn outline<'a>(&'a self, alloc: Global) -> Result<Outline<'a>, AllocError> {
        let members = Exact(One(
            &self.id,
            One(
                &self.error,
                One(&self.message, Maybe(&self.stacktrace, Rest(&self.ext))),
            ),
        ));
        outline_fields(alloc, &members, Self::NAMES, &["error"])
    }
}

/// A message of the remote end.
///
/// `Message = CommandResponse / ErrorResponse / Event`
///
/// After WebDriver BiDi, "Protocol".
#[derive(Drop)]
pub enum Message {
    /// A command succeeded.
    Response(Response),
    /// A command failed, or a text was not a command.
    Error(ErrorResponse),
    /// An event happened to which the session is subscribed.
    Event(Event),
}

type Alternatives = Either<Response, Either<ErrorResponse, Event>>;

impl Shape for Message {
    ghost use Rattle.bidi_shape.specs.ThroughLaws.{shape_through};
    ghost use Rattle.bidi_shape.specs.declared.choice.Either.TheVariants.{First, Second};
    ghost use Rattle.bidi_messages.specs.declared.message.Message.TheVariants.{Response, Error, Event};

    ghost shape = { shape_through (named message) ⟦<Alternatives as Shape>⟧.shape
        (λ v. elim v [ Response r ↦ First r | Error e ↦ Second (First e) | Event e ↦ Second (Second e) ]) refl };

    fn from_tree<S: Parsed>(alloc: Global, tree: &S) -> Result<Message, ShapeFault> {
        use Either::{First, Second};

        match read_choice(alloc, tree)? {
            First(response) => Ok(Message::Response(response)),
            Second(First(error)) => Ok(Message::Error(error)),
            Second(Second(event)) => Ok(Message::Event(event)),
        }
    }

    fn outline<'a>(&'a self, alloc: Global) -> Result<Outline<'a>, AllocError> {
        match self {
            Message::Response(response) => response.outline(alloc),
            Message::Error(error) => error.outline(alloc),
            Message::Event(event) => event.outline(alloc),
        }
    }
}
