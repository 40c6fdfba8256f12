//! Commands.
ghost use Rattle.std.specs.Prelude.{refl, codes};
ghost use Rattle.bidi_shape.specs.Term.{rule as named};

use crate::envelope::{outline_envelope, read_envelope};
use bidi_methods::{CommandData, Method, Payload};
use bidi_shape::{Ext, Parsed, Shape, ShapeFault};
use bidi_tree::{JsUint, Outline};
use std::alloc::{AllocError, Global};

/// A command of the local end.
///
/// `Command = { id: js-uint, method: "M", params: P, Extensible }`, where `data` has the method and its params.
///
/// After WebDriver BiDi, "Protocol".
#[derive(Drop)]
pub struct Command {
    /// The number that the local end gave the command. The reply echoes it.
    pub id: JsUint,
    pub data: CommandData,
    /// The members other than `id`, `method` and `params`. They have no effect.
    pub ext: Ext,
}

impl Shape for Command {
    ghost use Rattle.bidi_messages.specs.Envelope.{envelope_shape};
    ghost use Rattle.bidi_shape.specs.Name.{command};

    ghost shape = { envelope_shape (codes "id") ⟦<JsUint as Shape>⟧.shape ⟦<Method as bidi_shape::Named>⟧.words
        ⟦<CommandData as Payload<Method>>⟧.payload (named command) (λ c. (c.id, (c.«data», c.ext))) refl refl };

    fn from_tree<S: Parsed>(alloc: Global, tree: &S) -> Result<Command, ShapeFault> {
        let envelope = read_envelope::<JsUint, Method, CommandData, S>(alloc, tree, "id")?;
        Ok(Command {
            id: envelope.head,
            data: envelope.payload,
            ext: envelope.ext,
        })
    }

    fn outline<'a>(&'a self, alloc: Global) -> Result<Outline<'a>, AllocError> {
        outline_envelope(alloc, "id", &self.id, &self.data, &self.ext)
    }
}
