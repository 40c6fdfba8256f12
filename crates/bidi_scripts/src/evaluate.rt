//! Evaluating an expression.
ghost use Rattle.std.specs.Prelude.{◌≡◌, IfOk, IfSome, refl, true, []};
ghost use Rattle.bidi_shape.specs.Table.{map_shape};
ghost use Rattle.bidi_shape.specs.Made.{Makes, named, MembersAreWhole, members_node, has_named, names_in, others_of};
ghost use Rattle.bidi_shape.specs.Name.{evaluate_parameters};

use crate::serialization_options::SerializationOptions;
use crate::target::Target;
use bidi_shape::{
    Ext, Fields, MakeFault, Maybe, Named, One, Optional, Parsed, Required, Rest, Shape, ShapeFault,
    further, outline_fields, read_fields,
};
use bidi_tree::{Members, Outline};
use std::alloc::{AllocError, Global};

/// Whether the handle of a result is kept.
///
/// `"root" / "none"`
///
/// After WebDriver BiDi, "The script.ResultOwnership Type".
#[derive(Clone, Copy, Debug, PartialEq, Eq)]
pub enum Ownership {
    /// An outermost value that is no primitive gets a handle. Its realm keeps the value until the handle is disowned
    /// or the realm ends.
    Root,
    /// No value gets a handle.
    None,
}

impl Named for Ownership {
    ghost use Rattle.bidi_scripts.specs.Ownership.{ownership_words};

    ghost words = { ownership_words };

    fn all() -> &'static [Ownership] {
        &[Ownership::Root, Ownership::None]
    }

    fn name(&self) -> &'static str {
        match self {
            Ownership::Root => "root",
            Ownership::None => "none",
        }
    }
}

/// Parameters of `script.evaluate`.
///
/// `{ expression: text, target: Target, awaitPromise: bool, ? resultOwnership: Ownership,
/// ? serializationOptions: SerializationOptions, ? userActivation: bool, Extensible }`
///
/// `expression` is looked up in the table of a play, and not run. `awaitPromise` and `userActivation` have no effect
/// here. Absent, `resultOwnership` is `none`, and `serializationOptions` leave the result whole.
///
/// After WebDriver BiDi, "The script.evaluate Command".
#[derive(Drop)]
pub struct EvaluateParameters {
    pub expression: String,
    pub target: Target,
    pub await_promise: bool,
    pub result_ownership: Option<Ownership>,
    pub serialization_options: Option<SerializationOptions>,
    pub user_activation: Option<bool>,
    pub ext: Ext,
}

impl EvaluateParameters {
    // In the order of the rule.
    const NAMES: &'static [&'static str] = &[
        "expression",
        "target",
        "awaitPromise",
        "resultOwnership",
        "serializationOptions",
        "userActivation",
    ];

    /// The parameters, with further members. Takes no memory.
    ///
    /// # Errors
    /// - `Clash`: a further member is called `expression`, `target`, `awaitPromise`, `resultOwnership`,
    ///   `serializationOptions` or `userActivation`.
    /// - `TooDeep`: a further member has an `Odd` in it, or more than 60 levels.
    pub fn new(
        expression: String,
        target: Target,
        await_promise: bool,
        result_ownership: Option<Ownership>,
        serialization_options: Option<SerializationOptions>,
        user_activation: Option<bool>,
        ext: Members,
    ) -> Result<EvaluateParameters, MakeFault>
        // The target is well-formed.
        requires target { ⟦<Target as Shape>⟧.shape.well target }
        // The serialization options are well-formed, if they are given.
        requires options { IfSome serialization_options (λ o. ⟦<SerializationOptions as Shape>⟧.shape.well o) }
        // Memory aside, the first cause that holds is the fault; with none, the value has these parts.
        ensures made { Makes result
            (has_named (names_in (named evaluate_parameters)) (members_node ext.entries) ≡ true)
            ⊥
            (¬ MembersAreWhole (members_node ext.entries) 60)
            (λ v. (v.expression ≡ expression) × (v.target ≡ target) × (v.await_promise ≡ await_promise) × (v.result_ownership ≡ result_ownership)
            × (v.serialization_options ≡ serialization_options) × (v.user_activation ≡ user_activation) × (others_of v.ext ≡ members_node ext.entries)) }
        // The value is well-formed, so its tree fits the type's rule.
        ensures well { IfOk result (λ v. ⟦<EvaluateParameters as Shape>⟧.shape.well v) }
    {
        let ext = further(ext, Self::NAMES)?;
        Ok(EvaluateParameters {
            expression,
            target,
            await_promise,
            result_ownership,
            serialization_options,
            user_activation,
            ext,
        })
    }
}

type EvaluateParts = Required<
    String,
    Required<
        Target,
        Required<bool, Optional<Ownership, Optional<SerializationOptions, Optional<bool, Ext>>>>,
    >,
>;

impl Shape for EvaluateParameters {
    ghost shape = { map_shape (named evaluate_parameters) ⟦<EvaluateParts as Fields>⟧.table []
        (λ v. (v.expression, (v.target, (v.await_promise, (v.result_ownership, (v.serialization_options, (v.user_activation, v.ext))))))) refl refl };

    fn from_tree<S: Parsed>(alloc: Global, tree: &S) -> Result<EvaluateParameters, ShapeFault> {
        let Required(
            expression,
            Required(
                target,
                Required(
                    await_promise,
                    Optional(
                        result_ownership,
                        Optional(serialization_options, Optional(user_activation, ext)),
                    ),
                ),
            ),
        ) = read_fields(alloc, tree, Self::NAMES, &[])?;
        Ok(EvaluateParameters {
            expression,
            target,
            await_promise,
            result_ownership,
            serialization_options,
            user_activation,
            ext,
        })
    }

    fn outline<'a>(&'a self, alloc: Global) -> Result<Outline<'a>, AllocError> {
        let members = One(
            &self.expression,
            One(
                &self.target,
                One(
                    &self.await_promise,
                    Maybe(
                        &self.result_ownership,
                        Maybe(
                            &self.serialization_options,
                            Maybe(&self.user_activation, Rest(&self.ext)),
                        ),
                    ),
                ),
            ),
        );
        outline_fields(alloc, &members, Self::NAMES, &[])
    }
}
