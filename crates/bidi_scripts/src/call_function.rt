//! Calling a function, and letting go of its results.
ghost use Rattle.std.specs.Prelude.{◌≡◌, IfOk, refl, true, [], IfSome};
ghost use Rattle.bidi_shape.specs.Table.{map_shape};
ghost use Rattle.bidi_shape.specs.Made.{Makes, named, MembersAreWhole, members_node, has_named, names_in, others_of};
ghost use Rattle.bidi_shape.specs.Name.{call_function_parameters, disown_parameters};

use crate::evaluate::Ownership;
use crate::serialization_options::SerializationOptions;
use crate::target::Target;
use bidi_shape::{
    Ext, Fields, MakeFault, Maybe, One, Optional, Parsed, Required, Rest, Shape, ShapeFault,
    further, outline_fields, read_fields,
};
use bidi_tree::{Members, Outline};
use bidi_values::LocalValue;
use std::alloc::{AllocError, Global};

/// Parameters of `script.callFunction`.
///
/// `{ functionDeclaration: text, awaitPromise: bool, target: Target, ? arguments: [*LocalValue],
/// ? resultOwnership: Ownership, ? serializationOptions: SerializationOptions, ? this: LocalValue,
/// ? userActivation: bool, Extensible }`
///
/// `functionDeclaration` is looked up in the table of a play, and not run. `awaitPromise` and `userActivation` have no
/// effect here; `this` is checked, and has no other effect. Absent, `arguments` is empty, `resultOwnership` is `none`,
/// and `serializationOptions` leave the result whole.
///
/// After WebDriver BiDi, "The script.callFunction Command".
#[derive(Drop)]
pub struct CallFunctionParameters {
    pub function_declaration: String,
    pub await_promise: bool,
    pub target: Target,
    pub arguments: Option<Vec<LocalValue>>,
    pub result_ownership: Option<Ownership>,
    pub serialization_options: Option<SerializationOptions>,
    pub this: Option<LocalValue>,
    pub user_activation: Option<bool>,
    pub ext: Ext,
}

impl CallFunctionParameters {
    // In the order of the rule.
    const NAMES: &'static [&'static str] = &[
        "functionDeclaration",
        "awaitPromise",
        "target",
        "arguments",
        "resultOwnership",
        "serializationOptions",
        "this",
        "userActivation",
    ];

    /// The parameters, with further members. Takes no memory.
    ///
    /// # Errors
    /// - `Clash`: a further member is called `functionDeclaration`, `awaitPromise`, `target`, `arguments`,
    ///   `resultOwnership`, `serializationOptions`, `this` or `userActivation`.
    /// - `TooDeep`: a further member has an `Odd` in it, or more than 60 levels.
    pub fn new(
        function_declaration: String,
        await_promise: bool,
        target: Target,
        arguments: Option<Vec<LocalValue>>,
        result_ownership: Option<Ownership>,
        serialization_options: Option<SerializationOptions>,
        this: Option<LocalValue>,
        user_activation: Option<bool>,
        ext: Members,
    ) -> Result<CallFunctionParameters, MakeFault>
        // The target is well-formed.
        requires target { ⟦<Target as Shape>⟧.shape.well target }
        // The arguments are well-formed, if they are given.
        requires arguments { IfSome arguments (λ vs. ⟦<Vec<LocalValue> as Shape>⟧.shape.well vs) }
        // The serialization options are well-formed, if they are given.
        requires options { IfSome serialization_options (λ o. ⟦<SerializationOptions as Shape>⟧.shape.well o) }
        // `this` is well-formed, if it is given.
        requires this { IfSome this (λ v. ⟦<LocalValue as Shape>⟧.shape.well v) }
        // Memory aside, the first cause that holds is the fault; with none, the value has these parts.
        ensures made { Makes result
            (has_named (names_in (named call_function_parameters)) (members_node ext.entries) ≡ true)
            ⊥
            (¬ MembersAreWhole (members_node ext.entries) 60)
            (λ v. (v.function_declaration ≡ function_declaration) × (v.await_promise ≡ await_promise)
            × (v.target ≡ target) × (v.arguments ≡ arguments) × (v.result_ownership ≡ result_ownership)
            × (v.serialization_options ≡ serialization_options) × (v.this ≡ this) × (v.user_activation ≡ user_activation) × (others_of v.ext ≡ members_node ext.entries)) }
        // The value is well-formed, so its tree fits the type's rule.
        ensures well { IfOk result (λ v. ⟦<CallFunctionParameters as Shape>⟧.shape.well v) }
    {
        let ext = further(ext, Self::NAMES)?;
        Ok(CallFunctionParameters {
            function_declaration,
            await_promise,
            target,
            arguments,
            result_ownership,
            serialization_options,
            this,
            user_activation,
            ext,
        })
    }
}

type CallParts = Required<
    String,
    Required<
        bool,
        Required<
            Target,
            Optional<
                Vec<LocalValue>,
                Optional<
                    Ownership,
                    Optional<SerializationOptions, Optional<LocalValue, Optional<bool, Ext>>>,
                >,
            >,
        >,
    >,
>;

impl Shape for CallFunctionParameters {
    ghost shape = { map_shape (named call_function_parameters) ⟦<CallParts as Fields>⟧.table []
        (λ v. (v.function_declaration, (v.await_promise, (v.target, (v.arguments, (v.result_ownership, (v.serialization_options, (v.this, (v.user_activation, v.ext))))))))) refl refl };

    fn from_tree<S: Parsed>(alloc: Global, tree: &S) -> Result<CallFunctionParameters, ShapeFault> {
        let Required(
            function_declaration,
            Required(
                await_promise,
                Required(
                    target,
                    Optional(
                        arguments,
                        Optional(
                            result_ownership,
                            Optional(
                                serialization_options,
                                Optional(this, Optional(user_activation, ext)),
                            ),
                        ),
                    ),
                ),
            ),
        ) = read_fields(alloc, tree, Self::NAMES, &[])?;
        Ok(CallFunctionParameters {
            function_declaration,
            await_promise,
            target,
            arguments,
            result_ownership,
            serialization_options,
            this,
            user_activation,
            ext,
        })
    }

    fn outline<'a>(&'a self, alloc: Global) -> Result<Outline<'a>, AllocError> {
        let members = One(
            &self.function_declaration,
            One(
                &self.await_promise,
                One(
                    &self.target,
                    Maybe(
                        &self.arguments,
                        Maybe(
                            &self.result_ownership,
                            Maybe(
                                &self.serialization_options,
                                Maybe(&self.this, Maybe(&self.user_activation, Rest(&self.ext))),
                            ),
                        ),
                    ),
                ),
            ),
        );
        outline_fields(alloc, &members, Self::NAMES, &[])
    }
}

/// Parameters of `script.disown`.
///
/// `{ handles: [*text], target: Target, Extensible }`
///
/// A handle that the realm has not is passed over.
///
/// After WebDriver BiDi, "The script.disown Command".
#[derive(Drop)]
pub struct DisownParameters {
    pub handles: Vec<String>,
    pub target: Target,
    pub ext: Ext,
}

impl DisownParameters {
    // In the order of the rule.
    const NAMES: &'static [&'static str] = &["handles", "target"];

    /// The parameters, with further members. Takes no memory.
    ///
    /// # Errors
    /// - `Clash`: a further member is called `handles` or `target`.
    /// - `TooDeep`: a further member has an `Odd` in it, or more than 60 levels.
    #[tactic(auto, using(crate::proofs::PartLemmas::texts_are_well))]
    pub fn new(
        handles: Vec<String>,
        target: Target,
        ext: Members,
    ) -> Result<DisownParameters, MakeFault>
        // The target is well-formed.
        requires target { ⟦<Target as Shape>⟧.shape.well target }
        // Memory aside, the first cause that holds is the fault; with none, the value has these parts.
        ensures made { Makes result
            (has_named (names_in (named disown_parameters)) (members_node ext.entries) ≡ true)
            ⊥
            (¬ MembersAreWhole (members_node ext.entries) 60)
            (λ v. (v.handles ≡ handles) × (v.target ≡ target) × (others_of v.ext ≡ members_node ext.entries)) }
        // The value is well-formed, so its tree fits the type's rule.
        ensures well { IfOk result (λ v. ⟦<DisownParameters as Shape>⟧.shape.well v) }
    {
        let ext = further(ext, Self::NAMES)?;
        Ok(DisownParameters {
            handles,
            target,
            ext,
        })
    }
}

type DisownParts = Required<Vec<String>, Required<Target, Ext>>;

impl Shape for DisownParameters {
    ghost shape = { map_shape (named disown_parameters) ⟦<DisownParts as Fields>⟧.table [] (λ v. (v.handles, (v.target, v.ext))) refl refl };

    fn from_tree<S: Parsed>(alloc: Global, tree: &S) -> Result<DisownParameters, ShapeFault> {
        let Required(handles, Required(target, ext)) = read_fields(alloc, tree, Self::NAMES, &[])?;
        Ok(DisownParameters {
            handles,
            target,
            ext,
        })
    }

    fn outline<'a>(&'a self, alloc: Global) -> Result<Outline<'a>, AllocError> {
        let members = One(&self.handles, One(&self.target, Rest(&self.ext)));
        outline_fields(alloc, &members, Self::NAMES, &[])
    }
}
