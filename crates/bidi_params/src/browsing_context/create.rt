//! Making, activating and closing browsing contexts.
ghost use Rattle.std.specs.Prelude.{◌≡◌, IfOk, refl, true, []};
ghost use Rattle.bidi_shape.specs.Table.{map_shape};
ghost use Rattle.bidi_shape.specs.Made.{Makes, named, MembersAreWhole, members_node, has_named, names_in, others_of};
ghost use Rattle.bidi_shape.specs.Name.{create_parameters, create_result, activate_parameters, close_parameters};

use bidi_shape::{
    Ext, Fields, MakeFault, Maybe, Named, One, Optional, Parsed, Required, Rest, Shape, ShapeFault,
    further, outline_fields, read_fields,
};
use bidi_tree::{Members, Outline};
use std::alloc::{AllocError, Global};

/// What a new top-level context is opened as.
///
/// `"tab" / "window"`
///
/// After WebDriver BiDi, "The browsingContext.create Command".
#[derive(Clone, Copy, Debug, PartialEq, Eq)]
pub enum ContextType {
    /// A tab, in a window that is there.
    Tab,
    /// A window of its own.
    Window,
}

impl Named for ContextType {
    ghost use Rattle.bidi_params.specs.Words.{context_type_words};

    ghost words = { context_type_words };

    fn all() -> &'static [ContextType] {
        &[ContextType::Tab, ContextType::Window]
    }

    fn name(&self) -> &'static str {
        match self {
            ContextType::Tab => "tab",
            ContextType::Window => "window",
        }
    }
}

/// Parameters of `browsingContext.create`.
///
/// `{ type: "tab" / "window", ? referenceContext: text, ? background: bool, ? userContext: text, Extensible }`
///
/// `kind` is the member `type`. A tab opens in the window of `referenceContext` or, where this is absent, of the oldest
/// top-level context. `background` has no effect here. Absent, `userContext` is the default one.
///
/// After WebDriver BiDi, "The browsingContext.create Command".
#[derive(Drop)]
pub struct CreateParameters {
    pub kind: ContextType,
    pub reference_context: Option<String>,
    pub background: Option<bool>,
    pub user_context: Option<String>,
    pub ext: Ext,
}

impl CreateParameters {
    // In the order of the rule.
    const NAMES: &'static [&'static str] = &[
        "type",
        "referenceContext",
        "background",
        "userContext",
    ];

    /// The parameters, with further members. Takes no memory.
    ///
    /// # Errors
    /// - `Clash`: a further member is called `type`, `referenceContext`, `background` or `userContext`.
    /// - `TooDeep`: a further member has an `Odd` in it, or more than 60 levels.
    pub fn new(
        kind: ContextType,
        reference_context: Option<String>,
        background: Option<bool>,
        user_context: Option<String>,
        ext: Members,
    ) -> Result<CreateParameters, MakeFault>
        // Memory aside, the first cause that holds is the fault; with none, the value has these parts.
        ensures made { Makes result
            (has_named (names_in (named create_parameters)) (members_node ext.entries) ≡ true)
            ⊥
            (¬ MembersAreWhole (members_node ext.entries) 60)
            (λ v. (v.kind ≡ kind) × (v.reference_context ≡ reference_context)
            × (v.background ≡ background) × (v.user_context ≡ user_context) × (others_of v.ext ≡ members_node ext.entries)) }
        // The value is well-formed, so its tree fits the type's rule.
        ensures well { IfOk result (λ v. ⟦<CreateParameters as Shape>⟧.shape.well v) }
    {
        let ext = further(ext, Self::NAMES)?;
        Ok(CreateParameters {
            kind,
            reference_context,
            background,
            user_context,
            ext,
        })
    }
}

impl Shape for CreateParameters {
    ghost shape = { map_shape (named create_parameters) ⟦<Required<ContextType, Optional<String, Optional<bool, Optional<String, Ext>>>> as Fields>⟧.table []
        (λ v. (v.kind, (v.reference_context, (v.background, (v.user_context, v.ext))))) refl refl };

    fn from_tree<S: Parsed>(alloc: Global, tree: &S) -> Result<CreateParameters, ShapeFault> {
        let Required(
            kind,
            Optional(reference_context, Optional(background, Optional(user_context, ext))),
        ) = read_fields(alloc, tree, Self::NAMES, &[])?;
        Ok(CreateParameters {
            kind,
            reference_context,
            background,
            user_context,
            ext,
        })
    }

    fn outline<'a>(&'a self, alloc: Global) -> Result<Outline<'a>, AllocError> {
        let members = One(
            &self.kind,
            Maybe(
                &self.reference_context,
                Maybe(&self.background, Maybe(&self.user_context, Rest(&self.ext))),
            ),
        );
        outline_fields(alloc, &members, Self::NAMES, &[])
    }
}

/// The result of `browsingContext.create`: the new context.
///
/// `{ context: text, Extensible }`
///
/// After WebDriver BiDi, "The browsingContext.create Command".
#[derive(Drop)]
pub struct CreateResult {
    pub context: String,
    pub ext: Ext,
}

impl CreateResult {
    // In the order of the rule.
    const NAMES: &'static [&'static str] = &["context"];

    /// The result, with further members. Takes no memory.
    ///
    /// # Errors
    /// - `Clash`: a further member is called `context`.
    /// - `TooDeep`: a further member has an `Odd` in it, or more than 60 levels.
    pub fn new(context: String, ext: Members) -> Result<CreateResult, MakeFault>
        // Memory aside, the first cause that holds is the fault; with none, the value has these parts.
        ensures made { Makes result
            (has_named (names_in (named create_result)) (members_node ext.entries) ≡ true)
            ⊥
            (¬ MembersAreWhole (members_node ext.entries) 60)
            (λ v. (v.context ≡ context) × (others_of v.ext ≡ members_node ext.entries)) }
        // The value is well-formed, so its tree fits the type's rule.
        ensures well { IfOk result (λ v. ⟦<CreateResult as Shape>⟧.shape.well v) }
    {
        let ext = further(ext, Self::NAMES)?;
        Ok(CreateResult { context, ext })
    }
}

impl Shape for CreateResult {
    ghost shape = { map_shape (named create_result) ⟦<Required<String, Ext> as Fields>⟧.table [] (λ v. (v.context, v.ext)) refl refl };

    fn from_tree<S: Parsed>(alloc: Global, tree: &S) -> Result<CreateResult, ShapeFault> {
        let Required(context, ext) = read_fields(alloc, tree, Self::NAMES, &[])?;
        Ok(CreateResult { context, ext })
    }

    fn outline<'a>(&'a self, alloc: Global) -> Result<Outline<'a>, AllocError> {
        let members = One(&self.context, Rest(&self.ext));
        outline_fields(alloc, &members, Self::NAMES, &[])
    }
}

/// Parameters of `browsingContext.activate`.
///
/// `{ context: text, Extensible }`
///
/// After WebDriver BiDi, "The browsingContext.activate Command".
#[derive(Drop)]
pub struct ActivateParameters {
    pub context: String,
    pub ext: Ext,
}

impl ActivateParameters {
    // In the order of the rule.
    const NAMES: &'static [&'static str] = &["context"];

    /// The parameters, with further members. Takes no memory.
    ///
    /// # Errors
    /// - `Clash`: a further member is called `context`.
    /// - `TooDeep`: a further member has an `Odd` in it, or more than 60 levels.
    pub fn new(context: String, ext: Members) -> Result<ActivateParameters, MakeFault>
        // Memory aside, the first cause that holds is the fault; with none, the value has these parts.
        ensures made { Makes result
            (has_named (names_in (named activate_parameters)) (members_node ext.entries) ≡ true)
            ⊥
            (¬ MembersAreWhole (members_node ext.entries) 60)
            (λ v. (v.context ≡ context) × (others_of v.ext ≡ members_node ext.entries)) }
        // The value is well-formed, so its tree fits the type's rule.
        ensures well { IfOk result (λ v. ⟦<ActivateParameters as Shape>⟧.shape.well v) }
    {
        let ext = further(ext, Self::NAMES)?;
        Ok(ActivateParameters { context, ext })
    }
}

impl Shape for ActivateParameters {
    ghost shape = { map_shape (named activate_parameters) ⟦<Required<String, Ext> as Fields>⟧.table [] (λ v. (v.context, v.ext)) refl refl };

    fn from_tree<S: Parsed>(alloc: Global, tree: &S) -> Result<ActivateParameters, ShapeFault> {
        let Required(context, ext) = read_fields(alloc, tree, Self::NAMES, &[])?;
        Ok(ActivateParameters { context, ext })
    }

    fn outline<'a>(&'a self, alloc: Global) -> Result<Outline<'a>, AllocError> {
        let members = One(&self.context, Rest(&self.ext));
        outline_fields(alloc, &members, Self::NAMES, &[])
    }
}

/// Parameters of `browsingContext.close`.
///
/// `{ context: text, ? promptUnload: bool, Extensible }`
///
/// `promptUnload` has no effect here, since no page asks.
///
/// After WebDriver BiDi, "The browsingContext.close Command".
#[derive(Drop)]
pub struct CloseParameters {
    pub context: String,
    pub prompt_unload: Option<bool>,
    pub ext: Ext,
}

impl CloseParameters {
    // In the order of the rule.
    const NAMES: &'static [&'static str] = &["context", "promptUnload"];

    /// The parameters, with further members. Takes no memory.
    ///
    /// # Errors
    /// - `Clash`: a further member is called `context` or `promptUnload`.
    /// - `TooDeep`: a further member has an `Odd` in it, or more than 60 levels.
    pub fn new(
        context: String,
        prompt_unload: Option<bool>,
        ext: Members,
    ) -> Result<CloseParameters, MakeFault>
        // Memory aside, the first cause that holds is the fault; with none, the value has these parts.
        ensures made { Makes result
            (has_named (names_in (named close_parameters)) (members_node ext.entries) ≡ true)
            ⊥
            (¬ MembersAreWhole (members_node ext.entries) 60)
            (λ v. (v.context ≡ context) × (v.prompt_unload ≡ prompt_unload) × (others_of v.ext ≡ members_node ext.entries)) }
        // The value is well-formed, so its tree fits the type's rule.
        ensures well { IfOk result (λ v. ⟦<CloseParameters as Shape>⟧.shape.well v) }
    {
        let ext = further(ext, Self::NAMES)?;
        Ok(CloseParameters {
            context,
            prompt_unload,
            ext,
        })
    }
}

type CloseParts = Required<String, Optional<bool, Ext>>;

impl Shape for CloseParameters {
    ghost shape = { map_shape (named close_parameters) ⟦<CloseParts as Fields>⟧.table [] (λ v. (v.context, (v.prompt_unload, v.ext))) refl refl };

    fn from_tree<S: Parsed>(alloc: Global, tree: &S) -> Result<CloseParameters, ShapeFault> {
        let parts = read_fields(alloc, tree, Self::NAMES, &[])?;
        let Required(context, Optional(prompt_unload, ext)) = parts;
        Ok(CloseParameters {
            context,
            prompt_unload,
            ext,
        })
    }

    fn outline<'a>(&'a self, alloc: Global) -> Result<Outline<'a>, AllocError> {
        let members = One(&self.context, Maybe(&self.prompt_unload, Rest(&self.ext)));
        outline_fields(alloc, &members, Self::NAMES, &[])
    }
}
