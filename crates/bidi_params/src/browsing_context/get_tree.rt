//! Asking for browsing contexts.
ghost use Rattle.std.specs.Prelude.{◌≡◌, IfOk, refl, true, []};
ghost use Rattle.bidi_shape.specs.Table.{map_shape};
ghost use Rattle.bidi_shape.specs.Made.{Makes, named, MembersAreWhole, members_node, has_named, names_in, others_of};
ghost use Rattle.bidi_shape.specs.Name.{get_tree_parameters, get_tree_result};

use crate::browsing_context::info::Info;
use bidi_shape::{
    Ext, Fields, MakeFault, Maybe, One, Optional, Parsed, Required, Rest, Shape, ShapeFault,
    further, outline_fields, read_fields,
};
use bidi_tree::{JsUint, Members, Outline};
use std::alloc::{AllocError, Global};

/// Parameters of `browsingContext.getTree`.
///
/// `{ ? maxDepth: js-uint, ? root: text, Extensible }`
///
/// Absent, `maxDepth` leaves the depth open, and `root` stands for every top-level context.
///
/// After WebDriver BiDi, "The browsingContext.getTree Command".
#[derive(Drop)]
pub struct GetTreeParameters {
    pub max_depth: Option<JsUint>,
    pub root: Option<String>,
    pub ext: Ext,
}

impl GetTreeParameters {
    // In the order of the rule.
    const NAMES: &'static [&'static str] = &["maxDepth", "root"];

    /// The parameters, with further members. Takes no memory.
    ///
    /// # Errors
    /// - `Clash`: a further member is called `maxDepth` or `root`.
    /// - `TooDeep`: a further member has an `Odd` in it, or more than 60 levels.
    pub fn new(
        max_depth: Option<JsUint>,
        root: Option<String>,
        ext: Members,
    ) -> Result<GetTreeParameters, MakeFault>
        // Memory aside, the first cause that holds is the fault; with none, the value has these parts.
        ensures made { Makes result
            (has_named (names_in (named get_tree_parameters)) (members_node ext.entries) ≡ true)
            ⊥
            (¬ MembersAreWhole (members_node ext.entries) 60)
            (λ v. (v.max_depth ≡ max_depth) × (v.root ≡ root) × (others_of v.ext ≡ members_node ext.entries)) }
        // The value is well-formed, so its tree fits the type's rule.
        ensures well { IfOk result (λ v. ⟦<GetTreeParameters as Shape>⟧.shape.well v) }
    {
        let ext = further(ext, Self::NAMES)?;
        Ok(GetTreeParameters {
            max_depth,
            root,
            ext,
        })
    }
}

type GetTreeParts = Optional<JsUint, Optional<String, Ext>>;

impl Shape for GetTreeParameters {
    ghost shape = { map_shape (named get_tree_parameters) ⟦<GetTreeParts as Fields>⟧.table [] (λ v. (v.max_depth, (v.root, v.ext))) refl refl };

    fn from_tree<S: Parsed>(alloc: Global, tree: &S) -> Result<GetTreeParameters, ShapeFault> {
        let Optional(max_depth, Optional(root, ext)) = read_fields(alloc, tree, Self::NAMES, &[])?;
        Ok(GetTreeParameters {
            max_depth,
            root,
            ext,
        })
    }

    fn outline<'a>(&'a self, alloc: Global) -> Result<Outline<'a>, AllocError> {
        let members = Maybe(&self.max_depth, Maybe(&self.root, Rest(&self.ext)));
        outline_fields(alloc, &members, Self::NAMES, &[])
    }
}

/// Result of `browsingContext.getTree`.
///
/// `{ contexts: [*Info], Extensible }`
///
/// After WebDriver BiDi, "The browsingContext.getTree Command".
#[derive(Drop)]
pub struct GetTreeResult {
    pub contexts: Vec<Info>,
    pub ext: Ext,
}

impl GetTreeResult {
    // In the order of the rule.
    const NAMES: &'static [&'static str] = &["contexts"];

    /// The result, with further members. Takes no memory.
    ///
    /// # Errors
    /// - `Clash`: a further member is called `contexts`.
    /// - `TooDeep`: a further member has an `Odd` in it, or more than 60 levels.
    pub fn new(contexts: Vec<Info>, ext: Members) -> Result<GetTreeResult, MakeFault>
        // Each Info is well-formed.
        requires contexts { ⟦<Vec<Info> as Shape>⟧.shape.well contexts }
        // Memory aside, the first cause that holds is the fault; with none, the value has these parts.
        ensures made { Makes result
            (has_named (names_in (named get_tree_result)) (members_node ext.entries) ≡ true)
            ⊥
            (¬ MembersAreWhole (members_node ext.entries) 60)
            (λ v. (v.contexts ≡ contexts) × (others_of v.ext ≡ members_node ext.entries)) }
        // The value is well-formed, so its tree fits the type's rule.
        ensures well { IfOk result (λ v. ⟦<GetTreeResult as Shape>⟧.shape.well v) }
    {
        let ext = further(ext, Self::NAMES)?;
        Ok(GetTreeResult { contexts, ext })
    }
}

impl Shape for GetTreeResult {
    ghost shape = { map_shape (named get_tree_result) ⟦<Required<Vec<Info>, Ext> as Fields>⟧.table [] (λ v. (v.contexts, v.ext)) refl refl };

    fn from_tree<S: Parsed>(alloc: Global, tree: &S) -> Result<GetTreeResult, ShapeFault> {
        let Required(contexts, ext) = read_fields(alloc, tree, Self::NAMES, &[])?;
        Ok(GetTreeResult { contexts, ext })
    }

    fn outline<'a>(&'a self, alloc: Global) -> Result<Outline<'a>, AllocError> {
        let members = One(&self.contexts, Rest(&self.ext));
        outline_fields(alloc, &members, Self::NAMES, &[])
    }
}
