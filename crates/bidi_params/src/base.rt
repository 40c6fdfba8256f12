//! Maps with no member that has a meaning.
ghost use Rattle.std.specs.Prelude.{◌≡◌, IfOk, true, refl, []};
ghost use Rattle.bidi_shape.specs.Name.{empty_params, empty_result};
ghost use Rattle.bidi_shape.specs.Table.{map_shape};
ghost use Rattle.bidi_shape.specs.Made.{Makes, named, MembersAreWhole, members_node, has_named, names_in, others_of};

use bidi_shape::{Ext, Fields, MakeFault, Parsed, Shape, ShapeFault, further, read_fields};
use bidi_tree::{Members, Outline, outline_members_of};
use std::alloc::{AllocError, Global};

/// Params with no member that has a meaning.
///
/// `{ Extensible }`
///
/// After WebDriver BiDi, "Protocol".
#[derive(Drop)]
pub struct EmptyParams {
    pub ext: Ext,
}

impl EmptyParams {
    /// The parameters, with further members. Takes no memory.
    ///
    /// # Errors
    /// `TooDeep`: a further member has an `Odd` in it, or more than 60 levels.
    pub fn new(ext: Members) -> Result<EmptyParams, MakeFault>
        // Memory aside, the first cause that holds is the fault; with none, the value has these parts.
        ensures made { Makes result
            (has_named (names_in (named empty_params)) (members_node ext.entries) ≡ true)
            ⊥
            (¬ MembersAreWhole (members_node ext.entries) 60)
            (λ v. others_of v.ext ≡ members_node ext.entries) }
        // The value is well-formed, so its tree fits the type's rule.
        ensures well { IfOk result (λ v. ⟦<EmptyParams as Shape>⟧.shape.well v) }
    {
        let ext = further(ext, &[])?;
        Ok(EmptyParams { ext })
    }
}

impl Shape for EmptyParams {
    ghost shape = { map_shape (named empty_params) ⟦<Ext as Fields>⟧.table [] (λ v. v.ext) refl refl };

    fn from_tree<S: Parsed>(alloc: Global, tree: &S) -> Result<EmptyParams, ShapeFault> {
        let ext = read_fields(alloc, tree, &[], &[])?;
        Ok(EmptyParams { ext })
    }

    fn outline<'a>(&'a self, alloc: Global) -> Result<Outline<'a>, AllocError> {
        Ok(Outline::Map(outline_members_of(alloc, &self.ext.members, 0)?))
    }
}

/// A result with no member that has a meaning.
///
/// `{ Extensible }`
///
/// After WebDriver BiDi, "Protocol".
#[derive(Drop)]
pub struct EmptyResult {
    pub ext: Ext,
}

impl EmptyResult {
    /// The result, with further members. Takes no memory.
    ///
    /// # Errors
    /// `TooDeep`: a further member has an `Odd` in it, or more than 60 levels.
    pub fn new(ext: Members) -> Result<EmptyResult, MakeFault>
        // Memory aside, the first cause that holds is the fault; with none, the value has these parts.
        ensures made { Makes result
            (has_named (names_in (named empty_result)) (members_node ext.entries) ≡ true)
            ⊥
            (¬ MembersAreWhole (members_node ext.entries) 60)
            (λ v. others_of v.ext ≡ members_node ext.entries) }
        // The value is well-formed, so its tree fits the type's rule.
        ensures well { IfOk result (λ v. ⟦<EmptyResult as Shape>⟧.shape.well v) }
    {
        let ext = further(ext, &[])?;
        Ok(EmptyResult { ext })
    }
}

impl Shape for EmptyResult {
    ghost shape = { map_shape (named empty_result) ⟦<Ext as Fields>⟧.table [] (λ v. v.ext) refl refl };

    fn from_tree<S: Parsed>(alloc: Global, tree: &S) -> Result<EmptyResult, ShapeFault> {
        let ext = read_fields(alloc, tree, &[], &[])?;
        Ok(EmptyResult { ext })
    }

    fn outline<'a>(&'a self, alloc: Global) -> Result<Outline<'a>, AllocError> {
        Ok(Outline::Map(outline_members_of(alloc, &self.ext.members, 0)?))
    }
}
