//! The browser module: user contexts.
ghost use Rattle.std.specs.Prelude.{◌≡◌, IfOk, true, refl, []};
ghost use Rattle.bidi_shape.specs.Name.{user_context_info, get_user_contexts_result, remove_user_context_parameters};
ghost use Rattle.bidi_shape.specs.Table.{map_shape};
ghost use Rattle.bidi_shape.specs.Made.{Makes, named, MembersAreWhole, members_node, has_named, names_in, others_of};

use bidi_shape::{
    Ext, Fields, MakeFault, One, OneOrMore, Parsed, Required, Rest, Shape, ShapeFault, further,
    outline_fields, read_fields,
};
use bidi_tree::{Members, Outline};
use std::alloc::{AllocError, Global};

/// A user context: what parts the data of one user from those of another.
///
/// `{ userContext: text, Extensible }`
///
/// After WebDriver BiDi, "The browser.UserContextInfo Type".
#[derive(Drop)]
pub struct UserContextInfo {
    pub user_context: String,
    pub ext: Ext,
}

impl UserContextInfo {
    // In the order of the rule.
    const NAMES: &'static [&'static str] = &["userContext"];

    /// The information, with further members. Takes no memory.
    ///
    /// # Errors
    /// - `Clash`: a further member is called `userContext`.
    /// - `TooDeep`: a further member has an `Odd` in it, or more than 60 levels.
    pub fn new(user_context: String, ext: Members) -> Result<UserContextInfo, MakeFault>
        // Memory aside, the first cause that holds is the fault; with none, the value has these parts.
        ensures made { Makes result
            (has_named (names_in (named user_context_info)) (members_node ext.entries) ≡ true)
            ⊥
            (¬ MembersAreWhole (members_node ext.entries) 60)
            (λ v. (v.user_context ≡ user_context) × (others_of v.ext ≡ members_node ext.entries)) }
        // The value is well-formed, so its tree fits the type's rule.
        ensures well { IfOk result (λ v. ⟦<UserContextInfo as Shape>⟧.shape.well v) }
    {
        let ext = further(ext, Self::NAMES)?;
        Ok(UserContextInfo { user_context, ext })
    }
}

impl Shape for UserContextInfo {
    ghost shape = { map_shape (named user_context_info) ⟦<Required<String, Ext> as Fields>⟧.table [] (λ v. (v.user_context, v.ext)) refl refl };

    fn from_tree<S: Parsed>(alloc: Global, tree: &S) -> Result<UserContextInfo, ShapeFault> {
        let Required(user_context, ext) = read_fields(alloc, tree, Self::NAMES, &[])?;
        Ok(UserContextInfo { user_context, ext })
    }

    fn outline<'a>(&'a self, alloc: Global) -> Result<Outline<'a>, AllocError> {
        let members = One(&self.user_context, Rest(&self.ext));
        outline_fields(alloc, &members, Self::NAMES, &[])
    }
}

/// The result of `browser.getUserContexts`.
///
/// `{ userContexts: [+UserContextInfo], Extensible }`
///
/// After WebDriver BiDi, "The browser.getUserContexts Command".
#[derive(Drop)]
pub struct GetUserContextsResult {
    pub user_contexts: OneOrMore<UserContextInfo>,
    pub ext: Ext,
}

impl GetUserContextsResult {
    // In the order of the rule.
    const NAMES: &'static [&'static str] = &["userContexts"];

    /// The result, with further members. Takes no memory.
    ///
    /// # Errors
    /// - `Clash`: a further member is called `userContexts`.
    /// - `TooDeep`: a further member has an `Odd` in it, or more than 60 levels.
    pub fn new(
        user_contexts: OneOrMore<UserContextInfo>,
        ext: Members,
    ) -> Result<GetUserContextsResult, MakeFault>
        // The user contexts are well-formed: there is at least one.
        requires user_contexts { ⟦<OneOrMore<UserContextInfo> as Shape>⟧.shape.well user_contexts }
        // Memory aside, the first cause that holds is the fault; with none, the value has these parts.
        ensures made { Makes result
            (has_named (names_in (named get_user_contexts_result)) (members_node ext.entries) ≡ true)
            ⊥
            (¬ MembersAreWhole (members_node ext.entries) 60)
            (λ v. (v.user_contexts ≡ user_contexts) × (others_of v.ext ≡ members_node ext.entries)) }
        // The value is well-formed, so its tree fits the type's rule.
        ensures well { IfOk result (λ v. ⟦<GetUserContextsResult as Shape>⟧.shape.well v) }
    {
        let ext = further(ext, Self::NAMES)?;
        Ok(GetUserContextsResult { user_contexts, ext })
    }
}

impl Shape for GetUserContextsResult {
    ghost shape = { map_shape (named get_user_contexts_result) ⟦<Required<OneOrMore<UserContextInfo>, Ext> as Fields>⟧.table []
        (λ v. (v.user_contexts, v.ext)) refl refl };

    fn from_tree<S: Parsed>(alloc: Global, tree: &S) -> Result<GetUserContextsResult, ShapeFault> {
        let Required(user_contexts, ext) = read_fields(alloc, tree, Self::NAMES, &[])?;
        Ok(GetUserContextsResult { user_contexts, ext })
    }

    fn outline<'a>(&'a self, alloc: Global) -> Result<Outline<'a>, AllocError> {
        let members = One(&self.user_contexts, Rest(&self.ext));
        outline_fields(alloc, &members, Self::NAMES, &[])
    }
}

/// Parameters of `browser.removeUserContext`.
///
/// `{ userContext: text, Extensible }`
///
/// After WebDriver BiDi, "The browser.removeUserContext Command".
#[derive(Drop)]
pub struct RemoveUserContextParameters {
    pub user_context: String,
    pub ext: Ext,
}

impl RemoveUserContextParameters {
    // In the order of the rule.
    const NAMES: &'static [&'static str] = &["userContext"];

    /// The parameters, with further members. Takes no memory.
    ///
    /// # Errors
    /// - `Clash`: a further member is called `userContext`.
    /// - `TooDeep`: a further member has an `Odd` in it, or more than 60 levels.
    pub fn new(user_context: String, ext: Members) -> Result<RemoveUserContextParameters, MakeFault>
        // Memory aside, the first cause that holds is the fault; with none, the value has these parts.
        ensures made { Makes result
            (has_named (names_in (named remove_user_context_parameters)) (members_node ext.entries) ≡ true)
            ⊥
            (¬ MembersAreWhole (members_node ext.entries) 60)
            (λ v. (v.user_context ≡ user_context) × (others_of v.ext ≡ members_node ext.entries)) }
        // The value is well-formed, so its tree fits the type's rule.
        ensures well { IfOk result (λ v. ⟦<RemoveUserContextParameters as Shape>⟧.shape.well v) }
    {
        let ext = further(ext, Self::NAMES)?;
        Ok(RemoveUserContextParameters { user_context, ext })
    }
}

impl Shape for RemoveUserContextParameters {
    ghost shape = { map_shape (named remove_user_context_parameters) ⟦<Required<String, Ext> as Fields>⟧.table [] (λ v. (v.user_context, v.ext)) refl refl };

    fn from_tree<S: Parsed>(
        alloc: Global,
        tree: &S,
    ) -> Result<RemoveUserContextParameters, ShapeFault> {
        let Required(user_context, ext) = read_fields(alloc, tree, Self::NAMES, &[])?;
        Ok(RemoveUserContextParameters { user_context, ext })
    }

    fn outline<'a>(&'a self, alloc: Global) -> Result<Outline<'a>, AllocError> {
        let members = One(&self.user_context, Rest(&self.ext));
        outline_fields(alloc, &members, Self::NAMES, &[])
    }
}
