//! Whether a remote end is ready.
ghost use Rattle.std.specs.Prelude.{◌≡◌, IfOk, true, refl, []};
ghost use Rattle.bidi_shape.specs.Name.{status_result};
ghost use Rattle.bidi_shape.specs.Table.{map_shape};
ghost use Rattle.bidi_shape.specs.Made.{Makes, named, MembersAreWhole, members_node, has_named, names_in, others_of};

use bidi_shape::{
    Ext, Fields, MakeFault, One, Parsed, Required, Rest, Shape, ShapeFault, further,
    outline_fields, read_fields,
};
use bidi_tree::{Members, Outline};
use std::alloc::{AllocError, Global};

/// Whether a remote end can make a session, and a word about it.
///
/// `{ ready: bool, message: text, Extensible }`
///
/// After WebDriver BiDi, "The session.status Command".
#[derive(Drop)]
pub struct StatusResult {
    pub ready: bool,
    pub message: String,
    pub ext: Ext,
}

impl StatusResult {
    // In the order of the rule.
    const NAMES: &'static [&'static str] = &["ready", "message"];

    /// The result, with further members. Takes no memory.
    ///
    /// # Errors
    /// - `Clash`: a further member is called `ready` or `message`.
    /// - `TooDeep`: a further member has an `Odd` in it, or more than 60 levels.
    pub fn new(ready: bool, message: String, ext: Members) -> Result<StatusResult, MakeFault>
        // Memory aside, the first cause that holds is the fault; with none, the value has these parts.
        ensures made { Makes result
            (has_named (names_in (named status_result)) (members_node ext.entries) ≡ true)
            ⊥
            (¬ MembersAreWhole (members_node ext.entries) 60)
            (λ v. (v.ready ≡ ready) × (v.message ≡ message) × (others_of v.ext ≡ members_node ext.entries)) }
        // The value is well-formed, so its tree fits the type's rule.
        ensures well { IfOk result (λ v. ⟦<StatusResult as Shape>⟧.shape.well v) }
    {
        let ext = further(ext, Self::NAMES)?;
        Ok(StatusResult {
            ready,
            message,
            ext,
        })
    }
}

impl Shape for StatusResult {
    ghost shape = { map_shape (named status_result) ⟦<Required<bool, Required<String, Ext>> as Fields>⟧.table [] (λ v. (v.ready, (v.message, v.ext))) refl refl };

    fn from_tree<S: Parsed>(alloc: Global, tree: &S) -> Result<StatusResult, ShapeFault> {
        let Required(ready, Required(message, ext)) = read_fields(alloc, tree, Self::NAMES, &[])?;
        Ok(StatusResult {
            ready,
            message,
            ext,
        })
    }

    fn outline<'a>(&'a self, alloc: Global) -> Result<Outline<'a>, AllocError> {
        let members = One(&self.ready, One(&self.message, Rest(&self.ext)));
        outline_fields(alloc, &members, Self::NAMES, &[])
    }
}
