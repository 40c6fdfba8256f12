//! How much of a result is told.
ghost use Rattle.std.specs.Prelude.{◌≡◌, IfOk, refl, true, []};
ghost use Rattle.bidi_shape.specs.Table.{map_shape};
ghost use Rattle.bidi_shape.specs.Made.{Makes, named, MembersAreWhole, members_node, has_named, names_in, others_of};
ghost use Rattle.bidi_shape.specs.Name.{serialization_options};

use bidi_shape::{
    Ext, Fields, MakeFault, Maybe, Optional, Parsed, Rest, Shape, ShapeFault, further,
    outline_fields, read_fields,
};
use bidi_tree::{JsUint, Members, Outline};
use std::alloc::{AllocError, Global};

/// How much of a result is told.
///
/// `{ ? maxObjectDepth: js-uint / null, Extensible }`
///
/// The result is [cut](bidi_values::RemoteValue::cut) at that depth. Absent or null, `maxObjectDepth` leaves it whole. The
/// standard's other members, `maxDomDepth` and `includeShadowTree`, are further members, without effect: no node stands
/// in a result here.
///
/// After WebDriver BiDi, "The script.SerializationOptions Type".
#[derive(Drop)]
pub struct SerializationOptions {
    pub max_object_depth: Option<Option<JsUint>>,
    pub ext: Ext,
}

impl SerializationOptions {
    // In the order of the rule.
    const NAMES: &'static [&'static str] = &["maxObjectDepth"];

    /// The options, with further members. Takes no memory.
    ///
    /// # Errors
    /// - `Clash`: a further member is called `maxObjectDepth`.
    /// - `TooDeep`: a further member has an `Odd` in it, or more than 60 levels.
    pub fn new(
        max_object_depth: Option<Option<JsUint>>,
        ext: Members,
    ) -> Result<SerializationOptions, MakeFault>
        // Memory aside, the first cause that holds is the fault; with none, the value has these parts.
        ensures made { Makes result
            (has_named (names_in (named serialization_options)) (members_node ext.entries) ≡ true)
            ⊥
            (¬ MembersAreWhole (members_node ext.entries) 60)
            (λ v. (v.max_object_depth ≡ max_object_depth) × (others_of v.ext ≡ members_node ext.entries)) }
        // The value is well-formed, so its tree fits the type's rule.
        ensures well { IfOk result (λ v. ⟦<SerializationOptions as Shape>⟧.shape.well v) }
    {
        let ext = further(ext, Self::NAMES)?;
        Ok(SerializationOptions {
            max_object_depth,
            ext,
        })
    }
}

type OptionsParts = Optional<Option<JsUint>, Ext>;

impl Shape for SerializationOptions {
    ghost shape = { map_shape (named serialization_options) ⟦<OptionsParts as Fields>⟧.table [] (λ v. (v.max_object_depth, v.ext)) refl refl };

    fn from_tree<S: Parsed>(alloc: Global, tree: &S) -> Result<SerializationOptions, ShapeFault> {
        let Optional(max_object_depth, ext) = read_fields(alloc, tree, Self::NAMES, &[])?;
        Ok(SerializationOptions {
            max_object_depth,
            ext,
        })
    }

    fn outline<'a>(&'a self, alloc: Global) -> Result<Outline<'a>, AllocError> {
        let members = Maybe(&self.max_object_depth, Rest(&self.ext));
        outline_fields(alloc, &members, Self::NAMES, &[])
    }
}
