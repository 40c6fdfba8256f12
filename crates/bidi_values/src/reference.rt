//! References to values that a remote end holds.
ghost use Rattle.std.specs.Prelude.{◌≡◌, IfOk, true, refl, []};
ghost use Rattle.bidi_shape.specs.Name.{shared_reference, remote_object_reference, reference};
ghost use Rattle.bidi_shape.specs.Table.{map_shape};
ghost use Rattle.bidi_shape.specs.Made.{Makes, named, MembersAreWhole, members_node, has_named, names_in, others_of};

use bidi_shape::{
    Either, Ext, Fields, MakeFault, Maybe, One, Optional, Parsed, Required, Rest, Shape,
    ShapeFault, further, not_shadowed, outline_fields, read_choice, read_fields,
};
use bidi_tree::{Members, Outline};
use std::alloc::{AllocError, Global};

/// A reference to a node by its shared id. The remote end of this project holds none: `no such node`.
///
/// `{ sharedId: text, ? handle: text, Extensible }`
///
/// After WebDriver BiDi, "The script.RemoteReference Type".
#[derive(Drop)]
pub struct SharedReference {
    pub shared_id: String,
    pub handle: Option<String>,
    pub ext: Ext,
}

impl SharedReference {
    // In the order of the rule.
    const NAMES: &'static [&'static str] = &["sharedId", "handle"];

    /// The reference, with further members. Takes no memory.
    ///
    /// # Errors
    /// - `Clash`: a further member is called `sharedId` or `handle`.
    /// - `TooDeep`: a further member has an `Odd` in it, or more than 60 levels.
    pub fn new(
        shared_id: String,
        handle: Option<String>,
        ext: Members,
    ) -> Result<SharedReference, MakeFault>
        // Memory aside, the first cause that holds is the fault; with none, the value has these parts.
        ensures made { Makes result
            (has_named (names_in (named shared_reference)) (members_node ext.entries) ≡ true)
            ⊥
            (¬ MembersAreWhole (members_node ext.entries) 60)
            (λ v. (v.shared_id ≡ shared_id) × (v.handle ≡ handle) × (others_of v.ext ≡ members_node ext.entries)) }
        // The value is well-formed, so its tree fits the type's rule.
        ensures well { IfOk result (λ v. ⟦<SharedReference as Shape>⟧.shape.well v) }
    {
        let ext = further(ext, Self::NAMES)?;
        Ok(SharedReference {
            shared_id,
            handle,
            ext,
        })
    }
}

type SharedParts = Required<String, Optional<String, Ext>>;

impl Shape for SharedReference {
    ghost shape = { map_shape (named shared_reference) ⟦<SharedParts as Fields>⟧.table [] (λ v. (v.shared_id, (v.handle, v.ext))) refl refl };

    fn from_tree<S: Parsed>(alloc: Global, tree: &S) -> Result<SharedReference, ShapeFault> {
        let parts = read_fields(alloc, tree, Self::NAMES, &[])?;
        let Required(shared_id, Optional(handle, ext)) = parts;
        Ok(SharedReference {
            shared_id,
            handle,
            ext,
        })
    }

    fn outline<'a>(&'a self, alloc: Global) -> Result<Outline<'a>, AllocError> {
        let members = One(&self.shared_id, Maybe(&self.handle, Rest(&self.ext)));
        outline_fields(alloc, &members, Self::NAMES, &[])
    }
}

/// A reference to an object by its handle, which is asked of the realm that the script runs in.
///
/// `{ handle: text, ? sharedId: text, Extensible }`
///
/// After WebDriver BiDi, "The script.RemoteReference Type".
#[derive(Drop)]
pub struct RemoteObjectReference {
    pub handle: String,
    pub shared_id: Option<String>,
    pub ext: Ext,
}

impl RemoteObjectReference {
    ghost use Rattle.bidi_shape.specs.Fits.{Fits};
    ghost use Rattle.bidi_values.specs.Maps.{remote_object_map};

    // In the order of the rule.
    const NAMES: &'static [&'static str] = &["handle", "sharedId"];

    /// The reference, with further members. With a `shared_id` and further members that are whole it is always
    /// `Shadowed`, since such a map is a [`SharedReference`].
    ///
    /// # Errors
    /// - `Clash`: a further member is called `handle` or `sharedId`.
    /// - `Shadowed`: the map is a `SharedReference`.
    /// - `TooDeep`: a further member has an `Odd` in it, or more than 60 levels.
    /// - `NoMemory`: an allocation failed.
    pub fn new(
        alloc: Global,
        handle: String,
        shared_id: Option<String>,
        ext: Members,
    ) -> Result<RemoteObjectReference, MakeFault>
        // Memory aside, the first cause that holds is the fault; with none, the value has these parts.
        ensures made { Makes result
            (has_named (names_in (named remote_object_reference)) (members_node ext.entries) ≡ true)
            (Fits (remote_object_map handle shared_id (members_node ext.entries)) (named shared_reference))
            (¬ MembersAreWhole (members_node ext.entries) 60)
            (λ v. (v.handle ≡ handle) × (v.shared_id ≡ shared_id) × (others_of v.ext ≡ members_node ext.entries)) }
        // The value is well-formed, so its tree fits the type's rule.
        ensures well { IfOk result (λ v. ⟦<RemoteObjectReference as Shape>⟧.shape.well v) }
    {
        let ext = Ext::new(ext, Self::NAMES)?;
        let made = RemoteObjectReference {
            handle,
            shared_id,
            ext,
        };
        not_shadowed::<SharedReference, RemoteObjectReference>(alloc, &made)?;
        if !made.ext.is_whole() {
            return Err(MakeFault::TooDeep);
        }
        Ok(made)
    }
}

impl Shape for RemoteObjectReference {
    ghost shape = { map_shape (named remote_object_reference) ⟦<Required<String, Optional<String, Ext>> as Fields>⟧.table []
        (λ v. (v.handle, (v.shared_id, v.ext))) refl refl };

    fn from_tree<S: Parsed>(alloc: Global, tree: &S) -> Result<RemoteObjectReference, ShapeFault> {
        let parts = read_fields(alloc, tree, Self::NAMES, &[])?;
        let Required(handle, Optional(shared_id, ext)) = parts;
        Ok(RemoteObjectReference {
            handle,
            shared_id,
            ext,
        })
    }

    fn outline<'a>(&'a self, alloc: Global) -> Result<Outline<'a>, AllocError> {
        let members = One(&self.handle, Maybe(&self.shared_id, Rest(&self.ext)));
        outline_fields(alloc, &members, Self::NAMES, &[])
    }
}

/// A reference to a value that the remote end holds.
///
/// `SharedReference / RemoteObjectReference`
///
/// After WebDriver BiDi, "The script.RemoteReference Type".
#[derive(Drop)]
pub enum Reference {
    /// By a shared id: the map has a text as its `sharedId`.
    Shared(SharedReference),
    /// By a handle, where the map is no `SharedReference`.
    RemoteObject(RemoteObjectReference),
}

impl Shape for Reference {
    ghost use Rattle.bidi_shape.specs.ThroughLaws.{shape_through};
    ghost use Rattle.bidi_shape.specs.declared.choice.Either.TheVariants.{First, Second};
    ghost use Rattle.bidi_values.specs.declared.reference.Reference.TheVariants.{Shared, RemoteObject};

    ghost shape = { shape_through (named reference) ⟦<Either<SharedReference, RemoteObjectReference> as Shape>⟧.shape
        (λ v. elim v [ Shared s ↦ First s | RemoteObject r ↦ Second r ]) refl };

    fn from_tree<S: Parsed>(alloc: Global, tree: &S) -> Result<Reference, ShapeFault> {
        match read_choice(alloc, tree)? {
            Either::First(shared) => Ok(Reference::Shared(shared)),
            Either::Second(object) => Ok(Reference::RemoteObject(object)),
        }
    }

    fn outline<'a>(&'a self, alloc: Global) -> Result<Outline<'a>, AllocError> {
        match self {
            Reference::Shared(shared) => shared.outline(alloc),
            Reference::RemoteObject(object) => object.outline(alloc),
        }
    }
}
