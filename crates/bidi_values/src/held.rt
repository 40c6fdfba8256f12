//! Values that a remote end holds, as it names them: by a handle, or by an id within one message.
ghost use Rattle.std.specs.Prelude.{refl, [], ◌∷◌, codes, ◌≡◌, IfOk};
ghost use Rattle.bidi_shape.specs.Table.{map_shape};
ghost use Rattle.bidi_values.specs.RemoteValue.{held_by, remote_reg_exp, remote_date};

use crate::copying::copy_text;
use crate::kinds::{ListKind, PairsKind};
use crate::opaque::Opaque;
use crate::reg_exp::RegExpValue;
use crate::siblings::Siblings;
use bidi_shape::{
    Closed, End, Exact, Fields, Literal, Maybe, One, Optional, Parsed, Required, Shape, ShapeFault,
    add_member, add_optional, outline_fields, read_fields,
};
use bidi_tree::{Outline, OutlineMembers};
use std::alloc::{AllocError, Global};

/// What a message tells of a value that a remote end holds: its kind, which is the member `type`, and its names.
///
/// `( type: K, ? handle: text, ? internalId: text )`
///
/// After WebDriver BiDi, "The script.RemoteValue Type".
#[derive(Drop)]
pub struct Held<K: Drop> {
    pub kind: K,
    /// The handle that keeps the value for later commands.
    pub handle: Option<String>,
    /// The id of a value that stands more than once in one message.
    pub internal_id: Option<String>,
}

/// What stands beside the values of an array or a set, or alone where they are left out.
pub type RemoteList = Held<ListKind>;

/// What stands beside the pairs of an object or a map, or alone where they are left out.
pub type RemotePairs = Held<PairsKind>;

/// A value that a remote end holds, of which a message tells no content.
pub type RemoteOpaque = Held<Opaque>;

type HeldParts<K> = Required<K, Optional<String, Optional<String, Closed>>>;

/// In the order of the rule.
const NAMES: &[&str] = &["type", "handle", "internalId"];

impl<K: Shape> Shape for Held<K> {
    ghost shape = { map_shape (held_by K.shape.rule) ⟦<HeldParts<K> as Fields>⟧.table [] (λ v. (v.kind, (v.handle, (v.internal_id, record {})))) refl refl };

    fn from_tree<S: Parsed>(alloc: Global, tree: &S) -> Result<Held<K>, ShapeFault> {
        let parts = read_fields(alloc, tree, NAMES, &[])?;
        let Required(kind, Optional(handle, Optional(internal_id, Closed))) = parts;
        Ok(Held {
            kind,
            handle,
            internal_id,
        })
    }

    fn outline<'a>(&'a self, alloc: Global) -> Result<Outline<'a>, AllocError> {
        let members = One(
            &self.kind,
            Maybe(&self.handle, Maybe(&self.internal_id, End)),
        );
        outline_fields(alloc, &members, NAMES, &[])
    }
}

impl<K: Shape + Copy> Siblings for Held<K> {
    ghost use Rattle.bidi_values.specs.SiblingLaws.{siblings_by};

    ghost siblings = { siblings_by ⟦<HeldParts<K> as Fields>⟧.table (codes "type" ∷ codes "handle" ∷ codes "internalId" ∷ [])
        (λ v. (v.kind, (v.handle, (v.internal_id, record {})))) (λ f g. refl) refl refl };

    fn read<S: Parsed>(alloc: Global, map: &S) -> Result<Held<K>, ShapeFault> {
        let Required(kind, Optional(handle, Optional(internal_id, Closed))) = HeldParts::<K>::read(
            alloc,
            map,
            NAMES,
            &[],
            &["type", "handle", "internalId", "value"],
        )?;
        Ok(Held {
            kind,
            handle,
            internal_id,
        })
    }

    fn add_to<'a>(
        &'a self,
        alloc: Global,
        members: &mut OutlineMembers<'a>,
    ) -> Result<(), AllocError> {
        add_optional(alloc, members, "internalId", &self.internal_id)?;
        add_optional(alloc, members, "handle", &self.handle)?;
        add_member(alloc, members, "type", &self.kind)
    }

    fn copy(&self, _alloc: Global) -> Result<Held<K>, AllocError> {
        Ok(Held {
            kind: self.kind,
            handle: copy_text(&self.handle)?,
            internal_id: copy_text(&self.internal_id)?,
        })
    }
}

/// A regular expression that a remote end holds, named as a [`RemoteOpaque`] is.
///
/// `{ type: "regexp", value: RegExpValue, ? handle: text, ? internalId: text }`
///
/// After WebDriver BiDi, "The script.RemoteValue Type".
#[derive(Drop)]
pub struct RemoteRegExp {
    pub value: RegExpValue,
    pub handle: Option<String>,
    pub internal_id: Option<String>,
}

impl RemoteRegExp {
    /// A copy of the value, which shares no memory with it.
    ///
    /// # Errors
    /// No memory: an allocation failed.
    pub(crate) fn copy(&self) -> Result<RemoteRegExp, AllocError>
        ensures tree { IfOk result (λ v. ⟦<RemoteRegExp as Shape>⟧.shape.tree_of v ≡ ⟦<RemoteRegExp as Shape>⟧.shape.tree_of self.now) }
        ensures well { ⟦<RemoteRegExp as Shape>⟧.shape.well self.now → IfOk result ⟦<RemoteRegExp as Shape>⟧.shape.well }
    {
        Ok(RemoteRegExp {
            value: self.value.copy()?,
            handle: copy_text(&self.handle)?,
            internal_id: copy_text(&self.internal_id)?,
        })
    }
}

impl RemoteRegExp {
    // In the order of the rule.
    const NAMES: &'static [&'static str] = &["type", "value", "handle", "internalId"];
}

impl Shape for RemoteRegExp {
    ghost shape = { map_shape remote_reg_exp ⟦<Literal<Required<RegExpValue, Optional<String, Optional<String, Closed>>>> as Fields>⟧.table (codes "regexp" ∷ [])
        (λ v. record { 0 = (v.value, (v.handle, (v.internal_id, record {}))) }) refl refl };

    fn from_tree<S: Parsed>(alloc: Global, tree: &S) -> Result<RemoteRegExp, ShapeFault> {
        let parts = read_fields(alloc, tree, Self::NAMES, &["regexp"])?;
        let Literal(Required(value, Optional(handle, Optional(internal_id, Closed)))) = parts;
        Ok(RemoteRegExp {
            value,
            handle,
            internal_id,
        })
    }

    fn outline<'a>(&'a self, alloc: Global) -> Result<Outline<'a>, AllocError> {
        let members = Exact(One(
            &self.value,
            Maybe(&self.handle, Maybe(&self.internal_id, End)),
        ));
        outline_fields(alloc, &members, Self::NAMES, &["regexp"])
    }
}

/// A date that a remote end holds, named as a [`RemoteOpaque`] is. Its text is not read as a date.
///
/// `{ type: "date", value: text, ? handle: text, ? internalId: text }`
///
/// After WebDriver BiDi, "The script.RemoteValue Type".
#[derive(Drop)]
pub struct RemoteDate {
    pub value: String,
    pub handle: Option<String>,
    pub internal_id: Option<String>,
}

impl RemoteDate {
    /// A copy of the value, which shares no memory with it.
    ///
    /// # Errors
    /// No memory: an allocation failed.
    pub(crate) fn copy(&self) -> Result<RemoteDate, AllocError>
        ensures tree { IfOk result (λ v. ⟦<RemoteDate as Shape>⟧.shape.tree_of v ≡ ⟦<RemoteDate as Shape>⟧.shape.tree_of self.now) }
        ensures well { ⟦<RemoteDate as Shape>⟧.shape.well self.now → IfOk result ⟦<RemoteDate as Shape>⟧.shape.well }
    {
        Ok(RemoteDate {
            value: self.value.clone()?,
            handle: copy_text(&self.handle)?,
            internal_id: copy_text(&self.internal_id)?,
        })
    }
}

impl RemoteDate {
    // In the order of the rule.
    const NAMES: &'static [&'static str] = &["type", "value", "handle", "internalId"];
}

impl Shape for RemoteDate {
    ghost shape = { map_shape remote_date ⟦<Literal<Required<String, Optional<String, Optional<String, Closed>>>> as Fields>⟧.table (codes "date" ∷ [])
        (λ v. record { 0 = (v.value, (v.handle, (v.internal_id, record {}))) }) refl refl };

    fn from_tree<S: Parsed>(alloc: Global, tree: &S) -> Result<RemoteDate, ShapeFault> {
        let parts = read_fields(alloc, tree, Self::NAMES, &["date"])?;
        let Literal(Required(value, Optional(handle, Optional(internal_id, Closed)))) = parts;
        Ok(RemoteDate {
            value,
            handle,
            internal_id,
        })
    }

    fn outline<'a>(&'a self, alloc: Global) -> Result<Outline<'a>, AllocError> {
        let members = Exact(One(
            &self.value,
            Maybe(&self.handle, Maybe(&self.internal_id, End)),
        ));
        outline_fields(alloc, &members, Self::NAMES, &["date"])
    }
}
