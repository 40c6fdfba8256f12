//! Realms.
ghost use Rattle.std.specs.Prelude.{◌≡◌, IfOk, refl, true, [], ◌∷◌, codes};
ghost use Rattle.bidi_shape.specs.Table.{map_shape};
ghost use Rattle.bidi_shape.specs.Made.{Makes, named, MembersAreWhole, members_node, has_named, names_in, others_of};
ghost use Rattle.bidi_shape.specs.Name.{get_realms_parameters, realm_info, get_realms_result, realm_destroyed_parameters};

use bidi_shape::{
    Exact, Ext, Fields, Literal, MakeFault, Maybe, Named, One, Optional, Parsed, Required, Rest,
    Shape, ShapeFault, further, outline_fields, read_fields,
};
use bidi_tree::{Members, Outline};
use std::alloc::{AllocError, Global};

/// What a realm belongs to.
///
/// `"window" / "dedicated-worker" / "shared-worker" / "service-worker" / "worker" / "paint-worklet" /
/// "audio-worklet" / "worklet"`
///
/// After WebDriver BiDi, "The script.RealmType Type".
#[derive(Clone, Copy, Debug, PartialEq, Eq)]
pub enum RealmType {
    /// The realm of a document. Those of this project's remote end are all of this type.
    Window,
    /// A worker that one document or worker owns.
    DedicatedWorker,
    /// A worker that documents of one origin share.
    SharedWorker,
    /// A worker that stands between documents and the network.
    ServiceWorker,
    /// A worker of none of these three types.
    Worker,
    /// A worklet that paints for style sheets.
    PaintWorklet,
    /// A worklet that makes or changes sound.
    AudioWorklet,
    /// A worklet of neither of these two types.
    Worklet,
}

impl Named for RealmType {
    ghost use Rattle.bidi_scripts.specs.RealmType.{realm_type_words};

    ghost words = { realm_type_words };

    fn all() -> &'static [RealmType] {
        &[
            RealmType::Window,
            RealmType::DedicatedWorker,
            RealmType::SharedWorker,
            RealmType::ServiceWorker,
            RealmType::Worker,
            RealmType::PaintWorklet,
            RealmType::AudioWorklet,
            RealmType::Worklet,
        ]
    }

    fn name(&self) -> &'static str {
        match self {
            RealmType::Window => "window",
            RealmType::DedicatedWorker => "dedicated-worker",
            RealmType::SharedWorker => "shared-worker",
            RealmType::ServiceWorker => "service-worker",
            RealmType::Worker => "worker",
            RealmType::PaintWorklet => "paint-worklet",
            RealmType::AudioWorklet => "audio-worklet",
            RealmType::Worklet => "worklet",
        }
    }
}

/// Parameters of `script.getRealms`.
///
/// `{ ? context: text, ? type: RealmType, Extensible }`
///
/// Absent, `context` stands for every context, and `type`, which is `kind` here, for every type.
///
/// After WebDriver BiDi, "The script.getRealms Command".
#[derive(Drop)]
pub struct GetRealmsParameters {
    pub context: Option<String>,
    pub kind: Option<RealmType>,
    pub ext: Ext,
}

impl GetRealmsParameters {
    // In the order of the rule.
    const NAMES: &'static [&'static str] = &["context", "type"];

    /// The parameters, with further members. Takes no memory.
    ///
    /// # Errors
    /// - `Clash`: a further member is called `context` or `type`.
    /// - `TooDeep`: a further member has an `Odd` in it, or more than 60 levels.
    pub fn new(
        context: Option<String>,
        kind: Option<RealmType>,
        ext: Members,
    ) -> Result<GetRealmsParameters, MakeFault>
        // Memory aside, the first cause that holds is the fault; with none, the value has these parts.
        ensures made { Makes result
            (has_named (names_in (named get_realms_parameters)) (members_node ext.entries) ≡ true)
            ⊥
            (¬ MembersAreWhole (members_node ext.entries) 60)
            (λ v. (v.context ≡ context) × (v.kind ≡ kind) × (others_of v.ext ≡ members_node ext.entries)) }
        // The value is well-formed, so its tree fits the type's rule.
        ensures well { IfOk result (λ v. ⟦<GetRealmsParameters as Shape>⟧.shape.well v) }
    {
        let ext = further(ext, Self::NAMES)?;
        Ok(GetRealmsParameters { context, kind, ext })
    }
}

type GetRealmsParts = Optional<String, Optional<RealmType, Ext>>;

impl Shape for GetRealmsParameters {
    ghost shape = { map_shape (named get_realms_parameters) ⟦<GetRealmsParts as Fields>⟧.table [] (λ v. (v.context, (v.kind, v.ext))) refl refl };

    fn from_tree<S: Parsed>(alloc: Global, tree: &S) -> Result<GetRealmsParameters, ShapeFault> {
        let Optional(context, Optional(kind, ext)) = read_fields(alloc, tree, Self::NAMES, &[])?;
        Ok(GetRealmsParameters { context, kind, ext })
    }

    fn outline<'a>(&'a self, alloc: Global) -> Result<Outline<'a>, AllocError> {
        let members = Maybe(&self.context, Maybe(&self.kind, Rest(&self.ext)));
        outline_fields(alloc, &members, Self::NAMES, &[])
    }
}

/// A realm of a window.
///
/// `{ realm: text, origin: text, type: "window", context: text, Extensible }`
///
/// `origin` is that of the URL, serialised, as `http://a.test`. Here it is `null` for all but http and https URLs.
///
/// After WebDriver BiDi, "The script.RealmInfo Type".
#[derive(Drop)]
pub struct RealmInfo {
    pub realm: String,
    pub origin: String,
    pub context: String,
    pub ext: Ext,
}

impl RealmInfo {
    // In the order of the rule.
    const NAMES: &'static [&'static str] = &["realm", "origin", "type", "context"];

    /// The information, with further members. Takes no memory.
    ///
    /// # Errors
    /// - `Clash`: a further member is called `realm`, `origin`, `type` or `context`.
    /// - `TooDeep`: a further member has an `Odd` in it, or more than 60 levels.
    pub fn new(
        realm: String,
        origin: String,
        context: String,
        ext: Members,
    ) -> Result<RealmInfo, MakeFault>
        // Memory aside, the first cause that holds is the fault; with none, the value has these parts.
        ensures made { Makes result
            (has_named (names_in (named realm_info)) (members_node ext.entries) ≡ true)
            ⊥
            (¬ MembersAreWhole (members_node ext.entries) 60)
            (λ v. (v.realm ≡ realm) × (v.origin ≡ origin) × (v.context ≡ context) × (others_of v.ext ≡ members_node ext.entries)) }
        // The value is well-formed, so its tree fits the type's rule.
        ensures well { IfOk result (λ v. ⟦<RealmInfo as Shape>⟧.shape.well v) }
    {
        let ext = further(ext, Self::NAMES)?;
        Ok(RealmInfo {
            realm,
            origin,
            context,
            ext,
        })
    }
}

impl Shape for RealmInfo {
    ghost shape = { map_shape (named realm_info) ⟦<Required<String, Required<String, Literal<Required<String, Ext>>>> as Fields>⟧.table (codes "window" ∷ [])
        (λ v. (v.realm, (v.origin, record { 0 = (v.context, v.ext) }))) refl refl };

    fn from_tree<S: Parsed>(alloc: Global, tree: &S) -> Result<RealmInfo, ShapeFault> {
        let parts = read_fields(alloc, tree, Self::NAMES, &["window"])?;
        let Required(realm, Required(origin, Literal(Required(context, ext)))) = parts;
        Ok(RealmInfo {
            realm,
            origin,
            context,
            ext,
        })
    }

    fn outline<'a>(&'a self, alloc: Global) -> Result<Outline<'a>, AllocError> {
        let members = One(
            &self.realm,
            One(&self.origin, Exact(One(&self.context, Rest(&self.ext)))),
        );
        outline_fields(alloc, &members, Self::NAMES, &["window"])
    }
}

/// The result of `script.getRealms`.
///
/// `{ realms: [*RealmInfo], Extensible }`
///
/// After WebDriver BiDi, "The script.getRealms Command".
#[derive(Drop)]
pub struct GetRealmsResult {
    pub realms: Vec<RealmInfo>,
    pub ext: Ext,
}

impl GetRealmsResult {
    // In the order of the rule.
    const NAMES: &'static [&'static str] = &["realms"];

    /// The result, with further members. Takes no memory.
    ///
    /// # Errors
    /// - `Clash`: a further member is called `realms`.
    /// - `TooDeep`: a further member has an `Odd` in it, or more than 60 levels.
    pub fn new(realms: Vec<RealmInfo>, ext: Members) -> Result<GetRealmsResult, MakeFault>
        // The realms are well-formed.
        requires realms { ⟦<Vec<RealmInfo> as Shape>⟧.shape.well realms }
        // Memory aside, the first cause that holds is the fault; with none, the value has these parts.
        ensures made { Makes result
            (has_named (names_in (named get_realms_result)) (members_node ext.entries) ≡ true)
            ⊥
            (¬ MembersAreWhole (members_node ext.entries) 60)
            (λ v. (v.realms ≡ realms) × (others_of v.ext ≡ members_node ext.entries)) }
        // The value is well-formed, so its tree fits the type's rule.
        ensures well { IfOk result (λ v. ⟦<GetRealmsResult as Shape>⟧.shape.well v) }
    {
        let ext = further(ext, Self::NAMES)?;
        Ok(GetRealmsResult { realms, ext })
    }
}

impl Shape for GetRealmsResult {
    ghost shape = { map_shape (named get_realms_result) ⟦<Required<Vec<RealmInfo>, Ext> as Fields>⟧.table [] (λ v. (v.realms, v.ext)) refl refl };

    fn from_tree<S: Parsed>(alloc: Global, tree: &S) -> Result<GetRealmsResult, ShapeFault> {
        let Required(realms, ext) = read_fields(alloc, tree, Self::NAMES, &[])?;
        Ok(GetRealmsResult { realms, ext })
    }

    fn outline<'a>(&'a self, alloc: Global) -> Result<Outline<'a>, AllocError> {
        let members = One(&self.realms, Rest(&self.ext));
        outline_fields(alloc, &members, Self::NAMES, &[])
    }
}

/// Parameters of the event `script.realmDestroyed`.
///
/// `{ realm: text, Extensible }`
///
/// After WebDriver BiDi, "The script.realmDestroyed Event".
#[derive(Drop)]
pub struct RealmDestroyedParameters {
    pub realm: String,
    pub ext: Ext,
}

impl RealmDestroyedParameters {
    // In the order of the rule.
    const NAMES: &'static [&'static str] = &["realm"];

    /// The parameters, with further members. Takes no memory.
    ///
    /// # Errors
    /// - `Clash`: a further member is called `realm`.
    /// - `TooDeep`: a further member has an `Odd` in it, or more than 60 levels.
    pub fn new(realm: String, ext: Members) -> Result<RealmDestroyedParameters, MakeFault>
        // Memory aside, the first cause that holds is the fault; with none, the value has these parts.
        ensures made { Makes result
            (has_named (names_in (named realm_destroyed_parameters)) (members_node ext.entries) ≡ true)
            ⊥
            (¬ MembersAreWhole (members_node ext.entries) 60)
            (λ v. (v.realm ≡ realm) × (others_of v.ext ≡ members_node ext.entries)) }
        // The value is well-formed, so its tree fits the type's rule.
        ensures well { IfOk result (λ v. ⟦<RealmDestroyedParameters as Shape>⟧.shape.well v) }
    {
        let ext = further(ext, Self::NAMES)?;
        Ok(RealmDestroyedParameters { realm, ext })
    }
}

impl Shape for RealmDestroyedParameters {
    ghost shape = { map_shape (named realm_destroyed_parameters) ⟦<Required<String, Ext> as Fields>⟧.table [] (λ v. (v.realm, v.ext)) refl refl };

    fn from_tree<S: Parsed>(
        alloc: Global,
        tree: &S,
    ) -> Result<RealmDestroyedParameters, ShapeFault> {
        let Required(realm, ext) = read_fields(alloc, tree, Self::NAMES, &[])?;
        Ok(RealmDestroyedParameters { realm, ext })
    }

    fn outline<'a>(&'a self, alloc: Global) -> Result<Outline<'a>, AllocError> {
        let members = One(&self.realm, Rest(&self.ext));
        outline_fields(alloc, &members, Self::NAMES, &[])
    }
}
