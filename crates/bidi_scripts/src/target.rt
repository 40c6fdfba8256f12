//! Where a script is run.
ghost use Rattle.std.specs.Prelude.{◌≡◌, IfOk, true, refl, []};
ghost use Rattle.bidi_shape.specs.Name.{context_target, realm_target, target};
ghost use Rattle.bidi_shape.specs.Table.{map_shape};
ghost use Rattle.bidi_shape.specs.Made.{Makes, named, MembersAreWhole, members_node, has_named, names_in, others_of};

use bidi_shape::{
    Either, Ext, Fields, MakeFault, Maybe, One, Optional, Parsed, Required, Rest, Shape,
    ShapeFault, further, not_shadowed, outline_fields, read_choice, read_fields,
};
use bidi_tree::{Members, Outline};
use std::alloc::{AllocError, Global};

/// A browsing context, or a sandbox in it.
///
/// `{ context: text, ? sandbox: text, Extensible }`
///
/// A `sandbox` that is absent or empty stands for none; any other is an `unsupported operation` here.
///
/// After WebDriver BiDi, "The script.Target Type".
#[derive(Drop)]
pub struct ContextTarget {
    pub context: String,
    pub sandbox: Option<String>,
    pub ext: Ext,
}

impl ContextTarget {
    // In the order of the rule.
    const NAMES: &'static [&'static str] = &["context", "sandbox"];

    /// The target, with further members. Takes no memory.
    ///
    /// # Errors
    /// - `Clash`: a further member is called `context` or `sandbox`.
    /// - `TooDeep`: a further member has an `Odd` in it, or more than 60 levels.
    pub fn new(
        context: String,
        sandbox: Option<String>,
        ext: Members,
    ) -> Result<ContextTarget, MakeFault>
        // Memory aside, the first cause that holds is the fault; with none, the value has these parts.
        ensures made { Makes result
            (has_named (names_in (named context_target)) (members_node ext.entries) ≡ true)
            ⊥
            (¬ MembersAreWhole (members_node ext.entries) 60)
            (λ v. (v.context ≡ context) × (v.sandbox ≡ sandbox) × (others_of v.ext ≡ members_node ext.entries)) }
        // The value is well-formed, so its tree fits the type's rule.
        ensures well { IfOk result (λ v. ⟦<ContextTarget as Shape>⟧.shape.well v) }
    {
        let ext = further(ext, Self::NAMES)?;
        Ok(ContextTarget {
            context,
            sandbox,
            ext,
        })
    }
}

impl Shape for ContextTarget {
    ghost shape = { map_shape (named context_target) ⟦<Required<String, Optional<String, Ext>> as Fields>⟧.table [] (λ v. (v.context, (v.sandbox, v.ext))) refl refl };

    fn from_tree<S: Parsed>(alloc: Global, tree: &S) -> Result<ContextTarget, ShapeFault> {
        let Required(context, Optional(sandbox, ext)) = read_fields(alloc, tree, Self::NAMES, &[])?;
        Ok(ContextTarget {
            context,
            sandbox,
            ext,
        })
    }

    fn outline<'a>(&'a self, alloc: Global) -> Result<Outline<'a>, AllocError> {
        let members = One(&self.context, Maybe(&self.sandbox, Rest(&self.ext)));
        outline_fields(alloc, &members, Self::NAMES, &[])
    }
}

/// A realm.
///
/// `{ realm: text, Extensible }`
///
/// After WebDriver BiDi, "The script.Target Type".
#[derive(Drop)]
pub struct RealmTarget {
    pub realm: String,
    pub ext: Ext,
}

impl RealmTarget {
    ghost use Rattle.bidi_shape.specs.Fits.{Fits};
    ghost use Rattle.bidi_scripts.specs.Maps.{realm_map};

    // In the order of the rule.
    const NAMES: &'static [&'static str] = &["realm"];

    /// The target, with further members.
    ///
    /// # Errors
    /// - `Clash`: a further member is called `realm`.
    /// - `Shadowed`: the map is a [`ContextTarget`].
    /// - `TooDeep`: a further member has an `Odd` in it, or more than 60 levels.
    /// - `NoMemory`: an allocation failed.
    pub fn new(alloc: Global, realm: String, ext: Members) -> Result<RealmTarget, MakeFault>
        // Memory aside, the first cause that holds is the fault; with none, the value has these parts.
        ensures made { Makes result
            (has_named (names_in (named realm_target)) (members_node ext.entries) ≡ true)
            (Fits (realm_map realm (members_node ext.entries)) (named context_target))
            (¬ MembersAreWhole (members_node ext.entries) 60)
            (λ v. (v.realm ≡ realm) × (others_of v.ext ≡ members_node ext.entries)) }
        // The value is well-formed, so its tree fits the type's rule.
        ensures well { IfOk result (λ v. ⟦<RealmTarget as Shape>⟧.shape.well v) }
    {
        let ext = Ext::new(ext, Self::NAMES)?;
        let made = RealmTarget { realm, ext };
        not_shadowed::<ContextTarget, RealmTarget>(alloc, &made)?;
        if !made.ext.is_whole() {
            return Err(MakeFault::TooDeep);
        }
        Ok(made)
    }
}

impl Shape for RealmTarget {
    ghost shape = { map_shape (named realm_target) ⟦<Required<String, Ext> as Fields>⟧.table [] (λ v. (v.realm, v.ext)) refl refl };

    fn from_tree<S: Parsed>(alloc: Global, tree: &S) -> Result<RealmTarget, ShapeFault> {
        let Required(realm, ext) = read_fields(alloc, tree, Self::NAMES, &[])?;
        Ok(RealmTarget { realm, ext })
    }

    fn outline<'a>(&'a self, alloc: Global) -> Result<Outline<'a>, AllocError> {
        let members = One(&self.realm, Rest(&self.ext));
        outline_fields(alloc, &members, Self::NAMES, &[])
    }
}

/// Where a script is run.
///
/// `ContextTarget / RealmTarget`
///
/// After WebDriver BiDi, "The script.Target Type".
#[derive(Drop)]
pub enum Target {
    /// The realm that a context has at that time.
    Context(ContextTarget),
    /// One realm, by its id. It is gone once its context navigates.
    Realm(RealmTarget),
}

impl Shape for Target {
    ghost use Rattle.bidi_shape.specs.ThroughLaws.{shape_through};
    ghost use Rattle.bidi_shape.specs.declared.choice.Either.TheVariants.{First, Second};
    ghost use Rattle.bidi_scripts.specs.declared.target.Target.TheVariants.{Context, Realm};

    ghost shape = { shape_through (named target) ⟦<Either<ContextTarget, RealmTarget> as Shape>⟧.shape
        (λ v. elim v [ Context c ↦ First c | Realm r ↦ Second r ]) refl };

    fn from_tree<S: Parsed>(alloc: Global, tree: &S) -> Result<Target, ShapeFault> {
        match read_choice(alloc, tree)? {
            Either::First(context) => Ok(Target::Context(context)),
            Either::Second(realm) => Ok(Target::Realm(realm)),
        }
    }

    fn outline<'a>(&'a self, alloc: Global) -> Result<Outline<'a>, AllocError> {
        match self {
            Target::Context(context) => context.outline(alloc),
            Target::Realm(realm) => realm.outline(alloc),
        }
    }
}
