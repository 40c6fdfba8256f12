//! Navigations of browsing contexts.
ghost use Rattle.std.specs.Prelude.{◌≡◌, IfOk, refl, true, []};
ghost use Rattle.bidi_shape.specs.Table.{map_shape};
ghost use Rattle.bidi_shape.specs.Made.{Makes, named, MembersAreWhole, members_node, has_named, names_in, others_of};
ghost use Rattle.bidi_shape.specs.Name.{navigate_parameters, reload_parameters, navigate_result, traverse_history_parameters, navigation_info};

use bidi_shape::{
    Ext, Fields, MakeFault, Maybe, Named, One, Optional, Parsed, Required, Rest, Shape, ShapeFault,
    further, outline_fields, read_fields,
};
use bidi_tree::{JsInt, JsUint, Members, Outline};
use std::alloc::{AllocError, Global};

/// How far a navigation has to be before its command is answered.
///
/// `"none" / "interactive" / "complete"`
///
/// After WebDriver BiDi, "The browsingContext.ReadinessState Type".
#[derive(Clone, Copy, Debug, PartialEq, Eq)]
pub enum Wait {
    /// The reply comes once the navigation has started.
    None,
    /// The reply comes once the document is parsed, behind `domContentLoaded`.
    Interactive,
    /// The reply comes once the document is loaded, behind `load`.
    Complete,
}

impl Named for Wait {
    ghost use Rattle.bidi_params.specs.Words.{wait_words};

    ghost words = { wait_words };

    fn all() -> &'static [Wait] {
        &[Wait::None, Wait::Interactive, Wait::Complete]
    }

    fn name(&self) -> &'static str {
        match self {
            Wait::None => "none",
            Wait::Interactive => "interactive",
            Wait::Complete => "complete",
        }
    }
}

/// Parameters of `browsingContext.navigate`.
///
/// `{ context: text, url: text, ? wait: Wait, Extensible }`
///
/// Absent, `wait` is `none`.
///
/// After WebDriver BiDi, "The browsingContext.navigate Command".
#[derive(Drop)]
pub struct NavigateParameters {
    pub context: String,
    pub url: String,
    pub wait: Option<Wait>,
    pub ext: Ext,
}

impl NavigateParameters {
    // In the order of the rule.
    const NAMES: &'static [&'static str] = &["context", "url", "wait"];

    /// The parameters, with further members. Takes no memory.
    ///
    /// # Errors
    /// - `Clash`: a further member is called `context`, `url` or `wait`.
    /// - `TooDeep`: a further member has an `Odd` in it, or more than 60 levels.
    pub fn new(
        context: String,
        url: String,
        wait: Option<Wait>,
        ext: Members,
    ) -> Result<NavigateParameters, MakeFault>
        // Memory aside, the first cause that holds is the fault; with none, the value has these parts.
        ensures made { Makes result
            (has_named (names_in (named navigate_parameters)) (members_node ext.entries) ≡ true)
            ⊥
            (¬ MembersAreWhole (members_node ext.entries) 60)
            (λ v. (v.context ≡ context) × (v.url ≡ url) × (v.wait ≡ wait) × (others_of v.ext ≡ members_node ext.entries)) }
        // The value is well-formed, so its tree fits the type's rule.
        ensures well { IfOk result (λ v. ⟦<NavigateParameters as Shape>⟧.shape.well v) }
    {
        let ext = further(ext, Self::NAMES)?;
        Ok(NavigateParameters {
            context,
            url,
            wait,
            ext,
        })
    }
}

impl Shape for NavigateParameters {
    ghost shape = { map_shape (named navigate_parameters) ⟦<Required<String, Required<String, Optional<Wait, Ext>>> as Fields>⟧.table []
        (λ v. (v.context, (v.url, (v.wait, v.ext)))) refl refl };

    fn from_tree<S: Parsed>(alloc: Global, tree: &S) -> Result<NavigateParameters, ShapeFault> {
        let parts = read_fields(alloc, tree, Self::NAMES, &[])?;
        let Required(context, Required(url, Optional(wait, ext))) = parts;
        Ok(NavigateParameters {
            context,
            url,
            wait,
            ext,
        })
    }

    fn outline<'a>(&'a self, alloc: Global) -> Result<Outline<'a>, AllocError> {
        let members = One(
            &self.context,
            One(&self.url, Maybe(&self.wait, Rest(&self.ext))),
        );
        outline_fields(alloc, &members, Self::NAMES, &[])
    }
}

/// Parameters of `browsingContext.reload`.
///
/// `{ context: text, ? ignoreCache: bool, ? wait: Wait, Extensible }`
///
/// `ignoreCache` has no effect here, since nothing is cached. Absent, `wait` is `none`.
///
/// After WebDriver BiDi, "The browsingContext.reload Command".
#[derive(Drop)]
pub struct ReloadParameters {
    pub context: String,
    pub ignore_cache: Option<bool>,
    pub wait: Option<Wait>,
    pub ext: Ext,
}

impl ReloadParameters {
    // In the order of the rule.
    const NAMES: &'static [&'static str] = &["context", "ignoreCache", "wait"];

    /// The parameters, with further members. Takes no memory.
    ///
    /// # Errors
    /// - `Clash`: a further member is called `context`, `ignoreCache` or `wait`.
    /// - `TooDeep`: a further member has an `Odd` in it, or more than 60 levels.
    pub fn new(
        context: String,
        ignore_cache: Option<bool>,
        wait: Option<Wait>,
        ext: Members,
    ) -> Result<ReloadParameters, MakeFault>
        // Memory aside, the first cause that holds is the fault; with none, the value has these parts.
        ensures made { Makes result
            (has_named (names_in (named reload_parameters)) (members_node ext.entries) ≡ true)
            ⊥
            (¬ MembersAreWhole (members_node ext.entries) 60)
            (λ v. (v.context ≡ context) × (v.ignore_cache ≡ ignore_cache) × (v.wait ≡ wait) × (others_of v.ext ≡ members_node ext.entries)) }
        // The value is well-formed, so its tree fits the type's rule.
        ensures well { IfOk result (λ v. ⟦<ReloadParameters as Shape>⟧.shape.well v) }
    {
        let ext = further(ext, Self::NAMES)?;
        Ok(ReloadParameters {
            context,
            ignore_cache,
            wait,
            ext,
        })
    }
}

impl Shape for ReloadParameters {
    ghost shape = { map_shape (named reload_parameters) ⟦<Required<String, Optional<bool, Optional<Wait, Ext>>> as Fields>⟧.table []
        (λ v. (v.context, (v.ignore_cache, (v.wait, v.ext)))) refl refl };

    fn from_tree<S: Parsed>(alloc: Global, tree: &S) -> Result<ReloadParameters, ShapeFault> {
        let parts = read_fields(alloc, tree, Self::NAMES, &[])?;
        let Required(context, Optional(ignore_cache, Optional(wait, ext))) = parts;
        Ok(ReloadParameters {
            context,
            ignore_cache,
            wait,
            ext,
        })
    }

    fn outline<'a>(&'a self, alloc: Global) -> Result<Outline<'a>, AllocError> {
        let members = One(
            &self.context,
            Maybe(&self.ignore_cache, Maybe(&self.wait, Rest(&self.ext))),
        );
        outline_fields(alloc, &members, Self::NAMES, &[])
    }
}

/// The result of `browsingContext.navigate` and of `browsingContext.reload`.
///
/// `{ navigation: text / null, url: text, Extensible }`
///
/// `navigation` is the id that the events of this navigation bear. `url` is serialised, as `http://a.test/` where the
/// command said `http://a.test`.
///
/// After WebDriver BiDi, "The browsingContext.navigate Command".
#[derive(Drop)]
pub struct NavigateResult {
    pub navigation: Option<String>,
    pub url: String,
    pub ext: Ext,
}

impl NavigateResult {
    // In the order of the rule.
    const NAMES: &'static [&'static str] = &["navigation", "url"];

    /// The result, with further members. Takes no memory.
    ///
    /// # Errors
    /// - `Clash`: a further member is called `navigation` or `url`.
    /// - `TooDeep`: a further member has an `Odd` in it, or more than 60 levels.
    #[tactic(auto, using(crate::proofs::PartLemmas::text_or_null))]
    pub fn new(
        navigation: Option<String>,
        url: String,
        ext: Members,
    ) -> Result<NavigateResult, MakeFault>
        // Memory aside, the first cause that holds is the fault; with none, the value has these parts.
        ensures made { Makes result
            (has_named (names_in (named navigate_result)) (members_node ext.entries) ≡ true)
            ⊥
            (¬ MembersAreWhole (members_node ext.entries) 60)
            (λ v. (v.navigation ≡ navigation) × (v.url ≡ url) × (others_of v.ext ≡ members_node ext.entries)) }
        // The value is well-formed, so its tree fits the type's rule.
        ensures well { IfOk result (λ v. ⟦<NavigateResult as Shape>⟧.shape.well v) }
    {
        let ext = further(ext, Self::NAMES)?;
        Ok(NavigateResult {
            navigation,
            url,
            ext,
        })
    }
}

type NavigatedParts = Required<Option<String>, Required<String, Ext>>;

impl Shape for NavigateResult {
    ghost shape = { map_shape (named navigate_result) ⟦<NavigatedParts as Fields>⟧.table [] (λ v. (v.navigation, (v.url, v.ext))) refl refl };

    fn from_tree<S: Parsed>(alloc: Global, tree: &S) -> Result<NavigateResult, ShapeFault> {
        let Required(navigation, Required(url, ext)) = read_fields(alloc, tree, Self::NAMES, &[])?;
        Ok(NavigateResult {
            navigation,
            url,
            ext,
        })
    }

    fn outline<'a>(&'a self, alloc: Global) -> Result<Outline<'a>, AllocError> {
        let members = One(&self.navigation, One(&self.url, Rest(&self.ext)));
        outline_fields(alloc, &members, Self::NAMES, &[])
    }
}

/// Parameters of `browsingContext.traverseHistory`.
///
/// `{ context: text, delta: js-int, Extensible }`
///
/// Below 0, `delta` counts entries back, and above 0 forward.
///
/// After WebDriver BiDi, "The browsingContext.traverseHistory Command".
#[derive(Drop)]
pub struct TraverseHistoryParameters {
    pub context: String,
    pub delta: JsInt,
    pub ext: Ext,
}

impl TraverseHistoryParameters {
    // In the order of the rule.
    const NAMES: &'static [&'static str] = &["context", "delta"];

    /// The parameters, with further members. Takes no memory.
    ///
    /// # Errors
    /// - `Clash`: a further member is called `context` or `delta`.
    /// - `TooDeep`: a further member has an `Odd` in it, or more than 60 levels.
    pub fn new(
        context: String,
        delta: JsInt,
        ext: Members,
    ) -> Result<TraverseHistoryParameters, MakeFault>
        // Memory aside, the first cause that holds is the fault; with none, the value has these parts.
        ensures made { Makes result
            (has_named (names_in (named traverse_history_parameters)) (members_node ext.entries) ≡ true)
            ⊥
            (¬ MembersAreWhole (members_node ext.entries) 60)
            (λ v. (v.context ≡ context) × (v.delta ≡ delta) × (others_of v.ext ≡ members_node ext.entries)) }
        // The value is well-formed, so its tree fits the type's rule.
        ensures well { IfOk result (λ v. ⟦<TraverseHistoryParameters as Shape>⟧.shape.well v) }
    {
        let ext = further(ext, Self::NAMES)?;
        Ok(TraverseHistoryParameters {
            context,
            delta,
            ext,
        })
    }
}

type TraverseParts = Required<String, Required<JsInt, Ext>>;

impl Shape for TraverseHistoryParameters {
    ghost shape = { map_shape (named traverse_history_parameters) ⟦<TraverseParts as Fields>⟧.table [] (λ v. (v.context, (v.delta, v.ext))) refl refl };

    fn from_tree<S: Parsed>(
        alloc: Global,
        tree: &S,
    ) -> Result<TraverseHistoryParameters, ShapeFault> {
        let Required(context, Required(delta, ext)) = read_fields(alloc, tree, Self::NAMES, &[])?;
        Ok(TraverseHistoryParameters {
            context,
            delta,
            ext,
        })
    }

    fn outline<'a>(&'a self, alloc: Global) -> Result<Outline<'a>, AllocError> {
        let members = One(&self.context, One(&self.delta, Rest(&self.ext)));
        outline_fields(alloc, &members, Self::NAMES, &[])
    }
}

/// What the events of a navigation tell of it.
///
/// `{ context: text, navigation: text / null, timestamp: js-uint, url: text, Extensible }`
///
/// `navigation` is the id that all events of one navigation bear, and its command's result. `url` is where it leads,
/// and `timestamp` the moment of the event.
///
/// After WebDriver BiDi, "The browsingContext.NavigationInfo Type".
#[derive(Drop)]
pub struct NavigationInfo {
    pub context: String,
    pub navigation: Option<String>,
    pub timestamp: JsUint,
    pub url: String,
    pub ext: Ext,
}

impl NavigationInfo {
    // In the order of the rule.
    const NAMES: &'static [&'static str] = &["context", "navigation", "timestamp", "url"];

    /// The information, with further members. Takes no memory.
    ///
    /// # Errors
    /// - `Clash`: a further member is called `context`, `navigation`, `timestamp` or `url`.
    /// - `TooDeep`: a further member has an `Odd` in it, or more than 60 levels.
    #[tactic(auto, using(crate::proofs::PartLemmas::text_or_null))]
    pub fn new(
        context: String,
        navigation: Option<String>,
        timestamp: JsUint,
        url: String,
        ext: Members,
    ) -> Result<NavigationInfo, MakeFault>
        // Memory aside, the first cause that holds is the fault; with none, the value has these parts.
        ensures made { Makes result
            (has_named (names_in (named navigation_info)) (members_node ext.entries) ≡ true)
            ⊥
            (¬ MembersAreWhole (members_node ext.entries) 60)
            (λ v. (v.context ≡ context) × (v.navigation ≡ navigation)
            × (v.timestamp ≡ timestamp) × (v.url ≡ url) × (others_of v.ext ≡ members_node ext.entries)) }
        // The value is well-formed, so its tree fits the type's rule.
        ensures well { IfOk result (λ v. ⟦<NavigationInfo as Shape>⟧.shape.well v) }
    {
        let ext = further(ext, Self::NAMES)?;
        Ok(NavigationInfo {
            context,
            navigation,
            timestamp,
            url,
            ext,
        })
    }
}

impl Shape for NavigationInfo {
    ghost shape = { map_shape (named navigation_info) ⟦<Required<String, Required<Option<String>, Required<JsUint, Required<String, Ext>>>> as Fields>⟧.table []
        (λ v. (v.context, (v.navigation, (v.timestamp, (v.url, v.ext))))) refl refl };

    fn from_tree<S: Parsed>(alloc: Global, tree: &S) -> Result<NavigationInfo, ShapeFault> {
        let parts = read_fields(alloc, tree, Self::NAMES, &[])?;
        let Required(context, Required(navigation, Required(timestamp, Required(url, ext)))) =
            parts;
        Ok(NavigationInfo {
            context,
            navigation,
            timestamp,
            url,
            ext,
        })
    }

    fn outline<'a>(&'a self, alloc: Global) -> Result<Outline<'a>, AllocError> {
        let members = One(
            &self.context,
            One(
                &self.navigation,
                One(&self.timestamp, One(&self.url, Rest(&self.ext))),
            ),
        );
        outline_fields(alloc, &members, Self::NAMES, &[])
    }
}
