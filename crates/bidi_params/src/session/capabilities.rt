//! What a session can do.
ghost use Rattle.std.specs.Prelude.{◌≡◌, IfOk, true, refl, [], IfSome};
ghost use Rattle.bidi_shape.specs.Name.{new_parameters, capabilities_request, capability_request, new_result, capabilities};
ghost use Rattle.bidi_shape.specs.Table.{map_shape};
ghost use Rattle.bidi_shape.specs.Made.{Makes, named, MembersAreWhole, members_node, has_named, names_in, others_of};

use bidi_shape::{
    Ext, Fields, MakeFault, Maybe, One, Optional, Parsed, Required, Rest, Shape, ShapeFault,
    further, outline_fields, read_fields,
};
use bidi_tree::{Members, Outline};
use std::alloc::{AllocError, Global};

/// Parameters of `session.new`.
///
/// `{ capabilities: CapabilitiesRequest, Extensible }`
///
/// After WebDriver BiDi, "The session.new Command".
#[derive(Drop)]
pub struct NewParameters {
    pub capabilities: CapabilitiesRequest,
    pub ext: Ext,
}

impl NewParameters {
    // In the order of the rule.
    const NAMES: &'static [&'static str] = &["capabilities"];

    /// The parameters, with further members. Takes no memory.
    ///
    /// # Errors
    /// - `Clash`: a further member is called `capabilities`.
    /// - `TooDeep`: a further member has an `Odd` in it, or more than 60 levels.
    pub fn new(capabilities: CapabilitiesRequest, ext: Members) -> Result<NewParameters, MakeFault>
        // The capabilities request is well-formed.
        requires { ⟦<CapabilitiesRequest as Shape>⟧.shape.well capabilities }
        // Memory aside, the first cause that holds is the fault; with none, the value has these parts.
        ensures made { Makes result
            (has_named (names_in (named new_parameters)) (members_node ext.entries) ≡ true)
            ⊥
            (¬ MembersAreWhole (members_node ext.entries) 60)
            (λ v. (v.capabilities ≡ capabilities) × (others_of v.ext ≡ members_node ext.entries)) }
        // The value is well-formed, so its tree fits the type's rule.
        ensures well { IfOk result (λ v. ⟦<NewParameters as Shape>⟧.shape.well v) }
    {
        let ext = further(ext, Self::NAMES)?;
        Ok(NewParameters { capabilities, ext })
    }
}

impl Shape for NewParameters {
    ghost shape = { map_shape (named new_parameters) ⟦<Required<CapabilitiesRequest, Ext> as Fields>⟧.table [] (λ v. (v.capabilities, v.ext)) refl refl };

    fn from_tree<S: Parsed>(alloc: Global, tree: &S) -> Result<NewParameters, ShapeFault> {
        let Required(capabilities, ext) = read_fields(alloc, tree, Self::NAMES, &[])?;
        Ok(NewParameters { capabilities, ext })
    }

    fn outline<'a>(&'a self, alloc: Global) -> Result<Outline<'a>, AllocError> {
        let members = One(&self.capabilities, Rest(&self.ext));
        outline_fields(alloc, &members, Self::NAMES, &[])
    }
}

/// What a new session is asked for: always, and as one of several choices.
///
/// `{ ? alwaysMatch: CapabilityRequest, ? firstMatch: [*CapabilityRequest], Extensible }`
///
/// Absent, `firstMatch` asks for nothing more; an empty list is an `invalid argument` of `session.new`.
///
/// After WebDriver BiDi, "The session.CapabilitiesRequest Type".
#[derive(Drop)]
pub struct CapabilitiesRequest {
    pub always_match: Option<CapabilityRequest>,
    pub first_match: Option<Vec<CapabilityRequest>>,
    pub ext: Ext,
}

impl CapabilitiesRequest {
    // In the order of the rule.
    const NAMES: &'static [&'static str] = &["alwaysMatch", "firstMatch"];

    /// The request, with further members. Takes no memory.
    ///
    /// # Errors
    /// - `Clash`: a further member is called `alwaysMatch` or `firstMatch`.
    /// - `TooDeep`: a further member has an `Odd` in it, or more than 60 levels.
    pub fn new(
        always_match: Option<CapabilityRequest>,
        first_match: Option<Vec<CapabilityRequest>>,
        ext: Members,
    ) -> Result<CapabilitiesRequest, MakeFault>
        // `alwaysMatch` is well-formed, if it is given.
        requires always_match { IfSome always_match ⟦<CapabilityRequest as Shape>⟧.shape.well }
        // Each request of `firstMatch` is well-formed, if they are given.
        requires first_match { IfSome first_match ⟦<Vec<CapabilityRequest> as Shape>⟧.shape.well }
        // Memory aside, the first cause that holds is the fault; with none, the value has these parts.
        ensures made { Makes result
            (has_named (names_in (named capabilities_request)) (members_node ext.entries) ≡ true)
            ⊥
            (¬ MembersAreWhole (members_node ext.entries) 60)
            (λ v. (v.always_match ≡ always_match) × (v.first_match ≡ first_match) × (others_of v.ext ≡ members_node ext.entries)) }
        // The value is well-formed, so its tree fits the type's rule.
        ensures well { IfOk result (λ v. ⟦<CapabilitiesRequest as Shape>⟧.shape.well v) }
    {
        let ext = further(ext, Self::NAMES)?;
        Ok(CapabilitiesRequest {
            always_match,
            first_match,
            ext,
        })
    }
}

impl Shape for CapabilitiesRequest {
    ghost shape = { map_shape (named capabilities_request) ⟦<Optional<CapabilityRequest, Optional<Vec<CapabilityRequest>, Ext>> as Fields>⟧.table []
        (λ v. (v.always_match, (v.first_match, v.ext))) refl refl };

    fn from_tree<S: Parsed>(alloc: Global, tree: &S) -> Result<CapabilitiesRequest, ShapeFault> {
        let parts = read_fields(alloc, tree, Self::NAMES, &[])?;
        let Optional(always_match, Optional(first_match, ext)) = parts;
        Ok(CapabilitiesRequest {
            always_match,
            first_match,
            ext,
        })
    }

    fn outline<'a>(&'a self, alloc: Global) -> Result<Outline<'a>, AllocError> {
        let members = Maybe(
            &self.always_match,
            Maybe(&self.first_match, Rest(&self.ext)),
        );
        outline_fields(alloc, &members, Self::NAMES, &[])
    }
}

/// The capabilities that a session is asked to have. One that is absent is not asked for.
///
/// `{ ? acceptInsecureCerts: bool, ? browserName: text, ? browserVersion: text, ? platformName: text, Extensible }`
///
/// A further member with a colon in its name is another vendor's, and passed over; any other is an `invalid argument`
/// of `session.new`.
///
/// After WebDriver BiDi, "The session.CapabilityRequest Type".
#[derive(Drop)]
pub struct CapabilityRequest {
    pub accept_insecure_certs: Option<bool>,
    pub browser_name: Option<String>,
    pub browser_version: Option<String>,
    pub platform_name: Option<String>,
    pub ext: Ext,
}

impl CapabilityRequest {
    // In the order of the rule.
    const NAMES: &'static [&'static str] = &[
        "acceptInsecureCerts",
        "browserName",
        "browserVersion",
        "platformName",
    ];

    /// The request, with further members. Takes no memory.
    ///
    /// # Errors
    /// - `Clash`: a further member is called `acceptInsecureCerts`, `browserName`, `browserVersion` or
    ///   `platformName`.
    /// - `TooDeep`: a further member has an `Odd` in it, or more than 60 levels.
    pub fn new(
        accept_insecure_certs: Option<bool>,
        browser_name: Option<String>,
        browser_version: Option<String>,
        platform_name: Option<String>,
        ext: Members,
    ) -> Result<CapabilityRequest, MakeFault>
        // Memory aside, the first cause that holds is the fault; with none, the value has these parts.
        ensures made { Makes result
            (has_named (names_in (named capability_request)) (members_node ext.entries) ≡ true)
            ⊥
            (¬ MembersAreWhole (members_node ext.entries) 60)
            (λ v. (v.accept_insecure_certs ≡ accept_insecure_certs) × (v.browser_name ≡ browser_name)
            × (v.browser_version ≡ browser_version) × (v.platform_name ≡ platform_name) × (others_of v.ext ≡ members_node ext.entries)) }
        // The value is well-formed, so its tree fits the type's rule.
        ensures well { IfOk result (λ v. ⟦<CapabilityRequest as Shape>⟧.shape.well v) }
    {
        let ext = further(ext, Self::NAMES)?;
        Ok(CapabilityRequest {
            accept_insecure_certs,
            browser_name,
            browser_version,
            platform_name,
            ext,
        })
    }
}

impl Shape for CapabilityRequest {
    ghost shape = { map_shape (named capability_request) ⟦<Optional<bool, Optional<String, Optional<String, Optional<String, Ext>>>> as Fields>⟧.table []
        (λ v. (v.accept_insecure_certs, (v.browser_name, (v.browser_version, (v.platform_name, v.ext))))) refl refl };

    fn from_tree<S: Parsed>(alloc: Global, tree: &S) -> Result<CapabilityRequest, ShapeFault> {
        let Optional(
            accept_insecure_certs,
            Optional(browser_name, Optional(browser_version, Optional(platform_name, ext))),
        ) = read_fields(alloc, tree, Self::NAMES, &[])?;
        Ok(CapabilityRequest {
            accept_insecure_certs,
            browser_name,
            browser_version,
            platform_name,
            ext,
        })
    }

    fn outline<'a>(&'a self, alloc: Global) -> Result<Outline<'a>, AllocError> {
        let members = Maybe(
            &self.accept_insecure_certs,
            Maybe(
                &self.browser_name,
                Maybe(
                    &self.browser_version,
                    Maybe(&self.platform_name, Rest(&self.ext)),
                ),
            ),
        );
        outline_fields(alloc, &members, Self::NAMES, &[])
    }
}

/// A new session's id, and what it can do.
///
/// `{ sessionId: text, capabilities: Capabilities, Extensible }`
///
/// After WebDriver BiDi, "The session.new Command".
#[derive(Drop)]
pub struct NewResult {
    pub session_id: String,
    pub capabilities: Capabilities,
    pub ext: Ext,
}

impl NewResult {
    // In the order of the rule.
    const NAMES: &'static [&'static str] = &["sessionId", "capabilities"];

    /// The result, with further members. Takes no memory.
    ///
    /// # Errors
    /// - `Clash`: a further member is called `sessionId` or `capabilities`.
    /// - `TooDeep`: a further member has an `Odd` in it, or more than 60 levels.
    pub fn new(
        session_id: String,
        capabilities: Capabilities,
        ext: Members,
    ) -> Result<NewResult, MakeFault>
        // The capabilities are well-formed.
        requires { ⟦<Capabilities as Shape>⟧.shape.well capabilities }
        // Memory aside, the first cause that holds is the fault; with none, the value has these parts.
        ensures made { Makes result
            (has_named (names_in (named new_result)) (members_node ext.entries) ≡ true)
            ⊥
            (¬ MembersAreWhole (members_node ext.entries) 60)
            (λ v. (v.session_id ≡ session_id) × (v.capabilities ≡ capabilities) × (others_of v.ext ≡ members_node ext.entries)) }
        // The value is well-formed, so its tree fits the type's rule.
        ensures well { IfOk result (λ v. ⟦<NewResult as Shape>⟧.shape.well v) }
    {
        let ext = further(ext, Self::NAMES)?;
        Ok(NewResult {
            session_id,
            capabilities,
            ext,
        })
    }
}

type ResultParts = Required<String, Required<Capabilities, Ext>>;

impl Shape for NewResult {
    ghost shape = { map_shape (named new_result) ⟦<ResultParts as Fields>⟧.table [] (λ v. (v.session_id, (v.capabilities, v.ext))) refl refl };

    fn from_tree<S: Parsed>(alloc: Global, tree: &S) -> Result<NewResult, ShapeFault> {
        let parts = read_fields(alloc, tree, Self::NAMES, &[])?;
        let Required(session_id, Required(capabilities, ext)) = parts;
        Ok(NewResult {
            session_id,
            capabilities,
            ext,
        })
    }

    fn outline<'a>(&'a self, alloc: Global) -> Result<Outline<'a>, AllocError> {
        let members = One(&self.session_id, One(&self.capabilities, Rest(&self.ext)));
        outline_fields(alloc, &members, Self::NAMES, &[])
    }
}

/// What a session can do.
///
/// `{ acceptInsecureCerts: bool, browserName: text, browserVersion: text, platformName: text, setWindowRect: bool,
/// userAgent: text, Extensible }`
///
/// After WebDriver BiDi, "The session.new Command".
#[derive(Drop)]
pub struct Capabilities {
    pub accept_insecure_certs: bool,
    pub browser_name: String,
    pub browser_version: String,
    pub platform_name: String,
    pub set_window_rect: bool,
    pub user_agent: String,
    pub ext: Ext,
}

impl Capabilities {
    // In the order of the rule.
    const NAMES: &'static [&'static str] = &[
        "acceptInsecureCerts",
        "browserName",
        "browserVersion",
        "platformName",
        "setWindowRect",
        "userAgent",
    ];

    /// The capabilities, with further members. Takes no memory.
    ///
    /// # Errors
    /// - `Clash`: a further member is called `acceptInsecureCerts`, `browserName`, `browserVersion`,
    ///   `platformName`, `setWindowRect` or `userAgent`.
    /// - `TooDeep`: a further member has an `Odd` in it, or more than 60 levels.
    pub fn new(
        accept_insecure_certs: bool,
        browser_name: String,
        browser_version: String,
        platform_name: String,
        set_window_rect: bool,
        user_agent: String,
        ext: Members,
    ) -> Result<Capabilities, MakeFault>
        // Memory aside, the first cause that holds is the fault; with none, the value has these parts.
        ensures made { Makes result
            (has_named (names_in (named capabilities)) (members_node ext.entries) ≡ true)
            ⊥
            (¬ MembersAreWhole (members_node ext.entries) 60)
            (λ v. (v.accept_insecure_certs ≡ accept_insecure_certs)
            × (v.browser_name ≡ browser_name) × (v.browser_version ≡ browser_version) × (v.platform_name ≡ platform_name)
            × (v.set_window_rect ≡ set_window_rect) × (v.user_agent ≡ user_agent) × (others_of v.ext ≡ members_node ext.entries)) }
        // The value is well-formed, so its tree fits the type's rule.
        ensures well { IfOk result (λ v. ⟦<Capabilities as Shape>⟧.shape.well v) }
    {
        let ext = further(ext, Self::NAMES)?;
        Ok(Capabilities {
            accept_insecure_certs,
            browser_name,
            browser_version,
            platform_name,
            set_window_rect,
            user_agent,
            ext,
        })
    }
}

type CapabilitiesParts = Required<
    bool,
    Required<String, Required<String, Required<String, Required<bool, Required<String, Ext>>>>>,
>;

impl Shape for Capabilities {
    ghost shape = { map_shape (named capabilities) ⟦<CapabilitiesParts as Fields>⟧.table []
        (λ v. (v.accept_insecure_certs, (v.browser_name, (v.browser_version, (v.platform_name, (v.set_window_rect, (v.user_agent, v.ext))))))) refl refl };

    fn from_tree<S: Parsed>(alloc: Global, tree: &S) -> Result<Capabilities, ShapeFault> {
        let Required(
            accept_insecure_certs,
            Required(
                browser_name,
                Required(
                    browser_version,
                    Required(platform_name, Required(set_window_rect, Required(user_agent, ext))),
                ),
            ),
        ) = read_fields(alloc, tree, Self::NAMES, &[])?;
        Ok(Capabilities {
            accept_insecure_certs,
            browser_name,
            browser_version,
            platform_name,
            set_window_rect,
            user_agent,
            ext,
        })
    }

    fn outline<'a>(&'a self, alloc: Global) -> Result<Outline<'a>, AllocError> {
        let members = One(
            &self.accept_insecure_certs,
            One(
                &self.browser_name,
                One(
                    &self.browser_version,
                    One(
                        &self.platform_name,
                        One(
                            &self.set_window_rect,
                            One(&self.user_agent, Rest(&self.ext)),
                        ),
                    ),
                ),
            ),
        );
        outline_fields(alloc, &members, Self::NAMES, &[])
    }
}
