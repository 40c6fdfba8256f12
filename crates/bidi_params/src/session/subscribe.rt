//! Subscriptions to events.
ghost use Rattle.std.specs.Prelude.{◌≡◌, IfOk, IfSome, true, refl, []};
ghost use Rattle.bidi_shape.specs.Name.{subscribe_parameters, subscribe_result, unsubscribe_by_id, unsubscribe_by_events, unsubscribe_parameters};
ghost use Rattle.bidi_shape.specs.Table.{map_shape};
ghost use Rattle.bidi_shape.specs.Made.{Makes, named, MembersAreWhole, members_node, has_named, names_in, others_of};

use bidi_shape::{
    Either, Ext, Fields, MakeFault, Maybe, One, OneOrMore, Optional, Parsed, Required, Rest, Shape,
    ShapeFault, further, not_shadowed, outline_fields, read_choice, read_fields,
};
use bidi_tree::{Members, Outline};
use std::alloc::{AllocError, Global};

/// Parameters of `session.subscribe`.
///
/// `{ events: [+text], ? contexts: [+text], ? userContexts: [+text], Extensible }`
///
/// `events` are names of events, or of modules for each of their events. Without `contexts` and `userContexts` the
/// subscription holds for all contexts.
///
/// After WebDriver BiDi, "The session.subscribe Command".
#[derive(Drop)]
pub struct SubscribeParameters {
    pub events: OneOrMore<String>,
    pub contexts: Option<OneOrMore<String>>,
    pub user_contexts: Option<OneOrMore<String>>,
    pub ext: Ext,
}

impl SubscribeParameters {
    // In the order of the rule.
    const NAMES: &'static [&'static str] = &["events", "contexts", "userContexts"];

    /// The parameters, with further members. Takes no memory.
    ///
    /// # Errors
    /// - `Clash`: a further member is called `events`, `contexts` or `userContexts`.
    /// - `TooDeep`: a further member has an `Odd` in it, or more than 60 levels.
    pub fn new(
        events: OneOrMore<String>,
        contexts: Option<OneOrMore<String>>,
        user_contexts: Option<OneOrMore<String>>,
        ext: Members,
    ) -> Result<SubscribeParameters, MakeFault>
        // There is at least one event name.
        requires events { ⟦<OneOrMore<String> as Shape>⟧.shape.well events }
        // There is at least one context, if contexts are given.
        requires contexts { IfSome contexts ⟦<OneOrMore<String> as Shape>⟧.shape.well }
        // There is at least one user context, if they are given.
        requires user_contexts { IfSome user_contexts ⟦<OneOrMore<String> as Shape>⟧.shape.well }
        // Memory aside, the first cause that holds is the fault; with none, the value has these parts.
        ensures made { Makes result
            (has_named (names_in (named subscribe_parameters)) (members_node ext.entries) ≡ true)
            ⊥
            (¬ MembersAreWhole (members_node ext.entries) 60)
            (λ v. (v.events ≡ events) × (v.contexts ≡ contexts) × (v.user_contexts ≡ user_contexts) × (others_of v.ext ≡ members_node ext.entries)) }
        // The value is well-formed, so its tree fits the type's rule.
        ensures well { IfOk result (λ v. ⟦<SubscribeParameters as Shape>⟧.shape.well v) }
    {
        let ext = further(ext, Self::NAMES)?;
        Ok(SubscribeParameters {
            events,
            contexts,
            user_contexts,
            ext,
        })
    }
}

type SubscribeParts = Required<
    OneOrMore<String>,
    Optional<OneOrMore<String>, Optional<OneOrMore<String>, Ext>>,
>;

impl Shape for SubscribeParameters {
    ghost shape = { map_shape (named subscribe_parameters) ⟦<SubscribeParts as Fields>⟧.table []
        (λ v. (v.events, (v.contexts, (v.user_contexts, v.ext)))) refl refl };

    fn from_tree<S: Parsed>(alloc: Global, tree: &S) -> Result<SubscribeParameters, ShapeFault> {
        let parts = read_fields(alloc, tree, Self::NAMES, &[])?;
        let Required(events, Optional(contexts, Optional(user_contexts, ext))) = parts;
        Ok(SubscribeParameters {
            events,
            contexts,
            user_contexts,
            ext,
        })
    }

    fn outline<'a>(&'a self, alloc: Global) -> Result<Outline<'a>, AllocError> {
        let members = One(
            &self.events,
            Maybe(&self.contexts, Maybe(&self.user_contexts, Rest(&self.ext))),
        );
        outline_fields(alloc, &members, Self::NAMES, &[])
    }
}

/// The id of a new subscription.
///
/// `{ subscription: text, Extensible }`
///
/// After WebDriver BiDi, "The session.subscribe Command".
#[derive(Drop)]
pub struct SubscribeResult {
    pub subscription: String,
    pub ext: Ext,
}

impl SubscribeResult {
    // In the order of the rule.
    const NAMES: &'static [&'static str] = &["subscription"];

    /// The result, with further members. Takes no memory.
    ///
    /// # Errors
    /// - `Clash`: a further member is called `subscription`.
    /// - `TooDeep`: a further member has an `Odd` in it, or more than 60 levels.
    pub fn new(subscription: String, ext: Members) -> Result<SubscribeResult, MakeFault>
        // Memory aside, the first cause that holds is the fault; with none, the value has these parts.
        ensures made { Makes result
            (has_named (names_in (named subscribe_result)) (members_node ext.entries) ≡ true)
            ⊥
            (¬ MembersAreWhole (members_node ext.entries) 60)
            (λ v. (v.subscription ≡ subscription) × (others_of v.ext ≡ members_node ext.entries)) }
        // The value is well-formed, so its tree fits the type's rule.
        ensures well { IfOk result (λ v. ⟦<SubscribeResult as Shape>⟧.shape.well v) }
    {
        let ext = further(ext, Self::NAMES)?;
        Ok(SubscribeResult { subscription, ext })
    }
}

impl Shape for SubscribeResult {
    ghost shape = { map_shape (named subscribe_result) ⟦<Required<String, Ext> as Fields>⟧.table [] (λ v. (v.subscription, v.ext)) refl refl };

    fn from_tree<S: Parsed>(alloc: Global, tree: &S) -> Result<SubscribeResult, ShapeFault> {
        let Required(subscription, ext) = read_fields(alloc, tree, Self::NAMES, &[])?;
        Ok(SubscribeResult { subscription, ext })
    }

    fn outline<'a>(&'a self, alloc: Global) -> Result<Outline<'a>, AllocError> {
        let members = One(&self.subscription, Rest(&self.ext));
        outline_fields(alloc, &members, Self::NAMES, &[])
    }
}

/// The subscriptions that end, by their ids.
///
/// `{ subscriptions: [+text], Extensible }`
///
/// After WebDriver BiDi, "The session.unsubscribe Command".
#[derive(Drop)]
pub struct UnsubscribeById {
    pub subscriptions: OneOrMore<String>,
    pub ext: Ext,
}

impl UnsubscribeById {
    // In the order of the rule.
    const NAMES: &'static [&'static str] = &["subscriptions"];

    /// The parameters, with further members. Takes no memory.
    ///
    /// # Errors
    /// - `Clash`: a further member is called `subscriptions`.
    /// - `TooDeep`: a further member has an `Odd` in it, or more than 60 levels.
    pub fn new(subscriptions: OneOrMore<String>, ext: Members) -> Result<UnsubscribeById, MakeFault>
        // There is at least one subscription.
        requires { ⟦<OneOrMore<String> as Shape>⟧.shape.well subscriptions }
        // Memory aside, the first cause that holds is the fault; with none, the value has these parts.
        ensures made { Makes result
            (has_named (names_in (named unsubscribe_by_id)) (members_node ext.entries) ≡ true)
            ⊥
            (¬ MembersAreWhole (members_node ext.entries) 60)
            (λ v. (v.subscriptions ≡ subscriptions) × (others_of v.ext ≡ members_node ext.entries)) }
        // The value is well-formed, so its tree fits the type's rule.
        ensures well { IfOk result (λ v. ⟦<UnsubscribeById as Shape>⟧.shape.well v) }
    {
        let ext = further(ext, Self::NAMES)?;
        Ok(UnsubscribeById { subscriptions, ext })
    }
}

impl Shape for UnsubscribeById {
    ghost shape = { map_shape (named unsubscribe_by_id) ⟦<Required<OneOrMore<String>, Ext> as Fields>⟧.table [] (λ v. (v.subscriptions, v.ext)) refl refl };

    fn from_tree<S: Parsed>(alloc: Global, tree: &S) -> Result<UnsubscribeById, ShapeFault> {
        let Required(subscriptions, ext) = read_fields(alloc, tree, Self::NAMES, &[])?;
        Ok(UnsubscribeById { subscriptions, ext })
    }

    fn outline<'a>(&'a self, alloc: Global) -> Result<Outline<'a>, AllocError> {
        let members = One(&self.subscriptions, Rest(&self.ext));
        outline_fields(alloc, &members, Self::NAMES, &[])
    }
}

/// The events that are no longer subscribed to, by their names or those of their modules.
///
/// `{ events: [+text], Extensible }`
///
/// After WebDriver BiDi, "The session.unsubscribe Command".
#[derive(Drop)]
pub struct UnsubscribeByEvents {
    pub events: OneOrMore<String>,
    pub ext: Ext,
}

impl UnsubscribeByEvents {
    ghost use Rattle.bidi_shape.specs.Fits.{Fits};
    ghost use Rattle.bidi_params.specs.Session.{by_events_map};

    // In the order of the rule.
    const NAMES: &'static [&'static str] = &["events"];

    /// The parameters, with further members.
    ///
    /// # Errors
    /// - `Clash`: a further member is called `events`.
    /// - `Shadowed`: the map is an [`UnsubscribeById`].
    /// - `TooDeep`: a further member has an `Odd` in it, or more than 60 levels.
    /// - `NoMemory`: an allocation failed.
    pub fn new(
        alloc: Global,
        events: OneOrMore<String>,
        ext: Members,
    ) -> Result<UnsubscribeByEvents, MakeFault>
        // There is at least one event name.
        requires { ⟦<OneOrMore<String> as Shape>⟧.shape.well events }
        // Memory aside, the first cause that holds is the fault; with none, the value has these parts.
        ensures made { Makes result
            (has_named (names_in (named unsubscribe_by_events)) (members_node ext.entries) ≡ true)
            (Fits (by_events_map events.items.items (members_node ext.entries)) (named unsubscribe_by_id))
            (¬ MembersAreWhole (members_node ext.entries) 60)
            (λ v. (v.events ≡ events) × (others_of v.ext ≡ members_node ext.entries)) }
        // The value is well-formed, so its tree fits the type's rule.
        ensures well { IfOk result (λ v. ⟦<UnsubscribeByEvents as Shape>⟧.shape.well v) }
    {
        let ext = Ext::new(ext, Self::NAMES)?;
        let made = UnsubscribeByEvents { events, ext };
        not_shadowed::<UnsubscribeById, UnsubscribeByEvents>(alloc, &made)?;
        if !made.ext.is_whole() {
            return Err(MakeFault::TooDeep);
        }
        Ok(made)
    }
}

impl Shape for UnsubscribeByEvents {
    ghost shape = { map_shape (named unsubscribe_by_events) ⟦<Required<OneOrMore<String>, Ext> as Fields>⟧.table [] (λ v. (v.events, v.ext)) refl refl };

    fn from_tree<S: Parsed>(alloc: Global, tree: &S) -> Result<UnsubscribeByEvents, ShapeFault> {
        let Required(events, ext) = read_fields(alloc, tree, Self::NAMES, &[])?;
        Ok(UnsubscribeByEvents { events, ext })
    }

    fn outline<'a>(&'a self, alloc: Global) -> Result<Outline<'a>, AllocError> {
        let members = One(&self.events, Rest(&self.ext));
        outline_fields(alloc, &members, Self::NAMES, &[])
    }
}

/// Parameters of `session.unsubscribe`.
///
/// `UnsubscribeById / UnsubscribeByEvents`
///
/// After WebDriver BiDi, "The session.unsubscribe Command".
#[derive(Drop)]
pub enum UnsubscribeParameters {
    /// Single subscriptions, whatever they hold for. Tried first.
    ById(UnsubscribeById),
    /// Events of the subscriptions that hold for all contexts.
    ByEvents(UnsubscribeByEvents),
}

impl Shape for UnsubscribeParameters {
    ghost use Rattle.bidi_shape.specs.ThroughLaws.{shape_through};
    ghost use Rattle.bidi_shape.specs.declared.choice.Either.TheVariants.{First, Second};
    ghost use Rattle.bidi_params.specs.declared.session.subscribe.UnsubscribeParameters.TheVariants.{ById, ByEvents};

    ghost shape = { shape_through (named unsubscribe_parameters) ⟦<Either<UnsubscribeById, UnsubscribeByEvents> as Shape>⟧.shape
        (λ v. elim v [ ById i ↦ First i | ByEvents e ↦ Second e ]) refl };

    fn from_tree<S: Parsed>(alloc: Global, tree: &S) -> Result<UnsubscribeParameters, ShapeFault> {
        match read_choice(alloc, tree)? {
            Either::First(by_id) => Ok(UnsubscribeParameters::ById(by_id)),
            Either::Second(by_events) => Ok(UnsubscribeParameters::ByEvents(by_events)),
        }
    }

    fn outline<'a>(&'a self, alloc: Global) -> Result<Outline<'a>, AllocError> {
        match self {
            UnsubscribeParameters::ById(by_id) => by_id.outline(alloc),
            UnsubscribeParameters::ByEvents(by_events) => by_events.outline(alloc),
        }
    }
}
