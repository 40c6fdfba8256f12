//! The data of events: name and params.
ghost use Rattle.std.specs.Prelude.{◌≡◌, IfOk, refl};
ghost use Rattle.bidi_tree.specs.View.{node};

use crate::payload::Payload;
use bidi_params::{Info, NavigationInfo};
use bidi_scripts::{LogEntry, RealmDestroyedParameters, RealmInfo};
use bidi_shape::{Named, Parsed, Shape, ShapeFault};
use bidi_tree::{Outline, Tree};
use std::alloc::{AllocError, Global};

/// The name of an event: its member `method`.
///
/// After WebDriver BiDi, "Protocol".
#[derive(Clone, Copy, Debug, PartialEq, Eq)]
pub enum EventName {
    /// `browsingContext.contextCreated`: a context was created, or existed when the event was enabled.
    ContextCreated,
    /// `browsingContext.contextDestroyed`: a context was destroyed, with all contexts below it.
    ContextDestroyed,
    /// `browsingContext.navigationStarted`: a context began to navigate to a URL, which may be its own again.
    NavigationStarted,
    /// `browsingContext.domContentLoaded`: the new document is parsed.
    DomContentLoaded,
    /// `browsingContext.load`: the new document is loaded, with everything that it needs.
    Load,
    /// `script.realmCreated`: a realm was created, or existed when the event was enabled.
    RealmCreated,
    /// `script.realmDestroyed`: a realm was destroyed, with its handles.
    RealmDestroyed,
    /// `log.entryAdded`: an entry was added to the log, or was buffered when the event was enabled.
    EntryAdded,
}

impl Named for EventName {
    ghost use Rattle.bidi_methods.specs.EventName.{event_words};

    ghost words = { event_words };

    fn all() -> &'static [EventName] {
        &[
            EventName::ContextCreated,
            EventName::ContextDestroyed,
            EventName::NavigationStarted,
            EventName::DomContentLoaded,
            EventName::Load,
            EventName::RealmCreated,
            EventName::RealmDestroyed,
            EventName::EntryAdded,
        ]
    }

    fn name(&self) -> &'static str {
        match self {
            EventName::ContextCreated => "browsingContext.contextCreated",
            EventName::ContextDestroyed => "browsingContext.contextDestroyed",
            EventName::NavigationStarted => "browsingContext.navigationStarted",
            EventName::DomContentLoaded => "browsingContext.domContentLoaded",
            EventName::Load => "browsingContext.load",
            EventName::RealmCreated => "script.realmCreated",
            EventName::RealmDestroyed => "script.realmDestroyed",
            EventName::EntryAdded => "log.entryAdded",
        }
    }
}

/// An event: its name with its params.
///
/// After WebDriver BiDi, "Protocol".
#[derive(Drop)]
pub enum EventData {
    /// `browsingContext.contextCreated`, with the context and the id of its parent.
    ContextCreated(Info),
    /// `browsingContext.contextDestroyed`, with the context and all contexts that were below it.
    ContextDestroyed(Info),
    /// `browsingContext.navigationStarted`, with the navigation and its URL.
    NavigationStarted(NavigationInfo),
    /// `browsingContext.domContentLoaded`, with the navigation that led to the document.
    DomContentLoaded(NavigationInfo),
    /// `browsingContext.load`, with the navigation that led to the document.
    Load(NavigationInfo),
    /// `script.realmCreated`, with the realm, its origin and its context.
    RealmCreated(RealmInfo),
    /// `script.realmDestroyed`, with the id of the realm.
    RealmDestroyed(RealmDestroyedParameters),
    /// `log.entryAdded`, with the entry.
    EntryAdded(LogEntry),
}

impl Payload<EventName> for EventData {
    ghost use Rattle.bidi_methods.specs.EventData.{event_payload};

    ghost payload = { event_payload };

    fn kind(&self) -> EventName {
        match self {
            EventData::ContextCreated(_) => EventName::ContextCreated,
            EventData::ContextDestroyed(_) => EventName::ContextDestroyed,
            EventData::NavigationStarted(_) => EventName::NavigationStarted,
            EventData::DomContentLoaded(_) => EventName::DomContentLoaded,
            EventData::Load(_) => EventName::Load,
            EventData::RealmCreated(_) => EventName::RealmCreated,
            EventData::RealmDestroyed(_) => EventName::RealmDestroyed,
            EventData::EntryAdded(_) => EventName::EntryAdded,
        }
    }

    fn read<S: Parsed>(alloc: Global, kind: EventName, tree: &S) -> Result<EventData, ShapeFault> {
        match kind {
            EventName::ContextCreated => Ok(EventData::ContextCreated(Info::from_tree(
                alloc, tree,
            )?)),
            EventName::ContextDestroyed => Ok(EventData::ContextDestroyed(Info::from_tree(
                alloc, tree,
            )?)),
            EventName::NavigationStarted => Ok(EventData::NavigationStarted(
                NavigationInfo::from_tree(alloc, tree)?,
            )),
            EventName::DomContentLoaded => Ok(EventData::DomContentLoaded(NavigationInfo::from_tree(
                alloc, tree,
            )?)),
            EventName::Load => Ok(EventData::Load(NavigationInfo::from_tree(alloc, tree)?)),
            EventName::RealmCreated => Ok(EventData::RealmCreated(RealmInfo::from_tree(
                alloc, tree,
            )?)),
            EventName::RealmDestroyed => Ok(EventData::RealmDestroyed(
                RealmDestroyedParameters::from_tree(alloc, tree)?,
            )),
            EventName::EntryAdded => Ok(EventData::EntryAdded(LogEntry::from_tree(alloc, tree)?)),
        }
    }

    fn outline<'a>(&'a self, alloc: Global) -> Result<Outline<'a>, AllocError> {
        match self {
            EventData::ContextCreated(params) => params.outline(alloc),
            EventData::ContextDestroyed(params) => params.outline(alloc),
            EventData::NavigationStarted(params) => params.outline(alloc),
            EventData::DomContentLoaded(params) => params.outline(alloc),
            EventData::Load(params) => params.outline(alloc),
            EventData::RealmCreated(params) => params.outline(alloc),
            EventData::RealmDestroyed(params) => params.outline(alloc),
            EventData::EntryAdded(params) => params.outline(alloc),
        }
    }
}

impl EventData {
    /// The name of the event. Takes no memory.
    pub fn event(&self) -> EventName
        // The result is the name of the variant.
        ensures { result ≡ ⟦<EventData as Payload<EventName>>⟧.payload.kind self.now }
    {
        self.kind()
    }

    /// Makes the tree of the event's params.
    ///
    /// # Errors
    /// No memory: an allocation failed.
    pub fn tree_of(&self, alloc: Global) -> Result<Tree, AllocError>
        // The result is the tree of the params.
        ensures { IfOk result (λ t. node t ≡ ⟦<EventData as Payload<EventName>>⟧.payload.tree_of self.now) }
    {
        self.to_tree(alloc)
    }
}
