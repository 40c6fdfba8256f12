//! What is told of a context: its Infos and its events.
ghost use Rattle.std.specs.Prelude.{◌≡◌, ℕ, ◌≤◌, ◌<◌, ◌+◌, ◌^◌, IfOk, map, option_map};
ghost use Rattle.bidi_contexts.specs.ContextRows.{row_of, inner_info, root_info, shown_info, created_in, realm_info_at};
ghost use Rattle.bidi_contexts.specs.ContextRows.{realm_info_in, realm_began_in, realm_created_in, realm_destroyed_in};
ghost use Rattle.bidi_contexts.specs.ContextRows.{navigation_info_in, occurrence_in};
ghost use Rattle.bidi_contexts.specs.Info.{parent_tree};
ghost use Rattle.bidi_contexts.specs.InfosInHand.{children_node, parent_node, AreWithin, AreWithinIfTold, IsWithin};
ghost use Rattle.bidi_handles.specs.Maps.{listed};
ghost use Rattle.bidi_contexts.specs.View.{EventIsWell, occurrence_of};
ghost use Rattle.bidi_methods.specs.declared.event_data.EventName.TheVariants.{ContextDestroyed, NavigationStarted, DomContentLoaded, Load, EntryAdded};

use crate::context::Context;
use crate::occurrence::{Occurrence, Top};
use crate::urls::origin_text;
use crate::users::user_text;
use bidi_handles::{IdKind, id_text};
use bidi_methods::{EventData, EventName, Payload};
use bidi_params::{Info, NavigationInfo};
use bidi_scripts::{LogEntry, RealmDestroyedParameters, RealmInfo};
use bidi_shape::{Ext, Shape};
use bidi_tree::JsUint;
use std::alloc::{AllocError, Global};
use url::Url;

impl Context {
    /// Its Info as one of its parent's children: these children, and no member `parent`.
    pub(crate) fn info(&self, alloc: Global, children: Vec<Info>) -> Result<Info, AllocError>
        ensures tree { IfOk result (λ i. ⟦<Info as Shape>⟧.shape.tree_of i
            ≡ inner_info (row_of self.now) (listed (map ⟦<Info as Shape>⟧.shape.tree_of children.items))) }
        ensures well { (n : ℕ) → AreWithin ⟦<Info as Shape>⟧.shape n children.items → n ≤ 58 → IfOk result (IsWithin ⟦<Info as Shape>⟧.shape (n + 2)) }
    {
        self.shown(alloc, None, Some(children))
    }

    /// Its Info as the root of a tree: these children, and a member `parent`, null for a top-level context.
    pub(crate) fn root_info(
        &self,
        alloc: Global,
        children: Option<Vec<Info>>,
    ) -> Result<Info, AllocError>
        ensures tree { IfOk result (λ i. ⟦<Info as Shape>⟧.shape.tree_of i
            ≡ root_info (row_of self.now) (children_node ⟦<Info as Shape>⟧.shape.tree_of children)) }
        ensures well { (n : ℕ) → AreWithinIfTold ⟦<Info as Shape>⟧.shape n children → n ≤ 58 → IfOk result (IsWithin ⟦<Info as Shape>⟧.shape (n + 2)) }
    {
        let parent = self.parent_id(alloc)?;
        self.shown(alloc, Some(parent), children)
    }

    // The id of its parent; `None` for a top-level context.
    fn parent_id(&self, alloc: Global) -> Result<Option<String>, AllocError>
        ensures { IfOk result (λ id. parent_node id ≡ parent_tree (row_of self.now).parent) }
    {
        match self.details.parent {
            Some(parent) => Ok(Some(id_text(alloc, IdKind::Context, 0, parent)?)),
            None => Ok(None),
        }
    }

    // Its Info with these children; it has a member `parent` only where one is given.
    fn shown(
        &self,
        alloc: Global,
        parent: Option<Option<String>>,
        children: Option<Vec<Info>>,
    ) -> Result<Info, AllocError>
        ensures tree { IfOk result (λ i. ⟦<Info as Shape>⟧.shape.tree_of i
            ≡ shown_info (option_map parent_node parent) (row_of self.now) (children_node ⟦<Info as Shape>⟧.shape.tree_of children)) }
        ensures well { (n : ℕ) → AreWithinIfTold ⟦<Info as Shape>⟧.shape n children → n ≤ 58 → IfOk result (IsWithin ⟦<Info as Shape>⟧.shape (n + 2)) }
    {
        Ok(Info {
            children,
            client_window: id_text(alloc, IdKind::Window, 0, self.window())?,
            context: id_text(alloc, IdKind::Context, 0, self.number)?,
            original_opener: None,
            url: String::from_str(alloc, self.history().present().as_str())?,
            user_context: user_text(alloc, self.user())?,
            parent,
            ext: Ext::empty(alloc),
        })
    }

    /// The RealmInfo of its realm.
    pub fn own_realm(&self, alloc: Global) -> Result<RealmInfo, AllocError>
        // Its tree has the id of the realm, the origin of the URL and the id of the context.
        ensures tree { IfOk result (λ r. ⟦<RealmInfo as Shape>⟧.shape.tree_of r ≡ realm_info_in (row_of self.now)) }
        // It is well formed.
        ensures well { IfOk result ⟦<RealmInfo as Shape>⟧.shape.well }
    {
        self.realm_info(alloc, self.realm(), self.history().present())
    }

    // The RealmInfo of a realm of this context whose document is at this URL.
    fn realm_info(&self, alloc: Global, realm: u64, url: &Url) -> Result<RealmInfo, AllocError>
        requires { realm < 2 ^ 48 }
        ensures tree { IfOk result (λ r. ⟦<RealmInfo as Shape>⟧.shape.tree_of r ≡ realm_info_at (row_of self.now) realm url.now) }
        ensures well { IfOk result ⟦<RealmInfo as Shape>⟧.shape.well }
    {
        Ok(RealmInfo {
            realm: id_text(alloc, IdKind::Realm, 0, realm)?,
            origin: origin_text(alloc, url)?,
            context: id_text(alloc, IdKind::Context, 0, self.number)?,
            ext: Ext::empty(alloc),
        })
    }

    /// The contextCreated event of this context.
    pub fn created(&self, alloc: Global) -> Result<Occurrence, AllocError>
        // It is the contextCreated event of its row.
        ensures told { IfOk result (λ o. occurrence_of o ≡ created_in (row_of self.now)) }
        // A message can be made of it.
        ensures well { IfOk result (λ o. EventIsWell o.event) }
    {
        let info = self.root_info(alloc, None)?;
        Ok(self.occurrence(EventData::ContextCreated(info)))
    }

    /// The contextDestroyed event of this context, with its Info to the whole depth. Takes no memory.
    pub fn destroyed(&self, info: Info) -> Occurrence
        // It is a contextDestroyed event of this context, with the Info.
        ensures told { occurrence_of result
            ≡ occurrence_in (row_of self.now) ContextDestroyed (⟦<Info as Shape>⟧.shape.tree_of info) }
        // A message can be made of it if the Info is well formed.
        ensures well { ⟦<Info as Shape>⟧.shape.well info → EventIsWell result.event }
    {
        self.occurrence(EventData::ContextDestroyed(info))
    }

    /// The realmCreated event of its realm.
    pub fn realm_created(&self, alloc: Global) -> Result<Occurrence, AllocError>
        // It is the realmCreated event of its row.
        ensures told { IfOk result (λ o. occurrence_of o ≡ realm_created_in (row_of self.now)) }
        // A message can be made of it.
        ensures well { IfOk result (λ o. EventIsWell o.event) }
    {
        self.realm_began(alloc, self.realm(), self.history().present())
    }

    /// The realmCreated event of a realm that this context gets at a URL.
    pub fn realm_began(
        &self,
        alloc: Global,
        realm: u64,
        url: &Url,
    ) -> Result<Occurrence, AllocError>
        // The number of the realm can stand in an id.
        requires { realm < 2 ^ 48 }
        // It is the realmCreated event of its row for the realm and the URL.
        ensures told { IfOk result (λ o. occurrence_of o ≡ realm_began_in (row_of self.now) realm url.now) }
        // A message can be made of it.
        ensures well { IfOk result (λ o. EventIsWell o.event) }
    {
        let info = self.realm_info(alloc, realm, url)?;
        Ok(self.occurrence(EventData::RealmCreated(info)))
    }

    /// The realmDestroyed event of its realm.
    pub fn realm_destroyed(&self, alloc: Global) -> Result<Occurrence, AllocError>
        // It is the realmDestroyed event of its row.
        ensures told { IfOk result (λ o. occurrence_of o ≡ realm_destroyed_in (row_of self.now)) }
        // A message can be made of it.
        ensures well { IfOk result (λ o. EventIsWell o.event) }
    {
        let realm = id_text(alloc, IdKind::Realm, 0, self.realm())?;
        let params = RealmDestroyedParameters {
            realm,
            ext: Ext::empty(alloc),
        };
        Ok(self.occurrence(EventData::RealmDestroyed(params)))
    }

    /// The params of the events of a navigation of this context to a URL.
    pub fn navigation_info(
        &self,
        alloc: Global,
        moment: JsUint,
        navigation: u64,
        url: &Url,
    ) -> Result<NavigationInfo, AllocError>
        // The number of the navigation can stand in an id.
        requires { navigation < 2 ^ 48 }
        // Its tree has the ids of the context and the navigation, the moment and the URL.
        ensures tree { IfOk result (λ i. ⟦<NavigationInfo as Shape>⟧.shape.tree_of i ≡ navigation_info_in (row_of self.now) moment.value navigation url.now) }
        // It is well formed.
        ensures well { IfOk result ⟦<NavigationInfo as Shape>⟧.shape.well }
    {
        Ok(NavigationInfo {
            context: id_text(alloc, IdKind::Context, 0, self.number)?,
            navigation: Some(id_text(alloc, IdKind::Navigation, 0, navigation)?),
            timestamp: moment,
            url: String::from_str(alloc, url.as_str())?,
            ext: Ext::empty(alloc),
        })
    }

    /// The navigationStarted event of this context. Takes no memory.
    pub fn navigation_started(&self, info: NavigationInfo) -> Occurrence
        // It is a navigationStarted event of this context, with the params.
        ensures told { occurrence_of result
            ≡ occurrence_in (row_of self.now) NavigationStarted (⟦<NavigationInfo as Shape>⟧.shape.tree_of info) }
        // A message can be made of it if the params are well formed.
        ensures well { ⟦<NavigationInfo as Shape>⟧.shape.well info → EventIsWell result.event }
    {
        self.occurrence(EventData::NavigationStarted(info))
    }

    /// The domContentLoaded event of this context. Takes no memory.
    pub fn dom_content_loaded(&self, info: NavigationInfo) -> Occurrence
        // It is a domContentLoaded event of this context, with the params.
        ensures told { occurrence_of result
            ≡ occurrence_in (row_of self.now) DomContentLoaded (⟦<NavigationInfo as Shape>⟧.shape.tree_of info) }
        // A message can be made of it if the params are well formed.
        ensures well { ⟦<NavigationInfo as Shape>⟧.shape.well info → EventIsWell result.event }
    {
        self.occurrence(EventData::DomContentLoaded(info))
    }

    /// The load event of this context. Takes no memory.
    pub fn loaded(&self, info: NavigationInfo) -> Occurrence
        // It is a load event of this context, with the params.
        ensures told { occurrence_of result
            ≡ occurrence_in (row_of self.now) Load (⟦<NavigationInfo as Shape>⟧.shape.tree_of info) }
        // A message can be made of it if the params are well formed.
        ensures well { ⟦<NavigationInfo as Shape>⟧.shape.well info → EventIsWell result.event }
    {
        self.occurrence(EventData::Load(info))
    }

    /// The log.entryAdded event of an entry that was logged in this context. Takes no memory.
    pub fn logged(&self, entry: LogEntry) -> Occurrence
        // It is a log.entryAdded event of this context, with the entry.
        ensures told { occurrence_of result
            ≡ occurrence_in (row_of self.now) EntryAdded (⟦<LogEntry as Shape>⟧.shape.tree_of entry) }
        // A message can be made of it if the entry is well formed.
        ensures well { ⟦<LogEntry as Shape>⟧.shape.well entry → EventIsWell result.event }
    {
        self.occurrence(EventData::EntryAdded(entry))
    }

    // An event that occurred in this context.
    fn occurrence(&self, event: EventData) -> Occurrence
        ensures event { result.event ≡ event }
        ensures context { result.context ≡ self.now.number }
        ensures top { result.top ≡ record { number = (row_of self.now).top; user = (row_of self.now).user } }
    {
        Occurrence {
            event,
            context: self.number,
            top: Top {
                number: self.top(),
                user: self.user(),
            },
        }
    }
}
