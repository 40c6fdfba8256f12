//! A live context.
ghost use Rattle.std.specs.Prelude.{◌≡◌, ◌<◌, ◌+◌, ◌^◌, [], None, Some, is_none, IfOk, IfSome, OnOk};
ghost use Rattle.std.specs.List.{All};
ghost use Rattle.std.proofs.Props.{props};

use crate::session_history::{Move, SessionHistory};
use crate::urls::about_blank;
use bidi_handles::{Handle, Handles};
use std::alloc::{AllocError, Global};
use url::Url;

/// A live context.
#[derive(Drop)]
pub struct Context {
    /// The number of the context, from which its id is made.
    pub(crate) number: u64,
    /// What else it has. It stands in a block of its own, so that contexts are small to move within their table.
    pub(crate) details: Box<Details>,
    // The number can stand in an id.
    ghost number_fits: { number < 2 ^ 48 },
}

/// What a live context has besides its number.
#[derive(Drop)]
pub(crate) struct Details {
    /// The number of its parent; a top-level context has none.
    pub(crate) parent: Option<u64>,
    /// The number of its top-level context, which may be itself.
    pub(crate) top: u64,
    /// Its level in the tree, 1 for a top-level context.
    pub(crate) level: u64,
    /// The number of its client window.
    pub(crate) window: u64,
    /// The number of its user context; 0 is the default one.
    pub(crate) user: u64,
    /// The number of its realm.
    pub(crate) realm: u64,
    /// Its session history, which has its URL.
    pub(crate) history: SessionHistory,
    /// The handles of its realm, in order of number.
    pub(crate) handles: Handles,
    // The number of the parent can stand in an id.
    ghost parent_fits: { IfSome parent (λ p. p < 2 ^ 48) } by { Prim.hlevel props },
    // The number of the window can stand in an id.
    ghost window_fits: { window < 2 ^ 48 },
    // The number of the user context can stand in an id.
    ghost user_fits: { user < 2 ^ 48 },
    // The number of the realm can stand in an id.
    ghost realm_fits: { realm < 2 ^ 48 },
}

impl Context {
    ghost use Rattle.bidi_contexts.specs.ContextRows.{row_of, moved_in, held_in, without_in};
    ghost use Rattle.bidi_contexts.specs.HistoryInHand.{entries_in, move_of, HasRoomFor, Leads};
    ghost use Rattle.bidi_contexts.specs.Limits.{lowest_level};
    ghost use Rattle.bidi_contexts.specs.Places.{begun_at};
    ghost use Rattle.bidi_contexts.specs.Urls.{about_blank};
    ghost use Rattle.bidi_handles.specs.Handles.{HasSpare, handles_seen};
    ghost use Rattle.bidi_handles.specs.ValuesInHand.{handle_seen};

    /// A new top-level context at `about:blank`, in a user context.
    pub fn top_level(
        alloc: Global,
        number: u64,
        window: u64,
        user: u64,
        realm: u64,
    ) -> Result<Context, AllocError>
        // The number can stand in an id.
        requires number { number < 2 ^ 48 }
        // The number of the window can stand in an id.
        requires window { window < 2 ^ 48 }
        // The number of the user context can stand in an id.
        requires user { user < 2 ^ 48 }
        // The number of the realm can stand in an id.
        requires realm { realm < 2 ^ 48 }
        // It is at level 1 and its own top-level context, its one entry is `about:blank`, and its realm has no handles.
        ensures { IfOk result (λ c. row_of c
            ≡ record {
              number = number;
              parent = None;
              top = number;
              level = 1;
              window = window;
              user = user;
              realm = realm;
              entries = begun_at about_blank;
              handles = [];
            }) }
    {
        let url = about_blank(alloc)?;
        let details = Details {
            parent: None,
            top: number,
            level: 1,
            window,
            user,
            realm,
            history: SessionHistory::begun_at(alloc, url)?,
            handles: Handles::new(alloc),
        };
        Context::of(alloc, number, details)
    }

    /// A new child of this context, at a URL, in the same user context.
    pub fn child(
        &self,
        alloc: Global,
        number: u64,
        realm: u64,
        url: Url,
    ) -> Result<Context, AllocError>
        // The number can stand in an id.
        requires number { number < 2 ^ 48 }
        // The number of the realm can stand in an id.
        requires realm { realm < 2 ^ 48 }
        // It is one level below its parent, has the parent's top-level context, window and user context, its one entry is the
        // URL, and its realm has no handles.
        ensures { (let parent = row_of self.now in
            parent.level < lowest_level
            → IfOk result (λ c. row_of c
            ≡ record {
              number = number;
              parent = Some parent.number;
              top = parent.top;
              level = parent.level + 1;
              window = parent.window;
              user = parent.user;
              realm = realm;
              entries = begun_at url;
              handles = [];
            })) }
    {
        let details = Details {
            parent: Some(self.number),
            top: self.details.top,
            level: self.details.level.wrapping_add(1),
            window: self.details.window,
            user: self.details.user,
            realm,
            history: SessionHistory::begun_at(alloc, url)?,
            handles: Handles::new(alloc),
        };
        Context::of(alloc, number, details)
    }

    // The context of a number with these details.
    fn of(alloc: Global, number: u64, details: Details) -> Result<Context, AllocError>
        requires { number < 2 ^ 48 }
        ensures { IfOk result (λ c. (c.number ≡ number) × (c.details.value ≡ details)) }
    {
        Ok(Context {
            number,
            details: Box::new(alloc, details)?,
        })
    }

    /// Its number, from which its id is made.
    pub fn number(&self) -> u64
        // It is the number in its row.
        ensures number { result ≡ (row_of self.now).number }
        // It can stand in an id.
        ensures fits { result < 2 ^ 48 }
    {
        self.number
    }

    /// Whether it is a top-level context.
    pub fn is_top(&self) -> bool
        // It is one exactly if its row has no parent.
        ensures { result ≡ is_none (row_of self.now).parent }
    {
        self.details.parent.is_none()
    }

    /// The number of its top-level context, which may be itself.
    pub fn top(&self) -> u64
        // It is the number in its row.
        ensures { result ≡ (row_of self.now).top }
    {
        self.details.top
    }

    /// Its level in the tree, 1 for a top-level context.
    pub fn level(&self) -> u64
        // It is the level in its row.
        ensures { result ≡ (row_of self.now).level }
    {
        self.details.level
    }

    /// The number of its client window.
    pub fn window(&self) -> u64
        // It is the number in its row.
        ensures window { result ≡ (row_of self.now).window }
        // It can stand in an id.
        ensures fits { result < 2 ^ 48 }
    {
        self.details.window
    }

    /// The number of its user context; 0 is the default one.
    pub(crate) fn user(&self) -> u64
        ensures user { result ≡ (row_of self.now).user }
        ensures fits { result < 2 ^ 48 }
    {
        self.details.user
    }

    /// The number of its realm.
    pub fn realm(&self) -> u64
        // It is the number in its row.
        ensures realm { result ≡ (row_of self.now).realm }
        // It can stand in an id.
        ensures fits { result < 2 ^ 48 }
    {
        self.details.realm
    }

    /// Its session history, which has its URL.
    pub fn history(&self) -> &SessionHistory
        // It has the entries in its row.
        ensures { entries_in result.now ≡ (row_of self.now).entries }
    {
        &self.details.history
    }

    /// The handles of its realm, in order of number.
    pub fn handles(&self) -> &Handles
        // They are the handles in its row.
        ensures { handles_seen result.now ≡ (row_of self.now).handles }
    {
        &self.details.handles
    }

    /// Makes room in its session history for the entry that a move adds, if it adds one.
    pub(crate) fn reserve(&mut self, to: &Move) -> Result<(), AllocError>
        ensures kept { row_of self.new ≡ row_of self.old }
        ensures room { OnOk result (HasRoomFor self.new.details.value.history to.now) }
    {
        self.details.history.reserve(to)
    }

    /// Makes room for one more handle in its realm.
    pub(crate) fn reserve_handle(&mut self) -> Result<(), AllocError>
        ensures kept { row_of self.new ≡ row_of self.old }
        ensures room { OnOk result (HasSpare self.new.details.value.handles) }
    {
        self.details.handles.reserve()
    }

    /// Moves it in its session history and gives it this new realm, which has no handles. Takes no memory.
    pub(crate) fn navigate(&mut self, realm: u64, to: Move)
        // The number of the realm can stand in an id.
        requires realm { realm < 2 ^ 48 }
        requires room { HasRoomFor self.now.details.value.history to }
        ensures { Leads (entries_in self.old.details.value.history) (move_of to) → row_of self.new ≡ moved_in realm (move_of to) (row_of self.old) }
    {
        self.details.realm = realm;
        self.details.handles.clear();
        self.details.history.go(to);
    }

    /// Adds a handle to its realm, if the number is above those of all handles there. Takes no memory.
    pub(crate) fn hold(&mut self, handle: Handle)
        requires { HasSpare self.now.details.value.handles }
        ensures { All (λ held. held.0 < handle.number) (row_of self.old).handles → row_of self.new ≡ held_in (handle_seen handle) (row_of self.old) }
    {
        self.details.handles.hold(handle);
    }

    /// Releases the handles of these numbers in its realm. Takes no memory.
    pub(crate) fn disown(&mut self, numbers: &[u64])
        ensures { row_of self.new ≡ without_in numbers.now (row_of self.old) }
    {
        self.details.handles.disown(numbers);
    }
}
