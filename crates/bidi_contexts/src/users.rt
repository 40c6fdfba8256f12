//! The live user contexts, and what is told of them.
ghost use Rattle.std.specs.Prelude.{◌≡◌, ◌<◌, ◌^◌, ◌==◌, ◌++◌, ℕ, List, [], ◌∷◌, map, find, flat_map, option_map, IfOk, OnOk, IfSome, string_bytes};
ghost use Rattle.bidi_tree.specs.Node.{no_members};
ghost use Rattle.bidi_tree.specs.Text.{compact_text};
ghost use Rattle.bidi_handles.specs.Maps.{◌being◌and◌, mapped, listed};
ghost use Rattle.bidi_contexts.specs.Users.{user_id, user_info, user_named};

use crate::limits::NO_ID;
use bidi_handles::{IdKind, id_number, id_text};
use bidi_params::{ErrorCode, UserContextInfo};
use bidi_shape::{Ext, Shape};
use std::alloc::{AllocError, Global};

/// How many user contexts can be live at once besides the default one.
const MOST_USERS: usize = 64;

/// The room for what is told of a user context.
const USER_ROOM: usize = 64;

/// The number of the default user context, which is always live.
pub const DEFAULT_USER: u64 = 0;

/// The id of the default user context.
pub const DEFAULT_USER_ID: &str = "default";

/// A live user context other than the default one.
#[derive(Drop)]
pub(crate) struct User {
    /// Its number.
    number: u64,
    ghost number_fits: { number < 2 ^ 48 },
}

/// The live user contexts besides the default one, in order of creation.
#[derive(Drop)]
pub struct Users {
    live: Vec<User>,
    /// The number of the next one.
    next: u64,
}

impl Users {
    ghost use Rattle.bidi_contexts.specs.Acts.{Act, UserMade, UserRemoved};
    ghost use Rattle.bidi_contexts.specs.Accepted.{AreAccepted};
    ghost use Rattle.bidi_contexts.specs.Tables.{AreUsersOf, HasIds, HasRoomForUser, IsNextUser, numbers_in};

    /// Those of a new browser: none.
    pub fn new(alloc: Global) -> Users
        // They are the user contexts after the empty past.
        ensures { AreUsersOf result [] }
    {
        Users {
            live: Vec::new(alloc),
            next: 1,
        }
    }

    /// The live user context of this id, the default one too. Passes over them.
    pub fn named(&self, id: &str) -> Option<u64>
        // For every past that they stand for, it is the number of the live user context of the id, if there is one.
        ensures named { (past : List Act) → AreUsersOf self.now past → result ≡ user_named past id.now }
        // The number can stand in an id.
        ensures fits { IfSome result (λ n. n < 2 ^ 48) }
    {
        if id == DEFAULT_USER_ID {
            return Some(DEFAULT_USER);
        }
        numbered(&self.live, id_number(id, IdKind::UserContext, 0)?)
    }

    /// The number of the next one; an error where 64 are live, or no id is left.
    pub fn next(&self) -> Result<u64, ErrorCode>
        // For every past that they stand for, it is the number that the next user context gets, or there is no room for one.
        ensures next { (past : List Act) → AreUsersOf self.now past → HasIds past → IsNextUser result past }
        // The number can stand in an id.
        ensures fits { IfOk result (λ n. n < 2 ^ 48) }
    {
        if self.live.len() < MOST_USERS && self.next < NO_ID {
            Ok(self.next)
        } else {
            Err(ErrorCode::UnknownError)
        }
    }

    /// The text of what is told of all of them, the default one first: `{"userContexts":[..]}`. Makes an id for each.
    pub fn told(&self, alloc: Global) -> Result<String, AllocError>
        // It is the text of the object whose one member is the list of the default user context and of each other live one, by creation.
        ensures { IfOk result (λ s. string_bytes s
            ≡ compact_text (mapped ("userContexts" being listed (map user_info (0 ∷ numbers_in self.now)) and no_members))) }
    {
        let room = self.live.len().saturating_mul(USER_ROOM);
        let mut text = String::with_capacity(alloc, room.saturating_add(USER_ROOM))?;
        text.push_str("{\"userContexts\":[{\"userContext\":\"default\"}")?;
        push_told(alloc, &self.live, &mut text)?;
        text.push_str("]}")?;
        Ok(text)
    }

    /// Makes room for one more.
    pub fn reserve(&mut self) -> Result<(), AllocError>
        // They stand for the same pasts as before, whether it succeeds or not.
        ensures kept { (past : List Act) → AreUsersOf self.old past → AreUsersOf self.new past }
        // On success there is room for one more.
        ensures room { OnOk result (HasRoomForUser self.new) }
    {
        self.live.reserve(1)
    }

    /// Adds the next one, for which room was made. Takes no memory.
    pub fn add(&mut self)
        // There is room for one more.
        requires { HasRoomForUser self.now }
        // They then stand for the past with a new user context added.
        ensures { (past : List Act) → AreUsersOf self.old past → HasIds past → AreAccepted past → AreUsersOf self.new (UserMade ∷ past) }
    {
        // An id is left, or `next` had given none.
        if self.next < NO_ID {
            self.live.push_reserved(User { number: self.next });
            self.next += 1;
        }
    }

    /// Removes the one of this number; that number is never given again. Takes no memory.
    pub fn remove(&mut self, number: u64)
        // They then stand for the past with the removal of the user context added.
        ensures { (past : List Act) → AreUsersOf self.old past → AreUsersOf self.new (UserRemoved number ∷ past) }
    {
        self.live.retain(|user| user.number != number);
    }
}

// This number, where one of these has it.
fn numbered(users: &[User], number: u64) -> Option<u64>
    ensures found { result ≡ option_map (λ u. u.number) (find (λ u. u.number == number) users.now) }
    ensures fits { IfSome result (λ n. n < 2 ^ 48) }
{
    users
        .iter()
        .find(|user| user.number == number)
        .map(|user| user.number)
}

// Adds the text of what is told of each of these, behind a comma.
fn push_told(alloc: Global, users: &[User], text: &mut String) -> Result<(), AllocError>
    ensures { IfOk result (λ _. string_bytes text.new ≡ string_bytes text.old ++ flat_map (λ u. 44 ∷ compact_text (user_info u.number)) users.now) }
{
    for user in users {
        let id = user_text(alloc, user.number)?;
        text.push_str(",{\"userContext\":\"")?;
        text.push_str(&id)?;
        text.push_str("\"}")?;
    }
    Ok(())
}

/// The id of a user context.
pub(crate) fn user_text(alloc: Global, user: u64) -> Result<String, AllocError>
    requires { user < 2 ^ 48 }
    ensures { IfOk result (λ s. string_bytes s ≡ user_id user) }
{
    if user == DEFAULT_USER {
        String::from_str(alloc, DEFAULT_USER_ID)
    } else {
        id_text(alloc, IdKind::UserContext, 0, user)
    }
}

/// What is told of a user context.
pub fn user_info(alloc: Global, user: u64) -> Result<UserContextInfo, AllocError>
    // The number can stand in an id.
    requires { user < 2 ^ 48 }
    // Its tree has the id of the user context.
    ensures tree { IfOk result (λ i. ⟦<UserContextInfo as Shape>⟧.shape.tree_of i ≡ user_info user) }
    // It is well formed.
    ensures well { IfOk result (λ i. ⟦<UserContextInfo as Shape>⟧.shape.well i) }
{
    Ok(UserContextInfo {
        user_context: user_text(alloc, user)?,
        ext: Ext::empty(alloc),
    })
}
