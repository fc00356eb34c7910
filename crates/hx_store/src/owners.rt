//! Which keys each session owns.
ghost use Rattle.std.specs.Prelude.{◌≡◌, ℕ, false, not, ◌&&◌, ◌||◌, ◌==◌, [], OnOk, OnErr};
ghost use Rattle.std.specs.List.{list_any};
ghost use Rattle.hx_ids.specs.declared.SessionId.{SessionId};
ghost use Rattle.hx_store.specs.Records.{owns};
ghost use Rattle.hx_store.specs.Owners.{has, IsFirstFrom};
ghost use Rattle.hx_store.specs.Walks.{AreThose, keys_left};

use crate::keys::Keys;
use hx_ids::SessionId;
use std::alloc::{AllocError, Global};
use std::collections::{HashMap, vec_deque};
use std::marker::Model;

/// The keys of each session that owns any, in order. One that owns none any more keeps its room
/// until all its keys are forgotten. Contracts see the sessions in no order.
#[derive(Drop)]
pub(crate) struct Owners {
    alloc: Global,
    lists: HashMap<SessionId, Keys>,
}

impl Model for Owners {
    ghost use Rattle.std.specs.Prelude.{List, ℕ};
    ghost use Rattle.hx_ids.specs.declared.SessionId.{SessionId};

    ghost Value = { List (SessionId × List ℕ) };

    ghost view = { λ a. a.lists.entries };
}

impl Owners {
    /// Nobody owns a key.
    pub(crate) fn new(alloc: Global) -> Owners
        ensures { result ≡ [] }
    {
        Owners {
            alloc,
            lists: HashMap::new(alloc),
        }
    }

    /// Notes the owner of a key, if it has one.
    pub(crate) fn claim(&mut self, owner: Option<SessionId>, key: u64) -> Result<(), AllocError>
        ensures ok { OnOk result
            ((s : SessionId) (k : ℕ)
            → has self.new s k ≡ (has self.old s k || (owns owner s && (key == k)))) }
        ensures err { OnErr result (self.new ≡ self.old) }
    {
        match owner {
            None => Ok(()),
            Some(session) => self.put(session, key),
        }
    }

    /// Forgets that a session owns a key. It takes no memory.
    pub(crate) fn release(&mut self, owner: Option<SessionId>, key: u64)
        ensures { (s : SessionId) (k : ℕ)
            → has self.new s k ≡ (has self.old s k && not (owns owner s && (key == k))) }
    {
        if let Some(session) = owner {
            self.take(session, key);
        }
    }

    /// Forgets that a session owns a key, unless another one that does is the same. It takes no
    /// memory.
    pub(crate) fn release_unless(
        &mut self,
        owner: Option<SessionId>,
        kept: Option<SessionId>,
        key: u64,
    )
        ensures { (s : SessionId) (k : ℕ)
            → has self.new s k
            ≡ (has self.old s k && not ((owns owner s && not (owns kept s)) && (key == k))) }
    {
        if owner != kept {
            self.release(owner, key);
        }
    }

    /// Forgets all keys of a session, and gives them. It takes no memory.
    pub(crate) fn forget_all(&mut self, owner: SessionId) -> Keys
        ensures keys { (k : ℕ) → list_any (λ j. k == j) result ≡ has self.old owner k }
        ensures rest { (s : SessionId) (k : ℕ)
            → has self.new s k ≡ (has self.old s k && not (owner.0 == s.0)) }
    {
        let Some(keys) = self.lists.remove(&owner) else {
            return Keys::new(self.alloc);
        };
        keys
    }

    /// The first key from one on that a session owns. It takes no memory.
    pub(crate) fn first_from(&self, owner: SessionId, from: u64) -> Option<u64>
        ensures { IsFirstFrom (has self.now owner) from result }
    {
        let keys = self.lists.get(&owner)?;
        keys.first_from(from)
    }

    /// The keys of a session, in order, if it has any. It takes no memory.
    pub(crate) fn keys(&self, owner: SessionId) -> Option<vec_deque::Iter<'_, u64>>
        ensures { AreThose (has self.now owner) (keys_left result) }
    {
        let keys = self.lists.get(&owner)?;
        Some(keys.iter())
    }

    // Puts a key among those of a session.
    fn put(&mut self, session: SessionId, key: u64) -> Result<(), AllocError>
        ensures ok { OnOk result
            ((s : SessionId) (k : ℕ)
            → has self.new s k ≡ (has self.old s k || ((session.0 == s.0) && (key == k)))) }
        ensures err { OnErr result (self.new ≡ self.old) }
    {
        match self.lists.get_mut(&session) {
            Some(keys) => {
                keys.insert(key)?;
                Ok(())
            }
            None => self.put_first(session, key),
        }
    }

    // Puts the first key of a session.
    fn put_first(&mut self, session: SessionId, key: u64) -> Result<(), AllocError>
        requires { (k : ℕ) → has self.old session k ≡ false }
        ensures ok { OnOk result
            ((s : SessionId) (k : ℕ)
            → has self.new s k ≡ (has self.old s k || ((session.0 == s.0) && (key == k)))) }
        ensures err { OnErr result (self.new ≡ self.old) }
    {
        let mut keys = Keys::new(self.alloc);
        keys.insert(key)?;
        self.lists.insert(session, keys)?;
        Ok(())
    }

    // Takes a key from those of a session.
    fn take(&mut self, session: SessionId, key: u64)
        ensures { (s : SessionId) (k : ℕ)
            → has self.new s k ≡ (has self.old s k && not ((session.0 == s.0) && (key == k))) }
    {
        let Some(keys) = self.lists.get_mut(&session) else {
            return;
        };
        keys.remove(key);
    }
}
