//! The live sessions in order of their last beat.
//!
//! A beat and an end take no memory, and no step looks at all sessions.
#![tactic(auto)]

ghost use Rattle.std.specs.Prelude.{◌≡◌, ℕ, ◌+◌, ◌-◌, ◌^◌, ◌<◌, ◌≤◌, [], length, true, Some, is_ok};
ghost use Rattle.std.specs.Prelude.{OnOk, IfOk, OnErr};
ghost use Rattle.hx_ids.specs.Expiry.{expired};
ghost use Rattle.hx_sessions.specs.Places.{entries_of, IsOnlyList};
ghost use Rattle.hx_ids.specs.Sessions.{is_live, session_at, no_later, beaten, without};
ghost use Rattle.hx_sessions.specs.Sessions.{AreSessions, first_live, live_after, opened};
ghost use Rattle.hx_sessions.specs.Sessions.{remaining};

use hx_ids::{InstanceId, Live, SessionId};
use hx_links::{ListId, Node, Pool};
use std::alloc::{AllocError, Global};
use std::collections::HashMap;
use std::marker::Model;

/// The session is not live.
#[derive(Clone, Copy, Debug, PartialEq, Eq)]
pub struct NotLive;

/// The live sessions. Contracts see them in order of last beat, with the number of the next one.
/// Opening counts as a beat.
#[derive(Drop)]
pub struct Sessions {
    alloc: Global,
    pool: Pool<Live>,
    // The pool's one list, from the first session on.
    order: Option<ListId>,
    // The node of each session, by number.
    nodes: HashMap<u64, Node>,
    next: u64,
}

impl Model for Sessions {
    ghost use Rattle.hx_sessions.specs.Sessions.{Sessions as Seen};

    ghost Value = { Seen };

    ghost use Rattle.hx_sessions.specs.Places.{entries_of, live_of, ArePlaced};

    ghost view = { λ s. record { live = live_of (entries_of s.pool.lists); next = s.next } };

    ghost invariant = { λ s. ArePlaced s.order s.pool.lists s.nodes.entries s.next };
}

// The pool's one list, which is made at first need.
fn only_list(order: &mut Option<ListId>, pool: &mut Pool<Live>) -> Result<ListId, AllocError>
    requires { IsOnlyList order.old pool.old.lists }
    ensures list { IfOk result (λ list. order.new ≡ Some list) }
    ensures one { IsOnlyList order.new pool.new.lists }
    ensures entries { entries_of pool.new.lists ≡ entries_of pool.old.lists }
{
    if let Some(list) = *order {
        return Ok(list);
    }
    let list = pool.new_list()?;
    *order = Some(list);
    Ok(list)
}

impl Sessions {
    /// No sessions.
    pub fn new(alloc: Global) -> Sessions
        ensures live { result.live ≡ [] }
        ensures next { result.next ≡ 1 }
    {
        Sessions {
            alloc,
            pool: Pool::new(alloc),
            order: None,
            nodes: HashMap::new(alloc),
            next: 1,
        }
    }

    /// A live session. Their numbers are distinct and below the next one, and their beats don't
    /// fall along the list.
    pub fn find(&self, session: SessionId) -> Option<Live>
        ensures found { result ≡ session_at self.now.live session }
        ensures sessions { AreSessions self.now }
    {
        let node = self.nodes.get(&session.0)?;
        Some(*self.pool.get(*node))
    }

    /// The live session whose last beat is the longest ago. It takes no memory.
    pub fn first(&self) -> Option<Live>
        ensures first { result ≡ first_live self.now.live }
        ensures sessions { AreSessions self.now }
    {
        let node = self.pool.front(self.order?)?;
        Some(*self.pool.get(node))
    }

    /// The session after a live session, in order of last beat. It takes no memory.
    pub fn after(&self, session: SessionId) -> Option<Live>
        ensures { result ≡ live_after session self.now.live }
    {
        let node = self.nodes.get(&session.0)?;
        let next = self.pool.next(*node)?;
        Some(*self.pool.get(next))
    }

    /// Opens a session of an instance.
    pub fn open(&mut self, instance: InstanceId, now: u64) -> Result<SessionId, AllocError>
        requires opened { self.old.next ≤ 2 ^ 63 }
        requires live { length self.old.live < 2 ^ 32 - 2 }
        requires clock { no_later now self.old.live ≡ true }
        ensures session { IfOk result (λ s. s.0 ≡ self.old.next) }
        ensures ok { OnOk result (self.new ≡ opened self.old instance now) }
        ensures err { OnErr result (self.new ≡ self.old) }
    {
        let order = only_list(&mut self.order, &mut self.pool)?;
        self.pool.reserve(1)?;
        let session = SessionId(self.next);
        let node = self.pool.push_reserved(
            order,
            Live {
                session,
                instance,
                beat: now,
            },
        );
        if self.nodes.insert(session.0, node).is_err() {
            self.pool.unlink(node);
            return Err(AllocError);
        }
        self.next += 1;
        Ok(session)
    }

    /// Takes a beat of a session. It takes no memory.
    pub fn beat(&mut self, session: SessionId, now: u64) -> Result<(), NotLive>
        requires { no_later now self.old.live ≡ true }
        ensures refused { is_ok result ≡ is_live self.old.live session }
        ensures live { self.new.live ≡ beaten session now self.old.live }
        ensures next { self.new.next ≡ self.old.next }
        ensures err { OnErr result (self.new ≡ self.old) }
    {
        let Some(node) = self.nodes.get(&session.0).copied() else {
            return Err(NotLive);
        };
        let live = *self.pool.get(node);
        self.pool.move_back(node);
        self.pool.replace(node, Live { beat: now, ..live });
        Ok(())
    }

    /// Ends a session. It takes no memory.
    pub fn close(&mut self, session: SessionId) -> Result<(), NotLive>
        ensures refused { is_ok result ≡ is_live self.old.live session }
        ensures live { self.new.live ≡ without session self.old.live }
        ensures next { self.new.next ≡ self.old.next }
        ensures err { OnErr result (self.new ≡ self.old) }
    {
        let Some(node) = self.nodes.remove(&session.0) else {
            return Err(NotLive);
        };
        self.pool.unlink(node);
        Ok(())
    }

    /// Ends the sessions that have had no beat for the timeout, and gives them in order of last
    /// beat.
    pub fn expire(&mut self, now: u64, timeout: u64) -> Result<Vec<SessionId>, AllocError>
        ensures ended { IfOk result (λ ended. ended.items ≡ expired self.old.live now timeout) }
        ensures live { OnOk result (self.new.live ≡ remaining self.old.live now timeout) }
        ensures next { self.new.next ≡ self.old.next }
        ensures err { OnErr result (self.new ≡ self.old) }
    {
        let ended = self.expired(now, timeout)?;
        for session in &ended {
            let _ = self.close(*session);
        }
        Ok(ended)
    }

    /// The sessions that have had no beat for the timeout, in order of last beat. It looks at these
    /// and at the first that has had one.
    pub fn expired(&self, now: u64, timeout: u64) -> Result<Vec<SessionId>, AllocError>
        ensures ended { IfOk result (λ ended. ended.items ≡ expired self.now.live now timeout) }
        ensures sessions { AreSessions self.now }
    {
        let mut ended = Vec::new(self.alloc);
        let Some(order) = self.order else {
            return Ok(ended);
        };
        let mut at = self.pool.front(order);
        while let Some(node) = at {
            let live = self.pool.get(node);
            if now.saturating_sub(live.beat) < timeout {
                break;
            }
            ended.push(live.session)?;
            at = self.pool.next(node);
        }
        Ok(ended)
    }
}
