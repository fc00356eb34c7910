//! The accepted messages, linked in order of delivery.
ghost use Rattle.std.specs.Prelude.{◌≡◌, ℕ, ◌+◌, ◌-◌, ◌^◌, ◌<◌, ◌≤◌, [], ◌∷◌, ◌++◌, map, length, true};
ghost use Rattle.std.specs.Prelude.{Some, IfOk, OnOk};
ghost use Rattle.std.specs.List.Sorted.{IsSortedBy, IsStableBy};
ghost use Rattle.hx_lists.specs.Lists.{count};
ghost use Rattle.hx_links.specs.Pool.{is_at, is_in, first_node, without};
ghost use Rattle.hx_replicas.specs.Queues.{entries_of, IsOnlyList, room_in, waits_before};

use hx_cluster::Message;
use hx_links::{ListId, Node, Pool};
use std::alloc::{AllocError, Global};
use std::marker::Model;

/// An accepted message, and the place of its part's slot.
#[derive(Clone, Copy)]
pub struct Waiting {
    pub place: usize,
    pub message: Message,
}

/// The accepted messages in order of delivery. Contracts see the node of each, and what waits
/// there.
#[derive(Drop)]
pub struct Queue {
    pool: Pool<Waiting>,
    // The pool's one list, from the first reservation on.
    list: Option<ListId>,
}

impl Model for Queue {
    ghost use Rattle.hx_replicas.specs.Queues.{QueueState, ArePlaced, entries_of, room_in};

    ghost Value = { QueueState };

    ghost view = { λ q. record {
      entries = entries_of q.pool.lists;
      spare = room_in q.list q.pool.spare;
    } };

    ghost invariant = { λ q. ArePlaced q.list q.pool.lists };
}

// The pool's one list, which is made at first need.
fn only_list(list: &mut Option<ListId>, pool: &mut Pool<Waiting>) -> Result<(), AllocError>
    requires { IsOnlyList list.old pool.old.lists }
    ensures some { OnOk result (list.new ≡ Some (record { 0 = 0 })) }
    ensures one { IsOnlyList list.new pool.new.lists }
    ensures entries { entries_of pool.new.lists ≡ entries_of pool.old.lists }
    ensures room { room_in list.old pool.old.spare ≤ room_in list.new pool.new.spare }
{
    if list.is_some() {
        return Ok(());
    }
    *list = Some(pool.new_list()?);
    Ok(())
}

impl Queue {
    /// No messages.
    pub fn new(alloc: Global) -> Queue
        ensures entries { result.entries ≡ [] }
        ensures spare { result.spare ≡ 0 }
    {
        Queue {
            pool: Pool::new(alloc),
            list: None,
        }
    }

    /// Makes room for so many more messages.
    pub fn reserve(&mut self, n: usize) -> Result<(), AllocError>
        requires { length self.old.entries + n < 2 ^ 32 - 1 }
        ensures entries { self.new.entries ≡ self.old.entries }
        ensures room { OnOk result (n ≤ self.new.spare) }
        ensures spare { self.old.spare ≤ self.new.spare }
    {
        only_list(&mut self.list, &mut self.pool)?;
        self.pool.reserve(n)
    }

    /// Adds a message at the end. It takes no memory.
    pub fn push_reserved(&mut self, waiting: Waiting) -> Node
        requires { 0 < self.old.spare }
        ensures entries { self.new.entries ≡ self.old.entries ++ (result, waiting) ∷ [] }
        ensures spare { self.new.spare + 1 ≡ self.old.spare }
    {
        let Some(list) = self.list else {
            unreachable!()
        };
        self.pool.push_reserved(list, waiting)
    }

    /// Takes a message out by its node. It takes no memory.
    pub fn unlink(&mut self, node: Node)
        requires { is_in node self.old.entries ≡ true }
        ensures entries { self.new.entries ≡ without node self.old.entries }
        ensures once { (n : Node) → count (is_at n) self.old.entries ≤ 1 }
        ensures spare { self.old.spare ≤ self.new.spare }
    {
        self.pool.unlink(node);
    }

    /// The node of the first message.
    pub fn first(&self) -> Option<Node>
        ensures { result ≡ first_node self.now.entries }
    {
        self.pool.front(self.list?)
    }

    /// Takes all messages out. It takes no memory.
    pub fn clear(&mut self)
        ensures entries { self.new.entries ≡ [] }
        ensures spare { self.old.spare ≤ self.new.spare }
    {
        while let Some(node) = self.first() {
            self.unlink(node);
        }
    }

    /// What waits, in order of delivery.
    pub fn waiting(&self, alloc: Global) -> Result<Vec<Waiting>, AllocError>
        ensures { IfOk result (λ found. found.items ≡ map (λ e. e.1) self.now.entries) }
    {
        let mut found = Vec::new(alloc);
        let mut at = self.first();
        while let Some(node) = at {
            found.push(*self.pool.get(node))?;
            at = self.pool.next(node);
        }
        Ok(found)
    }

    /// What waits, by number; where numbers tie, by place.
    pub fn in_order(&self, alloc: Global) -> Result<Vec<Waiting>, AllocError>
        ensures sorted { IfOk result (λ found. IsSortedBy waits_before found.items) }
        ensures stable { IfOk result (λ found.
            IsStableBy waits_before (map (λ e. e.1) self.now.entries) found.items) }
    {
        let mut found = self.waiting(alloc)?;
        found.sort_by_key(|waiting| (waiting.message.id.0, waiting.place))?;
        Ok(found)
    }
}

/// The messages of what waits.
pub fn messages_of(alloc: Global, waiting: &[Waiting]) -> Result<Vec<Message>, AllocError>
    ensures { IfOk result (λ messages. messages.items ≡ map (λ w. w.message) waiting.now) }
{
    let mut messages = Vec::with_capacity(alloc, waiting.len())?;
    for one in waiting {
        messages.push_reserved(one.message);
    }
    Ok(messages)
}
