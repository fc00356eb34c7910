//! Many lists whose nodes are linked by index in one vector.
//!
//! A node is taken out of the middle of its list, or moved to its end, in a time that doesn't
//! depend on how many nodes and lists there are.
#![tactic(auto)]

ghost use Rattle.std.specs.Prelude.{◌≡◌, ℕ, ◌+◌, ◌-◌, ◌^◌, ◌<◌, ◌≤◌, [], ◌∷◌, ◌++◌, map, length};
ghost use Rattle.std.specs.Prelude.{Some, IsOk, OnOk, IfOk, OnErr, IfErr, false, IsTrue};
ghost use Rattle.std.specs.Prelude.{slice_index_or};
ghost use Rattle.hx_links.specs.Pool.{holds, occurrences, node_count, value_of, next_of};
ghost use Rattle.hx_links.specs.Pool.{first_node, pushed, without, moved_back, replaced};

mod chains;
mod slots;

use chains::{Chains, Ends};
use slots::{Link, Slots};
use std::alloc::{AllocError, Global};
use std::marker::Model;

/// A node of a pool. It keeps its number until it is unlinked, and only then may the number be
/// given again.
#[derive(Clone, Copy, Debug, PartialEq, Eq, PartialOrd, Ord, Hash)]
pub struct Node(pub u32);

/// A list of a pool, by its place among the pool's lists.
#[derive(Clone, Copy, Debug, PartialEq, Eq, PartialOrd, Ord, Hash)]
pub struct ListId(pub u32);

/// Many lists over one store of nodes. Contracts see the lists, each with its nodes and their
/// values in order, and how many more nodes need no memory.
///
/// A pool may be dropped where its values may.
#[derive(Drop)]
pub struct Pool<T> {
    chains: Chains<T>,
}

impl<T> Model for Pool<T> {
    ghost use Rattle.hx_links.specs.Pool.{Pool as Seen, pool_code};

    ghost Value = { Seen T };

    ghost coded = { pool_code T.code };

    ghost use Rattle.hx_links.specs.Chains.{lists_of, IsLinked};

    ghost view = { λ p. record { lists = lists_of p.chains; spare = p.chains.slots.spare } };

    ghost invariant = { λ p. IsLinked p.chains };
}

impl<T> Pool<T> {
    /// A pool without lists.
    pub fn new(alloc: Global) -> Self
        ensures lists { result.lists ≡ [] }
        ensures spare { result.spare ≡ 0 }
    {
        Pool {
            chains: Chains {
                slots: Slots::new(alloc),
                ends: Vec::new(alloc),
            },
        }
    }

    /// Adds an empty list.
    pub fn new_list(&mut self) -> Result<ListId, AllocError>
        requires { length self.old.lists < 2 ^ 32 - 1 }
        ensures id { IfOk result (λ list. list.0 ≡ length self.old.lists) }
        ensures lists { OnOk result (self.new.lists ≡ self.old.lists ++ [] ∷ []) }
        ensures spare { self.new.spare ≡ self.old.spare }
        ensures err { OnErr result (self.new ≡ self.old) }
    {
        let list = ListId(self.chains.ends.len() as u32);
        self.chains.ends.push(Ends {
            front: None,
            back: None,
        })?;
        Ok(list)
    }

    /// Makes room for so many more nodes.
    pub fn reserve(&mut self, n: usize) -> Result<(), AllocError>
        requires { node_count self.old.lists + n < 2 ^ 32 - 1 }
        ensures room { OnOk result (n ≤ self.new.spare) }
        ensures lists { self.new.lists ≡ self.old.lists }
        ensures spare { self.old.spare ≤ self.new.spare }

        // It fails only where there was no room, and then nothing changes.
        ensures succeeds { n ≤ self.old.spare → IsOk result }
        ensures had_room { n ≤ self.old.spare → self.new ≡ self.old }
        ensures err { OnErr result (self.new ≡ self.old) }
    {
        self.chains.slots.reserve(n)
    }

    /// Adds a value at the end of a list, or hands it back where there is no memory.
    pub fn push_back(&mut self, list: ListId, value: T) -> Result<Node, T>
        requires list { list.0 < length self.old.lists }
        requires few { node_count self.old.lists + 1 < 2 ^ 32 - 1 }
        ensures lists { IfOk result
            (λ node. self.new.lists ≡ pushed self.old.lists list.0 (node, value)) }
        ensures fresh { IfOk result (λ node. holds self.old.lists node ≡ false) }
        ensures spare { self.old.spare ≤ self.new.spare + 1 }

        // It fails only where there was no room, and then nothing changes.
        ensures succeeds { 0 < self.old.spare → IsOk result }
        ensures had_room { 0 < self.old.spare → self.new.spare + 1 ≡ self.old.spare }
        ensures err { OnErr result (self.new ≡ self.old) }
        ensures value_returned { IfErr result (λ returned. returned ≡ value) }
    {
        if self.reserve(1).is_err() {
            return Err(value);
        }
        Ok(self.push_reserved(list, value))
    }

    /// Adds a value at the end of a list. It takes no memory.
    pub fn push_reserved(&mut self, list: ListId, value: T) -> Node
        requires list { list.0 < length self.old.lists }
        requires room { 0 < self.old.spare }
        ensures lists { self.new.lists ≡ pushed self.old.lists list.0 (result, value) }
        ensures fresh { holds self.old.lists result ≡ false }
        ensures spare { self.new.spare + 1 ≡ self.old.spare }
    {
        let link = Link {
            list,
            prev: None,
            next: None,
            value,
        };
        let node = self.chains.slots.insert_reserved(link);
        self.chains.append(node);
        node
    }

    /// Takes a node out of its list, and gives its value. It takes no memory.
    pub fn unlink(&mut self, node: Node) -> T
        requires { IsTrue (holds self.old.lists node) }
        ensures value { value_of self.old.lists node ≡ Some result }
        ensures lists { self.new.lists ≡ map (without node) self.old.lists }
        ensures spare { self.new.spare ≡ self.old.spare + 1 }
    {
        self.chains.detach(node);
        self.chains.slots.remove(node).value
    }

    /// Moves a node to the end of its list. It takes no memory.
    pub fn move_back(&mut self, node: Node)
        requires { IsTrue (holds self.old.lists node) }
        ensures lists { self.new.lists ≡ map (moved_back node) self.old.lists }
        ensures spare { self.new.spare ≡ self.old.spare }
    {
        self.chains.detach(node);
        self.chains.append(node);
    }

    /// Puts another value at a node, and gives the old one. It takes no memory.
    pub fn replace(&mut self, node: Node, value: T) -> T
        requires { IsTrue (holds self.old.lists node) }
        ensures value { value_of self.old.lists node ≡ Some result }
        ensures lists { self.new.lists ≡ map (map (replaced node value)) self.old.lists }
        ensures spare { self.new.spare ≡ self.old.spare }
    {
        self.chains.slots.set_value(node, value)
    }

    /// A node's value.
    pub fn get(&self, node: Node) -> &T
        requires { IsTrue (holds self.now.lists node) }
        ensures { value_of self.now.lists node ≡ Some result.now }
    {
        &self.chains.slots.link(node).value
    }

    /// Gives the memory of a pool back whose lists are empty. It serves values that may not be
    /// dropped.
    pub fn destroy_empty(self)
        requires { node_count self.lists ≡ 0 }
    {
        let Pool { chains } = self;
        let Chains { slots, ends: _ } = chains;
        slots.destroy_empty();
    }

    /// The node after a node in its list.
    pub fn next(&self, node: Node) -> Option<Node>
        requires { IsTrue (holds self.now.lists node) }
        ensures { result ≡ next_of self.now.lists node }
    {
        self.chains.slots.link(node).next
    }

    /// Whether some list holds a node. Each node is in one list at most, and once. It takes no
    /// memory.
    pub fn holds(&self, node: Node) -> bool
        ensures held { result ≡ holds self.now.lists node }
        ensures once { (n : Node) → occurrences n self.now.lists ≤ 1 }
    {
        self.chains.slots.holds(node)
    }

    /// The first node of a list.
    pub fn front(&self, list: ListId) -> Option<Node>
        requires { list.0 < length self.now.lists }
        ensures { result ≡ first_node (slice_index_or self.now.lists list.0 []) }
    {
        self.chains.ends[list.0 as usize].front
    }
}
