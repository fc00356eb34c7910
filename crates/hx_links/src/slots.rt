//! Links that keep their places in one vector, whose vacant places are chained.
ghost use Rattle.std.specs.Prelude.{◌≡◌, ℕ, ◌+◌, ◌-◌, ◌*◌, ◌^◌, ◌<◌, ◌≤◌, ◌==◌, [], IsSome, Some};
ghost use Rattle.std.specs.Prelude.{None, is_some, option_map, slice_get, slice_set, vec_capacity};
ghost use Rattle.std.specs.Prelude.{IsOk, OnOk, OnErr, if◌then◌else◌};
ghost use Rattle.hx_links.specs.Slots.{link_at, held, with_next, with_prev, with_value};
ghost use Rattle.hx_links.specs.Layout.{IsVacantAt};

use crate::{ListId, Node};
use std::alloc::{AllocError, Global};
use std::marker::Model;
use std::mem;

/// What a node holds: its list, its neighbours there, and its value.
#[derive(Drop)]
pub struct Link<T> {
    pub list: ListId,
    pub prev: Option<Node>,
    pub next: Option<Node>,
    pub value: T,
}

#[derive(Drop)]
enum Slot<T> {
    Vacant(Option<Node>),
    Held(Link<T>),
}

/// The links of all nodes.
#[derive(Drop)]
pub struct Slots<T> {
    slots: Vec<Slot<T>>,
    // The first vacant slot.
    vacant: Option<Node>,
    // How many slots are vacant.
    idle: usize,
}

/// How many slots there are at most.
const MOST: usize = u32::MAX as usize;

impl<T> Model for Slots<T> {
    ghost use Rattle.std.specs.Prelude.{map, ◌+◌, ◌-◌, min, vec_len, vec_capacity};
    ghost use Rattle.hx_links.specs.Slots.{Slots as Seen, slots_code};

    ghost Value = { Seen T };

    ghost coded = { slots_code T.code };

    ghost use Rattle.hx_links.specs.Layout.{link_of, IsLaidOut};

    ghost view = { λ s. record {
      links = map link_of s.slots.items;
      spare = s.idle + (min (vec_capacity s.slots) 4294967295 - vec_len s.slots);
    } };

    ghost invariant = { λ s. IsLaidOut s.slots.items s.vacant s.idle };
}

impl<T> Slots<T> {
    pub fn new(alloc: Global) -> Self
        ensures links { result.links ≡ [] }
        ensures spare { result.spare ≡ 0 }
    {
        Slots {
            slots: Vec::new(alloc),
            vacant: None,
            idle: 0,
        }
    }

    /// How many more links need no memory.
    pub fn spare(&self) -> usize
        ensures { result ≡ self.now.spare }
    {
        self.idle + (self.slots.capacity().min(MOST) - self.slots.len())
    }

    /// Makes room for so many more links.
    pub fn reserve(&mut self, more: usize) -> Result<(), AllocError>
        requires { held self.old.links + more < 2 ^ 32 }
        ensures links { self.new.links ≡ self.old.links }
        ensures room { OnOk result (more ≤ self.new.spare) }
        ensures spare { self.old.spare ≤ self.new.spare }
        ensures succeeds { more ≤ self.old.spare → IsOk result }
        ensures had_room { more ≤ self.old.spare → self.new ≡ self.old }
        ensures err { OnErr result (self.new ≡ self.old) }
    {
        if more <= self.spare() {
            return Ok(());
        }
        self.slots.reserve(more - self.idle)
    }

    /// Gives a link a node of its own.
    pub fn insert_reserved(&mut self, link: Link<T>) -> Node
        requires { 0 < self.old.spare }
        ensures was_vacant { link_at self.old.links result ≡ None }
        ensures links { (n : Node)
            → link_at self.new.links n
            ≡ (if n.0 == result.0 then Some link else link_at self.old.links n) }
        ensures held { held self.new.links ≡ held self.old.links + 1 }
        ensures spare { self.new.spare + 1 ≡ self.old.spare }
    {
        let Some(node) = self.vacant else {
            let node = Node(self.slots.len() as u32);
            self.slots.push_reserved(Slot::Held(link));
            return node;
        };
        let next = fill(&mut self.slots, node, link);
        self.vacant = next;
        self.idle -= 1;
        node
    }

    /// Takes a link out. Its node may be given again.
    pub fn remove(&mut self, node: Node) -> Link<T>
        requires { IsSome (link_at self.old.links node) }
        ensures value { link_at self.old.links node ≡ Some result }
        ensures links { self.new.links ≡ slice_set self.old.links node.0 None }
        ensures held { held self.new.links + 1 ≡ held self.old.links }
        ensures spare { self.new.spare ≡ self.old.spare + 1 }
    {
        let vacant = self.vacant;
        match mem::replace(&mut self.slots[node.0 as usize], Slot::Vacant(vacant)) {
            Slot::Held(link) => {
                self.vacant = Some(node);
                self.idle += 1;
                link
            }
            Slot::Vacant(_) => unreachable!(),
        }
    }

    /// Whether a node has a link.
    pub fn holds(&self, node: Node) -> bool
        ensures { result ≡ is_some (link_at self.now.links node) }
    {
        matches!(self.slots.get(node.0 as usize), Some(Slot::Held(_)))
    }

    /// A node's link.
    pub fn link(&self, node: Node) -> &Link<T>
        requires { IsSome (link_at self.now.links node) }
        ensures { link_at self.now.links node ≡ Some result.now }
    {
        match &self.slots[node.0 as usize] {
            Slot::Held(link) => link,
            Slot::Vacant(_) => unreachable!(),
        }
    }

    /// Writes which node comes after a node.
    pub fn set_next(&mut self, node: Node, next: Option<Node>)
        requires { IsSome (link_at self.old.links node) }
        ensures links { self.new.links
            ≡ slice_set self.old.links node.0
            (option_map (with_next next) (link_at self.old.links node)) }
        ensures held { held self.new.links ≡ held self.old.links }
        ensures spare { self.new.spare ≡ self.old.spare }
    {
        match &mut self.slots[node.0 as usize] {
            Slot::Held(link) => link.next = next,
            Slot::Vacant(_) => unreachable!(),
        }
    }

    /// Writes which node comes before a node.
    pub fn set_prev(&mut self, node: Node, prev: Option<Node>)
        requires { IsSome (link_at self.old.links node) }
        ensures links { self.new.links
            ≡ slice_set self.old.links node.0
            (option_map (with_prev prev) (link_at self.old.links node)) }
        ensures held { held self.new.links ≡ held self.old.links }
        ensures spare { self.new.spare ≡ self.old.spare }
    {
        match &mut self.slots[node.0 as usize] {
            Slot::Held(link) => link.prev = prev,
            Slot::Vacant(_) => unreachable!(),
        }
    }

    /// Writes a node's value, and gives the old one.
    pub fn set_value(&mut self, node: Node, value: T) -> T
        requires { IsSome (link_at self.old.links node) }
        ensures value { option_map (λ k. k.value) (link_at self.old.links node) ≡ Some result }
        ensures links { self.new.links
            ≡ slice_set self.old.links node.0
            (option_map (with_value value) (link_at self.old.links node)) }
        ensures held { held self.new.links ≡ held self.old.links }
        ensures spare { self.new.spare ≡ self.old.spare }
    {
        match &mut self.slots[node.0 as usize] {
            Slot::Held(link) => mem::replace(&mut link.value, value),
            Slot::Vacant(_) => unreachable!(),
        }
    }

    /// Gives the memory back. No node has a link.
    pub fn destroy_empty(self)
        requires { held self.links ≡ 0 }
    {
        let Slots {
            mut slots,
            vacant: _,
            idle: _,
        } = self;
        while let Some(slot) = slots.pop() {
            match slot {
                Slot::Vacant(_) => {}
                Slot::Held(_) => unreachable!(),
            }
        }
        slots.destroy_empty();
    }
}

// Puts a link into a vacant slot, and gives the vacant slot after it.
fn fill<T>(slots: &mut Vec<Slot<T>>, node: Node, link: Link<T>) -> Option<Node>
    requires { IsVacantAt slots.old.items node }
    ensures vacant { slice_get slots.old.items node.0 ≡ Some (Slot.Vacant result) }
    ensures filled { slots.new.items ≡ slice_set slots.old.items node.0 (Slot.Held link) }
    ensures capacity { vec_capacity slots.new ≡ vec_capacity slots.old }
{
    match mem::replace(&mut slots[node.0 as usize], Slot::Held(link)) {
        Slot::Vacant(next) => next,
        Slot::Held(_) => unreachable!(),
    }
}
