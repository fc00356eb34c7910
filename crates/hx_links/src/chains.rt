//! Lists whose nodes are linked both ways.
ghost use Rattle.std.specs.Prelude.{◌≡◌, ◌≢◌, ℕ, ◌+◌, ◌<◌, IsSome, IfSome, Some, None, option_map};
ghost use Rattle.std.specs.Prelude.{map, slice_index_or, slice_set, vec_len, OnOk, OnErr};
ghost use Rattle.std.specs.Option.{ForSome};
ghost use Rattle.hx_links.specs.Slots.{link_at, held};
ghost use Rattle.hx_links.specs.Pool.{without, pushed, occurrences};

use crate::slots::Slots;
use crate::{ListId, Node};

/// The ends of a list.
#[derive(Clone, Copy)]
pub struct Ends {
    pub front: Option<Node>,
    pub back: Option<Node>,
}

/// The links of all nodes and the ends of all lists.
#[derive(Drop)]
pub struct Chains<T> {
    pub slots: Slots<T>,
    pub ends: Vec<Ends>,
}

impl<T> Chains<T> {
    ghost use Rattle.hx_links.specs.Chains.{IsLinked, IsLinkedBut, lists_of, connected};
    ghost use Rattle.hx_links.specs.Chains.{ends_connected, next_set, prev_set, front_set};
    ghost use Rattle.hx_links.specs.Chains.{back_set, no_ends};

    // Lets `after` come next after `before`, where a missing node stands for the list's end.
    fn set_next(&mut self, list: ListId, before: Option<Node>, after: Option<Node>)
        requires list { list.0 < vec_len self.old.ends }
        requires before { ForSome before (λ n. IsSome (link_at self.old.slots.links n)) }
        ensures links { self.new.slots.links ≡ next_set before after self.old.slots.links }
        ensures ends { self.new.ends.items ≡ front_set list.0 before after self.old.ends.items }
        ensures held { held self.new.slots.links ≡ held self.old.slots.links }
        ensures spare { self.new.slots.spare ≡ self.old.slots.spare }
    {
        match before {
            Some(node) => self.slots.set_next(node, after),
            None => self.ends[list.0 as usize].front = after,
        }
    }

    // Lets `before` come right before `after`, likewise.
    fn set_prev(&mut self, list: ListId, before: Option<Node>, after: Option<Node>)
        requires list { list.0 < vec_len self.old.ends }
        requires after { ForSome after (λ n. IsSome (link_at self.old.slots.links n)) }
        ensures links { self.new.slots.links ≡ prev_set before after self.old.slots.links }
        ensures ends { self.new.ends.items ≡ back_set list.0 before after self.old.ends.items }
        ensures held { held self.new.slots.links ≡ held self.old.slots.links }
        ensures spare { self.new.slots.spare ≡ self.old.slots.spare }
    {
        match after {
            Some(node) => self.slots.set_prev(node, before),
            None => self.ends[list.0 as usize].back = before,
        }
    }

    // Makes two nodes neighbours in a list, where a missing node stands for the list's end.
    fn connect(&mut self, list: ListId, before: Option<Node>, after: Option<Node>)
        requires list { list.0 < vec_len self.old.ends }
        requires before { ForSome before (λ n. IsSome (link_at self.old.slots.links n)) }
        requires after { ForSome after (λ n. IsSome (link_at self.old.slots.links n)) }
        ensures links { (n : Node)
            → link_at self.new.slots.links n
            ≡ connected before after n (link_at self.old.slots.links n) }
        ensures ends { self.new.ends.items
            ≡ slice_set self.old.ends.items list.0
            (ends_connected before after (slice_index_or self.old.ends.items list.0 no_ends)) }
        ensures held { held self.new.slots.links ≡ held self.old.slots.links }
        ensures spare { self.new.slots.spare ≡ self.old.slots.spare }
    {
        self.set_next(list, before, after);
        self.set_prev(list, before, after);
    }

    /// Takes a node out of its list. It keeps its link.
    pub fn detach(&mut self, node: Node)
        requires linked { IsLinked self.old }
        requires node { IsSome (link_at self.old.slots.links node) }
        ensures linked { IsLinkedBut node self.new }
        ensures lists { lists_of self.new ≡ map (without node) (lists_of self.old) }
        ensures list { option_map (λ k. k.list) (link_at self.new.slots.links node)
            ≡ option_map (λ k. k.list) (link_at self.old.slots.links node) }
        ensures value { option_map (λ k. k.value) (link_at self.new.slots.links node)
            ≡ option_map (λ k. k.value) (link_at self.old.slots.links node) }
        ensures spare { self.new.slots.spare ≡ self.old.slots.spare }
    {
        let link = self.slots.link(node);
        let list = link.list;
        let prev = link.prev;
        let next = link.next;
        self.connect(list, prev, next);
    }

    /// Puts a node that is in no list last into the list that its link names.
    pub fn append(&mut self, node: Node)
        requires linked { IsLinkedBut node self.old }
        requires list { IfSome (link_at self.old.slots.links node)
            (λ k. k.list.0 < vec_len self.old.ends) }
        requires node { IsSome (link_at self.old.slots.links node) }
        ensures linked { IsLinked self.new }
        ensures lists { IfSome (link_at self.old.slots.links node)
            (λ k. lists_of self.new ≡ pushed (lists_of self.old) k.list.0 (node, k.value)) }
        ensures spare { self.new.slots.spare ≡ self.old.slots.spare }
    {
        let list = self.slots.link(node).list;
        let back = self.ends[list.0 as usize].back;
        self.connect(list, back, Some(node));
        self.connect(list, Some(node), None);
    }
}
