//! Messages under their numbers.

ghost use Rattle.std.specs.Prelude.{◌≡◌, ◌+◌, ◌<◌, ◌≤◌, ◌==◌, [], find, length, OnOk};
ghost use Rattle.hx_worlds.specs.Jobs.{put_in_bag, put_all as all_put};

use hx_cluster::Message;
use hx_ids::MsgId;
use indexmap::IndexMap;
use std::alloc::{AllocError, Global};
use std::marker::Model;

/// Messages, each as it was put last, in the order in which they were put first.
#[derive(Drop)]
pub struct Numbered {
    messages: IndexMap<MsgId, Message>,
}

impl Model for Numbered {
    ghost use Rattle.indexmap.specs.IndexMap.{values, spare};
    ghost use Rattle.hx_scene.specs.Bags.{BagState, IsKeyed};

    ghost Value = { BagState };

    ghost view = { λ b. record {
      items = values b.messages;
      spare = spare b.messages;
    } };

    ghost invariant = { λ b. IsKeyed b.messages.entries };
}

impl Numbered {
    /// No messages.
    pub(crate) fn new(alloc: Global) -> Numbered
        ensures items { result.items ≡ [] }
    {
        Numbered {
            messages: IndexMap::new(alloc),
        }
    }

    /// Makes room for so many more messages.
    pub(crate) fn reserve(&mut self, n: usize) -> Result<(), AllocError>
        ensures items { self.new.items ≡ self.old.items }
        ensures room { OnOk result (n ≤ self.new.spare) }
    {
        self.messages.reserve(n)
    }

    /// Puts a message in, in the place of the one of its number. It takes no memory.
    fn put(&mut self, message: Message)
        requires { 0 < self.old.spare }
        ensures items { self.new.items ≡ put_in_bag self.old.items message }
        ensures spare { self.old.spare ≤ self.new.spare + 1 }
    {
        self.messages.insert(message.id, message).unwrap();
    }

    /// Puts messages in, each in the place of the one of its number. It takes no memory.
    pub(crate) fn put_all(&mut self, messages: &[Message])
        requires { length messages.now ≤ self.old.spare }
        ensures { self.new.items ≡ all_put self.old.items messages.now }
    {
        for message in messages {
            self.put(*message);
        }
    }

    /// The message of a number.
    pub(crate) fn get(&self, id: MsgId) -> Option<Message>
        ensures { result ≡ find (λ m. m.id.0 == id.0) self.now.items }
    {
        self.messages.get(&id).copied()
    }
}
