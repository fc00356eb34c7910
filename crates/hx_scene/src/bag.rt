//! The bag of all messages ever fetched.

ghost use Rattle.std.specs.Prelude.{◌≡◌, ◌≤◌, ◌==◌, [], find, length, IfOk, OnOk};
ghost use Rattle.hx_worlds.specs.Jobs.{put_all as all_put};

use crate::Scene;
use crate::numbered::Numbered;
use hx_cluster::Message;
use hx_handler::Factory;
use hx_ids::MsgId;
use std::alloc::{AllocError, Global};
use std::marker::Model;

/// For how many messages at least room is made at once.
const BATCH: usize = 1 << 16;

/// All messages ever fetched, each as it was fetched last, in order of first fetch. They are put
/// under their numbers once one is asked for: most runs never ask.
#[derive(Drop)]
pub struct Bag {
    numbered: Numbered,
    /// What was fetched since, in order.
    recent: Vec<Message>,
}

impl Model for Bag {
    ghost use Rattle.std.specs.Prelude.{◌-◌, vec_len, vec_capacity};
    ghost use Rattle.hx_worlds.specs.Jobs.{put_all as all_put};
    ghost use Rattle.hx_scene.specs.Bags.{BagState};

    ghost Value = { BagState };

    ghost view = { λ b. record {
      items = all_put b.numbered.items b.recent.items;
      spare = vec_capacity b.recent - vec_len b.recent;
    } };
}

/// Puts what was fetched since one was asked for under its number.
fn number_all(numbered: &mut Numbered, recent: &mut Vec<Message>) -> Result<(), AllocError>
    ensures items { all_put numbered.new.items recent.new.items
        ≡ all_put numbered.old.items recent.old.items }
    ensures ok { OnOk result (recent.new.items ≡ []) }
{
    numbered.reserve(recent.len())?;
    numbered.put_all(recent);
    recent.clear();
    Ok(())
}

impl Bag {
    /// No messages.
    pub(crate) fn new(alloc: Global) -> Bag
        ensures items { result.items ≡ [] }
    {
        Bag {
            numbered: Numbered::new(alloc),
            recent: Vec::new(alloc),
        }
    }

    /// Makes room for so many more messages.
    pub(crate) fn reserve(&mut self, n: usize) -> Result<(), AllocError>
        ensures items { self.new.items ≡ self.old.items }
        ensures room { OnOk result (n ≤ self.new.spare) }
    {
        if n <= self.recent.capacity() - self.recent.len() {
            return Ok(());
        }
        number_all(&mut self.numbered, &mut self.recent)?;
        self.recent.reserve(n.max(BATCH))
    }

    /// Puts messages in, each in the place of the one of its number. It takes no memory.
    pub(crate) fn put_all(&mut self, messages: &[Message])
        requires { length messages.now ≤ self.old.spare }
        ensures { self.new.items ≡ all_put self.old.items messages.now }
    {
        if messages.is_empty() {
            return;
        }
        self.recent.extend_from_slice(messages).unwrap();
    }

    /// The message of a number.
    pub(crate) fn get(&mut self, id: MsgId) -> Result<Option<Message>, AllocError>
        ensures items { self.new.items ≡ self.old.items }
        ensures found { IfOk result (λ found.
            found ≡ find (λ m. m.id.0 == id.0) self.old.items) }
    {
        number_all(&mut self.numbered, &mut self.recent)?;
        Ok(self.numbered.get(id))
    }
}

impl<F: Factory> Scene<F> {
    /// The message of a number that was fetched, as it was fetched last.
    pub fn fetched(&mut self, id: MsgId) -> Result<Option<Message>, AllocError>
        ensures same { self.new ≡ self.old }
        ensures found { IfOk result (λ found.
            found ≡ find (λ m. m.id.0 == id.0) self.old.bag) }
    {
        self.bag.get(id)
    }
}
