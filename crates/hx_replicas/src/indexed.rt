//! The slots of a participant, found by part, by the number of an accepted message, and in order
//! of delivery.
ghost use Rattle.std.specs.Prelude.{◌≡◌, ℕ, ◌+◌, ◌-◌, ◌^◌, ◌<◌, ◌≤◌, ◌==◌, List, [], ◌∷◌, ◌++◌, length};
ghost use Rattle.std.specs.Prelude.{false, Option, None, Some, position, slice_get, OnOk};
ghost use Rattle.std.specs.Prelude.{if◌then◌else◌};
ghost use Rattle.std.specs.HashMap.{get, spare as room_of};
ghost use Rattle.hx_links.specs.declared.Node.{Node};
ghost use Rattle.hx_ids.specs.declared.MsgId.{MsgId};
ghost use Rattle.hx_cluster.specs.declared.description.Failure.{Failure};
ghost use Rattle.hx_replicas.specs.declared.slots.Work.TheVariants.{Idle, Accepted};
ghost use Rattle.hx_replicas.specs.declared.slots.Slot.{Slot};
ghost use Rattle.hx_replicas.specs.Jobs.{seen_in};
ghost use Rattle.hx_replicas.specs.Layout.{IsSlot, has_part, has_number, taken, fresh, sent_out};
ghost use Rattle.hx_replicas.specs.Indexes.{IsIndexed, HasRoom, number_eq, alter};

use crate::jobs::Job;
use crate::queue::{Queue, Waiting};
use crate::slots::{Slot, Work, accepted_place, give};
use hx_cluster::Message;
use hx_handler::Handler;
use hx_ids::{MsgId, PartId};
use std::alloc::{AllocError, Global};
use std::collections::HashMap;

/// The slots, and where they are found.
pub struct Indexed<H> {
    pub items: Vec<Slot<H>>,
    // The accepted messages, each with its slot's place.
    pub queue: Queue,
    // The place of each part's slot.
    pub places: HashMap<PartId, usize>,
    // The place of the slot that has accepted a number.
    pub numbers: HashMap<MsgId, usize>,
    // Whether two slots have accepted one number since all were emptied. Then a number is searched
    // for among the slots: a board gives none twice.
    pub repeats: bool,
}

// Notes that the slot in a place has accepted a number, and whether another one had before.
fn note(numbers: &mut HashMap<MsgId, usize>, repeats: &mut bool, id: MsgId, place: usize)
    requires { 0 < room_of numbers.old }
    ensures first { repeats.new ≡ false
        → (repeats.old ≡ false) × (get number_eq numbers.old id ≡ None) }
    ensures gets { (q : MsgId) → get number_eq numbers.new q
        ≡ (if id.0 == q.0 then Some place else get number_eq numbers.old q) }
    ensures room { room_of numbers.old ≤ room_of numbers.new + 1 }
{
    if let Ok(Some(_)) = numbers.insert(id, place) {
        *repeats = true;
    }
}

// Forgets the slot that has accepted a number.
fn forget(numbers: &mut HashMap<MsgId, usize>, id: MsgId)
    ensures gets { (q : MsgId) → get number_eq numbers.new q
        ≡ (if id.0 == q.0 then None else get number_eq numbers.old q) }
    ensures room { room_of numbers.old ≤ room_of numbers.new }
{
    numbers.remove(&id);
}

impl<H> Indexed<H> {
    /// No slots.
    pub fn new(alloc: Global) -> Indexed<H>
        ensures items { result.items.items ≡ [] }
        ensures indexed { IsIndexed result }
    {
        Indexed {
            items: Vec::new(alloc),
            queue: Queue::new(alloc),
            places: HashMap::new(alloc),
            numbers: HashMap::new(alloc),
            repeats: false,
        }
    }

    /// The place of a part's slot.
    #[inline(always)]
    pub fn place_of(&self, part: PartId) -> Option<usize>
        requires { IsIndexed self.now }
        ensures { result ≡ position (has_part part) self.now.items.items }
    {
        self.places.get(&part).copied()
    }

    /// The place of the slot that has accepted the message with a number.
    pub fn accepted_place(&self, id: MsgId) -> Option<usize>
        requires { IsIndexed self.now }
        ensures { result ≡ position (has_number id) self.now.items.items }
    {
        if self.repeats {
            return accepted_place(&self.items, id);
        }
        self.numbers.get(&id).copied()
    }

    /// Makes room for so many more accepted messages.
    pub fn reserve(&mut self, n: usize) -> Result<(), AllocError>
        requires indexed { IsIndexed self.old }
        requires few { length self.old.items.items + n < 2 ^ 32 - 1 }
        ensures indexed { IsIndexed self.new }
        ensures items { self.new.items.items ≡ self.old.items.items }
        ensures room { OnOk result (HasRoom n self.new) }
        ensures spare { (k : ℕ) → HasRoom k self.old → HasRoom k self.new }
    {
        self.items.reserve(n)?;
        self.queue.reserve(n)?;
        self.places.reserve(n)?;
        self.numbers.reserve(n)
    }

    /// A slot that has nothing to do accepts a message. It takes no memory.
    pub fn accept(&mut self, place: usize, message: &Message)
        requires indexed { IsIndexed self.old }
        requires room { HasRoom 1 self.old }
        requires place { place < length self.old.items.items }
        requires idle { (x : Slot H) → slice_get self.old.items.items place ≡ Some x
            → x.work ≡ Idle }
        ensures items { (node : Node) × (self.new.items.items
            ≡ alter (taken message.now node) place self.old.items.items) }
        ensures indexed { IsIndexed self.new }
        ensures room { (k : ℕ) → HasRoom (k + 1) self.old → HasRoom k self.new }
    {
        let node = self.queue.push_reserved(Waiting {
            place,
            message: *message,
        });
        note(&mut self.numbers, &mut self.repeats, message.id, place);
        let slot = &mut self.items[place];
        slot.state = message.from;
        slot.last = message.id;
        slot.initial = Some(message.initial);
        slot.work = Work::Accepted(*message);
        slot.node = node;
    }

    /// A new slot accepts the first message of its part. It takes no memory.
    pub fn accept_first(&mut self, message: &Message)
        requires indexed { IsIndexed self.old }
        requires room { HasRoom 1 self.old }
        requires new { position (has_part message.now.part) self.old.items.items ≡ None }
        ensures items { (node : Node) × (self.new.items.items
            ≡ self.old.items.items ++ fresh message.now node ∷ []) }
        ensures indexed { IsIndexed self.new }
        ensures room { (k : ℕ) → HasRoom (k + 1) self.old → HasRoom k self.new }
    {
        let place = self.items.len();
        let node = self.queue.push_reserved(Waiting {
            place,
            message: *message,
        });
        note(&mut self.numbers, &mut self.repeats, message.id, place);
        let Ok(_) = self.places.insert(message.part, place) else {
            unreachable!()
        };
        self.items.push_reserved(Slot {
            part: message.part,
            last: message.id,
            work: Work::Accepted(*message),
            handler: None,
            node,
            state: message.from,
            initial: Some(message.initial),
        });
    }

    /// Forgets what the slots have accepted, once they are emptied. It takes no memory.
    pub fn forget_all(&mut self)
        ensures items { self.new.items ≡ self.old.items }
        ensures places { self.new.places ≡ self.old.places }
        ensures queue { self.new.queue.entries ≡ [] }
        ensures numbers { (q : MsgId) → get number_eq self.new.numbers q ≡ None }
        ensures room { (k : ℕ) → HasRoom k self.old → HasRoom k self.new }
    {
        self.queue.clear();
        self.numbers.clear();
        self.repeats = false;
    }
}

impl<H: Handler> Indexed<H> {
    /// Hands out a slot's message with the handler, if there is one. It takes no memory.
    pub fn send(&mut self, place: usize, message: &Message) -> Job<H>
        requires indexed { IsIndexed self.old }
        requires fits { (told : Option (List Failure)) × ((x : Slot H)
            → slice_get self.old.items.items place ≡ Some x → IsSlot H.Handler told x) }
        requires place { place < length self.old.items.items }
        requires accepted { (x : Slot H) → slice_get self.old.items.items place ≡ Some x
            → x.work ≡ Accepted message.now }
        ensures items { self.new.items.items
            ≡ alter (λ x. sent_out x message.now) place self.old.items.items }
        ensures job { (x : Slot H) → slice_get self.old.items.items place ≡ Some x
            → result ≡ record {
              message = message.now;
              handler = seen_in H.Handler x.handler;
            } }
        ensures indexed { IsIndexed self.new }
        ensures room { (k : ℕ) → HasRoom k self.old → HasRoom k self.new }
    {
        self.queue.unlink(self.items[place].node);
        forget(&mut self.numbers, message.id);
        give(&mut self.items[place], message)
    }
}
