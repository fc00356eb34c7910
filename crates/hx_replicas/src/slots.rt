//! The slots of a participant, and what is done with one of them.
ghost use Rattle.std.specs.Prelude.{◌≡◌, ℕ, ◌+◌, ◌≤◌, ◌==◌, Bool, true, false, List, Option, map};
ghost use Rattle.std.specs.Prelude.{None, Some, position, OnOk, OnErr, IfSome, is_none};
ghost use Rattle.std.specs.Prelude.{nat_lt, if◌then◌else◌, vec_len, vec_capacity};
ghost use Rattle.std.specs.List.{All, sum_by, list_all};
ghost use Rattle.hx_lists.specs.Lists.{count};
ghost use Rattle.hx_model.specs.Model.{dropped};
ghost use Rattle.hx_cluster.specs.declared.description.Failure.{Failure};
ghost use Rattle.hx_handler.specs.Makings.{tried_up};
ghost use Rattle.hx_replicas.specs.declared.slots.Work.TheVariants.{Accepted};
ghost use Rattle.hx_replicas.specs.Ledger.{in_place};
ghost use Rattle.hx_replicas.specs.Participants.{slot_fault, has_accepted};
ghost use Rattle.hx_replicas.specs.Participants.{is_idle, makes, made_ready, is_out};
ghost use Rattle.hx_replicas.specs.Participants.{state_for as state_of_slot};
ghost use Rattle.hx_replicas.specs.Jobs.{seen_in, Job as SeenJob, IsMaking};
ghost use Rattle.hx_replicas.specs.Layout.{IsSlot, IsQuiet, IsBare, has_number};
ghost use Rattle.hx_replicas.specs.Layout.{plain_slot, count_of, filled, wiped, restored, sent_out};

use crate::DeliverFault;
use crate::jobs::Job;
use hx_cluster::Message;
use hx_handler::{Factory, Handler, MakeFault};
use hx_ids::{MsgId, PartId, StateId};
use hx_links::Node;
use hx_model::{DROPPED, ERROR};
use std::alloc::AllocError;
use std::mem;

/// What a slot holds: no message, one that was accepted, or one that is out in a job, with a
/// handler or without.
#[derive(Clone, Copy)]
pub enum Work {
    Idle,
    Accepted(Message),
    Out(Message, bool),
}

/// A part of a participant, with its handler, if it has one.
pub struct Slot<H> {
    pub part: PartId,
    pub last: MsgId,
    pub work: Work,
    pub handler: Option<H>,
    /// Where its accepted message is linked.
    pub node: Node,
    pub state: StateId,
    pub initial: Option<StateId>,
}

/// Whether a slot has nothing to do.
fn rests(work: Work) -> bool
    ensures { result ≡ is_idle work }
{
    match work {
        Work::Idle => true,
        _ => false,
    }
}

/// Whether no slot has anything to do.
pub fn all_rest<H>(slots: &[Slot<H>]) -> bool
    ensures { result ≡ list_all (λ x. is_idle x.work) slots.now }
{
    slots.iter().all(|slot| rests(slot.work))
}

/// How many slots have accepted a message in this session.
pub fn count_used<H>(slots: &[Slot<H>]) -> usize
    ensures { result ≡ count (λ x. nat_lt 0 x.last.0) slots.now }
{
    slots.iter().filter(|slot| slot.last.0 > 0).count()
}

/// Whether a slot has accepted the message with a number.
fn holds(work: Work, id: MsgId) -> bool
    ensures { result ≡ has_accepted id work }
{
    match work {
        Work::Accepted(message) => message.id == id,
        _ => false,
    }
}

/// The place of the slot that has accepted the message with a number.
pub fn accepted_place<H>(slots: &[Slot<H>], id: MsgId) -> Option<usize>
    ensures { result ≡ position (has_number id) slots.now }
{
    slots.iter().position(|slot| holds(slot.work, id))
}

/// Why a slot refuses a message, if it does.
pub fn refusal(
    work: Work,
    state: StateId,
    last: MsgId,
    initial: Option<StateId>,
    message: &Message,
) -> Option<DeliverFault>
    ensures { result ≡ slot_fault work state last initial message.now }
{
    match work {
        Work::Accepted(other) => return Some(DeliverFault::Running { id: other.id }),
        Work::Out(other, _) => return Some(DeliverFault::Running { id: other.id }),
        Work::Idle => {}
    }
    if message.id.0 <= last.0 {
        return Some(DeliverFault::Repeat { last });
    }
    let has = state_for(initial, state, message.initial);
    if has == message.from {
        None
    } else {
        Some(DeliverFault::WrongFrom { has })
    }
}

/// The state as which a slot counts for a message with an initial state.
pub fn state_for(initial: Option<StateId>, state: StateId, coming: StateId) -> StateId
    ensures { result ≡ state_of_slot initial state coming }
{
    match initial {
        None => coming,
        Some(_) => { if state == DROPPED { coming } else { state } }
    }
}

/// Puts a handler into a slot that has none.
fn fill<H>(slot: &mut Slot<H>, handler: Option<H>)
    requires { slot.old.handler ≡ None }
    ensures { slot.new ≡ filled slot.old handler }
{
    match mem::replace(&mut slot.handler, handler) {
        None => {}
        Some(_) => unreachable!(),
    }
}

/// Makes the handler that a slot's message needs, where there is none.
pub fn ready<F: Factory>(
    slot: &mut Slot<F::H>,
    message: &Message,
    factory: &mut F,
) -> Result<(), AllocError>
    requires fits { IsSlot F.H.Handler (F.listed factory.old) slot.old }
    requires accepted { slot.old.work ≡ Accepted message.now }
    ensures slot { slot.new ≡ filled slot.old slot.new.handler }
    ensures fits { IsSlot F.H.Handler (F.listed factory.old) slot.new }
    ensures plain { OnOk result (plain_slot F.H.Handler slot.new
        ≡ made_ready (plain_slot F.H.Handler slot.old) message.now (is_none slot.new.handler)) }
    ensures err { OnErr result (slot.new ≡ slot.old) }

    ensures made { F.made factory.new + in_place slot.old.handler
        ≡ F.made factory.old + in_place slot.new.handler }
    ensures retired { F.retired factory.new ≡ F.retired factory.old }
    ensures later { F.faults factory.old ≤ F.faults factory.new }
    ensures listed { F.listed factory.new ≡ F.listed factory.old }
    ensures tried { OnOk result (F.tried factory.new
        ≡ (if makes (plain_slot F.H.Handler slot.old) message.now
        then tried_up (F.tried factory.old) message.now.part else F.tried factory.old)) }
    ensures not_tried { OnErr result (F.tried factory.new ≡ F.tried factory.old) }
    ensures answer { OnOk result (makes (plain_slot F.H.Handler slot.old) message.now ≡ true →
        IsMaking (F.faults factory.old) (F.faults factory.new) (F.made factory.new)
        (F.listed factory.old) (F.tried factory.old) message.now.part (is_none slot.new.handler)) }
{
    if slot.handler.is_some() || message.from == ERROR {
        return Ok(());
    }
    match factory.make(message.part, message.initial) {
        Ok(handler) => {
            fill(slot, Some(handler));
            Ok(())
        }
        Err(MakeFault::Faulted) => Ok(()),
        Err(MakeFault::OutOfMemory) => Err(AllocError),
    }
}

/// Hands out a slot's message with the handler, if there is one.
pub fn give<H: Handler>(slot: &mut Slot<H>, message: &Message) -> Job<H>
    requires fits { (told : Option (List Failure)) × IsSlot H.Handler told slot.old }
    requires accepted { slot.old.work ≡ Accepted message.now }
    ensures slot { slot.new ≡ sent_out slot.old message.now }
    ensures job { result ≡ record {
      message = message.now;
      handler = seen_in H.Handler slot.old.handler;
    } }
{
    let handler = slot.handler.take();
    slot.work = Work::Out(*message, handler.is_some());
    Job::from_parts(*message, handler)
}

/// The handler that goes back to its slot. At DROPPED it is retired, and none does.
pub fn keep<F: Factory>(handler: Option<F::H>, end: StateId, factory: &mut F) -> Option<F::H>
    requires at { IfSome handler (λ h. F.H.at h ≡ end) }
    requires room { F.retired factory.old + in_place handler ≤ F.made factory.old }
    ensures kept { result ≡ (if end.0 == dropped.0 then None else handler) }
    ensures retired { F.retired factory.new
        ≡ F.retired factory.old + (if end.0 == dropped.0 then in_place handler else 0) }
    ensures made { F.made factory.new ≡ F.made factory.old }
    ensures later { F.faults factory.old ≤ F.faults factory.new }
    ensures tried { F.tried factory.new ≡ F.tried factory.old }
    ensures listed { F.listed factory.new ≡ F.listed factory.old }
{
    if end != DROPPED {
        return handler;
    }
    if let Some(handler) = handler {
        let retired = handler.retire();
        factory.take_back(retired);
    }
    None
}

/// A slot comes to a state, and gets a handler back.
pub fn bring<H>(slot: &mut Slot<H>, end: StateId, handler: Option<H>)
    requires { slot.old.handler ≡ None }
    ensures { slot.new ≡ restored slot.old end handler }
{
    slot.state = end;
    slot.work = Work::Idle;
    fill(slot, handler);
}

/// Resets and retires a slot's handler, and empties the slot.
fn wipe<F: Factory>(slot: &mut Slot<F::H>, factory: &mut F)
    requires fits { IsSlot F.H.Handler (F.listed factory.old) slot.old }
    requires none_out { is_out slot.old.work ≡ false }
    requires room { F.retired factory.old + in_place slot.old.handler ≤ F.made factory.old }
    ensures slot { slot.new ≡ wiped slot.old }
    ensures retired { F.retired factory.new ≡ F.retired factory.old + in_place slot.old.handler }
    ensures made { F.made factory.new ≡ F.made factory.old }
    ensures later { F.faults factory.old ≤ F.faults factory.new }
    ensures tried { F.tried factory.new ≡ F.tried factory.old }
    ensures listed { F.listed factory.new ≡ F.listed factory.old }
{
    if let Some(mut handler) = slot.handler.take() {
        handler.reset();
        let retired = handler.retire();
        factory.take_back(retired);
    }
    slot.state = DROPPED;
    slot.last = MsgId(0);
    slot.initial = None;
    slot.work = Work::Idle;
}

/// Resets and retires all handlers, and empties all slots.
pub fn wipe_all<F: Factory>(slots: &mut Vec<Slot<F::H>>, factory: &mut F)
    requires fits { All (IsSlot F.H.Handler (F.listed factory.old)) slots.old.items }
    requires none_out { All IsQuiet slots.old.items }
    requires balanced { F.made factory.old
        ≡ F.retired factory.old + sum_by count_of slots.old.items }
    ensures slots { slots.new.items ≡ map wiped slots.old.items }
    ensures len { vec_len slots.new ≡ vec_len slots.old }
    ensures capacity { vec_capacity slots.new ≡ vec_capacity slots.old }
    ensures retired { F.retired factory.new ≡ F.made factory.old }
    ensures made { F.made factory.new ≡ F.made factory.old }
    ensures later { F.faults factory.old ≤ F.faults factory.new }
    ensures tried { F.tried factory.new ≡ F.tried factory.old }
    ensures listed { F.listed factory.new ≡ F.listed factory.old }
{
    for slot in slots.iter_mut() {
        wipe(slot, factory);
    }
}

/// Frees slots that have no handler.
pub fn free<H>(mut slots: Vec<Slot<H>>)
    requires { All IsBare slots.items }
{
    while let Some(slot) = slots.pop() {
        let Slot {
            part: _,
            last: _,
            work: _,
            handler,
            node: _,
            state: _,
            initial: _,
        } = slot;
        match handler {
            None => {}
            Some(_) => unreachable!(),
        }
    }
    slots.destroy_empty();
}
