//! Participants.
ghost use Rattle.std.specs.Prelude.{◌≡◌, ◌+◌, ◌<◌, ◌≤◌, ◌==◌, Bool, true, false, List, [], length};
ghost use Rattle.std.specs.Prelude.{map, vec_len, vec_capacity, None, Some, OnOk, OnErr, IfOk};
ghost use Rattle.std.specs.Prelude.{slice_get};
ghost use Rattle.std.specs.Prelude.{IfSome, IfNone, is_none, is_some, if◌then◌else◌, MatchResult};
ghost use Rattle.std.specs.Option.{option_map, ForSome};
ghost use Rattle.std.specs.List.{All};
ghost use Rattle.hx_model.specs.Model.{dropped};
ghost use Rattle.hx_replicas.specs.declared.slots.Work.TheVariants.{Accepted, Out};
ghost use Rattle.hx_replicas.specs.Ledger.{IsBalanced, in_place};
ghost use Rattle.hx_replicas.specs.Participants.{new_participant, slot_of, counts_as, used_of};
ghost use Rattle.hx_replicas.specs.Participants.{all_idle, any_out, is_session, Fits};
ghost use Rattle.hx_replicas.specs.Participants.{deliver_fault, accept, accepted_by, accepted_all};
ghost use Rattle.hx_replicas.specs.Participants.{makes, readied, readied_all, given, given_all};
ghost use Rattle.hx_replicas.specs.Participants.{hand_out, hand_out_all, end_of};
ghost use Rattle.hx_replicas.specs.Participants.{finish as finish_of, adopt as adopt_of};
ghost use Rattle.hx_replicas.specs.Jobs.{ParticipantState, IsHanded, IsMaking, AreAnswered};
ghost use Rattle.hx_replicas.specs.Jobs.{KeepsRest, runs_of};
ghost use Rattle.hx_replicas.specs.Batches.{AreSpread, AreAccepted, IsReadied, AreGiven};
ghost use Rattle.hx_replicas.specs.Indexes.{place_of};

use crate::DeliverFault;
use crate::indexed::Indexed;
use crate::jobs::{Done, Job};
use crate::queue::messages_of;
use crate::slots::{
    Work, all_rest, bring, count_used, free, keep, ready, refusal, state_for, wipe_all,
};
use hx_cluster::Message;
use hx_handler::Factory;
use hx_ids::{InstanceId, MsgId, PartId, SessionId, StateId};
use hx_model::DROPPED;
use std::alloc::{AllocError, Global};
use std::marker::Model;

/// More parts and accepted messages than there ever are.
const MOST: usize = u32::MAX as usize;

/// How many deliveries room is made for at least, where any has to be made.
const FEW: usize = 16;

/// How many it is made for at least where there is none yet. What isn't used costs an address
/// alone.
const MANY: usize = 128;

/// An instance's session, its parts, and its factory of handlers. It can't be dropped: it has to be
/// closed.
pub struct Participant<F: Factory> {
    instance: InstanceId,
    session: Option<SessionId>,
    slots: Indexed<F::H>,
    // How many more deliveries need no memory.
    spare: usize,
    factory: F,
}

impl<F: Factory> Model for Participant<F> {
    ghost use Rattle.std.specs.Prelude.{map};
    ghost use Rattle.hx_replicas.specs.Jobs.{ParticipantState};
    ghost use Rattle.hx_replicas.specs.Layout.{plain_slot, IsLaidOut};
    ghost use Rattle.hx_replicas.specs.Indexes.{IsIndexed, HasRoom};

    ghost Value = { ParticipantState };

    ghost view = { λ a. record {
      instance = a.instance;
      plain = record {
        session = a.session;
        slots = map (plain_slot F.H.Handler) a.slots.items.items;
        tried = F.tried a.factory;
      };
      spare = a.spare;
      made = F.made a.factory;
      retired = F.retired a.factory;
      faults = F.faults a.factory;
      listed = F.listed a.factory;
    } };

    ghost invariant = { λ a.
        IsLaidOut F.H.Handler (F.listed a.factory) a.slots.items.items
        (F.made a.factory) (F.retired a.factory)
        × IsIndexed a.slots × HasRoom a.spare a.slots };
}

impl<F: Factory> Participant<F> {
    /// A participant without a session, which has used no part.
    pub fn new(alloc: Global, instance: InstanceId, factory: F) -> Participant<F>
        requires { F.made factory ≡ F.retired factory }
        ensures { result ≡ record {
          instance = instance;
          plain = record new_participant { tried = F.tried factory };
          spare = 0;
          made = F.made factory;
          retired = F.retired factory;
          faults = F.faults factory;
          listed = F.listed factory;
        } }
    {
        Participant {
            instance,
            session: None,
            slots: Indexed::new(alloc),
            spare: 0,
            factory,
        }
    }

    /// Its session.
    pub fn session(&self) -> Option<SessionId>
        ensures { result ≡ self.now.plain.session }
    {
        self.session
    }

    /// Its instance.
    pub fn instance(&self) -> InstanceId
        ensures { result ≡ self.now.instance }
    {
        self.instance
    }

    /// Whether no message is accepted, and no job is out.
    pub fn idle(&self) -> bool
        ensures { result ≡ all_idle self.now.plain }
    {
        all_rest(&self.slots.items)
    }

    /// The state as which a part counts for a message with an initial state, and the number of the
    /// last message accepted in this session, or 0.
    pub fn slot(&self, part: PartId, initial: StateId) -> (StateId, u64)
        ensures state { result.0 ≡ counts_as (slot_of self.now.plain part) initial }
        ensures last { result.1 ≡ (slot_of self.now.plain part).last.0 }
    {
        match self.slots.place_of(part) {
            None => (initial, 0),
            Some(place) => {
                let slot = &self.slots.items[place];
                (state_for(slot.initial, slot.state, initial), slot.last.0)
            }
        }
    }

    /// The initial state of the messages of a part that were accepted in this session.
    pub fn initial_of(&self, part: PartId) -> Option<StateId>
        ensures { result ≡ (slot_of self.now.plain part).initial }
    {
        match self.slots.place_of(part) {
            None => None,
            Some(place) => self.slots.items[place].initial,
        }
    }

    /// How many slots it has, one for each part that it ever used.
    pub fn slots(&self) -> usize
        ensures { result ≡ length self.now.plain.slots }
    {
        self.slots.items.len()
    }

    /// The part of the slot in a place.
    pub fn part_at(&self, place: usize) -> PartId
        requires { place < length self.now.plain.slots }
        ensures { option_map (λ x. x.part) (slice_get self.now.plain.slots place) ≡ Some result }
    {
        self.slots.items[place].part
    }

    /// How many parts have accepted a message in this session.
    pub fn used(&self) -> u64
        ensures { result ≡ used_of self.now.plain }
    {
        count_used(&self.slots.items) as u64
    }

    /// The accepted messages, by number.
    pub fn accepted(&self) -> Result<Vec<Message>, AllocError>
        ensures { IfOk result (λ messages. messages.items ≡ accepted_all self.now.plain) }
    {
        self.ordered()
    }

    /// Makes room for so many deliveries.
    #[inline]
    pub fn reserve(&mut self, n: usize) -> Result<(), AllocError>
        ensures room { OnOk result (n ≤ self.new.spare) }
        ensures spare { self.old.spare ≤ self.new.spare }
        ensures rest { self.new ≡ record self.old { spare = self.new.spare } }
        ensures ledger { IsBalanced self.new.made self.new.retired self.new.plain }
    {
        if n <= self.spare {
            return Ok(());
        }
        let least = if self.slots.items.is_empty() {
            MANY
        } else {
            FEW
        };
        self.make_room(n.max(least))
    }

    // Makes room for so many deliveries, which are more than there is room for.
    #[inline(never)]
    fn make_room(&mut self, n: usize) -> Result<(), AllocError>
        requires { self.old.spare ≤ n }
        ensures room { OnOk result (n ≤ self.new.spare) }
        ensures spare { self.old.spare ≤ self.new.spare }
        ensures rest { self.new ≡ record self.old { spare = self.new.spare } }
        ensures ledger { IsBalanced self.new.made self.new.retired self.new.plain }
    {
        if self.slots.items.len().saturating_add(n) >= MOST {
            return Err(AllocError);
        }
        self.slots.reserve(n)?;
        self.spare = n;
        Ok(())
    }

    /// Accepts a message, or says why not. It takes no memory.
    pub fn deliver(&mut self, message: &Message) -> Result<(), DeliverFault>
        requires spare { 0 < self.old.spare }
        requires fits { is_session self.old.plain.session message.now.session ≡ true →
            Fits self.old.plain message.now }
        ensures decides { MatchResult result
            (λ _. deliver_fault self.old.plain message.now ≡ None)
            (λ e. deliver_fault self.old.plain message.now ≡ Some e) }
        ensures ok { OnOk result (self.new ≡ record self.old {
          plain = accept self.old.plain message.now;
          spare = self.new.spare;
        }) }
        ensures spare { OnOk result (self.new.spare + 1 ≡ self.old.spare) }
        ensures err { OnErr result (self.new ≡ self.old) }
        ensures ledger { IsBalanced self.new.made self.new.retired self.new.plain }
    {
        if !is_mine(self.session, message.session) {
            return Err(DeliverFault::OtherSession { mine: self.session });
        }
        let Some(place) = self.slots.place_of(message.part) else {
            if let Some(fault) = refusal(Work::Idle, DROPPED, MsgId(0), None, message) {
                return Err(fault);
            }
            self.slots.accept_first(message);
            self.spare -= 1;
            return Ok(());
        };
        let slot = &self.slots.items[place];
        if let Some(fault) = refusal(slot.work, slot.state, slot.last, slot.initial, message) {
            return Err(fault);
        }
        self.slots.accept(place, message);
        self.spare -= 1;
        Ok(())
    }

    /// Hands out an accepted message by its number, with a handler, which is made where its part
    /// has none and the message doesn't leave ERROR.
    pub fn job_of(&mut self, id: MsgId) -> Result<Option<Job<F::H>>, AllocError>
        ensures asked { IfOk result (λ found.
            option_map (λ job. job.message) found ≡ accepted_by self.old.plain id) }
        ensures none { IfOk result (λ found. IfNone found (self.new ≡ self.old)) }
        ensures plain { IfOk result (λ found. IfSome found (λ job.
            self.new.plain ≡ hand_out self.old.plain job.message (is_none job.handler))) }
        ensures handed { IfOk result (λ found. IfSome found (IsHanded self.old self.new)) }
        ensures err { OnErr result (self.new.plain ≡ self.old.plain) }
        ensures rest { KeepsRest self.old self.new }
        ensures ledger { IsBalanced self.new.made self.new.retired self.new.plain }
    {
        let Some(place) = self.slots.accepted_place(id) else {
            return Ok(None);
        };
        let Work::Accepted(message) = self.slots.items[place].work else {
            unreachable!()
        };
        self.ready_one(place, &message)?;
        Ok(Some(self.give_one(place, &message)))
    }

    /// Hands out all accepted messages by their numbers, as `job_of` does. It makes the handlers
    /// first. At want of memory no job is out, and the handlers that were made stay.
    pub fn jobs(&mut self) -> Result<Vec<Job<F::H>>, AllocError>
        ensures asked { IfOk result (λ jobs.
            map (λ job. job.message) jobs.items ≡ accepted_all self.old.plain) }
        ensures plain { IfOk result (λ jobs. self.new.plain
            ≡ hand_out_all self.old.plain (accepted_all self.old.plain)
            (map (λ job. is_none job.handler) jobs.items)) }
        ensures handed { IfOk result (λ jobs. All (IsHanded self.old self.new) jobs.items) }
        ensures err { OnErr result ((answers : List Bool)
            × (self.new.plain
            ≡ readied_all self.old.plain (accepted_all self.old.plain) answers)
            × AreAnswered self.old self.new (accepted_all self.old.plain) answers) }
        ensures rest { KeepsRest self.old self.new }
        ensures ledger { IsBalanced self.new.made self.new.retired self.new.plain }
    {
        let alloc = *self.slots.items.allocator();
        let messages = self.ordered()?;
        self.ready_all(&messages)?;
        let mut jobs = Vec::with_capacity(alloc, messages.len())?;
        self.give_all(&messages, &mut jobs);
        Ok(jobs)
    }

    /// Takes a job back. Its handler is retired at DROPPED. It takes no memory.
    #[inline(always)]
    pub fn finish(&mut self, done: Done<F::H>)
        requires out { (slot_of self.old.plain done.message.part).work
            ≡ Out done.message (is_some done.handler) }
        requires listed { ForSome done.handler (λ h. h.listed ≡ self.old.listed) }
        ensures plain { self.new.plain
            ≡ finish_of self.old.plain done.message done.outcome (runs_of done.handler) }
        ensures retired { self.new.retired ≡ self.old.retired
            + (if (end_of done.message done.outcome).0 == dropped.0
            then in_place done.handler else 0) }
        ensures instance { self.new.instance ≡ self.old.instance }
        ensures spare { self.new.spare ≡ self.old.spare }
        ensures made { self.new.made ≡ self.old.made }
        ensures later { self.old.faults ≤ self.new.faults }
        ensures listed { self.new.listed ≡ self.old.listed }
        ensures ledger { IsBalanced self.new.made self.new.retired self.new.plain }
    {
        let end = done.end();
        let Some(place) = self.slots.place_of(done.message().part) else {
            unreachable!()
        };
        let (_, handler) = done.into_parts();
        let slot = &mut self.slots.items[place];
        let kept = keep(handler, end, &mut self.factory);
        bring(slot, end, kept);
    }

    /// Retires all handlers, empties all parts, and takes a session. It takes no memory.
    pub fn adopt(&mut self, session: Option<SessionId>)
        requires { any_out self.old.plain ≡ false }
        ensures plain { self.new.plain ≡ adopt_of self.old.plain session }
        ensures quiet { any_out self.new.plain ≡ false }
        ensures none_held { self.new.retired ≡ self.new.made }
        ensures instance { self.new.instance ≡ self.old.instance }
        ensures spare { self.new.spare ≡ self.old.spare }
        ensures made { self.new.made ≡ self.old.made }
        ensures later { self.old.faults ≤ self.new.faults }
        ensures listed { self.new.listed ≡ self.old.listed }
        ensures ledger { IsBalanced self.new.made self.new.retired self.new.plain }
    {
        wipe_all(&mut self.slots.items, &mut self.factory);
        self.slots.forget_all();
        self.session = session;
    }

    /// Ends the participant: retires all handlers, and gives its factory. It takes no memory.
    pub fn close(self) -> F
        requires { any_out self.plain ≡ false }
        ensures none_held { F.retired result ≡ F.made result }
        ensures made { F.made result ≡ self.made }
        ensures later { self.faults ≤ F.faults result }
        ensures tried { F.tried result ≡ self.plain.tried }
        ensures listed { F.listed result ≡ self.listed }
    {
        let Participant {
            instance: _,
            session: _,
            slots,
            spare: _,
            mut factory,
        } = self;
        let Indexed {
            mut items,
            queue: _,
            places: _,
            numbers: _,
            repeats: _,
        } = slots;
        wipe_all(&mut items, &mut factory);
        free(items);
        factory
    }

    // The accepted messages, by number.
    fn ordered(&self) -> Result<Vec<Message>, AllocError>
        ensures { IfOk result (λ messages. messages.items ≡ accepted_all self.now.plain) }
    {
        let alloc = *self.slots.items.allocator();
        let waiting = self.slots.queue.in_order(alloc)?;
        messages_of(alloc, &waiting)
    }

    // The place of the slot that has accepted a message.
    fn place_for(&self, message: &Message) -> usize
        requires { (slot_of self.now.plain message.now.part).work ≡ Accepted message.now }
        ensures { place_of self.now.plain message.now.part ≡ Some result }
    {
        let Some(place) = self.slots.place_of(message.part) else {
            unreachable!()
        };
        place
    }

    // Makes the handler that the accepted message of the slot in a place needs, where it has none.
    fn ready_one(&mut self, place: usize, message: &Message) -> Result<(), AllocError>
        requires accepted { (slot_of self.old.plain message.now.part).work ≡ Accepted message.now }
        requires place { place_of self.old.plain message.now.part ≡ Some place }
        ensures plain { OnOk result (self.new.plain
            ≡ readied self.old.plain message.now
            (is_none (slot_of self.new.plain message.now.part).handler)) }
        ensures answer { OnOk result
            (makes (slot_of self.old.plain message.now.part) message.now ≡ true →
            IsMaking self.old.faults self.new.faults self.new.made self.old.listed
            self.old.plain.tried message.now.part
            (is_none (slot_of self.new.plain message.now.part).handler)) }
        ensures err { OnErr result (self.new.plain ≡ self.old.plain) }
        ensures made { self.old.made ≤ self.new.made }
        ensures place { OnOk result (place_of self.new.plain message.now.part ≡ Some place) }
        ensures rest { KeepsRest self.old self.new }
        ensures ledger { IsBalanced self.new.made self.new.retired self.new.plain }
    {
        ready(&mut self.slots.items[place], message, &mut self.factory)?;
        Ok(())
    }

    // Hands out the accepted message of the slot in a place with its handler, if there is one.
    fn give_one(&mut self, place: usize, message: &Message) -> Job<F::H>
        requires accepted { (slot_of self.old.plain message.now.part).work ≡ Accepted message.now }
        requires place { place_of self.old.plain message.now.part ≡ Some place }
        ensures plain { self.new.plain ≡ given self.old.plain message.now }
        ensures message { result.message ≡ message.now }
        ensures runs { runs_of result.handler
            ≡ (slot_of self.old.plain message.now.part).handler }
        ensures listed { ForSome result.handler (λ h. h.listed ≡ self.old.listed) }
        ensures rest { self.new ≡ record self.old { plain = self.new.plain } }
        ensures ledger { IsBalanced self.new.made self.new.retired self.new.plain }
    {
        self.slots.send(place, message)
    }

    // Makes the handlers that messages need, as far as there is memory.
    fn ready_all(&mut self, messages: &[Message]) -> Result<(), AllocError>
        requires spread { AreSpread messages.now }
        requires accepted { AreAccepted self.old.plain messages.now }
        requires ledger { IsBalanced self.old.made self.old.retired self.old.plain }
        ensures answers { MatchResult result
            (λ _. (answers : List Bool) × IsReadied self.old self.new messages.now answers
            × (length answers ≡ length messages.now))
            (λ _. (answers : List Bool) × IsReadied self.old self.new messages.now answers) }
        ensures ledger { IsBalanced self.new.made self.new.retired self.new.plain }
    {
        for message in messages {
            let place = self.place_for(message);
            self.ready_one(place, message)?;
        }
        Ok(())
    }

    // Hands out messages, into a vector with room for their jobs.
    fn give_all(&mut self, messages: &[Message], jobs: &mut Vec<Job<F::H>>)
        requires spread { AreSpread messages.now }
        requires accepted { AreAccepted self.old.plain messages.now }
        requires ledger { IsBalanced self.old.made self.old.retired self.old.plain }
        requires empty { jobs.old.items ≡ [] }
        requires room { vec_len jobs.old + length messages.now ≤ vec_capacity jobs.old }
        ensures plain { self.new.plain ≡ given_all self.old.plain messages.now }
        ensures given { AreGiven self.old messages.now jobs.new.items }
        ensures len { length jobs.new.items ≡ length messages.now }
        ensures rest { self.new ≡ record self.old { plain = self.new.plain } }
        ensures ledger { IsBalanced self.new.made self.new.retired self.new.plain }
    {
        for message in messages {
            let place = self.place_for(message);
            jobs.push_reserved(self.give_one(place, message));
        }
    }
}

// Whether a session is the participant's.
fn is_mine(mine: Option<SessionId>, session: SessionId) -> bool
    ensures { result ≡ is_session mine session }
{
    mine == Some(session)
}
