//! How proposals become messages.
ghost use Rattle.std.specs.Prelude.{◌≡◌, ℕ, ◌+◌, ◌^◌, ◌<◌, Some, true, slice_get, length, IfOk};
ghost use Rattle.std.specs.Prelude.{OnOk, OnErr, option_copied};
ghost use Rattle.std.specs.List.{list_all};
ghost use Rattle.hx_cluster.specs.declared.state.Cluster.{Cluster};
ghost use Rattle.hx_cluster.specs.Ends.{count_of, limit_at, state_of, message_of};
ghost use Rattle.hx_cluster.specs.Ends.{instance_in, shown_of, is_live};
ghost use Rattle.hx_cluster.specs.Messages.{proposal_load, throttled_from, bounded, placed_of, after_placed};
ghost use Rattle.hx_cluster.specs.Messages.{after_proposal, after_proposals, placed_all};
ghost use Rattle.hx_cluster.specs.Messages.{after_dispatch};
ghost use Rattle.hx_cluster.specs.Events.{is_proposable, dispatched_of};
ghost use Rattle.hx_cluster.specs.Room.{half, HasRoom};
ghost use Rattle.hx_safe.proofs.Kept.{IsKept};
ghost use Rattle.hx_records.specs.Reached.{IsReached};
ghost use Rattle.hx_records.specs.Records.{unsent, IsAnswered, IsPlacedFrom};

use crate::Records;
use hx_calls::{message_from, raise_pass};
use hx_cluster::{Dispatched, Message, Placed, Proposal, Rule};
use hx_ids::{ControllerId, InstanceId, MsgId, PartId, SessionId, StateId};
use hx_lists::Seq;
use hx_model::limit;
use hx_slots::{key_on, lower, raise};
use std::alloc::AllocError;

/// The answer where a rule, by its place, has no room. A place past 32 bits is want of memory.
fn over_throttle(place: usize, load: u32, limit: u32) -> Result<Placed, AllocError>
    ensures { IfOk result (λ placed. placed ≡ Placed.OverThrottle place load limit) }
{
    match u32::try_from(place) {
        Ok(rule) => Ok(Placed::OverThrottle { rule, load, limit }),
        Err(_) => Err(AllocError),
    }
}

impl Records {
    /// How many replicas of a part may be in a state, if that is limited.
    fn limit(&self, part: PartId, state: StateId) -> Option<u32>
        ensures { result ≡ limit_at self.now part state }
    {
        let model = self.rest.model_of(part.resource)?;
        limit(
            model.bound(state),
            self.rest.replicas_of(part.resource),
            self.live,
        )
    }

    /// The load of a rule, by its place, under the key of a proposal to an instance.
    fn load(&self, place: usize, rule: &Rule, instance: InstanceId, proposal: &Proposal) -> u32
        requires rule { slice_get self.now.rules place ≡ Some rule.now }
        requires instance { instance_in (shown_of self.now.live) proposal.now.session
            ≡ Some instance }
        ensures { result ≡ proposal_load self.now proposal.now rule.now }
    {
        self.counts
            .load(place, key_on(rule.scope, instance, proposal.part))
    }

    /// How many live sessions have a state among the ends of a part, where that is limited.
    fn count(&self, part: PartId, state: StateId, limit: u32) -> u32
        requires { limit_at self.now part state ≡ Some limit }
        ensures { result ≡ count_of self.now part state }
    {
        self.counts.count(part, state)
    }

    /// The answer to a proposal that the bounds allow: the first rule without room for it, or it is
    /// sent.
    fn throttle(&self, instance: InstanceId, proposal: &Proposal) -> Result<Placed, AllocError>
        requires { instance_in (shown_of self.now.live) proposal.now.session ≡ Some instance }
        ensures { IfOk result (λ placed.
            placed ≡ throttled_from self.now proposal.now 0 self.now.rules) }
    {
        let Proposal { from, to, .. } = *proposal;
        for (place, rule) in self.rest.rules.as_slice().iter().enumerate() {
            if rule.matches(from, to) {
                let load = self.load(place, rule, instance, proposal);
                if rule.limit <= load {
                    return over_throttle(place, load, rule.limit);
                }
            }
        }
        Ok(Placed::Sent(MsgId(self.rest.next_msg)))
    }

    /// The answer to a legal proposal: a state that is limited and has no room refuses it.
    fn bound(&self, instance: InstanceId, proposal: &Proposal) -> Result<Placed, AllocError>
        requires { instance_in (shown_of self.now.live) proposal.now.session ≡ Some instance }
        ensures { IfOk result (λ placed.
            placed
            ≡ bounded self.now proposal.now
            (limit_at self.now proposal.now.part proposal.now.to)) }
    {
        if let Some(bound) = self.limit(proposal.part, proposal.to) {
            let count = self.count(proposal.part, proposal.to, bound);
            if bound <= count {
                return Ok(Placed::OverBound { count, bound });
            }
        }
        self.throttle(instance, proposal)
    }

    /// The answer to a proposal to a live session of an instance, whose replica has a state, or
    /// none, and a message pending, or none.
    fn place(
        &self,
        instance: InstanceId,
        standing: (Option<StateId>, Option<&Message>),
        proposal: &Proposal,
    ) -> Result<Placed, AllocError>
        requires instance { instance_in (shown_of self.now.live) proposal.now.session
            ≡ Some instance }
        requires live { is_live self.now.live proposal.now.session ≡ true }
        requires has { standing.0 ≡ state_of self.now.rows proposal.now.session proposal.now.part }
        requires message { option_copied standing.1
            ≡ message_of self.now.mail proposal.now.session proposal.now.part }
        ensures { IfOk result (λ placed. placed ≡ placed_of self.now proposal.now) }
    {
        let Proposal { part, from, to, .. } = *proposal;
        let (has, pending) = standing;
        if self.rest.is_dropped(part.resource) && has.is_none() {
            return Ok(Placed::ResourceDropped);
        }
        if let Some(message) = pending {
            return Ok(Placed::Busy { id: message.id });
        }
        if has.unwrap_or(self.rest.initial_of(part)) != from {
            return Ok(Placed::WrongFrom { has });
        }
        if !self.rest.is_legal(part, from, to) {
            return Ok(Placed::Illegal);
        }
        self.bound(instance, proposal)
    }

    /// Sends a message.
    fn send(
        &mut self,
        instance: InstanceId,
        has: Option<StateId>,
        id: MsgId,
        proposal: &Proposal,
    ) -> Result<(), AllocError>
        requires instance { instance_in (shown_of self.old.live) proposal.now.session
            ≡ Some instance }
        requires has { has ≡ state_of self.old.rows proposal.now.session proposal.now.part }
        requires placed { placed_of self.old proposal.now ≡ Placed.Sent id }
        requires kept { IsKept self.old }
        requires room { (self.old.next_msg + 1 < 2 ^ 64) × (self.old.change + 1 < 2 ^ 64) }
        ensures ok { OnOk result (
            self.new ≡ after_placed self.old proposal.now (Placed.Sent id)) }
        ensures err { OnErr result (self.new ≡ self.old) }
    {
        let message = message_from(&self.rest, id, proposal);
        raise(&self.rest, &mut self.counts, instance, has, &message)?;
        if self.slots.send(message).is_err() {
            lower(&self.rest, &mut self.counts, instance, has, &message);
            return Err(AllocError);
        }
        self.rest.next_msg += 1;
        self.rest.change += 1;
        Ok(())
    }

    /// Places a proposal: the first answer that fits, and where it is sent its message.
    fn place_one(&mut self, proposal: &Proposal) -> Result<Placed, AllocError>
        requires kept { IsKept self.old }
        requires room { (self.old.next_msg + 1 < 2 ^ 64) × (self.old.change + 1 < 2 ^ 64) }
        ensures placed { IfOk result (λ placed. placed ≡ placed_of self.old proposal.now) }
        ensures ok { OnOk result (self.new ≡ after_proposal self.old proposal.now) }
        ensures err { OnErr result (self.new ≡ self.old) }
    {
        let Some(live) = self.sessions.find(proposal.session) else {
            return Ok(Placed::Ended);
        };
        let standing = self.slots.standing(proposal.session, proposal.part);
        let has = standing.0;
        let placed = self.place(live.instance, standing, proposal)?;
        if let Placed::Sent(id) = placed {
            self.send(live.instance, has, id, proposal)?;
        }
        Ok(placed)
    }

    /// Takes the message that was sent last back.
    fn unsend(&mut self, session: SessionId, id: MsgId)
        requires kept { IsKept self.old }
        requires some { (0 < self.old.next_msg) × (0 < self.old.change) }
        ensures { self.new ≡ unsent self.old session id }
    {
        self.discard(session, id);
        self.rest.next_msg -= 1;
        self.rest.change -= 1;
    }

    /// Takes back what the answer to the last proposal did.
    fn unsend_one(&mut self, proposal: &Proposal, answer: Placed)
        requires { (c : Cluster) × IsAnswered c proposal.now answer self.old }
        ensures { (c : Cluster) → IsAnswered c proposal.now answer self.old → self.new ≡ c }
    {
        if let Placed::Sent(id) = answer {
            self.unsend(proposal.session, id);
        }
    }

    /// Takes back what was sent of proposals, the last first.
    fn unsend_all(&mut self, proposals: &[Proposal], placed: &[Placed])
        requires { (c : Cluster) × IsPlacedFrom c proposals.now placed.now self.old }
        ensures { (c : Cluster) → IsPlacedFrom c proposals.now placed.now self.old → self.new ≡ c }
    {
        let mut left = placed.len();
        while left > 0 {
            left -= 1;
            self.unsend_one(&proposals[left], placed[left]);
        }
    }

    /// Places proposals in order, or none of them.
    fn place_all(&mut self, proposals: &[Proposal]) -> Result<Seq<Placed>, AllocError>
        requires kept { IsKept self.old }
        requires range { list_all (is_proposable self.old) proposals.now ≡ true }
        requires room { HasRoom self.old }
        ensures placed { IfOk result (λ placed. placed ≡ placed_all self.old proposals.now) }
        ensures after { OnOk result (self.new ≡ after_proposals self.old proposals.now) }
        ensures err { OnErr result (self.new ≡ self.old) }
    {
        let mut placed = Vec::with_capacity(self.seats.allocator(), proposals.len())?;
        for proposal in proposals {
            match self.place_one(proposal) {
                Ok(answer) => placed.push_reserved(answer),
                Err(refused) => {
                    self.unsend_all(proposals, &placed);
                    return Err(refused);
                }
            }
        }
        Ok(Seq::from_vec(placed))
    }

    /// Ends a controller's pass, and places its proposals in order, or leaves all as it was.
    pub fn dispatch(
        &mut self,
        controller: ControllerId,
        proposals: &[Proposal],
    ) -> Result<Dispatched, AllocError>
        requires reached { IsReached self.old }
        requires range { list_all (is_proposable self.old) proposals.now ≡ true }
        requires room { HasRoom self.old }
        ensures answer { IfOk result (λ answer. answer ≡ dispatched_of self.old controller proposals.now) }
        ensures after { OnOk result (self.new ≡ after_dispatch self.old controller proposals.now) }
        ensures each { IfOk result (λ answer. length answer.placed ≡ length proposals.now) }
        ensures err { OnErr result (self.new ≡ self.old) }
    {
        let change = self.rest.change;
        let placed = self.place_all(proposals)?;
        raise_pass(&mut self.rest, controller);
        Ok(Dispatched { change, placed })
    }
}
