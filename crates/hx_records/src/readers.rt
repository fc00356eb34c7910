//! What stands in a cluster. No reader takes memory, but the one that answers a list of its own.
ghost use Rattle.std.specs.Prelude.{◌≡◌, ◌<◌, length, option_copied, IfOk};
ghost use Rattle.hx_cluster.specs.Ends.{state_of, message_of, resource_at, shown_of, is_live};
ghost use Rattle.hx_cluster.specs.Steps.{session_of, is_drained, is_leader, newest};
ghost use Rattle.hx_cluster.specs.Steps.{has_instance, has_controller, is_in_range};
ghost use Rattle.hx_cluster.specs.Reads.{pass_of};
ghost use Rattle.hx_cluster.specs.Events.{is_proposable, is_postable};
ghost use Rattle.hx_cluster.specs.Numbered.{IsNumbered};

use crate::Records;
use hx_cluster::{Admin, Message, PostedRows, Proposal, Resource, Seen};
use hx_ids::{ControllerId, Epoch, InstanceId, PartId, PassNo, ResourceId, SessionId, StateId};
use std::alloc::{AllocError, Global};

impl Records {
    /// The live session of an instance.
    pub fn session_of(&self, instance: InstanceId) -> Option<SessionId>
        ensures { result ≡ session_of self.now instance }
    {
        *self.seats.get(instance.0 as usize)?
    }

    /// Whether a session is live.
    pub(crate) fn is_live(&self, session: SessionId) -> bool
        ensures { result ≡ is_live self.now.live session }
    {
        self.sessions.find(session).is_some()
    }

    /// The live sessions in order of last beat, with their instances.
    pub fn roster(&self, alloc: Global) -> Result<Vec<(SessionId, InstanceId)>, AllocError>
        ensures { IfOk result (λ shown. shown.items ≡ shown_of self.now.live) }
    {
        let mut next = self.sessions.first();
        let room = if next.is_some() { self.seats.len() } else { 0 };
        let mut shown = Vec::with_capacity(alloc, room)?;
        while let Some(live) = next {
            shown.push((live.session, live.instance))?;
            next = self.sessions.after(live.session);
        }
        Ok(shown)
    }

    /// Whether an instance is drained.
    pub fn drained(&self, instance: InstanceId) -> bool
        ensures { result ≡ is_drained self.now.instances instance }
    {
        self.rest.is_drained(instance)
    }

    /// The state of a session's replica, if it has one.
    pub fn row(&self, session: SessionId, part: PartId) -> Option<StateId>
        ensures { result ≡ state_of self.now.rows session part }
    {
        self.slots.state(session, part)
    }

    /// The pending message of a session's part.
    pub fn message(&self, session: SessionId, part: PartId) -> Option<&Message>
        ensures { option_copied result ≡ message_of self.now.mail session part }
    {
        self.slots.message(session, part)
    }

    /// A resource, dropped or not.
    pub fn resource(&self, resource: ResourceId) -> Option<&Resource>
        ensures { option_copied result ≡ resource_at self.now.resources resource }
    {
        self.rest.resource(resource)
    }

    /// The resources by number, dropped or not.
    pub fn resources(&self) -> &[Resource]
        ensures { result.now ≡ self.now.resources }
    {
        self.rest.resources.as_slice()
    }

    /// The newest resource of a name, by the name's place among the resource names.
    pub fn newest(&self, name: u32) -> Option<ResourceId>
        requires { IsNumbered self.now }
        ensures { result ≡ newest self.now name }
    {
        self.rest.newest(name)
    }

    /// Who leads.
    pub fn leader(&self) -> Option<ControllerId>
        ensures { result ≡ self.now.leader }
    {
        self.rest.leader
    }

    /// Whether a controller leads.
    pub fn is_leader(&self, controller: ControllerId) -> bool
        ensures { result ≡ is_leader controller self.now.leader }
    {
        self.rest.is_leader(controller)
    }

    /// The number of the script's line that was taken last.
    pub fn line(&self) -> Option<u32>
        ensures { result ≡ self.now.line }
    {
        self.rest.line
    }

    /// The number that the next message gets.
    pub fn next_message(&self) -> u64
        ensures { result ≡ self.now.next_msg }
    {
        self.rest.next_msg
    }

    /// The epoch that stands.
    pub fn epoch(&self) -> Epoch
        ensures { result ≡ self.now.epoch }
    {
        self.rest.epoch
    }

    /// The number of a controller's pass.
    pub fn pass_of(&self, controller: ControllerId) -> PassNo
        ensures { result ≡ pass_of self.now controller }
    {
        self.rest.pass_of(controller)
    }

    /// The rows of the last post.
    pub fn posted(&self) -> &[Seen]
        ensures { result.now ≡ self.now.posted }
    {
        self.rest.posted.as_slice()
    }

    /// The rows of the last post, as a history keeps them.
    pub fn posted_rows(&self) -> PostedRows
        ensures { result ≡ self.now.posted }
    {
        PostedRows::of(&self.rest.posted)
    }

    /// Whether there is an instance.
    pub fn has_instance(&self, instance: InstanceId) -> bool
        ensures { result ≡ has_instance self.now instance }
    {
        self.rest.has_instance(instance)
    }

    /// Whether there is a controller.
    pub fn has_controller(&self, controller: ControllerId) -> bool
        ensures { result ≡ has_controller self.now controller }
    {
        self.rest.has_controller(controller)
    }

    /// Whether the ids of a step are in range, and an added resource has only empty lists or maps.
    pub fn is_in_range(&self, step: &Admin) -> bool
        ensures { result ≡ is_in_range self.now step.now }
    {
        self.rest.is_in_range(step)
    }

    /// Whether a proposal's part exists and its states have names.
    pub fn is_proposable(&self, proposal: &Proposal) -> bool
        ensures { result ≡ is_proposable self.now proposal.now }
    {
        self.rest.is_proposable(proposal)
    }

    /// Whether a posted row's instance and part exist and its state has a name.
    pub fn is_postable(&self, row: &Seen) -> bool
        ensures { result ≡ is_postable self.now row.now }
    {
        self.rest.is_postable(row)
    }
}
