//! What stands in a cluster. No reader takes memory.
ghost use Rattle.std.specs.Prelude.{◌≡◌, ℕ, ◌^◌, ◌<◌, ◌==◌, length, find, option_copied};
ghost use Rattle.std.specs.List.{list_any};
ghost use Rattle.hx_cluster.specs.Ends.{is_row, is_message, row_of, message_of, state_of};
ghost use Rattle.hx_cluster.specs.Ends.{is_live as is_live_of, is_session, resource_at};
ghost use Rattle.hx_cluster.specs.Steps.{session_of, is_drained, is_down, is_leader, is_dropped};
ghost use Rattle.hx_cluster.specs.Steps.{newest};
ghost use Rattle.hx_cluster.specs.Reads.{pass_of};
ghost use Rattle.hx_cluster.specs.Numbered.{IsNumbered};
ghost use Rattle.hx_cluster.specs.Events.{is_pass, is_epoch};
ghost use Rattle.hx_cluster.specs.Messages.{has_id, pending_of, state_after};

use crate::description::Resource;
use crate::happenings::Outcome;
use crate::state::{Cluster, Message, Row};
use hx_ids::{
    ControllerId, Epoch, InstanceId, Live, MsgId, PartId, PassNo, ResourceId, SessionId, StateId,
};
use hx_model::ERROR;

impl Row {
    /// Whether it is the row of a session's part.
    pub fn is_of(&self, session: SessionId, part: PartId) -> bool
        ensures { result ≡ is_row session part self.now }
    {
        self.session == session && self.part == part
    }
}

impl Message {
    /// Whether it is of a session's part.
    pub fn is_of(&self, session: SessionId, part: PartId) -> bool
        ensures { result ≡ is_message session part self.now }
    {
        self.session == session && self.part == part
    }

    /// Where an outcome puts its replica.
    pub fn state_after(&self, outcome: Outcome) -> StateId
        ensures { result ≡ state_after self.now outcome }
    {
        match outcome {
            Outcome::Ok => self.to,
            Outcome::Failed => ERROR,
        }
    }
}

/// The state of a session's replica, if it has one.
pub fn state_on(rows: &[Row], session: SessionId, part: PartId) -> Option<StateId>
    ensures { result ≡ state_of rows.now session part }
{
    rows.iter()
        .find(|r| r.is_of(session, part))
        .map(|r| r.state)
}

/// The pending message of a session's part.
pub fn message_on(mail: &[Message], session: SessionId, part: PartId) -> Option<Message>
    ensures { result ≡ message_of mail.now session part }
{
    mail.iter().copied().find(|m| m.is_of(session, part))
}

impl Cluster {
    /// The live session of an instance.
    pub fn session_of(&self, instance: InstanceId) -> Option<SessionId>
        ensures { result ≡ session_of self.now instance }
    {
        self.live
            .iter()
            .find(|l| l.instance == instance)
            .map(|l| l.session)
    }

    /// Whether a session is live.
    pub fn is_live(&self, session: SessionId) -> bool
        ensures { result ≡ is_live_of self.now.live session }
    {
        self.live.iter().any(|l| l.session == session)
    }

    /// Whether an instance is drained.
    #[tactic(auto, using(crate::proofs::Shown::drained_at))]
    pub fn is_drained(&self, instance: InstanceId) -> bool
        ensures { result ≡ is_drained self.now.instances instance }
    {
        let place = instance.0 as usize;
        self.instances.get(place).copied().unwrap_or(false)
    }

    /// Whether a controller is down.
    pub fn is_down(&self, controller: ControllerId) -> bool
        ensures { result ≡ is_down self.now controller }
    {
        match self.controllers.get(controller.0 as usize) {
            Some(entry) => entry.0,
            None => false,
        }
    }

    /// Whether a controller leads.
    pub fn is_leader(&self, controller: ControllerId) -> bool
        ensures { result ≡ is_leader controller self.now.leader }
    {
        match self.leader {
            Some(leader) => leader == controller,
            None => false,
        }
    }

    /// The number of a controller's pass.
    pub fn pass_of(&self, controller: ControllerId) -> PassNo
        ensures { result ≡ pass_of self.now controller }
    {
        match self.controllers.get(controller.0 as usize) {
            Some(entry) => entry.1,
            None => PassNo(0),
        }
    }

    /// A resource, dropped or not.
    pub fn resource(&self, resource: ResourceId) -> Option<&Resource>
        ensures { option_copied result ≡ resource_at self.now.resources resource }
    {
        self.resources.get(resource.0 as usize)
    }

    /// Whether a resource is dropped.
    pub fn is_dropped(&self, resource: ResourceId) -> bool
        ensures { result ≡ is_dropped self.now.resources resource }
    {
        match self.resource(resource) {
            Some(resource) => resource.dropped,
            None => false,
        }
    }

    /// The newest resource of a name, by the name's place among the resource names.
    pub fn newest(&self, name: u32) -> Option<ResourceId>
        requires { IsNumbered self.now }
        ensures { result ≡ newest self.now name }
    {
        let mut found = None;
        for (place, resource) in self.resources.as_slice().iter().enumerate() {
            if resource.name == name {
                found = Some(ResourceId(place as u32));
            }
        }
        found
    }
}
