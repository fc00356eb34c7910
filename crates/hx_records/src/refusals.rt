//! Why a step is refused. Nothing here takes memory.
ghost use Rattle.std.specs.Prelude.{◌≡◌};
ghost use Rattle.std.specs.List.{list_any};
ghost use Rattle.hx_cluster.specs.Steps.{is_flag, live_of, already_live, not_live, newest};
ghost use Rattle.hx_cluster.specs.Steps.{is_held, name_in_use, reset_fault, refusal_of};
ghost use Rattle.hx_cluster.specs.Numbered.{IsNumbered};
ghost use Rattle.hx_safe.proofs.Whole.{IsWhole};
ghost use Rattle.hx_records.specs.Places.{seat_holds};
ghost use Rattle.hx_records.specs.Reached.{IsReached};

use crate::Records;
use hx_cluster::{Admin, MOST_RESOURCES, StepFault, is_flag_of};
use hx_ids::{InstanceId, PartId, ResourceId, SessionId};
use hx_model::ERROR;

fn has_flag(flags: &[(SessionId, PartId)], session: SessionId, part: PartId) -> bool
    ensures { result ≡ list_any (is_flag session part) flags.now }
{
    flags.iter().any(|f| is_flag_of(f, session, part))
}

impl Records {
    fn already_live(&self, instance: InstanceId) -> Option<StepFault>
        ensures { result ≡ already_live (live_of self.now.live instance) }
    {
        self.session_of(instance)
            .map(|session| StepFault::AlreadyLive { session })
    }

    fn not_live(&self, instance: InstanceId) -> Option<StepFault>
        ensures { result ≡ not_live (live_of self.now.live instance) }
    {
        match self.session_of(instance) {
            Some(_) => None,
            None => Some(StepFault::NotLive),
        }
    }

    /// Whether the session at a place has a row or a message of a resource.
    fn seat_holds(&self, seat: Option<SessionId>, resource: ResourceId) -> bool
        ensures { result ≡ seat_holds self.now resource seat }
    {
        match seat {
            Some(session) => self.slots.holds(session, resource),
            None => false,
        }
    }

    /// Whether a live session has a row or a message of a resource.
    fn is_held(&self, resource: ResourceId) -> bool
        requires { IsWhole self.now }
        ensures { result ≡ is_held self.now resource }
    {
        let seats = self.seats.as_slice();
        seats.iter().any(|seat| self.seat_holds(*seat, resource))
    }

    fn add_fault(&self, name: u32) -> Option<StepFault>
        requires numbered { IsNumbered self.now }
        requires whole { IsWhole self.now }
        ensures { result ≡ name_in_use self.now (newest self.now name) }
    {
        if let Some(resource) = self.rest.newest(name)
            && (!self.rest.is_dropped(resource) || self.is_held(resource))
        {
            return Some(StepFault::NameInUse { resource });
        }
        if self.rest.resources.len() >= MOST_RESOURCES {
            Some(StepFault::TooMany)
        } else {
            None
        }
    }

    fn reset_fault(&self, instance: InstanceId, part: PartId) -> Option<StepFault>
        ensures { result ≡ reset_fault self.now part (live_of self.now.live instance) }
    {
        let Some(session) = self.session_of(instance) else {
            return Some(StepFault::NotLive);
        };
        let parts = self.rest.parts_of(part.resource);
        let state = self.slots.state(session, part);
        if parts <= part.index {
            Some(StepFault::NoPart { parts })
        } else if state != Some(ERROR) {
            Some(StepFault::NotError { state })
        } else if has_flag(self.rest.resets.as_slice(), session, part) {
            Some(StepFault::AlreadyAsked)
        } else {
            None
        }
    }

    /// Why a step is refused. It takes no memory.
    pub fn refuses(&self, step: &Admin) -> Option<StepFault>
        requires numbered { IsNumbered self.now }
        requires reached { IsReached self.now }
        ensures { result ≡ refusal_of self.now step.now }
    {
        match step {
            Admin::Join { instance } => self.already_live(*instance),
            Admin::End { instance } | Admin::Beat { instance } => self.not_live(*instance),
            Admin::Add { name, .. } => self.add_fault(*name),
            Admin::Reset { instance, part } => self.reset_fault(*instance, *part),
            _ => self.rest.refuses(step),
        }
    }
}
