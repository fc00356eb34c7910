//! Why a step is refused. Nothing here takes memory.
ghost use Rattle.std.specs.Prelude.{◌≡◌, ℕ, ◌+◌, ◌-◌, ◌*◌, ◌^◌, ◌<◌, ◌≤◌, ◌==◌, ◌&&◌, not, length};
ghost use Rattle.std.specs.Prelude.{find};
ghost use Rattle.std.specs.List.{list_any};
ghost use Rattle.hx_model.specs.Model.{states_of};
ghost use Rattle.hx_ideal.specs.Faults.{list_fault as list_fault_of, map_fault as map_fault_of};
ghost use Rattle.hx_cluster.specs.Ends.{is_live, resource_at, model_of};
ghost use Rattle.hx_cluster.specs.Steps.{is_of, live_of, is_drained, is_down, is_flag};
ghost use Rattle.hx_cluster.specs.Steps.{is_held as is_held_of, is_error as is_error_of};
ghost use Rattle.hx_cluster.specs.Steps.{is_semi as is_semi_of, is_custom as is_custom_of, newest};
ghost use Rattle.hx_cluster.specs.Steps.{name_in_use, already_so as already_so_of, already_live};
ghost use Rattle.hx_cluster.specs.Steps.{not_live, edit_fault as edit_fault_of};
ghost use Rattle.hx_cluster.specs.Steps.{reset_fault as reset_fault_of, lead_fault, refusal_of};
ghost use Rattle.hx_cluster.specs.Numbered.{IsNumbered};

use crate::description::Resource;
use crate::happenings::{Admin, StepFault};
use crate::readers::state_on;
use crate::state::{Cluster, Message, Row};
use hx_ideal::{IdealFault, Mode, list_fault, map_fault};
use hx_ids::{ControllerId, InstanceId, Live, PartId, ResourceId, SessionId, StateId};
use hx_model::ERROR;

/// The most resources that a cluster has, dropped ones among them.
pub const MOST_RESOURCES: usize = 256;

fn already_so(is_so: bool) -> Option<StepFault>
    ensures { result ≡ already_so_of is_so }
{
    if is_so {
        Some(StepFault::AlreadySo)
    } else {
        None
    }
}

fn is_semi(mode: &Mode) -> bool
    ensures { result ≡ is_semi_of mode.now }
{
    match mode {
        Mode::Semi(_) => true,
        _ => false,
    }
}

fn is_custom(mode: &Mode) -> bool
    ensures { result ≡ is_custom_of mode.now }
{
    match mode {
        Mode::Custom(_) => true,
        _ => false,
    }
}

fn is_error(state: Option<StateId>) -> bool
    ensures { result ≡ is_error_of state }
{
    match state {
        Some(state) => state == ERROR,
        None => false,
    }
}

/// Whether a flag is that of a session's part.
pub fn is_flag_of(flag: &(SessionId, PartId), session: SessionId, part: PartId) -> bool
    ensures { result ≡ is_flag session part flag.now }
{
    flag.0 == session && flag.1 == part
}

fn has_flag(flags: &[(SessionId, PartId)], session: SessionId, part: PartId) -> bool
    ensures { result ≡ list_any (is_flag session part) flags.now }
{
    flags.iter().any(|f| is_flag_of(f, session, part))
}

impl Cluster {
    /// An instance's live session, with its last beat.
    pub fn live_at(&self, instance: InstanceId) -> Option<Live>
        ensures { result ≡ live_of self.now.live instance }
    {
        self.live.iter().copied().find(|l| l.instance == instance)
    }

    fn is_held_by_row(&self, row: &Row, resource: ResourceId) -> bool
        ensures { result
            ≡ ((row.now.part.resource.0 == resource.0) && is_live self.now.live row.now.session) }
    {
        row.part.resource == resource && self.is_live(row.session)
    }

    fn is_held_by_message(&self, message: &Message, resource: ResourceId) -> bool
        ensures { result
            ≡ ((message.now.part.resource.0 == resource.0)
            && is_live self.now.live message.now.session) }
    {
        message.part.resource == resource && self.is_live(message.session)
    }

    fn is_held_in_mail(&self, resource: ResourceId) -> bool
        ensures { result
            ≡ list_any (λ m. (m.part.resource.0 == resource.0) && is_live self.now.live m.session)
            self.now.mail }
    {
        self.mail
            .iter()
            .any(|m| self.is_held_by_message(m, resource))
    }

    fn is_held_in_rows(&self, resource: ResourceId) -> bool
        ensures { result
            ≡ list_any (λ x. (x.part.resource.0 == resource.0) && is_live self.now.live x.session)
            self.now.rows }
    {
        self.rows.iter().any(|r| self.is_held_by_row(r, resource))
    }

    fn already_live_fault(&self, instance: InstanceId) -> Option<StepFault>
        ensures { result ≡ already_live (live_of self.now.live instance) }
    {
        match self.live_at(instance) {
            Some(live) => Some(StepFault::AlreadyLive {
                session: live.session,
            }),
            None => None,
        }
    }

    fn not_live_fault(&self, instance: InstanceId) -> Option<StepFault>
        ensures { result ≡ not_live (live_of self.now.live instance) }
    {
        match self.live_at(instance) {
            Some(_) => None,
            None => Some(StepFault::NotLive),
        }
    }

    fn tick_fault(&self, n: u64) -> Option<StepFault>
        ensures { result ≡ refusal_of self.now (Admin.Tick n) }
    {
        if n > u64::MAX - self.clock {
            Some(StepFault::ClockEnd)
        } else {
            None
        }
    }

    fn drop_fault(&self, resource: ResourceId) -> Option<StepFault>
        ensures { result ≡ refusal_of self.now (Admin.Drop resource) }
    {
        if self.is_dropped(resource) {
            Some(StepFault::AlreadyDropped)
        } else {
            None
        }
    }

    fn lead_fault(&self, controller: ControllerId) -> Option<StepFault>
        ensures { result ≡ lead_fault self.now controller self.now.leader }
    {
        match self.leader {
            Some(leader) => Some(StepFault::LedBy {
                controller: leader,
                epoch: self.epoch,
            }),
            None => {
                if self.is_down(controller) {
                    Some(StepFault::ControllerDown)
                } else {
                    None
                }
            }
        }
    }

    fn list_fault(&self, part: PartId, list: &[InstanceId]) -> Option<StepFault>
        requires { IsNumbered self.now }
        ensures { result
            ≡ edit_fault_of is_semi_of part
            (list_fault_of (length self.now.instances) part.index list.now)
            (resource_at self.now.resources part.resource) }
    {
        let fault = list_fault(list, part.index, self.instances.len() as u32);
        match self.resource(part.resource) {
            Some(resource) => edit_fault(resource, is_semi(resource.ideal.mode()), part, fault),
            None => None,
        }
    }

    fn entry_fault(&self, part: PartId, map: &[(InstanceId, StateId)]) -> Option<IdealFault>
        requires { IsNumbered self.now }
        ensures { result
            ≡ map_fault_of (length self.now.instances)
            (states_of (model_of self.now.models self.now.resources part.resource))
            part.index map.now }
    {
        let instances = self.instances.len() as u32;
        match self.model_of(part.resource) {
            Some(model) => map_fault(map, part.index, instances, model.states()),
            None => map_fault(map, part.index, instances, &[]),
        }
    }

    fn map_fault(&self, part: PartId, map: &[(InstanceId, StateId)]) -> Option<StepFault>
        requires { IsNumbered self.now }
        ensures { result
            ≡ edit_fault_of is_custom_of part
            (map_fault_of (length self.now.instances)
            (states_of (model_of self.now.models self.now.resources part.resource))
            part.index map.now)
            (resource_at self.now.resources part.resource) }
    {
        let fault = self.entry_fault(part, map);
        match self.resource(part.resource) {
            Some(resource) => edit_fault(resource, is_custom(resource.ideal.mode()), part, fault),
            None => None,
        }
    }
}

/// Why a list or a map of a part can't be set: the resource is dropped, has another mode or lacks
/// the part, or the list or map has a fault of its own.
fn edit_fault(
    resource: &Resource,
    takes: bool,
    part: PartId,
    fault: Option<IdealFault>,
) -> Option<StepFault>
    ensures { result ≡ edit_fault_of (λ _. takes) part fault (Some resource.now) }
{
    let parts = resource.ideal.parts();
    if resource.dropped {
        Some(StepFault::ResourceDropped)
    } else if !takes {
        Some(StepFault::WrongMode)
    } else if parts <= part.index {
        Some(StepFault::NoPart { parts })
    } else {
        fault.map(StepFault::Ideal)
    }
}

impl Cluster {
    /// Whether a live session has a row or a message of a resource.
    fn is_held(&self, resource: ResourceId) -> bool
        ensures { result ≡ is_held_of self.now resource }
    {
        self.is_held_in_rows(resource) || self.is_held_in_mail(resource)
    }

    fn add_fault(&self, name: u32) -> Option<StepFault>
        requires { IsNumbered self.now }
        ensures { result ≡ name_in_use self.now (newest self.now name) }
    {
        if let Some(resource) = self.newest(name)
            && (!self.is_dropped(resource) || self.is_held(resource))
        {
            return Some(StepFault::NameInUse { resource });
        }
        if self.resources.len() >= MOST_RESOURCES {
            Some(StepFault::TooMany)
        } else {
            None
        }
    }

    fn reset_fault(&self, instance: InstanceId, part: PartId) -> Option<StepFault>
        ensures { result ≡ reset_fault_of self.now part (live_of self.now.live instance) }
    {
        let Some(live) = self.live_at(instance) else {
            return Some(StepFault::NotLive);
        };
        let parts = self.parts_of(part.resource);
        let state = state_on(self.rows.as_slice(), live.session, part);
        if parts <= part.index {
            Some(StepFault::NoPart { parts })
        } else if !is_error(state) {
            Some(StepFault::NotError { state })
        } else if has_flag(self.resets.as_slice(), live.session, part) {
            Some(StepFault::AlreadyAsked)
        } else {
            None
        }
    }

    /// The refusal of a step other than want of memory.
    pub fn refuses(&self, step: &Admin) -> Option<StepFault>
        requires { IsNumbered self.now }
        ensures { result ≡ refusal_of self.now step.now }
    {
        match step {
            Admin::Join { instance } => self.already_live_fault(*instance),
            Admin::End { instance } | Admin::Beat { instance } => self.not_live_fault(*instance),
            Admin::Tick { n } => self.tick_fault(*n),
            Admin::Drain { instance } => already_so(self.is_drained(*instance)),
            Admin::Undrain { instance } => already_so(!self.is_drained(*instance)),
            Admin::Add { name, .. } => self.add_fault(*name),
            Admin::Drop { resource } => self.drop_fault(*resource),
            Admin::SetList { part, list } => self.list_fault(*part, list.as_slice()),
            Admin::SetMap { part, map } => self.map_fault(*part, map.as_slice()),
            Admin::Reset { instance, part } => self.reset_fault(*instance, *part),
            Admin::Lead { controller } => self.lead_fault(*controller),
            Admin::Stop { controller } => already_so(self.is_down(*controller)),
            Admin::Start { controller } => already_so(!self.is_down(*controller)),
        }
    }
}
