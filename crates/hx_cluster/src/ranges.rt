//! The conditions of steps and calls, as tests: ids in range, and room. None takes memory.
ghost use Rattle.std.specs.Prelude.{◌≡◌, ℕ, ◌+◌, ◌^◌, ◌<◌, ◌≤◌, ◌↔◌, ◌==◌, ◌&&◌, IsTrue, not};
ghost use Rattle.std.specs.Prelude.{length, nat_lt, nat_le};
ghost use Rattle.std.specs.List.{list_all};
ghost use Rattle.hx_cluster.specs.Steps.{has_instance, has_resource, has_controller};
ghost use Rattle.hx_cluster.specs.Steps.{is_empty_list as is_empty_list_of};
ghost use Rattle.hx_cluster.specs.Steps.{is_bare_mode as is_bare_mode_of, is_bare as is_bare_of};
ghost use Rattle.hx_cluster.specs.Steps.{is_in_range};
ghost use Rattle.hx_cluster.specs.Events.{has_part, has_state_name, is_proposable, is_postable};
ghost use Rattle.hx_cluster.specs.Numbered.{IsNumbered};
ghost use Rattle.hx_cluster.specs.Room.{half, HasRoom};

use crate::happenings::{Admin, Proposal, Seen};
use crate::state::Cluster;
use hx_ideal::{Ideal, Mode};
use hx_ids::{ControllerId, InstanceId, ModelId, PartId, ResourceId, StateId};
use hx_lists::Seq;

/// Half of what 64 bits count. No list in memory has so many items.
const HALFWAY: u64 = 1 << 63;

impl Cluster {
    /// Whether the numbers of instances and resources fit their ids.
    fn is_numbered(&self) -> bool
        ensures { IsTrue result ↔ IsNumbered self.now }
    {
        self.instances.len() <= u32::MAX as usize && self.resources.len() <= u32::MAX as usize
    }

    fn passes_have_room(&self) -> bool
        ensures { result ≡ list_all (λ d. nat_lt d.1.0 half) self.now.controllers }
    {
        self.controllers.iter().all(|c| c.1.0 < HALFWAY)
    }

    /// Whether no number comes near the end of its type.
    pub fn has_room(&self) -> bool
        ensures { IsTrue result ↔ HasRoom self.now }
    {
        self.is_numbered()
            && self.next_session < HALFWAY
            && self.next_msg < HALFWAY
            && self.change < HALFWAY
            && self.epoch.0 < HALFWAY
            && self.passes_have_room()
    }

    /// Whether there is an instance.
    pub fn has_instance(&self, instance: InstanceId) -> bool
        ensures { result ≡ has_instance self.now instance }
    {
        (instance.0 as usize) < self.instances.len()
    }

    /// Whether there is a resource, dropped or not.
    pub fn has_resource(&self, resource: ResourceId) -> bool
        ensures { result ≡ has_resource self.now resource }
    {
        (resource.0 as usize) < self.resources.len()
    }

    /// Whether there is a controller.
    pub fn has_controller(&self, controller: ControllerId) -> bool
        ensures { result ≡ has_controller self.now controller }
    {
        (controller.0 as usize) < self.controllers.len()
    }

    /// Whether there is a part.
    pub fn has_part(&self, part: PartId) -> bool
        ensures { result ≡ has_part self.now part }
    {
        part.index < self.parts_of(part.resource)
    }

    /// Whether a state has a name.
    pub fn has_state_name(&self, state: StateId) -> bool
        ensures { result ≡ has_state_name self.now state }
    {
        u32::from(state.0) < self.states
    }

    fn is_addable(&self, name: u32, model: ModelId, ideal: &Ideal) -> bool
        ensures { result
            ≡ (nat_lt name self.now.resource_names
            && nat_lt model.0 (length self.now.models)
            && is_bare_of ideal.now) }
    {
        name < self.resource_names && (model.0 as usize) < self.models.len() && is_bare(ideal)
    }

    /// Whether the ids of a step are in range, and an added resource has only empty lists or maps.
    pub fn is_in_range(&self, step: &Admin) -> bool
        ensures { result ≡ is_in_range self.now step.now }
    {
        match step {
            Admin::Join { instance }
            | Admin::End { instance }
            | Admin::Beat { instance }
            | Admin::Drain { instance }
            | Admin::Undrain { instance } => self.has_instance(*instance),
            Admin::Tick { .. } => true,
            Admin::Add { name, model, ideal } => self.is_addable(*name, *model, ideal),
            Admin::Drop { resource } => self.has_resource(*resource),
            Admin::SetList { part, .. } | Admin::SetMap { part, .. } => {
                self.has_resource(part.resource)
            }
            Admin::Reset { instance, part } => {
                self.has_instance(*instance) && self.has_resource(part.resource)
            }
            Admin::Lead { controller } | Admin::Stop { controller } | Admin::Start { controller } =>
                self.has_controller(*controller),
        }
    }

    /// Whether a proposal's part exists and its states have names.
    pub fn is_proposable(&self, proposal: &Proposal) -> bool
        ensures { result ≡ is_proposable self.now proposal.now }
    {
        self.has_part(proposal.part)
            && self.has_state_name(proposal.from)
            && self.has_state_name(proposal.to)
    }

    /// Whether a posted row's instance and part exist and its state has a name.
    pub fn is_postable(&self, row: &Seen) -> bool
        ensures { result ≡ is_postable self.now row.now }
    {
        self.has_instance(row.instance) && self.has_part(row.part) && self.has_state_name(row.state)
    }
}

#[tactic(auto, using(crate::proofs::Bare::empty_is_zero))]
fn is_empty_list<T: Drop>(list: &Seq<T>) -> bool
    ensures { result ≡ is_empty_list_of list.now }
{
    list.len() == 0
}

fn are_empty<T: Drop>(lists: &[Seq<T>]) -> bool
    ensures { result ≡ list_all is_empty_list_of lists.now }
{
    lists.iter().all(|l| is_empty_list(l))
}

fn is_bare_mode(parts: u32, mode: &Mode) -> bool
    ensures { result ≡ is_bare_mode_of parts mode.now }
{
    match mode {
        Mode::Full => true,
        Mode::Semi(lists) => { lists.len() == parts as usize && are_empty(lists.as_slice()) }
        Mode::Custom(maps) => { maps.len() == parts as usize && are_empty(maps.as_slice()) }
    }
}

fn is_bare(ideal: &Ideal) -> bool
    ensures { result ≡ is_bare_of ideal.now }
{
    let replicas = ideal.replicas();
    let parts = ideal.parts();
    0 < replicas
        && replicas <= 64
        && 0 < parts
        && parts <= 1024
        && is_bare_mode(parts, ideal.mode())
}
