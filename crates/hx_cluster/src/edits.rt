//! Another list or map for a part of a resource.
ghost use Rattle.std.specs.Prelude.{◌≡◌, ℕ, ◌+◌, ◌^◌, ◌<◌, None, Some, length, OnOk, OnErr};
ghost use Rattle.hx_ideal.specs.IdealState.{put_list, put_map};
ghost use Rattle.hx_ideal.specs.Faults.{list_fault, map_fault};
ghost use Rattle.hx_model.specs.Model.{states_of};
ghost use Rattle.hx_cluster.specs.Ends.{model_of};
ghost use Rattle.hx_cluster.specs.Room.{HasRoom};
ghost use Rattle.hx_cluster.specs.Steps.{edit_fault, is_semi, is_custom, with_mode, refusal_of};
ghost use Rattle.hx_cluster.specs.Steps.{after};

use crate::description::Resource;
use crate::happenings::Admin;
use crate::state::Cluster;
use hx_ids::{InstanceId, PartId, ResourceId, StateId};
use hx_lists::Seq;
use hx_model::Model;
use std::alloc::AllocError;

/// The states of a resource's model. A resource that isn't there has none.
#[tactic(auto, using(crate::proofs::Shown::model_in_or))]
pub(crate) fn states_in<'a>(
    models: &'a [Model],
    resources: &[Resource],
    resource: ResourceId,
) -> &'a [StateId]
    ensures { result.now ≡ states_of (model_of models.now resources.now resource) }
{
    match resources.get(resource.0 as usize) {
        Some(resource) => match models.get(resource.model.0 as usize) {
            Some(model) => model.states(),
            None => &[],
        },
        None => &[],
    }
}

impl Resource {
    #[tactic(auto, using(crate::proofs::Allowed::allowed, crate::proofs::Allowed::semi_lists))]
    fn set_list(&mut self, part: PartId, list: Vec<InstanceId>, instances: u32)
        requires { edit_fault is_semi part
            (list_fault instances part.index list.items) (Some self.old)
            ≡ None }
        ensures { self.new
            ≡ with_mode self.old (put_list self.old.ideal.mode part.index list.items) }
    {
        self.ideal.set_list(part.index, list, instances).unwrap();
    }

    #[tactic(auto, using(crate::proofs::Allowed::allowed, crate::proofs::Allowed::custom_maps))]
    fn set_map(
        &mut self,
        part: PartId,
        map: Vec<(InstanceId, StateId)>,
        instances: u32,
        states: &[StateId],
    )
        requires { edit_fault is_custom part
            (map_fault instances states.now part.index map.items) (Some self.old)
            ≡ None }
        ensures { self.new ≡ with_mode self.old (put_map self.old.ideal.mode part.index map.items) }
    {
        self.ideal
            .set_map(part.index, map, instances, states)
            .unwrap();
    }
}

impl Cluster {
    /// Replaces the preference list of a part.
    pub(crate) fn set_list(
        &mut self,
        part: PartId,
        list: &Seq<InstanceId>,
    ) -> Result<(), AllocError>
        requires may { refusal_of self.old (Admin.SetList part list.now) ≡ None }
        requires room { HasRoom self.old }
        ensures ok { OnOk result (self.new ≡ after self.old (Admin.SetList part list.now)) }
        ensures err { OnErr result (self.new ≡ self.old) }
    {
        let list = list.clone()?.into_vec();
        let instances = self.instances.len() as u32;
        if let Some(resource) = self.resources.get_mut(part.resource.0 as usize) {
            resource.set_list(part, list, instances);
            self.change += 1;
        }
        Ok(())
    }

    /// Replaces the map of a part.
    pub(crate) fn set_map(
        &mut self,
        part: PartId,
        map: &Seq<(InstanceId, StateId)>,
    ) -> Result<(), AllocError>
        requires may { refusal_of self.old (Admin.SetMap part map.now) ≡ None }
        requires room { HasRoom self.old }
        ensures ok { OnOk result (self.new ≡ after self.old (Admin.SetMap part map.now)) }
        ensures err { OnErr result (self.new ≡ self.old) }
    {
        let map = map.clone()?.into_vec();
        let instances = self.instances.len() as u32;
        let models = self.models.as_slice();
        let states = states_in(models, self.resources.as_slice(), part.resource);
        if let Some(resource) = self.resources.get_mut(part.resource.0 as usize) {
            resource.set_map(part, map, instances, states);
            self.change += 1;
        }
        Ok(())
    }
}
