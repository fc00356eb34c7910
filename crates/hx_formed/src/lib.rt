//! Whether a view is well formed, so that a plan can be made of it.
#![tactic(auto)]

ghost use Rattle.std.specs.Prelude.{◌≡◌, ℕ, ◌&&◌, true, None, nat_lt, IfOk};
ghost use Rattle.std.specs.List.{list_all};
ghost use Rattle.hx_model.specs.Model.{has_state};
ghost use Rattle.hx_cluster.specs.Ends.{model_at, parts_of};
ghost use Rattle.hx_cluster.specs.Views.{is_good_part, is_good_state, is_good_mode};
ghost use Rattle.hx_cluster.specs.Views.{is_good_resource, is_well_formed};
ghost use Rattle.hx_formed.specs.Wanted.{are_good_ideals};

mod formed;
mod mail;
mod places;
mod reads;
mod rows;
mod sessions;

pub use formed::Formed;
use hx_cluster::{Ideals, Resource, View};
use hx_ideal::Mode;
use hx_ids::{InstanceId, ModelId, PartId, ResourceId, SessionId, StateId};
use hx_lists::Seq;
use hx_model::{ERROR, Model};
use mail::has_good_mail;
use rows::has_good_rows;
use sessions::{are_good_sessions, is_in_range, is_shown};
use std::alloc::{AllocError, Global};

fn parts_of(resources: &[Resource], resource: ResourceId) -> u32
    ensures { result ≡ parts_of resources.now resource }
{
    match resources.get(resource.0 as usize) {
        Some(resource) => resource.ideal.parts(),
        None => 0,
    }
}

fn has_state(models: &[Model], model: ModelId, state: StateId) -> bool
    ensures { result ≡ has_state (model_at models.now model) state }
{
    match models.get(model.0 as usize) {
        Some(model) => model.has_state(state),
        None => false,
    }
}

pub(crate) fn is_good_part(view: &View, session: SessionId, part: PartId) -> bool
    ensures { result ≡ is_good_part view.now session part }
{
    is_shown(view.live.as_slice(), session)
        && part.index < parts_of(view.ideals.resources.as_slice(), part.resource)
}

pub(crate) fn is_good_state(models: &[Model], view: &View, part: PartId, state: StateId) -> bool
    ensures { result ≡ is_good_state models.now view.now part state }
{
    if state == ERROR {
        return true;
    }
    match view.ideals.resources.get(part.resource.0 as usize) {
        Some(resource) => has_state(models, resource.model, state),
        None => false,
    }
}

fn is_good_list(instances: usize, list: &Seq<InstanceId>) -> bool
    ensures { result ≡ list_all (λ i. nat_lt i.0 instances) list.now }
{
    list.iter().all(|i| is_in_range(instances, *i))
}

fn is_good_entry(
    instances: usize,
    models: &[Model],
    model: ModelId,
    entry: (InstanceId, StateId),
) -> bool
    ensures { result
        ≡ (nat_lt entry.0.0 instances && has_state (model_at models.now model) entry.1) }
{
    is_in_range(instances, entry.0) && has_state(models, model, entry.1)
}

fn is_good_map(
    instances: usize,
    models: &[Model],
    model: ModelId,
    map: &Seq<(InstanceId, StateId)>,
) -> bool
    ensures { result
        ≡ list_all (λ e. nat_lt e.0.0 instances && has_state (model_at models.now model) e.1)
        map.now }
{
    map.iter()
        .all(|e| is_good_entry(instances, models, model, *e))
}

fn are_good_lists(instances: usize, lists: &Seq<Seq<InstanceId>>) -> bool
    ensures { result ≡ list_all (list_all (λ i. nat_lt i.0 instances)) lists.now }
{
    lists.iter().all(|list| is_good_list(instances, list))
}

fn are_good_maps(
    instances: usize,
    models: &[Model],
    model: ModelId,
    maps: &Seq<Seq<(InstanceId, StateId)>>,
) -> bool
    ensures { result
        ≡ list_all
        (list_all
        (λ e. nat_lt e.0.0 instances && has_state (model_at models.now model) e.1))
        maps.now }
{
    maps.iter()
        .all(|map| is_good_map(instances, models, model, map))
}

fn is_good_mode(instances: usize, models: &[Model], model: ModelId, mode: &Mode) -> bool
    ensures { result ≡ is_good_mode instances (model_at models.now model) mode.now }
{
    match mode {
        Mode::Full => true,
        Mode::Semi(lists) => are_good_lists(instances, lists),
        Mode::Custom(maps) => are_good_maps(instances, models, model, maps),
    }
}

fn is_good_resource(models: &[Model], instances: usize, resource: &Resource) -> bool
    ensures { result ≡ is_good_resource models.now instances resource.now }
{
    (resource.model.0 as usize) < models.len()
        && is_good_mode(instances, models, resource.model, resource.ideal.mode())
}

fn are_good_resources(models: &[Model], instances: usize, resources: &[Resource]) -> bool
    ensures { result ≡ list_all (is_good_resource models.now instances) resources.now }
{
    let mut resources = resources.iter();
    resources.all(|r| is_good_resource(models, instances, r))
}

fn are_good_ideals(models: &[Model], instances: usize, ideals: &Ideals) -> bool
    ensures { result ≡ are_good_ideals models.now instances ideals.now }
{
    let resources = ideals.resources.as_slice();
    resources.len() <= 256
        && ideals.drained.len() == instances
        && are_good_resources(models, instances, resources)
}

/// Whether a view is well formed, where what it shows to be wanted is good: it isn't gone over.
pub fn is_well_formed_beside(
    alloc: Global,
    models: &[Model],
    instances: usize,
    view: &View,
) -> Result<bool, AllocError>
    requires ideals { are_good_ideals models.now instances view.now.ideals ≡ true }
    ensures { IfOk result (λ is. is ≡ is_well_formed models.now instances view.now) }
{
    if !are_good_sessions(instances, view.live.as_slice()) {
        return Ok(false);
    }
    if !has_good_mail(alloc, models, view)? {
        return Ok(false);
    }
    has_good_rows(alloc, models, view)
}

/// Whether a view is well formed, with the models and the number of instances of a description.
pub fn is_well_formed(
    alloc: Global,
    models: &[Model],
    instances: usize,
    view: &View,
) -> Result<bool, AllocError>
    ensures { IfOk result (λ is. is ≡ is_well_formed models.now instances view.now) }
{
    if !are_good_ideals(models, instances, &view.ideals) {
        return Ok(false);
    }
    is_well_formed_beside(alloc, models, instances, view)
}
