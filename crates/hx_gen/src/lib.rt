//! The transitions that bring replicas nearer to their goals, in the order in which a pass makes
//! them.
#![tactic(auto)]

pub mod laws;
mod order;
mod steps;

ghost use Rattle.std.specs.Prelude.{◌≡◌, true, IfOk};
ghost use Rattle.std.specs.List.{list_all};
ghost use Rattle.hx_parts.specs.Parts.{IsByPart};
ghost use Rattle.hx_gen.specs.Stage.{has_model};
ghost use Rattle.hx_gen.specs.Candidates.{candidates as candidates_of};

use hx_cluster::{Candidate, Target, View};
use hx_hops::Hops;
use hx_ids::ResourceId;
use hx_model::Model;
use order::in_order;
use std::alloc::{AllocError, Global};
use steps::Stage;

/// A candidate, with the rank of its transition.
#[derive(Clone, Copy, PartialEq, Eq)]
pub struct Ranked {
    pub rank: u32,
    pub candidate: Candidate,
}

/// The hops of each model.
pub fn hops_of(alloc: Global, models: &[Model]) -> Result<Vec<Hops>, AllocError>
    ensures { IfOk result (λ hops. hops.items ≡ models.now) }
{
    let mut hops = Vec::with_capacity(alloc, models.len())?;
    for model in models {
        hops.push(Hops::build(alloc, model)?)?;
    }
    Ok(hops)
}

/// Whether each target is of a resource with one of the models. It takes no memory.
pub fn have_models(models: &[Model], view: &View, targets: &[Target]) -> bool
    ensures { result
        ≡ list_all (λ t. has_model models.now view.now.ideals.resources t.part.resource)
        targets.now }
{
    targets
        .iter()
        .all(|t| is_modelled(models, view, t.part.resource))
}

fn is_modelled(models: &[Model], view: &View, resource: ResourceId) -> bool
    ensures { result ≡ has_model models.now view.now.ideals.resources resource }
{
    match view.ideals.resources.get(resource.0 as usize) {
        Some(resource) => (resource.model.0 as usize) < models.len(),
        None => false,
    }
}

/// The next transition of each replica that isn't at its goal and has no message, in the order of
/// resource, partition, rank, place and instance. `hops` are those of the models.
pub fn candidates(
    alloc: Global,
    models: &[Model],
    hops: &[Hops],
    view: &View,
    targets: &[Target],
) -> Result<Vec<Candidate>, AllocError>
    requires hops { hops.now ≡ models.now }
    requires models { list_all
        (λ t. has_model models.now view.now.ideals.resources t.part.resource) targets.now
        ≡ true }
    ensures found { IfOk result (λ found.
        found.items ≡ candidates_of models.now view.now targets.now) }
    ensures by_part { IfOk result (λ found. IsByPart (λ c. c.part) found.items) }
{
    let stage = Stage::of(alloc, models, hops, view)?;
    let ranked = stage.ranked(alloc, targets)?;
    let found = in_order(alloc, ranked)?;
    Ok(found)
}
