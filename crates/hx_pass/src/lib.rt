//! The plan of a pass: what a controller proposes, given what it was shown; and plans of views one
//! after another, where what was found of the last view is kept.
#![tactic(auto)]

mod choices;
mod drafts;
mod kept;
mod known;
pub mod laws;
mod narrow;
mod planner;
mod plans;
mod posts;

ghost use Rattle.std.specs.Prelude.{◌≡◌, true, IfOk};
ghost use Rattle.hx_gen.specs.Modelled.{has_models};
ghost use Rattle.hx_pass.specs.Plans.{all_candidates, plan, selection_of};
ghost use Rattle.hx_pass.specs.Waiting.{HasWaiting};
ghost use Rattle.hx_pass.specs.Drafts.{draft as draft_of};

pub use choices::{Choice, choose_on};
pub use drafts::Draft;
use hx_best::Index;
use hx_cluster::{Candidate, Plan, Spec, View};
use hx_hops::Hops;
use hx_model::Model;
use hx_throttle::sent_on;
pub use planner::Planner;
use plans::{candidates_on, plan_on};
pub use posts::{instance_or_first, posted};
use std::alloc::{AllocError, Global};
use std::snapshot::Snapshot;

/// The plan of what a view shows: each stage once over all resources, in order of number, throttled
/// together. `hops` are those of the description's models (`hx_gen::hops_of`), and each resource of
/// the view has one of these models, as it has in a well-formed view
/// (`hx_gen::laws::well_formed_views_have_models`). More than 4,294,967,295 resources or live
/// sessions are want of memory.
pub fn plan(alloc: Global, spec: &Spec, hops: &[Hops], view: &View) -> Result<Plan, AllocError>
    requires hops { hops.now ≡ spec.now.models }
    requires models { has_models spec.now.models view.now ≡ true }
    ensures { IfOk result (λ made. made ≡ plan spec.now.models spec.now.rules view.now) }
{
    let index = Index::of(alloc, view)?;
    plan_on(
        alloc,
        spec.models.as_slice(),
        spec.rules.as_slice(),
        hops,
        &index,
    )
}

/// The candidates of a view for which the bounds leave room, in order, and some for which maybe they
/// don't. It costs no walk over the shown sessions for a part that is found to stand still, and none
/// for a candidate without room.
pub fn choose(
    alloc: Global,
    models: &[Model],
    hops: &[Hops],
    view: &View,
) -> Result<Choice, AllocError>
    requires hops { hops.now ≡ models.now }
    requires models { has_models models.now view.now ≡ true }
    ensures accepted { IfOk result (λ choice.
        choice.accepted ≡ (selection_of models.now view.now).accepted) }
    ensures waiting { IfOk result (λ choice.
        HasWaiting (all_candidates models.now view.now) choice.accepted choice.waiting.items) }
{
    let index = Index::of(alloc, view)?;
    let candidates = candidates_on(alloc, models, hops, &index)?;
    choose_on(alloc, models, index.shown(), candidates)
}

/// What a plan sends, and no report of it, which can be made later.
pub fn draft(alloc: Global, spec: &Spec, hops: &[Hops], view: &View) -> Result<Draft, AllocError>
    requires hops { hops.now ≡ spec.now.models }
    requires models { has_models spec.now.models view.now ≡ true }
    ensures { IfOk result (λ draft. draft ≡ draft_of spec.now.models spec.now.rules view.now) }
{
    let choice = choose(alloc, spec.models.as_slice(), hops, view)?;
    draft_of_accepted(alloc, spec, view, choice.accepted.as_slice())
}

/// The draft of a view of which it is known which candidates are accepted.
pub fn draft_of_accepted(
    alloc: Global,
    spec: &Spec,
    view: &View,
    accepted: &[Candidate],
) -> Result<Draft, AllocError>
    requires { accepted.now ≡ (selection_of spec.now.models view.now).accepted }
    ensures { IfOk result (λ draft. draft ≡ draft_of spec.now.models spec.now.rules view.now) }
{
    Ok(Draft {
        models: Snapshot::of(&spec.models),
        rules: Snapshot::of(&spec.rules),
        sent: sent_on(alloc, spec.rules.as_slice(), view, accepted)?,
    })
}
