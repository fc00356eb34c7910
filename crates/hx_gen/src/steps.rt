//! The next transition of each target.
ghost use Rattle.std.specs.Prelude.{◌≡◌, ◌<◌, ◌==◌, ◌&&◌, ◌||◌, true, length, None};
ghost use Rattle.std.specs.Prelude.{slice_index_or, unwrap_or, option_map, IfOk};
ghost use Rattle.std.specs.Option.{is_some};
ghost use Rattle.std.specs.List.{list_all, list_any, filter_map};
ghost use Rattle.hx_model.specs.Faults.{fault_of};
ghost use Rattle.hx_model.specs.Model.{has_state as has_state_of};
ghost use Rattle.hx_cluster.specs.Ends.{model_of, no_model, message_of};
ghost use Rattle.hx_hops.specs.Hops.{hop, is_from, is_goal};
ghost use Rattle.hx_gen.specs.Candidates.{is_at_goal as is_at_goal_of, hop_of, candidate_of};
ghost use Rattle.hx_gen.specs.Stage.{has_model, ranked_as, ranked_by};

use crate::Ranked;
use hx_cluster::{Candidate, Message, Target, View, message_on};
use hx_hops::Hops;
use hx_ids::{ResourceId, StateId};
use hx_lists::push_some;
use hx_model::{DROPPED, ERROR, Model};
use hx_parts::ByPart;
use std::alloc::{AllocError, Global};
use std::marker;

/// For so many candidates room is made at once. Of many targets few may have one.
const FEW: usize = 64;

/// The models and the view of a pass, with the hops and the messages by part.
pub struct Stage<'a> {
    models: &'a [Model],
    hops: &'a [Hops],
    view: &'a View,
    mail: ByPart<Message>,
}

// A derived drop is written out, field by field, wherever one is dropped; this is a call.
impl Drop for Stage<'_> {
    fn drop(self) {
        let Stage {
            models: _,
            hops: _,
            view: _,
            mail: _,
        } = self;
    }
}

impl<'a> marker::Model for Stage<'a> {
    ghost use Rattle.hx_gen.specs.Stage.{Stage, IsStage};

    ghost Value = { Stage };

    ghost view = { λ s. record { models = s.models.now; view = s.view.now } };

    ghost invariant = { λ s.
        IsStage (record { models = s.models.now; view = s.view.now }) s.hops.now s.mail };
}

impl<'a> Stage<'a> {
    /// What the candidates of a pass are made with.
    pub fn of(
        alloc: Global,
        models: &'a [Model],
        hops: &'a [Hops],
        view: &'a View,
    ) -> Result<Stage<'a>, AllocError>
        requires { hops.now ≡ models.now }
        ensures { IfOk result (λ stage.
            stage ≡ record { models = models.now; view = view.now }) }
    {
        Ok(Stage {
            models,
            hops,
            view,
            mail: ByPart::new(alloc, view.mail.as_slice())?,
        })
    }

    /// The candidates of targets, in their order.
    pub fn ranked(&self, alloc: Global, targets: &[Target]) -> Result<Vec<Ranked>, AllocError>
        requires { list_all
            (λ t. has_model self.now.models self.now.view.ideals.resources t.part.resource)
            targets.now
            ≡ true }
        ensures { IfOk result (λ ranked.
            ranked.items
            ≡ filter_map
            (λ t.
            option_map (ranked_as self.now) (candidate_of self.now.models self.now.view t))
            targets.now) }
    {
        let mut ranked = Vec::with_capacity(alloc, targets.len().min(FEW))?;
        for target in targets {
            push_some(&mut ranked, self.next(target))?;
        }
        Ok(ranked)
    }

    /// The candidate of a target, if there is one.
    fn next(&self, target: &Target) -> Option<Ranked>
        requires { has_model self.now.models self.now.view.ideals.resources
            target.now.part.resource
            ≡ true }
        ensures { result
            ≡ option_map (ranked_as self.now)
            (candidate_of self.now.models self.now.view target.now) }
    {
        let place = self.place_of(target.part.resource);
        let model = self.model(place);
        if self.is_done(model, target) {
            return None;
        }
        step(model, self.hops(place), target)
    }

    /// The place of a resource's model.
    fn place_of(&self, resource: ResourceId) -> usize
        requires { has_model self.now.models self.now.view.ideals.resources resource ≡ true }
        ensures within { result < length self.now.models }
        ensures model { slice_index_or self.now.models result no_model
            ≡ model_of self.now.models self.now.view.ideals.resources resource }
    {
        match self.view.ideals.resources.get(resource.0 as usize) {
            Some(resource) => resource.model.0 as usize,
            None => unreachable!(),
        }
    }

    fn model(&self, place: usize) -> &'a Model
        requires { place < length self.now.models }
        ensures { result.now ≡ slice_index_or self.now.models place no_model }
    {
        let models = self.models;
        &models[place]
    }

    fn hops(&self, place: usize) -> &'a Hops
        requires { place < length self.now.models }
        ensures { result.now ≡ slice_index_or self.now.models place no_model }
    {
        let hops = self.hops;
        &hops[place]
    }

    /// Whether a message of the target was shown, or it is where it is to go.
    fn is_done(&self, model: &Model, target: &Target) -> bool
        ensures { result
            ≡ (is_some (message_of self.now.view.mail target.now.session target.now.part)
            || is_at_goal_of model.now target.now) }
    {
        is_at_goal(model, target) || self.has_message(target)
    }

    /// Whether a message of the target was shown.
    fn has_message(&self, target: &Target) -> bool
        ensures { result
            ≡ is_some
            (message_of self.now.view.mail target.now.session target.now.part) }
    {
        message_on(self.mail.at(target.part), target.session, target.part).is_some()
    }
}

/// Whether a replica is where it is to go.
fn is_at_goal(model: &Model, target: &Target) -> bool
    ensures { result ≡ is_at_goal_of model.now target.now }
{
    match target.state {
        Some(state) => state == target.goal,
        None => target.goal == model.initial() || target.goal == DROPPED,
    }
}

/// The transition towards the goal, with its rank.
fn step(model: &Model, hops: &Hops, target: &Target) -> Option<Ranked>
    requires { hops.now ≡ model.now }
    ensures { result ≡ option_map (ranked_by model.now) (hop_of model.now target.now) }
{
    let from = target.state.unwrap_or(model.initial());
    match hop_between(model, hops, from, target.goal) {
        Some(to) => Some(Ranked {
            rank: model.rank(from, to),
            candidate: Candidate {
                session: target.session,
                instance: target.instance,
                part: target.part,
                from,
                to,
                place: target.place,
            },
        }),
        None => None,
    }
}

/// The first transition on the way between two states. There is none from what is no state of the
/// model, nor to it.
fn hop_between(model: &Model, hops: &Hops, from: StateId, goal: StateId) -> Option<StateId>
    requires { hops.now ≡ model.now }
    ensures { result ≡ hop model.now from goal }
{
    if !is_way(model, from, goal) {
        return None;
    }
    hops.hop(from, goal)
}

/// Whether a replica may be in a state, and wanted in another one.
fn is_way(model: &Model, from: StateId, goal: StateId) -> bool
    ensures way { result ≡ (is_from model.now from && is_goal model.now goal) }
    ensures sound { fault_of model.now ≡ None }
{
    (has_state(model, from) || from == ERROR) && (has_state(model, goal) || goal == DROPPED)
}

fn has_state(model: &Model, state: StateId) -> bool
    ensures has { result ≡ has_state_of model.now state }
    ensures sound { fault_of model.now ≡ None }
{
    is_among(model.states(), state)
}

fn is_among(states: &[StateId], state: StateId) -> bool
    ensures { result ≡ list_any (λ s. s.0 == state.0) states.now }
{
    states.iter().any(|s| *s == state)
}
