//! The states that the places of a resource take.
ghost use Rattle.std.specs.Prelude.{◌≡◌, ℕ, ◌<◌, IfOk, length, unwrap_or, option_copied};
ghost use Rattle.hx_model.specs.Model.{limit_of};
ghost use Rattle.hx_cluster.specs.Ends.{no_model};
ghost use Rattle.hx_best.specs.Goals.{room_in, best_state as best_state_of, best_below};
ghost use Rattle.hx_best.specs.Places.{best_states as best_states_of};

use crate::lookups::Index;
use hx_cluster::Resource;
use hx_ids::StateId;
use hx_model::{Bound, DROPPED, Model};
use std::alloc::{AllocError, Global};
use std::marker;

/// A resource in a view, with the states that its places take.
pub struct Places<'a> {
    index: &'a Index<'a>,
    models: &'a [Model],
    resource: &'a Resource,
    initial: StateId,
    best: Vec<StateId>,
}

// A derived drop is written out, field by field, wherever one is dropped; this is a call.
impl Drop for Places<'_> {
    fn drop(self) {
        let Places {
            index: _,
            models: _,
            resource: _,
            initial: _,
            best: _,
        } = self;
    }
}

impl<'a> marker::Model for Places<'a> {
    ghost use Rattle.hx_best.specs.Places.{Placing, IsPlaced};

    ghost Value = { Placing };

    ghost view = { λ x. record {
      models = x.models.now;
      view = x.index.now;
      resource = x.resource.now;
    } };

    ghost invariant = { λ x.
        IsPlaced
        (record { models = x.models.now; view = x.index.now; resource = x.resource.now })
        x.initial x.best.items };
}

impl<'a> Places<'a> {
    ghost use Rattle.hx_best.specs.Places.{Placing, model_in};

    /// The states of a resource's places.
    pub fn of(
        alloc: Global,
        index: &'a Index<'a>,
        models: &'a [Model],
        resource: &'a Resource,
    ) -> Result<Places<'a>, AllocError>
        ensures { IfOk result (λ places.
            places
            ≡ record { models = models.now; view = index.now; resource = resource.now }) }
    {
        let model = models.get(resource.model.0 as usize);
        let replicas = resource.ideal.replicas() as usize;
        let best = best_states(alloc, model, replicas, index.view().live.len())?;
        Ok(Places {
            index,
            models,
            resource,
            initial: initial_of(model),
            best,
        })
    }

    /// The view, with its look-ups.
    pub fn index(&self) -> &'a Index<'a>
        ensures { result.now ≡ self.now.view }
    {
        self.index
    }

    /// The resource.
    pub fn resource(&self) -> &'a Resource
        ensures { result.now ≡ self.now.resource }
    {
        self.resource
    }

    /// The initial state of the model.
    pub fn initial(&self) -> StateId
        ensures { result ≡ (model_in self.now).initial }
    {
        self.initial
    }

    /// The state of the entry behind so many that can take one.
    pub fn below(&self, rank: usize) -> StateId
        ensures { result
            ≡ best_below (model_in self.now) self.now.resource.ideal.replicas
            (length self.now.view.live) rank }
    {
        match self.best.get(rank) {
            Some(state) => *state,
            None => DROPPED,
        }
    }
}

fn initial_of(model: Option<&Model>) -> StateId
    ensures { result ≡ (unwrap_or (option_copied model.entry) no_model).initial }
{
    match model {
        Some(model) => model.initial(),
        None => DROPPED,
    }
}

/// How many replicas a state takes, of so many and among so many live sessions.
fn room_in(bound: Bound, replicas: usize, live: usize) -> usize
    ensures { result ≡ room_in bound replicas live }
{
    match bound {
        Bound::Count(n) => n as usize,
        Bound::Replicas => replicas,
        Bound::Live => live,
        Bound::Free => 0,
    }
}

/// The state of a place: the states take the places in priority order, and the initial state takes
/// the rest.
fn best_state(model: &Model, replicas: usize, live: usize, place: usize) -> StateId
    ensures { result ≡ best_state_of model.now replicas live place }
{
    let mut left = place;
    for state in model.states() {
        let room = room_in(model.bound(*state), replicas, live);
        if left < room {
            return *state;
        }
        left -= room;
    }
    model.initial()
}

/// The same where there may be no model, and so no state.
fn state_at(model: Option<&Model>, replicas: usize, live: usize, place: usize) -> StateId
    ensures { result
        ≡ best_state_of (unwrap_or (option_copied model.entry) no_model) replicas live place }
{
    match model {
        Some(model) => best_state(model, replicas, live, place),
        None => DROPPED,
    }
}

/// The states of the places below the number of replicas.
fn best_states(
    alloc: Global,
    model: Option<&Model>,
    replicas: usize,
    live: usize,
) -> Result<Vec<StateId>, AllocError>
    ensures { IfOk result (λ best.
        best.items
        ≡ best_states_of (unwrap_or (option_copied model.entry) no_model) replicas live) }
{
    let mut best = Vec::with_capacity(alloc, replicas)?;
    for place in 0..replicas {
        best.push(state_at(model, replicas, live, place))?;
    }
    Ok(best)
}
