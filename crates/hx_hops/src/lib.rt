//! The shortest ways through a state model.
#![tactic(auto)]

pub mod laws;

ghost use Rattle.std.specs.Prelude.{◌≡◌, ℕ, ◌+◌, ◌*◌, ◌<◌, ◌≤◌, ◌==◌, ◌++◌, length, slice_index};
ghost use Rattle.std.specs.Prelude.{None, IfOk, OnOk, IsTrue};
ghost use Rattle.std.specs.List.{position_or_len};
ghost use Rattle.hx_hops.specs.Hops.{dist as dist_of, hop as hop_of, is_from, is_goal};
ghost use Rattle.hx_hops.specs.Table.{way_of, ways_to};
ghost use Rattle.hx_model.specs.Faults.{fault_of};

use hx_ids::StateId;
use hx_model::{DROPPED, ERROR, Model};
use std::alloc::{AllocError, Global};

/// How far a goal is, and the first state on the way.
#[derive(Clone, Copy, PartialEq, Eq)]
struct Way {
    dist: u8,
    hop: Option<StateId>,
}

/// The distances and hops of a model, in a table. Contracts see what the model is made of.
pub struct Hops {
    model: Model,
    places: [u8; 256],
    width: usize,
    ways: Vec<Way>,
}

// A derived drop is written out, field by field, wherever one is dropped; this is a call.
impl Drop for Hops {
    fn drop(self) {
        let Hops {
            model: _,
            places: _,
            width: _,
            ways: _,
        } = self;
    }
}

impl std::marker::Model for Hops {
    ghost use Rattle.hx_model.specs.declared.ModelParts.{ModelParts};

    ghost Value = { ModelParts };

    ghost view = { λ h. h.model };

    ghost use Rattle.hx_hops.specs.Table.{IsTable};

    ghost invariant = { λ h. IsTable h.model h.places h.width h.ways.items };
}

impl Hops {
    /// The distances and hops of a model.
    pub fn build(alloc: Global, model: &Model) -> Result<Hops, AllocError>
        ensures { IfOk result (λ hops. hops ≡ model.now) }
    {
        let states = model.states();
        let width = states.len() + 1;
        let mut ways = Vec::with_capacity(alloc, width * width)?;
        for goal in states {
            push_ways(&mut ways, model, *goal)?;
        }
        push_ways(&mut ways, model, DROPPED)?;
        Ok(Hops {
            model: model.clone()?,
            places: places_of(states),
            width,
            ways,
        })
    }

    /// The length of a shortest walk of legal transitions. It takes no memory.
    pub fn dist(&self, from: StateId, goal: StateId) -> u8
        requires from { IsTrue (is_from self.now from) }
        requires goal { IsTrue (is_goal self.now goal) }
        ensures dist { result ≡ dist_of self.now from goal }
        ensures sound { fault_of self.now ≡ None }
    {
        self.look_up(from, goal).dist
    }

    /// The first legal state, in rank order, that is one transition nearer to the goal, or none at
    /// the goal. It takes no memory.
    pub fn hop(&self, from: StateId, goal: StateId) -> Option<StateId>
        requires from { IsTrue (is_from self.now from) }
        requires goal { IsTrue (is_goal self.now goal) }
        ensures hop { result ≡ hop_of self.now from goal }
        ensures sound { fault_of self.now ≡ None }
    {
        self.look_up(from, goal).hop
    }

    fn look_up(&self, from: StateId, goal: StateId) -> Way
        requires from { IsTrue (is_from self.now from) }
        requires goal { IsTrue (is_goal self.now goal) }
        ensures way { result ≡ way_of self.now from goal }
        ensures sound { fault_of self.now ≡ None }
    {
        let row = place_in(&self.places, goal);
        let column = place_in(&self.places, from);
        self.ways.as_slice()[row * self.width + column]
    }
}

fn place_in(places: &[u8; 256], state: StateId) -> usize
    ensures place { result ≡ slice_index places.now state.0 }
    ensures bytes { (state.0 < 256) × (result < 256) }
{
    places[state.0 as usize] as usize
}

/// Adds the ways to a goal, from each state in priority order and from ERROR.
fn push_ways(ways: &mut Vec<Way>, model: &Model, goal: StateId) -> Result<(), AllocError>
    ensures { OnOk result (ways.new.items ≡ ways.old.items ++ ways_to model.now goal) }
{
    let dists = model.distances(goal);
    for from in model.states() {
        ways.push(make_way(model, &dists, *from, goal))?;
    }
    ways.push(make_way(model, &dists, ERROR, goal))?;
    Ok(())
}

fn make_way(model: &Model, dists: &[u8; 256], from: StateId, goal: StateId) -> Way
    requires { (s : ℕ) → s < 256
        → slice_index dists.now s ≡ dist_of model.now (record { 0 = s }) goal }
    ensures { result ≡ way_of model.now from goal }
{
    Way {
        dist: dists[from.0 as usize],
        hop: nearer(model, dists, from, goal),
    }
}

/// The first legal state, in rank order, that is one transition nearer.
fn nearer(model: &Model, dists: &[u8; 256], from: StateId, goal: StateId) -> Option<StateId>
    requires { (s : ℕ) → s < 256
        → slice_index dists.now s ≡ dist_of model.now (record { 0 = s }) goal }
    ensures { result ≡ hop_of model.now from goal }
{
    if from == goal {
        return None;
    }
    for step in model.transitions() {
        if step.0 == from && is_nearer(dists, step.1, from) {
            return Some(step.1);
        }
    }
    let initial = model.initial();
    if from == ERROR && is_nearer(dists, initial, from) {
        return Some(initial);
    }
    None
}

fn is_nearer(dists: &[u8; 256], to: StateId, from: StateId) -> bool
    ensures nearer { result ≡ (slice_index dists.now to.0 + 1 == slice_index dists.now from.0) }
    ensures bytes { (from.0 < 256) × (to.0 < 256) }
{
    dists[to.0 as usize] as usize + 1 == dists[from.0 as usize] as usize
}

/// For each state number its place among the states, or their number.
fn places_of(states: &[StateId]) -> [u8; 256]
    requires { length states.now ≤ 16 }
    ensures room { length result ≡ 256 }
    ensures places { (s : ℕ) → s < 256
        → slice_index result s ≡ position_or_len (λ t. t.0 == s) states.now }
{
    let mut places = [states.len() as u8; 256];
    for place in (0..states.len()).rev() {
        places[states[place].0 as usize] = place as u8;
    }
    places
}
