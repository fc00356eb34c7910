//! Distances between the states of a model.
ghost use Rattle.std.specs.Prelude.{◌≡◌, ℕ, ◌+◌, ◌<◌, ◌≤◌, ◌==◌, ◌≢◌, length, min, not};
ghost use Rattle.std.specs.Prelude.{slice_index, slice_set};
ghost use Rattle.std.specs.List.{find};
ghost use Rattle.hx_model.specs.Model.{states_of};
ghost use Rattle.hx_model.specs.Walks.{dist, reaches};

use super::{Bound, ERROR, ModelParts};
use hx_ids::StateId;

/// The first state to which no walk leads from the initial state.
pub fn unreached(parts: &ModelParts) -> Option<StateId>
    requires { length parts.now.states ≤ 16 }
    ensures { result
        ≡ find (λ s. not (reaches parts.now parts.now.initial s)) (states_of parts.now) }
{
    let none = parts.states.len() + 2;
    for entry in parts.states.as_slice() {
        if at(&distances(parts, entry.0), parts.initial) == none {
            return Some(entry.0);
        }
    }
    None
}

/// The first state from which no walk leads to the initial state.
pub fn unleft(parts: &ModelParts) -> Option<StateId>
    requires { length parts.now.states ≤ 16 }
    ensures { result
        ≡ find (λ s. not (reaches parts.now s parts.now.initial)) (states_of parts.now) }
{
    let none = parts.states.len() + 2;
    let dists = distances(parts, parts.initial);
    for entry in parts.states.as_slice() {
        if at(&dists, entry.0) == none {
            return Some(entry.0);
        }
    }
    None
}

fn at(dists: &[u8; 256], state: StateId) -> usize
    ensures dist { result ≡ slice_index dists.now state.0 }
    ensures byte { state.0 < 256 }
{
    dists[state.0 as usize] as usize
}

/// For each state number the length of a shortest walk to the goal, and where there is no walk the
/// number of states and two.
pub fn distances(parts: &ModelParts, goal: StateId) -> [u8; 256]
    requires { length parts.now.states ≤ 16 }
    ensures room { length result ≡ 256 }
    ensures dists { (s : ℕ) → s < 256
        → slice_index result s ≡ dist parts.now (record { 0 = s }) goal }
    ensures most { (s : ℕ) → slice_index result s ≤ length parts.now.states + 2 }
{
    let none = parts.states.len() as u8 + 2;
    let mut dists = first_distances(none, goal);
    for _round in 1..none {
        for step in parts.transitions.as_slice() {
            shorten(&mut dists, step.0, step.1);
        }
        shorten(&mut dists, ERROR, parts.initial);
    }
    dists
}

/// The goal alone is at its own distance.
fn first_distances(none: u8, goal: StateId) -> [u8; 256]
    ensures room { length result ≡ 256 }
    ensures goal { slice_index result goal.0 ≡ 0 }
    ensures rest { (s : ℕ) → s < 256 → s ≢ goal.0 → slice_index result s ≡ none }
{
    let mut dists = [none; 256];
    dists[goal.0 as usize] = 0;
    dists
}

/// A walk may begin with this transition.
fn shorten(dists: &mut [u8; 256], from: StateId, to: StateId)
    requires { slice_index dists.old to.0 < 255 }
    ensures dists { dists.new
        ≡ slice_set dists.old from.0
        (min (slice_index dists.old from.0) (slice_index dists.old to.0 + 1)) }
    ensures bytes { (from.0 < 256) × (to.0 < 256) }
{
    let here = dists[from.0 as usize];
    let through = dists[to.0 as usize] + 1;
    dists[from.0 as usize] = here.min(through);
}
