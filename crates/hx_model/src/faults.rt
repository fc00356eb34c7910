//! The tests of a model, in their order.
ghost use Rattle.std.specs.Prelude.{◌≡◌, ◌-◌, ◌^◌, ◌<◌, ◌≤◌, ◌==◌, ◌&&◌, ◌||◌, [], ◌∷◌, length};
ghost use Rattle.std.specs.Prelude.{min, not, nat_lt, position, None, IsNone};
ghost use Rattle.hx_model.specs.Model.{is_between};
ghost use Rattle.hx_model.specs.Faults.{fault_of, found_by, state_tests, transition_tests};
ghost use Rattle.hx_model.specs.Faults.{walk_tests, twice_place, no_initial, initial_bounded};
ghost use Rattle.hx_model.specs.Faults.{is_reserved, is_known as is_known_in};
ghost use Rattle.hx_model.specs.Faults.{is_free as is_free_of, is_zero as is_zero_of};

use super::{
    Bound, DROPPED, MOST_STATES, ModelFault, ModelParts, bound_in, has_state, lists, walks,
};
use hx_ids::StateId;

/// The first fault of all.
pub fn first_fault(parts: &ModelParts) -> Option<ModelFault>
    ensures fault { result ≡ fault_of parts.now }
    ensures few { IsNone result
        → (length parts.now.states ≤ 16) × (length parts.now.transitions < 2 ^ 32) }
{
    if let Some(fault) = state_fault(parts) {
        return Some(fault);
    }
    if let Some(fault) = transition_fault(parts) {
        return Some(fault);
    }
    walk_fault(parts)
}

fn state_fault(parts: &ModelParts) -> Option<ModelFault>
    ensures fault { result ≡ found_by state_tests parts.now }
    ensures few { IsNone result → length parts.now.states ≤ 16 }
{
    let states = parts.states.as_slice();
    if states.len() > MOST_STATES {
        return Some(ModelFault::TooManyStates);
    }
    if let Some(place) = reserved_state(states) {
        return Some(ModelFault::Reserved {
            place: short(place),
        });
    }
    if let Some(place) = reserved_transition(parts.transitions.as_slice()) {
        return Some(ModelFault::Reserved {
            place: short(place),
        });
    }
    if let Some(place) = twice_state(states) {
        return Some(ModelFault::TwiceState {
            place: short(place),
        });
    }
    if let Some(place) = zero_bound(states) {
        return Some(ModelFault::ZeroBound {
            place: short(place),
        });
    }
    initial_fault(parts)
}

fn initial_fault(parts: &ModelParts) -> Option<ModelFault>
    ensures { result ≡ found_by (no_initial ∷ initial_bounded ∷ []) parts.now }
{
    let states = parts.states.as_slice();
    if !has_state(states, parts.initial) {
        return Some(ModelFault::NoInitial);
    }
    if is_free(bound_in(states, parts.initial)) {
        return None;
    }
    Some(ModelFault::InitialBounded)
}

fn transition_fault(parts: &ModelParts) -> Option<ModelFault>
    ensures fault { result ≡ found_by transition_tests parts.now }
    ensures few { IsNone result → length parts.now.transitions < 2 ^ 32 }
{
    let transitions = parts.transitions.as_slice();
    if let Some(place) = unknown_state(parts) {
        return Some(ModelFault::UnknownState {
            place: short(place),
        });
    }
    if let Some(place) = self_loop(transitions) {
        return Some(ModelFault::SelfLoop {
            place: short(place),
        });
    }
    if let Some(place) = twice_transition(transitions) {
        return Some(ModelFault::TwiceTransition {
            place: short(place),
        });
    }
    if !lists(transitions, parts.initial, DROPPED) {
        return Some(ModelFault::NoDrop);
    }
    None
}

fn walk_fault(parts: &ModelParts) -> Option<ModelFault>
    requires { length parts.now.states ≤ 16 }
    ensures { result ≡ found_by walk_tests parts.now }
{
    if let Some(state) = walks::unreached(parts) {
        return Some(ModelFault::CantReach { state });
    }
    if let Some(state) = walks::unleft(parts) {
        return Some(ModelFault::CantLeave { state });
    }
    None
}

/// A place, or the last number of its type where it is past that.
fn short(place: usize) -> u32
    ensures { result ≡ min place (2 ^ 32 - 1) }
{
    place.min(u32::MAX as usize) as u32
}

fn reserved_state(states: &[(StateId, Bound)]) -> Option<usize>
    ensures { result ≡ position (λ p. nat_lt p.0.0 2) states.now }
{
    states.iter().position(|p| p.0.0 < 2)
}

fn reserved_transition(transitions: &[(StateId, StateId)]) -> Option<usize>
    ensures { result ≡ position is_reserved transitions.now }
{
    transitions.iter().position(|t| t.0.0 < 2 || t.1.0 == 0)
}

fn twice_state(states: &[(StateId, Bound)]) -> Option<usize>
    ensures { result ≡ twice_place (λ p b. b.0.0 == p.0.0) states.now }
{
    for (place, entry) in states.iter().enumerate() {
        if has_state(&states[..place], entry.0) {
            return Some(place);
        }
    }
    None
}

fn zero_bound(states: &[(StateId, Bound)]) -> Option<usize>
    ensures { result ≡ position (λ p. is_zero_of p.1) states.now }
{
    states.iter().position(|p| is_zero(p.1))
}

fn is_free(bound: Bound) -> bool
    ensures { result ≡ is_free_of bound }
{
    bound == Bound::Free
}

fn is_zero(bound: Bound) -> bool
    ensures { result ≡ is_zero_of bound }
{
    bound == Bound::Count(0)
}

fn unknown_state(parts: &ModelParts) -> Option<usize>
    ensures { result ≡ position (λ t. not (is_known_in parts.now t)) parts.now.transitions }
{
    parts
        .transitions
        .iter()
        .position(|t| !is_known(parts, t.0, t.1))
}

fn is_known(parts: &ModelParts, from: StateId, to: StateId) -> bool
    ensures { result ≡ is_known_in parts.now (from, to) }
{
    let states = parts.states.as_slice();
    has_state(states, from) && (has_state(states, to) || to == DROPPED)
}

fn self_loop(transitions: &[(StateId, StateId)]) -> Option<usize>
    ensures { result ≡ position (λ t. t.0.0 == t.1.0) transitions.now }
{
    transitions.iter().position(|t| t.0 == t.1)
}

/// There are no more distinct transitions than pairs of state numbers.
fn twice_transition(transitions: &[(StateId, StateId)]) -> Option<usize>
    ensures place { result ≡ twice_place (λ t b. is_between t.0 t.1 b) transitions.now }
    ensures few { IsNone result → length transitions.now ≤ 65536 }
{
    for (place, transition) in transitions.iter().enumerate() {
        if lists(&transitions[..place], transition.0, transition.1) {
            return Some(place);
        }
    }
    None
}
