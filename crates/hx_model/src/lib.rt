//! State models: the states that a replica may be in, the transitions between them, and how many
//! replicas of one partition may be in a state.
#![tactic(auto)]

mod builtin;
mod faults;
mod walks;

ghost use Rattle.std.specs.Prelude.{◌≡◌, ℕ, ◌-◌, ◌^◌, ◌<◌, ◌≤◌, ◌==◌, length, map, take};
ghost use Rattle.std.specs.Prelude.{slice_index, None, Some, IfOk, IfErr, IsTrue};
ghost use Rattle.hx_model.specs.Model.{states_of, has_state as has_state_of, is_legal, bound_of};
ghost use Rattle.hx_model.specs.Model.{rank_of, limit_of, is_between};
ghost use Rattle.std.specs.List.{list_any, find, position};
ghost use Rattle.std.specs.Option.{option_map_or};
ghost use Rattle.hx_model.specs.Faults.{fault_of};
ghost use Rattle.hx_model.specs.Walks.{dist};

pub use builtin::{leader_standby, master_slave, online_offline};
use hx_ids::StateId;
use hx_lists::Seq;
use std::alloc::{AllocError, Global};

/// The state of a replica whose handler failed. Every model has it.
pub const ERROR: StateId = StateId(0);

/// Where a replica goes that is no longer wanted. Every model has it.
pub const DROPPED: StateId = StateId(1);

/// The most states that a model has.
pub const MOST_STATES: usize = 16;

/// How many replicas of one partition may be in a state.
#[derive(Clone, Copy, Debug, PartialEq, Eq)]
pub enum Bound {
    /// That many.
    Count(u32),
    /// As many as the resource has replicas.
    Replicas,
    /// As many as there are live sessions.
    Live,
    /// Any number.
    Free,
}

/// What is wrong with a model. Places count from 0, in the list of states or of transitions. A
/// place past the end of its type counts as the last.
#[derive(Clone, Copy, Debug, PartialEq, Eq)]
pub enum ModelFault {
    /// More than 16.
    TooManyStates,
    /// ERROR or DROPPED among the states, a transition that names ERROR, or one that starts at
    /// DROPPED.
    Reserved { place: u32 },
    TwiceState { place: u32 },
    ZeroBound { place: u32 },
    /// The initial state isn't among the states.
    NoInitial,
    InitialBounded,
    /// A transition that names a state which isn't among the states.
    UnknownState { place: u32 },
    SelfLoop { place: u32 },
    TwiceTransition { place: u32 },
    /// No transition leads from the initial state to DROPPED.
    NoDrop,
    /// No walk leads to this state from the initial state.
    CantReach { state: StateId },
    /// No walk leads from this state to the initial state.
    CantLeave { state: StateId },
}

/// What a model is made of: its states in priority order, and its transitions in rank order.
#[derive(PartialEq)]
pub struct ModelParts {
    pub states: Seq<(StateId, Bound)>,
    pub initial: StateId,
    pub transitions: Seq<(StateId, StateId)>,
}

// A derived drop is written out, field by field, wherever one is dropped; this is a call.
impl Drop for ModelParts {
    fn drop(self) {
        let ModelParts {
            states: _,
            initial: _,
            transitions: _,
        } = self;
    }
}

/// A checked model. Contracts see it as what it is made of.
pub struct Model {
    parts: ModelParts,
    order: [StateId; MOST_STATES],
    count: usize,
}

// A derived drop is written out, field by field, wherever one is dropped; this is a call.
impl Drop for Model {
    fn drop(self) {
        let Model {
            parts: _,
            order: _,
            count: _,
        } = self;
    }
}

impl std::marker::Model for Model {
    ghost use Rattle.hx_model.specs.declared.ModelParts.{ModelParts};

    ghost Value = { ModelParts };

    ghost view = { λ m. m.parts };

    ghost use Rattle.hx_model.specs.Checked.{IsChecked};

    ghost invariant = { λ m. IsChecked m.parts m.order m.count };
}

/// The most replicas that a bound allows, or none where it allows any number. It takes no memory.
pub fn limit(bound: Bound, replicas: u32, live: u32) -> Option<u32>
    ensures { result ≡ limit_of bound replicas live }
{
    match bound {
        Bound::Count(n) => Some(n),
        Bound::Replicas => Some(replicas),
        Bound::Live => Some(live),
        Bound::Free => None,
    }
}

impl Clone for ModelParts {
    ghost is_clone = { λ parts copy. copy ≡ parts };

    fn clone(&self) -> Result<ModelParts, AllocError> {
        Ok(ModelParts {
            states: self.states.clone()?,
            initial: self.initial,
            transitions: self.transitions.clone()?,
        })
    }
}

impl Clone for Model {
    ghost is_clone = { λ model copy. copy ≡ model };

    fn clone(&self) -> Result<Model, AllocError> {
        Ok(Model {
            parts: self.parts.clone()?,
            order: self.order,
            count: self.count,
        })
    }
}

impl Model {
    /// Tests what a model is made of. It takes no memory.
    pub fn check(parts: ModelParts) -> Result<Model, ModelFault>
        ensures ok { IfOk result (λ model. (fault_of parts ≡ None) × (model ≡ parts)) }
        ensures err { IfErr result (λ fault. fault_of parts ≡ Some fault) }
    {
        match faults::first_fault(&parts) {
            Some(fault) => Err(fault),
            None => Ok(Model {
                order: order_of(parts.states.as_slice()),
                count: parts.states.len(),
                parts,
            }),
        }
    }

    /// Whether a transition is listed, or leads from ERROR to the initial state. It takes no
    /// memory.
    pub fn legal(&self, from: StateId, to: StateId) -> bool
        ensures { result ≡ is_legal self.now from to }
    {
        lists(self.parts.transitions.as_slice(), from, to)
            || (from == ERROR && to == self.parts.initial)
    }

    /// Whether a state is listed. ERROR and DROPPED never are. It takes no memory.
    pub fn has_state(&self, state: StateId) -> bool
        ensures { result ≡ has_state_of self.now state }
    {
        has_state(self.parts.states.as_slice(), state)
    }

    /// A state's bound. ERROR and DROPPED have none. It takes no memory.
    pub fn bound(&self, state: StateId) -> Bound
        ensures { result ≡ bound_of self.now state }
    {
        bound_in(self.parts.states.as_slice(), state)
    }

    /// The place of a legal transition in the list, or the list's length from ERROR to the initial
    /// state. It takes no memory.
    pub fn rank(&self, from: StateId, to: StateId) -> u32
        requires { IsTrue (is_legal self.now from to) }
        ensures { result ≡ rank_of self.now from to }
    {
        let transitions = self.parts.transitions.as_slice();
        match place_of(transitions, from, to) {
            Some(place) => place as u32,
            None => transitions.len() as u32,
        }
    }

    /// The state that a replica begins in. It takes no memory.
    pub fn initial(&self) -> StateId
        ensures { result ≡ self.now.initial }
    {
        self.parts.initial
    }

    /// The states in priority order. It takes no memory.
    pub fn states(&self) -> &[StateId]
        ensures states { result.now ≡ states_of self.now }
        ensures few { length self.now.states ≤ 16 }
        ensures sound { fault_of self.now ≡ None }
    {
        &self.order[..self.count]
    }

    /// The transitions in rank order. It takes no memory.
    pub fn transitions(&self) -> &[(StateId, StateId)]
        ensures { result.now ≡ self.now.transitions }
    {
        self.parts.transitions.as_slice()
    }

    /// For each state number the length of a shortest walk to the goal, and where there is no walk
    /// the number of states and two. It takes no memory.
    pub fn distances(&self, goal: StateId) -> [u8; 256]
        ensures room { length result ≡ 256 }
        ensures dists { (s : ℕ) → s < 256
            → slice_index result s ≡ dist self.now (record { 0 = s }) goal }
    {
        walks::distances(&self.parts, goal)
    }
}

fn has_state(states: &[(StateId, Bound)], state: StateId) -> bool
    ensures { result ≡ list_any (λ p. p.0.0 == state.0) states.now }
{
    states.iter().any(|p| p.0 == state)
}

fn entry_of(states: &[(StateId, Bound)], state: StateId) -> Option<(StateId, Bound)>
    ensures { result ≡ find (λ p. p.0.0 == state.0) states.now }
{
    states.iter().copied().find(|p| p.0 == state)
}

fn bound_in(states: &[(StateId, Bound)], state: StateId) -> Bound
    ensures { result
        ≡ option_map_or (λ p. p.1) (find (λ p. p.0.0 == state.0) states.now) Bound.Free }
{
    match entry_of(states, state) {
        Some(entry) => entry.1,
        None => Bound::Free,
    }
}

fn lists(transitions: &[(StateId, StateId)], from: StateId, to: StateId) -> bool
    ensures found { result ≡ list_any (is_between from to) transitions.now }
    ensures bytes { (from.0 < 256) × (to.0 < 256) }
{
    transitions.iter().any(|t| t.0 == from && t.1 == to)
}

fn place_of(transitions: &[(StateId, StateId)], from: StateId, to: StateId) -> Option<usize>
    ensures { result ≡ position (is_between from to) transitions.now }
{
    transitions.iter().position(|t| t.0 == from && t.1 == to)
}

/// The states alone, in priority order.
fn order_of(states: &[(StateId, Bound)]) -> [StateId; MOST_STATES]
    requires { length states.now ≤ 16 }
    ensures { take (length states.now) result ≡ map (λ p. p.0) states.now }
{
    let mut order = [ERROR; MOST_STATES];
    for (place, state) in states.iter().enumerate() {
        order[place] = state.0;
    }
    order
}

impl Model {
    fn of(
        alloc: Global,
        states: &[(StateId, Bound)],
        initial: StateId,
        transitions: &[(StateId, StateId)],
    ) -> Result<Model, AllocError>
        requires sound { fault_of (record {
          states = states.now;
          initial = initial;
          transitions = transitions.now;
        })
            ≡ None }
        requires states { length states.now ≤ 16 }
        requires transitions { length transitions.now < 2 ^ 32 }
        ensures { IfOk result (λ m.
            m
            ≡ record { states = states.now; initial = initial; transitions = transitions.now }) }
    {
        Ok(Model {
            order: order_of(states),
            count: states.len(),
            parts: ModelParts {
                states: Seq::from_vec(Vec::from_slice(alloc, states)?),
                initial,
                transitions: Seq::from_vec(Vec::from_slice(alloc, transitions)?),
            },
        })
    }
}
