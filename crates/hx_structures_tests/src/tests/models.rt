ghost use Rattle.std.specs.Prelude.{◌≤◌, length, IfOk};
ghost use Rattle.hx_model.specs.Builtin.{AreStates};

use crate::tests::fixtures::expect;
use hx_ids::{Names, StateId};
use hx_lists::Seq;
use hx_model::{
    Bound, DROPPED, ERROR, Model, ModelFault, ModelParts, leader_standby, master_slave,
    online_offline,
};
use std::alloc::{AllocError, Global};
use std::process::Abort;
use std::test::Fail;

pub const P: StateId = StateId(8);

pub const Q: StateId = StateId(9);

pub const OFFLINE: StateId = StateId(4);

/// Two replicas at most may be in Q, which lies between OFFLINE and P.
pub const SWAP: [(StateId, Bound); 3] = [
    (P, Bound::Count(1)),
    (Q, Bound::Count(2)),
    (OFFLINE, Bound::Free),
];

pub const SWAP_MOVES: [(StateId, StateId); 5] = [
    (OFFLINE, Q),
    (Q, P),
    (P, Q),
    (Q, OFFLINE),
    (OFFLINE, DROPPED),
];

const PLAIN: [(StateId, Bound); 2] = [(P, Bound::Live), (OFFLINE, Bound::Free)];

const BACK: [(StateId, StateId); 3] = [(OFFLINE, P), (P, OFFLINE), (OFFLINE, DROPPED)];

/// States of which a model with the transitions of BACK has a fault.
static STATE_FAULTS: &[(&[(StateId, Bound)], ModelFault)] = &[
    (&[(P, Bound::Free); 17], ModelFault::TooManyStates),
    (
        &[(OFFLINE, Bound::Free), (ERROR, Bound::Free)],
        ModelFault::Reserved { place: 1 },
    ),
    (
        &[(P, Bound::Live), (P, Bound::Free)],
        ModelFault::TwiceState { place: 1 },
    ),
    (
        &[(OFFLINE, Bound::Free), (P, Bound::Count(0))],
        ModelFault::ZeroBound { place: 1 },
    ),
    (&[(P, Bound::Free)], ModelFault::NoInitial),
    (&[(OFFLINE, Bound::Replicas)], ModelFault::InitialBounded),
];

/// Transitions of which a model with the states of PLAIN has a fault.
static MOVE_FAULTS: &[(&[(StateId, StateId)], ModelFault)] = &[
    (
        &[(OFFLINE, P), (P, ERROR)],
        ModelFault::Reserved { place: 1 },
    ),
    (
        &[(OFFLINE, P), (P, Q)],
        ModelFault::UnknownState { place: 1 },
    ),
    (&[(OFFLINE, P), (P, P)], ModelFault::SelfLoop { place: 1 }),
    (
        &[(OFFLINE, P), (P, OFFLINE), (OFFLINE, P)],
        ModelFault::TwiceTransition { place: 2 },
    ),
    (&[(OFFLINE, P), (P, OFFLINE)], ModelFault::NoDrop),
    (
        &[(P, OFFLINE), (OFFLINE, DROPPED)],
        ModelFault::CantReach { state: P },
    ),
];

/// Transitions of SWAP, of which none leads back from Q to OFFLINE.
const STUCK: [(StateId, StateId); 4] = [(OFFLINE, Q), (Q, P), (P, Q), (OFFLINE, DROPPED)];

/// What the check says of a model whose initial state is OFFLINE.
pub fn checked(
    alloc: Global,
    states: &[(StateId, Bound)],
    moves: &[(StateId, StateId)],
) -> Result<Result<Model, ModelFault>, AllocError> {
    Ok(Model::check(ModelParts {
        states: Seq::from_vec(Vec::from_slice(alloc, states)?),
        initial: OFFLINE,
        transitions: Seq::from_vec(Vec::from_slice(alloc, moves)?),
    }))
}

fn expect_fault(
    rt: &impl Abort,
    alloc: Global,
    states: &[(StateId, Bound)],
    moves: &[(StateId, StateId)],
    fault: ModelFault,
) -> Result<(), AllocError> {
    let made = checked(alloc, states, moves)?;
    expect(rt, &made.err(), &Some(fault));
    Ok(())
}

#[test]
fn each_fault_of_a_model_is_named(rt: HostRuntime) -> Result<(), Fail> {
    for (states, fault) in STATE_FAULTS {
        expect_fault(&rt, rt.alloc(), states, &BACK, *fault)?;
    }
    for (moves, fault) in MOVE_FAULTS {
        expect_fault(&rt, rt.alloc(), &PLAIN, moves, *fault)?;
    }
    let stuck = ModelFault::CantLeave { state: P };
    expect_fault(&rt, rt.alloc(), &SWAP, &STUCK, stuck)?;
    Ok(())
}

#[test]
fn a_model_may_be_without_fault(rt: HostRuntime) -> Result<(), Fail> {
    assert!(rt; checked(rt.alloc(), &PLAIN, &BACK)?.is_ok());
    Ok(())
}

fn first_names(alloc: Global) -> Result<Names, AllocError>
    ensures states { IfOk result (λ names. AreStates names) }
    ensures few { IfOk result (λ names. length names ≤ 2) }
{
    let mut names = Names::new(alloc);
    names.intern("ERROR")?;
    names.intern("DROPPED")?;
    Ok(names)
}

#[test]
fn the_models_of_every_description_come(rt: HostRuntime) -> Result<(), Fail> {
    let mut names = first_names(rt.alloc())?;
    master_slave(rt.alloc(), &mut names)?;
    online_offline(rt.alloc(), &mut names)?;
    leader_standby(rt.alloc(), &mut names)?;
    expect(&rt, &names.len(), &8);
    Ok(())
}
