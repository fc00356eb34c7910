//! Each rule of the goal has a case with another answer by the rule before or after it.
use crate::tests::fixtures::{MASTER, N1, N2, N3, OFFLINE, S1, S2, S3, SLAVE, expect};
use crate::tests::stages::fixtures::{Case, EMPTY, described, targets_of, view};
use crate::tests::stages::texts::{ANYWHERE, FEW, LISTED, MAPPED, THIRD, TWO_MASTERS};
use hx_cluster::Target;
use hx_ids::{InstanceId, StateId};
use hx_model::{DROPPED, ERROR};
use std::alloc::Global;
use std::process::Abort;

/// A replica is in ERROR.
const FAILED: Case = Case {
    text: LISTED,
    rows: &[(S1, 0, ERROR)],
    ..EMPTY
};

/// The second instance is drained.
const DRAINED: Case = Case {
    text: LISTED,
    drained: [false, true, false],
    ..EMPTY
};

/// The goal and the place of a target on an instance.
type Goal = (InstanceId, StateId, u32);

/// A replica in ERROR, a dropped resource, a place that isn't wanted, a drained instance: the first
/// of these that fits.
static EXCEPTIONS: &[(Case, &[Goal])] = &[
    (
        Case {
            resets: &[S1],
            ..FAILED
        },
        &[(N1, OFFLINE, 0), (N2, MASTER, 1), (N3, SLAVE, 2)],
    ),
    (
        Case {
            resets: &[S2],
            ..FAILED
        },
        &[(N1, ERROR, 0), (N2, MASTER, 1), (N3, SLAVE, 2)],
    ),
    (
        Case {
            dropped: true,
            rows: &[(S1, 0, ERROR), (S3, 0, ERROR), (S2, 0, SLAVE)],
            resets: &[S3],
            ..DRAINED
        },
        &[(N1, ERROR, 0), (N2, DROPPED, 0), (N3, OFFLINE, 0)],
    ),
    (
        Case {
            text: TWO_MASTERS,
            dropped: true,
            ..EMPTY
        },
        &[(N1, DROPPED, 0), (N2, DROPPED, 0)],
    ),
    (
        Case {
            text: THIRD,
            rows: &[(S1, 0, SLAVE), (S2, 0, SLAVE)],
            ..DRAINED
        },
        &[(N1, DROPPED, 1), (N2, DROPPED, 1), (N3, MASTER, 0)],
    ),
    (
        DRAINED,
        &[(N1, MASTER, 0), (N2, OFFLINE, 1), (N3, SLAVE, 2)],
    ),
    (
        Case {
            text: MAPPED,
            rows: &[(S3, 0, SLAVE)],
            ..DRAINED
        },
        &[(N1, SLAVE, 0), (N2, OFFLINE, 0), (N3, DROPPED, 0)],
    ),
];

/// States by the bounds in order of priority, and replicas left over.
static BEST: &[(Case, &[Goal])] = &[
    (
        Case {
            text: LISTED,
            ..EMPTY
        },
        &[(N1, MASTER, 0), (N2, SLAVE, 1), (N3, DROPPED, 2)],
    ),
    (
        Case {
            text: LISTED,
            live: &[(S3, N3), (S2, N2)],
            ..EMPTY
        },
        &[(N2, MASTER, 1), (N3, SLAVE, 2)],
    ),
    (
        Case { text: FEW, ..EMPTY },
        &[(N1, StateId(8), 0), (N2, StateId(10), 1), (N3, OFFLINE, 2)],
    ),
    (
        Case {
            text: ANYWHERE,
            rows: &[(S2, 0, SLAVE)],
            ..DRAINED
        },
        &[(N1, MASTER, 0), (N2, DROPPED, 2), (N3, SLAVE, 1)],
    ),
];

fn expect_goals(rt: &impl Abort, found: &[Target], goals: &[Goal]) {
    expect(rt, &found.len(), &goals.len());
    for (target, goal) in found.iter().zip(goals) {
        expect(rt, &(target.instance, target.goal, target.place), goal);
    }
}

fn expect_case(rt: &impl Abort, alloc: Global, case: &Case, goals: &[Goal]) {
    let spec = described(rt, alloc, case.text);
    let view = view(rt, alloc, &spec, case);
    let found = targets_of(rt, alloc, &spec, &view);
    expect_goals(rt, found.as_slice(), goals);
}

#[test]
fn goals_are_the_first_rules_that_fit(rt: HostRuntime) {
    for (case, goals) in EXCEPTIONS {
        expect_case(&rt, rt.alloc(), case, *goals);
    }
}

#[test]
fn goals_are_best_by_place(rt: HostRuntime) {
    for (case, goals) in BEST {
        expect_case(&rt, rt.alloc(), case, *goals);
    }
}
