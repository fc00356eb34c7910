//! The order of candidates: by partition, rank, place and instance.
ghost use Rattle.hx_parts.specs.Parts.{IsByPart};

use crate::tests::fixtures::{MASTER, N1, N2, N3, OFFLINE, ONLINE, S1, S2, S3, SLAVE, expect};
use crate::tests::stages::fixtures::{Case, EMPTY, described, hops, targets_of, view};
use crate::tests::stages::texts::{LISTED, NO_RULES, SECOND_FIRST};
use hx_cluster::{Candidate, Spec, Target, View};
use hx_gen::{candidates, have_models};
use hx_ids::{InstanceId, StateId};
use hx_model::{DROPPED, ERROR};
use std::alloc::Global;
use std::process::Abort;

/// A candidate of a partition on an instance, and its transition.
type Move = (u32, InstanceId, StateId, StateId);

static MOVES: &[(Case, &[Move])] = &[
    (
        Case {
            text: LISTED,
            drained: [false, true, false],
            ..EMPTY
        },
        &[(0, N1, OFFLINE, SLAVE), (0, N3, OFFLINE, SLAVE)],
    ),
    (
        Case {
            text: LISTED,
            rows: &[(S1, 0, SLAVE), (S3, 0, MASTER)],
            ..EMPTY
        },
        &[
            (0, N3, MASTER, SLAVE),
            (0, N1, SLAVE, MASTER),
            (0, N2, OFFLINE, SLAVE),
        ],
    ),
    (
        Case {
            text: LISTED,
            rows: &[(S1, 0, ERROR), (S3, 0, OFFLINE)],
            resets: &[S1],
            ..EMPTY
        },
        &[
            (0, N2, OFFLINE, SLAVE),
            (0, N3, OFFLINE, SLAVE),
            (0, N1, ERROR, OFFLINE),
        ],
    ),
    (
        Case {
            text: SECOND_FIRST,
            ..EMPTY
        },
        &[
            (0, N2, OFFLINE, SLAVE),
            (0, N1, OFFLINE, SLAVE),
            (0, N3, OFFLINE, SLAVE),
        ],
    ),
    (
        Case {
            text: SECOND_FIRST,
            mail: &[(S1, 0, OFFLINE, SLAVE)],
            rows: &[(S3, 0, SLAVE)],
            ..EMPTY
        },
        &[(0, N2, OFFLINE, SLAVE)],
    ),
    (
        Case {
            text: LISTED,
            dropped: true,
            rows: &[(S3, 0, OFFLINE), (S1, 0, OFFLINE), (S2, 0, SLAVE)],
            ..EMPTY
        },
        &[
            (0, N2, SLAVE, OFFLINE),
            (0, N1, OFFLINE, DROPPED),
            (0, N3, OFFLINE, DROPPED),
        ],
    ),
    (
        Case {
            text: NO_RULES,
            rows: &[(S2, 1, ONLINE), (S3, 0, ONLINE)],
            ..EMPTY
        },
        &[
            (0, N1, OFFLINE, ONLINE),
            (0, N2, OFFLINE, ONLINE),
            (0, N3, ONLINE, OFFLINE),
            (1, N3, OFFLINE, ONLINE),
            (1, N1, OFFLINE, ONLINE),
            (1, N2, ONLINE, OFFLINE),
            (2, N2, OFFLINE, ONLINE),
            (2, N3, OFFLINE, ONLINE),
        ],
    ),
];

/// The candidates of targets.
pub fn candidates_of(
    rt: &impl Abort,
    alloc: Global,
    spec: &Spec,
    view: &View,
    targets: &[Target],
) -> Vec<Candidate>
    ensures { IsByPart (λ c. c.part) result.items }
{
    let models = spec.models.as_slice();
    let hops = hops(rt, alloc, models);
    if !have_models(models, view, targets) {
        panic!(rt; "no model");
    }
    let Ok(found) = candidates(alloc, models, hops.as_slice(), view, targets) else {
        panic!(rt; "no memory");
    };
    found
}

fn expect_moves(rt: &impl Abort, found: &[Candidate], moves: &[Move]) {
    expect(rt, &found.len(), &moves.len());
    for (candidate, wanted) in found.iter().zip(moves) {
        let found = (
            candidate.part.index,
            candidate.instance,
            candidate.from,
            candidate.to,
        );
        expect(rt, &found, wanted);
    }
}

fn expect_case(rt: &impl Abort, alloc: Global, case: &Case, moves: &[Move]) {
    let spec = described(rt, alloc, case.text);
    let view = view(rt, alloc, &spec, case);
    let targets = targets_of(rt, alloc, &spec, &view);
    let found = candidates_of(rt, alloc, &spec, &view, targets.as_slice());
    expect_moves(rt, found.as_slice(), moves);
}

#[test]
fn candidates_come_in_order(rt: HostRuntime) {
    for (case, moves) in MOVES {
        expect_case(&rt, rt.alloc(), case, *moves);
    }
}
