//! Plans of worked views: what they propose, and what they find of each target. The stages find the
//! same, one after the other.
ghost use Rattle.std.specs.Prelude.{◌≡◌, length};
ghost use Rattle.hx_cluster.specs.Views.{is_well_formed};
ghost use Rattle.hx_parts.specs.Parts.{IsByPart};

use crate::tests::fixtures::{MASTER, N1, N2, N3, OFFLINE, ONLINE, S1, S2, S3, SLAVE, expect};
use crate::tests::stages::fixtures::{Case, EMPTY, described, hops, targets_of, view};
use crate::tests::stages::moves::candidates_of;
use crate::tests::stages::texts::{
    MIXED, NO_RULES, RULES, SECOND_FIRST, SWAP, SWAPPED, THREE_REPLICAS, THROTTLED, TWO_MASTERS,
};
use hx_cluster::{
    Candidate, Entry, Finding, Plan, Proposal, Report, Selection, Spec, Target, Throttled, View,
};
use hx_formed::is_well_formed;
use hx_ids::{InstanceId, MsgId, SessionId, StateId};
use hx_lists::Seq;
use hx_model::{DROPPED, ERROR};
use hx_parts::ViewIndex;
use hx_pass::{Planner, draft, plan};
use hx_report::report;
use hx_select::{accepted_on, select};
use hx_throttle::{sent_on, throttle};
use std::alloc::Global;
use std::process::Abort;

/// A proposal to a session about a partition, and its transition.
type Move = (SessionId, u32, StateId, StateId);

/// What is found of a target.
#[derive(Clone, Copy, Debug, PartialEq)]
enum Found<'a> {
    Failed,
    Pending(MsgId),
    AtBest,
    Sent,
    /// By the rule of this number, with its load and its limit.
    Held(u32, u32, u32),
    /// The transition, how many have its end and how many may, and which have it.
    Full(StateId, StateId, u32, u32, &'a [SessionId]),
}

/// A view, what is proposed, and what is found of the targets of partitions on instances.
struct Worked {
    shown: Case,
    moves: &'static [Move],
    found: &'static [(u32, InstanceId, Found<'static>)],
}

const M4: MsgId = MsgId(4);

const P: StateId = StateId(8);

const Q: StateId = StateId(9);

/// Three sessions without replicas.
const OPENING: Case = Case {
    live: &[(S1, N1), (S2, N2), (S3, N3)],
    ..EMPTY
};

const N1_DRAINED: [bool; 3] = [true, false, false];

/// A master and two slaves, then a drain of the master.
static SETTLES: &[Worked] = &[
    Worked {
        shown: Case {
            text: THREE_REPLICAS,
            ..OPENING
        },
        moves: &[
            (S1, 0, OFFLINE, SLAVE),
            (S2, 0, OFFLINE, SLAVE),
            (S3, 0, OFFLINE, SLAVE),
        ],
        found: &[
            (0, N1, Found::Sent),
            (0, N2, Found::Sent),
            (0, N3, Found::Sent),
        ],
    },
    Worked {
        shown: Case {
            text: THREE_REPLICAS,
            rows: &[(S1, 0, SLAVE), (S2, 0, SLAVE), (S3, 0, SLAVE)],
            ..OPENING
        },
        moves: &[(S1, 0, SLAVE, MASTER)],
        found: &[
            (0, N1, Found::Sent),
            (0, N2, Found::AtBest),
            (0, N3, Found::AtBest),
        ],
    },
    Worked {
        shown: Case {
            text: THREE_REPLICAS,
            rows: &[(S1, 0, MASTER), (S2, 0, SLAVE), (S3, 0, SLAVE)],
            ..OPENING
        },
        moves: &[],
        found: &[
            (0, N1, Found::AtBest),
            (0, N2, Found::AtBest),
            (0, N3, Found::AtBest),
        ],
    },
    Worked {
        shown: Case {
            text: THREE_REPLICAS,
            drained: N1_DRAINED,
            rows: &[(S1, 0, MASTER), (S2, 0, SLAVE), (S3, 0, SLAVE)],
            ..OPENING
        },
        moves: &[(S1, 0, MASTER, SLAVE)],
        found: &[
            (0, N1, Found::Sent),
            (0, N2, Found::Full(SLAVE, MASTER, 1, 1, &[S1])),
            (0, N3, Found::AtBest),
        ],
    },
    Worked {
        shown: Case {
            text: THREE_REPLICAS,
            drained: N1_DRAINED,
            rows: &[(S1, 0, SLAVE), (S2, 0, SLAVE), (S3, 0, SLAVE)],
            ..OPENING
        },
        moves: &[(S2, 0, SLAVE, MASTER), (S1, 0, SLAVE, OFFLINE)],
        found: &[
            (0, N1, Found::Sent),
            (0, N2, Found::Sent),
            (0, N3, Found::AtBest),
        ],
    },
];

/// A view whose mail is older than its rows; a replica in ERROR, and its way back; a resource that
/// is dropped.
static TURNS: &[Worked] = &[
    Worked {
        shown: Case {
            text: SECOND_FIRST,
            rows: &[(S1, 0, MASTER), (S2, 0, SLAVE), (S3, 0, SLAVE)],
            mail: &[(S1, 0, SLAVE, MASTER)],
            ..OPENING
        },
        moves: &[],
        found: &[
            (0, N1, Found::Pending(M4)),
            (0, N2, Found::Full(SLAVE, MASTER, 1, 1, &[S1])),
            (0, N3, Found::AtBest),
        ],
    },
    Worked {
        shown: Case {
            text: THREE_REPLICAS,
            rows: &[(S1, 0, ERROR), (S2, 0, SLAVE), (S3, 0, SLAVE)],
            ..OPENING
        },
        moves: &[(S2, 0, SLAVE, MASTER)],
        found: &[
            (0, N1, Found::Failed),
            (0, N2, Found::Sent),
            (0, N3, Found::AtBest),
        ],
    },
    Worked {
        shown: Case {
            text: THREE_REPLICAS,
            rows: &[(S1, 0, ERROR), (S2, 0, MASTER), (S3, 0, SLAVE)],
            resets: &[S1],
            ..OPENING
        },
        moves: &[(S1, 0, ERROR, OFFLINE)],
        found: &[
            (0, N1, Found::Sent),
            (0, N2, Found::AtBest),
            (0, N3, Found::AtBest),
        ],
    },
    Worked {
        shown: Case {
            text: THREE_REPLICAS,
            rows: &[(S1, 0, OFFLINE), (S2, 0, MASTER), (S3, 0, SLAVE)],
            ..OPENING
        },
        moves: &[(S2, 0, MASTER, SLAVE), (S1, 0, OFFLINE, SLAVE)],
        found: &[
            (0, N1, Found::Sent),
            (0, N2, Found::Sent),
            (0, N3, Found::AtBest),
        ],
    },
    Worked {
        shown: Case {
            text: THREE_REPLICAS,
            live: &[(S1, N1)],
            dropped: true,
            mail: &[(S1, 0, OFFLINE, SLAVE)],
            ..OPENING
        },
        moves: &[],
        found: &[(0, N1, Found::Pending(M4))],
    },
    Worked {
        shown: Case {
            text: THREE_REPLICAS,
            live: &[(S1, N1)],
            dropped: true,
            rows: &[(S1, 0, SLAVE)],
            ..OPENING
        },
        moves: &[(S1, 0, SLAVE, OFFLINE)],
        found: &[(0, N1, Found::Sent)],
    },
    Worked {
        shown: Case {
            text: THREE_REPLICAS,
            live: &[(S1, N1)],
            dropped: true,
            rows: &[(S1, 0, OFFLINE)],
            ..OPENING
        },
        moves: &[(S1, 0, OFFLINE, DROPPED)],
        found: &[(0, N1, Found::Sent)],
    },
];

/// Bounds: one that those accepted before fill, two replicas that wait for each other, and two
/// masters in a map.
static BOUNDS: &[Worked] = &[
    Worked {
        shown: Case {
            text: SWAP,
            ..OPENING
        },
        moves: &[(S1, 0, OFFLINE, Q), (S2, 0, OFFLINE, Q)],
        found: &[
            (0, N1, Found::Sent),
            (0, N2, Found::Sent),
            (0, N3, Found::Full(OFFLINE, Q, 2, 2, &[S1, S2])),
        ],
    },
    Worked {
        shown: Case {
            text: SWAPPED,
            rows: &[(S1, 0, P), (S2, 0, Q), (S3, 0, Q)],
            ..OPENING
        },
        moves: &[],
        found: &[
            (0, N1, Found::Full(P, Q, 2, 2, &[S2, S3])),
            (0, N2, Found::Full(Q, P, 1, 1, &[S1])),
            (0, N3, Found::AtBest),
        ],
    },
    Worked {
        shown: Case {
            text: TWO_MASTERS,
            live: &[(S1, N1), (S2, N2)],
            rows: &[(S1, 0, MASTER), (S2, 0, SLAVE)],
            ..OPENING
        },
        moves: &[],
        found: &[
            (0, N1, Found::AtBest),
            (0, N2, Found::Full(SLAVE, MASTER, 1, 1, &[S1])),
        ],
    },
];

/// Throttles: none, one by instance before and after its first message, three of which the first one
/// is told, and every finding at once.
static THROTTLES: &[Worked] = &[
    Worked {
        shown: Case {
            text: NO_RULES,
            ..OPENING
        },
        moves: &[
            (S1, 0, OFFLINE, ONLINE),
            (S2, 0, OFFLINE, ONLINE),
            (S3, 1, OFFLINE, ONLINE),
            (S1, 1, OFFLINE, ONLINE),
            (S2, 2, OFFLINE, ONLINE),
            (S3, 2, OFFLINE, ONLINE),
        ],
        found: &[
            (0, N1, Found::Sent),
            (0, N2, Found::Sent),
            (1, N1, Found::Sent),
            (1, N3, Found::Sent),
            (2, N2, Found::Sent),
            (2, N3, Found::Sent),
        ],
    },
    Worked {
        shown: Case {
            text: THROTTLED,
            live: &[(S1, N1)],
            ..OPENING
        },
        moves: &[(S1, 0, OFFLINE, ONLINE)],
        found: &[
            (0, N1, Found::Sent),
            (1, N1, Found::Held(0, 1, 1)),
            (2, N1, Found::Held(0, 1, 1)),
            (3, N1, Found::Held(0, 1, 1)),
        ],
    },
    Worked {
        shown: Case {
            text: THROTTLED,
            live: &[(S1, N1)],
            rows: &[(S1, 0, ONLINE)],
            mail: &[(S1, 1, OFFLINE, ONLINE)],
            ..OPENING
        },
        moves: &[],
        found: &[
            (0, N1, Found::AtBest),
            (1, N1, Found::Pending(M4)),
            (2, N1, Found::Held(0, 1, 1)),
            (3, N1, Found::Held(0, 1, 1)),
        ],
    },
    Worked {
        shown: Case {
            text: RULES,
            rows: &[(S2, 1, ONLINE), (S3, 0, ONLINE)],
            ..OPENING
        },
        moves: &[
            (S1, 0, OFFLINE, ONLINE),
            (S3, 0, ONLINE, OFFLINE),
            (S2, 2, OFFLINE, ONLINE),
        ],
        found: &[
            (0, N1, Found::Sent),
            (0, N2, Found::Full(OFFLINE, ONLINE, 2, 2, &[S1, S3])),
            (0, N3, Found::Sent),
            (1, N1, Found::Full(OFFLINE, ONLINE, 2, 2, &[S2, S3])),
            (1, N2, Found::Held(0, 1, 1)),
            (1, N3, Found::Held(2, 1, 1)),
            (2, N2, Found::Sent),
            (2, N3, Found::Held(1, 3, 3)),
        ],
    },
    Worked {
        shown: Case {
            text: MIXED,
            rows: &[
                (S1, 0, ERROR),
                (S2, 0, SLAVE),
                (S3, 0, SLAVE),
                (S1, 1, SLAVE),
                (S2, 1, MASTER),
            ],
            mail: &[(S2, 0, SLAVE, MASTER)],
            ..OPENING
        },
        moves: &[(S3, 1, OFFLINE, SLAVE)],
        found: &[
            (0, N1, Found::Failed),
            (0, N2, Found::Pending(M4)),
            (0, N3, Found::AtBest),
            (1, N1, Found::Full(SLAVE, MASTER, 1, 1, &[S2])),
            (1, N2, Found::Held(0, 1, 1)),
            (1, N3, Found::Sent),
        ],
    },
];

fn selected(
    rt: &impl Abort,
    alloc: Global,
    spec: &Spec,
    view: &View,
    candidates: &[Candidate],
) -> Selection {
    let Ok(selection) = select(alloc, spec, view, candidates) else {
        panic!(rt; "no memory");
    };
    selection
}

/// The candidates that are accepted, with no word of the others.
fn accepted(
    rt: &impl Abort,
    alloc: Global,
    spec: &Spec,
    view: &View,
    candidates: &[Candidate],
) -> Seq<Candidate>
    requires { IsByPart (λ c. c.part) candidates.now }
{
    let Ok(index) = ViewIndex::new(alloc, view) else {
        panic!(rt; "no memory");
    };
    let Ok(accepted) = accepted_on(alloc, spec.models.as_slice(), &index, candidates) else {
        panic!(rt; "no memory");
    };
    accepted
}

fn throttled(
    rt: &impl Abort,
    alloc: Global,
    spec: &Spec,
    view: &View,
    accepted: &[Candidate],
) -> Throttled {
    let Ok(throttled) = throttle(alloc, spec, view, accepted) else {
        panic!(rt; "no memory");
    };
    throttled
}

fn sent(
    rt: &impl Abort,
    alloc: Global,
    spec: &Spec,
    view: &View,
    accepted: &[Candidate],
) -> Seq<Candidate> {
    let Ok(sent) = sent_on(alloc, spec.rules.as_slice(), view, accepted) else {
        panic!(rt; "no memory");
    };
    sent
}

fn reported(
    rt: &impl Abort,
    alloc: Global,
    targets: &[Target],
    view: &View,
    selection: &Selection,
    throttled: &Throttled,
) -> Report {
    let Ok(report) = report(alloc, targets, view, selection, throttled) else {
        panic!(rt; "no memory");
    };
    report
}

/// The report of the stages one after the other.
fn staged(rt: &impl Abort, alloc: Global, spec: &Spec, view: &View) -> Report {
    let targets = targets_of(rt, alloc, spec, view);
    let found = candidates_of(rt, alloc, spec, view, targets.as_slice());
    let selection = selected(rt, alloc, spec, view, found.as_slice());
    let accepted = accepted(rt, alloc, spec, view, found.as_slice());
    assert!(rt; accepted == selection.accepted);
    let throttled = throttled(rt, alloc, spec, view, accepted.as_slice());
    assert!(rt; sent(rt, alloc, spec, view, accepted.as_slice()) == throttled.sent);
    reported(rt, alloc, targets.as_slice(), view, &selection, &throttled)
}

fn is_formed(rt: &impl Abort, alloc: Global, spec: &Spec, view: &View) -> bool
    ensures { result ≡ is_well_formed spec.now.models (length spec.now.instances) view.now }
{
    let instances = spec.instances.len() as usize;
    let Ok(is_formed) = is_well_formed(alloc, spec.models.as_slice(), instances, view) else {
        panic!(rt; "no memory");
    };
    is_formed
}

#[tactic(auto, using(crate::proofs::Formed::modelled))]
fn planned(rt: &impl Abort, alloc: Global, spec: &Spec, view: &View) -> Plan {
    if !is_formed(rt, alloc, spec, view) {
        panic!(rt; "no view");
    }
    let hops = hops(rt, alloc, spec.models.as_slice());
    let Ok(plan) = plan(alloc, spec, hops.as_slice(), view) else {
        panic!(rt; "no memory");
    };
    plan
}

/// The plan of a draft, with its report.
#[tactic(auto, using(crate::proofs::Formed::modelled, crate::proofs::Formed::finished_as_planned))]
fn drafted(rt: &impl Abort, alloc: Global, spec: &Spec, view: &View) -> Plan {
    if !is_formed(rt, alloc, spec, view) {
        panic!(rt; "no view");
    }
    let hops = hops(rt, alloc, spec.models.as_slice());
    let Ok(draft) = draft(alloc, spec, hops.as_slice(), view) else {
        panic!(rt; "no memory");
    };
    let Ok(proposals) = draft.proposals(alloc) else {
        panic!(rt; "no memory");
    };
    let Ok(report) = draft.report(alloc, spec, hops.as_slice(), view) else {
        panic!(rt; "no memory");
    };
    Plan { proposals, report }
}

/// What a planner of one view after another proposes of a view. It posts each row, and goes by them
/// with the next view.
fn planned_again(
    rt: &impl Abort,
    alloc: Global,
    spec: &Spec,
    view: &mut View,
    planner: &mut Planner,
) -> Seq<Proposal> {
    let hops = hops(rt, alloc, spec.models.as_slice());
    let Ok(Some(draft)) = planner.draft(alloc, spec, hops.as_slice(), view) else {
        panic!(rt; "no plan");
    };
    let Ok(proposals) = draft.proposals(alloc) else {
        panic!(rt; "no memory");
    };
    expect(rt, &planner.posted().len(), &view.rows.len());
    planner.hold(view);
    proposals
}

/// What a planner proposes of the view that it planned last.
fn planned_twice(rt: &impl Abort, alloc: Global, spec: &Spec, view: &View) -> Seq<Proposal> {
    let hops = hops(rt, alloc, spec.models.as_slice());
    let mut planner = Planner::new();
    let Ok(Some(_)) = planner.draft(alloc, spec, hops.as_slice(), view) else {
        panic!(rt; "no plan");
    };
    let Ok(Some(draft)) = planner.draft_again(alloc, spec, hops.as_slice(), view) else {
        panic!(rt; "no plan");
    };
    let Ok(proposals) = draft.proposals(alloc) else {
        panic!(rt; "no memory");
    };
    proposals
}

fn expect_move(rt: &impl Abort, proposal: &Proposal, wanted: &Move) {
    let found = (
        proposal.session,
        proposal.part.index,
        proposal.from,
        proposal.to,
    );
    expect(rt, &found, wanted);
}

fn expect_moves(rt: &impl Abort, proposals: &[Proposal], moves: &[Move]) {
    expect(rt, &proposals.len(), &moves.len());
    for (proposal, wanted) in proposals.iter().zip(moves) {
        expect_move(rt, proposal, wanted);
    }
}

fn finding_of(finding: &Finding) -> Found<'_> {
    match finding {
        Finding::Failed => Found::Failed,
        Finding::Pending(id) => Found::Pending(*id),
        Finding::AtBest => Found::AtBest,
        Finding::Sent => Found::Sent,
        Finding::Held(held) => Found::Held(held.rule, held.load, held.limit),
        Finding::Full(full) => Found::Full(
            full.candidate.from,
            full.candidate.to,
            full.count,
            full.bound,
            full.holders.as_slice(),
        ),
    }
}

fn expect_entry(rt: &impl Abort, entry: &Entry, wanted: &(u32, InstanceId, Found<'_>)) {
    let target = &entry.target;
    let found = finding_of(&entry.finding);
    expect(rt, &(target.part.index, target.instance, found), wanted);
}

fn expect_found(rt: &impl Abort, report: &Report, wanted: &[(u32, InstanceId, Found<'_>)]) {
    let rest = report.entries.rest();
    assert!(rt; rest.len() <= wanted.len());
    let (front, back) = wanted.split_at(wanted.len() - rest.len());
    for (_, _, found) in front {
        expect(rt, &Found::AtBest, found);
    }
    for (entry, wanted) in rest.iter().zip(back) {
        expect_entry(rt, entry, wanted);
    }
}

fn expect_stages(rt: &impl Abort, alloc: Global, spec: &Spec, view: &View, worked: &Worked) {
    let found = staged(rt, alloc, spec, view);
    expect_found(rt, &found, worked.found);
}

fn expect_plan(rt: &impl Abort, plan: &Plan, worked: &Worked) {
    expect_found(rt, &plan.report, worked.found);
    expect_moves(rt, plan.proposals.as_slice(), worked.moves);
}

fn expect_plans(rt: &impl Abort, alloc: Global, spec: &Spec, view: &View, worked: &Worked) {
    expect_stages(rt, alloc, spec, view, worked);
    expect_plan(rt, &planned(rt, alloc, spec, view), worked);
    expect_plan(rt, &drafted(rt, alloc, spec, view), worked);
    let twice = planned_twice(rt, alloc, spec, view);
    expect_moves(rt, twice.as_slice(), worked.moves);
}

fn expect_all(rt: &impl Abort, alloc: Global, table: &[Worked]) {
    let mut planner = Planner::new();
    for worked in table {
        let spec = described(rt, alloc, worked.shown.text);
        let mut view = view(rt, alloc, &spec, &worked.shown);
        expect_plans(rt, alloc, &spec, &view, worked);
        let again = planned_again(rt, alloc, &spec, &mut view, &mut planner);
        expect_moves(rt, again.as_slice(), worked.moves);
    }
}

#[test]
fn plans_settle(rt: HostRuntime) {
    expect_all(&rt, rt.alloc(), SETTLES);
}

#[test]
fn plans_wait_and_lead_back(rt: HostRuntime) {
    expect_all(&rt, rt.alloc(), TURNS);
}

#[test]
fn plans_keep_the_bounds(rt: HostRuntime) {
    expect_all(&rt, rt.alloc(), BOUNDS);
}

#[test]
fn plans_keep_the_throttles(rt: HostRuntime) {
    expect_all(&rt, rt.alloc(), THROTTLES);
}
