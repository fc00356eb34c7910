//! Steps on a board, and why they are refused.
use crate::tests::boards::fixtures::{C1, C2, E1, OLD, WEB};
use crate::tests::boards::reads::Read;
use crate::tests::boards::scripts::{Act, play};
use crate::tests::boards::tables::{Step, Told, expect_step};
use crate::tests::fixtures::{DB, N1, N2, N3, ONLINE, S1, S2, S3, SLAVE};
use hx_board::Board;
use hx_cluster::StepFault;
use hx_ideal::IdealFault;
use hx_ids::{ResourceId, SessionId};
use std::alloc::Global;
use std::process::Abort;

static EXPIRY: &[(Step, Told)] = &[
    (Step::Join(N1), Told::Joined(S1)),
    (Step::Join(N2), Told::Joined(S2)),
    (Step::Tick(10), Told::Ended(None, None)),
    (Step::Beat(N2), Told::Done),
    (Step::Tick(19), Told::Ended(None, None)),
    (Step::Tick(1), Told::Ended(Some(S1), None)),
    (Step::Tick(10), Told::Ended(Some(S2), None)),
    (Step::Join(N2), Told::Joined(S3)),
    (Step::Join(N1), Told::Joined(SessionId(4))),
    (Step::Beat(N2), Told::Done),
    (Step::Tick(30), Told::Ended(Some(SessionId(4)), Some(S3))),
];

static EXPIRED: &[Read] = &[Read::Session(N1, None), Read::Weight(15)];

#[test]
fn sessions_end_in_order_of_their_last_beat(rt: HostRuntime) {
    let acts = [Act::Steps(EXPIRY), Act::Reads(EXPIRED)];
    play(&rt, rt.alloc(), (0, 1000), &acts);
}

const LED: StepFault = StepFault::LedBy {
    controller: C1,
    epoch: E1,
};

static NODES: &[(Step, Told)] = &[
    (Step::End(N1), Told::Fault(StepFault::NotLive)),
    (Step::Beat(N1), Told::Fault(StepFault::NotLive)),
    (Step::Reset(N1, 0), Told::Fault(StepFault::NotLive)),
    (Step::Join(N1), Told::Joined(S1)),
    (
        Step::Join(N1),
        Told::Fault(StepFault::AlreadyLive { session: S1 }),
    ),
    (Step::End(N1), Told::Done),
    (Step::Undrain(N3), Told::Fault(StepFault::AlreadySo)),
    (Step::Drain(N3), Told::Done),
    (Step::Drain(N3), Told::Fault(StepFault::AlreadySo)),
    (Step::Undrain(N3), Told::Done),
    (Step::Start(C2), Told::Fault(StepFault::AlreadySo)),
    (Step::Stop(C2), Told::Done),
    (Step::Stop(C2), Told::Fault(StepFault::AlreadySo)),
    (Step::Lead(C2), Told::Fault(StepFault::ControllerDown)),
    (Step::Start(C2), Told::Done),
    (Step::Lead(C1), Told::Leads(E1)),
    (Step::Lead(C2), Told::Fault(LED)),
    (Step::Tick(1), Told::Ended(None, None)),
    (Step::Tick(u64::MAX), Told::Fault(StepFault::ClockEnd)),
];

static LED_BY: &[Read] = &[Read::Leader(Some(C1)), Read::Drained(N3, false)];

#[test]
fn steps_of_instances_and_controllers_are_refused(rt: HostRuntime) {
    let acts = [Act::Steps(NODES), Act::Reads(LED_BY)];
    play(&rt, rt.alloc(), (0, 1000), &acts);
}

static RESOURCES: &[(Step, Told)] = &[
    (
        Step::List(DB, 0),
        Told::Fault(StepFault::Ideal(IdealFault::TwiceInList { part: 0, place: 1 })),
    ),
    (
        Step::List(DB, 1),
        Told::Fault(StepFault::NoPart { parts: 1 }),
    ),
    (Step::List(WEB, 0), Told::Fault(StepFault::WrongMode)),
    (
        Step::Map(OLD, SLAVE),
        Told::Fault(StepFault::Ideal(IdealFault::UnknownState { part: 0, place: 0 })),
    ),
    (Step::Map(OLD, ONLINE), Told::Done),
    (
        Step::Add,
        Told::Fault(StepFault::NameInUse { resource: OLD }),
    ),
    (Step::Drop(OLD), Told::Done),
    (Step::Drop(OLD), Told::Fault(StepFault::AlreadyDropped)),
    (
        Step::Map(OLD, ONLINE),
        Told::Fault(StepFault::ResourceDropped),
    ),
    (Step::Add, Told::Added(ResourceId(3))),
    (Step::Drop(ResourceId(3)), Told::Done),
];

static NEWEST: &[Read] = &[
    Read::Newest(2, Some(ResourceId(3))),
    Read::Newest(1, Some(WEB)),
];

#[test]
fn steps_of_resources_are_refused(rt: HostRuntime) {
    let acts = [Act::Steps(RESOURCES), Act::Reads(NEWEST)];
    play(&rt, rt.alloc(), (0, 2000), &acts);
}

/// Adds a resource, and drops it.
fn add(rt: &impl Abort, board: &mut Board, alloc: Global, n: u32) {
    let resource = ResourceId(n);
    expect_step(rt, board, alloc, Step::Add, Told::Added(resource));
    expect_step(rt, board, alloc, Step::Drop(resource), Told::Done);
}

/// Adds each resource that may yet be added, and drops it.
pub fn fill(rt: &impl Abort, board: &mut Board, alloc: Global) {
    for n in 3u32..256 {
        add(rt, board, alloc, n);
    }
}

static DROPPED: &[(Step, Told)] = &[(Step::Drop(OLD), Told::Done)];

static FULL: &[(Step, Told)] = &[(Step::Add, Told::Fault(StepFault::TooMany))];

#[test]
fn resources_come_to_an_end(rt: HostRuntime) {
    let acts = [Act::Steps(DROPPED), Act::Fill, Act::Steps(FULL)];
    play(&rt, rt.alloc(), (0, 2000), &acts);
}

static BEATS: &[(Step, Told)] = &[
    (Step::Join(N1), Told::Joined(S1)),
    (Step::Join(N2), Told::Joined(S2)),
    (Step::Beat(N1), Told::Done),
];

static LIVE: &[Read] = &[
    Read::Roster((Some(S2), Some(S1))),
    Read::Shown((Some(S1), Some(S2))),
];

#[test]
fn live_sessions_are_told_by_beat_and_by_instance(rt: HostRuntime) {
    let acts = [Act::Steps(BEATS), Act::Reads(LIVE)];
    play(&rt, rt.alloc(), (0, 1000), &acts);
}
