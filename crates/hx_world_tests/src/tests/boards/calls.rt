//! The calls of controllers and instances, and why they are refused.
use crate::tests::boards::fixtures::{C1, C2, E1, M1, M2, M9, OLD, P1, S9, SMALL, WEB};
use crate::tests::boards::reads::Read;
use crate::tests::boards::scripts::{Act, play};
use crate::tests::boards::tables::{Call, Move, Step, Told};
use crate::tests::fixtures::{
    DB, DB0, MASTER, N1, N2, N3, OFFLINE, ONLINE, S1, S2, S3, SLAVE, described,
};
use hx_board::Board;
use hx_cluster::{
    AckFault, Begun, Outcome, Placed, Seen, Spec, StepFault, TakeFault, WriteRefusal,
};
use hx_ids::{Epoch, MsgId, PartId, PassNo, ResourceId};
use hx_model::ERROR;
use std::alloc::Global;
use std::process::Abort;

/// The first session's replica of `db` becomes a slave.
const SLAVED: Move = (S1, DB, 0, OFFLINE, SLAVE);

const SEEN: Seen = Seen {
    instance: N1,
    part: PartId {
        resource: WEB,
        index: 0,
    },
    state: ONLINE,
};

static PASSES: &[(Call, Told)] = &[
    (Call::Begin(C1), Told::NotLeader(None)),
    (Call::Step(Step::Lead(C1)), Told::Leads(E1)),
    (Call::Begin(C2), Told::NotLeader(Some(C1))),
    (
        Call::Begin(C1),
        Told::Begun(Begun {
            epoch: E1,
            pass: P1,
            change: 0,
        }),
    ),
    (Call::Live(PassNo(2)), Told::OldPass(P1)),
    (Call::Mail(PassNo(2), S1), Told::OldPass(P1)),
    (Call::States(PassNo(2), S1), Told::OldPass(P1)),
    (Call::Ideals(PassNo(0)), Told::OldPass(P1)),
    (Call::Live(P1), Told::Items(0)),
    (Call::Mail(P1, S1), Told::Items(0)),
    (Call::States(P1, S1), Told::Items(0)),
    (Call::Ideals(P1), Told::Items(3)),
    (Call::Send(Epoch(2), PassNo(0), SLAVED), Told::Fenced(E1)),
    (Call::Send(E1, PassNo(0), SLAVED), Told::OldPass(P1)),
    (Call::Post(Epoch(2), SEEN), Told::Fenced(E1)),
    (Call::Post(E1, SEEN), Told::Items(1)),
];

static LED: &[Read] = &[Read::Leader(Some(C1)), Read::Weight(8)];

static UNPOSTED: &[Read] = &[Read::Posted(0)];

#[test]
fn passes_and_epochs_are_fenced(rt: HostRuntime) {
    let acts = [Act::Reads(UNPOSTED), Act::Calls(PASSES), Act::Reads(LED)];
    play(&rt, rt.alloc(), (0, 1000), &acts);
}

static ENTERED: &[Read] = &[Read::Entries(7)];

#[test]
fn histories_have_the_calls_that_were_answered(rt: HostRuntime) {
    let acts = [Act::Calls(PASSES), Act::Reads(ENTERED)];
    play(&rt, rt.alloc(), (0, 1000), &acts);
}

static AGAIN: &[(Call, Told)] = &[
    (Call::Step(Step::Lead(C1)), Told::Leads(E1)),
    (
        Call::Begin(C1),
        Told::Begun(Begun {
            epoch: E1,
            pass: P1,
            change: 0,
        }),
    ),
    (Call::IdealsAgain(P1), Told::Items(3)),
];

#[test]
fn ideals_are_the_same_again(rt: HostRuntime) {
    play(&rt, rt.alloc(), (0, 1000), &[Act::Calls(AGAIN)]);
}

static FULL: &[Read] = &[Read::Weight(3), Read::Charged(0)];

static LITTLE_ROOM: &[(Call, Told)] = &[
    (Call::Step(Step::Join(N1)), Told::Joined(S1)),
    (Call::Step(Step::Lead(C1)), Told::Leads(E1)),
    (Call::Begin(C1), Told::Full(3)),
    (Call::Begin(C2), Told::NotLeader(Some(C1))),
    (Call::Live(PassNo(0)), Told::Full(3)),
    (Call::Mail(PassNo(0), S1), Told::Full(3)),
    (Call::States(PassNo(0), S1), Told::Full(3)),
    (Call::Ideals(PassNo(0)), Told::Full(3)),
    // The session's end was paid for by its join.
    (Call::Send(E1, PassNo(0), SLAVED), Told::Full(3)),
    (Call::Post(E1, SEEN), Told::Full(3)),
    (Call::Fetch(N1), Told::Full(3)),
    (Call::Line, Told::Full(3)),
    (Call::Charge(1), Told::Full(3)),
    (Call::Step(Step::Drain(N1)), Told::Full(3)),
    (Call::Step(Step::End(N1)), Told::Done),
    (Call::Charge(0), Told::Done),
];

#[test]
fn calls_without_room_are_refused(rt: HostRuntime) {
    let acts = [Act::Calls(LITTLE_ROOM), Act::Reads(FULL)];
    play(&rt, rt.alloc(), (2, 3), &acts);
}

static LINES: &[(Call, Told)] = &[
    (Call::Line, Told::Line(Some(2))),
    (Call::Charge(2), Told::Full(1)),
    (Call::Charge(1), Told::Done),
    (Call::Line, Told::Line(None)),
    (Call::Charge(1), Told::Full(2)),
];

static TAKEN: &[Read] = &[Read::Weight(2), Read::Charged(1)];

#[test]
fn lines_are_taken_to_their_end(rt: HostRuntime) {
    let acts = [Act::Calls(LINES), Act::Reads(TAKEN)];
    play(&rt, rt.alloc(), (1, 2), &acts);
}

fn same(board: &Board, spec: &Spec, line: u32, limit: u64) -> bool {
    board.same(spec, &[line], limit)
}

fn expect_same(rt: &impl Abort, board: &Board, spec: &Spec) {
    assert!(rt; same(board, spec, 2, 2));
    assert!(rt; !same(board, spec, 3, 2));
    assert!(rt; !same(board, spec, 2, 3));
}

pub fn expect_made_small(rt: &impl Abort, board: &Board, alloc: Global) {
    let spec = described(rt, alloc, SMALL);
    expect_same(rt, board, &spec);
}

#[test]
fn boards_tell_what_they_were_made_with(rt: HostRuntime) {
    play(&rt, rt.alloc(), (1, 2), &[Act::MadeSmall]);
}

pub fn expect_not_demo(rt: &impl Abort, board: &Board, alloc: Global) {
    let demo = described(rt, alloc, "builtin demo\n---\n");
    assert!(rt; !board.of_spec(&demo));
}

#[test]
fn boards_are_of_one_description(rt: HostRuntime) {
    play(&rt, rt.alloc(), (0, 1), &[Act::NotDemo]);
}

static PROPOSED: &[(Call, Told)] = &[
    (Call::Step(Step::Join(N1)), Told::Joined(S1)),
    (Call::Step(Step::Join(N2)), Told::Joined(S2)),
    (Call::Step(Step::Join(N3)), Told::Joined(S3)),
    (Call::Step(Step::Drop(OLD)), Told::Done),
    // Each pass ends with its dispatch.
    (
        Call::Send(E1, PassNo(0), (S9, DB, 0, OFFLINE, SLAVE)),
        Told::Placed(Some(Placed::Ended)),
    ),
    (
        Call::Send(E1, PassNo(1), (S1, OLD, 0, OFFLINE, ONLINE)),
        Told::Placed(Some(Placed::ResourceDropped)),
    ),
    (
        Call::Send(E1, PassNo(2), SLAVED),
        Told::Placed(Some(Placed::Sent(M1))),
    ),
    (
        Call::Send(E1, PassNo(3), SLAVED),
        Told::Placed(Some(Placed::Busy { id: M1 })),
    ),
    (
        Call::Send(E1, PassNo(4), (S2, DB, 0, SLAVE, MASTER)),
        Told::Placed(Some(Placed::WrongFrom { has: None })),
    ),
    (
        Call::Send(E1, PassNo(5), (S2, DB, 0, OFFLINE, MASTER)),
        Told::Placed(Some(Placed::Illegal)),
    ),
    (
        Call::Send(E1, PassNo(6), (S2, WEB, 0, OFFLINE, ONLINE)),
        Told::Placed(Some(Placed::Sent(M2))),
    ),
    (
        Call::Send(E1, PassNo(7), (S3, WEB, 0, OFFLINE, ONLINE)),
        Told::Placed(Some(Placed::OverBound { count: 1, bound: 1 })),
    ),
    (
        Call::Send(E1, PassNo(8), (S2, WEB, 1, OFFLINE, ONLINE)),
        Told::Placed(Some(Placed::Sent(MsgId(3)))),
    ),
    (
        Call::Send(E1, PassNo(9), (S2, WEB, 2, OFFLINE, ONLINE)),
        Told::Placed(Some(Placed::OverThrottle {
            rule: 0,
            load: 2,
            limit: 2,
        })),
    ),
    (Call::Fetch(N1), Told::Items(1)),
    (Call::Fetch(N2), Told::Items(2)),
];

static SENT: &[Read] = &[
    Read::Message(S1, DB0, Some(M1)),
    Read::Message(S3, DB0, None),
];

/// Of the first session, which has a message; of another one; and of one that isn't live.
static WRITTEN: &[(Call, Told)] = &[
    (
        Call::Write(S9, M1, Outcome::Ok),
        Told::Unwritten(WriteRefusal::SessionEnded),
    ),
    (
        Call::Write(S1, M9, Outcome::Ok),
        Told::Unwritten(WriteRefusal::NoMessage),
    ),
    (
        Call::Write(S1, M1, Outcome::Ok),
        Told::Unwritten(WriteRefusal::NotTaken),
    ),
    (Call::Take(S9, M1), Told::Untaken(TakeFault::SessionEnded)),
    (Call::Take(S1, M9), Told::Untaken(TakeFault::NoMessage)),
    (Call::Take(S1, M1), Told::Done),
    (Call::Take(S1, M1), Told::Untaken(TakeFault::AlreadyTaken)),
    (
        Call::Ack(S1, M1),
        Told::Unacknowledged(AckFault::NotWritten),
    ),
    (Call::Write(S1, M1, Outcome::Failed), Told::Done),
    (
        Call::Write(S1, M1, Outcome::Ok),
        Told::Unwritten(WriteRefusal::AlreadyWritten),
    ),
    (
        Call::Ack(S9, M1),
        Told::Unacknowledged(AckFault::SessionEnded),
    ),
    (Call::Ack(S1, M9), Told::Unacknowledged(AckFault::NoMessage)),
    (Call::Ack(S1, M1), Told::Done),
    (Call::Ack(S1, M1), Told::Unacknowledged(AckFault::NoMessage)),
    (
        Call::Step(Step::Reset(N2, 0)),
        Told::Fault(StepFault::NotError { state: None }),
    ),
    (Call::Step(Step::Reset(N1, 0)), Told::Done),
    (
        Call::Step(Step::Reset(N1, 0)),
        Told::Fault(StepFault::AlreadyAsked),
    ),
];

static RAN: &[Read] = &[
    Read::Message(S1, DB0, None),
    Read::Row(S1, DB0, Some(ERROR)),
    Read::Row(S2, DB0, None),
    Read::Rows(S1, 1),
    Read::Rows(S2, 0),
    Read::Resource(WEB, Some(1)),
    Read::Resource(ResourceId(3), None),
    Read::Weight(60),
];

#[test]
fn proposals_and_messages_get_the_first_answer_that_fits(rt: HostRuntime) {
    let acts = [
        Act::Calls(PROPOSED),
        Act::Reads(SENT),
        Act::Calls(WRITTEN),
        Act::Reads(RAN),
    ];
    play(&rt, rt.alloc(), (0, 1000), &acts);
}

fn movable<T: Send>() {}

#[test]
fn boards_go_to_other_threads() {
    movable::<Board>();
}
