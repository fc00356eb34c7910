//! Calls of a board as values, and what they answer.
use crate::tests::boards::fixtures::C1;
use crate::tests::fixtures::{DB, N2, expect, part};
use hx_board::{
    BeginFault, Board, BoardFault, DispatchRefusal, HistoryFull, PostRefusal, ReadRefusal,
    RoomFault,
};
use hx_cluster::{
    AckFault, Admin, Begun, Did, Dispatched, Ideals, Outcome, Placed, Proposal, Seen, StepFault,
    TakeFault, WriteRefusal,
};
use hx_ideal::{Ideal, Mode};
use hx_ids::{
    ControllerId, Epoch, InstanceId, ModelId, MsgId, PartId, PassNo, ResourceId, SessionId, StateId,
};
use hx_lists::Seq;
use std::alloc::{AllocError, Global};
use std::process::Abort;

/// A step by what it tells. A list has the second instance twice, a map has it once, and an added
/// resource has the name of the third and two partitions.
#[derive(Clone, Copy)]
pub enum Step {
    Join(InstanceId),
    End(InstanceId),
    Beat(InstanceId),
    Tick(u64),
    Drain(InstanceId),
    Undrain(InstanceId),
    Add,
    Drop(ResourceId),
    List(ResourceId, u32),
    Map(ResourceId, StateId),
    Reset(InstanceId, u32),
    Lead(ControllerId),
    Stop(ControllerId),
    Start(ControllerId),
}

/// A proposal to a session about a partition of a resource, and its transition.
pub type Move = (SessionId, ResourceId, u32, StateId, StateId);

#[derive(Clone, Copy)]
pub enum Call {
    Step(Step),
    Line,
    Charge(u64),
    Begin(ControllerId),
    Live(PassNo),
    Mail(PassNo, SessionId),
    States(PassNo, SessionId),
    Ideals(PassNo),
    IdealsAgain(PassNo),
    Send(Epoch, PassNo, Move),
    Post(Epoch, Seen),
    Fetch(InstanceId),
    Take(SessionId, MsgId),
    Write(SessionId, MsgId, Outcome),
    Ack(SessionId, MsgId),
}

#[derive(Clone, Copy, Debug, PartialEq)]
pub enum Told {
    Done,
    Joined(SessionId),
    Ended(Option<SessionId>, Option<SessionId>),
    Added(ResourceId),
    Leads(Epoch),
    Line(Option<u32>),
    Begun(Begun),
    /// A read or a fetch showed so many items.
    Items(usize),
    /// What became of the only proposal.
    Placed(Option<Placed>),
    Fault(StepFault),
    NotLeader(Option<ControllerId>),
    OldPass(PassNo),
    Fenced(Epoch),
    Untaken(TakeFault),
    Unwritten(WriteRefusal),
    Unacknowledged(AckFault),
    Full(u64),
    NoMemory,
}

/// A fault counts as want of memory.
fn added() -> Result<Admin, AllocError> {
    let Ok(ideal) = Ideal::check(1, 2, Mode::Full, 3, &[]) else {
        return Err(AllocError);
    };
    Ok(Admin::Add {
        name: 2,
        model: ModelId(1),
        ideal,
    })
}

fn listed(alloc: Global, resource: ResourceId, index: u32) -> Result<Admin, AllocError> {
    Ok(Admin::SetList {
        part: part(resource, index),
        list: Seq::from_slice(alloc, &[N2, N2])?,
    })
}

fn mapped(alloc: Global, resource: ResourceId, state: StateId) -> Result<Admin, AllocError> {
    Ok(Admin::SetMap {
        part: part(resource, 0),
        map: Seq::from_slice(alloc, &[(N2, state)])?,
    })
}

fn admin_of(alloc: Global, step: Step) -> Result<Admin, AllocError> {
    match step {
        Step::Join(instance) => Ok(Admin::Join { instance }),
        Step::End(instance) => Ok(Admin::End { instance }),
        Step::Beat(instance) => Ok(Admin::Beat { instance }),
        Step::Tick(n) => Ok(Admin::Tick { n }),
        Step::Drain(instance) => Ok(Admin::Drain { instance }),
        Step::Undrain(instance) => Ok(Admin::Undrain { instance }),
        Step::Add => added(),
        Step::Drop(resource) => Ok(Admin::Drop { resource }),
        Step::List(resource, index) => listed(alloc, resource, index),
        Step::Map(resource, state) => mapped(alloc, resource, state),
        Step::Reset(instance, index) => Ok(Admin::Reset {
            instance,
            part: part(DB, index),
        }),
        Step::Lead(controller) => Ok(Admin::Lead { controller }),
        Step::Stop(controller) => Ok(Admin::Stop { controller }),
        Step::Start(controller) => Ok(Admin::Start { controller }),
    }
}

fn answered(did: &Did) -> Told {
    match did {
        Did::Joined(session) => Told::Joined(*session),
        Did::Ended(ended) => Told::Ended(ended.first().copied(), ended.get(1).copied()),
        Did::Added(resource) => Told::Added(*resource),
        Did::Leads(epoch) => Told::Leads(*epoch),
        Did::Done => Told::Done,
    }
}

/// A fault is the one that was told before.
fn unmade(rt: &impl Abort, told: Option<StepFault>, refusal: BoardFault) -> Told {
    match refusal {
        BoardFault::Step(fault) => {
            expect(rt, &told, &Some(fault));
            Told::Fault(fault)
        }
        BoardFault::HistoryFull { weight } => Told::Full(weight),
        BoardFault::OutOfMemory => Told::NoMemory,
    }
}

fn make_step(rt: &impl Abort, board: &mut Board, alloc: Global, asked: Step) -> Told {
    let Ok(admin) = admin_of(alloc, asked) else {
        panic!(rt; "no step");
    };
    if !board.is_in_range(&admin) {
        panic!(rt; "an id out of range");
    }
    let fault = board.refuses(&admin);
    match board.admin(&admin) {
        Ok(answer) => answered(&answer),
        Err(refusal) => unmade(rt, fault, refusal),
    }
}

fn room(fault: RoomFault) -> Told {
    match fault {
        RoomFault::HistoryFull { weight } => Told::Full(weight),
        RoomFault::OutOfMemory => Told::NoMemory,
    }
}

fn line(answer: Result<Option<u32>, RoomFault>) -> Told {
    match answer {
        Ok(line) => Told::Line(line),
        Err(fault) => room(fault),
    }
}

fn charged(answer: Result<(), HistoryFull>) -> Told {
    match answer {
        Ok(()) => Told::Done,
        Err(full) => Told::Full(full.weight),
    }
}

fn not_begun(fault: BeginFault) -> Told {
    match fault {
        BeginFault::NotLeader { led_by } => Told::NotLeader(led_by),
        BeginFault::HistoryFull { weight } => Told::Full(weight),
        BeginFault::OutOfMemory => Told::NoMemory,
    }
}

fn begin(rt: &impl Abort, board: &mut Board, c: ControllerId) -> Told {
    if !board.has_controller(c) {
        panic!(rt; "no such controller");
    }
    match board.begin(c) {
        Ok(begun) => Told::Begun(begun),
        Err(fault) => not_begun(fault),
    }
}

fn refused(refusal: ReadRefusal) -> Told {
    match refusal {
        ReadRefusal::OldPass { now } => Told::OldPass(now),
        ReadRefusal::HistoryFull { weight } => Told::Full(weight),
        ReadRefusal::OutOfMemory => Told::NoMemory,
    }
}

/// What a read of a list tells.
fn items<T: Drop>(read: Result<Vec<T>, ReadRefusal>) -> Told {
    match read {
        Ok(shown) => Told::Items(shown.len()),
        Err(refusal) => refused(refusal),
    }
}

fn ideals(read: Result<Ideals, ReadRefusal>) -> Told {
    match read {
        Ok(ideals) => Told::Items(ideals.resources.len()),
        Err(refusal) => refused(refusal),
    }
}

/// Reads the ideals over these, which are the same.
fn reread(rt: &impl Abort, board: &mut Board, pass: PassNo, mut kept: Ideals) -> Told {
    if !board.has_controller(C1) {
        panic!(rt; "no such controller");
    }
    match board.reread_ideals(C1, pass, &mut kept) {
        Ok(true) => Told::Items(kept.resources.len()),
        Ok(false) => panic!(rt; "other ideals"),
        Err(refusal) => refused(refusal),
    }
}

/// Reads the ideals, and again over these.
fn ideals_again(rt: &impl Abort, board: &mut Board, pass: PassNo) -> Told {
    if !board.has_controller(C1) {
        panic!(rt; "no such controller");
    }
    match board.read_ideals(C1, pass) {
        Ok(kept) => reread(rt, board, pass, kept),
        Err(refusal) => refused(refusal),
    }
}

fn proposal(moved: Move) -> Proposal {
    Proposal {
        session: moved.0,
        part: part(moved.1, moved.2),
        from: moved.3,
        to: moved.4,
    }
}

fn sent(answer: Result<Dispatched, DispatchRefusal>) -> Told {
    match answer {
        Ok(sent) => Told::Placed(sent.placed.first().copied()),
        Err(DispatchRefusal::Fenced { now }) => Told::Fenced(now),
        Err(DispatchRefusal::OldPass { now }) => Told::OldPass(now),
        Err(DispatchRefusal::HistoryFull { weight }) => Told::Full(weight),
        Err(DispatchRefusal::OutOfMemory) => Told::NoMemory,
    }
}

fn send(
    rt: &impl Abort,
    board: &mut Board,
    epoch: Epoch,
    pass: PassNo,
    proposals: &[Proposal],
) -> Told {
    if !board.has_controller(C1) {
        panic!(rt; "no such controller");
    }
    if !board.are_proposable(proposals) {
        panic!(rt; "an id out of range");
    }
    sent(board.dispatch(C1, epoch, pass, proposals))
}

fn unposted(refusal: PostRefusal) -> Told {
    match refusal {
        PostRefusal::Fenced { now } => Told::Fenced(now),
        PostRefusal::HistoryFull { weight } => Told::Full(weight),
        PostRefusal::OutOfMemory => Told::NoMemory,
    }
}

fn post(rt: &impl Abort, board: &mut Board, epoch: Epoch, rows: &[Seen]) -> Told {
    if !board.has_controller(C1) {
        panic!(rt; "no such controller");
    }
    if !board.are_postable(rows) {
        panic!(rt; "an id out of range");
    }
    match board.publish(C1, epoch, rows) {
        Ok(()) => Told::Items(board.posted().len()),
        Err(refusal) => unposted(refusal),
    }
}

fn fetch(rt: &impl Abort, board: &mut Board, instance: InstanceId) -> Told {
    if !board.has_instance(instance) {
        panic!(rt; "no such instance");
    }
    match board.fetch(instance) {
        Ok(mail) => Told::Items(mail.messages.len()),
        Err(fault) => room(fault),
    }
}

fn taken(answer: Result<(), TakeFault>) -> Told {
    match answer {
        Ok(()) => Told::Done,
        Err(fault) => Told::Untaken(fault),
    }
}

fn written(answer: Result<(), WriteRefusal>) -> Told {
    match answer {
        Ok(()) => Told::Done,
        Err(refusal) => Told::Unwritten(refusal),
    }
}

fn acknowledged(answer: Result<(), AckFault>) -> Told {
    match answer {
        Ok(()) => Told::Done,
        Err(fault) => Told::Unacknowledged(fault),
    }
}

/// What a call answers. Reads are the first controller's.
pub fn ask(rt: &impl Abort, board: &mut Board, alloc: Global, call: Call) -> Told {
    if !board.has_controller(C1) {
        panic!(rt; "no such controller");
    }
    match call {
        Call::Step(asked) => make_step(rt, board, alloc, asked),
        Call::Line => line(board.next_line()),
        Call::Charge(n) => charged(board.charge(n)),
        Call::Begin(c) => begin(rt, board, c),
        Call::Live(pass) => items(board.read_live(C1, pass)),
        Call::Mail(pass, session) => items(board.read_mail(C1, pass, session)),
        Call::States(pass, session) => items(board.read_states(C1, pass, session)),
        Call::Ideals(pass) => ideals(board.read_ideals(C1, pass)),
        Call::IdealsAgain(pass) => ideals_again(rt, board, pass),
        Call::Send(epoch, pass, moved) => send(rt, board, epoch, pass, &[proposal(moved)]),
        Call::Post(epoch, seen) => post(rt, board, epoch, &[seen]),
        Call::Fetch(instance) => fetch(rt, board, instance),
        Call::Take(session, id) => taken(board.take(session, id)),
        Call::Write(session, id, outcome) => written(board.write(session, id, outcome)),
        Call::Ack(session, id) => acknowledged(board.ack(session, id)),
    }
}

/// Each call answers so, in order.
pub fn expect_calls(rt: &impl Abort, board: &mut Board, alloc: Global, rows: &[(Call, Told)]) {
    for (call, told) in rows.iter() {
        expect(rt, &ask(rt, board, alloc, *call), told);
    }
}

/// A step answers so.
pub fn expect_step(rt: &impl Abort, board: &mut Board, alloc: Global, asked: Step, told: Told) {
    expect(rt, &make_step(rt, board, alloc, asked), &told);
}

/// Each step answers so, in order.
pub fn expect_steps(rt: &impl Abort, board: &mut Board, alloc: Global, rows: &[(Step, Told)]) {
    for (asked, told) in rows.iter() {
        expect_step(rt, board, alloc, *asked, *told);
    }
}
