//! What stands on a board, as values.
use crate::tests::fixtures::expect;
use hx_board::Board;
use hx_ids::{ControllerId, InstanceId, MsgId, PartId, ResourceId, SessionId, StateId};
use hx_lists::Seq;
use std::alloc::AllocError;
use std::process::Abort;

/// The first two of the live sessions.
type Two = (Option<SessionId>, Option<SessionId>);

/// A read, and behind what it is asked what it shows.
#[derive(Clone, Copy)]
pub enum Read {
    Roster(Two),
    Shown(Two),
    Session(InstanceId, Option<SessionId>),
    Drained(InstanceId, bool),
    Row(SessionId, PartId, Option<StateId>),
    /// How many rows a session has.
    Rows(SessionId, usize),
    Message(SessionId, PartId, Option<MsgId>),
    /// The place of a resource's name.
    Resource(ResourceId, Option<u32>),
    Newest(u32, Option<ResourceId>),
    Leader(Option<ControllerId>),
    Weight(u64),
    Charged(u64),
    /// How many rows are posted.
    Posted(usize),
    /// How many entries the history has.
    Entries(usize),
}

fn session_at(live: &[(SessionId, InstanceId)], place: usize) -> Option<SessionId> {
    match live.get(place) {
        Some(shown) => Some(shown.0),
        None => None,
    }
}

fn first_two(rt: &impl Abort, read: Result<Vec<(SessionId, InstanceId)>, AllocError>) -> Two {
    let Ok(live) = read else {
        panic!(rt; "no memory");
    };
    (
        session_at(live.as_slice(), 0),
        session_at(live.as_slice(), 1),
    )
}

fn rows(board: &Board, session: SessionId) -> Result<usize, AllocError> {
    let live = board.roster()?;
    let mut rows = Seq::new(*live.allocator());
    board.push_rows_of(session, &mut rows)?;
    Ok(rows.len())
}

fn message(board: &Board, session: SessionId, part: PartId) -> Option<MsgId> {
    let message = board.message(session, part)?;
    Some(message.id)
}

fn name(board: &Board, resource: ResourceId) -> Option<u32> {
    let resource = board.resource(resource)?;
    Some(resource.name)
}

fn expect_read(rt: &impl Abort, board: &Board, read: Read) {
    match read {
        Read::Roster(two) => expect(rt, &first_two(rt, board.roster()), &two),
        Read::Shown(two) => expect(rt, &first_two(rt, board.shown()), &two),
        Read::Session(instance, session) => expect(rt, &board.session_of(instance), &session),
        Read::Drained(instance, drained) => expect(rt, &board.drained(instance), &drained),
        Read::Row(session, part, state) => expect(rt, &board.row(session, part), &state),
        Read::Rows(session, count) => expect(rt, &rows(board, session), &Ok(count)),
        Read::Message(session, part, id) => expect(rt, &message(board, session, part), &id),
        Read::Resource(resource, place) => expect(rt, &name(board, resource), &place),
        Read::Newest(name, resource) => expect(rt, &board.newest(name), &resource),
        Read::Leader(leader) => expect(rt, &board.leader(), &leader),
        Read::Weight(weight) => expect(rt, &board.weight(), &weight),
        Read::Charged(charged) => expect(rt, &board.charged(), &charged),
        Read::Posted(count) => expect(rt, &board.posted().len(), &count),
        Read::Entries(count) => expect(rt, &board.history().entries.len(), &count),
    }
}

/// Each read shows this.
pub fn expect_reads(rt: &impl Abort, board: &Board, reads: &[Read]) {
    for read in reads {
        expect_read(rt, board, *read);
    }
}
