//! Participants whose session is live: whether they stand as the board has them.
ghost use Rattle.std.specs.Prelude.{◌≡◌, ◌+◌, ◌==◌, ◌||◌, unwrap_or, length};
ghost use Rattle.std.specs.List.{list_all};
ghost use Rattle.hx_cluster.specs.Ends.{state_of, message_of};
ghost use Rattle.hx_cluster.specs.Events.{has_part};
ghost use Rattle.hx_agree.specs.Tests.{stationed, at_each_of, at_each_part, is_like, is_coming};
ghost use Rattle.hx_agree.specs.Tests.{is_settled_at, are_slots_settled, is_settled_in, is_settled};

use crate::parts::{has_part, initial_of, parts_of, resources};
use crate::untouched::{has_session, is_session};
use hx_board::Board;
use hx_cluster::Spec;
use hx_handler::Factory;
use hx_ids::{PartId, ResourceId, SessionId, StateId};
use hx_replicas::Participant;

/// Whether the initial state of the messages that were accepted, if any, is this one.
fn is_like(has: Option<StateId>, initial: StateId) -> bool
    ensures { result ≡ is_like has initial }
{
    match has {
        Some(has) => has == initial,
        None => true,
    }
}

/// Whether a session's message, if any, isn't taken and comes after the last that was accepted.
fn is_coming(last: u64, board: &Board, session: SessionId, part: PartId) -> bool
    ensures { result ≡ is_coming last (message_of board.now.cluster.mail session part) }
{
    match board.message(session, part) {
        Some(message) => !message.taken && last < message.id.0,
        None => true,
    }
}

/// Whether a replica is at this state, by its row.
fn stands_at(
    state: StateId,
    initial: StateId,
    board: &Board,
    session: SessionId,
    part: PartId,
) -> bool
    ensures { result
        ≡ (state.0 == (unwrap_or (state_of board.now.cluster.rows session part) initial).0) }
{
    match board.row(session, part) {
        Some(row) => state == row,
        None => state == initial,
    }
}

/// Whether messages were accepted only of a part that is there.
fn is_there(last: u64, board: &Board, part: PartId) -> bool
    ensures { result ≡ (has_part board.now.cluster part || (last == 0)) }
{
    has_part(board, part) || last == 0
}

/// What a participant is compared with: what a board of a description has of a session, where so
/// many messages were sent.
#[derive(Clone, Copy)]
struct Known<'a> {
    sent: u64,
    spec: &'a Spec,
    board: &'a Board,
    session: SessionId,
}

impl Known<'_> {
    /// Whether a participant's slot of a part is settled.
    fn is_settled_at<F: Factory>(&self, participant: &Participant<F>, part: PartId) -> bool
        ensures { result
            ≡ is_settled_at (1 + self.now.sent) self.now.spec.now.models self.now.board.now.cluster
            participant.now.plain self.now.session part }
    {
        let initial = initial_of(self.spec, self.board, part);
        let (state, last) = participant.slot(part, initial);
        last <= self.sent
            && is_there(last, self.board, part)
            && is_like(participant.initial_of(part), initial)
            && stands_at(state, initial, self.board, self.session, part)
            && is_coming(last, self.board, self.session, part)
    }

    /// Whether its slots are.
    #[tactic(auto, using(crate::proofs::Lists::all_dropped, crate::proofs::Lists::all_end))]
    fn are_slots_settled<F: Factory>(&self, participant: &Participant<F>) -> bool
        ensures { result
            ≡ are_slots_settled (1 + self.now.sent) self.now.spec.now.models
            self.now.board.now.cluster participant.now.plain self.now.session }
    {
        let slots = participant.slots();
        for place in 0..slots {
            let part = participant.part_at(place);
            if !self.is_settled_at(participant, part) {
                return false;
            }
        }
        true
    }

    /// Whether those of a resource's parts are.
    #[tactic(auto, using(hx_control::proofs::Numbers::first_number, hx_control::proofs::Numbers::no_number))]
    fn are_parts_settled_of<F: Factory>(
        &self,
        participant: &Participant<F>,
        resource: ResourceId,
    ) -> bool
        ensures { result
            ≡ at_each_of self.now.board.now.cluster
            (is_settled_at (1 + self.now.sent) self.now.spec.now.models self.now.board.now.cluster
            participant.now.plain self.now.session) resource.0 }
    {
        let parts = parts_of(self.board, resource);
        for index in 0..parts {
            let part = PartId { resource, index };
            if !self.is_settled_at(participant, part) {
                return false;
            }
        }
        true
    }

    /// Whether those of the board's parts are.
    #[tactic(auto, using(hx_control::proofs::Numbers::first_number, hx_control::proofs::Numbers::no_number))]
    fn are_parts_settled<F: Factory>(&self, participant: &Participant<F>) -> bool
        ensures { result
            ≡ at_each_part self.now.board.now.cluster
            (is_settled_at (1 + self.now.sent) self.now.spec.now.models self.now.board.now.cluster
            participant.now.plain self.now.session) }
    {
        let resources = resources(self.board);
        for place in 0..resources {
            let resource = ResourceId(place);
            if !self.are_parts_settled_of(participant, resource) {
                return false;
            }
        }
        true
    }

    /// Whether a participant has its instance's session, and its slots are settled.
    fn is_settled_in<F: Factory>(&self, participant: &Participant<F>) -> bool
        ensures { result
            ≡ is_settled_in (1 + self.now.sent) self.now.spec.now.models self.now.board.now.cluster
            (stationed participant.now) self.now.session }
    {
        is_session(self.board.session_of(participant.instance()), self.session)
            && self.are_slots_settled(participant)
            && self.are_parts_settled(participant)
    }
}

/// Whether a participant is settled, where its session is live.
fn is_settled<F: Factory>(
    sent: u64,
    spec: &Spec,
    board: &Board,
    participant: &Participant<F>,
) -> bool
    ensures { result
        ≡ is_settled (1 + sent) spec.now.models (length spec.now.instances) board.now.cluster
        (stationed participant.now) }
{
    match participant.session() {
        Some(session) => {
            let known = Known {
                sent,
                spec,
                board,
                session,
            };
            !has_session(spec.instances.len(), board, session) || known.is_settled_in(participant)
        }
        None => true,
    }
}

/// Whether all participants are settled.
pub(crate) fn are_settled<F: Factory>(
    sent: u64,
    spec: &Spec,
    board: &Board,
    participants: &[Participant<F>],
) -> bool
    ensures { result
        ≡ list_all (λ p. is_settled (1 + sent) spec.now.models (length spec.now.instances)
        board.now.cluster (stationed p)) participants.now }
{
    participants
        .iter()
        .all(|participant| is_settled(sent, spec, board, participant))
}
