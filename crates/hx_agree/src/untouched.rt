//! The live sessions that no participant has: whether nothing was done in them.
ghost use Rattle.std.specs.Prelude.{◌≡◌, map};
ghost use Rattle.std.specs.List.{list_any};
ghost use Rattle.hx_cluster.specs.Ends.{message_of};
ghost use Rattle.hx_replicas.specs.Participants.{is_session};
ghost use Rattle.hx_agree.specs.Tests.{stationed, at_each_of, at_each_part, is_untouched_at};
ghost use Rattle.hx_agree.specs.Tests.{is_taken as is_taken_at, is_cared_at, are_cared_for};
ghost use Rattle.hx_agree.specs.Tests.{has_session};

use crate::parts::{parts_of, resources};
use hx_board::Board;
use hx_handler::Factory;
use hx_ids::{InstanceId, PartId, ResourceId, SessionId};
use hx_replicas::Participant;

/// Whether the message of a session's part is taken, if one is pending.
fn is_taken(board: &Board, session: SessionId, part: PartId) -> bool
    ensures { result ≡ is_taken_at (message_of board.now.cluster.mail session part) }
{
    match board.message(session, part) {
        Some(message) => message.taken,
        None => false,
    }
}

/// Whether nothing was done at a part.
fn is_untouched_at(board: &Board, session: SessionId, part: PartId) -> bool
    ensures { result ≡ is_untouched_at board.now.cluster session part }
{
    board.row(session, part).is_none() && !is_taken(board, session, part)
}

/// Whether nothing was done at a resource's parts.
#[tactic(auto, using(hx_control::proofs::Numbers::first_number, hx_control::proofs::Numbers::no_number))]
fn is_untouched_of(board: &Board, session: SessionId, resource: ResourceId) -> bool
    ensures { result
        ≡ at_each_of board.now.cluster (is_untouched_at board.now.cluster session) resource.0 }
{
    let parts = parts_of(board, resource);
    for index in 0..parts {
        if !is_untouched_at(board, session, PartId { resource, index }) {
            return false;
        }
    }
    true
}

/// Whether nothing was done in a session.
#[tactic(auto, using(hx_control::proofs::Numbers::first_number, hx_control::proofs::Numbers::no_number))]
fn is_untouched(board: &Board, session: SessionId) -> bool
    ensures { result ≡ at_each_part board.now.cluster (is_untouched_at board.now.cluster session) }
{
    let resources = resources(board);
    for place in 0..resources {
        if !is_untouched_of(board, session, ResourceId(place)) {
            return false;
        }
    }
    true
}

/// Whether a session is this one.
pub(crate) fn is_session(mine: Option<SessionId>, session: SessionId) -> bool
    ensures { result ≡ is_session mine session }
{
    mine == Some(session)
}

/// Whether a participant has a session.
fn has_any<F: Factory>(session: SessionId, participants: &[Participant<F>]) -> bool
    ensures { result ≡ list_any (λ p. is_session p.plain.session session) participants.now }
{
    participants
        .iter()
        .any(|participant| is_session(participant.session(), session))
}

/// Whether a participant has an instance's session, or nothing was done in it.
#[tactic(auto, using(crate::proofs::Lists::any_mapped))]
fn is_cared_at<F: Factory>(
    mine: Option<SessionId>,
    board: &Board,
    participants: &[Participant<F>],
) -> bool
    ensures { result ≡ is_cared_at board.now.cluster (map stationed participants.now) mine }
{
    match mine {
        Some(session) => has_any(session, participants) || is_untouched(board, session),
        None => true,
    }
}

/// Whether a participant has each live session, or nothing was done in it. Only the first instances
/// are asked.
#[tactic(auto, using(hx_control::proofs::Numbers::first_number, hx_control::proofs::Numbers::no_number))]
pub(crate) fn are_cared_for<F: Factory>(
    instances: u32,
    board: &Board,
    participants: &[Participant<F>],
) -> bool
    ensures { result ≡ are_cared_for instances board.now.cluster (map stationed participants.now) }
{
    for place in 0..instances {
        if !is_cared_at(board.session_of(InstanceId(place)), board, participants) {
            return false;
        }
    }
    true
}

/// Whether a session is live, of one of the first instances.
#[tactic(auto, using(crate::proofs::Below::first_any, crate::proofs::Below::none_any))]
pub(crate) fn has_session(instances: u32, board: &Board, session: SessionId) -> bool
    ensures { result ≡ has_session instances board.now.cluster session }
{
    for place in 0..instances {
        if is_session(board.session_of(InstanceId(place)), session) {
            return true;
        }
    }
    false
}
