//! What a log tells beside what the cluster answers.
ghost use Rattle.std.specs.Prelude.{◌≡◌, List, map, IfOk};
ghost use Rattle.std.specs.Cmp.Lexicographic.{pointwise};
ghost use Rattle.std.specs.List.{list_all};
ghost use Rattle.hx_ids.specs.declared.SessionId.{SessionId};
ghost use Rattle.hx_cluster.specs.Events.{is_postable};
ghost use Rattle.hx_script.specs.LogEntries.{ended_told};
ghost use Rattle.hx_check.specs.Answers;
ghost use Rattle.hx_check.specs.Judge.{same_proposal};
ghost use Rattle.hx_check.specs.Judging.{is_told, IsBareIdeal};

use hx_cluster::{Did, Placed, Proposal, Seen};
use hx_ideal::{Ideal, MOST_PARTS, MOST_REPLICAS, Mode};
use hx_ids::{Epoch, InstanceId, PartId, ResourceId, SessionId};
use hx_pass::instance_or_first;
use hx_records::Records;
use hx_script::{LogMove, LogPart, mode_numbered};
use std::alloc::{AllocError, Global};

/// What a log tells of a step: whether the rest of its text agrees, or what it answers.
#[derive(Clone, Copy)]
pub(crate) enum Told {
    Agrees(bool),
    Session(SessionId),
    Resource(ResourceId),
    Epoch(Epoch),
}

/// Whether a step answers what a log tells.
pub(crate) fn is_told(told: Told, did: &Did) -> bool
    ensures { result ≡ is_told told did.now }
{
    match (told, did) {
        (Told::Agrees(agrees), _) => agrees,
        (Told::Session(s), Did::Joined(t)) => s == *t,
        (Told::Resource(r), Did::Added(q)) => r == *q,
        (Told::Epoch(e), Did::Leads(f)) => e == *f,
        _ => false,
    }
}

pub(crate) fn part_of(part: &LogPart) -> PartId
    ensures { result ≡ Answers.part_of part.now }
{
    PartId {
        resource: part.resource,
        index: part.index,
    }
}

fn proposal_of(told: &LogMove) -> Proposal
    ensures { result ≡ Answers.proposal_of told.now }
{
    Proposal {
        session: told.session,
        part: part_of(&told.part),
        from: told.from,
        to: told.to,
    }
}

/// Whether a resource is there under the name that a log gives it.
pub(crate) fn is_named(records: &Records, name: Option<u32>, resource: ResourceId) -> bool
    ensures { result ≡ Answers.is_named records.now name resource }
{
    match (name, records.resource(resource)) {
        (Some(name), Some(there)) => there.name == name,
        _ => false,
    }
}

/// Whether a part's resource is.
pub(crate) fn is_part(records: &Records, part: &LogPart) -> bool
    ensures { result ≡ Answers.is_part records.now part.now }
{
    is_named(records, part.name, part.resource)
}

/// Whether a proposal that a log tells may be made.
fn is_move(records: &Records, told: &LogMove) -> bool
    ensures { result ≡ Answers.is_move records.now told.now }
{
    is_part(records, &told.part) && records.is_proposable(&proposal_of(told))
}

/// Whether all of them may.
pub(crate) fn are_moves(records: &Records, moves: &[LogMove]) -> bool
    ensures { result ≡ list_all (Answers.is_move records.now) moves.now }
{
    moves.iter().all(|told| is_move(records, told))
}

/// The proposals that a log tells.
pub(crate) fn proposals_of(alloc: Global, moves: &[LogMove]) -> Result<Vec<Proposal>, AllocError>
    ensures { IfOk result (λ proposals.
        proposals.items ≡ map Answers.proposal_of moves.now) }
{
    moves.iter().map(|told| proposal_of(told)).collect(alloc)
}

/// Whether answers are the same.
fn same_answer(a: &Placed, b: &Placed) -> bool
    ensures { result ≡ Answers.same_answer a.now b.now }
{
    match (a, b) {
        (Placed::Sent(m), Placed::Sent(n)) => m == n,
        (Placed::Ended, Placed::Ended) => true,
        (Placed::ResourceDropped, Placed::ResourceDropped) => true,
        (Placed::Busy { id: m }, Placed::Busy { id: n }) => m == n,
        (Placed::WrongFrom { has: s }, Placed::WrongFrom { has: t }) => s == t,
        (Placed::Illegal, Placed::Illegal) => true,
        (Placed::OverBound { count: a, bound: b }, Placed::OverBound { count: c, bound: d }) => a
            == c
            && b == d,
        (
            Placed::OverThrottle {
                rule: a,
                load: b,
                limit: c,
            },
            Placed::OverThrottle {
                rule: d,
                load: e,
                limit: f,
            },
        ) => a == d && b == e && c == f,
        _ => false,
    }
}

/// Whether proposals are the same.
fn same_proposal(a: &Proposal, b: &Proposal) -> bool
    ensures { result ≡ same_proposal a.now b.now }
{
    a.session == b.session && a.part == b.part && a.from == b.from && a.to == b.to
}

/// Whether the proposals that a log tells are those of a plan.
pub(crate) fn are_planned(moves: &[LogMove], planned: &[Proposal]) -> bool
    ensures { result
        ≡ pointwise same_proposal (map Answers.proposal_of moves.now) planned.now }
{
    if moves.len() != planned.len() {
        return false;
    }
    for (place, told) in moves.iter().enumerate() {
        if !same_proposal(&proposal_of(told), &planned[place]) {
            return false;
        }
    }
    true
}

/// Whether the answers to proposals are those that a log tells.
pub(crate) fn are_answers(moves: &[LogMove], placed: &[Placed]) -> bool
    ensures { result
        ≡ pointwise Answers.same_answer (map (λ m. m.answer) moves.now) placed.now }
{
    if moves.len() != placed.len() {
        return false;
    }
    for (place, told) in moves.iter().enumerate() {
        if !same_answer(&told.answer, &placed[place]) {
            return false;
        }
    }
    true
}

/// Whether a session that ended is the one that a log tells, with its instance.
fn is_ended(
    told: &(InstanceId, SessionId),
    ended: SessionId,
    live: &[(SessionId, InstanceId)],
) -> bool
    ensures { result ≡ Answers.same_ended told.now (ended_told live.now ended) }
{
    told.0 == instance_or_first(live, ended) && told.1 == ended
}

/// Whether the sessions that ended are those that a log tells, with their instances.
fn are_ended(
    told: &[(InstanceId, SessionId)],
    ended: &[SessionId],
    live: &[(SessionId, InstanceId)],
) -> bool
    ensures { result
        ≡ pointwise Answers.same_ended told.now (map (ended_told live.now) ended.now) }
{
    if told.len() != ended.len() {
        return false;
    }
    for (place, one) in told.iter().enumerate() {
        if !is_ended(one, ended[place], live) {
            return false;
        }
    }
    true
}

/// Whether a tick ended the sessions that a log tells, with their instances.
pub(crate) fn has_ended(
    told: &[(InstanceId, SessionId)],
    did: &Did,
    live: &[(SessionId, InstanceId)],
) -> bool
    ensures { (ended : List SessionId) → did.now ≡ Did.Ended ended
        → result ≡ pointwise Answers.same_ended told.now (map (ended_told live.now) ended) }
{
    match did {
        Did::Ended(ended) => are_ended(told, ended.as_slice(), live),
        _ => false,
    }
}

/// Whether all rows may be posted.
pub(crate) fn are_postable(records: &Records, rows: &[Seen]) -> bool
    ensures { result ≡ list_all (is_postable records.now) rows.now }
{
    rows.iter().all(|row| records.is_postable(row))
}

/// What is wanted of a resource that an entry adds, if that may be wanted of one.
pub(crate) fn bare_ideal(
    alloc: Global,
    replicas: u32,
    parts: u32,
    mode: u8,
) -> Result<Option<Ideal>, AllocError>
    ensures { IfOk result (λ ideal. IsBareIdeal replicas parts mode ideal) }
{
    let Some(kind) = mode_numbered(mode) else {
        return Ok(None);
    };
    if MOST_REPLICAS < replicas || MOST_PARTS < parts {
        return Ok(None);
    }
    let mode = Mode::bare(alloc, kind, parts)?;
    match Ideal::check(replicas, parts, mode, 0, &[]) {
        Ok(ideal) => Ok(Some(ideal)),
        Err(_) => Ok(None),
    }
}
