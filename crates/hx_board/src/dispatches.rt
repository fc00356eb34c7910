//! What controllers send.
ghost use Rattle.std.specs.Prelude.{◌≡◌, ◌+◌, ◌*◌, ◌≤◌, [], ◌∷◌, ◌++◌, true, length, vec_capacity};
ghost use Rattle.std.specs.Prelude.{IfOk, OnOk, OnErr};
ghost use Rattle.std.specs.List.{list_all};
ghost use Rattle.hx_lists.specs.Answers.{RefusedAs, RefusedBy};
ghost use Rattle.hx_cluster.specs.Steps.{has_controller};
ghost use Rattle.hx_cluster.specs.Messages.{after_dispatch};
ghost use Rattle.hx_cluster.specs.Room.{HasRoom};
ghost use Rattle.hx_records.specs.Reached.{IsReached};
ghost use Rattle.hx_cluster.specs.Events.{dispatched_of, is_proposable};
ghost use Rattle.hx_board.specs.Board.{happened, IsNumber};
ghost use Rattle.hx_board.specs.Refusals.{dispatch_refusal};

use crate::board::{Board, make_room, record};
use crate::faults::DispatchRefusal;
use hx_cluster::{Dispatched, Event, Placed, Proposal};
use hx_history::History;
use hx_ids::{ControllerId, Epoch, PassNo};
use hx_lists::Seq;
use hx_records::Records;
use std::alloc::{AllocError, Global};

/// What a dispatch of so many proposals weighs, where that is a number of 64 bits.
fn dispatch_weight(proposals: usize) -> Option<u64>
    ensures { IsNumber result (1 + 4 * proposals) }
{
    let four = (proposals as u64).checked_mul(4)?;
    four.checked_add(1)
}

/// The event of a dispatch, but for its answer: a copy of the proposals, and space for what becomes
/// of each. It is made before the dispatch.
struct Unanswered {
    proposals: Seq<Proposal>,
    space: Vec<Placed>,
}

// A derived drop is written out, field by field, wherever one is dropped; this is a call.
impl Drop for Unanswered {
    fn drop(self) {
        let Unanswered {
            proposals: _,
            space: _,
        } = self;
    }
}

impl Unanswered {
    fn new(alloc: Global, proposals: &[Proposal]) -> Result<Unanswered, AllocError>
        ensures proposals { IfOk result (λ event. event.proposals ≡ proposals.now) }
        ensures empty { IfOk result (λ event. event.space.items ≡ []) }
        ensures space { IfOk result (λ event. length proposals.now ≤ vec_capacity event.space) }
    {
        let copy = Seq::from_slice(alloc, proposals)?;
        let space = Vec::with_capacity(alloc, proposals.len())?;
        Ok(Unanswered {
            proposals: copy,
            space,
        })
    }

    /// The event with its answer. It takes no memory.
    fn answered(self, c: ControllerId, epoch: Epoch, pass: PassNo, answer: &Dispatched) -> Event
        requires empty { self.space.items ≡ [] }
        requires space { length answer.now.placed ≤ vec_capacity self.space }
        ensures { result ≡ Event.Dispatch c epoch pass self.proposals answer.now }
    {
        let Unanswered { proposals, space } = self;
        let answer = answer.copied_into(space);
        Event::Dispatch {
            c,
            epoch,
            pass,
            proposals,
            answer,
        }
    }
}

/// Makes a dispatch that nothing refuses, and records it in room that was made.
#[inline(always)]
fn place(
    records: &mut Records,
    history: &mut History,
    alloc: Global,
    c: ControllerId,
    epoch: Epoch,
    pass: PassNo,
    proposals: &[Proposal],
) -> Result<Dispatched, AllocError>
    requires reached { IsReached records.old }
    requires range { list_all (is_proposable records.old) proposals.now ≡ true }
    requires room { HasRoom records.old }
    requires spare { 1 ≤ history.old.entries.spare }
    ensures answer { IfOk result (λ answer. answer ≡ dispatched_of records.old c proposals.now) }
    ensures after { OnOk result (records.new ≡ after_dispatch records.old c proposals.now) }
    ensures items { IfOk result (λ answer.
        history.new.entries.items
        ≡ history.old.entries.items
        ++ Event.Dispatch c epoch pass proposals.now answer ∷ []) }
    ensures spare { OnOk result (history.new.entries.spare + 1 ≡ history.old.entries.spare) }
    ensures err { OnErr result ((records.new ≡ records.old) × (history.new ≡ history.old)) }
{
    let event = Unanswered::new(alloc, proposals)?;
    let answer = records.dispatch(c, proposals)?;
    record(history, event.answered(c, epoch, pass, &answer));
    Ok(answer)
}

impl Board {
    /// What a dispatch weighs that isn't refused whole, or why it is.
    fn sendable(
        &self,
        c: ControllerId,
        epoch: Epoch,
        pass: PassNo,
        proposals: &[Proposal],
    ) -> Result<u64, DispatchRefusal>
        ensures refused { RefusedAs (dispatch_refusal self.now c epoch pass proposals.now) result }
        ensures weight { IfOk result (λ weight. weight ≡ 1 + 4 * length proposals.now) }
    {
        let now = self.records.epoch();
        if now != epoch {
            return Err(DispatchRefusal::Fenced { now });
        }
        let now = self.records.pass_of(c);
        if now != pass {
            return Err(DispatchRefusal::OldPass { now });
        }
        let Some(weight) = dispatch_weight(proposals.len()) else {
            return Err(DispatchRefusal::HistoryFull {
                weight: self.weight,
            });
        };
        match self.full(weight) {
            Some(weight) => Err(DispatchRefusal::HistoryFull { weight }),
            None => Ok(weight),
        }
    }

    /// Places proposals in order, each by the first answer that fits, and ends the pass.
    pub fn dispatch(
        &mut self,
        c: ControllerId,
        epoch: Epoch,
        pass: PassNo,
        proposals: &[Proposal],
    ) -> Result<Dispatched, DispatchRefusal>
        requires controller { has_controller self.old.cluster c ≡ true }
        requires proposals { list_all (is_proposable self.old.cluster) proposals.now ≡ true }
        ensures refused { RefusedBy DispatchRefusal.OutOfMemory
            (dispatch_refusal self.old c epoch pass proposals.now) result }
        ensures answer { IfOk result (λ answer.
            answer ≡ dispatched_of self.old.cluster c proposals.now) }
        ensures ok { IfOk result (λ answer.
            self.new ≡ happened self.old (Event.Dispatch c epoch pass proposals.now answer)) }
        ensures err { OnErr result (self.new ≡ self.old) }
    {
        let weight = self.sendable(c, epoch, pass, proposals)?;
        let coming = weight as usize - 1 - proposals.len();
        make_room(&mut self.history, self.owed, 1 + coming)?;
        let alloc = *self.lines.allocator();
        let (records, history) = (&mut self.records, &mut self.history);
        let answer = place(records, history, alloc, c, epoch, pass, proposals)?;
        self.weight += weight;
        self.owed += coming;
        Ok(answer)
    }
}
