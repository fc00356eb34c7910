//! A cluster that a legal history led to.
ghost use Rattle.std.specs.Prelude.{◌≡◌, ◌+◌, ◌*◌, ◌≤◌, Some, None, true, length, IsTrue};
ghost use Rattle.std.specs.Prelude.{IfOk, OnOk, OnErr};
ghost use Rattle.std.specs.List.{list_all};
ghost use Rattle.hx_cluster.specs.Steps.{opening, after, did_of, is_in_range, refusal_of};
ghost use Rattle.hx_cluster.specs.Steps.{has_controller, is_leader};
ghost use Rattle.hx_cluster.specs.Messages.{after_dispatch};
ghost use Rattle.hx_cluster.specs.Events.{next, begun_of, dispatched_of, is_proposable};
ghost use Rattle.hx_cluster.specs.Events.{is_postable, is_later, can_take, can_write, can_ack};
ghost use Rattle.hx_cluster.specs.Weight.{step_weight};
ghost use Rattle.hx_cluster.specs.Valid.{IsValid};
ghost use Rattle.hx_records.specs.Reached.{IsReached};
ghost use Rattle.hx_check.specs.Judging.{most_weight, answer_of, IsMadeIf};

use hx_cluster::{Admin, Begun, Did, Dispatched, Event, Outcome, Proposal, Seen, Spec};
use hx_ids::{ControllerId, MsgId, SessionId};
use hx_records::Records;
use std::alloc::{AllocError, Global};
use std::marker::Model;

/// The most that a history weighs. That of a log which fits into memory is far below.
const MOST_WEIGHT: u64 = 1 << 40;

/// A cluster that a legal history led to, with at least what the history weighs.
#[derive(Drop)]
pub(crate) struct Replayed {
    records: Records,
    weight: u64,
}

impl Model for Replayed {
    ghost use Rattle.hx_cluster.specs.declared.state.Cluster.{Cluster};
    ghost use Rattle.hx_check.specs.Judging.{IsLedTo};

    ghost Value = { Cluster };

    ghost view = { λ a. a.records };

    ghost invariant = { λ a. IsLedTo a.records a.weight };
}

/// What a history weighs with an event of so many items.
fn weight_with(weight: u64, items: usize) -> Result<u64, AllocError>
    requires { weight ≤ most_weight }
    ensures { IfOk result (λ more.
        (more ≡ weight + 1 + 4 * items) × (more ≤ most_weight)) }
{
    if items as u64 <= MOST_WEIGHT {
        let more = weight + 1 + 4 * items as u64;
        if more <= MOST_WEIGHT {
            return Ok(more);
        }
    }
    Err(AllocError)
}

/// How many items a step weighs.
fn items_of(step: &Admin) -> usize
    ensures { step_weight step.now ≤ 1 + 4 * result }
{
    match step {
        Admin::Add { ideal, .. } => ideal.parts() as usize,
        Admin::SetList { list, .. } => list.len(),
        Admin::SetMap { map, .. } => map.len(),
        _ => 1,
    }
}

impl Replayed {
    /// The opening of a description.
    pub fn at_opening(alloc: Global, spec: &Spec) -> Result<Replayed, AllocError>
        requires { IsValid spec.now }
        ensures { IfOk result (λ replayed. replayed ≡ opening spec.now) }
    {
        let records = Records::at_opening(alloc, spec)?;
        Ok(Replayed { records, weight: 0 })
    }

    /// The cluster.
    pub fn records(&self) -> &Records
        ensures same { result.now ≡ self.now }
        ensures reached { IsReached self.now }
    {
        &self.records
    }

    /// What a step in range answers that nothing refuses.
    pub fn answer_to(&self, step: &Admin) -> Result<Option<Did>, AllocError>
        ensures { IfOk result (λ answer. answer ≡ answer_of self.now step.now) }
    {
        if !self.records.is_in_range(step) || self.records.refuses(step).is_some() {
            return Ok(None);
        }
        Ok(Some(self.records.answer_to(step)?))
    }

    /// Makes a step with its answer.
    pub fn make(&mut self, step: &Admin, did: &Did) -> Result<(), AllocError>
        requires { answer_of self.old step.now ≡ Some did.now }
        ensures ok { OnOk result (self.new ≡ after self.old step.now) }
        ensures err { OnErr result (self.new ≡ self.old) }
    {
        let weight = weight_with(self.weight, items_of(step))?;
        self.records.make(step, did)?;
        self.weight = weight;
        Ok(())
    }

    /// Takes a script's line.
    pub fn take_line(&mut self, line: u32) -> Result<(), AllocError>
        requires { is_later self.old.line line ≡ true }
        ensures ok { OnOk result (self.new ≡ next self.old (Event.Line line)) }
        ensures err { OnErr result (self.new ≡ self.old) }
    {
        let weight = weight_with(self.weight, 0)?;
        self.records.take_line(line);
        self.weight = weight;
        Ok(())
    }

    /// Begins a pass of the leader.
    pub fn begin(&mut self, controller: ControllerId) -> Result<Begun, AllocError>
        requires there { has_controller self.old controller ≡ true }
        requires leads { is_leader controller self.old.leader ≡ true }
        ensures begun { IfOk result (λ begun. begun ≡ begun_of self.old controller) }
        ensures ok { OnOk result (self.new
            ≡ next self.old (Event.Begin controller (begun_of self.old controller))) }
        ensures err { OnErr result (self.new ≡ self.old) }
    {
        let weight = weight_with(self.weight, 0)?;
        let begun = self.records.begin(controller);
        self.weight = weight;
        Ok(begun)
    }

    /// Ends a controller's pass, and places its proposals in order.
    pub fn dispatch(
        &mut self,
        controller: ControllerId,
        proposals: &[Proposal],
    ) -> Result<Dispatched, AllocError>
        requires there { has_controller self.old controller ≡ true }
        requires range { list_all (is_proposable self.old) proposals.now ≡ true }
        ensures answer { IfOk result (λ answer.
            answer ≡ dispatched_of self.old controller proposals.now) }
        ensures ok { OnOk result (self.new ≡ after_dispatch self.old controller proposals.now) }
        ensures err { OnErr result (self.new ≡ self.old) }
    {
        let weight = weight_with(self.weight, proposals.len())?;
        let answer = self.records.dispatch(controller, proposals)?;
        self.weight = weight;
        Ok(answer)
    }

    /// Posts rows in place of those that stand.
    pub fn publish(&mut self, rows: &[Seen]) -> Result<(), AllocError>
        requires { list_all (is_postable self.old) rows.now ≡ true }
        ensures ok { OnOk result (self.new ≡ record self.old { posted = rows.now }) }
        ensures err { OnErr result (self.new ≡ self.old) }
    {
        let weight = weight_with(self.weight, rows.len())?;
        self.records.publish(rows)?;
        self.weight = weight;
        Ok(())
    }

    /// Takes a message, where that may be.
    pub fn take(&mut self, session: SessionId, id: MsgId) -> bool
        ensures { IsMadeIf (can_take self.old session id) result self.old
            (next self.old (Event.Take session id)) self.new }
    {
        self.records.take(session, id).is_ok()
    }

    /// Writes the outcome of a message, where that may be.
    pub fn write(&mut self, session: SessionId, id: MsgId, outcome: Outcome) -> bool
        ensures { IsMadeIf (can_write self.old session id) result self.old
            (next self.old (Event.Write session id outcome)) self.new }
    {
        self.records.write(session, id, outcome).is_ok()
    }

    /// Acknowledges a message, where that may be.
    pub fn ack(&mut self, session: SessionId, id: MsgId) -> bool
        ensures { IsMadeIf (can_ack self.old session id) result self.old
            (next self.old (Event.Ack session id)) self.new }
    {
        self.records.ack(session, id).is_ok()
    }
}
