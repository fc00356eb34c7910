//! The steps of an operator, a session or a leader; the script's lines; and charges.
ghost use Rattle.std.specs.Prelude.{◌≡◌, ◌+◌, ◌≤◌, [], ◌∷◌, ◌++◌, true, false, None};
ghost use Rattle.std.specs.Prelude.{IfOk, OnOk, OnErr, IsErrOf};
ghost use Rattle.hx_lists.specs.Answers.{RefusedAs, RefusedBy};
ghost use Rattle.hx_cluster.specs.Steps.{after, did_of, is_in_range, refusal_of};
ghost use Rattle.hx_cluster.specs.Room.{HasRoom};
ghost use Rattle.hx_cluster.specs.Numbered.{is_end};
ghost use Rattle.hx_cluster.specs.Weight.{step_weight as step_weight_of};
ghost use Rattle.hx_records.specs.Reached.{IsReached};
ghost use Rattle.hx_board.specs.Board.{happened, charged, next_line_of, line_taken};
ghost use Rattle.hx_board.specs.Board.{opens as opens_of, IsNumber};
ghost use Rattle.hx_board.specs.Refusals.{charge_refusal, line_refusal, step_refusal};

use crate::board::{Board, make_room, record};
use crate::faults::{BoardFault, HistoryFull, RoomFault};
use hx_cluster::{Admin, Did, Event};
use hx_history::History;
use hx_records::Records;
use std::alloc::AllocError;

/// What a step weighs, where that is a number of 64 bits.
fn step_weight(step: &Admin) -> Option<u64>
    ensures { IsNumber result (step_weight_of step.now) }
{
    match step {
        Admin::Join { .. } => Some(2),
        Admin::End { .. } => Some(0),
        Admin::Add { ideal, .. } => Some(1 + u64::from(ideal.parts())),
        Admin::SetList { list, .. } => (list.len() as u64).checked_add(1),
        Admin::SetMap { map, .. } => (map.len() as u64).checked_add(1),
        _ => Some(1),
    }
}

/// How many sessions a step opens, each of which owes its end.
fn opens(step: &Admin) -> usize
    ensures { result ≡ opens_of step.now }
{
    match step {
        Admin::Join { .. } => 1,
        _ => 0,
    }
}

fn copied(step: &Admin) -> Result<Admin, AllocError>
    ensures { IfOk result (λ copy. copy ≡ step.now) }
{
    step.clone()
}

fn answer_copied(did: &Did) -> Result<Did, AllocError>
    ensures { IfOk result (λ copy. copy ≡ did.now) }
{
    did.clone()
}

/// The event of a step, with what it answers.
fn event_of(step: &Admin, did: &Did) -> Result<Event, AllocError>
    ensures { IfOk result (λ event. event ≡ Event.Admin step.now did.now) }
{
    let step = copied(step)?;
    let did = answer_copied(did)?;
    Ok(Event::Admin(step, did))
}

/// Makes a step that nothing refuses, and records it in room that was made.
#[inline(always)]
fn make(records: &mut Records, history: &mut History, step: &Admin) -> Result<Did, AllocError>
    requires may { refusal_of records.old step.now ≡ None }
    requires range { is_in_range records.old step.now ≡ true }
    requires reached { IsReached records.old }
    requires room { HasRoom records.old }
    requires spare { 1 ≤ history.old.entries.spare }
    ensures did { IfOk result (λ did. did ≡ did_of records.old step.now) }
    ensures after { OnOk result (records.new ≡ after records.old step.now) }
    ensures items { IfOk result (λ did.
        history.new.entries.items ≡ history.old.entries.items ++ Event.Admin step.now did ∷ []) }
    ensures spare { OnOk result (history.new.entries.spare + 1 ≡ history.old.entries.spare) }
    ensures err { OnErr result ((records.new ≡ records.old) × (history.new ≡ history.old)) }
{
    let did = records.answer_to(step)?;
    let event = event_of(step, &did)?;
    records.make(step, &did)?;
    record(history, event);
    Ok(did)
}

impl Board {
    /// What a step weighs that nothing refuses, or why it is refused.
    fn allowed(&self, step: &Admin) -> Result<u64, BoardFault>
        ensures refused { RefusedAs (step_refusal self.now step.now) result }
        ensures weight { IfOk result (λ weight. weight ≡ step_weight_of step.now) }
    {
        if let Some(fault) = self.records.refuses(step) {
            return Err(BoardFault::Step(fault));
        }
        let Some(weight) = step_weight(step) else {
            return Err(BoardFault::HistoryFull {
                weight: self.weight,
            });
        };
        match self.full(weight) {
            Some(weight) => Err(BoardFault::HistoryFull { weight }),
            None => Ok(weight),
        }
    }

    /// Ends a session. It takes no memory.
    fn end(&mut self, step: Admin)
        requires end { is_end step ≡ true }
        requires free { step_refusal self.old step ≡ None }
        requires range { is_in_range self.old.cluster step ≡ true }
        ensures { self.new ≡ happened self.old (Event.Admin step (did_of self.old.cluster step)) }
    {
        let Ok(()) = self.records.make(&step, &Did::Done) else {
            unreachable!()
        };
        record(&mut self.history, Event::Admin(step, Did::Done));
        self.owed -= 1;
    }

    /// Makes a step that nothing refuses, and pays what it weighs.
    #[inline(always)]
    fn change(&mut self, step: &Admin, weight: u64) -> Result<Did, AllocError>
        requires free { step_refusal self.old step.now ≡ None }
        requires range { is_in_range self.old.cluster step.now ≡ true }
        requires weight { weight ≡ step_weight_of step.now }
        ensures did { IfOk result (λ did. did ≡ did_of self.old.cluster step.now) }
        ensures ok { OnOk result (
            self.new
            ≡ happened self.old (Event.Admin step.now (did_of self.old.cluster step.now))) }
        ensures err { OnErr result (self.new ≡ self.old) }
    {
        make_room(&mut self.history, self.owed, 2)?;
        let did = make(&mut self.records, &mut self.history, step)?;
        self.weight += weight;
        self.owed += opens(step);
        Ok(did)
    }

    /// Makes a step. An end takes no memory.
    pub fn admin(&mut self, step: &Admin) -> Result<Did, BoardFault>
        requires { is_in_range self.old.cluster step.now ≡ true }
        ensures refused { RefusedBy BoardFault.OutOfMemory (step_refusal self.old step.now) result }
        ensures did { IfOk result (λ did. did ≡ did_of self.old.cluster step.now) }
        ensures ok { OnOk result (
            self.new
            ≡ happened self.old (Event.Admin step.now (did_of self.old.cluster step.now))) }
        ensures err { OnErr result (self.new ≡ self.old) }
        ensures memory { IsErrOf result BoardFault.OutOfMemory → is_end step.now ≡ false }
    {
        let weight = self.allowed(step)?;
        if let Admin::End { instance } = step {
            self.end(Admin::End {
                instance: *instance,
            });
            return Ok(Did::Done);
        }
        Ok(self.change(step, weight)?)
    }

    /// The script's line that comes next, unless all are taken.
    fn following(&self) -> Option<u32>
        ensures { result ≡ next_line_of self.now }
    {
        self.lines.get(self.taken).copied()
    }

    fn line_fault(&self) -> Option<RoomFault>
        ensures { result ≡ line_refusal self.now }
    {
        match self.following() {
            Some(_) => self.full(1).map(|weight| RoomFault::HistoryFull { weight }),
            None => None,
        }
    }

    /// Takes the script's next line, and gives its number, or none where all are taken.
    pub fn next_line(&mut self) -> Result<Option<u32>, RoomFault>
        ensures refused { RefusedBy RoomFault.OutOfMemory (line_refusal self.old) result }
        ensures line { IfOk result (λ line. line ≡ next_line_of self.old) }
        ensures ok { OnOk result (self.new ≡ line_taken self.old (next_line_of self.old)) }
        ensures err { OnErr result (self.new ≡ self.old) }
    {
        if let Some(fault) = self.line_fault() {
            return Err(fault);
        }
        let Some(line) = self.following() else {
            return Ok(None);
        };
        make_room(&mut self.history, self.owed, 1)?;
        self.records.take_line(line);
        record(&mut self.history, Event::Line(line));
        self.taken += 1;
        self.weight += 1;
        Ok(Some(line))
    }

    /// Adds to the weight, and records nothing. It takes no memory.
    pub fn charge(&mut self, n: u64) -> Result<(), HistoryFull>
        ensures refused { RefusedAs (charge_refusal self.old n) result }
        ensures ok { OnOk result (self.new ≡ charged self.old n) }
        ensures err { OnErr result (self.new ≡ self.old) }
    {
        if let Some(weight) = self.full(n) {
            return Err(HistoryFull { weight });
        }
        self.charges += n;
        self.weight += n;
        Ok(())
    }
}
