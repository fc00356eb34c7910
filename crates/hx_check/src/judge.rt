//! The judge: a cluster, the turns of its controllers, and how far messages were fetched.
ghost use Rattle.std.specs.Prelude.{◌≡◌, ◌<◌, ℕ, Some, None, true, map, length, slice_set, IfOk};
ghost use Rattle.std.specs.Prelude.{if◌then◌else◌, ◌==◌, ◌&&◌};
ghost use Rattle.hx_cluster.specs.Steps.{did_of, has_controller, is_leader};
ghost use Rattle.hx_cluster.specs.Messages.{after_dispatch};
ghost use Rattle.hx_cluster.specs.Events.{is_pass, is_epoch, is_later};
ghost use Rattle.hx_cluster.specs.Valid.{IsValid};
ghost use Rattle.hx_check.specs.Standing.{opening_standing, turn_in};
ghost use Rattle.hx_check.specs.Answers;
ghost use Rattle.hx_check.specs.Judge.{judged_entry};
ghost use Rattle.hx_check.specs.Judging.{is_told, read_event, may_place, is_placed, sent_as};
ghost use Rattle.hx_check.specs.Judging.{sent_on};
ghost use Rattle.hx_check.specs.Judging.{may_fetch, may_post, taken_as, tells_step, IsBareIdeal, IsMadeWhere, IsJudgedAs};
ghost use Rattle.hx_check.specs.Judging.{IsAnsweredAs};

use crate::Cause;
use crate::answers::{
    Told, are_answers, are_moves, are_planned, are_postable, bare_ideal, has_ended, is_named,
    is_part, is_told, part_of, proposals_of,
};
use crate::marks::{is_marked, mark};
use crate::replayed::Replayed;
use crate::turns::{Call, Read, Turn, begin_turn, end_turn, go_on_turn, idle_turns, read_turn};
use hx_cluster::{Admin, Begun, Outcome, Seen, Spec};
use hx_gen::hops_of;
use hx_hops::Hops;
use hx_ideal::Ideal;
use hx_ids::{
    ControllerId, Epoch, InstanceId, ModelId, MsgId, PassNo, ResourceId, SessionId, StateId,
};
use hx_lists::Seq;
use hx_pass::{draft, posted};
use hx_records::Records;
use hx_script::{LogEntry, LogMove, LogPart};
use std::alloc::{AllocError, Global};
use std::marker::Model;

/// Judges entry by entry.
#[derive(Drop)]
pub(crate) struct Judge {
    alloc: Global,
    replayed: Replayed,
    turns: Vec<Turn>,
    marks: Vec<u64>,
    hops: Vec<Hops>,
}

impl Model for Judge {
    ghost use Rattle.std.specs.Prelude.{◌≡◌};
    ghost use Rattle.hx_check.specs.Standing.{Standing};
    ghost use Rattle.hx_check.specs.Judging.{AreTurns};

    ghost Value = { Standing };

    ghost view = { λ a. record {
      cluster = a.replayed;
      turns = a.turns.items;
      marks = a.marks.items;
    } };

    ghost invariant = { λ a. (a.hops.items ≡ a.replayed.models)
        × AreTurns a.replayed a.turns.items };
}

fn fault_unless(so: bool, cause: Cause) -> Option<Cause>
    ensures { result ≡ (if so then None else Some cause) }
{
    if so { None } else { Some(cause) }
}

/// Whether a fetch has the session and so many messages.
fn may_fetch(
    records: &Records,
    instance: InstanceId,
    session: Option<SessionId>,
    count: u32,
) -> Result<bool, AllocError>
    ensures { IfOk result (λ so. so ≡ may_fetch records.now instance session count) }
{
    if !records.has_instance(instance) {
        return Ok(false);
    }
    let mail = records.fetch(instance)?;
    Ok(mail.session == session && mail.messages.len() == count as usize)
}

/// Whether a begin has the numbers that a log tells.
fn is_begun(begun: Begun, epoch: Epoch, pass: PassNo) -> bool
    ensures { result ≡ ((begun.epoch.0 == epoch.0) && (begun.pass.0 == pass.0)) }
{
    begun.epoch == epoch && begun.pass == pass
}

/// What is at fault with a take.
fn taken(made: bool, shown: bool) -> Option<Cause>
    ensures { result ≡ taken_as made shown }
{
    if made {
        fault_unless(shown, Cause::Fetch)
    } else {
        Some(Cause::Step)
    }
}

/// Whether a line's number is above the last.
fn is_later(last: Option<u32>, number: u32) -> bool
    ensures { result ≡ is_later last number }
{
    match last {
        Some(last) => last < number,
        None => true,
    }
}

impl Judge {
    /// Before the first entry.
    pub fn new(alloc: Global, spec: &Spec) -> Result<Judge, AllocError>
        requires { IsValid spec.now }
        ensures { IfOk result (λ judge. judge ≡ opening_standing spec.now) }
    {
        let replayed = Replayed::at_opening(alloc, spec)?;
        let turns = idle_turns(alloc, spec.controllers)?;
        let hops = hops_of(alloc, spec.models.as_slice())?;
        Ok(Judge {
            alloc,
            replayed,
            turns,
            marks: Vec::new(alloc),
            hops,
        })
    }

    fn is_session(&self, instance: InstanceId, session: SessionId) -> bool
        ensures { result ≡ Answers.is_session_now self.now.cluster instance session }
    {
        self.replayed.records().session_of(instance) == Some(session)
    }

    fn is_named(&self, name: Option<u32>, resource: ResourceId) -> bool
        ensures { result ≡ Answers.is_named self.now.cluster name resource }
    {
        is_named(self.replayed.records(), name, resource)
    }

    fn is_part(&self, part: &LogPart) -> bool
        ensures { result ≡ Answers.is_part self.now.cluster part.now }
    {
        is_part(self.replayed.records(), part)
    }

    fn is_pass(&self, controller: ControllerId, pass: PassNo) -> bool
        ensures { result ≡ is_pass self.now.cluster controller pass }
    {
        let records = self.replayed.records();
        records.has_controller(controller) && records.pass_of(controller) == pass
    }

    fn has_controller(&self, controller: ControllerId) -> bool
        ensures { result ≡ has_controller self.now.cluster controller }
    {
        self.replayed.records().has_controller(controller)
    }

    fn is_epoch(&self, epoch: Epoch) -> bool
        ensures { result ≡ is_epoch self.now.cluster epoch }
    {
        self.replayed.records().epoch() == epoch
    }

    /// Whether a controller is there, and leads.
    fn may_begin(&self, controller: ControllerId) -> bool
        ensures { result
            ≡ (has_controller self.now.cluster controller
            && is_leader controller self.now.cluster.leader) }
    {
        let records = self.replayed.records();
        records.has_controller(controller) && records.is_leader(controller)
    }

    /// Whether the last line is below a number.
    fn may_line(&self, number: u32) -> bool
        ensures { result ≡ is_later self.now.cluster.line number }
    {
        is_later(self.replayed.records().line(), number)
    }

    /// Whether a controller may post so many rows.
    fn may_post(&self, controller: ControllerId, epoch: Epoch, rows: &[Seen], count: u32) -> bool
        ensures { result ≡ may_post self.now.cluster controller epoch rows.now count }
    {
        self.has_controller(controller)
            && self.is_epoch(epoch)
            && rows.len() == count as usize
            && are_postable(self.replayed.records(), rows)
    }

    /// A controller's turn.
    fn turn_of(&self, controller: ControllerId) -> &Turn
        requires { has_controller self.now.cluster controller ≡ true }
        ensures { result.now ≡ turn_in self.now controller }
    {
        &self.turns[controller.0 as usize]
    }

    /// A step, whose answer is the one that the log tells.
    fn step(&mut self, step: &Admin, told: Told) -> Result<Option<Cause>, AllocError>
        ensures { IfOk result (λ cause. IsAnsweredAs self.old
            (Answers.stepped_if self.old.cluster
            (is_told told (did_of self.old.cluster step.now)) step.now) cause self.new) }
    {
        let Some(did) = self.replayed.answer_to(step)? else {
            return Ok(Some(Cause::Step));
        };
        if !is_told(told, &did) {
            return Ok(Some(Cause::Step));
        }
        self.replayed.make(step, &did)?;
        Ok(None)
    }

    /// A step of a session's.
    fn session_step(
        &mut self,
        instance: InstanceId,
        session: SessionId,
        step: &Admin,
    ) -> Result<Option<Cause>, AllocError>
        ensures { IfOk result (λ cause. IsAnsweredAs self.old
            (Answers.stepped_if self.old.cluster
            (Answers.is_session_now self.old.cluster instance session) step.now) cause self.new) }
    {
        let agrees = self.is_session(instance, session);
        self.step(step, Told::Agrees(agrees))
    }

    /// A resource that is added, if it may be wanted so.
    fn add(
        &mut self,
        name: u32,
        resource: ResourceId,
        model: ModelId,
        ideal: Option<Ideal>,
    ) -> Result<Option<Cause>, AllocError>
        ensures { IfOk result (λ cause. (replicas parts mode : ℕ)
            → IsBareIdeal replicas parts mode ideal
            → IsAnsweredAs self.old
            (Answers.answered self.old (LogEntry.Add name resource model replicas parts mode))
            cause self.new) }
    {
        let Some(ideal) = ideal else {
            return Ok(Some(Cause::Step));
        };
        self.step(&Admin::Add { name, model, ideal }, Told::Resource(resource))
    }

    fn drop_resource(
        &mut self,
        name: Option<u32>,
        resource: ResourceId,
    ) -> Result<Option<Cause>, AllocError>
        ensures { IfOk result (λ cause. IsAnsweredAs self.old
            (Answers.answered self.old (LogEntry.Drop name resource)) cause self.new) }
    {
        let agrees = self.is_named(name, resource);
        self.step(&Admin::Drop { resource }, Told::Agrees(agrees))
    }

    /// A step of a part's.
    fn part_step(&mut self, part: &LogPart, step: &Admin) -> Result<Option<Cause>, AllocError>
        ensures { IfOk result (λ cause. IsAnsweredAs self.old
            (Answers.stepped_if self.old.cluster
            (Answers.is_part self.old.cluster part.now) step.now) cause self.new) }
    {
        let agrees = self.is_part(part);
        self.step(step, Told::Agrees(agrees))
    }

    fn reset(
        &mut self,
        instance: InstanceId,
        session: SessionId,
        part: &LogPart,
    ) -> Result<Option<Cause>, AllocError>
        ensures { IfOk result (λ cause. IsAnsweredAs self.old
            (Answers.answered self.old (LogEntry.Reset instance session part.now)) cause self.new) }
    {
        let agrees = self.is_part(part) && self.is_session(instance, session);
        let part = part_of(part);
        self.step(&Admin::Reset { instance, part }, Told::Agrees(agrees))
    }

    /// An entry of a step that is no tick.
    fn judge_step(&mut self, entry: LogEntry) -> Result<Option<Cause>, AllocError>
        requires { tells_step entry ≡ true }
        ensures { IfOk result (λ cause. IsAnsweredAs self.old
            (Answers.answered self.old entry) cause self.new) }
    {
        match entry {
            LogEntry::Join(instance, s) => self.step(&Admin::Join { instance }, Told::Session(s)),
            LogEntry::End(instance, s) => self.session_step(instance, s, &Admin::End { instance }),
            LogEntry::Beat(instance, s) => {
                self.session_step(instance, s, &Admin::Beat { instance })
            }
            LogEntry::Drain(instance) => {
                self.step(&Admin::Drain { instance }, Told::Agrees(true))
            }
            LogEntry::Undrain(instance) => {
                self.step(&Admin::Undrain { instance }, Told::Agrees(true))
            }
            LogEntry::Add {
                name,
                resource,
                model,
                replicas,
                parts,
                mode,
            } => {
                let ideal = bare_ideal(self.alloc, replicas, parts, mode)?;
                self.add(name, resource, model, ideal)
            }
            LogEntry::Drop { name, resource } => self.drop_resource(name, resource),
            LogEntry::List { part, list } => {
                let step = Admin::SetList {
                    part: part_of(&part),
                    list,
                };
                self.part_step(&part, &step)
            }
            LogEntry::Map { part, map } => {
                let step = Admin::SetMap {
                    part: part_of(&part),
                    map,
                };
                self.part_step(&part, &step)
            }
            LogEntry::Reset {
                instance,
                session,
                part,
            } => self.reset(instance, session, &part),
            LogEntry::Lead(controller, epoch) => {
                self.step(&Admin::Lead { controller }, Told::Epoch(epoch))
            }
            LogEntry::Stop(controller) => {
                self.step(&Admin::Stop { controller }, Told::Agrees(true))
            }
            LogEntry::Start(controller) => {
                self.step(&Admin::Start { controller }, Told::Agrees(true))
            }
            _ => unreachable!(),
        }
    }

    /// A tick, with the sessions that it ended.
    fn tick(
        &mut self,
        n: u64,
        told: &[(InstanceId, SessionId)],
    ) -> Result<Option<Cause>, AllocError>
        ensures { IfOk result (λ cause. IsAnsweredAs self.old
            (Answers.answered self.old (LogEntry.Tick n told.now)) cause self.new) }
    {
        let step = Admin::Tick { n };
        let Some(did) = self.replayed.answer_to(&step)? else {
            return Ok(Some(Cause::Step));
        };
        let live = self.replayed.records().roster(self.alloc)?;
        if !has_ended(told, &did, live.as_slice()) {
            return Ok(Some(Cause::Step));
        }
        self.replayed.make(&step, &did)?;
        Ok(None)
    }

    fn line(&mut self, number: u32) -> Result<Option<Cause>, AllocError>
        ensures { IfOk result (λ cause. IsAnsweredAs self.old
            (Answers.answered self.old (LogEntry.Line number)) cause self.new) }
    {
        if !self.may_line(number) {
            return Ok(Some(Cause::Step));
        }
        self.replayed.take_line(number)?;
        Ok(None)
    }

    fn begin(
        &mut self,
        c: ControllerId,
        epoch: Epoch,
        pass: PassNo,
    ) -> Result<Option<Cause>, AllocError>
        ensures { IfOk result (λ cause. IsAnsweredAs self.old
            (Answers.answered self.old (LogEntry.Begin c epoch pass)) cause self.new) }
    {
        if !self.may_begin(c) {
            return Ok(Some(Cause::Step));
        }
        let begun = self.replayed.begin(c)?;
        if !is_begun(begun, epoch, pass) {
            return Ok(Some(Cause::Step));
        }
        begin_turn(self.alloc, &mut self.turns, c, begun)?;
        Ok(None)
    }

    /// A read of a turn.
    fn read(
        &mut self,
        c: ControllerId,
        pass: PassNo,
        read: Read,
    ) -> Result<Option<Cause>, AllocError>
        ensures { IfOk result (λ cause. IsAnsweredAs self.old
            (Answers.where_so (is_pass self.old.cluster c pass) (read_event c pass read))
            cause self.new) }
    {
        if !self.is_pass(c, pass) {
            return Ok(Some(Cause::Step));
        }
        if !self.turn_of(c).is_due(Call::Read(read), pass) {
            return Ok(Some(Cause::Order));
        }
        let records = self.replayed.records();
        read_turn(self.alloc, &mut self.turns, c, read, records)?;
        Ok(None)
    }

    /// Whether a controller may make a dispatch that a log tells.
    fn may_place(
        &self,
        controller: ControllerId,
        epoch: Epoch,
        pass: PassNo,
        moves: &[LogMove],
    ) -> bool
        ensures { result ≡ may_place self.now.cluster controller epoch pass moves.now }
    {
        are_moves(self.replayed.records(), moves)
            && self.is_epoch(epoch)
            && self.is_pass(controller, pass)
    }

    /// Makes a dispatch, and whether the cluster answers it as the log tells.
    fn place(
        &mut self,
        c: ControllerId,
        epoch: Epoch,
        pass: PassNo,
        moves: &[LogMove],
    ) -> Result<bool, AllocError>
        ensures made { IfOk result (λ so. IsMadeWhere
            (is_placed self.old.cluster c epoch pass moves.now) so
            (record self.old {
              cluster = after_dispatch self.old.cluster c (map Answers.proposal_of moves.now);
            }) self.new) }
        ensures turn { IfOk result (λ so. so ≡ true → c.0 < length self.old.turns) }
    {
        if !self.may_place(c, epoch, pass, moves) {
            return Ok(false);
        }
        let proposals = proposals_of(self.alloc, moves)?;
        let answer = self.replayed.dispatch(c, proposals.as_slice())?;
        Ok(are_answers(moves, answer.placed.as_slice()))
    }

    /// Goes on behind a send that is due and planned.
    fn send(
        &mut self,
        spec: &Spec,
        c: ControllerId,
        epoch: Epoch,
        pass: PassNo,
        moves: &[LogMove],
    ) -> Result<Option<Cause>, AllocError>
        requires there { has_controller self.old.cluster c ≡ true }
        requires models { spec.now.models ≡ self.old.cluster.models }
        ensures cause { IfOk result (λ cause. cause
            ≡ sent_as spec.now (turn_in self.old c) epoch pass
            (map Answers.proposal_of moves.now)) }
        ensures turn { IfOk result (λ cause. cause ≡ None → self.new ≡ record self.old {
          turns = slice_set self.old.turns c.0 (sent_on (turn_in self.old c));
        }) }
    {
        let turn = self.turn_of(c);
        if !turn.is_sending(pass, epoch) {
            return Ok(Some(Cause::Order));
        }
        let draft = draft(self.alloc, spec, self.hops.as_slice(), turn.view())?;
        let planned = draft.proposals(self.alloc)?;
        if !are_planned(moves, planned.as_slice()) {
            return Ok(Some(Cause::Plan));
        }
        go_on_turn(&mut self.turns, c);
        Ok(None)
    }

    fn dispatch(
        &mut self,
        spec: &Spec,
        c: ControllerId,
        epoch: Epoch,
        pass: PassNo,
        moves: &[LogMove],
    ) -> Result<Option<Cause>, AllocError>
        requires { spec.now.models ≡ self.old.cluster.models }
        ensures { IfOk result (λ cause. IsJudgedAs self.old
            (judged_entry spec.now self.old (Some (LogEntry.Dispatch c epoch pass moves.now)))
            cause self.new) }
    {
        let so = self.place(c, epoch, pass, moves)?;
        if !so {
            return Ok(Some(Cause::Step));
        }
        self.send(spec, c, epoch, pass, moves)
    }

    fn post(
        &mut self,
        c: ControllerId,
        epoch: Epoch,
        count: u32,
    ) -> Result<Option<Cause>, AllocError>
        ensures { IfOk result (λ cause. IsAnsweredAs self.old
            (Answers.answered self.old (LogEntry.Post c epoch count)) cause self.new) }
    {
        if !self.has_controller(c) {
            return Ok(Some(Cause::Step));
        }
        let rows = posted(self.alloc, self.turn_of(c).view())?;
        if !self.may_post(c, epoch, rows.as_slice(), count) {
            return Ok(Some(Cause::Step));
        }
        if !self.turn_of(c).is_posting(epoch) {
            return Ok(Some(Cause::Order));
        }
        self.replayed.publish(rows.as_slice())?;
        end_turn(self.alloc, &mut self.turns, c);
        Ok(None)
    }

    fn fetch(
        &mut self,
        instance: InstanceId,
        session: Option<SessionId>,
        count: u32,
    ) -> Result<Option<Cause>, AllocError>
        ensures { IfOk result (λ cause. IsAnsweredAs self.old
            (Answers.answered self.old (LogEntry.Fetch instance session count)) cause self.new) }
    {
        let records = self.replayed.records();
        let so = may_fetch(records, instance, session, count)?;
        if !so {
            return Ok(Some(Cause::Step));
        }
        let next = records.next_message();
        mark(&mut self.marks, session, next)?;
        Ok(None)
    }

    fn take(&mut self, session: SessionId, id: MsgId) -> Option<Cause>
        ensures { IsAnsweredAs self.old
            (Answers.answered self.old (LogEntry.Take session id)) result self.new }
    {
        let shown = is_marked(self.marks.as_slice(), session, id);
        taken(self.replayed.take(session, id), shown)
    }

    fn write(&mut self, session: SessionId, id: MsgId, outcome: Outcome) -> Option<Cause>
        ensures { IsAnsweredAs self.old
            (Answers.answered self.old (LogEntry.Write session id outcome)) result self.new }
    {
        fault_unless(self.replayed.write(session, id, outcome), Cause::Step)
    }

    fn ack(&mut self, session: SessionId, id: MsgId) -> Option<Cause>
        ensures { IsAnsweredAs self.old
            (Answers.answered self.old (LogEntry.Ack session id)) result self.new }
    {
        fault_unless(self.replayed.ack(session, id), Cause::Step)
    }

    /// Judges an entry: the first cause against it, or none.
    pub fn judge(&mut self, spec: &Spec, entry: LogEntry) -> Result<Option<Cause>, AllocError>
        requires { spec.now.models ≡ self.old.cluster.models }
        ensures { IfOk result (λ cause. IsJudgedAs self.old
            (judged_entry spec.now self.old (Some entry)) cause self.new) }
    {
        match entry {
            LogEntry::Line(n) => self.line(n),
            LogEntry::Tick { n, ended } => self.tick(n, ended.as_slice()),
            LogEntry::Begin { c, epoch, pass } => self.begin(c, epoch, pass),
            LogEntry::Live(c, pass) => self.read(c, pass, Read::Live),
            LogEntry::Mail(c, pass, s) => self.read(c, pass, Read::Mail(s)),
            LogEntry::States(c, pass, s) => self.read(c, pass, Read::States(s)),
            LogEntry::Ideals(c, pass) => self.read(c, pass, Read::Ideals),
            LogEntry::Dispatch {
                c,
                epoch,
                pass,
                moves,
            } => self.dispatch(spec, c, epoch, pass, moves.as_slice()),
            LogEntry::Post { c, epoch, rows } => self.post(c, epoch, rows),
            LogEntry::Fetch {
                instance,
                session,
                count,
            } => self.fetch(instance, session, count),
            LogEntry::Take(s, m) => Ok(self.take(s, m)),
            LogEntry::Write(s, m, outcome) => Ok(self.write(s, m, outcome)),
            LogEntry::Ack(s, m) => Ok(self.ack(s, m)),
            other => self.judge_step(other),
        }
    }
}
