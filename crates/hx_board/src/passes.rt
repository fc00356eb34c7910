//! The passes of controllers: how they begin, and what their reads show.
ghost use Rattle.std.specs.Prelude.{◌≡◌, ◌++◌, ◌↔◌, true, IfOk, OnOk, OnErr, IsTrue};
ghost use Rattle.hx_lists.specs.Answers.{RefusedBy};
ghost use Rattle.hx_cluster.specs.Steps.{has_controller};
ghost use Rattle.hx_cluster.specs.Reads.{live_shown, mail_shown, states_shown, ideals_shown};
ghost use Rattle.hx_cluster.specs.Events.{begun_of};
ghost use Rattle.hx_board.specs.Board.{happened};
ghost use Rattle.hx_board.specs.Refusals.{begin_refusal, read_refusal};

use crate::board::{Board, make_room, record};
use crate::faults::{BeginFault, ReadRefusal};
use hx_calls::no_ideals;
use hx_cluster::{Begun, Event, Ideals, Message, Row};
use hx_ids::{ControllerId, InstanceId, PassNo, SessionId};
use hx_lists::Seq;

impl Board {
    fn begin_fault(&self, c: ControllerId) -> Option<BeginFault>
        ensures { result ≡ begin_refusal self.now c }
    {
        if !self.records.is_leader(c) {
            return Some(BeginFault::NotLeader {
                led_by: self.records.leader(),
            });
        }
        self.full(1)
            .map(|weight| BeginFault::HistoryFull { weight })
    }

    fn read_fault(&self, c: ControllerId, pass: PassNo) -> Option<ReadRefusal>
        ensures { result ≡ read_refusal self.now c pass }
    {
        let now = self.records.pass_of(c);
        if now != pass {
            return Some(ReadRefusal::OldPass { now });
        }
        self.full(1)
            .map(|weight| ReadRefusal::HistoryFull { weight })
    }

    /// Begins a pass of a controller.
    pub fn begin(&mut self, c: ControllerId) -> Result<Begun, BeginFault>
        requires { has_controller self.old.cluster c ≡ true }
        ensures refused { RefusedBy BeginFault.OutOfMemory (begin_refusal self.old c) result }
        ensures answer { IfOk result (λ begun. begun ≡ begun_of self.old.cluster c) }
        ensures ok { IfOk result (λ begun. self.new ≡ happened self.old (Event.Begin c begun)) }
        ensures err { OnErr result (self.new ≡ self.old) }
    {
        if let Some(fault) = self.begin_fault(c) {
            return Err(fault);
        }
        make_room(&mut self.history, self.owed, 1)?;
        let begun = self.records.begin(c);
        record(&mut self.history, Event::Begin(c, begun));
        self.weight += 1;
        Ok(begun)
    }

    /// The live sessions with their instances, by instance.
    pub fn read_live(
        &mut self,
        c: ControllerId,
        pass: PassNo,
    ) -> Result<Vec<(SessionId, InstanceId)>, ReadRefusal>
        requires { has_controller self.old.cluster c ≡ true }
        ensures refused { RefusedBy ReadRefusal.OutOfMemory (read_refusal self.old c pass) result }
        ensures shown { IfOk result (λ shown. shown.items ≡ live_shown self.old.cluster) }
        ensures ok { OnOk result (self.new ≡ happened self.old (Event.Live c pass)) }
        ensures err { OnErr result (self.new ≡ self.old) }
    {
        if let Some(fault) = self.read_fault(c, pass) {
            return Err(fault);
        }
        make_room(&mut self.history, self.owed, 1)?;
        let shown = self.records.read_live()?;
        record(&mut self.history, Event::Live(c, pass));
        self.weight += 1;
        Ok(shown)
    }

    /// A session's pending messages, by number; none where it has ended.
    pub fn read_mail(
        &mut self,
        c: ControllerId,
        pass: PassNo,
        session: SessionId,
    ) -> Result<Vec<Message>, ReadRefusal>
        requires { has_controller self.old.cluster c ≡ true }
        ensures refused { RefusedBy ReadRefusal.OutOfMemory (read_refusal self.old c pass) result }
        ensures shown { IfOk result (λ mail. mail.items ≡ mail_shown self.old.cluster session) }
        ensures ok { OnOk result (self.new ≡ happened self.old (Event.Mail c pass session)) }
        ensures err { OnErr result (self.new ≡ self.old) }
    {
        let mut shown = Seq::new(*self.lines.allocator());
        self.read_mail_into(c, pass, session, &mut shown)?;
        Ok(shown.into_vec())
    }

    /// Adds a session's pending messages, by number, to those that were shown before.
    pub fn read_mail_into(
        &mut self,
        c: ControllerId,
        pass: PassNo,
        session: SessionId,
        shown: &mut Seq<Message>,
    ) -> Result<(), ReadRefusal>
        requires { has_controller self.old.cluster c ≡ true }
        ensures refused { RefusedBy ReadRefusal.OutOfMemory (read_refusal self.old c pass) result }
        ensures shown { OnOk result
            (shown.new ≡ shown.old ++ mail_shown self.old.cluster session) }
        ensures ok { OnOk result (self.new ≡ happened self.old (Event.Mail c pass session)) }
        ensures err { OnErr result ((self.new ≡ self.old) × (shown.new ≡ shown.old)) }
    {
        if let Some(fault) = self.read_fault(c, pass) {
            return Err(fault);
        }
        make_room(&mut self.history, self.owed, 1)?;
        self.records.read_mail_into(session, shown)?;
        record(&mut self.history, Event::Mail(c, pass, session));
        self.weight += 1;
        Ok(())
    }

    /// A session's rows, by part; none where it has ended.
    pub fn read_states(
        &mut self,
        c: ControllerId,
        pass: PassNo,
        session: SessionId,
    ) -> Result<Vec<Row>, ReadRefusal>
        requires { has_controller self.old.cluster c ≡ true }
        ensures refused { RefusedBy ReadRefusal.OutOfMemory (read_refusal self.old c pass) result }
        ensures shown { IfOk result (λ rows. rows.items ≡ states_shown self.old.cluster session) }
        ensures ok { OnOk result (self.new ≡ happened self.old (Event.States c pass session)) }
        ensures err { OnErr result (self.new ≡ self.old) }
    {
        let mut shown = Seq::new(*self.lines.allocator());
        self.read_states_into(c, pass, session, &mut shown)?;
        Ok(shown.into_vec())
    }

    /// Adds a session's rows, by part, to those that were shown before.
    pub fn read_states_into(
        &mut self,
        c: ControllerId,
        pass: PassNo,
        session: SessionId,
        shown: &mut Seq<Row>,
    ) -> Result<(), ReadRefusal>
        requires { has_controller self.old.cluster c ≡ true }
        ensures refused { RefusedBy ReadRefusal.OutOfMemory (read_refusal self.old c pass) result }
        ensures shown { OnOk result
            (shown.new ≡ shown.old ++ states_shown self.old.cluster session) }
        ensures ok { OnOk result (self.new ≡ happened self.old (Event.States c pass session)) }
        ensures err { OnErr result ((self.new ≡ self.old) × (shown.new ≡ shown.old)) }
    {
        if let Some(fault) = self.read_fault(c, pass) {
            return Err(fault);
        }
        make_room(&mut self.history, self.owed, 1)?;
        self.records.read_states_into(session, shown)?;
        record(&mut self.history, Event::States(c, pass, session));
        self.weight += 1;
        Ok(())
    }

    /// The resources, the drained instances and the reset flags.
    pub fn read_ideals(&mut self, c: ControllerId, pass: PassNo) -> Result<Ideals, ReadRefusal>
        requires { has_controller self.old.cluster c ≡ true }
        ensures refused { RefusedBy ReadRefusal.OutOfMemory (read_refusal self.old c pass) result }
        ensures shown { IfOk result (λ ideals. ideals ≡ ideals_shown self.old.cluster) }
        ensures ok { OnOk result (self.new ≡ happened self.old (Event.Ideals c pass)) }
        ensures err { OnErr result (self.new ≡ self.old) }
    {
        let kept = no_ideals(*self.lines.allocator());
        self.read_ideals_over(c, pass, kept)
    }

    /// The resources, the drained instances and the reset flags. What `kept` has in the same place
    /// is kept, and takes no memory; the rest is copied.
    pub fn read_ideals_over(
        &mut self,
        c: ControllerId,
        pass: PassNo,
        kept: Ideals,
    ) -> Result<Ideals, ReadRefusal>
        requires { has_controller self.old.cluster c ≡ true }
        ensures refused { RefusedBy ReadRefusal.OutOfMemory (read_refusal self.old c pass) result }
        ensures shown { IfOk result (λ ideals. ideals ≡ ideals_shown self.old.cluster) }
        ensures ok { OnOk result (self.new ≡ happened self.old (Event.Ideals c pass)) }
        ensures err { OnErr result (self.new ≡ self.old) }
    {
        let mut ideals = kept;
        self.reread_ideals(c, pass, &mut ideals)?;
        Ok(ideals)
    }

    /// Reads the resources, the drained instances and the reset flags over `kept`, and tells whether
    /// they are as they were in it. What it has in the same place stays, and takes no memory; the
    /// rest is copied.
    pub fn reread_ideals(
        &mut self,
        c: ControllerId,
        pass: PassNo,
        kept: &mut Ideals,
    ) -> Result<bool, ReadRefusal>
        requires { has_controller self.old.cluster c ≡ true }
        ensures refused { RefusedBy ReadRefusal.OutOfMemory (read_refusal self.old c pass) result }
        ensures same { IfOk result (λ same.
            IsTrue same ↔ (kept.old ≡ ideals_shown self.old.cluster)) }
        ensures shown { OnOk result (kept.new ≡ ideals_shown self.old.cluster) }
        ensures ok { OnOk result (self.new ≡ happened self.old (Event.Ideals c pass)) }
        ensures err { OnErr result (self.new ≡ self.old) }
    {
        if let Some(fault) = self.read_fault(c, pass) {
            return Err(fault);
        }
        make_room(&mut self.history, self.owed, 1)?;
        let same = self.records.reread_ideals(kept)?;
        record(&mut self.history, Event::Ideals(c, pass));
        self.weight += 1;
        Ok(same)
    }
}
