//! The steps that an operator, a session or a controller asks for.
ghost use Rattle.std.specs.Prelude.{◌≡◌, ℕ, ◌+◌, ◌^◌, ◌<◌, ◌≤◌, [], ◌∷◌, ◌++◌, ◌==◌, not, length};
ghost use Rattle.std.specs.Prelude.{filter, slice_set, slice_get, vec_len, vec_capacity, OnOk};
ghost use Rattle.std.specs.Prelude.{OnErr, IfOk};
ghost use Rattle.hx_ids.specs.Expiry.{expired, is_expired as is_expired_of};
ghost use Rattle.hx_lists.specs.Lists.{insert_by};
ghost use Rattle.hx_cluster.specs.Ends.{is_session};
ghost use Rattle.hx_cluster.specs.Steps.{after, without, with_flag, flag_before, with_down};
ghost use Rattle.hx_cluster.specs.Steps.{without_all, ended_by};
ghost use Rattle.hx_cluster.specs.Room.{half, HasRoom};

use crate::description::Resource;
use crate::happenings::{Admin, StepFault};
use crate::state::{Cluster, Message, Row};
use hx_ideal::Ideal;
use hx_ids::{
    ControllerId, Epoch, InstanceId, Live, ModelId, PartId, PassNo, ResourceId, SessionId,
};
use hx_lists::Seq;
use std::alloc::AllocError;

impl From<AllocError> for StepFault {
    ghost use Rattle.hx_cluster.specs.declared.happenings.StepFault.TheVariants.{OutOfMemory};

    ghost from_gives = { λ _ e. e ≡ OutOfMemory };

    fn from(_e: AllocError) -> StepFault {
        StepFault::OutOfMemory
    }
}

impl Cluster {
    /// Opens the next session of an instance, at the clock.
    pub(crate) fn open_session(&mut self, instance: InstanceId) -> Result<(), AllocError>
        requires { HasRoom self.old }
        ensures ok { OnOk result (self.new ≡ after self.old (Admin.Join instance)) }
        ensures err { OnErr result (self.new ≡ self.old) }
    {
        let session = SessionId(self.next_session);
        let beat = self.clock;
        self.live.push(Live {
            session,
            instance,
            beat,
        })?;
        self.next_session += 1;
        self.change += 1;
        Ok(())
    }

    /// Sets the last beat of an instance's session to the clock, and moves the session behind the
    /// others.
    pub(crate) fn beat(&mut self, instance: InstanceId) -> Result<(), AllocError>
        ensures ok { OnOk result (self.new ≡ after self.old (Admin.Beat instance)) }
        ensures err { OnErr result (self.new ≡ self.old) }
    {
        match self.live_at(instance) {
            Some(live) => move_back(&mut self.live, live, self.clock),
            None => Ok(()),
        }
    }

    /// Marks an instance as drained or not.
    pub(crate) fn set_drained(&mut self, instance: InstanceId, drained: bool)
        requires range { instance.0 < length self.old.instances }
        requires room { HasRoom self.old }
        ensures { self.new
            ≡ record self.old {
              instances = slice_set self.old.instances instance.0 drained;
              change = self.old.change + 1;
            } }
    {
        self.instances.set(instance.0 as usize, drained);
        self.change += 1;
    }

    /// Adds a resource with the next number.
    pub(crate) fn add(&mut self, name: u32, model: ModelId, ideal: &Ideal) -> Result<(), AllocError>
        requires { HasRoom self.old }
        ensures ok { OnOk result (self.new ≡ after self.old (Admin.Add name model ideal.now)) }
        ensures err { OnErr result (self.new ≡ self.old) }
    {
        let ideal = ideal.clone()?;
        self.resources.push(Resource::new(name, model, ideal))?;
        self.change += 1;
        Ok(())
    }

    /// Marks a resource as dropped.
    pub(crate) fn drop_resource(&mut self, resource: ResourceId)
        requires { HasRoom self.old }
        ensures { self.new ≡ after self.old (Admin.Drop resource) }
    {
        if let Some(resource) = self.resources.get_mut(resource.0 as usize) {
            resource.dropped = true;
            self.change += 1;
        }
    }

    /// Sets a reset flag, in its place among the others.
    pub(crate) fn reset(&mut self, instance: InstanceId, part: PartId) -> Result<(), AllocError>
        requires { HasRoom self.old }
        ensures ok { OnOk result (self.new ≡ after self.old (Admin.Reset instance part)) }
        ensures err { OnErr result (self.new ≡ self.old) }
    {
        if let Some(live) = self.live_at(instance) {
            add_flag(&mut self.resets, (live.session, part))?;
            self.change += 1;
        }
        Ok(())
    }

    /// Sets whether a controller is down, and the number of its pass.
    pub fn set_controller(&mut self, controller: ControllerId, entry: (bool, PassNo))
        ensures { self.new
            ≡ record self.old { controllers = slice_set self.old.controllers controller.0 entry } }
    {
        let place = controller.0 as usize;
        if place < self.controllers.len() {
            self.controllers.set(place, entry);
        }
    }

    /// Marks a controller as down or not.
    pub(crate) fn set_down(&mut self, controller: ControllerId, down: bool)
        ensures { self.new ≡ with_down self.old controller down }
    {
        let place = controller.0 as usize;
        if let Some(entry) = self.controllers.get(place).copied() {
            self.set_controller(controller, (down, entry.1));
        }
    }

    /// Stops a controller. Where it led, nobody leads and a new epoch begins.
    pub(crate) fn stop(&mut self, controller: ControllerId)
        requires { HasRoom self.old }
        ensures { self.new ≡ after self.old (Admin.Stop controller) }
    {
        self.set_down(controller, true);
        if self.is_leader(controller) {
            self.leader = None;
            self.epoch = Epoch(self.epoch.0 + 1);
        }
    }

    /// The sessions that have had no beat for the timeout at a time, in order of last beat.
    pub(crate) fn expired(&self, now: u64) -> Result<Vec<SessionId>, AllocError>
        ensures { IfOk result (λ ended. ended.items ≡ expired self.now.live now self.now.timeout) }
    {
        let timeout = self.timeout;
        self.live
            .iter()
            .copied()
            .filter(|l| is_expired(l, now, timeout))
            .map(|l| l.session)
            .collect(self.live.allocator())
    }
}

fn is_expired(live: &Live, now: u64, timeout: u64) -> bool
    ensures { result ≡ is_expired_of now timeout live.now }
{
    timeout <= now.saturating_sub(live.beat)
}

fn move_back(live: &mut Seq<Live>, session: Live, beat: u64) -> Result<(), AllocError>
    ensures ok { OnOk result (
        live.new
        ≡ filter (λ x. not (is_session session.session x)) live.old
        ++ (record session { beat = beat }) ∷ []) }
    ensures err { OnErr result (live.new ≡ live.old) }
{
    let mut sessions = live.take_all();
    let room = sessions.reserve(1);
    if room.is_ok() {
        end_in(&mut sessions, session.session);
        sessions.push_reserved(Live { beat, ..session });
    }
    *live = Seq::from_vec(sessions);
    room
}

fn end_in(live: &mut Vec<Live>, session: SessionId)
    ensures kept { live.new.items ≡ filter (λ x. not (is_session session x)) live.old.items }
    ensures capacity { vec_capacity live.new ≡ vec_capacity live.old }
    ensures fewer { vec_len live.new ≤ vec_len live.old }
{
    live.retain(|l| l.session != session);
}

fn end_live(live: &mut Seq<Live>, session: SessionId)
    ensures { live.new ≡ filter (λ l. not (l.session.0 == session.0)) live.old }
{
    live.retain(|l| l.session != session);
}

fn end_rows(rows: &mut Seq<Row>, session: SessionId)
    ensures { rows.new ≡ filter (λ r. not (r.session.0 == session.0)) rows.old }
{
    rows.retain(|r| r.session != session);
}

fn end_mail(mail: &mut Seq<Message>, session: SessionId)
    ensures { mail.new ≡ filter (λ m. not (m.session.0 == session.0)) mail.old }
{
    mail.retain(|m| m.session != session);
}

fn end_resets(resets: &mut Seq<(SessionId, PartId)>, session: SessionId)
    ensures { resets.new ≡ filter (λ f. not (f.0.0 == session.0)) resets.old }
{
    resets.retain(|f| f.0 != session);
}

fn is_flag_before(flag: &(SessionId, PartId), other: (SessionId, PartId)) -> bool
    ensures { result ≡ flag_before flag.now other }
{
    *flag < other
}

/// Puts a flag in its place.
pub fn add_flag(
    flags: &mut Seq<(SessionId, PartId)>,
    flag: (SessionId, PartId),
) -> Result<(), AllocError>
    ensures ok { OnOk result (flags.new ≡ with_flag flags.old flag) }
    ensures err { OnErr result (flags.new ≡ flags.old) }
{
    flags.insert_by(flag, |f| is_flag_before(f, flag))
}

impl Cluster {
    /// Takes a session out, with its rows, its messages and its flags. It takes no memory.
    fn remove_session(&mut self, session: SessionId)
        requires { self.old.change + 1 < 2 ^ 64 }
        ensures { self.new ≡ without self.old session }
    {
        end_live(&mut self.live, session);
        end_rows(&mut self.rows, session);
        end_mail(&mut self.mail, session);
        end_resets(&mut self.resets, session);
        self.change += 1;
    }

    fn remove_sessions(&mut self, sessions: &[SessionId])
        requires { self.old.change < half }
        ensures { self.new ≡ without_all self.old sessions.now }
    {
        for session in sessions {
            self.remove_session(*session);
        }
    }

    /// Ends the session of an instance. It takes no memory.
    pub(crate) fn end(&mut self, instance: InstanceId)
        requires { HasRoom self.old }
        ensures { self.new ≡ after self.old (Admin.End instance) }
    {
        if let Some(live) = self.live_at(instance) {
            self.remove_session(live.session);
        }
    }

    /// Raises the clock, and ends the sessions that have had no beat for the timeout. It takes no
    /// memory.
    pub(crate) fn tick(&mut self, n: u64, ended: &[SessionId])
        requires clock { self.old.clock + n < 2 ^ 64 }
        requires ended { ended.now ≡ ended_by self.old n }
        requires room { HasRoom self.old }
        ensures { self.new ≡ after self.old (Admin.Tick n) }
    {
        self.clock += n;
        self.remove_sessions(ended);
    }
}
