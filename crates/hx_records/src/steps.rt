//! The steps that an operator, a session or a controller asks for.
ghost use Rattle.std.specs.Prelude.{◌≡◌, None, false, true, IfOk, OnOk, OnErr};
ghost use Rattle.hx_cluster.specs.Steps.{refusal_of, after, did_of, is_in_range};
ghost use Rattle.hx_cluster.specs.Numbered.{is_end};
ghost use Rattle.hx_cluster.specs.Room.{HasRoom};
ghost use Rattle.hx_safe.proofs.Beside.{is_aside};
ghost use Rattle.hx_safe.proofs.Whole.{IsWhole};
ghost use Rattle.hx_records.specs.Making.{IsMakeable};
ghost use Rattle.hx_records.specs.Reached.{IsReached};

use crate::Records;
use hx_cluster::{Admin, Did, add_flag};
use hx_ids::{InstanceId, PartId, ResourceId, SessionId};
use hx_lists::Seq;
use std::alloc::AllocError;

/// The most sessions that are live at once.
const MOST_LIVE: u32 = 1 << 31;

impl Records {
    /// What a step answers that nothing refuses. That of an end takes no memory.
    pub fn answer_to(&self, step: &Admin) -> Result<Did, AllocError>
        requires may { refusal_of self.now step.now ≡ None }
        requires room { HasRoom self.now }
        ensures did { IfOk result (λ did. did ≡ did_of self.now step.now) }
        ensures memory { OnErr result (is_end step.now ≡ false) }
    {
        match step {
            Admin::Tick { n } => {
                let ended = self
                    .sessions
                    .expired(self.rest.clock + n, self.rest.timeout)?;
                Ok(Did::Ended(Seq::from_vec(ended)))
            }
            Admin::Join { .. } => Ok(Did::Joined(SessionId(self.rest.next_session))),
            Admin::Add { .. } => Ok(Did::Added(ResourceId(self.rest.resources.len() as u32))),
            Admin::Lead { .. } => Ok(Did::Leads(self.rest.epoch)),
            _ => Ok(Did::Done),
        }
    }

    fn join(&mut self, instance: InstanceId) -> Result<(), AllocError>
        requires may { refusal_of self.old (Admin.Join instance) ≡ None }
        requires range { is_in_range self.old (Admin.Join instance) ≡ true }
        requires whole { IsWhole self.old }
        requires room { HasRoom self.old }
        ensures ok { OnOk result (self.new ≡ after self.old (Admin.Join instance)) }
        ensures err { OnErr result (self.new ≡ self.old) }
    {
        if self.live >= MOST_LIVE {
            return Err(AllocError);
        }
        let session = self.sessions.open(instance, self.rest.clock)?;
        self.live += 1;
        self.seats.set(instance.0 as usize, Some(session));
        self.rest.next_session += 1;
        self.rest.change += 1;
        Ok(())
    }

    fn end(&mut self, instance: InstanceId)
        requires whole { IsWhole self.old }
        requires room { HasRoom self.old }
        ensures { self.new ≡ after self.old (Admin.End instance) }
    {
        if let Some(session) = self.session_of(instance) {
            self.end_session(instance, session);
        }
    }

    fn beat(&mut self, instance: InstanceId)
        requires { IsWhole self.old }
        ensures { self.new ≡ after self.old (Admin.Beat instance) }
    {
        if let Some(session) = self.session_of(instance) {
            let _ = self.sessions.beat(session, self.rest.clock);
        }
    }

    fn reset(&mut self, instance: InstanceId, part: PartId) -> Result<(), AllocError>
        requires { HasRoom self.old }
        ensures ok { OnOk result (self.new ≡ after self.old (Admin.Reset instance part)) }
        ensures err { OnErr result (self.new ≡ self.old) }
    {
        if let Some(session) = self.session_of(instance) {
            add_flag(&mut self.rest.resets, (session, part))?;
            self.rest.change += 1;
        }
        Ok(())
    }

    fn tick(&mut self, n: u64, did: &Did)
        requires may { refusal_of self.old (Admin.Tick n) ≡ None }
        requires did { did.now ≡ did_of self.old (Admin.Tick n) }
        requires whole { IsWhole self.old }
        requires room { HasRoom self.old }
        ensures { self.new ≡ after self.old (Admin.Tick n) }
    {
        let Did::Ended(ended) = did else {
            unreachable!()
        };
        self.rest.clock += n;
        self.end_sessions(ended.as_slice());
    }

    /// Makes a step that is no join, end, beat, tick or reset.
    fn make_aside(&mut self, step: &Admin, did: &Did) -> Result<(), AllocError>
        requires aside { is_aside step.now ≡ true }
        requires may { IsMakeable self.old step.now did.now }
        requires whole { IsWhole self.old }
        requires room { HasRoom self.old }
        ensures ok { OnOk result (self.new ≡ after self.old step.now) }
        ensures err { OnErr result (self.new ≡ self.old) }
    {
        self.rest.make(step, did)
    }

    /// Makes a step that nothing refuses, with its answer. An end takes no memory.
    pub fn make(&mut self, step: &Admin, did: &Did) -> Result<(), AllocError>
        requires may { refusal_of self.old step.now ≡ None }
        requires did { did.now ≡ did_of self.old step.now }
        requires range { is_in_range self.old step.now ≡ true }
        requires reached { IsReached self.old }
        requires room { HasRoom self.old }
        ensures ok { OnOk result (self.new ≡ after self.old step.now) }
        ensures err { OnErr result (self.new ≡ self.old) }
        ensures memory { OnErr result (is_end step.now ≡ false) }
    {
        match step {
            Admin::Join { instance } => self.join(*instance),
            Admin::End { instance } => {
                self.end(*instance);
                Ok(())
            }
            Admin::Beat { instance } => {
                self.beat(*instance);
                Ok(())
            }
            Admin::Tick { n } => {
                self.tick(*n, did);
                Ok(())
            }
            Admin::Reset { instance, part } => self.reset(*instance, *part),
            _ => self.make_aside(step, did),
        }
    }
}
